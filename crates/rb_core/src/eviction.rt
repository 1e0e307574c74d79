//! Room for a row beside the live rows and the retained ones: those that were removed, and not dropped yet, since a
//! list that is being given may need them.
ghost use Rattle.std.specs.Prelude.{◌≡◌, ◌≤◌, IsTrue};
ghost use Rattle.rb_xdr.specs.Meter.{PaysAtMost};
ghost use Rattle.rb_proto.specs.Books.{AreTied, HasPlaceLeft, SameFrame};
ghost use Rattle.rb_connections.specs.Awaits.{StayOpen};
ghost use Rattle.rb_connections.specs.Listings.{CanContinueAll};
ghost use Rattle.rb_serving.specs.Serving.{HasRoom};
ghost use Rattle.rb_core.specs.Eviction.{Evicts};
ghost use Rattle.rb_serving.specs.Costs.{row_count_of};
ghost use Rattle.rb_core.specs.CallCosts.{PaysForRoom};

use rb_connections::Connections;
use rb_model::Message;
use rb_proto::{Books, Context};
use rb_registry::Registry;
use rb_xdr::Meter;

/// The number of retained rows from which a SET drops those that no list needs, even if there is room. With fewer it
/// does not walk the rows.
const MANY_RETAINED: usize = 16;

/// Returns whether there is room for a row beside the live and the retained rows, and few are retained.
fn is_roomy(registry: &Registry, limit: usize, meter: &mut Meter) -> bool
    requires tie { meter.old.tie ≡ registry.now.tie }
    requires limit { registry.now.limit ≡ limit }
    ensures room { IsTrue result → HasPlaceLeft registry.now }
    ensures cost { PaysAtMost meter.old meter.new 1 }
{
    let live = registry.len(meter);
    let retained = registry.retained();
    retained < MANY_RETAINED && retained < limit - live
}

/// Makes room for the row that a message will add. Retained rows that no list needs any more go. If the live and the
/// needed rows reach the limit, the connections become Lost whose lists began before the earliest change that removed a
/// needed row.
///
/// It is inlined, since for most calls there is nothing to do.
#[inline(always)]
pub fn make_room(
    connections: &mut Connections,
    books: &mut Books,
    context: &Context,
    message: &Message,
    meter: &mut Meter,
)
    requires tied { AreTied meter.old.tie books.old }
    requires tie { meter.old.tie ≡ connections.old.tie }
    requires limit { books.old.registry.limit ≡ context.now.limit }
    requires lists { CanContinueAll books.old.registry connections.old }
    ensures makes { Evicts context.now message.now
        connections.old books.old connections.new books.new }
    ensures room { HasRoom context.now message.now books.new }
    ensures lists { CanContinueAll books.new.registry connections.new }
    ensures open { StayOpen connections.old connections.new }
    ensures forwards { books.new.forwards ≡ books.old.forwards }
    ensures frame { SameFrame books.old books.new }
    ensures fewer { row_count_of books.new ≤ row_count_of books.old }
    ensures cost { PaysForRoom context.now
        message.now connections.old books.old books.new meter.old meter.new }
{
    let Message::Asked(call) = message else {
        return;
    };
    if is_roomy(&books.registry, context.limit, meter) {
        return;
    }
    if !books.wants_room(context, call, meter) {
        return;
    }
    books.trim(connections.oldest(meter), meter);
    let live = books.registry.len(meter);
    let (retained, earliest) = books.registry.retained_since(meter);
    if retained < context.limit - live {
        return;
    }
    connections.evict(earliest, meter);
    books.trim(connections.oldest(meter), meter);
}
