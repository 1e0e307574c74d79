//! Results, written after the head of a reply.
ghost use Rattle.std.specs.Prelude.{◌≡◌, ◌≤◌, ◌+◌, length};
ghost use Rattle.rb_xdr.specs.Meter.{PaysAtMost};
ghost use Rattle.rb_registry.specs.Registry.{rows_of};
ghost use Rattle.rb_stats.specs.Counting.{spelling};
ghost use Rattle.rb_answers.specs.Ledger.{Ledger};
ghost use Rattle.rb_proto.specs.Ledger.{StandsForLedger};
ghost use Rattle.rb_proto.specs.Books.{AreTied};
ghost use Rattle.rb_xdr.specs.Puts.{Puts};
ghost use Rattle.rb_proto.specs.Puts.{put_cost, list_cost, results_cost};
ghost use Rattle.rb_answers.specs.Costs.{statistics_cost};
ghost use Rattle.rb_forward.specs.Forwards.{longest_results};
ghost use Rattle.rb_answers.specs.Forwarding.{forwarded_bytes};
ghost use Rattle.rb_answers.specs.Results.{value_bytes, rows_bytes, shown_of};
ghost use Rattle.rb_proto.specs.Showing.{results_at, shown_in};

use crate::books::Books;
use crate::forwarding::uaddr_at;
use rb_answers::{Listing, Results, Value, room_after_rows, seek_version, write_rows};
use rb_arguments::Kind;
use rb_forward::{Forward, LONGEST_RESULTS};
use rb_registry::Registry;
use rb_stats::Stats;
use rb_xdr::{Full, Kept, Meter, Opaque, Text, Xdr};

/// Puts a value, unless the buffer would then have more than `limit` bytes.
fn put_within<T: Xdr>(
    value: &T,
    limit: usize,
    out: &mut Kept,
    meter: &mut Meter,
) -> Result<(), Full>
    requires tie { meter.old.tie ≡ out.old.tie }
    requires limit { limit ≤ out.old.cap }
    ensures puts { Puts (T.spelling value.now) limit out.old out.new result }
    ensures cost { PaysAtMost meter.old meter.new (put_cost out.old out.new) }
{
    let Some(room) = limit.checked_sub(out.len(meter)) else {
        return Err(Full { value: () });
    };
    if value.room_after(room).is_none() {
        return Err(Full { value: () });
    }
    value.write(out, meter);
    Ok(())
}

/// Puts results that are no list.
fn put_value(value: &Value, limit: usize, out: &mut Kept, meter: &mut Meter) -> Result<(), Full>
    requires tie { meter.old.tie ≡ out.old.tie }
    requires limit { limit ≤ out.old.cap }
    ensures puts { Puts (value_bytes value.now) limit out.old out.new result }
    ensures cost { PaysAtMost meter.old meter.new (put_cost out.old out.new) }
{
    match value {
        Value::Void if out.len(meter) <= limit => Ok(()),
        Value::Void => Err(Full { value: () }),
        Value::Bool(b) => put_within(b, limit, out, meter),
        Value::Number(n) => put_within(n, limit, out, meter),
        Value::Text(text) => put_within(text, limit, out, meter),
        Value::Netbuf(netbuf) => put_within(netbuf.content(), limit, out, meter),
    }
}

// PUT-1: Results that would be longer than the limit are refused whole, and nothing is put.
/// Puts the rows that a list shows, and its end: all or nothing.
#[tactic(auto, using(rb_answers::proofs::Searching::sought_few))]
fn put_rows(
    list: Listing,
    registry: &Registry,
    limit: usize,
    out: &mut Kept,
    meter: &mut Meter,
) -> Result<(), Full>
    requires registry { meter.old.tie ≡ registry.now.tie }
    requires out { meter.old.tie ≡ out.old.tie }
    requires limit { limit ≤ out.old.cap }
    ensures puts { Puts (rows_bytes (rows_of registry.now) list) limit out.old out.new result }
    ensures cost { PaysAtMost meter.old meter.new (list_cost registry.now out.old out.new) }
{
    let Some(room) = limit.checked_sub(out.len(meter)) else {
        return Err(Full { value: () });
    };
    let stamp = registry.stamp();
    let mut sought = None;
    seek_version(list, registry, stamp, &mut sought, meter);
    if room_after_rows(list, &sought, registry, stamp, room, meter).is_none() {
        return Err(Full { value: () });
    }
    write_rows(list, &sought, registry, stamp, out, meter);
    Ok(())
}

/// Puts the statistics: all or nothing. It takes most of the stack that writing results does, so it is not inlined: each
/// other reply does without.
#[inline(never)]
fn put_statistics(
    stats: &Stats,
    limit: usize,
    out: &mut Kept,
    meter: &mut Meter,
) -> Result<(), Full>
    requires stats { meter.old.tie ≡ stats.now.tie }
    requires out { meter.old.tie ≡ out.old.tie }
    requires limit { limit ≤ out.old.cap }
    ensures puts { Puts (spelling stats.now) limit out.old out.new result }
    ensures cost { PaysAtMost meter.old meter.new (statistics_cost + 3 + put_cost out.old out.new) }
{
    stats.put(limit, out, meter)
}

/// Puts the results of a procedure after what the buffer has, its head: rows and statistics are those of the books.
///
/// `Full`, and nothing is written, if the buffer would then have more than `limit` bytes. A list walks the rows
/// twice: to count its bytes, and to write them.
#[tactic(auto, using(crate::proofs::Shown::shown_where_standing), unfolding(rb_answers::specs::Results::result_bytes))]
pub fn put_results(
    results: &Results,
    books: &Books,
    limit: usize,
    out: &mut Kept,
    meter: &mut Meter,
) -> Result<(), Full>
    requires tied { AreTied meter.old.tie books.now }
    requires out { meter.old.tie ≡ out.old.tie }
    requires limit { limit ≤ out.old.cap }
    ensures puts { Puts (results_at books.now results.now) limit out.old out.new result }
    ensures shows { (l : Ledger) → StandsForLedger books.now l
        → shown_in books.now ≡ shown_of l }
    ensures within { length out.old.bytes ≤ limit → length out.new.bytes ≤ limit }
    ensures cost { PaysAtMost meter.old meter.new
        (results_cost books.now results.now out.old out.new) }
{
    match results {
        Results::Value(value) => put_value(value, limit, out, meter),
        Results::Rows(list) => put_rows(*list, &books.registry, limit, out, meter),
        Results::Statistics => put_statistics(&books.stats, limit, out, meter),
    }
}

/// Puts what the caller of a forwarded call is told when it passed: where the call went, and its results, of which there
/// are at most 8,800 bytes (RFC 1833 section 2.1, rpcb_rmtcallres, and section 3.1, call_result).
///
/// They are refused, and nothing is put, if the buffer would then have more than `limit` bytes.
#[tactic(auto, unfolding(rb_answers::specs::Forwarding::forwarded_bytes, rb_forward::specs::Forwards::longest_results))]
pub fn put_forwarded(
    forward: &Forward,
    results: &[u8],
    limit: usize,
    out: &mut Kept,
    meter: &mut Meter,
) -> Result<(), Full>
    requires tie { meter.old.tie ≡ out.old.tie }
    requires limit { limit ≤ out.old.cap }
    requires results { length results.now ≤ longest_results }
    ensures puts { Puts (forwarded_bytes forward.now results.now) limit out.old out.new result }
    ensures within { length out.old.bytes ≤ limit → length out.new.bytes ≤ limit }
    ensures cost { PaysAtMost meter.old meter.new (put_cost out.old out.new) }
{
    let results = Opaque::<LONGEST_RESULTS>::new(results);
    match forward.kind {
        Kind::Callit2 => {
            let port = u32::from(forward.shown.port());
            put_within(&(port, results), limit, out, meter)
        }
        Kind::Callit3 | Kind::Bcast | Kind::Indirect => {
            let text = Text::<128>::new(uaddr_at(forward.shown).text().as_slice());
            put_within(&(text, results), limit, out, meter)
        }
    }
}
