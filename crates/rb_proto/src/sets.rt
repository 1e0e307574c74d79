//! SET and UNSET, the procedures that change the registry (RFC 1833 sections 2.2 and 3.2).
ghost use Rattle.std.specs.Prelude.{◌≡◌, ◌+◌, [], Some, None, if◌then◌else◌};
ghost use Rattle.rb_xdr.specs.Meter.{PaysAtMost};
ghost use Rattle.rb_xdr.specs.Ordered.{looks};
ghost use Rattle.rb_registry.specs.Costs.{set_cost};
ghost use Rattle.rb_proto.specs.Puts.{PaysToRegister, PaysToUnset};
ghost use Rattle.rb_registry.specs.Registry.{rows_of};
ghost use Rattle.rb_registry.specs.Cursors.{GoesOn};
ghost use Rattle.rb_proto.specs.Books.{ActsAs, AreTied, SameFrame, HasRoomFor};
ghost use Rattle.rb_registry.specs.Rows.{is_change_left};
ghost use Rattle.rb_proto.specs.Reasons.{refusal_before, refusal_of, removal_refusal};
ghost use Rattle.rb_answers.specs.Answers.{row_to_set, has_share, accepts, set_row, unset_rows};

use crate::books::{Books, version_of};
use rb_address::{Family, Netid, Owner, Transport};
use rb_answers::{Call, Context, is_address, row_of_mapping, row_of_rpcb};
use rb_arguments::{LentRpcb, Mapping, MappingProcedure, Request, RpcbProcedure};
use rb_registry::{RPCB_PROG, Refusal, Registry, Row, Which};
use rb_rpc::CallHead;
use rb_uaddr::{AddressText, Uaddr};
use rb_xdr::Meter;

/// The row that a call asks to SET, if it does.
#[tactic(auto, unfolding(rb_answers::specs::Answers::row_to_set))]
pub(crate) fn row_to_set(context: &Context, call: &Call) -> Option<Row>
    ensures { result ≡ row_to_set context.now call.now }
{
    let owner = context.owner(&call.head);
    match &call.request {
        Request::Mapping(MappingProcedure::Set, mapping) => row_of_mapping(owner, mapping),
        Request::Rpcb(RpcbProcedure::Set, rpcb) => row_of_rpcb(owner, rpcb),
        _ => None,
    }
}

/// Why the caller may not set the row, whatever rows there are; `None` if it may.
fn refusal_before(context: &Context, row: &Row) -> Option<Refusal>
    ensures { result ≡ refusal_before context.now row.now }
{
    let is_here = context.comes_from_here();
    if !is_here {
        return Some(Refusal::MayNotRegister);
    }
    if row.prog == RPCB_PROG {
        return Some(Refusal::OwnProgram);
    }
    if !is_address(row.netid, &row.addr) {
        return Some(Refusal::NoAddress);
    }
    if !context.reserved.may_own(row) {
        return Some(Refusal::Reserved);
    }
    None
}

/// Why a SET is refused that names no row.
fn refusal_of_none(context: &Context) -> Refusal
    ensures { Some result ≡ refusal_of context.now [] 0 None }
{
    if context.comes_from_here() {
        Refusal::NoAddress
    } else {
        Refusal::MayNotRegister
    }
}

/// Why a SET was refused that the registry did not take: there was room for its row.
#[tactic(auto, unfolding(rb_registry::specs::Rows::is_change_left))]
fn refusal_by(registry: &Registry) -> Refusal
    ensures { result ≡ (if is_change_left registry.now.stamp then Refusal.Taken else Refusal.NoPlace) }
{
    if registry.stamp() < u64::MAX {
        Refusal::Taken
    } else {
        Refusal::NoPlace
    }
}

/// Whether the live rows are fewer than those among which the caller may set one more.
#[tactic(auto, unfolding(rb_answers::specs::Answers::has_share))]
fn has_share(registry: &Registry, context: &Context, meter: &mut Meter) -> bool
    requires { meter.old.tie ≡ registry.now.tie }
    ensures share { result ≡ has_share context.now (rows_of registry.now) }
    ensures cost { PaysAtMost meter.old meter.new 1 }
{
    registry.len(meter) < context.share()
}

/// Whether a SET of the row is accepted.
pub(crate) fn accepts(registry: &Registry, context: &Context, row: &Row, meter: &mut Meter) -> bool
    requires tie { meter.old.tie ≡ registry.now.tie }
    requires limit { registry.now.limit ≡ context.now.limit }
    ensures value { result
        ≡ accepts context.now (rows_of registry.now) registry.now.stamp row.now }
    ensures cost { PaysToRegister context.now (looks registry.now.limit + 2) meter.old meter.new }
{
    if refusal_before(context, row).is_some() {
        return false;
    }
    if !has_share(registry, context, meter) {
        return false;
    }
    let found = registry.find_exact(row.prog, row.vers, row.netid, meter);
    if found.is_some() {
        return false;
    }
    registry.stamp() < u64::MAX
}

/// Adds the row that a SET asks for, if there is one and it is accepted, and answers whether it was: then the SET is noted.
/// Why it was not is kept.
#[tactic(auto, unfolding(rb_answers::specs::Answers::set_row, rb_answers::specs::Answers::accepts_row))]
pub(crate) fn set_row(
    books: &mut Books,
    context: &Context,
    head: &CallHead,
    row: Option<Row>,
    meter: &mut Meter,
) -> bool
    requires tied { AreTied meter.old.tie books.old }
    requires limit { books.old.registry.limit ≡ context.now.limit }
    requires room { HasRoomFor context.now row books.old.registry }
    ensures acts { ActsAs (set_row context.now head.now row) books.old books.new result }
    ensures refusal { books.new.refusal
        ≡ refusal_of context.now (rows_of books.old.registry) books.old.registry.stamp row }
    ensures cursors { GoesOn books.old.registry books.new.registry }
    ensures floor { books.new.registry.floor ≡ books.old.registry.floor }
    ensures forwards { books.new.forwards ≡ books.old.forwards }
    ensures frame { SameFrame books.old books.new }
    ensures cost { PaysToRegister context.now
        (set_cost books.old.registry + 1) meter.old meter.new }
{
    let Some(row) = row else {
        books.refusal = Some(refusal_of_none(context));
        return false;
    };
    let refusal = refusal_before(context, &row);
    if refusal.is_some() {
        books.refusal = refusal;
        return false;
    }
    if !has_share(&books.registry, context, meter) {
        books.refusal = Some(Refusal::NoPlace);
        return false;
    }
    let added = books.registry.set(row, meter);
    if added {
        books.refusal = None;
        books.stats.note_set(version_of(head.vers));
    } else {
        books.refusal = Some(refusal_by(&books.registry));
    }
    added
}

/// Removes the rows of the program's version on these netids that the caller may remove, and answers
/// whether there was one: then the UNSET is noted. Why there was none is kept.
#[tactic(auto, unfolding(rb_answers::specs::Answers::unset_rows, rb_answers::specs::Answers::accepts_removal))]
pub(crate) fn unset_rows(
    books: &mut Books,
    context: &Context,
    head: &CallHead,
    prog: u32,
    vers: u32,
    which: Option<Which>,
    meter: &mut Meter,
) -> bool
    requires tied { AreTied meter.old.tie books.old }
    ensures acts { ActsAs (unset_rows context.now head.now prog vers which)
        books.old books.new result }
    ensures refusal { books.new.refusal ≡ removal_refusal context.now result }
    ensures cursors { GoesOn books.old.registry books.new.registry }
    ensures floor { books.new.registry.floor ≡ books.old.registry.floor }
    ensures forwards { books.new.forwards ≡ books.old.forwards }
    ensures frame { SameFrame books.old books.new }
    ensures cost { PaysToUnset context.now books.old.registry which meter.old meter.new }
{
    if !context.comes_from_here() {
        books.refusal = Some(Refusal::MayNotRegister);
        return false;
    }
    let Some(which) = which else {
        books.refusal = Some(Refusal::NothingToRemove);
        return false;
    };
    let owner = context.owner(head);
    let removed = books.registry.unset(prog, vers, which, owner, meter);
    if removed {
        books.refusal = None;
        books.stats.note_unset(version_of(head.vers));
    } else {
        books.refusal = Some(Refusal::NothingToRemove);
    }
    removed
}
