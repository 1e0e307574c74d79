//! The procedures that look something up, or turn an address into another form (RFC 1833 sections 2.2 and 3.2).
ghost use Rattle.std.specs.Prelude.{◌≡◌, ◌+◌, option_copied};
ghost use Rattle.rb_xdr.specs.Meter.{PaysAtMost};
ghost use Rattle.rb_proto.specs.Books.{ActsAs, AreTied, NotesLookUp, SameFrame};
ghost use Rattle.rb_answers.specs.Terms.{counts_look_up};
ghost use Rattle.rb_answers.specs.Ledger.{version_of};
ghost use Rattle.rb_answers.specs.Answers.{shown_address, shown_text, shown_port, port_found, is_replaced, is_told_anew, addr_told, addr_found, getport, getaddr, getversaddr, target_of, seconds, taddr_of, uaddr_of};
ghost use Rattle.rb_uaddr.specs.Uaddr.{text_of};
ghost use Rattle.rb_answers.specs.Costs.{note_cost};
ghost use Rattle.rb_proto.specs.Puts.{lookup_cost};

use crate::books::{Books, version_of};
use crate::terms::counts_look_up;
use rb_address::{Family, Netid, Transport};
use rb_answers::{AddressBuf, Context, address_in, shown_port, text_of};
use rb_arguments::{LentNetbuf, LentRpcb, LentText, Mapping};
use rb_registry::Row;
use rb_rpc::CallHead;
use rb_stats::{Stats, Target};
use rb_uaddr::{Hosts, MAX_KEPT, Uaddr};
use rb_xdr::{Meter, Text};

/// The row's universal address as a caller is told it: a host of its family stands in for 0.0.0.0 or ::.
#[tactic(auto, unfolding(rb_answers::specs::Answers::shown_address))]
fn shown_address(hosts: &Hosts, row: &Row) -> Option<Uaddr>
    ensures { result ≡ shown_address hosts.now row.now }
{
    Some(address_in(row.netid, &row.addr)?.merge(hosts))
}

/// The port of a row that was looked up, or 0 if there is none.
fn port_found(found: Option<&Row>) -> u32
    ensures { result ≡ port_found (option_copied found.entry) }
{
    match found {
        Some(row) => shown_port(row),
        None => 0,
    }
}

/// The address of a row as it is told to who looks it up: the name of a local socket stays as it was set.
fn addr_told(hosts: &Hosts, row: &Row) -> Text<MAX_KEPT>
    ensures { result ≡ addr_told hosts.now row.now }
{
    match shown_address(hosts, row) {
        Some(address) => text_of(address),
        None => Text::new(row.addr.as_slice()),
    }
}

/// The address of a row that was looked up, or the empty text if there is none.
fn addr_found(hosts: &Hosts, found: Option<&Row>) -> Text<MAX_KEPT>
    ensures { result ≡ addr_found hosts.now (option_copied found.entry) }
{
    match found {
        Some(row) => addr_told(hosts, row),
        None => Text::new(&[]),
    }
}

/// What a call asks for on the netid by which it came.
fn target_of(context: &Context, rpcb: &LentRpcb) -> Target
    ensures { result ≡ target_of context.now rpcb.now }
{
    Target {
        prog: rpcb.prog(),
        vers: rpcb.vers(),
        netid: context.netid(),
    }
}

/// Notes a look-up, in a call of this head, with whether it found a row, if that counts.
fn note_lookup(
    stats: &mut Stats,
    context: &Context,
    head: &CallHead,
    target: Target,
    found: Option<&Row>,
    meter: &mut Meter,
)
    requires { meter.old.tie ≡ stats.old.tie }
    ensures history { NotesLookUp context.now head.now target found.entry stats.old stats.new }
    ensures memory { stats.new.memory ≡ stats.old.memory }
    ensures tie { stats.new.tie ≡ stats.old.tie }
    ensures cost { PaysAtMost meter.old meter.new (note_cost + 2) }
{
    if counts_look_up(context, target.vers, found) {
        stats.note_addr(version_of(head.vers), target, found.is_some(), meter);
    }
}

/// PMAPPROC_GETPORT (RFC 1833 section 3.2): the port is ignored, and 0 says that there is no row. A look-up by the
/// protocol of a transport is noted.
#[tactic(auto, unfolding(rb_answers::specs::Answers::getport))]
pub(crate) fn getport(
    books: &mut Books,
    context: &Context,
    head: &CallHead,
    mapping: &Mapping,
    meter: &mut Meter,
) -> u32
    requires { AreTied meter.old.tie books.old }
    ensures acts { ActsAs (getport context.now head.now mapping.now) books.old books.new result }
    ensures registry { books.new.registry ≡ books.old.registry }
    ensures forwards { books.new.forwards ≡ books.old.forwards }
    ensures frame { SameFrame books.old books.new }
    ensures cost { PaysAtMost meter.old meter.new (lookup_cost books.old) }
{
    let Some(transport) = Transport::of_protocol(mapping.prot) else {
        return 0;
    };
    let netid = Netid::of(transport, Family::Inet);
    let target = Target {
        prog: mapping.prog,
        vers: mapping.vers,
        netid,
    };
    let found = books
        .registry
        .find(mapping.prog, mapping.vers, netid, meter);
    let port = port_found(found);
    note_lookup(&mut books.stats, context, head, target, found, meter);
    port
}

/// RPCBPROC_GETADDR (RFC 1833 section 2.2.1), on the netid by which the call came: that of the argument is ignored. The
/// look-up is noted.
#[tactic(auto, unfolding(rb_answers::specs::Answers::getaddr))]
pub(crate) fn getaddr(
    books: &mut Books,
    context: &Context,
    head: &CallHead,
    rpcb: &LentRpcb,
    meter: &mut Meter,
) -> Text<MAX_KEPT>
    requires { AreTied meter.old.tie books.old }
    ensures acts { ActsAs (getaddr context.now head.now rpcb.now) books.old books.new result }
    ensures registry { books.new.registry ≡ books.old.registry }
    ensures forwards { books.new.forwards ≡ books.old.forwards }
    ensures frame { SameFrame books.old books.new }
    ensures cost { PaysAtMost meter.old meter.new (lookup_cost books.old) }
{
    let found = books
        .registry
        .find(rpcb.prog(), rpcb.vers(), context.netid(), meter);
    let addr = addr_found(&context.hosts(), found);
    let target = target_of(context, rpcb);
    note_lookup(&mut books.stats, context, head, target, found, meter);
    addr
}

/// RPCBPROC_GETVERSADDR (RFC 1833 section 2.2.2): as GETADDR, but of the exact version alone.
#[tactic(auto, unfolding(rb_answers::specs::Answers::getversaddr))]
pub(crate) fn getversaddr(
    books: &mut Books,
    context: &Context,
    head: &CallHead,
    rpcb: &LentRpcb,
    meter: &mut Meter,
) -> Text<MAX_KEPT>
    requires { AreTied meter.old.tie books.old }
    ensures acts { ActsAs (getversaddr context.now head.now rpcb.now) books.old books.new result }
    ensures registry { books.new.registry ≡ books.old.registry }
    ensures forwards { books.new.forwards ≡ books.old.forwards }
    ensures frame { SameFrame books.old books.new }
    ensures cost { PaysAtMost meter.old meter.new (lookup_cost books.old) }
{
    let found = books
        .registry
        .find_exact(rpcb.prog(), rpcb.vers(), context.netid(), meter);
    let addr = addr_found(&context.hosts(), found);
    let target = target_of(context, rpcb);
    note_lookup(&mut books.stats, context, head, target, found, meter);
    addr
}

/// RPCBPROC_GETTIME (RFC 1833 section 2.2.1): whole seconds since the start of 1970, or 2^32 - 1 if they are more.
#[tactic(auto, unfolding(rb_answers::specs::Answers::seconds))]
pub(crate) fn gettime(clock: u64) -> u32
    ensures { result ≡ seconds clock }
{
    (clock / 1000).min(u64::from(u32::MAX)) as u32
}

/// RPCBPROC_UADDR2TADDR (RFC 1833 section 2.2.1): an empty buf if the text is no address.
#[tactic(auto, unfolding(rb_answers::specs::Answers::taddr_of))]
pub(crate) fn uaddr2taddr(text: &LentText<128>) -> AddressBuf
    ensures { result ≡ taddr_of text.now }
{
    match Uaddr::parse(text.as_slice()) {
        Ok(address) => AddressBuf::new(address.to_transport().as_slice()),
        Err(_) => AddressBuf::new(&[]),
    }
}

/// RPCBPROC_TADDR2UADDR (RFC 1833 section 2.2.1): the empty text if the buf is no address.
#[tactic(auto, unfolding(rb_answers::specs::Answers::uaddr_of))]
pub(crate) fn taddr2uaddr(netbuf: &LentNetbuf) -> Text<MAX_KEPT>
    ensures { result ≡ uaddr_of netbuf.now }
{
    match Uaddr::from_transport(netbuf.buf()) {
        Ok(address) => text_of(address),
        Err(_) => Text::new(&[]),
    }
}
