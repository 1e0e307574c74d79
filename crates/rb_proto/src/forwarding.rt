//! Calls that are forwarded (RFC 1833 sections 2.2.1 and 3.2).
ghost use Rattle.std.specs.Prelude.{◌≡◌, ◌+◌, ◌*◌, false, length};
ghost use Rattle.rb_xdr.specs.Meter.{PaysAtMost};
ghost use Rattle.rb_xdr.specs.Ordered.{looks};
ghost use Rattle.rb_registry.specs.Registry.{rows_of};
ghost use Rattle.rb_forward.specs.StandsFor.{slots_of};
ghost use Rattle.rb_forward.specs.Table.{IsNew};
ghost use Rattle.rb_proto.specs.Books.{ActsAs, ForwardsAs, AreTied, HasNotedWhere, NotesForward, OnlyCallerWaits, SameFrame, StayUnlessForwarded};
ghost use Rattle.rb_arguments.specs.Remote.{HasContent};
ghost use Rattle.rb_answers.specs.Forwarding.{version_of_kind, netid_to_forward, address_of_row, address_asked, peer_of_address, merged_peer, uaddr_at, forward_of, refusal, refuse, counts_end, end_note};
ghost use Rattle.rb_answers.specs.Terms.{counts_forward};
ghost use Rattle.rb_answers.specs.Costs.{note_cost};
ghost use Rattle.rb_answers.specs.Walks.{shows_rows};
ghost use Rattle.rb_proto.specs.Puts.{forwarding_cost};

use crate::books::Books;
use crate::terms::{counts_forward, may_go};
use rb_address::{Caller, Host, Netid, Peer, Source, Transport};
use rb_answers::{Answer, Context, address_in, netid_of_caller};
use rb_arguments::{Kind, RemoteCall};
use rb_forward::{Ended, Forward, ForwardEnd};
use rb_registry::{RPCB_PROG, Registry, Row};
use rb_rpc::ReplyStatus;
use rb_stats::{Stats, Target, Version};
use rb_uaddr::{Hosts, Uaddr};
use rb_xdr::Meter;

/// Where a call to every host of the listener goes.
const LOOPBACKS: Hosts = Hosts {
    inet: [127, 0, 0, 1],
    inet6: [0, 0, 0, 0, 0, 0, 0, 0, 0, 0, 0, 0, 0, 0, 0, 1],
};

fn version_of_kind(kind: Kind) -> Version
    ensures { result ≡ version_of_kind kind }
{
    match kind {
        Kind::Callit2 => Version::Two,
        Kind::Callit3 => Version::Three,
        Kind::Bcast | Kind::Indirect => Version::Four,
    }
}

/// What a forwarded call was for.
#[derive(Clone, Copy)]
struct ForwardNote {
    kind: Kind,
    caller: Caller,
    prog: u32,
    vers: u32,
    proc: u32,
}

/// Notes a forwarded call at its outcome, if that counts.
#[tactic(auto, unfolding(rb_answers::specs::Forwarding::outcome_note))]
fn note_outcome(stats: &mut Stats, asked: ForwardNote, passed: bool, meter: &mut Meter)
    requires { meter.old.tie ≡ stats.old.tie }
    ensures history { NotesForward asked passed stats.old stats.new }
    ensures memory { stats.new.memory ≡ stats.old.memory }
    ensures tie { stats.new.tie ≡ stats.old.tie }
    ensures cost { PaysAtMost meter.old meter.new (note_cost + 2) }
{
    if !counts_forward(&asked.caller, passed) {
        return;
    }
    let target = Target {
        prog: asked.prog,
        vers: asked.vers,
        netid: netid_of_caller(&asked.caller),
    };
    let indirect = matches!(asked.kind, Kind::Indirect);
    stats.note_remote(
        version_of_kind(asked.kind),
        target,
        asked.proc,
        passed,
        indirect,
        meter,
    );
}

/// Notes how an entry ended, if that counts.
#[tactic(auto, unfolding(rb_answers::specs::Forwarding::end_note))]
pub(crate) fn note_end(stats: &mut Stats, ended: &Ended, meter: &mut Meter)
    requires { meter.old.tie ≡ stats.old.tie }
    ensures history { HasNotedWhere
        (counts_end ended.now) (end_note ended.now) stats.old stats.new }
    ensures memory { stats.new.memory ≡ stats.old.memory }
    ensures tie { stats.new.tie ≡ stats.old.tie }
    ensures cost { PaysAtMost meter.old meter.new (note_cost + 2) }
{
    let Forward {
        caller,
        kind,
        prog,
        vers,
        proc,
        ..
    } = ended.forward;
    let asked = ForwardNote {
        kind,
        caller,
        prog,
        vers,
        proc,
    };
    let passed = matches!(ended.outcome, ForwardEnd::Passed(_));
    note_outcome(stats, asked, passed, meter);
}

/// By which datagrams a call of a caller from there is forwarded: over IPv6 for a caller of IPv6, else over IPv4.
fn netid_to_forward(source: Source) -> Netid
    ensures { result ≡ netid_to_forward source }
{
    match source {
        Source::Inet(peer) => Netid::of(Transport::Udp, peer.host().family()),
        Source::Local => Netid::Udp,
    }
}

fn address_of_row(row: &Row) -> Option<Uaddr>
    ensures { result ≡ address_of_row row.now }
{
    address_in(row.netid, &row.addr)
}

/// Where the program's exact version is, for this caller, if the call may be made. The portmapper itself is not called.
#[tactic(auto, unfolding(rb_answers::specs::Forwarding::address_to_forward))]
fn address_asked(
    registry: &Registry,
    context: &Context,
    remote: &RemoteCall,
    meter: &mut Meter,
) -> Option<Uaddr>
    requires { meter.old.tie ≡ registry.now.tie }
    ensures address { result ≡ address_asked context.now remote.now (rows_of registry.now) }
    ensures cost { PaysAtMost meter.old meter.new (looks registry.now.limit + 1) }
{
    if remote.prog == RPCB_PROG {
        return None;
    }
    let netid = netid_to_forward(context.who().source);
    let row = registry.find_exact(remote.prog, remote.vers, netid, meter)?;
    let registered = address_of_row(row)?;
    if may_go(context, remote, peer_of_address(registered).host()) {
        Some(registered)
    } else {
        None
    }
}

/// The peer at a universal address.
fn peer_of_address(address: Uaddr) -> Peer
    ensures { result ≡ peer_of_address address }
{
    match address {
        Uaddr::V4(host, port) => Peer::new(Host::V4(host), port),
        Uaddr::V6(host, port) => Peer::new(Host::V6(host), port),
    }
}

/// The peer at a universal address, with a host of its family in place of 0.0.0.0 or ::. The plain host comes first, so a
/// row at ::ffff:0.0.0.0 is at every host of IPv4.
fn merged_peer(hosts: &Hosts, registered: Uaddr) -> Peer
    ensures { result ≡ merged_peer hosts.now registered }
{
    peer_of_address(uaddr_at(peer_of_address(registered)).merge(hosts))
}

/// The universal address of a peer.
pub(crate) fn uaddr_at(peer: Peer) -> Uaddr
    ensures { result ≡ uaddr_at peer }
{
    match peer.host() {
        Host::V4(host) => Uaddr::V4(host, peer.port()),
        Host::V6(host) => Uaddr::V6(host, peer.port()),
    }
}

/// What is asked at the registered address, for a call of this xid. In place of 0.0.0.0 the call goes to 127.0.0.1, in
/// place of :: to ::1, and the caller is shown the host that it is told.
#[tactic(auto, unfolding(rb_answers::specs::Forwarding::forward_of))]
fn forward_of(
    context: &Context,
    xid: u32,
    kind: Kind,
    remote: &RemoteCall,
    registered: Uaddr,
) -> Forward
    ensures forward { result ≡ forward_of context.now xid kind remote.now registered }
    ensures caller { result.caller ≡ context.now.caller }
{
    Forward {
        caller: context.caller,
        xid,
        kind,
        target: merged_peer(&LOOPBACKS, registered),
        shown: merged_peer(&context.hosts(), registered),
        prog: remote.prog,
        vers: remote.vers,
        proc: remote.proc,
    }
}

/// What the caller of a forwarded call is told that failed so: INDIRECT is refused with this status (RFC 1833 section
/// 2.2.1), and CALLIT and BCAST are silent.
pub fn refusal(kind: Kind, status: ReplyStatus) -> Answer
    ensures answer { result ≡ refusal kind status }
    ensures lists { shows_rows result ≡ false }
{
    match kind {
        Kind::Indirect => Answer::Refused(status),
        Kind::Callit2 | Kind::Callit3 | Kind::Bcast => Answer::Silent,
    }
}

/// Refuses to forward a call, and notes that as a failure, if it counts.
fn refuse(
    books: &mut Books,
    context: &Context,
    kind: Kind,
    remote: &RemoteCall,
    status: ReplyStatus,
    meter: &mut Meter,
) -> Answer
    requires { AreTied meter.old.tie books.old }
    ensures acts { ActsAs (refuse context.now kind remote.now status) books.old books.new result }
    ensures told { result ≡ refusal kind status }
    ensures lists { shows_rows result ≡ false }
    ensures registry { books.new.registry ≡ books.old.registry }
    ensures forwards { books.new.forwards ≡ books.old.forwards }
    ensures frame { SameFrame books.old books.new }
    ensures cost { PaysAtMost meter.old meter.new (note_cost + 2) }
{
    let asked = ForwardNote {
        kind,
        caller: context.caller,
        prog: remote.prog,
        vers: remote.vers,
        proc: remote.proc,
    };
    note_outcome(&mut books.stats, asked, false, meter);
    refusal(kind, status)
}

/// CALLIT, BCAST and INDIRECT, of this xid: the call that is asked for will be forwarded, or is refused.
#[tactic(auto, unfolding(rb_answers::specs::Forwarding::forward_call))]
pub(crate) fn forward_call(
    books: &mut Books,
    context: &Context,
    xid: u32,
    kind: Kind,
    remote: &RemoteCall,
    arguments: &[u8],
    meter: &mut Meter,
) -> Answer
    requires tied { AreTied meter.old.tie books.old }
    requires forwards { books.old.forwards.cap ≡ context.now.forwards }
    requires caller { IsNew context.now.caller (slots_of books.old.forwards) }
    requires content { HasContent remote.now arguments.now }
    ensures acts { ForwardsAs context.now xid kind remote.now arguments.now books.old books.new result }
    ensures quiet { StayUnlessForwarded result books.old.forwards books.new.forwards }
    ensures waiting { OnlyCallerWaits context.now.caller books.old books.new }
    ensures lists { shows_rows result ≡ false }
    ensures registry { books.new.registry ≡ books.old.registry }
    ensures frame { SameFrame books.old books.new }
    ensures cost { PaysAtMost meter.old meter.new (forwarding_cost books.old (length arguments.now)) }
{
    let Some(registered) = address_asked(&books.registry, context, remote, meter) else {
        return refuse(
            books,
            context,
            kind,
            remote,
            ReplyStatus::ProgUnavail,
            meter,
        );
    };
    let forward = forward_of(context, xid, kind, remote, registered);
    let args = remote.args(arguments);
    match books.forwards.start(context.clock, &forward, args, meter) {
        Ok(_) => Answer::Forwarded,
        Err(_) => refuse(books, context, kind, remote, ReplyStatus::SystemErr, meter),
    }
}
