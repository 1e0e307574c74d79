//! The options of the replay of a run.
ghost use Rattle.std.specs.Prelude.{◌≡◌, ◌≤◌, ◌+◌, ◌*◌, ◌++◌, length};
ghost use Rattle.rb_lines.specs.Entries.{limits_text, announce_text, inet_text, inet6_text, local_text, lists_text, forwarding_text, last_text, reserve_text, reserved_text, terms_text, rest_text, listener_text, options_of};

use crate::front::Front;
use rb_address::Host;
use rb_answers::{Forwarding, Listener, Reservation, Terms};
use rb_model::Limits;
use rb_uaddr::AddressText;

/// The room for the options of a replay, in bytes, which have less with 20 digits for each number.
const MAX_OPTIONS: usize = 5_312;

/// What a run begins with.
#[derive(Clone, Copy)]
pub struct Start<'a> {
    /// How many connections, rows and forwarded calls there may be.
    pub limits: Limits,
    /// Where the daemon listens: the announced host of each family that is served, the port, and the path of its local
    /// socket; and on which terms it serves there.
    pub listener: &'a Listener,
    /// The xid of the first forwarded call.
    pub first_xid: u32,
    /// The first moment, in milliseconds since the start of 1970.
    pub moment: u64,
}

fn push_limits(front: &mut Front<MAX_OPTIONS>, limits: &Limits)
    requires { length front.old.text.items + 89 ≤ MAX_OPTIONS }
    ensures text { front.new.text.items ≡ front.old.text.items ++ limits_text limits.now }
    ensures short { length front.new.text.items ≤ length front.old.text.items + 89 }
{
    let Limits {
        conns,
        rows,
        forwards,
    } = *limits;
    front.push(b" --conns ");
    front.push_number(conns as u64);
    front.push(b" --rows ");
    front.push_number(rows as u64);
    front.push(b" --forwards ");
    front.push_number(forwards as u64);
}

fn push_announce(front: &mut Front<MAX_OPTIONS>, host: Host)
    requires { length front.old.text.items + 95 ≤ MAX_OPTIONS }
    ensures text { front.new.text.items ≡ front.old.text.items ++ announce_text host }
    ensures short { length front.new.text.items ≤ length front.old.text.items + 95 }
{
    front.push(b" --announce ");
    front.push_host(host);
}

/// The announced host of IPv4, if it is served.
fn push_inet(front: &mut Front<MAX_OPTIONS>, announced: Option<[u8; 4]>)
    requires { length front.old.text.items + 95 ≤ MAX_OPTIONS }
    ensures text { front.new.text.items ≡ front.old.text.items ++ inet_text announced }
    ensures short { length front.new.text.items ≤ length front.old.text.items + 95 }
{
    if let Some(octets) = announced {
        push_announce(front, Host::V4(octets));
    }
}

/// The announced host of IPv6, if it is served.
fn push_inet6(front: &mut Front<MAX_OPTIONS>, announced: Option<[u8; 16]>)
    requires { length front.old.text.items + 95 ≤ MAX_OPTIONS }
    ensures text { front.new.text.items ≡ front.old.text.items ++ inet6_text announced }
    ensures short { length front.new.text.items ≤ length front.old.text.items + 95 }
{
    if let Some(octets) = announced {
        push_announce(front, Host::V6(octets));
    }
}

/// The path of the local socket, if there is one.
fn push_local(front: &mut Front<MAX_OPTIONS>, local: &Option<AddressText>)
    requires { length front.old.text.items + 139 ≤ MAX_OPTIONS }
    ensures text { front.new.text.items ≡ front.old.text.items ++ local_text local.now }
    ensures short { length front.new.text.items ≤ length front.old.text.items + 139 }
{
    if let Some(path) = local {
        front.push(b" --local '");
        front.push(path.as_slice());
        front.push(b"'");
    }
}

/// That no long replies go to strangers over UDP, if none do.
fn push_lists(front: &mut Front<MAX_OPTIONS>, long_replies: bool)
    requires { length front.old.text.items + 18 ≤ MAX_OPTIONS }
    ensures text { front.new.text.items ≡ front.old.text.items ++ lists_text long_replies }
    ensures short { length front.new.text.items ≤ length front.old.text.items + 18 }
{
    if !long_replies {
        front.push(b" --udp-lists local");
    }
}

/// For whom calls are forwarded, if that is not for everybody to anywhere.
fn push_forwarding(front: &mut Front<MAX_OPTIONS>, forwarding: Forwarding)
    requires { length front.old.text.items + 20 ≤ MAX_OPTIONS }
    ensures text { front.new.text.items ≡ front.old.text.items ++ forwarding_text forwarding }
    ensures short { length front.new.text.items ≤ length front.old.text.items + 20 }
{
    match forwarding {
        Forwarding::Anywhere => {}
        Forwarding::ForAll => front.push(b" --forward-for all"),
        Forwarding::ForLocal => front.push(b" --forward-for local"),
    }
}

/// The last program of a reservation of several.
fn push_last(front: &mut Front<MAX_OPTIONS>, reservation: &Reservation)
    requires { length front.old.text.items + 21 ≤ MAX_OPTIONS }
    ensures text { front.new.text.items ≡ front.old.text.items ++ last_text reservation.now }
    ensures short { length front.new.text.items ≤ length front.old.text.items + 21 }
{
    if reservation.first != reservation.last {
        front.push(b"-");
        front.push_number(u64::from(reservation.last));
    }
}

fn push_reservation(front: &mut Front<MAX_OPTIONS>, reservation: &Reservation)
    requires { length front.old.text.items + 73 ≤ MAX_OPTIONS }
    ensures text { front.new.text.items ≡ front.old.text.items ++ reserve_text reservation.now }
    ensures short { length front.new.text.items ≤ length front.old.text.items + 73 }
{
    front.push(b" --reserve ");
    front.push_number(u64::from(reservation.first));
    push_last(front, reservation);
    front.push(b"=");
    front.push_number(u64::from(reservation.uid));
}

/// The reservations.
fn push_reserved(front: &mut Front<MAX_OPTIONS>, all: &[Reservation])
    requires { length front.old.text.items + 73 * length all.now ≤ MAX_OPTIONS }
    ensures text { front.new.text.items ≡ front.old.text.items ++ reserved_text all.now }
    ensures short { length front.new.text.items
        ≤ length front.old.text.items + 73 * length all.now }
{
    for reservation in all {
        push_reservation(front, reservation);
    }
}

/// On which terms callers are served.
fn push_terms(front: &mut Front<MAX_OPTIONS>, terms: &Terms)
    requires { length front.old.text.items + 38 ≤ MAX_OPTIONS }
    ensures text { front.new.text.items ≡ front.old.text.items ++ terms_text terms.now }
    ensures short { length front.new.text.items ≤ length front.old.text.items + 38 }
{
    push_lists(front, terms.long_replies);
    push_forwarding(front, terms.forwarding);
}

/// What stands behind the port.
fn push_rest(front: &mut Front<MAX_OPTIONS>, listener: &Listener)
    requires { length front.old.text.items + 4849 ≤ MAX_OPTIONS }
    ensures text { front.new.text.items ≡ front.old.text.items ++ rest_text listener.now }
    ensures short { length front.new.text.items ≤ length front.old.text.items + 4849 }
{
    let Listener {
        announced: _,
        port: _,
        local,
        terms,
        reserved,
    } = listener;
    push_local(front, local);
    push_terms(front, terms);
    push_reserved(front, reserved.as_slice());
}

fn push_listener(front: &mut Front<MAX_OPTIONS>, listener: &Listener)
    requires { length front.old.text.items + 5067 ≤ MAX_OPTIONS }
    ensures text { front.new.text.items ≡ front.old.text.items ++ listener_text listener.now }
    ensures short { length front.new.text.items ≤ length front.old.text.items + 5067 }
{
    push_inet(front, listener.announced.inet);
    push_inet6(front, listener.announced.inet6);
    front.push(b" --port ");
    front.push_number(u64::from(listener.port));
    push_rest(front, listener);
}

/// A comment line: the command that checks a record of a run that begins so.
pub(crate) fn options_line(start: &Start<'_>) -> Front<MAX_OPTIONS>
    ensures { result.text.items ≡ options_of start.now }
{
    let Start {
        limits,
        listener,
        first_xid,
        moment,
    } = start;
    let mut front = Front::new("# rpcbind replay --check");
    push_limits(&mut front, limits);
    push_listener(&mut front, listener);
    front.push(b" --xid ");
    front.push_number(u64::from(*first_xid));
    front.push(b" --now ");
    front.push_number(*moment);
    front.push(b"\n");
    front
}
