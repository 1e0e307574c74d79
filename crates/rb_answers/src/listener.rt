//! Where the daemon listens.
ghost use Rattle.std.specs.Prelude.{IsTrue, ◌≡◌, ◌++◌, ◌≤◌, length};
ghost use Rattle.rb_registry.specs.Registry.{AreOwn};
ghost use Rattle.rb_registry.specs.Rows.{are_distinct};
ghost use Rattle.rb_answers.specs.Callers.{own_row, own_pair, own_three, inet6_rows, inet_rows, own_local, own_rows, is_local, announced_hosts, hosts_told};

use crate::reserved::{Reservation, Reserved};
use arrayvec::ArrayVec;
use rb_address::{Host, Netid, Owner};
use rb_registry::{MOST_OWN_ROWS, RPCB_PROG, Row};
use rb_uaddr::{AddressText, Hosts, Uaddr};

/// Which families are served, and the host of each that is told to a caller who asked no host of it: 0.0.0.0 or :: if
/// there is none.
#[derive(Clone, Copy)]
pub struct Announced {
    /// The IPv4 host, its most significant byte first; `None` if IPv4 is not served.
    pub inet: Option<[u8; 4]>,
    /// The IPv6 host, its most significant byte first; `None` if IPv6 is not served.
    pub inet6: Option<[u8; 16]>,
}

/// For which callers another call is made, and to what (RFC 1833 sections 2.2.1 and 3.1).
#[derive(Clone, Copy)]
pub enum Forwarding {
    /// For every caller, to every program but the portmapper itself, at whichever host it is registered.
    Anywhere,
    /// For every caller, to programs of this host that do not go by the host of who calls them.
    ForAll,
    /// To these, for callers of this machine alone.
    ForLocal,
}

/// On which terms callers are served.
#[derive(Clone, Copy)]
pub struct Terms {
    /// Whether a reply over UDP to a stranger may have more than twice the bytes of its call.
    pub long_replies: bool,
    /// For which callers another call is made, and to what.
    pub forwarding: Forwarding,
}

impl Terms {
    /// Those that hold nobody back.
    pub const OPEN: Terms = Terms {
        long_replies: true,
        forwarding: Forwarding::Anywhere,
    };
}

/// Where the daemon listens, and on which terms it serves there.
#[derive(Drop)]
pub struct Listener {
    /// The families over which it is reached.
    pub announced: Announced,
    /// The port of its sockets of TCP and UDP.
    pub port: u16,
    /// The path of its local socket, if it has one.
    pub local: Option<AddressText>,
    /// On which terms callers are served.
    pub terms: Terms,
    /// Whose programs are.
    pub reserved: Reserved,
}

/// Names each field, so that a further one does not compile until it stands here. It belongs in the table of
/// charges of crates/rb_core/README.md first.
fn layout(listener: &Listener) {
    let Listener {
        announced,
        port,
        local,
        terms,
        reserved,
    } = listener;
    let Announced { inet, inet6 } = *announced;
    let Terms {
        long_replies,
        forwarding,
    } = *terms;
    let _: (bool, Forwarding) = (long_replies, forwarding);
    let _: (Option<[u8; 4]>, Option<[u8; 16]>) = (inet, inet6);
    let _: u16 = *port;
    let _: &Option<AddressText> = local;
    let _: &[Reservation] = reserved.as_slice();
}

/// The row of the portmapper's own version on a netid.
fn own_row(netid: Netid, addr: &AddressText, vers: u32) -> Row
    ensures { result ≡ own_row netid addr.now vers }
{
    Row {
        prog: RPCB_PROG,
        vers,
        netid,
        owner: Owner::SUPERUSER,
        addr: AddressText::new(addr.as_slice()),
    }
}

/// Pushes the rows of versions 4 and 3 on a netid.
fn push_pair(rows: &mut ArrayVec<Row, MOST_OWN_ROWS>, netid: Netid, addr: &AddressText)
    requires { length rows.old.items ≤ 10 }
    ensures { rows.new.items ≡ rows.old.items ++ own_pair netid addr.now }
{
    rows.push(own_row(netid, addr, 4));
    rows.push(own_row(netid, addr, 3));
}

/// Pushes the rows of versions 4, 3 and 2 on a netid.
fn push_three(rows: &mut ArrayVec<Row, MOST_OWN_ROWS>, netid: Netid, addr: &AddressText)
    requires { length rows.old.items ≤ 9 }
    ensures { rows.new.items ≡ rows.old.items ++ own_three netid addr.now }
{
    rows.push(own_row(netid, addr, 4));
    rows.push(own_row(netid, addr, 3));
    rows.push(own_row(netid, addr, 2));
}

/// The rows over IPv6, if it is served.
fn push_inet6(rows: &mut ArrayVec<Row, MOST_OWN_ROWS>, listener: &Listener)
    requires { length rows.old.items ≡ 0 }
    ensures { rows.new.items ≡ inet6_rows listener.now }
{
    if listener.announced.inet6.is_some() {
        let addr = Uaddr::any6(listener.port).text();
        push_pair(rows, Netid::Tcp6, &addr);
        push_pair(rows, Netid::Udp6, &addr);
    }
}

/// The rows over IPv4, if it is served.
fn push_inet(rows: &mut ArrayVec<Row, MOST_OWN_ROWS>, listener: &Listener)
    requires { length rows.old.items ≤ 4 }
    ensures { rows.new.items ≡ rows.old.items ++ inet_rows listener.now }
{
    if listener.announced.inet.is_some() {
        let addr = Uaddr::any(listener.port).text();
        push_three(rows, Netid::Tcp, &addr);
        push_three(rows, Netid::Udp, &addr);
    }
}

/// The rows of the local socket, if there is one.
fn push_local(rows: &mut ArrayVec<Row, MOST_OWN_ROWS>, listener: &Listener)
    requires { length rows.old.items ≤ 10 }
    ensures { rows.new.items ≡ rows.old.items ++ own_local listener.now.local }
{
    if let Some(path) = &listener.local {
        push_pair(rows, Netid::Local, path);
    }
}

/// The rows of the portmapper itself: versions 4 and 3 on each netid that is served, and version 2 on tcp and udp. Over
/// IPv4 and IPv6 they are at the listener's port of every host, on local at the socket's path.
#[tactic(auto, using(crate::proofs::OwnRows::are_own, crate::proofs::OwnRows::are_distinct_rows), unfolding(crate::specs::Callers::own_rows))]
pub fn own_rows(listener: &Listener) -> ArrayVec<Row, MOST_OWN_ROWS>
    ensures rows { result.items ≡ own_rows listener.now }
    ensures own { AreOwn result.items }
    ensures distinct { IsTrue (are_distinct result.items) }
{
    let mut rows = ArrayVec::new();
    push_inet6(&mut rows, listener);
    push_inet(&mut rows, listener);
    push_local(&mut rows, listener);
    rows
}

/// How many rows of the portmapper itself there are: 0 to 12.
#[tactic(auto, unfolding(crate::specs::Callers::own_rows))]
pub fn own_row_count(listener: &Listener) -> usize
    ensures count { result ≡ length (own_rows listener.now) }
    ensures few { result ≤ 12 }
{
    let inet6 = if listener.announced.inet6.is_some() {
        4
    } else {
        0
    };
    let inet = if listener.announced.inet.is_some() {
        6
    } else {
        0
    };
    let local = if listener.local.is_some() { 2 } else { 0 };
    inet6 + inet + local
}

impl Announced {
    /// Whether the host is this machine's by its address alone: of 127.0.0.0/8, ::1, or the announced host of its family.
    #[tactic(auto, unfolding(crate::specs::Callers::is_local))]
    pub fn is_local(&self, host: Host) -> bool
        ensures { result ≡ is_local self.now host }
    {
        host.is_loopback()
            || match host {
                Host::V4(octets) => self.inet == Some(octets),
                Host::V6(octets) => self.inet6 == Some(octets),
            }
    }

    /// The announced host of each family, or every host if none is.
    fn hosts(&self) -> Hosts
        ensures { result ≡ announced_hosts self.now }
    {
        Hosts {
            inet: self.inet.unwrap_or([0; 4]),
            inet6: self.inet6.unwrap_or([0; 16]),
        }
    }

    /// What a caller is told in place of every host of a family: the host that it asked, if that is one of the family;
    /// else the announced one.
    #[tactic(auto, unfolding(crate::specs::Callers::hosts_told))]
    pub fn hosts_told(&self, asked: Host) -> Hosts
        ensures { result ≡ hosts_told self.now asked }
    {
        let hosts = self.hosts();
        match asked {
            Host::V4(asked) => Hosts {
                inet: hosts.merge_inet(asked),
                ..hosts
            },
            Host::V6(asked) => Hosts {
                inet6: hosts.merge_inet6(asked),
                ..hosts
            },
        }
    }
}
