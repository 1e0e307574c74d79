//! The addresses of a host: which are asked, and what is said of them.
ghost use Rattle.std.specs.Prelude.{◌≡◌};
ghost use Rattle.std.specs.Net.Socket.{socket_ip};
ghost use Rattle.rb_plans.specs.Addresses.{family_of, is_asked, none_asked, default_path, is_no_socket, falls_back, is_unanswered, has_answered, answered_at, notices_at};

use crate::ending::Notices;
use crate::fault::Fault;
use rb_address::Family;
use rb_show::{InfoFault, Shown};
use rb_words::Way;
use std::net::{IpAddr, SocketAddr};

/// The family of the addresses that are asked where a program is; none if every address is asked.
pub fn family_of(way: Way) -> Option<Family>
    ensures { result ≡ family_of way }
{
    match way {
        Way::Getaddr(netid) => netid.family(),
        Way::Getport(_) | Way::Port(..) | Way::Address(..) => None,
    }
}

/// Whether an address is asked: if those of its family are, or if every address is.
pub fn is_asked(family: Option<Family>, address: SocketAddr) -> bool
    ensures { result ≡ is_asked family (socket_ip address) }
{
    match family {
        Some(Family::Inet) => address.is_ipv4(),
        Some(Family::Inet6) => address.is_ipv6(),
        None => true,
    }
}

/// Why none of this many addresses of a host is asked: it has none, or none of the family.
pub fn none_asked(family: Option<Family>, count: usize) -> Fault
    ensures { result ≡ none_asked family count }
{
    match family {
        Some(family) if count > 0 => Fault::NoAddress(family),
        Some(_) | None => Fault::NoHost,
    }
}

/// The path at which rpcbinds listen, ours and others.
pub(crate) const DEFAULT_PATH: &str = "/run/rpcbind.sock";

/// Whether nobody was at a socket.
fn is_no_socket(answer: Result<Shown, Fault>) -> bool
    ensures { result ≡ is_no_socket answer }
{
    matches!(answer, Err(Fault::NoSocket))
}

/// Whether 127.0.0.1 is asked in place of the socket of this path, which gave this: nobody is at the one path at which
/// rpcbinds listen.
pub fn falls_back(path: &str, answer: Result<Shown, Fault>) -> bool
    ensures { result ≡ falls_back path.now answer }
{
    path == DEFAULT_PATH && is_no_socket(answer)
}

/// Whether nobody answered at an address. Then the next one of the host is asked.
pub fn is_unanswered(answer: Result<Shown, Fault>) -> bool
    ensures { result ≡ is_unanswered answer }
{
    match answer {
        Err(Fault::NoConnection | Fault::NoSocket | Fault::NoReply) => true,
        Ok(_)
        | Err(
            Fault::Info(_)
            | Fault::NoHost
            | Fault::NoAddress(_)
            | Fault::NotAvailable(..)
            | Fault::NoProgram(..)
            | Fault::TooManyVersions
            | Fault::TooManyRoutes
            | Fault::SomeLack,
        ) => false,
    }
}

/// Whether somebody answered. If memory was refused, that is not known.
fn has_answered(answer: Result<Shown, Fault>) -> bool
    ensures { result ≡ has_answered answer }
{
    match answer {
        Err(
            Fault::NoConnection
            | Fault::NoSocket
            | Fault::NoReply
            | Fault::NoHost
            | Fault::NoAddress(_)
            | Fault::TooManyRoutes
            | Fault::Info(InfoFault::Memory),
        ) => false,
        Ok(_)
        | Err(
            Fault::Info(
                InfoFault::Read
                | InfoFault::Write
                | InfoFault::Unreadable
                | InfoFault::CutOff
                | InfoFault::TooLong
                | InfoFault::Refused(_)
                | InfoFault::TooMany,
            )
            | Fault::NotAvailable(..)
            | Fault::NoProgram(..)
            | Fault::TooManyVersions
            | Fault::SomeLack,
        ) => true,
    }
}

/// The address, if it is one of several and somebody answered there.
fn answered_at(address: IpAddr, count: usize, answer: Result<Shown, Fault>) -> Option<IpAddr>
    ensures { result ≡ answered_at address count answer }
{
    if count > 1 && has_answered(answer) {
        Some(address)
    } else {
        None
    }
}

/// What there is to notice of the answer at one of this many addresses of a host.
pub fn notices_at(
    address: IpAddr,
    count: usize,
    answer: Result<Shown, Fault>,
    is_old: bool,
) -> Notices
    ensures { result ≡ notices_at address count answer is_old }
{
    Notices {
        answered: answered_at(address, count, answer),
        is_old,
    }
}
