//! Sockets that a service manager hands over (sd_listen_fds(3)): how many there are, what each one is for, and who comes in at the
//! local one.
ghost use Rattle.std.specs.Prelude.{◌≡◌};
ghost use Rattle.std.specs.Option.{option_map};
ghost use Rattle.rb_policy.specs.Handed.{is_number, names_process, handed_count, binds_tcp, binds_udp, role_if, role_at, inet_role, new_host, is_path, local_role, role_of, is_same_role, has_role, once, settle, mismatch_text, entrance_handed};

use crate::addresses::{
    ANY, LOOPBACK, LOOPBACK6, binds_every_inet, binds_loopback6, has_every_host, has_every_inet,
    has_host, is_same,
};
use crate::keep_file::is_trusted;
use crate::local_file::SeenFile;
use crate::trust::{Entrance, lets_in_root_alone};
use rb_address::{Host, Peer, plain_number};

/// More sockets than the options can name addresses.
const LIMIT: u64 = 65;

/// How many sockets are handed over to the process of number `own`, by the values of LISTEN_PID and LISTEN_FDS, if they are
/// there. `None` if LISTEN_FDS is no number of at most 64.
pub fn handed_count(own: u32, pid: Option<&[u8]>, count: Option<&[u8]>) -> Option<u16>
    ensures { result ≡ handed_count own (option_map (λ t. t.now) pid.entry)
        (option_map (λ t. t.now) count.entry) }
{
    match (pid, count) {
        (Some(pid), Some(count)) => {
            if names_process(own, pid) {
                let count = plain_number(count, LIMIT)?;
                Some(count as u16)
            } else {
                Some(0)
            }
        }
        (Some(_), None) | (None, _) => Some(0),
    }
}

/// Whether the text is the number of this process.
pub(crate) fn names_process(own: u32, text: &[u8]) -> bool
    ensures { result ≡ names_process own text.now }
{
    match plain_number(text, 1 << 32) {
        Some(pid) => u64::from(own) == pid,
        None => false,
    }
}

/// What a socket is for.
#[derive(Clone, Copy)]
pub enum Role {
    /// Connections over TCP come in there, at this host.
    Tcp(Host),
    /// Datagrams come in there, at this host.
    Udp(Host),
    /// It is the local socket.
    Local,
}

/// What a socket of IPv4 or IPv6 says of itself.
#[derive(Clone, Copy)]
pub struct InetSaid {
    /// Its own address.
    pub address: Peer,
    /// Whether it is one of TCP.
    pub is_tcp: bool,
    /// Whether it listens.
    pub listens: bool,
    /// Whether it is of IPv6 and takes IPv4 too.
    pub takes_inet: bool,
}

/// What a socket says of itself.
#[derive(Clone, Copy)]
pub enum Said<'a> {
    /// It is of IPv4 or IPv6.
    Inet(InetSaid),
    /// It is a local one of this path, and whether it listens.
    Unix(&'a [u8], bool),
    /// It is none of these, or no socket.
    Other,
}

/// Where the options say that the daemon listens.
#[derive(Clone, Copy)]
pub struct Wanted<'a> {
    /// The hosts of `--bind`.
    pub hosts: &'a [Host],
    /// Whether `--loopback6` is given.
    pub loopback6: bool,
    /// The port.
    pub port: u16,
    /// The path of `--local`.
    pub local: Option<&'a [u8]>,
}

/// Why a socket is not taken.
#[derive(Clone, Copy, Debug)]
pub enum Mismatch {
    /// It is none of TCP, UDP or the local socket.
    Kind,
    /// It is a stream that does not listen.
    NotListening,
    /// It is of IPv6, and takes IPv4 too.
    BothFamilies,
    /// It has another port.
    OtherPort,
    /// The options bind none of its kind at its address.
    Elsewhere,
    /// Another one has its address.
    Twice,
}

fn binds_tcp(hosts: &[Host], loopback6: bool, host: Host) -> bool
    ensures { result ≡ binds_tcp hosts.now loopback6 host }
{
    has_host(hosts, host)
        || (is_same(host, Host::V4(ANY)) && binds_every_inet(hosts))
        || (is_same(host, Host::V6(LOOPBACK6)) && binds_loopback6(hosts, loopback6))
}

fn binds_udp(hosts: &[Host], loopback6: bool, host: Host) -> bool
    ensures { result ≡ binds_udp hosts.now loopback6 host }
{
    binds_tcp(hosts, loopback6, host)
        || (is_same(host, Host::V4(LOOPBACK)) && has_every_inet(hosts))
        || (is_same(host, Host::V6(LOOPBACK6)) && has_every_host(hosts))
}

fn role_if(is_bound: bool, role: Role) -> Result<Role, Mismatch>
    ensures { result ≡ role_if is_bound role }
{
    if is_bound {
        Ok(role)
    } else {
        Err(Mismatch::Elsewhere)
    }
}

/// What a socket at the host is for, by whether it is one of TCP, and whether it listens.
fn role_at(is_tcp: bool, listens: bool, wanted: &Wanted<'_>, host: Host) -> Result<Role, Mismatch>
    ensures { result ≡ role_at is_tcp listens wanted.now host }
{
    match (is_tcp, listens) {
        (true, true) => role_if(
            binds_tcp(wanted.hosts, wanted.loopback6, host),
            Role::Tcp(host),
        ),
        (false, false) => role_if(
            binds_udp(wanted.hosts, wanted.loopback6, host),
            Role::Udp(host),
        ),
        (true, false) => Err(Mismatch::NotListening),
        (false, true) => Err(Mismatch::Kind),
    }
}

fn inet_role(wanted: &Wanted<'_>, said: InetSaid) -> Result<Role, Mismatch>
    ensures { result ≡ inet_role wanted.now said }
{
    if said.takes_inet {
        Err(Mismatch::BothFamilies)
    } else if said.address.port() == wanted.port {
        role_at(said.is_tcp, said.listens, wanted, said.address.host())
    } else {
        Err(Mismatch::OtherPort)
    }
}

/// The host that a socket adds to these, if `--bind` is not given: that of a listener over TCP.
pub fn new_host(hosts: &[Host], said: Said<'_>) -> Option<Host>
    ensures { result ≡ new_host hosts.now said.entry }
{
    match said {
        Said::Inet(said) => {
            let host = said.address.host();
            if said.is_tcp && said.listens && !has_host(hosts, host) {
                Some(host)
            } else {
                None
            }
        }
        Said::Unix(_, _) | Said::Other => None,
    }
}

fn is_path(path: &[u8], wanted: Option<&[u8]>) -> bool
    ensures { result ≡ is_path path.now wanted.entry }
{
    match wanted {
        Some(wanted) => path == wanted,
        None => false,
    }
}

fn local_role(wanted: &Wanted<'_>, path: &[u8], listens: bool) -> Result<Role, Mismatch>
    ensures { result ≡ local_role wanted.now path.now listens }
{
    if listens {
        role_if(is_path(path, wanted.local), Role::Local)
    } else {
        Err(Mismatch::NotListening)
    }
}

fn role_of(wanted: &Wanted<'_>, said: Said<'_>) -> Result<Role, Mismatch>
    ensures { result ≡ role_of wanted.now said.entry }
{
    match said {
        Said::Inet(said) => inet_role(wanted, said),
        Said::Unix(path, listens) => local_role(wanted, path, listens),
        Said::Other => Err(Mismatch::Kind),
    }
}

fn is_same_role(a: Role, b: Role) -> bool
    ensures { result ≡ is_same_role a b }
{
    match (a, b) {
        (Role::Tcp(a), Role::Tcp(b)) | (Role::Udp(a), Role::Udp(b)) => is_same(a, b),
        (Role::Local, Role::Local) => true,
        (Role::Tcp(_) | Role::Udp(_) | Role::Local, _) => false,
    }
}

fn has_role(roles: &[Role], wanted: Role) -> bool
    ensures { result ≡ has_role wanted roles.now }
{
    roles.iter().any(|role| is_same_role(*role, wanted))
}

/// What a socket is for, by what it says of itself, and after those that were taken; or why it is not taken.
pub fn settle(taken: &[Role], wanted: &Wanted<'_>, said: Said<'_>) -> Result<Role, Mismatch>
    ensures { result ≡ settle taken.now wanted.now said.entry }
{
    match role_of(wanted, said) {
        Ok(role) => {
            if has_role(taken, role) {
                Err(Mismatch::Twice)
            } else {
                Ok(role)
            }
        }
        Err(mismatch) => Err(mismatch),
    }
}

/// What is said of a socket that is not taken.
pub fn mismatch_text(mismatch: Mismatch) -> &'static str
    ensures { result.now ≡ mismatch_text mismatch }
{
    match mismatch {
        Mismatch::Kind => "is none of TCP, UDP or a local listener",
        Mismatch::NotListening => "does not listen (Accept= must be no)",
        Mismatch::BothFamilies => "is of IPv4 and IPv6 (BindIPv6Only= must be ipv6-only)",
        Mismatch::OtherPort => "has another port than --port",
        Mismatch::Elsewhere => "is where no option listens (--bind, --loopback6, --local)",
        Mismatch::Twice => "has the address of another one",
    }
}

/// Where callers of the local socket come in that was handed over, by its file, if that is known, for a daemon of this user.
pub fn entrance_handed(own: u32, made: Option<SeenFile>) -> Entrance
    ensures { result ≡ entrance_handed own made }
{
    match made {
        Some(file) => {
            if is_trusted(own, file.uid) && lets_in_root_alone(file.mode) {
                Entrance::RootSocket
            } else {
                Entrance::OpenSocket
            }
        }
        None => Entrance::OpenSocket,
    }
}
