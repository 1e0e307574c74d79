//! Whose items the statistics have.
ghost use Rattle.std.specs.Prelude.{◌≡◌};
ghost use Rattle.rb_stats.specs.Statistics.{is_version, is_target, is_proc, is_key, is_in, info_of};

use rb_address::Netid;

/// A version of the protocol, which has an rpcb_stat of its own (RFC 1833 section 2.1,
/// rpcb_stat_byvers).
#[derive(Clone, Copy)]
pub enum Version {
    /// Version 2, of the portmapper.
    Two,
    /// Version 3 of rpcbind.
    Three,
    /// Version 4 of rpcbind.
    Four,
}

impl Version {
    fn is(self, other: Version) -> bool
        ensures { result ≡ is_version self other }
    {
        self == other
    }
}

/// A list of rpcb_stat: addrinfo or rmtinfo.
#[derive(Clone, Copy)]
pub(crate) enum Info {
    Addr,
    Rmt,
}

/// A version of a program on a netid.
#[derive(Clone, Copy)]
pub struct Target {
    /// The program's number.
    pub prog: u32,
    /// The program's version.
    pub vers: u32,
    /// How it is reached.
    pub netid: Netid,
}

impl Target {
    fn is(self, other: Target) -> bool
        ensures { result ≡ is_target self other }
    {
        self.prog == other.prog && self.vers == other.vers && self.netid.is(other.netid)
    }
}

fn is_proc(proc: Option<u32>, other: Option<u32>) -> bool
    ensures { result ≡ is_proc proc other }
{
    match (proc, other) {
        (None, None) => true,
        (Some(proc), Some(other)) => proc == other,
        _ => false,
    }
}

/// What an item counts: the look-ups of the target's address in calls of a version, or the forwarded
/// calls of one of its procedures.
#[derive(Clone, Copy)]
pub(crate) struct Key {
    pub version: Version,
    pub target: Target,
    /// The procedure of a forwarded call.
    pub proc: Option<u32>,
}

/// Names each field, so that a further one does not compile until it stands here. It belongs in the table of
/// charges of crates/rb_core/README.md first.
fn layout(key: &Key) {
    let Key {
        version,
        target,
        proc,
    } = *key;
    match version {
        Version::Two | Version::Three | Version::Four => {}
    }
    let Target { prog, vers, netid } = target;
    let _: (u32, u32) = (prog, vers);
    match netid {
        Netid::Tcp | Netid::Udp | Netid::Tcp6 | Netid::Udp6 | Netid::Local => {}
    }
    let _: Option<u32> = proc;
}

impl Key {
    #[tactic(auto, unfolding(crate::specs::Statistics::is_key))]
    pub(crate) fn is(self, other: Key) -> bool
        ensures { result ≡ is_key self other }
    {
        self.version.is(other.version)
            && self.target.is(other.target)
            && is_proc(self.proc, other.proc)
    }

    /// The list that has its item.
    pub(crate) fn info(self) -> Info
        ensures { result ≡ info_of self.proc }
    {
        match self.proc {
            None => Info::Addr,
            Some(_) => Info::Rmt,
        }
    }

    /// Whether that list of a version has its item.
    #[tactic(auto, unfolding(crate::specs::Statistics::is_in))]
    pub(crate) fn is_in(self, version: Version, info: Info) -> bool
        ensures { result ≡ is_in version info self }
    {
        self.version.is(version)
            && match info {
                Info::Addr => self.proc.is_none(),
                Info::Rmt => self.proc.is_some(),
            }
    }
}
