//! Who calls: where from, which of this machine's hosts was asked, and what is known of the caller.
ghost use Rattle.std.specs.Prelude.{◌≡◌};
ghost use Rattle.rb_address.specs.Callers.{netid_from};
ghost use Rattle.rb_address.specs.CallerTexts.{who};

use crate::host::Host;
use crate::netid::{Netid, Transport};
use crate::peer::Peer;
use crate::reading::who;
use std::fmt;

/// To whom a row belongs, or as whom a caller registers.
#[derive(Clone, Copy, PartialEq, Eq, Debug)]
pub enum Owner {
    /// Nobody known: a caller by AUTH_NONE, say.
    Unknown,
    /// The user of this uid.
    Uid(u32),
}

impl Owner {
    /// The owner that may remove every row.
    pub const SUPERUSER: Owner = Owner::Uid(0);
}

/// What is known of a caller, and by whose word.
#[derive(Clone, Copy, PartialEq, Eq, Debug)]
pub enum Trust {
    /// Nothing but what it says: it may register if its address is one of this machine, as the owner that its
    /// credential names.
    Claims,
    /// It is of this machine, and may register as this owner, whatever its credential says.
    Local(Owner),
    /// It may only ask.
    Stranger,
}

/// Where a call comes from.
#[derive(Clone, Copy, PartialEq, Eq, Debug)]
pub enum Source {
    /// A peer over IPv4 or IPv6.
    Inet(Peer),
    /// A local socket.
    Local,
}

impl Source {
    /// The netid of a caller from there, by a transport: local for a local socket.
    pub fn netid(self, transport: Transport) -> Netid
        ensures { result ≡ netid_from transport self }
    {
        match self {
            Source::Inet(peer) => Netid::of(transport, peer.host().family()),
            Source::Local => Netid::Local,
        }
    }
}

/// A caller: where it comes from, the host that it asked, and how far it is trusted.
#[derive(Clone, Copy, PartialEq, Eq, Debug)]
pub struct Who {
    /// Where it comes from.
    pub source: Source,
    /// The host of this machine that it asked; 0.0.0.0 if that is not known. None of IPv4 in IPv6's form.
    pub asked: Host,
    /// What is known of it.
    pub trust: Trust,
}

impl Who {
    /// The caller that has this text, exactly if it is the text that is printed of the caller.
    pub fn read(text: &[u8]) -> Option<Who>
        ensures { result ≡ who text.now }
    {
        who(text)
    }
}

/// A peer's text, or `local`.
impl fmt::Display for Source {
    ghost use Rattle.std.specs.Prelude.{Some};
    ghost use Rattle.rb_address.specs.Callers.{source_text};

    ghost output = { λ s. Some (source_text s) };

    fn fmt<W: fmt::Write>(&self, f: &mut fmt::Formatter<W>) -> fmt::Result {
        match self {
            Source::Inet(peer) => write!(f, "{peer}"),
            Source::Local => write!(f, "local"),
        }
    }
}

/// The host that was asked, after a source.
#[derive(Clone, Copy)]
struct AskedText(Host);

impl fmt::Display for AskedText {
    ghost use Rattle.std.specs.Prelude.{Some};
    ghost use Rattle.rb_address.specs.Callers.{asked_text};

    ghost output = { λ a. Some (asked_text a.0) };

    fn fmt<W: fmt::Write>(&self, f: &mut fmt::Formatter<W>) -> fmt::Result {
        let asked = self.0;
        if asked == Host::V4([0; 4]) {
            return Ok(());
        }
        write!(f, ">{asked}")
    }
}

/// Whose word there is for a caller, after the host that was asked.
#[derive(Clone, Copy)]
struct TrustText(Trust);

impl fmt::Display for TrustText {
    ghost use Rattle.std.specs.Prelude.{Some};
    ghost use Rattle.rb_address.specs.Callers.{trust_text};

    ghost output = { λ t. Some (trust_text t.0) };

    fn fmt<W: fmt::Write>(&self, f: &mut fmt::Formatter<W>) -> fmt::Result {
        match self.0 {
            Trust::Claims => Ok(()),
            Trust::Local(Owner::Unknown) => write!(f, "/unknown"),
            Trust::Local(Owner::Uid(uid)) => write!(f, "/{uid}"),
            Trust::Stranger => write!(f, "/stranger"),
        }
    }
}

/// The source; `>` and the host that was asked, if it is not 0.0.0.0; and `/` and the uid, `unknown` or `stranger`,
/// if there is more than the caller's own word.
impl fmt::Display for Who {
    ghost use Rattle.std.specs.Prelude.{Some};
    ghost use Rattle.rb_address.specs.Callers.{who_text};

    ghost output = { λ w. Some (who_text w) };

    fn fmt<W: fmt::Write>(&self, f: &mut fmt::Formatter<W>) -> fmt::Result {
        let source = self.source;
        let asked = AskedText(self.asked);
        let trust = TrustText(self.trust);
        write!(f, "{source}{asked}{trust}")
    }
}
