//! What a call sees.
ghost use Rattle.std.specs.Prelude.{◌≡◌, ◌≤◌};
ghost use Rattle.rb_answers.specs.Callers.{who_of, netid_of_caller, is_stranger, is_here, may_register, owner_named, owner_of, is_superuser, share_of, share_in, hosts_in};
ghost use Rattle.rb_answers.specs.Answers.{comes_from_here, owner_in, netid_asked};

use crate::listener::{Announced, Terms};
use crate::reserved::LentReserved;
use rb_address::{Caller, Netid, Owner, Source, Transport, Trust, Who};
use rb_rpc::{CallHead, Credential};
use rb_uaddr::Hosts;

/// What the answer to a call depends on beside the books: the announced hosts and the terms, the limits, the moment and
/// the caller.
#[derive(Drop)]
pub struct Context<'a> {
    /// The families that are served, and the host of each.
    pub announced: Announced,
    /// On which terms callers are served.
    pub terms: Terms,
    /// Whose programs are.
    pub reserved: LentReserved<'a>,
    /// The greatest number of rows.
    pub limit: usize,
    /// The greatest number of forwarded calls.
    pub forwards: u32,
    /// Milliseconds since the start of 1970.
    pub clock: u64,
    /// Who called, over which transport.
    pub caller: Caller,
}

pub fn who_of(caller: &Caller) -> Who
    ensures { result ≡ who_of caller.now }
{
    match caller {
        Caller::Tcp(_, who) | Caller::Udp(who, _) => *who,
    }
}

/// Whether nothing that the caller says is believed.
pub fn is_stranger(who: &Who) -> bool
    ensures { result ≡ is_stranger who.now }
{
    match who.trust {
        Trust::Claims | Trust::Local(_) => false,
        Trust::Stranger => true,
    }
}

/// The netid by which a call of this caller came.
pub fn netid_of_caller(caller: &Caller) -> Netid
    ensures { result ≡ netid_of_caller caller.now }
{
    match caller {
        Caller::Tcp(_, who) => who.source.netid(Transport::Tcp),
        Caller::Udp(who, _) => who.source.netid(Transport::Udp),
    }
}

/// Whom the credential names.
pub fn owner_named(cred: Credential) -> Owner
    ensures { result ≡ owner_named cred }
{
    match cred {
        Credential::None => Owner::Unknown,
        Credential::Sys(uid) => Owner::Uid(uid),
    }
}

/// As whom a caller registers: whose owner is known is that owner, whatever the credential says.
fn owner_of(trust: Trust, cred: Credential) -> Owner
    ensures { result ≡ owner_of trust cred }
{
    match trust {
        Trust::Local(owner) => owner,
        Trust::Claims | Trust::Stranger => owner_named(cred),
    }
}

/// Among how many rows an owner may set one more: the last quarter is for uid 0.
fn share_of(owner: Owner, limit: usize) -> usize
    ensures share { result ≡ share_of owner limit }
    ensures within { result ≤ limit }
{
    match owner {
        Owner::SUPERUSER => limit,
        Owner::Unknown | Owner::Uid(_) => limit - limit / 4,
    }
}

impl<'a> Context<'a> {
    /// Who called.
    pub fn who(&self) -> Who
        ensures { result ≡ who_of self.now.caller }
    {
        who_of(&self.caller)
    }

    /// Whether a caller from there is of this machine, by its address alone or by a local socket.
    fn is_here(&self, source: Source) -> bool
        ensures { result ≡ is_here self.now.announced source }
    {
        match source {
            Source::Inet(peer) => self.announced.is_local(peer.host()),
            Source::Local => true,
        }
    }

    /// Returns whether the caller is on this machine, as far as it is trusted: then it may register.
    #[tactic(auto, unfolding(crate::specs::Answers::comes_from_here))]
    pub fn comes_from_here(&self) -> bool
        ensures { result ≡ comes_from_here self.now }
    {
        let who = self.who();
        match who.trust {
            Trust::Claims => self.is_here(who.source),
            Trust::Local(_) => true,
            Trust::Stranger => false,
        }
    }

    /// As whom a call of this head registers.
    pub fn owner(&self, head: &CallHead) -> Owner
        ensures { result ≡ owner_in self.now head.now }
    {
        owner_of(self.who().trust, head.cred)
    }

    /// Among how many rows the caller may set one more.
    pub fn share(&self) -> usize
        ensures share { result ≡ share_in self.now }
        ensures within { result ≤ self.now.limit }
    {
        match self.who().trust {
            Trust::Local(owner) => share_of(owner, self.limit),
            Trust::Claims | Trust::Stranger => self.limit,
        }
    }

    /// The netid by which the call came.
    pub fn netid(&self) -> Netid
        ensures { result ≡ netid_asked self.now }
    {
        netid_of_caller(&self.caller)
    }

    /// The hosts that the caller is told in place of 0.0.0.0 and ::.
    pub fn hosts(&self) -> Hosts
        ensures { result ≡ hosts_in self.now }
    {
        self.announced.hosts_told(self.who().asked)
    }
}
