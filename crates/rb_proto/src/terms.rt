//! On which terms callers are served: for whom another call is made and to what, and what strangers are counted for.
ghost use Rattle.std.specs.Prelude.{◌≡◌, option_copied};
ghost use Rattle.rb_answers.specs.Callers.{who_of};
ghost use Rattle.rb_answers.specs.Terms.{goes_by_host, is_any_host, is_this_host, is_harmless, may_go, counts_look_up, counts_forward};

use rb_address::{Caller, Host};
use rb_answers::{Context, Forwarding, is_stranger, who_of};
use rb_arguments::RemoteCall;
use rb_registry::Row;

const YPSERV: u32 = 100_004;

const MOUNTD: u32 = 100_005;

const YPBIND: u32 = 100_007;

const YPPASSWDD: u32 = 100_009;

/// Whether the program goes by the host of who calls it: for a forwarded call that is this host.
#[tactic(auto, unfolding(rb_answers::specs::Terms::goes_by_host))]
fn goes_by_host(prog: u32, proc: u32) -> bool
    ensures { result ≡ goes_by_host prog proc }
{
    match prog {
        YPSERV | YPBIND | YPPASSWDD => true,
        MOUNTD => proc != 0,
        _ => false,
    }
}

fn is_any_host(host: Host) -> bool
    ensures { result ≡ is_any_host host }
{
    match host {
        Host::V4(octets) => octets == [0; 4],
        Host::V6(octets) => octets == [0; 16],
    }
}

/// Whether the host is this one: every host, one of the loopback, an announced one, or the one that the caller asked.
#[tactic(auto, unfolding(rb_answers::specs::Terms::is_this_host))]
fn is_this_host(context: &Context, host: Host) -> bool
    ensures { result ≡ is_this_host context.now host }
{
    is_any_host(host) || context.announced.is_local(host) || host == context.who().asked
}

/// Whether a call may be made for anybody: to a program of this host that does not go by the host of who calls it.
fn is_harmless(context: &Context, remote: &RemoteCall, host: Host) -> bool
    ensures { result ≡ is_harmless context.now remote.now host }
{
    is_this_host(context, host) && !goes_by_host(remote.prog, remote.proc)
}

/// Whether the call that is asked for may be made to this host, for this caller.
#[tactic(auto, unfolding(rb_answers::specs::Terms::may_go))]
pub(crate) fn may_go(context: &Context, remote: &RemoteCall, host: Host) -> bool
    ensures { result ≡ may_go context.now remote.now host }
{
    match context.terms.forwarding {
        Forwarding::Anywhere => true,
        Forwarding::ForAll => is_harmless(context, remote, host),
        Forwarding::ForLocal => {
            is_harmless(context, remote, host) && !is_stranger(&context.who())
        }
    }
}

/// Whether a look-up of the version that found this row counts in the statistics: a stranger's only if the row is of
/// exactly that version.
pub(crate) fn counts_look_up(context: &Context, vers: u32, found: Option<&Row>) -> bool
    ensures { result
        ≡ counts_look_up (who_of context.now.caller) vers (option_copied found.entry) }
{
    if !is_stranger(&context.who()) {
        return true;
    }
    match found {
        Some(row) => row.vers == vers,
        None => false,
    }
}

/// Whether a forwarded call that passed, or did not, counts in the statistics: a stranger's only if it did.
pub(crate) fn counts_forward(caller: &Caller, passed: bool) -> bool
    ensures { result ≡ counts_forward caller.now passed }
{
    passed || !is_stranger(&who_of(caller))
}
