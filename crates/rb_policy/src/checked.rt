//! Which of the kept rows are asked whether somebody answers there, and at which host.
ghost use Rattle.std.specs.Prelude.{◌≡◌};
ghost use Rattle.rb_policy.specs.Checked.{checked_at, loopback_of};

use crate::addresses::{LOOPBACK6, has_host};
use rb_address::Host;

/// The host at which somebody is asked for a row of this host, if it is one of this machine: for every host of a
/// family the loopback, and for the loopback, a host that is listened on and one that is announced that host itself.
pub fn checked_at(bound: &[Host], announced: &[Host], host: Host) -> Option<Host>
    ensures { result ≡ checked_at bound.now announced.now host }
{
    if host.is_any() {
        Some(loopback_of(host))
    } else if host.is_loopback() || has_host(bound, host) || has_host(announced, host) {
        Some(host)
    } else {
        None
    }
}

fn loopback_of(host: Host) -> Host
    ensures { result ≡ loopback_of host }
{
    match host {
        Host::V4(_) => Host::V4([127, 0, 0, 1]),
        Host::V6(_) => Host::V6(LOOPBACK6),
    }
}
