//! How long is waited.
ghost use Rattle.std.specs.Prelude.{◌≡◌};
ghost use Rattle.rb_plans.specs.Waits.{wait_left, stream_wait, datagram_wait, broadcast_wait};

/// How long a connection is waited for, in milliseconds. Other clients of ONC RPC wait for 25 seconds too.
pub const CONNECTION: u64 = 25_000;

/// How long the next bytes of a reply over TCP are waited for, and until bytes of a call are taken.
const SILENCE: u64 = 25_000;

/// How long all of a call over TCP and its reply may take, from the connection on.
const WHOLE: u64 = 60_000;

/// How long the datagram of a reply is waited for.
const DATAGRAM: u64 = 5_000;

/// How long answers to a broadcast are waited for.
const BROADCAST: u64 = 5_000;

/// How long may still be waited, at most `most`, if this much of `whole` has passed; `None` once all of it has.
fn wait_left(most: u64, whole: u64, passed: u64) -> Option<u64>
    ensures { result ≡ wait_left most whole passed }
{
    if passed < whole {
        Some(most.min(whole - passed))
    } else {
        None
    }
}

/// How long the next bytes over TCP are waited for, in milliseconds, if a call was begun this long ago; `None` once it may
/// not go on.
pub fn stream_wait(passed: u64) -> Option<u64>
    ensures { result ≡ stream_wait passed }
{
    wait_left(SILENCE, WHOLE, passed)
}

/// How long the datagram of a reply is still waited for, in milliseconds, if the call was sent this long ago.
pub fn datagram_wait(passed: u64) -> Option<u64>
    ensures { result ≡ datagram_wait passed }
{
    wait_left(DATAGRAM, DATAGRAM, passed)
}

/// How long answers to a broadcast are still waited for, in milliseconds, if all calls were out this long ago.
pub fn broadcast_wait(passed: u64) -> Option<u64>
    ensures { result ≡ broadcast_wait passed }
{
    wait_left(BROADCAST, BROADCAST, passed)
}
