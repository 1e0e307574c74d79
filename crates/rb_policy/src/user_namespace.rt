//! Which uid of the kernel's tables names nobody, as the daemon's user namespace does not map all users.
ghost use Rattle.std.specs.Prelude.{◌≡◌};
ghost use Rattle.std.specs.Option.{option_map};
ghost use Rattle.rb_policy.specs.UserNamespace.{maps_all, overflow_uid, uid_shown, unmapped_uid};

use rb_address::{cut, plain_number};

/// The map of a user namespace that maps all users (user_namespaces(7)).
const ALL: &[u8] = b"         0          0 4294967295\n";

/// The uid of users without one (proc_sys_kernel(5)), if the system does not tell it.
const NOBODY: u32 = 65_534;

/// The uid that the kernel shows in place of users whom the daemon's user namespace does not map, by the texts of
/// /proc/self/uid_map and /proc/sys/kernel/overflowuid, if they could be read. None if it maps all.
pub fn unmapped_uid(map: Option<&[u8]>, overflow: Option<&[u8]>) -> Option<u32>
    ensures { result ≡ unmapped_uid (option_map (λ t. t.now) map.entry)
        (option_map (λ t. t.now) overflow.entry) }
{
    if maps_all(map) {
        None
    } else {
        Some(overflow_uid(overflow))
    }
}

fn maps_all(map: Option<&[u8]>) -> bool
    ensures { result ≡ maps_all (option_map (λ t. t.now) map.entry) }
{
    match map {
        Some(map) => map == ALL,
        None => false,
    }
}

fn overflow_uid(text: Option<&[u8]>) -> u32
    ensures { result ≡ overflow_uid (option_map (λ t. t.now) text.entry) }
{
    match text {
        Some(text) => uid_shown(text).unwrap_or(NOBODY),
        None => NOBODY,
    }
}

/// The number that the first line is.
fn uid_shown(text: &[u8]) -> Option<u32>
    ensures { result ≡ uid_shown text.now }
{
    let (line, _) = cut(text, b'\n')?;
    let uid = plain_number(line, 1 << 32)?;
    Some(uid as u32)
}
