//! Which uid of the kernel's tables names nobody.
use rb_policy::unmapped_uid;
use std::fs::{File, Files};
use std::io::Read;

/// More bytes than a map of all users has.
const ROOM: usize = 64;

/// The uid that the kernel shows in place of users whom the user namespace of this process does not map, unless that maps all.
pub(crate) fn unmapped<R: Files>(rt: &R) -> Option<u32> {
    let (mut map, mut overflow) = ([0; ROOM], [0; ROOM]);
    let map = front_of(rt, "/proc/self/uid_map", &mut map);
    let overflow = front_of(rt, "/proc/sys/kernel/overflowuid", &mut overflow);
    unmapped_uid(map, overflow)
}

/// The first bytes of the file at the path, at most as many as there is room for.
fn front_of<'a, R: Files>(rt: &R, path: &str, room: &'a mut [u8; ROOM]) -> Option<&'a [u8]> {
    let mut file = File::open(rt, path).ok()?;
    let count = file.read(room).ok()?;
    room.get(..count)
}
