//! The NULL call of a program (RFC 5531 section 12.1).
/// The header of a record of TCP that is one fragment of 40 bytes.
const HEADER: u32 = 1 << 31 | 40;

/// The header of its record, and the words of a NULL call: xid 1, CALL, version 2 of RPC, what is called, procedure 0,
/// and credential and verifier AUTH_NONE, empty.
fn words(prog: u32, vers: u32) -> [u32; 11] {
    [HEADER, 1, 0, 2, prog, vers, 0, 0, 0, 0, 0]
}

/// How many bytes the header has.
pub const MARK: usize = 4;

/// The bytes of a NULL call, of which a datagram has those after the first four.
pub fn null_call(prog: u32, vers: u32) -> [u8; 44] {
    let mut bytes = [0; 44];
    for (room, word) in bytes.chunks_exact_mut(4).zip(words(prog, vers)) {
        room.copy_from_slice(&word.to_be_bytes());
    }
    bytes
}
