//! The bytes of an event line.
ghost use Rattle.std.specs.Prelude.{◌≡◌, IfOk};
ghost use Rattle.std.specs.Option.{option_map};
ghost use Rattle.rb_lines.specs.Fields.{hex_bytes};

use hex::FromHexError;
use rb_xdr::NoMemory;
use std::alloc::Global;

// LINE-9
/// Bytes in hexadecimal digits of either case, or `-` for none.
#[tactic(auto, unfolding(crate::specs::Fields::hex_bytes))]
pub fn hex_bytes(alloc: Global, text: &[u8]) -> Result<Option<Vec<u8>>, NoMemory>
    ensures { IfOk result (λ read. option_map (λ bytes. bytes.items) read ≡ hex_bytes text.now) }
{
    if text == b"-".as_slice() {
        return Ok(Some(Vec::new(alloc)));
    }
    if text.is_empty() {
        return Ok(None);
    }
    match hex::decode(alloc, text) {
        Ok(bytes) => Ok(Some(bytes)),
        Err(FromHexError::OutOfMemory) => Err(NoMemory),
        Err(_) => Ok(None),
    }
}
