//! The reply on standard input, in hexadecimal text.
ghost use Rattle.std.specs.Prelude.{◌≡◌, ◌≤◌, ◌⊎◌, IfOk, IfErr};
ghost use Rattle.rb_plans.specs.Input.{bytes_of, digits_of, is_white, longest_text, read_hex, FailsAs, IsEnoughOf, ShowsIn};

use hex::FromHexError;
use rb_show::{Ask, Form, InfoFault, Shown, show_reply};
use std::alloc::Global;
use std::io::{ErrorKind, Read, Write};

/// The xid of a first call, and of the reply on standard input.
pub const FIRST_XID: u32 = 1;

/// The length in bytes of the longest text.
#[tactic(auto, unfolding(crate::specs::Input::longest_text))]
fn longest_text() -> usize
    ensures value { result ≡ longest_text }
    ensures small { result ≤ 67108864 }
{
    67_108_864
}

/// The six white space characters of ASCII.
fn is_white(byte: u8) -> bool
    ensures { result ≡ is_white byte }
{
    byte == b' ' || (b'\t' <= byte && byte <= b'\r')
}

/// The first bytes of what the input has left: as many as a text may have, and one more.
fn read_text<I: Read>(alloc: Global, input: &mut I) -> Result<Vec<u8>, InfoFault>
    ensures bytes { IfOk result (λ text. IsEnoughOf (I.remaining input.old) text.items) }
    ensures err { IfErr result (λ fault. (fault ≡ InfoFault.Memory) ⊎ (fault ≡ InfoFault.Read)) }
{
    let mut text = Vec::new(alloc);
    let limit = longest_text() as u64 + 1;
    match input.take(limit).read_to_end(&mut text) {
        Ok(_) => Ok(text),
        Err(error) if error.kind() == ErrorKind::OutOfMemory => Err(InfoFault::Memory),
        Err(_) => Err(InfoFault::Read),
    }
}

/// The digits of a text, in its own storage.
fn digits_of(mut text: Vec<u8>) -> Vec<u8>
    ensures { result.items ≡ digits_of text.items }
{
    text.retain(|byte| !is_white(*byte));
    text
}

/// The bytes of hexadecimal text: two digits of either case for each, with white space anywhere. Other text is
/// `Unreadable`.
fn read_hex(alloc: Global, text: Vec<u8>) -> Result<Vec<u8>, InfoFault>
    ensures ok { IfOk result (λ bytes. read_hex text.items ≡ Ok bytes.items) }
    ensures err { IfErr result (FailsAs (read_hex text.items)) }
{
    let digits = digits_of(text);
    match hex::decode(alloc, digits.as_slice()) {
        Ok(bytes) => Ok(bytes),
        Err(FromHexError::OutOfMemory) => Err(InfoFault::Memory),
        Err(_) => Err(InfoFault::Unreadable),
    }
}

/// The bytes that a text gives. One that is too long is `TooLong`, other text than hexadecimal digits `Unreadable`.
fn bytes_of(alloc: Global, text: Vec<u8>) -> Result<Vec<u8>, InfoFault>
    ensures ok { IfOk result (λ bytes. bytes_of text.items ≡ Ok bytes.items) }
    ensures err { IfErr result (FailsAs (bytes_of text.items)) }
{
    if text.len() > longest_text() {
        return Err(InfoFault::TooLong);
    }
    read_hex(alloc, text)
}

/// Shows the reply to the first xid that is on standard input as hexadecimal text, white space skipped.
///
/// A text of more than 67,108,864 bytes is `TooLong`, other text than pairs of hexadecimal digits is `Unreadable`, and
/// `Read` says that the input failed; nothing is written then. Else it is as `show_reply` says of the bytes that the
/// text gives.
pub fn show_input<I: Read, O: Write>(
    alloc: Global,
    ask: &Ask,
    form: Form<'_>,
    input: &mut I,
    output: &mut O,
) -> Result<Shown, InfoFault>
    ensures { ShowsIn I.remaining O.contents ask.now form.entry input.old output.old output.new result }
{
    let text = read_text(alloc, input)?;
    let bytes = bytes_of(alloc, text)?;
    show_reply(alloc, ask, form, FIRST_XID, &bytes, output)
}
