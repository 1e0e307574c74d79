//! Texts of a reply, as they are printed.
ghost use Rattle.std.specs.Prelude.{◌≡◌, map, IfOk};
ghost use Rattle.std.specs.Fmt.{signed_decimal};
ghost use Rattle.rb_show.specs.Texts.{HasBytes, shown_byte, shown_text, at_left, joined, prot_text};

use rb_address::{Family, Netid, Transport};
use std::alloc::{AllocError, Global};

fn shown_char(byte: u8) -> char
    ensures { result ≡ shown_byte byte }
{
    if byte.is_ascii_graphic() {
        char::from(byte)
    } else {
        '?'
    }
}

/// A text of a reply, with `?` for each byte that is no printable character, and `-` for none.
pub(crate) fn shown_text(alloc: Global, text: &[u8]) -> Result<String, AllocError>
    ensures { IfOk result (HasBytes (shown_text text.now)) }
{
    if text.is_empty() {
        return String::from_str(alloc, "-");
    }
    let mut shown = String::new(alloc);
    for byte in text {
        shown.push(shown_char(*byte))?;
    }
    Ok(shown)
}

/// A protocol by the name of its transport over IPv4; of any other one the number.
pub(crate) fn prot_text(alloc: Global, prot: u32) -> Result<String, AllocError>
    ensures { IfOk result (HasBytes (prot_text prot)) }
{
    match Transport::of_protocol(prot) {
        Some(transport) => String::from_str(alloc, Netid::of(transport, Family::Inet).text()),
        None => format!(in alloc; "{prot}"),
    }
}

/// A text with spaces after it, up to this width.
pub(crate) fn at_left(alloc: Global, text: &str, width: usize) -> Result<String, AllocError>
    ensures { IfOk result (HasBytes (at_left width text.now)) }
{
    let mut padded = String::from_str(alloc, text)?;
    for place in 0..width.saturating_sub(text.len()) {
        padded.push(' ')?;
    }
    Ok(padded)
}

/// Numbers with this text between them.
pub(crate) fn joined_ints(alloc: Global, ints: &[i32], between: &str) -> Result<String, AllocError>
    ensures { IfOk result (HasBytes (joined between.now (map signed_decimal ints.now))) }
{
    let [first, rest @ ..] = ints else {
        return Ok(String::new(alloc));
    };
    let mut text = format!(in alloc; "{first}")?;
    for next in rest {
        let next = format!(in alloc; "{between}{next}")?;
        text.push_str(&next)?;
    }
    Ok(text)
}
