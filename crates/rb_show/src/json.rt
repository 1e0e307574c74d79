//! Texts of JSON (RFC 8259 section 7).
ghost use Rattle.std.specs.Prelude.{◌≡◌, ◌<◌, ◌++◌, IfOk, OnOk};
ghost use Rattle.std.specs.String.{string_bytes};
ghost use Rattle.rb_show.specs.Texts.{HasBytes};
ghost use Rattle.rb_show.specs.Json.{hex_digit, code_escape, escaped_byte, json_text};

use std::alloc::{AllocError, Global};

/// The hexadecimal digit of a number below 16.
fn hex_digit(n: u8) -> char
    requires { n < 16 }
    ensures { result ≡ hex_digit n }
{
    if n < 10 {
        char::from(b'0' + n)
    } else {
        char::from(b'a' - 10 + n)
    }
}

/// Adds a byte as the character of its number, in six characters.
fn push_code(byte: u8, text: &mut String) -> Result<(), AllocError>
    ensures { OnOk result (string_bytes text.new ≡ string_bytes text.old ++ code_escape byte) }
{
    text.push_str("\\u00")?;
    text.push(hex_digit(byte / 16))?;
    text.push(hex_digit(byte % 16))?;
    Ok(())
}

/// Adds a byte of a text, so that it stands for itself between quotation marks.
fn push_escaped(byte: u8, text: &mut String) -> Result<(), AllocError>
    ensures { OnOk result (string_bytes text.new ≡ string_bytes text.old ++ escaped_byte byte) }
{
    match byte {
        b'"' => text.push_str("\\\"")?,
        b'\\' => text.push_str("\\\\")?,
        b' '..=b'~' => text.push(char::from(byte))?,
        _ => push_code(byte, text)?,
    }
    Ok(())
}

/// A text of JSON whose characters have the numbers of these bytes.
pub(crate) fn json_text(alloc: Global, text: &[u8]) -> Result<String, AllocError>
    ensures { IfOk result (HasBytes (json_text text.now)) }
{
    let mut json = String::from_str(alloc, "\"")?;
    for byte in text {
        push_escaped(*byte, &mut json)?;
    }
    json.push('"')?;
    Ok(json)
}
