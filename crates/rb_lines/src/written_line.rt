//! Lines as they are written: a front, and bytes in hexadecimal digits after it.
ghost use Rattle.std.specs.Prelude.{◌≡◌, ◌≤◌, ◌<◌, ◌+◌, ◌*◌, ◌^◌, ◌++◌, length, decimal, codes, OnOk, vec_capacity};
ghost use Rattle.hex.specs.Hex.{encode_lower};
ghost use Rattle.rb_lines.specs.Printing.{hex_text, bytes_line, Writes};
ghost use Rattle.rb_lines.specs.WrittenLines.{line_text, tail_text};

use crate::front::{Front, MAX_FRONT};
use std::io;
use std::io::Write;

/// How many bytes are written at a time.
const PIECE: usize = 512;

/// What stands after the front of a line.
#[derive(Clone, Copy)]
enum Tail<'a> {
    /// Nothing but its end.
    End,
    /// Bytes in hexadecimal digits, or `-` for none, and its end.
    Bytes(&'a [u8]),
}

/// A line that is written.
#[derive(Drop)]
pub(crate) struct WrittenLine<'a> {
    front: Front<MAX_FRONT>,
    tail: Tail<'a>,
}

impl<'a> WrittenLine<'a> {
    /// A line of a front alone.
    pub(crate) fn of(front: Front<MAX_FRONT>) -> WrittenLine<'a>
        ensures { line_text result ≡ front.text.items ++ codes "\n" }
    {
        WrittenLine {
            front,
            tail: Tail::End,
        }
    }

    /// A line of a front and bytes.
    pub(crate) fn with(front: Front<MAX_FRONT>, bytes: &'a [u8]) -> WrittenLine<'a>
        ensures { line_text result ≡ front.text.items ++ (hex_text bytes.now ++ codes "\n") }
    {
        WrittenLine {
            front,
            tail: Tail::Bytes(bytes),
        }
    }

    /// A line of a word.
    pub(crate) fn word(word: &str) -> WrittenLine<'a>
        requires { length word.now ≤ 64 }
        ensures { line_text result ≡ word.now ++ codes "\n" }
    {
        WrittenLine::of(Front::new(word))
    }

    /// A line of a word and a number.
    pub(crate) fn number(word: &str, number: u64) -> WrittenLine<'a>
        requires { length word.now ≤ 64 }
        ensures { line_text result ≡ word.now ++ (decimal number ++ codes "\n") }
    {
        let mut front = Front::new(word);
        front.push_number(number);
        WrittenLine::of(front)
    }

    /// A line of a word and bytes.
    pub(crate) fn bytes(word: &str, bytes: &'a [u8]) -> WrittenLine<'a>
        requires { length word.now ≤ 64 }
        ensures { line_text result ≡ bytes_line word.now bytes.now }
    {
        WrittenLine::with(Front::new(word), bytes)
    }

    /// How many bytes it has.
    pub(crate) fn len(&self) -> u128
        ensures count { result ≡ length (line_text self.now) }
        ensures short { result < 2 ^ 66 }
    {
        self.front.as_slice().len() as u128 + tail_len(self.tail)
    }

    /// Adds it to a text that has the room for it.
    pub(crate) fn push_to(&self, text: &mut Vec<u8>)
        requires { length text.old.items + length (line_text self.now) ≤ vec_capacity text.old }
        ensures text { text.new.items ≡ text.old.items ++ line_text self.now }
        ensures capacity { vec_capacity text.old ≤ vec_capacity text.new }
    {
        push_bytes(text, self.front.as_slice());
        push_tail(text, self.tail);
    }

    /// Writes it. An error if the writer fails; how much of the line it has then is not known.
    pub(crate) fn write_to<W: Write>(&self, writer: &mut W) -> io::Result<()>
        ensures { OnOk result (Writes W.contents writer.old writer.new (line_text self.now)) }
    {
        writer.write_all(self.front.as_slice())?;
        write_tail(self.tail, writer)
    }
}

/// How many bytes stand after a front.
fn tail_len(tail: Tail<'_>) -> u128
    ensures count { result ≡ length (tail_text tail.entry) }
    ensures short { result ≤ 2 ^ 65 + 1 }
{
    match tail {
        Tail::End => 1,
        Tail::Bytes(bytes) => hex_len(bytes) + 1,
    }
}

/// How many bytes the digits of some bytes are, or `-` is for none.
#[tactic(auto, using(crate::proofs::Digits::some_digits))]
fn hex_len(bytes: &[u8]) -> u128
    ensures count { result ≡ length (hex_text bytes.now) }
    ensures short { result ≤ 2 ^ 65 }
{
    if bytes.is_empty() {
        return 1;
    }
    2 * bytes.len() as u128
}

/// Adds what stands after a front.
fn push_tail(text: &mut Vec<u8>, tail: Tail<'_>)
    requires { length text.old.items + length (tail_text tail) ≤ vec_capacity text.old }
    ensures text { text.new.items ≡ text.old.items ++ tail_text tail.entry }
    ensures capacity { vec_capacity text.old ≤ vec_capacity text.new }
{
    if let Tail::Bytes(bytes) = tail {
        push_hex(text, bytes);
    }
    push_bytes(text, b"\n");
}

/// Adds bytes in hexadecimal digits, or `-` for none.
#[tactic(auto, using(crate::proofs::Digits::some_digits))]
fn push_hex(text: &mut Vec<u8>, bytes: &[u8])
    requires { length text.old.items + length (hex_text bytes.now) ≤ vec_capacity text.old }
    ensures text { text.new.items ≡ text.old.items ++ hex_text bytes.now }
    ensures capacity { vec_capacity text.old ≤ vec_capacity text.new }
{
    if bytes.is_empty() {
        push_bytes(text, b"-");
    } else {
        push_digits(text, bytes);
    }
}

/// Adds bytes to a text that has the room for them.
pub(crate) fn push_bytes(text: &mut Vec<u8>, bytes: &[u8])
    requires { length text.old.items + length bytes.now ≤ vec_capacity text.old }
    ensures text { text.new.items ≡ text.old.items ++ bytes.now }
    ensures capacity { vec_capacity text.old ≤ vec_capacity text.new }
{
    let Ok(()) = text.extend_from_slice(bytes) else {
        unreachable!()
    };
}

/// Adds two hexadecimal digits for each byte, in lower case.
fn push_digits(text: &mut Vec<u8>, bytes: &[u8])
    requires { length text.old.items + 2 * length bytes.now ≤ vec_capacity text.old }
    ensures text { text.new.items ≡ text.old.items ++ encode_lower bytes.now }
    ensures capacity { vec_capacity text.old ≤ vec_capacity text.new }
{
    let from = text.len();
    let Ok(()) = text.resize(from + 2 * bytes.len(), 0) else {
        unreachable!()
    };
    hex::encode_to_slice(bytes, &mut text[from..]).unwrap();
}

/// Writes what stands after a front.
fn write_tail<W: Write>(tail: Tail<'_>, writer: &mut W) -> io::Result<()>
    ensures { OnOk result (Writes W.contents writer.old writer.new (tail_text tail.entry)) }
{
    if let Tail::Bytes(bytes) = tail {
        write_hex(bytes, writer)?;
    }
    writer.write_all(b"\n")
}

/// Writes bytes in hexadecimal digits, or `-` for none.
fn write_hex<W: Write>(bytes: &[u8], writer: &mut W) -> io::Result<()>
    ensures { OnOk result (Writes W.contents writer.old writer.new (hex_text bytes.now)) }
{
    if bytes.is_empty() {
        return writer.write_all(b"-");
    }
    write_digits(bytes, writer)
}

/// Writes bytes as two hexadecimal digits each, in lower case.
fn write_digits<W: Write>(bytes: &[u8], writer: &mut W) -> io::Result<()>
    ensures { OnOk result (Writes W.contents writer.old writer.new (encode_lower bytes.now)) }
{
    let mut digits = [0; 2 * PIECE];
    let mut rest = bytes;
    while !rest.is_empty() {
        let (piece, more) = rest.split_at(rest.len().min(PIECE));
        let text = &mut digits[..2 * piece.len()];
        hex::encode_to_slice(piece, text).unwrap();
        writer.write_all(text)?;
        rest = more;
    }
    Ok(())
}
