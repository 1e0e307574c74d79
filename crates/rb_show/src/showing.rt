//! A marked reply that is shown as its bytes come.
ghost use Rattle.std.specs.Prelude.{◌≡◌, ◌≤◌, [], drop, length, OnOk};
ghost use Rattle.rb_show.specs.Showings.{Keeps, UnmarksOr, IsWritten, lack_of, after_piece, as_whole};

use crate::ask::Ask;
use crate::fault::InfoFault;
use crate::form::Form;
use crate::show::Shown;
use crate::telling::Telling;
use rb_rpc::{Marks, Part};
use std::alloc::{AllocError, Global};
use std::io::Write;

/// The most bytes of a record that are read, its headers among them.
const LONGEST_RECORD: u32 = 16_777_216;

/// Keeps a byte if it is data.
fn keep(part: Part, byte: u8, held: &mut Vec<u8>) -> Result<(), AllocError>
    ensures { OnOk result (Keeps part byte held.old.items held.new.items) }
{
    match part {
        Part::Data => held.push(byte)?,
        Part::Header => {}
    }
    Ok(())
}

/// Keeps the data of the record among these bytes, and says whether the record ends in them.
fn unmark(marks: &mut Marks, bytes: &[u8], held: &mut Vec<u8>) -> Result<bool, AllocError>
    ensures { UnmarksOr marks.old marks.new bytes.now held.old held.new result }
{
    for byte in bytes {
        let (part, ended) = marks.feed(*byte);
        keep(part, *byte, held)?;
        if ended {
            return Ok(true);
        }
    }
    Ok(false)
}

/// Writes the lines of what was told, if there was memory for them.
pub(crate) fn written<W: Write>(
    told: Result<Option<Shown>, InfoFault>,
    text: &[u8],
    writer: &mut W,
) -> Result<Option<Shown>, InfoFault>
    ensures { IsWritten told text.now W.contents writer.old writer.new result }
{
    if told == Err(InfoFault::Memory) {
        return told;
    }
    if writer.write_all(text).is_err() {
        return Err(InfoFault::Write);
    }
    told
}

/// What is so if more data is needed.
fn lack_of(ended: bool, allowed: u32) -> Result<Option<Shown>, InfoFault>
    ensures { result ≡ lack_of ended allowed }
{
    if ended {
        return Err(InfoFault::CutOff);
    }
    if allowed == 0 {
        return Err(InfoFault::TooLong);
    }
    Ok(None)
}

/// What a piece of the bytes comes to.
fn after_piece(
    told: Result<Option<Shown>, InfoFault>,
    ended: bool,
    allowed: u32,
) -> Result<Option<Shown>, InfoFault>
    ensures { result ≡ after_piece told ended allowed }
{
    match told {
        Ok(None) => lack_of(ended, allowed),
        Ok(Some(shown)) => Ok(Some(shown)),
        Err(fault) => Err(fault),
    }
}

/// What all bytes come to.
pub(crate) fn as_whole(told: Result<Option<Shown>, InfoFault>) -> Result<Shown, InfoFault>
    ensures { result ≡ as_whole told }
{
    match told {
        Ok(None) => Err(InfoFault::CutOff),
        Ok(Some(shown)) => Ok(shown),
        Err(fault) => Err(fault),
    }
}

/// Drops the front of a buffer.
fn drop_front(held: &mut Vec<u8>, used: usize)
    requires { used ≤ length held.old.items }
    ensures { held.new.items ≡ drop used held.old.items }
{
    let left = held.len() - used;
    held.rotate_left(used);
    held.truncate(left);
}

/// The marked reply to a call, as far as its bytes came.
#[derive(Drop)]
pub struct Showing<'a> {
    telling: Telling<'a>,
    marks: Marks,
    /// How many more bytes may be read.
    allowed: u32,
    /// The data that was not used yet.
    held: Vec<u8>,
}

impl<'a> Showing<'a> {
    ghost use Rattle.rb_show.specs.Showings.{StandsAfter, Feeds};

    /// Before the first byte of the reply to the call with this xid.
    pub fn new(alloc: Global, ask: &Ask, form: Form<'a>, xid: u32) -> Showing<'a>
        ensures { StandsAfter ask.now form.entry xid result [] [] }
    {
        Showing {
            telling: Telling::new(alloc, *ask, form, xid),
            marks: Marks::new(),
            allowed: LONGEST_RECORD,
            held: Vec::new(alloc),
        }
    }

    /// Takes further bytes of the reply, and writes the lines that it tells with them. `None` if more bytes are needed:
    /// if none come, the reply is cut off. The faults are those of `show_reply`; nothing may be fed after one, or after
    /// something was shown.
    pub fn feed<W: Write>(
        &mut self,
        alloc: Global,
        bytes: &[u8],
        writer: &mut W,
    ) -> Result<Option<Shown>, InfoFault>
        ensures { Feeds self.old self.new bytes.now W.contents writer.old writer.new result }
    {
        let count = bytes.len().min(self.allowed as usize);
        self.allowed -= count as u32;
        let Ok(ended) = unmark(&mut self.marks, &bytes[..count], &mut self.held) else {
            return Err(InfoFault::Memory);
        };
        let mut text = Vec::new(alloc);
        let (used, told) = self.telling.tell(alloc, &self.held, &mut text);
        drop_front(&mut self.held, used);
        after_piece(written(told, &text, writer), ended, self.allowed)
    }
}
