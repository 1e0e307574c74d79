//! Shows what a reply tells.
ghost use Rattle.rb_show.specs.Telling.{Outcome};
ghost use Rattle.rb_show.specs.Replies.{tell_bytes, tell_datagram};

use crate::ask::Ask;
use crate::fault::InfoFault;
use crate::form::Form;
use crate::showing::{Showing, as_whole, written};
use crate::telling::Telling;
use rb_uaddr::Uaddr;
use std::alloc::Global;
use std::io::Write;

/// What was shown.
#[derive(Clone, Copy, Debug, PartialEq, Eq)]
pub enum Shown {
    /// A list, and the number of its rows or entries, at most 4,096.
    Rows(u32),
    /// The number of items of statistics, beside the numbers of each version.
    Statistics(u64),
    /// The port of GETPORT, of which nothing is printed.
    Port(u32),
    /// The address of GETADDR, or that there is none. Nothing is printed of it.
    Address(Option<Uaddr>),
    /// Procedure 0 answered.
    Null,
    /// Whether UNSET removed a row.
    Removed(bool),
}

/// Writes what these bytes tell, which begin with the marked reply to the call with this xid.
///
/// - `Unreadable` if the data is no reply to this call, whatever may follow it.
/// - `CutOff` if the bytes or the record end before the results do.
/// - `TooLong` if the results go on after the first 16,777,216 bytes of a record that is longer.
/// - `Refused` if the reply is any other than SUCCESS.
/// - `TooMany` at the 4,097th row of a list.
/// - `Write` if the writer fails, and `Memory` if an allocation is refused.
///
/// Before each of them but the last two whole lines were written.
pub fn show_reply<W: Write>(
    alloc: Global,
    ask: &Ask,
    form: Form<'_>,
    xid: u32,
    bytes: &[u8],
    writer: &mut W,
) -> Result<Shown, InfoFault>
    ensures { Outcome (tell_bytes ask.now form.entry xid bytes.now)
        (W.contents writer.old) (W.contents writer.new) result }
{
    let mut showing = Showing::new(alloc, ask, form, xid);
    as_whole(showing.feed(alloc, bytes, writer))
}

/// Writes what the datagram tells that is the reply to the call with this xid, without marks. No fault is `TooLong`; the
/// others are those of `show_reply`.
pub fn show_datagram<W: Write>(
    alloc: Global,
    ask: &Ask,
    form: Form<'_>,
    xid: u32,
    bytes: &[u8],
    writer: &mut W,
) -> Result<Shown, InfoFault>
    ensures { Outcome (tell_datagram ask.now form.entry xid bytes.now)
        (W.contents writer.old) (W.contents writer.new) result }
{
    let mut telling = Telling::new(alloc, *ask, form, xid);
    let mut text = Vec::new(alloc);
    let (_used, told) = telling.tell(alloc, bytes, &mut text);
    as_whole(written(told, &text, writer))
}
