//! Lists, item by item (RFC 4506 section 4.19).
ghost use Rattle.std.specs.Prelude.{◌≡◌, List, ℕ, IfOk};
ghost use Rattle.std.specs.String.{string_bytes};
ghost use Rattle.rb_show.specs.Fronts.{AddsLine, ShowsItem, TakesItem};

use crate::fault::InfoFault;
use crate::take::{Pause, take};
use rb_xdr::Xdr;
use std::alloc::{AllocError, Global};

/// The most items of a list that are shown or taken.
const GREATEST_LIST: u32 = 4096;

/// A form in which the items of a list are shown, each as a line.
pub trait Style<T> {
    /// The line of an item, with its line feed.
    ghost text: { Self → T → List ℕ };

    /// Makes the line of an item. `AllocError` if an allocation is refused.
    fn line(&self, alloc: Global, item: &T) -> Result<String, AllocError>
        ensures { IfOk result (λ line. string_bytes line ≡ text self.now item.now) };
}

/// Another item would be too many.
const TOO_MANY: Pause = Pause::Fault(InfoFault::TooMany);

/// Want of memory.
pub(crate) const MEMORY: Pause = Pause::Fault(InfoFault::Memory);

/// Adds lines to a text.
pub(crate) fn add_lines(lines: &[u8], text: &mut Vec<u8>) -> Result<(), Pause>
    ensures { AddsLine lines.now text.old text.new result }
{
    match text.extend_from_slice(lines) {
        Ok(()) => Ok(()),
        Err(_) => Err(MEMORY),
    }
}

/// Adds the line of the next item to the text, and says how many were shown then; or says that there is none.
pub(crate) fn next_item<T: Xdr, S: Style<T>>(
    alloc: Global,
    style: &S,
    shown: u32,
    bytes: &[u8],
    text: &mut Vec<u8>,
) -> Result<(Option<u32>, usize), Pause>
    ensures { ShowsItem T.reads (S.text style.now) shown bytes.now text.old text.new result }
{
    if shown >= GREATEST_LIST {
        let (more, used): (bool, usize) = take(bytes)?;
        return if more {
            Err(TOO_MANY)
        } else {
            Ok((None, used))
        };
    }
    let (next, used): (Option<T>, usize) = take(bytes)?;
    match next {
        None => Ok((None, used)),
        Some(item) => {
            let Ok(line) = style.line(alloc, &item) else {
                return Err(MEMORY);
            };
            add_lines(line.as_bytes(), text)?;
            Ok((Some(shown + 1), used))
        }
    }
}

/// Takes the next item, and says whether there was one.
pub(crate) fn take_next<T: Xdr>(items: &mut Vec<T>, bytes: &[u8]) -> Result<(bool, usize), Pause>
    ensures { TakesItem T.reads items.old.items items.new.items bytes.now result }
{
    if items.len() >= GREATEST_LIST as usize {
        let (more, used): (bool, usize) = take(bytes)?;
        return if more {
            Err(TOO_MANY)
        } else {
            Ok((false, used))
        };
    }
    let (next, used): (Option<T>, usize) = take(bytes)?;
    match next {
        None => Ok((false, used)),
        Some(item) => {
            if items.push(item).is_err() {
                return Err(MEMORY);
            }
            Ok((true, used))
        }
    }
}
