//! The lines of lists.
ghost use Rattle.std.specs.Prelude.{IfOk};
ghost use Rattle.rb_show.specs.Texts.{HasBytes};
ghost use Rattle.rb_show.specs.Lines.{mapping_columns, mapping_line, row_columns, row_line, short_line, two_columns, entry_columns, entry_line};

use crate::form::{Form, line_end};
use crate::list::Style;
use crate::objects::{entry_object, mapping_object, row_object};
use crate::rows::AsRow;
use crate::texts::{at_left, prot_text, shown_text};
use rb_arguments::{Entry, Mapping, Rpcb};
use std::alloc::{AllocError, Global};

/// The columns of a mapping.
#[tactic(auto, using(crate::proofs::Columns::padded_right))]
fn mapping_columns(alloc: Global, item: &Mapping) -> Result<String, AllocError>
    ensures { IfOk result (HasBytes (mapping_columns item.now)) }
{
    let name = prot_text(alloc, item.prot)?;
    let proto = at_left(alloc, &name, 5)?;
    let (prog, vers, port) = (item.prog, item.vers, item.port);
    format!(in alloc; "{prog:>10} {vers:>6} {proto} {port:>5}")
}

/// The table of mappings.
#[derive(Drop)]
pub struct Table<'a> {
    pub form: Form<'a>,
}

impl Style<Mapping> for Table<'_> {
    ghost text = { λ style. mapping_line style.form };

    fn line(&self, alloc: Global, item: &Mapping) -> Result<String, AllocError> {
        if self.form.is_json() {
            return mapping_object(alloc, item);
        }
        let columns = mapping_columns(alloc, item)?;
        let end = line_end(alloc, self.form, item.prog)?;
        format!(in alloc; "{columns}{end}")
    }
}

/// The columns of a row.
fn row_columns(alloc: Global, form: Form<'_>, row: &Rpcb) -> Result<String, AllocError>
    ensures { IfOk result (HasBytes (row_columns form.entry row.now)) }
{
    let netid = shown_text(alloc, row.netid.as_slice())?;
    let addr = shown_text(alloc, row.addr.as_slice())?;
    let owner = shown_text(alloc, row.owner.as_slice())?;
    let (prog, vers) = (row.prog, row.vers);
    let end = line_end(alloc, form, prog)?;
    format!(in alloc; "{prog} {vers} {netid} {addr} {owner}{end}")
}

/// Rows with their addresses and owners.
#[derive(Drop)]
pub struct RowLines<'a> {
    pub form: Form<'a>,
}

impl<T: AsRow> Style<T> for RowLines<'_> {
    ghost text = { λ style item. row_line style.form (T.stands_for item) };

    fn line(&self, alloc: Global, item: &T) -> Result<String, AllocError> {
        let row = item.as_row(alloc)?;
        if self.form.is_json() {
            row_object(alloc, &row)
        } else {
            row_columns(alloc, self.form, &row)
        }
    }
}

/// The line of a row without its address and owner.
fn short_line(alloc: Global, form: Form<'_>, row: &Rpcb) -> Result<String, AllocError>
    ensures { IfOk result (HasBytes (short_line form.entry row.now)) }
{
    let netid = shown_text(alloc, row.netid.as_slice())?;
    let (prog, vers) = (row.prog, row.vers);
    let end = line_end(alloc, form, prog)?;
    format!(in alloc; "{prog} {vers} {netid}{end}")
}

/// Rows without them.
#[derive(Drop)]
pub struct ShortLines<'a> {
    pub form: Form<'a>,
}

impl<T: AsRow> Style<T> for ShortLines<'_> {
    ghost text = { λ style item. short_line style.form (T.stands_for item) };

    fn line(&self, alloc: Global, item: &T) -> Result<String, AllocError> {
        let row = item.as_row(alloc)?;
        short_line(alloc, self.form, &row)
    }
}

/// Two texts of a reply, with a space between them.
fn two_columns(alloc: Global, first: &[u8], second: &[u8]) -> Result<String, AllocError>
    ensures { IfOk result (HasBytes (two_columns first.now second.now)) }
{
    let first = shown_text(alloc, first)?;
    let second = shown_text(alloc, second)?;
    format!(in alloc; "{first} {second}")
}

/// The columns of an address of this program.
fn entry_columns(
    alloc: Global,
    form: Form<'_>,
    prog: u32,
    item: &Entry,
) -> Result<String, AllocError>
    ensures { IfOk result (HasBytes (entry_columns form.entry prog item.now)) }
{
    let place = two_columns(alloc, item.netid.as_slice(), item.maddr.as_slice())?;
    let family = two_columns(alloc, item.protofmly.as_slice(), item.proto.as_slice())?;
    let semantics = item.semantics;
    let end = line_end(alloc, form, prog)?;
    format!(in alloc; "{place} {semantics} {family}{end}")
}

/// Addresses of this program's version.
#[derive(Drop)]
pub struct EntryLines<'a> {
    pub form: Form<'a>,
    pub prog: u32,
}

impl Style<Entry> for EntryLines<'_> {
    ghost text = { λ style. entry_line style.form style.prog };

    fn line(&self, alloc: Global, item: &Entry) -> Result<String, AllocError> {
        if self.form.is_json() {
            entry_object(alloc, item)
        } else {
            entry_columns(alloc, self.form, self.prog, item)
        }
    }
}
