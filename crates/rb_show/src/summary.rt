//! A line for each program.
ghost use Rattle.std.specs.Prelude.{◌≡◌, ◌++◌, map, IfOk, OnOk};
ghost use Rattle.std.specs.Fmt.{decimal};
ghost use Rattle.std.specs.List.{list_any};
ghost use Rattle.std.specs.Str.{bytes_eq};
ghost use Rattle.rb_show.specs.Texts.{HasBytes};
ghost use Rattle.rb_show.specs.Summary.{shown_row, shown_rows, as_shown, items_shown, add_program, programs_of, AddsVersion, versions_of, borrowed_texts, AddsNetid, netids_of, owner_of, comma_list, service_text, versions_text, netids_text, summary_line, summary_text, items_summary};

use crate::form::{Form, program_name};
use crate::rows::AsRow;
use crate::texts::{at_left, shown_text};
use rb_arguments::Rpcb;
use std::alloc::{AllocError, Global};

const HEADING: &str = "   program version(s) netid(s)                         service     owner\n";

/// A row, with its texts as they are shown.
#[derive(Drop)]
pub struct Row {
    prog: u32,
    vers: u32,
    netid: String,
    owner: String,
}

/// The row with its texts as they are shown.
fn as_shown(alloc: Global, row: &Rpcb) -> Result<Row, AllocError>
    ensures { IfOk result (λ shown. shown_row shown ≡ as_shown row.now) }
{
    let netid = shown_text(alloc, row.netid.as_slice())?;
    let owner = shown_text(alloc, row.owner.as_slice())?;
    Ok(Row {
        prog: row.prog,
        vers: row.vers,
        netid,
        owner,
    })
}

/// The rows that items stand for.
fn rows_of<T: AsRow>(alloc: Global, items: &[T]) -> Result<Vec<Row>, AllocError>
    ensures { IfOk result (λ rows. shown_rows rows.items ≡ items_shown T.stands_for items.now) }
{
    let mut rows = Vec::new(alloc);
    for item in items {
        let row = item.as_row(alloc)?;
        rows.push(as_shown(alloc, &row)?)?;
    }
    Ok(rows)
}

/// Adds a row's program, if it is not there yet.
fn add_program(row: &Row, programs: &mut Vec<u32>) -> Result<(), AllocError>
    ensures { OnOk result (programs.new.items ≡ add_program programs.old.items (shown_row row.now)) }
{
    if !programs.contains(&row.prog) {
        programs.push(row.prog)?;
    }
    Ok(())
}

/// The programs, each once, in the order in which they appear.
fn programs_of(alloc: Global, rows: &[Row]) -> Result<Vec<u32>, AllocError>
    ensures { IfOk result (λ programs. programs.items ≡ programs_of (shown_rows rows.now)) }
{
    let mut programs = Vec::new(alloc);
    for row in rows {
        add_program(row, &mut programs)?;
    }
    Ok(programs)
}

/// Adds the version of a row of this program in front, if it is not there yet.
fn add_version(row: &Row, prog: u32, versions: &mut Vec<u32>) -> Result<(), AllocError>
    ensures { OnOk result (AddsVersion prog (shown_row row.now) versions.old.items versions.new.items) }
{
    if row.prog == prog && !versions.contains(&row.vers) {
        versions.insert(0, row.vers)?;
    }
    Ok(())
}

/// The versions of a program, each once, the one that appears last first.
fn versions_of(alloc: Global, rows: &[Row], prog: u32) -> Result<Vec<u32>, AllocError>
    ensures { IfOk result (λ versions. versions.items ≡ versions_of (shown_rows rows.now) prog) }
{
    let mut versions = Vec::new(alloc);
    for row in rows {
        add_version(row, prog, &mut versions)?;
    }
    Ok(versions)
}

fn has_text(texts: &[&str], text: &str) -> bool
    ensures { result ≡ list_any (λ one. bytes_eq one text.now) (borrowed_texts texts.now) }
{
    texts.iter().any(|one| *one == text)
}

/// Adds the netid of a row of this program in front, if it is not there yet.
fn add_netid<'a>(row: &'a Row, prog: u32, seen: &mut Vec<&'a str>) -> Result<(), AllocError>
    ensures { OnOk result (AddsNetid prog (shown_row row.now) seen.old.items seen.new.items) }
{
    let netid = row.netid.as_str();
    if row.prog == prog && !has_text(seen, netid) {
        seen.insert(0, netid)?;
    }
    Ok(())
}

/// The netids of a program, each once, the one that appears last first.
fn netids_of<'a>(alloc: Global, rows: &'a [Row], prog: u32) -> Result<Vec<&'a str>, AllocError>
    ensures { IfOk result
        (λ netids. borrowed_texts netids.items ≡ netids_of (shown_rows rows.now) prog) }
{
    let mut netids = Vec::new(alloc);
    for row in rows {
        add_netid(row, prog, &mut netids)?;
    }
    Ok(netids)
}

/// The owner of a program's first row.
fn owner_of(rows: &[Row], prog: u32) -> &str
    ensures { result.now ≡ owner_of (shown_rows rows.now) prog }
{
    match rows.iter().find(|row| row.prog == prog) {
        Some(row) => row.owner.as_str(),
        None => "",
    }
}

/// Texts with commas between them.
fn comma_list(alloc: Global, texts: &[&str]) -> Result<String, AllocError>
    ensures { IfOk result (HasBytes (comma_list (borrowed_texts texts.now))) }
{
    let [first, rest @ ..] = texts else {
        return Ok(String::new(alloc));
    };
    let mut text = String::from_str(alloc, first)?;
    for next in rest {
        text.push(',')?;
        text.push_str(next)?;
    }
    Ok(text)
}

/// Numbers with commas between them.
fn joined_numbers(alloc: Global, numbers: &[u32]) -> Result<String, AllocError>
    ensures { IfOk result (HasBytes (comma_list (map decimal numbers.now))) }
{
    let [first, rest @ ..] = numbers else {
        return Ok(String::new(alloc));
    };
    let mut text = format!(in alloc; "{first}")?;
    for next in rest {
        let next = format!(in alloc; ",{next}")?;
        text.push_str(&next)?;
    }
    Ok(text)
}

fn service_text(alloc: Global, form: Form<'_>, prog: u32) -> Result<String, AllocError>
    ensures { IfOk result (HasBytes (service_text form.entry prog)) }
{
    match form {
        Form::Plain | Form::Json => String::from_str(alloc, "-"),
        Form::Named(services) => program_name(alloc, services, prog),
    }
}

/// The versions of a program as they are shown.
fn versions_text(alloc: Global, rows: &[Row], prog: u32) -> Result<String, AllocError>
    ensures { IfOk result (HasBytes (versions_text (shown_rows rows.now) prog)) }
{
    let versions = versions_of(alloc, rows, prog)?;
    let text = joined_numbers(alloc, &versions)?;
    at_left(alloc, &text, 10)
}

/// The netids of a program as they are shown.
fn netids_text(alloc: Global, rows: &[Row], prog: u32) -> Result<String, AllocError>
    ensures { IfOk result (HasBytes (netids_text (shown_rows rows.now) prog)) }
{
    let netids = netids_of(alloc, rows, prog)?;
    let text = comma_list(alloc, &netids)?;
    at_left(alloc, &text, 32)
}

/// The line of a program.
#[tactic(auto, using(crate::proofs::Columns::padded_right))]
fn summary_line(
    alloc: Global,
    form: Form<'_>,
    rows: &[Row],
    prog: u32,
) -> Result<String, AllocError>
    ensures { IfOk result (HasBytes (summary_line form.entry (shown_rows rows.now) prog)) }
{
    let versions = versions_text(alloc, rows, prog)?;
    let netids = netids_text(alloc, rows, prog)?;
    let name = service_text(alloc, form, prog)?;
    let service = at_left(alloc, &name, 11)?;
    let owner = owner_of(rows, prog);
    format!(in alloc; "{prog:>10}  {versions}{netids} {service} {owner}\n")
}

/// A line for each program, after the heading.
fn summary_text(alloc: Global, form: Form<'_>, rows: &[Row]) -> Result<String, AllocError>
    ensures { IfOk result (HasBytes (summary_text form.entry (shown_rows rows.now))) }
{
    let programs = programs_of(alloc, rows)?;
    let mut text = String::from_str(alloc, HEADING)?;
    for prog in &programs {
        let line = summary_line(alloc, form, rows, *prog)?;
        text.push_str(&line)?;
    }
    Ok(text)
}

/// The summary of the rows that items stand for.
pub(crate) fn items_summary<T: AsRow>(
    alloc: Global,
    form: Form<'_>,
    items: &[T],
) -> Result<String, AllocError>
    ensures { IfOk result (HasBytes (items_summary form.entry T.stands_for items.now)) }
{
    let rows = rows_of(alloc, items)?;
    summary_text(alloc, form, &rows)
}
