//! The statistics of GETSTAT (RFC 1833 section 2.1, rpcb_stat_byvers).
ghost use Rattle.std.specs.Prelude.{IfOk};
ghost use Rattle.rb_show.specs.Telling.{lines_text};
ghost use Rattle.rb_show.specs.declared.stage.Stage.TheVariants.{Numbers, LookUp, Forward};
ghost use Rattle.rb_show.specs.Texts.{HasBytes};
ghost use Rattle.rb_show.specs.Statistics.{version_stat, addr_stat, call_stat};
ghost use Rattle.rb_show.specs.Counts.{version_line, info_line, sets_line, addr_columns, addr_line, procedure_text, outcomes_text, call_columns, call_line, count_lines};
ghost use Rattle.rb_show.specs.Stages.{NextIs};

use crate::form::Form;
use crate::list::{MEMORY, Style, add_lines, next_item};
use crate::objects::{forwards_object, look_ups_object, numbers_object};
use crate::stage::{Counted, Stage, stage_after_called, stage_after_found, version_of};
use crate::stat::{AddrStat, CallStat, VersionStat, info_in};
use crate::take::{Pause, take};
use crate::texts::{joined_ints, shown_text};
use std::alloc::{AllocError, Global};

fn version_line(alloc: Global, vers: u32) -> Result<String, AllocError>
    ensures { IfOk result (HasBytes (version_line vers)) }
{
    format!(in alloc; "version {vers}\n")
}

fn info_line(alloc: Global, numbers: &VersionStat) -> Result<String, AllocError>
    ensures { IfOk result (HasBytes (info_line (version_stat numbers.now))) }
{
    let (info, _) = numbers;
    let counts = joined_ints(alloc, &info_in(*info), " ")?;
    format!(in alloc; "info {counts}\n")
}

fn sets_line(alloc: Global, numbers: &VersionStat) -> Result<String, AllocError>
    ensures { IfOk result (HasBytes (sets_line (version_stat numbers.now))) }
{
    let (_, (set, unset)) = numbers;
    format!(in alloc; "set {set} unset {unset}\n")
}

/// The lines of the numbers of a version of rpcbind.
fn count_lines(
    alloc: Global,
    form: Form<'_>,
    vers: u32,
    numbers: &VersionStat,
) -> Result<String, AllocError>
    ensures { IfOk result (HasBytes (lines_text (count_lines form.entry vers (version_stat numbers.now)))) }
{
    if form.is_json() {
        return numbers_object(alloc, vers, numbers);
    }
    let heading = version_line(alloc, vers)?;
    let info = info_line(alloc, numbers)?;
    let sets = sets_line(alloc, numbers)?;
    format!(in alloc; "{heading}{info}{sets}")
}

fn addr_columns(alloc: Global, item: &AddrStat) -> Result<String, AllocError>
    ensures { IfOk result (HasBytes (addr_columns (addr_stat item.now))) }
{
    let (prog, (vers, (success, (failure, netid)))) = item;
    let netid = shown_text(alloc, netid.as_slice())?;
    format!(in alloc; "addr {prog} {vers} {netid} {success} {failure}\n")
}

/// Look-ups of a version of rpcbind.
#[derive(Drop)]
struct AddrLines<'a> {
    form: Form<'a>,
    rpcbind: u32,
}

impl Style<AddrStat> for AddrLines<'_> {
    ghost text = { λ style. addr_line style.form style.rpcbind };

    fn line(&self, alloc: Global, item: &AddrStat) -> Result<String, AllocError> {
        if self.form.is_json() {
            look_ups_object(alloc, self.rpcbind, item)
        } else {
            addr_columns(alloc, item)
        }
    }
}

fn procedure_text(alloc: Global, item: &CallStat) -> Result<String, AllocError>
    ensures { IfOk result (HasBytes (procedure_text (call_stat item.now))) }
{
    let (prog, (vers, (proc, _))) = item;
    format!(in alloc; "{prog} {vers} {proc}")
}

fn outcomes_text(alloc: Global, item: &CallStat) -> Result<String, AllocError>
    ensures { IfOk result (HasBytes (outcomes_text (call_stat item.now))) }
{
    let (_, (_, (_, (success, (failure, (indirect, _)))))) = item;
    format!(in alloc; "{success} {failure} {indirect}")
}

fn call_columns(alloc: Global, item: &CallStat) -> Result<String, AllocError>
    ensures { IfOk result (HasBytes (call_columns (call_stat item.now))) }
{
    let procedure = procedure_text(alloc, item)?;
    let (_, (_, (_, (_, (_, (_, netid)))))) = item;
    let netid = shown_text(alloc, netid.as_slice())?;
    let outcomes = outcomes_text(alloc, item)?;
    format!(in alloc; "call {procedure} {netid} {outcomes}\n")
}

/// Forwarded calls of a version of rpcbind.
#[derive(Drop)]
struct CallLines<'a> {
    form: Form<'a>,
    rpcbind: u32,
}

impl Style<CallStat> for CallLines<'_> {
    ghost text = { λ style. call_line style.form style.rpcbind };

    fn line(&self, alloc: Global, item: &CallStat) -> Result<String, AllocError> {
        if self.form.is_json() {
            forwards_object(alloc, self.rpcbind, item)
        } else {
            call_columns(alloc, item)
        }
    }
}

/// Tells the numbers of a version.
pub(crate) fn next_numbers(
    alloc: Global,
    form: Form<'_>,
    counted: Counted,
    bytes: &[u8],
    text: &mut Vec<u8>,
) -> Result<(Stage, usize), Pause>
    ensures { NextIs form.entry (Numbers counted) bytes.now text.old text.new result }
{
    let (numbers, used): (VersionStat, usize) = take(bytes)?;
    let Ok(lines) = count_lines(alloc, form, version_of(counted), &numbers) else {
        return Err(MEMORY);
    };
    add_lines(lines.as_bytes(), text)?;
    Ok((Stage::LookUp(counted, 0), used))
}

// SHOW-5
/// Tells the next look-up of a version.
pub(crate) fn next_look_up(
    alloc: Global,
    form: Form<'_>,
    counted: Counted,
    shown: u32,
    bytes: &[u8],
    text: &mut Vec<u8>,
) -> Result<(Stage, usize), Pause>
    ensures { NextIs form.entry (LookUp counted shown) bytes.now text.old text.new result }
{
    let rpcbind = version_of(counted);
    match next_item(alloc, &AddrLines { form, rpcbind }, shown, bytes, text) {
        Ok((next, used)) => Ok((stage_after_found(counted, shown, next), used)),
        Err(pause) => Err(pause),
    }
}

/// Tells the next forwarded call of a version.
pub(crate) fn next_forward(
    alloc: Global,
    form: Form<'_>,
    counted: Counted,
    found: u32,
    shown: u32,
    bytes: &[u8],
    text: &mut Vec<u8>,
) -> Result<(Stage, usize), Pause>
    ensures { NextIs form.entry (Forward counted found shown) bytes.now text.old text.new result }
{
    let rpcbind = version_of(counted);
    match next_item(alloc, &CallLines { form, rpcbind }, shown, bytes, text) {
        Ok((next, used)) => Ok((stage_after_called(counted, found, shown, next), used)),
        Err(pause) => Err(pause),
    }
}
