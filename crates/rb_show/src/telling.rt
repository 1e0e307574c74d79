//! A reply that is told value by value, as its data comes.
ghost use Rattle.std.specs.Prelude.{◌≡◌, ◌<◌, ◌≤◌, true, None, length, IfOk};
ghost use Rattle.rb_show.specs.Telling.{lines_text};
ghost use Rattle.rb_show.specs.Texts.{HasBytes};
ghost use Rattle.rb_show.specs.Fronts.{TakesOr, TellsOr};
ghost use Rattle.rb_show.specs.Lines.{heading};
ghost use Rattle.rb_show.specs.Replies.{tell_port, address_in, tell_address, removed_line, is_success};
ghost use Rattle.rb_show.specs.declared.form.Form.{Form};
ghost use Rattle.rb_show.specs.declared.stage.Stage.TheVariants.{Item, Unset};
ghost use Rattle.rb_show.specs.Stages.{first_lines, lines_from, lines_after, is_plain, as_done, check_head, stage_after_sum, NextIs, SumsUp};

use crate::ask::{Ask, Question};
use crate::fault::InfoFault;
use crate::form::Form;
use crate::head::take_head;
use crate::lines::{EntryLines, RowLines, ShortLines, Table};
use crate::list::{MEMORY, add_lines, next_item, take_next};
use crate::rows::AsRow;
use crate::show::Shown;
use crate::stage::{List, Stage, first_stage, stage_after_line};
use crate::statistics::{next_forward, next_look_up, next_numbers};
use crate::summary::items_summary;
use crate::take::{Pause, take};
use rb_arguments::{Mapping, Rpcb};
use rb_rpc::{ReplyHead, ReplyStatus};
use rb_uaddr::Uaddr;
use rb_xdr::{Text, Xdr};
use std::alloc::{AllocError, Global};

/// The heading of the table of mappings.
fn heading(form: Form<'_>) -> &'static str
    ensures { result.now ≡ heading form.entry }
{
    match form {
        Form::Plain => "   program   vers proto  port\n",
        Form::Named(_) => "   program   vers proto  port service\n",
        Form::Json => "",
    }
}

/// The lines that are told before the results are read.
fn first_text(alloc: Global, form: Form<'_>, question: Question) -> Result<String, AllocError>
    ensures { IfOk result (HasBytes (lines_text (first_lines form.entry question))) }
{
    match question {
        Question::Pmap => String::from_str(alloc, heading(form)),
        Question::Null(prog, vers) => format!(in alloc; "program {prog} version {vers} ready\n"),
        _ => Ok(String::new(alloc)),
    }
}

/// The item of a list after so many.
fn next_line(
    alloc: Global,
    form: Form<'_>,
    list: List,
    shown: u32,
    bytes: &[u8],
    text: &mut Vec<u8>,
) -> Result<(Option<u32>, usize), Pause>
    ensures { TellsOr (lines_from form.entry list shown) bytes.now
        (lines_after form.entry list shown) text.old text.new result }
{
    match list {
        List::Rows => next_item::<Rpcb, _>(alloc, &RowLines { form }, shown, bytes, text),
        List::Short => next_item::<Rpcb, _>(alloc, &ShortLines { form }, shown, bytes, text),
        List::OldRows => next_item::<Mapping, _>(alloc, &RowLines { form }, shown, bytes, text),
        List::OldShort => next_item::<Mapping, _>(alloc, &ShortLines { form }, shown, bytes, text),
        List::Table => next_item(alloc, &Table { form }, shown, bytes, text),
        List::Entries(prog) => next_item(alloc, &EntryLines { form, prog }, shown, bytes, text),
    }
}

fn show_line(
    alloc: Global,
    form: Form<'_>,
    list: List,
    shown: u32,
    bytes: &[u8],
    text: &mut Vec<u8>,
) -> Result<(Stage, usize), Pause>
    ensures { NextIs form.entry (Item list shown) bytes.now text.old text.new result }
{
    match next_line(alloc, form, list, shown, bytes, text) {
        Ok((next, used)) => Ok((stage_after_line(list, shown, next), used)),
        Err(pause) => Err(pause),
    }
}

/// Takes the port of GETPORT.
fn take_port(bytes: &[u8]) -> Result<(Shown, usize), Pause>
    ensures takes { TakesOr tell_port bytes.now result }
    ensures some { IfOk result (λ taken. 0 < taken.1) }
{
    let (port, used): (u32, usize) = take(bytes)?;
    Ok((Shown::Port(port), used))
}

/// The address that a text is. An empty text says that there is none, and a text that is no address is `None`.
fn address_in(text: &[u8]) -> Option<Option<Uaddr>>
    ensures { result ≡ address_in text.now }
{
    if text.is_empty() {
        return Some(None);
    }
    match Uaddr::parse(text) {
        Ok(address) => Some(Some(address)),
        Err(_) => None,
    }
}

/// Takes the address of GETADDR.
fn take_address(bytes: &[u8]) -> Result<(Shown, usize), Pause>
    ensures takes { TakesOr tell_address bytes.now result }
    ensures some { IfOk result (λ taken. 0 < taken.1) }
{
    let (text, used): (Text<128>, usize) = take(bytes)?;
    match address_in(text.as_slice()) {
        Some(address) => Ok((Shown::Address(address), used)),
        None => Err(Pause::Fault(InfoFault::Unreadable)),
    }
}

fn as_done(taken: Result<(Shown, usize), Pause>) -> Result<(Stage, usize), Pause>
    ensures { result ≡ as_done taken }
{
    match taken {
        Ok((shown, used)) => Ok((Stage::Done(shown), used)),
        Err(pause) => Err(pause),
    }
}

fn removed_line(removed: bool) -> &'static [u8]
    ensures { result.now ≡ removed_line removed }
{
    if removed {
        b"removed\n"
    } else {
        b"not removed\n"
    }
}

/// Says whether UNSET removed a row.
fn show_unset(bytes: &[u8], text: &mut Vec<u8>) -> Result<(Stage, usize), Pause>
    ensures { (form : Form) → NextIs form Unset bytes.now text.old text.new result }
{
    let (removed, used): (bool, usize) = take(bytes)?;
    add_lines(removed_line(removed), text)?;
    Ok((Stage::Done(Shown::Removed(removed)), used))
}

/// Tells what the front of the data does at a stage at which nothing is kept.
fn next_stage(
    alloc: Global,
    form: Form<'_>,
    stage: Stage,
    bytes: &[u8],
    text: &mut Vec<u8>,
) -> Result<(Stage, usize), Pause>
    requires { is_plain stage ≡ true }
    ensures { NextIs form.entry stage bytes.now text.old text.new result }
{
    match stage {
        Stage::Item(list, shown) => show_line(alloc, form, list, shown, bytes, text),
        Stage::Port => as_done(take_port(bytes)),
        Stage::Address => as_done(take_address(bytes)),
        Stage::Unset => show_unset(bytes, text),
        Stage::Numbers(counted) => next_numbers(alloc, form, counted, bytes, text),
        Stage::LookUp(counted, shown) => next_look_up(alloc, form, counted, shown, bytes, text),
        Stage::Forward(counted, found, shown) => {
            next_forward(alloc, form, counted, found, shown, bytes, text)
        }
        Stage::Row | Stage::Mapping | Stage::Done(_) => Err(Pause::More),
    }
}

/// Takes the next of the items that are summed up; at their end their summary is added to the text.
fn sum_up<T: Xdr + AsRow>(
    alloc: Global,
    form: Form<'_>,
    items: &mut Vec<T>,
    bytes: &[u8],
    text: &mut Vec<u8>,
) -> Result<(Option<Shown>, usize), Pause>
    ensures { SumsUp form.entry T.reads T.stands_for items.old.items items.new.items
        bytes.now text.old text.new result }
{
    let (more, used) = take_next(items, bytes)?;
    if more {
        return Ok((None, used));
    }
    let Ok(count) = u32::try_from(items.len()) else {
        return Err(MEMORY);
    };
    let Ok(summary) = items_summary(alloc, form, items) else {
        return Err(MEMORY);
    };
    add_lines(summary.as_bytes(), text)?;
    Ok((Some(Shown::Rows(count)), used))
}

/// After the next of the items that are summed up, or at their end.
fn stage_after_sum(stage: Stage, shown: Option<Shown>) -> Stage
    ensures { result ≡ stage_after_sum stage shown }
{
    match shown {
        Some(shown) => Stage::Done(shown),
        None => stage,
    }
}

fn is_success(status: ReplyStatus) -> bool
    ensures { result ≡ is_success status }
{
    match status {
        ReplyStatus::Success => true,
        ReplyStatus::ProgUnavail
        | ReplyStatus::ProgMismatch(_, _)
        | ReplyStatus::ProcUnavail
        | ReplyStatus::GarbageArgs
        | ReplyStatus::SystemErr
        | ReplyStatus::RpcMismatch(_, _)
        | ReplyStatus::AuthError(_) => false,
    }
}

/// Whether a head is that of a reply with results to the call with this xid.
fn check_head(head: ReplyHead, xid: u32) -> Result<(), InfoFault>
    ensures { result ≡ check_head head xid }
{
    if head.xid != xid {
        return Err(InfoFault::Unreadable);
    }
    if !is_success(head.status) {
        return Err(InfoFault::Refused(head));
    }
    Ok(())
}

/// How far the data of a reply was used.
#[derive(Clone, Copy)]
pub(crate) enum At {
    /// Before its head.
    Head,
    /// Up to a stage of its results.
    Results(Stage),
}

/// A reply to a question, as far as it was told.
#[derive(Drop)]
pub(crate) struct Telling<'a> {
    ask: Ask,
    form: Form<'a>,
    xid: u32,
    at: At,
    /// The rows that are summed up.
    rows: Vec<Rpcb>,
    /// The mappings that are.
    mappings: Vec<Mapping>,
}

impl<'a> Telling<'a> {
    ghost use Rattle.std.specs.Prelude.{◌≡◌, None};
    ghost use Rattle.rb_show.specs.declared.telling.At.TheVariants.{Head, Results};
    ghost use Rattle.rb_show.specs.Stages.{done_of};
    ghost use Rattle.rb_show.specs.Replies.{tell_reply};
    ghost use Rattle.rb_show.specs.Tellings.{rest_of, done_at, StepsTo, TellsAllOr};

    /// Before the first byte of the reply to the call with this xid.
    pub(crate) fn new(alloc: Global, ask: Ask, form: Form<'a>, xid: u32) -> Telling<'a>
        ensures { rest_of result ≡ tell_reply ask form.entry xid }
    {
        Telling {
            ask,
            form,
            xid,
            at: At::Head,
            rows: Vec::new(alloc),
            mappings: Vec::new(alloc),
        }
    }

    fn begin(&mut self, alloc: Global, bytes: &[u8], text: &mut Vec<u8>) -> Result<usize, Pause>
        requires { self.old.at ≡ Head }
        ensures { StepsTo self.old self.new bytes.now text.old text.new result }
    {
        let (head, used) = take_head(bytes)?;
        if let Err(fault) = check_head(head, self.xid) {
            return Err(Pause::Fault(fault));
        }
        let Ok(lines) = first_text(alloc, self.form, self.ask.question) else {
            return Err(MEMORY);
        };
        add_lines(lines.as_bytes(), text)?;
        self.rows.clear();
        self.mappings.clear();
        self.at = At::Results(first_stage(self.ask.question));
        Ok(used)
    }

    fn go_on(
        &mut self,
        alloc: Global,
        stage: Stage,
        bytes: &[u8],
        text: &mut Vec<u8>,
    ) -> Result<usize, Pause>
        requires at { self.old.at ≡ Results stage }
        requires more { done_of stage ≡ None }
        ensures { StepsTo self.old self.new bytes.now text.old text.new result }
    {
        match stage {
            Stage::Row => {
                let (shown, used) = sum_up(alloc, self.form, &mut self.rows, bytes, text)?;
                self.at = At::Results(stage_after_sum(Stage::Row, shown));
                Ok(used)
            }
            Stage::Mapping => {
                let (shown, used) = sum_up(alloc, self.form, &mut self.mappings, bytes, text)?;
                self.at = At::Results(stage_after_sum(Stage::Mapping, shown));
                Ok(used)
            }
            _ => {
                let (next, used) = next_stage(alloc, self.form, stage, bytes, text)?;
                self.at = At::Results(next);
                Ok(used)
            }
        }
    }

    /// What was shown, if nothing more is told.
    fn done(&self) -> Option<Shown>
        ensures { result ≡ done_at self.now.at }
    {
        match self.at {
            At::Head => None,
            At::Results(stage) => stage.done(),
        }
    }

    /// Takes one value from the front of the data, and adds the lines that it tells to the text.
    fn step(&mut self, alloc: Global, bytes: &[u8], text: &mut Vec<u8>) -> Result<usize, Pause>
        requires { done_at self.old.at ≡ None }
        ensures { StepsTo self.old self.new bytes.now text.old text.new result }
    {
        match self.at {
            At::Head => self.begin(alloc, bytes, text),
            At::Results(stage) => self.go_on(alloc, stage, bytes, text),
        }
    }

    /// Adds all lines to the text that the data tells as far as it goes, and says how much of it was used. `None` if
    /// more data is needed.
    pub(crate) fn tell(
        &mut self,
        alloc: Global,
        bytes: &[u8],
        text: &mut Vec<u8>,
    ) -> (usize, Result<Option<Shown>, InfoFault>)
        ensures within { result.0 ≤ length bytes.now }
        ensures tells { TellsAllOr self.old self.new bytes.now text.old text.new result }
    {
        let mut used = 0;
        'values: loop {
            if let Some(shown) = self.done() {
                return (used, Ok(Some(shown)));
            }
            match self.step(alloc, &bytes[used..], text) {
                Ok(more) => used += more,
                Err(Pause::More) => return (used, Ok(None)),
                Err(Pause::Fault(fault)) => return (used, Err(fault)),
            }
        }
    }
}
