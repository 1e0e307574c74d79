//! How far a reply was told.
ghost use Rattle.std.specs.Prelude.{◌≡◌};
ghost use Rattle.rb_show.specs.Counts.{total};
ghost use Rattle.rb_show.specs.Stages.{first_stage, version_of, stage_after_line, stage_after_version, stage_after_found, stage_after_called, done_of};

use crate::ask::Question;
use crate::show::Shown;

/// A list whose items are shown one by one.
#[derive(Clone, Copy)]
pub(crate) enum List {
    /// Rows of version 3.
    Rows,
    /// The same, without their addresses and owners.
    Short,
    /// Mappings of version 2, as the rows that they stand for.
    OldRows,
    /// The same, without their addresses and owners.
    OldShort,
    /// Mappings in a table.
    Table,
    /// Addresses of this program.
    Entries(u32),
}

/// How many look-ups and how many forwarded calls a version of rpcbind has.
pub(crate) type Counts = (u32, u32);

/// The versions of rpcbind whose statistics were told.
#[derive(Clone, Copy)]
pub(crate) enum Counted {
    /// None: version 2 is next.
    Nothing,
    /// Version 2.
    Two(Counts),
    /// Versions 2 and 3.
    Three(Counts, Counts),
}

/// What is told next of a reply, whose head was read.
#[derive(Clone, Copy)]
pub(crate) enum Stage {
    /// The item of a list after so many.
    Item(List, u32),
    /// The item of a list of rows that are summed up.
    Row,
    /// The same of mappings.
    Mapping,
    /// The port of GETPORT.
    Port,
    /// The address of GETADDR.
    Address,
    /// Whether UNSET removed a row.
    Unset,
    /// The numbers of a version of rpcbind.
    Numbers(Counted),
    /// The look-up of a version after so many.
    LookUp(Counted, u32),
    /// The forwarded call of a version with so many look-ups, after so many calls.
    Forward(Counted, u32, u32),
    /// Nothing.
    Done(Shown),
}

/// What is told first.
pub(crate) fn first_stage(question: Question) -> Stage
    ensures { result ≡ first_stage question }
{
    match question {
        Question::Rows => Stage::Item(List::Rows, 0),
        Question::Short => Stage::Item(List::Short, 0),
        Question::OldRows => Stage::Item(List::OldRows, 0),
        Question::OldShort => Stage::Item(List::OldShort, 0),
        Question::Summary => Stage::Row,
        Question::OldSummary => Stage::Mapping,
        Question::Pmap => Stage::Item(List::Table, 0),
        Question::Entries(prog, _) => Stage::Item(List::Entries(prog), 0),
        Question::Stats => Stage::Numbers(Counted::Nothing),
        Question::Port(_, _, _) | Question::Callit(_, _) => Stage::Port,
        Question::Address(_, _, _) => Stage::Address,
        Question::Null(_, _) | Question::Probe(_, _) => Stage::Done(Shown::Null),
        Question::Unset(_, _, _) => Stage::Unset,
    }
}

impl Stage {
    /// What was shown, if nothing more is told.
    pub(crate) fn done(self) -> Option<Shown>
        ensures { result ≡ done_of self }
    {
        match self {
            Stage::Done(shown) => Some(shown),
            _ => None,
        }
    }
}

/// After the next item of a list, or at its end.
pub(crate) fn stage_after_line(list: List, shown: u32, next: Option<u32>) -> Stage
    ensures { result ≡ stage_after_line list shown next }
{
    match next {
        Some(next) => Stage::Item(list, next),
        None => Stage::Done(Shown::Rows(shown)),
    }
}

/// The version whose statistics are told.
pub(crate) fn version_of(counted: Counted) -> u32
    ensures { result ≡ version_of counted }
{
    match counted {
        Counted::Nothing => 2,
        Counted::Two(_) => 3,
        Counted::Three(_, _) => 4,
    }
}

fn total(two: Counts, three: Counts, four: Counts) -> u64
    ensures { result ≡ total two three four }
{
    u64::from(two.0)
        + u64::from(two.1)
        + u64::from(three.0)
        + u64::from(three.1)
        + u64::from(four.0)
        + u64::from(four.1)
}

/// After the statistics of a version.
fn stage_after_version(counted: Counted, counts: Counts) -> Stage
    ensures { result ≡ stage_after_version counted counts }
{
    match counted {
        Counted::Nothing => Stage::Numbers(Counted::Two(counts)),
        Counted::Two(two) => Stage::Numbers(Counted::Three(two, counts)),
        Counted::Three(two, three) => Stage::Done(Shown::Statistics(total(two, three, counts))),
    }
}

/// After the next look-up of a version, or at the end of their list.
pub(crate) fn stage_after_found(counted: Counted, shown: u32, next: Option<u32>) -> Stage
    ensures { result ≡ stage_after_found counted shown next }
{
    match next {
        Some(next) => Stage::LookUp(counted, next),
        None => Stage::Forward(counted, shown, 0),
    }
}

/// After the next forwarded call of a version, or at the end of their list.
pub(crate) fn stage_after_called(
    counted: Counted,
    found: u32,
    shown: u32,
    next: Option<u32>,
) -> Stage
    ensures { result ≡ stage_after_called counted found shown next }
{
    match next {
        Some(next) => Stage::Forward(counted, found, next),
        None => stage_after_version(counted, (found, shown)),
    }
}
