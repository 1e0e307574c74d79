//! What a log has lines of.
ghost use Rattle.std.specs.Prelude.{◌≡◌};
ghost use Rattle.rb_policy.specs.LogChoice.{change_kind, kind_of_all, kind_of_changes, kind_told};

use crate::log_lines::LogKind;
use rb_registry::Refusal;

/// What a daemon has lines of in its log.
#[derive(Clone, Copy)]
pub enum Logged {
    /// Nothing.
    Nothing,
    /// Each SET and UNSET, accepted or refused, but for an UNSET that had nothing to remove.
    Changes,
    /// Each SET and UNSET, refused calls, and connections that are given up.
    All,
}

/// What came about.
#[derive(Clone, Copy)]
pub enum Happening {
    /// A SET or an UNSET, and why it was refused, if it was.
    Change(Option<Refusal>),
    /// A call was refused.
    RefusedCall,
    /// A connection was given up.
    GivenUp,
}

/// The kind of the line of a SET or an UNSET.
fn change_kind(refusal: Option<Refusal>) -> LogKind
    ensures { result ≡ change_kind refusal }
{
    match refusal {
        None => LogKind::Accepted,
        Some(_) => LogKind::Refused,
    }
}

/// The kind of a line, if all is told.
fn kind_of_all(happening: Happening) -> LogKind
    ensures { result ≡ kind_of_all happening }
{
    match happening {
        Happening::Change(refusal) => change_kind(refusal),
        Happening::RefusedCall => LogKind::Calls,
        Happening::GivenUp => LogKind::GivenUp,
    }
}

/// The kind of a line, if changes are told. Services remove what they may have left at each of their starts, so that nothing
/// was there to remove is no news.
fn kind_of_changes(happening: Happening) -> Option<LogKind>
    ensures { result ≡ kind_of_changes happening }
{
    match happening {
        Happening::Change(Some(Refusal::NothingToRemove))
        | Happening::RefusedCall
        | Happening::GivenUp => None,
        Happening::Change(refusal) => Some(change_kind(refusal)),
    }
}

/// As a line of which kind this is told; `None` if it isn't.
pub fn kind_told(logged: Logged, happening: Happening) -> Option<LogKind>
    ensures { result ≡ kind_told logged happening }
{
    match logged {
        Logged::Nothing => None,
        Logged::Changes => kind_of_changes(happening),
        Logged::All => Some(kind_of_all(happening)),
    }
}
