//! What is asked of a portmapper that has version 2 alone.
ghost use Rattle.std.specs.Prelude.{◌≡◌};
ghost use Rattle.rb_plans.specs.Fallback.{has_two, old_of, fallback};

use rb_rpc::ReplyStatus;
use rb_show::Question;

/// Returns whether a refusal says that the server has version 2.
fn has_two(status: ReplyStatus) -> bool
    ensures { result ≡ has_two status }
{
    match status {
        ReplyStatus::ProgMismatch(low, high) => low <= 2 && 2 <= high,
        ReplyStatus::Success
        | ReplyStatus::ProgUnavail
        | ReplyStatus::ProcUnavail
        | ReplyStatus::GarbageArgs
        | ReplyStatus::SystemErr
        | ReplyStatus::RpcMismatch(_, _)
        | ReplyStatus::AuthError(_) => false,
    }
}

/// The question of version 2 that shows what this one does, if there is one.
fn old_of(question: Question) -> Option<Question>
    ensures { result ≡ old_of question }
{
    match question {
        Question::Rows => Some(Question::OldRows),
        Question::Short => Some(Question::OldShort),
        Question::Summary => Some(Question::OldSummary),
        _ => None,
    }
}

/// Returns the question of version 2 that is asked in place of one that was refused; `None` if the refusal does not
/// say that the server has version 2, or the question is for no list of rows.
pub fn fallback(question: Question, status: ReplyStatus) -> Option<Question>
    ensures { result ≡ fallback question status }
{
    if has_two(status) {
        old_of(question)
    } else {
        None
    }
}
