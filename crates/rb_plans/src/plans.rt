//! Plans as questions and courses.
ghost use Rattle.std.specs.Prelude.{◌≡◌};
ghost use Rattle.rb_plans.specs.Plans.{question_of, plan_question, aim_of, answer_of, is_of_here, passed_over, follow, course_end};

use crate::course::{Aim, Answer, Course, End, Stage, Step};
use crate::fault::Fault;
use crate::stages::{next, unanswered};
use rb_rpc::ReplyHead;
use rb_show::{InfoFault, Question, Shown};
use rb_words::{Listing, Plan, Source};

fn question_of(listing: Listing) -> Question
    ensures { result ≡ question_of listing }
{
    match listing {
        Listing::Rows => Question::Rows,
        Listing::Short => Question::Short,
        Listing::Summary => Question::Summary,
        Listing::Table => Question::Pmap,
        Listing::Statistics => Question::Stats,
    }
}

/// The one question of a plan, and where its reply comes from. A plan to call procedure 0 has a course of them.
pub fn plan_question(plan: Plan) -> Option<(Source, Question)>
    ensures { result ≡ plan_question plan }
{
    match plan {
        Plan::Show(listing, source) => Some((source, question_of(listing))),
        Plan::Entries(source, prog, vers) => Some((source, Question::Entries(prog, vers))),
        Plan::Delete(netid, prog, vers) => Some((Source::Here, Question::Unset(netid, prog, vers))),
        Plan::Ping(..) | Plan::Broadcast(..) => None,
    }
}

/// The version that is named, or version 0, whose refusal tells which there are.
pub fn aim_of(vers: Option<u32>) -> Aim
    ensures { result ≡ aim_of vers }
{
    match vers {
        Some(vers) => Aim::Only(vers),
        None => Aim::Least,
    }
}

/// What a reply answers in a course. A refusal is an answer too, and no other fault is.
fn answer_of(reply: Result<Shown, Fault>) -> Result<Answer, Fault>
    ensures { result ≡ answer_of reply }
{
    match reply {
        Ok(Shown::Port(port)) => Ok(Answer::Port(port)),
        Ok(Shown::Address(address)) => Ok(Answer::Address(address)),
        Ok(Shown::Null) => Ok(Answer::Ready),
        Ok(Shown::Rows(_) | Shown::Statistics(_) | Shown::Removed(_)) => Err(Fault::Info(
            InfoFault::Unreadable,
        )),
        Err(Fault::Info(InfoFault::Refused(head))) => Ok(Answer::Refused(head.status)),
        Err(fault) => Err(fault),
    }
}

/// Whether a fault is one of this machine, whoever is asked.
fn is_of_here(fault: Fault) -> bool
    ensures { result ≡ is_of_here fault }
{
    match fault {
        Fault::Info(InfoFault::Memory | InfoFault::Write) | Fault::TooManyRoutes => true,
        Fault::Info(
            InfoFault::Read
            | InfoFault::Unreadable
            | InfoFault::CutOff
            | InfoFault::TooLong
            | InfoFault::Refused(_)
            | InfoFault::TooMany,
        )
        | Fault::NoConnection
        | Fault::NoSocket
        | Fault::NoReply
        | Fault::NoHost
        | Fault::NoAddress(_)
        | Fault::NotAvailable(..)
        | Fault::NoProgram(..)
        | Fault::TooManyVersions
        | Fault::SomeLack => false,
    }
}

/// What follows of a question that had no answer: a fault of this machine ends a course, and any other one unless it is
/// of one of several versions.
fn passed_over(course: &Course, stage: Stage, fault: Fault) -> Result<Step, Fault>
    ensures { result ≡ passed_over course.now stage fault }
{
    if is_of_here(fault) {
        return Err(fault);
    }
    match unanswered(course, stage) {
        Some(step) => Ok(step),
        None => Err(fault),
    }
}

/// What follows of a reply in a course, which an `Err` ends.
pub fn follow(course: &Course, stage: Stage, reply: Result<Shown, Fault>) -> Result<Step, Fault>
    ensures { result ≡ follow course.now stage reply }
{
    match answer_of(reply) {
        Ok(answer) => Ok(next(course, stage, answer)),
        Err(fault) => passed_over(course, stage, fault),
    }
}

/// The end of a program's course. If it isn't over, there are more versions than are called.
pub fn course_end(prog: u32, xid: u32, stage: Stage) -> Result<Shown, Fault>
    ensures { result ≡ course_end prog xid stage }
{
    match stage {
        Stage::End(End::Ready) => Ok(Shown::Null),
        Stage::End(End::SomeLack) => Err(Fault::SomeLack),
        Stage::End(End::NotAvailable(vers, why)) => Err(Fault::NotAvailable(prog, vers, why)),
        Stage::End(End::NoProgram(why)) => Err(Fault::NoProgram(prog, why)),
        Stage::End(End::Refused(status)) => {
            let head = ReplyHead { xid, status };
            Err(Fault::Info(InfoFault::Refused(head)))
        }
        Stage::End(End::Unreadable) => Err(Fault::Info(InfoFault::Unreadable)),
        Stage::End(End::TooMany) | Stage::Find(..) | Stage::FindOld(..) | Stage::Call(..) => {
            Err(Fault::TooManyVersions)
        }
    }
}
