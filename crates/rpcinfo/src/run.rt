//! The command.
ghost use Rattle.std.specs.Prelude.{◌≡◌, ◌≤◌};
ghost use Rattle.rb_plans.specs.Ending.{EndsBy, IsNothing};
ghost use Rattle.rpcinfo.specs.Running.{Answers, IsExplained, IsNoticed, IsSilent};

use crate::asking::{Answered, ask_here, ask_named, ping, silently};
use crate::broadcast::broadcast;
use crate::command_line::{matches_of, read_matches, show};
use crate::programs::services_for;
use rb_plans::{
    Ending, Fault, Invocation, ask_input, conclude, explain, flush_answer, plan_question,
};
use rb_words::{Plan, Source};
use std::alloc::Global;
use std::convert::AsStr;
use std::io::{Read, Write};
use std::net::Net;
use std::rt::{Clock, Files};

/// Does what the words say.
fn carry_out<N: Net + Clock + Files, I: Read, O: Write>(
    alloc: Global,
    net: &N,
    words: &Invocation<'_, '_>,
    input: &mut I,
    output: &mut O,
) -> Answered
    ensures answer { Answers I.remaining O.contents words.now input.old output.old output.new result.0 }
    ensures silent { IsSilent words.now result.1 }
{
    match plan_question(words.request.plan) {
        Some((Source::Input, question)) => {
            silently(ask_input(alloc, words, question, input, output))
        }
        Some((Source::Here, question)) => ask_here(alloc, net, words, question, output),
        Some((Source::Named, question)) => ask_named(alloc, net, words, question, output),
        None => carry_course(alloc, net, words, output),
    }
}

/// Does what the words say that ask for more than one question.
fn carry_course<N: Net + Clock + Files, O: Write>(
    alloc: Global,
    net: &N,
    words: &Invocation<'_, '_>,
    output: &mut O,
) -> Answered {
    match words.request.plan {
        Plan::Ping(way, prog, vers) => ping(alloc, net, words, way, prog, vers, output),
        Plan::Broadcast(prog, vers) => {
            silently(broadcast(alloc, net, words, prog, vers, output))
        }
        Plan::Show(..) | Plan::Entries(..) | Plan::Delete(..) => silently(Err(Fault::NoConnection)),
    }
}

/// Does what the words say, and says what is wrong: the answer, with how the command ends by it. If the words name
/// standard input, the answer is what the reply in its text tells.
fn run_words<N: Net + Clock + Files, I: Read, O: Write, E: Write>(
    alloc: Global,
    net: &N,
    words: &Invocation<'_, '_>,
    input: &mut I,
    output: &mut O,
    faults: &mut E,
) -> (Answered, Ending)
    ensures says { Answers I.remaining O.contents words.now input.old output.old output.new result.0.0 }
    ensures silent { IsSilent words.now result.0.1 }
    ensures ends { EndsBy E.contents faults.old faults.new result.1 result.0.0 result.0.1 }
    ensures quiet { result.1.status ≡ 0 → IsNothing result.0.1 → faults.new ≡ faults.old }
{
    let (answer, notices) = carry_out(alloc, net, words, input, output);
    let answer = flush_answer(answer, output);
    ((answer, notices), conclude(answer, notices, faults))
}

// STATUS-5
/// Runs the command that the words name, and answers how it ended, with its exit status.
///
/// 0 says that what was asked is printed and written out; 1 that reading, writing, memory or the reply failed, or that
/// UNSET removed nothing, which is said to `faults`; 2 that the words can't be read: then `input` was not read, and
/// nothing was asked.
pub fn run_info<N: Net + Clock + Files, S: AsStr, I: Read, O: Write, E: Write>(
    alloc: Global,
    net: &N,
    words: &[S],
    input: &mut I,
    output: &mut O,
    faults: &mut E,
) -> Ending
    ensures status { result.status ≤ 2 }
    ensures quiet { result.status ≡ 0 → IsNoticed E.contents faults.old faults.new result }
    ensures failed { result.status ≡ 1 → IsExplained E.contents faults.old faults.new result }
    ensures unread { result.status ≡ 2 → input.new ≡ input.old }
    ensures unwritten { result.status ≡ 2 → output.new ≡ output.old }
{
    let matches = match matches_of(alloc, words) {
        Ok(matches) => matches,
        Err(error) => return show(&error, output, faults),
    };
    let services = match services_for(alloc, net, &matches) {
        Ok(services) => services,
        Err(fault) => return explain(Fault::Info(fault), faults),
    };
    match read_matches(alloc, &matches, &services, faults) {
        Ok(words) => {
            let (_answer, ending) = run_words(alloc, net, &words, input, output, faults);
            ending
        }
        Err(ending) => ending,
    }
}
