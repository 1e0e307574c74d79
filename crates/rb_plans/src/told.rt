//! Answers to a question whose reply is on standard input, and answers that are written out.
ghost use Rattle.rb_plans.specs.Told.{Asks, IsFlushed};

use crate::fault::Fault;
use crate::input::show_input;
use crate::invocation::Invocation;
use rb_show::{InfoFault, Question, Shown};
use std::alloc::Global;
use std::io::{Read, Write};

/// Shows the reply to a question that is on standard input.
pub fn ask_input<I: Read, O: Write>(
    alloc: Global,
    words: &Invocation<'_, '_>,
    question: Question,
    input: &mut I,
    output: &mut O,
) -> Result<Shown, Fault>
    ensures { Asks I.remaining O.contents words.now question input.old output.old output.new result }
{
    match show_input(alloc, &words.ask(question), words.form, input, output) {
        Ok(shown) => Ok(shown),
        Err(fault) => Err(Fault::Info(fault)),
    }
}

/// The answer, once all that was written is out.
pub fn flush_answer<O: Write>(answer: Result<Shown, Fault>, output: &mut O) -> Result<Shown, Fault>
    ensures { IsFlushed O.contents output.old output.new answer result }
{
    match (output.flush(), answer) {
        (Ok(()), answer) => answer,
        (Err(_), Ok(_)) => Err(Fault::Info(InfoFault::Write)),
        (Err(_), Err(fault)) => Err(fault),
    }
}
