//! In which form lists are shown.
ghost use Rattle.std.specs.Prelude.{◌≡◌, IfOk};
ghost use Rattle.rb_words.specs.Services.{name_of};
ghost use Rattle.rb_show.specs.Texts.{HasBytes};
ghost use Rattle.rb_show.specs.Lines.{is_json, name_text, line_end};

use crate::texts::shown_text;
use rb_words::{Service, name_of};
use std::alloc::{AllocError, Global};

/// The form in which the lines of a list are written.
#[derive(Clone, Copy)]
pub enum Form<'a> {
    /// In columns.
    Plain,
    /// The same, with the name of its program at the end of each line.
    Named(&'a [Service]),
    /// An object of JSON on each line.
    Json,
}

impl Form<'_> {
    pub(crate) fn is_json(self) -> bool
        ensures { result ≡ is_json self.entry }
    {
        matches!(self, Form::Json)
    }
}

/// The first name of a program, or `-`.
pub(crate) fn program_name(
    alloc: Global,
    services: &[Service],
    prog: u32,
) -> Result<String, AllocError>
    ensures { IfOk result (HasBytes (name_text (name_of services.now prog))) }
{
    match name_of(services, prog) {
        Some(name) => shown_text(alloc, name),
        None => String::from_str(alloc, "-"),
    }
}

/// What stands after the columns of a line that speaks of a program.
pub(crate) fn line_end(alloc: Global, form: Form<'_>, prog: u32) -> Result<String, AllocError>
    ensures { IfOk result (HasBytes (line_end form.entry prog)) }
{
    match form {
        Form::Plain | Form::Json => String::from_str(alloc, "\n"),
        Form::Named(services) => {
            let name = program_name(alloc, services, prog)?;
            format!(in alloc; " {name}\n")
        }
    }
}
