//! Which limit is out of its range.
ghost use Rattle.std.specs.Prelude.{◌≡◌, ◌↔◌, IsSome, IsTrue, not};
ghost use Rattle.rb_model.specs.State.{are_good};
ghost use Rattle.rb_lines.specs.Limits.{least_rows, bad_limit};

use rb_answers::{Listener, own_row_count};
use rb_model::Limits;
use std::fmt;
use std::fmt::{Display, Formatter};

/// A limit that is out of its range, with its value.
#[derive(Clone, Copy)]
pub enum BadLimit {
    /// Connections: 1 to 256.
    Conns(usize),
    /// Rows, and the least that are needed; the most are 4096.
    Rows(usize, usize),
    /// Forwarded calls: 0 to 64.
    Forwards(usize),
}

/// The least rows: those of the portmapper itself, and two more.
fn least_rows(listener: &Listener) -> usize
    ensures { result ≡ least_rows listener.now }
{
    own_row_count(listener) + 2
}

/// The first limit that is out of its range, if one is: connections, then rows, then forwarded calls. At least as many
/// rows are needed as the listener has itself, and two more.
pub fn bad_limit(limits: &Limits, listener: &Listener) -> Option<BadLimit>
    ensures first { result ≡ bad_limit limits.now listener.now }
    ensures bad { IsSome result ↔ IsTrue (not (are_good limits.now listener.now)) }
{
    let least = least_rows(listener);
    let Limits {
        conns,
        rows,
        forwards,
    } = *limits;
    if conns < 1 || conns > 256 {
        Some(BadLimit::Conns(conns))
    } else if rows < least || rows > 4096 {
        Some(BadLimit::Rows(rows, least))
    } else if forwards > 64 {
        Some(BadLimit::Forwards(forwards))
    } else {
        None
    }
}

/// `--conns 0: 1 to 256 is wanted`
impl Display for BadLimit {
    ghost use Rattle.std.specs.Prelude.{Some};
    ghost use Rattle.rb_lines.specs.Limits.{limit_text};

    ghost output = { λ bad. Some (limit_text bad) };

    fn fmt<W: fmt::Write>(&self, f: &mut Formatter<W>) -> fmt::Result {
        match self {
            BadLimit::Conns(n) => write!(f, "--conns {n}: 1 to 256 is wanted"),
            BadLimit::Rows(n, least) => write!(f, "--rows {n}: {least} to 4096 is wanted"),
            BadLimit::Forwards(n) => write!(f, "--forwards {n}: 0 to 64 is wanted"),
        }
    }
}
