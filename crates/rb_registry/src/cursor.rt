//! A place in the list of rows.
ghost use Rattle.std.specs.Prelude.{◌≡◌, ℕ, Some, length};
ghost use Rattle.rb_registry.specs.Registry.{Registry, Reaches, slots_of, rows_passed};
ghost use Rattle.rb_registry.specs.Cursors.{StandsIn, slots_left};

use std::marker::Model;

/// A place among the rows of a registry: before all of them, or after one.
#[derive(Clone, Copy)]
pub struct Cursor {
    // the key of the row before it
    passed: Option<usize>,
}

/// Names each field, so that a further one does not compile until it stands here. It belongs in the table of
/// charges of crates/rb_core/README.md first.
fn layout(cursor: &Cursor) {
    let Cursor { passed } = *cursor;
    let _: Option<usize> = passed;
}

impl Model for Cursor {
    ghost use Rattle.std.specs.Prelude.{ℕ, Option};

    ghost Value = { Option ℕ };

    ghost view = { λ c. c.passed };

    ghost inverse = { λ key. record { passed = key } };
}

impl Cursor {
    /// The place before the first row.
    pub fn start() -> Cursor
        ensures place { (rows : Registry) (stamp : ℕ) → Reaches rows stamp
            → StandsIn rows stamp result }
        ensures passed { (rows : Registry) (stamp : ℕ) → rows_passed rows stamp result ≡ 0 }
        ensures slots { (rows : Registry) → slots_left rows result ≡ length (slots_of rows) }
    {
        Cursor { passed: None }
    }

    pub(crate) fn behind(key: usize) -> Cursor
        ensures { result ≡ Some key }
    {
        Cursor { passed: Some(key) }
    }

    pub(crate) fn key(self) -> Option<usize>
        ensures { result ≡ self }
    {
        self.passed
    }
}
