//! Where to start searching for a connection.
ghost use Rattle.std.specs.Prelude.{◌≡◌, ◌%◌};
ghost use Rattle.std.specs.List.{slice_index};
ghost use Rattle.rb_connections.specs.Slots.{number_wanted};

use crate::slot::Sought;

/// The key under which a connection was opened or found last, by the last byte of its number. A hint may be wrong: a
/// look-up tries it, and then walks the table.
#[derive(Clone, Copy)]
pub struct Hints {
    keys: [u8; 256],
}

/// Names each field, so that a further one does not compile until it stands here. It belongs in the table of
/// charges of crates/rb_core/README.md first.
fn layout(hints: &Hints) {
    let Hints { keys } = *hints;
    let _: [u8; 256] = keys;
}

impl Hints {
    pub fn new() -> Hints {
        Hints { keys: [0; 256] }
    }

    /// The key to try first for the connection that is asked for; if it is not asked for by its number, the key for
    /// number 0, which no connection has.
    pub fn key(&self, wanted: Sought) -> usize
        ensures { result ≡ slice_index self.now.keys (number_wanted wanted % 256) }
    {
        let number = match wanted {
            Sought::Live(id) | Sought::Numbered(id) => id,
            Sought::AnyLost | Sought::Due(_) => 0,
        };
        usize::from(self.keys[(number % 256) as usize])
    }

    /// Records that the connection of this number is under this key.
    pub fn note(&mut self, id: u64, key: usize)
        ensures { slice_index self.new.keys (id % 256) ≡ key % 256 }
    {
        self.keys[(id % 256) as usize] = (key % 256) as u8;
    }
}
