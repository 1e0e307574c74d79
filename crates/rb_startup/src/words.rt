//! Why the words of the command line end the program before they are read, and what is said of it.
ghost use Rattle.std.specs.Prelude.{◌≡◌};
ghost use Rattle.rb_startup.specs.Words.{status_of, TellsWords};

use crate::telling::{Front, write_behind};
use rb_lines::{Ending, Fault, explain};
use std::alloc::AllocError;
use std::io;
use std::io::Write;

/// Why the words of the command line end the program before they are read.
#[derive(Drop)]
pub enum WordsFault {
    /// They can't be had.
    NotHad(Fault),
    /// An allocation was refused.
    NoMemory,
    /// An option of Debian's has no like: this is said of it.
    NotTaken(String),
    /// `serve -h HOST`, where `-h` asks for help.
    HostForHelp,
    /// There is no user of this name.
    NoUser(String),
    /// The names of users can't be read.
    NoUsers(io::Error),
}

impl From<AllocError> for WordsFault {
    ghost use Rattle.std.specs.Prelude.{◌≡◌};
    ghost use Rattle.rb_startup.specs.declared.words.WordsFault.TheVariants.{NoMemory};

    ghost from_gives = { λ _ fault. fault ≡ NoMemory };

    fn from(_error: AllocError) -> WordsFault {
        WordsFault::NoMemory
    }
}

impl WordsFault {
    ghost use Rattle.std.specs.Prelude.{◌≡◌};
    ghost use Rattle.rb_startup.specs.Words.{status_of};

    // EXIT-2
    /// The exit status: 2 if the words are at fault, else 1.
    fn status(&self) -> u8
        ensures { result ≡ status_of self.now }
    {
        match self {
            WordsFault::NotHad(fault) => fault.status(),
            WordsFault::NotTaken(_) | WordsFault::HostForHelp | WordsFault::NoUser(_) => 2,
            WordsFault::NoMemory | WordsFault::NoUsers(_) => 1,
        }
    }
}

// EXIT-2
/// Ends by such a fault: its line was written, if it can be.
pub fn explain_words<E: Write>(fault: &WordsFault, faults: &mut E) -> Ending
    ensures status { result.status ≡ status_of fault.now }
    ensures told { TellsWords E.contents faults.old faults.new result.is_told fault.now }
{
    Ending {
        status: fault.status(),
        is_told: tell_words(fault, faults),
    }
}

/// Writes what is wrong with the words. Whether all of it was written.
fn tell_words<E: Write>(fault: &WordsFault, faults: &mut E) -> bool
    ensures { TellsWords E.contents faults.old faults.new result fault.now }
{
    match fault {
        WordsFault::NotHad(fault) => explain(*fault, faults).is_told,
        WordsFault::NoMemory => explain(Fault::NoMemory, faults).is_told,
        WordsFault::NotTaken(text) => writeln!(faults, "rpcbind: {text}").is_ok(),
        WordsFault::HostForHelp => writeln!(
            faults,
            "rpcbind: serve -h shows help: give a host as --bind HOST, or in --options='-h HOST'"
        )
        .is_ok(),
        WordsFault::NoUser(name) => {
            writeln!(faults, "rpcbind: --reserve: /etc/passwd has no user {name}").is_ok()
        }
        WordsFault::NoUsers(error) => {
            write_behind(Front::Read("/etc/passwd"), error, faults).is_ok()
        }
    }
}
