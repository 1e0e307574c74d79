//! When what is due ends: not before all was read that came in time.
ghost use Rattle.std.specs.Prelude.{◌≡◌};
ghost use Rattle.rb_policy.specs.Deadlines.{is_behind, puts_off};

/// This many turns in a row put off what is due, at most. This many show and serve each socket that there may be, even
/// if each of 256 connections is owed bytes.
const MOST_PUT_OFF: u32 = 64;

/// Whether a turn may have left unread what came before its moment: if it is not fresh (a fresh one looked for events
/// after it read its moment); if its look showed as many sockets as it can show; or if something is left for the next
/// turn.
pub fn is_behind(is_fresh: bool, shown: usize, most: usize, is_something_left: bool) -> bool
    ensures { result ≡ is_behind is_fresh shown most is_something_left }
{
    !is_fresh || shown >= most || is_something_left
}

/// How long what is due has been put off.
#[derive(Clone, Copy)]
pub struct Deadlines {
    /// The number of turns in a row, up to the last one, that put it off.
    put_off: u32,
}

impl Deadlines {
    ghost use Rattle.std.specs.Prelude.{◌≡◌};
    ghost use Rattle.rb_policy.specs.Deadlines.{ends, put_off_after};

    /// No turn has put off anything.
    pub fn new() -> Deadlines
        ensures { result.put_off ≡ 0 }
    {
        Deadlines { put_off: 0 }
    }

    /// Whether what is due ends in this turn, if something is. A turn that is behind puts it off, and the next one
    /// does not wait: what is put off has come.
    pub fn ask(&mut self, is_due: bool, is_behind: bool) -> bool
        ensures ends { result ≡ ends self.old.put_off is_due is_behind }
        ensures after { self.new.put_off ≡ put_off_after self.old.put_off is_due is_behind }
    {
        if puts_off(self.put_off, is_due, is_behind) {
            self.put_off += 1;
            return false;
        }
        self.put_off = 0;
        is_due
    }
}

/// Whether a turn puts off what is due, if this many in a row before it did.
fn puts_off(turns: u32, is_due: bool, is_behind: bool) -> bool
    ensures { result ≡ puts_off turns is_due is_behind }
{
    is_due && is_behind && turns < MOST_PUT_OFF
}
