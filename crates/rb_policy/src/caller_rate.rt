//! How many lines callers get in a second: each of the first few by a count of its own, and all others by one.
ghost use Rattle.std.specs.Prelude.{◌≡◌};
ghost use Rattle.rb_policy.specs.CallerRates.{second_of, is_same_caller, fits, count_in, left_out_in, has_left_out};

use crate::recent::SECOND;
use rb_address::{Host, Owner};

/// The most lines of one caller in a second. Those that are too many are counted, and left out.
pub const LINES: u32 = 20;

/// How many callers have a count of their own in a second.
pub const OWN_COUNTS: usize = 8;

/// Whose lines count together.
#[derive(Clone, Copy)]
pub enum LogCaller {
    /// Callers of this machine that are this owner.
    Owner(Owner),
    /// Others, from this host.
    Host(Host),
}

/// How many lines there were.
#[derive(Clone, Copy)]
struct Count {
    /// How many the log got in the second.
    written: u32,
    /// How many were left out since that was told.
    left_out: u64,
}

/// How many lines of a caller there were.
#[derive(Clone, Copy)]
struct CallerCount {
    caller: LogCaller,
    count: Count,
}

/// How many lines were left out.
#[derive(Clone, Copy)]
pub struct LeftOut {
    /// Of whom; `None` for all that have no count of their own.
    pub caller: Option<LogCaller>,
    /// How many.
    pub count: u64,
}

/// What is known of the lines of callers.
#[derive(Clone, Copy)]
pub struct CallerRate {
    /// The second of the last line that was asked for, since the start of 1970.
    second: u64,
    /// The counts of the first callers in it, from the first place on.
    places: [Option<CallerCount>; OWN_COUNTS],
    /// The count of all others.
    others: Count,
}

/// The second of a moment in milliseconds.
fn second_of(now: u64) -> u64
    ensures { result ≡ second_of now }
{
    now / SECOND
}

fn is_same_caller(a: LogCaller, b: LogCaller) -> bool
    ensures { result ≡ is_same_caller a b }
{
    match (a, b) {
        (LogCaller::Owner(a), LogCaller::Owner(b)) => a == b,
        (LogCaller::Host(a), LogCaller::Host(b)) => a == b,
        (LogCaller::Owner(_), LogCaller::Host(_)) | (LogCaller::Host(_), LogCaller::Owner(_)) => {
            false
        }
    }
}

/// Whether a caller counts at a place: if it is the caller's, or free.
fn fits(caller: LogCaller, place: &Option<CallerCount>) -> bool
    ensures { result ≡ fits caller place.now }
{
    match place {
        None => true,
        Some(one) => is_same_caller(one.caller, caller),
    }
}

fn count_in(place: &Option<CallerCount>) -> Count
    ensures { result ≡ count_in place.now }
{
    match place {
        None => Count::new(),
        Some(one) => one.count,
    }
}

/// How many lines were left out of the caller at a place.
fn left_out_in(place: &Option<CallerCount>) -> u64
    ensures { result ≡ left_out_in place.now }
{
    match place {
        None => 0,
        Some(one) => one.count.left_out,
    }
}

fn has_left_out(place: &Option<CallerCount>) -> bool
    ensures { result ≡ has_left_out place.now }
{
    left_out_in(place) > 0
}

impl Count {
    ghost use Rattle.std.specs.Prelude.{◌≡◌};
    ghost use Rattle.rb_policy.specs.CallerRates.{gets, counted, no_lines};

    fn new() -> Count
        ensures { result ≡ no_lines }
    {
        Count {
            written: 0,
            left_out: 0,
        }
    }

    /// Whether the log gets one more line, if there is room for it. One that it does not get is counted.
    fn ask(&mut self, has_room: bool) -> bool
        ensures gets { result ≡ gets self.old has_room }
        ensures counted { self.new ≡ counted self.old has_room }
    {
        let gets = has_room && self.written < LINES;
        if gets {
            self.written += 1;
        } else {
            self.left_out = self.left_out.saturating_add(1);
        }
        gets
    }
}

impl CallerRate {
    ghost use Rattle.std.specs.Prelude.{◌≡◌, ◌<◌, position, Some, None, IfSome};
    ghost use Rattle.rb_policy.specs.CallerRates.{own_counts, rate_new, rate_at, fits, has_left_out, gets_line, rate_by, rate_after, gets, count_of, left_out_of, tells, rate_told, first_place, first_left_out, first_told, next_line};

    /// No line was asked for.
    pub(crate) fn new() -> CallerRate
        ensures { result ≡ rate_new }
    {
        CallerRate {
            second: 0,
            places: [None; OWN_COUNTS],
            others: Count::new(),
        }
    }

    /// Whether the log gets a line of this caller at this moment, in milliseconds, if there is room for it. One that it
    /// does not get is counted.
    pub(crate) fn ask(&mut self, now: u64, caller: LogCaller, has_room: bool) -> bool
        ensures gets { result ≡ gets_line self.old now caller has_room }
        ensures after { self.new ≡ rate_after self.old now caller has_room }
    {
        *self = self.at(now);
        self.ask_of(caller, has_room)
    }

    /// How many lines were left out that must be told at this moment, in milliseconds, of the first caller of whom some
    /// were: none of its own second, since more may follow. They are told then.
    pub(crate) fn take_left_out(&mut self, now: u64) -> Option<LeftOut>
        ensures told { result ≡ tells self.old now }
        ensures after { self.new ≡ rate_told self.old now }
    {
        if second_of(now) == self.second {
            return None;
        }
        self.take_first()
    }

    /// The moment from which `take_left_out` tells how many lines were left out, in milliseconds: the end of their
    /// second. None if none were.
    pub(crate) fn next_line(&self) -> Option<u64>
        ensures { result ≡ next_line self.now }
    {
        if self.left_out() == 0 {
            return None;
        }
        let next = self.second.saturating_add(1);
        Some(next.saturating_mul(SECOND))
    }

    /// What is known at a moment: of another second than that of the last line, the log has got none.
    fn at(self, now: u64) -> CallerRate
        ensures { result ≡ rate_at self now }
    {
        let second = second_of(now);
        if second == self.second {
            return self;
        }
        CallerRate {
            second,
            places: [None; OWN_COUNTS],
            others: Count {
                written: 0,
                left_out: self.left_out(),
            },
        }
    }

    /// The same in the second of the last line.
    fn ask_of(&mut self, caller: LogCaller, has_room: bool) -> bool
        ensures gets { result ≡ gets (count_of caller self.old.others self.old.places) has_room }
        ensures after { self.new ≡ rate_by self.old caller has_room }
    {
        let Some(place) = self.place_of(caller) else {
            return self.others.ask(has_room);
        };
        let mut count = count_in(&self.places[place]);
        let gets = count.ask(has_room);
        self.places[place] = Some(CallerCount { caller, count });
        gets
    }

    /// The place at which a caller counts, if there is one.
    fn place_of(&self, caller: LogCaller) -> Option<usize>
        ensures place { result ≡ position (fits caller) self.now.places }
        ensures within { IfSome result (λ place. place < own_counts) }
    {
        self.places.iter().position(|place| fits(caller, place))
    }

    /// How many lines were left out of all callers.
    fn left_out(&self) -> u64
        ensures { result ≡ left_out_of self.now }
    {
        let mut sum = self.others.left_out;
        for place in &self.places {
            sum = sum.saturating_add(left_out_in(place));
        }
        sum
    }

    /// Takes what was left out of the first caller of whom some lines were, or else of all without a count of their own.
    fn take_first(&mut self) -> Option<LeftOut>
        ensures told { result ≡ first_left_out self.old (first_place self.old) }
        ensures after { self.new ≡ first_told self.old (first_place self.old) }
    {
        match self.first_place() {
            Some(place) => self.take_at(place),
            None => self.take_of_others(),
        }
    }

    /// The place of the first caller of whom some lines were left out.
    fn first_place(&self) -> Option<usize>
        ensures place { result ≡ first_place self.now }
        ensures within { IfSome result (λ place. place < own_counts) }
    {
        self.places.iter().position(|place| has_left_out(place))
    }

    fn take_at(&mut self, place: usize) -> Option<LeftOut>
        requires { place < own_counts }
        ensures told { result ≡ first_left_out self.old (Some place) }
        ensures after { self.new ≡ first_told self.old (Some place) }
    {
        let Some(one) = self.places[place] else {
            return None;
        };
        let CallerCount { caller, count } = one;
        self.places[place] = Some(CallerCount {
            caller,
            count: Count {
                written: count.written,
                left_out: 0,
            },
        });
        Some(LeftOut {
            caller: Some(caller),
            count: count.left_out,
        })
    }

    fn take_of_others(&mut self) -> Option<LeftOut>
        ensures told { result ≡ first_left_out self.old None }
        ensures after { self.new ≡ first_told self.old None }
    {
        let count = self.others.left_out;
        self.others.left_out = 0;
        if count == 0 {
            return None;
        }
        Some(LeftOut {
            caller: None,
            count,
        })
    }
}
