//! All rows are asked.
use crate::probe::{Probe, found_by};
use crate::target::{OwnHosts, target_of};
use mio::{Events, Poll, Token};
use rb_registry::Row;
use std::alloc::{AllocError, Global};
use std::io;
use std::net::Net;
use std::rt::Clock;
use std::time::Duration;

/// How many programs are asked at a time.
const PLACES: usize = 64;

/// For how many milliseconds programs are asked.
const ASKING: u64 = 1_000;

/// After how many milliseconds no answer is waited for any more.
const WHOLE: u64 = 2_000;

/// What is known of who answers at the address of a row.
#[derive(Clone, Copy, Debug, PartialEq, Eq)]
pub enum Found {
    /// It is not of this machine or was not asked in time, or something failed.
    NotKnown,
    /// It was asked, and nothing came.
    Silent,
    /// The system says that nobody listens there.
    NobodyThere,
    /// Something came: a datagram, or a byte over a connection.
    Answered,
}

impl Found {
    ghost use Rattle.std.specs.Prelude.{◌≡◌};
    ghost use Rattle.rb_files.specs.Asked.{is_nobody};

    /// Whether nobody answers there.
    pub fn is_nobody(self) -> bool
        ensures { result ≡ is_nobody self }
    {
        match self {
            Found::Silent | Found::NobodyThere => true,
            Found::NotKnown | Found::Answered => false,
        }
    }
}

/// A program that is asked, and the number of its row.
#[derive(Drop)]
struct AskedProgram {
    number: usize,
    probe: Probe,
}

/// All rows, and the programs that are asked.
#[derive(Drop)]
struct Check<'a> {
    poll: Poll,
    rows: &'a [Row],
    own: OwnHosts<'a>,
    /// How many rows were looked at.
    next: usize,
    places: Vec<Option<AskedProgram>>,
    found: Vec<Found>,
}

// KEEPCHECK-2: With `--keep-check` a kept row is left out, and a line says so, if the system says
// that nobody listens there, or if nothing came until two seconds were over. Those asked are the
// ones that come to one of 64 places within a second; any datagram and any byte is an answer; each
// other row stays.
/// Asks the programs of the rows that are of this machine over TCP and UDP, 64 at a time: those that it comes to in
/// the first second, and waits for answers until two seconds are over. Returns for each row what is known. If the
/// system gives no socket or no time, nothing is. An error if the allocation is refused.
pub fn ask_all<R: Net + Clock>(
    rt: &R,
    alloc: Global,
    rows: &[Row],
    own: OwnHosts<'_>,
) -> Result<Vec<Found>, AllocError> {
    let mut found = Vec::new(alloc);
    found.resize(rows.len(), Found::NotKnown)?;
    let mut places = Vec::with_capacity(alloc, PLACES)?;
    for _ in 0..PLACES {
        places.push(None)?;
    }
    let mut events = Events::with_capacity(alloc, PLACES)?;
    let Ok(poll) = Poll::new(rt) else {
        return Ok(found);
    };
    let mut check = Check {
        poll,
        rows,
        own,
        next: 0,
        places,
        found,
    };
    let _ = check.run(rt, &mut events);
    Ok(check.found)
}

impl Check<'_> {
    /// Asks and waits until each row is known, or the time is over.
    fn run<R: Net + Clock>(&mut self, rt: &R, events: &mut Events<Global>) -> io::Result<()> {
        let begun = rt.monotonic()?;
        for _ in 0..u64::MAX {
            let passed = passed_since(rt, begun)?;
            if passed < ASKING {
                self.ask_more(rt);
            }
            let is_done = self.places.iter().all(|place| place.is_none());
            let left = WHOLE.saturating_sub(passed);
            if is_done || left == 0 {
                return Ok(());
            }
            self.poll.poll(events, Some(Duration::from_millis(left)))?;
            for event in &*events {
                self.look(event.token());
            }
        }
        Ok(())
    }

    /// Asks the next rows, as far as places are free.
    fn ask_more<R: Net>(&mut self, rt: &R) {
        for place in 0..PLACES {
            if let Some(None) = self.places.get(place) {
                self.ask_next(rt, place);
            }
        }
    }

    /// Asks the next rows from this place, until one must be waited for.
    fn ask_next<R: Net>(&mut self, rt: &R, place: usize) {
        let rows = self.rows;
        for row in rows.get(self.next..).unwrap_or(&[]) {
            let number = self.next;
            self.next = number.saturating_add(1);
            if self.ask(rt, place, row, number) {
                return;
            }
        }
    }

    /// Asks the row of this number from this place. Whether an answer is waited for.
    fn ask<R: Net>(&mut self, rt: &R, place: usize, row: &Row, number: usize) -> bool {
        let Some(target) = target_of(row, self.own) else {
            return false;
        };
        match Probe::ask(rt, self.poll.registry(), Token(place), row, target) {
            Ok(probe) => {
                self.note(number, Found::Silent);
                let asked = AskedProgram { number, probe };
                if let Some(room) = self.places.get_mut(place) {
                    *room = Some(asked);
                }
                true
            }
            Err(error) => {
                self.note(number, found_by(&error).unwrap_or(Found::NotKnown));
                false
            }
        }
    }

    fn note(&mut self, number: usize, known: Found) {
        if let Some(found) = self.found.get_mut(number) {
            *found = known;
        }
    }

    /// Looks at what came to a place, which is free once something is known.
    fn look(&mut self, token: Token) {
        let Some(place) = self.places.get_mut(token.0) else {
            return;
        };
        let Some(asked) = place else {
            return;
        };
        if let Some(known) = asked.probe.look() {
            let number = asked.number;
            *place = None;
            self.note(number, known);
        }
    }
}

fn passed_since(clock: &impl Clock, begun: Duration) -> io::Result<u64> {
    let passed = clock.monotonic()?.saturating_sub(begun).as_millis();
    Ok(u64::try_from(passed).unwrap_or(u64::MAX))
}
