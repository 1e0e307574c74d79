//! What becomes of connections that a turn has served, and of those whose replies waited.
ghost use Rattle.rb_around.specs.Turning.{ServesOnly, ServesEach};

use crate::opening::close_at;
use crate::steps::serve_kept;
use rb_around::{HeldLink, Progress};
use rb_engine::{Engine, Keeper};
use rb_links::{Places, Turn};
use std::fs::Files;

/// A turn has served the connection at a place, which stands so.
pub(crate) fn note_served(places: &mut Places, engine: &mut Engine, key: usize, progress: Progress)
    ensures { ServesOnly key places.old places.new }
{
    end_at(places, engine, key, progress);
    places.note_served(key);
}

/// Leaves the connection at a place, or closes it, if it stands so.
fn end_at(places: &mut Places, engine: &mut Engine, key: usize, progress: Progress)
    ensures { ServesOnly key places.old places.new }
{
    match progress {
        Progress::Blocked => {}
        Progress::CutOff | Progress::Unkept(_) => places.leave(key),
        Progress::Over => {
            close_at(places, engine, key);
        }
    }
}

/// Goes on with a connection whose replies waited, at its own place.
fn go_on<H: Files>(
    host: &H,
    engine: &mut Engine,
    keeper: &mut Keeper<H>,
    places: &mut Places,
    turn: Turn,
    held: &HeldLink,
)
    ensures { ServesOnly held.now.key places.old places.new }
{
    let kept = keeper.keep(host, engine);
    let Some(link) = places.links.get_mut(held.key) else {
        return;
    };
    let progress = serve_kept(link, engine, kept, *held, &mut places.long_outbox, turn);
    note_served(places, engine, held.key, progress);
}

/// Goes on with connections whose replies waited, in their order.
pub(crate) fn go_on_each<H: Files>(
    host: &H,
    engine: &mut Engine,
    keeper: &mut Keeper<H>,
    places: &mut Places,
    turn: Turn,
    all: &[HeldLink],
)
    ensures { ServesEach all.now places.old places.new }
{
    for held in all {
        go_on(host, engine, keeper, places, turn, held);
    }
}
