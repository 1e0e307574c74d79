//! Connections at their places are opened and closed for the core.
ghost use Rattle.std.specs.Prelude.{◌≡◌, true, IfSome};
ghost use Rattle.rb_inside.specs.Links.{OpensAt, ClosesAt, OpensAgain};
ghost use Rattle.rb_around.specs.Turning.{ServesOnly};

use mio::Registry;
use rb_engine::{Caller, Engine};
use rb_links::Places;

// LINK-2
/// Opens the connection at a place, as one of whoever came in there, and shows its events. Whether that was done: if not, the
/// core knows nothing of it.
pub(crate) fn open_at(
    places: &mut Places,
    engine: &mut Engine,
    registry: &Registry,
    key: usize,
) -> bool
    ensures { result ≡ true → OpensAt key engine.old engine.new places.old places.new }
{
    let Some(arrival) = places.arrival(key) else {
        return false;
    };
    let Ok(id) = engine.open(Caller::of(arrival)) else {
        return false;
    };
    if !places.open(registry, key, id) {
        engine.closed(id);
        return false;
    }
    true
}

// LINK-2
/// Closes the connection at a place. The answer is its number, if there was one that the core knows.
pub(crate) fn close_at(places: &mut Places, engine: &mut Engine, key: usize) -> Option<u64>
    ensures closes { IfSome result (λ id. ClosesAt key id engine.old engine.new places.old) }
    ensures only { ServesOnly key places.old places.new }
{
    let id = places.close(key)?;
    engine.closed(id);
    Some(id)
}

// LINK-2
/// The connection at a place goes on as whoever came in there: for the core the old one is closed, and a new one opened.
/// Whether that was done.
pub(crate) fn open_again(places: &mut Places, engine: &mut Engine, key: usize) -> bool
    ensures { result ≡ true → OpensAgain key engine.old engine.new places.old places.new }
{
    let Some(arrival) = places.arrival(key) else {
        return false;
    };
    let Some(id) = places.take_id(key) else {
        return false;
    };
    engine.closed(id);
    let Ok(id) = engine.open(Caller::of(arrival)) else {
        return false;
    };
    places.renumber(key, id)
}
