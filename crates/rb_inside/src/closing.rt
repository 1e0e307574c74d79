//! Connections that the core has given up are closed.
use crate::opening::close_at;
use rb_engine::Engine;
use rb_links::Places;

/// Closes the connection at a place, which is given up, and tells the log so.
pub(crate) fn give_up(places: &mut Places, engine: &mut Engine, key: usize) {
    if let Some(arrival) = places.arrival(key) {
        engine.tell_given_up(arrival.source());
    }
    close_at(places, engine, key);
}

/// Closes the connection of a number, which the core has given up.
pub(crate) fn close_given_up(places: &mut Places, engine: &mut Engine, id: u64) {
    match places.key_of(id) {
        Some(key) => give_up(places, engine, key),
        None => engine.closed(id),
    }
}

/// Closes the connections that the core has given up for the room of a row.
pub(crate) fn close_lost(places: &mut Places, engine: &mut Engine) {
    for _ in 0..places.count() {
        let Some(id) = engine.next_lost() else {
            return;
        };
        close_given_up(places, engine, id);
    }
}
