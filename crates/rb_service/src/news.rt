//! What is told after a turn.
use rb_settings::{KeepNews, Settings};
use rb_startup::{Level, Leveled, say_address, say_local_change, say_name, say_table_fault};
use rb_turns::{News, Turns};
use std::fs::Files;
use std::io::Write;
use std::net::Net;

/// Writes what there is to be told after a turn, and looks for what is due to be looked for.
pub fn say_news<D: Turns<R>, R: Files + Net, E: Write>(
    rt: &R,
    daemon: &mut D,
    settings: &Settings<'_>,
    faults: &mut E,
) {
    let _ = daemon.write_log(&mut Leveled::new(&mut *faults, Level::Info));
    follow_addresses(rt, daemon, settings, faults);
    say_warnings(settings, daemon.take_news(rt), faults);
}

/// Says what there is to tell.
fn say_warnings<E: Write>(settings: &Settings<'_>, news: News, faults: &mut E) {
    let mut warnings = Leveled::new(faults, Level::Warning);
    if let Some(fault) = news.fault {
        let _ = writeln!(warnings, "rpcbind: {fault}; it is tried again");
    }
    say_keep_news(settings, news.keep, &mut warnings);
    say_table_fault(news.table, &mut warnings);
    say_local_change(settings, news.is_local_changed, &mut warnings);
    say_name(news.name, &mut warnings);
}

/// More than can change at once of addresses that are followed.
const CHANGES: usize = 64;

/// Listens on addresses that have come, and no more on those that have gone, and says each.
fn follow_addresses<D: Turns<R>, R: Files + Net, E: Write>(
    rt: &R,
    daemon: &mut D,
    settings: &Settings<'_>,
    faults: &mut E,
) {
    for _ in 0..CHANGES {
        match daemon.follow(rt) {
            Some(news) => say_address(settings.port, news, faults),
            None => return,
        }
    }
}

/// Says what there is to tell of the rows that are kept.
fn say_keep_news<E: Write>(settings: &Settings<'_>, news: Option<KeepNews>, faults: &mut E) {
    let (Some(path), Some(news)) = (settings.keep, news) else {
        return;
    };
    let _ = match news {
        KeepNews::Failed(error) => writeln!(
            faults,
            "rpcbind: keep {path}: {error}; it is tried again at the next change"
        ),
        KeepNews::Written => writeln!(faults, "rpcbind: keep {path}: it is written again"),
        KeepNews::Another => writeln!(
            faults,
            "rpcbind: keep {path}: somebody else changed it; all rows were written anew"
        ),
    };
}
