//! At which hosts the daemon listens: those of sockets that were handed over, and those of interfaces.
ghost use Rattle.std.specs.Prelude.{◌≡◌};

use crate::interfaces::Binds;
use crate::telling::{say_address, say_silent};
use rb_settings::{MOST, Settings};
use rb_sockets::{Follower, Handed, HandedFault, take_handed};
use std::alloc::AllocError;
use std::env::Env;
use std::fs::Files;
use std::io::Write;
use std::net::Net;

/// The sockets that were handed over, for the addresses of the settings, whose hosts are those of the sockets if `--bind` is not
/// given.
pub fn take_sockets<R: Env + AllocGlobal>(
    rt: &R,
    settings: &mut Settings<'_>,
    is_bind_given: bool,
) -> Result<Handed, HandedFault>
    ensures { settings.new ≡ record settings.old { bind = settings.new.bind } }
{
    let handed = take_handed(rt.alloc(), rt)?;
    match handed.hosts() {
        Some(hosts) if !is_bind_given => settings.bind = hosts,
        Some(_) | None => {}
    }
    handed.settle(rt.alloc(), settings)
}

/// The addresses of interfaces that `--bind` names, or of all, are among the hosts of the settings from here on, and are
/// followed. What there is to be said of them is said. An error if an allocation is refused.
pub fn find_hosts<R, E>(
    rt: &R,
    settings: &mut Settings<'_>,
    binds: Binds,
    faults: &mut E,
) -> Result<Option<Follower>, AllocError>
where
    R: Net + Files + AllocGlobal,
    E: Write,
    ensures { settings.new ≡ record settings.old { bind = settings.new.bind } }
{
    let Binds {
        interfaces,
        are_hosts,
    } = binds;
    if interfaces.is_empty() {
        return Ok(None);
    }
    let mut follower = if are_hosts {
        Follower::new(rt.alloc(), interfaces, settings.bind.as_slice())?
    } else {
        Follower::new(rt.alloc(), interfaces, &[])?
    };
    settings.bind = follower.begin(rt);
    say_silent(follower.silent(), faults);
    for _ in 0..MOST {
        match follower.take_news() {
            Some(news) => say_address(settings.port, news, faults),
            None => break,
        }
    }
    Ok(Some(follower))
}
