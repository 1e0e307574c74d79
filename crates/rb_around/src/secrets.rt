//! Numbers of the system's randomness, drawn once at the start, that nobody else knows.
ghost use Rattle.std.specs.Prelude.{◌≡◌, IfOk, IsErrOf, IsTrue, false};

use rb_policy::{Brake, PlaceKey, Rate};
use rb_settings::{DaemonFault, Step};
use std::alloc::Global;
use std::io;
use std::random::RandomSource;

/// What is drawn.
#[derive(Clone, Copy)]
pub struct Secrets {
    /// The xid of the first forwarded call.
    pub first_xid: u32,
    /// By which networks and hosts have their places.
    pub key: PlaceKey,
}

/// Draws them, if the system has randomness.
pub fn draw<H: RandomSource>(host: &H) -> io::Result<Secrets> {
    Ok(Secrets {
        first_xid: draw_number(host)?,
        key: PlaceKey {
            point: draw_number(host)?,
            factor: draw_number(host)?,
        },
    })
}

fn draw_number<H: RandomSource>(host: &H) -> io::Result<u32> {
    let mut bytes = [0; 4];
    host.fill_bytes(&mut bytes)?;
    Ok(u32::from_ne_bytes(bytes))
}

/// The xid of the first forwarded call: without randomness by the start's moment, in milliseconds.
pub fn first_xid(secrets: &io::Result<Secrets>, moment: u64) -> u32
    ensures { IfOk secrets.now (λ drawn. result ≡ drawn.first_xid) }
{
    match secrets {
        Ok(secrets) => secrets.first_xid,
        Err(_) => (moment % 0x1_0000_0000) as u32,
    }
}

/// What drops datagrams, if a rate is given. `Socket` if the system has no randomness for it, `Memory` if an allocation is
/// refused.
pub fn brake_of(
    alloc: Global,
    rate: Option<Rate>,
    secrets: io::Result<Secrets>,
) -> Result<Option<Brake>, DaemonFault>
    ensures others { IsErrOf result DaemonFault.Limits → IsTrue false }
{
    let Some(rate) = rate else {
        return Ok(None);
    };
    match secrets {
        Ok(secrets) => match Brake::new(alloc, secrets.key, rate) {
            Ok(brake) => Ok(Some(brake)),
            Err(error) => Err(DaemonFault::Memory(error)),
        },
        Err(error) => Err(DaemonFault::Socket(Step::Random.failed(error))),
    }
}
