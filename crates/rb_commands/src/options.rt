//! What the values of the options of `replay` mean, and those that `serve` has too.
ghost use Rattle.std.specs.Prelude.{◌≡◌, ◌<◌, ◌^◌, OnOk};
ghost use Rattle.std.specs.List.{list_all};
ghost use Rattle.rb_address.specs.Reading.{number_below};
ghost use Rattle.rb_address.specs.Networks.{plain_host_of};
ghost use Rattle.rb_lines.specs.Paths.{is_quotable};
ghost use Rattle.rb_commands.specs.Options.{value_of, with_host, announce_at, announced_of, read_local, local_address, port, limits_of, udp_lists, forward_for, forwarding_of, number32, programs_in, reservation_of, reserve_at, reserved_from, beginning_of};

use rb_address::{Host, cut, number_below};
use rb_answers::{Announced, Forwarding, Listener, MOST_RESERVED, Reservation, Reserved, Terms};
use rb_lines::Beginning;
use rb_model::Limits;
use rb_uaddr::AddressText;

/// The longest path of a local socket, in bytes.
const LONGEST_PATH: usize = 107;

/// No host of either family.
const UNANNOUNCED: Announced = Announced {
    inet: None,
    inet6: None,
};

/// An option that has a value.
#[derive(Clone, Copy)]
pub enum Valued {
    /// The value of `--announce` at this place, from 0. None may stand at place 2.
    Announce(usize),
    /// The value of `--bind` at this place, from 0. None may stand at place 16.
    Bind(usize),
    /// The value of `--from` at this place, from 0. None may stand at place 16.
    From(usize),
    /// `--local PATH`
    Local,
    /// `--local-mode MODE`
    LocalMode,
    /// `--conns N`
    Conns,
    /// `--rows N`
    Rows,
    /// `--forwards N`
    Forwards,
    /// `--udp-lists WHOM`
    UdpLists,
    /// `--forward-for WHOM` of `serve`.
    ForwardFor,
    /// `--forward-for WHOM` of `replay`, which has one word more.
    ReplayForwardFor,
    /// `--udp-rate N`
    UdpRate,
    /// `--port N`
    Port,
    /// `--xid N`
    Xid,
    /// `--now MS`
    Now,
    /// `--turns N`
    Turns,
    /// `--record-limit N`
    RecordLimit,
    /// `--keep FILE`
    Keep,
    /// `--log WHAT`
    Log,
    /// The value of `--reserve` at this place, from 0. None may stand at place 64.
    Reserve(usize),
}

/// The values of the options of `replay`, as texts.
#[derive(Clone, Copy)]
pub struct ReplayTexts<'m, 'a> {
    /// At most one host of each family: an IPv4 address in dotted decimal form without leading zeros, and an IPv6 address
    /// without brackets. A family of which one is given is served.
    pub announce: &'m [&'a str],
    /// A path of 1 to 107 bytes, without control characters and quotes.
    pub local: Option<&'a str>,
    /// A number of 64 bits, as the next two; which of them are good limits is for the core.
    pub conns: &'a str,
    /// The most rows.
    pub rows: &'a str,
    /// The most forwarded calls at a time.
    pub forwards: &'a str,
    /// From 1 to 65535.
    pub port: &'a str,
    /// The xid of the first forwarded call, of 32 bits.
    pub xid: &'a str,
    /// The first moment, in milliseconds since the start of 1970.
    pub moment: &'a str,
    /// `all` or `local`.
    pub udp_lists: &'a str,
    /// `any`, `all` or `local`.
    pub forward_for: &'a str,
    /// At most 64 reservations, as 100003=0 or 100003-100005=0.
    pub reserve: &'m [&'a str],
    /// Whether `--steps` is given.
    pub steps: bool,
}

/// A number of 64 bits in decimal digits alone, leading zeros allowed. A sign is no digit.
pub(crate) fn number(option: Valued, text: &str) -> Result<u64, Valued>
    ensures { result ≡ value_of option (number_below (2 ^ 64) text.now) }
{
    number_below(text.as_bytes()).ok_or(option)
}

/// A host of IPv4 or IPv6, none of IPv4 in IPv6's form.
pub(crate) fn read_host(option: Valued, text: &str) -> Result<Host, Valued>
    ensures { result ≡ value_of option (plain_host_of text.now) }
{
    Host::read(text.as_bytes()).ok_or(option)
}

/// The announced hosts and one more, of a family that has none yet.
fn with_host(announced: Announced, host: Host) -> Option<Announced>
    ensures { result ≡ with_host announced host }
{
    match host {
        Host::V4(octets) => {
            if announced.inet.is_some() {
                return None;
            }
            Some(Announced {
                inet: Some(octets),
                inet6: announced.inet6,
            })
        }
        Host::V6(octets) => {
            if announced.inet6.is_some() {
                return None;
            }
            Some(Announced {
                inet: announced.inet,
                inet6: Some(octets),
            })
        }
    }
}

/// The announced hosts and that of `--announce` at a place.
fn announce_at(place: usize, announced: Announced, text: &str) -> Result<Announced, Valued>
    ensures { result ≡ announce_at place announced text.now }
{
    let host = read_host(Valued::Announce(place), text)?;
    with_host(announced, host).ok_or(Valued::Announce(place))
}

/// The announced hosts: at most one of each family.
pub(crate) fn read_announced(texts: &[&str]) -> Result<Announced, Valued>
    ensures { result ≡ announced_of texts.now }
{
    match texts {
        [] => Ok(UNANNOUNCED),
        [text] => announce_at(0, UNANNOUNCED, text),
        [first, second] => {
            let one = announce_at(0, UNANNOUNCED, first)?;
            announce_at(1, one, second)
        }
        [first, second, ..] => {
            let one = announce_at(0, UNANNOUNCED, first)?;
            let _both = announce_at(1, one, second)?;
            Err(Valued::Announce(2))
        }
    }
}

/// Whether each byte may stand in the path of a local socket: no control character, and no quote, so that the path can
/// stand in quotes in a line.
fn is_quotable(text: &str) -> bool
    ensures { result ≡ list_all is_quotable text.now }
{
    text.bytes().all(|b| b >= 32 && b != b'\'')
}

/// The path of the local socket. One of no bytes or of more than 107 names no socket.
pub(crate) fn read_local<'a>(text: Option<&'a str>) -> Result<Option<&'a str>, Valued>
    ensures { result ≡ read_local text.entry }
{
    let Some(path) = text else {
        return Ok(None);
    };
    if path.is_empty() || path.len() > LONGEST_PATH || !is_quotable(path) {
        return Err(Valued::Local);
    }
    Ok(Some(path))
}

/// The same, as the address of the local socket.
fn read_local_address(text: Option<&str>) -> Result<Option<AddressText>, Valued>
    ensures { result ≡ local_address text.entry }
{
    let Some(path) = read_local(text)? else {
        return Ok(None);
    };
    Ok(Some(AddressText::new(path.as_bytes())))
}

/// A number of 32 bits.
#[tactic(auto, unfolding(rb_address::specs::Reading::number_below))]
fn number32(option: Valued, text: &[u8]) -> Result<u32, Valued>
    ensures { result ≡ value_of option (number32 text.now) }
{
    let Some(n) = number_below(text) else {
        return Err(option);
    };
    if n < 0x1_0000_0000 {
        Ok(n as u32)
    } else {
        Err(option)
    }
}

/// The first program and the last one.
fn programs_in(text: &[u8]) -> (&[u8], &[u8])
    ensures first { result.0.now ≡ (programs_in text.now).0 }
    ensures last { result.1.now ≡ (programs_in text.now).1 }
{
    match cut(text, b'-') {
        Some(programs) => programs,
        None => (text, text),
    }
}

/// A reservation.
fn read_reservation(option: Valued, text: &[u8]) -> Result<Reservation, Valued>
    ensures { result ≡ reservation_of option text.now }
{
    let Some((programs, uid)) = cut(text, b'=') else {
        return Err(option);
    };
    let (first, last) = programs_in(programs);
    let first = number32(option, first)?;
    let last = number32(option, last)?;
    let uid = number32(option, uid)?;
    if first <= last {
        Ok(Reservation { first, last, uid })
    } else {
        Err(option)
    }
}

/// The reservation of `--reserve` at a place.
fn reserve_at(place: usize, text: &str) -> Result<Reservation, Valued>
    ensures reservation { result ≡ reserve_at place text.now }
    ensures room { OnOk result (place < MOST_RESERVED) }
{
    if place < MOST_RESERVED {
        read_reservation(Valued::Reserve(place), text.as_bytes())
    } else {
        Err(Valued::Reserve(place))
    }
}

/// The reservations of `--reserve`.
pub(crate) fn read_reserved(texts: &[&str]) -> Result<Reserved, Valued>
    ensures { result ≡ reserved_from 0 texts.now }
{
    let mut reserved = Reserved::new();
    for text in texts {
        let reservation = reserve_at(reserved.len(), text)?;
        reserved.push(reservation);
    }
    Ok(reserved)
}

/// A port from 1 to 65535. `Port` if the text is none.
#[tactic(auto, unfolding(rb_address::specs::Reading::number_below))]
pub(crate) fn read_port(text: &str) -> Result<u16, Valued>
    ensures { result ≡ value_of Valued.Port (port text.now) }
{
    let n = number(Valued::Port, text)?;
    if 1 <= n && n < 0x1_0000 {
        Ok(n as u16)
    } else {
        Err(Valued::Port)
    }
}

/// Limits, whatever their ranges. The first option whose text is no number of 64 bits, if there is one.
pub(crate) fn read_limits(conns: &str, rows: &str, forwards: &str) -> Result<Limits, Valued>
    ensures { result ≡ limits_of conns.now rows.now forwards.now }
{
    let conns = number(Valued::Conns, conns)?;
    let rows = number(Valued::Rows, rows)?;
    let forwards = number(Valued::Forwards, forwards)?;
    Ok(Limits {
        conns: conns as usize,
        rows: rows as usize,
        forwards: forwards as usize,
    })
}

/// Whether a reply over UDP may be long to anyone: `all`, or `local`, if it may be so to callers of this machine alone.
pub(crate) fn read_udp_lists(text: &str) -> Result<bool, Valued>
    ensures { result ≡ value_of Valued.UdpLists (udp_lists text.now) }
{
    match text {
        "all" => Ok(true),
        "local" => Ok(false),
        _ => Err(Valued::UdpLists),
    }
}

/// For whom calls are forwarded by `serve`: `all`, or `local`, for callers of this machine alone.
pub(crate) fn read_forward_for(text: &str) -> Result<Forwarding, Valued>
    ensures { result ≡ value_of Valued.ForwardFor (forward_for text.now) }
{
    match text {
        "all" => Ok(Forwarding::ForAll),
        "local" => Ok(Forwarding::ForLocal),
        _ => Err(Valued::ForwardFor),
    }
}

/// The same of `replay`, which also has `any`: for whomever, to programs of other hosts too.
fn read_forwarding(text: &str) -> Result<Forwarding, Valued>
    ensures { result ≡ value_of Valued.ReplayForwardFor (forwarding_of text.now) }
{
    match text {
        "any" => Ok(Forwarding::Anywhere),
        "all" => Ok(Forwarding::ForAll),
        "local" => Ok(Forwarding::ForLocal),
        _ => Err(Valued::ReplayForwardFor),
    }
}

/// What a replay begins with, or the first option whose value can't be read, in the order of the fields.
pub fn read_beginning(texts: &ReplayTexts<'_, '_>) -> Result<Beginning, Valued>
    ensures { result ≡ beginning_of texts.now }
{
    let announced = read_announced(texts.announce)?;
    let local = read_local_address(texts.local)?;
    let limits = read_limits(texts.conns, texts.rows, texts.forwards)?;
    let port = read_port(texts.port)?;
    let first_xid = number32(Valued::Xid, texts.xid.as_bytes())?;
    let moment = number(Valued::Now, texts.moment)?;
    let long_replies = read_udp_lists(texts.udp_lists)?;
    let forwarding = read_forwarding(texts.forward_for)?;
    let reserved = read_reserved(texts.reserve)?;
    Ok(Beginning {
        limits,
        listener: Listener {
            announced,
            port,
            local,
            terms: Terms {
                long_replies,
                forwarding,
            },
            reserved,
        },
        first_xid,
        moment,
        steps: texts.steps,
    })
}
