//! What the values of the options of `serve` mean.
ghost use Rattle.std.specs.Prelude.{◌≡◌, OnOk, ◌<◌};
ghost use Rattle.std.specs.List.{list_all};
ghost use Rattle.rb_commands.specs.Options.{value_of};
ghost use Rattle.rb_commands.specs.Wanted.{texts_of};
ghost use Rattle.rb_commands.specs.Serving.{host_at, hosts_from, network_at, networks_from, is_octal, read_mode, local_of, rate_number, rate_of, udp_rate, terms_of, record_limit, recorded_of, keep_of, log_of, settings_of, serve_of};

use crate::options::{
    Valued, number, read_announced, read_forward_for, read_host, read_limits, read_local,
    read_port, read_reserved, read_udp_lists,
};
use crate::wanted::texts_of;
use rb_address::{Host, Network, cut, number_below};
use rb_answers::Terms;
use rb_policy::{ANY, Rate};
use rb_settings::{Few, LocalSocket, Logged, MOST, Settings};

/// The values of the options of `serve`, as texts.
#[derive(Clone, Copy)]
pub struct ServeTexts<'m, 'a> {
    /// At most one host of each family: an IPv4 address in dotted decimal form without leading zeros, and an IPv6 address
    /// without brackets.
    pub announce: &'m [&'a str],
    /// At most 16 such addresses of both families.
    pub bind: &'m [&'a str],
    /// At most 16 networks, as 192.0.2.0/24 or 2001:db8::/32.
    pub from: &'m [&'a str],
    /// Whether `--loopback6` is given.
    pub loopback6: bool,
    /// A path of 1 to 107 bytes, without control characters and quotes.
    pub local: Option<&'a str>,
    /// The bits for owner, group and others, in octal digits.
    pub local_mode: &'a str,
    /// Whether `--believe-claims` is given.
    pub believe_claims: bool,
    /// From 1 to 65535.
    pub port: &'a str,
    /// A number of 64 bits, as the next three; which of them are good limits is for the core.
    pub conns: &'a str,
    /// The most rows.
    pub rows: &'a str,
    /// The most forwarded calls at a time.
    pub forwards: &'a str,
    /// `all` or `local`.
    pub udp_lists: &'a str,
    /// `all` or `local`.
    pub forward_for: &'a str,
    /// At most 64 reservations, as 100003=0 or 100003-100005=0.
    pub reserve: &'m [&'a str],
    /// One or two numbers from 1 to 1,000, with a comma between them.
    pub udp_rate: Option<&'a str>,
    /// Any path.
    pub record_path: Option<&'a str>,
    /// From 1,000 to 16,777,216 bytes.
    pub record_limit: &'a str,
    /// A path of at least one byte.
    pub keep: Option<&'a str>,
    /// Whether `--keep-check` is given.
    pub keep_check: bool,
    /// `changes` or `all`.
    pub log: Option<&'a str>,
    /// After how many turns it ends, a number of 64 bits.
    pub turns: &'a str,
}

/// What `serve` is asked for.
#[derive(Drop)]
pub struct Serve<'a> {
    /// What the daemon is started with.
    pub settings: Settings<'a>,
    /// Where the file of its record is made, if there is one.
    pub record_path: Option<&'a str>,
    /// Whether kept rows of this host are left out at whose port nobody answers.
    pub keep_check: bool,
    /// After how many turns it ends; 0 never ends.
    pub turns: u64,
}

/// The text that stands for the value of an option of `serve` that is not given, as it stands in the help. If nothing
/// stands for it, the empty text, which no reader of a value takes.
pub fn serve_default(option: Valued) -> &'static str
    ensures { result.now ≡ (texts_of option).default }
{
    texts_of(option).default
}

/// The host of `--bind` at a place.
fn host_at(place: usize, text: &str) -> Result<Host, Valued>
    ensures host { result ≡ host_at place text.now }
    ensures room { OnOk result (place < MOST) }
{
    if place < MOST {
        read_host(Valued::Bind(place), text)
    } else {
        Err(Valued::Bind(place))
    }
}

/// The hosts of `--bind`.
fn read_hosts(texts: &[&str]) -> Result<Few<Host>, Valued>
    ensures { result ≡ hosts_from 0 texts.now }
{
    let mut hosts = Few::new(Host::V4(ANY));
    for text in texts {
        let host = host_at(hosts.len(), text)?;
        hosts.push(host);
    }
    Ok(hosts)
}

/// The network of `--from` at a place.
fn network_at(place: usize, text: &str) -> Result<Network, Valued>
    ensures network { result ≡ network_at place text.now }
    ensures room { OnOk result (place < MOST) }
{
    if place < MOST {
        Network::read(text.as_bytes()).ok_or(Valued::From(place))
    } else {
        Err(Valued::From(place))
    }
}

/// The network of 0.0.0.0 alone.
#[tactic(auto, using(crate::proofs::Binds::is_network))]
fn blank_network() -> Network {
    match Network::new(Host::V4(ANY), 32) {
        Ok(network) => network,
        Err(_) => unreachable!(),
    }
}

/// The networks of `--from`.
fn read_networks(texts: &[&str]) -> Result<Few<Network>, Valued>
    ensures { result ≡ networks_from 0 texts.now }
{
    let mut networks = Few::new(blank_network());
    for text in texts {
        let network = network_at(networks.len(), text)?;
        networks.push(network);
    }
    Ok(networks)
}

fn is_octal(text: &str) -> bool
    ensures { result ≡ list_all is_octal text.now }
{
    text.bytes().all(|b| char::from(b).is_digit(8))
}

/// The bits of a mode for owner, group and others, in octal digits alone.
fn read_mode(text: &str) -> Result<u32, Valued>
    ensures { result ≡ value_of Valued.LocalMode (read_mode text.now) }
{
    if !is_octal(text) {
        return Err(Valued::LocalMode);
    }
    match u32::from_str_radix(text, 8) {
        Ok(mode) => {
            if mode <= 0o777 {
                Ok(mode)
            } else {
                Err(Valued::LocalMode)
            }
        }
        Err(_) => Err(Valued::LocalMode),
    }
}

/// The local socket of this path, if there is one, with this mode.
fn read_local_socket<'a>(
    path: Option<&'a str>,
    mode: &str,
) -> Result<Option<LocalSocket<'a>>, Valued>
    ensures { result ≡ local_of path.entry mode.now }
{
    let path = read_local(path)?;
    let mode = read_mode(mode)?;
    match path {
        Some(path) => Ok(Some(LocalSocket { path, mode })),
        None => Ok(None),
    }
}

/// A number of datagrams in a second.
#[tactic(auto, unfolding(rb_address::specs::Reading::number_below))]
fn read_rate_number(text: &[u8]) -> Result<u32, Valued>
    ensures { result ≡ value_of Valued.UdpRate (rate_number text.now) }
{
    let Some(number) = number_below(text) else {
        return Err(Valued::UdpRate);
    };
    if 1 <= number && number <= 1_000 {
        Ok(number as u32)
    } else {
        Err(Valued::UdpRate)
    }
}

/// How many of one network and of one host: as many of one host as of its network if there is only one number.
fn read_rate(text: &str) -> Result<Rate, Valued>
    ensures { result ≡ rate_of text.now }
{
    let text = text.as_bytes();
    match cut(text, b',') {
        Some((network, host)) => Ok(Rate {
            network: read_rate_number(network)?,
            host: read_rate_number(host)?,
        }),
        None => {
            let most = read_rate_number(text)?;
            Ok(Rate {
                network: most,
                host: most,
            })
        }
    }
}

/// The same, if it is given.
fn read_udp_rate(text: Option<&str>) -> Result<Option<Rate>, Valued>
    ensures { result ≡ udp_rate text.entry }
{
    match text {
        Some(text) => Ok(Some(read_rate(text)?)),
        None => Ok(None),
    }
}

/// The terms.
fn read_terms(udp_lists: &str, forward_for: &str) -> Result<Terms, Valued>
    ensures { result ≡ terms_of udp_lists.now forward_for.now }
{
    let long_replies = read_udp_lists(udp_lists)?;
    let forwarding = read_forward_for(forward_for)?;
    Ok(Terms {
        long_replies,
        forwarding,
    })
}

/// The most bytes of a record.
#[tactic(auto, unfolding(rb_address::specs::Reading::number_below))]
fn read_record_limit(text: &str) -> Result<usize, Valued>
    ensures { result ≡ value_of Valued.RecordLimit (record_limit text.now) }
{
    let limit = number(Valued::RecordLimit, text)?;
    if 1_000 <= limit && limit <= 16_777_216 {
        Ok(limit as usize)
    } else {
        Err(Valued::RecordLimit)
    }
}

/// The most bytes of the record of this path; 0 if there is none, which records nothing.
fn read_recorded(path: Option<&str>, limit: &str) -> Result<usize, Valued>
    ensures { result ≡ recorded_of path.entry limit.now }
{
    let limit = read_record_limit(limit)?;
    match path {
        Some(_) => Ok(limit),
        None => Ok(0),
    }
}

/// The path of the file that keeps rows, if there is one. One of no bytes is no path.
fn read_keep<'a>(text: Option<&'a str>) -> Result<Option<&'a str>, Valued>
    ensures { result ≡ keep_of text.entry }
{
    match text {
        Some(path) if path.is_empty() => Err(Valued::Keep),
        other => Ok(other),
    }
}

/// What there are lines of in the log.
fn read_log(text: Option<&str>) -> Result<Logged, Valued>
    ensures { result ≡ log_of text.entry }
{
    match text {
        None => Ok(Logged::Nothing),
        Some("changes") => Ok(Logged::Changes),
        Some("all") => Ok(Logged::All),
        Some(_) => Err(Valued::Log),
    }
}

/// What the daemon is started with, with this limit of open files, or the first option whose value can't be read, in
/// the order of the fields of `ServeTexts`.
fn read_settings<'a>(texts: &ServeTexts<'_, 'a>, open_files: u64) -> Result<Settings<'a>, Valued>
    ensures { result ≡ settings_of open_files texts.now }
{
    let announce = read_announced(texts.announce)?;
    let bind = read_hosts(texts.bind)?;
    let from = read_networks(texts.from)?;
    let local = read_local_socket(texts.local, texts.local_mode)?;
    let port = read_port(texts.port)?;
    let limits = read_limits(texts.conns, texts.rows, texts.forwards)?;
    let terms = read_terms(texts.udp_lists, texts.forward_for)?;
    let udp_rate = read_udp_rate(texts.udp_rate)?;
    let record_limit = read_recorded(texts.record_path, texts.record_limit)?;
    let keep = read_keep(texts.keep)?;
    let log = read_log(texts.log)?;
    let reserve = read_reserved(texts.reserve)?;
    Ok(Settings {
        bind,
        from,
        loopback6: texts.loopback6,
        local,
        believe_claims: texts.believe_claims,
        announce,
        port,
        limits,
        terms,
        reserve,
        udp_rate,
        record_limit,
        keep,
        log,
        open_files,
    })
}

/// What `serve` is asked for, with this limit of open files, or the first option whose value can't be read, in the order
/// of the fields of `ServeTexts`.
pub fn read_serve<'a>(texts: &ServeTexts<'_, 'a>, open_files: u64) -> Result<Serve<'a>, Valued>
    ensures { result ≡ serve_of open_files texts.now }
{
    let settings = read_settings(texts, open_files)?;
    let turns = number(Valued::Turns, texts.turns)?;
    Ok(Serve {
        settings,
        record_path: texts.record_path,
        keep_check: texts.keep_check,
        turns,
    })
}
