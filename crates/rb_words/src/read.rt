//! Reads the words of a command line.
ghost use Rattle.std.specs.Prelude.{◌≡◌, ◌<◌, slice_get};
ghost use Rattle.rb_words.specs.Words.{flag_of, option_number, number_at, program_of, program_at, ends_at, source_of, source_at, host_at, show_plan, entries_plan, version_in, ping_plan, ping_plan_at_host, program_and_version, option_netid, option_address, by_netid, by_transport, without_flag, delete_plan, plan_of, is_ping, is_broadcast, broadcast_plan, may_have_netid, is_here, wanted_with, has_layout, layout_of, only_where, check_options, request_of};

use crate::number::number_in;
use crate::plan::{Layout, Listing, Plan, Request, Source, Way};
use crate::refusal::{Expected, Refusal, Spot};
use crate::services::{Service, number_of};
use crate::shape::{Flag, Shape};
use rb_address::{Netid, Transport};
use rb_uaddr::Uaddr;

/// The portmapper's port.
const PORT: u16 = 111;

fn refusal_at<T>(at: Spot, wanted: Expected) -> Result<T, Refusal>
    ensures { result ≡ Err (record { at = at; wanted = wanted }) }
{
    Err(Refusal { at, wanted })
}

/// The only flag, or none.
fn flag_of(flags: &[Flag]) -> Result<Option<Flag>, Refusal>
    ensures { result ≡ flag_of flags.now }
{
    match flags {
        [] => Ok(None),
        [flag] => Ok(Some(*flag)),
        [_, second, ..] => refusal_at(Spot::Flag(*second), Expected::OneFlag),
    }
}

/// The number that an option has.
fn option_number(
    text: Option<&str>,
    at: Spot,
    wanted: Expected,
    least: u32,
    most: u32,
) -> Result<Option<u32>, Refusal>
    ensures { result ≡ option_number text.entry at wanted least most }
{
    match text {
        None => Ok(None),
        Some(text) => match number_in(text, least, most) {
            Some(n) => Ok(Some(n)),
            None => refusal_at(at, wanted),
        },
    }
}

/// The number that a word is.
fn number_at(words: &[&str], i: usize, wanted: Expected) -> Result<u32, Refusal>
    ensures { result ≡ number_at words.now i wanted }
{
    match words.get(i) {
        None => refusal_at(Spot::End, wanted),
        Some(text) => match number_in(text, 0, u32::MAX) {
            Some(n) => Ok(n),
            None => refusal_at(Spot::Word(i), wanted),
        },
    }
}

/// The number of a program that a text is, or of the program of this name.
fn program_of(services: &[Service], text: &str) -> Option<u32>
    ensures { result ≡ program_of services.now text.now }
{
    match number_in(text, 0, u32::MAX) {
        Some(n) => Some(n),
        None => number_of(services, text.as_bytes()),
    }
}

/// The program that a word is.
fn program_at(shape: &Shape<'_, '_, '_>, i: usize) -> Result<u32, Refusal>
    ensures { result ≡ program_at shape.now i }
{
    match shape.words.get(i) {
        None => refusal_at(Spot::End, Expected::Program),
        Some(text) => match program_of(shape.services, text) {
            Some(n) => Ok(n),
            None => refusal_at(Spot::Word(i), Expected::Program),
        },
    }
}

/// No word stands at this place.
fn ends_at(words: &[&str], i: usize) -> Result<(), Refusal>
    ensures { result ≡ ends_at words.now i }
{
    match words.get(i) {
        None => Ok(()),
        Some(_) => refusal_at(Spot::Word(i), Expected::NoWord),
    }
}

/// Where the replies come from, by a word that names a host.
fn source_of(text: &str) -> Source
    ensures { result ≡ source_of text.now }
{
    if text == "-" {
        Source::Input
    } else {
        Source::Named
    }
}

/// The first word names a host, or standard input.
fn source_at(words: &[&str]) -> Result<Source, Refusal>
    ensures { result ≡ source_at words.now }
{
    match words.get(0) {
        None => refusal_at(Spot::End, Expected::Host),
        Some(text) => Ok(source_of(text)),
    }
}

/// The first word names a host.
fn host_at(words: &[&str]) -> Result<(), Refusal>
    ensures { result ≡ host_at words.now }
{
    match source_at(words)? {
        Source::Named => Ok(()),
        Source::Here | Source::Input => refusal_at(Spot::Word(0), Expected::Host),
    }
}

/// A list of the host that the first word names, or of this machine.
fn show_plan(listing: Listing, words: &[&str]) -> Result<Plan, Refusal>
    ensures { result ≡ show_plan listing words.now }
{
    ends_at(words, 1)?;
    match words.get(0) {
        None => Ok(Plan::Show(listing, Source::Here)),
        Some(text) => Ok(Plan::Show(listing, source_of(text))),
    }
}

/// HOST PROGRAM VERSION, in which HOST may be standard input.
fn entries_plan(shape: &Shape<'_, '_, '_>) -> Result<Plan, Refusal>
    ensures { result ≡ entries_plan shape.now }
{
    let source = source_at(shape.words)?;
    let prog = program_at(shape, 1)?;
    let vers = number_at(shape.words, 2, Expected::Version)?;
    ends_at(shape.words, 3)?;
    Ok(Plan::Entries(source, prog, vers))
}

/// VERSION, if it is there, and nothing after it.
fn version_in(words: &[&str], at: usize) -> Result<Option<u32>, Refusal>
    requires { at < 3 }
    ensures { result ≡ version_in words.now at (slice_get words.now at) }
{
    if words.get(at).is_none() {
        return Ok(None);
    }
    let vers = number_at(words, at, Expected::Version)?;
    ends_at(words, at + 1)?;
    Ok(Some(vers))
}

/// PROGRAM, and VERSION if it is there, from this place on.
fn ping_plan(way: Way, shape: &Shape<'_, '_, '_>, i: usize) -> Result<Plan, Refusal>
    requires { i < 2 }
    ensures { result ≡ ping_plan way shape.now i }
{
    let prog = program_at(shape, i)?;
    let vers = version_in(shape.words, i + 1)?;
    Ok(Plan::Ping(way, prog, vers))
}

/// HOST PROGRAM, and VERSION if it is there.
fn ping_plan_at_host(way: Way, shape: &Shape<'_, '_, '_>) -> Result<Plan, Refusal>
    ensures { result ≡ ping_plan_at_host way shape.now }
{
    host_at(shape.words)?;
    ping_plan(way, shape, 1)
}

/// PROGRAM VERSION.
fn program_and_version(shape: &Shape<'_, '_, '_>) -> Result<(u32, u32), Refusal>
    ensures { result ≡ program_and_version shape.now }
{
    let prog = program_at(shape, 0)?;
    let vers = number_at(shape.words, 1, Expected::Version)?;
    ends_at(shape.words, 2)?;
    Ok((prog, vers))
}

/// The netid of `-T`.
fn option_netid(text: Option<&str>) -> Result<Option<Netid>, Refusal>
    ensures { result ≡ option_netid text.entry }
{
    match text {
        None => Ok(None),
        Some(text) => match Netid::named(text.as_bytes()) {
            Some(netid) => Ok(Some(netid)),
            None => refusal_at(Spot::Netid, Expected::Netid),
        },
    }
}

/// The address of `-a`.
fn option_address(text: Option<&str>) -> Result<Option<Uaddr>, Refusal>
    ensures { result ≡ option_address text.entry }
{
    match text {
        None => Ok(None),
        Some(text) => match Uaddr::parse(text.as_bytes()) {
            Ok(address) => Ok(Some(address)),
            Err(_) => refusal_at(Spot::Address, Expected::Address),
        },
    }
}

/// The number of a port, if it is given.
fn option_port(text: Option<&str>, at: Spot) -> Result<Option<u16>, Refusal>
    ensures { result ≡ option_number text.entry at Expected.Port 1 65535 }
{
    match option_number(text, at, Expected::Port, 1, 65535)? {
        None => Ok(None),
        Some(port) => Ok(Some(port as u16)),
    }
}

/// Procedure 0 at the address of `-a`, or at that which GETADDR says.
fn by_netid(netid: Netid, shape: &Shape<'_, '_, '_>) -> Result<Plan, Refusal>
    ensures { result ≡ by_netid netid shape.now }
{
    match option_address(shape.address)? {
        None => ping_plan_at_host(Way::Getaddr(netid), shape),
        Some(address) => ping_plan(Way::Address(netid, address), shape, 0),
    }
}

/// Without a flag: a list, or with `-T` procedure 0 of a program.
fn without_flag(shape: &Shape<'_, '_, '_>) -> Result<Plan, Refusal>
    ensures { result ≡ without_flag shape.now }
{
    match option_netid(shape.netid)? {
        None => show_plan(Listing::Rows, shape.words),
        Some(Netid::Local) => refusal_at(Spot::Netid, Expected::Socket),
        Some(netid) => by_netid(netid, shape),
    }
}

/// `-t` and `-u`.
fn by_transport(transport: Transport, shape: &Shape<'_, '_, '_>) -> Result<Plan, Refusal>
    ensures { result ≡ by_transport transport shape.now }
{
    match option_port(shape.target, Spot::Target)? {
        None => ping_plan_at_host(Way::Getport(transport), shape),
        Some(port) => ping_plan_at_host(Way::Port(transport, port), shape),
    }
}

fn delete_plan(shape: &Shape<'_, '_, '_>) -> Result<Plan, Refusal>
    ensures { result ≡ delete_plan shape.now }
{
    let netid = option_netid(shape.netid)?;
    let (prog, vers) = program_and_version(shape)?;
    Ok(Plan::Delete(netid, prog, vers))
}

fn broadcast_plan(shape: &Shape<'_, '_, '_>) -> Result<Plan, Refusal>
    ensures { result ≡ broadcast_plan shape.now }
{
    let (prog, vers) = program_and_version(shape)?;
    Ok(Plan::Broadcast(prog, vers))
}

/// What the flag asks for.
fn plan_of(flag: Option<Flag>, shape: &Shape<'_, '_, '_>) -> Result<Plan, Refusal>
    ensures { result ≡ plan_of flag shape.now }
{
    match flag {
        None => without_flag(shape),
        Some(Flag::Table) => show_plan(Listing::Table, shape.words),
        Some(Flag::Short) => show_plan(Listing::Short, shape.words),
        Some(Flag::Summary) => show_plan(Listing::Summary, shape.words),
        Some(Flag::List) => entries_plan(shape),
        Some(Flag::Statistics) => show_plan(Listing::Statistics, shape.words),
        Some(Flag::Tcp) => by_transport(Transport::Tcp, shape),
        Some(Flag::Udp) => by_transport(Transport::Udp, shape),
        Some(Flag::Delete) => delete_plan(shape),
        Some(Flag::Broadcast) => broadcast_plan(shape),
    }
}

fn is_ping(flag: Option<Flag>) -> bool
    ensures { result ≡ is_ping flag }
{
    matches!(flag, Some(Flag::Tcp | Flag::Udp))
}

fn is_broadcast(flag: Option<Flag>) -> bool
    ensures { result ≡ is_broadcast flag }
{
    matches!(flag, Some(Flag::Broadcast))
}

fn may_have_netid(flag: Option<Flag>) -> bool
    ensures { result ≡ may_have_netid flag }
{
    matches!(flag, None | Some(Flag::Delete))
}

/// An option that is given is one that the form has.
fn only_where(given: bool, has: bool, at: Spot, wanted: Expected) -> Result<(), Refusal>
    ensures { result ≡ only_where given has at wanted }
{
    if given && !has {
        return refusal_at(at, wanted);
    }
    Ok(())
}

/// Each option that is given is one that the flag has.
fn check_options(flag: Option<Flag>, shape: &Shape<'_, '_, '_>) -> Result<(), Refusal>
    ensures { result ≡ check_options flag shape.now }
{
    let netid = shape.netid.is_some();
    only_where(
        shape.target.is_some(),
        is_ping(flag),
        Spot::Target,
        Expected::Ping,
    )?;
    only_where(
        netid,
        may_have_netid(flag),
        Spot::Netid,
        Expected::NoFlagOrDelete,
    )?;
    only_where(
        shape.broadcast.is_some(),
        is_broadcast(flag),
        Spot::Broadcast,
        Expected::BroadcastAlone,
    )?;
    let address = netid && flag.is_none();
    only_where(
        shape.address.is_some(),
        address,
        Spot::Address,
        Expected::NetidAlone,
    )
}

/// Returns whether the portmapper of this machine is asked.
fn is_here(plan: Plan) -> bool
    ensures { result ≡ is_here plan }
{
    match plan {
        Plan::Show(_, source) => matches!(source, Source::Here),
        Plan::Delete(..) => true,
        Plan::Entries(..) | Plan::Ping(..) | Plan::Broadcast(..) => false,
    }
}

/// What is expected if a layout stands in a form that does not have it.
fn wanted_with(layout: Layout) -> Expected
    ensures { result ≡ wanted_with layout }
{
    match layout {
        Layout::Names => Expected::List,
        Layout::Json => Expected::Objects,
    }
}

/// Returns whether a plan has this layout.
fn has_layout(plan: Plan, layout: Layout) -> bool
    ensures { result ≡ has_layout plan layout }
{
    match (plan, layout) {
        (Plan::Show(listing, _), Layout::Names) => !matches!(
            listing,
            Listing::Statistics | Listing::Summary
        ),
        (Plan::Show(listing, _), Layout::Json) => !matches!(
            listing,
            Listing::Short | Listing::Summary
        ),
        (Plan::Entries(..), _) => true,
        (Plan::Ping(..) | Plan::Delete(..) | Plan::Broadcast(..), _) => false,
    }
}

/// How what a plan shows is written. At most one layout is asked for, and one that the plan has.
fn layout_of(layouts: &[Layout], plan: Plan) -> Result<Option<Layout>, Refusal>
    ensures { result ≡ layout_of layouts.now plan }
{
    match layouts {
        [] => Ok(None),
        [layout] => {
            let layout = *layout;
            if has_layout(plan, layout) {
                Ok(Some(layout))
            } else {
                refusal_at(Spot::Layout(layout), wanted_with(layout))
            }
        }
        [_, second, ..] => refusal_at(Spot::Layout(*second), Expected::OneLayout),
    }
}

/// Returns what the words ask for, or the first of them that can't be read and what is expected there.
///
/// A number has decimal digits alone: no sign, and no other text. Ports are 1 to 65535, other numbers 0 to 4294967295.
/// A program is a number, or a name of `services`. The order in which words are looked at is that of `request_of`.
pub fn read_words(shape: &Shape<'_, '_, '_>) -> Result<Request, Refusal>
    ensures { result ≡ request_of shape.now }
{
    let flag = flag_of(shape.flags)?;
    check_options(flag, shape)?;
    let port = option_port(shape.port, Spot::Port)?.unwrap_or(PORT);
    let uid = option_number(shape.uid, Spot::Uid, Expected::Uid, 0, u32::MAX)?;
    let plan = plan_of(flag, shape)?;
    only_where(
        shape.local.is_some(),
        is_here(plan),
        Spot::Local,
        Expected::NoHost,
    )?;
    let layout = layout_of(shape.layouts, plan)?;
    Ok(Request {
        port,
        uid,
        plan,
        layout,
    })
}
