//! What is asked, and what follows of each answer.
ghost use Rattle.std.specs.Prelude.{◌≡◌};
ghost use Rattle.rb_plans.specs.Next.{transport_of, version_of, call_question, place_of, find_of, question_at, ask_at, begin, step_to, next_stage, step_to_versions, after_lack, transport_at, after_port, host_in, is_of_teller, after_address, refused_find, after_find_refusal, after_find, after_find_old, after_ready, after_refusal, after_call, next, lack_of_several, unanswered};

use crate::course::{Aim, Answer, Course, End, Place, Stage, Step};
use rb_address::{Host, Netid, Transport};
use rb_rpc::ReplyStatus;
use rb_show::{Ask, Question};
use rb_uaddr::Uaddr;
use rb_words::Way;

/// The most versions of a program that are called.
const MOST_VERSIONS: u32 = 256;

/// Returns the transport of a netid. A local socket is one of a stream, as TCP is.
pub fn transport_of(netid: Netid) -> Transport
    ensures { result ≡ transport_of netid }
{
    netid.transport().unwrap_or(Transport::Tcp)
}

fn version_of(aim: Aim) -> u32
    ensures { result ≡ version_of aim }
{
    match aim {
        Aim::Only(vers) => vers,
        Aim::Least => 0,
        Aim::Greatest => u32::MAX,
        Aim::Each { vers, .. } => vers,
    }
}

/// The call of procedure 0. A version that is called for its refusal alone is not shown.
fn call_question(prog: u32, aim: Aim) -> Question
    ensures { result ≡ call_question prog aim }
{
    match aim {
        Aim::Only(_) | Aim::Each { .. } => Question::Null(prog, version_of(aim)),
        Aim::Least | Aim::Greatest => Question::Probe(prog, version_of(aim)),
    }
}

/// The place of a program, if nothing is asked to find it.
fn place_of(way: Way) -> Option<Place>
    ensures { result ≡ place_of way }
{
    match way {
        Way::Getport(_) | Way::Getaddr(_) => None,
        Way::Port(transport, port) => Some(Place::Port(transport, port)),
        Way::Address(netid, address) => Some(Place::Address(transport_of(netid), address)),
    }
}

/// The question that finds where a version is.
fn find_of(course: &Course, aim: Aim) -> (Place, Question)
    ensures { result ≡ find_of course.now aim }
{
    let (prog, vers) = (course.prog, version_of(aim));
    match course.way {
        Way::Getport(transport) => (
            Place::Portmapper(Transport::Tcp),
            Question::Port(transport.protocol(), prog, vers),
        ),
        Way::Getaddr(netid) => (
            Place::Portmapper(transport_of(netid)),
            Question::Address(netid, prog, vers),
        ),
        Way::Port(transport, port) => (Place::Port(transport, port), call_question(prog, aim)),
        Way::Address(netid, address) => (
            Place::Address(transport_of(netid), address),
            call_question(prog, aim),
        ),
    }
}

/// What is asked at a stage, and where; nothing at the end.
fn question_at(course: &Course, stage: Stage) -> Option<(Place, Question)>
    ensures { result ≡ question_at course.now stage }
{
    match stage {
        Stage::Find(aim) => Some(find_of(course, aim)),
        Stage::FindOld(aim, transport) => {
            let question = Question::Port(transport.protocol(), course.prog, version_of(aim));
            Some((Place::Portmapper(transport), question))
        }
        Stage::Call(aim, place) => Some((place, call_question(course.prog, aim))),
        Stage::End(_) => None,
    }
}

/// Returns what is asked at a stage, by the user of the course, and where; `None` at the end.
pub fn asked(course: &Course, stage: Stage) -> Option<(Place, Ask)>
    ensures { result ≡ ask_at course.now stage }
{
    match question_at(course, stage) {
        Some((place, question)) => {
            let ask = Ask {
                question,
                uid: course.uid,
            };
            Some((place, ask))
        }
        None => None,
    }
}

/// Returns the first stage of a version: its call if the place is known, else the question where it is.
pub fn begin(course: &Course, aim: Aim) -> Stage
    ensures { result ≡ begin course.now aim }
{
    match place_of(course.way) {
        None => Stage::Find(aim),
        Some(place) => Stage::Call(aim, place),
    }
}

fn step_to(stage: Stage) -> Step
    ensures { result ≡ step_to stage }
{
    Step { lacks: None, stage }
}

fn end(end: End) -> Step
    ensures { result ≡ step_to (Stage.End end) }
{
    step_to(Stage::End(end))
}

/// The stage after a version: the next one, or the end after the last.
fn next_stage(course: &Course, vers: u32, high: u32, lacks: bool) -> Stage
    ensures { result ≡ next_stage course.now vers high lacks }
{
    if vers < high {
        return begin(
            course,
            Aim::Each {
                vers: vers + 1,
                high,
                lacks,
            },
        );
    }
    if lacks {
        Stage::End(End::SomeLack)
    } else {
        Stage::End(End::Ready)
    }
}

/// The first of the versions from low to high.
fn step_to_versions(course: &Course, low: u32, high: u32) -> Step
    ensures { result ≡ step_to_versions course.now low high }
{
    if high < low {
        return end(End::Unreadable);
    }
    if high - low >= MOST_VERSIONS {
        return end(End::TooMany);
    }
    step_to(begin(
        course,
        Aim::Each {
            vers: low,
            high,
            lacks: false,
        },
    ))
}

/// The version is not available.
fn after_lack(course: &Course, aim: Aim, why: Option<ReplyStatus>) -> Step
    ensures { result ≡ after_lack course.now aim why }
{
    match aim {
        Aim::Only(vers) => end(End::NotAvailable(vers, why)),
        Aim::Least | Aim::Greatest => end(End::NoProgram(why)),
        Aim::Each {
            vers,
            high,
            lacks: _,
        } => Step {
            lacks: Some(vers),
            stage: next_stage(course, vers, high, true),
        },
    }
}

/// The transport over which a program is called.
fn transport_at(way: Way) -> Transport
    ensures { result ≡ transport_at way }
{
    match way {
        Way::Getport(transport) | Way::Port(transport, _) => transport,
        Way::Getaddr(netid) | Way::Address(netid, _) => transport_of(netid),
    }
}

/// A port of 0, or one that no port has, says that there is none.
fn after_port(course: &Course, aim: Aim, port: u32) -> Step
    ensures { result ≡ after_port course.now aim port }
{
    match u16::try_from(port) {
        Ok(0) | Err(_) => after_lack(course, aim, None),
        Ok(port) => step_to(Stage::Call(aim, Place::Port(transport_at(course.way), port))),
    }
}

fn host_in(address: Uaddr) -> Host
    ensures { result ≡ host_in address }
{
    match address {
        Uaddr::V4(octets, _) => Host::V4(octets),
        Uaddr::V6(octets, _) => Host::V6(octets),
    }
}

/// Whether an address means the host that tells it: every one of its hosts, or itself. It may be of IPv4 in IPv6's form.
fn is_of_teller(address: Uaddr) -> bool
    ensures { result ≡ is_of_teller address }
{
    let host = host_in(address).plain();
    host.is_any() || host.is_loopback()
}

/// Such an address is a port of the host whose portmapper told it.
#[tactic(auto, unfolding(rb_uaddr::specs::Uaddr::port_of))]
fn after_address(course: &Course, aim: Aim, address: Uaddr) -> Step
    ensures { result ≡ after_address course.now aim address }
{
    if is_of_teller(address) {
        return after_port(course, aim, u32::from(address.port()));
    }
    step_to(Stage::Call(aim, Place::Address(transport_at(course.way), address)))
}

/// The portmapper refused to say where a version is: the end, or, of several, the next one.
fn refused_find(course: &Course, aim: Aim, status: ReplyStatus) -> Step
    ensures { result ≡ refused_find course.now aim status }
{
    match aim {
        Aim::Each { .. } => after_lack(course, aim, Some(status)),
        Aim::Only(_) | Aim::Least | Aim::Greatest => end(End::Refused(status)),
    }
}

/// A portmapper without GETADDR is asked by GETPORT.
fn after_find_refusal(course: &Course, aim: Aim, status: ReplyStatus) -> Step
    ensures { result ≡ after_find_refusal course.now aim status }
{
    match (course.way, status) {
        (Way::Getaddr(netid), ReplyStatus::ProgMismatch(_, _)) => step_to(Stage::FindOld(
            aim,
            transport_of(netid),
        )),
        _ => refused_find(course, aim, status),
    }
}

/// What follows the answer to the question where the version is.
fn after_find(course: &Course, aim: Aim, answer: Answer) -> Step
    ensures { result ≡ after_find course.now aim answer }
{
    match answer {
        Answer::Port(port) => after_port(course, aim, port),
        Answer::Address(Some(address)) => after_address(course, aim, address),
        Answer::Address(None) => after_lack(course, aim, None),
        Answer::Ready => end(End::Unreadable),
        Answer::Refused(status) => after_find_refusal(course, aim, status),
    }
}

/// The same, if it was asked by GETPORT in place of GETADDR.
fn after_find_old(course: &Course, aim: Aim, answer: Answer) -> Step
    ensures { result ≡ after_find_old course.now aim answer }
{
    match answer {
        Answer::Port(port) => after_port(course, aim, port),
        Answer::Address(_) | Answer::Ready => end(End::Unreadable),
        Answer::Refused(status) => refused_find(course, aim, status),
    }
}

/// What follows if procedure 0 answered.
fn after_ready(course: &Course, aim: Aim) -> Step
    ensures { result ≡ after_ready course.now aim }
{
    match aim {
        Aim::Only(_) => end(End::Ready),
        Aim::Least => step_to(begin(course, Aim::Greatest)),
        Aim::Greatest => step_to_versions(course, 0, u32::MAX),
        Aim::Each { vers, high, lacks } => step_to(next_stage(course, vers, high, lacks)),
    }
}

/// What follows if procedure 0 was refused.
fn after_refusal(course: &Course, aim: Aim, status: ReplyStatus) -> Step
    ensures { result ≡ after_refusal course.now aim status }
{
    match (aim, status) {
        (Aim::Least | Aim::Greatest, ReplyStatus::ProgMismatch(low, high)) => step_to_versions(
            course, low, high,
        ),
        _ => after_lack(course, aim, Some(status)),
    }
}

/// What follows if procedure 0 was called.
fn after_call(course: &Course, aim: Aim, answer: Answer) -> Step
    ensures { result ≡ after_call course.now aim answer }
{
    match answer {
        Answer::Ready => after_ready(course, aim),
        Answer::Refused(status) => after_refusal(course, aim, status),
        Answer::Port(_) | Answer::Address(_) => end(End::Unreadable),
    }
}

/// Returns the stage after an answer, and the version that is not available, if it is one of several.
///
/// Without a version that is named, at most 256 versions are called; a server that names more ends in `TooMany`.
pub fn next(course: &Course, stage: Stage, answer: Answer) -> Step
    ensures { result ≡ next course.now stage answer }
{
    match stage {
        Stage::Find(aim) => after_find(course, aim, answer),
        Stage::FindOld(aim, _) => after_find_old(course, aim, answer),
        Stage::Call(aim, _) => after_call(course, aim, answer),
        Stage::End(_) => step_to(stage),
    }
}

/// The next of several versions; none for any other aim.
fn lack_of_several(course: &Course, aim: Aim) -> Option<Step>
    ensures { result ≡ lack_of_several course.now aim }
{
    match aim {
        Aim::Each { .. } => Some(after_lack(course, aim, None)),
        Aim::Only(_) | Aim::Least | Aim::Greatest => None,
    }
}

/// Returns the step after a question that had no answer, or none that can be read: of several versions this one is not
/// available, and the next one follows. `None` if the course ends.
pub fn unanswered(course: &Course, stage: Stage) -> Option<Step>
    ensures { result ≡ unanswered course.now stage }
{
    match stage {
        Stage::Find(aim) | Stage::FindOld(aim, _) | Stage::Call(aim, _) => lack_of_several(
            course, aim,
        ),
        Stage::End(_) => None,
    }
}
