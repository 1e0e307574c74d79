//! Questions over sockets. No contract can say what they are answered with: what is asked, where, and what follows from
//! an answer is decided in `rb_plans`.
ghost use Rattle.std.specs.Prelude.{◌≡◌};
ghost use Rattle.rpcinfo.specs.Running.{no_notices};

use crate::hosts::{addresses_of, here};
use crate::net::{Peer, ask_datagram, ask_stream};
use rb_address::{Family, Transport};
use rb_plans::{
    Course, FIRST_XID, Fault, Invocation, Notices, Place, Stage, aim_of, asked, begin, called_at,
    course_end, fallback, falls_back, family_of, follow, is_asked, is_unanswered, none_asked,
    notices_at, show_lack,
};
use rb_show::{Ask, Form, InfoFault, Question, Shown};
use rb_words::Way;
use std::alloc::Global;
use std::io::Write;
use std::net::{Net, SocketAddr};
use std::rt::Clock;

/// The answer to what was asked, with what there is to notice.
pub type Answered = (Result<Shown, Fault>, Notices);

/// What is asked of a host.
#[derive(Clone, Copy)]
enum Errand<'a> {
    /// Its portmapper is asked this.
    Question(Question),
    /// Procedure 0 of a program is called, in the version that is named or in each that it has.
    Course(&'a Course, Option<u32>),
}

impl Errand<'_> {
    /// The family of the addresses at which it is asked; none if it is asked at each.
    fn family(&self) -> Option<Family> {
        match self {
            Errand::Question(_) => None,
            Errand::Course(course, _) => family_of(course.way),
        }
    }
}

/// More questions than a course has.
const MOST_QUESTIONS: u32 = 1024;

const SECOND_XID: u32 = 2;

/// Nothing needs to be noticed.
pub fn silently(answer: Result<Shown, Fault>) -> Answered
    ensures answer { result.0 ≡ answer }
    ensures silent { result.1 ≡ no_notices }
{
    let notices = Notices {
        answered: None,
        is_old: false,
    };
    (answer, notices)
}

/// Asks a portmapper, by version 2 if it has that alone.
fn ask_portmapper<N: Net + Clock, O: Write>(
    alloc: Global,
    net: &N,
    words: &Invocation<'_, '_>,
    peer: Peer<'_>,
    question: Question,
    output: &mut O,
) -> (Result<Shown, Fault>, bool) {
    let answer = ask_stream(
        alloc,
        net,
        peer,
        &words.ask(question),
        words.form,
        FIRST_XID,
        output,
    );
    let Err(Fault::Info(InfoFault::Refused(head))) = answer else {
        return (answer, false);
    };
    let Some(question) = fallback(question, head.status) else {
        return (answer, false);
    };
    let answer = ask_stream(
        alloc,
        net,
        peer,
        &words.ask(question),
        words.form,
        SECOND_XID,
        output,
    );
    (answer, true)
}

/// Asks the portmapper of this machine: over the socket that the words name; at 127.0.0.1 if they name none, or if
/// nobody is at the one path at which rpcbinds listen.
pub fn ask_here<N: Net + Clock, O: Write>(
    alloc: Global,
    net: &N,
    words: &Invocation<'_, '_>,
    question: Question,
    output: &mut O,
) -> Answered {
    if let Some(path) = words.local {
        let peer = Peer::Here(path);
        let (answer, is_old) = ask_portmapper(alloc, net, words, peer, question, output);
        if !falls_back(path, answer) {
            let notices = Notices {
                answered: None,
                is_old,
            };
            return (answer, notices);
        }
    }
    let peer = Peer::Host(here(words.request.port));
    let (answer, is_old) = ask_portmapper(alloc, net, words, peer, question, output);
    let notices = Notices {
        answered: None,
        is_old,
    };
    (answer, notices)
}

fn ask_at<N: Net + Clock, O: Write>(
    alloc: Global,
    net: &N,
    place: Place,
    portmapper: SocketAddr,
    ask: &Ask,
    xid: u32,
    output: &mut O,
) -> Result<Shown, Fault> {
    match called_at(place, portmapper) {
        (Transport::Tcp, address) => {
            ask_stream(
                alloc,
                net,
                Peer::Host(address),
                ask,
                Form::Plain,
                xid,
                output,
            )
        }
        (Transport::Udp, address) => ask_datagram(
            alloc,
            net,
            address,
            ask,
            Form::Plain,
            xid,
            output,
        ),
    }
}

/// Calls procedure 0 of a program on a host, in the version that is named or in each that it has. It is noted if the
/// portmapper was asked by version 2 in place of 3.
fn run_course<N: Net + Clock, O: Write>(
    alloc: Global,
    net: &N,
    portmapper: SocketAddr,
    course: &Course,
    vers: Option<u32>,
    is_old: &mut bool,
    output: &mut O,
) -> Result<Shown, Fault> {
    let mut stage = begin(course, aim_of(vers));
    for xid in FIRST_XID..MOST_QUESTIONS {
        let Some((place, ask)) = asked(course, stage) else {
            break;
        };
        if matches!(stage, Stage::FindOld(..)) {
            *is_old = true;
        }
        let reply = ask_at(alloc, net, place, portmapper, &ask, xid, output);
        let step = follow(course, stage, reply)?;
        if let Some(vers) = step.lacks {
            if show_lack(course.prog, vers, output).is_err() {
                return Err(Fault::Info(InfoFault::Write));
            }
        }
        stage = step.stage;
    }
    course_end(course.prog, FIRST_XID, stage)
}

/// Does an errand at one address of a host, and says whether the portmapper was asked by version 2 in place of 3.
fn run_errand<N: Net + Clock, O: Write>(
    alloc: Global,
    net: &N,
    words: &Invocation<'_, '_>,
    errand: Errand<'_>,
    address: SocketAddr,
    output: &mut O,
) -> (Result<Shown, Fault>, bool) {
    match errand {
        Errand::Question(question) => {
            ask_portmapper(alloc, net, words, Peer::Host(address), question, output)
        }
        Errand::Course(course, vers) => {
            let mut is_old = false;
            let answer = run_course(alloc, net, address, course, vers, &mut is_old, output);
            (answer, is_old)
        }
    }
}

/// Does an errand on the host that the words name, at each of its addresses until one answers.
fn ask_each<N: Net + Clock, O: Write>(
    alloc: Global,
    net: &N,
    words: &Invocation<'_, '_>,
    errand: Errand<'_>,
    output: &mut O,
) -> Answered {
    let addresses = match addresses_of(alloc, net, words.host, words.request.port) {
        Ok(addresses) => addresses,
        Err(fault) => return silently(Err(fault)),
    };
    let family = errand.family();
    let mut last = silently(Err(none_asked(family, addresses.len())));
    for address in &addresses {
        if !is_asked(family, *address) {
            continue;
        }
        let (answer, is_old) = run_errand(alloc, net, words, errand, *address, output);
        let notices = notices_at(address.ip(), addresses.len(), answer, is_old);
        last = (answer, notices);
        if !is_unanswered(answer) {
            break;
        }
    }
    last
}

/// Asks the portmapper of the host that the words name.
pub fn ask_named<N: Net + Clock, O: Write>(
    alloc: Global,
    net: &N,
    words: &Invocation<'_, '_>,
    question: Question,
    output: &mut O,
) -> Answered {
    ask_each(alloc, net, words, Errand::Question(question), output)
}

/// Calls procedure 0 of a program.
pub fn ping<N: Net + Clock, O: Write>(
    alloc: Global,
    net: &N,
    words: &Invocation<'_, '_>,
    way: Way,
    prog: u32,
    vers: Option<u32>,
    output: &mut O,
) -> Answered {
    let course = Course {
        way,
        prog,
        uid: words.request.uid,
    };
    let errand = Errand::Course(&course, vers);
    match way {
        Way::Address(..) => {
            let portmapper = here(words.request.port);
            let (answer, _) = run_errand(alloc, net, words, errand, portmapper, output);
            silently(answer)
        }
        Way::Getport(_) | Way::Getaddr(_) | Way::Port(..) => {
            ask_each(alloc, net, words, errand, output)
        }
    }
}
