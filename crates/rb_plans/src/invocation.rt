//! The words of a command line, read.
ghost use Rattle.std.specs.Prelude.{◌≡◌, ◌≢◌, true, [], IfErr, IfOk, OnOk};
ghost use Rattle.rb_words.specs.Refusals.{refusal_lines};
ghost use Rattle.rb_plans.specs.Ending.{Says};
ghost use Rattle.rb_plans.specs.Invocations.{ask_of, first_word, form_of, has_names, is_program, wants_names, is_at_host, is_named, names_host, AreOf, IsNetworkOf, ReadsShape};

use crate::ending::{Ending, UNREADABLE};
use rb_show::{Ask, Form, Question};
use rb_words::{
    Expected, Layout, Listing, Plan, Refusal, Request, Service, Shape, Source, Spot, Way,
    read_words, write_refusal,
};
use std::io::Write;
use std::net::Ipv4Addr;

/// The words of a command line, read.
#[derive(Clone, Copy)]
pub struct Invocation<'a, 'n> {
    /// What they ask for.
    pub request: Request,
    /// The first word that belongs to no option, or nothing.
    pub host: &'a str,
    /// The path of `--local`.
    pub local: Option<&'a str>,
    /// Where a broadcast goes, in place of the networks of this machine.
    pub network: Option<Ipv4Addr>,
    /// How a list is written.
    pub form: Form<'n>,
}

impl Invocation<'_, '_> {
    /// A question of the user that the words name.
    pub fn ask(&self, question: Question) -> Ask
        ensures { result ≡ ask_of self.now question }
    {
        Ask {
            question,
            uid: self.request.uid,
        }
    }
}

/// How a list is written, with these names of programs. A summary always has names.
fn form_of<'a>(request: &Request, services: &'a [Service]) -> Form<'a>
    ensures { result ≡ form_of request.now services.entry }
{
    match (request.plan, request.layout) {
        (Plan::Show(Listing::Summary, _), _) | (_, Some(Layout::Names)) => Form::Named(services),
        (_, Some(Layout::Json)) => Form::Json,
        (_, None) => Form::Plain,
    }
}

/// Whether names of programs are shown in this form.
fn has_names(form: Form<'_>) -> bool
    ensures { result ≡ has_names form.entry }
{
    matches!(form, Form::Named(_))
}

fn is_program(wanted: Expected) -> bool
    ensures { result ≡ is_program wanted }
{
    matches!(wanted, Expected::Program)
}

/// Returns whether words want names of programs, by their shape without any: names are shown, or a word that is no number
/// stands for a program.
pub fn wants_names(shape: &Shape<'_, '_, '_>) -> bool
    ensures { result ≡ wants_names shape.now }
{
    match read_words(shape) {
        Ok(request) => has_names(form_of(&request, shape.services)),
        Err(refusal) => is_program(refusal.wanted),
    }
}

/// Says that the words can't be read, and why.
fn refuse<E: Write>(shape: &Shape<'_, '_, '_>, refusal: Refusal, faults: &mut E) -> Ending
    ensures status { result.status ≡ 2 }
    ensures said { Says E.contents faults.old faults.new result (refusal_lines shape.now refusal) }
{
    let is_told = write_refusal(shape, refusal, faults).is_ok();
    Ending {
        status: UNREADABLE,
        is_told,
    }
}

/// What the words ask for by their shape. What can't be read is named.
fn read_shape<E: Write>(shape: &Shape<'_, '_, '_>, faults: &mut E) -> Result<Request, Ending>
    ensures read { OnOk result (faults.new ≡ faults.old) }
    ensures exact { ReadsShape E.contents shape.now faults.old faults.new result }
    ensures refused { IfErr result (λ ending. ending.status ≡ 2) }
{
    match read_words(shape) {
        Ok(request) => Ok(request),
        Err(refusal) => Err(refuse(shape, refusal, faults)),
    }
}

/// The address of `--broadcast`, if it is given.
fn read_network<E: Write>(
    shape: &Shape<'_, '_, '_>,
    faults: &mut E,
) -> Result<Option<Ipv4Addr>, Ending>
    ensures value { IfOk result (IsNetworkOf shape.now.broadcast) }
    ensures read { OnOk result (faults.new ≡ faults.old) }
    ensures refused { IfErr result (λ ending. ending.status ≡ 2) }
{
    let Some(text) = shape.broadcast else {
        return Ok(None);
    };
    match text.parse::<Ipv4Addr>() {
        Ok(address) => Ok(Some(address)),
        Err(_) => {
            let refusal = Refusal {
                at: Spot::Broadcast,
                wanted: Expected::Broadcast,
            };
            Err(refuse(shape, refusal, faults))
        }
    }
}

/// Whether replies come from the host that the first word names.
fn is_named(source: Source) -> bool
    ensures { result ≡ is_named source }
{
    match source {
        Source::Named => true,
        Source::Here | Source::Input => false,
    }
}

/// Whether a program is called at that host.
fn is_at_host(way: Way) -> bool
    ensures { result ≡ is_at_host way }
{
    match way {
        Way::Getport(_) | Way::Getaddr(_) | Way::Port(..) => true,
        Way::Address(..) => false,
    }
}

/// Whether the host that the first word names is asked.
fn names_host(plan: Plan) -> bool
    ensures { result ≡ names_host plan }
{
    match plan {
        Plan::Show(_, source) | Plan::Entries(source, _, _) => is_named(source),
        Plan::Ping(way, _, _) => is_at_host(way),
        Plan::Delete(..) | Plan::Broadcast(..) => false,
    }
}

/// The first word, which names the host that is asked: it may be empty only if none is.
fn read_host<'a, E: Write>(
    shape: &Shape<'_, 'a, '_>,
    plan: Plan,
    faults: &mut E,
) -> Result<&'a str, Ending>
    ensures value { IfOk result (λ host. host.now ≡ first_word shape.now) }
    ensures named { IfOk result (λ host. names_host plan ≡ true → host.now ≢ []) }
    ensures read { OnOk result (faults.new ≡ faults.old) }
    ensures refused { IfErr result (λ ending. ending.status ≡ 2) }
{
    let host = shape.words.first().copied().unwrap_or("");
    if names_host(plan) && host.is_empty() {
        let refusal = Refusal {
            at: Spot::Word(0),
            wanted: Expected::Host,
        };
        return Err(refuse(shape, refusal, faults));
    }
    Ok(host)
}

/// The words of a command line by their shape. What can't be read is named, and then the `Err` says how the command ended.
pub fn read_invocation<'a, 'n, E: Write>(
    shape: &Shape<'_, 'a, 'n>,
    faults: &mut E,
) -> Result<Invocation<'a, 'n>, Ending>
    ensures exact { IfOk result (AreOf shape.now) }
    ensures read { OnOk result (faults.new ≡ faults.old) }
    ensures refused { IfErr result (λ ending. ending.status ≡ 2) }
{
    let request = read_shape(shape, faults)?;
    let host = read_host(shape, request.plan, faults)?;
    let network = read_network(shape, faults)?;
    Ok(Invocation {
        request,
        host,
        local: shape.local,
        network,
        form: form_of(&request, shape.services),
    })
}
