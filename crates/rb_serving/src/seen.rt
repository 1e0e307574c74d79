//! What a call asked to change, or with what it was refused: for those who tell of it. It is no part of the state,
//! and no answer depends on it.
use rb_address::{Caller, Family, Netid, Owner, Transport, Who};
use rb_arguments::{LentRpcb, Mapping, MappingProcedure, Request, RpcbProcedure};
use rb_model::Message;
use rb_proto::{Call, Context, Refusal};
use rb_rpc::ReplyStatus;
use rb_uaddr::Uaddr;
use rb_xdr::Text;

/// The most bytes of a netid's name in a call.
const LONGEST_NETID: usize = 32;

/// A procedure that changes the registry.
#[derive(Clone, Copy)]
pub enum ChangeKind {
    /// SET of any version.
    Set,
    /// UNSET of any version.
    Unset,
}

/// What a SET or an UNSET says of the rows that it is about.
#[derive(Drop)]
pub struct RowNamed {
    /// The program's number.
    pub prog: u32,
    /// The program's version.
    pub vers: u32,
    /// The netid as it was named. For a SET of version 2 it is that of its protocol, if that has one, and for an UNSET
    /// of version 2 no bytes.
    pub netid: Text<32>,
    /// The text of the address as it was given. For a SET of version 2 it is that of its port at every host, if the
    /// number is a port, and for an UNSET of version 2 no bytes.
    pub addr: Text<128>,
}

/// A SET or an UNSET, and what became of it.
#[derive(Drop)]
pub struct ChangeAsked {
    /// Which of both.
    pub asked: ChangeKind,
    /// What it is about.
    pub row: RowNamed,
    /// As whom the caller registers.
    pub owner: Owner,
    /// Who called.
    pub who: Who,
    /// Why it was refused; `None` if the rows were changed.
    pub refusal: Option<Refusal>,
}

/// A call that was refused.
#[derive(Clone, Copy)]
pub struct RefusedCall {
    /// Who called.
    pub who: Who,
    /// With what.
    pub status: ReplyStatus,
}

/// What there is to tell of a call.
#[derive(Drop)]
pub enum Seen {
    /// A SET or an UNSET, accepted or not.
    Change(ChangeAsked),
    /// A call that was refused: of another version of RPC, with a bad credential, of another program, version or
    /// procedure, or with arguments that can't be read.
    Refused(RefusedCall),
}

/// There is nothing to tell any more. If there was nothing, nothing is written: it is as long as the longest texts of a
/// call.
pub fn forget(seen: &mut Option<Seen>) {
    if seen.is_some() {
        *seen = None;
    }
}

/// Notes what there is to tell of a message, if anything; `refusal` is why it was refused, if it is a SET or an UNSET that was.
/// What is told has room for the longest texts, so it is made apart from this: of most messages there is nothing to tell.
pub fn note(
    seen: &mut Option<Seen>,
    context: &Context,
    message: &Message,
    refusal: Option<Refusal>,
) {
    match message {
        Message::NoCall => {}
        Message::Refused(head) => note_refused(seen, context, head.status),
        Message::Garbage(_) => note_refused(seen, context, ReplyStatus::GarbageArgs),
        Message::Asked(call) => {
            if let Some((asked, named)) = change_asked(&call.request) {
                note_change(seen, context, call, asked, named, refusal);
            }
        }
    }
}

#[inline(never)]
fn note_refused(seen: &mut Option<Seen>, context: &Context, status: ReplyStatus) {
    let who = who_of(&context.caller);
    *seen = Some(Seen::Refused(RefusedCall { who, status }));
}

#[inline(never)]
fn note_change(
    seen: &mut Option<Seen>,
    context: &Context,
    call: &Call,
    asked: ChangeKind,
    named: Named<'_>,
    refusal: Option<Refusal>,
) {
    *seen = Some(Seen::Change(ChangeAsked {
        asked,
        row: row_named(asked, named),
        owner: context.owner(&call.head),
        who: who_of(&context.caller),
        refusal,
    }));
}

fn who_of(caller: &Caller) -> Who {
    match caller {
        Caller::Tcp(_, who) | Caller::Udp(who, _) => *who,
    }
}

/// By what a SET or an UNSET names its rows.
#[derive(Clone, Copy)]
enum Named<'a> {
    /// In version 2.
    Mapping(&'a Mapping),
    /// In versions 3 and 4.
    Rpcb(&'a LentRpcb<'a>),
}

/// Which change a call asks for, and by what it names the rows; `None` of any other call.
fn change_asked<'a>(request: &'a Request<'a>) -> Option<(ChangeKind, Named<'a>)> {
    match request {
        Request::Mapping(MappingProcedure::Set, mapping) => {
            Some((ChangeKind::Set, Named::Mapping(mapping)))
        }
        Request::Mapping(MappingProcedure::Unset, mapping) => {
            Some((ChangeKind::Unset, Named::Mapping(mapping)))
        }
        Request::Rpcb(RpcbProcedure::Set, rpcb) => Some((ChangeKind::Set, Named::Rpcb(rpcb))),
        Request::Rpcb(RpcbProcedure::Unset, rpcb) => Some((ChangeKind::Unset, Named::Rpcb(rpcb))),
        _ => None,
    }
}

/// What a change is about.
fn row_named(asked: ChangeKind, named: Named<'_>) -> RowNamed {
    match (asked, named) {
        (ChangeKind::Set, Named::Mapping(mapping)) => of_mapping(mapping),
        (ChangeKind::Unset, Named::Mapping(mapping)) => RowNamed {
            prog: mapping.prog,
            vers: mapping.vers,
            netid: Text::new(&[]),
            addr: Text::new(&[]),
        },
        (_, Named::Rpcb(rpcb)) => of_rpcb(rpcb),
    }
}

fn of_mapping(mapping: &Mapping) -> RowNamed {
    let netid = match Transport::of_protocol(mapping.prot) {
        Some(transport) => Netid::of(transport, Family::Inet).text(),
        None => "",
    };
    let addr = match u16::try_from(mapping.port) {
        Ok(port) => Text::new(Uaddr::any(port).text().as_slice()),
        Err(_) => Text::new(&[]),
    };
    RowNamed {
        prog: mapping.prog,
        vers: mapping.vers,
        netid: Text::new(netid.as_bytes()),
        addr,
    }
}

fn of_rpcb(rpcb: &LentRpcb) -> RowNamed {
    let netid = rpcb.netid();
    let shown = LONGEST_NETID.min(netid.len());
    RowNamed {
        prog: rpcb.prog(),
        vers: rpcb.vers(),
        netid: Text::new(&netid[..shown]),
        addr: Text::new(rpcb.addr()),
    }
}
