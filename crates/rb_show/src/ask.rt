//! What a portmapper is asked, and the call that asks it.
ghost use Rattle.std.specs.Prelude.{◌≡◌, ◌⊎◌, OnOk, IfOk, IfErr};
ghost use Rattle.rb_xdr.specs.Puts.{Appends as Adds};
ghost use Rattle.rb_show.specs.Asks.{of_portmapper, procedure_of, head_of, call_of, arguments_of, netid_text_of, rpcb_arguments, marked_call, Writes};

use crate::fault::InfoFault;
use rb_address::Netid;
use rb_arguments::{Mapping, MappingProcedure, Procedure, Rpcb, RpcbProcedure, VoidProcedure};
use rb_rpc::{CallHead, Credential, fragment_header, put_call};
use rb_xdr::{Full, Kept, Meter, Text, Xdr};
use std::alloc::Global;
use std::io::Write;

/// Program 100000, the portmapper.
const PORTMAPPER: u32 = 100_000;

/// The number of CALLIT in version 2.
const CALLIT: u32 = 5;

/// Procedure 0 of any program.
const NULL: u32 = 0;

/// The count of arguments that are none.
const NO_BYTES: u32 = 0;

/// More bytes than any call has.
const LONGEST_QUESTION: usize = 1024;

/// A question, to the portmapper or to procedure 0 of a program.
#[derive(Clone, Copy)]
pub enum Question {
    /// DUMP of version 3, shown with addresses and owners.
    Rows,
    /// The same, shown without them.
    Short,
    /// DUMP of version 2, shown as the rows of version 3 are.
    OldRows,
    /// The same, shown without addresses and owners.
    OldShort,
    /// DUMP of version 3, shown as a line for each program.
    Summary,
    /// DUMP of version 2, shown in the same way.
    OldSummary,
    /// DUMP of version 2, shown as a table.
    Pmap,
    /// GETADDRLIST of a program and a version.
    Entries(u32, u32),
    /// GETSTAT of version 4.
    Stats,
    /// GETPORT of version 2, of a protocol, a program and a version.
    Port(u32, u32, u32),
    /// GETADDR of version 3, of a netid, a program and a version.
    Address(Netid, u32, u32),
    /// Procedure 0 of a program and a version.
    Null(u32, u32),
    /// The same, of which nothing is shown.
    Probe(u32, u32),
    /// CALLIT of version 2 (RFC 1833 section 3.2), of procedure 0 of a program and a version, without arguments.
    Callit(u32, u32),
    /// UNSET of version 4, of a program and a version on this netid, or on all.
    Unset(Option<Netid>, u32, u32),
}

/// A question, and the user who asks.
#[derive(Clone, Copy)]
pub struct Ask {
    /// The question.
    pub question: Question,
    /// The user id of an AUTH_SYS credential; AUTH_NONE without one.
    pub uid: Option<u32>,
}

/// Program, version and number of a procedure of the portmapper.
fn of_portmapper(vers: u32, procedure: Procedure) -> (u32, u32, u32)
    ensures { result ≡ of_portmapper vers procedure }
{
    (PORTMAPPER, vers, procedure.number(vers).unwrap_or(0))
}

/// Program, version and number of the procedure that a question asks.
fn procedure_of(question: Question) -> (u32, u32, u32)
    ensures { result ≡ procedure_of question }
{
    match question {
        Question::Rows | Question::Short | Question::Summary => of_portmapper(
            3,
            Procedure::Void(VoidProcedure::Dump),
        ),
        Question::OldRows | Question::OldShort | Question::OldSummary | Question::Pmap =>
            of_portmapper(2, Procedure::Void(VoidProcedure::PmapDump)),
        Question::Entries(_, _) => of_portmapper(4, Procedure::Rpcb(RpcbProcedure::Getaddrlist)),
        Question::Stats => of_portmapper(4, Procedure::Void(VoidProcedure::Getstat)),
        Question::Port(_, _, _) => of_portmapper(2, Procedure::Mapping(MappingProcedure::Getport)),
        Question::Address(_, _, _) => of_portmapper(3, Procedure::Rpcb(RpcbProcedure::Getaddr)),
        Question::Null(prog, vers) | Question::Probe(prog, vers) => (prog, vers, 0),
        Question::Callit(_, _) => (PORTMAPPER, 2, CALLIT),
        Question::Unset(_, _, _) => of_portmapper(4, Procedure::Rpcb(RpcbProcedure::Unset)),
    }
}

impl Ask {
    fn head(&self, xid: u32) -> CallHead
        ensures { result ≡ head_of self.now xid }
    {
        let (prog, vers, proc) = procedure_of(self.question);
        let cred = match self.uid {
            Some(uid) => Credential::Sys(uid),
            None => Credential::None,
        };
        CallHead {
            xid,
            prog,
            vers,
            proc,
            cred,
        }
    }
}

/// The text of a netid, empty for every one.
fn netid_text(netid: Option<Netid>) -> &'static [u8]
    ensures { result.now ≡ netid_text_of netid }
{
    match netid {
        Some(netid) => netid.text().as_bytes(),
        None => b"",
    }
}

/// Puts a program's version on a netid, or on every one.
fn put_rpcb(
    netid: Option<Netid>,
    prog: u32,
    vers: u32,
    out: &mut Kept,
    meter: &mut Meter,
) -> Result<(), Full>
    requires { meter.old.tie ≡ out.old.tie }
    ensures ok { OnOk result (Adds (rpcb_arguments netid prog vers) out.old out.new) }
    ensures tie { OnOk result (meter.new.tie ≡ out.new.tie) }
{
    let nothing: &[u8] = &[];
    let rpcb = Rpcb {
        prog,
        vers,
        netid: Text::new(netid_text(netid)),
        addr: Text::new(nothing),
        owner: Text::new(nothing),
    };
    rpcb.put(out, meter)
}

/// Puts the arguments of a question, if there is room.
fn put_arguments(question: Question, out: &mut Kept, meter: &mut Meter) -> Result<(), Full>
    requires { meter.old.tie ≡ out.old.tie }
    ensures ok { OnOk result (Adds (arguments_of question) out.old out.new) }
    ensures tie { OnOk result (meter.new.tie ≡ out.new.tie) }
{
    match question {
        Question::Entries(prog, vers) => put_rpcb(None, prog, vers, out, meter),
        Question::Address(netid, prog, vers) => put_rpcb(Some(netid), prog, vers, out, meter),
        Question::Unset(netid, prog, vers) => put_rpcb(netid, prog, vers, out, meter),
        Question::Callit(prog, vers) => ((prog, vers), (NULL, NO_BYTES)).put(out, meter),
        Question::Port(prot, prog, vers) => {
            let mapping = Mapping {
                prog,
                vers,
                prot,
                port: 0,
            };
            mapping.put(out, meter)
        }
        Question::Rows
        | Question::Short
        | Question::OldRows
        | Question::OldShort
        | Question::Summary
        | Question::OldSummary
        | Question::Pmap
        | Question::Stats
        | Question::Null(..)
        | Question::Probe(..) => Ok(()),
    }
}

/// Puts a call, if there is room.
#[tactic(auto, unfolding(crate::specs::Asks::call_of))]
fn put_ask(ask: &Ask, xid: u32, out: &mut Kept, meter: &mut Meter) -> Result<(), Full>
    requires { meter.old.tie ≡ out.old.tie }
    ensures ok { OnOk result (Adds (call_of ask.now xid) out.old out.new) }
    ensures tie { OnOk result (meter.new.tie ≡ out.new.tie) }
{
    put_call(&ask.head(xid), out, meter)?;
    put_arguments(ask.question, out, meter)
}

/// The call that asks, in memory.
fn call_in_memory(alloc: Global, ask: &Ask, xid: u32, meter: &mut Meter) -> Result<Kept, InfoFault>
    ensures call { IfOk result (λ call. call.bytes ≡ call_of ask.now xid) }
    ensures cap { IfOk result (λ call. call.cap ≡ 1024) }
    ensures tie { IfOk result (λ call. meter.new.tie ≡ call.tie) }
    ensures faults { IfErr result (λ fault. fault ≡ InfoFault.Memory) }
{
    let Ok(mut call) = Kept::new(alloc, LONGEST_QUESTION, meter) else {
        return Err(InfoFault::Memory);
    };
    // there is room for every call
    if put_ask(ask, xid, &mut call, meter).is_err() {
        return Err(InfoFault::Memory);
    }
    Ok(call)
}

/// Writes the call that asks, as a datagram has it, and nothing else. The only faults are `Memory` if an allocation is
/// refused, and `Write` if the writer fails.
pub fn write_call<W: Write>(
    alloc: Global,
    ask: &Ask,
    xid: u32,
    writer: &mut W,
) -> Result<(), InfoFault>
    ensures ok { OnOk result (Writes W.contents writer.old writer.new (call_of ask.now xid)) }
    ensures faults { IfErr result (λ fault. (fault ≡ InfoFault.Memory) ⊎ (fault ≡ InfoFault.Write)) }
{
    let mut meter = Meter::new();
    let call = call_in_memory(alloc, ask, xid, &mut meter)?;
    let len = call.len(&mut meter);
    if writer.write_all(call.lend(0..len, &mut meter)).is_err() {
        return Err(InfoFault::Write);
    }
    Ok(())
}

/// Writes the same as a stream has it: marked, in one fragment (RFC 5531 section 11).
pub fn write_marked_call<W: Write>(
    alloc: Global,
    ask: &Ask,
    xid: u32,
    writer: &mut W,
) -> Result<(), InfoFault>
    ensures ok { OnOk result (Writes W.contents writer.old writer.new (marked_call ask.now xid)) }
    ensures faults { IfErr result (λ fault. (fault ≡ InfoFault.Memory) ⊎ (fault ≡ InfoFault.Write)) }
{
    let mut meter = Meter::new();
    let call = call_in_memory(alloc, ask, xid, &mut meter)?;
    let len = call.len(&mut meter);
    let header = fragment_header(len, true);
    let bytes = call.lend(0..len, &mut meter);
    if writer.write_all(&header).is_err() || writer.write_all(bytes).is_err() {
        return Err(InfoFault::Write);
    }
    Ok(())
}
