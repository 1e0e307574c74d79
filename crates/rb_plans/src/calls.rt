//! Calls as they are sent.
ghost use Rattle.std.specs.Prelude.{◌≡◌, IfErr, IfOk};
ghost use Rattle.rb_show.specs.Asks.{call_of, marked_call};
ghost use Rattle.rb_plans.specs.Errors.{IsWantOfMemory};

use crate::fault::Fault;
use rb_show::{Ask, InfoFault, write_call, write_marked_call};
use std::alloc::Global;

/// Why a call is not made: whatever a buffer in memory does not take, memory was refused for.
fn unmade(_fault: InfoFault) -> Fault
    ensures { IsWantOfMemory result }
{
    Fault::Info(InfoFault::Memory)
}

/// Returns the call that asks, as a datagram has it. The only fault is `Memory`, when an allocation is refused.
pub fn call_of(alloc: Global, ask: &Ask, xid: u32) -> Result<Vec<u8>, Fault>
    ensures call { IfOk result (λ call. call.items ≡ call_of ask.now xid) }
    ensures faults { IfErr result IsWantOfMemory }
{
    let mut call = Vec::new(alloc);
    match write_call(alloc, ask, xid, &mut call) {
        Ok(()) => Ok(call),
        Err(fault) => Err(unmade(fault)),
    }
}

/// Returns the same as a stream has it, marked.
pub fn marked_call_of(alloc: Global, ask: &Ask, xid: u32) -> Result<Vec<u8>, Fault>
    ensures call { IfOk result (λ call. call.items ≡ marked_call ask.now xid) }
    ensures faults { IfErr result IsWantOfMemory }
{
    let mut call = Vec::new(alloc);
    match write_marked_call(alloc, ask, xid, &mut call) {
        Ok(()) => Ok(call),
        Err(fault) => Err(unmade(fault)),
    }
}
