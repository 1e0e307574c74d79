//! What a call asks for.
ghost use Rattle.std.specs.Prelude.{◌≡◌, IfOk};
ghost use Rattle.rb_arguments.specs.Arguments.{read_request, HasArgs};

use crate::kind::Kind;
use crate::lent::{LentNetbuf, LentRpcb, LentText};
use crate::mapping::Mapping;
use crate::procedure::{MappingProcedure, Procedure, RpcbProcedure, VoidProcedure};
use crate::remote::RemoteCall;
use thiserror::Error;

/// A procedure with its argument, whose texts stay in the bytes that it was read from.
#[derive(Drop)]
pub enum Request<'a> {
    /// A procedure that has no argument.
    Void(VoidProcedure),
    /// A procedure with its mapping.
    Mapping(MappingProcedure, Mapping),
    /// A procedure with its rpcb.
    Rpcb(RpcbProcedure, LentRpcb<'a>),
    /// The text of an address, whose transport form is asked for.
    Uaddr2taddr(LentText<'a, 128>),
    /// A transport form, whose universal address is asked for.
    Taddr2uaddr(LentNetbuf<'a>),
    /// The call that must be made for the caller.
    Forward(Kind, RemoteCall),
}

/// Why a call asks for nothing.
#[derive(Clone, Copy, PartialEq, Eq, Debug, Error)]
pub enum ArgumentFault {
    /// The version has no procedure of this number.
    #[error("the version has no procedure of this number")]
    ProcUnavail,
    /// No front of the bytes spells the arguments (RFC 5531 section 9, GARBAGE_ARGS).
    #[error("the arguments can't be read")]
    GarbageArgs,
}

/// Reads the arguments of a procedure of version 2, 3 or 4 from the front of the bytes (RFC 1833 sections 2.2 and 3.2).
/// Bytes after them count for nothing.
///
/// `ProcUnavail` comes before `GarbageArgs`. The args of a call that must be forwarded stay in the bytes.
#[tactic(auto, unfolding(crate::specs::Arguments::is_known, crate::specs::Arguments::request))]
pub fn read_args(vers: u32, proc: u32, bytes: &[u8]) -> Result<Request<'_>, ArgumentFault>
    ensures request { result ≡ read_request vers proc bytes.now }
    ensures args { IfOk result (λ request. HasArgs request bytes.now) }
{
    let Some(procedure) = Procedure::at(vers, proc) else {
        return Err(ArgumentFault::ProcUnavail);
    };
    procedure.read(bytes).ok_or(ArgumentFault::GarbageArgs)
}
