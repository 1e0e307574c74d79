//! The table of procedures.
ghost use Rattle.std.specs.Prelude.{◌≡◌, Option, IfSome};
ghost use Rattle.rb_arguments.specs.Arguments.{value_of, procedure_at, arguments, HasArgs};
ghost use Rattle.rb_arguments.specs.Numbers.{is_void, is_mapping, is_rpcb, is_procedure, number_of};

use crate::kind::Kind;
use crate::lent::{LentNetbuf, LentRpcb, LentText};
use crate::mapping::Mapping;
use crate::remote::RemoteCall;
use crate::request::Request;
use rb_xdr::{Xdr, XdrFault};

/// A procedure without arguments.
#[derive(Clone, Copy, PartialEq, Eq, Debug)]
pub enum VoidProcedure {
    /// Procedure 0 of each version: nothing is done.
    Null,
    /// DUMP of version 2: the rows of tcp and udp as mappings.
    PmapDump,
    /// DUMP of versions 3 and 4: the rows as rpcbs.
    Dump,
    /// GETTIME: the seconds since the start of 1970.
    Gettime,
    /// GETSTAT of version 4: the statistics.
    Getstat,
}

/// A procedure of a mapping. They are of version 2.
#[derive(Clone, Copy, PartialEq, Eq, Debug)]
pub enum MappingProcedure {
    /// PMAPPROC_SET: adds a row.
    Set,
    /// PMAPPROC_UNSET: removes the rows of a version of a program on tcp and udp.
    Unset,
    /// PMAPPROC_GETPORT: the port of a row.
    Getport,
}

/// A procedure of an rpcb.
#[derive(Clone, Copy, PartialEq, Eq, Debug)]
pub enum RpcbProcedure {
    /// RPCBPROC_SET: adds a row.
    Set,
    /// RPCBPROC_UNSET: removes the rows of a version of a program, on one netid or on all.
    Unset,
    /// RPCBPROC_GETADDR: the address of a row, of another version if the one that is asked for has none.
    Getaddr,
    /// RPCBPROC_GETVERSADDR of version 4: the address of a row of exactly this version.
    Getversaddr,
    /// RPCBPROC_GETADDRLIST of version 4: the addresses of a version of a program on each netid.
    Getaddrlist,
}

/// A procedure, under the type of its argument.
#[derive(Clone, Copy, PartialEq, Eq, Debug)]
pub enum Procedure {
    /// One that has no argument.
    Void(VoidProcedure),
    /// One that takes a mapping.
    Mapping(MappingProcedure),
    /// One that takes an rpcb.
    Rpcb(RpcbProcedure),
    /// RPCBPROC_UADDR2TADDR, which takes a string.
    Uaddr2taddr,
    /// RPCBPROC_TADDR2UADDR, which takes a netbuf.
    Taddr2uaddr,
    /// A procedure that has another one called.
    Forward(Kind),
}

/// Version, number and procedure (RFC 1833 sections 2.2 and 3.2).
const PROCEDURES: [(u32, u32, Procedure); 28] = [
    (2, 0, Procedure::Void(VoidProcedure::Null)),
    (2, 1, Procedure::Mapping(MappingProcedure::Set)),
    (2, 2, Procedure::Mapping(MappingProcedure::Unset)),
    (2, 3, Procedure::Mapping(MappingProcedure::Getport)),
    (2, 4, Procedure::Void(VoidProcedure::PmapDump)),
    (2, 5, Procedure::Forward(Kind::Callit2)),
    (3, 0, Procedure::Void(VoidProcedure::Null)),
    (3, 1, Procedure::Rpcb(RpcbProcedure::Set)),
    (3, 2, Procedure::Rpcb(RpcbProcedure::Unset)),
    (3, 3, Procedure::Rpcb(RpcbProcedure::Getaddr)),
    (3, 4, Procedure::Void(VoidProcedure::Dump)),
    (3, 5, Procedure::Forward(Kind::Callit3)),
    (3, 6, Procedure::Void(VoidProcedure::Gettime)),
    (3, 7, Procedure::Uaddr2taddr),
    (3, 8, Procedure::Taddr2uaddr),
    (4, 0, Procedure::Void(VoidProcedure::Null)),
    (4, 1, Procedure::Rpcb(RpcbProcedure::Set)),
    (4, 2, Procedure::Rpcb(RpcbProcedure::Unset)),
    (4, 3, Procedure::Rpcb(RpcbProcedure::Getaddr)),
    (4, 4, Procedure::Void(VoidProcedure::Dump)),
    (4, 5, Procedure::Forward(Kind::Bcast)),
    (4, 6, Procedure::Void(VoidProcedure::Gettime)),
    (4, 7, Procedure::Uaddr2taddr),
    (4, 8, Procedure::Taddr2uaddr),
    (4, 9, Procedure::Rpcb(RpcbProcedure::Getversaddr)),
    (4, 10, Procedure::Forward(Kind::Indirect)),
    (4, 11, Procedure::Rpcb(RpcbProcedure::Getaddrlist)),
    (4, 12, Procedure::Void(VoidProcedure::Getstat)),
];

/// What was read. What follows it counts for nothing.
fn value_of<T: Drop>(read: Result<(T, usize), XdrFault>) -> Option<T>
    ensures { result ≡ value_of read }
{
    match read {
        Ok((value, _)) => Some(value),
        Err(_) => None,
    }
}

impl Procedure {
    /// The procedure of this number in this version, `None` if there is none (RFC 1833 sections 2.2 and 3.2).
    #[tactic(auto, unfolding(crate::specs::Arguments::procedure_at))]
    pub fn at(vers: u32, proc: u32) -> Option<Procedure>
        ensures { result ≡ procedure_at vers proc }
    {
        PROCEDURES
            .iter()
            .find(|row| row.0 == vers && row.1 == proc)
            .map(|row| row.2)
    }

    // ARGS-1
    /// What the bytes ask of the procedure, `None` if its arguments can't be read. Bytes after them count for nothing.
    #[tactic(auto, unfolding(crate::specs::Arguments::arguments))]
    pub fn read(self, bytes: &[u8]) -> Option<Request<'_>>
        ensures request { result ≡ arguments self bytes.now }
        ensures args { IfSome result (λ request. HasArgs request bytes.now) }
    {
        match self {
            Procedure::Void(procedure) => Some(Request::Void(procedure)),
            Procedure::Mapping(procedure) => {
                let mapping = value_of(Mapping::read(bytes))?;
                Some(Request::Mapping(procedure, mapping))
            }
            Procedure::Rpcb(procedure) => {
                let rpcb = value_of(LentRpcb::read(bytes))?;
                Some(Request::Rpcb(procedure, rpcb))
            }
            Procedure::Uaddr2taddr => Some(Request::Uaddr2taddr(value_of(LentText::read(bytes))?)),
            Procedure::Taddr2uaddr => {
                let netbuf = value_of(LentNetbuf::read(bytes))?;
                Some(Request::Taddr2uaddr(netbuf))
            }
            Procedure::Forward(kind) => Some(Request::Forward(kind, RemoteCall::read(bytes)?)),
        }
    }
}

// ---- for those who call

#[tactic(auto, unfolding(crate::specs::Numbers::is_void))]
fn is_void(a: VoidProcedure, b: VoidProcedure) -> bool
    ensures { result ≡ is_void a b }
{
    a == b
}

#[tactic(auto, unfolding(crate::specs::Numbers::is_mapping))]
fn is_mapping(a: MappingProcedure, b: MappingProcedure) -> bool
    ensures { result ≡ is_mapping a b }
{
    a == b
}

#[tactic(auto, unfolding(crate::specs::Numbers::is_rpcb))]
fn is_rpcb(a: RpcbProcedure, b: RpcbProcedure) -> bool
    ensures { result ≡ is_rpcb a b }
{
    a == b
}

#[tactic(auto, unfolding(crate::specs::Numbers::is_procedure))]
fn is_procedure(a: Procedure, b: Procedure) -> bool
    ensures { result ≡ is_procedure a b }
{
    match (a, b) {
        (Procedure::Void(a), Procedure::Void(b)) => is_void(a, b),
        (Procedure::Mapping(a), Procedure::Mapping(b)) => is_mapping(a, b),
        (Procedure::Rpcb(a), Procedure::Rpcb(b)) => is_rpcb(a, b),
        _ => false,
    }
}

impl Procedure {
    /// The number of a procedure with no argument, a mapping or an rpcb in this version, if the version has it.
    #[tactic(auto, unfolding(crate::specs::Numbers::number_of))]
    pub fn number(self, vers: u32) -> Option<u32>
        ensures { result ≡ number_of vers self }
    {
        PROCEDURES
            .iter()
            .find(|row| row.0 == vers && is_procedure(row.2, self))
            .map(|row| row.1)
    }
}
