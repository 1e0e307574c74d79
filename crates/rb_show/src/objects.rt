//! Objects of JSON, one on each line.
ghost use Rattle.std.specs.Prelude.{◌≡◌, IfOk};
ghost use Rattle.std.specs.String.{string_bytes};
ghost use Rattle.rb_show.specs.Texts.{HasBytes};
ghost use Rattle.rb_show.specs.Statistics.{version_stat, addr_stat, call_stat};
ghost use Rattle.rb_show.specs.Objects.{program_members, place_members, row_members, row_object, mapping_object, family_members, entry_object, numbers_object, found_members, look_ups_object, procedure_members, outcomes_members, forwards_object};

use crate::json::json_text;
use crate::stat::{AddrStat, CallStat, VersionStat, info_in};
use crate::texts::joined_ints;
use rb_arguments::{Entry, Mapping, Rpcb};
use std::alloc::{AllocError, Global};

fn program_members(alloc: Global, prog: u32, vers: u32) -> Result<String, AllocError>
    ensures { IfOk result (HasBytes (program_members prog vers)) }
{
    format!(in alloc; "\"program\":{prog},\"version\":{vers}")
}

fn place_members(alloc: Global, netid: &[u8], addr: &[u8]) -> Result<String, AllocError>
    ensures { IfOk result (HasBytes (place_members netid.now addr.now)) }
{
    let netid = json_text(alloc, netid)?;
    let addr = json_text(alloc, addr)?;
    format!(in alloc; "\"netid\":{netid},\"address\":{addr}")
}

fn row_members(
    alloc: Global,
    prog: u32,
    vers: u32,
    netid: &[u8],
    addr: &[u8],
) -> Result<String, AllocError>
    ensures { IfOk result (HasBytes (row_members prog vers netid.now addr.now)) }
{
    let program = program_members(alloc, prog, vers)?;
    let place = place_members(alloc, netid, addr)?;
    format!(in alloc; "{program},{place}")
}

/// A row of version 3.
pub(crate) fn row_object(alloc: Global, row: &Rpcb) -> Result<String, AllocError>
    ensures { IfOk result (λ object. string_bytes object ≡ row_object row.now) }
{
    let (netid, addr) = (row.netid.as_slice(), row.addr.as_slice());
    let members = row_members(alloc, row.prog, row.vers, netid, addr)?;
    let owner = json_text(alloc, row.owner.as_slice())?;
    format!(in alloc; "{{{members},\"owner\":{owner}}}\n")
}

/// A mapping of version 2.
pub(crate) fn mapping_object(alloc: Global, item: &Mapping) -> Result<String, AllocError>
    ensures { IfOk result (HasBytes (mapping_object item.now)) }
{
    let program = program_members(alloc, item.prog, item.vers)?;
    let (prot, port) = (item.prot, item.port);
    format!(in alloc; "{{{program},\"protocol\":{prot},\"port\":{port}}}\n")
}

fn family_members(alloc: Global, family: &[u8], proto: &[u8]) -> Result<String, AllocError>
    ensures { IfOk result (HasBytes (family_members family.now proto.now)) }
{
    let family = json_text(alloc, family)?;
    let proto = json_text(alloc, proto)?;
    format!(in alloc; "\"family\":{family},\"protocol\":{proto}")
}

/// An address of a program's version.
pub(crate) fn entry_object(alloc: Global, item: &Entry) -> Result<String, AllocError>
    ensures { IfOk result (HasBytes (entry_object item.now)) }
{
    let place = place_members(alloc, item.netid.as_slice(), item.maddr.as_slice())?;
    let family = family_members(alloc, item.protofmly.as_slice(), item.proto.as_slice())?;
    let semantics = item.semantics;
    format!(in alloc; "{{{place},\"semantics\":{semantics},{family}}}\n")
}

/// The numbers of a version of rpcbind.
pub(crate) fn numbers_object(
    alloc: Global,
    rpcbind: u32,
    item: &VersionStat,
) -> Result<String, AllocError>
    ensures { IfOk result (HasBytes (numbers_object rpcbind (version_stat item.now))) }
{
    let (info, (set, unset)) = *item;
    let info = joined_ints(alloc, &info_in(info), ",")?;
    format!(in alloc;
        "{{\"rpcbind\":{rpcbind},\"info\":[{info}],\"set\":{set},\"unset\":{unset}}}\n"
    )
}

fn found_members(alloc: Global, item: &AddrStat) -> Result<String, AllocError>
    ensures { IfOk result (HasBytes (found_members (addr_stat item.now))) }
{
    let (_, (_, (success, (failure, _)))) = item;
    format!(in alloc; "\"success\":{success},\"failure\":{failure}")
}

/// Look-ups of a version of rpcbind.
pub(crate) fn look_ups_object(
    alloc: Global,
    rpcbind: u32,
    item: &AddrStat,
) -> Result<String, AllocError>
    ensures { IfOk result (HasBytes (look_ups_object rpcbind (addr_stat item.now))) }
{
    let (prog, (vers, (_, (_, netid)))) = item;
    let program = program_members(alloc, *prog, *vers)?;
    let netid = json_text(alloc, netid.as_slice())?;
    let found = found_members(alloc, item)?;
    format!(in alloc; "{{\"rpcbind\":{rpcbind},{program},\"netid\":{netid},{found}}}\n")
}

fn procedure_members(alloc: Global, item: &CallStat) -> Result<String, AllocError>
    ensures { IfOk result (HasBytes (procedure_members (call_stat item.now))) }
{
    let (prog, (vers, (proc, _))) = item;
    let program = program_members(alloc, *prog, *vers)?;
    format!(in alloc; "{program},\"procedure\":{proc}")
}

fn outcomes_members(alloc: Global, item: &CallStat) -> Result<String, AllocError>
    ensures { IfOk result (HasBytes (outcomes_members (call_stat item.now))) }
{
    let (_, (_, (_, (success, (failure, (indirect, _)))))) = item;
    format!(in alloc; "\"success\":{success},\"failure\":{failure},\"indirect\":{indirect}")
}

/// Forwarded calls of a version of rpcbind.
pub(crate) fn forwards_object(
    alloc: Global,
    rpcbind: u32,
    item: &CallStat,
) -> Result<String, AllocError>
    ensures { IfOk result (HasBytes (forwards_object rpcbind (call_stat item.now))) }
{
    let procedure = procedure_members(alloc, item)?;
    let (_, (_, (_, (_, (_, (_, netid)))))) = item;
    let netid = json_text(alloc, netid.as_slice())?;
    let outcomes = outcomes_members(alloc, item)?;
    format!(in alloc; "{{\"rpcbind\":{rpcbind},{procedure},\"netid\":{netid},{outcomes}}}\n")
}
