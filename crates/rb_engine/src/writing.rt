//! The rows that were set are written as the lines of kept rows, and so is what changed of them.
ghost use Rattle.std.specs.Prelude.{◌≡◌, ◌+◌, ◌*◌, List, length, OnOk};
ghost use Rattle.rb_xdr.specs.Meter.{PaysAtMost};
ghost use Rattle.rb_xdr.specs.Pool.{value_at};
ghost use Rattle.rb_registry.specs.Rows.{find_exact};
ghost use Rattle.rb_registry.specs.Index.{rank};
ghost use Rattle.rb_lines.specs.Printing.{Writes};
ghost use Rattle.rb_core.specs.Looks.{slot_count, rows_shown};
ghost use Rattle.rb_keep.specs.Kept.{row_line, gone_line, named_row, line_on, owners_on, lines_on, owners_on_each, all_netids};
ghost use Rattle.rb_engine.specs.Writing.{line_where_set, row_look, WritesKept, WritesChange, NotesOwners};

use rb_address::{Netid, Owner};
use rb_core::Metered;
use rb_keep::{Owners, owner_numbered, set_call, this_machine, unset_call};
use rb_lines::write_event;
use rb_model::Event;
use rb_registry::{RPCB_PROG, Row, rank};
use rb_uaddr::AddressText;
use std::io;
use std::io::Write;

/// The netids, in the order in which what changed on them has its lines.
const NETIDS: [Netid; 5] = [
    Netid::Tcp,
    Netid::Udp,
    Netid::Tcp6,
    Netid::Udp6,
    Netid::Local,
];

/// Writes the line of a row that was set.
fn write_row<W: Write>(now: u64, row: &Row, writer: &mut W) -> io::Result<()>
    ensures { OnOk result (Writes W.contents writer.old writer.new (row_line now row.now)) }
{
    let call = set_call(row);
    write_event(
        &Event::Datagram(now, this_machine(), call.as_slice()),
        writer,
    )
}

/// Writes the line of a row that was set, and nothing for one of the daemon's own.
#[tactic(auto, using(crate::proofs::Written::nothing))]
fn write_where_set<W: Write>(now: u64, row: &Row, writer: &mut W) -> io::Result<()>
    ensures { OnOk result (Writes W.contents writer.old writer.new (line_where_set now row.now)) }
{
    if row.prog == RPCB_PROG {
        return Ok(());
    }
    write_row(now, row, writer)
}

/// Writes what is kept of the core: for each row that was set the line of the event that sets it again, at the moment
/// of the last event. An error if the writer fails; how much it has then is not known. It costs at most 2 steps
/// for each row, retained ones among them, and 1.
pub fn write_rows<W: Write>(core: &mut Metered, writer: &mut W) -> io::Result<()>
    ensures written { OnOk result (WritesKept core.old.core W.contents writer.old writer.new) }
    ensures stays { core.new.core ≡ core.old.core }
    ensures cost { PaysAtMost core.old.meter core.new.meter (2 * slot_count core.old.core + 1) }
{
    let now = core.clock();
    let mut cursor = core.first_place();
    'rows: while let Some(row) = core.next_row(&mut cursor) {
        write_where_set(now, row, writer)?;
    }
    Ok(())
}

/// The row of a program's version on a netid, without its address.
fn named_row(prog: u32, vers: u32, netid: Netid, owner: Owner) -> Row
    ensures { result ≡ named_row prog vers netid owner }
{
    Row {
        prog,
        vers,
        netid,
        owner,
        addr: AddressText::new(b""),
    }
}

/// Writes the line of a row that went.
fn write_gone<W: Write>(now: u64, row: &Row, writer: &mut W) -> io::Result<()>
    ensures { OnOk result (Writes W.contents writer.old writer.new (gone_line now row.now)) }
{
    let call = unset_call(row);
    write_event(
        &Event::Datagram(now, this_machine(), call.as_slice()),
        writer,
    )
}

/// Writes the line of what changed of a program's version on a netid, if it did, and notes whose row is there.
#[tactic(auto, using(crate::proofs::Written::nothing))]
fn write_on<W: Write>(
    core: &mut Metered,
    owners: &mut Owners,
    now: u64,
    prog: u32,
    vers: u32,
    netid: Netid,
    writer: &mut W,
) -> io::Result<()>
    ensures written { OnOk result (Writes W.contents writer.old writer.new
        (line_on now prog vers netid
        (value_at owners.old (rank prog netid vers))
        (find_exact prog vers netid (rows_shown core.old.core)))) }
    ensures owners { OnOk result (owners.new
        ≡ owners_on prog vers (rows_shown core.old.core) netid owners.old) }
    ensures stays { core.new.core ≡ core.old.core }
    ensures cost { PaysAtMost core.old.meter core.new.meter (row_look core.old.core) }
{
    let number = rank(prog, netid, vers);
    let before = owners.find(number);
    match core.row_at(prog, vers, netid) {
        Some(row) => match before {
            Some(_) => Ok(()),
            None => {
                write_row(now, &row, writer)?;
                owners.add(number, row.owner)
            }
        },
        None => match before {
            Some(owner) => {
                let row = named_row(prog, vers, netid, owner_numbered(owner));
                write_gone(now, &row, writer)?;
                owners.remove(number);
                Ok(())
            }
            None => Ok(()),
        },
    }
}

/// Writes the lines of what changed of a program's version on netids, one after another.
fn write_on_each<W: Write>(
    core: &mut Metered,
    owners: &mut Owners,
    now: u64,
    prog: u32,
    vers: u32,
    netids: &[Netid],
    writer: &mut W,
) -> io::Result<()>
    ensures written { OnOk result (Writes W.contents writer.old writer.new
        (lines_on now prog vers (rows_shown core.old.core) netids.now owners.old)) }
    ensures owners { OnOk result (owners.new
        ≡ owners_on_each prog vers (rows_shown core.old.core) netids.now owners.old) }
    ensures stays { core.new.core ≡ core.old.core }
    ensures cost { PaysAtMost core.old.meter core.new.meter
        (length netids.now * row_look core.old.core) }
{
    for netid in netids {
        write_on(core, owners, now, prog, vers, *netid, writer)?;
    }
    Ok(())
}

/// Writes the lines of what changed of a program's version since these were the owners of the rows, at the moment of the
/// last event: for each of its rows that is set no more that of the event that removes it, and for each that came that of
/// the event that sets it. The owners are those of the rows that are there then. The program is not the portmapper's. An
/// error if the writer fails, or there is no room for an owner: what the writer has then, and whose the rows are, is not
/// known. It costs at most what it costs to look up five rows.
pub fn write_change<W: Write>(
    core: &mut Metered,
    owners: &mut Owners,
    prog: u32,
    vers: u32,
    writer: &mut W,
) -> io::Result<()>
    ensures written { OnOk result (WritesChange
        core.old.core prog vers owners.old W.contents writer.old writer.new) }
    ensures owners { OnOk result (NotesOwners core.old.core prog vers owners.old owners.new) }
    ensures stays { core.new.core ≡ core.old.core }
    ensures cost { PaysAtMost core.old.meter core.new.meter (5 * row_look core.old.core) }
{
    let now = core.clock();
    write_on_each(core, owners, now, prog, vers, &NETIDS, writer)?;
    Ok(())
}
