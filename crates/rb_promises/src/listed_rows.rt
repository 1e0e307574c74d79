//! Lists of rows.
ghost use Rattle.rb_promises.specs.ListedRows.{PmapDumpLists, DumpLists, GetaddrlistLists};

/// From every ledger: DUMP of version 2 lists each live row of tcp and udp, and no other, and DUMP of versions 3 and 4
/// each live row as it was set, with its owner's name. GETADDRLIST lists the addresses of each live row of its program
/// and version, on every netid, if hosts have the bytes of their family: an IPv6 address is told as it was set, unless
/// another host stands in for its ::. Each list is in the order of the rows, and changes nothing.
pub fn lists_are_of_rows()
    ensures pmap_dump { PmapDumpLists }
    ensures dump { DumpLists }
    ensures getaddrlist { GetaddrlistLists }
{}
