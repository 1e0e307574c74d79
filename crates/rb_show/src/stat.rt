//! The statistics of a version of rpcbind, as they are read (RFC 1833 section 2.1).
ghost use Rattle.std.specs.Prelude.{◌≡◌};
ghost use Rattle.rb_show.specs.Statistics.{info_in};

use rb_xdr::Text;

/// Four ints.
type Four = ((i32, i32), (i32, i32));

/// How often each procedure was called, by its number: 13 ints (RPCBSTAT_HIGHPROC).
pub(crate) type Info = ((Four, Four), (Four, i32));

/// rpcb_stat before its lists: info, and how many calls of SET and of UNSET succeeded.
pub(crate) type VersionStat = (Info, (i32, i32));

/// rpcbs_addrlist: a program and its version, how many calls found an address of it, how many found none, and the netid
/// by which they came.
pub(crate) type AddrStat = (u32, (u32, (i32, (i32, Text<32>))));

/// rpcbs_rmtcalllist: a program, its version and a procedure, how many calls were passed on to it, how many were not,
/// how many of them came by INDIRECT, and the netid by which they came.
pub(crate) type CallStat = (u32, (u32, (u32, (i32, (i32, (i32, Text<32>))))));

/// The counts of info.
pub(crate) fn info_in(info: Info) -> [i32; 13]
    ensures { result ≡ info_in info }
{
    let ((first, second), (third, last)) = info;
    let ((i0, i1), (i2, i3)) = first;
    let ((i4, i5), (i6, i7)) = second;
    let ((i8, i9), (i10, i11)) = third;
    [i0, i1, i2, i3, i4, i5, i6, i7, i8, i9, i10, i11, last]
}
