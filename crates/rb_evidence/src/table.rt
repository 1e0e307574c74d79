//! A line of the kernel's table: between whom it is, and whose.
ghost use Rattle.std.specs.Prelude.{◌≡◌, slice_get};
ghost use Rattle.rb_evidence.specs.Table.{fields_of, is_text, is_same_socket, socket_in, borrowed};

use crate::fields::{field_at, is_field};
use rb_address::{number_below, plain_number};

/// The state of a connection that is established: TCP_ESTABLISHED of the kernel.
const ESTABLISHED: &[u8] = b"01";

/// A socket that a line shows: of which user it is, and its inode, which no other socket has meanwhile.
#[derive(Clone, Copy)]
pub struct OwnedSocket {
    pub(crate) uid: u32,
    pub(crate) inode: u64,
}

/// A line, of which the two ends were read.
#[derive(Clone, Copy)]
pub struct Line<'a> {
    text: &'a [u8],
    /// The field of the socket's own address, and that of the one that it is connected to; none if it has fewer fields.
    own: Option<&'a [u8]>,
    other: Option<&'a [u8]>,
    ghost own_is: { borrowed own ≡ slice_get (fields_of text.now) 1 },
    ghost other_is: { borrowed other ≡ slice_get (fields_of text.now) 2 },
}

impl<'a> Line<'a> {
    ghost use Rattle.std.specs.Prelude.{◌≡◌};
    ghost use Rattle.rb_evidence.specs.Table.{is_between};

    /// The line of this text, which ends before a line feed.
    pub fn new(text: &'a [u8]) -> Line<'a>
        ensures { result.text.now ≡ text.now }
    {
        Line {
            text,
            own: field_at(text, 1),
            other: field_at(text, 2),
        }
    }

    /// The text.
    pub(crate) fn text(&self) -> &'a [u8]
        ensures { result.now ≡ self.now.text.now }
    {
        self.text
    }

    /// Whether it is of a socket of theirs, connected to ours.
    pub(crate) fn is_between(&self, theirs: &[u8], ours: &[u8]) -> bool
        ensures { result ≡ is_between theirs.now ours.now self.now.text.now }
    {
        is_text(self.own, theirs) && is_text(self.other, ours)
    }
}

fn is_text(field: Option<&[u8]>, text: &[u8]) -> bool
    ensures { result ≡ is_text text.now (borrowed field.entry) }
{
    match field {
        Some(field) => field == text,
        None => false,
    }
}

/// The socket of a line, if that is established and has one.
#[tactic(auto, unfolding(crate::specs::Table::socket_in))]
pub(crate) fn socket_in(line: &[u8]) -> Option<OwnedSocket>
    ensures { result ≡ socket_in line.now }
{
    let uid = field_at(line, 7)?;
    let inode = number_below(field_at(line, 9)?)?;
    if !is_field(line, 3, ESTABLISHED) || inode == 0 {
        return None;
    }
    let uid = plain_number(uid, 1 << 32)?;
    Some(OwnedSocket {
        uid: uid as u32,
        inode,
    })
}

/// Whether two lines show one socket.
pub(crate) fn is_same_socket(a: Option<OwnedSocket>, b: Option<OwnedSocket>) -> bool
    ensures { result ≡ is_same_socket a b }
{
    match (a, b) {
        (Some(a), Some(b)) => a.uid == b.uid && a.inode == b.inode,
        _ => false,
    }
}
