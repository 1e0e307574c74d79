//! What a walk through the lines of a table shows of one connection.
ghost use Rattle.std.specs.Prelude.{◌≡◌};
ghost use Rattle.rb_evidence.specs.Walks.{seen_more, uid_seen, place_after, after_line_of_all};

use crate::endpoint::{Endpoint, endpoint_text, mapped_text};
use crate::table::{Line, OwnedSocket, is_same_socket, socket_in};
use rb_address::Peer;

/// What was seen so far.
#[derive(Clone, Copy)]
pub enum Seen {
    /// No line of it.
    Nothing,
    /// One line, or more of one socket, and that socket, if it is established and has an inode.
    One(Option<OwnedSocket>),
    /// Lines that are not of one socket.
    Several,
}

/// A connection that is looked for in a table, by the texts of its two ends there.
#[derive(Drop)]
pub struct Sight {
    theirs: Endpoint,
    ours: Endpoint,
    seen: Seen,
}

impl Sight {
    ghost use Rattle.std.specs.Prelude.{◌≡◌};
    ghost use Rattle.rb_evidence.specs.Table.{endpoint_text, mapped_text};
    ghost use Rattle.rb_evidence.specs.Walks.{nothing_seen, sight_after, uid_seen};

    /// A TCP connection from this host, whose other end is theirs and which has our end: their line is looked for.
    pub fn new(theirs: &Peer, ours: &Peer) -> Sight
        ensures theirs { result.theirs.bytes ≡ endpoint_text theirs.now }
        ensures ours { result.ours.bytes ≡ endpoint_text ours.now }
        ensures seen { result.seen ≡ nothing_seen }
    {
        Sight {
            theirs: endpoint_text(theirs),
            ours: endpoint_text(ours),
            seen: Seen::Nothing,
        }
    }

    /// One of IPv4 whose client made it with a socket of IPv6: it stands in /proc/net/tcp6, its hosts in IPv6's form, and
    /// not in /proc/net/tcp.
    pub fn new_mapped(theirs: &Peer, ours: &Peer) -> Sight
        ensures theirs { result.theirs.bytes ≡ mapped_text theirs.now }
        ensures ours { result.ours.bytes ≡ mapped_text ours.now }
        ensures seen { result.seen ≡ nothing_seen }
    {
        Sight {
            theirs: mapped_text(theirs),
            ours: mapped_text(ours),
            seen: Seen::Nothing,
        }
    }

    /// Looks at the next line.
    fn look_at(&mut self, line: &Line<'_>)
        ensures { self.new ≡ sight_after line.now.text.now self.old }
    {
        if line.is_between(
            self.theirs.as_str().as_bytes(),
            self.ours.as_str().as_bytes(),
        ) {
            self.seen = seen_more(self.seen, socket_in(line.text()));
        }
    }

    /// The uid of the process's socket at the other end, if all lines of the table were looked at: of the one socket that is
    /// shown from that peer to us, which is established and has an inode. `None` if there is none, more than one, or a line
    /// of another form.
    pub fn uid(&self) -> Option<u32>
        ensures { result ≡ uid_seen self.now.seen }
    {
        uid_seen(self.seen)
    }
}

/// Looks at a line of this text for all of them.
#[tactic(auto, using(std::proofs::lemmas::List::Edits::map_over_more))]
pub(crate) fn look_at(sights: &mut [Option<Sight>], line: &[u8])
    ensures { sights.new ≡ after_line_of_all line.now sights.old }
{
    let line = Line::new(line);
    for place in sights.iter_mut() {
        look_at_for(place, &line);
    }
}

/// Looks at a line for what is looked for at a place, if something is.
fn look_at_for(place: &mut Option<Sight>, line: &Line<'_>)
    ensures { place.new ≡ place_after line.now.text.now place.old }
{
    if let Some(sight) = place {
        sight.look_at(line);
    }
}

// EVIDENCE-7
/// After one more line, which shows this socket, if it shows one. The kernel may show a socket again: when it has shown all,
/// and others have come meanwhile, it goes on with the last ones.
fn seen_more(seen: Seen, socket: Option<OwnedSocket>) -> Seen
    ensures { result ≡ seen_more seen socket }
{
    match seen {
        Seen::Nothing => Seen::One(socket),
        Seen::One(before) if is_same_socket(before, socket) => seen,
        Seen::One(_) | Seen::Several => Seen::Several,
    }
}

fn uid_seen(seen: Seen) -> Option<u32>
    ensures { result ≡ uid_seen seen }
{
    match seen {
        Seen::One(Some(socket)) => Some(socket.uid),
        Seen::One(None) | Seen::Nothing | Seen::Several => None,
    }
}
