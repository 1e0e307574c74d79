//! A reply that is given fragment by fragment (RFC 5531 section 11).
//!
//! A window shows its current fragment, marked. What is after that is in the connection's buffer, unmarked, or it is
//! a list, which is held nowhere as a whole: its next fragment is made from the registry once this one was given.
ghost use Rattle.std.specs.Prelude.{◌≡◌, ◌+◌, ◌-◌, ◌<◌, ◌≤◌, [], length, take, drop};
ghost use Rattle.rb_xdr.specs.Meter.{PaysAtMost};
ghost use Rattle.rb_xdr.specs.Puts.{Appends, HasRoom};
ghost use Rattle.rb_model.specs.Connections.{longest_fragment};
ghost use Rattle.rb_connections.specs.StandsFor.{rest_in};
ghost use Rattle.rb_connections.specs.Giving.{CanMake, ShowsNext, with_fragment, fragment_length, fitting_length, WritesPart, WritesHeld, WritesList, WritesNext, WritesFitting, WritesFragment, GoesOn};
ghost use Rattle.rb_rpc.specs.Records.{fragment_size};
ghost use Rattle.rb_connections.specs.Slots.{IsDraft, IsEmptyDraft};
ghost use Rattle.rb_model.specs.Costs.{listed_cost, show_cost};
ghost use Rattle.rb_connections.specs.Costs.{fragments_cost, next_cost, row_count};
ghost use Rattle.rb_connections.specs.Giving.{IsGivenWhole, whole_cost, whole_length};
ghost use Rattle.rb_connections.specs.declared.giving.Rest.TheVariants.{Listed};

use rb_answers::ListReply;
use rb_registry::Registry;
use rb_rpc::{FRAGMENT_HEADER, FRAGMENT_SIZE, LONGEST_FRAGMENT, fragment_header};
use rb_xdr::{Kept, Meter};

/// What of a reply was not yet put in the window.
#[derive(Clone, Copy)]
pub enum Rest {
    /// The bytes of the buffer from this place on.
    Held(usize),
    /// The bytes of a list, which are made from the registry.
    Listed(ListReply),
}

impl Rest {
    ghost use Rattle.std.specs.Prelude.{◌≡◌};
    ghost use Rattle.rb_connections.specs.StandsFor.{stamp_of_rest};

    /// The stamp of the reply, if it is a list: how many changes were accepted before it began.
    pub fn stamp(self) -> Option<u64>
        ensures { result ≡ stamp_of_rest self }
    {
        match self {
            Rest::Held(_) => None,
            Rest::Listed(list) => Some(list.stamp()),
        }
    }
}

/// A reply that is given.
#[derive(Clone, Copy)]
pub struct Giving {
    /// What is after the fragment that is shown.
    pub rest: Rest,
    /// How many bytes of the fragment were given.
    pub place: usize,
    /// Whether it is the last one.
    pub last: bool,
}

/// Names each field, so that a further one does not compile until it stands here. It belongs in the table of
/// charges of crates/rb_core/README.md first.
fn layout(giving: &Giving) {
    let Giving { rest, place, last } = *giving;
    let _: (usize, bool) = (place, last);
    match rest {
        Rest::Held(start) => {
            let _: usize = start;
        }
        Rest::Listed(list) => {
            let _: ListReply = list;
        }
    }
}

/// Appends bytes for which there is room.
fn put(window: &mut Kept, bytes: &[u8], meter: &mut Meter)
    requires tie { meter.old.tie ≡ window.old.tie }
    requires room { HasRoom bytes.now window.old }
    ensures written { Appends bytes.now window.old window.new }
    ensures cost { PaysAtMost meter.old meter.new (length bytes.now) }
{
    let Ok(()) = window.extend(bytes, meter) else {
        unreachable!()
    };
}

/// Puts a fragment with this data in the window.
#[tactic(auto, unfolding(rb_model::specs::Connections::longest_fragment))]
fn frame(part: &[u8], last: bool, window: &mut Kept, meter: &mut Meter)
    requires tie { meter.old.tie ≡ window.old.tie }
    requires some { 0 < length part.now }
    requires few { length part.now ≤ fragment_size }
    requires cap { window.old.cap ≡ longest_fragment }
    ensures shown { window.new ≡ with_fragment part.now last window.old }
    ensures cost { PaysAtMost meter.old meter.new (5 + length part.now) }
{
    window.clear(meter);
    put(window, &fragment_header(part.len(), last), meter);
    put(window, part, meter);
}

/// Writes a fragment with this data to `room`, with its header (RFC 5531 section 11). Returns the number of bytes
/// written, 0 if there is no room for them.
fn write_fragment(part: &[u8], last: bool, room: &mut [u8]) -> usize
    requires some { 0 < length part.now }
    requires few { length part.now ≤ fragment_size }
    ensures count { result ≡ fragment_length (length room.old) (length part.now) }
    ensures written { WritesFragment part.now last result room.new }
    ensures within { result ≤ length room.new }
{
    let end = FRAGMENT_HEADER + part.len();
    if room.len() < end {
        return 0;
    }
    room[..FRAGMENT_HEADER].copy_from_slice(&fragment_header(part.len(), last));
    room[FRAGMENT_HEADER..end].copy_from_slice(part);
    end
}

/// What came of the next fragment of a reply.
#[derive(Clone, Copy)]
enum Next {
    /// It was written and is the last one. The number of its bytes.
    Ended(usize),
    /// It was written, has 1,028 bytes, and is not the last one.
    Behind,
    /// It did not fit and is shown. Whether it is the last one.
    Shown(bool),
}

/// Writes the fragment with this data to `room`, or else puts it in the window. It has 1,024 bytes of data, if it is not the
/// last one.
#[inline(always)]
fn write_part(
    part: &[u8],
    last: bool,
    room: &mut [u8],
    window: &mut Kept,
    meter: &mut Meter,
) -> Next
    requires tie { meter.old.tie ≡ window.old.tie }
    requires some { 0 < length part.now }
    requires few { length part.now ≤ fragment_size }
    requires cap { window.old.cap ≡ longest_fragment }
    ensures writes { WritesPart part.now last room.new window.old window.new result }
    ensures cost { PaysAtMost meter.old meter.new (5 + length part.now) }
{
    let count = write_fragment(part, last, room);
    if count == 0 {
        frame(part, last, window, meter);
        Next::Shown(last)
    } else if last {
        Next::Ended(count)
    } else {
        Next::Behind
    }
}

/// Writes the fragment of a reply that begins at this place of the buffer to `room`, or else puts it in the window. The
/// place is then the one behind it.
fn write_held(
    start: &mut usize,
    buffer: &Kept,
    room: &mut [u8],
    window: &mut Kept,
    meter: &mut Meter,
) -> Next
    requires buffer_tie { meter.old.tie ≡ buffer.now.tie }
    requires window_tie { meter.old.tie ≡ window.old.tie }
    requires start { start.old < length buffer.now.bytes }
    requires cap { window.old.cap ≡ longest_fragment }
    ensures writes { WritesHeld start.old start.new buffer.now.bytes room.new
        window.old window.new result }
    ensures cost { PaysAtMost meter.old meter.new show_cost }
{
    let left = buffer.len(meter) - *start;
    let end = *start + left.min(FRAGMENT_SIZE);
    let last = left <= FRAGMENT_SIZE;
    let data = buffer.lend(*start..end, meter);
    *start = end;
    write_part(data, last, room, window, meter)
}

// LIST-5
/// Writes the next fragment of a list to `room`, or else puts it in the window. It is made in `draft`, empty before
/// and after. The list is then what is behind it.
#[tactic(auto, unfolding(rb_model::specs::Connections::longest_fragment, rb_model::specs::Calls::longest_kept, crate::specs::StandsFor::buffer_size, rb_model::specs::Calls::longest_reply))]
fn write_list(
    list: &mut ListReply,
    registry: &Registry,
    room: &mut [u8],
    window: &mut Kept,
    draft: &mut Kept,
    meter: &mut Meter,
) -> Next
    requires registry { meter.old.tie ≡ registry.now.tie }
    requires window_tie { meter.old.tie ≡ window.old.tie }
    requires draft { IsDraft meter.old.tie draft.old }
    requires cap { window.old.cap ≡ longest_fragment }
    requires made { CanMake registry.now (Listed list.old) }
    requires some { 0 < length (rest_in registry.now [] (Listed list.old)) }
    ensures writes { WritesList registry.now list.old list.new room.new
        window.old window.new result }
    ensures draft { IsEmptyDraft meter.old.tie draft.new }
    ensures cost { PaysAtMost meter.old meter.new (listed_cost (row_count registry.now)) }
{
    let part = list.next_part(registry, draft, meter);
    let data = draft.lend(part.start..part.end, meter);
    let next = write_part(data, part.last, room, window, meter);
    draft.clear(meter);
    next
}

/// Writes the next fragment of a reply, of which `rest` was not shown yet, to `room`, or else puts it in the window:
/// from `buffer`, or of a list, whose fragment is made in `draft`, which is empty before and after. `rest` is then what is
/// behind it, changed where it lies: lists have many fragments.
fn write_next(
    rest: &mut Rest,
    buffer: &Kept,
    registry: &Registry,
    room: &mut [u8],
    window: &mut Kept,
    draft: &mut Kept,
    meter: &mut Meter,
) -> Next
    requires registry { meter.old.tie ≡ registry.now.tie }
    requires buffer_tie { meter.old.tie ≡ buffer.now.tie }
    requires window_tie { meter.old.tie ≡ window.old.tie }
    requires draft { IsEmptyDraft meter.old.tie draft.old }
    requires cap { window.old.cap ≡ longest_fragment }
    requires made { CanMake registry.now rest.old }
    requires some { 0 < length (rest_in registry.now buffer.now.bytes rest.old) }
    ensures writes { WritesNext registry.now buffer.now.bytes rest.old rest.new room.new
        window.old window.new result }
    ensures draft { IsEmptyDraft meter.old.tie draft.new }
    ensures cost { PaysAtMost meter.old meter.new (next_cost registry.now rest.old) }
{
    match rest {
        Rest::Held(start) => write_held(start, buffer, room, window, meter),
        Rest::Listed(list) => write_list(list, registry, room, window, draft, meter),
    }
}

/// Puts the next fragment of a reply, of which `rest` was not shown yet, in the window: from `buffer`, or of a list,
/// whose fragment is made in `draft`, which is empty before and after.
pub fn frame_next(
    mut rest: Rest,
    buffer: &Kept,
    registry: &Registry,
    window: &mut Kept,
    draft: &mut Kept,
    meter: &mut Meter,
) -> Giving
    requires registry { meter.old.tie ≡ registry.now.tie }
    requires buffer_tie { meter.old.tie ≡ buffer.now.tie }
    requires window_tie { meter.old.tie ≡ window.old.tie }
    requires draft { IsEmptyDraft meter.old.tie draft.old }
    requires cap { window.old.cap ≡ longest_fragment }
    requires made { CanMake registry.now rest }
    requires some { 0 < length (rest_in registry.now buffer.now.bytes rest) }
    ensures shows { ShowsNext registry.now buffer.now.bytes rest
        window.old window.new result }
    ensures draft { IsEmptyDraft meter.old.tie draft.new }
    ensures cost { PaysAtMost meter.old meter.new (next_cost registry.now rest) }
{
    match write_next(&mut rest, buffer, registry, &mut [], window, draft, meter) {
        Next::Shown(last) => Giving {
            rest,
            place: 0,
            last,
        },
        Next::Ended(_) | Next::Behind => unreachable!(),
    }
}

/// Copies what is left of a window from this place on to `room`. Returns how many bytes, 0 if they do not fit.
pub fn copy_framed(place: usize, window: &Kept, room: &mut [u8], meter: &mut Meter) -> usize
    requires tie { meter.old.tie ≡ window.now.tie }
    ensures count { result ≡ fitting_length (length room.old) (length window.now.bytes - place) }
    ensures copied { 0 < result → take result room.new ≡ drop place window.now.bytes }
    ensures within { result ≤ length room.new }
    ensures cost { PaysAtMost meter.old meter.new (1 + result) }
{
    let end = window.len(meter);
    let left = end.saturating_sub(place);
    if left == 0 || room.len() < left {
        return 0;
    }
    room[..left].copy_from_slice(window.lend(place..end, meter));
    left
}

/// Writes fragments of a reply, of which `rest` was not shown yet, to `room`, as many as fit whole. The next one is put
/// in the window. Returns how many bytes were written, and how the reply goes on, `None` if it has ended.
pub fn write_fragments(
    mut rest: Rest,
    buffer: &Kept,
    registry: &Registry,
    room: &mut [u8],
    window: &mut Kept,
    draft: &mut Kept,
    meter: &mut Meter,
) -> (usize, Option<Giving>)
    requires registry { meter.old.tie ≡ registry.now.tie }
    requires buffer_tie { meter.old.tie ≡ buffer.now.tie }
    requires window_tie { meter.old.tie ≡ window.old.tie }
    requires draft { IsEmptyDraft meter.old.tie draft.old }
    requires cap { window.old.cap ≡ longest_fragment }
    requires made { CanMake registry.now rest }
    requires some { 0 < length (rest_in registry.now buffer.now.bytes rest) }
    ensures written { WritesFitting
        (rest_in registry.now buffer.now.bytes rest) room.new result.0 }
    ensures goes_on { GoesOn registry.now buffer.now.bytes rest
        window.old window.new result.0 result.1 }
    ensures draft { IsEmptyDraft meter.old.tie draft.new }
    ensures cost { PaysAtMost meter.old meter.new (fragments_cost registry.now rest result.0) }
{
    let mut count = 0;
    'fragments: loop {
        let free = &mut room[count..];
        match write_next(&mut rest, buffer, registry, free, window, draft, meter) {
            Next::Ended(more) => return (count + more, None),
            Next::Shown(last) => {
                let giving = Giving {
                    rest,
                    place: 0,
                    last,
                };
                return (count, Some(giving));
            }
            Next::Behind => count += LONGEST_FRAGMENT,
        }
    }
}

// EXCHANGE-2
/// Writes a reply of one fragment, with its header, to `room`, if that has place for the longest fragment, and
/// empties its buffer. Returns the number of bytes written, 0 if nothing was.
#[tactic(auto, unfolding(rb_model::specs::Connections::longest_fragment))]
pub fn write_whole(reply: &mut Kept, room: &mut [u8], meter: &mut Meter) -> usize
    requires tie { meter.old.tie ≡ reply.old.tie }
    requires some { 0 < length reply.old.bytes }
    ensures count { result ≡ whole_length (length room.old) (length reply.old.bytes) }
    ensures stays { result ≡ 0 → reply.new ≡ reply.old }
    ensures whole { 0 < result → IsGivenWhole reply.old reply.new (take result room.new) }
    ensures within { result ≤ length room.new }
    ensures cost { PaysAtMost meter.old meter.new (whole_cost (length room.old) result) }
{
    if room.len() < LONGEST_FRAGMENT {
        return 0;
    }
    let len = reply.len(meter);
    if len > FRAGMENT_SIZE {
        return 0;
    }
    let count = write_fragment(reply.lend(0..len, meter), true, room);
    reply.clear(meter);
    count
}
