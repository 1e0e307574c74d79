//! Record marking (RFC 5531 section 11).
ghost use Rattle.std.specs.Prelude.{◌≡◌, ◌≤◌, IfSome};
ghost use Rattle.std.specs.Option.{option_map};
ghost use Rattle.rb_rpc.specs.Records.{fragment_header, one_fragment, BeginsWithRecord};
ghost use Rattle.rb_rpc.specs.Streams.{behind, behind_header};

use crate::integers::number_at;

/// What a byte of a record is.
#[derive(Clone, Copy, PartialEq, Eq, Debug)]
pub enum Part {
    /// A byte of a fragment's header.
    Header,
    /// A byte of the record's data.
    Data,
}

/// Where the next byte stands.
#[derive(Clone, Copy, PartialEq, Eq, Debug)]
enum Place {
    /// After this many bytes of a header, which spell this number as far as they go.
    Header { seen: u8, number: u32 },
    /// Before this many more bytes of a fragment's data; it is the last of its record, or not.
    Data { left: u32, last: bool },
}

/// The highest bit of a header: the fragment is the last of its record.
const LAST: u32 = 1 << 31;

/// How many bytes the header of a fragment has (RFC 5531 section 11).
pub const FRAGMENT_HEADER: usize = 4;

/// The most data of a fragment of a reply, in bytes.
pub const FRAGMENT_SIZE: usize = 1_024;

/// The longest fragment of a reply, with its header, in bytes.
pub const LONGEST_FRAGMENT: usize = FRAGMENT_HEADER + FRAGMENT_SIZE;

const START: Place = Place::Header { seen: 0, number: 0 };

/// Reads marked records byte by byte (RFC 5531 section 11). It keeps the place in the record, and no bytes.
#[derive(Clone, Copy)]
pub struct Marks {
    place: Place,
}

/// Names each field, so that a further one does not compile until it stands here. It belongs in the table of
/// charges of crates/rb_core/README.md first.
fn layout(Marks { place }: &Marks) {
    match *place {
        Place::Header { seen, number } => {
            let _: (u8, u32) = (seen, number);
        }
        Place::Data { left, last } => {
            let _: (u32, bool) = (left, last);
        }
    }
}

/// Before this many more bytes of a fragment, and whether the record ended.
#[tactic(auto, unfolding(crate::specs::Streams::behind))]
fn behind(left: u32, last: bool) -> (Place, bool)
    ensures { result ≡ behind left last }
{
    if left == 0 {
        (START, last)
    } else {
        (Place::Data { left, last }, false)
    }
}

/// After one more byte of a header.
#[tactic(auto, unfolding(crate::specs::Streams::behind_header))]
fn behind_header(seen: u8, number: u32, byte: u8) -> (Place, bool)
    ensures { result ≡ behind_header seen number byte }
{
    let number = number.wrapping_mul(256) + u32::from(byte);
    if seen < 3 {
        let seen = seen + 1;
        (Place::Header { seen, number }, false)
    } else {
        behind(number % LAST, number >= LAST)
    }
}

impl Marks {
    ghost use Rattle.std.specs.Prelude.{◌≡◌, [], ◌∷◌, length, take, min};
    ghost use Rattle.rb_rpc.specs.declared.marks.Part.TheVariants.{Data};
    ghost use Rattle.rb_rpc.specs.Marks.{StandsForFed};
    ghost use Rattle.rb_rpc.specs.Streams.{StandsForStream, RecordEnds, ArePart, StandsForMore, StreamGoesOn, no_data, data_left};

    /// Before the first byte of a record.
    pub fn new() -> Marks
        ensures fed { StandsForFed result [] }
        ensures stream { StandsForStream result [] no_data }
    {
        Marks { place: START }
    }

    // RECORD-3
    /// Takes one byte. It says what the byte is, and whether the record ends with it.
    pub fn feed(&mut self, byte: u8) -> (Part, bool)
        ensures ends { RecordEnds self.old (byte ∷ []) result.1 }
        ensures data { ArePart self.old result.0 (byte ∷ []) }
        ensures after { StandsForMore self.old (byte ∷ []) result.1 self.new }
        ensures stream { StreamGoesOn self.old result.0 (byte ∷ []) result.1 self.new }
    {
        match self.place {
            Place::Header { seen, number } => {
                let (place, ended) = behind_header(seen, number, byte);
                self.place = place;
                (Part::Header, ended)
            }
            Place::Data { left, last } => {
                let (place, ended) = behind(left.saturating_sub(1), last);
                self.place = place;
                (Part::Data, ended)
            }
        }
    }

    /// Takes from the front of the piece what is data of the current fragment: the rest of the fragment, or the whole
    /// piece. Returns how many bytes those were, and whether the record ends with them. 0 if the next byte belongs
    /// to a header.
    pub fn feed_data(&mut self, piece: &[u8]) -> (usize, bool)
        ensures count { result.0 ≡ min (length piece.now) (data_left self.old.place) }
        ensures ends { RecordEnds self.old (take result.0 piece.now) result.1 }
        ensures data { ArePart self.old Data (take result.0 piece.now) }
        ensures after { StandsForMore self.old (take result.0 piece.now) result.1 self.new }
        ensures stream { StreamGoesOn self.old Data (take result.0 piece.now) result.1 self.new }
    {
        match self.place {
            Place::Header { .. } => (0, false),
            Place::Data { left, last } => {
                let count = piece.len().min(left as usize);
                let (place, ended) = behind(left - count as u32, last);
                self.place = place;
                (count, ended)
            }
        }
    }
}

/// The data of the record at the front of the bytes, if it is a single fragment and whole (RFC 5531 section 11),
/// as most calls are. `None` if the first fragment is cut short, or is not the last of its record.
pub fn one_fragment(bytes: &[u8]) -> Option<&[u8]>
    ensures exact { option_map (λ lent. lent.now) result ≡ one_fragment bytes.now }
    ensures content { IfSome result (λ lent. BeginsWithRecord lent.now bytes.now) }
{
    if bytes.len() < FRAGMENT_HEADER {
        return None;
    }
    let header = number_at(bytes, 0);
    let end = FRAGMENT_HEADER + (header % LAST) as usize;
    if bytes.len() < end || header < LAST {
        return None;
    }
    Some(&bytes[FRAGMENT_HEADER..end])
}

/// The header of a fragment of `len` bytes of data, which are 1 to 1,024, and whether it is the last of its record
/// (RFC 5531 section 11).
#[tactic(auto, unfolding(crate::specs::Records::fragment_header, rb_xdr::specs::Xdr::number))]
pub fn fragment_header(len: usize, last: bool) -> [u8; 4]
    requires some { 1 ≤ len }
    requires few { len ≤ 1024 }
    ensures { result ≡ fragment_header len last }
{
    let flag = if last { LAST } else { 0 };
    (flag + len as u32).to_be_bytes()
}
