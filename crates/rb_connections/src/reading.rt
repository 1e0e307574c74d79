//! Bytes that arrive on a connection.
ghost use Rattle.std.specs.Prelude.{◌≡◌, ℕ, ◌+◌, ◌-◌, ◌<◌, ◌≤◌, [], ◌∷◌, ◌++◌, if◌then◌else◌, List, length, take, min, Some, None};
ghost use Rattle.rb_xdr.specs.Meter.{Pays, PaysAtMost};
ghost use Rattle.rb_rpc.specs.Marks.{StandsForFed};
ghost use Rattle.rb_rpc.specs.Streams.{RecordEnds, ArePart, StandsForMore};
ghost use Rattle.rb_rpc.specs.Feeds.{StandsForCall};
ghost use Rattle.rb_connections.specs.StandsFor.{IsHeld};
ghost use Rattle.rb_connections.specs.Reading.{HasData, HasMore, KeepsMore, TakesData, CountsPiece, ReadsPiece};

use rb_model::LONGEST_KEPT;
use rb_rpc::{CallFeed, Marks, Part, Verdict};
use rb_xdr::{Kept, Meter};

/// A record that is being read. The arguments of its call are not here, but in a buffer.
#[derive(Clone, Copy)]
pub struct Reader {
    /// Where its next byte stands: in the header of a fragment, or in its data.
    marks: Marks,
    /// The head of its call as far as it came.
    head: CallFeed,
}

/// Names each field, so that a further one does not compile until it stands here. It belongs in the table of
/// charges of crates/rb_core/README.md first.
fn layout(reader: &Reader) {
    let Reader { marks, head } = *reader;
    let _: (Marks, CallFeed) = (marks, head);
}

/// A call whose data is being taken.
#[derive(Clone, Copy)]
struct Intake {
    head: CallFeed,
    /// For how many more bytes of its arguments there is room.
    room: usize,
}

/// How far a piece of bytes was taken.
#[derive(Clone, Copy)]
pub struct Fed {
    /// How many of its bytes were taken.
    pub count: usize,
    /// If a record ended with the last of them, the verdict on its data.
    pub verdict: Option<Verdict>,
}

/// Bytes at the front of a piece that are of one kind, header or data.
#[derive(Clone, Copy)]
struct Run {
    count: usize,
    part: Part,
    /// Whether the record ends with the last of them.
    ended: bool,
}

/// Takes the bytes in front that are data of one fragment, or else one byte.
fn next_run(marks: &mut Marks, bytes: &[u8]) -> Run
    requires { 0 < length bytes.now }
    ensures some { 0 < result.count }
    ensures within { result.count ≤ length bytes.now }
    ensures ends { RecordEnds marks.old (take result.count bytes.now) result.ended }
    ensures data { ArePart marks.old result.part (take result.count bytes.now) }
    ensures after { StandsForMore marks.old (take result.count bytes.now) result.ended marks.new }
{
    let mut ahead = *marks;
    let (count, ended) = ahead.feed_data(bytes);
    if count > 0 {
        *marks = ahead;
        return Run {
            count,
            part: Part::Data,
            ended,
        };
    }
    let (part, ended) = marks.feed(bytes[0]);
    Run {
        count: 1,
        part,
        ended,
    }
}

/// Adds bytes of the arguments as far as there is room for them, and says how much room is left.
fn keep(kept: &mut Kept, room: usize, arguments: &[u8], meter: &mut Meter) -> usize
    requires { meter.old.tie ≡ kept.old.tie }
    ensures kept { KeepsMore kept.old room arguments.now kept.new result }
    ensures cap { kept.new.cap ≡ kept.old.cap }
    ensures tie { kept.new.tie ≡ kept.old.tie }
    ensures cost { PaysAtMost meter.old meter.new (length arguments.now) }
{
    let count = room.min(arguments.len());
    let _ = kept.extend(&arguments[..count], meter);
    room - count
}

impl Intake {
    /// Goes on with a call whose head came so far; its arguments so far are in the buffer.
    fn begin(head: CallFeed, kept: &Kept, meter: &mut Meter) -> Intake
        requires { meter.old.tie ≡ kept.now.tie }
        ensures data { (content : List ℕ) → IsHeld head kept.now content
            → HasData result kept.now content }
        ensures cost { Pays meter.old meter.new 1 }
    {
        Intake {
            head,
            room: LONGEST_KEPT.saturating_sub(kept.len(meter)),
        }
    }

    /// Takes data of the record: of the arguments in it the first are kept.
    fn feed_data(&mut self, kept: &mut Kept, bytes: &[u8], meter: &mut Meter)
        requires { meter.old.tie ≡ kept.old.tie }
        ensures data { TakesData self.old kept.old bytes.now self.new kept.new }
        ensures cap { kept.new.cap ≡ kept.old.cap }
        ensures tie { kept.new.tie ≡ kept.old.tie }
        ensures cost { PaysAtMost meter.old meter.new (length bytes.now) }
    {
        let count = self.head.feed(bytes);
        self.room = keep(kept, self.room, &bytes[count..], meter);
    }

    /// Takes the bytes in front that are data of one fragment, or else one byte.
    fn feed_run(
        &mut self,
        marks: &mut Marks,
        kept: &mut Kept,
        bytes: &[u8],
        meter: &mut Meter,
    ) -> Run
        requires tie { meter.old.tie ≡ kept.old.tie }
        requires some { 0 < length bytes.now }
        ensures some { 0 < result.count }
        ensures within { result.count ≤ length bytes.now }
        ensures ends { RecordEnds marks.old (take result.count bytes.now) result.ended }
        ensures after { StandsForMore marks.old (take result.count bytes.now) result.ended marks.new }
        ensures data { HasMore marks.old self.old kept.old (take result.count bytes.now)
            self.new kept.new }
        ensures cap { kept.new.cap ≡ kept.old.cap }
        ensures tie { kept.new.tie ≡ kept.old.tie }
        ensures cost { PaysAtMost meter.old meter.new result.count }
    {
        let run = next_run(marks, bytes);
        match run.part {
            Part::Data => self.feed_data(kept, &bytes[..run.count], meter),
            Part::Header => {}
        }
        run
    }
}

impl Reader {
    /// Before the first byte of a record.
    pub fn new() -> Reader
        ensures marks { StandsForFed result.marks [] }
        ensures head { StandsForCall result.head [] }
    {
        Reader {
            marks: Marks::new(),
            head: CallFeed::new(),
        }
    }

    /// Takes bytes of the piece up to the one that ends the first record, or all of them, and keeps the first 8,816
    /// bytes of its call's arguments (RFC 5531 sections 9 and 11).
    pub fn feed(&mut self, kept: &mut Kept, piece: &[u8], meter: &mut Meter) -> Fed
        requires { meter.old.tie ≡ kept.old.tie }
        ensures within { result.count ≤ length piece.now }
        ensures taken { CountsPiece self.old kept.old piece.now result }
        ensures after { ReadsPiece self.old kept.old piece.now self.new kept.new }
        ensures cap { kept.new.cap ≡ kept.old.cap }
        ensures tie { kept.new.tie ≡ kept.old.tie }
        ensures cost { PaysAtMost meter.old meter.new (result.count + 1) }
    {
        let mut intake = Intake::begin(self.head, kept, meter);
        let mut count = 0;
        'runs: while count < piece.len() {
            let run = intake.feed_run(&mut self.marks, kept, &piece[count..], meter);
            count += run.count;
            if run.ended {
                return Fed {
                    count,
                    verdict: Some(intake.head.end()),
                };
            }
        }
        self.head = intake.head;
        Fed {
            count,
            verdict: None,
        }
    }
}
