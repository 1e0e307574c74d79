//! Calls that are read as their bytes come.

use crate::call::{Verdict, read_call};
use crate::saved::{stage_saved_as, stage_words};
use crate::stage::Stage;

/// Reads the head of a call piece by piece (RFC 5531 section 9). It keeps sixteen words on which the verdict depends,
/// and of credentials and verifiers at most the three bytes of a word whose fourth has not come.
#[derive(Clone, Copy)]
pub struct CallFeed {
    /// The number of bytes of the next word that have come; they spell this number as far as they go.
    seen: u8,
    number: u32,
    stage: Stage,
}

/// Names each field, so that a further one does not compile until it stands here. It belongs in the table of
/// charges of crates/rb_core/README.md first.
fn layout(feed: &CallFeed) {
    let CallFeed {
        seen,
        number,
        stage,
    } = *feed;
    let _: (u8, u32, Stage) = (seen, number, stage);
}

impl CallFeed {
    ghost use Rattle.std.specs.Prelude.{◌≡◌, ℕ, ◌≤◌, false, [], ◌∷◌, List, length, drop};
    ghost use Rattle.rb_rpc.specs.Verdict.{verdict, EndsWithin};
    ghost use Rattle.rb_rpc.specs.Stages.{verdict_at, is_call};
    ghost use Rattle.rb_rpc.specs.Feeds.{StandsForCall};
    ghost use Rattle.rb_rpc.specs.FeedLaws.{StandsForMore, StandsForSame, AreArguments, max_head};
    ghost use Rattle.rb_rpc.specs.Saved.{feed_saved_as};

    /// Before the first byte.
    pub fn new() -> CallFeed
        ensures { StandsForCall result [] }
    {
        CallFeed {
            seen: 0,
            number: 0,
            stage: Stage::Xid,
        }
    }

    /// Takes one byte of a call's head, or of what is no call.
    fn feed_byte(&mut self, byte: u8)
        requires { is_call (verdict_at self.old.stage) ≡ false }
        ensures after { StandsForMore self.old (byte ∷ []) self.new }
        ensures none { AreArguments self.old (byte ∷ []) [] }
    {
        let number = self.number.wrapping_mul(256) + u32::from(byte);
        if self.seen < 3 {
            self.seen += 1;
            self.number = number;
        } else {
            self.seen = 0;
            self.number = 0;
            self.stage = self.stage.after(number);
        }
    }

    /// Takes bytes up to the first of the call's arguments, or all of them, and returns how many. Arguments need not
    /// be fed: once the head is whole, nothing that follows changes the verdict.
    pub fn feed(&mut self, bytes: &[u8]) -> usize
        ensures within { result ≤ length bytes.now }
        ensures after { StandsForMore self.old bytes.now self.new }
        ensures arguments { AreArguments self.old bytes.now (drop result bytes.now) }
    {
        // Most heads come whole, and are read at once.
        if self.seen == 0 && matches!(self.stage, Stage::Xid) {
            if let Verdict::Call(head, place) = read_call(bytes) {
                self.stage = Stage::Arguments {
                    head,
                    place: place as u32,
                };
                return place;
            }
        }
        let mut count = 0;
        'head: while count < bytes.len() && !self.stage.is_call() {
            self.feed_byte(bytes[count]);
            count += 1;
        }
        count
    }

    /// The verdict on the bytes that were fed so far, the one that `read_call` gives on them. The head of a call has
    /// at most 840 bytes.
    pub fn end(&self) -> Verdict
        ensures verdict { (fed : List ℕ) → StandsForCall self.now fed → result ≡ verdict fed }
        ensures within { (fed : List ℕ) → StandsForCall self.now fed
            → EndsWithin result (length fed) }
        ensures short { (fed : List ℕ) → StandsForCall self.now fed → EndsWithin result max_head }
    {
        self.stage.verdict()
    }

    /// The feed as sixteen words, from which `load` makes the same feed again.
    pub fn save(&self) -> [u32; 16]
        ensures same { feed_saved_as result ≡ self.now }
        ensures stands { StandsForSame self.now (feed_saved_as result) }
    {
        let CallFeed {
            seen,
            number,
            stage,
        } = *self;
        let mut words = [0; 16];
        words[0] = u32::from(seen);
        words[1] = number;
        words[2..13].copy_from_slice(&stage_words(stage));
        words
    }

    /// The feed for which `save` gave these words. Words that `save` never gave make some feed, and it is not said
    /// which.
    #[tactic(auto, unfolding(crate::specs::Saved::feed_saved_as))]
    pub fn load(words: [u32; 16]) -> CallFeed
        ensures { result ≡ feed_saved_as words }
    {
        CallFeed {
            seen: (words[0] % 256) as u8,
            number: words[1],
            stage: stage_saved_as(&words[2..13]),
        }
    }
}
