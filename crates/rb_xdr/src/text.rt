//! Strings (RFC 4506, section 4.11).
ghost use Rattle.std.specs.Prelude.{◌≡◌, ◌^◌, ◌<◌, ◌≤◌, length};
ghost use Rattle.rb_xdr.specs.Forms.Form.{Content};
ghost use Rattle.rb_xdr.specs.Xdr.{IsContent, opaque, read_opaque, max_opaque};

use crate::fault::XdrFault;
use crate::kept::Kept;
use crate::meter::Meter;
use crate::opaque::Opaque;
use crate::xdr::Xdr;
use std::fmt;
use std::marker::Model;

/// A string (RFC 4506 section 4.11): a text of at most `N` bytes and fewer than 2^32, in no given character set.
#[derive(Clone, PartialEq, Eq, Drop)]
pub struct Text<const N: usize> {
    content: Opaque<N>,
}

impl<const N: usize> Model for Text<N> {
    ghost use Rattle.std.specs.Prelude.{List, ℕ};

    ghost Value = { List ℕ };

    ghost view = { λ t. t.content };

    ghost inverse = { λ bytes. record { content = bytes } };
}

impl<const N: usize> Text<N> {
    /// A copy of these bytes, of which there are at most `N` and fewer than 2^32.
    pub fn new(bytes: &[u8]) -> Text<N>
        requires limit { length bytes.now ≤ N }
        requires count { length bytes.now < 2 ^ 32 }
        ensures { result ≡ bytes.now }
    {
        Text {
            content: Opaque::new(bytes),
        }
    }

    /// The bytes.
    pub fn as_slice(&self) -> &[u8]
        ensures bytes { result.now ≡ self.now }
        ensures content { IsContent N self.now }
    {
        self.content.as_slice()
    }
}

impl<const N: usize> Xdr for Text<N> {
    ghost is_value = { IsContent N };

    ghost spelling = { opaque };

    ghost max_spelling = { max_opaque N };

    ghost reads = { read_opaque N };

    ghost form = { Content N };

    fn laws() {}

    fn room_after(&self, room: usize) -> Option<usize> {
        self.content.room_after(room)
    }

    fn write(&self, out: &mut Kept, meter: &mut Meter) {
        self.content.write(out, meter);
    }

    fn read(bytes: &[u8]) -> Result<(Self, usize), XdrFault> {
        let (content, used) = Opaque::read(bytes)?;
        Ok((Text { content }, used))
    }
}

impl<const N: usize> fmt::Debug for Text<N> {
    fn fmt<W: fmt::Write>(&self, f: &mut fmt::Formatter<W>) -> fmt::Result {
        write!(f, "\"{}\"", self.as_slice().escape_ascii())
    }
}
