//! The body of an AUTH_SYS credential word by word: authsys_parms of RFC 5531 appendix A.
ghost use Rattle.std.specs.Prelude.{◌≡◌, ◌≤◌};
ghost use Rattle.rb_rpc.specs.SysFields.{ends_in_zeros, name_before, name_after, gids_before, field_after};

use crate::sys::{MAX_GIDS, MAX_MACHINE};
use rb_xdr::are_zero;

/// Which field comes next, and what those before it say that matters.
#[derive(Clone, Copy)]
pub(crate) enum SysField {
    Stamp,
    /// The length word of machinename.
    NameLength,
    /// The number of bytes to come of machinename and its residual bytes.
    Name { left: u32 },
    Uid,
    Gid { uid: u32 },
    /// The length word of gids.
    GidCount { uid: u32 },
    /// The number of gids to come.
    Gids { uid: u32, left: u32 },
    /// None: every field was read, and what follows them counts for nothing.
    Whole { uid: u32 },
    /// None: a field can't be read.
    Unreadable,
}

/// Names the type of a part, for `layout`.
pub(crate) fn part<T: Copy>(_part: T) {}

/// Names each field, so that a further one does not compile until it stands here. It belongs in the table of
/// charges of crates/rb_core/README.md first.
fn layout(field: &SysField) {
    match *field {
        SysField::Stamp | SysField::NameLength | SysField::Uid | SysField::Unreadable => {}
        SysField::Name { left } => part::<u32>(left),
        SysField::Gid { uid } | SysField::GidCount { uid } | SysField::Whole { uid } => part::<u32>(
            uid,
        ),
        SysField::Gids { uid, left } => part::<(u32, u32)>((uid, left)),
    }
}

/// Whether the bytes of a word after this many of them are zeros, as residual bytes are (RFC 4506
/// section 3).
#[tactic(auto, unfolding(crate::specs::SysFields::ends_in_zeros, rb_xdr::specs::Xdr::number))]
pub(crate) fn ends_in_zeros(content: usize, word: u32) -> bool
    requires { content ≤ 4 }
    ensures { result ≡ ends_in_zeros content word }
{
    let bytes = word.to_be_bytes();
    are_zero(&bytes[content..])
}

/// After the length word of machinename.
#[tactic(auto, unfolding(crate::specs::SysFields::name_before))]
fn name_before(len: u32) -> SysField
    ensures { result ≡ name_before len }
{
    if len > MAX_MACHINE {
        SysField::Unreadable
    } else if len == 0 {
        SysField::Uid
    } else {
        SysField::Name { left: len }
    }
}

/// Before this many gids.
#[tactic(auto, unfolding(crate::specs::SysFields::gids_before))]
fn gids_before(uid: u32, left: u32) -> SysField
    ensures { result ≡ gids_before uid left }
{
    if left == 0 {
        SysField::Whole { uid }
    } else {
        SysField::Gids { uid, left }
    }
}

/// After a word of machinename, of which this many bytes were to come.
#[tactic(auto, unfolding(crate::specs::SysFields::name_after))]
fn name_after(left: u32, word: u32) -> SysField
    ensures { result ≡ name_after left word }
{
    if left > 4 {
        SysField::Name { left: left - 4 }
    } else if ends_in_zeros(left as usize, word) {
        SysField::Uid
    } else {
        SysField::Unreadable
    }
}

impl SysField {
    ghost use Rattle.std.specs.Prelude.{◌≡◌};
    ghost use Rattle.rb_rpc.specs.SysFields.{field_after};

    /// After one more word.
    #[tactic(auto, unfolding(crate::specs::SysFields::field_after))]
    pub(crate) fn after(self, word: u32) -> SysField
        ensures { result ≡ field_after self word }
    {
        match self {
            SysField::Stamp => SysField::NameLength,
            SysField::NameLength => name_before(word),
            SysField::Name { left } => name_after(left, word),
            SysField::Uid => SysField::Gid { uid: word },
            SysField::Gid { uid } => SysField::GidCount { uid },
            SysField::GidCount { uid } => {
                if word > MAX_GIDS {
                    SysField::Unreadable
                } else {
                    gids_before(uid, word)
                }
            }
            SysField::Gids { uid, left } => gids_before(uid, left.saturating_sub(1)),
            SysField::Whole { uid } => SysField::Whole { uid },
            SysField::Unreadable => SysField::Unreadable,
        }
    }
}
