//! What is done about a file at the path where rows are kept, as the daemon starts.
ghost use Rattle.std.specs.Prelude.{◌≡◌};
ghost use Rattle.rb_policy.specs.KeepFile.{keep_action, is_trusted, others_may_write, action_on_file};

/// Who may have written a plain file.
#[derive(Clone, Copy)]
pub struct Writers {
    /// The user that the file belongs to.
    pub owner: u32,
    /// Its mode, of which the bits of permission are looked at.
    pub mode: u32,
}

/// What is at the path.
#[derive(Clone, Copy)]
pub enum KeepState {
    /// Nothing.
    Absent,
    /// A plain file.
    Plain(Writers),
    /// A file of another kind: a link, a folder, a socket, a device or a FIFO.
    Other,
}

/// Why a file is not believed.
#[derive(Clone, Copy)]
pub enum Distrust {
    /// It is no plain file.
    NoPlainFile,
    /// It belongs to this user, who is neither root nor the daemon's own.
    OtherOwner(u32),
    /// Its group or others may write to it, by this mode.
    OthersMayWrite(u32),
}

/// What is done about it.
#[derive(Clone, Copy)]
pub enum KeepAction {
    /// The daemon begins with no rows.
    Begin,
    /// The rows of the file are set again.
    Read,
    /// The daemon does not start, and the file stays.
    GiveUp(Distrust),
}

/// What is done about what is at the path, for a daemon of this user.
pub fn keep_action(own: u32, state: KeepState) -> KeepAction
    ensures { result ≡ keep_action own state }
{
    match state {
        KeepState::Absent => KeepAction::Begin,
        KeepState::Plain(file) => action_on_file(own, file),
        KeepState::Other => KeepAction::GiveUp(Distrust::NoPlainFile),
    }
}

fn action_on_file(own: u32, file: Writers) -> KeepAction
    ensures { result ≡ action_on_file own file }
{
    if !is_trusted(own, file.owner) {
        KeepAction::GiveUp(Distrust::OtherOwner(file.owner))
    } else if others_may_write(file.mode) {
        KeepAction::GiveUp(Distrust::OthersMayWrite(file.mode))
    } else {
        KeepAction::Read
    }
}

pub(crate) fn is_trusted(own: u32, owner: u32) -> bool
    ensures { result ≡ is_trusted own owner }
{
    owner == 0 || owner == own
}

fn others_may_write(mode: u32) -> bool
    ensures { result ≡ others_may_write mode }
{
    mode & 0o022 != 0
}
