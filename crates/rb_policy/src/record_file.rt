//! What is done about a file at the path of a record, as the daemon starts.
ghost use Rattle.std.specs.Prelude.{◌≡◌};
ghost use Rattle.rb_policy.specs.RecordFile.{record_action};

/// What is at the path.
#[derive(Clone, Copy)]
pub enum RecordState {
    /// Nothing.
    Absent,
    /// A plain file, as of an older record.
    Plain,
    /// A file of another kind: a link, a folder, a socket, a device, or a FIFO, which could keep the daemon waiting.
    Other,
}

/// What is done about it.
#[derive(Clone, Copy)]
pub enum RecordAction {
    /// A new file is made.
    Make,
    /// The file is removed, and a new one is made.
    RemoveAndMake,
    /// The daemon does not start, and the file stays.
    GiveUp,
}

/// What is done about what is at the path.
pub fn record_action(state: RecordState) -> RecordAction
    ensures { result ≡ record_action state }
{
    match state {
        RecordState::Absent => RecordAction::Make,
        RecordState::Plain => RecordAction::RemoveAndMake,
        RecordState::Other => RecordAction::GiveUp,
    }
}
