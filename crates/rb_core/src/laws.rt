//! What holds of what a core holds.
ghost use Rattle.rb_core.specs.HeldBytes.{HeldBytesAreBounded};
ghost use Rattle.rb_core.specs.WorkedHeld.{FreshCoreHolds};

/// In each state that a run reaches, what the core holds is at most the bound, less 1,868 bytes for each connection that is
/// Idle or Reading; and of such a connection it holds at most 128 + 8,816 bytes.
pub fn held_bytes_are_bounded()
    ensures { HeldBytesAreBounded }
{}

// HELD-3 HELD-5
/// The definition of held bytes gives what the worked example says.
pub fn worked_held()
    ensures { FreshCoreHolds }
{}
