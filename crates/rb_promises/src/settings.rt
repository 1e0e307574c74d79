//! What no event changes.
ghost use Rattle.rb_promises.specs.Settings.{SettingsStay, SettingsStayInRuns, SettingsAreThoseOfTheOpening};

/// No event changes the limits, the listener or the xid of the first call that is forwarded, and so no run does. In
/// each state that a run reaches they are those that it was opened with.
pub fn settings_stay()
    ensures events { SettingsStay }
    ensures runs { SettingsStayInRuns }
    ensures opening { SettingsAreThoseOfTheOpening }
{}
