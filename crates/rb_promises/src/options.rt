//! What the values of the options of rpcbind mean.
ghost use Rattle.rb_promises.specs.ReplayOptions.{BeginningsAreSpelled};
ghost use Rattle.rb_promises.specs.ServeOptions.{ServicesAreSpelled, SettingsMeetLaws};

/// A replay begins with this exactly if the values of its options spell it: the announced hosts, at most one of each
/// family, the path of the local socket, the numbers within their bounds, and the terms by their words.
pub fn beginnings_are_spelled()
    ensures { BeginningsAreSpelled }
{}

/// `serve` serves this exactly if the values of its options spell it: those that a replay has too, and also at most 16
/// addresses and 16 networks, each as its text says, the mode in octal digits, the rates, the record, the file of kept
/// rows, and what is told.
pub fn services_are_spelled()
    ensures { ServicesAreSpelled }
{}

/// What `serve` is asked for is as the laws of the daemon presuppose: its listener has a port other than 0 and a path that may
/// name a local socket, or none; its record is no longer than an input may be; and with `--udp-lists local` long replies
/// are not for strangers.
pub fn settings_meet_laws()
    ensures { SettingsMeetLaws }
{}
