//! What holds of hosts, peers and netids, and worked examples.
ghost use Rattle.rb_address.specs.Hosts.{PlainIsHost, PlainStays, MappedIsPlain};
ghost use Rattle.rb_address.specs.Netids.{NamesAreExact, NetidsAreExact, ProtocolsAreExact};
ghost use Rattle.rb_address.specs.Reading.{PeersAreSpelled};
ghost use Rattle.rb_address.specs.CallerTexts.{CallersAreSpelled};
ghost use Rattle.rb_address.specs.Worked.{HostsOfThisHost, PeersPrinted, PeersRead, OtherTextsRefused, CallersPrinted, CallersRead, OtherCallersRefused, HostsRead, NetworksRead, OtherNetworksRefused};

/// IPv4 in IPv6's form counts as IPv4, and no other host changes.
pub fn host_laws()
    ensures plain_is_host { PlainIsHost }
    ensures plain_stays { PlainStays }
    ensures mapped_is_plain { MappedIsPlain }
{}

/// Names, protocols and families are of one netid.
pub fn name_laws()
    ensures names_are_exact { NamesAreExact }
    ensures netids_are_exact { NetidsAreExact }
    ensures protocols_are_exact { ProtocolsAreExact }
{}

/// A text is read as a peer exactly if it is what is printed of the peer.
pub fn peer_laws()
    ensures peers_are_spelled { PeersAreSpelled }
{}

/// A text is read as a caller exactly if it is what is printed of the caller.
pub fn caller_laws()
    ensures callers_are_spelled { CallersAreSpelled }
{}

/// Worked examples of the definitions.
#[tactic(auto, unfolding(crate::proofs::OnLiterals::rb_address_on_literals))]
pub fn worked_examples()
    ensures hosts_of_this_host { HostsOfThisHost }
    ensures peers_printed { PeersPrinted }
    ensures peers_read { PeersRead }
    ensures other_texts_refused { OtherTextsRefused }
    ensures callers_printed { CallersPrinted }
    ensures callers_read { CallersRead }
    ensures other_callers_refused { OtherCallersRefused }
    ensures hosts_read { HostsRead }
    ensures networks_read { NetworksRead }
    ensures other_networks_refused { OtherNetworksRefused }
{}
