//! Worked examples of the definitions.
#![tactic(auto, unfolding(rb_answers::proofs::OnLiterals::rb_answers_on_literals))]

ghost use Rattle.rb_proto.specs.Worked.{DumpOwnRows, SetGetportSetAgain, GetportGreatestVersion, SetAtRowLimit, VersionTwoRefuses, OwnersRemove, UnsetByOwner, OtherAddressesRefused, GetaddrByTransport, Getaddrlist, AddressTransportForm, LocalityAndGettime, RefusalsOfAcceptedCalls, GetstatFirstCall, GetstatAfterCalls, GetstatOfOtherCalls, GetstatFirstKeys, LongDump, LongPmapDump, ReservedRows};
ghost use Rattle.rb_proto.specs.WorkedForwards.{WithoutRow, WithOtherRows, PortmapperIsNotCalled, TableIsFull, FailuresAreCounted, AnyHostIsThisMachine, OtherHostsStay, EndsAreNoted, OthersAreNotNoted, PlacesAreShown};
ghost use Rattle.rb_proto.specs.WorkedNetids.{AddressesGoByNetid, TextsStay, OthersAreNotSeen, VersionTwoListsNone, Ipv6TransportForm};
ghost use Rattle.rb_proto.specs.WorkedLists.{SetsWantRoom, FullTableWantsNone, PartsCrossRows, ListsAreAsOfTheirCall};

/// The definitions give what the worked examples say.
pub fn worked_examples()
    ensures dump_own_rows { DumpOwnRows }
    ensures set_getport_set_again { SetGetportSetAgain }
    ensures getport_greatest_version { GetportGreatestVersion }
    ensures set_at_row_limit { SetAtRowLimit }
    ensures version_two_refuses { VersionTwoRefuses }
    ensures owners_remove { OwnersRemove }
    ensures unset_by_owner { UnsetByOwner }
    ensures other_addresses_refused { OtherAddressesRefused }
    ensures getaddr_by_transport { GetaddrByTransport }
    ensures getaddrlist { Getaddrlist }
    ensures address_transport_form { AddressTransportForm }
    ensures locality_and_gettime { LocalityAndGettime }
    ensures refusals_of_accepted_calls { RefusalsOfAcceptedCalls }
    ensures getstat_first_call { GetstatFirstCall }
    ensures getstat_after_calls { GetstatAfterCalls }
    ensures getstat_of_other_calls { GetstatOfOtherCalls }
    ensures getstat_first_keys { GetstatFirstKeys }
    ensures long_dump { LongDump }
    ensures long_pmap_dump { LongPmapDump }
    ensures reserved_rows { ReservedRows }
{}

/// So they do of calls that are forwarded.
pub fn worked_forwards()
    ensures without_row { WithoutRow }
    ensures with_other_rows { WithOtherRows }
    ensures portmapper_is_not_called { PortmapperIsNotCalled }
    ensures table_is_full { TableIsFull }
    ensures failures_are_counted { FailuresAreCounted }
    ensures any_host_is_this_machine { AnyHostIsThisMachine }
    ensures other_hosts_stay { OtherHostsStay }
    ensures ends_are_noted { EndsAreNoted }
    ensures others_are_not_noted { OthersAreNotNoted }
    ensures places_are_shown { PlacesAreShown }
{}

/// And of the netids tcp6, udp6 and local.
pub fn worked_netids()
    ensures addresses_go_by_netid { AddressesGoByNetid }
    ensures texts_stay { TextsStay }
    ensures others_are_not_seen { OthersAreNotSeen }
    ensures version_two_lists_none { VersionTwoListsNone }
    ensures ipv6_transport_form { Ipv6TransportForm }
{}

/// And of SETs that need room, and of lists in parts.
pub fn worked_lists()
    ensures sets_want_room { SetsWantRoom }
    ensures full_table_wants_none { FullTableWantsNone }
    ensures parts_cross_rows { PartsCrossRows }
    ensures lists_are_as_of_their_call { ListsAreAsOfTheirCall }
{}
