//! Laws of who has a place, of who may ask and is believed, of what waits until it is known whose it is, of where the ends of forwarded calls go, of how many
//! datagrams are served, and of how many lines a log gets.
ghost use Rattle.rb_policy.specs.Trusts.{OthersNeedNoTable, OthersAreStrangers, OthersAreStrangersOverUdp};
ghost use Rattle.rb_policy.specs.Asks.{ChangesWait, PartsAreNotWhole};
ghost use Rattle.rb_policy.specs.Shares.{SlicesAreAQuarter};
ghost use Rattle.rb_policy.specs.BrakeLaws.{NeverMore, NeverHeldBack, HaveOnePlace, AreNetworks, StrangersCount, OneSecondIsServed, PlacesGoByTheKey};
ghost use Rattle.rb_policy.specs.DoorLaws.{SharesAreKept, OneIsGivenUp, RootStays, UnawaitedGoFirst, EarlierWaits, WaitersGoLast, OthersKeepAQuarter};
ghost use Rattle.rb_policy.specs.LogLaws.{FewOfASecond, FewInAll, NoneIsLost, OwnCountsAreApart, OwnersAndHostsAreApart, TheyAreToldThen};
ghost use Rattle.rb_policy.specs.Networks.{WhoMayAsk, AskersOfOneNetwork};
ghost use Rattle.rb_policy.specs.WaysBack.{EndsGoBack, OthersStay};

/// If a connection is given up for a client that comes, it is one and no other, and those among whom the client counts hold no
/// more than their share then, or no more than before, unless it is root. One of root is given up only if all are root's, and
/// one on which nobody waits for a reply goes first. Of those whose calls wait for the kernel's tables the one that came
/// last is given up, and within their share only if all others wait too. Whatever a user of this host does, a quarter of the
/// places is left to others.
pub fn door_laws()
    ensures one { OneIsGivenUp }
    ensures shares { SharesAreKept }
    ensures root { RootStays }
    ensures unawaited { UnawaitedGoFirst }
    ensures turns { EarlierWaits }
    ensures waiters { WaitersGoLast }
    ensures others { OthersKeepAQuarter }
{}

/// Everybody may ask if no networks are given, else this machine and those in one of them, and no others; and worked
/// examples.
pub fn network_laws()
    ensures who { WhoMayAsk }
    ensures examples { AskersOfOneNetwork }
{}

/// The end of a forwarded call goes out on the socket on which the call came, whatever is noted of others meanwhile.
pub fn way_laws()
    ensures own { EndsGoBack }
    ensures others { OthersStay }
{}

/// Over TCP nobody registers but from 127.0.0.0/8 or ::1, and over UDP nobody but at a socket bound to 127.0.0.1 or ::1, from
/// exactly 127.0.0.1 or ::1. The kernel's tables are asked of this machine alone.
pub fn trust_laws()
    ensures others { OthersAreStrangers }
    ensures over_udp { OthersAreStrangersOverUdp }
    ensures tables { OthersNeedNoTable }
{}

/// However the record of a SET, an UNSET or a call to be forwarded is cut into fragments, and wherever what came of it
/// ends, it is held back until it is known whose it is; while a byte of it is missing, it counts as a part. While other work
/// waits, the kernel's tables are read in a quarter of the time at most.
pub fn ask_laws()
    ensures wait { ChangesWait }
    ensures parts { PartsAreNotWhole }
    ensures quarter { SlicesAreAQuarter }
{}

/// In no second are more datagrams served of one network, or of one host, than the rate has. One is dropped only if
/// that many were served within the second before it, of the place of its network or of its host, and neither has two
/// places. Places go by the key. The networks are those of 24 bits of IPv4, and of 48 of IPv6. Over UDP strangers count,
/// and nobody else.
pub fn brake_laws()
    ensures more { NeverMore }
    ensures back { NeverHeldBack }
    ensures places { HaveOnePlace }
    ensures networks { AreNetworks }
    ensures strangers { StrangersCount }
    ensures example { OneSecondIsServed }
    ensures keyed { PlacesGoByTheKey }
{}

/// In no second the log gets more than 20 lines of a kind and of one caller. What others ask for changes nothing for a caller
/// that has a count of its own, and what hosts ask for nothing for owners. Each line that the log does not get is counted,
/// and the count is told from its moment on, and not before.
pub fn log_laws()
    ensures few { FewOfASecond }
    ensures all { FewInAll }
    ensures own { OwnCountsAreApart }
    ensures apart { OwnersAndHostsAreApart }
    ensures none { NoneIsLost }
    ensures told { TheyAreToldThen }
{}
