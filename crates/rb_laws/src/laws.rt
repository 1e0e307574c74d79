//! What holds of the definitions.
ghost use Rattle.rb_model.specs.Grammar.{AskedMessagesAreOfTheGrammar, RefusedMessagesAreOfTheGrammar, GarbageMessagesAreOfTheGrammar, NoCallsAreOfTheGrammar};
ghost use Rattle.rb_model.specs.State.{State};
ghost use Rattle.rb_model.specs.Laws.{RunsAppend, StatesAppend, RefusedEventsChangeNothing, NumbersNeverRecur, CutsDoNotMatter, NextLostIsLeast, BytesAreTakenExactly, RepliesAreGivenWhole, OwedRepliesStay, LedgersAreWellKept};
ghost use Rattle.rb_model.specs.ChangeLaws.{ChangesAreAccepted, ChangesAreThoseAccepted, ReservedRowsAreSetByTheirOwners, ReservedRowsAreOwned, RowsCanBeSet, RowsAreSpelled, KeptCallsAreShort, RowsCanBeSetAgain, KeptRowsAreRestored, KeptRowsAreInNoStatistics};
ghost use Rattle.rb_model.specs.Reflections.{RepliesAreAtMostTwice, StrangersAreSentAtMostTwice};
ghost use Rattle.rb_model.specs.CallerLaws.{StrangersChangeNothing, StrangersBringNoKeys, LocalOwnersKeepTheirs};
ghost use Rattle.rb_model.specs.HistoryLaws.{EventsAreNoted, HistoryIsOfItsEvents};
ghost use Rattle.rb_model.specs.Gives.{GivesAreSteps};
ghost use Rattle.rb_model.specs.Closings.{ConnectionsCloseExactly};
ghost use Rattle.rb_model.specs.ForwardLaws.{ConnectionsAwait, SendsAreUnsent, RepliesEndTheirOwn, DeadlinesEndOne, UdpCallersAreTold, EventsChangeAtMostOne, EntriesEndOnce};
ghost use Rattle.rb_model.specs.Sessions.{SessionsAreWhole};
ghost use Rattle.rb_model.specs.DeadlineLaws.{ExpireDoesOneThing, NothingIsDueSoon};
ghost use Rattle.rb_model.specs.NextDeadlines.{NextDeadlinesAreExact};
ghost use Rattle.rb_model.specs.BoundLaws.{StepsAreBounded, RunsAreBounded};
ghost use Rattle.rb_model.specs.WholeRuns.{EventsArePaidAhead, WholeRunsAreBounded};
ghost use Rattle.rb_model.specs.OutsiderCosts.{EventsCostFew, DatagramsCostFew, ListsCostByRows, OutsidersPayAhead};

/// For each connection in each run: the bytes taken on it are the marked records of its calls and an unfinished rest;
/// those given on it, and then those still owed, are the marked replies to these calls, joined in order; and no byte is
/// taken while a reply is owed or awaited. Of one that is Lost or gone, those given are a front of the replies.
pub fn sessions_are_whole()
    ensures { SessionsAreWhole }
{}

/// A message asks for a procedure exactly if its bytes begin with a call of it and its arguments. It is refused with
/// each status exactly if they begin with what that status is for. Its arguments are garbage exactly if they begin
/// with a call of a procedure that there is, and then with the arguments of no request. It is no call exactly if they
/// begin with no call and with nothing that RPC refuses.
pub fn messages_are_of_the_grammar()
    ensures asked { AskedMessagesAreOfTheGrammar }
    ensures refused { RefusedMessagesAreOfTheGrammar }
    ensures garbage { GarbageMessagesAreOfTheGrammar }
    ensures no_call { NoCallsAreOfTheGrammar }
{}

/// A run of two lists of events is the run of the first, and then of the second.
pub fn runs_append()
    ensures outputs { RunsAppend }
    ensures states { StatesAppend }
{}

/// A refused event leaves the state, its clock too.
pub fn refused_events_change_nothing()
    ensures { RefusedEventsChangeNothing }
{}

/// The numbers that a run gives to connections only go up.
pub fn numbers_never_recur()
    ensures { NumbersNeverRecur }
{}

/// Bytes in two pieces do what they do in one, if no record ends in the first.
pub fn cuts_do_not_matter()
    ensures { CutsDoNotMatter }
{}

/// In each state that a run reaches, the look for a Lost connection finds the one of the least number.
pub fn next_lost_is_least()
    ensures { NextLostIsLeast }
{}

/// In each state that a run reaches, bytes are taken up to the end of the first record, which is answered, or all if
/// there is none: by cases, how many, and what the connection is about from then on.
pub fn bytes_are_taken_exactly()
    ensures { BytesAreTakenExactly }
{}

/// In each state that a run reaches, what is pending of a reply comes next in it, and what was given is given no more.
pub fn replies_are_given_whole()
    ensures { RepliesAreGivenWhole }
{}

/// From every state, what is given into a room is given by steps: a look at what is pending and the giving of it, for the rest
/// of the fragment that is pending and for each fragment after it. The state is the same after them.
pub fn gives_are_steps()
    ensures { GivesAreSteps }
{}

/// Only bytes given on its connection, or the close of it, change what is owed, unless the connection is Lost.
pub fn owed_replies_stay()
    ensures { OwedRepliesStay }
{}

/// In each state that a run reaches, a live connection becomes Lost exactly by the end of a record that is no call; or
/// at its deadline, when no forwarded call is due and no connection of lesser number is; or, if a SET needs room, by
/// the list that is given on it. It is gone exactly by its close.
pub fn connections_close_exactly()
    ensures { ConnectionsCloseExactly }
{}

/// In each state that a run reaches, a connection is Awaiting exactly while one forwarded call is its own, and no other
/// connection has one.
pub fn connections_await()
    ensures { ConnectionsAwait }
{}

/// In each state that a run reaches: if a connection stands as Sends after bytes, its forwarded call is there and was
/// not sent, and so the look for an unsent call finds one.
pub fn sends_are_unsent()
    ensures { SendsAreUnsent }
{}

/// A datagram ends the first forwarded call that was sent to the host and port that it comes from, by its xid and before its
/// deadline, and its caller is told what the datagram says; a deadline ends the first whose it is. Every other datagram
/// leaves all but the clock and the last reply over UDP.
pub fn calls_end_by_their_own()
    ensures replies { RepliesEndTheirOwn }
    ensures deadlines { DeadlinesEndOne }
    ensures over_udp { (s : State) → UdpCallersAreTold s }
{}

/// From every state, an event ends one of the forwarded calls, or begins one after them, with the next number, or does
/// neither. In every run from an opening, each that has begun has ended with exactly one event, or is still there, once.
pub fn entries_end_once()
    ensures events { EventsChangeAtMostOne }
    ensures runs { EntriesEndOnce }
{}

/// In each state that a run reaches, for every listener: each change was accepted, no two live rows are of one program,
/// version and netid, and at good limits at most `limits.rows` rows are live.
pub fn ledgers_are_well_kept()
    ensures { LedgersAreWellKept }
{}

/// In each state that a run reaches, at most as many calls of `expire` at one moment as there may be connections and
/// forwarded calls reach one at which nothing is due.
pub fn nothing_is_due_soon()
    ensures { NothingIsDueSoon }
{}

/// In each state that a run reaches, `expire` ends the due forwarded call of least number; if none is due, the due
/// connection of least number is Lost; and if none is due either, it changes nothing but the clock and the last
/// reply.
pub fn expire_does_one_thing()
    ensures { ExpireDoesOneThing }
{}

/// In each state, `expire` finds nothing at a moment before the next deadline, or if there is none, and changes nothing
/// but the clock and the last reply; from the next deadline on it finds something. A moment before the clock counts as
/// the clock.
pub fn next_deadlines_are_exact()
    ensures { NextDeadlinesAreExact }
{}

/// In each state that a run reaches at good limits, an event costs at most 8 steps for each byte that it takes, lends or tells
/// that it was given, 64 for each connection, row, key and forwarded call that there may be, and 16 for each byte of the
/// longest call; and so over each run from there.
pub fn steps_are_bounded()
    ensures events { StepsAreBounded }
    ensures runs { RunsAreBounded }
{}

/// In each state that a run reaches at good limits, a run from there costs at most 16 steps for each byte that it takes or
/// gives and for each byte of arguments that waits as it begins, and for each event 64 for each connection, row, key of the
/// statistics and forwarded call that there may be, and 4,096. What the end of a record reads was paid by the events that
/// brought it.
pub fn whole_runs_are_bounded()
    ensures events { EventsArePaidAhead }
    ensures runs { WholeRunsAreBounded }
{}

/// In each state that a run reaches at good limits, an event that is no SET or UNSET of a caller that may register costs at
/// most 16 steps for each byte that it takes, lends or reports as given, and 34,000, and for a list 20 more for each row
/// that there may be, and 2,000, whatever is registered, retained, open or forwarded. A datagram costs at most a step for
/// each of its bytes, two for each of its reply's, and 2,048, and as much more for a list. In a run from an opening at good
/// limits, all events of some outsiders together, the ends of their connections and the sending and the ends of their
/// forwarded calls among these, cost at most what the others of these may cost, and 22,000 for each opening, piece of bytes
/// and datagram.
pub fn outsiders_cost_few()
    ensures events { EventsCostFew }
    ensures datagrams { DatagramsCostFew }
    ensures lists { ListsCostByRows }
    ensures runs { OutsidersPayAhead }
{}

/// From every state, an event leaves the accepted changes, or appends one: the SET or UNSET of a whole call that it brings,
/// from a caller that may register, which is answered TRUE. Each that is answered so is appended. In every run from an opening,
/// the changes are those of its calls, in order.
pub fn changes_are_accepted()
    ensures events { ChangesAreAccepted }
    ensures runs { ChangesAreThoseAccepted }
{}

/// From every state, a row of a reserved program that an event adds is of uid 0, or of a uid for which the program is
/// reserved. In each state that a run reaches, so is each live row of a reserved program.
pub fn reserved_rows_are_owned()
    ensures events { ReservedRowsAreSetByTheirOwners }
    ensures rows { ReservedRowsAreOwned }
{}

/// From every state, a call of a stranger's leaves the accepted changes, and brings no key into the statistics but those
/// of live rows. In each state that a run reaches, a call of a caller that is known as an owner other than uid 0 leaves
/// the rows of all other owners, whatever its credential says.
pub fn callers_change_their_own()
    ensures strangers { StrangersChangeNothing }
    ensures owners { LocalOwnersKeepTheirs }
    ensures notes { StrangersBringNoKeys }
{}

/// From every state in which long replies over UDP are not allowed, the reply to a stranger's datagram has at most
/// twice its bytes. In every run that begins so, strangers are sent over UDP, at once and at the end of forwarded
/// calls, at most twice the bytes that came in their names: all of them together, those at one host, or each alone.
pub fn strangers_are_sent_at_most_twice()
    ensures replies { RepliesAreAtMostTwice }
    ensures runs { StrangersAreSentAtMostTwice }
{}

/// From every state, an event appends to the history its notes and nothing else: a whole call that it brings counts as
/// called if it reaches its procedure, and as what it did there; a forwarded call that it ends counts by its outcome.
/// If statistics begin anew, the history is empty. In every run from an opening, the history is the notes of its
/// events, in order, from where statistics last began anew.
pub fn calls_are_noted()
    ensures events { EventsAreNoted }
    ensures runs { HistoryIsOfItsEvents }
{}

/// In each state that a run reaches, each row that was set may be set: it is of another program than the portmapper, at
/// an address of its netid. If the run is of bytes and of uids of 32 bits, bytes can spell each, in a SET of at most
/// 368 bytes. These SETs, from this machine and by the owners of the rows, are all answered TRUE in a run from any
/// opening with room for them that reserves their programs for no other owners, and set just these rows, in their order. From the opening of the same setting, at good
/// limits, the live rows are then the same; and if statistics begin anew after these SETs, they stay so, and nothing
/// was called.
pub fn kept_rows_are_restored()
    ensures settable { RowsCanBeSet }
    ensures spelled { RowsAreSpelled }
    ensures short { KeptCallsAreShort }
    ensures again { RowsCanBeSetAgain }
    ensures restored { KeptRowsAreRestored }
    ensures uncounted { KeptRowsAreInNoStatistics }
{}
