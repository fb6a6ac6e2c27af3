//! What holds of every network and every run.
//!
//! The laws are this project's own; what they speak of is in RTPS 2.5, 8.3.8 and 8.4 (behaviour), and DDS 1.4,
//! 2.2.3.

ghost use Rattle.std.specs.Prelude.{◌≡◌, ◌↔◌, ◌⊎◌, ◌+◌, ◌<◌, ◌≤◌, ◌∷◌, [], IsTrue, List, length, ℕ};
ghost use Rattle.dds_protocol.specs.Backed.{CallsBacked};
ghost use Rattle.dds_protocol.specs.Bounds.{NobodyIsStrange, OpensBounded, RunsBounded, StepsBounded};
ghost use Rattle.dds_protocol.specs.CatchUp.{WindowCatchesUp};
ghost use Rattle.dds_protocol.specs.Closed.{BestEffortAsDropped, ClosedAcknowledges, ClosedBeginsNone, ClosedClaims, ClosedInOrder, ClosedLosesNone, ClosedOwesAll, OpensClosed, RunsAlike, RunsClosed, StaysClosed};
ghost use Rattle.dds_protocol.specs.Coming.{ComesAsPart, ComesBounded, ComesSound, ComesUsed, OpensSoundFirst, OpensUsedFirst};
ghost use Rattle.dds_protocol.specs.DueMessages.{AreSent, Due, packet_of};
ghost use Rattle.dds_protocol.specs.Dues.{CallsStayDue};
ghost use Rattle.dds_protocol.specs.Fresh.{OpensUsed, StepsUsed};
ghost use Rattle.dds_protocol.specs.Greetings.{OpensAnswered, RunsAnswered, StaysAnswered};
ghost use Rattle.dds_protocol.specs.InOrder.{ChangesComeInOrder};
ghost use Rattle.dds_protocol.specs.Laws.{AnswersAreTrue, AnswersCanBeWritten, AssertionsAreTrue, AssertionsCanBeWritten, Composes, ComposesRuns, HeartbeatsAreTrue, HeartbeatsCanBeWritten, KeepAllIsKept, OpensBacked, OpensSound, OwnersExist, ReadersTellWritersApart, ResumesRestOnClaims, RulesRestOnClaims};
ghost use Rattle.dds_protocol.specs.Meetings.{NobodyIsMet};
ghost use Rattle.dds_protocol.specs.Protocol.{answers_per};
ghost use Rattle.dds_protocol.specs.Repair.{AnswersAreFew, AsksAreSent, BeatsAreSent, PairCatchesUp, packets_for};
ghost use Rattle.dds_protocol.specs.Roster.{ConfigsAreGood, GoodAreRosters};
ghost use Rattle.dds_protocol.specs.Tellings.{RunsOweNoMore, StepsOweNoMore};
ghost use Rattle.dds_protocol.specs.declared.event.Packet.{Packet};

use crate::event::{Event, Output};
use dds_base::laws::owner_is_found;

/// The other laws go by a roster. That of a configuration that is not refused is one, and so is that of the peers of an
/// opening and, behind them, whoever comes.
pub fn configurations_are_rosters()
    // Each peer of a configuration that is not refused is good by itself, and told apart from the others.
    ensures good { ConfigsAreGood }
    // By such peers, however many there are, there is a roster.
    ensures roster { GoodAreRosters }
{}

/// All that packets claim is true at the opening of every configuration.
pub fn opens_sound()
    ensures opening { OpensSound }
{}

/// A network opens with the first peers of its roster, and each next one may come at any moment: its ends are matched
/// with its own alone. What is true of those that are there stays so.
///
/// RTPS 2.5, 8.2.
pub fn peers_may_come()
    // All that packets claim is true at the opening, also by a roster that goes on behind its peers,
    ensures opens { OpensSoundFirst }
    // and no count has been used.
    ensures unused { OpensUsedFirst }
    // A peer that comes is one part of the machine more.
    ensures part { ComesAsPart }
    // All claims stay true,
    ensures sound { ComesSound }
    // the counts that were sent or taken are used,
    ensures used { ComesUsed }
    // and places stay within the lists.
    ensures bounded { ComesBounded }
{}

/// A step of a network's peers, on packets that were sent, is a step of the machine, and leaves all claims true.
pub fn composes()
    ensures step { Composes }
{}

/// A run of a network's peers is a run of the machine.
pub fn composes_runs()
    ensures run { ComposesRuns }
{}

/// No run passes over a change that a writer that keeps all owes a reliable reader; while nobody comes or goes, over
/// none of its changes.
pub fn keep_all_is_kept()
    // What is owed at the end of a run was passed over nowhere in it.
    ensures kept { KeepAllIsKept }
    // Where nobody has come or left, nothing is passed over while nobody does.
    ensures closed { ClosedLosesNone }
{}

/// Nobody has come or left: each place has begun, and each matched reliable reader is owed all changes. While no
/// writer and no reader is told who is matched with it, this stays so, no place begins, and what is not owed adds
/// nothing to what may be passed over, and to what packets claim.
pub fn nobody_comes_or_goes()
    // It is so at the opening,
    ensures opening { OpensClosed }
    // after every event at which nobody comes or goes,
    ensures step { StaysClosed }
    // and after every run of such events.
    ensures run { RunsClosed }
    // No place begins in these.
    ensures begins { ClosedBeginsNone }
    // They are those in which a change is passed over only if it was dropped.
    ensures dropped { RunsAlike }
    // All is owed there,
    ensures owed { ClosedOwesAll }
    // so what came is the beginning of the list of a writer that keeps all.
    ensures order { ClosedInOrder }
    // Packets claim there that a change is dropped, or that its reader is past it,
    ensures claims { ClosedClaims }
    // and no reader has acknowledged more than it has.
    ensures acknowledged { ClosedAcknowledges }
    // What is not owed is nothing to a best-effort reader, whoever came or left.
    ensures best_effort { BestEffortAsDropped }
{}

/// A writer and a reader may be told by calls, at any moment, that they are matched from now on, or no longer, whatever
/// the other side knows: what the writer does not owe the reader it never will.
///
/// Runs have these calls as all others. So claims stay true (`composes`), places stay within the lists
/// (`places_are_bounded`), and counts are used (`counts_are_fresh`); what a writer that keeps all owes at the end was
/// passed over nowhere (`keep_all_is_kept`), and what came where it owes all came in order (`changes_come_in_order`).
///
/// RTPS 2.5, 8.4.7.4, 8.4.10.3.
pub fn whoever_comes_or_goes()
    // What is owed begins no earlier after an event,
    ensures event { StepsOweNoMore }
    // and after a run.
    ensures run { RunsOweNoMore }
    // After a call what a peer knows is what packets claimed, as before,
    ensures backed { CallsBacked }
    // and after one that tells, what it has to send is true, and can be written, as before.
    ensures due { CallsStayDue }
{}

/// A peer may meet writers and readers that no configuration lists, by two calls. By any other event it meets nobody, nor
/// by one that is refused: so these ask nothing of a roster.
///
/// RTPS 2.5, 8.4.7.4, 8.4.10.3.
pub fn nobody_is_met()
    // Whatever the roster, it has whom the peer meets by these.
    ensures none { NobodyIsMet }
{}

/// After every run, the changes of a writer that keeps all that came at a reader that it was matched with at the
/// opening are the first ones of its list, as many as lie before the reader's place there, where it owes it all: it
/// was told of the reader before its first change, and of no parting after it.
pub fn changes_come_in_order()
    ensures order { ChangesComeInOrder }
{}

/// After every run, a reader's place in the list of a matched writer is at most one past the number of the last change:
/// who acknowledges more speaks of another writer, of the same name.
///
/// RTPS 2.5, 8.4.10.
pub fn places_are_bounded()
    // It is so at the opening of every configuration.
    ensures opening { OpensBounded }
    // No step of the machine changes that.
    ensures step { StepsBounded }
    // So it is after every run.
    ensures run { RunsBounded }
    // So in no run does a reader acknowledge changes that were never made.
    ensures strange { NobodyIsStrange }
{}

/// `==` says of two events whether they are equal.
pub fn events_are_compared(event: &Event, other: &Event) -> bool
    ensures equal { IsTrue result ↔ (event.now ≡ other.now) }
{
    event == other
}

/// `==` says of two outputs whether they are equal.
pub fn outputs_are_compared(output: &Output, other: &Output) -> bool
    ensures equal { IsTrue result ↔ (output.now ≡ other.now) }
{
    output == other
}

/// Each reader of a configuration that is not refused tells its matched writers apart, by GUIDs and by publication
/// handles: so an instance has an owner wherever a writer is registered for it.
pub fn owners_exist()
    // Each reader tells its matched writers apart.
    ensures apart { ReadersTellWritersApart }
    // Wherever a writer is registered for an instance, the instance has an owner.
    ensures owner { OwnersExist }
{
    owner_is_found();
}

/// What a peer does with a packet by the rules of the protocol rests on what that packet and earlier ones claim. What
/// it knows beside its part of the machine is claimed by them too, at the opening and after each packet, and where a
/// reader's places are tried again.
///
/// RTPS 2.5, 8.4.9, 8.4.12.
pub fn rules_rest_on_claims()
    // At the opening a peer knows nothing.
    ensures opening { OpensBacked }
    // A packet that is taken up by the rules moves what it may move, and leaves known what is claimed.
    ensures packet { RulesRestOnClaims }
    // Places that are tried again move as far as they may, and leave known what is claimed.
    ensures resume { ResumesRestOnClaims }
{}

/// What the rules of the protocol ask a peer to send claims, once it is written, only what is true of the peer's own
/// lists and places.
///
/// RTPS 2.5, 8.4.9, 8.4.12.
pub fn what_is_due_is_true()
    // So do the ACKNACKs and the answers that are due to a packet.
    ensures packet { AnswersAreTrue }
    // So do the HEARTBEATs that are due at a tick.
    ensures tick { HeartbeatsAreTrue }
    // They have a written form, whichever readers are behind, ask for one, or are silent.
    ensures ticked { HeartbeatsCanBeWritten }
    // What is due to a packet has a written form, whatever the packet asked for.
    ensures written { AnswersCanBeWritten }
    // So do the HEARTBEATs that tell an assertion.
    ensures assertion { AssertionsAreTrue }
    // They have a written form too.
    ensures told { AssertionsCanBeWritten }
{}

/// Each message that is due is sent, as one packet, or counted as unsent, and nothing else is.
///
/// RTPS 2.5, 8.4.9, 8.4.12.
pub fn each_due_message_is_sent_or_counted()
    // Where nothing is due, nothing is sent, and nothing is counted.
    ensures nothing { (packets : List Packet) (unsent : ℕ) → AreSent [] packets unsent
        → (packets ≡ []) × (unsent ≡ 0) }
    // One due message is one packet to its peer, in its written form, or counts 1.
    ensures one { (due : Due) (packets : List Packet) (unsent : ℕ) → AreSent (due ∷ []) packets unsent
        → ((packets ≡ (packet_of due) ∷ []) × (unsent ≡ 0)) ⊎ ((packets ≡ []) × (unsent ≡ 1)) }
    // As many as are due are sent or counted.
    ensures all { (dues : List Due) (packets : List Packet) (unsent : ℕ) → AreSent dues packets unsent
        → length packets + unsent ≡ length dues }
{}

/// No count of a HEARTBEAT or of an ACKNACK is sent or taken that its sender has not used: so the next one is newer
/// than all before it.
///
/// RTPS 2.5, 8.3.8, 8.4.9, 8.4.12.
pub fn counts_are_fresh()
    // At the opening none was sent.
    ensures opening { OpensUsed }
    // An event of a network by the rules leaves it so.
    ensures step { StepsUsed }
{}

/// Where nobody is greeted nobody is silent: so each HEARTBEAT goes to the last number, as if there were no greetings.
///
/// RTPS 2.5, 8.3.8, 8.4.7.
pub fn nobody_is_silent()
    // Nobody is silent at the opening,
    ensures opens { OpensAnswered }
    // after every event at which nobody is greeted,
    ensures stays { StaysAnswered }
    // and after every run of such events.
    ensures runs { RunsAnswered }
{}

/// A reader that takes a HEARTBEAT, and then an answer to each number that its ACKNACK asked for, has gone on by 256
/// numbers, or to the end of the writer's list, or to a change that has no room.
///
/// RTPS 2.5, 8.4.9, 8.4.12.
pub fn window_catches_up()
    ensures window { WindowCatchesUp }
{}

/// After a round of repair of a writer and a reader, which are matched at both sides, in a network by the rules, the
/// reader has gone on by 256 numbers, or to the end of the writer's list, or to a change that has no room; and the
/// writer knows of all that the reader had before. A reader whose place waits begins in the round. One that was greeted
/// has to have answered before, since its HEARTBEATs name no change till then. So it is also where both are at one
/// peer, and whatever other writers and readers do meanwhile.
///
/// RTPS 2.5, 8.4.9, 8.4.12.
pub fn pair_catches_up()
    // After the round.
    ensures round { PairCatchesUp }
    // It begins with a HEARTBEAT where the reader is behind.
    ensures beat { BeatsAreSent }
    // A reader that is behind answers that with an ACKNACK.
    ensures ask { AsksAreSent }
    // The answers to that go in 32 packets at most, or in 256 where values may be longer than usual.
    ensures answers { AnswersAreFew }
{}

/// Where values are no longer than usual, of at most 1,024 octets, eight answers stand in a packet, and 32 packets have
/// all answers of a round; where they may be longer, one stands in each.
pub fn usual_values_stand_together()
    // Eight.
    ensures eight { (most : ℕ) → most ≤ 1024 → answers_per most ≡ 8 }
    // And 32 packets.
    ensures packets { (most : ℕ) → most ≤ 1024 → packets_for most ≡ 32 }
    // Else one.
    ensures one { (most : ℕ) → 1024 < most → answers_per most ≡ 1 }
{}
