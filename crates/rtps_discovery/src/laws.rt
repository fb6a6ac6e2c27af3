//! What holds of every table of participants, every datagram and every tick. The functions do nothing.
//!
//! RTPS 2.5, 8.5.3 (SPDP).

ghost use Rattle.rtps_discovery.specs.Laws.{OthersStay, NothingChanges, FewAreKnown, FewAreKnownAt, LeasesEnd, TicksOnlySleep, AnswersGoBack, AnnouncementsGoToKnown, FarewellsGoToKnown, SourcesWereHeard, ToldIsSo, OthersAreThere};

/// A datagram speaks for its sender alone, and only at the address that it came from: of every other participant, and of
/// one of its name at another address, what is known stays. Only a row that sleeps may make room.
pub fn others_stay()
    // Another row stays as it was, where it is awake, and none is new.
    ensures others { OthersStay }
    // What is no message of another participant changes no row.
    ensures nothing { NothingChanges }
{}

/// The table never grows past its limits, whatever comes and from wherever.
pub fn few_are_known()
    // It has no more rows than it may have in all.
    ensures few { FewAreKnown }
    // It has no more of one address than it may have of one.
    ensures of_one_address { FewAreKnownAt }
{}

/// Nobody is taken to be there for longer than its lease.
pub fn leases_end()
    // Who is there after a tick was heard within its lease.
    ensures leases { LeasesEnd }
    // A tick changes nothing else.
    ensures sleep { TicksOnlySleep }
{}

/// Nothing is sent to an address because a datagram says so: only back to where it came from, and to those that are told
/// of us anyway.
pub fn what_is_sent_goes_back()
    // What answers a datagram goes to the address that it came from.
    ensures answer { AnswersGoBack }
    // Our announcements go to the addresses that are told of us anyway, and to those that rows came from.
    ensures announcements { AnnouncementsGoToKnown }
    // So does what we say as we leave.
    ensures farewells { FarewellsGoToKnown }
    // Rows come from the addresses that datagrams came from.
    ensures sources { SourcesWereHeard }
{}

/// Who appears was not there and now is; who is gone was there and is not.
pub fn what_is_told_is_so()
    // So it is of the sender of a datagram.
    ensures told { ToldIsSo }
    // Every other participant is there as before.
    ensures others { OthersAreThere }
{}
