//! What holds of every table of endpoints, and every event. The functions do nothing.
//!
//! RTPS 2.5, 8.5.4 (SEDP).

ghost use Rattle.rtps_matching.specs.Laws.{AddTells, AddsOnce, AnnounceTells, AnnouncesFew, AnnouncesOnce, LeaveTells, LeavesOnce, OpensOnce, OthersStay, RemoveTells, RemovesOnce, SleepTells, TurnsOnce, WakeTells, WithdrawTells};

/// What an event tells is just what it changed of who is matched with whom: who is matched now and was not, who was and is
/// not; and everybody else is matched as before.
pub fn what_is_told_is_so()
    // So it is where an endpoint is announced, of names that stand once,
    ensures announce { AnnounceTells }
    // where one is gone,
    ensures withdraw { WithdrawTells }
    // where a participant leaves,
    ensures leave { LeaveTells }
    // where its lease ends,
    ensures sleep { SleepTells }
    // where it is there again, of names that stand once,
    ensures wake { WakeTells }
    // where there is one more of our own,
    ensures add { AddTells }
    // and where one of our own goes.
    ensures remove { RemoveTells }
{}

/// No two of our own have one name, and no two of others: it is so of a table without endpoints, and each event leaves it so.
pub fn names_stand_once()
    // It is so at first,
    ensures opening { OpensOnce }
    // where there is one more of our own,
    ensures add { AddsOnce }
    // where one of our own goes,
    ensures remove { RemovesOnce }
    // where one of others goes, or those of a participant,
    ensures leave { LeavesOnce }
    // where those of a participant sleep or wake,
    ensures turn { TurnsOnce }
    // and where one is announced.
    ensures announce { AnnouncesOnce }
{}

/// An announcement is of its endpoint alone.
pub fn an_announcement_is_of_one()
    // Each other far endpoint stays as it was, and none comes.
    ensures others { OthersStay }
    // Of no participant more are known than may be.
    ensures few { AnnouncesFew }
{}
