//! The leases of a reader's matched writers.
//!
//! DDS 1.4, 2.2.3 (LIVELINESS), 2.2.4.1 (LIVELINESS_CHANGED).

ghost use Rattle.std.specs.Prelude.{◌≡◌, ◌+◌, ◌≤◌, ◌<◌, ◌||◌, List, [], ◌∷◌, length, OnOk, OnErr, find, nat_lt, IfOk, IfErr, IfNone, IfSome, MatchOption, false};
ghost use Rattle.dds_base.specs.declared.code.Code.TheVariants.{Memory};
ghost use Rattle.dds_base.specs.declared.happening.Arrival.{Arrival};
ghost use Rattle.dds_base.specs.declared.happening.Happening.{Happening};
ghost use Rattle.dds_base.specs.declared.happening.Happening.TheVariants.{Came, Heard, Died, Joined};
ghost use Rattle.dds_base.specs.declared.qos.ReaderQos.{ReaderQos};
ghost use Rattle.dds_base.specs.Liveliness.{after_parting, alive_count, dead_at, is_alive, is_dead, last_turned, not_alive_count};
ghost use Rattle.dds_base.specs.Ownership.{IsMatched, writers_of};
ghost use Rattle.dds_lease.specs.Standing.{Kept, StandsFor, after_deaths_above, overdue_of, without_last, writer_count};

use crate::track::{LeaseTrack, count_over, find_over, fresh_tracks, push_fresh};
use dds_base::{Code, Handle, MatchedWriter, Moment, ReaderQos};
use std::alloc::Global;
use std::marker::Model;

/// Which matched writers of a reader are alive, and since when, kept up with what happens there.
///
/// A writer is alive from its first assertion there. It dies once its lease has passed since the last one.
///
/// DDS 1.4, 2.2.3 (LIVELINESS), 2.2.4.1 (LIVELINESS_CHANGED).
#[derive(Drop)]
pub struct Leases {
    /// By publication handle.
    tracks: Vec<LeaseTrack>,
    /// How many of them are alive.
    alive: usize,
    /// How many of them died and are not alive.
    not_alive: usize,
    last_turned: Handle,
}

impl Model for Leases {
    ghost use Rattle.std.specs.Prelude.{◌≡◌, count_by};
    ghost use Rattle.dds_lease.specs.Track.{is_dead_track, is_live_track};
    ghost use Rattle.dds_lease.specs.Standing.{Kept};

    ghost Value = { Kept };

    ghost view = { λ l. record {
      tracks = l.tracks.items;
      last_turned = l.last_turned;
    } };

    ghost invariant = { λ l. (l.alive ≡ count_by is_live_track l.tracks.items)
        × (l.not_alive ≡ count_by is_dead_track l.tracks.items) };
}

impl Leases {
    /// Of a reader at which nothing has happened. None of its matched writers is alive, and none has died.
    ///
    /// # Errors
    ///
    /// `Memory` where a growth was refused.
    pub fn open(alloc: Global, qos: &ReaderQos) -> Result<Leases, Code>
        // Nothing has happened.
        ensures ok { IfOk result (λ leases. StandsFor leases qos.now []) }
        // The only refusal is for want of memory.
        ensures memory { IfErr result (λ code. code ≡ Memory) }
    {
        let tracks = fresh_tracks(alloc, qos.writers.as_slice())?;
        Ok(Leases {
            tracks,
            alive: 0,
            not_alive: 0,
            last_turned: Handle::NIL,
        })
    }

    /// How many writers are matched: their handles are the numbers from 1 to this one.
    pub fn writers(&self) -> usize
        // A handle up to it names a writer.
        ensures writers { result ≡ writer_count self.now }
        // It is the number of the reader's matched writers.
        ensures matched { (q : ReaderQos) (h : List Happening) → StandsFor self.now q h
            → result ≡ length (writers_of q h) }
    {
        self.tracks.len()
    }

    /// A writer is matched that was not known: it has the next publication handle, and is neither alive nor not alive until it
    /// is asserted. All memory is asked for before anything changes.
    ///
    /// # Errors
    ///
    /// `Memory` where a growth was refused; nothing has changed then.
    ///
    /// RTPS 2.5, 8.4.10 (matched_writer_add); DDS 1.4, 2.2.4.1 (LivelinessChangedStatus: alive_count, not_alive_count).
    pub fn join(&mut self, writer: MatchedWriter) -> Result<(), Code>
        // It joined, and nothing else happened.
        ensures joined { OnOk result ((q : ReaderQos) (h : List Happening) → StandsFor self.old q h
            → StandsFor self.new q (Joined writer ∷ h)) }
        // There is one writer more.
        ensures writers { OnOk result (writer_count self.new ≡ writer_count self.old + 1) }
        // Without it, all would be as it was.
        ensures before { OnOk result (without_last self.new ≡ self.old) }
        // A refusal leaves it as it was.
        ensures err { OnErr result (self.new ≡ self.old) }
        // It is refused for want of memory alone.
        ensures memory { IfErr result (λ code. code ≡ Memory) }
    {
        self.tracks.reserve(1)?;
        push_fresh(&mut self.tracks, writer);
        Ok(())
    }

    /// Forgets the writer of the greatest handle, as where what else its match wants is refused.
    pub fn forget_last(&mut self)
        // It forgets that one, and nothing else.
        ensures forgets { self.new ≡ without_last self.old }
    {
        let Some(track) = self.tracks.pop() else {
            return;
        };
        self.alive -= usize::from(track.since.is_some());
        self.not_alive -= usize::from(track.has_died && track.since.is_none());
    }

    /// A writer is asserted at this moment: a change of it came, or it was heard.
    ///
    /// DDS 1.4, 2.2.3 (LIVELINESS).
    pub fn assert_at(&mut self, writer: Handle, now: Moment)
        // It is matched.
        requires matched { (0 < writer) × (writer ≤ writer_count self.old) }
        // A change of it came.
        ensures came { (q : ReaderQos) (h : List Happening) (a : Arrival) → StandsFor self.old q h
            → a.writer ≡ writer → a.moment ≡ now → StandsFor self.new q (Came a ∷ h) }
        // It was heard.
        ensures heard { (q : ReaderQos) (h : List Happening) → StandsFor self.old q h
            → StandsFor self.new q (Heard writer now ∷ h) }
        // The writers stay the same ones.
        ensures writers { writer_count self.new ≡ writer_count self.old }
    {
        let at = writer.number() as usize - 1;
        let track = self.tracks[at];
        self.tracks[at] = LeaseTrack {
            since: Some(now),
            ..track
        };
        if track.since.is_some() {
            return;
        }
        self.alive += 1;
        if track.has_died {
            self.not_alive -= 1;
        }
        self.last_turned = writer;
    }

    /// The first writer above this handle whose lease is over at this moment: it dies now. `None` where there is none.
    ///
    /// A tick begins with `Handle::NIL`, and goes on with each handle that it is given until there is none. The writers
    /// then die in the order of their handles.
    ///
    /// DDS 1.4, 2.2.3 (LIVELINESS: lease_duration).
    pub fn expire(&mut self, after: Handle, now: Moment) -> Option<Handle>
        // It is the first above this handle of those that die at this moment.
        ensures first { (q : ReaderQos) (h : List Happening) → StandsFor self.old q h
            → result ≡ find (λ w. nat_lt after w) (dead_at q now h) }
        // It died.
        ensures died { (q : ReaderQos) (h : List Happening) → StandsFor self.old q h
            → IfSome result (λ w. StandsFor self.new q (Died w now ∷ h)) }
        // The deaths that are left to this moment go on above it; where there was none, none is left.
        ensures turn { (q : ReaderQos) (h : List Happening) → StandsFor self.old q h
            → MatchOption result (after_deaths_above q now after h ≡ h)
            (λ w. after_deaths_above q now after h ≡ after_deaths_above q now w (Died w now ∷ h)) }
        // It is a matched writer above this handle.
        ensures above { IfSome result (λ w. (after < w) × (w ≤ writer_count self.new)) }
        // One lease fewer is over at this moment, if a writer died.
        ensures overdue { IfSome result
            (λ w. overdue_of self.new now + 1 ≡ overdue_of self.old now) }
        // Where there is none nothing has changed.
        ensures none { IfNone result (self.new ≡ self.old) }
        // The writers stay the same ones.
        ensures writers { writer_count self.new ≡ writer_count self.old }
    {
        let writer = find_over(&self.tracks, after, now)?;
        let at = writer.number() as usize - 1;
        let track = self.tracks[at];
        self.tracks[at] = LeaseTrack {
            since: None,
            has_died: true,
            ..track
        };
        self.alive -= 1;
        self.not_alive += 1;
        self.last_turned = writer;
        Some(writer)
    }

    /// A writer leaves at this moment: it is matched no more. What is known of it begins anew, so that it is neither alive
    /// nor not alive; one that is alive dies first. Says whether it was either, and so the counts changed.
    ///
    /// RTPS 2.5, 8.4.10 (matched_writer_remove); DDS 1.4, 2.2.4.1 (LivelinessChangedStatus: not_alive_count).
    pub fn leave(&mut self, writer: Handle, now: Moment) -> bool
        // It is matched.
        requires matched { (0 < writer) × (writer ≤ writer_count self.old) }
        // It left, after its death if it was alive, and nothing else happened.
        ensures left { (q : ReaderQos) (h : List Happening) → StandsFor self.old q h
            → StandsFor self.new q (after_parting writer now h) }
        // It was alive, or had died and was not alive.
        ensures turned { (q : ReaderQos) (h : List Happening) → StandsFor self.old q h
            → result ≡ (is_alive writer h || is_dead writer h) }
        // The writers stay the same ones.
        ensures writers { writer_count self.new ≡ writer_count self.old }
    {
        let _ = now;
        let at = writer.number() as usize - 1;
        let track = self.tracks[at];
        self.tracks[at] = LeaseTrack::new(track.lease);
        match (track.since, track.has_died) {
            (Some(_), _) => self.alive -= 1,
            (None, true) => self.not_alive -= 1,
            (None, false) => return false,
        }
        self.last_turned = writer;
        true
    }

    /// How many writers die at this moment.
    ///
    /// DDS 1.4, 2.2.3 (LIVELINESS: lease_duration).
    pub fn overdue(&self, now: Moment) -> usize
        // It is the number of the leases that are over.
        ensures overdue { result ≡ overdue_of self.now now }
        // It is the number of the writers that die by the definitions.
        ensures deaths { (q : ReaderQos) (h : List Happening) → StandsFor self.now q h
            → result ≡ length (dead_at q now h) }
    {
        count_over(&self.tracks, now)
    }

    /// Whether a writer is alive; of a handle that names none, `false`.
    ///
    /// DDS 1.4, 2.2.3 (LIVELINESS).
    pub fn is_alive(&self, writer: Handle) -> bool
        // It is so by the definitions.
        ensures matched { (q : ReaderQos) (h : List Happening) → StandsFor self.now q h
            → IsMatched q h writer
            → result ≡ is_alive writer h }
        // A handle that names no writer names none that is alive.
        ensures unmatched { (q : ReaderQos) (h : List Happening) → StandsFor self.now q h
            → (IsMatched q h writer → ⊥) → result ≡ false }
    {
        let at = writer.number();
        if at == 0 || self.tracks.len() < at as usize {
            return false;
        }
        self.tracks[at as usize - 1].since.is_some()
    }

    /// How many writers are alive.
    ///
    /// DDS 1.4, 2.2.4.1 (LivelinessChangedStatus: alive_count).
    pub fn alive_count(&self) -> usize
        // It is the number of the definitions.
        ensures alive { (q : ReaderQos) (h : List Happening) → StandsFor self.now q h
            → result ≡ alive_count q h }
        // It is at most the number of the matched writers.
        ensures few { result ≤ writer_count self.now }
    {
        self.alive
    }

    /// How many writers died and are not alive.
    ///
    /// DDS 1.4, 2.2.4.1 (LivelinessChangedStatus: not_alive_count).
    pub fn not_alive_count(&self) -> usize
        // It is the number of the definitions.
        ensures dead { (q : ReaderQos) (h : List Happening) → StandsFor self.now q h
            → result ≡ not_alive_count q h }
        // It is at most the number of the matched writers.
        ensures few { result ≤ writer_count self.now }
    {
        self.not_alive
    }

    /// The writer that last changed one of the two counts, `NIL` for none.
    ///
    /// DDS 1.4, 2.2.4.1 (LivelinessChangedStatus: last_publication_handle).
    pub fn last_turned(&self) -> Handle
        ensures last { (q : ReaderQos) (h : List Happening) → StandsFor self.now q h
            → result ≡ last_turned h }
    {
        self.last_turned
    }
}
