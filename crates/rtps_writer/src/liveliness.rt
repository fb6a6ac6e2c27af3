//! A writer's lease, and how often it ran out.
//!
//! DDS 1.4, 2.2.3 (LIVELINESS), 2.2.4.1 (LIVELINESS_LOST).

ghost use Rattle.std.specs.Prelude.{◌≡◌, ℕ, List, [], ◌∷◌, Option, Bool, nat_lt};
ghost use Rattle.dds_base.specs.declared.change.Change.{Change};
ghost use Rattle.dds_base.specs.Written.{Written, Changed, Asserted, LookedAt, Ticked, liveliness_lost_status};
ghost use Rattle.rtps_writer.specs.LivelinessKept.{IsLiveliness};

use dds_base::{LivelinessLostStatus, Moment, is_over};

/// What is kept of a writer's liveliness.
#[derive(Clone, Copy)]
pub struct Liveliness {
    /// In units of 2^-32 second; `None` never ends.
    pub lease: Option<u64>,
    /// The moment of its last assertion, `None` while it is lost, and before the first.
    pub since: Option<Moment>,
    /// How often it was lost. It stays at 2^64 - 1.
    pub losses: u64,
    /// How often it was when the application looked at it last.
    pub losses_seen: u64,
}

impl Liveliness {
    /// Of a writer at which nothing has happened.
    pub fn new(lease: Option<u64>) -> Liveliness
        ensures { IsLiveliness result lease [] }
    {
        Liveliness {
            lease,
            since: None,
            losses: 0,
            losses_seen: 0,
        }
    }

    /// The writer is asserted at this moment, by a change or without one.
    pub fn assert_at(&mut self, now: Moment)
        ensures changed { (lease : Option ℕ) (c : List Written) (change : Change)
            → IsLiveliness self.old lease c
            → change.source_timestamp ≡ now → IsLiveliness self.new lease (Changed change ∷ c) }
        ensures asserted { (lease : Option ℕ) (c : List Written) → IsLiveliness self.old lease c
            → IsLiveliness self.new lease (Asserted now ∷ c) }
    {
        self.since = Some(now);
    }

    /// The time of its peer has gone on: the writer is lost where its lease is over.
    pub fn tick(&mut self, now: Moment)
        ensures { (lease : Option ℕ) (c : List Written) (behind : Bool)
            → IsLiveliness self.old lease c
            → IsLiveliness self.new lease (Ticked now behind ∷ c) }
    {
        if is_over(self.lease, self.since, now) {
            self.since = None;
            self.losses = self.losses.saturating_add(1);
        }
    }

    /// What LIVELINESS_LOST says.
    pub fn status(&self) -> LivelinessLostStatus
        ensures { (lease : Option ℕ) (c : List Written) → IsLiveliness self.now lease c
            → result ≡ liveliness_lost_status lease c }
    {
        LivelinessLostStatus {
            total_count: self.losses,
            total_count_change: self.losses.saturating_sub(self.losses_seen),
        }
    }

    /// What LIVELINESS_LOST says; its change is told once.
    pub fn look(&mut self) -> LivelinessLostStatus
        ensures status { (lease : Option ℕ) (c : List Written) → IsLiveliness self.old lease c
            → result ≡ liveliness_lost_status lease c }
        ensures looked { (lease : Option ℕ) (c : List Written) → IsLiveliness self.old lease c
            → IsLiveliness self.new lease (LookedAt ∷ c) }
    {
        let status = self.status();
        self.losses_seen = self.losses;
        status
    }

    /// Whether it was lost since the application looked.
    pub fn is_lost(&self) -> bool
        ensures { (lease : Option ℕ) (c : List Written) → IsLiveliness self.now lease c
            → result ≡ nat_lt 0 (liveliness_lost_status lease c).total_count_change }
    {
        self.losses_seen < self.losses
    }
}
