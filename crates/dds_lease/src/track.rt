//! What is known of the liveliness of one matched writer.
//!
//! DDS 1.4, 2.2.3 (LIVELINESS: lease_duration).

ghost use Rattle.std.specs.Prelude.{◌≡◌, ◌+◌, ◌-◌, ◌<◌, ◌≤◌, ◌∷◌, ◌++◌, [], vec_capacity, vec_len, length, get_or, map, IfOk, IfSome, count_by, true, false, None};
ghost use Rattle.dds_lease.specs.declared.track.LeaseTrack.{LeaseTrack};
ghost use Rattle.dds_lease.specs.Track.{first_over, fresh};
ghost use Rattle.dds_lease.specs.Overdue.{is_over_at};

use dds_base::{Handle, MatchedWriter, Moment};
use std::alloc::{AllocError, Global};

/// A matched writer's lease, and what was heard of it.
#[derive(Clone, Copy)]
pub struct LeaseTrack {
    /// In units of 2^-32 second; `None` never ends.
    pub lease: Option<u64>,
    /// The moment of its last assertion, `None` while it is not alive.
    pub since: Option<Moment>,
    /// Whether it died since it was matched last, be it alive again or not.
    pub has_died: bool,
}

impl LeaseTrack {
    /// Of a writer with this lease, of which nothing was heard.
    pub fn new(lease: Option<u64>) -> Self
        ensures { result ≡ record { lease = lease; since = None; has_died = false } }
    {
        LeaseTrack {
            lease,
            since: None,
            has_died: false,
        }
    }
}

/// Whether its lease is over at this moment.
pub fn is_over(track: &LeaseTrack, now: Moment) -> bool
    ensures { result ≡ is_over_at now track.now }
{
    dds_base::is_over(track.lease, track.since, now)
}

/// Those of writers of which nothing was heard.
pub fn fresh_tracks(alloc: Global, writers: &[MatchedWriter]) -> Result<Vec<LeaseTrack>, AllocError>
    ensures { IfOk result (λ tracks. tracks.items ≡ map fresh writers.now) }
{
    let mut tracks = Vec::with_capacity(alloc, writers.len())?;
    for writer in writers {
        tracks.push(LeaseTrack {
            lease: writer.lease,
            since: None,
            has_died: false,
        })?;
    }
    Ok(tracks)
}

/// One writer more of which nothing was heard, in the room that there is.
pub fn push_fresh(tracks: &mut Vec<LeaseTrack>, writer: MatchedWriter)
    requires room { vec_len tracks.old < vec_capacity tracks.old }
    ensures items { tracks.new.items ≡ tracks.old.items ++ fresh writer ∷ [] }
    ensures len { vec_len tracks.new ≡ vec_len tracks.old + 1 }
{
    tracks.push_reserved(LeaseTrack {
        lease: writer.lease,
        since: None,
        has_died: false,
    });
}

/// The first writer above this one whose lease is over at this moment.
pub fn find_over(tracks: &[LeaseTrack], after: Handle, now: Moment) -> Option<Handle>
    ensures first { result ≡ first_over after now 1 tracks.now }
    ensures above { IfSome result (λ w. (after < w) × (w ≤ length tracks.now)) }
    ensures over { IfSome result
        (λ w. (d : LeaseTrack) → is_over_at now (get_or tracks.now (w - 1) d) ≡ true) }
{
    let from = after.number() as usize;
    for at in from..tracks.len() {
        if is_over(&tracks[at], now) {
            return Some(Handle::new(at as u64 + 1));
        }
    }
    None
}

/// How many leases are over at this moment.
pub fn count_over(tracks: &[LeaseTrack], now: Moment) -> usize
    ensures { result ≡ count_by (is_over_at now) tracks.now }
{
    tracks.iter().filter(|track| is_over(track, now)).count()
}
