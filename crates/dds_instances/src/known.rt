//! What is told of an instance.
//!
//! DDS 1.4, 2.2.2.5 (SampleInfo: instance_state, view_state, the two generation counts).

ghost use Rattle.std.specs.Prelude.{◌≡◌, ◌+◌, ◌<◌, ◌^◌, if◌then◌else◌};
ghost use Rattle.dds_base.specs.Access.{state_of_known};
ghost use Rattle.dds_base.specs.declared.sample.ViewState.TheVariants.{New, NotNew};
ghost use Rattle.dds_instances.specs.Track.{state_of_track};

use crate::track::InstanceTrack;
use dds_base::{Handle, InstanceState, Key, ViewState};

/// What is known of an instance.
///
/// DDS 1.4, 2.2.2.5 (SampleInfo).
#[derive(Clone, Copy)]
pub struct KnownInstance {
    /// Its key.
    pub key: Key,
    /// Its handle.
    pub handle: Handle,
    /// Whether it is alive, or why not.
    pub state: InstanceState,
    /// Whether the reader has seen it since its latest rebirth.
    pub view: ViewState,
    /// How often it was reborn after a dispose.
    pub disposed_generations: u64,
    /// How often it was reborn after it had no writers.
    pub no_writers_generations: u64,
    /// How many writes of it were accepted in its life.
    pub accepted_writes: u64,
    /// The number of the entry that left its last sample without data.
    pub last_marker: Option<u64>,
}

/// The view of an instance, by whether a sample of it was returned since its latest rebirth.
pub fn view_of(track: &InstanceTrack) -> ViewState
    ensures { result ≡ (if track.now.is_seen then NotNew else New) }
{
    if track.is_seen {
        ViewState::NotNew
    } else {
        ViewState::New
    }
}

/// What is known of the instance that a track has followed, which has this state.
#[inline(always)]
pub fn told_as(track: &InstanceTrack, state: InstanceState) -> KnownInstance
    ensures key { result.key ≡ track.now.key }
    ensures handle { result.handle ≡ track.now.handle }
    ensures state { result.state ≡ state }
    ensures view { result.view ≡ (if track.now.is_seen then NotNew else New) }
    ensures disposed { result.disposed_generations ≡ track.now.disposed_generations }
    ensures no_writers { result.no_writers_generations ≡ track.now.no_writers_generations }
    ensures writes { result.accepted_writes ≡ track.now.accepted_writes }
    ensures marker { result.last_marker ≡ track.now.last_marker }
{
    KnownInstance {
        key: track.key,
        handle: Handle::new(track.handle),
        state,
        view: view_of(track),
        disposed_generations: track.disposed_generations,
        no_writers_generations: track.no_writers_generations,
        accepted_writes: track.accepted_writes,
        last_marker: track.last_marker,
    }
}

/// What is known of the instance that a track has followed.
pub fn told(track: &InstanceTrack) -> KnownInstance
    ensures key { result.key ≡ track.now.key }
    ensures handle { result.handle ≡ track.now.handle }
    ensures state { result.state ≡ state_of_known (state_of_track track.now) }
    ensures view { result.view ≡ (if track.now.is_seen then NotNew else New) }
    ensures disposed { result.disposed_generations ≡ track.now.disposed_generations }
    ensures no_writers { result.no_writers_generations ≡ track.now.no_writers_generations }
    ensures writes { result.accepted_writes ≡ track.now.accepted_writes }
    ensures marker { result.last_marker ≡ track.now.last_marker }
{
    told_as(track, track.state().unwrap_or(InstanceState::Alive))
}
