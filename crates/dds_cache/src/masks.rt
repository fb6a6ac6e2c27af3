//! What a mask asks for.
//!
//! DDS 1.4, 2.2.2.5 (sample, view and instance states).

ghost use Rattle.std.specs.Prelude.{◌≡◌, ◌&&◌};
ghost use Rattle.dds_base.specs.Access.{asks_for_sample_state, asks_for_view_state, asks_for_instance_state};

use bitflags::Flags;
use dds_base::{
    InstanceState, InstanceStateMask, Masks, SampleState, SampleStateMask, ViewState, ViewStateMask,
};

pub fn asks_for_sample(mask: SampleStateMask, state: SampleState) -> bool
    ensures { result ≡ asks_for_sample_state mask state }
{
    match state {
        SampleState::Read => mask.contains(SampleStateMask::READ),
        SampleState::NotRead => mask.contains(SampleStateMask::NOT_READ),
    }
}

fn asks_for_view(mask: ViewStateMask, state: ViewState) -> bool
    ensures { result ≡ asks_for_view_state mask state }
{
    match state {
        ViewState::New => mask.contains(ViewStateMask::NEW),
        ViewState::NotNew => mask.contains(ViewStateMask::NOT_NEW),
    }
}

fn asks_for_instance(mask: InstanceStateMask, state: Option<InstanceState>) -> bool
    ensures { result ≡ asks_for_instance_state mask state }
{
    match state {
        None => false,
        Some(InstanceState::Alive) => mask.contains(InstanceStateMask::ALIVE),
        Some(InstanceState::NotAliveDisposed) => {
            mask.contains(InstanceStateMask::NOT_ALIVE_DISPOSED)
        }
        Some(InstanceState::NotAliveNoWriters) => {
            mask.contains(InstanceStateMask::NOT_ALIVE_NO_WRITERS)
        }
    }
}

/// Whether the masks ask for the view state and the state of an instance.
pub fn asks_for_states(masks: Masks, view: ViewState, instance: Option<InstanceState>) -> bool
    ensures { result ≡ (asks_for_view_state masks.views view && asks_for_instance_state masks.instances instance) }
{
    asks_for_view(masks.views, view) && asks_for_instance(masks.instances, instance)
}
