//! Which samples an access of a reader asks for.
//!
//! DDS 1.4, 2.2.2.5 (the forms of read and take).

ghost use Rattle.std.specs.Prelude.{◌≡◌};
ghost use Rattle.dds_base.specs.Selection.{selection_in};

use crate::handle::Handle;
use crate::mask::Masks;

/// Which of the present samples an access asks for. `max` says how many at most, -1 for all of them; the samples are
/// the first ones that meet the masks, by instance handle and then in the order in which their changes and deaths came.
///
/// DDS 1.4, 2.2.2.5.
#[derive(Clone, Copy, Debug, PartialEq, Eq)]
pub enum Selection {
    /// Of any instance (read, take).
    Any {
        max: i32,
        masks: Masks,
    },
    /// Of this instance, which has to be known (read_instance, take_instance).
    Instance {
        handle: Handle,
        max: i32,
        masks: Masks,
    },
    /// Of the instance with the least handle above `previous` that has a matching sample; `previous` need not be known
    /// (read_next_instance, take_next_instance).
    NextInstance {
        previous: Handle,
        max: i32,
        masks: Masks,
    },
    /// The first one that was not read (read_next_sample, take_next_sample).
    NextSample,
}

/// Which of the samples that a condition asks for an access returns. `max` says how many at most, -1 for all of them.
///
/// DDS 1.4, 2.2.2.5 (read_w_condition, read_next_instance_w_condition and kin).
#[derive(Clone, Copy, Debug, PartialEq, Eq)]
pub enum Scope {
    /// Of any instance.
    Any { max: i32 },
    /// Of the instance with the least handle above `previous` that has a matching sample; `previous` need not be known.
    NextInstance { previous: Handle, max: i32 },
}

impl Scope {
    /// What such an access asks for, with the masks of a condition.
    pub fn selection(self, masks: Masks) -> Selection
        ensures selection { result ≡ selection_in self masks }
    {
        match self {
            Scope::Any { max } => Selection::Any { max, masks },
            Scope::NextInstance { previous, max } => Selection::NextInstance {
                previous,
                max,
                masks,
            },
        }
    }
}
