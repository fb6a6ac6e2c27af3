//! The maxima of a configuration.
//!
//! DDS 1.4, 2.2.3 (RESOURCE_LIMITS).

ghost use Rattle.std.specs.Prelude.{◌≡◌};
ghost use Rattle.dds_base.specs.Checked.{limit_of};

/// A limit as a number; `None` where there is none.
pub fn limit_of(max: i32) -> Option<u32>
    ensures { result ≡ limit_of max }
{
    if max < 0 { None } else { Some(max as u32) }
}
