//! The states that a call asks for, as sets of bits.
//!
//! DDS 1.4, 2.2.2.5 (SampleStateMask, ViewStateMask, InstanceStateMask), 2.3.3.

ghost use Rattle.std.specs.Prelude.{⊤, [], ◌∷◌, codes};

use bitflags::{Flag, Flags, bitflag_items};

/// The sample states that an access asks for.
///
/// DDS 1.4, 2.2.2.5 (SampleStateMask), 2.3.3 (READ_SAMPLE_STATE and kin). Bits without a meaning are kept and ask for
/// nothing.
#[derive(Clone, Copy, Debug, PartialEq, Eq)]
pub struct SampleStateMask(u32);

bitflag_items! {
    impl SampleStateMask: u32 {
        const READ = 1;
        const NOT_READ = 2;
        const ANY = 65535;
    }
}

impl Flags for SampleStateMask {
    type Bits = u32;

    ghost exact = { ⊤ };

    ghost table = { (codes "READ", 1) ∷ (codes "NOT_READ", 2) ∷ (codes "ANY", 65535) ∷ [] };

    ghost set_of = { λ m. m.0 };

    fn flags<'a>() -> &'a [Flag<SampleStateMask>] {
        SampleStateMask::FLAGS
    }

    fn bits(&self) -> u32 {
        self.0
    }

    fn from_bits_retain(bits: u32) -> SampleStateMask {
        SampleStateMask(bits)
    }
}

/// The view states that an access asks for.
///
/// DDS 1.4, 2.2.2.5 (ViewStateMask), 2.3.3 (NEW_VIEW_STATE and kin). Bits without a meaning are kept and ask for
/// nothing.
#[derive(Clone, Copy, Debug, PartialEq, Eq)]
pub struct ViewStateMask(u32);

bitflag_items! {
    impl ViewStateMask: u32 {
        const NEW = 1;
        const NOT_NEW = 2;
        const ANY = 65535;
    }
}

impl Flags for ViewStateMask {
    type Bits = u32;

    ghost exact = { ⊤ };

    ghost table = { (codes "NEW", 1) ∷ (codes "NOT_NEW", 2) ∷ (codes "ANY", 65535) ∷ [] };

    ghost set_of = { λ m. m.0 };

    fn flags<'a>() -> &'a [Flag<ViewStateMask>] {
        ViewStateMask::FLAGS
    }

    fn bits(&self) -> u32 {
        self.0
    }

    fn from_bits_retain(bits: u32) -> ViewStateMask {
        ViewStateMask(bits)
    }
}

/// The instance states that an access asks for.
///
/// DDS 1.4, 2.2.2.5 (InstanceStateMask), 2.3.3 (ALIVE_INSTANCE_STATE and kin). Bits without a meaning are kept and ask
/// for nothing.
#[derive(Clone, Copy, Debug, PartialEq, Eq)]
pub struct InstanceStateMask(u32);

bitflag_items! {
    impl InstanceStateMask: u32 {
        const ALIVE = 1;
        const NOT_ALIVE_DISPOSED = 2;
        const NOT_ALIVE_NO_WRITERS = 4;
        const NOT_ALIVE = 6;
        const ANY = 65535;
    }
}

impl Flags for InstanceStateMask {
    type Bits = u32;

    ghost exact = { ⊤ };

    ghost table = { (codes "ALIVE", 1) ∷ (codes "NOT_ALIVE_DISPOSED", 2) ∷ (codes "NOT_ALIVE_NO_WRITERS", 4) ∷ (codes "NOT_ALIVE", 6) ∷ (codes "ANY", 65535) ∷ [] };

    ghost set_of = { λ m. m.0 };

    fn flags<'a>() -> &'a [Flag<InstanceStateMask>] {
        InstanceStateMask::FLAGS
    }

    fn bits(&self) -> u32 {
        self.0
    }

    fn from_bits_retain(bits: u32) -> InstanceStateMask {
        InstanceStateMask(bits)
    }
}

/// What an access asks of each sample, its instance's view and its instance's state: a sample is meant that meets all
/// three.
///
/// DDS 1.4, 2.2.2.5 (read, take: sample_states, view_states, instance_states).
#[derive(Clone, Copy, Debug, PartialEq, Eq)]
pub struct Masks {
    /// Whether a sample was read before.
    pub samples: SampleStateMask,
    /// Whether its instance is new to the reader.
    pub views: ViewStateMask,
    /// Whether its instance is alive.
    pub instances: InstanceStateMask,
}

impl Masks {
    /// Every state of each kind.
    pub const ANY: Masks = Masks {
        samples: SampleStateMask::ANY,
        views: ViewStateMask::ANY,
        instances: InstanceStateMask::ANY,
    };

    /// Samples that were not read before, of any instance.
    pub const NOT_READ: Masks = Masks {
        samples: SampleStateMask::NOT_READ,
        views: ViewStateMask::ANY,
        instances: InstanceStateMask::ANY,
    };
}
