//! Whoever is told of statuses.
//!
//! DDS 1.4, 2.2.4.3 (access through listeners).

ghost use Rattle.std.specs.Prelude.{◌≡◌};

use crate::notice::Notice;

/// Whoever is told of statuses, and keeps the last notices: at most `room` of them, which may be none.
///
/// It says by `becomes` what being told does to it: a peer hands it back as what it became by being told all that it was,
/// once and in that order. A type of the application's own may be one, and is then handed over in a box. It can't call the peer that tells it,
/// and can't refuse a notice: the memory for what it keeps is made before.
///
/// DDS 1.4, 2.2.4.3 (access through listeners).
pub trait Listener: Drop {
    ghost use Rattle.std.specs.Prelude.{◌≡◌, ◌↔◌, [], ℕ, List, slice_get, IsTrue};
    ghost use Rattle.dds_notices.specs.declared.notice.Notice.{Notice};
    ghost use Rattle.dds_notices.specs.Notices.{told};

    /// The notices that it keeps, the oldest first.
    ghost notices: { Self → List Notice };

    /// How many it can keep.
    ghost capacity: { Self → ℕ };

    /// Which listener it may become by being told of a notice.
    ghost becomes: { Self → Notice → Self → Type 0 };

    /// How many notices it can keep.
    fn room(&self) -> usize
        ensures capacity { result ≡ capacity self.now };

    /// Whether it keeps no notices, as one that is to be set must.
    fn is_fresh(&self) -> bool
        ensures fresh { IsTrue result ↔ (notices self.now ≡ []) };

    /// The notice that it keeps at this place, counted from 0, the oldest first. `None` from their number on.
    fn held(&self, at: usize) -> Option<Notice>
        ensures notice { result ≡ slice_get (notices self.now) at };

    /// It is told of a status: it keeps the notice, and lets the oldest one go where it has no room for one more. It
    /// takes no memory and can't refuse.
    ///
    /// DDS 1.4, 2.2.4.3 (listeners: on_data_available and kin).
    fn on_notice(&mut self, notice: &Notice)
        // It keeps the last ones of what it kept, and of this.
        ensures notices { notices self.new
            ≡ told (capacity self.old) (notices self.old) notice.now }
        // It can keep as many as before.
        ensures capacity { capacity self.new ≡ capacity self.old }
        // It becomes one that it may become by this notice.
        ensures becomes { becomes self.old notice.now self.new };
}

impl Listener for Box<dyn Listener + Send> {
    ghost notices = { λ b. (Listener-box b).notices b.value };

    ghost capacity = { λ b. (Listener-box b).capacity b.value };

    ghost becomes = { λ b n c. (w : _) × (Listener-box b).becomes b.value n w × (c ≡ record b { value = w }) };

    fn room(&self) -> usize {
        (**self).room()
    }

    fn is_fresh(&self) -> bool {
        (**self).is_fresh()
    }

    fn held(&self, at: usize) -> Option<Notice> {
        (**self).held(at)
    }

    fn on_notice(&mut self, notice: &Notice) {
        (**self).on_notice(notice)
    }
}
