//! Where the changes go that a reader hands on.
//!
//! RTPS 2.5, 8.2 (HistoryCache of a reader, add_change).

ghost use Rattle.std.specs.Prelude.{◌≡◌, ℕ, ◌≤◌, List, ◌∷◌, OnOk, IsOk, IfErr};
ghost use Rattle.dds_base.specs.declared.code.Code.TheVariants.{Memory};
ghost use Rattle.dds_base.specs.declared.happening.Happening.{Happening};
ghost use Rattle.dds_base.specs.declared.happening.Happening.TheVariants.{Came, Passed, Heard};
ghost use Rattle.dds_base.specs.declared.qos.ReaderQos.{ReaderQos};
ghost use Rattle.dds_base.specs.Presence.{has_room};
ghost use Rattle.rtps_reader.specs.Entering.{IsAmong, NoneTakenAhead, SinkKeepsRest};

use dds_base::{Arrival, Code, Handle, Moment, Sn};

/// Where a reader enters what happens at it: its cache. Writers are named by their publication handles, from 1.
///
/// RTPS 2.5, 8.2 (HistoryCache of a reader).
pub trait Sink {
    /// What it keeps stands for this list of what happened, the newest first.
    ghost stands: { Self → List Happening → Type 0 };

    /// The reader's policies, and the writers that it is matched with from the opening on.
    ghost qos: { Self → ReaderQos };

    /// How many writers it is matched with, of the opening or since.
    ghost writers: { Self → ℕ };

    /// How many more entries can't fail.
    ghost spare: { Self → ℕ };

    /// Makes memory for `n` more entries. It changes that alone.
    ///
    /// # Errors
    ///
    /// `Memory` where a growth was refused.
    fn reserve(&mut self, n: usize) -> Result<(), Code>
        // Nothing happens.
        ensures stands { (h : List Happening) → stands self.old h → stands self.new h }
        // The policies stay.
        ensures qos { qos self.new ≡ qos self.old }
        // As many writers are matched.
        ensures writers { writers self.new ≡ writers self.old }
        // The next `n` entries can't fail.
        ensures ok { OnOk result (n ≤ spare self.new) }
        // It has no less memory than before.
        ensures spare { spare self.old ≤ spare self.new }
        // Where there is memory enough it succeeds.
        ensures succeeds { n ≤ spare self.old → IsOk result }
        // It is refused for want of memory alone.
        ensures memory { IfErr result (λ code. code ≡ Memory) };

    /// Whether there is room for this change by the reader's resource limits.
    ///
    /// DDS 1.4, 2.2.3 (RESOURCE_LIMITS).
    fn room(&mut self, arrival: &Arrival) -> bool
        // It goes by what happened.
        ensures room { (h : List Happening) → stands self.old h
            → result ≡ has_room (qos self.old) h (Came arrival.now) }
        // No access returned what had not happened: so a run that is passed over before the change takes no room.
        ensures untaken { (h : List Happening) → stands self.old h → NoneTakenAhead h }
        // The sink stays as it was.
        ensures same { self.new ≡ self.old };

    /// Enters that a change came.
    ///
    /// # Errors
    ///
    /// `Memory` where a growth was refused; nothing has happened then.
    fn come(&mut self, arrival: Arrival) -> Result<(), Code>
        // The writer is a matched one.
        requires matched { IsAmong (writers self.old) arrival.writer }
        // The change came, and nothing else happened.
        ensures ok { OnOk result ((h : List Happening) → stands self.old h
            → stands self.new (Came arrival ∷ h)) }
        // It is an entry as each is: the policies and the writers stay, it takes the memory of one entry at most, where there is that
        // it succeeds, and it is refused for want of memory alone, and then leaves what happened as it was.
        ensures keeps { SinkKeepsRest stands qos writers spare self.old self.new result };

    /// Enters that the changes from `first` to `last` of a writer were passed over.
    ///
    /// # Errors
    ///
    /// `Memory` where a growth was refused; nothing has happened then.
    fn pass(&mut self, writer: Handle, first: Sn, last: Sn) -> Result<(), Code>
        // The writer is a matched one.
        requires matched { IsAmong (writers self.old) writer }
        // They were passed over, and nothing else happened.
        ensures ok { OnOk result ((h : List Happening) → stands self.old h
            → stands self.new (Passed writer first last ∷ h)) }
        // It is an entry as each is: the policies and the writers stay, it takes the memory of one entry at most, where there is that
        // it succeeds, and it is refused for want of memory alone, and then leaves what happened as it was.
        ensures keeps { SinkKeepsRest stands qos writers spare self.old self.new result };

    /// Enters that a writer asserted its liveliness without a change, at a moment of the reader's peer.
    ///
    /// # Errors
    ///
    /// `Memory` where a growth was refused; nothing has happened then.
    fn hear(&mut self, writer: Handle, moment: Moment) -> Result<(), Code>
        // The writer is a matched one.
        requires matched { IsAmong (writers self.old) writer }
        // It was heard, and nothing else happened.
        ensures ok { OnOk result ((h : List Happening) → stands self.old h
            → stands self.new (Heard writer moment ∷ h)) }
        // It is an entry as each is: the policies and the writers stay, it takes the memory of one entry at most, where there is that
        // it succeeds, and it is refused for want of memory alone, and then leaves what happened as it was.
        ensures keeps { SinkKeepsRest stands qos writers spare self.old self.new result };
}
