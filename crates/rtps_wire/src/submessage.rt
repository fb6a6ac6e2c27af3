//! What a message is made of.
//!
//! RTPS 2.5, 8.3.4 and 9.4.5.

ghost use Rattle.std.specs.Prelude.{◌≡◌, ◌<◌, ◌≤◌, [], ◌∷◌, ◌++◌, length, IsOk, OnOk, OnErr};
ghost use Rattle.rtps_wire.specs.declared.submessage.Submessage.{Submessage as SubmessageOf};
ghost use Rattle.rtps_wire.specs.Submessages.{Reads};

use crate::acknack::AckNack;
use crate::data::Data;
use crate::frame::Frame;
use crate::gap::Gap;
use crate::heartbeat::Heartbeat;
use crate::read::read_into;
use dds_base::GuidPrefix;
use smallvec::SmallVec;
use std::alloc::{AllocError, Global};
use std::marker::Model;

/// How many submessages need no memory: few messages have more.
pub const FEW_SUBMESSAGES: usize = 4;

/// One part of a message. The value of a datum is lent.
///
/// RTPS 2.5, 8.3.4 and 9.4.5.
#[derive(Debug, Drop)]
pub enum Submessage<'a> {
    /// Nothing: it only takes room.
    Pad,
    /// What follows is for the peer with this prefix; the zero prefix names every peer.
    InfoDst(GuidPrefix),
    /// What follows has this source timestamp, in units of 2^-32 second; with `None`, the invalid time, it has none.
    InfoTs(Option<u64>),
    /// A change of a writer.
    Data(Data<'a>),
    /// Which changes a writer has.
    Heartbeat(Heartbeat),
    /// Which changes a reader has, and which it misses.
    AckNack(AckNack),
    /// Changes that will not come.
    Gap(Gap),
    /// One that is not known or not valid, by its id. It is never written.
    Other(u8),
}

impl<'a> Default for Submessage<'a> {
    fn default() -> Submessage<'a> {
        Submessage::Pad
    }
}

/// Submessages, in the order in which they stand. Memory is needed for more than `FEW_SUBMESSAGES` alone.
#[derive(Debug, Drop)]
pub struct Submessages<'a> {
    items: SmallVec<Submessage<'a>, FEW_SUBMESSAGES>,
}

impl<'a> Model for Submessages<'a> {
    ghost use Rattle.std.specs.Prelude.{List, ◌≤◌};
    ghost use Rattle.rtps_wire.specs.declared.submessage.Submessage.{Submessage};

    ghost Value = { List Submessage };

    ghost view = { λ s. s.items.items };

    ghost invariant = { λ s. 4 ≤ s.items.capacity };
}

impl<'a> Submessages<'a> {
    /// No submessages yet.
    pub fn new(alloc: Global) -> Submessages<'a>
        ensures none { result ≡ [] }
    {
        Submessages {
            items: SmallVec::new(alloc),
        }
    }

    /// The submessages, in their order.
    pub fn as_slice(&self) -> &[Submessage<'a>]
        ensures items { result.now ≡ self.now }
    {
        self.items.as_slice()
    }

    /// Adds a submessage at the end.
    ///
    /// # Errors
    ///
    /// Where a growth was refused; one of the first `FEW_SUBMESSAGES` needs none.
    #[inline(always)]
    pub fn push(&mut self, submessage: Submessage<'a>) -> Result<(), AllocError>
        // It stands at the end.
        ensures ok { OnOk result (self.new ≡ self.old ++ submessage.entry ∷ []) }
        // A refusal leaves the submessages as they were.
        ensures err { OnErr result (self.new ≡ self.old) }
        // One of the few is not refused.
        ensures few { length self.old < FEW_SUBMESSAGES → IsOk result }
    {
        Ok(self.items.push(submessage)?)
    }

    /// Adds the submessage of a frame at the end, which is read into its place there.
    // To push what was read copies it twice, and waits for the stores of its fields each time.
    #[inline(always)]
    pub(crate) fn push_frame(&mut self, frame: Frame<'a>) -> Result<(), AllocError>
        ensures ok { OnOk result ((s : SubmessageOf)
            × Reads frame.entry.id frame.entry.flags frame.entry.body.now s
            × (self.new ≡ self.old ++ s ∷ [])) }
    {
        let at = self.items.len();
        self.items.push(Submessage::Pad)?;
        read_into(
            &mut self.items.as_mut_slice()[at],
            frame.id,
            frame.flags,
            frame.body,
        );
        Ok(())
    }

    /// Adds one of the first `FEW_SUBMESSAGES` at the end.
    pub fn push_in_place(&mut self, submessage: Submessage<'a>)
        requires few { length self.old < FEW_SUBMESSAGES }
        ensures items { self.new ≡ self.old ++ submessage.entry ∷ [] }
    {
        self.items.push_reserved(submessage);
    }
}
