//! One listener, with the statuses that it is told of.
//!
//! DDS 1.4, 2.2.2.1 (Entity: set_listener), 2.2.4.3 (access through listeners).

ghost use Rattle.std.specs.Prelude.{◌≡◌, ◌≢◌, [], true, Option, is_some, take, IfOk, IfErr};
ghost use Rattle.std.specs.Option.{option_copied};
ghost use Rattle.dds_notices.specs.Listeners.{Place, StandsAt, is_fresh, kept_in, shown, slot_of, takes, with_notice};
ghost use Rattle.dds_notices.specs.Slotted.{listener_of};

use crate::listener::Listener;
use crate::mask::StatusMask;
use crate::notice::{Notice, Status};
use std::alloc::{AllocError, Global};
use std::marker::Model;

/// A listener, with the statuses that it is told of.
#[derive(Drop)]
pub(crate) struct Slot<L> {
    mask: StatusMask,
    listener: L,
}

impl<L> Model for Slot<L> {
    ghost use Rattle.dds_notices.specs.Listeners.{Slot};

    ghost Value = { Slot L };

    ghost view = { λ s. record { mask = s.mask; listener = s.listener } };
}

/// Whether a listener is there, and is told of the status.
pub(crate) fn takes<L: Listener>(slot: Option<&Slot<L>>, status: &Status) -> bool
    ensures takes { (given : Option L) (place : Option Place)
        → StandsAt L.notices L.capacity L.becomes given (option_copied slot.entry) place
        → result ≡ takes place status.now }
    ensures there { result ≡ true → is_some (option_copied slot.entry) ≡ true }
{
    match slot {
        Some(slot) => slot.mask.names(status),
        None => false,
    }
}

/// Tells the listener, if one is there.
pub(crate) fn tell<L: Listener>(slot: &mut Option<Slot<L>>, notice: &Notice)
    ensures { (given : Option L) (place : Option Place)
        → StandsAt L.notices L.capacity L.becomes given slot.old place
        → StandsAt L.notices L.capacity L.becomes given slot.new (with_notice place notice.now) }
{
    match slot {
        Some(slot) => slot.listener.on_notice(notice),
        None => {}
    }
}

/// Whether the listener keeps nothing, if one is there.
pub(crate) fn is_fresh<L: Listener>(listener: &Option<L>) -> bool
    ensures { result ≡ is_fresh L.notices listener.now }
{
    match listener {
        Some(listener) => listener.is_fresh(),
        None => true,
    }
}

/// Of which statuses the listener is told, if one is there, and its room.
pub(crate) fn shown<L: Listener>(slot: Option<&Slot<L>>) -> Option<(StatusMask, usize)>
    ensures { (given : Option L) (place : Option Place)
        → StandsAt L.notices L.capacity L.becomes given (option_copied slot.entry) place
        → result ≡ shown place }
{
    match slot {
        Some(slot) => Some((slot.mask, slot.listener.room())),
        None => None,
    }
}

/// The notices that a listener keeps, as far as it has room.
fn kept_by<L: Listener>(alloc: Global, listener: &L) -> Result<Vec<Notice>, AllocError>
    ensures kept { IfOk result (λ kept. kept.items
        ≡ take (L.capacity listener.now) (L.notices listener.now)) }
    ensures some { IfErr result (λ _. take (L.capacity listener.now) (L.notices listener.now) ≢ []) }
{
    let mut kept = Vec::new(alloc);
    for at in 0..listener.room() {
        if let Some(notice) = listener.held(at) {
            kept.push(notice)?;
        }
    }
    Ok(kept)
}

/// The notices that the listener keeps, if one is there.
pub(crate) fn kept<L: Listener>(
    alloc: Global,
    slot: Option<&Slot<L>>,
) -> Result<Vec<Notice>, AllocError>
    ensures kept { IfOk result (λ kept. (given : Option L) (place : Option Place)
        → StandsAt L.notices L.capacity L.becomes given (option_copied slot.entry) place
        → kept.items ≡ kept_in place) }
    ensures some { IfErr result (λ _. (given : Option L) (place : Option Place)
        → StandsAt L.notices L.capacity L.becomes given (option_copied slot.entry) place
        → kept_in place ≢ []) }
{
    match slot {
        Some(slot) => kept_by(alloc, &slot.listener),
        None => Ok(Vec::new(alloc)),
    }
}

/// The listener, if one is there, with these statuses.
pub(crate) fn slot_of<L>(mask: StatusMask, listener: Option<L>) -> Option<Slot<L>>
    ensures { result ≡ slot_of mask listener }
{
    match listener {
        Some(listener) => Some(Slot { mask, listener }),
        None => None,
    }
}

/// The listener alone, if one is there.
pub(crate) fn listener_of<L>(slot: Option<Slot<L>>) -> Option<L>
    ensures { result ≡ listener_of slot }
{
    match slot {
        Some(slot) => Some(slot.listener),
        None => None,
    }
}
