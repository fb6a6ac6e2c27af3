//! What a submessage turns into.
//!
//! RTPS 2.5, 9.4.5 (Data).

ghost use Rattle.std.specs.Prelude.{◌≡◌, ◌≤◌, ◌<◌, ◌++◌, length, is_some, IfSome, IfNone, IfErr, OnOk};
ghost use Rattle.std.specs.Option.{option_map};
ghost use Rattle.rtps_adapter.specs.Turning.{has_payload, foreign_payload, turned_payload, changed};
ghost use Rattle.rtps_adapter.specs.PayloadText.{new_text};

use crate::data::{FLAG_NON_STANDARD, has_flag, payload_of};
use crate::direction::Direction;
use crate::kinds::{KeyRule, WriterKind, is_other, kind_of, rule_of};
use crate::payload::{
    NewPayload, inward_payload, outward_payload, payload_len, put_payload, put_zeros, zeros_after,
};
use dds_base::{Code, GuidPrefix};
use rtps_wire::{Frame, MAX_MESSAGE};
use std::marker::Model;

/// DATA, as its id says.
pub const ID_DATA: u8 = 0x15;

/// D: the payload is a value.
pub const FLAG_DATA: u8 = 0x04;

/// K: the payload is a key.
pub const FLAG_KEY: u8 = 0x08;

/// A payload of another type than the datum, and what stands before it.
#[derive(Clone, Copy)]
pub struct Foreign<'k, 'a> {
    rule: KeyRule<'k>,
    is_key: bool,
    front: &'a [u8],
    octets: &'a [u8],
}

/// What a DATA turns into. Contracts see its flags and its body.
#[derive(Drop)]
pub struct Change<'a> {
    flags: u8,
    /// All of the body, where the payload stays.
    front: &'a [u8],
    payload: Option<NewPayload<'a>>,
}

impl<'a> Model for Change<'a> {
    ghost use Rattle.std.specs.Prelude.{ℕ, List};
    ghost use Rattle.rtps_adapter.specs.PayloadText.{body_with};

    ghost Value = { ℕ × List ℕ };

    ghost view = { λ c. (c.flags, body_with c.front.now c.payload) };
}

/// Whether a DATA has a payload: a value or a key.
fn has_payload(flags: u8) -> bool
    ensures { result ≡ has_payload flags }
{
    if has_flag(flags, FLAG_DATA) {
        !has_flag(flags, FLAG_KEY)
    } else {
        has_flag(flags, FLAG_KEY)
    }
}

/// The payload that has to be turned, where there is one.
#[tactic(auto, unfolding(crate::specs::Turning::foreign_payload))]
pub fn foreign_payload<'k, 'a>(
    kinds: &[WriterKind<'k>],
    source: &GuidPrefix,
    frame: &Frame<'a>,
) -> Option<Foreign<'k, 'a>>
    ensures { option_map (λ x. record {
      rule = x.rule;
      is_key = x.is_key;
      front = x.front.now;
      octets = x.octets.now;
    })
        result
        ≡ foreign_payload kinds.now source.now frame.now.id frame.now.flags frame.now.body.now }
{
    if frame.id != ID_DATA || !has_payload(frame.flags) {
        return None;
    }
    let (writer, octets) = payload_of(frame.flags, frame.body)?;
    let rule = rule_of(kind_of(kinds, source, &writer))?;
    Some(Foreign {
        rule,
        is_key: has_flag(frame.flags, FLAG_KEY),
        front: &frame.body[..frame.body.len() - octets.len()],
        octets,
    })
}

/// Whether a submessage is a DATA whose payload has to be turned.
#[tactic(auto, unfolding(crate::specs::Turning::foreign_payload))]
pub fn is_foreign(kinds: &[WriterKind], source: &GuidPrefix, frame: &Frame) -> bool
    ensures { result ≡ is_some
        (foreign_payload kinds.now source.now frame.now.id frame.now.flags frame.now.body.now) }
{
    if frame.id != ID_DATA || !has_payload(frame.flags) {
        return false;
    }
    let Some((writer, _)) = payload_of(frame.flags, frame.body) else {
        return false;
    };
    is_other(kinds, source, &writer)
}

/// What a payload turns into. `None` where it can't be turned.
#[tactic(auto, unfolding(crate::specs::Turning::turned_payload))]
pub fn turned_payload<'a>(direction: Direction, found: &Foreign<'_, 'a>) -> Option<NewPayload<'a>>
    ensures { option_map new_text result ≡ turned_payload direction (record {
      rule = found.now.rule;
      is_key = found.now.is_key;
      front = found.now.front.now;
      octets = found.now.octets.now;
    }) }
{
    match direction {
        Direction::Inward => inward_payload(found.rule, found.is_key, found.octets),
        Direction::Outward => outward_payload(found.rule, found.is_key, found.octets),
    }
}

/// What a DATA that has to be turned turns into. `None` of any other submessage.
#[tactic(auto, unfolding(crate::specs::Turning::changed))]
pub fn change_of<'a>(
    direction: Direction,
    kinds: &[WriterKind],
    source: &GuidPrefix,
    frame: &Frame<'a>,
) -> Option<Change<'a>>
    ensures { result
        ≡ changed direction kinds.now source.now frame.now.id frame.now.flags frame.now.body.now }
{
    let found = foreign_payload(kinds, source, frame)?;
    let payload = turned_payload(direction, &found);
    if payload.is_none() {
        return Some(Change {
            flags: frame.flags | FLAG_NON_STANDARD,
            front: frame.body,
            payload: None,
        });
    }
    Some(Change {
        flags: frame.flags,
        front: found.front,
        payload,
    })
}

impl<'a> Change<'a> {
    /// The flags.
    pub fn flags(&self) -> u8
        ensures { result ≡ self.now.0 }
    {
        self.flags
    }

    /// How many octets the body takes. `None` where that is more than a message may have.
    pub fn body_len(&self) -> Option<usize>
        ensures some { IfSome result (λ n. (n ≡ length self.now.1) × (n ≤ MAX_MESSAGE)) }
        ensures none { IfNone result (MAX_MESSAGE < length self.now.1) }
    {
        let mut len = self.front.len();
        if MAX_MESSAGE < len {
            return None;
        }
        if let Some(payload) = &self.payload {
            let payload = payload_len(payload);
            if MAX_MESSAGE < payload {
                return None;
            }
            len += payload;
            len += zeros_after(len);
        }
        if MAX_MESSAGE < len {
            return None;
        }
        Some(len)
    }

    /// Appends the body.
    pub fn put_body(&self, out: &mut Vec<u8>) -> Result<(), Code>
        requires { length self.now.1 ≤ MAX_MESSAGE }
        ensures ok { OnOk result (out.new.items ≡ out.old.items ++ self.now.1) }
        ensures memory { IfErr result (λ e. e ≡ Code.Memory) }
    {
        out.extend_from_slice(self.front)?;
        let Some(payload) = &self.payload else {
            return Ok(());
        };
        put_payload(out, payload)?;
        put_zeros(out, zeros_after(self.front.len() + payload_len(payload)))
    }
}
