//! What holds of every message, and of every change and what a DATA says of it. The functions do nothing.
//!
//! RTPS 2.5, 8.2 (CacheChange), 8.3 (messages) and 9.4 (their bytes).

ghost use Rattle.std.specs.Prelude.{◌≡◌, ◌≤◌, ◌+◌, ◌*◌, ◌^◌, ℕ, List, length};
ghost use Rattle.std.specs.List.{AllByRecursion};
ghost use Rattle.dds_base.specs.declared.change.Change.{Change};
ghost use Rattle.rtps_wire.specs.Content.{IsEmptyUnlessWrite, content_of, change_in};
ghost use Rattle.rtps_wire.specs.Heartbeat.{IsHeartbeat};
ghost use Rattle.rtps_wire.specs.Messages.{IsWritable, ReadsMessage, spelling_of};
ghost use Rattle.rtps_wire.specs.Submessages.{HasUsualValue, IsSpellable, all_value_octets, spelling_of_submessage, value_octets};
ghost use Rattle.rtps_wire.specs.declared.data.DataContent.{DataContent};
ghost use Rattle.rtps_wire.specs.declared.heartbeat.Heartbeat.{Heartbeat};
ghost use Rattle.rtps_wire.specs.declared.message.Message.{Message};
ghost use Rattle.rtps_wire.specs.declared.submessage.Submessage.{Submessage};

use crate::field::MAX_SN;
use crate::header::{MAX_MESSAGE, MAX_TOGETHER};
use crate::names::{MAX_BESIDE_VALUE, MAX_SUBMESSAGE};

/// What is written is read as itself to its end, and no bytes are read as two messages.
pub fn spelling_is_read()
    // What is written is read as itself, to its end.
    ensures again { (m : Message) → IsWritable m
        → ReadsMessage (spelling_of m) m (length (spelling_of m)) }
    // No bytes are read as two messages, or to two ends.
    ensures one { (bytes : List ℕ) (m n : Message) (o p : ℕ) → ReadsMessage bytes m o
        → ReadsMessage bytes n p → (m ≡ n) × (o ≡ p) }
{}

/// The limits are those of the grammar: a message of `MAX_MESSAGE` octets, and a number of `MAX_SN`, are the last.
pub fn limits_are_of_the_grammar()
    // A message has at most 65,507 octets.
    ensures message { MAX_MESSAGE ≡ 65507 }
    // Nothing longer is written.
    ensures written { (m : Message) → IsWritable m → length (spelling_of m) ≤ MAX_MESSAGE }
    // Nothing longer is read.
    ensures read { (bytes : List ℕ) (m : Message) (offset : ℕ) → ReadsMessage bytes m offset
        → length bytes ≤ MAX_MESSAGE }
    // The greatest number is 2^62.
    ensures number { MAX_SN ≡ 2 ^ 62 }
    // The last number of a HEARTBEAT is not above it.
    ensures heartbeat { (h : Heartbeat) → IsHeartbeat h → h.last_sn ≤ MAX_SN }
{}

/// At most 60 submessages that can be written one by one can be written together, where no value is longer than usual.
pub fn few_are_writable()
    // A submessage takes at most 65,060 octets.
    ensures each { (s : Submessage) → IsSpellable s
        → length (spelling_of_submessage s) ≤ MAX_SUBMESSAGE }
    // At most 60 of those that can be written can be written together, where values have at most 1,024 octets.
    ensures few { (m : Message) → length m.prefix.0 ≡ 12 → AllByRecursion IsSpellable m.submessages
        → AllByRecursion HasUsualValue m.submessages → length m.submessages ≤ MAX_TOGETHER
        → IsWritable m }
{}

/// Submessages that can be written one by one can be written together where their values are short in sum.
pub fn short_sums_are_writable()
    // A submessage takes at most 87 octets beside those of its value.
    ensures each { (s : Submessage) → IsSpellable s
        → length (spelling_of_submessage s) ≤ MAX_BESIDE_VALUE + value_octets s }
    // The header takes 20, and each submessage at most 87 and its value.
    ensures sum { (m : Message) → length m.prefix.0 ≡ 12 → AllByRecursion IsSpellable m.submessages
        → 20 + MAX_BESIDE_VALUE * length m.submessages + all_value_octets m.submessages ≤ MAX_MESSAGE
        → IsWritable m }
{}

/// What a DATA says of a change means that change, and what a DATA says is what it says of the change that it means.
pub fn contents_are_of_changes()
    // What is said of a change means that change.
    ensures change { (c : Change) → IsEmptyUnlessWrite c
        → change_in (content_of c) c.source_timestamp ≡ c }
    // What is said is what is said of the change that it means.
    ensures content { (c : DataContent) (moment : ℕ) → content_of (change_in c moment) ≡ c }
{}
