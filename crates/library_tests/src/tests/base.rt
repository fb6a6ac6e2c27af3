//! Data and keys as octets, codes, masks, and which configurations are taken.

mod tables;

use crate::tests::rows::{Subject, expect_rows, octets_of, push_hex, show};
use crate::tests::setup::config_of;
use bitflags::Flags;
use dds_base::{
    ChangeKind, Code, Datum, Handle, InstanceStateMask, Key, MAX_VALUE, Masks, Moment,
    SampleStateMask, Sn, ViewStateMask, decode_datum, decode_datum_key, decode_key, encode_datum,
    encode_key,
};
use std::alloc::Global;
use tables::{CONFIGS, DATA, FAULTS, NAMES};

/// Appends whether what is written is what was read.
fn push_form(text: &mut String, written: &[u8], octets: &[u8]) {
    if written == octets {
        let _ = text.push_str(" written so");
    }
}

/// Appends a value, or its length where that is more than 16.
fn push_value(text: &mut String, value: &[u8]) {
    let len = value.len();
    if 16 < len {
        let _ = write!(text, " with {len} octets");
    } else {
        let _ = text.push(' ');
        push_hex(text, value);
    }
}

fn push_datum(alloc: Global, text: &mut String, datum: &Datum, octets: &[u8]) {
    let value = datum.value.as_slice();
    push_hex(text, datum.key.as_slice());
    push_value(text, value);
    if value.len() <= MAX_VALUE {
        if let Ok(written) = encode_datum(alloc, datum) {
            push_form(text, &written, octets);
        }
    }
}

fn push_key(text: &mut String, key: Option<Key>) {
    match key {
        Some(key) => push_hex(text, key.as_slice()),
        None => {
            let _ = text.push_str("none");
        }
    }
}

/// Appends the datum that some octets begin with.
fn push_data(alloc: Global, text: &mut String, octets: &[u8]) {
    match decode_datum(alloc, octets) {
        Ok(Some(datum)) => push_datum(alloc, text, &datum, octets),
        Ok(None) => {
            let _ = text.push_str("none");
        }
        Err(code) => show(text, &code),
    }
}

/// Appends the key form that some octets begin with.
fn push_key_form(alloc: Global, text: &mut String, octets: &[u8]) {
    let key = decode_key(octets);
    push_key(text, key);
    if let Some(key) = key {
        if let Ok(written) = encode_key(alloc, &key) {
            push_form(text, &written, octets);
        }
    }
}

/// Appends what some octets begin with.
fn push_forms(alloc: Global, text: &mut String, octets: &[u8]) {
    push_data(alloc, text, octets);
    let _ = text.push_str("; ");
    push_key(text, decode_datum_key(octets));
    let _ = text.push_str("; ");
    push_key_form(alloc, text, octets);
}

fn push_codes(text: &mut String) {
    for code in [
        Code::Ok,
        Code::BadParameter,
        Code::PreconditionNotMet,
        Code::OutOfResources,
        Code::Timeout,
        Code::NoData,
        Code::Memory,
    ] {
        let number = code.number();
        let _ = write!(text, "[{code:?} {number}]");
    }
}

fn push_kinds(text: &mut String) {
    for kind in [
        ChangeKind::Write,
        ChangeKind::Dispose,
        ChangeKind::Unregister,
        ChangeKind::DisposeUnregister,
    ] {
        let ends = kind.is_unregister();
        let _ = write!(text, "[{kind:?} {ends}]");
    }
}

fn push_numbers(text: &mut String) {
    let (sn, moment) = (Sn::new(7).number(), Moment::new(8).units());
    let (handle, is_less) = (Handle::new(9).number(), Sn::new(7) < Sn::new(8));
    let _ = write!(text, "{sn} {moment} {handle} {is_less}");
}

/// Appends the fault of a configuration, and its code.
fn push_fault(alloc: Global, text: &mut String, parts: &str) {
    let Some(config) = config_of(alloc, parts) else {
        return;
    };
    match config.fault() {
        Some(fault) => {
            let code = fault.code();
            let _ = write!(text, "{fault}, {code}");
        }
        None => {
            let _ = text.push_str("none");
        }
    }
}

/// Appends the answer to a configuration.
fn push_check(alloc: Global, text: &mut String, parts: &str) {
    if let Some(config) = config_of(alloc, parts) {
        show(text, &config.check());
    }
}

/// What every crate speaks of.
#[derive(Drop)]
struct Base;

impl Subject for Base {
    fn answer(&mut self, alloc: Global, text: &mut String, name: &str, operands: &str) {
        match name {
            "decode" => push_forms(alloc, text, &octets_of(alloc, operands)),
            "check" => push_check(alloc, text, operands),
            "fault" => push_fault(alloc, text, operands),
            "codes" => push_codes(text),
            "kinds" => push_kinds(text),
            "samples" => show(
                text,
                &[
                    SampleStateMask::READ.bits(),
                    SampleStateMask::NOT_READ.bits(),
                    SampleStateMask::ANY.bits(),
                    SampleStateMask::from_bits_retain(8).bits(),
                ],
            ),
            "views" => show(
                text,
                &[
                    ViewStateMask::NEW.bits(),
                    ViewStateMask::NOT_NEW.bits(),
                    ViewStateMask::ANY.bits(),
                ],
            ),
            "instances" => show(
                text,
                &[
                    InstanceStateMask::ALIVE.bits(),
                    InstanceStateMask::NOT_ALIVE_DISPOSED.bits(),
                    InstanceStateMask::NOT_ALIVE_NO_WRITERS.bits(),
                    InstanceStateMask::NOT_ALIVE.bits(),
                    InstanceStateMask::ANY.bits(),
                ],
            ),
            "any" => show(
                text,
                &Masks::ANY.instances.contains(InstanceStateMask::NOT_ALIVE),
            ),
            "numbers" => push_numbers(text),
            _ => {}
        }
    }
}

#[test]
fn values_read_back_and_bad_configurations_are_named(rt: HostRuntime) {
    let alloc = rt.alloc();
    expect_rows(&rt, alloc, &mut Base, DATA);
    expect_rows(&rt, alloc, &mut Base, NAMES);
    expect_rows(&rt, alloc, &mut Base, CONFIGS);
    expect_rows(&rt, alloc, &mut Base, FAULTS);
}
