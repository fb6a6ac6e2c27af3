//! Configurations as text.
//!
//! Its parts stand between bars: `peer` and the last octet of its prefix; `writer` or `reader`, how many of the last peer,
//! each with an entity of its own, their kind, and their options as a script has them.

use dds_base::{Config, EntityId, GuidPrefix};
use dds_script::{Options, Setup, SetupLine, reader_options, words_of, writer_options};
use std::alloc::Global;

fn prefix_of(octet: &str) -> GuidPrefix {
    let octet = octet.parse().unwrap_or(0);
    GuidPrefix([0, 0, 0, 0, 0, 0, 0, 0, 0, 0, 0, octet])
}

/// The entity of one of so many.
fn entity_of(times: u8, number: u8, kind: u8) -> EntityId {
    if times == 1 {
        EntityId([0, 0, 1, kind])
    } else {
        EntityId([0, 1, number, kind])
    }
}

fn line_of(is_reader: bool, entity: EntityId, options: Options) -> SetupLine {
    if is_reader {
        SetupLine::Reader(entity, options)
    } else {
        SetupLine::Writer(entity, options)
    }
}

/// So many writers, or readers.
fn take_ends(setup: &mut Setup, is_reader: bool, times: &str, kind: &str, options: Options) {
    let times = times.parse().unwrap_or(0);
    let kind = kind.parse().unwrap_or(0);
    for number in 0..times {
        let line = line_of(is_reader, entity_of(times, number, kind), options);
        let _ = setup.take(line);
    }
}

fn take_part(alloc: Global, setup: &mut Setup, part: &str) -> Option<()> {
    let words = words_of(alloc, part).ok()?;
    match words.as_slice() {
        ["peer", octet] => {
            let _ = setup.take(SetupLine::Peer(prefix_of(octet)));
            Some(())
        }
        ["writer", times, kind, options @ ..] => {
            take_ends(setup, false, times, kind, writer_options(options)?);
            Some(())
        }
        ["reader", times, kind, options @ ..] => {
            take_ends(setup, true, times, kind, reader_options(options)?);
            Some(())
        }
        _ => None,
    }
}

/// The configuration of these parts; none where a word is misspelt.
pub fn config_of(alloc: Global, parts: &str) -> Option<Config> {
    let mut setup = Setup::new(alloc);
    if !parts.is_empty() {
        for part in parts.split('|') {
            take_part(alloc, &mut setup, part.trim())?;
        }
    }
    setup.config().ok()
}
