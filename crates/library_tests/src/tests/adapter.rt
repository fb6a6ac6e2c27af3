//! What no clause says: that a datagram is turned, in and out. The octets are those of CDR and of XTypes 1.3,
//! 7.6.3.1.2, written out.

use crate::tests::rows::{Subject, expect_rows, octets_of, push_hex, show};
use dds_base::{Code, EntityId, Guid, GuidPrefix, USUAL_VALUE};
use rtps_adapter::{Adapted, KeyRule, Kind, WriterKind, inward, outward};
use std::alloc::Global;

/// `inward` and `outward` have a datagram, of a writer whose topic carries a type without a key, and give what it turns
/// into. With `stranger-` before them the writer is not known.
///
/// What comes is: header; DATA with E and D; the head: writer 00 00 01 03, number 1; CDR_LE, and two octets of padding in
/// the options; the length of a string with its zero; "a"; padding; HEARTBEAT. What a peer reads is: header; DATA; the
/// head; a datum: CDR_LE, no options; its key; the length of its value; the value: CDR_LE, no padding; the length of the
/// string; "a"; zeros up to a multiple of 4 octets; HEARTBEAT.
const TURNED: &str = "\
inward 5254505302050000000000000000000000000001 15052000 0000100000000000000001030000000001000000 \
00010002 02000000 6100 0000 07011c0000000000000001030000000001000000000000000100000001000000 => \
5254505302050000000000000000000000000001150538000000100000000000000001030000000001000000\
00010000000000000000000000000000000000000a00000000010000020000006100000007011c0000000000000001030000000001000000000000000100000001000000
outward 5254505302050000000000000000000000000001 15053800 0000100000000000000001030000000001000000 \
00010000 00000000000000000000000000000000 0a000000 00010000 02000000 6100 0000 07011c0000000000000001030000000001000000000000000100000001000000 => \
5254505302050000000000000000000000000001150520000000100000000000000001030000000001000000\
000100020200000061000000\
07011c0000000000000001030000000001000000000000000100000001000000
# What a stranger sent is handed on.
stranger-inward 5254505302050000000000000000000000000001 15052000 0000100000000000000001030000000001000000 \
00010002 02000000 6100 0000 07011c0000000000000001030000000001000000000000000100000001000000 => as it is
stranger-outward 5254505302050000000000000000000000000001 15053800 0000100000000000000001030000000001000000 \
00010000 00000000000000000000000000000000 0a000000 00010000 02000000 6100 0000 07011c0000000000000001030000000001000000000000000100000001000000 => as it is
";

/// The writer 00 00 01 03 of the peer whose prefix ends with 1; its topic carries a type without a key.
const KEYLESS: WriterKind = WriterKind {
    writer: Guid {
        prefix: GuidPrefix([0, 0, 0, 0, 0, 0, 0, 0, 0, 0, 0, 1]),
        entity: EntityId([0, 0, 1, 3]),
    },
    kind: Kind::Opaque(KeyRule::Keyless),
    max_value: USUAL_VALUE,
};

fn push_adapted(text: &mut String, adapted: Result<Adapted, Code>) {
    match adapted {
        Ok(Adapted::Rewritten(octets)) => push_hex(text, octets.as_slice()),
        Ok(Adapted::AsItIs) => {
            let _ = text.push_str("as it is");
        }
        Ok(Adapted::TooLong) => {
            let _ = text.push_str("too long");
        }
        Err(code) => show(text, &code),
    }
}

/// Datagrams on their way through an adapter.
#[derive(Drop)]
struct Adapters;

impl Subject for Adapters {
    fn answer(&mut self, alloc: Global, text: &mut String, name: &str, operands: &str) {
        let octets = octets_of(alloc, operands);
        match name {
            "inward" => push_adapted(text, inward(alloc, &[KEYLESS], &octets)),
            "outward" => push_adapted(text, outward(alloc, &[KEYLESS], &octets)),
            "stranger-inward" => push_adapted(text, inward(alloc, &[], &octets)),
            _ => push_adapted(text, outward(alloc, &[], &octets)),
        }
    }
}

#[test]
fn a_string_comes_in_and_goes_out(rt: HostRuntime) {
    expect_rows(&rt, rt.alloc(), &mut Adapters, TURNED);
}
