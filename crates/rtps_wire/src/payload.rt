//! The payload of a DATA as it is written: a datum, or the key form of a change without a value.
//!
//! RTPS 2.5, clause 10 (SerializedPayload). `dds_base` reads both, and has their grammar.

ghost use Rattle.std.specs.Prelude.{◌≡◌, ◌≤◌, ◌++◌, length, OnOk, IfErr};
ghost use Rattle.dds_base.specs.DatumText.{spelling_of_datum, spelling_of_key};

use crate::names::{CDR_LE, NO_OPTIONS};
use dds_base::{Code, DatumRef, Key, MAX_VALUE};

/// Appends the key form.
#[inline(always)]
pub fn put_key_form(out: &mut Vec<u8>, key: &Key) -> Result<(), Code>
    ensures ok { OnOk result (out.new.items ≡ out.old.items ++ spelling_of_key key.now) }
    ensures memory { IfErr result (λ e. e ≡ Code.Memory) }
{
    out.extend_from_slice([CDR_LE, NO_OPTIONS].as_flattened())?;
    out.extend_from_slice(&key.0)?;
    Ok(())
}

/// The octets of a key, four at a time.
pub fn words_of(key: &Key) -> ([u8; 4], [u8; 4], [u8; 4], [u8; 4])
    ensures { ((result.0 ++ result.1) ++ result.2) ++ result.3 ≡ key.now.0 }
{
    // This shows the prover how many octets a key has.
    let _octets = key.as_slice();
    let [a, b, c, d, e, f, g, h, i, j, k, l, m, n, o, p] = key.0;
    ([a, b, c, d], [e, f, g, h], [i, j, k, l], [m, n, o, p])
}

/// Appends the datum. Its value is copied into the octets at once.
pub fn put_datum(out: &mut Vec<u8>, datum: &DatumRef) -> Result<(), Code>
    requires { length datum.now.value ≤ MAX_VALUE }
    ensures ok { OnOk result (out.new.items ≡ out.old.items ++ spelling_of_datum datum.now) }
    ensures memory { IfErr result (λ e. e ≡ Code.Memory) }
{
    let value = datum.value();
    let (first, second, third, fourth) = words_of(&datum.key());
    let len = (value.len() as u32).to_le_bytes();
    let [scheme, form] = CDR_LE;
    let [unused, padding] = NO_OPTIONS;
    let words = [
        [scheme, form, unused, padding],
        first,
        second,
        third,
        fourth,
        len,
    ];
    out.extend_from_slice(words.as_flattened())?;
    out.extend_from_slice(value)?;
    Ok(())
}
