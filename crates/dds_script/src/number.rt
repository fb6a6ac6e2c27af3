//! Numbers, names, keys and values, as a script spells them.

ghost use Rattle.std.specs.Prelude.{◌≡◌, ◌*◌, ◌^◌, ◌/◌, true, false, IfNone, IfSome};
ghost use Rattle.std.specs.Char.{digit_value, is_ascii_digit};
ghost use Rattle.std.specs.Option.{option_map};
ghost use Rattle.dds_script.specs.Numbers.{before_end, decimal_of, of_64_bits, units_said};

use dds_base::{EntityId, GuidPrefix, Key, Octets};
use hex::{FromHex, FromHexError};
use std::alloc::{AllocError, Global};

fn decimal_digit(digit: u8) -> Option<u64>
    ensures digit { IfSome result (λ n. (is_ascii_digit digit ≡ true) × (n ≡ digit_value digit)) }
    ensures none { IfNone result (is_ascii_digit digit ≡ false) }
{
    match digit {
        b'0'..=b'9' => Some(u64::from(digit - b'0')),
        _ => None,
    }
}

/// A number in decimal digits alone, or none.
pub fn decimal(word: &str) -> Option<u64>
    ensures read { result ≡ decimal_of word.now }
{
    if word.is_empty() {
        return None;
    }
    let mut number = 0u64;
    for digit in word.as_bytes() {
        number = number.checked_mul(10)?.checked_add(decimal_digit(*digit)?)?;
    }
    Some(number)
}

/// A decimal number of 8 bits.
pub fn decimal_u8(word: &str) -> Option<u8> {
    u8::try_from(decimal(word)?).ok()
}

/// A decimal number of 32 bits.
pub fn decimal_u32(word: &str) -> Option<u32> {
    u32::try_from(decimal(word)?).ok()
}

/// A signed decimal number of 32 bits: digits, with a minus in front or without.
pub fn decimal_i32(word: &str) -> Option<i32> {
    let number = match word.strip_prefix('-') {
        Some(digits) => -i64::from(decimal_u32(digits)?),
        None => i64::from(decimal_u32(word)?),
    };
    i32::try_from(number).ok()
}

/// One second, in units of 2^-32 second.
const SECOND: u64 = 1 << 32;

/// So many of the parts of a second, of which there are so many, in units of 2^-32 second, rounded down.
fn parts_of_second(number: u64, parts: u64) -> Option<u64>
    ensures thousandths { parts ≡ 1000 → result ≡ of_64_bits (number * 2 ^ 32 / 1000) }
    ensures millionths { parts ≡ 1000000 → result ≡ of_64_bits (number * 2 ^ 32 / 1000000) }
{
    let seconds = number.checked_div(parts)?.checked_mul(SECOND)?;
    let rest = number.checked_rem(parts)?.checked_mul(SECOND)?;
    seconds.checked_add(rest.checked_div(parts)?)
}

/// What stands before such an end.
fn before_end<'a>(word: &'a str, end: &str) -> Option<&'a str>
    ensures { option_map (λ x. x.now) result ≡ before_end end.now word.now }
{
    word.strip_suffix(end)
}

/// A time in units of 2^-32 second: a number of them, or of seconds, milliseconds or microseconds, as `5s`, `500ms` and
/// `20us`, rounded down.
pub fn units(word: &str) -> Option<u64>
    ensures read { result ≡ units_said word.now }
{
    if let Some(milliseconds) = before_end(word, "ms") {
        parts_of_second(decimal(milliseconds)?, 1_000)
    } else if let Some(microseconds) = before_end(word, "us") {
        parts_of_second(decimal(microseconds)?, 1_000_000)
    } else if let Some(seconds) = before_end(word, "s") {
        decimal(seconds)?.checked_mul(SECOND)
    } else {
        decimal(word)
    }
}

fn hexadecimal_digit(digit: u8) -> Option<u8> {
    match digit {
        b'0'..=b'9' => Some(digit - b'0'),
        b'a'..=b'f' => Some(digit - b'a' + 10),
        b'A'..=b'F' => Some(digit - b'A' + 10),
        _ => None,
    }
}

/// A number of 1 to 32 hexadecimal digits.
fn hexadecimal(word: &str) -> Option<u128> {
    if word.is_empty() || word.len() > 32 {
        return None;
    }
    let mut number = 0u128;
    for digit in word.as_bytes() {
        number = (number << 4) | u128::from(hexadecimal_digit(*digit)?);
    }
    Some(number)
}

/// A key of 1 to 32 hexadecimal digits, filled with zeros on the left.
pub fn key(word: &str) -> Option<Key> {
    Some(Key(hexadecimal(word)?.to_be_bytes()))
}

/// A GUID prefix of 24 hexadecimal digits.
pub fn guid_prefix(word: &str) -> Option<GuidPrefix> {
    Some(GuidPrefix(<[u8; 12] as FromHex>::from_hex(word).ok()?))
}

/// An entity id of 8 hexadecimal digits.
pub fn entity_id(word: &str) -> Option<EntityId> {
    Some(EntityId(<[u8; 4] as FromHex>::from_hex(word).ok()?))
}

/// Whether `value` reads a word.
pub fn is_value(word: &str) -> bool {
    let digits = word.as_bytes();
    word == "-"
        || !digits.is_empty()
            && digits.len() % 2 == 0
            && digits
                .iter()
                .all(|digit| hexadecimal_digit(*digit).is_some())
}

/// A value in an even number of hexadecimal digits, or `-` for the empty one; none where it is neither.
///
/// # Errors
///
/// Want of memory.
pub fn value(alloc: Global, word: &str) -> Result<Option<Octets>, AllocError> {
    match word {
        "-" => Ok(Some(Octets::from_vec(Vec::new(alloc)))),
        "" => Ok(None),
        _ => match hex::decode(alloc, word) {
            Ok(octets) => Ok(Some(Octets::from_vec(octets))),
            Err(FromHexError::OutOfMemory) => Err(AllocError),
            Err(_) => Ok(None),
        },
    }
}
