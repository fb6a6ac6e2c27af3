//! Addresses, in words.
//!
//! RTPS 2.5, 9.3.2 (Locator_t).

ghost use Rattle.std.specs.Prelude.{◌≡◌, ◌∷◌, []};
ghost use Rattle.std.specs.Option.{option_map};
ghost use Rattle.discovery_script.specs.Addresses.{address_of, locator_of, number_below, parts_at};

use dds_script::decimal;
use rtps_announcements::{Locator, Locators};

fn octet(word: &str) -> Option<u8>
    ensures { result ≡ number_below 256 word.now }
{
    u8::try_from(decimal(word)?).ok()
}

/// What stands before the first dot, and after it.
fn parts_at_dot(word: &str) -> Option<(&str, &str)>
    ensures { option_map (λ x. (x.0.now, x.1.now)) result ≡ parts_at 46 word.now }
{
    word.split_once('.')
}

/// What stands before the first colon, and after it.
fn parts_at_colon(word: &str) -> Option<(&str, &str)>
    ensures { option_map (λ x. (x.0.now, x.1.now)) result ≡ parts_at 58 word.now }
{
    word.split_once(':')
}

/// The four numbers of an address, as `127.0.0.1`.
#[tactic(auto, unfolding(crate::specs::Addresses::address_of))]
pub fn address(word: &str) -> Option<[u8; 4]>
    ensures read { result ≡ address_of word.now }
{
    let (first, rest) = parts_at_dot(word)?;
    let (second, rest) = parts_at_dot(rest)?;
    let (third, fourth) = parts_at_dot(rest)?;
    Some([octet(first)?, octet(second)?, octet(third)?, octet(fourth)?])
}

/// An address with its port, as `127.0.0.1:7410`.
#[tactic(auto, unfolding(crate::specs::Addresses::locator_of))]
pub fn locator(word: &str) -> Option<Locator>
    ensures read { result ≡ locator_of word.now }
{
    let (numbers, port) = parts_at_colon(word)?;
    let address = address(numbers)?;
    let port = u16::try_from(decimal(port)?).ok()?;
    if port == 0 {
        return None;
    }
    Some(Locator { address, port })
}

/// One locator.
pub fn one_locator(locator: Locator) -> Locators
    ensures one { result ≡ locator ∷ [] }
{
    let mut locators = Locators::new();
    let _ = locators.push(locator);
    locators
}
