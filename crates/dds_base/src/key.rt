//! The key of an instance.
//!
//! RTPS 2.5, 9.6 (key hash).

ghost use Rattle.std.specs.Prelude.{◌≡◌, ◌<◌, ℕ, ◌∷◌, [], length, take, drop, get_or, nat_eq};
ghost use Rattle.std.specs.Cmp.Lexicographic.{pointwise};
ghost use Rattle.std.specs.Cmp.Rules.{comparing, hashing};
ghost use Rattle.std.specs.Ordering.{on};
ghost use Rattle.std.specs.Int.{w64, from_le_bytes};
ghost use Rattle.std.proofs.Common.{rules};

use std::hash::{Hash, Hasher};

/// The key of an instance of the topic type: sixteen octets.
///
/// RTPS 2.5, 9.6 (key hash): a key of at most sixteen octets names its instance as it stands.
#[derive(Clone, Copy, Debug)]
pub struct Key(pub [u8; 16]);

impl Key {
    /// The sixteen octets, in their order.
    pub fn as_slice(&self) -> &[u8]
        // They are those that it is made of.
        ensures same { result.now ≡ self.now.0 }
        // There are sixteen.
        ensures len { length self.now.0 ≡ 16 }
    {
        &self.0
    }
}

/// The octets as two numbers, by which keys are compared.
fn halves(octets: [u8; 16]) -> (u64, u64)
    ensures first { result.0 ≡ from_le_bytes w64 (take 8 octets) }
    ensures second { result.1 ≡ from_le_bytes w64 (drop 8 octets) }
    ensures octets { (i : ℕ) → get_or octets i 0 < 256 }
{
    let [a, b, c, d, e, f, g, h, i, j, k, l, m, n, o, p] = octets;
    (
        u64::from_le_bytes([a, b, c, d, e, f, g, h]),
        u64::from_le_bytes([i, j, k, l, m, n, o, p]),
    )
}

impl PartialEq for Key {
    ghost eq = { on (λ x. x.0) (pointwise nat_eq) };

    ghost laws = { Prim.search (comparing, rules) };

    fn eq(&self, other: &Key) -> bool {
        let (first, second) = halves(self.0);
        let (other_first, other_second) = halves(other.0);
        (first == other_first) & (second == other_second)
    }
}

impl Eq for Key {
    ghost laws = { Prim.search (comparing, rules) };
}

impl Hash for Key {
    ghost hash_input = { λ x. x.0 ∷ [] };

    ghost respects_eq = { Prim.search (hashing, rules) };

    fn hash<H: Hasher>(&self, state: &mut H) {
        state.write(&self.0);
    }
}
