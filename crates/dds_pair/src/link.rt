//! How the packets of a peer travel.
//!
//! RTPS 2.5, 8.1 (the transport): packets may be lost, repeated and reordered. Links are this project's own.

use dds_base::Code;
use dds_protocol::Packet;

/// How the packets of one peer travel: away by `send`, and to it by `receive`. It may lose, repeat and reorder them.
///
/// It says by `sends`, `receives` and `fails` what a call does to it, so that a contract can tell what went over it; a
/// link of which no contract speaks takes `{ λ _ _ _. ⊤ }` for each.
///
/// Links are this project's own.
pub trait Link: Drop {
    ghost use Rattle.std.specs.Prelude.{◌≡◌, ◌⊎◌, ℕ, List, Option, None, Some, IfOk, IfErr, MatchBool};
    ghost use Rattle.dds_base.specs.declared.code.Code.{Code};
    ghost use Rattle.dds_base.specs.declared.code.Code.TheVariants as code_of;
    ghost use Rattle.dds_protocol.specs.declared.event.Packet.{Packet};

    /// Which link it may become by sending a packet.
    ghost sends: { Self → Packet → Self → Type 0 };

    /// The octets of the packet that came last.
    ghost came: { Self → List ℕ };

    /// Which link it may become by a receive that gives these octets, or none.
    ghost receives: { Self → Option (List ℕ) → Self → Type 0 };

    /// Which link it may become by a receive that is refused so.
    ghost fails: { Self → Code → Self → Type 0 };

    /// Sends a packet, without waiting; `false` where it is lost.
    fn send(&mut self, packet: &Packet) -> bool
        // It becomes one that it may become by this packet.
        ensures sends { sends self.old packet.now self.new };

    /// Whether a packet came: `octets` lends its octets then. It may wait for a moment that it bounds itself.
    ///
    /// # Errors
    ///
    /// `Link` where the way is broken, and `Memory` where a growth was refused: what came is then lost.
    fn receive(&mut self) -> Result<bool, Code>
        // It becomes one that it may become by what came.
        ensures receives { IfOk result (λ some. MatchBool some
            (receives self.old (Some (came self.new)) self.new) (receives self.old None self.new)) }
        // A refusal has one of two causes, and it becomes one that it may become by that.
        ensures refused { IfErr result (λ code. (code ≡ code_of.Link) ⊎ (code ≡ code_of.Memory)) }
        ensures fails { IfErr result (λ code. fails self.old code self.new) };

    /// The octets of the packet that came last, until the next receive.
    fn octets(&self) -> &[u8]
        ensures came { result.now ≡ came self.now };
}
