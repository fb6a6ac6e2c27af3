//! A shared peer as a worker has it, recorded or flat.
//!
//! RTPS 2.5, 8.4 (what is sent and when), is the peer's; workers are this project's own.

ghost use Rattle.std.specs.Prelude.{◌≡◌, ◌⊎◌, ◌++◌, ◌∷◌, [], List, OnOk, OnErr, IfErr};
ghost use Rattle.std.specs.List.{FoldsTo};
ghost use Rattle.dds_base.specs.declared.code.Code.TheVariants as code_of;
ghost use Rattle.dds_trace.specs.declared.trace.Entry.{Entry};
ghost use Rattle.dds_shared.specs.Passes.{IsAsBefore};
ghost use Rattle.dds_pair.specs.declared.turn.Turn.TheVariants as turn_of;
ghost use Rattle.dds_pair.specs.Serving.{IsFailed, TakesTurn};

use crate::link::Link;
use dds_base::{Code, Moment};
use dds_conditions::Filter;
use dds_keeping::{Counted, Handing, Recorded};
use dds_log::HasWord;
use dds_notices::Listener;
use dds_protocol::Packet;
use dds_shared::{FlatPass, Named, Pass, Shared};
use std::sync::Wait;
use std::sync::ledger::Ledger;

// Sends packets, one after the other.
fn send_all<K: Link>(link: &mut K, packets: &[Packet])
    ensures sent { FoldsTo K.sends link.old packets.now link.new }
{
    for packet in packets {
        let _ = link.send(packet);
    }
}

// Sends the packets that the newest entry gave.
fn send_newest<N: Ledger + HasWord, K: Link>(pass: &Pass<N>, link: &mut K)
    ensures sent { (es : List Entry) (e : Entry) → pass.now.list ≡ es ++ e ∷ []
        → FoldsTo K.sends link.old e.output.packets link.new }
{
    if let Some(entry) = pass.newest() {
        send_all(link, entry.output.packets.as_slice());
    }
}

/// A shared peer as a worker has it: what comes over a link is delivered to it, its time goes on, and what that gives is
/// sent. `Shared` and `Flat` are such.
///
/// Workers are this project's own.
pub trait Served<N: Ledger + HasWord, P: Handing> {
    ghost use Rattle.std.specs.Prelude.{◌≡◌, ◌⊎◌, OnOk, OnErr, IfErr};
    ghost use Rattle.dds_base.specs.declared.code.Code.TheVariants as code_of;
    ghost use Rattle.dds_shared.specs.Passes.{IsAsBefore};
    ghost use Rattle.dds_pair.specs.declared.turn.Turn.TheVariants as turn_of;
    ghost use Rattle.dds_pair.specs.Serving.{IsFailed, TakesTurn};

    /// Delivers a packet, if one came, and sends what it gives.
    ///
    /// # Errors
    ///
    /// `Link` where the link is broken, and `Memory` where a growth was refused: what came is then lost.
    fn receive_once<K: Link, R: Wait>(
        &self,
        rt: &R,
        pass: &mut Pass<N, P>,
        link: &mut K,
    ) -> Result<(), Code>
        ensures ok { OnOk result
            (TakesTurn K.sends K.receives turn_of.Receive pass.old pass.new link.old link.new) }
        ensures failed { IfErr result
            (λ code. IsFailed K.receives K.fails turn_of.Receive link.old code link.new) }
        ensures refused { IfErr result (λ code. (code ≡ code_of.Link) ⊎ (code ≡ code_of.Memory)) }
        ensures err { OnErr result (IsAsBefore pass.old pass.new) };

    /// Has the peer's time go on to this moment, and sends what that gives.
    ///
    /// # Errors
    ///
    /// `Memory` where a growth was refused.
    fn tick_once<K: Link, R: Wait>(
        &self,
        rt: &R,
        pass: &mut Pass<N, P>,
        link: &mut K,
        now: Moment,
    ) -> Result<(), Code>
        ensures ok { OnOk result
            (TakesTurn K.sends K.receives (turn_of.Tick now) pass.old pass.new link.old link.new) }
        ensures failed { IfErr result
            (λ code. IsFailed K.receives K.fails (turn_of.Tick now) link.old code link.new) }
        ensures refused { IfErr result (λ code. code ≡ code_of.Memory) }
        ensures err { OnErr result (IsAsBefore pass.old pass.new) };
}

impl<N: Named<F, L>, F: Filter, L: Listener> Served<N, Recorded>
    for Shared<N, F, L, Recorded, Recorded> {
    fn receive_once<K: Link, R: Wait>(
        &self,
        rt: &R,
        pass: &mut Pass<N>,
        link: &mut K,
    ) -> Result<(), Code> {
        if !link.receive()? {
            return Ok(());
        }
        self.deliver_copy(rt, pass, link.octets())?;
        send_newest(pass, link);
        Ok(())
    }

    fn tick_once<K: Link, R: Wait>(
        &self,
        rt: &R,
        pass: &mut Pass<N>,
        link: &mut K,
        now: Moment,
    ) -> Result<(), Code> {
        self.tick(rt, pass, now)?;
        send_newest(pass, link);
        Ok(())
    }
}

impl<N: Named<F, L>, F: Filter, L: Listener> Served<N, Counted>
    for Shared<N, F, L, Counted, Counted> {
    fn receive_once<K: Link, R: Wait>(
        &self,
        rt: &R,
        pass: &mut FlatPass<N>,
        link: &mut K,
    ) -> Result<(), Code> {
        if !link.receive()? {
            return Ok(());
        }
        let output = self.deliver(rt, pass, link.octets())?;
        send_all(link, output.packets.as_slice());
        Ok(())
    }

    fn tick_once<K: Link, R: Wait>(
        &self,
        rt: &R,
        pass: &mut FlatPass<N>,
        link: &mut K,
        now: Moment,
    ) -> Result<(), Code> {
        let output = self.tick(rt, pass, now)?;
        send_all(link, output.packets.as_slice());
        Ok(())
    }
}
