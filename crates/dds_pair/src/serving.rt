//! A worker's turns.
//!
//! RTPS 2.5, 8.4 (what is sent and when), is the peer's; workers are this project's own.

ghost use Rattle.std.specs.Prelude.{◌≡◌, ◌⊎◌, OnErr, IfOk, IfErr, MatchBool};
ghost use Rattle.dds_base.specs.declared.code.Code.TheVariants as code_of;
ghost use Rattle.dds_shared.specs.Passes.{IsAsBefore};
ghost use Rattle.dds_pair.specs.declared.turn.Turn.TheVariants as turn_of;
ghost use Rattle.dds_pair.specs.Serving.{Breaks, IsFailed, Stops, TakesTurn};

use crate::gate::Gate;
use crate::link::Link;
use crate::served::Served;
use crate::turn::Turn;
use dds_base::Code;
use dds_keeping::Handing;
use dds_log::HasWord;
use dds_shared::Pass;
use std::sync::Wait;
use std::sync::ledger::Ledger;

// Takes a turn, and says whether the worker goes on.
fn take_turn<S: Served<N, P>, N: Ledger + HasWord, P: Handing, K: Link, R: Wait>(
    rt: &R,
    shared: &S,
    pass: &mut Pass<N, P>,
    link: &mut K,
    turn: Turn,
) -> Result<bool, Code>
    ensures ok { IfOk result (λ goes_on. MatchBool goes_on
        (TakesTurn K.sends K.receives turn pass.old pass.new link.old link.new)
        ((turn ≡ turn_of.Stop) × (pass.new ≡ pass.old) × (link.new ≡ link.old))) }
    ensures failed { IfErr result (λ code. IsFailed K.receives K.fails turn link.old code link.new) }
    ensures refused { IfErr result (λ code. (code ≡ code_of.Link) ⊎ (code ≡ code_of.Memory)) }
    ensures err { OnErr result (IsAsBefore pass.old pass.new) }
{
    match turn {
        Turn::Stop => Ok(false),
        Turn::Receive => {
            shared.receive_once(rt, pass, link)?;
            Ok(true)
        }
        Turn::Tick(now) => {
            shared.tick_once(rt, pass, link, now)?;
            Ok(true)
        }
    }
}

/// Does what a worker does at a shared peer, until its gate says stop, and answers how many turns that were, the stop not
/// among them. In each turn it delivers a packet that came over the link, if one did, or has the peer's time go on, and
/// sends what the peer then gives. A packet that the link loses is lost: what has to be repeated the peer repeats.
///
/// The packets of calls that others make at the peer are not sent by it.
///
/// # Errors
///
/// `Link` where the link is broken, and `Memory` where a growth was refused. What was done before stands, in the pass and
/// in the peer's history; a packet that came and could not be delivered is lost. The worker may be started again with the
/// same pass.
pub fn serve<S: Served<N, P>, N: Ledger + HasWord, P: Handing, K: Link, G: Gate, R: Wait>(
    rt: &R,
    shared: &S,
    pass: &mut Pass<N, P>,
    link: &mut K,
    gate: &mut G,
) -> Result<u64, Code>
    // It took each turn as the gate said it, so often: what came was delivered, and what that gave was sent, in order.
    ensures ok { IfOk result (λ turns. Stops K.sends K.receives G.says pass.old pass.new link.old gate.old
        link.new gate.new turns) }
    // A refusal has one of two causes.
    ensures refused { IfErr result (λ code. (code ≡ code_of.Link) ⊎ (code ≡ code_of.Memory)) }
    // Then all turns but the last were taken so, and the last one failed with this, and entered nothing.
    ensures err { IfErr result (λ code. Breaks K.sends K.receives K.fails G.says pass.old pass.new link.old gate.old
        link.new gate.new code) }
{
    for turns in 0..u64::MAX {
        let turn = gate.turn();
        if !take_turn(rt, shared, pass, link, turn)? {
            return Ok(turns);
        }
    }
    Ok(u64::MAX)
}
