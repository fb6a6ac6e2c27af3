//! A peer that threads share, and that hands its trace out in pieces: what it stores is what was not handed out yet.
//!
//! DDS 1.4, 2.2.2.1 (Entity). Passes, closing and traces are this project's own.

ghost use Rattle.std.specs.Prelude.{◌≡◌, ◌⊎◌, ◌++◌, ◌<◌, ◌≤◌, [], length, All, OnOk, OnErr, IfErr, IfOk};
ghost use Rattle.dds_base.specs.declared.code.Code.TheVariants.{Memory, Mismatch, PreconditionNotMet};
ghost use Rattle.dds_protocol.specs.declared.event.Event.TheVariants as event;
ghost use Rattle.dds_trace.specs.History.{IsHistoryOf};
ghost use Rattle.dds_shared.specs.Passes.{IsAsBefore, Lists, SameSeats, lists_of, unused};
ghost use Rattle.dds_shared.specs.Seeds.{listeners_in, slots_shown};

use crate::flat::FlatPass;
use crate::named::Named;
use crate::recorded::Closed;
use crate::scribe::Scribe;
use crate::seed::Seed;
use crate::shared::Shared;
use dds_base::{Code, Octets};
use dds_conditions::Filter;
use dds_keeping::{Counted, Pieces};
use dds_notices::Listener;
use dds_protocol::{Event, Output};
use dds_trace::Trace;
use std::sync::{Mutex, Wait};

/// A peer that threads share, and that hands its trace out in pieces.
pub type Recording<N, F, L> = Shared<N, F, L, Pieces, Counted>;

/// A recording peer that was not closed, with its passes and its scribe.
#[derive(Drop)]
pub struct NotEnded<N: Named<F, L>, F: Filter, L: Listener> {
    /// Why.
    pub code: Code,
    /// The peer, as it was.
    pub shared: Recording<N, F, L>,
    /// The passes that were handed in.
    pub passes: Vec<FlatPass<N>>,
    /// The scribe that was handed in.
    pub scribe: Scribe<N>,
}

impl<N: Named<F, L>, F: Filter, L: Listener> Shared<N, F, L, Pieces, Counted> {
    /// Shares a peer under its name, and gives the first pass, and who cuts its trace. It takes no memory.
    pub fn open_recording(seed: Seed<F, L>) -> (Recording<N, F, L>, FlatPass<N>, Scribe<N>)
        // The name is that of the seed.
        requires name { (seed.name ≡ N.name) × (seed.parts ≡ N.parts) × (seed.word ≡ N.word) }
        // It is of the seed's peer, with the filters and the listeners that this has.
        requires of { (seed.config ≡ N.config) × (seed.peer ≡ N.peer) }
        requires set { (seed.core.filtered.filters ≡ N.filters) × (seed.core.listeners ≡ N.slots) }
        // The pass did nothing yet, and has seen nothing.
        ensures pass { result.1 ≡ unused 1 result.1.spare 0 }
        // Nothing was cut yet.
        ensures uncut { result.2 ≡ [] }
    {
        let (shared, pass) = Shared::<N, F, L, Pieces, Counted>::of_seed(seed);
        let Shared {
            locked,
            changed,
            word,
            alloc,
            of,
        } = shared;
        let mut locked = locked.into_inner();
        let scribe = locked.scribe(&word);
        let shared = Shared {
            locked: Mutex::new(locked),
            changed,
            word,
            alloc,
            of,
        };
        (shared, pass, scribe)
    }

    /// The bytes of a packet come, whatever they are, and stay where they are: what is recorded is a copy.
    ///
    /// # Errors
    ///
    /// As of `call`.
    pub fn deliver<R: Wait>(
        &self,
        rt: &R,
        pass: &mut FlatPass<N>,
        octets: &[u8],
    ) -> Result<Output, Code>
        // The pass has done one event more: this delivery, with this report.
        ensures ok { IfOk result (λ o. Lists pass.old pass.new (event.Deliver octets.now) o) }
        // The entry stands above what the pass had seen; then it has seen it.
        ensures front { OnOk result (pass.old.front < pass.new.front) }
        // A refusal changes nothing.
        ensures refused { IfErr result (λ code. code ≡ Memory) }
        ensures err { OnErr result (IsAsBefore pass.old pass.new) }
    {
        let bytes = Octets::from_vec(Vec::from_slice(self.alloc, octets)?);
        self.event(rt, pass, Event::Deliver(bytes))
    }

    /// Cuts off what the peer did since the last cut: the next piece of its trace.
    ///
    /// # Errors
    ///
    /// `Memory` where a growth was refused, which is asked for where somebody waits in a WaitSet: nothing changes.
    /// `Mismatch` where the piece would not follow upon the one before, which can't be.
    pub fn cut<R: Wait>(&self, rt: &R, scribe: &mut Scribe<N>) -> Result<Trace, Code>
        // It follows upon the pieces before it, and is of this peer.
        ensures piece { IfOk result (λ piece. scribe.new ≡ scribe.old ++ piece.entries) }
        ensures named { IfOk result (λ piece. piece.peer ≡ N.peer) }
        // A refusal has one of two causes, and changes nothing.
        ensures refused { IfErr result (λ code. (code ≡ Memory) ⊎ (code ≡ Mismatch)) }
        ensures err { OnErr result (scribe.new ≡ scribe.old) }
    {
        self.locked.lock(rt).cut(self.alloc, &self.word, scribe)
    }

    /// Ends with the last piece of the trace and the peer, if all passes are handed in, and with the scribe.
    ///
    /// # Errors
    ///
    /// `PreconditionNotMet` where a pass is missing, else as of `cut`. The peer, its passes and its scribe come back.
    pub fn close(
        self,
        passes: Vec<FlatPass<N>>,
        scribe: Scribe<N>,
    ) -> Result<Closed<F, L>, NotEnded<N, F, L>>
        // All pieces, one behind the other, are a history of the peer: what was done leads from its opening to it.
        ensures history { IfOk result (λ closed. IsHistoryOf F.meaning L.notices L.capacity L.becomes
            (listeners_in N.slots) N.config N.peer (scribe ++ closed.trace.entries) closed.core) }
        ensures named { IfOk result (λ closed. closed.trace.peer ≡ N.peer) }
        // It has the filters that it was shared with, and at each entity the listener's statuses and room.
        ensures filters { IfOk result (λ closed. closed.core.filtered.filters ≡ N.filters) }
        ensures slots { IfOk result
            (λ closed. slots_shown L.capacity closed.core.listeners ≡ slots_shown L.capacity N.slots) }
        // The entries of each seat are what the passes did, in order, and there are no others.
        ensures lists { IfOk result (λ closed. SameSeats (scribe ++ closed.trace.entries) passes.items) }
        ensures complete { IfOk result
            (λ closed. length (scribe ++ closed.trace.entries) ≡ length (lists_of passes.items)) }
        // No pass has seen more entries than there are.
        ensures fronts { IfOk result
            (λ closed. All (λ p. p.front ≤ length (scribe ++ closed.trace.entries)) passes.items) }
        // A refusal has one of three causes, and what was handed in comes back.
        ensures refused { IfErr result
            (λ e. (e.code ≡ PreconditionNotMet) ⊎ (e.code ≡ Memory) ⊎ (e.code ≡ Mismatch)) }
        ensures back { IfErr result (λ e. (e.passes.items ≡ passes.items) × (e.scribe ≡ scribe)) }
    {
        let Shared {
            locked,
            changed,
            word,
            alloc,
            of,
        } = self;
        let mut locked = locked.into_inner();
        let mut scribe = scribe;
        match locked.last_piece(alloc, &word, passes.as_slice(), &mut scribe) {
            Ok(trace) => {
                let core = locked.close(passes, &word).core;
                Ok(Closed { trace, core })
            }
            Err(code) => Err(NotEnded {
                code,
                shared: Shared {
                    locked: Mutex::new(locked),
                    changed,
                    word,
                    alloc,
                    of,
                },
                passes,
                scribe,
            }),
        }
    }
}
