//! A wait under the lock of a shared peer, look by look: between looks the lock is let go.
//!
//! DDS 1.4, 2.2.2.1 (WaitSet, wait). That a wait is its looks is this project's own.

ghost use Rattle.std.specs.Prelude.{◌≡◌, ◌<◌, ◌≤◌, List, OnOk, OnErr, IfErr, IfOk, true};
ghost use Rattle.dds_base.specs.declared.code.Code.TheVariants.{Memory};
ghost use Rattle.dds_machine.specs.declared.call.Call.TheVariants.{WaitBegin, WaitLook};
ghost use Rattle.dds_protocol.specs.declared.event.Event.TheVariants as event;
ghost use Rattle.dds_protocol.specs.declared.event.Output.{Output as OutputOf};
ghost use Rattle.dds_trace.specs.declared.trace.Entry.{Entry as EntryOf};
ghost use Rattle.dds_trace.specs.Uses.{IsInUse};
ghost use Rattle.dds_shared.specs.Passes.{Carried, Grows, IsAsBefore};
ghost use Rattle.dds_shared.specs.Locks.{Adds};
ghost use Rattle.dds_shared.specs.Waits.{Begins, Ends, GivesUp, IsEndOfWait, given_up};

use crate::locked::{Did, Locked};
use crate::named::Named;
use crate::pass::Pass;
use dds_base::{Code, Moment};
use dds_conditions::Filter;
use dds_keeping::{Handing, Keeping};
use dds_log::Word;
use dds_machine::Call;
use dds_notices::Listener;
use dds_protocol::Event;
use dds_trace::Entry;
use std::marker::Brand;
use std::snapshot::Snapshot;

/// What the begin of a wait, or a look, gave: what the caller gets, and whether it stands so. Of a begin that is whether
/// the wait began, of a look whether the wait is over.
#[derive(Drop)]
pub struct Waited<A: Drop> {
    pub answer: A,
    pub is_so: bool,
}

impl<N: Named<F, L>, F: Filter, L: Listener, T: Keeping> Locked<N, F, L, T> {
    /// Begins a wait, and says whether it began. There is room for its end in the pass's list.
    pub fn begin<P: Handing>(
        &mut self,
        word: &Word<N, Entry>,
        pass: &mut Pass<N, P>,
        wait_set: u32,
        deadline: Moment,
    ) -> Result<Waited<P::Answer>, Code>
        ensures ok { IfOk result (λ begun. (o : OutputOf)
            × Adds F.meaning L.notices L.capacity L.becomes self.old self.new pass.old pass.new
            (event.Call (WaitBegin wait_set deadline)) o
            × P.answers begun.answer o × Begins begun.is_so o.reply) }
        ensures room { OnOk result (0 < pass.new.spare) }
        ensures err { OnErr result ((self.new ≡ self.old) × IsAsBefore pass.old pass.new) }
        ensures refused { IfErr result (λ code. code ≡ Memory) }
    {
        pass.reserve(2)?;
        let Did { answer, said } = self.event(
            word,
            pass,
            Event::Call(Call::WaitBegin { wait_set, deadline }),
        )?;
        Ok(Waited {
            answer,
            is_so: said.done,
        })
    }

    /// Looks once, and says whether the wait is over. Where there is no memory it gives the wait up.
    pub fn look<P: Handing>(
        &mut self,
        word: &Word<N, Entry>,
        pass: &mut Pass<N, P>,
        wait_set: u32,
    ) -> Result<Waited<P::Answer>, Code>
        requires room { 0 < pass.old.spare }
        ensures ok { IfOk result (λ looked. (o : OutputOf)
            × Adds F.meaning L.notices L.capacity L.becomes self.old self.new pass.old pass.new
            (event.Call (WaitLook wait_set)) o
            × P.answers looked.answer o × Ends looked.is_so o.reply) }
        ensures room { OnOk result (0 < pass.new.spare) }
        ensures err { OnErr result ((es : List EntryOf) × (last : Carried) × Grows pass.old last es
            × GivesUp pass.old.seat wait_set es × (pass.new ≡ given_up wait_set last)) }
        ensures front { pass.old.front ≤ pass.new.front }
        ensures unused { OnErr result (IsInUse self.new.core wait_set → ⊥) }
        ensures over { IfOk result (λ looked. looked.is_so ≡ true → IsInUse self.new.core wait_set → ⊥) }
        ensures refused { IfErr result (λ code. code ≡ Memory) }
    {
        if pass.reserve(2).is_err() {
            return Err(self.give_up(word, pass, wait_set));
        }
        let Ok(Did { answer, said }) = self.event(
            word,
            pass,
            Event::Call(Call::WaitLook { wait_set }),
        ) else {
            return Err(self.give_up(word, pass, wait_set));
        };
        if said.memory {
            return Err(self.give_up(word, pass, wait_set));
        }
        Ok(Waited {
            answer,
            is_so: !said.waiting,
        })
    }

    // Gives a wait up for want of memory: it is ended, if somebody waits there.
    fn give_up<P: Handing>(
        &mut self,
        word: &Word<N, Entry>,
        pass: &mut Pass<N, P>,
        wait_set: u32,
    ) -> Code
        requires room { 0 < pass.old.spare }
        ensures list { (es : List EntryOf) × (last : Carried) × Grows pass.old last es
            × IsEndOfWait pass.old.seat wait_set es × (pass.new ≡ given_up wait_set last) }
        ensures front { pass.old.front ≤ pass.new.front }
        ensures unused { IsInUse self.new.core wait_set → ⊥ }
        ensures code { result ≡ Memory }
    {
        self.end_wait(word, pass, wait_set);
        let over = self.over(wait_set);
        pass.leave(&mut self.tally, word, over);
        Code::Memory
    }

    // Ends the wait in a WaitSet, if somebody waits there, in the room that was kept for this.
    fn end_wait<P: Handing>(&mut self, word: &Word<N, Entry>, pass: &mut Pass<N, P>, wait_set: u32)
        requires room { 0 < pass.old.spare }
        ensures list { (es : List EntryOf) × Grows pass.old pass.new es
            × IsEndOfWait pass.old.seat wait_set es }
        ensures front { pass.old.front ≤ pass.new.front }
        ensures unused { IsInUse self.new.core wait_set → ⊥ }
    {
        if !self.core.is_in_use(wait_set) {
            return;
        }
        let event = Event::Call(Call::WaitEnd { wait_set });
        let what = Snapshot::of(&event);
        let one = T::own(Event::Call(Call::WaitEnd { wait_set }));
        let two = P::own(Event::Call(Call::WaitEnd { wait_set }));
        let (output, twin) = T::step(&mut self.core, event);
        self.trace.push(pass.seat(), one, twin);
        pass.record::<Brand>(&mut self.tally, word, what, two, output);
    }
}
