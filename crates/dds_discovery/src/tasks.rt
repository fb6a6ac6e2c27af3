//! What our peer of a network is to do.
//!
//! `specs/Tasks.antt` says it.
//!
//! RTPS 2.5, 8.5.4 (SEDP), 8.4.13 (the writer liveliness protocol), 9.6 (ParticipantMessageData).

ghost use Rattle.std.specs.Prelude.{◌≡◌, ◌∷◌, [], None, Some, IfOk, IfErr, OnOk, OnErr};
ghost use Rattle.dds_machine.specs.declared.call.Call.TheVariants.{Write as WriteOf};
ghost use Rattle.dds_protocol.specs.declared.event.Event.TheVariants.{Call as CallOf};
ghost use Rattle.dds_builtin.specs.Keys.{message_key};
ghost use Rattle.dds_discovery.specs.Tasks.{Announces, DoesTask, HappensFor, IsEventOf, found_no_memory, ours_of, withdrawing, writer_of};

use crate::link::{Link, Removed};
use dds_base::{Code, GuidPrefix, Key, Moment, Octets};
use dds_builtin::{announcement, key_of, message_key};
use dds_machine::{Call, Reply};
use dds_network::{Task, Work};
use dds_protocol::Event;
use rtps_announcements::EndpointKind;
use rtps_matching::End;
use std::alloc::Global;

/// The builtin writer of participant messages.
const MESSAGES: u8 = 3;

/// The number of the builtin writer that tells of endpoints of a kind.
fn writer_of(kind: EndpointKind) -> u8
    ensures { result ≡ writer_of kind }
{
    match kind {
        EndpointKind::Writer => 1,
        EndpointKind::Reader => 2,
    }
}

/// A builtin writer writes.
fn writing(writer: u8, key: Key, value: Octets) -> Event
    ensures { result ≡ CallOf (WriteOf writer key value) }
{
    Event::Call(Call::Write { writer, key, value })
}

/// An endpoint of ours is announced; `None` where there is none of this place, or it can't be.
fn announcing(alloc: Global, own: &[End], place: usize) -> Result<Option<Event>, Code>
    ensures ok { IfOk result (Announces own.now place) }
    ensures memory { IfErr result (λ e. e ≡ Code.Memory) }
{
    if place >= own.len() {
        return Ok(None);
    }
    let end = &own[place];
    let Some(value) = announcement(alloc, end)? else {
        return Ok(None);
    };
    let key = key_of(&end.endpoint.guid());
    Ok(Some(writing(writer_of(end.kind), key, value)))
}

/// An endpoint of ours that was taken out is withdrawn; `None` where there is none of this place.
fn withdrawing(removed: &[Removed], place: usize) -> Option<Event>
    ensures { result ≡ withdrawing removed.now place }
{
    if place >= removed.len() {
        return None;
    }
    let gone = removed[place];
    Some(Event::Call(Call::Unregister {
        writer: writer_of(gone.kind),
        key: key_of(&gone.guid),
    }))
}

/// We say that we are alive.
fn speaking(alloc: Global, own: &GuidPrefix) -> Result<Event, Code>
    ensures ok { IfOk result (λ e. e ≡ CallOf (WriteOf 3 (message_key own.now) (0 ∷ []))) }
    ensures memory { IfErr result (λ e. e ≡ Code.Memory) }
{
    let mut value = Vec::new(alloc);
    value.push(0)?;
    Ok(writing(MESSAGES, message_key(own), Octets::from_vec(value)))
}

/// What we are and have.
#[derive(Clone, Copy)]
pub struct Ours<'a> {
    /// What our GUIDs begin with.
    pub prefix: GuidPrefix,
    /// Our endpoints.
    pub own: &'a [End],
    /// Those that were taken out.
    pub removed: &'a [Removed],
    /// The moment.
    pub time: u64,
}

/// The event of a task, at a network that has come so far; `None` where there is nothing to be done.
fn event_of(alloc: Global, ours: &Ours, work: &Work, task: Task) -> Result<Option<Event>, Code>
    ensures ok { IfOk result (IsEventOf (ours_of ours.now) work.now task) }
    ensures memory { IfErr result (λ e. e ≡ Code.Memory) }
{
    match task {
        Task::Tick => Ok(Some(Event::Tick(Moment::new(ours.time)))),
        Task::Assert(writer) => Ok(Some(Event::Call(Call::AssertLiveliness { writer }))),
        Task::Unregister => Ok(withdrawing(ours.removed, work.removed)),
        Task::Write => announcing(alloc, ours.own, work.written),
        Task::Speak => {
            let event = speaking(alloc, &ours.prefix)?;
            Ok(Some(event))
        }
    }
}

/// Whether a call found no memory.
fn found_no_memory(reply: &Reply) -> bool
    ensures { result ≡ found_no_memory reply.now }
{
    matches!(reply, Reply::Refused(Code::Memory))
}

/// Our peer does the event of a task.
fn happen(link: &mut Link, task: Task, time: u64, event: Event)
    ensures { HappensFor event task time link.old link.new }
{
    let output = link.network.happen(event);
    let waits = found_no_memory(&output.reply);
    link.packets = output.packets.into_vec();
    link.network.work.end(task, time, waits);
}

/// Our peer does a task.
///
/// # Errors
///
/// `Memory` where there is none to make the event: then the task is left to do.
pub fn perform(alloc: Global, ours: &Ours, link: &mut Link, task: Task) -> Result<(), Code>
    ensures ok { OnOk result (DoesTask (ours_of ours.now) task link.old link.new) }
    ensures err { OnErr result (link.new ≡ link.old) }
    ensures memory { IfErr result (λ e. e ≡ Code.Memory) }
{
    let Some(event) = event_of(alloc, ours, &link.network.work, task)? else {
        link.network.work.end(task, ours.time, false);
        return Ok(());
    };
    happen(link, task, ours.time, event);
    Ok(())
}
