//! One step at a link.
//!
//! `specs/Chores.antt` says it.
//!
//! RTPS 2.5, 8.5.4 (SEDP).

ghost use Rattle.std.specs.Prelude.{◌≡◌, [], find, None, IfOk, IfErr, OnErr};
ghost use Rattle.std.specs.Option.{option_copied};
ghost use Rattle.rtps_discovery.specs.Rows.{is_row};
ghost use Rattle.dds_discovery.specs.Chores.{DoesChore, GoesOut, HearsAt, HearsFirst, HearsTo, LinkTakesIn, Sends, Turns, TurnsTable, TurnsTo, address_of, known_of, written_again};
ghost use Rattle.dds_discovery.specs.Tasks.{DoesTask, ours_of};

use crate::due::{Chore, is_row};
use crate::link::{Link, Removed};
use crate::tasks::{Ours, perform};
use dds_base::{Code, GuidPrefix, Masks, Sample};
use dds_builtin::{hear, reach, turned_out};
use dds_network::{Task, Work};
use rtps_announcements::{EndpointKind, Locator};
use rtps_discovery::{Packet, Row};
use rtps_matching::{Endpoints, Told};
use std::alloc::Global;

/// After so long the endpoints that a reader begins without are written again: 2 seconds, in units of 2^-32 second.
const AGAIN_AFTER: u64 = 2 << 32;

/// What is known beside endpoints.
#[derive(Clone, Copy)]
pub struct Known<'a> {
    /// What our GUIDs begin with.
    pub prefix: GuidPrefix,
    /// The participants.
    pub rows: &'a [Row],
    /// Our endpoints that were taken out.
    pub removed: &'a [Removed],
    /// The moment.
    pub time: u64,
}

/// What a step did.
#[derive(Drop)]
pub struct Done {
    /// What it changed of who is matched.
    pub told: Vec<Told>,
    /// A datagram to be sent.
    pub packet: Option<Packet>,
}

/// The row of a participant.
fn row_of<'a>(rows: &'a [Row], prefix: &GuidPrefix) -> Option<&'a Row>
    ensures { option_copied result ≡ find (is_row prefix.now) rows.now }
{
    rows.iter().find(|row| is_row(row, prefix))
}

/// Where a participant is sent to, if it is known and can be reached.
fn address_of(rows: &[Row], prefix: &GuidPrefix) -> Option<Locator>
    ensures { result ≡ address_of prefix.now rows.now }
{
    match row_of(rows, prefix) {
        Some(row) => reach(row).copied(),
        None => None,
    }
}

/// A packet of our peer, as it goes out; `None` where its participant can't be reached, or it gets too long.
fn outgoing(
    alloc: Global,
    own: GuidPrefix,
    to: Option<Locator>,
    bytes: &[u8],
) -> Result<Option<Packet>, Code>
    ensures ok { IfOk result (GoesOut own to bytes.now) }
    ensures memory { IfErr result (λ e. e ≡ Code.Memory) }
{
    let Some(to) = to else {
        return Ok(None);
    };
    match turned_out(alloc, own, bytes)? {
        Some(bytes) => Ok(Some(Packet { to, bytes })),
        None => Ok(None),
    }
}

/// The first packet of our peer goes out.
///
/// # Errors
///
/// `Memory` where there is none: then it is left to go out.
fn send_first(
    alloc: Global,
    own: GuidPrefix,
    rows: &[Row],
    link: &mut Link,
) -> Result<Option<Packet>, Code>
    ensures ok { IfOk result (λ packet. Sends own rows.now link.old packet link.new) }
    ensures err { OnErr result (link.new ≡ link.old) }
    ensures memory { IfErr result (λ e. e ≡ Code.Memory) }
{
    let to = address_of(rows, &link.network.prefix);
    let Some(first) = link.packets.first() else {
        return Ok(None);
    };
    let packet = outgoing(alloc, own, to, first.bytes.as_slice())?;
    let _ = link.packets.remove(0);
    Ok(packet)
}

/// The first of these samples is acted on.
fn hear_sample(
    alloc: Global,
    endpoints: &mut Endpoints,
    prefix: &GuidPrefix,
    kind: EndpointKind,
    samples: &mut Vec<Sample>,
) -> Result<Vec<Told>, Code>
    ensures ok { IfOk result (λ told. HearsFirst prefix.now kind samples.old.items endpoints.old told.items
        samples.new.items endpoints.new) }
    ensures err { OnErr result (endpoints.new ≡ endpoints.old) }
    ensures kept { OnErr result (samples.new ≡ samples.old) }
    ensures memory { IfErr result (λ e. e ≡ Code.Memory) }
{
    let Some(first) = samples.first() else {
        return Ok(Vec::new(alloc));
    };
    let told = hear(alloc, endpoints, prefix, kind, first)?;
    let _ = samples.remove(0);
    Ok(told)
}

/// The first sample of publications or of subscriptions is acted on.
///
/// # Errors
///
/// `Memory` where there is none: then it is left to be acted on.
fn hear_first(
    alloc: Global,
    endpoints: &mut Endpoints,
    link: &mut Link,
    kind: EndpointKind,
) -> Result<Vec<Told>, Code>
    ensures ok { IfOk result
        (λ told. HearsAt kind link.old endpoints.old told.items link.new endpoints.new) }
    ensures err { OnErr result (endpoints.new ≡ endpoints.old) }
    ensures kept { OnErr result (link.new ≡ link.old) }
    ensures memory { IfErr result (λ e. e ≡ Code.Memory) }
{
    let prefix = link.network.prefix;
    match kind {
        EndpointKind::Writer => hear_sample(
            alloc,
            endpoints,
            &prefix,
            kind,
            &mut link.network.publications,
        ),
        EndpointKind::Reader => hear_sample(
            alloc,
            endpoints,
            &prefix,
            kind,
            &mut link.network.subscriptions,
        ),
    }
}

/// A participant is there again, or is there no more.
fn turn_endpoints(
    alloc: Global,
    endpoints: &mut Endpoints,
    prefix: &GuidPrefix,
    is_there: bool,
) -> Result<Vec<Told>, Code>
    ensures ok { IfOk result
        (λ told. TurnsTable is_there prefix.now endpoints.old told.items endpoints.new) }
    ensures err { OnErr result (endpoints.new ≡ endpoints.old) }
    ensures memory { IfErr result (λ e. e ≡ Code.Memory) }
{
    if is_there {
        endpoints.wake(alloc, prefix)
    } else {
        endpoints.sleep(alloc, prefix)
    }
}

/// The participant of a link is there again, or is there no more.
///
/// # Errors
///
/// `Memory` where there is none: then it is left to be done.
fn turn(
    alloc: Global,
    endpoints: &mut Endpoints,
    link: &mut Link,
    is_there: bool,
) -> Result<Vec<Told>, Code>
    ensures ok { IfOk result
        (λ told. Turns is_there link.old endpoints.old told.items link.new endpoints.new) }
    ensures err { OnErr result (endpoints.new ≡ endpoints.old) }
    ensures kept { OnErr result (link.new ≡ link.old) }
    ensures memory { IfErr result (λ e. e ≡ Code.Memory) }
{
    let prefix = link.network.prefix;
    let told = turn_endpoints(alloc, endpoints, &prefix, is_there)?;
    link.network.work.turn(is_there);
    Ok(told)
}

/// A step that told this.
pub fn telling(told: Vec<Told>) -> Done
    ensures told { result.told.items ≡ told.items }
    ensures packet { result.packet ≡ None }
{
    Done { told, packet: None }
}

/// Where a reader begins, and our endpoints were not written lately, they are written again.
fn write_again(work: &mut Work, begins: bool, time: u64)
    ensures { work.new ≡ written_again begins time work.old }
{
    if begins && time.saturating_sub(work.wrote) >= AGAIN_AFTER {
        let is_awake = work.is_awake;
        work.turn(is_awake);
    }
}

/// A datagram of a participant comes at our peer, as it was turned, and says that a reader begins or not.
pub fn take_in(alloc: Global, link: &mut Link, turned: &[u8], begins: bool, time: u64)
    ensures { LinkTakesIn Masks.ANY turned.now begins time link.old link.new }
{
    let output = link.network.take_in(alloc, turned);
    link.packets = output.packets.into_vec();
    write_again(&mut link.network.work, begins, time);
}

/// The participant of a link is there again, or is there no more.
fn turning(
    alloc: Global,
    endpoints: &mut Endpoints,
    link: &mut Link,
    is_there: bool,
) -> Result<Done, Code>
    ensures ok { IfOk result (λ done. TurnsTo is_there link.old endpoints.old done.told.items
        done.packet link.new endpoints.new) }
    ensures err { OnErr result (endpoints.new ≡ endpoints.old) }
    ensures kept { OnErr result (link.new ≡ link.old) }
    ensures memory { IfErr result (λ e. e ≡ Code.Memory) }
{
    let told = turn(alloc, endpoints, link, is_there)?;
    Ok(telling(told))
}

/// The first packet of a link goes out.
fn sending(alloc: Global, own: GuidPrefix, rows: &[Row], link: &mut Link) -> Result<Done, Code>
    ensures ok { IfOk result
        (λ done. Sends own rows.now link.old done.packet link.new × (done.told.items ≡ [])) }
    ensures err { OnErr result (link.new ≡ link.old) }
    ensures memory { IfErr result (λ e. e ≡ Code.Memory) }
{
    let packet = send_first(alloc, own, rows, link)?;
    Ok(Done {
        told: Vec::new(alloc),
        packet,
    })
}

/// The first sample of a kind is acted on.
fn hearing(
    alloc: Global,
    endpoints: &mut Endpoints,
    link: &mut Link,
    kind: EndpointKind,
) -> Result<Done, Code>
    ensures ok { IfOk result (λ done. HearsTo kind link.old endpoints.old done.told.items
        done.packet link.new endpoints.new) }
    ensures err { OnErr result (endpoints.new ≡ endpoints.old) }
    ensures kept { OnErr result (link.new ≡ link.old) }
    ensures memory { IfErr result (λ e. e ≡ Code.Memory) }
{
    let told = hear_first(alloc, endpoints, link, kind)?;
    Ok(telling(told))
}

/// Our peer does a task.
fn performing(alloc: Global, ours: &Ours, link: &mut Link, task: Task) -> Result<Done, Code>
    ensures ok { IfOk result (λ done. DoesTask (ours_of ours.now) task link.old link.new
        × (done.told.items ≡ []) × (done.packet ≡ None)) }
    ensures err { OnErr result (link.new ≡ link.old) }
    ensures memory { IfErr result (λ e. e ≡ Code.Memory) }
{
    perform(alloc, ours, link, task)?;
    Ok(telling(Vec::new(alloc)))
}

/// A chore at a link is done, if there is one.
///
/// # Errors
///
/// `Memory` where there is none: then it is left to be done.
pub fn serve(
    alloc: Global,
    ours: &Known,
    endpoints: &mut Endpoints,
    link: &mut Link,
    chore: Option<Chore>,
) -> Result<Done, Code>
    ensures ok { IfOk result (λ done. DoesChore (known_of ours.now endpoints.old) ours.now.rows.now chore link.old
        endpoints.old done.told.items done.packet link.new endpoints.new) }
    ensures err { OnErr result (endpoints.new ≡ endpoints.old) }
    ensures kept { OnErr result (link.new ≡ link.old) }
    ensures memory { IfErr result (λ e. e ≡ Code.Memory) }
{
    match chore {
        None => Ok(telling(Vec::new(alloc))),
        Some(Chore::Turn(is_there)) => turning(alloc, endpoints, link, is_there),
        Some(Chore::Send) => sending(alloc, ours.prefix, ours.rows, link),
        Some(Chore::Publication) => hearing(alloc, endpoints, link, EndpointKind::Writer),
        Some(Chore::Subscription) => hearing(alloc, endpoints, link, EndpointKind::Reader),
        Some(Chore::Do(task)) => {
            let ours = Ours {
                prefix: ours.prefix,
                own: endpoints.own(),
                removed: ours.removed,
                time: ours.time,
            };
            performing(alloc, &ours, link, task)
        }
    }
}
