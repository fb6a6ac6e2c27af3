//! The names by which our peer speaks of endpoints of others.
//!
//! RTPS 2.5, 8.2 (GUID_t, Endpoint).

ghost use Rattle.std.specs.Prelude.{◌≡◌, find, position, IfOk, OnErr};
ghost use Rattle.std.specs.Option.{option_copied};
ghost use Rattle.dds_exchange.specs.Naming.{count_of, entry_for, is_at, is_kind, is_named, name_for, peer_for, peer_place, prefix_of, with_entry};

use dds_base::{Endpoint, Guid, GuidPrefix};
use rtps_announcements::EndpointKind;
use std::alloc::AllocError;

/// An endpoint of another participant that was matched with one of ours, with the name that it has from then on.
#[derive(Clone, Copy)]
pub struct NamedEnd {
    /// What it is called on the network.
    pub guid: Guid,
    /// Whether it is a writer or a reader.
    pub kind: EndpointKind,
    /// By which our peer speaks of it.
    pub name: Endpoint,
    /// The number of the one of ours that was matched with it first.
    pub own: u8,
}

/// Whether an endpoint is called so on the network.
fn is_named(end: &NamedEnd, guid: &Guid) -> bool
    ensures { result ≡ is_named guid.now end.now }
{
    end.guid == *guid
}

/// Whether it is of this participant.
fn is_at(end: &NamedEnd, prefix: &GuidPrefix) -> bool
    ensures { result ≡ is_at prefix.now end.now }
{
    end.guid.prefix == *prefix
}

/// Whether both are writers, or readers.
fn is_kind(one: EndpointKind, other: EndpointKind) -> bool
    ensures { result ≡ is_kind one other }
{
    match (one, other) {
        (EndpointKind::Writer, EndpointKind::Writer) => true,
        (EndpointKind::Reader, EndpointKind::Reader) => true,
        _ => false,
    }
}

/// The endpoint that is called so on the network, if it has a name.
pub fn find_named<'a>(named: &'a [NamedEnd], guid: &Guid) -> Option<&'a NamedEnd>
    ensures found { option_copied result ≡ find (is_named guid.now) named.now }
{
    named.iter().find(|end| is_named(end, guid))
}

/// The participant of this number at our peer, if an endpoint of it has a name.
pub fn prefix_of(named: &[NamedEnd], peer: u32) -> Option<GuidPrefix>
    ensures found { result ≡ prefix_of peer named.now }
{
    if peer < 2 {
        return None;
    }
    match named.get(peer as usize - 2) {
        Some(end) => Some(end.guid.prefix),
        None => None,
    }
}

/// How many endpoints of a kind and of a participant have names.
fn count_of(named: &[NamedEnd], prefix: &GuidPrefix, kind: EndpointKind) -> usize
    ensures { result ≡ count_of prefix.now kind named.now }
{
    named
        .iter()
        .filter(|end| is_at(end, prefix) && is_kind(end.kind, kind))
        .count()
}

/// The place of the first endpoint of a participant.
fn first_place(named: &[NamedEnd], prefix: &GuidPrefix) -> Option<usize>
    ensures { result ≡ position (is_at prefix.now) named.now }
{
    named.iter().position(|end| is_at(end, prefix))
}

/// The place of the first endpoint of a participant; that of the next one, if there is none.
fn peer_place(named: &[NamedEnd], prefix: &GuidPrefix) -> usize
    ensures { result ≡ peer_place prefix.now named.now }
{
    match first_place(named, prefix) {
        Some(place) => place,
        None => named.len(),
    }
}

/// The number of a participant at our peer.
fn peer_for(named: &[NamedEnd], prefix: &GuidPrefix) -> u32
    ensures { result ≡ peer_for prefix.now named.now }
{
    u32::try_from(peer_place(named, prefix).saturating_add(2)).unwrap_or(u32::MAX)
}

/// A name for an endpoint that has none; `None` where 255 of its participant have one.
fn name_for(named: &[NamedEnd], guid: &Guid, kind: EndpointKind) -> Option<Endpoint>
    ensures { result ≡ name_for guid.now kind named.now }
{
    let count = count_of(named, &guid.prefix, kind);
    let number = u8::try_from(count.saturating_add(1)).ok()?;
    Some(Endpoint {
        peer: peer_for(named, &guid.prefix),
        number,
    })
}

/// An endpoint with its name: the one that it has, or the next one, which it has from then on; `None` where 255 of its
/// participant have one.
pub fn name(
    named: &mut Vec<NamedEnd>,
    guid: Guid,
    kind: EndpointKind,
    own: u8,
) -> Result<Option<NamedEnd>, AllocError>
    ensures entry { IfOk result (λ entry. entry ≡ entry_for guid kind own named.old.items) }
    ensures named { IfOk result (λ entry. named.new.items ≡ with_entry guid entry named.old.items) }
    ensures err { OnErr result (named.new.items ≡ named.old.items) }
{
    if let Some(end) = find_named(named, &guid) {
        return Ok(Some(*end));
    }
    let Some(name) = name_for(named, &guid, kind) else {
        return Ok(None);
    };
    let end = NamedEnd {
        guid,
        kind,
        name,
        own,
    };
    named.push(end)?;
    Ok(Some(end))
}
