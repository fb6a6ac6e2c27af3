//! Which writers of others our readers are matched with.
//!
//! `specs/Heard.antt` says it.
//!
//! RTPS 2.5, 8.4.10 (StatefulReader: matched_writers).

ghost use Rattle.std.specs.Prelude.{◌≡◌, find};
ghost use Rattle.std.specs.Option.{option_copied};
ghost use Rattle.dds_core.specs.Standing.{StandsFor};
ghost use Rattle.dds_protocol.specs.Peer.{Peer};
ghost use Rattle.dds_protocol.specs.Roster.{Roster};
ghost use Rattle.dds_exchange.specs.Naming.{is_named};
ghost use Rattle.dds_domain.specs.Heard.{hears, is_heard, is_heard_end, most_readers};

use dds_base::{Endpoint, Guid};
use dds_exchange::{Exchange, NamedEnd};
use rtps_announcements::EndpointKind;

/// How many readers a peer has at most.
const MAX_READERS: u8 = 16;

/// Whether a reader of ours is matched with a writer of this name.
fn hears(exchange: &Exchange, writer: Endpoint) -> bool
    ensures hears { (roster : Roster) (peer : Peer)
        → StandsFor exchange.now.core.filtered.peer roster peer
        → result ≡ hears peer.part most_readers writer }
{
    for before in 0..MAX_READERS {
        if exchange.is_matched(before + 1, writer) {
            return true;
        }
    }
    false
}

/// Whether an endpoint that has a name is a writer that a reader of ours is matched with.
pub fn is_heard_end(exchange: &Exchange, end: &NamedEnd) -> bool
    ensures heard { (roster : Roster) (peer : Peer)
        → StandsFor exchange.now.core.filtered.peer roster peer
        → result ≡ is_heard_end peer.part end.now }
{
    match end.kind {
        EndpointKind::Writer => hears(exchange, end.name),
        EndpointKind::Reader => false,
    }
}

/// Whether an endpoint that has a name is called so.
fn is_named(end: &NamedEnd, far: &Guid) -> bool
    ensures named { result ≡ is_named far.now end.now }
{
    end.guid == *far
}

/// The endpoint that is called so, of those that have a name.
fn named<'a>(exchange: &'a Exchange, far: &Guid) -> Option<&'a NamedEnd>
    ensures found { option_copied result ≡ find (is_named far.now) exchange.now.named }
{
    exchange.named().iter().find(|end| is_named(end, far))
}

/// Whether an endpoint of others is a writer that a reader of ours is matched with.
pub fn is_heard(exchange: &Exchange, far: &Guid) -> bool
    ensures heard { (roster : Roster) (peer : Peer)
        → StandsFor exchange.now.core.filtered.peer roster peer
        → result ≡ is_heard peer.part exchange.now.named far.now }
{
    match named(exchange, far) {
        Some(end) => is_heard_end(exchange, end),
        None => false,
    }
}
