//! What is left to do.
//!
//! RTPS 2.5, 8.5 (discovery).

ghost use Rattle.std.specs.Prelude.{◌≡◌, ◌<◌, length, IfSome};
ghost use Rattle.std.specs.List.{position};
ghost use Rattle.rtps_discovery.specs.Rows.{has_row, is_row, is_there};
ghost use Rattle.dds_discovery.specs.Dues.{chore_of, has_link, is_among, is_busy, is_forgotten, is_left, is_new, turn_of};

use crate::link::Link;
use dds_base::GuidPrefix;
use dds_network::Task;
use rtps_discovery::Row;

/// The next step. Places count from 0.
#[derive(Clone, Copy)]
pub enum Due {
    /// The participant of the link at this place is known no more.
    Leave(usize),
    /// The participant at this place, with whom no network could be opened, is known no more.
    Forget(usize),
    /// The participant whose row is at this place has no link yet.
    Open(usize),
    /// The link at this place has something to do.
    Serve(usize),
}

/// What is done next at a link.
#[derive(Clone, Copy)]
pub enum Chore {
    /// Its participant is there again, or is not.
    Turn(bool),
    /// The first packet of its peer goes out.
    Send,
    /// The first sample of publications is acted on.
    Publication,
    /// The first sample of subscriptions is acted on.
    Subscription,
    /// Its peer does this.
    Do(Task),
}

/// Whether a row is of a participant.
pub fn is_row(row: &Row, prefix: &GuidPrefix) -> bool
    ensures { result ≡ is_row prefix.now row.now }
{
    row.participant.prefix == *prefix
}

/// Whether a participant is known.
pub fn has_row(rows: &[Row], prefix: &GuidPrefix) -> bool
    ensures { result ≡ has_row prefix.now rows.now }
{
    rows.iter().any(|row| is_row(row, prefix))
}

/// Whether a participant is taken to be there.
pub fn is_there(rows: &[Row], prefix: &GuidPrefix) -> bool
    ensures { result ≡ is_there prefix.now rows.now }
{
    rows.iter().any(|row| is_row(row, prefix) && row.is_awake)
}

/// The place of the first link whose participant is known no more.
pub fn left(links: &[Link], rows: &[Row]) -> Option<usize>
    ensures place { result ≡ position (is_left rows.now) links.now }
    ensures within { IfSome result (λ i. i < length links.now) }
{
    links
        .iter()
        .position(|link| !has_row(rows, &link.network.prefix))
}

/// The place of the first of these participants that is known no more.
pub fn forgotten(unopened: &[GuidPrefix], rows: &[Row]) -> Option<usize>
    ensures place { result ≡ position (is_forgotten rows.now) unopened.now }
    ensures within { IfSome result (λ i. i < length unopened.now) }
{
    unopened.iter().position(|prefix| !has_row(rows, prefix))
}

/// Whether there is a link with a participant.
fn has_link(links: &[Link], prefix: &GuidPrefix) -> bool
    ensures { result ≡ has_link prefix.now links.now }
{
    links.iter().any(|link| link.is_of(prefix))
}

/// Whether it is one of these participants.
fn is_among(prefixes: &[GuidPrefix], prefix: &GuidPrefix) -> bool
    ensures { result ≡ is_among prefixes.now prefix.now }
{
    prefixes.iter().any(|other| *other == *prefix)
}

/// Whether a participant has no link, and no network could not be opened with it.
fn is_new(links: &[Link], unopened: &[GuidPrefix], row: &Row) -> bool
    ensures { result ≡ is_new links.now unopened.now row.now }
{
    !has_link(links, &row.participant.prefix) && !is_among(unopened, &row.participant.prefix)
}

/// The place of the first row whose participant has no link yet.
pub fn newcomer(rows: &[Row], links: &[Link], unopened: &[GuidPrefix]) -> Option<usize>
    ensures place { result ≡ position (is_new links.now unopened.now) rows.now }
    ensures within { IfSome result (λ i. i < length rows.now) }
{
    rows.iter().position(|row| is_new(links, unopened, row))
}

/// Whether a participant has to be turned: it is there again, or is not.
fn turn_of(was_there: bool, is_there: bool) -> Option<bool>
    ensures { result ≡ turn_of was_there is_there }
{
    match (was_there, is_there) {
        (true, false) => Some(false),
        (false, true) => Some(true),
        _ => None,
    }
}

/// What is done next at a link, whose participant is there or not, where we have so many endpoints, and took out so
/// many.
pub fn chore_of(link: &Link, is_there: bool, own: usize, removed: usize) -> Option<Chore>
    ensures { result ≡ chore_of is_there own removed link.now }
{
    if let Some(is_there) = turn_of(link.network.work.is_awake, is_there) {
        return Some(Chore::Turn(is_there));
    }
    if !link.packets.is_empty() {
        return Some(Chore::Send);
    }
    if !link.network.publications.is_empty() {
        return Some(Chore::Publication);
    }
    if !link.network.subscriptions.is_empty() {
        return Some(Chore::Subscription);
    }
    match link.network.work.task(own, removed) {
        Some(task) => Some(Chore::Do(task)),
        None => None,
    }
}

/// Whether something is left to do at a link.
fn is_busy(link: &Link, rows: &[Row], own: usize, removed: usize) -> bool
    ensures { result ≡ is_busy rows.now own removed link.now }
{
    chore_of(link, is_there(rows, &link.network.prefix), own, removed).is_some()
}

/// The place of the first link at which something is left to do.
pub fn busy(links: &[Link], rows: &[Row], own: usize, removed: usize) -> Option<usize>
    ensures place { result ≡ position (is_busy rows.now own removed) links.now }
    ensures within { IfSome result (λ i. i < length links.now) }
{
    links
        .iter()
        .position(|link| is_busy(link, rows, own, removed))
}
