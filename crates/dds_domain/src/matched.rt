//! With whom our endpoints are matched.
//!
//! `specs/Matched.antt` says it.
//!
//! DDS 1.4, 2.2.2.4 (get_matched_subscriptions), 2.2.2.5 (get_matched_publications).

ghost use Rattle.std.specs.Prelude.{◌≡◌, filter, find, IfOk};
ghost use Rattle.std.specs.Option.{option_copied};
ghost use Rattle.rtps_matching.specs.Matches.{fit_together, is_far, is_matched, is_named};
ghost use Rattle.dds_domain.specs.Matched.{is_matched_end};

use dds_base::Guid;
use dds_exchange::NamedEnd;
use rtps_announcements::EndpointKind;
use rtps_matching::{End, Far};
use std::alloc::{AllocError, Global};

/// Whether one of ours is called so on the network.
fn is_named(end: &End, guid: &Guid) -> bool
    ensures { result ≡ is_named guid.now end.now }
{
    end.endpoint.guid() == *guid
}

/// The one of ours that is called so.
pub fn own_named<'a>(own: &'a [End], guid: &Guid) -> Option<&'a End>
    ensures found { option_copied result ≡ find (is_named guid.now) own.now }
{
    own.iter().find(|end| is_named(end, guid))
}

/// Whether one of others is called so.
fn is_far(far: &Far, guid: &Guid) -> bool
    ensures { result ≡ is_far guid.now far.now }
{
    far.guid == *guid
}

fn far_named<'a>(far: &'a [Far], guid: &Guid) -> Option<&'a Far>
    ensures { option_copied result ≡ find (is_far guid.now) far.now }
{
    far.iter().find(|one| is_far(one, guid))
}

/// Whether one is a writer and the other a reader, and these fit.
fn fit_together(one: &End, other: &End) -> bool
    ensures { result ≡ fit_together one.now other.now }
{
    match (one.kind, other.kind) {
        (EndpointKind::Writer, EndpointKind::Reader) => one.endpoint.fits(&other.endpoint),
        (EndpointKind::Reader, EndpointKind::Writer) => other.endpoint.fits(&one.endpoint),
        _ => false,
    }
}

/// Whether one of ours and one of others are matched.
fn is_matched(own: &End, far: &Far) -> bool
    ensures { result ≡ is_matched own.now far.now }
{
    match &far.end {
        Some(end) => far.is_awake && fit_together(own, end),
        None => false,
    }
}

/// The same of one of others that has a name.
fn is_matched_end(own: &End, far: &[Far], end: &NamedEnd) -> bool
    ensures { result ≡ is_matched_end own.now far.now end.now }
{
    match far_named(far, &end.guid) {
        Some(far) => is_matched(own, far),
        None => false,
    }
}

/// Those that have names and that one of ours is matched with, in the order of their names.
pub fn matched_ends(
    alloc: Global,
    own: &End,
    far: &[Far],
    named: &[NamedEnd],
) -> Result<Vec<NamedEnd>, AllocError>
    ensures ends { IfOk result
        (λ ends. ends.items ≡ filter (is_matched_end own.now far.now) named.now) }
{
    let mut ends = Vec::new(alloc);
    for end in named {
        if is_matched_end(own, far, end) {
            ends.push(*end)?;
        }
    }
    Ok(ends)
}
