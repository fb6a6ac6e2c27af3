//! Whether a writer and a reader fit.
//!
//! `specs/Fits.antt` says it.
//!
//! DDS 1.4, 2.2.3 (supported QoS); DDS-XTypes 1.3, 7.6.3.1.1 (DATA_REPRESENTATION).

ghost use Rattle.std.specs.Prelude.{◌≡◌, ◌==◌};
ghost use Rattle.std.specs.List.{list_any};
ghost use Rattle.std.specs.Str.{bytes_eq};
ghost use Rattle.rtps_discovery.specs.Fits.{same_names, partitions_of, share_partition, representations_of, first_representation, meet, offers_representation, misfit, fits};

use dds_policies::{Misfit, unfit};
use rtps_announcements::{Endpoint, Name, Partitions, Representations};

/// Whether both are of one topic, and of one type.
fn has_same_names(writer: &Endpoint, reader: &Endpoint) -> bool
    ensures { result ≡ same_names writer.now reader.now }
{
    writer.topic_name.as_slice() == reader.topic_name.as_slice()
        && writer.type_name.as_slice() == reader.type_name.as_slice()
}

/// Whether one of the names is this one.
fn has_name(names: &[Name], octets: &[u8]) -> bool
    ensures { result ≡ list_any (bytes_eq octets.now) names.now }
{
    for name in names {
        if octets == name.as_slice() {
            return true;
        }
    }
    false
}

/// Whether an endpoint with these partitions is in this one.
fn has_partition(partitions: &Partitions, octets: &[u8]) -> bool
    ensures { result ≡ list_any (bytes_eq octets.now) (partitions_of partitions.now) }
{
    let names = partitions.as_slice();
    if names.is_empty() {
        return octets.is_empty();
    }
    has_name(names, octets)
}

/// Whether one of the names is a partition of an endpoint with these.
fn has_any(names: &[Name], partitions: &Partitions) -> bool
    ensures { result
        ≡ list_any (λ name. list_any (bytes_eq name) (partitions_of partitions.now)) names.now }
{
    for name in names {
        if has_partition(partitions, name.as_slice()) {
            return true;
        }
    }
    false
}

/// Whether a partition is of both.
fn shares_partition(writer: &Endpoint, reader: &Endpoint) -> bool
    ensures { result ≡ share_partition writer.now reader.now }
{
    let names = writer.partitions.as_slice();
    if names.is_empty() {
        return has_partition(&reader.partitions, &[]);
    }
    has_any(names, &reader.partitions)
}

/// What a writer with these representations writes.
fn first_representation(representations: &Representations) -> u16
    ensures { result ≡ first_representation representations.now }
{
    match representations.as_slice() {
        [] => Representations::XCDR1,
        [id, ..] => *id,
    }
}

/// Whether a reader with these representations reads this one.
fn has_representation(representations: &Representations, wanted: u16) -> bool
    ensures { result
        ≡ list_any (λ id. id == wanted) (representations_of representations.now) }
{
    let ids = representations.as_slice();
    if ids.is_empty() {
        return wanted == Representations::XCDR1;
    }
    ids.contains(&wanted)
}

/// The first policy of which `writer` offers less than `reader` asks for: as `unfit` has them, and then
/// DATA_REPRESENTATION, where the first representation of the writer is none of the reader. `None` where it offers
/// each.
///
/// DDS 1.4, 2.2.3 (supported QoS); DDS-XTypes 1.3, 7.6.3.1.1.
pub fn misfit(writer: &Endpoint, reader: &Endpoint) -> Option<Misfit>
    // It is the first of the table's.
    ensures first { result ≡ misfit writer.now reader.now }
{
    let misfit = unfit(&writer.policies, &reader.policies);
    if misfit.is_some() {
        return misfit;
    }
    let offered = first_representation(&writer.representations);
    if has_representation(&reader.representations, offered) {
        return None;
    }
    Some(Misfit::DataRepresentation)
}

/// Whether a writer and a reader meet: they are of one topic and one type, and a partition is of both. They are matched
/// then, or there is a misfit.
///
/// DDS 1.4, 2.2.3 (PARTITION).
pub fn meet(writer: &Endpoint, reader: &Endpoint) -> bool
    // So the definition says.
    ensures meet { result ≡ meet writer.now reader.now }
{
    has_same_names(writer, reader) && shares_partition(writer, reader)
}

/// Whether a writer and a reader are to be matched: they are of one topic and one type, a partition is of both, and no
/// policy is a misfit. An endpoint without partitions is in the one without a name; names are octets, and compared as
/// they stand.
///
/// DDS 1.4, 2.2.3 (supported QoS, PARTITION).
pub fn fits(writer: &Endpoint, reader: &Endpoint) -> bool
    // So the definition says.
    ensures fits { result ≡ fits writer.now reader.now }
{
    meet(writer, reader) && misfit(writer, reader).is_none()
}
