//! An endpoint whose names are its own.
//!
//! RTPS 2.5, 8.5.4 (SEDP: DiscoveredWriterData, DiscoveredReaderData).

ghost use Rattle.std.specs.Prelude.{◌≡◌, ◌≤◌, length, IfOk, IfErr};
ghost use Rattle.rtps_discovery.specs.Fits.{fits};
ghost use Rattle.rtps_matching.specs.Misfits.{misfit_of};

use dds_base::{Code, Guid, Octets};
use dds_policies::Misfit;
use rtps_announcements::{
    Endpoint, Locator, Locators, Name, Partitions, Policies, Representations,
};
use rtps_discovery::{fits, meet, misfit};
use std::alloc::{AllocError, Global};
use std::marker::Model;

/// An endpoint, as its announcement said it: contracts see the `Endpoint` of `rtps_announcements` that it lends.
///
/// RTPS 2.5, 8.5.4 (DiscoveredWriterData, DiscoveredReaderData).
#[derive(Drop)]
pub struct Owned {
    guid: Guid,
    topic_name: Octets,
    type_name: Octets,
    locators: Vec<Locator>,
    partitions: Vec<Octets>,
    representations: Vec<u16>,
    policies: Policies,
}

impl Model for Owned {
    ghost use Rattle.std.specs.Prelude.{◌≤◌, length};
    ghost use Rattle.rtps_announcements.specs.declared.endpoint.Endpoint.{Endpoint};

    ghost Value = { Endpoint };

    ghost view = { λ o. record {
      guid = o.guid;
      topic_name = o.topic_name;
      type_name = o.type_name;
      locators = o.locators.items;
      partitions = o.partitions.items;
      representations = o.representations.items;
      policies = o.policies;
    } };

    ghost invariant = { λ o. (length o.locators.items ≤ 4) × (length o.partitions.items ≤ 16)
        × (length o.representations.items ≤ 8) };
}

/// These octets, to be owned.
fn octets_of(alloc: Global, octets: &[u8]) -> Result<Octets, AllocError>
    ensures { IfOk result (λ o. o ≡ octets.now) }
{
    let mut copy = Vec::new(alloc);
    copy.extend_from_slice(octets)?;
    Ok(Octets::from_vec(copy))
}

/// These names, to be owned.
fn names_of(alloc: Global, names: &[Name]) -> Result<Vec<Octets>, AllocError>
    ensures { IfOk result (λ all. all.items ≡ names.now) }
{
    let mut all = Vec::new(alloc);
    for name in names {
        all.push(octets_of(alloc, name.as_slice())?)?;
    }
    Ok(all)
}

/// These names, as they are lent.
fn lent_names(names: &[Octets]) -> Partitions<'_>
    requires { length names.now ≤ 16 }
    ensures { result ≡ names.now }
{
    let mut lent = Partitions::new();
    for name in names {
        let _ = lent.push(Name::new(name.as_slice()));
    }
    lent
}

/// These ids of representations.
fn lent_ids(ids: &[u16]) -> Representations
    requires { length ids.now ≤ 8 }
    ensures { result ≡ ids.now }
{
    let mut lent = Representations::new();
    for id in ids {
        let _ = lent.push(*id);
    }
    lent
}

/// These locators.
fn lent_locators(locators: &[Locator]) -> Locators
    requires { length locators.now ≤ 4 }
    ensures { result ≡ locators.now }
{
    let mut lent = Locators::new();
    for locator in locators {
        let _ = lent.push(*locator);
    }
    lent
}

impl Owned {
    /// The same endpoint, with names of its own.
    ///
    /// # Errors
    ///
    /// `Memory` where there is none.
    pub fn of(alloc: Global, endpoint: &Endpoint) -> Result<Owned, Code>
        // It is the same.
        ensures same { IfOk result (λ o. o ≡ endpoint.now) }
        // The only refusal is for want of memory.
        ensures memory { IfErr result (λ e. e ≡ Code.Memory) }
    {
        let mut locators = Vec::new(alloc);
        locators.extend_from_slice(endpoint.locators.as_slice())?;
        let mut representations = Vec::new(alloc);
        representations.extend_from_slice(endpoint.representations.as_slice())?;
        let topic_name = octets_of(alloc, endpoint.topic_name.as_slice())?;
        let type_name = octets_of(alloc, endpoint.type_name.as_slice())?;
        let partitions = names_of(alloc, endpoint.partitions.as_slice())?;
        Ok(Owned {
            guid: endpoint.guid,
            topic_name,
            type_name,
            locators,
            partitions,
            representations,
            policies: endpoint.policies,
        })
    }

    /// The endpoint, whose names are lent. Takes no memory.
    pub fn lend(&self) -> Endpoint<'_>
        ensures same { result ≡ self.now }
    {
        Endpoint {
            guid: self.guid,
            topic_name: Name::new(self.topic_name.as_slice()),
            type_name: Name::new(self.type_name.as_slice()),
            locators: lent_locators(&self.locators),
            partitions: lent_names(&self.partitions),
            representations: lent_ids(&self.representations),
            policies: self.policies,
        }
    }

    /// Its name.
    pub fn guid(&self) -> Guid
        ensures guid { result ≡ self.now.guid }
    {
        self.guid
    }

    /// Whether this writer and a reader are to be matched.
    ///
    /// DDS 1.4, 2.2.3 (supported QoS, PARTITION).
    pub fn fits(&self, reader: &Owned) -> bool
        // So the definition says.
        ensures fits { result ≡ fits self.now reader.now }
    {
        fits(&self.lend(), &reader.lend())
    }

    /// The first policy of which this writer offers less than a reader of its topic, type and partition asks for; `None`
    /// where it offers each, or they do not meet.
    ///
    /// DDS 1.4, 2.2.3 (supported QoS).
    pub fn misfit(&self, reader: &Owned) -> Option<Misfit>
        // So the definition says.
        ensures misfit { result ≡ misfit_of self.now reader.now }
    {
        let (writer, reader) = (self.lend(), reader.lend());
        if meet(&writer, &reader) {
            misfit(&writer, &reader)
        } else {
            None
        }
    }
}
