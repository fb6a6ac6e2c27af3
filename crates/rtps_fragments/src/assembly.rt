//! A payload of which some fragments came.
//!
//! RTPS 2.5, 8.3.8.3 (DataFrag) and 8.4.14.1 (large data).

ghost use Rattle.std.specs.Prelude.{◌≡◌, ◌≤◌, ◌<◌, ◌+◌, ◌-◌, true, false, length, replicate, IfOk, IfErr, OnOk, OnErr};
ghost use Rattle.std.specs.List.{list_all};
ghost use Rattle.rtps_fragments.specs.Keeping.{overlaid, nothing_of, is_number, opened, placed, with_fragments, is_whole, is_alike};
ghost use Rattle.rtps_fragments.specs.Telling.{message_of};
ghost use Rattle.rtps_fragments.specs.Asking.{is_again};

use crate::data_frag::DataFrag;
use crate::names::MAX_CARRIED;
use crate::telling::{InForce, Payload, put_message};
use dds_base::{Code, Octets};
use std::alloc::Global;
use std::marker::Model;

/// A payload of which some fragments came, and not all. Contracts see what is kept of it.
#[derive(Drop)]
pub struct Assembly {
    writer_sn: u64,
    fragment_size: usize,
    sample_size: usize,
    /// Those of the DATA, which came with the first fragment.
    flags: u8,
    /// It came with the first fragment.
    timestamp: Option<u64>,
    /// They came with the first fragment.
    parameters: Vec<u8>,
    /// As many as the payload has: zeros where no fragment came.
    octets: Vec<u8>,
    /// Which fragments came.
    came: Vec<bool>,
}

impl Model for Assembly {
    ghost use Rattle.rtps_fragments.specs.Keeping.{Kept, IsKept, kept_of};

    ghost Value = { Kept };

    ghost view = { λ a. kept_of a.writer_sn a.fragment_size a.sample_size a.flags a.timestamp
        a.parameters.items a.octets.items a.came.items };

    ghost invariant = { λ a. IsKept (kept_of a.writer_sn a.fragment_size a.sample_size a.flags a.timestamp
        a.parameters.items a.octets.items a.came.items) };
}

/// Writes octets in place of as many.
fn overlay(octets: &mut [u8], place: usize, new: &[u8])
    requires { place + length new.now ≤ length octets.old }
    ensures { octets.new ≡ overlaid octets.old place new.now }
{
    octets[place..place + new.len()].copy_from_slice(new);
}

/// Marks fragments as come.
fn mark(came: &mut [bool], place: usize, count: usize)
    requires { place + count ≤ length came.old }
    ensures { came.new ≡ overlaid came.old place (replicate count true) }
{
    came[place..place + count].fill(true);
}

/// Whether all came.
fn all_came(came: &[bool]) -> bool
    ensures { result ≡ list_all (λ b. b) came.now }
{
    came.iter().all(|came| *came)
}

/// Whether all came, with these too.
fn all_came_with(came: &[bool], place: usize, count: usize) -> bool
    requires { place + count ≤ length came.now }
    ensures { result ≡ list_all (λ b. b) (overlaid came.now place (replicate count true)) }
{
    all_came(&came[..place]) && all_came(&came[place + count..])
}

impl Assembly {
    /// The payload of a number, before a fragment came.
    pub fn begin(alloc: Global, fragment: &DataFrag) -> Result<Assembly, Code>
        ensures ok { IfOk result (λ k. k ≡ nothing_of fragment.now) }
        ensures memory { IfErr result (λ e. e ≡ Code.Memory) }
    {
        let sample_size = fragment.sample_size;
        let fragment_size = fragment.fragment_size;
        let count = (sample_size + fragment_size - 1) / fragment_size;
        let octets = vec![in alloc; 0u8; sample_size]?;
        let came = vec![in alloc; false; count]?;
        Ok(Assembly {
            writer_sn: fragment.writer_sn,
            fragment_size,
            sample_size,
            flags: fragment.flags,
            timestamp: None,
            parameters: Vec::new(alloc),
            octets,
            came,
        })
    }

    /// Whether it is of this number.
    pub fn is_number(&self, writer_sn: u64) -> bool
        ensures { result ≡ is_number writer_sn self.now }
    {
        self.writer_sn == writer_sn
    }

    /// Whether a DATA_FRAG is of the same fragment size and the same whole length.
    pub fn is_alike(&self, fragment: &DataFrag) -> bool
        ensures { result ≡ is_alike self.now fragment.now }
    {
        self.fragment_size == fragment.fragment_size && self.sample_size == fragment.sample_size
    }

    /// Of each fragment whether it came.
    pub fn came(&self) -> &[bool]
        ensures came { result.now ≡ self.now.came }
        ensures few { length result.now ≤ MAX_CARRIED }
    {
        self.came.as_slice()
    }

    /// Whether a DATA_FRAG has the first fragment, and that came before.
    pub fn is_again(&self, fragment: &DataFrag) -> bool
        ensures { result ≡ is_again self.now fragment.now }
    {
        fragment.fragment_starting_num == 1
            && self.is_alike(fragment)
            && matches!(self.came.get(0), Some(true))
    }

    /// Whether these fragments are all that was missing.
    pub fn is_whole_with(&self, fragment: &DataFrag) -> bool
        requires { is_alike self.now fragment.now ≡ true }
        ensures { result ≡ is_whole (placed self.now fragment.now) }
    {
        all_came_with(
            self.came.as_slice(),
            fragment.fragment_starting_num - 1,
            fragment.fragments_in_submessage,
        )
    }

    /// Takes what came with the first fragment.
    fn open(
        &mut self,
        alloc: Global,
        fragment: &DataFrag,
        timestamp: Option<u64>,
    ) -> Result<(), Code>
        requires { is_alike self.old fragment.now ≡ true }
        ensures ok { OnOk result (self.new ≡ opened self.old fragment.now timestamp) }
        ensures err { OnErr result (self.new ≡ self.old) }
        ensures memory { IfErr result (λ e. e ≡ Code.Memory) }
    {
        if fragment.fragment_starting_num == 1 {
            self.parameters = Vec::from_slice(alloc, fragment.parameters)?;
            self.flags = fragment.flags;
            self.timestamp = timestamp;
        }
        Ok(())
    }

    /// Puts fragments into their places.
    fn place(&mut self, fragment: &DataFrag)
        requires { is_alike self.old fragment.now ≡ true }
        ensures { self.new ≡ placed self.old fragment.now }
    {
        let first = fragment.fragment_starting_num - 1;
        let place = first * fragment.fragment_size;
        overlay(self.octets.as_mut_slice(), place, fragment.octets);
        let count = fragment.fragments_in_submessage;
        mark(self.came.as_mut_slice(), first, count);
    }

    /// Takes fragments in, at a timestamp.
    pub fn add(
        &mut self,
        alloc: Global,
        fragment: &DataFrag,
        timestamp: Option<u64>,
    ) -> Result<(), Code>
        requires { is_alike self.old fragment.now ≡ true }
        ensures ok { OnOk result (self.new ≡ with_fragments self.old fragment.now timestamp) }
        ensures err { OnErr result (self.new ≡ self.old) }
        ensures memory { IfErr result (λ e. e ≡ Code.Memory) }
    {
        self.open(alloc, fragment, timestamp)?;
        self.place(fragment);
        Ok(())
    }

    /// The message that tells of the payload with these fragments.
    pub fn message(
        &self,
        alloc: Global,
        in_force: &InForce,
        fragment: &DataFrag,
    ) -> Result<Octets, Code>
        requires { is_alike self.now fragment.now ≡ true }
        ensures ok { IfOk result (λ m. m
            ≡ message_of in_force.now fragment.now
            (with_fragments self.now fragment.now in_force.now.timestamp)) }
        ensures memory { IfErr result (λ e. e ≡ Code.Memory) }
    {
        let place = (fragment.fragment_starting_num - 1) * fragment.fragment_size;
        let (front, rest) = self.octets.as_slice().split_at(place);
        let (_, back) = rest.split_at(fragment.octets.len());
        let payload = Payload {
            front,
            octets: fragment.octets,
            back,
        };
        if fragment.fragment_starting_num == 1 {
            let parameters = fragment.parameters;
            return put_message(
                alloc,
                in_force,
                fragment,
                fragment.flags,
                parameters,
                &payload,
            );
        }
        let in_force = InForce {
            source: in_force.source,
            destination: in_force.destination,
            timestamp: self.timestamp,
        };
        let parameters = self.parameters.as_slice();
        put_message(alloc, &in_force, fragment, self.flags, parameters, &payload)
    }
}
