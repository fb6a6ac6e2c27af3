//! Where a participant is to be, and its socket once that is bound.
//!
//! `specs/Openings.antt` says it.
//!
//! RTPS 2.5, 9.6.2 (UDP: well-known ports).

ghost use Rattle.std.specs.Prelude.{◌≡◌, Err, IfOk, IfSome, Ok};
ghost use Rattle.dds_live.specs.Openings.{IsAtIndex, IsBound, IsUsualPlace, fault_of};

use crate::addresses::{GROUP, Target, addresses_of};
use crate::failure::Failure;
use crate::moments::Moments;
use crate::port::{INDICES, MAX_DOMAIN, Port, own_address};
use rtps_announcements::Locator;
use std::alloc::Global;
use std::marker::Model;
use std::net::{Ipv4Addr, Net};
use std::time::Clock;

/// Where a participant is to be, and who is told of it.
#[derive(Clone, Copy)]
pub struct Place<'a> {
    /// The domain, 0 to 230.
    pub domain: u32,
    /// Which participant of the domain it is on this machine, 0 to 119; the first whose port is free, where it is not said.
    pub index: Option<u32>,
    /// The address that is ours; that from which the system sends to the first that is told of us, where it is not said.
    pub interface: Option<[u8; 4]>,
    /// Who is told of us; where nobody is, the group of all participants and this machine.
    pub targets: &'a [Target],
}

/// A socket of a domain, who is told of it, and when it was opened.
#[derive(Drop)]
pub struct Bound {
    pub(crate) port: Port,
    pub(crate) domain: u32,
    pub(crate) addresses: Vec<Locator>,
    pub(crate) moments: Moments,
}

impl Model for Bound {
    ghost use Rattle.dds_live.specs.States.{Binding};

    ghost Value = { Binding };

    ghost view = { λ b. record {
      locator = b.port.locator;
      domain = b.domain;
      addresses = b.addresses.items;
      moments = b.moments;
    } };
}

/// Our address: the one that was said, or from which the system sends to the first that is told of us.
fn address_of<R: Net>(
    rt: &R,
    interface: Option<[u8; 4]>,
    told: &[Locator],
) -> Result<[u8; 4], Failure>
    ensures said { IfSome interface (λ address. result ≡ Ok address) }
{
    match (interface, told.first()) {
        (Some(address), _) => Ok(address),
        (None, Some(to)) => own_address(rt, to),
        (None, None) => Err(Failure::NoRoute(Ipv4Addr::from(GROUP))),
    }
}

impl<'a> Place<'a> {
    /// The first free index of a domain, at the address of the route, and the usual are told of it.
    pub fn new(domain: u32) -> Place<'a>
        ensures usual { IsUsualPlace domain result }
    {
        Place {
            domain,
            index: None,
            interface: None,
            targets: &[],
        }
    }

    /// Why there is no such place, if there is none.
    fn fault(&self) -> Option<Failure>
        ensures { result ≡ fault_of self.now }
    {
        if self.domain > MAX_DOMAIN {
            return Some(Failure::NoDomain(self.domain));
        }
        match self.index {
            Some(index) if index >= INDICES => Some(Failure::NoIndex(index)),
            _ => None,
        }
    }

    /// Its port at an address of ours.
    fn port<R: Net>(&self, rt: &R, alloc: Global, address: [u8; 4]) -> Result<Port, Failure>
        ensures port { IfOk result (λ p. IsAtIndex self.now.domain self.now.index address p.locator) }
    {
        match self.index {
            Some(index) => Port::open_at(rt, alloc, address, self.domain, index),
            None => Port::open(rt, alloc, address, self.domain),
        }
    }

    /// Opens its socket, at the clock's present moment.
    ///
    /// # Errors
    ///
    /// `NoDomain`, `NoIndex`: there are none such; `ClockFailed`; `NoRoute`, where no address is said and the system sends
    /// nothing to the first that is told of us; `NotOurs`; `PortTaken`, of an index that is said, else `NoPort`;
    /// `SocketFailed`; `Memory`.
    pub fn bind<R: Net + Clock>(&self, rt: &R, alloc: Global) -> Result<Bound, Failure>
        // Its port is of the domain and of the index, and it is told to these.
        ensures bound { IfOk result (λ b. IsBound self.now b) }
        // Of a domain above 230 and an index above 119 there is none.
        ensures refused { IfSome (fault_of self.now) (λ failure. result ≡ Err failure) }
    {
        if let Some(failure) = self.fault() {
            return Err(failure);
        }
        let moments = Moments::begin(rt)?;
        let addresses = addresses_of(alloc, self.targets, self.domain)?;
        let address = address_of(rt, self.interface, &addresses)?;
        let port = self.port(rt, alloc, address)?;
        Ok(Bound {
            port,
            domain: self.domain,
            addresses,
            moments,
        })
    }
}

impl Bound {
    /// Where it is.
    pub fn locator(&self) -> Locator
        ensures kept { result ≡ self.now.locator }
    {
        self.port.locator
    }
}
