//! Who is told of a participant.
//!
//! RTPS 2.5, 9.6.2 (UDP: well-known ports).

ghost use Rattle.std.specs.Prelude.{◌≡◌, ◌++◌, IfOk, OnOk};
ghost use Rattle.dds_live.specs.Addresses.{all_locators, locators_of, machine_locators};

use crate::port::{group_port, unicast_port};
use rtps_announcements::Locator;
use std::alloc::{AllocError, Global};
use std::net::Ipv4Addr;

/// The group of all participants.
///
/// RTPS 2.5, 9.6.2 (the default multicast address).
pub(crate) const GROUP: [u8; 4] = [239, 255, 0, 1];

/// How many participants of a machine are told of us.
const TOLD_INDICES: u32 = 10;

/// An address that is told of us.
#[derive(Clone, Copy)]
pub struct Target {
    /// The four numbers.
    pub address: [u8; 4],
    /// Its port; none where those of the domain are meant: the group's, or those of ten participants of a machine.
    pub port: Option<u16>,
}

/// Who is told of us where it is not said: the group, and who is on this machine.
const USUAL: [Target; 2] = [
    Target {
        address: GROUP,
        port: None,
    },
    Target {
        address: [127, 0, 0, 1],
        port: None,
    },
];

/// Appends the addresses of a target: its port, or those of the domain.
fn put_target(addresses: &mut Vec<Locator>, target: &Target, domain: u32) -> Result<(), AllocError>
    ensures put { OnOk result (addresses.new.items
        ≡ addresses.old.items ++ locators_of domain target.now) }
{
    let address = target.address;
    if let Some(port) = target.port {
        addresses.push(Locator { address, port })?;
        return Ok(());
    }
    if Ipv4Addr::from(address).is_multicast() {
        let port = group_port(domain);
        addresses.push(Locator { address, port })?;
        return Ok(());
    }
    put_machine(addresses, address, domain)
}

fn put_machine(
    addresses: &mut Vec<Locator>,
    address: [u8; 4],
    domain: u32,
) -> Result<(), AllocError>
    ensures put { OnOk result (addresses.new.items
        ≡ addresses.old.items ++ machine_locators domain address) }
{
    for index in 0..TOLD_INDICES {
        let port = unicast_port(domain, index);
        addresses.push(Locator { address, port })?;
    }
    Ok(())
}

/// Who is told of us.
pub(crate) fn addresses_of(
    alloc: Global,
    targets: &[Target],
    domain: u32,
) -> Result<Vec<Locator>, AllocError>
    ensures all { IfOk result (λ all. all.items ≡ all_locators domain targets.now) }
{
    let targets = if targets.is_empty() {
        USUAL.as_slice()
    } else {
        targets
    };
    let mut addresses = Vec::new(alloc);
    for target in targets {
        put_target(&mut addresses, target, domain)?;
    }
    Ok(addresses)
}
