//! The socket of a participant, at a port that others look at.
//!
//! RTPS 2.5, 9.6.2 (UDP: well-known ports).

ghost use Rattle.std.specs.Prelude.{◌≡◌, ◌≤◌, ◌<◌, ℕ, IfErr, IfOk, take, vec_len};
ghost use Rattle.std.specs.Bool.{OnFalse, OnTrue};
ghost use Rattle.dds_live.specs.Ports.{group_port, port_at, unicast_port};

use crate::failure::Failure;
use libc::net::{POLLIN, poll};
use libc::types::pollfd;
use rtps_announcements::Locator;
use rtps_discovery::Packet;
use std::alloc::Global;
use std::io;
use std::io::ErrorKind;
use std::net::{Ipv4Addr, Net, SocketAddr, UdpSocket};
use std::os::fd::{AsRawFd, RawFd};
use std::time::Duration;

/// No datagram over IPv4 is longer.
const ROOM: usize = 65_536;

/// No descriptor of a file: what is not waited for.
const NO_FILE: RawFd = -1;

/// How many participants of a domain have a port of their own on a machine.
pub const INDICES: u32 = 120;

/// The greatest domain: above it ports end.
pub const MAX_DOMAIN: u32 = 230;

/// PB and DG: the port of the group of domain 0, and from one domain to the next.
const FIRST_PORT: u32 = 7_400;

const DOMAIN_GAIN: u32 = 250;

/// d1 and PG: from the group's port to that of the first participant, and from one participant to the next.
const UNICAST_OFFSET: u32 = 10;

const PARTICIPANT_GAIN: u32 = 2;

/// The port of the domain's group.
pub fn group_port(domain: u32) -> u16
    ensures port { result ≡ group_port domain }
{
    port_at(domain, 0)
}

/// The port of a participant, by its index.
pub fn unicast_port(domain: u32, index: u32) -> u16
    ensures port { result ≡ unicast_port domain index }
{
    let offset = index.saturating_mul(PARTICIPANT_GAIN);
    port_at(domain, offset.saturating_add(UNICAST_OFFSET))
}

/// PB + DG * domainId + offset.
fn port_at(domain: u32, offset: u32) -> u16
    ensures port { result ≡ port_at domain offset }
{
    let group = domain
        .saturating_mul(DOMAIN_GAIN)
        .saturating_add(FIRST_PORT);
    u16::try_from(group.saturating_add(offset)).unwrap_or(u16::MAX)
}

fn socket_address(address: [u8; 4], port: u16) -> SocketAddr {
    SocketAddr::from((Ipv4Addr::from(address), port))
}

fn address_of(address: SocketAddr) -> Option<[u8; 4]> {
    match address {
        SocketAddr::V4(address) => Some(address.ip().octets()),
        SocketAddr::V6(_) => None,
    }
}

fn route<R: Net>(rt: &R, to: &Locator) -> io::Result<SocketAddr> {
    let probe = rt.bind_udp(SocketAddr::from((Ipv4Addr::UNSPECIFIED, 0)))?;
    probe.connect(socket_address(to.address, to.port))?;
    probe.local_addr()
}

/// The address of ours from which the system sends to another one.
pub fn own_address<R: Net>(rt: &R, to: &Locator) -> Result<[u8; 4], Failure> {
    match route(rt, to).map(address_of) {
        Ok(Some(address)) if address != [0; 4] => Ok(address),
        _ => Err(Failure::NoRoute(Ipv4Addr::from(to.address))),
    }
}

/// A socket, and the datagram that came last, with the address that it came from.
#[derive(Drop)]
pub struct Port {
    socket: UdpSocket,
    /// Where it is.
    pub locator: Locator,
    buffer: Vec<u8>,
    // How many octets of it came last.
    count: usize,
    source: [u8; 4],
    ghost fits: { count ≤ vec_len buffer },
}

impl Port {
    /// At the port of this index.
    ///
    /// # Errors
    ///
    /// `PortTaken`; `NotOurs` where the address is not ours; `SocketFailed`; `Memory`.
    pub fn open_at<R: Net>(
        rt: &R,
        alloc: Global,
        address: [u8; 4],
        domain: u32,
        index: u32,
    ) -> Result<Port, Failure>
        ensures locator { IfOk result (λ p.
            p.locator ≡ record { address = address; port = unicast_port domain index }) }
    {
        let port = unicast_port(domain, index);
        match rt.bind_udp(socket_address(address, port)) {
            Ok(socket) => Port::at(alloc, socket, Locator { address, port }),
            Err(error) if error.kind() == ErrorKind::AddrInUse => Err(Failure::PortTaken(port)),
            Err(_) => Err(Failure::NotOurs(Ipv4Addr::from(address))),
        }
    }

    /// At the first port of the domain that is free.
    ///
    /// # Errors
    ///
    /// `NoPort` where all are taken, else as `open_at`.
    pub fn open<R: Net>(
        rt: &R,
        alloc: Global,
        address: [u8; 4],
        domain: u32,
    ) -> Result<Port, Failure>
        // It is one of the 120.
        ensures locator { IfOk result (λ p. (index : ℕ) × (index < 120)
            × (p.locator ≡ record { address = address; port = unicast_port domain index })) }
    {
        for index in 0..INDICES {
            match Port::open_at(rt, alloc, address, domain, index) {
                Err(Failure::PortTaken(_)) => {}
                opened => return opened,
            }
        }
        Err(Failure::NoPort(domain))
    }

    fn at(alloc: Global, socket: UdpSocket, locator: Locator) -> Result<Port, Failure>
        ensures locator { IfOk result (λ p. p.locator ≡ locator) }
    {
        if socket.set_nonblocking(true).is_err() {
            return Err(Failure::SocketFailed);
        }
        Ok(Port {
            socket,
            locator,
            buffer: Vec::from_elem(alloc, 0, ROOM)?,
            count: 0,
            source: [0; 4],
        })
    }

    /// Waits until a datagram is there, or the other file has something or ends, where one is said: so long at most.
    /// Answers whether the latter is so.
    pub fn wait(&self, other: Option<RawFd>, longest: Duration) -> bool {
        let other = other.unwrap_or(NO_FILE);
        let mut asked = [self.socket.as_raw_fd(), other].map(|fd| pollfd {
            fd,
            events: POLLIN,
            revents: 0,
        });
        let milliseconds = i32::try_from(longest.as_millis()).unwrap_or(i32::MAX);
        let _ = poll(&mut asked, milliseconds);
        asked[1].revents != 0
    }

    fn keep(&mut self, count: usize, from: SocketAddr) -> bool
        ensures count { OnTrue result (self.new.count ≡ count) }
        ensures buffer { self.new.buffer ≡ self.old.buffer }
        ensures locator { self.new.locator ≡ self.old.locator }
        ensures same { OnFalse result (self.new ≡ self.old) }
    {
        let Some(source) = address_of(from) else {
            return false;
        };
        if count > self.buffer.len() {
            return false;
        }
        self.count = count;
        self.source = source;
        true
    }

    /// Whether a datagram is there, which is taken.
    ///
    /// # Errors
    ///
    /// `SocketFailed`.
    pub fn take(&mut self) -> Result<bool, Failure>
        // It stays where it is.
        ensures locator { self.new.locator ≡ self.old.locator }
        ensures refused { IfErr result (λ e. e ≡ Failure.SocketFailed) }
    {
        match self.socket.recv_from(self.buffer.as_mut_slice()) {
            Ok((count, from)) => Ok(self.keep(count, from)),
            Err(error) if error.kind() == ErrorKind::WouldBlock => Ok(false),
            Err(error) if error.kind() == ErrorKind::Interrupted => Ok(false),
            Err(_) => Err(Failure::SocketFailed),
        }
    }

    /// The address that the last datagram came from.
    pub fn source(&self) -> &[u8; 4]
        ensures kept { result.now ≡ self.now.source }
    {
        &self.source
    }

    /// The octets of the last datagram.
    pub fn octets(&self) -> &[u8]
        ensures kept { result.now ≡ take self.now.count self.now.buffer.items }
    {
        &self.buffer[..self.count]
    }

    /// Sends a datagram. What the system does not take is lost.
    pub fn send(&self, packet: &Packet) {
        let to = socket_address(packet.to.address, packet.to.port);
        let _ = self.socket.send_to(packet.bytes.as_slice(), to);
    }
}
