//! A link over UDP, on the loopback.
//!
//! RTPS 2.5, 9.6.2 (UDP): one message a datagram. Which datagrams come, and that any does, is the system's.

ghost use Rattle.std.specs.Prelude.{◌≡◌, ◌⊎◌, ◌≤◌, IfErr, vec_len};
ghost use Rattle.dds_base.specs.declared.code.Code.TheVariants as code_of;

use crate::link::Link;
use dds_base::Code;
use dds_protocol::Packet;
use libc::net::{SO_RCVBUF, SO_SNDBUF, SOL_SOCKET, setsockopt};
use mio::net::UdpSocket;
use mio::{Events, Interest, Poll, Token};
use std::alloc::Global;
use std::io::ErrorKind;
use std::net::{Ipv4Addr, Net, SocketAddr};
use std::os::fd::AsRawFd;
use std::time::Duration;
use std::{io, net};

// The longest datagram over IPv4 is shorter.
const ROOM: usize = 65_536;

// It waits once for so many looks in a row that find nothing: a wait takes a millisecond, and a look a thousandth of it.
const LOOKS_A_WAIT: u32 = 16;

// What the link answers for an error of the system.
fn failure(error: io::Error) -> Code
    ensures { (result ≡ code_of.Link) ⊎ (result ≡ code_of.Memory) }
{
    if error.kind() == ErrorKind::OutOfMemory {
        Code::Memory
    } else {
        Code::Link
    }
}

// Asks for buffers as large as the system lets a socket's be: it cuts what is asked for. Where it refuses, they stay.
fn widen(socket: &net::UdpSocket) {
    let mut most = [0; 16];
    most[..4].copy_from_slice(&i32::MAX.to_ne_bytes());
    let fd = socket.as_raw_fd();
    // SAFETY: the value of both options is four octets, without a pointer.
    unsafe {
        let _ = setsockopt(fd, SOL_SOCKET, SO_RCVBUF, &most, 4);
        let _ = setsockopt(fd, SOL_SOCKET, SO_SNDBUF, &most, 4);
    }
}

/// Sends from the socket of a `UdpLink`: for threads that have calls done at its peer, of which each has the packets that
/// its call gave.
///
/// RTPS 2.5, 9.6.2 (UDP).
#[derive(Drop)]
pub struct UdpSender {
    socket: net::UdpSocket,
    other: Option<SocketAddr>,
}

impl UdpSender {
    fn try_clone(&self) -> io::Result<UdpSender> {
        Ok(UdpSender {
            socket: self.socket.try_clone()?,
            other: self.other,
        })
    }

    /// Sends a packet, without waiting; `false` where it is lost, as before `connect`.
    pub fn send(&self, packet: &Packet) -> bool {
        let Some(other) = self.other else {
            return false;
        };
        let octets = packet.bytes.as_slice();
        match self.socket.send_to(octets, other) {
            Ok(count) => count == octets.len(),
            Err(_) => false,
        }
    }
}

/// A socket on 127.0.0.1, at a port that the system picks, and the address of the one other that it exchanges datagrams
/// with. Its buffers are as large as the system lets them be. A datagram from elsewhere is dropped. After 16 looks in a row
/// that found nothing a receive waits in the system, a millisecond at most. `docs/DECISIONS.md`, "Threads and links".
///
/// RTPS 2.5, 9.6.2 (UDP).
#[derive(Drop)]
pub struct UdpLink {
    socket: UdpSocket,
    poll: Poll,
    events: Events,
    buffer: Vec<u8>,
    // How many octets of it came last.
    count: usize,
    sender: UdpSender,
    // How many looks in a row found nothing, since the last wait.
    looks: u32,
    ghost fits: { count ≤ vec_len buffer },
}

impl UdpLink {
    /// Opens a socket. It exchanges nothing before `connect`.
    ///
    /// # Errors
    ///
    /// `Link` where the system gives no socket, and `Memory` where a growth was refused.
    pub fn open<R: Net>(rt: &R, alloc: Global) -> Result<UdpLink, Code>
        // A refusal has one of two causes.
        ensures refused { IfErr result (λ code. (code ≡ code_of.Link) ⊎ (code ≡ code_of.Memory)) }
    {
        UdpLink::try_open(rt, alloc).map_err(failure)
    }

    fn try_open<R: Net>(rt: &R, alloc: Global) -> io::Result<UdpLink> {
        let socket = rt.bind_udp(SocketAddr::from((Ipv4Addr::LOCALHOST, 0)))?;
        socket.set_nonblocking(true)?;
        widen(&socket);
        let sender = UdpSender {
            socket: socket.try_clone()?,
            other: None,
        };
        let mut socket = UdpSocket::from_std(socket);
        let poll = Poll::new(rt)?;
        poll.registry()
            .register(&mut socket, Token(0), Interest::READABLE)?;
        Ok(UdpLink {
            socket,
            poll,
            events: Events::with_capacity(alloc, 1)?,
            buffer: Vec::from_elem(alloc, 0, ROOM)?,
            count: 0,
            sender,
            looks: 0,
        })
    }

    /// Its own address, for the other end.
    ///
    /// # Errors
    ///
    /// `Link` where the system does not tell it, and `Memory` where a growth was refused.
    pub fn address(&self) -> Result<SocketAddr, Code>
        // A refusal has one of two causes.
        ensures refused { IfErr result (λ code. (code ≡ code_of.Link) ⊎ (code ≡ code_of.Memory)) }
    {
        self.socket.local_addr().map_err(failure)
    }

    /// Exchanges datagrams with the socket of this address from now on.
    pub fn connect(&mut self, other: SocketAddr) {
        self.sender.other = Some(other);
    }

    /// Another way to send from its socket, to the same address.
    ///
    /// # Errors
    ///
    /// `Link` where the system does not give it, and `Memory` where a growth was refused.
    pub fn sender(&self) -> Result<UdpSender, Code>
        // A refusal has one of two causes.
        ensures refused { IfErr result (λ code. (code ≡ code_of.Link) ⊎ (code ≡ code_of.Memory)) }
    {
        self.sender.try_clone().map_err(failure)
    }

    // Whether a datagram is there, which is taken.
    fn take(&mut self) -> io::Result<bool> {
        match self.socket.recv_from(self.buffer.as_mut_slice()) {
            Ok((count, from)) => {
                if self.sender.other != Some(from) || count > self.buffer.len() {
                    return Ok(false);
                }
                self.count = count;
                Ok(true)
            }
            Err(error) if error.kind() == ErrorKind::WouldBlock => Ok(false),
            Err(error) => Err(error),
        }
    }

    // Waits a millisecond at most until a datagram is there, and takes it. A change of the socket is told once, so it is
    // called where a look found nothing.
    fn wait_and_take(&mut self) -> io::Result<bool> {
        self.poll
            .poll(&mut self.events, Some(Duration::from_millis(1)))?;
        self.take()
    }

    // Whether a datagram is there, after a wait at each so many looks.
    fn look(&mut self) -> io::Result<bool> {
        if self.take()? {
            self.looks = 0;
            return Ok(true);
        }
        self.looks = self.looks.wrapping_add(1);
        if self.looks < LOOKS_A_WAIT {
            return Ok(false);
        }
        self.looks = 0;
        self.wait_and_take()
    }
}

impl Link for UdpLink {
    ghost use Rattle.std.specs.Prelude.{⊤, take};

    ghost sends = { λ _ _ _. ⊤ };

    ghost came = { λ u. take u.count u.buffer.items };

    ghost receives = { λ _ _ _. ⊤ };

    ghost fails = { λ _ _ _. ⊤ };

    fn send(&mut self, packet: &Packet) -> bool {
        self.sender.send(packet)
    }

    fn receive(&mut self) -> Result<bool, Code> {
        self.look().map_err(failure)
    }

    fn octets(&self) -> &[u8] {
        &self.buffer[..self.count]
    }
}
