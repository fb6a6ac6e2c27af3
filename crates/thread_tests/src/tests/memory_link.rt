//! A link in memory, which loses a packet and breaks where it is told to.

use dds_base::Code;
use dds_pair::Link;
use dds_protocol::Packet;
use std::alloc::Global;
use std::collections::VecDeque;
use std::sync::atomic::{AtomicU64, Ordering};
use std::sync::{Mutex, Wait};
use std::thread;

// What is on its way to one end, and what that end did so far.
#[derive(Drop)]
pub struct Way {
    pub packets: Mutex<VecDeque<Vec<u8>>>,
    pub sends: AtomicU64,
    pub receives: AtomicU64,
}

impl Way {
    pub fn new(alloc: Global) -> Way {
        Way {
            packets: Mutex::new(VecDeque::new(alloc)),
            sends: AtomicU64::new(0),
            receives: AtomicU64::new(0),
        }
    }
}

// Which send of an end is lost, and at which receive it breaks; 0 is none.
#[derive(Clone, Copy)]
pub struct Faults {
    pub lost: u64,
    pub broken: u64,
}

// One end: its own way, and that to the other end.
#[derive(Drop)]
pub struct MemoryLink<'a, R: Wait> {
    pub rt: &'a R,
    pub alloc: Global,
    pub own: &'a Way,
    pub other: &'a Way,
    pub faults: Faults,
    pub came: Vec<u8>,
}

impl<'a, R: Wait> Link for MemoryLink<'a, R> {
    ghost use Rattle.std.specs.Prelude.{⊤};

    ghost sends = { λ _ _ _. ⊤ };

    ghost came = { λ link. link.came.items };

    ghost receives = { λ _ _ _. ⊤ };

    ghost fails = { λ _ _ _. ⊤ };

    fn send(&mut self, packet: &Packet) -> bool {
        let number = self
            .own
            .sends
            .fetch_add(1, Ordering::SeqCst)
            .wrapping_add(1);
        if number == self.faults.lost {
            return false;
        }
        let Ok(octets) = Vec::from_slice(self.alloc, packet.bytes.as_slice()) else {
            return false;
        };
        let mut packets = self.other.packets.lock(self.rt);
        packets.push_back(octets).is_ok()
    }

    fn receive(&mut self) -> Result<bool, Code> {
        let number = self
            .own
            .receives
            .fetch_add(1, Ordering::SeqCst)
            .wrapping_add(1);
        if number == self.faults.broken {
            return Err(Code::Link);
        }
        let mut packets = self.own.packets.lock(self.rt);
        let octets = packets.pop_front();
        drop(packets);
        let Some(octets) = octets else {
            thread::yield_now();
            return Ok(false);
        };
        self.came = octets;
        Ok(true)
    }

    fn octets(&self) -> &[u8] {
        self.came.as_slice()
    }
}
