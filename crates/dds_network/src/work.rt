//! What is to be done at a network.
//!
//! `specs/Works.antt` says it.
//!
//! RTPS 2.5, 8.5.4 (SEDP), 8.4.13 (the writer liveliness protocol).

ghost use Rattle.std.specs.Prelude.{◌≡◌};
ghost use Rattle.dds_network.specs.Works.{after_task, gone_on, new_work, task_of, turned_work};

/// After so long our endpoints are written again: 60 seconds, in units of 2^-32 second.
const REWRITTEN_AFTER: u64 = 60 << 32;

/// How far a network has come.
#[derive(Clone, Copy)]
pub struct Work {
    /// Whether its participant is there, as far as its endpoints were told.
    pub is_awake: bool,
    /// Whether time went on since its peer was told.
    pub ticks: bool,
    /// How many of our three builtin writers were asserted.
    pub asserted: u8,
    /// How many of our endpoints that were taken out since the beginning it was told of, or began without.
    pub removed: usize,
    /// How many of our endpoints were written, of those that there are.
    pub written: usize,
    /// When the last of them was.
    pub wrote: u64,
    /// Whether a message of liveliness is to be written.
    pub speaks: bool,
    /// Whether a write found no memory, and waits for the next tick.
    pub waits: bool,
}

/// What is done next.
#[derive(Clone, Copy)]
pub enum Task {
    /// Its peer is told what time it is.
    Tick,
    /// The writer of this number is asserted.
    Assert(u8),
    /// An endpoint of ours that is no more is unregistered.
    Unregister,
    /// An endpoint of ours is written.
    Write,
    /// A message of liveliness is written.
    Speak,
}

impl Work {
    /// Of a network that was just opened, once so many endpoints of ours were taken out.
    pub fn new(removed: usize) -> Work
        // All endpoints of ours are to be written.
        ensures new { result ≡ new_work removed }
    {
        Work {
            is_awake: true,
            ticks: true,
            asserted: 0,
            removed,
            written: 0,
            wrote: 0,
            speaks: false,
            waits: false,
        }
    }

    /// What is done next, where we have so many endpoints and took out so many.
    pub fn task(&self, own: usize, removed: usize) -> Option<Task>
        // It is the first in this order.
        ensures task { result ≡ task_of own removed self.now }
    {
        if !self.is_awake {
            None
        } else if self.ticks {
            Some(Task::Tick)
        } else if self.asserted < 3 {
            Some(Task::Assert(self.asserted + 1))
        } else if self.waits {
            None
        } else if self.removed < removed {
            Some(Task::Unregister)
        } else if self.written < own {
            Some(Task::Write)
        } else if self.speaks {
            Some(Task::Speak)
        } else {
            None
        }
    }

    /// Time went on to a moment, and it is time for a message of liveliness or not.
    pub fn go_on(&mut self, time: u64, speaks: bool)
        // Its peer is to be told, and what waited is tried again.
        ensures on { self.new ≡ gone_on time speaks self.old }
    {
        self.ticks = true;
        self.waits = false;
        self.speaks = speaks || self.speaks;
        if time.saturating_sub(self.wrote) >= REWRITTEN_AFTER {
            self.written = 0;
        }
    }

    /// Its participant is there again, or sleeps.
    pub fn turn(&mut self, is_awake: bool)
        // Our endpoints are to be written again.
        ensures turned { self.new ≡ turned_work is_awake self.old }
    {
        self.is_awake = is_awake;
        self.written = 0;
    }

    /// A task was done, unless it waits.
    pub fn end(&mut self, task: Task, time: u64, waits: bool)
        // It is not to be done again, but where it waits.
        ensures ended { self.new ≡ after_task time waits task self.old }
    {
        match task {
            Task::Tick => self.ticks = false,
            Task::Assert(writer) => self.asserted = writer,
            _ if waits => self.waits = true,
            Task::Unregister => self.removed = self.removed.saturating_add(1),
            Task::Write => {
                self.written = self.written.saturating_add(1);
                self.wrote = time;
            }
            Task::Speak => self.speaks = false,
        }
    }
}
