//! Turns: what came is heard, time goes on, and what comes of it is printed and sent.

ghost use Rattle.std.specs.Prelude.{◌≡◌, IfErr, OnOk};
ghost use Rattle.std.specs.Io.KnownBytes.{Appends};

use crate::asked::Asked;
use crate::failure::Failure;
use crate::samples::{is_behind, take_all, take_line};
use crate::trace::Trace;
use crate::watcher::{Watcher, list_all};
use crate::words::Purpose;
use dds_domain::Turn;
use dds_live::Live;
use std::alloc::Global;
use std::io::{Read, Write};
use std::os::fd::RawFd;
use std::time::{Clock, Duration};

/// How many datagrams one turn takes at most.
const MOST_DATAGRAMS: u32 = 64;

/// How long a wait takes at most, in milliseconds.
const LONGEST_WAIT: u64 = 100;

/// The standard input, as a file.
const STANDARD_INPUT: RawFd = 0;

/// What is printed where memory was wanting in a turn.
const NO_MEMORY: &[u8] = b"no memory\n";

/// A participant on the network, and what was printed of it.
#[derive(Drop)]
pub struct Printed {
    pub alloc: Global,
    pub live: Live,
    pub watcher: Watcher,
    pub purpose: Purpose,
    pub trace: Option<Trace>,
}

/// Prints lines.
pub fn give<W: Write>(lines: &[u8], output: &mut W) -> Result<(), Failure>
    ensures printed { OnOk result
        (Appends (W.contents output.old) (W.contents output.new) lines.now) }
    ensures refused { IfErr result (λ e. e ≡ Failure.OutputFailed) }
{
    if lines.is_empty() {
        return Ok(());
    }
    if output.write_all(lines).is_err() || output.flush().is_err() {
        return Err(Failure::OutputFailed);
    }
    Ok(())
}

impl Printed {
    /// Prints this, and our endpoints.
    pub fn begin<W: Write>(&mut self, head: &[u8], output: &mut W) -> Result<(), Failure> {
        let mut lines = Vec::new(self.alloc);
        lines.extend_from_slice(head)?;
        list_all(self.alloc, self.live.participant().own(), &mut lines)?;
        give(&lines, output)
    }

    /// Nothing yet; what happens to our peer is recorded where it is traced.
    fn begin_turn(&self) -> Turn {
        if self.trace.is_some() {
            Turn::recording(self.alloc)
        } else {
            Turn::new(self.alloc)
        }
    }

    /// What happened to our peer in a turn is traced, where that is asked for.
    fn put_trace(&mut self, turn: &Turn) -> Result<(), Failure> {
        match &mut self.trace {
            Some(trace) => trace.put(turn),
            None => Ok(()),
        }
    }

    /// What came of an event is printed and sent, with the samples that it brought, where they are wanted.
    fn show<W: Write>(&mut self, turn: &mut Turn, output: &mut W) -> Result<(), Failure> {
        self.live.send(turn);
        let mut lines = Vec::new(self.alloc);
        self.watcher
            .show(self.live.participant(), turn, &mut lines)?;
        if let Purpose::Listen = self.purpose {
            take_all(self.alloc, &mut self.live, turn, &mut lines)?;
        }
        if turn.lacks_memory {
            lines.extend_from_slice(NO_MEMORY)?;
        }
        self.put_trace(turn)?;
        give(&lines, output)
    }

    /// Hears what came.
    fn hear_all<W: Write>(&mut self, moment: u64, output: &mut W) -> Result<(), Failure> {
        for _ in 0..MOST_DATAGRAMS {
            let mut turn = self.begin_turn();
            if !self.live.hear(moment, &mut turn)? {
                break;
            }
            self.show(&mut turn, output)?;
        }
        Ok(())
    }

    /// Time goes on.
    fn tick<W: Write>(&mut self, moment: u64, output: &mut W) -> Result<(), Failure> {
        let mut turn = self.begin_turn();
        self.live.tick(moment, &mut turn);
        self.show(&mut turn, output)
    }

    /// One turn, so long after the beginning.
    fn turn<W: Write>(&mut self, elapsed: Duration, output: &mut W) -> Result<(), Failure> {
        let moment = self.live.after(elapsed);
        self.hear_all(moment, output)?;
        self.tick(moment, output)
    }

    /// Does what lines of the input ask for.
    fn take_lines<W: Write>(&mut self, input: &mut Asked, output: &mut W) -> Result<(), Failure> {
        if let Purpose::Watch = self.purpose {
            return Ok(());
        }
        let mut turn = self.begin_turn();
        let mut lines = Vec::new(self.alloc);
        for _ in 0..u64::MAX {
            let Some(line) = input.next(self.alloc)? else {
                break;
            };
            take_line(self.alloc, &mut self.live, &line, &mut turn, &mut lines)?;
        }
        self.put_trace(&turn)?;
        give(&lines, output)
    }

    /// Whether the input is read: where it ends us, or says what is written, once somebody hears it.
    fn is_asked(&self, is_endless: bool) -> bool {
        match self.purpose {
            Purpose::Say => !self.live.participant().named().is_empty(),
            Purpose::Listen | Purpose::Watch => is_endless,
        }
    }

    /// Turns for so many seconds, or until the input ends and all that was said was heard.
    pub fn turn_for<R: Clock, I: Read, W: Write>(
        &mut self,
        rt: &R,
        seconds: Option<u64>,
        input: &mut I,
        output: &mut W,
    ) -> Result<(), Failure> {
        let most = Duration::from_secs(seconds.unwrap_or(u64::MAX));
        let mut asked = Asked::new(self.alloc);
        for _ in 0..u64::MAX {
            let elapsed = self.live.elapsed(rt)?;
            self.turn(elapsed, output)?;
            if elapsed >= most || (asked.has_ended() && !is_behind(self.live.participant())) {
                break;
            }
            let is_asked = !asked.has_ended() && self.is_asked(seconds.is_none());
            let file = if is_asked { Some(STANDARD_INPUT) } else { None };
            if self.live.wait(file, Duration::from_millis(LONGEST_WAIT)) {
                asked.read(input)?;
                self.take_lines(&mut asked, output)?;
            }
        }
        Ok(())
    }

    /// We say that we leave.
    pub fn leave(&self) {
        self.live.close(&mut Turn::new(self.alloc));
    }
}
