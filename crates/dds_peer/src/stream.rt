//! The input of a simulation, line by line.

use crate::cause::cause_of;
use crate::script::{Line, line_of};
use dds_script::{Fault, Lines};
use std::alloc::Global;
use std::io::Read;

/// How many octets of input are looked at.
const MAX_INPUT: u64 = 1_048_576;

/// A script that is being read.
#[derive(Drop)]
pub struct Script<R: Read + Drop> {
    alloc: Global,
    lines: Lines<R>,
}

impl<R: Read + Drop> Script<R> {
    /// The script of an input, of which nothing is read yet.
    pub fn open(alloc: Global, input: R) -> Result<Self, Fault> {
        let lines = Lines::open(alloc, input, MAX_INPUT)?;
        Ok(Script { alloc, lines })
    }

    /// The number of the line that was read last, from 1; at the end of the input one past the last.
    pub fn number(&self) -> u64 {
        self.lines.number()
    }

    /// The line that was read last, without its line feed.
    pub fn line(&self) -> &[u8] {
        self.lines.line()
    }

    /// Reads a line, and tells what it says; none at the end of the input.
    ///
    /// # Errors
    ///
    /// `NotACommand` where it says nothing, `InputTooLong` where the line does not end within the first 1,048,576
    /// octets, `InputFailed` where the input does, `Memory` where there is none.
    pub fn next(&mut self) -> Result<Option<Line>, Fault> {
        if !self.lines.advance()? {
            return Ok(None);
        }
        match line_of(self.alloc, self.lines.line())? {
            Some(line) => Ok(Some(line)),
            None => Err(Fault::of_cause(
                self.lines.number(),
                cause_of(self.alloc, self.lines.line()),
            )),
        }
    }
}
