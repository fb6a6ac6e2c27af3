//! An input, line by line.

use crate::fault::Fault;
use std::alloc::Global;
use std::io::{self, BufRead, BufReader, Read};

/// The lines of an input, read one by one and counted from 1. An input of too many octets is a fault, and is not read
/// on.
#[derive(Drop)]
pub struct Lines<R: Read + Drop> {
    /// What is looked at, and one octet more, to see that there is one.
    input: io::Take<BufReader<R>>,
    line: Vec<u8>,
    /// How many lines were read; at the end of the input one more.
    number: u64,
}

fn without_line_feed(line: &[u8]) -> &[u8] {
    match line {
        [line @ .., b'\n'] => line,
        line => line,
    }
}

impl<R: Read + Drop> Lines<R> {
    /// Those of an input, of which nothing is read yet, and no more than so many octets are looked at.
    ///
    /// # Errors
    ///
    /// `Memory` where there is none.
    pub fn open(alloc: Global, input: R, octets: u64) -> Result<Self, Fault> {
        let input = BufReader::new(alloc, input).map_err(Fault::of_input)?;
        Ok(Lines {
            input: input.take(octets.saturating_add(1)),
            line: Vec::new(alloc),
            number: 0,
        })
    }

    /// From here on so many octets are looked at.
    pub fn allow(&mut self, octets: u64) {
        self.input.set_limit(octets.saturating_add(1));
    }

    /// The number of the line that was read last, from 1; at the end of the input one past the last.
    pub fn number(&self) -> u64 {
        self.number
    }

    /// The line that was read last, without its line feed.
    pub fn line(&self) -> &[u8] {
        without_line_feed(&self.line)
    }

    /// Reads a line. Answers whether there is one: octets without a line feed at the end of the input are one too.
    ///
    /// # Errors
    ///
    /// `InputTooLong` where the line does not end within the octets that are looked at, `InputFailed` where the input
    /// does, `Memory` where there is none.
    pub fn advance(&mut self) -> Result<bool, Fault> {
        self.number = self.number.saturating_add(1);
        self.line.clear();
        let read = self
            .input
            .read_until(b'\n', &mut self.line)
            .map_err(Fault::of_input)?;
        if self.input.limit() == 0 {
            return Err(Fault::InputTooLong);
        }
        Ok(read > 0)
    }
}
