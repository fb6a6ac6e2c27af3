//! Lines of the standard input, as they come.

use crate::failure::Failure;
use std::alloc::{AllocError, Global};
use std::io::Read;

/// How many octets a line has at most: two for each octet of a value, and the words before it.
const LONGEST_LINE: usize = 131_080;

/// What was read and not acted on yet.
#[derive(Drop)]
pub struct Asked {
    octets: Vec<u8>,
    has_ended: bool,
}

impl Asked {
    /// Nothing yet.
    pub fn new(alloc: Global) -> Asked {
        Asked {
            octets: Vec::new(alloc),
            has_ended: false,
        }
    }

    /// Whether there is no more to be read.
    pub fn has_ended(&self) -> bool {
        self.has_ended
    }

    /// Reads what is there.
    ///
    /// # Errors
    ///
    /// `InputFailed` where it can't be read, `LineTooLong` where a line has more than 131,080 octets, else `Memory`.
    pub fn read(&mut self, input: &mut impl Read) -> Result<(), Failure> {
        if self.octets.len() > LONGEST_LINE {
            return Err(Failure::LineTooLong);
        }
        let mut octets = [0u8; 4096];
        match input.read(&mut octets) {
            Ok(0) => self.has_ended = true,
            Ok(count) if count <= octets.len() => {
                self.octets.extend_from_slice(&octets[..count])?;
            }
            _ => return Err(Failure::InputFailed),
        }
        Ok(())
    }

    /// The next line, without its line feed; `None` where none has ended.
    pub fn next(&mut self, alloc: Global) -> Result<Option<Vec<u8>>, AllocError> {
        let Some(end) = self.octets.iter().position(|octet| *octet == b'\n') else {
            return Ok(None);
        };
        let mut line = Vec::new(alloc);
        line.extend_from_slice(&self.octets[..end])?;
        let mut rest = Vec::new(alloc);
        rest.extend_from_slice(&self.octets[end + 1..])?;
        self.octets = rest;
        Ok(Some(line))
    }
}
