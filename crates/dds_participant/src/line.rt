//! A line that is being written.

use dds_base::Key;
use std::alloc::{AllocError, Global};
use std::fmt::Display;

/// A line of a trace. Whether memory was found for all of it is told at its end.
#[derive(Drop)]
pub struct Line {
    text: String,
    is_whole: bool,
}

impl Line {
    /// One that begins with this word.
    pub fn new(alloc: Global, word: &str) -> Line {
        let mut line = Line {
            text: String::new(alloc),
            is_whole: true,
        };
        line.push(word);
        line
    }

    /// What stands next.
    pub fn push<D: Display + Drop>(&mut self, piece: D) {
        if write!(self.text, "{piece}").is_err() {
            self.is_whole = false;
        }
    }

    /// Octets in hexadecimal digits, two each.
    pub fn push_octets(&mut self, octets: &[u8]) {
        for octet in octets {
            self.push(format_args!("{octet:02x}"));
        }
    }

    /// The same as a word: `-` where there are none.
    pub fn push_value(&mut self, octets: &[u8]) {
        if octets.is_empty() {
            self.push('-');
        } else {
            self.push_octets(octets);
        }
    }

    /// A key, without leading zeros.
    pub fn push_key(&mut self, key: Key) {
        let number = u128::from_be_bytes(key.0);
        self.push(format_args!("{number:x}"));
    }

    /// Appends it to lines, with its line feed.
    ///
    /// # Errors
    ///
    /// Want of memory.
    pub fn end(self, lines: &mut Vec<u8>) -> Result<(), AllocError> {
        if !self.is_whole {
            return Err(AllocError);
        }
        lines.extend_from_slice(self.text.as_bytes())?;
        lines.push(b'\n')?;
        Ok(())
    }
}
