//! Rows of text, and how they are tried.
//!
//! A row is an operation, its operands and, after ` => `, what must come of it. Other lines are empty, or remarks that
//! begin with `#`.
//!
//! An answer is a text, so that a test holds one value at a time. Nothing that makes one gives an error: where memory
//! is refused or a word is misspelt, the text is another, and the row fails.

use std::alloc::Global;
use std::fmt::Debug;
use std::process::Abort;

/// What rows are about.
pub trait Subject {
    /// Appends what comes of an operation.
    fn answer(&mut self, alloc: Global, text: &mut String, name: &str, operands: &str);
}

/// Tries the rows of a table, in turn.
pub fn expect_rows<S: Subject>(rt: &impl Abort, alloc: Global, subject: &mut S, rows: &str) {
    for row in rows.lines() {
        if !row.is_empty() && !row.starts_with('#') {
            let (line, wanted) = row.split_once(" => ").unwrap_or((row, ""));
            let (name, operands) = line.split_once(' ').unwrap_or((line, ""));
            let mut text = String::new(alloc);
            subject.answer(alloc, &mut text, name, operands);
            assert!(rt; text.as_str() == wanted, "{line} => {text}");
        }
    }
}

/// The first words of some operands, empty where there are fewer.
#[derive(Clone, Copy)]
pub struct Words<'a> {
    pub first: &'a str,
    pub second: &'a str,
    pub third: &'a str,
    pub fourth: &'a str,
}

pub fn words_of(operands: &str) -> Words<'_> {
    let mut words = operands.split(' ');
    Words {
        first: words.next().unwrap_or(""),
        second: words.next().unwrap_or(""),
        third: words.next().unwrap_or(""),
        fourth: words.next().unwrap_or(""),
    }
}

/// The number that a word spells.
pub fn number_of(word: &str) -> u64 {
    word.parse().unwrap_or(0)
}

fn push_digits(alloc: Global, octets: &mut Vec<u8>, digits: &str) {
    if let Ok(more) = hex::decode(alloc, digits) {
        let _ = octets.extend_from_slice(&more);
    }
}

fn push_word(alloc: Global, octets: &mut Vec<u8>, word: &str) {
    match word.split_once('x') {
        Some((digits, count)) => {
            for _ in 0..number_of(count) {
                push_digits(alloc, octets, digits);
            }
        }
        None => push_digits(alloc, octets, word),
    }
}

/// Appends octets that words of hex digits spell. A word of digits, `x` and a number stands for so many such octets.
pub fn push_octets(alloc: Global, octets: &mut Vec<u8>, words: &str) {
    for word in words.split(' ') {
        push_word(alloc, octets, word);
    }
}

/// The octets that words of hex digits spell.
pub fn octets_of(alloc: Global, words: &str) -> Vec<u8> {
    let mut octets = Vec::new(alloc);
    push_octets(alloc, &mut octets, words);
    octets
}

/// Appends a value as `{:?}` has it.
pub fn show<T: Debug>(text: &mut String, value: &T) {
    let _ = write!(text, "{value:?}");
}

/// Appends octets as hex digits.
pub fn push_hex(text: &mut String, octets: &[u8]) {
    for octet in octets {
        let _ = write!(text, "{octet:02x}");
    }
}
