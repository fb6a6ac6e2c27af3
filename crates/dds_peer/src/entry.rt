//! What the program does with its words and its streams.

use crate::simulation::{Echo, sim};
use crate::words::{Task, read_words};
use clap::error::ErrorKind;
use dds_pair::pair;
use std::alloc::Global;
use std::io::{Read, Write};
use std::net::Net;
use std::sync::Wait;
use std::thread::Threads;
use std::time::Clock;

/// What is printed where the words name no task.
pub const USAGE: &str =
    "usage: dds_peer sim | dds_peer pair [--count N]\n`dds_peer sim --echo` prints each command before what it answers";

/// Prints a line, and does nothing more about a stream that takes none.
fn tell(errors: &mut impl Write, text: &str) {
    let _ = errors.write_all(text.as_bytes());
    let _ = errors.write_all(b"\n");
    let _ = errors.flush();
}

/// Runs a script, and answers the exit status.
fn simulate<R: Read + Drop, W: Write + Drop>(
    alloc: Global,
    echo: Echo,
    input: R,
    output: W,
    errors: &mut impl Write,
) -> u8 {
    sim(alloc, echo, input, output).tell(errors)
}

/// Does what the words ask for, prints a fault on `errors`, and answers the exit status: 0 where all went well, 1 after
/// a fault, 2 for wrong words. The first word is the name of the program.
pub fn program<I: Read + Drop, W: Write + Drop, R: Threads + Wait + Net + Clock + Sync>(
    rt: &R,
    alloc: Global,
    words: &[String],
    input: I,
    output: W,
    errors: &mut impl Write,
) -> u8 {
    match read_words(alloc, words) {
        Ok(Task::Simulate { echo }) => simulate(alloc, echo, input, output, errors),
        Ok(Task::Pair { count }) => pair(rt, alloc, count, output).tell(errors),
        Err(error) if error.kind() == ErrorKind::OutOfMemory => {
            tell(errors, "memory");
            1
        }
        _ => {
            tell(errors, USAGE);
            2
        }
    }
}
