//! The program: a network of peers in memory, run from a script, or a pair of peers over UDP on the loopback.
//!
//! Nothing is claimed by contracts here: what is printed is tested. What the network answers is proved in `dds_world`,
//! the words of a script and the form of replies stand in `dds_script`, and the pair in `dds_pair`.
//! Not here: one peer on its own (`dds_pipe`).
#![tactic(auto)]

mod cause;
mod entry;
mod meeting;
mod peers;
mod script;
mod setup;
mod simulation;
mod stream;
mod words;

use entry::program;
use std::process::ExitCode;
use std::{env, io};

fn main(rt: HostRuntime) -> io::Result<ExitCode> {
    let alloc = rt.alloc();
    let words: Vec<String> = env::args(&rt)?.collect(alloc)?;
    let exit = program(
        &rt,
        alloc,
        &words,
        rt.reader(),
        io::writer(&rt),
        &mut rt.stderr(),
    );
    Ok(ExitCode::from(exit))
}
