//! The program: a participant on the network, over UDP. Its word `who` prints who is there: participants and the endpoints
//! that they announce, which endpoints of ours are matched with them, and why one is not.
//!
//! `listen` takes what is written for its topic and prints it with its SampleInfo, `say` writes what lines say. `--trace`
//! writes what happened to our peer into a file, which `dds_pipe` answers as it did.
//!
//! Contracts say what an option of one word sets, which lines are printed of what discovery told, and the exit status of a
//! failure. They do not say how a participant, an endpoint, a sample or a trace is printed, nor which calls lines ask for:
//! that is tested. What a participant does is proved in `dds_domain`, and on the network in `dds_live`.
#![tactic(auto)]

mod asked;
mod calls;
mod entry;
mod failure;
mod line;
mod samples;
mod trace;
mod turns;
mod watcher;
mod words;

use entry::program;
use std::process::ExitCode;
use std::{env, io};

fn main(rt: HostRuntime) -> io::Result<ExitCode> {
    let alloc = rt.alloc();
    let words: Vec<String> = env::args(&rt)?.collect(alloc)?;
    let mut output = io::writer(&rt);
    let exit = program(&rt, alloc, &words, &mut output, &mut rt.stderr());
    Ok(ExitCode::from(exit))
}
