//! The program: the discovery of one participant, which answers lines. Who reads and writes them carries its datagrams,
//! and says what time it is.
//!
//! Contracts say what is printed of what discovery did at a line, and the reply. They do not say which line words are, nor
//! how participants and endpoints are listed: that is tested. What discovery does is proved in `dds_discovery`.
//! Not here: sockets, a clock, and what a match does to a peer.
#![tactic(auto)]

mod line;
mod reply;
mod session;

use session::answer_all;
use std::process::ExitCode;
use std::{env, io};

/// What is printed where there are words on the command line.
const USAGE: &[u8] = b"usage: dds_discover\n";

fn main(rt: HostRuntime) -> io::Result<ExitCode> {
    let alloc = rt.alloc();
    let words: Vec<String> = env::args(&rt)?.collect(alloc)?;
    if words.len() > 1 {
        rt.stderr().write_all(USAGE)?;
        return Ok(ExitCode::from(2));
    }
    let status = answer_all(alloc, rt.reader(), io::writer(&rt));
    Ok(ExitCode::from(status.tell(&mut rt.stderr())))
}
