//! What the program does with its words.

use crate::failure::Failure;
use crate::samples::our_ends;
use crate::trace::Trace;
use crate::turns::Printed;
use crate::watcher::Watcher;
use crate::words::{Purpose, Request, read_words};
use dds_base::GuidPrefix;
use dds_live::{Place, new_prefix};
use discovery_script::print_open;
use std::alloc::Global;
use std::fs::{File, Files};
use std::io::{Input, Write};
use std::net::Net;
use std::random::RandomSource;
use std::time::Clock;

/// What happens to our peer is traced, where that is asked for: it has our endpoints where samples are exchanged.
fn trace_of<R: Files<File = File>>(
    rt: &R,
    alloc: Global,
    prefix: GuidPrefix,
    request: &Request,
) -> Result<Option<Trace>, Failure> {
    let Some(path) = &request.trace else {
        return Ok(None);
    };
    let ends = match request.purpose {
        Purpose::Watch => &[],
        Purpose::Listen | Purpose::Say => request.ends.as_slice(),
    };
    let mut trace = Trace::open(rt, alloc, path.as_str(), &request.of)?;
    trace.begin(prefix, ends, request.of.max_value)?;
    Ok(Some(trace))
}

/// Where we are to be, and who is told of us.
fn place_of(request: &Request) -> Place<'_> {
    Place {
        domain: request.domain,
        index: None,
        interface: request.interface,
        targets: request.targets.as_slice(),
    }
}

/// Opens the socket, and begins.
fn open<R: Net + Clock + Files<File = File>>(
    rt: &R,
    alloc: Global,
    prefix: GuidPrefix,
    request: Request,
) -> Result<Printed, Failure> {
    let purpose = request.purpose;
    let bound = place_of(&request).bind(rt, alloc)?;
    let trace = trace_of(rt, alloc, prefix, &request)?;
    let exchanges = !matches!(purpose, Purpose::Watch);
    let ends = our_ends(alloc, request.ends, &request.of, exchanges)?;
    Ok(Printed {
        alloc,
        live: bound.begin(alloc, prefix, ends)?,
        watcher: Watcher::new(alloc),
        purpose,
        trace,
    })
}

/// Prints who we are and who is there, until the end.
fn serve<R: Net + Clock + Input>(
    rt: &R,
    printed: &mut Printed,
    seconds: Option<u64>,
    head: &[u8],
    output: &mut impl Write,
) -> Result<(), Failure> {
    printed.begin(head, output)?;
    let ended = printed.turn_for(rt, seconds, &mut rt.reader(), output);
    printed.leave();
    ended
}

/// Does what is asked for, with a participant of this prefix.
fn who<R: Net + Clock + Files<File = File> + Input>(
    rt: &R,
    alloc: Global,
    prefix: GuidPrefix,
    request: Request,
    output: &mut impl Write,
) -> Result<(), Failure> {
    let (seconds, domain) = (request.seconds, request.domain);
    let mut head = Vec::new(alloc);
    let mut printed = open(rt, alloc, prefix, request)?;
    let locator = printed.live.locator();
    match print_open(alloc, &prefix, &locator, domain, &mut head) {
        Ok(()) => serve(rt, &mut printed, seconds, &head, output),
        Err(_) => Err(Failure::Memory),
    }
}

fn run<R: Net + Clock + Files<File = File> + Input + RandomSource>(
    rt: &R,
    alloc: Global,
    words: &[String],
    output: &mut impl Write,
) -> Result<(), Failure> {
    let prefix = new_prefix(rt)?;
    let request = read_words(alloc, prefix, words)?;
    who(rt, alloc, prefix, request, output)
}

/// Does what the words ask for, prints a failure on `errors`, and answers the exit status: 0 where all went well, 2 for
/// wrong words, else 1.
pub fn program<R: Net + Clock + Files<File = File> + Input + RandomSource>(
    rt: &R,
    alloc: Global,
    words: &[String],
    output: &mut impl Write,
    errors: &mut impl Write,
) -> u8 {
    match run(rt, alloc, words, output) {
        Ok(()) => 0,
        Err(failure) => {
            let exit = failure.exit();
            let _ = errors.writeln(failure);
            let _ = errors.flush();
            exit
        }
    }
}
