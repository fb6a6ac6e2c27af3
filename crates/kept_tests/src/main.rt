//! What is wanting where memory is refused: changes of one key, without a value, at a reader's cache and at a writer's
//! histories of KEEP_LAST 1, one that nobody awaits and one of a reader that acknowledges nothing: ten, and then a
//! thousand more. And how much memory a flat shared peer has, after so many samples.
//!
//! Nothing is claimed by contracts here: `tools/kept` runs it with each growth refused in turn. It prints how many changes
//! of the ten, and how many of the thousand, were refused, and went in at the second try. With the words `flat COUNT` it
//! writes, delivers and takes so many samples at a flat shared peer instead, and `tools/kept` looks at its memory.
#![tactic(auto)]

mod cache;
mod flat;
mod history;

use std::alloc::Global;
use std::{env, io};

/// What is asked: how many samples go through a flat shared peer, if any.
fn asked(rt: &HostRuntime, alloc: Global) -> io::Result<Option<u64>> {
    let words: Vec<String> = env::args(rt)?.collect(alloc)?;
    let words: Vec<&str> = words.iter().map(|word| word.as_str()).collect(alloc)?;
    match words.as_slice() {
        [_, "flat", count] => Ok(count.parse::<u64>().ok()),
        _ => Ok(None),
    }
}

fn main(rt: HostRuntime) -> io::Result<()> {
    let alloc = rt.alloc();
    if let Ok(Some(count)) = asked(&rt, alloc) {
        match flat::taken(&rt, alloc, count) {
            Ok(taken) => println!(rt; "flat {taken}")?,
            Err(code) => println!(rt; "{code}")?,
        }
        return Ok(());
    }
    let cache = cache::refused(alloc);
    println!(rt; "cache {} {}", cache.0, cache.1)?;
    let history = history::refused(alloc, 0);
    println!(rt; "history {} {}", history.0, history.1)?;
    let awaited = history::refused(alloc, 1);
    println!(rt; "awaited {} {}", awaited.0, awaited.1)?;
    Ok(())
}
