//! The words of the command line.

use crate::simulation::Echo;
use clap::{Arg, ArgAction, ArgMatches, Command, Error, value_parser};
use std::alloc::{AllocError, Global};

/// How many samples a pair exchanges where the words do not say it.
const USUAL_COUNT: u64 = 100;

/// What the program is asked to do.
#[derive(Clone, Copy)]
pub enum Task {
    /// Run a script.
    Simulate { echo: Echo },
    /// Run a pair of peers over the loopback, which exchange so many samples.
    Pair { count: u64 },
    /// Nothing that it knows.
    Unknown,
}

fn sim_command<'a>(alloc: Global) -> Result<Command<'a>, AllocError> {
    let echo = Arg::new(alloc, "echo")
        .long("echo")
        .action(ArgAction::SetTrue);
    Command::new(alloc, "sim").arg(echo)
}

fn pair_command<'a>(alloc: Global) -> Result<Command<'a>, AllocError> {
    let count = Arg::new(alloc, "count")
        .long("count")
        .value_parser(value_parser!(u64).range(1..10_001));
    Command::new(alloc, "pair").arg(count)
}

fn command<'a>(alloc: Global) -> Result<Command<'a>, AllocError> {
    Command::new(alloc, "dds_peer")
        .subcommand(sim_command(alloc)?)?
        .subcommand(pair_command(alloc)?)
}

fn task_of(matches: &ArgMatches<'_>) -> Task {
    match matches.subcommand() {
        Some(("sim", words)) if words.get_flag("echo") => Task::Simulate {
            echo: Echo::Commands,
        },
        Some(("sim", _)) => Task::Simulate { echo: Echo::None },
        Some(("pair", words)) => Task::Pair {
            count: words.get_one::<u64>("count").unwrap_or(USUAL_COUNT),
        },
        _ => Task::Unknown,
    }
}

/// The task that the words name. The first is the name of the program.
///
/// # Errors
///
/// What `clap` refuses, want of memory among it.
pub fn read_words<'a>(alloc: Global, words: &'a [String]) -> Result<Task, Error> {
    let matches = command(alloc)?.try_get_matches_from(words)?;
    Ok(task_of(&matches))
}
