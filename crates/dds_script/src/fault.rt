//! What ends a program early.

use dds_base::{Code, ConfigFault};
use std::alloc::{AllocError, Global};
use std::fmt;
use std::io::{self, ErrorKind, Write};
use thiserror::Error;

/// The code with which a set-up is refused, and the rule that it breaks, where it breaks one.
///
/// Printed it is `BAD_PARAMETER: reader 1 of peer 2: its depth is 0`.
#[derive(Clone, Copy, Debug)]
pub struct SetupRefusal {
    pub code: Code,
    pub fault: Option<ConfigFault>,
}

impl fmt::Display for SetupRefusal {
    fn fmt<W: fmt::Write>(&self, f: &mut fmt::Formatter<W>) -> fmt::Result {
        let code = self.code;
        match self.fault {
            Some(fault) => write!(f, "{code}: {fault}"),
            None if code == Code::BadParameter => {
                write!(f, "{code}: the configuration has no peer of this number")
            }
            None => write!(f, "{code}"),
        }
    }
}

/// A fault of the lines that are read, of the streams, of memory, or of a pair of peers. Lines are counted from 1.
#[derive(Debug, Drop, Error)]
pub enum Fault {
    /// The line is no command of the language, for this cause.
    #[error("line {line}: not a command\n{cause}")]
    NotACommand { line: u64, cause: String },
    /// The set-up was refused; the line is the first after it, or one past the last.
    #[error("line {line}: code {}\n{refusal}", .refusal.code.number())]
    Refused { line: u64, refusal: SetupRefusal },
    /// The input is longer than a program takes.
    #[error("input too long")]
    InputTooLong,
    /// The input can't be read.
    #[error("input failed")]
    InputFailed,
    /// What is printed can't be written.
    #[error("output failed")]
    OutputFailed,
    /// There is no memory.
    #[error("memory")]
    Memory,
    /// A pair of peers ended with the code of this number.
    #[error("pair: code {number}")]
    PairFailed { number: u8 },
    /// The traces of a pair of peers have no order in which each packet was sent before it came.
    #[error("pair: stuck")]
    PairStuck,
}

impl From<AllocError> for Fault {
    fn from(_e: AllocError) -> Fault {
        Fault::Memory
    }
}

impl Fault {
    /// The line of this number is no command, for this cause; `Memory` where there is none for its words.
    pub fn not_a_command(alloc: Global, line: u64, cause: &str) -> Self {
        Fault::of_cause(line, String::from_str(alloc, cause))
    }

    /// The line of this number is no command, for a cause that was looked for; `Memory` where there was none for it.
    pub fn of_cause(line: u64, cause: Result<String, AllocError>) -> Self {
        match cause {
            Ok(cause) => Fault::NotACommand { line, cause },
            Err(AllocError) => Fault::Memory,
        }
    }

    /// The fault of an input whose reading failed with this error: `Memory` for want of it, `InputFailed` for all else.
    pub fn of_input(error: io::Error) -> Self {
        if error.kind() == ErrorKind::OutOfMemory {
            Fault::Memory
        } else {
            Fault::InputFailed
        }
    }
}

/// How a program ended: its exit status, and the fault if there was one.
#[derive(Drop)]
pub struct Status {
    /// The exit status: 0 where all went well.
    pub exit: u8,
    /// What ended it early, if anything did.
    pub fault: Option<Fault>,
}

impl Status {
    /// All went well.
    pub fn success() -> Self {
        Status {
            exit: 0,
            fault: None,
        }
    }

    /// A fault ended it.
    pub fn failed(fault: Fault) -> Self {
        Status {
            exit: 1,
            fault: Some(fault),
        }
    }

    /// What a run came to.
    pub fn of(ended: Result<(), Fault>) -> Self {
        match ended {
            Ok(()) => Status::success(),
            Err(fault) => Status::failed(fault),
        }
    }

    /// Prints the fault, if there was one, and answers the exit status.
    pub fn tell(self, errors: &mut impl Write) -> u8 {
        let Status { exit, fault } = self;
        if let Some(fault) = fault {
            let _ = errors.writeln(fault);
            let _ = errors.flush();
        }
        exit
    }
}
