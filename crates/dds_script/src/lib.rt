//! What the programs share: the words and numbers of a script, the options of writers and readers, the calls that words
//! ask for, lines of input, and how replies are printed.
//!
//! Contracts say which values a `Prefix` passes, which number or time a word is, and how a line is put together of its
//! pieces and printed, and nothing else: what else the programs read and print is tested. Not here: which lines a
//! program takes.
#![tactic(auto)]

mod call;
mod cause;
mod fault;
mod forms;
mod lines;
mod listening;
mod matching;
mod meeting;
mod notice_text;
mod number;
mod operand;
mod options;
mod prefix;
mod printing;
mod sample_text;
mod setup;
mod watching;

pub use call::{call_of, words_of};
pub use cause::{
    call_cause, event_cause, form_cause, reader_options_cause, setup_cause, unknown_cause,
    words_or_cause, writer_options_cause,
};
pub use fault::{Fault, SetupRefusal, Status};
pub use forms::{Form, Operand, peer_form};
pub use lines::Lines;
pub use listening::{ListenerLine, listener_line};
pub use matching::Side;
pub use number::{decimal, decimal_u32, entity_id, guid_prefix, units, value};
pub use operand::{reader_end, reader_number, writer_end};
pub use options::{Options, reader_options, writer_options};
pub use prefix::Prefix;
pub use printing::{Traffic, TranscriptLine, print};
pub use setup::{Setup, SetupLine};
