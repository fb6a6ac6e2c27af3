//! The options of a writer or a reader.

use crate::number::{decimal, decimal_i32, decimal_u32, units};
use dds_base::{
    EntityId, HistoryQos, OwnershipQos, ReaderConfig, ReliabilityQos, USUAL_VALUE, WriterConfig,
};

/// What the options of a writer or a reader say.
#[derive(Clone, Copy)]
pub struct Options {
    /// `shared` or `exclusive`.
    pub ownership: OwnershipQos,
    /// `besteffort`; without it a writer or a reader is reliable.
    pub reliability: ReliabilityQos,
    /// `all`, or `last` with a depth.
    pub history: HistoryQos,
    /// `samples`: positive, or -1 for no limit.
    pub max_samples: i32,
    /// `instances`, of a reader: positive, or -1 for no limit.
    pub max_instances: i32,
    /// `arrivals`, of a reader: from 1 to 2^63.
    pub max_arrivals: u64,
    /// `strength`, of a writer.
    pub strength: i32,
    /// `lease`, in units of 2^-32 second; none never ends.
    pub lease: Option<u64>,
    /// `autodispose`, of a writer.
    pub autodispose: bool,
    /// `topic`: writers and readers of one number match.
    pub topic: u32,
    /// `values`: how many octets a value has at most.
    pub max_value: u32,
}

impl Options {
    /// Those of a line without options.
    fn new() -> Self {
        Options {
            ownership: OwnershipQos::Shared,
            reliability: ReliabilityQos::Reliable,
            history: HistoryQos::KeepLast(1),
            max_samples: -1,
            max_instances: -1,
            max_arrivals: ReaderConfig::USUAL_ARRIVALS,
            strength: 0,
            lease: None,
            autodispose: true,
            topic: 0,
            max_value: USUAL_VALUE,
        }
    }

    /// Takes up an option that writers and readers have, if it is one. Of one given twice the last counts.
    fn take_common(&mut self, word: &str) -> Option<()> {
        match word {
            "shared" => self.ownership = OwnershipQos::Shared,
            "exclusive" => self.ownership = OwnershipQos::Exclusive,
            "besteffort" => self.reliability = ReliabilityQos::BestEffort,
            "all" => self.history = HistoryQos::KeepAll,
            _ => self.take_number(word)?,
        }
        Some(())
    }

    /// Takes up an option with a number, if it is one that writers and readers have.
    fn take_number(&mut self, word: &str) -> Option<()> {
        let (name, number) = word.split_once('=')?;
        match name {
            "last" => self.history = HistoryQos::KeepLast(decimal_u32(number)?),
            "max" => self.max_samples = decimal_i32(number)?,
            "lease" => self.lease = Some(units(number)?),
            "topic" => self.topic = decimal_u32(number)?,
            "values" => self.max_value = decimal_u32(number)?,
            _ => return None,
        }
        Some(())
    }

    /// Takes up an option of a writer, if it is one.
    fn take_writer(&mut self, word: &str) -> Option<()> {
        if word == "noauto" {
            self.autodispose = false;
        } else if let Some(strength) = word.strip_prefix("strength=") {
            self.strength = decimal_i32(strength)?;
        } else {
            self.take_common(word)?;
        }
        Some(())
    }

    /// Takes up an option of a reader, if it is one.
    fn take_reader(&mut self, word: &str) -> Option<()> {
        if let Some(max) = word.strip_prefix("instances=") {
            self.max_instances = decimal_i32(max)?;
        } else if let Some(max) = word.strip_prefix("arrivals=") {
            self.max_arrivals = decimal(max)?;
        } else {
            self.take_common(word)?;
        }
        Some(())
    }
}

/// What the options of a writer say.
pub fn writer_options(words: &[&str]) -> Option<Options> {
    let mut options = Options::new();
    for word in words {
        options.take_writer(word)?;
    }
    Some(options)
}

/// What the options of a reader say.
pub fn reader_options(words: &[&str]) -> Option<Options> {
    let mut options = Options::new();
    for word in words {
        options.take_reader(word)?;
    }
    Some(options)
}

/// The options of a writer, as forms name them.
pub const WRITER_OPTIONS: &str =
    "shared, exclusive, all, last=N, max=N, topic=N, lease=UNITS, values=N, strength=N, noauto, besteffort";

/// The options of a reader, as forms name them.
pub const READER_OPTIONS: &str =
    "shared, exclusive, all, last=N, max=N, topic=N, lease=UNITS, values=N, instances=N, arrivals=N, besteffort";

/// Whether a word is an option of a writer.
pub fn is_writer_option(word: &str) -> bool {
    Options::new().take_writer(word).is_some()
}

/// Whether a word is an option of a reader.
pub fn is_reader_option(word: &str) -> bool {
    Options::new().take_reader(word).is_some()
}

/// A writer of this name and these options.
pub fn writer_config(entity: EntityId, options: Options) -> WriterConfig {
    WriterConfig {
        entity,
        topic: options.topic,
        ownership: options.ownership,
        reliability: options.reliability,
        history: options.history,
        max_samples: options.max_samples,
        strength: options.strength,
        lease: options.lease,
        autodispose: options.autodispose,
        max_value: options.max_value,
    }
}

/// A reader of this name and these options.
pub fn reader_config(entity: EntityId, options: Options) -> ReaderConfig {
    ReaderConfig {
        entity,
        topic: options.topic,
        ownership: options.ownership,
        reliability: options.reliability,
        history: options.history,
        max_samples: options.max_samples,
        max_instances: options.max_instances,
        max_arrivals: options.max_arrivals,
        lease: options.lease,
        max_value: options.max_value,
    }
}
