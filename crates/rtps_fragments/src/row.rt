//! A writer that is known, and its numbers that are not whole.
//!
//! RTPS 2.5, 8.2 (GUID_t) and 8.3.8.3 (DataFrag).

ghost use Rattle.std.specs.Prelude.{◌≡◌, [], find, IfOk, IfErr, OnErr};
ghost use Rattle.std.specs.Option.{option_map};
ghost use Rattle.rtps_fragments.specs.Keeping.{is_number};
ghost use Rattle.rtps_fragments.specs.Hearing.{is_row, RowAnswers};

use crate::assembly::Assembly;
use crate::data_frag::DataFrag;
use crate::kept::hear;
use crate::telling::InForce;
use dds_base::{Code, EntityId, Guid, GuidPrefix, Octets};
use std::alloc::Global;
use std::marker::Model;

/// A writer that is known, and what is kept of it. Contracts see both as lists.
#[derive(Drop)]
pub struct WriterRow {
    writer: Guid,
    kept: Vec<Assembly>,
}

impl Model for WriterRow {
    ghost use Rattle.rtps_fragments.specs.Hearing.{Row};

    ghost Value = { Row };

    ghost view = { λ r. record { writer = r.writer; kept = r.kept.items } };
}

impl WriterRow {
    /// A writer of which nothing came.
    pub fn new(alloc: Global, writer: Guid) -> WriterRow
        ensures { result ≡ record { writer = writer; kept = [] } }
    {
        WriterRow {
            writer,
            kept: Vec::new(alloc),
        }
    }

    /// Whether it is this writer.
    pub fn is_of(&self, prefix: &GuidPrefix, entity: &EntityId) -> bool
        ensures { result ≡ is_row prefix.now entity.now self.now }
    {
        self.writer.prefix == *prefix && self.writer.entity == *entity
    }

    /// What is kept of a number, if something is.
    pub fn number(&self, writer_sn: u64) -> Option<&Assembly>
        ensures { option_map (λ a. a.now) result ≡ find (is_number writer_sn) self.now.kept }
    {
        self.kept
            .iter()
            .find(|assembly| assembly.is_number(writer_sn))
    }

    /// What is kept becomes this by a DATA_FRAG, and the message of a payload that it made whole.
    pub fn hear(
        &mut self,
        alloc: Global,
        in_force: &InForce,
        fragment: &DataFrag,
    ) -> Result<Option<Octets>, Code>
        ensures ok { IfOk result (λ m. RowAnswers in_force.now fragment.now self.old self.new m) }
        ensures err { OnErr result (self.new ≡ self.old) }
        ensures memory { IfErr result (λ e. e ≡ Code.Memory) }
    {
        hear(&mut self.kept, alloc, in_force, fragment)
    }
}
