//! The names that a peer knows.
//!
//! RTPS 2.5, 8.2 (GUID_t).

ghost use Rattle.std.specs.Prelude.{◌≡◌, ◌+◌, ◌^◌, ◌≤◌, IfErr, IfOk, None, OnErr, OnOk, length};
ghost use Rattle.dds_base.specs.Checked.{check_refusal};
ghost use Rattle.dds_base.specs.declared.code.Code.TheVariants.{Memory};
ghost use Rattle.dds_machine.specs.Naming.{is_name_among, with_name};
ghost use Rattle.dds_machine.specs.Opening.{reader_names, writer_names};
ghost use Rattle.dds_machine.specs.Part.{no_names};
ghost use Rattle.dds_names.specs.Known.{agrees_on_all_peers, agrees_with_all, goes_with, has_end, name_of, with_end, without_new, without_new_reader, without_new_writer};

use crate::named_end::NamedEnd;
use crate::opening;
use dds_base::{Code, PeerConfig};
use std::alloc::{AllocError, Global};
use std::marker::Model;

/// The kind of a writer's entity id: one with a key.
const WRITER: u8 = 0x02;
/// The kind of a reader's entity id: one with a key.
const READER: u8 = 0x07;

/// The names that a peer knows, of writers and of readers.
///
/// RTPS 2.5, 8.2 (GUID_t).
#[derive(Drop)]
pub struct KnownNames {
    writers: Vec<NamedEnd>,
    readers: Vec<NamedEnd>,
}

impl Model for KnownNames {
    ghost use Rattle.std.specs.Prelude.{map};
    ghost use Rattle.dds_machine.specs.Part.{Names};
    ghost use Rattle.dds_names.specs.Known.{name_of};

    ghost Value = { Names };

    ghost view = { λ k. record {
      writers = map name_of k.writers.items;
      readers = map name_of k.readers.items;
    } };
}

/// Whether this name and each of those of its kind agree, on participants and on ends.
fn agrees_with_all(known: &[NamedEnd], name: &NamedEnd) -> bool
    ensures { result ≡ agrees_with_all known.now name.now }
{
    known
        .iter()
        .all(|k| k.agrees_on_peers(name) && k.agrees_on_ends(name))
}

/// Whether this name and each of those of the other kind agree on participants.
fn agrees_on_all_peers(others: &[NamedEnd], name: &NamedEnd) -> bool
    ensures { result ≡ agrees_on_all_peers others.now name.now }
{
    others.iter().all(|k| k.agrees_on_peers(name))
}

/// Whether this name goes with those of its kind and with those of the other kind.
fn goes_with(kind: u8, known: &[NamedEnd], others: &[NamedEnd], name: &NamedEnd) -> bool
    ensures { result ≡ goes_with kind known.now others.now name.now }
{
    if name.is_no_name(kind) {
        return false;
    }
    agrees_with_all(known, name) && agrees_on_all_peers(others, name)
}

/// Whether the end is one of these.
fn has_end(known: &[NamedEnd], name: &NamedEnd) -> bool
    ensures { result ≡ has_end known.now name.now }
{
    known.iter().any(|k| k.is_of_end(name))
}

/// Adds a name to those of its kind, if it is not among them, and says whether it is new.
#[tactic(auto, using(crate::proofs::NameLaws::with_new, crate::proofs::NameLaws::with_known, crate::proofs::NameLaws::without_last))]
fn add(known: &mut Vec<NamedEnd>, name: NamedEnd) -> Result<bool, Code>
    ensures ok { OnOk result (known.new.items ≡ with_end known.old.items name) }
    ensures before { IfOk result (λ is_new. without_new is_new known.new.items ≡ known.old.items) }
    ensures err { OnErr result (known.new.items ≡ known.old.items) }
    ensures memory { IfErr result (λ code. code ≡ Memory) }
{
    if has_end(known.as_slice(), &name) {
        return Ok(false);
    }
    known.push(name)?;
    Ok(true)
}

/// Takes the last name of its kind back, if it is new.
fn take_back(known: &mut Vec<NamedEnd>, is_new: bool)
    ensures { known.new.items ≡ without_new is_new known.old.items }
{
    if is_new {
        let _ = known.pop();
    }
}

impl KnownNames {
    /// None at first.
    pub fn new(alloc: Global) -> KnownNames
        ensures { result ≡ no_names }
    {
        KnownNames {
            writers: Vec::new(alloc),
            readers: Vec::new(alloc),
        }
    }

    /// Those of all ends of these peers, which are numbered in their order, from the number of the first.
    ///
    /// # Errors
    ///
    /// Where a growth was refused.
    pub fn open(alloc: Global, first: u32, peers: &[PeerConfig]) -> Result<KnownNames, AllocError>
        requires checked { check_refusal peers.now ≡ None }
        requires room { first + length peers.now ≤ 2 ^ 32 }
        ensures { IfOk result (λ names. names
            ≡ record { writers = writer_names first peers.now; readers = reader_names first peers.now }) }
    {
        Ok(KnownNames {
            writers: opening::writer_names(alloc, first, peers)?,
            readers: opening::reader_names(alloc, first, peers)?,
        })
    }

    /// Whether a writer may be called so: it is a name, and goes with those that are known.
    #[tactic(auto, using(crate::proofs::NameLaws::goes_is))]
    pub fn may_call_writer(&self, name: &NamedEnd) -> bool
        ensures { result ≡ is_name_among 2 self.now.writers self.now.readers (name_of name.now) }
    {
        goes_with(
            WRITER,
            self.writers.as_slice(),
            self.readers.as_slice(),
            name,
        )
    }

    /// Whether a reader may be called so.
    #[tactic(auto, using(crate::proofs::NameLaws::goes_is))]
    pub fn may_call_reader(&self, name: &NamedEnd) -> bool
        ensures { result ≡ is_name_among 7 self.now.readers self.now.writers (name_of name.now) }
    {
        goes_with(
            READER,
            self.readers.as_slice(),
            self.writers.as_slice(),
            name,
        )
    }

    /// A writer is called so from now on; gives whether its name is new.
    ///
    /// # Errors
    ///
    /// `Memory` where a growth was refused; nothing has changed then.
    #[tactic(auto, using(crate::proofs::NameLaws::with_end_is, crate::proofs::NameLaws::without_before))]
    pub fn add_writer(&mut self, name: NamedEnd) -> Result<bool, Code>
        ensures ok { OnOk result
            (self.new
            ≡ record self.old { writers = with_name self.old.writers (name_of name) }) }
        // Without it, where it is new, all would be as it was.
        ensures before { IfOk result (λ is_new. without_new_writer is_new self.new ≡ self.old) }
        ensures err { OnErr result (self.new ≡ self.old) }
        ensures memory { IfErr result (λ code. code ≡ Memory) }
    {
        add(&mut self.writers, name)
    }

    /// Takes the name of the writer back that was added last, if it was new, as where there is no memory for what else a
    /// match wants.
    #[tactic(auto, using(crate::proofs::NameLaws::without_new_is))]
    pub fn take_back_writer(&mut self, is_new: bool)
        ensures { self.new ≡ without_new_writer is_new self.old }
    {
        take_back(&mut self.writers, is_new);
    }

    /// A reader is called so from now on; gives whether its name is new.
    ///
    /// # Errors
    ///
    /// `Memory` where a growth was refused; nothing has changed then.
    #[tactic(auto, using(crate::proofs::NameLaws::with_end_is, crate::proofs::NameLaws::without_before))]
    pub fn add_reader(&mut self, name: NamedEnd) -> Result<bool, Code>
        ensures ok { OnOk result
            (self.new
            ≡ record self.old { readers = with_name self.old.readers (name_of name) }) }
        // Without it, where it is new, all would be as it was.
        ensures before { IfOk result (λ is_new. without_new_reader is_new self.new ≡ self.old) }
        ensures err { OnErr result (self.new ≡ self.old) }
        ensures memory { IfErr result (λ code. code ≡ Memory) }
    {
        add(&mut self.readers, name)
    }

    /// Takes the name of the reader back that was added last, if it was new, as where there is no memory for what else a
    /// match wants.
    #[tactic(auto, using(crate::proofs::NameLaws::without_new_is))]
    pub fn take_back_reader(&mut self, is_new: bool)
        ensures { self.new ≡ without_new_reader is_new self.old }
    {
        take_back(&mut self.readers, is_new);
    }
}
