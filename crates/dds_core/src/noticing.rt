//! Telling the listeners of a peer what an event raised.
//!
//! DDS 1.4, 2.2.4.3 (access through listeners).

ghost use Rattle.std.specs.Prelude.{◌≡◌, ◌≤◌, length};
ghost use Rattle.dds_base.specs.declared.entity.Entity.TheVariants as entity;
ghost use Rattle.dds_machine.specs.Noticing.{at_end, each_told, reader_told, told, writer_told};
ghost use Rattle.dds_machine.specs.Part.{Part, own_proxies, own_reader, own_writer};
ghost use Rattle.dds_ends.specs.Noticing.{IsMarkOf, IsWriterMarkOf};
ghost use Rattle.dds_core.specs.Noticing.{AreMarksOf, MarksPeer, Tells};

use crate::peer::Peer;
use dds_base::Entity;
use dds_ends::{Marks, ReaderMark, WriterMark, mark_readers, mark_writers};
use dds_notices::{Listener, Notice, Slots, Status};

impl Peer {
    /// What its statuses say before an event.
    pub(crate) fn marks(&self) -> Marks
        ensures { MarksPeer self.now result }
    {
        Marks {
            writers: mark_writers(self.writers.as_slice()),
            readers: mark_readers(self.readers.as_slice()),
        }
    }

    /// Tells whoever takes it of a status of the reader of this number, if it was raised.
    fn tell_of_reader<L: Listener>(
        &mut self,
        slots: &mut Slots<L>,
        number: u8,
        raised: Option<Status>,
    )
        requires within { (1 ≤ number) × (number ≤ length self.old.readers) }
        ensures told { Tells L.notices L.capacity L.becomes
            (λ part. told part (entity.Reader number) raised) self.old slots.old self.new
            slots.new }
        ensures readers { length self.new.readers ≡ length self.old.readers }
    {
        let Some(status) = raised else {
            return;
        };
        let entity = Entity::Reader(number);
        if slots.takes(entity, &status) {
            self.readers[usize::from(number) - 1].see(&status);
            slots.tell(&Notice { entity, status });
        }
    }

    /// Tells of what was raised at the reader of this number, by ascending bit.
    fn notify_reader<L: Listener>(&mut self, slots: &mut Slots<L>, number: u8, mark: &ReaderMark)
        requires within { (1 ≤ number) × (number ≤ length self.old.readers) }
        ensures told { (before : Part)
            → IsMarkOf mark.now (own_proxies before number) (own_reader before number)
            → Tells L.notices L.capacity L.becomes
            (reader_told before number) self.old slots.old self.new slots.new }
        ensures readers { length self.new.readers ≡ length self.old.readers }
    {
        let index = usize::from(number) - 1;
        let lost = self.readers[index].lost_raised(mark);
        self.tell_of_reader(slots, number, lost);
        let data = self.readers[index].data_raised(mark);
        self.tell_of_reader(slots, number, data);
        let turned = self.readers[index].turn_raised(mark);
        self.tell_of_reader(slots, number, turned);
        let matched = self.readers[index].subscription_raised(mark);
        self.tell_of_reader(slots, number, matched);
    }

    /// Tells whoever takes it of a status of the writer of this number, if it was raised.
    fn tell_of_writer<L: Listener>(
        &mut self,
        slots: &mut Slots<L>,
        number: u8,
        raised: Option<Status>,
    )
        requires within { (1 ≤ number) × (number ≤ length self.old.writers) }
        ensures told { Tells L.notices L.capacity L.becomes
            (λ part. told part (entity.Writer number) raised) self.old slots.old self.new
            slots.new }
        ensures writers { length self.new.writers ≡ length self.old.writers }
        ensures readers { length self.new.readers ≡ length self.old.readers }
    {
        let Some(status) = raised else {
            return;
        };
        let entity = Entity::Writer(number);
        if slots.takes(entity, &status) {
            self.writers[usize::from(number) - 1].see(&status);
            slots.tell(&Notice { entity, status });
        }
    }

    /// Tells of what was raised at the writer of this number, by ascending bit.
    fn notify_writer<L: Listener>(&mut self, slots: &mut Slots<L>, number: u8, mark: &WriterMark)
        requires within { (1 ≤ number) × (number ≤ length self.old.writers) }
        ensures told { (before : Part) → IsWriterMarkOf mark.now (own_writer before number)
            → Tells L.notices L.capacity L.becomes
            (writer_told before number) self.old slots.old self.new slots.new }
        ensures writers { length self.new.writers ≡ length self.old.writers }
        ensures readers { length self.new.readers ≡ length self.old.readers }
    {
        let index = usize::from(number) - 1;
        let lost = self.writers[index].loss_raised(mark);
        self.tell_of_writer(slots, number, lost);
        let matched = self.writers[index].publication_raised(mark);
        self.tell_of_writer(slots, number, matched);
    }

    /// Tells of what was raised at its writers.
    fn notify_writers<L: Listener>(&mut self, slots: &mut Slots<L>, marks: &Marks)
        ensures told { (before : Part) → AreMarksOf marks.now before
            → Tells L.notices L.capacity L.becomes
            (each_told (writer_told before) (length self.old.writers)) self.old slots.old self.new
            slots.new }
        ensures readers { length self.new.readers ≡ length self.old.readers }
    {
        for index in 0..self.writers.len() {
            self.notify_writer(slots, index as u8 + 1, &marks.writers[index]);
        }
    }

    /// Tells of what was raised at its readers.
    fn notify_readers<L: Listener>(&mut self, slots: &mut Slots<L>, marks: &Marks)
        ensures told { (before : Part) → AreMarksOf marks.now before
            → Tells L.notices L.capacity L.becomes
            (each_told (reader_told before) (length self.old.readers)) self.old slots.old self.new
            slots.new }
    {
        for index in 0..self.readers.len() {
            self.notify_reader(slots, index as u8 + 1, &marks.readers[index]);
        }
    }

    /// The end of an event, before which the peer had these marks: each status that was raised in it is told, once, to
    /// the listener of its entity, else to that of the participant: writers, then readers, statuses by ascending bit.
    ///
    /// DDS 1.4, 2.2.4.3 (access through listeners).
    pub(crate) fn end<L: Listener>(&mut self, slots: &mut Slots<L>, marks: &Marks)
        ensures told { (before : Part) → AreMarksOf marks.now before
            → Tells L.notices L.capacity L.becomes (at_end before) self.old slots.old self.new slots.new }
    {
        self.notify_writers(slots, marks);
        self.notify_readers(slots, marks);
    }
}
