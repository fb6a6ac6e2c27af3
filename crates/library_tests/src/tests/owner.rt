//! Who is registered for an instance, and who owns it.

use crate::tests::rows::{Subject, Words, expect_rows, number_of, show, words_of};
use dds_base::{
    Arrival, Change, ChangeKind, EntityId, Guid, GuidPrefix, Handle, HistoryQos, Key,
    MatchedWriter, Moment, Octets, OwnershipQos, ReaderConfig, ReaderQos, ReliabilityQos, Sequence,
    Sn,
};
use dds_owner::{Owners, Strengths};
use std::alloc::Global;

/// `open` begins anew, with the strength of each matched writer, and after a dot the octet by which its GUID differs.
/// `register`, `unregister` and `drop` have a writer: who owns then, 0 for nobody. `other` registers one for another
/// instance, and says who owns that. `join` has the strength and the octet of a writer that joins; so has `join_unseen`, of
/// one for which the instance has no place. `strength` has a writer and the strength that a change of it said: who owns the
/// one instance, and who the other. `registered` has a writer, `anybody` nothing, `accepts` and `leaves` a writer, a
/// kind and perhaps a strength: whether its change would be accepted, and whether anybody would be registered then.
const OWNERS: &str = "\
# Nobody is registered before anything came, and nobody owns.
open 5.2 9.3 5.1 5.1 => 0
anybody => false
registered 1 => false

# The strongest of the registered writers owns, until its unregister or its death.
register 1 => 1
register 2 => 2
register 2 => 2
registered 2 => true
anybody => true
drop 2 => 1
registered 2 => false
register 2 => 2
unregister 2 => 1
unregister 2 => 1

# Of equals the one with the smaller GUID owns, whichever handle is the lower.
register 3 => 3
unregister 1 => 3
register 1 => 3

# Two writers of one GUID and one strength don't own; a stronger one does.
register 4 => 0
register 2 => 2
drop 2 => 0
drop 4 => 3

# A handle that names no matched writer changes nothing.
register 0 => 3
register 5 => 3
registered 0 => false
registered 5 => false

# A change is accepted if its writer would own. An unregister is not.
accepts 1 write => false
accepts 1 dispose => false
accepts 2 write => true
accepts 3 write => true
accepts 3 both => true
accepts 3 unregister => false

# The last one that unregisters leaves nobody; another one leaves it.
unregister 1 => 3
leaves 3 dispose => true
leaves 3 both => false
leaves 3 unregister => false
leaves 1 unregister => true
leaves 1 write => true
unregister 3 => 0
anybody => false
accepts 1 dispose => true
leaves 1 unregister => false

# What a change said of strength makes its writer the owner of each instance for which it is registered.
open 5.2 9.3 5.1 => 0
register 1 => 1
register 2 => 2
other 1 => 1
other 3 => 3
strength 1 10 => 1 1

# A change without a strength leaves it as it was.
register 1 => 1
register 2 => 1
other 1 => 1

# The newest strength counts, and of equals the smaller GUID owns still.
strength 1 9 => 1 1
strength 1 -1 => 2 3

# A change is judged by its own strength, where it has one.
accepts 1 write => false
accepts 1 write 10 => true
accepts 2 write => true
accepts 2 write -2 => false

# The strength of a handle that names no matched writer is nobody's.
strength 4 99 => 2 3
strength 0 99 => 2 3

# One that joins has the next handle, is as strong as it was announced, and owns once a change of it came.
open 5.2 => 0
register 1 => 1
join 9.3 => 1
registered 2 => false
accepts 2 write => true
register 2 => 2
strength 2 4 => 1 0

# Before the instance has a place for it, its change would register it all the same.
open 5.2 => 0
join_unseen 9.3 => 0
leaves 2 write => true
leaves 2 unregister => false
leaves 3 write => false
accepts 2 write => true
";

/// Owners of one instance and of another one, at a reader of EXCLUSIVE ownership.
#[derive(Drop)]
struct OwnedInstance {
    owners: Owners,
    others: Owners,
    strengths: Strengths,
    qos: ReaderQos,
    /// How many writers are matched, with those that joined.
    writers: usize,
}

fn matched(alloc: Global, operands: &str) -> Vec<MatchedWriter> {
    let mut writers = Vec::new(alloc);
    for word in operands.split(' ') {
        let (strength, octet) = word.split_once('.').unwrap_or((word, ""));
        let _ = writers.push(MatchedWriter {
            guid: Guid {
                prefix: GuidPrefix([1; 12]),
                entity: EntityId::writer([0, 0, octet.parse().unwrap_or(0)]),
            },
            strength: strength.parse().unwrap_or(0),
            lease: None,
        });
    }
    writers
}

fn qos_of(alloc: Global, operands: &str) -> ReaderQos {
    ReaderQos {
        ownership: OwnershipQos::Exclusive,
        reliability: ReliabilityQos::Reliable,
        history: HistoryQos::KeepAll,
        max_samples: None,
        max_instances: None,
        max_arrivals: ReaderConfig::USUAL_ARRIVALS,
        writers: Sequence::from_vec(matched(alloc, operands)),
    }
}

fn kind_of(word: &str) -> ChangeKind {
    match word {
        "write" => ChangeKind::Write,
        "dispose" => ChangeKind::Dispose,
        "both" => ChangeKind::DisposeUnregister,
        _ => ChangeKind::Unregister,
    }
}

fn change_by(alloc: Global, writer: Handle, kind: ChangeKind, strength: Option<i32>) -> Arrival {
    Arrival {
        writer,
        number: Sn::new(1),
        change: Change {
            kind,
            key: Key([0; 16]),
            value: Octets::from_vec(Vec::new(alloc)),
            source_timestamp: Moment::new(0),
            strength,
        },
        moment: Moment::new(0),
    }
}

impl OwnedInstance {
    fn open(alloc: Global, operands: &str) -> Option<OwnedInstance> {
        let qos = qos_of(alloc, operands);
        let writers = qos.writers.as_slice().len();
        let owners = Owners::open(alloc, writers).ok()?;
        let others = Owners::open(alloc, writers).ok()?;
        let mut strengths = Strengths::new(alloc);
        strengths.reserve(writers).ok()?;
        Some(OwnedInstance {
            owners,
            others,
            strengths,
            qos,
            writers,
        })
    }

    fn push_owner_of(&self, text: &mut String, owners: &Owners) {
        let number = match owners.owner(&self.qos, &self.strengths) {
            Some(writer) => writer.number(),
            None => 0,
        };
        show(text, &number);
    }

    fn push_owner(&self, text: &mut String) {
        self.push_owner_of(text, &self.owners);
    }

    /// A writer joins: the owners get a place for it, if so.
    fn join(&mut self, alloc: Global, operands: &str, is_widened: bool) -> Option<()> {
        let joined = *matched(alloc, operands).first()?;
        self.strengths.join(joined).ok()?;
        self.writers = self.writers.checked_add(1)?;
        self.strengths.reserve(self.writers).ok()?;
        if is_widened {
            self.owners.widen(Owners::open(alloc, self.writers).ok()?);
        }
        Some(())
    }

    fn set_strength(&mut self, text: &mut String, writer: Handle, strength: i32) {
        self.strengths.set_strength(writer, strength);
        self.push_owner(text);
        let _ = text.push_str(" ");
        self.push_owner_of(text, &self.others);
    }

    fn begin(&mut self, alloc: Global, text: &mut String, operands: &str) {
        if let Some(opened) = OwnedInstance::open(alloc, operands) {
            *self = opened;
            self.push_owner(text);
        }
    }

    fn enter(&mut self, text: &mut String, name: &str, writer: Handle) {
        match name {
            "register" => self.owners.register(writer),
            "unregister" => self.owners.unregister(writer),
            _ => self.owners.drop_writer(writer),
        }
        self.push_owner(text);
    }

    fn is_so(&self, name: &str, arrival: &Arrival) -> bool {
        match name {
            "registered" => self.owners.is_registered(arrival.writer),
            "anybody" => self.owners.has_writers(),
            "accepts" => self
                .owners
                .accepted(&self.qos, &self.strengths, arrival)
                .is_some(),
            _ => self.owners.would_have_writers(arrival, self.writers),
        }
    }

    /// Appends what is so, with a change that would come.
    fn push_look(&self, alloc: Global, text: &mut String, name: &str, words: Words<'_>) {
        let writer = Handle::new(number_of(words.first));
        let strength = words.third.parse().ok();
        let change = change_by(alloc, writer, kind_of(words.second), strength);
        show(text, &self.is_so(name, &change));
    }
}

impl Subject for OwnedInstance {
    fn answer(&mut self, alloc: Global, text: &mut String, name: &str, operands: &str) {
        let words = words_of(operands);
        let writer = Handle::new(number_of(words.first));
        match name {
            "open" => self.begin(alloc, text, operands),
            "register" | "unregister" | "drop" => self.enter(text, name, writer),
            "join" | "join_unseen" => {
                let _ = self.join(alloc, operands, name == "join");
                self.push_owner(text);
            }
            "other" => {
                self.others.register(writer);
                self.push_owner_of(text, &self.others);
            }
            "strength" => self.set_strength(text, writer, words.second.parse().unwrap_or(0)),
            _ => self.push_look(alloc, text, name, words),
        }
    }
}

#[test]
fn instances_are_owned(rt: HostRuntime) {
    let opened = OwnedInstance::open(rt.alloc(), "");
    assert!(rt; opened.is_some(), "no memory");
    if let Some(mut owned) = opened {
        expect_rows(&rt, rt.alloc(), &mut owned, OWNERS);
    }
}
