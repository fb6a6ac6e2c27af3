//! Whether an entry ends the life of an instance.
//!
//! DDS 1.4, 2.2.2.5 (instance_state), 2.2.3 (HISTORY).

ghost use Rattle.std.specs.Prelude.{◌≡◌, List, true, All};
ghost use Rattle.std.specs.List.{list_any};
ghost use Rattle.dds_base.specs.declared.happening.Happening.{Happening};
ghost use Rattle.dds_base.specs.declared.happening.Happening.TheVariants.{Came};
ghost use Rattle.dds_base.specs.declared.key.Key.{Key};
ghost use Rattle.dds_base.specs.declared.qos.ReaderQos.{ReaderQos};
ghost use Rattle.dds_base.specs.Instance.{is_known};
ghost use Rattle.dds_base.specs.Life.{ends_life};
ghost use Rattle.dds_instances.specs.Table.{Stands, alive_of, happened_of, is_held, room_of};
ghost use Rattle.dds_cache.specs.Finding.{Holds};
ghost use Rattle.dds_cache.specs.Chains.{AreChainsOf};
ghost use Rattle.dds_cache.specs.Kept.{IsFresh, IsKept, IsSummary, is_any_here};
ghost use Rattle.dds_cache.specs.Sweeping.{stays_of};

use crate::arriving::is_accepted_write;
use crate::chains::Chains;
use crate::kept::{Kept, is_kept_after};
use crate::summary::Summary;
use crate::sweeping::is_still_live;
use dds_base::{Arrival, Key, ReaderQos};
use dds_instances::Instances;

/// Whether some sample of an instance is present. It goes along the chain of the instance.
fn is_any_present(
    instances: &Instances,
    qos: &ReaderQos,
    samples: &[Kept],
    chains: &Chains,
    key: Key,
) -> bool
    requires chains { AreChainsOf samples.now chains.now }
    ensures { (h : List Happening) → Stands qos.now instances.now h
        → All (IsKept qos.now h) samples.now
        → result ≡ is_any_here qos.now h key samples.now }
{
    let mut place = chains.first(key, false);
    while place < samples.len() {
        let kept = &samples[place];
        if kept.sample.key == key && is_still_live(instances, qos, kept) {
            return true;
        }
        place = chains.next(samples, key, place);
    }
    false
}

/// Whether a change, if it came, would end the life of its instance: it leaves nobody registered and no sample, and
/// none is present. The samples of the instance are looked through only where nobody would be registered.
pub fn is_end(
    instances: &Instances,
    qos: &ReaderQos,
    samples: &[Kept],
    summary: &Summary,
    arrival: &Arrival,
) -> bool
    requires counted { IsSummary samples.now summary.now }
    ensures { (h : List Happening) → Holds qos.now instances.now samples.now h
        → IsFresh h arrival.now.change.key
        → result ≡ ends_life qos.now arrival.now.change.key h (Came arrival.now) }
{
    if !instances.would_be_left(arrival) || instances.would_mark(qos, arrival) {
        return false;
    }
    if is_kept_after(qos.history, 0, false) && is_accepted_write(instances, qos, arrival) {
        return false;
    }
    !is_any_present(instances, qos, samples, &summary.chains, arrival.change.key)
}

/// Notes of which instances a sweep would leave some sample, and of no other.
pub fn hold_present(instances: &mut Instances, qos: &ReaderQos, samples: &[Kept])
    ensures same { (q : ReaderQos) (h : List Happening) → Stands q instances.old h → Stands q instances.new h }
    ensures held { (h : List Happening) (i : Key) → Stands qos.now instances.old h
        → is_known qos.now h i ≡ true
        → is_held instances.new i ≡ list_any (stays_of qos.now h i) samples.now }
    ensures room { room_of instances.new ≡ room_of instances.old }
    ensures alive { alive_of instances.new ≡ alive_of instances.old }
    ensures happened { happened_of instances.new ≡ happened_of instances.old }
{
    instances.hold_none();
    for kept in samples {
        if is_still_live(instances, qos, kept) {
            instances.hold(kept.sample.key);
        }
    }
}
