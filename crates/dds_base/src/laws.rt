//! What holds of the definitions and the constants: functions that do nothing, and whose clauses are the laws.
//!
//! DDS 1.4, 2.2.2.5 (masks, handles), 2.2.3 (OWNERSHIP, policies that are requested and offered); RTPS 2.5, 9.3 (entity
//! kinds), clause 10 (SerializedPayload).

ghost use Rattle.std.specs.Prelude.{◌≡◌, ◌≢◌, ◌↔◌, ◌≤◌, ◌<◌, ◌+◌, ◌-◌, ◌*◌, ◌^◌, ◌∷◌, ◌&&◌, ◌||◌, ℕ, List, [], IsTrue, IsSome, Some, None, filter, length, map, nat_lt, not, replicate, slice_get, true, false};
ghost use Rattle.dds_base.specs.Access.{has_bit, sample_state_bit, view_state_bit, instance_state_bit, meets, handle_of, instance_of, lives_begun, not_read};
ghost use Rattle.dds_base.specs.Checked.{are_incompatible, asks_for_more, check_refusal, differ, is_longer, unknown_prefix};
ghost use Rattle.dds_base.specs.DatumText.{ReadsDatum, ReadsKey, IsDatum, spelling_of_datum, spelling_of_key};
ghost use Rattle.dds_base.specs.Happening.{arrivals};
ghost use Rattle.dds_base.specs.Instance.{disposed_generations, instance_state_of, introduces, is_known, known_instances, no_writers_generations};
ghost use Rattle.dds_base.specs.Life.{ends_life, is_life_over, last_marker};
ghost use Rattle.dds_base.specs.Matched.{of_reliable_readers};
ghost use Rattle.dds_base.specs.Offered.{offered, requested};
ghost use Rattle.dds_base.specs.Offers.{compared, ids_of, is_empty, offers_deadline, offers_destination_order, offers_durability, offers_latency_budget, offers_liveliness, offers_ownership, offers_presentation, offers_reliability, unfit_policies};
ghost use Rattle.dds_base.specs.Presence.{has_room, is_accepted, is_present, is_within, present_writes};
ghost use Rattle.dds_base.specs.Policies.{lasting, units_of};
ghost use Rattle.dds_base.specs.declared.config.ReaderConfig.{ReaderConfig as ReaderConfigOf};
ghost use Rattle.dds_base.specs.declared.config.PeerConfig.{PeerConfig};
ghost use Rattle.dds_base.specs.declared.config.WriterConfig.{WriterConfig};
ghost use Rattle.dds_base.specs.Liveliness.{alive_count, not_alive_count};
ghost use Rattle.dds_base.specs.Ownership.{AreOfMatched, IsMatched, IsOwner, HaveOwnGuids, joined_in, owner_of, outranks_all, precedence_of, registered_writers, writer_of, writers_of};
ghost use Rattle.dds_base.specs.StatusFlags.{turned_at};
ghost use Rattle.dds_base.specs.declared.datum.Datum.{Datum};
ghost use Rattle.dds_base.specs.declared.happening.Arrival.{Arrival};
ghost use Rattle.dds_base.specs.declared.happening.Happening.{Happening};
ghost use Rattle.dds_base.specs.declared.happening.Happening.TheVariants.{Came, Joined};
ghost use Rattle.dds_base.specs.declared.happening.SamplePosition.{SamplePosition};
ghost use Rattle.dds_base.specs.declared.key.Key.{Key};
ghost use Rattle.dds_base.specs.declared.policies.Policies.{Policies};
ghost use Rattle.dds_base.specs.declared.qos.MatchedWriter.{MatchedWriter};
ghost use Rattle.dds_base.specs.declared.qos.ReaderQos.{ReaderQos};
ghost use Rattle.dds_base.specs.declared.qos.ReliabilityQos.TheVariants.{BestEffort};
ghost use Rattle.dds_base.specs.declared.sample.InstanceState.TheVariants.{Alive, NotAliveDisposed, NotAliveNoWriters};
ghost use Rattle.dds_base.specs.declared.sample.SampleState.TheVariants.{Read as HasBeenRead, NotRead};
ghost use Rattle.dds_base.specs.declared.sample.ViewState.TheVariants.{New, NotNew};

use crate::config::ReaderConfig;
use crate::datum::MAX_VALUE;
use crate::guid::{EntityId, GuidPrefix};
use crate::handle::Handle;
use crate::mask::{InstanceStateMask, Masks, SampleStateMask, ViewStateMask};
use crate::unfit::UnfitPolicies;

/// Where somebody is registered for an instance there is an owner, there is only one, and the definition that computes
/// finds it. Acceptance under EXCLUSIVE asks for just that owner, among those registered before and the writer itself.
pub fn owner_is_found()
    // What the definition finds is an owner.
    ensures found { (q : ReaderQos) (h : List Happening) (ws : List ℕ) (w : ℕ)
        → owner_of q h ws ≡ Some w → IsOwner q h ws w }
    // There are no two owners.
    ensures only { (q : ReaderQos) (h : List Happening) (ws : List ℕ) (v w : ℕ)
        → IsOwner q h ws v → IsOwner q h ws w → v ≡ w }
    // Where somebody is registered for the instance an owner is found.
    ensures exists { (q : ReaderQos) (i : Key) (h : List Happening) → HaveOwnGuids q h
        → registered_writers q i h ≢ [] → IsSome (owner_of q h (registered_writers q i h)) }
    // A writer outranks all others exactly if it owns among them and itself.
    ensures among { (q : ReaderQos) (h : List Happening) (ws : List ℕ) (w : ℕ)
        → IsTrue (outranks_all q h ws w) ↔ IsOwner q h (w ∷ ws) w }
{}

/// A writer that joins has the next publication handle, and changes nothing that was. Until an entry names it, it is
/// registered for nothing, neither alive nor not alive, and as strong as it was announced.
///
/// RTPS 2.5, 8.4.10 (matched_writer_add); DDS 1.4, 2.2.3 (OWNERSHIP_STRENGTH, LIVELINESS).
pub fn a_newcomer_changes_nothing()
    // Where nobody joined, the matched writers are those of the opening.
    ensures opening { (q : ReaderQos) (h : List Happening) → joined_in h ≡ []
        → writers_of q h ≡ q.writers }
    // It has the next handle.
    ensures next { (q : ReaderQos) (h : List Happening) (m : MatchedWriter)
        → writer_of (writers_of q (Joined m ∷ h)) (length (writers_of q h) + 1) ≡ Some m }
    // All others keep theirs.
    ensures kept { (q : ReaderQos) (h : List Happening) (m : MatchedWriter) (w : ℕ) → IsMatched q h w
        → writer_of (writers_of q (Joined m ∷ h)) w ≡ writer_of (writers_of q h) w }
    // It is as strong as it was announced.
    ensures strength { (q : ReaderQos) (h : List Happening) (m : MatchedWriter) → AreOfMatched q h
        → precedence_of q (Joined m ∷ h) (length (writers_of q h) + 1)
        ≡ Some (record { strength = m.strength; guid = m.guid }) }
    // The same writers are registered for each instance.
    ensures registered { (q : ReaderQos) (i : Key) (h : List Happening) (m : MatchedWriter)
        → AreOfMatched q h → registered_writers q i (Joined m ∷ h) ≡ registered_writers q i h }
    // Each instance is in the state that it was in.
    ensures state { (q : ReaderQos) (i : Key) (h : List Happening) (m : MatchedWriter)
        → AreOfMatched q h → instance_state_of q i (Joined m ∷ h) ≡ instance_state_of q i h }
    // As many writers are alive.
    ensures alive { (q : ReaderQos) (h : List Happening) (m : MatchedWriter) → AreOfMatched q h
        → alive_count q (Joined m ∷ h) ≡ alive_count q h }
    // As many died and are not alive.
    ensures not_alive { (q : ReaderQos) (h : List Happening) (m : MatchedWriter) → AreOfMatched q h
        → not_alive_count q (Joined m ∷ h) ≡ not_alive_count q h }
    // LIVELINESS_CHANGED is not raised by it.
    ensures turned { (h : List Happening) (m : MatchedWriter) → turned_at (Joined m ∷ h) ≡ turned_at h }
{}

/// A value of `MAX_VALUE` octets has a written form, a longer one has none.
pub fn max_value_is_the_longest()
    ensures longest { (d : Datum)
        → IsDatum d ↔ (length d.key.0 ≡ 16) × (length d.value ≤ MAX_VALUE) }
{}

/// What is written is read as itself, and no bytes are read as two.
pub fn spelling_is_read()
    // No bytes are read as two data.
    ensures one_datum { (bytes : List ℕ) (d e : Datum) → ReadsDatum bytes d → ReadsDatum bytes e
        → d ≡ e }
    // No bytes are read as two keys.
    ensures one_key { (bytes : List ℕ) (k l : Key) → ReadsKey bytes k → ReadsKey bytes l → k ≡ l }
    // A datum that is written is read as itself.
    ensures datum { (d : Datum) → IsDatum d → ReadsDatum (spelling_of_datum d) d }
    // A key that is written is read as itself.
    ensures key { (k : Key) → length k.0 ≡ 16 → ReadsKey (spelling_of_key k) k }
{}

/// GUIDPREFIX_UNKNOWN and ENTITYID_UNKNOWN are zeros, and the kinds are those of a writer and of a reader with a key
/// (RTPS 2.5, 9.3).
pub fn unknown_names_are_zeros()
    // GUIDPREFIX_UNKNOWN is the prefix of twelve zeros.
    ensures prefix { GuidPrefix.UNKNOWN ≡ unknown_prefix }
    // ENTITYID_UNKNOWN is four zeros.
    ensures entity { EntityId.UNKNOWN ≡ record { 0 = replicate 4 0 } }
    // A writer with a key is of kind 0x02.
    ensures writer_kind { EntityId.WRITER_KIND ≡ 2 }
    // A reader with a key is of kind 0x07.
    ensures reader_kind { EntityId.READER_KIND ≡ 7 }
{}

/// Of an instance whose life is over nothing is left: it is unknown and has no handle, its counts begin anew, and none of
/// its samples is present. While an instance is known, its life is not over.
pub fn an_ended_life_leaves_nothing()
    // It is unknown.
    ensures unknown { (q : ReaderQos) (i : Key) (h : List Happening) (e : Happening) → ends_life q i h e ≡ true
        → instance_state_of q i (e ∷ h) ≡ None }
    // It has no handle.
    ensures handle { (q : ReaderQos) (i : Key) (h : List Happening) (e : Happening) → ends_life q i h e ≡ true
        → handle_of q (e ∷ h) i ≡ 0 }
    // Its rebirths after a dispose are forgotten.
    ensures disposed { (q : ReaderQos) (i : Key) (h : List Happening) (e : Happening) → ends_life q i h e ≡ true
        → disposed_generations q i (e ∷ h) ≡ 0 }
    // So are those after it had no writers.
    ensures no_writers { (q : ReaderQos) (i : Key) (h : List Happening) (e : Happening) → ends_life q i h e ≡ true
        → no_writers_generations q i (e ∷ h) ≡ 0 }
    // None of its samples is present.
    ensures absent { (q : ReaderQos) (i : Key) (h : List Happening) (e : Happening) → ends_life q i h e ≡ true
        → (j : ℕ) → 1 ≤ j → j ≤ length h + 1 → is_present q (e ∷ h) i j ≡ false }
    // The life of a known instance is not over.
    ensures goes_on { (q : ReaderQos) (i : Key) (h : List Happening) → is_known q h i ≡ true
        → is_life_over q h i (last_marker q i h) ≡ false }
{}

/// No handle is given to two lives: a known instance keeps its own, and that of a life that begins is greater than each
/// that was given before.
pub fn no_handle_is_given_again()
    // A known instance keeps its handle.
    ensures kept { (q : ReaderQos) (i : Key) (h : List Happening) (e : Happening) → is_known q h i ≡ true
        → is_known q (e ∷ h) i ≡ true → handle_of q (e ∷ h) i ≡ handle_of q h i }
    // No handle is greater than the number of lives that have begun.
    ensures given { (q : ReaderQos) (i : Key) (h : List Happening) → handle_of q h i ≤ lives_begun q h }
    // That of a life that begins is.
    ensures new { (q : ReaderQos) (i : Key) (h : List Happening) (e : Happening) → introduces q i h e ≡ true
        → is_known q (e ∷ h) i ≡ true → lives_begun q h < handle_of q (e ∷ h) i }
{}

/// How many changes a reader takes in its life is its policy. The usual number is the greatest that a count of samples
/// has, 2^31 - 1.
pub fn a_life_is_as_long_as_its_policy()
    // A reader of the usual number has room exactly where fewer than 2^31 - 1 changes came and the other limits hold.
    ensures usual { (q : ReaderQos) (h : List Happening) (e : Happening)
        → q.max_arrivals ≡ ReaderConfig.USUAL_ARRIVALS
        → has_room q h e ≡ (nat_lt (arrivals (e ∷ h)) (2 ^ 31 - 1)
        && (not (is_accepted q h e)
        || (is_within q.max_samples (present_writes q (e ∷ h))
        && is_within q.max_instances (length (known_instances q (e ∷ h)))))) }
    // Once as many came as its policy says, there is room for none.
    ensures over { (q : ReaderQos) (h : List Happening) (a : Arrival) → q.max_arrivals ≤ arrivals h
        → has_room q h (Came a) ≡ false }
    // Before, its policy refuses none.
    ensures before { (q : ReaderQos) (h : List Happening) (a : Arrival) → arrivals h < q.max_arrivals
        → has_room q h (Came a) ≡ (not (is_accepted q h (Came a))
        || (is_within q.max_samples (present_writes q (Came a ∷ h))
        && is_within q.max_instances (length (known_instances q (Came a ∷ h))))) }
{}

/// The policies of which a writer offers less than a reader asks for are those of the table, by their bits and by their
/// ids.
pub fn unfit_policies_are_those_not_offered()
    // There is none exactly where each is offered as it is asked for.
    ensures none { (w r : Policies) → is_empty (unfit_policies w r)
        ≡ (offers_durability w r && offers_presentation w r && offers_deadline w r
        && offers_latency_budget w r && offers_ownership w r && offers_liveliness w r
        && offers_reliability w r && offers_destination_order w r) }
    // The bit of DURABILITY says of it that it is not offered, and so for each.
    ensures durability { (w r : Policies) → has_bit (unfit_policies w r).0 UnfitPolicies.DURABILITY.0
        ≡ not (offers_durability w r) }
    // So does that of PRESENTATION.
    ensures presentation { (w r : Policies)
        → has_bit (unfit_policies w r).0 UnfitPolicies.PRESENTATION.0 ≡ not (offers_presentation w r) }
    // So does that of DEADLINE.
    ensures deadline { (w r : Policies) → has_bit (unfit_policies w r).0 UnfitPolicies.DEADLINE.0
        ≡ not (offers_deadline w r) }
    // So does that of LATENCY_BUDGET.
    ensures latency_budget { (w r : Policies)
        → has_bit (unfit_policies w r).0 UnfitPolicies.LATENCY_BUDGET.0
        ≡ not (offers_latency_budget w r) }
    // So does that of OWNERSHIP.
    ensures ownership { (w r : Policies) → has_bit (unfit_policies w r).0 UnfitPolicies.OWNERSHIP.0
        ≡ not (offers_ownership w r) }
    // So does that of LIVELINESS.
    ensures liveliness { (w r : Policies) → has_bit (unfit_policies w r).0 UnfitPolicies.LIVELINESS.0
        ≡ not (offers_liveliness w r) }
    // So does that of RELIABILITY.
    ensures reliability { (w r : Policies)
        → has_bit (unfit_policies w r).0 UnfitPolicies.RELIABILITY.0 ≡ not (offers_reliability w r) }
    // So does that of DESTINATION_ORDER.
    ensures destination_order { (w r : Policies)
        → has_bit (unfit_policies w r).0 UnfitPolicies.DESTINATION_ORDER.0
        ≡ not (offers_destination_order w r) }
    // The ids are those of the policies that are not offered, ascending.
    ensures ids { (w r : Policies) → ids_of (unfit_policies w r)
        ≡ map (λ c. c.id) (filter (λ c. not c.is_offered) (compared w r)) }
{}

/// A configuration that is taken matches a best-effort writer with best-effort readers alone. So at the opening it keeps
/// nothing, and waits for nobody.
///
/// DDS 1.4, 2.2.3 (RELIABILITY); RTPS 2.5, 8.4.9 (best-effort StatefulWriter).
pub fn a_best_effort_writer_has_no_reliable_reader()
    // Its topic has no reliable reader.
    ensures none { (peers : List PeerConfig) (i k : ℕ) (p : PeerConfig) (w : WriterConfig)
        → check_refusal peers ≡ None → slice_get peers i ≡ Some p → slice_get p.writers k ≡ Some w
        → w.reliability ≡ BestEffort
        → of_reliable_readers (λ peer q number r. r) w.topic 1 peers ≡ [] }
{}

/// What a configured writer offers fits what a configured reader asks for, but for OWNERSHIP, for RELIABILITY and for
/// the lease of LIVELINESS.
pub fn ends_fit_but_for_ownership_reliability_and_leases()
    // A matched pair does not fit exactly where its ownership differs, the reader is reliable and the writer is not, or
    // its lease or its values may be longer.
    ensures pair { (w : WriterConfig) (r : ReaderConfigOf) → are_incompatible r w
        ≡ (differ w.ownership r.ownership || (asks_for_more r.reliability w.reliability
        || (is_longer w.lease r.lease || nat_lt r.max_value w.max_value))) }
    // A lease below 2^31 - 1 seconds is offered and asked for as it stands.
    ensures lease { (units : ℕ) → units < 0x7fffffff * 2 ^ 32
        → units_of (lasting (Some units)) ≡ Some units }
    // Where both leases are, the policies that are compared decide, and how long values may be.
    ensures policies { (w : WriterConfig) (r : ReaderConfigOf) → units_of (lasting w.lease) ≡ w.lease
        → units_of (lasting r.lease) ≡ r.lease → are_incompatible r w
        ≡ (not (is_empty (unfit_policies (offered w) (requested r)))
        || nat_lt r.max_value w.max_value) }
{}

/// HANDLE_NIL, which has the number 0: the handle of no instance and of no matched writer, since they count from 1.
pub fn nil_is_no_handle() -> Handle
    // It has the number 0.
    ensures nil { result ≡ 0 }
    // No instance has it.
    ensures instance { (q : ReaderQos) (h : List Happening) → instance_of q h result ≡ None }
    // No matched writer has it.
    ensures writer { (q : ReaderQos) (h : List Happening) → IsMatched q h result → ⊥ }
{
    Handle::NIL
}

/// The bits of the constants are those of the states, and ANY asks for every state, and NOT_READ for what the
/// next-sample forms look for (DDS 1.4, 2.3.3, 2.2.2.5).
pub fn masks_ask_for_their_states()
    // READ is the bit of samples that were read.
    ensures read { SampleStateMask.READ.0 ≡ sample_state_bit HasBeenRead }
    // NOT_READ is the bit of samples that were not read.
    ensures not_read { SampleStateMask.NOT_READ.0 ≡ sample_state_bit NotRead }
    // ANY_SAMPLE_STATE is 0xffff.
    ensures any_sample_state { SampleStateMask.ANY.0 ≡ 65535 }
    // NEW is the bit of instances that are new.
    ensures new { ViewStateMask.NEW.0 ≡ view_state_bit New }
    // NOT_NEW is the bit of instances that are not new.
    ensures not_new { ViewStateMask.NOT_NEW.0 ≡ view_state_bit NotNew }
    // ANY_VIEW_STATE is 0xffff.
    ensures any_view_state { ViewStateMask.ANY.0 ≡ 65535 }
    // ALIVE is the bit of instances that are alive.
    ensures alive { InstanceStateMask.ALIVE.0 ≡ instance_state_bit Alive }
    // NOT_ALIVE_DISPOSED is the bit of instances that were disposed.
    ensures not_alive_disposed { InstanceStateMask.NOT_ALIVE_DISPOSED.0
        ≡ instance_state_bit NotAliveDisposed }
    // NOT_ALIVE_NO_WRITERS is the bit of instances without writers.
    ensures not_alive_no_writers { InstanceStateMask.NOT_ALIVE_NO_WRITERS.0
        ≡ instance_state_bit NotAliveNoWriters }
    // NOT_ALIVE has the bits of both.
    ensures not_alive { InstanceStateMask.NOT_ALIVE.0
        ≡ instance_state_bit NotAliveDisposed + instance_state_bit NotAliveNoWriters }
    // ANY_INSTANCE_STATE is 0xffff.
    ensures any_instance_state { InstanceStateMask.ANY.0 ≡ 65535 }
    // The masks that ask for every state have the ANY of each kind.
    ensures any { Masks.ANY ≡ record {
      samples = SampleStateMask.ANY;
      views = ViewStateMask.ANY;
      instances = InstanceStateMask.ANY;
    } }
    // Each sample of a known instance meets them.
    ensures every_sample { (q : ReaderQos) (h : List Happening) (s : SamplePosition)
        → IsSome (instance_state_of q s.key h) → meets q h Masks.ANY s ≡ true }
    // The masks of the next-sample forms are those of the definitions.
    ensures not_read_of_any { Masks.NOT_READ ≡ not_read }
{}
