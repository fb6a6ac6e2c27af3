//! The answers to a reader that asks for changes.
//!
//! RTPS 2.5, 8.4.7 (ReaderProxy, requested_changes), 8.3.8 (AckNack, Data, Gap).

ghost use Rattle.std.specs.Prelude.{◌≡◌, ◌≤◌, ◌<◌, ◌+◌, ◌&&◌, [], ◌∷◌, nat_le, vec_len, vec_capacity, length};
ghost use Rattle.dds_base.specs.Kept.{WriterHistory, is_kept};
ghost use Rattle.dds_history.specs.Standing.{StandsFor as HistoryStandsFor};
ghost use Rattle.rtps_sets.specs.NumberSet.{span};
ghost use Rattle.rtps_writer.specs.Answers.{answer_before, answered_from, answers_to, requested};
ghost use Rattle.rtps_writer.specs.Gaps.{gap_after};

use dds_base::Sn;
use dds_history::History;
use rtps_sets::SnSet;

/// What a reader that asks for a change is answered.
///
/// RTPS 2.5, 8.3.8 (Data, Gap).
#[derive(Clone, Copy, Debug, PartialEq, Eq)]
pub enum Answer {
    /// The change of this number, which is kept.
    Data(Sn),
    /// The numbers from the first to the last, both of them too, are irrelevant: none is kept, and owed to the reader.
    Gap { first: Sn, last: Sn },
}

/// What a writer makes of an ACKNACK that it takes: what the reader has acknowledged with it, and what it is answered.
///
/// RTPS 2.5, 8.4.7 (ReaderProxy: acked_changes_set, requested_changes_set).
#[derive(Debug, Drop)]
pub struct Answered {
    /// The number below which the reader has acknowledged all, where that is greater than before.
    pub acknowledged: Option<Sn>,
    /// In the order of the numbers, at most 256.
    pub answers: Vec<Answer>,
}

/// The last number of the first answer, where that is a GAP that begins with the next number.
fn gap_after(answers: &[Answer], number: Sn) -> Option<Sn>
    ensures { result ≡ gap_after number answers.now }
{
    match answers.first() {
        Some(Answer::Gap { first, last })
            if number < *first && first.number() - number.number() == 1 => { Some(*last) }
        _ => None,
    }
}

/// Puts an answer before the others. There is room for one more.
fn put_first(answers: &mut Vec<Answer>, answer: Answer)
    requires { vec_len answers.old < vec_capacity answers.old }
    ensures items { answers.new.items ≡ answer ∷ answers.old.items }
    ensures len { vec_len answers.new ≡ vec_len answers.old + 1 }
    ensures capacity { vec_capacity answers.old ≤ vec_capacity answers.new }
{
    answers.insert(0, answer).unwrap();
}

/// Puts the answer for a number before those for greater ones. There is room for one more.
fn put_before(answers: &mut Vec<Answer>, number: Sn, is_kept: bool)
    requires { vec_len answers.old < vec_capacity answers.old }
    ensures items { answers.new.items ≡ answer_before is_kept number answers.old.items }
    ensures len { vec_len answers.new ≤ vec_len answers.old + 1 }
    ensures capacity { vec_capacity answers.old ≤ vec_capacity answers.new }
{
    if is_kept {
        put_first(answers, Answer::Data(number));
        return;
    }
    let (first, last) = (number, number);
    match gap_after(answers, number) {
        Some(last) => answers[0] = Answer::Gap { first, last },
        None => put_first(answers, Answer::Gap { first, last }),
    }
}

/// The number from which on an ACKNACK of this base is answered, of a reader that is owed the changes from a number on.
pub fn answered_from(owed: Sn, acknowledged: Sn, base: Sn) -> Sn
    ensures { result ≡ answered_from owed acknowledged base }
{
    if 1 < owed.number() && base < owed {
        base
    } else if acknowledged < base {
        base
    } else {
        acknowledged
    }
}

/// Whether a number is kept for a reader that is owed the changes from a number on.
fn has_for(history: &History, owed: Sn, number: Sn) -> bool
    ensures { (w : WriterHistory) → HistoryStandsFor history.now w
        → result ≡ (is_kept w number && nat_le owed number) }
{
    history.kept(number) && owed <= number
}

/// Whether the number lies from one number to another.
fn is_between(from: Sn, to: Sn, number: Sn) -> bool
    ensures { result ≡ (nat_le from number && nat_le number to) }
{
    from <= number && number <= to
}

/// Gives the answers for the members of a set from one number to the last, in their order, to a reader that is owed the
/// changes from a number on. There is room for them. It goes over the members alone.
pub fn put_answers(answers: &mut Vec<Answer>, history: &History, set: &SnSet, owed: Sn, from: Sn)
    requires none { answers.old.items ≡ [] }
    requires room { vec_len answers.old + span set.now.members ≤ vec_capacity answers.old }
    ensures { (w : WriterHistory) → HistoryStandsFor history.now w
        → answers.new.items
        ≡ answers_to (λ n. is_kept w n && nat_le owed n)
        (requested set.now from (length w.changes)) }
{
    let base = set.base().number();
    let last = history.last();
    let mut bits = set.bits();
    while bits > 0 {
        let place = bits - 1;
        bits = set.bits_below(place);
        let number = Sn::new(base.saturating_add(place as u64));
        if is_between(from, last, number) {
            put_before(answers, number, has_for(history, owed, number));
        }
    }
}
