ghost use Rattle.std.specs.Prelude.{List, ◌≡◌, ◌↔◌, ◌+◌, ◌++◌, ◌≤◌, IsTrue, [], ◌∷◌, filter, is_none, if◌then◌else◌, length, vec_capacity, vec_len, IfOk, OnOk, OnErr, reverse};
ghost use Rattle.std.specs.List.{list_any};
ghost use Rattle.std.specs.Map.{remove_entry};
ghost use Rattle.std.specs.BTreeMap.{IsOrdered, get, is_at};
ghost use Rattle.std.specs.Ordering.{nat_cmp};
ghost use Rattle.bx_fanout.specs.HeldInputs.{AllBelow, Gives, LastWaits, Row, answered_at, answered_places, items_of, numbers, out_by, room_by, waits, waits_there};

use crate::items::add_items;
use crate::out::Out;
use bx_message::{Answer, Sequence};
use std::alloc::{AllocError, Global};
use std::collections::BTreeMap;
use std::marker::Model;

/// A connect that was held, until its input's out is appended.
#[derive(Drop)]
pub(crate) struct HeldInput {
    /// The number of its input among all inputs of the round, from 0.
    pub(crate) number: usize,
    /// `None` while the connect waits.
    pub(crate) answer: Option<Answer>,
}

/// The held connects of a round, by place, and the answers that have arrived for them.
///
/// Assigning an answer, or appending the outs of answered connects, scans no waiting connects.
#[derive(Drop)]
pub(crate) struct HeldInputs {
    held: BTreeMap<u64, HeldInput>,
    // The places of the answered connects, in any order, with room for those of all held connects.
    answered: Vec<u64>,
}

impl Model for HeldInputs {
    ghost use Rattle.std.specs.Prelude.{List, vec_capacity};
    ghost use Rattle.bx_fanout.specs.HeldInputs.{IsMarked, Row};

    ghost Value = { List Row };

    ghost view = { λ d. d.held.entries };

    ghost invariant = { λ d. IsMarked d.held.entries d.answered.items (vec_capacity d.answered) };
}

impl HeldInputs {
    pub(crate) fn new(alloc: Global) -> HeldInputs
        ensures { result ≡ [] }
    {
        HeldInputs {
            held: BTreeMap::new(alloc),
            answered: Vec::new(alloc),
        }
    }

    /// Adds the connect at `place`, after the places of all held connects.
    ///
    /// `number`: that of its input.
    pub(crate) fn hold(&mut self, place: u64, number: usize) -> Result<(), AllocError>
        requires { AllBelow place self.old }
        ensures ok { OnOk result (self.new ≡ self.old ++ (place, record { number = number; answer = None }) ∷ []) }
        ensures err { OnErr result (self.new ≡ self.old) }
    {
        self.answered.reserve(self.held.len() + 1)?;
        let held = HeldInput {
            number,
            answer: None,
        };
        self.held.insert(place, held)?;
        Ok(())
    }

    /// Removes the connect with the last place, which must have no answer.
    pub(crate) fn release(&mut self)
        requires { LastWaits self.old }
        ensures { (earlier : List Row) → (row : Row) → self.old ≡ earlier ++ row ∷ [] → self.new ≡ earlier }
    {
        self.held.pop_last();
    }

    /// Assigns `answer` to the connect that waits at `place`, if any.
    pub(crate) fn answer(&mut self, place: u64, answer: Answer)
        ensures { self.new ≡ answered_at place answer self.old }
    {
        if put(&mut self.held, place, answer) {
            self.answered.push_reserved(place);
        }
    }

    /// Removes the answered connects, and appends their outs in the order of their places.
    ///
    /// On error, some outs may be appended; the next call continues.
    pub(crate) fn give(&mut self, alloc: Global, outs: &mut Vec<Out>) -> Result<(), AllocError>
        ensures gives { Gives self.old outs.old.items outs.new.items self.new }
        ensures all { IfOk result (λ _. self.new ≡ filter waits self.old) }
    {
        self.answered.sort_unstable();
        self.answered.dedup();
        self.answered.reverse();
        give_from(alloc, &mut self.held, &mut self.answered, outs)
    }

    pub(crate) fn is_empty(&self) -> bool
        ensures { IsTrue result ↔ (self.now ≡ []) }
    {
        self.held.is_empty()
    }

    /// Returns the input numbers of the connects without an answer, in order.
    pub(crate) fn waiting(&self, alloc: Global) -> Result<Vec<usize>, AllocError>
        ensures { IfOk result (λ ns. ns.items ≡ numbers (filter waits self.now)) }
    {
        let mut numbers = Vec::new(alloc);
        for held in self.held.values() {
            if held.answer.is_none() {
                numbers.push(held.number)?;
            }
        }
        Ok(numbers)
    }
}

impl HeldInput {
    // Sets the answer and returns `true`, unless there is one already.
    fn put(&mut self, answer: Answer) -> bool
        ensures number { self.new.number ≡ self.old.number }
        ensures answer { self.new.answer ≡ (if is_none self.old.answer then Some answer else self.old.answer) }
        ensures waits { result ≡ is_none self.old.answer }
    {
        if self.answer.is_some() {
            return false;
        }
        self.answer = Some(answer);
        true
    }
}

// Sets the answer of the connect that waits at `place`, if any, and returns `true`.
fn put(held: &mut BTreeMap<u64, HeldInput>, place: u64, answer: Answer) -> bool
    requires { IsOrdered nat_cmp held.old }
    ensures put { held.new.entries ≡ answered_at place answer held.old.entries }
    ensures waits { result ≡ list_any (waits_there place) held.old.entries }
    ensures ordered { IsOrdered nat_cmp held.new }
{
    match held.get_mut(&place) {
        Some(held) => held.put(answer),
        None => false,
    }
}

// Removes answered connects in the order of their places, and appends their outs to `outs`.
//
// `answered`: their places, the lowest last. On error, connects without an out are still held.
fn give_from(
    alloc: Global,
    held: &mut BTreeMap<u64, HeldInput>,
    answered: &mut Vec<u64>,
    outs: &mut Vec<Out>,
) -> Result<(), AllocError>
    requires marked { answered.old.items ≡ reverse (answered_places held.old.entries) }
    requires ordered { IsOrdered nat_cmp held.old }
    ensures gives { Gives held.old.entries outs.old.items outs.new.items held.new.entries }
    ensures all { IfOk result (λ _. answered_places held.new.entries ≡ []) }
    ensures marked { answered.new.items ≡ reverse (answered_places held.new.entries) }
    ensures ordered { IsOrdered nat_cmp held.new }
    ensures fewer { vec_len answered.new ≤ vec_len answered.old }
    ensures capacity { vec_capacity answered.new ≡ vec_capacity answered.old }
{
    while let Some(place) = answered.last().copied() {
        outs.reserve(1)?;
        if let Some(out) = take_out(alloc, held, place)? {
            outs.push_reserved(out);
        }
        answered.pop();
    }
    Ok(())
}

// Removes the connect at `place`, unless it has no answer or memory runs out. Returns its out.
fn take_out(
    alloc: Global,
    held: &mut BTreeMap<u64, HeldInput>,
    place: u64,
) -> Result<Option<Out>, AllocError>
    ensures out { IfOk result (λ out. out ≡ out_by (get nat_cmp held.old place)) }
    ensures taken { IfOk result (λ _. held.new.entries ≡ remove_entry (is_at (nat_cmp place)) held.old.entries) }
    ensures same { OnErr result (held.new ≡ held.old) }
    ensures ordered { IsOrdered nat_cmp held.old → IsOrdered nat_cmp held.new }
{
    let mut items = Vec::with_capacity(alloc, room_at(held, place))?;
    let Some(HeldInput { number, answer }) = held.remove(&place) else {
        return Ok(None);
    };
    let Some(answer) = answer else {
        return Ok(None);
    };
    add_items(&mut items, answer);
    Ok(Some(Out {
        input: number,
        result: Ok(Sequence::from_vec(items)),
    }))
}

// Returns how many items the response to the connect at `place` has, or 0 without an answer.
fn room_at(held: &BTreeMap<u64, HeldInput>, place: u64) -> usize
    ensures { result ≡ room_by (get nat_cmp held.now place) }
{
    match held.get(&place) {
        Some(
            HeldInput {
                answer: Some(answer),
                ..
            },
        ) => answer.events.as_slice().len() + 1,
        _ => 0,
    }
}
