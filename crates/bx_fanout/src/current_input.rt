ghost use Rattle.std.specs.Prelude.{◌≡◌, ◌+◌, ◌≤◌, [], IfOk, length};
ghost use Rattle.std.specs.VecDeque.{deque_capacity};
ghost use Rattle.bx_fanout.specs.CurrentInputs.{Collects, IsCollected, IsLevel, IsWhole, Keeps, Next, OthersStay, out_of, response_of};
ghost use Rattle.bx_world.specs.Seen.{setup_of, world_of};

use crate::items::add_items;
use crate::out::Out;
use bx_entry::{Placing, Refusal, Slot};
use bx_message::{Answer, Item, Sequence};
use bx_world::World;
use std::alloc::{AllocError, Global};
use std::collections::VecDeque;

/// The last input of a run, while its answers are collected.
#[derive(Drop)]
pub(crate) struct CurrentInput {
    /// Its number among all inputs of the round, from 0.
    pub(crate) number: usize,
    /// The length of the list before the input, and so the place of its first entry, if any.
    pub(crate) first: u64,
    pub(crate) refusal: Option<Refusal>,
    /// The first items of the response.
    pub(crate) items: Vec<Item>,
    /// Collected answers whose items are not in `items` yet, in order.
    pub(crate) answers: VecDeque<Answer>,
    /// How the messages without a collected answer are answered, in order.
    pub(crate) slots: VecDeque<Slot>,
}

impl CurrentInput {
    /// Collects the answers to the input's messages in order, up to the first missing one.
    ///
    /// Returns `true` if none is missing. Every shard must be at the list's end, and `answers` have
    /// room.
    pub(crate) fn collect<P: Placing>(&mut self, alloc: Global, world: &mut World<P>) -> bool
        requires room { length self.old.answers.items + length self.old.slots.items ≤ deque_capacity self.old.answers }
        requires level { IsLevel (world_of world.old) }
        requires so_far { IsCollected (setup_of world.old) (world_of world.old) self.old }
        ensures so_far { IsCollected (setup_of world.new) (world_of world.new) self.new }
        ensures setup { setup_of world.new ≡ setup_of world.old }
        ensures world { Keeps self.old.first (world_of world.old) (world_of world.new) }
        ensures collects { Collects self.old self.new }
        ensures whole { IsWhole (setup_of world.new).config (world_of world.new).list self.new result }
    {
        while !self.slots.is_empty() {
            let Some(answer) = next_answer(alloc, &mut self.slots, world) else {
                return false;
            };
            self.answers.push_back_reserved(answer);
        }
        true
    }

    /// Converts the collected answers to items.
    ///
    /// On error, some may be converted; the next call continues.
    pub(crate) fn write(&mut self) -> Result<(), AllocError>
        ensures items { response_of self.new ≡ response_of self.old }
        ensures all { IfOk result (λ _. self.new.answers.items ≡ []) }
        ensures others { OthersStay self.old self.new }
    {
        while let Some(answer) = self.answers.front() {
            self.items.reserve(answer.events.as_slice().len() + 1)?;
            if let Some(answer) = self.answers.pop_front() {
                add_items(&mut self.items, answer);
            }
        }
        Ok(())
    }

    /// Converts the input to its out, after [`write`](Self::write).
    pub(crate) fn into_out(self) -> Out
        requires { self.answers.items ≡ [] }
        ensures { result ≡ out_of self }
    {
        let CurrentInput {
            number,
            refusal,
            items,
            ..
        } = self;
        Out {
            input: number,
            result: match refusal {
                Some(refusal) => Err(refusal),
                None => Ok(Sequence::from_vec(items)),
            },
        }
    }
}

// Takes the answer to the first slot's message, and the slot, if the answer is there.
fn next_answer<P: Placing>(
    alloc: Global,
    slots: &mut VecDeque<Slot>,
    world: &mut World<P>,
) -> Option<Answer>
    ensures next { Next (setup_of world.old) (world_of world.old) slots.old.items slots.new.items (world_of world.new) result }
    ensures setup { setup_of world.new ≡ setup_of world.old }
{
    if let Some(Slot::Waiting(ticket)) = slots.front() {
        let answer = world.take(*ticket)?;
        slots.pop_front();
        return Some(answer);
    }
    match slots.pop_front() {
        Some(Slot::Ready(reply)) => Some(Answer {
            events: Sequence::new(alloc),
            reply,
        }),
        _ => None,
    }
}
