ghost use Rattle.std.specs.Prelude.{◌≡◌, ◌<◌, ◌++◌, [], ◌∷◌, filter, length, map, IfOk, OnErr};
ghost use Rattle.bx_entry.specs.Requests.{read_input};
ghost use Rattle.bx_fanout.specs.CurrentInputs.{IsLevel};
ghost use Rattle.bx_fanout.specs.HeldInputs.{waits};
ghost use Rattle.bx_fanout.specs.Stages.{IsTakenIn, IsGiving, seen_out};
ghost use Rattle.bx_world.specs.Outputs.{admission};
ghost use Rattle.bx_world.specs.Seen.{Steps, setup_of, world_of};
ghost use Rattle.bx_world.specs.declared.step.Step.TheVariants.{Admit};

use crate::current_input::CurrentInput;
use crate::held_inputs::HeldInputs;
use crate::out::Out;
use bx_entry::{AdmitFault, Admitted, Input, Placing, Refusal, Slot};
use bx_history::History;
use bx_message::Sequence;
use bx_world::World;
use std::alloc::{AllocError, Global};
use std::collections::VecDeque;

/// Admits or rejects `input`, the next one of the round.
///
/// The outs of all complete inputs must be appended.
pub(crate) fn take_in<P: Placing>(
    alloc: Global,
    world: &mut World<P>,
    number: usize,
    input: &Input,
    held: &HeldInputs,
    inputs: &History<Input>,
    added: &History<Out>,
) -> Result<CurrentInput, AllocError>
    requires number { number ≡ length inputs.now }
    requires giving { IsGiving (setup_of world.old) (map read_input inputs.now) (world_of world.old) held.now [] (map seen_out added.now) }
    requires settled { held.now ≡ filter waits held.now }
    ensures intake { IfOk result (λ n. IsTakenIn (setup_of world.new) (map read_input (inputs.now ++ input.now ∷ [])) (world_of world.new) held.now n
        (map seen_out added.now)) }
    ensures lags { IfOk result (λ n. n.first < length (world_of world.new).list → ¬ IsLevel (world_of world.new)) }
    ensures same { OnErr result (world_of world.new ≡ world_of world.old) }
    ensures setup { setup_of world.new ≡ setup_of world.old }
{
    let end = world.entries();
    match admit(alloc, world, input) {
        Ok(Admitted { first, slots }) => Ok(current_of(alloc, number, first, None, slots)),
        Err(AdmitFault::Refused(refusal)) => Ok(current_of(
            alloc,
            number,
            end,
            Some(refusal),
            Sequence::new(alloc),
        )),
        Err(AdmitFault::Memory) => Err(AllocError),
    }
}

fn admit<P: Placing>(
    alloc: Global,
    world: &mut World<P>,
    input: &Input,
) -> Result<Admitted, AdmitFault>
    ensures { Steps world.old (Admit input.now) (admission result) world.new }
{
    match input {
        Input::Post(arrival) => world.admit(alloc, arrival),
        Input::Tick(moment) => world.admit_tick(alloc, *moment),
    }
}

fn current_of(
    alloc: Global,
    number: usize,
    first: u64,
    refusal: Option<Refusal>,
    slots: Sequence<Slot>,
) -> CurrentInput
    ensures number { result.number ≡ number }
    ensures first { result.first ≡ first }
    ensures refusal { result.refusal ≡ refusal }
    ensures items { result.items.items ≡ [] }
    ensures answers { result.answers.items ≡ [] }
    ensures slots { result.slots.items ≡ slots }
{
    CurrentInput {
        number,
        first,
        refusal,
        items: Vec::new(alloc),
        answers: VecDeque::new(alloc),
        slots: VecDeque::from_vec(slots.into_vec()),
    }
}
