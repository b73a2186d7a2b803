ghost use Rattle.std.specs.Prelude.{ℕ, ◌≡◌, ◌≤◌, [], ◌∷◌, length, map, slice_get, Some, if◌then◌else◌, IfOk, OnErr};
ghost use Rattle.bx_entry.specs.Requests.{read_input};
ghost use Rattle.bx_fanout.specs.CurrentInputs.{IsLevel, out_of};
ghost use Rattle.bx_fanout.specs.Stages.{IsTakenIn, IsGiving, seen_out};
ghost use Rattle.bx_world.specs.Seen.{setup_of, world_of};

use crate::current_input::CurrentInput;
use crate::drain::drain;
use crate::held_inputs::HeldInputs;
use crate::level::level;
use crate::out::Out;
use bx_advice::WorkerCount;
use bx_entry::{Input, Placing};
use bx_history::History;
use bx_shard::Gate;
use bx_world::World;
use std::alloc::{AllocError, Global};
use std::thread::Threads;

/// Advances every shard to the end of the list, and collects the answers to `current`.
///
/// Returns `true` if all of them are collected. Otherwise holds `current` and returns `false`. Then
/// assigns the other filed answers to the held connects that wait for them, and drops the rest. The
/// memory for this is allocated before the first shard advances.
///
/// On error, some shard still lacks entries, and no answer is collected.
pub(crate) fn bring_in<R: Threads + Sync, G: Gate + Sync, P: Placing + Send + Sync>(
    rt: &R,
    alloc: Global,
    gate: &G,
    workers: WorkerCount,
    world: &mut World<P>,
    held: &mut HeldInputs,
    current: &mut CurrentInput,
    inputs: &History<Input>,
    added: &History<Out>,
) -> Result<bool, AllocError>
    requires lags { ¬ IsLevel (world_of world.old) }
    requires intake { IsTakenIn (setup_of world.old) (map read_input inputs.now) (world_of world.old) held.old current.old (map seen_out added.now) }
    ensures giving { IfOk result (λ whole. IsGiving (setup_of world.new) (map read_input inputs.now) (world_of world.new) held.new
        (if whole then seen_out (out_of current.new) ∷ [] else []) (map seen_out added.now)) }
    ensures intake { OnErr result (IsTakenIn (setup_of world.new) (map read_input inputs.now) (world_of world.new) held.new current.new (map seen_out added.now)) }
    ensures lags { OnErr result (¬ IsLevel (world_of world.new)) }
    ensures level { IfOk result (λ _. IsLevel (world_of world.new)) }
    ensures within { IfOk result (λ _. (k n : ℕ) → slice_get (world_of world.new).applied k ≡ Some n → n ≤ length (world_of world.new).list) }
    ensures setup { setup_of world.new ≡ setup_of world.old }
{
    current.answers.reserve(current.slots.len())?;
    held.hold(current.first, current.number)?;
    if let Err(fault) = level(rt, alloc, gate, workers, world) {
        held.release();
        return Err(fault);
    }
    if current.collect(alloc, world) {
        held.release();
        drain(world, held);
        return Ok(true);
    }
    drain(world, held);
    Ok(false)
}
