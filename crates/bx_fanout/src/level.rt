ghost use Rattle.std.specs.Prelude.{ℕ, ◌≡◌, ◌≤◌, length, slice_get, IfOk, OnErr, Some};
ghost use Rattle.bx_fanout.specs.CurrentInputs.{IsLevel};
ghost use Rattle.bx_world.specs.Seen.{setup_of, world_of};

use bx_advice::WorkerCount;
use bx_entry::Placing;
use bx_shard::Gate;
use bx_world::World;
use std::alloc::{AllocError, Global};
use std::thread::Threads;

/// Advances every shard to the end of the list. On error, some shard still lacks entries.
pub(crate) fn level<R: Threads + Sync, G: Gate + Sync, P: Placing + Send + Sync>(
    rt: &R,
    alloc: Global,
    gate: &G,
    workers: WorkerCount,
    world: &mut World<P>,
) -> Result<(), AllocError>
    ensures level { IfOk result (λ _. IsLevel (world_of world.new)) }
    ensures lags { OnErr result (¬ IsLevel (world_of world.new)) }
    ensures within { (k n : ℕ) → slice_get (world_of world.new).applied k ≡ Some n → n ≤ length (world_of world.new).list }
    ensures list { (world_of world.new).list ≡ (world_of world.old).list }
    ensures taken { (world_of world.new).taken ≡ (world_of world.old).taken }
    ensures setup { setup_of world.new ≡ setup_of world.old }
{
    if world.bring_up(rt, alloc, gate, workers) > 0 {
        return Err(AllocError);
    }
    Ok(())
}
