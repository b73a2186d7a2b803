ghost use Rattle.bx_fanout.specs.RoundStates.{IsConsistent};
ghost use Rattle.bx_fanout.specs.Runs.{Runs};
ghost use Rattle.std.specs.Prelude.{◌+◌, ◌≤◌, ◌^◌, length};

use crate::out::{Out, RoundFault};
use crate::pass_over::catch_up;
use crate::round_state::{RoundState, settle, take_in_next};
use bx_advice::WorkerCount;
use bx_entry::{Input, Placing};
use bx_shard::Gate;
use std::alloc::Global;
use std::thread::Threads;

/// Finishes the previous run, answers `inputs` in order, and then advances every shard.
///
/// The outs that an input completes are appended before the next input starts.
///
/// # Errors
///
/// `Memory`, with the number of `inputs` that were started. The next run continues.
pub(crate) fn run<R: Threads + Sync, G: Gate + Sync, P: Placing + Send + Sync>(
    rt: &R,
    alloc: Global,
    gate: &G,
    workers: WorkerCount,
    state: &mut RoundState<P>,
    inputs: &[Input],
    outs: &mut Vec<Out>,
) -> Result<(), RoundFault>
    requires consistent { IsConsistent state.old }
    requires few { length state.old.inputs + length inputs.now ≤ 2 ^ 62 }
    ensures consistent { IsConsistent state.new }
    ensures runs { Runs state.old inputs.now outs.old.items outs.new.items state.new result }
{
    if settle(rt, alloc, gate, workers, state, outs).is_err() {
        return Err(RoundFault::Memory { admitted: 0 });
    }
    for index in 0..inputs.len() {
        if take_in_next(alloc, state, &inputs[index]).is_err() {
            return Err(RoundFault::Memory { admitted: index });
        }
        if settle(rt, alloc, gate, workers, state, outs).is_err() {
            return Err(RoundFault::Memory {
                admitted: index + 1,
            });
        }
    }
    if catch_up(rt, alloc, gate, workers, state).is_err() {
        return Err(RoundFault::Memory {
            admitted: inputs.len(),
        });
    }
    Ok(())
}
