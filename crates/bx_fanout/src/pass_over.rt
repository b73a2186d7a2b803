ghost use Rattle.std.specs.Prelude.{◌≡◌, IsTrue, false, IfOk};
ghost use Rattle.bx_fanout.specs.RoundStates.{IsCalm, IsSettled, IsConsistent};
ghost use Rattle.bx_fanout.specs.Stages.{is_collecting};
ghost use Rattle.bx_world.specs.Seen.{setup_of};

use crate::level::level;
use crate::ready::collect_ready;
use crate::round_state::{RoundState, workers_for};
use crate::stage::Stage;
use bx_advice::WorkerCount;
use bx_entry::Placing;
use bx_shard::Gate;
use std::alloc::{AllocError, Global};
use std::thread::Threads;

/// The most entries that the slowest shard may lack if an input is completed without the shards.
const DEFERRED_LIMIT: u64 = 1_024;

/// Completes the last input if it needs no shard. Returns `true` if none of its answers is left.
///
/// It needs no shard if no connect is held, the slowest shard lacks at most `DEFERRED_LIMIT`
/// entries, and all messages of the input are answered at once. Then no client waits for an answer
/// that a shard would file.
///
/// On error, the next call continues.
pub(crate) fn pass_over<P: Placing>(
    alloc: Global,
    state: &mut RoundState<P>,
) -> Result<bool, AllocError>
    requires consistent { IsConsistent state.old }
    ensures consistent { IsConsistent state.new }
    ensures done { IfOk result (λ done. IsTrue done → is_collecting state.new.stage ≡ false) }
    ensures inputs { state.new.inputs ≡ state.old.inputs }
    ensures added { state.new.added ≡ state.old.added }
    ensures setup { setup_of state.new.world ≡ setup_of state.old.world }
{
    let Some(mut current) = state.stage.take_collecting() else {
        return Ok(true);
    };
    if state.world.lacking() > DEFERRED_LIMIT || !state.held.is_empty() {
        state.stage = Stage::Collecting(current);
        return Ok(false);
    }
    match collect_ready(alloc, &mut current) {
        Ok(true) => {
            state.stage = Stage::Complete(current);
            Ok(true)
        }
        Ok(false) => {
            state.stage = Stage::Collecting(current);
            Ok(false)
        }
        Err(fault) => {
            state.stage = Stage::Collecting(current);
            Err(fault)
        }
    }
}

/// Advances every shard to the end of the list.
///
/// No answer to collect and no out to append may be left. On error, some shards lack entries.
pub(crate) fn catch_up<R: Threads + Sync, G: Gate + Sync, P: Placing + Send + Sync>(
    rt: &R,
    alloc: Global,
    gate: &G,
    workers: WorkerCount,
    state: &mut RoundState<P>,
) -> Result<(), AllocError>
    requires consistent { IsConsistent state.old }
    requires calm { IsCalm state.old }
    ensures consistent { IsConsistent state.new }
    ensures settled { IfOk result (λ _. IsSettled state.new) }
    ensures inputs { state.new.inputs ≡ state.old.inputs }
    ensures added { state.new.added ≡ state.old.added }
    ensures setup { setup_of state.new.world ≡ setup_of state.old.world }
{
    let workers = workers_for(&state.world, workers);
    level(rt, alloc, gate, workers, &mut state.world)
}
