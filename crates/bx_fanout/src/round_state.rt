ghost use Rattle.std.specs.Prelude.{ℕ, ◌≡◌, ◌+◌, ◌++◌, ◌≤◌, ◌<◌, ◌^◌, ◌⊎◌, [], ◌∷◌, false, length, slice_get, Some, IfOk, OnErr, OnOk};
ghost use Rattle.bx_fanout.specs.RoundStates.{AddsOuts, IsCalm, IsDone, IsConsistent};
ghost use Rattle.bx_fanout.specs.Stages.{is_collecting};
ghost use Rattle.std.specs.Arc.{arc_value};
ghost use Rattle.bx_entry.specs.Placings.{placed_by};
ghost use Rattle.bx_world.specs.Seen.{setup_of, world_of};

use crate::bring_in::bring_in;
use crate::current_input::CurrentInput;
use crate::give_out::give_out;
use crate::held_inputs::HeldInputs;
use crate::level::level;
use crate::out::Out;
use crate::pass_over::pass_over;
use crate::stage::Stage;
use crate::take_in::take_in;
use bx_advice::{Config, WorkerCount};
use bx_entry::{EntryKind, Input, Placing};
use bx_history::History;
use bx_shard::Gate;
use bx_world::World;
use std::alloc::{AllocError, Global};
use std::sync::Arc;
use std::thread::Threads;

/// The shards, the held connects and the last input of a round.
#[derive(Drop)]
pub(crate) struct RoundState<P: Placing> {
    pub(crate) world: World<P>,
    pub(crate) held: HeldInputs,
    pub(crate) stage: Stage,
    /// The number of inputs that were started, and so the number of the next one.
    pub(crate) intake: usize,
    pub(crate) inputs: History<Input>,
    pub(crate) added: History<Out>,
}

pub(crate) fn new_state<P: Placing + Drop>(
    alloc: Global,
    config: Config,
    placing: Arc<P>,
) -> Result<RoundState<P>, AllocError>
    ensures consistent { IfOk result (λ p. IsConsistent p) }
    ensures inputs { IfOk result (λ p. p.inputs ≡ []) }
    ensures added { IfOk result (λ p. p.added ≡ []) }
    ensures setup { IfOk result (λ p. setup_of p.world ≡ placed_by config config.shards (P.place_of (arc_value placing))) }
{
    Ok(RoundState {
        world: World::new(alloc, config, placing)?,
        held: HeldInputs::new(alloc),
        stage: Stage::Idle,
        intake: 0,
        inputs: History::new(),
        added: History::new(),
    })
}

/// Advances every shard to the end of the list, and completes or holds the last input.
///
/// On error, the next call continues.
pub(crate) fn finish<R: Threads + Sync, G: Gate + Sync, P: Placing + Send + Sync>(
    rt: &R,
    alloc: Global,
    gate: &G,
    workers: WorkerCount,
    state: &mut RoundState<P>,
) -> Result<(), AllocError>
    requires consistent { IsConsistent state.old }
    ensures consistent { IsConsistent state.new }
    ensures done { IfOk result (λ _. IsDone state.new) }
    ensures inputs { state.new.inputs ≡ state.old.inputs }
    ensures added { state.new.added ≡ state.old.added }
    ensures setup { setup_of state.new.world ≡ setup_of state.old.world }
{
    let workers = workers_for(&state.world, workers);
    let Some(mut current) = state.stage.take_collecting() else {
        return level(rt, alloc, gate, workers, &mut state.world);
    };
    match bring_in(
        rt,
        alloc,
        gate,
        workers,
        &mut state.world,
        &mut state.held,
        &mut current,
        &state.inputs,
        &state.added,
    ) {
        Ok(true) => {
            state.stage = Stage::Complete(current);
            Ok(())
        }
        Ok(false) => Ok(()),
        Err(fault) => {
            state.stage = Stage::Collecting(current);
            Err(fault)
        }
    }
}

/// The least number of deliveries for which it is worthwhile to start and join threads.
const SHARED_WORK: u64 = 1_024;

/// Returns one worker if fewer than `SHARED_WORK` deliveries are expected, and otherwise `workers`.
pub(crate) fn workers_for<P: Placing>(world: &World<P>, workers: WorkerCount) -> WorkerCount
    ensures { (result ≡ 1) ⊎ (result ≡ workers) }
{
    let end = world.entries();
    let mut work = 0u64;
    for place in (end - world.lacking())..end {
        work = work.saturating_add(expected(world, place));
        if work >= SHARED_WORK {
            return workers;
        }
    }
    WorkerCount::one()
}

// Estimates how many deliveries the entry at `place` needs. A publish needs one for each live
// session, a tick one for each session that it closes, and any other entry one. A tick may also
// answer held connects; these are usually few.
fn expected<P: Placing>(world: &World<P>, place: u64) -> u64 {
    match world.entry(place) {
        Some(entry) => match &entry.kind {
            EntryKind::Publish(_) => world.sessions() as u64,
            EntryKind::Tick(closed) => closed.len() as u64,
            _ => 1,
        },
        None => 0,
    }
}

/// Appends the outs of answered held connects, and then that of the complete input, to `outs`.
///
/// All answers to the last input must be collected. Removes these connects and this input from
/// `state`. On error, the next call continues.
pub(crate) fn add_outs<P: Placing>(
    alloc: Global,
    state: &mut RoundState<P>,
    outs: &mut Vec<Out>,
) -> Result<(), AllocError>
    requires consistent { IsConsistent state.old }
    requires done { is_collecting state.old.stage ≡ false }
    ensures consistent { IsConsistent state.new }
    ensures calm { IfOk result (λ _. IsCalm state.new) }
    ensures adds { AddsOuts state.old outs.old.items outs.new.items state.new }
    ensures inputs { state.new.inputs ≡ state.old.inputs }
{
    let count = outs.len();
    let given = give_out(alloc, &mut state.held, &mut state.stage, outs);
    state.added.append(&outs[count..]);
    given
}

/// Completes or holds the last input, and appends the outs of all inputs that it completes.
///
/// Advances the shards only if the last input needs one. On error, the next call continues.
pub(crate) fn settle<R: Threads + Sync, G: Gate + Sync, P: Placing + Send + Sync>(
    rt: &R,
    alloc: Global,
    gate: &G,
    workers: WorkerCount,
    state: &mut RoundState<P>,
    outs: &mut Vec<Out>,
) -> Result<(), AllocError>
    requires consistent { IsConsistent state.old }
    ensures consistent { IsConsistent state.new }
    ensures calm { IfOk result (λ _. IsCalm state.new) }
    ensures adds { AddsOuts state.old outs.old.items outs.new.items state.new }
    ensures inputs { state.new.inputs ≡ state.old.inputs }
{
    if !pass_over(alloc, state)? {
        finish(rt, alloc, gate, workers, state)?;
    }
    add_outs(alloc, state, outs)
}

/// Starts `input`: admits or rejects it. Completes it if it adds no entries to the list.
///
/// No answer to collect and no out to append may be left.
pub(crate) fn take_in_next<P: Placing>(
    alloc: Global,
    state: &mut RoundState<P>,
    input: &Input,
) -> Result<(), AllocError>
    requires consistent { IsConsistent state.old }
    requires calm { IsCalm state.old }
    requires few { length state.old.inputs < 2 ^ 62 }
    ensures consistent { IsConsistent state.new }
    ensures inputs { OnOk result (state.new.inputs ≡ state.old.inputs ++ input.now ∷ []) }
    ensures same { OnErr result (state.new.inputs ≡ state.old.inputs) }
    ensures added { state.new.added ≡ state.old.added }
    ensures setup { setup_of state.new.world ≡ setup_of state.old.world }
{
    let current = take_in(
        alloc,
        &mut state.world,
        state.intake,
        input,
        &state.held,
        &state.inputs,
        &state.added,
    )?;
    let stage = if current.first < state.world.entries() {
        Stage::Collecting(current)
    } else {
        Stage::Complete(current)
    };
    state.intake += 1;
    state.stage = stage;
    state.inputs.push(input);
    Ok(())
}
