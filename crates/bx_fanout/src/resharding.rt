ghost use Rattle.std.specs.Prelude.{◌≡◌, MatchResult, IfOk};
ghost use Rattle.std.specs.Arc.{arc_value};
ghost use Rattle.bx_fanout.specs.RoundStates.{IsDone, IsConsistent};
ghost use Rattle.bx_fanout.specs.Runs as runs;
ghost use Rattle.bx_world.specs.Seen.{setup_of};

use crate::round_state::RoundState;
use bx_advice::ShardCount;
use bx_entry::Placing;
use std::alloc::{AllocError, Global};
use std::sync::Arc;

/// Redistributes the sessions among `shards` shards, by `placing`.
///
/// Every shard must be at the end of the list, and all answers to the last input collected. On
/// error, returns the unchanged state.
pub(crate) fn redistribute<P: Placing + Drop>(
    alloc: Global,
    state: RoundState<P>,
    shards: ShardCount,
    placing: Arc<P>,
) -> Result<RoundState<P>, (RoundState<P>, AllocError)>
    requires consistent { IsConsistent state }
    requires done { IsDone state }
    ensures consistent { MatchResult result (λ p. IsConsistent p) (λ e. IsConsistent e.0) }
    ensures inputs { MatchResult result (λ p. p.inputs ≡ state.inputs) (λ e. e.0.inputs ≡ state.inputs) }
    ensures added { MatchResult result (λ p. p.added ≡ state.added) (λ e. e.0.added ≡ state.added) }
    ensures setup { MatchResult result
        (λ p. setup_of p.world ≡ record (setup_of state.world) { shards = shards; placing = P.place_of (arc_value placing) })
        (λ e. setup_of e.0.world ≡ setup_of state.world) }
    ensures level { IfOk result (λ p. runs.IsLevel p) }
{
    let RoundState {
        world,
        held,
        stage,
        intake,
        inputs,
        added,
    } = state;
    match world.reshard(alloc, shards, placing) {
        Ok(world) => Ok(RoundState {
            world,
            held,
            stage,
            intake,
            inputs,
            added,
        }),
        Err((world, error)) => {
            let state = RoundState {
                world,
                held,
                stage,
                intake,
                inputs,
                added,
            };
            Err((state, error))
        }
    }
}
