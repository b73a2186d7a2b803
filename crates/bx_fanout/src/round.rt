ghost use Rattle.bx_fanout.specs.RoundStates.{IsConsistent};
ghost use Rattle.bx_fanout.specs.Props.{consistent-prop};

use crate::out::{Out, RoundFault};
use crate::resharding::redistribute;
use crate::round_state::{RoundState, finish, new_state};
use crate::run::run;
use bx_advice::{Config, ShardCount, WorkerCount};
use bx_entry::{Input, Placing};
use bx_shard::{Gate, OpenGate};
use std::alloc::{AllocError, Global};
use std::sync::Arc;
use std::thread::Threads;

/// A server that answers inputs in order with many workers, as one thread would.
///
/// Inputs come in runs. An input starts when it is admitted or rejected. It is complete once all
/// its messages are answered; until then, its connect is held.
#[derive(Drop)]
pub struct Round<P: Placing> {
    state: RoundState<P>,
    workers: WorkerCount,
    ghost consistent: { IsConsistent state } by { consistent-prop state },
}

impl<P: Placing> Round<P> {
    ghost use Rattle.std.specs.Prelude.{◌≡◌, ◌≤◌, ◌+◌, ◌^◌, ◌⊎◌, [], false, true, length, IfOk, MatchResult};
    ghost use Rattle.std.specs.Arc.{arc_value};
    ghost use Rattle.bx_entry.specs.Runs as runs;
    ghost use Rattle.bx_fanout.specs.Rounds.{IsLevel, IsRun, added_by, inputs_of, is_collecting, setup_in, workers_in};
    ghost use Rattle.bx_fanout.specs.Runs.{AreHeldBefore};
    ghost use Rattle.bx_entry.specs.Placings.{placed_by};

    /// Creates a round without inputs.
    pub fn new(
        alloc: Global,
        config: Config,
        placing: Arc<P>,
        workers: WorkerCount,
    ) -> Result<Round<P>, AllocError>
    where
        P: Drop,
        ensures workers { IfOk result (λ r. workers_in r ≡ workers) }
        ensures inputs { IfOk result (λ r. inputs_of r ≡ []) }
        ensures added { IfOk result (λ r. added_by r ≡ []) }
        ensures setup { IfOk result (λ r. setup_in r ≡ placed_by config config.shards (P.place_of (arc_value placing))) }
    {
        let state = new_state(alloc, config, placing)?;
        Ok(Round { state, workers })
    }

    /// Answers `inputs` in order, and appends the outs of all inputs that become complete.
    ///
    /// Each input is completed or held before the next one starts. Outs that become ready together
    /// are appended in the order of their inputs.
    ///
    /// An input needs no shard if it adds no entries, or if no connect is held and all its messages
    /// are answered at once. All shards advance to the end of the list:
    ///
    /// - before any other input is completed or held,
    /// - when the slowest shard lacks more than 1,024 entries,
    /// - at the end of a run that succeeds.
    ///
    /// One worker advances all shards if fewer than 1,024 deliveries are expected. Each worker
    /// calls `gate` before and after it advances its shards.
    ///
    /// # Errors
    ///
    /// `Memory`, with the number of `inputs` that were started. The next run, even one without
    /// inputs, appends their remaining outs.
    ///
    /// # Examples
    ///
    /// ```
    /// let workers = WorkerCount::new(2).ok_or("workers: 1 to 16")?;
    /// let mut round = Round::new(alloc, config, placing, workers)?;
    /// let arrival = Arrival {
    ///  moment: 0,
    ///  nonce: 0,
    ///  access: Access::ReadWrite,
    ///  bodies: Bodies::Whole(br#"{"channel":"/meta/ping"}"#.to_vec(alloc)?),
    /// };
    /// let inputs = [Input::Post(arrival), Input::Tick(100)];
    /// let mut outs = Vec::new(alloc);
    /// round
    ///  .run(&rt, alloc, &OpenGate, &inputs, &mut outs)
    ///  .map_err(|_| "out of memory")?;
    /// assert_eq!(rt; outs.len(), 2);
    /// ```
    pub fn run<R: Threads + Sync, G: Gate + Sync>(
        &mut self,
        rt: &R,
        alloc: Global,
        gate: &G,
        inputs: &[Input],
        outs: &mut Vec<Out>,
    ) -> Result<(), RoundFault>
    where
        P: Send + Sync,
        requires few { length (inputs_of self.old) + length inputs.now ≤ 2 ^ 62 }
        ensures run { IsRun self.old inputs.now outs.old.items outs.new.items self.new result }
        ensures workers { workers_in self.new ≡ workers_in self.old }
    {
        run(rt, alloc, gate, self.workers, &mut self.state, inputs, outs)
    }

    /// Redistributes the sessions among `shards` shards, by `placing`.
    ///
    /// First, the calling thread advances every shard to the end of the list, without a gate, and
    /// collects the answers that are left. The next run appends their outs.
    ///
    /// # Errors
    ///
    /// The round, with the shards and the placing that it had, if memory runs out.
    pub fn reshard<R: Threads + Sync>(
        self,
        rt: &R,
        alloc: Global,
        shards: ShardCount,
        placing: Arc<P>,
    ) -> Result<Round<P>, (Round<P>, AllocError)>
    where
        P: Send + Sync + Drop,
        ensures inputs { MatchResult result (λ r. inputs_of r ≡ inputs_of self) (λ e. inputs_of e.0 ≡ inputs_of self) }
        ensures added { MatchResult result (λ r. added_by r ≡ added_by self) (λ e. added_by e.0 ≡ added_by self) }
        ensures setup { MatchResult result
            (λ r. setup_in r ≡ record (setup_in self) { shards = shards; placing = P.place_of (arc_value placing) })
            (λ e. setup_in e.0 ≡ setup_in self) }
        ensures workers { MatchResult result (λ r. workers_in r ≡ workers_in self) (λ e. workers_in e.0 ≡ workers_in self) }
        ensures level { IfOk result (λ r. IsLevel r) }
    {
        let Round { mut state, workers } = self;
        if let Err(error) = finish(rt, alloc, &OpenGate, WorkerCount::one(), &mut state) {
            return Err((Round { state, workers }, error));
        }
        match redistribute(alloc, state, shards, placing) {
            Ok(state) => Ok(Round { state, workers }),
            Err((state, error)) => Err((Round { state, workers }, error)),
        }
    }

    /// Returns how many inputs were started in all runs.
    pub fn started_inputs(&self) -> usize
        ensures { result ≡ length (inputs_of self.now) }
    {
        self.state.intake
    }

    /// Returns the numbers of the incomplete inputs, in ascending order.
    ///
    /// If memory ran out before all answers to the last input were collected, these are the inputs
    /// that were incomplete before it, and the last input.
    pub fn held(&self, alloc: Global) -> Result<Vec<usize>, AllocError>
        ensures held { IfOk result (λ numbers. IsLevel self.now ⊎ (is_collecting self.now ≡ false)
            → numbers.items ≡ runs.held (setup_in self.now).config (inputs_of self.now)) }
        ensures collecting { IfOk result (λ numbers. is_collecting self.now ≡ true
            → AreHeldBefore (setup_in self.now).config (inputs_of self.now) numbers.items) }
        ensures settled { IfOk result (λ numbers. added_by self.now ≡ runs.outs (setup_in self.now).config (inputs_of self.now)
            → numbers.items ≡ runs.held (setup_in self.now).config (inputs_of self.now)) }
    {
        let mut numbers = self.state.held.waiting(alloc)?;
        if let Some(current) = self.state.stage.collecting() {
            numbers.push(current.number)?;
        }
        Ok(numbers)
    }
}
