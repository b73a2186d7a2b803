ghost use Rattle.std.specs.Prelude.{ℕ, ◌≡◌, ◌+◌, ◌-◌, ◌<◌, ◌≤◌, ◌++◌, List, drop, length, option_map, slice_get, true, IfSome};
ghost use Rattle.std.specs.Arc.{arc_value};
ghost use Rattle.std.specs.VecDeque.{deque_capacity, deque_len};
ghost use Rattle.bx_advice.specs.Limits.{greatest_length};
ghost use Rattle.bx_entry.specs.Registry.{count_live, entries, registry};
ghost use Rattle.bx_entry.specs.Placings.{placed_by};
ghost use Rattle.bx_entry.specs.declared.entry.Entry.{Entry};
ghost use Rattle.bx_world.specs.Refining.{IsApplication, StandFrom, StandWithin, WorldHolds, some_stands_at};
ghost use Rattle.bx_shard.specs.Props.{holds_props};

use crate::step::{Applied, Step, StepOut};
use bx_advice::{Config, ShardCount, WorkerCount};
use bx_entry::{AdmitFault, Admitted, Arrival, Entry, Input, Placing, Ticket};
use bx_history::History;
use bx_message::{Answer, Sequence};
use bx_registry::{Plan, Registry};
use bx_reshard::redistribute;
use bx_shard::{Gate, Shard, TakenAnswer, Wakers};
use std::alloc::{AllocError, Global};
use std::collections::VecDeque;
use std::sync::Arc;
use std::thread::Threads;

/// The server for one thread.
///
/// Each shard applies the entries of the list in order, at its own pace, and files answers, which
/// can then be taken. An entry is kept until every shard has applied it.
#[derive(Drop)]
pub struct World<P: Placing> {
    placing: Arc<P>,
    registry: Registry,
    /// The entries of the list from place `first` on.
    kept: VecDeque<Entry>,
    first: u64,
    shards: Vec<Shard<P>>,
    taken: History<u64>,
    ghost holds: { WorldHolds P.place_of (placed_by registry.config registry.shards (P.place_of (arc_value placing)))
        registry.list taken first kept.items shards.items } by { Prim.hlevel holds_props },
}

impl<P: Placing> World<P> {
    ghost use Rattle.std.specs.List.{list_any};
    ghost use Rattle.std.specs.Prelude.{◌⊎◌, ◌==◌, None, Some, false, count_by, nat_lt, replicate, Err, IfOk, IfErr, IfNone};
    ghost use Rattle.bx_entry.specs.Inputs.{refusal_of};
    ghost use Rattle.bx_entry.specs.Requests.{read_input};
    ghost use Rattle.bx_entry.specs.declared.input.Input.{Input};
    ghost use Rattle.bx_entry.specs.declared.input.Input.TheVariants.{Post, Tick};
    ghost use Rattle.bx_shard.specs.States.{takes_no_memory};
    ghost use Rattle.bx_entry.specs.declared.input.AdmitFault.TheVariants.{Refused};
    ghost use Rattle.bx_world.specs.declared.step.Step.TheVariants.{Admit, Apply, Take};
    ghost use Rattle.bx_world.specs.declared.step.StepOut.TheVariants.{Taken};
    ghost use Rattle.bx_world.specs.Outputs.{admission, application};
    ghost use Rattle.bx_registry.specs.Standings.{Continues};
    ghost use Rattle.bx_world.specs.Seen.{RanUpTo, Steps, setup_of, world_of};
    ghost use Rattle.bx_world.specs.Worlds.{IsPlanned, filed_under, new_world};

    /// Creates a world with an empty list and `config.shards` shards.
    ///
    /// `placing` chooses the shard of each session.
    pub fn new(alloc: Global, config: Config, placing: Arc<P>) -> Result<World<P>, AllocError>
    where
        P: Drop,
        ensures setup { IfOk result (λ w. setup_of w ≡ placed_by config config.shards (P.place_of (arc_value placing))) }
        ensures world { IfOk result (λ w. world_of w ≡ new_world (setup_of w)) }
    {
        let mut shards = Vec::with_capacity(alloc, config.shards)?;
        for index in 0..config.shards {
            let shard = Shard::new(alloc, index, config, placing.clone()?);
            shards.push(shard)?;
        }
        Ok(World {
            placing,
            registry: Registry::new(alloc, config)?,
            kept: VecDeque::new(alloc),
            first: 0,
            shards,
            taken: History::new(),
        })
    }

    /// Appends a request to the list, and returns how each of its messages is answered.
    ///
    /// # Errors
    ///
    /// The first of these that applies:
    ///
    /// - `Refused(NotJson)` to `Refused(Forbidden)`: the documents are not messages, or the
    ///   read-only listener forbids them.
    /// - `Refused(BadMoment)`: the moment is too large.
    /// - `Refused(Ended)`: the list would become too long.
    /// - `Memory`: memory ran out. This can come before other errors.
    pub fn admit(&mut self, alloc: Global, arrival: &Arrival) -> Result<Admitted, AdmitFault>
        ensures { Steps self.old (Admit (Post arrival.now)) (admission result) self.new }
    {
        let messages = arrival.read(alloc)?;
        let plan = self.registry.plan(
            alloc,
            &*self.placing,
            arrival.moment,
            arrival.nonce,
            &messages,
        )?;
        self.append(plan)
    }

    /// Appends a tick to the list, and returns its place.
    ///
    /// `moment`: milliseconds since the server started.
    ///
    /// # Errors
    ///
    /// `Refused(BadMoment)`, `Refused(Ended)` or `Memory`, as for [`admit`](Self::admit).
    pub fn admit_tick(&mut self, alloc: Global, moment: u64) -> Result<Admitted, AdmitFault>
        ensures step { Steps self.old (Admit (Tick moment)) (admission result) self.new }
        ensures refused { IfSome (refusal_of (length (world_of self.old).list) (read_input (Tick moment))) (λ refusal. result ≡ Err (Refused refusal)) }
    {
        let plan = self.registry.plan_tick(alloc, moment)?;
        self.append(plan)
    }

    // Commits `plan` and keeps its entries.
    fn append(&mut self, plan: Plan) -> Result<Admitted, AdmitFault>
        requires { Continues self.old.registry plan }
        ensures { (input : Input) → IsPlanned (setup_of self.old) (world_of self.old).list input plan
            → Steps self.old (Admit input) (admission result) self.new }
    {
        let Plan {
            batch,
            slots,
            elements,
            change,
        } = plan;
        self.kept.reserve(batch.entries.len())?;
        self.registry.commit(change, &elements);
        push_all(&mut self.kept, batch.entries);
        Ok(Admitted {
            first: batch.first,
            slots,
        })
    }

    /// Applies the next entry of the list to the shard with index `shard`.
    ///
    /// Only accepted handshakes, connects, subscriptions, publishes and riders need memory.
    pub fn apply(&mut self, alloc: Global, shard: usize) -> Applied
        ensures { Steps self.old (Apply shard) (application result) self.new }
    {
        let Some(next) = self.shards.get_mut(shard) else {
            return Applied::Level;
        };
        let place = next.place();
        let applied = apply_next(alloc, next, entry_at(&self.kept, self.first, place));
        drop_applied(&mut self.kept, &mut self.first, &self.shards, place);
        applied
    }

    /// Takes the answer filed under `ticket`, if any.
    ///
    /// After [`reshard`](Self::reshard), an earlier ticket may name the wrong shard.
    pub fn take(&mut self, ticket: Ticket) -> Option<Answer>
        ensures { Steps self.old (Take ticket) (Taken result) self.new }
    {
        let answer = self.shards.get_mut(ticket.shard)?.take(ticket)?;
        self.taken.push(&ticket.place);
        Some(answer)
    }

    /// Advances every shard to the end of the list.
    ///
    /// Returns how many shards still lack entries, because memory ran out. The `workers` share the
    /// shards and call `gate` as [`bring_up`](bx_shard::bring_up) of `bx_shard` describes.
    pub fn bring_up<R: Threads + Sync, G: Gate + Sync>(
        &mut self,
        rt: &R,
        alloc: Global,
        gate: &G,
        workers: WorkerCount,
    ) -> usize
    where
        P: Send + Sync,
        ensures list { (world_of self.new).list ≡ (world_of self.old).list }
        ensures taken { (world_of self.new).taken ≡ (world_of self.old).taken }
        ensures setup { setup_of self.new ≡ setup_of self.old }
        ensures all { length (world_of self.new).applied ≡ length (world_of self.old).applied }
        ensures onward { (k m n : ℕ) → slice_get (world_of self.old).applied k ≡ Some m
            → slice_get (world_of self.new).applied k ≡ Some n → m ≤ n }
        ensures within { (k n : ℕ) → slice_get (world_of self.new).applied k ≡ Some n
            → n ≤ length (world_of self.new).list }
        ensures stopped { (k n : ℕ) → (e : Entry) → slice_get (world_of self.new).applied k ≡ Some n
            → slice_get (entries (setup_of self.new).config (world_of self.new).list) n ≡ Some e
            → takes_no_memory e ≡ false }
        ensures count { result ≡ count_by (λ n. nat_lt n (length (world_of self.new).list)) (world_of self.new).applied }
    {
        let kept = self.kept.make_contiguous();
        let behind = bx_shard::bring_up(rt, alloc, gate, workers, &mut self.shards, kept);
        let first = self.first;
        drop_applied(&mut self.kept, &mut self.first, &self.shards, first);
        behind
    }

    /// Returns the number of shards.
    pub fn shards(&self) -> usize
        ensures { result ≡ (setup_of self.now).shards }
    {
        self.shards.len()
    }

    /// Returns the number of entries in the list.
    pub fn entries(&self) -> u64
        ensures { result ≡ length (world_of self.now).list }
    {
        self.registry.entries()
    }

    /// Returns the number of entries that the slowest shard has yet to apply.
    pub fn lacking(&self) -> u64
        ensures most { (k n : ℕ) → slice_get (world_of self.now).applied k ≡ Some n → length (world_of self.now).list ≤ n + result }
        ensures in_list { result ≤ length (world_of self.now).list }
        ensures some { list_any (λ n. n == length (world_of self.now).list - result) (world_of self.now).applied ≡ true }
    {
        self.kept.len() as u64
    }

    /// Returns the entry at `place`, if some shard has yet to apply it.
    pub fn entry(&self, place: u64) -> Option<&Entry>
        ensures some { IfSome result (λ e. slice_get (entries (setup_of self.now).config (world_of self.now).list) place ≡ Some e.now) }
        ensures none { IfNone result ((length (world_of self.now).list ≤ place)
            ⊎ ((k n : ℕ) → slice_get (world_of self.now).applied k ≡ Some n → place < n)) }
    {
        if place < self.first {
            return None;
        }
        entry_at(&self.kept, self.first, place)
    }

    /// Returns how many sessions are live.
    pub fn sessions(&self) -> usize
        ensures { result ≡ count_live (registry (setup_of self.now).config (world_of self.now).list).sessions }
    {
        self.registry.sessions()
    }

    /// Takes any one answer that the shard with index `shard` has filed.
    pub fn take_any(&mut self, shard: usize) -> Option<TakenAnswer>
        ensures some { IfSome result (λ f. Steps self.old (Take (record { place = f.connect; shard = shard })) (Taken (Some f.answer)) self.new) }
        ensures none { IfNone result (((place : ℕ) → filed_under (setup_of self.old) (world_of self.old) (record { place = place; shard = shard }) ≡ None)
            × (world_of self.new ≡ world_of self.old) × (setup_of self.new ≡ setup_of self.old)) }
    {
        let filing = self.shards.get_mut(shard)?.take_any()?;
        self.taken.push(&filing.connect);
        Some(filing)
    }

    /// Redistributes the sessions among `shards` shards, by `placing`.
    ///
    /// Every shard must have applied the whole list. Filed answers move with their sessions, so an
    /// earlier ticket may name the wrong shard.
    ///
    /// # Errors
    ///
    /// The unchanged world and `AllocError` if memory runs out.
    pub fn reshard(
        self,
        alloc: Global,
        shards: ShardCount,
        placing: Arc<P>,
    ) -> Result<World<P>, (World<P>, AllocError)>
    where
        P: Drop,
        requires level { (k n : ℕ) → slice_get (world_of self).applied k ≡ Some n → length (world_of self).list ≤ n }
        ensures world { IfOk result (λ w. world_of w ≡ record (world_of self) { applied = replicate shards (length (world_of self).list) }) }
        ensures setup { IfOk result (λ w. setup_of w ≡ record (setup_of self) { shards = shards; placing = P.place_of (arc_value placing) }) }
        ensures same { IfErr result (λ e. e.0 ≡ self) }
    {
        let own = match placing.clone() {
            Ok(own) => own,
            Err(error) => return Err((self, error)),
        };
        let World {
            placing: former,
            mut registry,
            kept,
            first,
            shards: row,
            taken,
        } = self;
        match redistribute(alloc, row, shards, own) {
            Ok(row) => {
                registry.reshard(shards);
                Ok(World {
                    placing,
                    registry,
                    kept,
                    first,
                    shards: row,
                    taken,
                })
            }
            Err((row, error)) => {
                let world = World {
                    placing: former,
                    registry,
                    kept,
                    first,
                    shards: row,
                    taken,
                };
                Err((world, error))
            }
        }
    }

    /// Runs `steps` in order, and appends the output of each to `outs`.
    ///
    /// # Errors
    ///
    /// The index of the first step that was not run, if memory runs out for its output.
    ///
    /// # Examples
    ///
    /// ```
    /// let config = Config::new(1, 30_000, 0, 10_000).ok_or("shards: 1 to 64")?;
    /// let mut world = World::new(alloc, config, Arc::new(alloc, ByRemainder)?)?;
    /// let steps = [
    ///  Step::Admit(Input::Tick(100)),
    ///  Step::Apply(0),
    ///  Step::Apply(0),
    /// ];
    /// let mut outs = Vec::new(alloc);
    /// world
    ///  .run_schedule(alloc, &steps, &mut outs)
    ///  .map_err(|_| "out of memory")?;
    /// assert!(rt; matches!(outs.get(1), Some(StepOut::Applied)));
    /// assert!(rt; matches!(outs.get(2), Some(StepOut::Level)));
    /// ```
    pub fn run_schedule(
        &mut self,
        alloc: Global,
        steps: &[Step],
        outs: &mut Vec<StepOut>,
    ) -> Result<(), usize>
        ensures { RanUpTo self.old steps.now outs.old.items outs.new.items self.new result }
    {
        for index in 0..steps.len() {
            if outs.reserve(1).is_err() {
                return Err(index);
            }
            let out = self.step(alloc, &steps[index]);
            outs.push_reserved(out);
        }
        Ok(())
    }

    /// Runs one step and returns its output.
    pub fn step(&mut self, alloc: Global, step: &Step) -> StepOut
        ensures { Steps self.old step.now result self.new }
    {
        match step {
            Step::Admit(Input::Post(arrival)) => {
                StepOut::of_admission(self.admit(alloc, arrival))
            }
            Step::Admit(Input::Tick(moment)) => {
                StepOut::of_admission(self.admit_tick(alloc, *moment))
            }
            Step::Apply(shard) => StepOut::of_application(self.apply(alloc, *shard)),
            Step::Take(ticket) => StepOut::Taken(self.take(*ticket)),
        }
    }
}

// Appends `entries` to `kept`, which has room for them.
fn push_all(kept: &mut VecDeque<Entry>, entries: Sequence<Entry>)
    requires { deque_len kept.old + length entries ≤ deque_capacity kept.old }
    ensures { kept.new.items ≡ kept.old.items ++ entries }
{
    for entry in entries.into_vec() {
        kept.push_back_reserved(entry);
    }
}

// Returns the entry at `place`, if it is in the list. `kept` has the entries from `first` on.
fn entry_at(kept: &VecDeque<Entry>, first: u64, place: u64) -> Option<&Entry>
    requires { first ≤ place }
    ensures { option_map (λ e. e.now) result ≡ slice_get kept.now.items (place - first) }
{
    kept.get((place - first) as usize)
}

// Applies `next`, the next entry of the list, to `shard`. A world registers no wakers, so the list
// of wakers stays empty.
fn apply_next<P: Placing>(alloc: Global, shard: &mut Shard<P>, next: Option<&Entry>) -> Applied
    requires next { IfSome next (λ e. e.now.place ≡ shard.old.place) }
    requires end { IfSome next (λ e. e.now.place < greatest_length) }
    ensures { (list : List Entry) → option_map (λ e. e.now) next.entry ≡ slice_get list shard.old.place
        → IsApplication P.place_of list shard.old result shard.new }
{
    let Some(entry) = next else {
        return Applied::Level;
    };
    let mut wakers = Wakers::new(alloc);
    match shard.apply(alloc, entry, &mut wakers) {
        Ok(()) => Applied::Done,
        Err(_) => Applied::Memory,
    }
}

// Drops the entries that all of `shards` have applied. `kept` has the entries from `first` on.
// `place`: the place of a shard before it advanced. If that is after `first`, another shard still
// needs the entry at `first`.
fn drop_applied<P: Placing>(
    kept: &mut VecDeque<Entry>,
    first: &mut u64,
    shards: &[Shard<P>],
    place: u64,
)
    requires first { StandFrom first.old shards.now }
    requires end { StandWithin (first.old + length kept.old.items) shards.now }
    requires some { 1 ≤ length shards.now }
    requires slowest { first.old < place → some_stands_at first.old shards.now ≡ true }
    ensures first { StandFrom first.new shards.now }
    ensures slowest { some_stands_at first.new shards.now ≡ true }
    ensures onward { first.old ≤ first.new }
    ensures kept { kept.new.items ≡ drop (first.new - first.old) kept.old.items }
{
    if place > *first {
        return;
    }
    if let Some(shard) = shards.first() {
        let least = least_place(shards, shard.place());
        kept.drain(..(least - *first) as usize);
        *first = least;
    }
}

fn least_place<P: Placing>(shards: &[Shard<P>], other: u64) -> u64
    ensures other { result ≤ other }
    ensures shards { StandFrom result shards.now }
    ensures same { some_stands_at other shards.now ≡ true → some_stands_at result shards.now ≡ true }
{
    let mut least = other;
    for shard in shards {
        least = least.min(shard.place());
    }
    least
}
