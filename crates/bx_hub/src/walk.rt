ghost use Rattle.std.specs.Prelude.{◌≡◌, ◌≤◌, ◌<◌, ◌⊎◌, ◌++◌, ◌∷◌, [], length, is_some, true, None, Some, IfSome, option_map, unwrap_or};
ghost use Rattle.std.specs.List.{All};
ghost use Rattle.std.proofs.Props.{props};
ghost use Rattle.bx_hub.specs.Lagging.{lagging_of};
ghost use Rattle.bx_hub.specs.Walks.{walked_at};
ghost use Rattle.bx_hub.specs.declared.shard_state.evidence.ShardChange.TheVariants as changes;

use crate::admission::Admission;
use crate::fault::{HubFault, Lagging};
use crate::shard_state::{ChangeEvidence, ShardAdvance, ShardChange};
use bx_history::History;
use bx_window::{Front, LogId};
use std::marker::PhantomData;
use std::snapshot::Snapshot;
use std::sync::Wait;

/// The result of advancing all shards to a front of the list, `prefix`.
///
/// It counts the shards that did not reach the end of `prefix`, and has the result of a shard with
/// the lowest position. The first shard to advance is `first`. After the last shard, shard 0
/// follows.
#[derive(Drop)]
pub struct AdvanceReport<L: LogId> {
    prefix: Snapshot<Front<L>>,
    first: usize,
    shards: usize,
    // Ghost: what stopped each shard, and its position, in the order of advancing.
    stays: History<Option<HubFault>>,
    places: History<u64>,
    behind: Lagging,
    lowest: Option<ShardAdvance<L>>,
    ghost of_all: { shards ≡ L.config.shards },
    ghost within: { first ≤ shards },
    ghost counted: { behind ≡ lagging_of stays },
    ghost placed: { length places ≡ length stays },
    ghost least: { All (λ p. unwrap_or (option_map (λ s. s.place) lowest) 0 ≤ p) places } by { Prim.hlevel props },
    ghost none: { lowest ≡ None → places ≡ [] },
}

impl<L: LogId> AdvanceReport<L> {
    ghost use Rattle.bx_hub.specs.Advancing.{IsAdvance, lowest_of};

    /// Creates the result before any of `shards` shards has advanced to `prefix`.
    ///
    /// The first shard is the length of the list modulo `shards`, so that threads that advance
    /// shards at the same time mostly start at different ones.
    pub(crate) fn new(prefix: &Front<L>, shards: usize) -> AdvanceReport<L>
        requires { shards ≡ L.config.shards }
        ensures { (result.prefix.value ≡ prefix.now) × (result.shards ≡ shards) × (result.stays ≡ []) × (result.lowest ≡ None) }
    {
        AdvanceReport {
            prefix: Snapshot::of(prefix),
            first: (prefix.len() as usize).checked_rem(shards).unwrap_or(0),
            shards,
            stays: History::new(),
            places: History::new(),
            behind: Lagging::none(),
            lowest: None,
        }
    }

    /// Returns the index of the shard to advance at `step`, counted from 0.
    pub(crate) fn index_at(&self, step: usize) -> usize
        requires { step < self.now.shards }
        ensures { (result ≡ walked_at self.now.first self.now.shards step) × (result < self.now.shards) }
    {
        let before_end = self.shards - self.first;
        if step < before_end {
            self.first + step
        } else {
            step - before_end
        }
    }

    pub(crate) fn add(&mut self, advanced: ShardAdvance<L>)
        requires next { advanced.index ≡ walked_at self.old.first self.old.shards (length self.old.stays) }
        requires advance { IsAdvance self.old.prefix.value advanced }
        requires lowest { IfSome self.old.lowest (IsAdvance self.old.prefix.value) }
        requires few { length self.old.stays < 18446744073709551615 }
        ensures added { self.new.stays ≡ self.old.stays ++ advanced.stays ∷ [] }
        ensures lowest { IfSome self.new.lowest (IsAdvance self.new.prefix.value) }
        ensures same { (self.new.prefix ≡ self.old.prefix) × (self.new.first ≡ self.old.first)
            × (self.new.shards ≡ self.old.shards) }
    {
        let stays = advanced.stays();
        self.stays.push(&stays);
        self.places.push(&advanced.place());
        self.lowest = Some(lower(self.lowest.take(), advanced));
        match stays {
            Some(fault) => self.behind = self.behind.with(fault),
            None => {}
        }
    }

    /// Returns how many shards did not reach the end, by what stopped them.
    pub fn behind(&self) -> Lagging
        ensures { result ≡ lagging_of self.now.stays }
    {
        self.behind
    }

    /// Returns the lowest position of a shard, or 0 if a shard was not found.
    pub(crate) fn lowest_place(&self) -> u64
        ensures lowest { result ≡ lowest_of self.now }
        ensures least { All (λ p. result ≤ p) self.now.places }
    {
        match &self.lowest {
            Some(lowest) => lowest.place(),
            None => 0,
        }
    }

    /// Returns the result of a shard with the lowest position, or `None` if no shard advanced.
    pub(crate) fn into_lowest(self) -> Option<ShardAdvance<L>>
        ensures lowest { result ≡ self.lowest }
        ensures some { 0 < length self.stays → is_some result ≡ true }
    {
        self.lowest
    }
}

// Returns the result with the lower position, `lowest` if the positions are equal.
fn lower<L: LogId>(lowest: Option<ShardAdvance<L>>, advanced: ShardAdvance<L>) -> ShardAdvance<L>
    ensures one { (result ≡ advanced) ⊎ (lowest ≡ Some result) }
    ensures least { (result.place ≤ advanced.place) × IfSome lowest (λ s. result.place ≤ s.place) }
{
    match lowest {
        Some(lowest) if lowest.place() <= advanced.place() => lowest,
        _ => advanced,
    }
}

/// Evidence that a change was applied to each shard in turn, or that a shard was not found.
///
/// For [`ShardChange::Shut`], admission was closed before.
#[derive(Drop)]
pub struct ChangeReport<L: LogId> {
    change: Snapshot<ShardChange>,
    done: History<ChangeEvidence<L>>,
    dropped: usize,
    of: PhantomData<L>,
}

impl<L: LogId> ChangeReport<L> {
    /// Creates evidence of a sweep before place `before`, with no shard swept yet.
    pub(crate) fn sweeping(before: u64) -> ChangeReport<L>
        ensures { (result.change.value ≡ changes.Sweep before) × (result.done ≡ []) × (result.dropped ≡ 0) }
    {
        ChangeReport {
            change: Snapshot::of(&ShardChange::Sweep { before }),
            done: History::new(),
            dropped: 0,
            of: PhantomData,
        }
    }

    /// Creates evidence that `admission` is closed, with no shard closed yet.
    pub(crate) fn shutting<R: Wait + Drop>(admission: &Admission<L, R>) -> ChangeReport<L>
        requires { admission.now.closed ≡ true }
        ensures { (result.change.value ≡ changes.Shut) × (result.done ≡ []) × (result.dropped ≡ 0) }
    {
        let _ = admission;
        ChangeReport {
            change: Snapshot::of(&ShardChange::Shut),
            done: History::new(),
            dropped: 0,
            of: PhantomData,
        }
    }

    /// Appends `changed`, the evidence for the next shard.
    pub(crate) fn add(&mut self, changed: ChangeEvidence<L>)
        requires next { changed.shard.value ≡ length self.old.done }
        requires change { changed.change.value ≡ self.old.change.value }
        ensures added { self.new.done ≡ self.old.done ++ changed ∷ [] }
        ensures same { self.new.change ≡ self.old.change }
    {
        self.done.push(&changed);
        self.dropped = self.dropped.saturating_add(changed.dropped());
    }

    /// Returns how many answers the change dropped.
    pub fn dropped(&self) -> usize
        ensures { result ≡ self.now.dropped }
    {
        self.dropped
    }
}
