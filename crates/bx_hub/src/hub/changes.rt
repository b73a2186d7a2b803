//! Changes of a hub's shards that append no entries.
ghost use Rattle.std.specs.Prelude.{◌≡◌, ◌<◌, [], length, IfSome, is_some, nat_lt};
ghost use Rattle.bx_hub.specs.declared.shard_state.evidence.ShardChange.TheVariants as changes;

use crate::hub::Hub;
use crate::kind::HubKind;
use crate::shard_state::{ChangeEvidence, ShardChange};
use crate::walk::ChangeReport;
use std::sync::Wait;

impl<L: HubKind, R: Wait + Drop> Hub<L, R> {
    ghost use Rattle.bx_hub.specs.Changes.{AreAllChanged, IsChanged, IsKeptBy};

    /// Drops the answers that were filed by entries before place `before` and never taken.
    ///
    /// Returns evidence of that, with the number of dropped answers.
    ///
    /// # Blocking
    ///
    /// Locks each shard in turn.
    pub fn sweep<W: Wait>(&self, rt: &W, before: u64) -> ChangeReport<L>
        ensures { AreAllChanged L.config.shards (changes.Sweep before) result }
    {
        let mut all = ChangeReport::sweeping(before);
        self.change_all(rt, ShardChange::Sweep { before }, &mut all);
        all
    }

    /// Pauses a shard until [`resume`](Self::resume), and returns evidence of that.
    ///
    /// The window keeps the entries that the shard has yet to apply. A closed shard stays closed.
    ///
    /// # Blocking
    ///
    /// Locks the shard.
    pub fn pause<W: Wait>(&self, rt: &W, shard: usize) -> Option<ChangeEvidence<L>>
        ensures some { is_some result ≡ nat_lt shard L.config.shards }
        ensures changed { IfSome result (IsChanged shard changes.Pause) }
    {
        if shard >= self.shards.len() {
            return None;
        }
        Some(self.change(rt, shard, ShardChange::Pause))
    }

    /// Resumes a shard, and returns evidence of that.
    ///
    /// The next call that advances the shard applies what it lacks. A closed shard stays closed.
    ///
    /// # Blocking
    ///
    /// Locks the shard.
    pub fn resume<W: Wait>(&self, rt: &W, shard: usize) -> Option<ChangeEvidence<L>>
        ensures some { is_some result ≡ nat_lt shard L.config.shards }
        ensures changed { IfSome result (IsChanged shard changes.Resume) }
    {
        if shard >= self.shards.len() {
            return None;
        }
        Some(self.change(rt, shard, ShardChange::Resume))
    }

    /// Closes the hub: no entry is appended or applied any more.
    ///
    /// Filed answers can still be taken. Returns evidence that admission and all shards are closed.
    ///
    /// # Blocking
    ///
    /// Locks admission, then each shard in turn. Tasks with a held connect are woken under its
    /// lock.
    pub fn close<W: Wait>(&self, rt: &W) -> ChangeReport<L>
        ensures { AreAllChanged L.config.shards changes.Shut result }
    {
        let mut all = self.admission.lock(rt).close();
        self.change_all(rt, ShardChange::Shut, &mut all);
        all
    }

    fn change_all<W: Wait>(&self, rt: &W, change: ShardChange, all: &mut ChangeReport<L>)
        requires none { all.old.done ≡ [] }
        requires change { all.old.change.value ≡ change }
        ensures { AreAllChanged L.config.shards change all.new }
    {
        for index in 0..self.shards.len() {
            all.add(self.change(rt, index, change));
        }
    }

    fn change<W: Wait>(&self, rt: &W, index: usize, change: ShardChange) -> ChangeEvidence<L>
        requires { index < length self.now.shards.items }
        ensures changed { IsChanged index change result }
        ensures kept { IsKeptBy change result }
    {
        match self.lock_shard(rt, index) {
            Ok((mut shard_state, taken)) => {
                let changed = shard_state.change(change);
                changed.unlocked(taken.unlock(shard_state))
            }
            Err((other, taken)) => ChangeEvidence::misplaced(&*other, &index, change).unlocked(
                taken.unlock(other),
            ),
        }
    }
}
