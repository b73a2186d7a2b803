//! Evidence of what a call did to a shard's taken answers while the shard was locked.
ghost use Rattle.std.specs.Prelude.{◌≡◌};

use crate::shard_state::ShardState;
use bx_entry::Placing;
use bx_history::History;
use bx_window::LogId;
use std::sync::{Mutex, MutexGuard, Wait};

/// Ghost: the places of a shard's taken or swept answers when the shard was locked.
#[derive(Drop)]
pub(crate) struct TakenMark {
    places: History<u64>,
}

/// Ghost: the places of a shard's taken or swept answers when it was locked, and when unlocked.
#[derive(Drop)]
pub(crate) struct TakenEvidence {
    before: History<u64>,
    after: History<u64>,
}

pub(crate) type LockedShard<'a, L, P> = (MutexGuard<'a, ShardState<L, P>>, TakenMark);

impl TakenMark {
    pub(crate) fn lock<'a, L: LogId, P: Placing, W: Wait>(
        shard_state: &'a Mutex<ShardState<L, P>>,
        rt: &W,
    ) -> LockedShard<'a, L, P>
        ensures { result.1.places ≡ result.0.value.taken }
    {
        let shard_state = shard_state.lock(rt);
        let places = shard_state.taken.again();
        (shard_state, TakenMark { places })
    }

    pub(crate) fn unlock<L: LogId, P: Placing>(
        self,
        shard_state: MutexGuard<'_, ShardState<L, P>>,
    ) -> TakenEvidence
        ensures before { result.before ≡ self.places }
        ensures after { result.after ≡ shard_state.entry.value.taken }
    {
        let after = shard_state.taken.again();
        drop(shard_state);
        TakenEvidence {
            before: self.places,
            after,
        }
    }
}
