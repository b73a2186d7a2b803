ghost use Rattle.std.specs.Prelude.{◌≡◌, ◌≤◌, ◌<◌, [], length, map, vec_capacity, IfOk};
ghost use Rattle.std.specs.Arc.{arc_value};
ghost use Rattle.std.specs.List.{All};
ghost use Rattle.bx_reshard.specs.Making.{AreHandlesOf, AreMadeWith};
ghost use Rattle.bx_shard.specs.Sessions.{Fits};

use crate::heirs::Heirs;
use bx_advice::ShardCount;
use bx_entry::Placing;
use bx_shard::Shard;
use std::alloc::{AllocError, Global};
use std::sync::Arc;

/// Everything that the new shards need, before anything moves into them.
///
/// `heirs` has room for all sessions and connects, and `shards` for all new shards. `place` and
/// `is_closed_to_wakers` are those of each new shard.
#[derive(Drop)]
pub(crate) struct Room<P> {
    pub(crate) heirs: Heirs,
    pub(crate) handles: Vec<Arc<P>>,
    pub(crate) shards: Vec<Shard<P>>,
    pub(crate) place: u64,
    pub(crate) is_closed_to_wakers: bool,
}

pub(crate) fn copy_handle<P: Drop>(
    alloc: Global,
    placing: &Arc<P>,
    count: usize,
) -> Result<Vec<Arc<P>>, AllocError>
    ensures many { IfOk result (λ handles. length handles.items ≡ count) }
    ensures same { IfOk result (λ handles. AreHandlesOf (arc_value placing.now) handles.items) }
{
    let mut handles = Vec::with_capacity(alloc, count)?;
    for index in 0..count {
        prove!(index < count);
        handles.push(placing.clone()?)?;
    }
    Ok(handles)
}

/// Makes the new shards, in order, from what is in `room`. Does not allocate.
pub(crate) fn finish<P: Placing + Drop>(room: Room<P>, count: ShardCount) -> Vec<Shard<P>>
    requires empty { room.shards.items ≡ [] }
    requires capacity { length room.heirs.shards.items ≤ vec_capacity room.shards }
    requires many { length room.handles.items ≡ length room.heirs.shards.items }
    requires fit { All (Fits room.place) room.heirs.shards.items }
    ensures sessions { map (λ s. s.sessions) result.items ≡ room.heirs.shards.items }
    ensures made { AreMadeWith room.handles.items count room.place room.is_closed_to_wakers result.items }
{
    let Room {
        heirs,
        mut handles,
        mut shards,
        place,
        is_closed_to_wakers,
    } = room;
    for sessions in heirs.shards {
        let Some(placing) = handles.pop() else {
            return shards;
        };
        let index = shards.len();
        let shard = Shard::resume(
            placing,
            index,
            count.get(),
            place,
            is_closed_to_wakers,
            sessions,
        );
        shards.push_reserved(shard);
    }
    shards
}
