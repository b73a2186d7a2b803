ghost use Rattle.std.specs.Prelude.{◌≡◌, ◌≤◌, length, map, IfOk, IfErr};
ghost use Rattle.std.specs.Arc.{arc_value};
ghost use Rattle.bx_reshard.specs.Redistribution.{AreAlike, AreApart, Redistributed};
ghost use Rattle.bx_reshard.specs.Making.{IsReady};
ghost use Rattle.bx_shard.specs.Seen.{state};

use crate::lending::lend_all;
use crate::making::{Room, copy_handle, finish};
use crate::moving::move_all;
use bx_advice::ShardCount;
use bx_entry::Placing;
use bx_shard::{Shard, Wakers};
use std::alloc::{AllocError, Global};
use std::sync::Arc;

/// Redistributes the sessions of `shards` among `count` new shards, by `placing`.
///
/// A session keeps its patterns, its held connect and its filed answers. Wakers are dropped, which
/// wakes their tasks. The new shards are shut if the first old one is.
///
/// All shards must have one configuration and one place, and share no session and no connect.
///
/// # Errors
///
/// `shards`, unchanged, if memory runs out.
pub fn redistribute<P: Placing + Drop>(
    alloc: Global,
    shards: Vec<Shard<P>>,
    count: ShardCount,
    placing: Arc<P>,
) -> Result<Vec<Shard<P>>, (Vec<Shard<P>>, AllocError)>
    requires some { 1 ≤ length shards.items }
    requires alike { AreAlike (map (state P.place_of) shards.items) }
    requires apart { AreApart (map (state P.place_of) shards.items) }
    ensures redistributed { IfOk result (λ new. Redistributed (P.place_of (arc_value placing)) count (map (state P.place_of) shards.items) (map (state P.place_of) new.items)) }
    ensures refused { IfErr result (λ e. e.0 ≡ shards) }
{
    match make_room(alloc, &shards, count, &placing) {
        Ok(room) => {
            let mut wakers = Wakers::new(alloc);
            Ok(move_in(room, shards, count, &*placing, &mut wakers))
        }
        Err(error) => Err((shards, error)),
    }
}

fn make_room<P: Placing + Drop>(
    alloc: Global,
    shards: &[Shard<P>],
    count: ShardCount,
    placing: &Arc<P>,
) -> Result<Room<P>, AllocError>
    requires some { 1 ≤ length shards.now }
    ensures { IfOk result (IsReady P.place_of (arc_value placing.now) count shards.now) }
{
    let first = &shards[0];
    let heirs = lend_all(alloc, first.sessions().config(), shards, &**placing, count)?;
    let handles = copy_handle(alloc, placing, count.get())?;
    let made = Vec::with_capacity(alloc, count.get())?;
    Ok(Room {
        heirs,
        handles,
        shards: made,
        place: first.place(),
        is_closed_to_wakers: first.is_closed_to_wakers(),
    })
}

fn move_in<P: Placing + Drop>(
    mut room: Room<P>,
    shards: Vec<Shard<P>>,
    count: ShardCount,
    placing: &P,
    wakers: &mut Wakers,
) -> Vec<Shard<P>>
    requires ready { IsReady P.place_of placing.now count shards.items room }
    requires alike { AreAlike (map (state P.place_of) shards.items) }
    requires apart { AreApart (map (state P.place_of) shards.items) }
    ensures { Redistributed (P.place_of placing.now) count (map (state P.place_of) shards.items) (map (state P.place_of) result.items) }
{
    move_all(&mut room.heirs, shards, placing, count, wakers);
    finish(room, count)
}
