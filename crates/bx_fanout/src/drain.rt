ghost use Rattle.std.specs.Prelude.{◌≡◌, ◌+◌, List};
ghost use Rattle.bx_fanout.specs.HeldInputs.{Row};
ghost use Rattle.bx_fanout.specs.Draining.{CanDrain, Drained, Draining};
ghost use Rattle.bx_world.specs.Seen.{setup_of, world_of};

use crate::held_inputs::HeldInputs;
use bx_entry::Placing;
use bx_world::World;

/// Takes all filed answers, and assigns each to the held connect that waits for it, if any.
///
/// Every shard must be at the end of the list.
pub(crate) fn drain<P: Placing>(world: &mut World<P>, held: &mut HeldInputs)
    requires can { CanDrain (setup_of world.old) (world_of world.old) held.old }
    ensures drained { Drained (setup_of world.old) (world_of world.old) held.old (world_of world.new) held.new }
    ensures setup { setup_of world.new ≡ setup_of world.old }
{
    for shard in 0..world.shards() {
        drain_shard(world, shard, held);
    }
}

fn drain_shard<P: Placing>(world: &mut World<P>, shard: usize, held: &mut HeldInputs)
    ensures draining { (before : List Row) → Draining (setup_of world.old) before (world_of world.old) held.old shard
        → Draining (setup_of world.old) before (world_of world.new) held.new (shard + 1) }
    ensures list { (world_of world.new).list ≡ (world_of world.old).list }
    ensures applied { (world_of world.new).applied ≡ (world_of world.old).applied }
    ensures setup { setup_of world.new ≡ setup_of world.old }
{
    while let Some(filing) = world.take_any(shard) {
        held.answer(filing.connect, filing.answer);
    }
}
