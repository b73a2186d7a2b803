ghost use Rattle.std.specs.Prelude.{◌≡◌, ◌≤◌, ◌<◌, ◌-◌, drop, false, IfOk};
ghost use Rattle.bx_advice.specs.Limits.{greatest_length};
ghost use Rattle.bx_shard.specs.Upward.{AreConsecutive, AreWithin, BroughtUp, IsWithin, WentOn, count_behind, end_of, first_of, is_behind};

use crate::gate::Gate;
use crate::shard::Shard;
use bx_advice::WorkerCount;
use bx_connects::Wakers;
use bx_entry::{Entry, Placing};
use std::alloc::{AllocError, Global};
use std::thread;
use std::thread::Threads;

/// Advances every shard to the end of `entries`, and returns how many shards do not reach it.
///
/// A shard stops at the first entry for which memory runs out. The tasks of answered connects are
/// woken once their shard has advanced.
///
/// Worker `w`, counted from 0, advances the `w`-th run of `ceil(shards / workers)` neighboring
/// shards, and calls `gate` before and after. A worker without shards does not call it. If no
/// thread can be started, the runs are advanced one after another.
// Prover: of the entry at which a shard stops, the contract says only that it may allocate.
pub fn bring_up<R: Threads + Sync, G: Gate + Sync, P: Placing + Send + Sync>(
    rt: &R,
    alloc: Global,
    gate: &G,
    workers: WorkerCount,
    shards: &mut [Shard<P>],
    entries: &[Entry],
) -> usize
    requires consecutive { AreConsecutive entries.now }
    requires end { end_of entries.now ≤ greatest_length }
    requires within { AreWithin entries.now shards.old }
    ensures brought { BroughtUp P.place_of entries.now shards.old shards.new }
    ensures count { result ≡ count_behind entries.now shards.new }
{
    let size = shards.len().div_ceil(workers.get()).max(1);
    thread::for_each_chunk_mut(
        rt,
        shards,
        size,
        &|start, part|
            requires { (0 < size) × AreConsecutive entries.now × (end_of entries.now ≤ greatest_length) × AreWithin entries.now part.now }
            ensures { BroughtUp P.place_of entries.entry.now part.entry.now part.exit.now }
        {
            let worker = start / size;
            gate.before(worker);
            catch_up_each(alloc, part, entries);
            gate.after(worker);
        },
    );
    shards
        .iter()
        .filter(|shard| is_behind(*shard, entries))
        .count()
}

// Advances each of `shards`, one after another, as far as memory allows.
fn catch_up_each<P: Placing>(alloc: Global, shards: &mut [Shard<P>], entries: &[Entry])
    requires consecutive { AreConsecutive entries.now }
    requires end { end_of entries.now ≤ greatest_length }
    requires within { AreWithin entries.now shards.old }
    ensures brought { BroughtUp P.place_of entries.now shards.old shards.new }
{
    for shard in shards {
        let _ = catch_up(alloc, shard, entries);
    }
}

// Applies the entries that `shard` has not applied yet. At the end, also on error, wakes the tasks
// of the answered connects.
fn catch_up<P: Placing>(
    alloc: Global,
    shard: &mut Shard<P>,
    entries: &[Entry],
) -> Result<(), AllocError>
    requires consecutive { AreConsecutive entries.now }
    requires end { end_of entries.now ≤ greatest_length }
    requires within { IsWithin entries.now shard.old }
    ensures went_on { WentOn P.place_of entries.now shard.old shard.new }
    ensures level { IfOk result (λ _. is_behind entries.now shard.new ≡ false) }
{
    let mut wakers = Wakers::new(alloc);
    for entry in lacking(shard, entries) {
        shard.apply(alloc, entry, &mut wakers)?;
    }
    Ok(())
}

fn lacking<'entries, P: Placing>(shard: &Shard<P>, entries: &'entries [Entry]) -> &'entries [Entry]
    requires { IsWithin entries.now shard.now }
    ensures { result.now ≡ drop (shard.now.place - first_of entries.now) entries.now }
{
    match entries.first() {
        Some(first) => &entries[(shard.place() - first.place) as usize..],
        None => entries,
    }
}

fn is_behind<P: Placing>(shard: &Shard<P>, entries: &[Entry]) -> bool
    requires { end_of entries.now ≤ greatest_length }
    ensures { result ≡ is_behind entries.now shard.now }
{
    match entries.first() {
        Some(first) => shard.place() < first.place + entries.len() as u64,
        None => false,
    }
}
