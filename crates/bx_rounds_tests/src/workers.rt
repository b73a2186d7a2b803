//! Tests of the gate that workers pass when they advance the shards of a world.
ghost use Rattle.bx_entry.specs.Placings.{all_first};

use crate::requests::request;
use crate::same::same;
use bx_advice::{Config, WorkerCount};
use bx_entry::{ByRemainder, Placing};
use bx_shard::Gate;
use bx_world::World;
use std::alloc::Global;
use std::sync::Arc;
use std::sync::atomic::{AtomicU64, Ordering};
use std::test::Fail;
use std::thread::Threads;

const HANDSHAKE: &str =
    r#"{"channel":"/meta/handshake","version":"1.0","supportedConnectionTypes":["long-polling"]}"#;

// Creates a world of `count` shards and admits a handshake. Advances the shards with `workers`
// workers, which pass `gate`, and returns the number of shards that do not reach the end.
fn brought_up<R: Threads + Sync, G: Gate + Sync, P: Placing + Drop + Send + Sync>(
    rt: &R,
    alloc: Global,
    placing: Arc<P>,
    gate: &G,
    (workers, count): (usize, usize),
) -> Result<usize, Fail> {
    let config = Config::new(count, 30_000, 0, 10_000).ok_or("no configuration")?;
    let workers = WorkerCount::new(workers).ok_or("no such number of workers")?;
    let mut world = World::new(alloc, config, placing)?;
    open(alloc, &mut world)?;
    Ok(world.bring_up(rt, alloc, gate, workers))
}

// Admits a handshake.
fn open<P: Placing + Drop>(alloc: Global, world: &mut World<P>) -> Result<(), Fail> {
    let arrival = request(alloc, HANDSHAKE)?;
    match world.admit(alloc, &arrival) {
        Ok(_) => Ok(()),
        Err(_) => Err(Fail::from("not admitted")),
    }
}

// A gate that counts the calls of `before` and of `after`, with one decimal digit for each worker.
#[derive(Drop)]
struct Counting {
    before: AtomicU64,
    after: AtomicU64,
}

impl Counting {
    fn new() -> Counting {
        Counting {
            before: AtomicU64::new(0),
            after: AtomicU64::new(0),
        }
    }

    fn counts(&self) -> (u64, u64) {
        let before = self.before.load(Ordering::SeqCst);
        (before, self.after.load(Ordering::SeqCst))
    }
}

fn digit(worker: usize) -> u64 {
    match worker {
        0 => 1,
        1 => 10,
        2 => 100,
        _ => 1_000,
    }
}

impl Gate for Counting {
    fn before(&self, worker: usize) {
        self.before.fetch_add(digit(worker), Ordering::SeqCst);
    }

    fn after(&self, worker: usize) {
        self.after.fetch_add(digit(worker), Ordering::SeqCst);
    }
}

// Checks that each worker with a part of the shards passes the gate once, which no clause states.
// All parts except the last have the same size.
#[test]
fn each_worker_passes_the_gate_once(rt: HostRuntime) -> Result<(), Fail> {
    let alloc = rt.alloc();
    for (workers, count, passed) in [(1, 5, 1), (2, 5, 11), (3, 5, 111), (2, 1, 1), (4, 6, 111)] {
        let (behind, counts) = passes(&rt, alloc, (workers, count))?;
        same(&rt, behind, 0, (workers, count));
        same(&rt, counts, (passed, passed), (workers, count));
    }
    Ok(())
}

// Brings up `count` shards with `workers` workers, and returns how many do not reach the end, and
// how often each worker passed the gate.
fn passes<R: Threads + Sync>(
    rt: &R,
    alloc: Global,
    (workers, count): (usize, usize),
) -> Result<(usize, (u64, u64)), Fail> {
    let gate = Counting::new();
    let placing = Arc::new(alloc, ByRemainder)?;
    let behind = brought_up(rt, alloc, placing, &gate, (workers, count))?;
    Ok((behind, gate.counts()))
}

// A placing of all sessions in the first shard. It counts its calls: one each time that a shard
// applies the opening of a session.
#[derive(Drop)]
struct Asked {
    times: AtomicU64,
}

impl Placing for Asked {
    ghost place_of = { λ _ number shards. all_first number shards };

    ghost is_below = { λ _ _ _ some _. some };

    fn place(&self, _number: u64, _shards: usize) -> usize {
        self.times.fetch_add(1, Ordering::SeqCst);
        0
    }
}

// A gate that records how often the placing was called until `before` and until `after` ran.
#[derive(Drop)]
struct Looking {
    placing: Arc<Asked>,
    counts: Counting,
}

impl Looking {
    fn look(&self, count: &AtomicU64) {
        count.store(self.placing.times.load(Ordering::SeqCst), Ordering::SeqCst);
    }
}

impl Gate for Looking {
    fn before(&self, _worker: usize) {
        self.look(&self.counts.before);
    }

    fn after(&self, _worker: usize) {
        self.look(&self.counts.after);
    }
}

// Checks that one shard applies a handshake, for which it calls the placing, between both calls of
// the gate.
#[test]
fn the_gate_is_passed_before_the_work_and_behind_it(rt: HostRuntime) -> Result<(), Fail> {
    let alloc = rt.alloc();
    let times = AtomicU64::new(0);
    let placing = Arc::new(alloc, Asked { times })?;
    let gate = Looking {
        placing: placing.clone()?,
        counts: Counting::new(),
    };
    brought_up(&rt, alloc, placing, &gate, (1, 1))?;
    let (before, after) = gate.counts.counts();
    same(&rt, after.saturating_sub(before), 1, "calls between");
    Ok(())
}
