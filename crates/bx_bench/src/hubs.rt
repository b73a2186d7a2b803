//! Workloads of a hub, for one thread or several.
ghost use Rattle.std.specs.Prelude.{◌≡◌};
ghost use Rattle.bx_entry.specs.Placings.{by_remainder};

use crate::bodies::arrival;
use crate::load::{Load, Server};
use anyhow::{Result, anyhow};
use bx_advice::Config;
use bx_entry::{ByRemainder, Slot};
use bx_hub::{Hub, HubKind, Kind, OpenGate, Pass, Tick};
use bx_window::{EmptyWindow, LogId};
use std::alloc::Global;
use std::marker::Brand;
use std::sync::{Arc, Wait};
use std::thread::{Threads, join};

// Number of live sessions while `ticks` makes its ticks.
const IDLE: u64 = 65_536;

// A thread's access to a hub.
#[derive(Drop)]
struct Caller<'a, L: HubKind, H: Wait + Drop, R: Wait + Copy + Drop> {
    rt: R,
    hub: &'a Hub<L, H>,
    pass: Pass<L>,
}

impl<L: HubKind, H: Wait + Drop, R: Wait + Copy + Drop> Server for Caller<'_, L, H, R> {
    fn serve(&mut self, alloc: Global, body: String) -> Result<u64> {
        let posted = self
            .hub
            .post(&self.rt, alloc, &mut self.pass, arrival(body));
        let posted = posted.map_err(|_| anyhow!("not admitted"))?;
        let mut events = 0u64;
        for slot in posted.slots.into_vec() {
            if let Slot::Waiting(ticket) = slot {
                let (polled, _unfiled) = self
                    .hub
                    .poll_answer(&self.rt, alloc, &mut self.pass, ticket);
                let answer = polled.ok().flatten().ok_or(anyhow!("no answer"))?;
                events = events.saturating_add(answer.events.len() as u64);
            }
        }
        Ok(events)
    }
}

fn opens<L: HubKind, H: Wait + Drop, R: Wait>(
    rt: &R,
    alloc: Global,
    hub: &Hub<L, H>,
    thread: u64,
    load: Load,
) -> Result<()> {
    let pass = hub.pass();
    load.open(alloc, &mut Caller { rt, hub, pass }, thread)
}

// Runs the load of `thread`, and returns the number of events that its connects get. Returns `None`
// if memory runs out or the hub does not admit a request.
fn works<L: HubKind, H: Wait + Drop, R: Wait>(
    rt: &R,
    alloc: Global,
    hub: &Hub<L, H>,
    thread: u64,
    load: Load,
) -> Option<u64> {
    let pass = hub.pass();
    load.run(alloc, &mut Caller { rt, hub, pass }, thread).ok()
}

// Runs `load` in two threads, numbered `thread` and `thread + 1`. Returns the number of events that
// their connects get, or `None` if a thread fails.
fn two<
    L: HubKind<Placing: Send + Sync, Gate: Send + Sync> + Send + Sync,
    H: Wait + Drop + Send,
    R: Threads + Wait + Sync,
>(rt: &R, alloc: Global, hub: &Hub<L, H>, thread: u64, load: Load) -> Option<u64> {
    let next = thread.saturating_add(1);
    let (a, b) = join(
        rt,
        || works(rt, alloc, hub, thread, load),
        || works(rt, alloc, hub, next, load),
    );
    a?.checked_add(b?)
}

// Runs `load` in four threads. Returns the number of events that their connects get, or `None` if a
// thread fails.
fn four<
    L: HubKind<Placing: Send + Sync, Gate: Send + Sync> + Send + Sync,
    H: Wait + Drop + Send,
    R: Threads + Wait + Sync,
>(rt: &R, alloc: Global, hub: &Hub<L, H>, load: Load) -> Option<u64> {
    let (a, b) = join(
        rt,
        || two(rt, alloc, hub, 0, load),
        || two(rt, alloc, hub, 2, load),
    );
    a?.checked_add(b?)
}

// Opens the sessions of `threads` threads, and runs `load` in each thread. Returns the number of
// events that their connects get in all.
fn serve_load<
    L: HubKind<Placing: Send + Sync, Gate: Send + Sync> + Send + Sync,
    H: Wait + Drop + Send,
    R: Threads + Wait + Sync,
>(rt: &R, alloc: Global, hub: &Hub<L, H>, threads: u64, load: Load) -> Result<u64> {
    for thread in 0..threads {
        opens(rt, alloc, hub, thread, load)?;
    }
    let events = match threads {
        4 => four(rt, alloc, hub, load),
        2 => two(rt, alloc, hub, 0, load),
        _ => works(rt, alloc, hub, 0, load),
    };
    events.ok_or(anyhow!("not served"))
}

// Opens `IDLE` sessions and makes `count` ticks. Returns how often a shard lagged because memory
// ran out.
fn tick_idle<L: HubKind, H: Wait + Drop, R: Wait>(
    rt: &R,
    alloc: Global,
    hub: &Hub<L, H>,
    count: u64,
) -> Result<u64> {
    let idle = Load {
        rounds: 0,
        publishes: 0,
        sessions: IDLE - 1,
    };
    opens(rt, alloc, hub, 0, idle)?;
    let mut pass = hub.pass();
    let mut behind = 0u64;
    for _ in 0..count {
        let ticked = hub.tick(rt, alloc, &mut pass, Tick::new(0));
        let advanced = ticked.map_err(|_| anyhow!("no tick"))?.advanced;
        behind = behind.saturating_add(advanced.behind().memory as u64);
    }
    Ok(behind)
}

// What is measured with a new hub.
#[derive(Clone, Copy)]
enum Work {
    // The load of each thread, after the number of threads.
    Posts(u64, Load),
    // The number of ticks over `IDLE` sessions.
    Ticks(u64),
}

fn work_in_window<L: LogId + Send + Sync, R: Threads + Wait + Sync>(
    rt: &R,
    alloc: Global,
    opened: EmptyWindow,
    config: Config,
    placing: Arc<ByRemainder, Global>,
    work: Work,
) -> Result<u64>
    requires book { opened.seen.book ≡ L.book }
    requires config { config ≡ L.config }
    requires placing { by_remainder ≡ L.placing }
{
    let hub = Hub::<Kind<L, ByRemainder, OpenGate>, &R>::new(
        alloc, rt, opened, config, placing, OpenGate,
    )?;
    match work {
        Work::Posts(threads, load) => serve_load(rt, alloc, &hub, threads, load),
        Work::Ticks(count) => tick_idle(rt, alloc, &hub, count),
    }
}

// Performs `work` with a new hub of `shards` shards, and returns its result.
fn work_in_hub<R: Threads + Wait + Sync>(
    rt: &R,
    alloc: Global,
    shards: usize,
    work: Work,
) -> Result<usize> {
    let config = Config::new(shards, 30_000, 0, 10_000).ok_or(anyhow!("no configuration"))?;
    let placing = Arc::new(alloc, ByRemainder)?;
    let opened = EmptyWindow::new();
    let result = work_in_window::<Brand, _>(rt, alloc, opened, config, placing, work)?;
    Ok(result as usize)
}

/// Runs `load` in each of `threads` threads, and returns how many events their connects get in all.
///
/// `threads`: 1, 2 or 4.
///
/// # Errors
///
/// If `shards` is not 1 to 64, memory runs out, or the hub does not admit a request.
///
/// # Blocking
///
/// Waits for the threads, and locks what each call of the hub locks.
pub fn posts<R: Threads + Wait + Sync>(
    rt: &R,
    alloc: Global,
    threads: u64,
    shards: usize,
    load: Load,
) -> Result<usize> {
    work_in_hub(rt, alloc, shards, Work::Posts(threads, load))
}

/// Opens 65,536 sessions in 64 shards, and makes `count` ticks that close none.
///
/// Returns how often a shard lagged because memory ran out.
///
/// # Errors
///
/// If memory runs out, or the hub does not admit a request or a tick.
///
/// # Blocking
///
/// Locks what each call of the hub locks.
pub fn ticks<R: Threads + Wait + Sync>(rt: &R, alloc: Global, count: u64) -> Result<usize> {
    work_in_hub(rt, alloc, 64, Work::Ticks(count))
}
