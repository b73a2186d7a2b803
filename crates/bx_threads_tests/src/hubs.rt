//! New hubs, and the work that the threads of a test do with them.
ghost use Rattle.std.specs.Prelude.{◌≡◌};
ghost use Rattle.std.specs.Arc.{arc_value};

use crate::{bells, crowd, locks, rounds, threads};
use bx_advice::Config;
use bx_calls::{Stage, config_of};
use bx_entry::Placing;
use bx_hub::{Gate, Hub, Kind};
use bx_window::{EmptyWindow, LogId};
use std::alloc::Global;
use std::marker::Brand;
use std::process::Abort;
use std::sync::{Arc, Wait};
use std::test::*;
use std::thread::Threads;
use std::time::Clock;

/// What the threads of a test do with a new hub.
#[derive(Drop)]
pub enum Work<'a> {
    /// Eight threads publish, tick, sweep and receive.
    Crowd,
    /// Three threads: a call is stopped in a shard while two others call.
    Locks(locks::Scene<'a>),
    /// Two threads take turns: one waits for the other's event.
    Rounds(&'a rounds::Turns),
    /// Two threads publish and tick.
    Two,
    /// Three threads: the wake of a task is blocked while the others lock each shard.
    Wake(bells::Scene),
}

fn work_in_window<
    L: LogId + Send + Sync,
    R: Threads + Wait + Clock + Abort + Sync,
    P: Placing + Drop + Send + Sync,
    G: Gate + Drop + Send + Sync,
>(
    rt: &R,
    alloc: Global,
    opened: EmptyWindow,
    config: Config,
    placing: Arc<P, Global>,
    gate: G,
    work: &Work<'_>,
) -> Result<(), Fail>
    requires book { opened.seen.book ≡ L.book }
    requires config { config ≡ L.config }
    requires placing { P.place_of (arc_value placing) ≡ L.placing }
{
    let hub = Hub::<Kind<L, P, G>, &R>::new(alloc, rt, opened, config, placing, gate)?;
    let hub = Arc::new(alloc, hub)?;
    let stage = Stage { rt, alloc, hub };
    match work {
        Work::Crowd => crowd::run(&stage),
        Work::Locks(scene) => locks::run(&stage, scene),
        Work::Rounds(turns) => rounds::run(&stage, *turns),
        Work::Two => threads::run(&stage),
        Work::Wake(scene) => bells::run(&stage, scene),
    }
}

/// Performs `work` with a new hub of `shards` shards, and checks its results.
///
/// The shards call `gate` before and after they apply entries.
///
/// # Errors
///
/// [`Fail`] if `shards` is not 1 to 64, memory runs out, or a call fails unexpectedly.
pub fn work_in_hub<
    R: Threads + Wait + Clock + Abort + Sync,
    P: Placing + Drop + Send + Sync,
    G: Gate + Drop + Send + Sync,
>(rt: &R, alloc: Global, shards: usize, placing: P, gate: G, work: &Work<'_>) -> Result<(), Fail> {
    let config = config_of(shards).ok_or("no configuration")?;
    let placing = Arc::new(alloc, placing)?;
    let opened = EmptyWindow::new();
    work_in_window::<Brand, R, P, G>(rt, alloc, opened, config, placing, gate, work)
}
