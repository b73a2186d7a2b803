//! New hubs, and the work that tests do with them.
ghost use Rattle.std.specs.Prelude.{◌≡◌};
ghost use Rattle.std.specs.Arc.{arc_value};

use bx_advice::Config;
use bx_entry::{ByRemainder, Placing};
use bx_hub::{Gate, Hub, HubKind, Kind, OpenGate};
use bx_window::{EmptyWindow, LogId};
use std::alloc::{AllocError, Global};
use std::marker::Brand;
use std::sync::{Arc, Wait};

/// A new hub, and what each of its calls needs.
#[derive(Drop)]
pub struct Stage<L: HubKind, R: Wait + Drop> {
    pub rt: R,
    pub alloc: Global,
    pub hub: Arc<Hub<L, R>, Global>,
}

/// Work of one thread with a new hub of any kind.
pub trait HubWork<R: Wait + Drop>: Drop {
    /// The result of the work.
    type Value;
    /// Evidence that the work failed, or that memory ran out.
    type Fault: From<AllocError>;

    /// Performs the work with the hub of `stage`. The hub's list is empty.
    ///
    /// # Errors
    ///
    /// The fault of the work.
    fn work<L: HubKind>(self, stage: &Stage<L, R>) -> Result<Self::Value, Self::Fault>;
}

/// Creates the configuration of most tests: `shards` shards, and held connects of 30 seconds.
///
/// Returns `None` if `shards` is not 1 to 64.
pub fn config_of(shards: usize) -> Option<Config> {
    Config::new(shards, 30_000, 0, 10_000)
}

/// Performs `work` with a new hub that places sessions by remainder and stops no caller.
///
/// # Errors
///
/// The fault of the work, also if memory runs out for the hub.
pub fn work_in_open_hub<R: Wait + Copy + Drop, W: HubWork<R>>(
    rt: R,
    alloc: Global,
    config: Config,
    work: W,
) -> Result<W::Value, W::Fault> {
    work_in_hub(rt, alloc, config, ByRemainder, OpenGate, work)
}

/// Performs `work` with a new hub. Its shards call `gate` before and after they apply entries.
///
/// # Errors
///
/// The fault of the work, also if memory runs out for the hub.
pub fn work_in_hub<R: Wait + Copy + Drop, P: Placing + Drop, G: Gate + Drop, W: HubWork<R>>(
    rt: R,
    alloc: Global,
    config: Config,
    placing: P,
    gate: G,
    work: W,
) -> Result<W::Value, W::Fault> {
    let placing = Arc::new(alloc, placing).map_err(AllocError::from)?;
    let opened = EmptyWindow::new();
    work_in_window::<Brand, R, P, G, W>(rt, alloc, opened, config, placing, gate, work)
}

fn work_in_window<
    L: LogId,
    R: Wait + Copy + Drop,
    P: Placing + Drop,
    G: Gate + Drop,
    W: HubWork<R>,
>(
    rt: R,
    alloc: Global,
    opened: EmptyWindow,
    config: Config,
    placing: Arc<P, Global>,
    gate: G,
    work: W,
) -> Result<W::Value, W::Fault>
    requires book { opened.seen.book ≡ L.book }
    requires config { config ≡ L.config }
    requires placing { P.place_of (arc_value placing) ≡ L.placing }
{
    let hub = Hub::<Kind<L, P, G>, R>::new(alloc, rt, opened, config, placing, gate)?;
    let hub = Arc::new(alloc, hub).map_err(AllocError::from)?;
    work.work(&Stage { rt, alloc, hub })
}
