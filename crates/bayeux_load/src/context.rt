use crate::fault::Fault;
use bx_load::LoadSettings;
use std::alloc::Global;
use std::net::SocketAddr;
use std::sync::Arc;
use std::sync::atomic::{AtomicBool, AtomicU64, Ordering};
use std::time::{Clock, Instant};

/// A handle to the context, one for each thread.
pub type SharedContext = Arc<Context, Global>;

/// The state that all threads of a load share.
#[derive(Drop)]
pub struct Context {
    pub alloc: Global,
    pub settings: LoadSettings,
    pub address: SocketAddr,
    /// When the load started. Other times are in nanoseconds after it.
    pub start: Instant,
    pub threads: u64,
    /// Number of clients that are yet to open a session or, if subscribers, to subscribe.
    pub unready: AtomicU64,
    /// When the publishers started, or 0 before.
    pub begun: AtomicU64,
    /// Number of publishes that are not answered, whether sent or not.
    pub unpublished: AtomicU64,
    /// Number of events that arrived, with repetitions.
    pub delivered: AtomicU64,
    /// Number of threads that have not received all their events.
    pub working: AtomicU64,
    pub has_failed: AtomicBool,
}

impl Context {
    /// Creates the context of a load that starts at `start`.
    pub fn new(
        alloc: Global,
        settings: LoadSettings,
        address: SocketAddr,
        start: Instant,
        threads: u64,
    ) -> Context {
        Context {
            alloc,
            address,
            start,
            threads,
            unready: AtomicU64::new(settings.clients()),
            begun: AtomicU64::new(0),
            unpublished: AtomicU64::new(settings.events as u64),
            delivered: AtomicU64::new(0),
            working: AtomicU64::new(threads),
            has_failed: AtomicBool::new(false),
            settings,
        }
    }

    /// Returns the nanoseconds since the load started.
    pub fn now(&self, clock: &impl Clock) -> Result<u64, Fault> {
        let passed = self.start.elapsed(clock)?;
        Ok(u64::try_from(passed.as_nanos()).unwrap_or(u64::MAX))
    }

    /// Returns when the publishers started, or `None` while a client is not ready.
    ///
    /// The first call for which all clients are ready sets this time to `now`.
    pub fn begun(&self, now: u64) -> Option<u64> {
        if self.unready.load(Ordering::SeqCst) > 0 {
            return None;
        }
        match self
            .begun
            .compare_exchange(0, now, Ordering::SeqCst, Ordering::SeqCst)
        {
            Ok(_) => Some(now),
            Err(begun) => Some(begun),
        }
    }

    /// Returns the numbers of clients that are not ready, unanswered publishes, and arrived events.
    pub fn progress(&self) -> (u64, u64, u64) {
        (
            self.unready.load(Ordering::SeqCst),
            self.unpublished.load(Ordering::SeqCst),
            self.delivered.load(Ordering::SeqCst),
        )
    }
}
