ghost use Rattle.std.specs.Prelude.{◌≡◌, slice_get, unwrap_or};

use crate::histogram::{BUCKETS, bucket_of};
use crate::metric::{METRICS, Metric};
use crate::response::ServerHealth;
use std::alloc::{AllocError, Global};
use std::sync::atomic::{AtomicBool, AtomicU64, Ordering};
use std::time::Duration;

// Milliseconds after which a server that applies no tick is not healthy. Policy of this server.
const TICK_PATIENCE: u64 = 2000;

/// The current metrics, how many entries each shard lacks, and whether the server listens.
///
/// Any thread can read and change them without a lock.
#[derive(Drop)]
pub struct Counts {
    counts: Vec<AtomicU64>,
    lags: Vec<AtomicU64>,
    // The requests in each bucket of the histogram.
    times: Vec<AtomicU64>,
    // The time that all requests took, in nanoseconds.
    time: AtomicU64,
    listens: AtomicBool,
    // The moment of the last tick.
    last_tick: AtomicU64,
}

impl Counts {
    /// Creates metrics of 0 for `shards` shards of a server that does not listen.
    pub fn new(alloc: Global, shards: usize) -> Result<Counts, AllocError> {
        Ok(Counts {
            counts: zeros(alloc, METRICS.len())?,
            lags: zeros(alloc, shards)?,
            times: zeros(alloc, BUCKETS)?,
            time: AtomicU64::new(0),
            listens: AtomicBool::new(false),
            last_tick: AtomicU64::new(0),
        })
    }

    /// Adds `more` to `metric`.
    pub fn add(&self, metric: Metric, more: u64) {
        if let Some(count) = self.counts.get(metric.place()) {
            count.fetch_add(more, Ordering::SeqCst);
        }
    }

    /// Subtracts 1 from `metric`, which wraps around at 0.
    pub fn remove_one(&self, metric: Metric) {
        if let Some(count) = self.counts.get(metric.place()) {
            count.fetch_sub(1, Ordering::SeqCst);
        }
    }

    /// Sets `metric` to `value`.
    pub fn set(&self, metric: Metric, value: u64) {
        if let Some(count) = self.counts.get(metric.place()) {
            count.store(value, Ordering::SeqCst);
        }
    }

    /// Adds a request that took `passed` to the histogram.
    pub fn add_time(&self, passed: Duration) {
        let nanoseconds = u64::try_from(passed.as_nanos()).unwrap_or(u64::MAX);
        if let Some(count) = self.times.get(bucket_of(nanoseconds)) {
            count.fetch_add(1, Ordering::SeqCst);
        }
        self.time.fetch_add(nanoseconds, Ordering::SeqCst);
    }

    /// Returns the number of shards.
    pub fn shards(&self) -> usize {
        self.lags.len()
    }

    /// Records that `shard` has applied the first `place` of the list's `entries` entries.
    pub fn set_lag(&self, shard: usize, entries: u64, place: u64) {
        if let Some(lag) = self.lags.get(shard) {
            lag.store(entries.saturating_sub(place), Ordering::SeqCst);
        }
    }

    /// Returns the value of `metric`.
    pub fn get(&self, metric: Metric) -> u64 {
        match self.counts.get(metric.place()) {
            Some(count) => count.load(Ordering::SeqCst),
            None => 0,
        }
    }

    /// Records whether the server listens.
    pub fn set_listens(&self, listens: bool) {
        self.listens.store(listens, Ordering::SeqCst);
    }

    /// Records that the tick of `moment` was applied.
    pub(crate) fn set_last_tick(&self, moment: u64) {
        self.last_tick.store(moment, Ordering::SeqCst);
    }

    /// Returns whether the server listens and applies ticks, at the moment `now`.
    ///
    /// Moments are milliseconds since the server started.
    pub fn health(&self, now: u64) -> ServerHealth {
        if !self.listens.load(Ordering::SeqCst) {
            return ServerHealth::NotListening;
        }
        let waited = now.saturating_sub(self.last_tick.load(Ordering::SeqCst));
        if waited < TICK_PATIENCE {
            ServerHealth::Listening
        } else {
            ServerHealth::NoTick
        }
    }

    /// Returns a copy of all values.
    ///
    /// They are read one after the other, so some may change during the call.
    pub fn read(&self, alloc: Global) -> Result<MetricValues, AllocError> {
        Ok(MetricValues {
            values: loaded(alloc, &self.counts)?,
            lags: loaded(alloc, &self.lags)?,
            times: loaded(alloc, &self.times)?,
            time: self.time.load(Ordering::SeqCst),
        })
    }
}

fn zeros(alloc: Global, count: usize) -> Result<Vec<AtomicU64>, AllocError> {
    let mut zeros = Vec::with_capacity(alloc, count)?;
    for _ in 0..count {
        zeros.push(AtomicU64::new(0))?;
    }
    Ok(zeros)
}

fn loaded(alloc: Global, counts: &Vec<AtomicU64>) -> Result<Vec<u64>, AllocError> {
    let mut values = Vec::with_capacity(alloc, counts.len())?;
    for count in counts {
        values.push(count.load(Ordering::SeqCst))?;
    }
    Ok(values)
}

/// A copy of all metrics, with the number of entries that each shard lacks.
#[derive(Drop)]
pub struct MetricValues {
    values: Vec<u64>,
    /// The entries that each shard lacks.
    pub(crate) lags: Vec<u64>,
    /// The requests in each bucket of the histogram.
    pub(crate) times: Vec<u64>,
    /// The time that all requests took, in nanoseconds.
    pub(crate) time: u64,
}

impl MetricValues {
    /// Creates a copy from `values`, in the order of the page. A missing value counts as 0.
    ///
    /// `lags`: the number of entries that each shard lacks. `times`: the number of requests in each
    /// bucket of the histogram. `time`: the time that all requests took, in nanoseconds.
    pub fn of(values: Vec<u64>, lags: Vec<u64>, times: Vec<u64>, time: u64) -> MetricValues
        ensures counts { (result.values ≡ values) × (result.lags ≡ lags) }
        ensures times { (result.times ≡ times) × (result.time ≡ time) }
    {
        MetricValues {
            values,
            lags,
            times,
            time,
        }
    }

    /// Returns the value at index `place` of the metrics page, or 0 if it is missing.
    pub(crate) fn value(&self, place: usize) -> u64
        ensures { result ≡ unwrap_or (slice_get self.now.values.items place) 0 }
    {
        self.values.get(place).copied().unwrap_or(0)
    }
}
