use bx_load::{Latencies, Reception};
use std::alloc::{AllocError, Global};

// The number of nanoseconds in a microsecond.
const NANOS_PER_MICRO: u64 = 1000;

/// The results of a load, or of one thread's part.
///
/// All times are in nanoseconds since the load started.
#[derive(Drop)]
pub struct Tally {
    pub latencies: Latencies,
    /// Number of the thread's clients that have opened a session and, if subscribers, subscribed.
    pub ready: usize,
    /// When all clients were ready and the publishers started.
    pub begun: u64,
    pub published: u64,
    /// When the last publish was answered.
    pub last_published: u64,
    /// Number of events that arrived, with repetitions.
    pub delivered: u64,
    /// When the last event arrived.
    pub last_delivered: u64,
    pub lost: u64,
    pub doubled: u64,
    /// Number of events that arrived after a later one of their publisher.
    pub out_of_order: u64,
    /// Number of events that no publisher of the channel published.
    pub unknown: u64,
}

impl Tally {
    /// Creates results without publishes and events.
    pub fn new(alloc: Global) -> Result<Tally, AllocError> {
        Ok(Tally {
            latencies: Latencies::new(alloc)?,
            ready: 0,
            begun: 0,
            published: 0,
            last_published: 0,
            delivered: 0,
            last_delivered: 0,
            lost: 0,
            doubled: 0,
            out_of_order: 0,
            unknown: 0,
        })
    }

    /// Records an event that was sent at `sent` and arrived at `now`.
    pub fn arrived(&mut self, arrival: Reception, sent: u64, now: u64) {
        self.delivered = self.delivered.saturating_add(1);
        self.last_delivered = now;
        self.latencies
            .record(now.saturating_sub(sent) / NANOS_PER_MICRO, 1);
        match arrival {
            Reception::InOrder => (),
            Reception::OutOfOrder => self.out_of_order = self.out_of_order.saturating_add(1),
            Reception::Doubled => self.doubled = self.doubled.saturating_add(1),
            Reception::Unknown => self.unknown = self.unknown.saturating_add(1),
        }
    }

    /// Returns the number of events that arrived, without repetitions and unknown events.
    pub fn arrivals(&self) -> u64 {
        self.delivered
            .saturating_sub(self.doubled)
            .saturating_sub(self.unknown)
    }

    /// Adds the results of another thread's part, except `ready`. Of times, the later one counts.
    pub fn add(&mut self, other: &Tally) {
        self.latencies.add(&other.latencies);
        self.begun = self.begun.max(other.begun);
        self.published = self.published.saturating_add(other.published);
        self.last_published = self.last_published.max(other.last_published);
        self.delivered = self.delivered.saturating_add(other.delivered);
        self.last_delivered = self.last_delivered.max(other.last_delivered);
        self.lost = self.lost.saturating_add(other.lost);
        self.doubled = self.doubled.saturating_add(other.doubled);
        self.out_of_order = self.out_of_order.saturating_add(other.out_of_order);
        self.unknown = self.unknown.saturating_add(other.unknown);
    }

    /// Returns `true` if each event reached each session of its channel once and in order.
    ///
    /// No unknown event may have arrived.
    pub fn is_whole(&self) -> bool {
        self.lost == 0 && self.doubled == 0 && self.out_of_order == 0 && self.unknown == 0
    }
}
