ghost use Rattle.std.specs.Prelude.{◌≡◌, ◌+◌, ◌*◌, ◌^◌, ◌<◌, ◌≤◌, ◌↔◌, sum_by, slice_index, slice_set, vec_len, IfOk, IfSome, IsNone};
ghost use Rattle.bx_load.specs.Places.{greatest_of, IsReachedAt};

use std::alloc::{AllocError, Global};

// Each latency below this number of microseconds has its own count.
const EXACT: u64 = 65_536;

// The number of microseconds that share a count, from `EXACT` on.
const WIDTH: u64 = 1024;

// Number of counts. They reach to 67 seconds; the last one also counts all longer latencies.
const COUNTS: usize = 131_072;

// All latencies, in percent.
const ALL: u128 = 100;

/// How often each latency occurred.
///
/// Exact to the microsecond below 65 ms, and to one part in 64 up to 67 seconds.
#[derive(Drop)]
pub struct Latencies {
    /// From the shortest latency to the longest.
    pub counts: Vec<u64>,
    /// The sum of the counts.
    pub total: u64,
    ghost places: { vec_len counts ≡ 131072 },
    ghost counted: { sum_by (λ n. n) counts.items ≡ total },
}

impl Latencies {
    /// Creates counts of 0.
    pub fn new(alloc: Global) -> Result<Latencies, AllocError>
        ensures { IfOk result (λ l. l.total ≡ 0) }
    {
        Ok(Latencies {
            counts: vec![in alloc; 0; COUNTS]?,
            total: 0,
        })
    }

    /// Counts a latency of `microseconds`, `times` times.
    ///
    /// Does nothing if the total would reach 2^64.
    pub fn record(&mut self, microseconds: u64, times: u64)
        ensures { self.old.total + times < 2 ^ 64 → self.new.total ≡ self.old.total + times }
    {
        let Some(total) = self.total.checked_add(times) else {
            return;
        };
        let place = place_of(microseconds);
        self.counts[place] += times;
        self.total = total;
    }

    /// Adds the counts of `other`, except those with which the total would reach 2^64.
    pub fn add(&mut self, other: &Latencies)
        ensures { self.old.total + other.now.total < 2 ^ 64 → self.new.total ≡ self.old.total + other.now.total }
    {
        for (place, times) in other.counts.iter().enumerate() {
            self.record(greatest_of(place), *times);
        }
    }

    /// Returns the latency in microseconds that `percent` percent of all latencies do not exceed.
    ///
    /// `percent`: 1 to 100. The result is as exact as the counts, and rounded up.
    pub fn at(&self, percent: u64) -> Option<u64>
        requires some { 0 < percent }
        requires within { percent ≤ 100 }
        ensures none { IsNone result ↔ (self.now.total ≡ 0) }
        ensures value { IfSome result (IsReachedAt self.now.counts.items self.now.total percent) }
    {
        if self.total == 0 {
            return None;
        }
        let wanted = percent as u128 * self.total as u128;
        let mut reached = 0;
        for (place, times) in self.counts.iter().enumerate() {
            reached += *times;
            if ALL * reached as u128 >= wanted {
                return Some(greatest_of(place));
            }
        }
        None
    }
}

// Returns the index of the count for a latency. Below 67 seconds, `greatest_of` that index is the
// latency rounded up by at most one part in 64.
fn place_of(microseconds: u64) -> usize
    ensures room { result < COUNTS }
    ensures near { microseconds < 67107840 → (microseconds ≤ greatest_of result) × (64 * greatest_of result ≤ 65 * microseconds) }
{
    let place = if microseconds < EXACT {
        microseconds
    } else {
        (EXACT + microseconds / WIDTH).min(COUNTS as u64 - 1)
    };
    place as usize
}

// Returns the greatest latency in microseconds that is counted at `place`, except at the last.
fn greatest_of(place: usize) -> u64
    requires { place < 131072 }
    ensures { result ≡ greatest_of place }
{
    let place = place as u64;
    if place < EXACT {
        place
    } else {
        (place - EXACT) * WIDTH + WIDTH - 1
    }
}
