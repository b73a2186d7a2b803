ghost use Rattle.std.specs.Prelude.{◌≡◌, ◌≢◌, ◌+◌, ◌<◌, ◌≤◌, ◌↔◌, length, slice_index_or, slice_set, count_by, not, true, false, vec_len, IfOk, replicate};

use std::alloc::{AllocError, Global};

/// How an event arrived.
#[derive(Clone, Copy)]
pub enum Reception {
    /// For the first time, and before any later event of its publisher.
    InOrder,
    /// For the first time, but after a later event of its publisher.
    OutOfOrder,
    /// It had already arrived.
    Doubled,
    /// Its publisher has no event with this number.
    Unknown,
}

/// The events of one publisher that one session received.
#[derive(Drop)]
pub struct Arrivals {
    /// By the event's number, from 0.
    pub seen: Vec<bool>,
    /// One more than the greatest number of an event that arrived.
    pub next: usize,
}

impl Arrivals {
    /// Creates the record of `count` events, none of which has arrived.
    pub fn new(alloc: Global, count: usize) -> Result<Arrivals, AllocError>
        ensures none { IfOk result (λ a. a.seen.items ≡ replicate count false) }
        ensures next { IfOk result (λ a. a.next ≡ 0) }
    {
        Ok(Arrivals {
            seen: vec![in alloc; false; count]?,
            next: 0,
        })
    }

    /// Records the arrival of event `number`, counted from 0, and returns how it arrived.
    pub fn take(&mut self, number: usize) -> Reception
        ensures unknown { (result ≡ Reception.Unknown) ↔ (vec_len self.old.seen ≤ number) }
        ensures doubled { (result ≡ Reception.Doubled) ↔ (slice_index_or self.old.seen.items number false ≡ true) }
        ensures late { result ≡ Reception.OutOfOrder → number < self.old.next }
        ensures in_order { result ≡ Reception.InOrder → (self.old.next ≤ number) × (self.new.next ≡ number + 1) }
        ensures seen { self.new.seen.items ≡ slice_set self.old.seen.items number true }
        ensures kept { result ≢ Reception.InOrder → self.new.next ≡ self.old.next }
    {
        if number >= self.seen.len() {
            return Reception::Unknown;
        }
        if self.seen[number] {
            return Reception::Doubled;
        }
        self.seen[number] = true;
        if number < self.next {
            return Reception::OutOfOrder;
        }
        self.next = number + 1;
        Reception::InOrder
    }

    /// Returns how many events did not arrive.
    pub fn lost(&self) -> usize
        ensures { result ≡ count_by not self.now.seen.items }
    {
        self.seen.iter().filter(|came| !**came).count()
    }
}
