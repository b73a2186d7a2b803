ghost use Rattle.std.specs.Prelude.{◌≡◌, ◌<◌, ◌≤◌, ◌+◌, ◌++◌, ◌⊎◌, ◌↔◌, [], not, IsFalse, IsTrue, OnOk, OnErr, IsErrOf, length, take, drop, if◌then◌else◌, ◌^◌};
ghost use Rattle.std.specs.Vec.{vec_capacity, vec_len};
ghost use Rattle.std.specs.VecDeque.{deque_capacity};
ghost use Rattle.std.specs.VecDeque.Iter.{deque_iter_rest};
ghost use Rattle.std.specs.List.{sum_by};
ghost use Rattle.bx_message.specs.Events.{event_size};
ghost use Rattle.bx_entry.specs.Answers.{events_of};
ghost use Rattle.bx_entry.specs.Windows.{acknowledged, acknowledges, bytes_of, emptied, empty, forgotten, formed, has_room, outstanding, portion, with_event};

use crate::publication::{Publication, Published};
use bx_history::History;
use bx_message::SharedEvent;
use std::alloc::{AllocError, Global};
use std::collections::VecDeque;
use std::collections::vec_deque::Iter;
use std::marker::Model;

/// The queued events of one session, oldest first: the outstanding batch, then the waiting events.
///
/// The outstanding batch was sent and not acknowledged (CometD's acknowledgement extension).
///
/// Model: the events with the places of their publishes, the number of outstanding events, the
/// number of the last batch, and the room for more events.
#[derive(Drop)]
pub struct Window {
    events: VecDeque<SharedEvent>,
    queue: History<Publication>,
    out: usize,
    // 0 before the first batch.
    number: u64,
    bytes: usize,
}

impl Model for Window {
    ghost use Rattle.std.specs.Prelude.{◌≡◌, ◌≤◌, ◌-◌, length};
    ghost use Rattle.std.specs.List.{sum_by};
    ghost use Rattle.std.specs.VecDeque.{deque_capacity, deque_len};
    ghost use Rattle.bx_message.specs.Events.{event_size};
    ghost use Rattle.bx_entry.specs.Answers.{events_of};
    ghost use Rattle.bx_batches.specs.Windows.{Windowed};

    ghost Value = { Windowed };

    ghost view = { λ w. record {
      contents = record { queue = w.queue; out = w.out; number = w.number };
      spare = deque_capacity w.events - deque_len w.events;
    } };

    ghost invariant = { λ w. (events_of w.queue ≡ w.events.items) × (w.out ≤ length w.events.items)
        × (w.bytes ≡ sum_by event_size w.events.items) };
}

/// The outstanding batch.
#[derive(Drop)]
pub struct OutstandingBatch<'a> {
    /// The number of the last batch, or 0 before the first.
    pub number: u64,
    /// The outstanding events, oldest first.
    pub events: Iter<'a, SharedEvent>,
}

impl Window {
    /// Creates an empty queue without batches.
    pub fn new(alloc: Global) -> Window
        ensures { result.contents ≡ empty }
    {
        Window {
            events: VecDeque::new(alloc),
            queue: History::new(),
            out: 0,
            number: 0,
            bytes: 0,
        }
    }

    /// Returns `true` if `event` would make it more than `events` events or `bytes` bytes of JSON.
    #[tactic(auto, using(crate::proofs::Parts::bytes_in), unfolding(bx_entry::specs::Windows::has_room))]
    pub fn is_full(&self, events: usize, bytes: usize, event: &SharedEvent) -> bool
        ensures full { result ≡ not (has_room events bytes event.now self.now.contents) }
        ensures fits { IsFalse result → bytes_of self.now.contents.queue + event_size event.now < 2 ^ 64 }
    {
        match self.bytes.checked_add(event.size()) {
            Some(all) => self.len() >= events || all > bytes,
            None => true,
        }
    }

    /// Returns the number of outstanding and waiting events.
    pub fn len(&self) -> usize
        ensures { result ≡ length self.now.contents.queue }
    {
        self.events.len()
    }

    /// Returns the length of the events' JSON texts.
    #[tactic(auto, using(crate::proofs::Parts::bytes_in))]
    pub fn bytes(&self) -> usize
        ensures { result ≡ bytes_of self.now.contents.queue }
    {
        self.bytes
    }

    /// Returns the number of outstanding events.
    pub fn outstanding(&self) -> usize
        ensures { result ≡ self.now.contents.out }
    {
        self.out
    }

    /// Reserves room for `count` more events.
    pub fn reserve(&mut self, count: usize) -> Result<(), AllocError>
        ensures ok { OnOk result (count ≤ self.new.spare) }
        ensures refused { OnErr result (self.old.spare < count) }
        ensures same { self.new.contents ≡ self.old.contents }
        ensures kept { self.old.spare ≤ self.new.spare }
    {
        self.events.reserve(count)
    }

    /// Appends the event published at `place`. Does not allocate.
    ///
    /// Call [`reserve`](Self::reserve) first. All texts together must have less than 2^64 bytes, as
    /// they have if [`is_full`](Self::is_full) returned `false`.
    #[tactic(auto, using(crate::proofs::Parts::bytes_in, crate::proofs::Parts::pushed_bytes))]
    pub fn push_reserved(&mut self, place: u64, event: SharedEvent)
        requires room { 0 < self.old.spare }
        requires fits { bytes_of self.old.contents.queue + event_size event < 2 ^ 64 }
        ensures added { self.new.contents ≡ with_event (record { place = place; event = event }) self.old.contents }
        ensures spare { self.new.spare + 1 ≡ self.old.spare }
    {
        let published = History::of::<(u64, &SharedEvent), Published>(&(place, &event));
        self.queue.join(&published);
        self.bytes += event.size();
        self.events.push_back_reserved(event);
    }

    /// Returns how many events [`acknowledge(number)`](Self::acknowledge) would drop.
    pub fn acknowledged(&self, number: u64) -> usize
        ensures { result ≡ (if acknowledges number self.now.contents then self.now.contents.out else 0) }
    {
        if self.number <= number { self.out } else { 0 }
    }

    /// Returns how many events a connect gets after the first `done` are acknowledged.
    ///
    /// `done`: 0 or the number of outstanding events. A batch that is then still outstanding is
    /// sent again. Otherwise, at most `most` of the waiting events are sent.
    pub fn portion(&self, done: usize, most: usize) -> usize
        requires { (done ≡ 0) ⊎ (done ≡ self.now.contents.out) }
        ensures again { done < self.now.contents.out → result ≡ self.now.contents.out }
        ensures next { self.now.contents.out ≤ done → result ≡ portion most (forgotten done self.now.contents) }
    {
        if done < self.out {
            self.out
        } else {
            most.min(self.len() - done)
        }
    }

    /// Drops the outstanding events if `number` is at least the number of the last batch.
    #[tactic(auto, using(crate::proofs::Parts::front_bytes))]
    pub fn acknowledge(&mut self, number: u64)
        ensures contents { self.new.contents ≡ acknowledged number self.old.contents }
        ensures spare { self.old.spare ≤ self.new.spare }
    {
        let done = self.acknowledged(number);
        self.bytes -= drop_front(&mut self.events, done);
        self.queue.forget(done);
        self.out -= done;
    }

    /// Forms the next batch from at most `most` waiting events, unless a batch is outstanding.
    pub fn give(&mut self, most: usize)
        requires { self.old.contents.out ≡ 0 → self.old.contents.number + 1 < 2 ^ 64 }
        ensures contents { self.new.contents ≡ formed most self.old.contents }
        ensures spare { self.new.spare ≡ self.old.spare }
    {
        if self.out == 0 {
            self.out = self.portion(0, most);
            if self.out > 0 {
                self.number += 1;
            }
        }
    }

    /// Returns the outstanding batch and the number of the last batch.
    pub fn outstanding_batch(&self) -> OutstandingBatch<'_>
        ensures number { result.number ≡ self.now.contents.number }
        ensures events { deque_iter_rest result.events ≡ events_of (outstanding self.now.contents) }
    {
        OutstandingBatch {
            number: self.number,
            events: self.events.range(..self.out),
        }
    }

    /// Returns all events, outstanding and waiting, oldest first.
    pub fn events(&self) -> Iter<'_, SharedEvent>
        ensures { deque_iter_rest result ≡ events_of self.now.contents.queue }
    {
        self.events.iter()
    }

    /// Drops the first `count` events, which were sent without a batch.
    #[tactic(auto, using(crate::proofs::Parts::front_bytes))]
    pub fn forget(&mut self, count: usize)
        requires none_out { self.old.contents.out ≡ 0 }
        ensures forgotten { self.new.contents ≡ forgotten count self.old.contents }
        ensures spare { self.old.spare ≤ self.new.spare }
    {
        self.queue.forget(count);
        self.bytes -= drop_front(&mut self.events, count);
    }

    /// Moves the first `count` events to the empty list `into`, and returns it. Does not allocate.
    ///
    /// They are sent without a batch. `into` must have room for them.
    #[tactic(auto, using(crate::proofs::Parts::front_bytes))]
    pub fn hand_over(&mut self, count: usize, into: Vec<SharedEvent>) -> Vec<SharedEvent>
        requires none_out { self.old.contents.out ≡ 0 }
        requires empty { into.items ≡ [] }
        requires room { count ≤ vec_capacity into }
        ensures given { result.items ≡ events_of (take count self.old.contents.queue) }
        ensures forgotten { self.new.contents ≡ forgotten count self.old.contents }
        ensures spare { self.old.spare ≤ self.new.spare }
    {
        let mut into = into;
        move_front(&mut self.events, count, &mut into);
        self.queue.forget(count);
        self.bytes -= bytes_in(into.as_slice());
        into
    }

    /// Drops all events, but keeps the number of the last batch.
    pub fn clear(&mut self)
        ensures contents { self.new.contents ≡ emptied self.old.contents }
        ensures spare { self.old.spare ≤ self.new.spare }
    {
        self.events.clear();
        self.queue = History::new();
        self.out = 0;
        self.bytes = 0;
    }
}

// Returns the length of the dropped events' texts.
#[tactic(auto, using(crate::proofs::Parts::front_bytes, crate::proofs::Parts::first_bytes))]
fn drop_front(events: &mut VecDeque<SharedEvent>, count: usize) -> usize
    requires { sum_by event_size events.old.items < 2 ^ 64 }
    ensures left { events.new.items ≡ drop count events.old.items }
    ensures bytes { result ≡ sum_by event_size (take count events.old.items) }
    ensures capacity { deque_capacity events.new ≡ deque_capacity events.old }
{
    let mut bytes = 0;
    let mut left = count;
    while left > 0 {
        if let Some(event) = events.pop_front() {
            bytes += event.size();
        }
        left -= 1;
    }
    bytes
}

fn move_front(events: &mut VecDeque<SharedEvent>, count: usize, into: &mut Vec<SharedEvent>)
    requires { vec_len into.old + count ≤ vec_capacity into.old }
    ensures moved { into.new.items ≡ into.old.items ++ take count events.old.items }
    ensures left { events.new.items ≡ drop count events.old.items }
    ensures capacity { deque_capacity events.new ≡ deque_capacity events.old }
{
    let mut left = count;
    while left > 0 {
        if let Some(event) = events.pop_front() {
            into.push_reserved(event);
        }
        left -= 1;
    }
}

#[tactic(auto, using(crate::proofs::Parts::grown_bytes))]
fn bytes_in(events: &[SharedEvent]) -> usize
    requires { sum_by event_size events.now < 2 ^ 64 }
    ensures { result ≡ sum_by event_size events.now }
{
    let mut bytes = 0;
    for event in events {
        bytes += event.size();
    }
    bytes
}
