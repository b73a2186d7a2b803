ghost use Rattle.std.specs.Prelude.{◌≡◌, ◌+◌, ◌<◌, ◌≤◌, ◌++◌, ◌∷◌, [], length, nat_lt, vec_capacity, vec_len, IfOk, IfNone, IfSome, IsPermutation, MatchOption};
ghost use Rattle.std.specs.BinaryHeap.{IsHeap, heap_capacity, heap_items, heap_len};
ghost use Rattle.bx_roster.specs.Queues.{IsFrom, IsLateBy, Queue, due_order, entries};

use std::alloc::{AllocError, Global};
use std::cmp::Reverse;
use std::collections::BinaryHeap;
use std::marker::Model;

/// An entry of the queue: a session, and a moment at or before its due moment.
///
/// The earliest entry compares as the greatest, so that the heap returns it first.
#[derive(Clone, Copy, PartialEq, Eq, PartialOrd, Ord)]
pub(crate) struct Due {
    /// In milliseconds since the server started. A later tick looks at the entry.
    pub(crate) moment: Reverse<u64>,
    pub(crate) number: u64,
}

/// A queue of sessions by due moment: a heap of waiting entries, and a list of late ones.
///
/// [`expire`](Self::expire) makes waiting entries late. All memory is allocated at creation.
#[derive(Drop)]
pub(crate) struct DueQueue {
    waiting: BinaryHeap<Due>,
    late: Vec<Due>,
    room: usize,
}

impl Model for DueQueue {
    ghost use Rattle.std.specs.Prelude.{vec_capacity};
    ghost use Rattle.std.specs.BinaryHeap.{heap_capacity, heap_items};
    ghost use Rattle.bx_roster.specs.Queues.{IsQueue, Queue};

    ghost Value = { Queue };

    ghost view = { λ q. record { room = q.room; late = q.late.items; waiting = heap_items q.waiting } };

    ghost invariant = { λ q. IsQueue (heap_items q.waiting) q.late.items (heap_capacity q.waiting) (vec_capacity q.late) q.room };
}

impl DueQueue {
    /// Creates an empty queue with room for `room` entries.
    pub(crate) fn new(alloc: Global, room: usize) -> Result<DueQueue, AllocError>
        ensures { IfOk result (λ q. q ≡ record { room = room; late = []; waiting = [] }) }
    {
        Ok(DueQueue {
            waiting: BinaryHeap::with_capacity(alloc, room)?,
            late: Vec::with_capacity(alloc, room)?,
            room,
        })
    }

    pub(crate) fn has_room(&self) -> bool
        ensures { result ≡ nat_lt (length (entries self.now)) self.now.room }
    {
        self.late.len() + self.waiting.len() < self.room
    }

    /// Adds session `number`, for ticks after `moment` to look at. There must be room.
    ///
    /// Takes logarithmic time.
    pub(crate) fn file(&mut self, moment: u64, number: u64)
        requires { length (entries self.old) < self.old.room }
        ensures room { self.new.room ≡ self.old.room }
        ensures late { self.new.late ≡ self.old.late }
        ensures waiting { IsPermutation (record { moment = record { 0 = moment }; number = number } ∷ self.old.waiting) self.new.waiting }
    {
        let moment = Reverse(moment);
        let _ = self.waiting.push(Due { moment, number });
    }

    pub(crate) fn clear(&mut self)
        ensures { self.new ≡ record { room = self.old.room; late = []; waiting = [] } }
    {
        self.waiting.clear();
        self.late.clear();
    }

    /// Moves the waiting entries before `moment` to the late ones.
    ///
    /// Takes logarithmic time for each.
    pub(crate) fn expire(&mut self, moment: u64)
        ensures room { self.new.room ≡ self.old.room }
        ensures same { IsPermutation (entries self.old) (entries self.new) }
        ensures from { IsFrom moment self.new.waiting }
        ensures late { IsLateBy moment self.old.late self.new.late }
    {
        move_before(&mut self.waiting, &mut self.late, moment);
    }

    pub(crate) fn late(&self) -> &[Due]
        ensures { result.now ≡ self.now.late }
    {
        self.late.as_slice()
    }

    /// Removes and returns the entry that became late last.
    pub(crate) fn take_late(&mut self) -> Option<Due>
        ensures waiting { self.new.waiting ≡ self.old.waiting }
        ensures room { self.new.room ≡ self.old.room }
        ensures late { MatchOption result ((self.old.late ≡ []) × (self.new.late ≡ []))
            (λ due. self.old.late ≡ self.new.late ++ due ∷ []) }
        ensures free { IfSome result (λ _. length (entries self.new) < self.new.room) }
    {
        self.late.pop()
    }
}

fn move_before(waiting: &mut BinaryHeap<Due>, late: &mut Vec<Due>, moment: u64)
    requires heap { IsHeap due_order (heap_items waiting.old) }
    requires room { vec_len late.old + heap_len waiting.old ≤ vec_capacity late.old }
    ensures heap { IsHeap due_order (heap_items waiting.new) }
    ensures capacity { heap_capacity waiting.new ≡ heap_capacity waiting.old }
    ensures late_capacity { vec_capacity late.old ≤ vec_capacity late.new }
    ensures same { IsPermutation (late.old.items ++ heap_items waiting.old) (late.new.items ++ heap_items waiting.new) }
    ensures from { IsFrom moment (heap_items waiting.new) }
    ensures late { IsLateBy moment late.old.items late.new.items }
{
    while let Some(due) = pop_before(waiting, moment) {
        let _ = late.push(due);
    }
}

fn pop_before(waiting: &mut BinaryHeap<Due>, moment: u64) -> Option<Due>
    requires { IsHeap due_order (heap_items waiting.old) }
    ensures heap { IsHeap due_order (heap_items waiting.new) }
    ensures capacity { heap_capacity waiting.new ≡ heap_capacity waiting.old }
    ensures popped { IfSome result (λ due. IsPermutation (heap_items waiting.old) (due ∷ heap_items waiting.new)) }
    ensures len { IfSome result (λ _. heap_len waiting.new + 1 ≡ heap_len waiting.old) }
    ensures before { IfSome result (λ due. due.moment.0 < moment) }
    ensures same { IfNone result (heap_items waiting.new ≡ heap_items waiting.old) }
    ensures from { IfNone result (IsFrom moment (heap_items waiting.new)) }
{
    let first = waiting.peek()?;
    if first.moment.0 < moment {
        waiting.pop()
    } else {
        None
    }
}
