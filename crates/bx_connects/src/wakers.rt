ghost use Rattle.std.specs.Prelude.{◌≡◌, [], ◌∷◌, ◌++◌, length, option_to_list, ◌≤◌};

use crate::woken::Woken;
use bx_history::History;
use futures::task::Waker;
use std::alloc::Global;
use std::marker::Model;

/// A list of wakers, which wakes their tasks when it is dropped.
///
/// Create it before you lock a shard, and drop it after you unlock the shard. If memory runs out
/// for a waker, its task is woken at once.
#[derive(Drop)]
pub struct Wakers {
    list: Vec<Waker>,
    given: History<Waker>,
    // Ghost: the wakers for which memory ran out.
    at_once: Woken,
}

impl Model for Wakers {
    ghost use Rattle.std.specs.Prelude.{List, ◌++◌};
    ghost use Rattle.std.specs.List.Sorted.{IsPermutation};
    ghost use Rattle.futures.specs.declared.task.waker.Waker.{Waker};

    ghost Value = { List Waker };

    ghost view = { λ w. w.given };

    ghost invariant = { λ w. IsPermutation w.given (w.at_once ++ w.list.items) };
}

impl Wakers {
    /// Creates an empty list.
    pub fn new(alloc: Global) -> Wakers
        ensures { result ≡ [] }
    {
        Wakers {
            list: Vec::new(alloc),
            given: History::new(),
            at_once: Woken::new(),
        }
    }

    /// Appends `waker`, or wakes its task at once if memory runs out.
    #[tactic(auto, using(crate::proofs::WakingLemmas::pushed))]
    pub fn push(&mut self, waker: Waker)
        ensures { self.new ≡ self.old ++ waker ∷ [] }
    {
        self.given.push(&waker);
        if let Err(refused) = self.list.push(waker) {
            self.at_once.wake(refused.value);
        }
    }

    pub(crate) fn push_if(&mut self, waker: Option<Waker>)
        ensures { self.new ≡ self.old ++ option_to_list waker }
    {
        if let Some(waker) = waker {
            self.push(waker);
        }
    }

    /// Returns how many tasks are still to be woken, without those that were woken at once.
    pub fn len(&self) -> usize
        ensures { result ≤ length self.now }
    {
        self.list.len()
    }
}
