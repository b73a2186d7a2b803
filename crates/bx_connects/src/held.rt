ghost use Rattle.std.specs.Prelude.{◌≡◌, ◌≤◌, ◌<◌, ◌+◌, ℕ, nat_eq, true, false, is_some, None, Some, [], length, if◌then◌else◌, OnOk, OnErr, IfSome, IfNone, Option, option_map};
ghost use Rattle.std.specs.Map.{keys_of};
ghost use Rattle.futures.specs.declared.task.waker.Waker.{Waker};
ghost use Rattle.bx_connects.specs.Connects.{held_for, hold_at, hold_of, stored_at, unwatched_hold, watched_hold};
ghost use Rattle.bx_connects.specs.Deadlines.{is_held_until};

use crate::deadlines::{Deadlines, Hold};
use crate::watch::Watch;
use futures::task::Waker;
use indexmap::IndexMap;
use std::alloc::{AllocError, Global};
use std::marker::Model;

/// A held connect, until a tick at or after its deadline, if it has one.
///
/// Dropping `waker` wakes the task that waits for the answer.
#[derive(Drop)]
pub(crate) struct HeldConnect {
    pub(crate) session: u64,
    deadline: Option<u64>,
    pub(crate) waker: Option<Waker>,
}

impl HeldConnect {
    // Returns the waker that `waker` replaces, or `waker` itself if `is_closed_to_wakers`.
    fn watch(&mut self, waker: Waker, is_closed_to_wakers: bool) -> Watch
        ensures watch { result ≡ watched_hold is_closed_to_wakers waker (Some self.old) }
        ensures stored { self.new ≡ stored_at is_closed_to_wakers waker self.old }
    {
        if is_closed_to_wakers {
            return Watch::Shut(waker);
        }
        Watch::Stored(self.waker.replace(waker))
    }
}

/// The held connects by place, and their deadlines.
#[derive(Drop)]
pub(crate) struct HeldConnects {
    by_place: IndexMap<u64, HeldConnect>,
    deadlines: Deadlines,
}

impl Model for HeldConnects {
    ghost use Rattle.std.specs.Prelude.{ℕ, List};
    ghost use Rattle.bx_connects.specs.declared.held.HeldConnect.{HeldConnect};
    ghost use Rattle.bx_connects.specs.Deadlines.{AreNoted};

    ghost Value = { List (ℕ × HeldConnect) };

    ghost view = { λ c. c.by_place.entries };

    ghost invariant = { λ c. AreNoted c.by_place.entries c.deadlines };
}

impl HeldConnects {
    pub(crate) fn new(alloc: Global) -> HeldConnects
        ensures { result ≡ [] }
    {
        HeldConnects {
            by_place: IndexMap::new(alloc),
            deadlines: Deadlines::new(alloc),
        }
    }

    pub(crate) fn len(&self) -> usize
        ensures len { result ≡ length self.now }
        ensures small { result < 9223372036854775808 }
    {
        self.by_place.len()
    }

    /// Holds the connect at `place`, which must not be held yet.
    pub(crate) fn hold(
        &mut self,
        place: u64,
        session: u64,
        deadline: Option<u64>,
    ) -> Result<(), AllocError>
        requires { hold_at self.old place ≡ None }
        ensures ok { OnOk result ((p : ℕ) → hold_at self.new p
            ≡ (if nat_eq place p then held_for session deadline else hold_at self.old p)) }
        ensures err { OnErr result ((p : ℕ) → hold_at self.new p ≡ hold_at self.old p) }
        ensures more { OnOk result (length self.new ≡ length self.old + 1) }
        ensures same { OnErr result (length self.new ≡ length self.old) }
    {
        let held = HeldConnect {
            session,
            deadline,
            waker: None,
        };
        self.by_place.insert(place, held)?;
        let Some(deadline) = deadline else {
            return Ok(());
        };
        let noted = self.deadlines.note((deadline, place, session));
        if noted.is_err() {
            drop(self.by_place.swap_remove(&place));
        }
        noted
    }

    pub(crate) fn release(&mut self, place: u64) -> Option<HeldConnect>
        ensures was { result ≡ hold_at self.old place }
        ensures released { (p : ℕ) → hold_at self.new p ≡ (if nat_eq place p then None else hold_at self.old p) }
        ensures fewer { length self.new + (if is_some result then 1 else 0) ≡ length self.old }
    {
        let held = self.by_place.swap_remove(&place)?;
        if let Some(deadline) = held.deadline {
            self.deadlines.forget((deadline, place, held.session));
        }
        Some(held)
    }

    pub(crate) fn first_due(&self, moment: u64) -> Option<Hold>
        ensures due { IfSome result (λ hold. hold.0 ≤ moment) }
        ensures held { IfSome result (λ hold. is_held_until (hold_at self.now hold.1) hold.2 hold.0 ≡ true) }
        ensures none { IfNone result ((place session deadline : ℕ)
            → deadline ≤ moment → is_held_until (hold_at self.now place) session deadline ≡ false) }
    {
        self.deadlines.first_due(moment)
    }

    /// Registers `waker` as [`Connects::watch`](crate::Connects::watch) does.
    pub(crate) fn watch(&mut self, place: u64, waker: Waker, is_closed_to_wakers: bool) -> Watch
        ensures watch { result ≡ watched_hold is_closed_to_wakers waker (hold_at self.old place) }
        ensures stored { (p : ℕ) → hold_at self.new p
            ≡ (if nat_eq place p then option_map (stored_at is_closed_to_wakers waker) (hold_at self.old place) else hold_at self.old p) }
        ensures same { length self.new ≡ length self.old }
    {
        match self.by_place.get_mut(&place) {
            Some(held) => held.watch(waker, is_closed_to_wakers),
            None => Watch::Unknown(waker),
        }
    }

    pub(crate) fn unwatch_all(&mut self)
        ensures unwatched { (p : ℕ) → hold_at self.new p ≡ option_map unwatched_hold (hold_at self.old p) }
        ensures bound { length self.new ≤ length self.old }
    {
        self.by_place.retain(
            |_place: &u64, held: &mut HeldConnect| -> bool
                ensures { (result ≡ true) × (held.new ≡ unwatched_hold held.old) }
            {
                held.waker = None;
                true
            },
        );
    }

    pub(crate) fn places(&self) -> &[u64]
        ensures { result.now ≡ keys_of self.now }
    {
        self.by_place.keys().as_slice()
    }

    pub(crate) fn known(&self, place: u64) -> Option<(u64, Option<u64>)>
        ensures { result ≡ option_map hold_of (hold_at self.now place) }
    {
        let held = self.by_place.get(&place)?;
        Some((held.session, held.deadline))
    }

    pub(crate) fn has(&self, place: u64) -> bool
        ensures { result ≡ is_some (hold_at self.now place) }
    {
        self.by_place.contains_key(&place)
    }
}
