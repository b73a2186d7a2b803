ghost use Rattle.std.specs.Prelude.{◌≡◌, ◌<◌, ℕ, nat_eq, nat_lt, not, Some, None, if◌then◌else◌, OnOk, OnErr, IfSome, IfNone, Option, option_map, option_to_list, is_some, [], ◌++◌};
ghost use Rattle.std.specs.Map.{keys_of};
ghost use Rattle.std.specs.Option.{option_or};
ghost use Rattle.futures.specs.declared.task.waker.Waker.{Waker};
ghost use Rattle.bx_connects.specs.declared.connects.ConnectState.TheVariants.{Filed, Held};
ghost use Rattle.bx_connects.specs.Connects.{AreApart, IsDue, IsHeldUntil, completed, connect_at, count_filed_below, count_held, filed_answer, filed_as, filing, filing_at, held_by, known_as, swept, taken_from, unswept, unwatched, watched, with_waker};
ghost use Rattle.bx_connects.specs.Waking.{AreWoken, waker_of};

use crate::filing::TakenAnswer;
use crate::held::{HeldConnect, HeldConnects};
use crate::wakers::Wakers;
use crate::watch::Watch;
use bx_message::{Answer, Sequence, SharedEvent};
use bx_session::Answered;
use futures::task::Waker;
use indexmap::IndexMap;
use std::alloc::{AllocError, Global};
use std::marker::Model;

/// Ghost: the state of a known connect or rider.
#[derive(Drop)]
pub enum ConnectState {
    /// A connect that waits for its answer, at the latest until a tick at or after the deadline.
    Held {
        session: u64,
        /// In milliseconds since the server started; `None` if no tick can be that late.
        deadline: Option<u64>,
        /// Dropping it wakes the task that waits for the answer.
        waker: Option<Waker>,
    },
    /// An answered connect or rider, whose answer is not taken yet.
    Filed {
        session: u64,
        place: u64,
        answer: Answer,
    },
}

/// A filed answer.
#[derive(Drop)]
pub struct FiledAnswer {
    /// The session of the answered connect or rider.
    pub session: u64,
    /// The place of the entry that gave the answer.
    pub place: u64,
    pub answer: Answer,
}

/// The held connects and the filed answers of a shard, by the place of the connect or rider.
///
/// A connect is known while it is held or its answer is filed. Riders are never held.
///
/// While a connect is held, there is room for its waker and its answer, so storing them does not
/// allocate. A call that answers or removes it appends its waker to the caller's list.
#[derive(Drop)]
pub struct Connects {
    held: HeldConnects,
    filed: IndexMap<u64, FiledAnswer>,
}

impl Model for Connects {
    ghost use Rattle.std.specs.Prelude.{◌≤◌, length};
    ghost use Rattle.indexmap.specs.IndexMap.{spare};
    ghost use Rattle.bx_connects.specs.Connects.{AreApart, KnownConnects};

    ghost Value = { KnownConnects };

    ghost view = { λ c. record { held = c.held; filed = c.filed.entries } };

    ghost invariant = { λ c. AreApart c.held c.filed.entries × (length c.held ≤ spare c.filed) };
}

impl Connects {
    /// Creates a collection without connects.
    pub fn new(alloc: Global) -> Connects
        ensures { (p : ℕ) → connect_at result p ≡ None }
    {
        Connects {
            held: HeldConnects::new(alloc),
            filed: IndexMap::new(alloc),
        }
    }

    /// Holds the connect at `place` for `session`.
    ///
    /// `deadline`: milliseconds since the server started, or `None` if no tick ends the hold. No
    /// connect or answer may be known at `place`.
    pub fn hold(
        &mut self,
        place: u64,
        session: u64,
        deadline: Option<u64>,
    ) -> Result<(), AllocError>
        requires { connect_at self.old place ≡ None }
        ensures ok { OnOk result ((p : ℕ) → connect_at self.new p
            ≡ (if nat_eq place p then held_by session deadline else connect_at self.old p)) }
        ensures err { OnErr result ((p : ℕ) → connect_at self.new p ≡ connect_at self.old p) }
    {
        self.filed.reserve(self.held.len() + 1)?;
        self.held.hold(place, session, deadline)
    }

    /// Removes the connect or rider at `place`, if it is known, with its answer.
    ///
    /// Appends the waker of a held connect to `wakers`.
    pub fn forget(&mut self, place: u64, wakers: &mut Wakers)
        ensures forgotten { (p : ℕ) → connect_at self.new p ≡ (if nat_eq place p then None else connect_at self.old p) }
        ensures woken { wakers.new ≡ wakers.old ++ option_to_list (waker_of (connect_at self.old place)) }
    {
        match self.held.release(place) {
            Some(HeldConnect { waker, .. }) => wakers.push_if(waker),
            None => drop(self.filed.swap_remove(&place)),
        }
    }

    /// Files `answered`, the answer that the entry at `place` gives to a known connect.
    ///
    /// Appends the connect's waker to `wakers`. Replaces an answer that is already filed. Does
    /// nothing if the connect is not known.
    pub fn file(&mut self, place: u64, answered: Answered, wakers: &mut Wakers)
        ensures filed { (p : ℕ) → connect_at self.new p
            ≡ (if nat_eq answered.place p then filed_as place answered.answer (connect_at self.old answered.place)
            else connect_at self.old p) }
        ensures fewer { (session : ℕ) → (deadline : Option ℕ) → (waker : Option Waker)
            → connect_at self.old answered.place ≡ Some (Held session deadline waker) → count_held self.new < count_held self.old }
        ensures woken { wakers.new ≡ wakers.old ++ option_to_list (waker_of (connect_at self.old answered.place)) }
    {
        let Answered {
            place: connect,
            answer,
        } = answered;
        match self.held.release(connect) {
            Some(HeldConnect { session, waker, .. }) => {
                let filed = FiledAnswer {
                    session,
                    place,
                    answer,
                };
                self.filed.insert(connect, filed).unwrap();
                wakers.push_if(waker);
            }
            None => {
                if let Some(earlier) = self.filed.get_mut(&connect) {
                    earlier.place = place;
                    earlier.answer = answer;
                }
            }
        }
    }

    /// Files `answer` for the rider at `place`, which the rider's own entry gave.
    ///
    /// No connect or answer may be known at `place`.
    pub fn file_rider(&mut self, place: u64, session: u64, answer: Answer) -> Result<(), AllocError>
        requires { connect_at self.old place ≡ None }
        ensures ok { OnOk result ((p : ℕ) → connect_at self.new p
            ≡ (if nat_eq place p then Some (Filed session place answer) else connect_at self.old p)) }
        ensures err { OnErr result ((p : ℕ) → connect_at self.new p ≡ connect_at self.old p) }
    {
        self.filed.reserve(self.held.len() + 1)?;
        let filed = FiledAnswer {
            session,
            place,
            answer,
        };
        self.filed.insert(place, filed).unwrap();
        Ok(())
    }

    /// Replaces the events of the answer filed at `place`, if any.
    pub fn set_events(&mut self, place: u64, events: Vec<SharedEvent>)
        ensures { (p : ℕ) → connect_at self.new p
            ≡ (if nat_eq place p then completed events.items (connect_at self.old place) else connect_at self.old p) }
    {
        if let Some(filed) = self.filed.get_mut(&place) {
            filed.answer.events = Sequence::from_vec(events);
        }
    }

    /// Files `answered`, if any, as [`file`](Self::file) does.
    pub fn file_if(&mut self, place: u64, answered: Option<Answered>, wakers: &mut Wakers)
        ensures filed { (p : ℕ) → connect_at self.new p ≡ filing place answered (connect_at self.old) p }
        ensures woken { AreWoken (connect_at self.old) (connect_at self.new) wakers.old wakers.new }
    {
        if let Some(answered) = answered {
            self.file(place, answered, wakers);
        }
    }

    /// Returns the session of the held connect with the earliest deadline, if that is due.
    ///
    /// Its deadline is then at or before `moment`, in milliseconds since the server started.
    pub fn first_due(&self, moment: u64) -> Option<u64>
        ensures due { IfSome result (λ session. IsDue self.now session moment) }
        ensures none { IfNone result ((place session deadline : ℕ)
            → IsHeldUntil self.now place session (Some deadline) → moment < deadline) }
    {
        let (_, _, session) = self.held.first_due(moment)?;
        Some(session)
    }

    /// Takes the answer filed at `place`, if any.
    pub fn take(&mut self, place: u64) -> Option<Answer>
        ensures answer { result ≡ filed_answer (connect_at self.old place) }
        ensures taken { (p : ℕ) → connect_at self.new p
            ≡ (if nat_eq place p then taken_from (connect_at self.old place) else connect_at self.old p) }
    {
        let FiledAnswer { answer, .. } = self.filed.swap_remove(&place)?;
        Some(answer)
    }

    /// Takes any one filed answer.
    pub fn take_any(&mut self) -> Option<TakenAnswer>
        ensures filed { IfSome result (λ f. (session : ℕ) × (connect_at self.old f.connect ≡ Some (Filed session f.place f.answer))) }
        ensures taken { IfSome result (λ f. (p : ℕ) → connect_at self.new p
            ≡ (if nat_eq f.connect p then taken_from (connect_at self.old f.connect) else connect_at self.old p)) }
        ensures none { IfNone result ((p : ℕ) → filed_answer (connect_at self.old p) ≡ None) }
        ensures same { IfNone result (self.new ≡ self.old) }
    {
        let (connect, FiledAnswer { place, answer, .. }) = self.filed.pop()?;
        Some(TakenAnswer {
            connect,
            place,
            answer,
        })
    }

    /// Registers `waker` with the connect at `place`, and returns the waker that it replaces.
    ///
    /// Returns `waker` itself if the answer is filed (`Ready`), no connect is held at `place`
    /// (`Unknown`), or `is_closed_to_wakers` is set (`Shut`).
    pub fn watch(&mut self, place: u64, waker: Waker, is_closed_to_wakers: bool) -> Watch
        ensures watch { result ≡ watched is_closed_to_wakers waker (connect_at self.old place) }
        ensures stored { (p : ℕ) → connect_at self.new p
            ≡ (if nat_eq place p then with_waker is_closed_to_wakers waker (connect_at self.old place) else connect_at self.old p) }
    {
        if self.filed.contains_key(&place) {
            return Watch::Ready(waker);
        }
        self.held.watch(place, waker, is_closed_to_wakers)
    }

    /// Drops the filed answers that entries before place `before` gave, and returns their number.
    ///
    /// The cost depends on the filed answers alone.
    pub fn sweep(&mut self, before: u64) -> usize
        ensures swept { self.new ≡ swept before self.old }
        ensures kept { (p : ℕ) → connect_at self.new p ≡ unswept before (connect_at self.old p) }
        ensures count { result ≡ count_filed_below before self.old }
    {
        let len = self.filed.len();
        self.filed.retain(
            |_place: &u64, filed: &mut FiledAnswer| -> bool
                ensures { (result ≡ not (nat_lt filed.old.place before)) × (filed.new ≡ filed.old) }
            { filed.place >= before },
        );
        len - self.filed.len()
    }

    /// Drops the wakers of all held connects, which wakes their tasks.
    ///
    /// The cost depends on the held connects alone.
    pub fn unwatch_all(&mut self)
        ensures { (p : ℕ) → connect_at self.new p ≡ option_map unwatched (connect_at self.old p) }
    {
        self.held.unwatch_all();
    }

    /// Returns the places of the held connects.
    pub fn held_places(&self) -> &[u64]
        ensures { result.now ≡ keys_of self.now.held }
    {
        self.held.places()
    }

    /// Returns the places of the connects and riders that have a filed answer.
    pub fn filed_places(&self) -> &[u64]
        ensures places { result.now ≡ keys_of self.now.filed }
        ensures apart { AreApart self.now.held self.now.filed }
    {
        self.filed.keys().as_slice()
    }

    /// Returns the session's number and the deadline of the connect at `place`, if it is known.
    pub fn known(&self, place: u64) -> Option<(u64, Option<u64>)>
        ensures { result ≡ known_as (connect_at self.now place) }
    {
        if let Some(held) = self.held.known(place) {
            return Some(held);
        }
        let filed = self.filed.get(&place)?;
        Some((filed.session, None))
    }

    /// Takes the answer at the last of [`filed_places`](Self::filed_places), not always the newest.
    pub fn pop_filed(&mut self) -> Option<(u64, FiledAnswer)>
        ensures filed { self.old.filed ≡ self.new.filed ++ option_to_list result }
        ensures held { self.new.held ≡ self.old.held }
        ensures none { IfNone result (self.old.filed ≡ []) }
        ensures once { IfSome result (λ f. filing_at self.new.filed f.0 ≡ None) }
    {
        self.filed.pop()
    }

    /// Holds a connect as [`hold`](Self::hold) does, unless one is known at `place`.
    pub fn reserve_connect(
        &mut self,
        place: u64,
        session: u64,
        deadline: Option<u64>,
    ) -> Result<(), AllocError>
        ensures ok { OnOk result ((p : ℕ) → connect_at self.new p
            ≡ (if nat_eq place p then option_or (connect_at self.old p) (held_by session deadline) else connect_at self.old p)) }
        ensures err { OnErr result ((p : ℕ) → connect_at self.new p ≡ connect_at self.old p) }
    {
        if self.is_known(place) {
            return Ok(());
        }
        self.hold(place, session, deadline)
    }

    fn is_known(&self, place: u64) -> bool
        ensures { result ≡ is_some (connect_at self.now place) }
    {
        self.held.has(place) || self.filed.contains_key(&place)
    }
}
