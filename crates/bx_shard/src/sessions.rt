ghost use Rattle.std.specs.Prelude.{◌≡◌, ◌<◌, ◌-◌, ℕ, nat_eq, Some, None, [], ◌∷◌, length, option_map, is_some, if◌then◌else◌, OnOk, OnErr, IfOk, IfSome, true, false, Option, not, ◌&&◌, ◌||◌, ◌++◌, option_to_list};
ghost use Rattle.std.specs.Map.{keys_of};
ghost use Rattle.std.specs.Option.{option_or};
ghost use Rattle.bx_tree.specs.Patterns.{patterns_of};
ghost use Rattle.bx_advice.specs.declared.advice.Outcome.TheVariants.{Disconnected};
ghost use Rattle.bx_entry.specs.Keeping.{Kept, after, kept};
ghost use Rattle.bx_entry.specs.Sessions.{begun, connected, expired, released, unopened};
ghost use Rattle.bx_session.specs.Views.{Countable, wants_two};
ghost use Rattle.bx_session.specs.declared.answered.Answered.{Answered};
ghost use Rattle.futures.specs.declared.task.waker.Waker.{Waker};
ghost use Rattle.bx_connects.specs.declared.connects.ConnectState.TheVariants.{Held};
ghost use Rattle.bx_connects.specs.Connects.{connect_at, count_held, filed_as, held_by};
ghost use Rattle.bx_connects.specs.Waking.{AreWoken, waker_of};
ghost use Rattle.bx_shard.specs.Sessions.{AreClean, AreCounted, AreHeld, HasRoom, kept_in, patterns_in};
ghost use Rattle.bx_shard.specs.Surveys.{opened_in};
ghost use Rattle.bx_shard.specs.Effects.{answers_by, connect_filing, filing_each, forgetting, held_in};

use bx_advice::Config;
use bx_connects::{Connects, Wakers};
use bx_message::SharedEvent;
use bx_session::{Answered, ConnectResult, PendingConnect, Session};
use bx_tree::Tree;
use indexmap::IndexMap;
use std::alloc::{AllocError, Global};

/// The sessions of one shard, with their patterns and connects.
#[derive(Drop)]
pub struct Sessions {
    pub(crate) config: Config,
    pub(crate) by_number: IndexMap<u64, Session>,
    pub(crate) tree: Tree,
    pub(crate) connects: Connects,
}

impl Sessions {
    /// Creates an empty collection of sessions.
    pub fn new(alloc: Global, config: Config) -> Sessions
        ensures config { result.config ≡ config }
        ensures sessions { (n : ℕ) → kept_in result n ≡ None }
        ensures patterns { result.tree ≡ [] }
        ensures connects { (p : ℕ) → connect_at result.connects p ≡ None }
    {
        Sessions {
            config,
            by_number: IndexMap::new(alloc),
            tree: Tree::new(alloc),
            connects: Connects::new(alloc),
        }
    }

    pub(crate) fn has(&self, number: u64) -> bool
        ensures { result ≡ is_some (kept_in self.now number) }
    {
        self.by_number.contains_key(&number)
    }

    /// Opens session `number`, which must not be in this shard. On error, nothing has changed.
    ///
    /// `moment`: milliseconds since the server started.
    pub(crate) fn open(
        &mut self,
        alloc: Global,
        number: u64,
        ack: bool,
        moment: u64,
    ) -> Result<(), AllocError>
        ensures sessions { OnOk result ((n : ℕ) → kept_in self.new n
            ≡ (if nat_eq number n then Some (after (λ s. begun ack s s.stage) (kept (unopened number))) else kept_in self.old n)) }
        ensures opened { OnOk result (opened_in self.new number ≡ Some moment) }
        ensures err { OnErr result ((n : ℕ) → kept_in self.new n ≡ kept_in self.old n) }
        ensures others { (self.new.config ≡ self.old.config) × (self.new.tree ≡ self.old.tree) × (self.new.connects ≡ self.old.connects) }
        ensures counted { kept_in self.old number ≡ None → AreCounted self.old → AreCounted self.new }
        ensures held { kept_in self.old number ≡ None → AreHeld self.old → AreHeld self.new }
    {
        let session = Session::open(alloc, number, ack, moment);
        self.by_number.insert(number, session)?;
        Ok(())
    }

    /// Answers or holds `connect`, if session `number` is in this shard.
    ///
    /// `acked`: the batch number that it acknowledges, if any. At its place, no connect may be held
    /// and no answer filed. If the session holds another connect, answers that and moves its waker
    /// to `wakers`. On error, nothing has changed.
    pub(crate) fn connect(
        &mut self,
        alloc: Global,
        number: u64,
        connect: PendingConnect,
        acked: Option<u64>,
        wakers: &mut Wakers,
    ) -> Result<(), AllocError>
        requires fresh { connect_at self.old.connects connect.place ≡ None }
        requires countable { IfSome (kept_in self.old number) Countable }
        ensures sessions { OnOk result ((n : ℕ) → kept_in self.new n
            ≡ (if nat_eq number n then option_map (after (connected self.old.config connect acked)) (kept_in self.old number) else kept_in self.old n)) }
        ensures connects { OnOk result ((p : ℕ) → connect_at self.new.connects p
            ≡ connect_filing number connect (connected self.old.config connect acked) (kept_in self.old number) (connect_at self.old.connects) p) }
        ensures err { OnErr result (((n : ℕ) → kept_in self.new n ≡ kept_in self.old n)
            × ((p : ℕ) → connect_at self.new.connects p ≡ connect_at self.old.connects p)) }
        ensures woken { AreWoken (connect_at self.old.connects) (connect_at self.new.connects) wakers.old wakers.new }
        ensures others { (self.new.config ≡ self.old.config) × (self.new.tree ≡ self.old.tree) }
        ensures counted { AreCounted self.old → AreCounted self.new }
        ensures held { AreHeld self.old → AreHeld self.new }
    {
        let Some(session) = self.by_number.get_mut(&number) else {
            return Ok(());
        };
        let place = connect.place();
        self.connects.hold(place, number, connect.deadline())?;
        match session.connect(alloc, &self.config, connect, acked) {
            Ok(
                ConnectResult {
                    superseded,
                    answered,
                },
            ) => {
                self.connects.file_if(place, superseded, wakers);
                self.connects.file_if(place, answered, wakers);
                Ok(())
            }
            Err(error) => {
                self.connects.forget(place, wakers);
                Err(error)
            }
        }
    }

    /// Reserves room for `event` in session `number`, if it is in this shard.
    ///
    /// Returns a clone of the event if the session will both send and keep it.
    pub(crate) fn reserve(
        &mut self,
        number: u64,
        event: &SharedEvent,
    ) -> Result<Option<SharedEvent>, AllocError>
        ensures sessions { (n : ℕ) → kept_in self.new n ≡ kept_in self.old n }
        ensures room { OnOk result (HasRoom self.new number) }
        ensures further { IfOk result (λ further. IfSome (kept_in self.old number) (λ k. wants_two k ≡ true → further ≡ Some event.now)) }
        ensures kept { (n : ℕ) → HasRoom self.old n → HasRoom self.new n }
        ensures others { (self.new.config ≡ self.old.config) × (self.new.tree ≡ self.old.tree) × (self.new.connects ≡ self.old.connects) }
    {
        let Some(session) = self.by_number.get_mut(&number) else {
            return Ok(None);
        };
        session.reserve()?;
        session.further(event)
    }

    /// Answers the connect held by session `number`, if it is due, for the tick at `place`.
    ///
    /// `moment`: milliseconds since the server started. Moves the waker to `wakers`.
    pub(crate) fn tick(&mut self, place: u64, moment: u64, number: u64, wakers: &mut Wakers)
        ensures sessions { (n : ℕ) → kept_in self.new n
            ≡ (if nat_eq number n then option_map (after (expired self.old.config place moment)) (kept_in self.old number) else kept_in self.old n) }
        ensures connects { (p : ℕ) → connect_at self.new.connects p
            ≡ filing_each place (answers_by (expired self.old.config place moment) (kept_in self.old number)) (connect_at self.old.connects) p }
        ensures fewer { (a : Answered) → (session : ℕ) → (deadline : Option ℕ) → (waker : Option Waker)
            → answers_by (expired self.old.config place moment) (kept_in self.old number) ≡ a ∷ []
            → connect_at self.old.connects a.place ≡ Some (Held session deadline waker)
            → count_held self.new.connects < count_held self.old.connects }
        ensures woken { AreWoken (connect_at self.old.connects) (connect_at self.new.connects) wakers.old wakers.new }
        ensures others { (self.new.config ≡ self.old.config) × (self.new.tree ≡ self.old.tree) }
        ensures counted { AreCounted self.old → AreCounted self.new }
        ensures held { AreHeld self.old → AreHeld self.new }
    {
        let Some(session) = self.by_number.get_mut(&number) else {
            return;
        };
        if let Some(answered) = session.tick(&self.config, moment) {
            self.connects.file(place, answered, wakers);
        }
    }

    /// Removes session `number`, its patterns and its held connect, for a tick.
    ///
    /// Moves the connect's waker to `wakers`.
    pub(crate) fn close(&mut self, number: u64, wakers: &mut Wakers)
        ensures sessions { (n : ℕ) → kept_in self.new n ≡ (if nat_eq number n then None else kept_in self.old n) }
        ensures patterns { (n : ℕ) → patterns_in self.new n ≡ (if nat_eq number n then [] else patterns_in self.old n) }
        ensures connects { (p : ℕ) → connect_at self.new.connects p
            ≡ forgetting (held_in (kept_in self.old number)) (connect_at self.old.connects) p }
        ensures woken { AreWoken (connect_at self.old.connects) (connect_at self.new.connects) wakers.old wakers.new }
        ensures config { self.new.config ≡ self.old.config }
        ensures counted { AreCounted self.old → AreCounted self.new }
        ensures held { AreHeld self.old → AreHeld self.new }
    {
        self.tree.remove_all(number);
        let Some(session) = self.by_number.swap_remove(&number) else {
            return;
        };
        if let Some(place) = session.held_place() {
            self.connects.forget(place, wakers);
        }
    }

    /// Removes session `number` and its patterns, and answers its held connect.
    ///
    /// `place`: that of the disconnect. Moves the connect's waker to `wakers`.
    pub(crate) fn disconnect(&mut self, place: u64, number: u64, wakers: &mut Wakers)
        ensures sessions { (n : ℕ) → kept_in self.new n ≡ (if nat_eq number n then None else kept_in self.old n) }
        ensures patterns { (n : ℕ) → patterns_in self.new n ≡ (if nat_eq number n then [] else patterns_in self.old n) }
        ensures connects { (p : ℕ) → connect_at self.new.connects p
            ≡ filing_each place (answers_by (released self.old.config place Disconnected) (kept_in self.old number)) (connect_at self.old.connects) p }
        ensures woken { AreWoken (connect_at self.old.connects) (connect_at self.new.connects) wakers.old wakers.new }
        ensures config { self.new.config ≡ self.old.config }
        ensures counted { AreCounted self.old → AreCounted self.new }
        ensures held { AreHeld self.old → AreHeld self.new }
    {
        self.tree.remove_all(number);
        let Some(mut session) = self.by_number.swap_remove(&number) else {
            return;
        };
        let answered = session.close(&self.config);
        self.connects.file_if(place, answered, wakers);
    }

    /// Returns the configuration with which the sessions were created.
    pub fn config(&self) -> Config
        ensures { result ≡ self.now.config }
    {
        self.config
    }

    /// Returns the held connects and the filed answers of these sessions.
    pub fn connects(&self) -> &Connects
        ensures { result.now ≡ self.now.connects }
    {
        &self.connects
    }

    /// Returns their numbers, in no particular order.
    pub fn numbers(&self) -> &[u64]
        ensures { result.now ≡ keys_of self.now.by_number.entries }
    {
        self.by_number.keys().as_slice()
    }

    /// Reserves session `number` with its patterns of `from`, unless the session is already here.
    ///
    /// An empty session is stored until [`settle`](Self::settle) is called. On error, it may be
    /// stored without patterns.
    pub fn reserve_session(
        &mut self,
        alloc: Global,
        number: u64,
        from: &Sessions,
    ) -> Result<(), AllocError>
        requires clean { AreClean self.old }
        ensures sessions { OnOk result ((n : ℕ) → is_some (kept_in self.new n) ≡ (nat_eq number n || is_some (kept_in self.old n))) }
        ensures patterns { OnOk result ((n : ℕ) → patterns_in self.new n
            ≡ (if nat_eq number n && not (is_some (kept_in self.old n)) then patterns_in from.now number else patterns_in self.old n)) }
        ensures clean { OnOk result (AreClean self.new) }
        ensures kept { (n : ℕ) → is_some (kept_in self.old n) ≡ true → kept_in self.new n ≡ kept_in self.old n }
        ensures err { OnErr result ((self.new.tree ≡ self.old.tree) × ((n : ℕ) → nat_eq number n ≡ false → kept_in self.new n ≡ kept_in self.old n)) }
        ensures others { (self.new.config ≡ self.old.config) × (self.new.connects ≡ self.old.connects) }
    {
        if self.has(number) {
            return Ok(());
        }
        self.open(alloc, number, false, 0)?;
        self.tree.copy(alloc, &from.tree, number)
    }

    /// Adds a held connect of `session` at `place`, unless one is held or answered there.
    ///
    /// `deadline`: milliseconds since the server started, or `None` if no tick ends the hold.
    pub fn reserve_connect(
        &mut self,
        place: u64,
        session: u64,
        deadline: Option<u64>,
    ) -> Result<(), AllocError>
        ensures connects { OnOk result ((p : ℕ) → connect_at self.new.connects p
            ≡ (if nat_eq place p then option_or (connect_at self.old.connects p) (held_by session deadline) else connect_at self.old.connects p)) }
        ensures err { OnErr result ((p : ℕ) → connect_at self.new.connects p ≡ connect_at self.old.connects p) }
        ensures others { (self.new.config ≡ self.old.config) × (self.new.by_number ≡ self.old.by_number) × (self.new.tree ≡ self.old.tree) }
    {
        self.connects.reserve_connect(place, session, deadline)
    }

    /// Stores `session` in place of the one that [`reserve_session`](Self::reserve_session) stored.
    pub fn settle(&mut self, number: u64, session: Session)
        ensures sessions { (n : ℕ) → kept_in self.new n
            ≡ (if nat_eq number n then option_map (λ _. session.kept) (kept_in self.old number) else kept_in self.old n) }
        ensures others { (self.new.config ≡ self.old.config) × (self.new.tree ≡ self.old.tree) × (self.new.connects ≡ self.old.connects) }
    {
        if let Some(lent) = self.by_number.get_mut(&number) {
            *lent = session;
        }
    }

    /// Files the answer in `answered`, which the entry at `place` gives.
    ///
    /// Does nothing if its connect is neither held nor answered. Replaces an answer that is already
    /// filed. Moves the connect's waker to `wakers`.
    pub fn file(&mut self, place: u64, answered: Answered, wakers: &mut Wakers)
        ensures connects { (p : ℕ) → connect_at self.new.connects p
            ≡ (if nat_eq answered.place p then filed_as place answered.answer (connect_at self.old.connects p)
            else connect_at self.old.connects p) }
        ensures woken { wakers.new ≡ wakers.old ++ option_to_list (waker_of (connect_at self.old.connects answered.place)) }
        ensures others { (self.new.config ≡ self.old.config) × (self.new.by_number ≡ self.old.by_number) × (self.new.tree ≡ self.old.tree) }
    {
        self.connects.file(place, answered, wakers);
    }
}
