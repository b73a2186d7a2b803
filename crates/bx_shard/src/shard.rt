ghost use Rattle.std.specs.Prelude.{◌≡◌, ◌≤◌, ℕ, true, None};
ghost use Rattle.bx_connects.specs.Connects.{connect_at};
ghost use Rattle.bx_shard.specs.Props.{holds_props};
ghost use Rattle.bx_shard.specs.Sessions.{AreCounted, AreHeld, Fits, has_formed_at_most, kept_in};

use crate::sessions::Sessions;
use bx_advice::Config;
use bx_connects::{Connects, TakenAnswer, Wakers, Watch};
use bx_entry::{Entry, EntryKind, Placing, Ticket};
use bx_message::Answer;
use bx_session::Session;
use futures::task::Waker;
use indexmap::IndexMap;
use std::alloc::{AllocError, Global};
use std::sync::Arc;

/// One shard of the server, with sessions placed by a value of type `P`.
///
/// It has the live sessions that are placed in it, with their patterns, held connects, and filed
/// answers. It applies the entries of the list in order, independently of other shards.
#[derive(Drop)]
pub struct Shard<P> {
    pub(crate) placing: Arc<P>,
    pub(crate) index: usize,
    // Number of shards among which sessions are placed.
    pub(crate) shards: usize,
    pub(crate) place: u64,
    pub(crate) is_closed_to_wakers: bool,
    pub(crate) sessions: Sessions,
    ghost some_shard: { 1 ≤ shards },
    ghost shards_in_range: { shards ≤ 64 },
    ghost counted: { AreCounted sessions } by { Prim.hlevel holds_props },
    ghost held: { AreHeld sessions },
    ghost batches: { (n : ℕ) → has_formed_at_most place (kept_in sessions n) ≡ true },
    ghost fresh: { (p : ℕ) → place ≤ p → connect_at sessions.connects p ≡ None },
}

impl<P: Placing> Shard<P> {
    ghost use Rattle.std.specs.Prelude.{◌≡◌, ◌<◌, ℕ, nat_eq, true, false, None, if◌then◌else◌, OnOk, OnErr, IsOk, IfSome, IfNone, Some};
    ghost use Rattle.std.specs.Arc.{arc_value};
    ghost use Rattle.bx_advice.specs.Limits.{greatest_length};
    ghost use Rattle.bx_entry.specs.declared.entry.Entry.{Entry};
    ghost use Rattle.bx_connects.specs.Connects.{count_filed_below, filed_answer, watched};
    ghost use Rattle.bx_connects.specs.declared.connects.ConnectState.TheVariants.{Filed};
    ghost use Rattle.bx_connects.specs.Waking.{AreWoken};
    ghost use Rattle.bx_shard.specs.Refining.{Took};
    ghost use Rattle.bx_shard.specs.States.{Applied, IsAsBefore, IsSound, Swept, Watched, WasShut, connect_in, opens_in, session_in, takes_no_memory};
    ghost use Rattle.bx_shard.specs.Seen.{setup_in, state};

    /// Creates shard `index` before it applies entries.
    ///
    /// `placing` chooses the shard of each session, among `config.shards` shards.
    pub fn new(alloc: Global, index: usize, config: Config, placing: Arc<P>) -> Shard<P>
        ensures config { result.sessions.config ≡ config }
        ensures placing { arc_value result.placing ≡ arc_value placing }
        ensures index { result.index ≡ index }
        ensures shards { result.shards ≡ config.shards }
        ensures place { (result.place ≡ 0) × (result.is_closed_to_wakers ≡ false) }
        ensures sessions { (n : ℕ) → session_in (state P.place_of result) n ≡ None }
        ensures connects { (p : ℕ) → connect_in (state P.place_of result) p ≡ None }
        ensures sound { IsSound (state P.place_of result) }
    {
        Shard {
            placing,
            index,
            shards: config.shards,
            place: 0,
            is_closed_to_wakers: false,
            sessions: Sessions::new(alloc, config),
        }
    }

    /// Returns the shard's index, counted from 0.
    pub fn index(&self) -> usize
        ensures { result ≡ self.now.index }
    {
        self.index
    }

    /// Returns the place of the next entry, which is also the number of applied entries.
    pub fn place(&self) -> u64
        ensures place { result ≡ self.now.place }
        ensures sound { IsSound (state P.place_of self.now) }
    {
        self.place
    }

    /// Applies `entry`, the next entry of the list.
    ///
    /// Disconnects, rejected messages, ticks, and unsubscriptions without a rider always succeed.
    ///
    /// The wakers of answered and removed connects move to `wakers`. To wake their tasks, drop
    /// `wakers` after unlocking the shard.
    pub fn apply(
        &mut self,
        alloc: Global,
        entry: &Entry,
        wakers: &mut Wakers,
    ) -> Result<(), AllocError>
        requires next { entry.now.place ≡ self.old.place }
        requires end { entry.now.place < greatest_length }
        ensures done { OnOk result (Applied (state P.place_of self.old) entry.now (state P.place_of self.new)) }
        ensures refused { OnErr result (IsAsBefore (state P.place_of self.old) (state P.place_of self.new)) }
        ensures free { takes_no_memory entry.now ≡ true → IsOk result }
        ensures woken { AreWoken (connect_in (state P.place_of self.old)) (connect_in (state P.place_of self.new)) wakers.old wakers.new }
        ensures sound { IsSound (state P.place_of self.new) }
    {
        let belongs = self.opens_here(&entry.kind);
        self.sessions.follow(alloc, entry, belongs, wakers)?;
        self.place += 1;
        Ok(())
    }

    fn opens_here(&self, kind: &EntryKind) -> bool
        ensures { result ≡ opens_in (setup_in P.place_of self.now) self.now.index kind.now }
    {
        match kind {
            EntryKind::Opened { session, .. } => {
                self.placing.place(*session, self.shards) == self.index
            }
            _ => false,
        }
    }

    /// Removes and returns the answer filed under `ticket`, if it names this shard.
    pub fn take(&mut self, ticket: Ticket) -> Option<Answer>
        ensures answer { result ≡ (if nat_eq ticket.shard self.old.index
            then filed_answer (connect_in (state P.place_of self.old) ticket.place) else None) }
        ensures taken { nat_eq ticket.shard self.old.index ≡ true
            → Took ticket.place (state P.place_of self.old) (state P.place_of self.new) }
        ensures other { nat_eq ticket.shard self.old.index ≡ false → self.new ≡ self.old }
        ensures sound { IsSound (state P.place_of self.new) }
    {
        if ticket.shard != self.index {
            return None;
        }
        self.sessions.connects.take(ticket.place)
    }

    /// Removes and returns any one filed answer.
    ///
    /// The cost does not depend on how many are filed.
    pub fn take_any(&mut self) -> Option<TakenAnswer>
        ensures filed { IfSome result (λ filing. (session : ℕ)
            × (connect_in (state P.place_of self.old) filing.connect ≡ Some (Filed session filing.place filing.answer))) }
        ensures taken { IfSome result (λ filing.
            Took filing.connect (state P.place_of self.old) (state P.place_of self.new)) }
        ensures none { IfNone result ((p : ℕ) → filed_answer (connect_in (state P.place_of self.old) p) ≡ None) }
        ensures same { IfNone result (self.new ≡ self.old) }
        ensures sound { IsSound (state P.place_of self.new) }
    {
        self.sessions.connects.take_any()
    }

    /// Registers `waker` with the connect held under `ticket`, and returns the replaced waker.
    ///
    /// Returns `waker` itself if the answer is filed (`Ready`), no connect of this shard is held
    /// under `ticket` (`Unknown`), or the shard was shut (`Shut`).
    pub fn watch(&mut self, ticket: Ticket, waker: Waker) -> Watch
        ensures watch { nat_eq ticket.shard self.old.index ≡ true
            → result ≡ watched self.old.is_closed_to_wakers waker (connect_in (state P.place_of self.old) ticket.place) }
        ensures own { nat_eq ticket.shard self.old.index ≡ true
            → Watched ticket.place waker (state P.place_of self.old) (state P.place_of self.new) }
        ensures other { nat_eq ticket.shard self.old.index ≡ false
            → (result ≡ Watch.Unknown waker) × (self.new ≡ self.old) }
        ensures sound { IsSound (state P.place_of self.new) }
    {
        if ticket.shard != self.index {
            return Watch::Unknown(waker);
        }
        self.sessions
            .connects
            .watch(ticket.place, waker, self.is_closed_to_wakers)
    }

    /// Drops the filed answers that entries before place `before` gave, and returns their number.
    pub fn sweep(&mut self, before: u64) -> usize
        ensures swept { Swept before (state P.place_of self.old) (state P.place_of self.new) }
        ensures count { result ≡ count_filed_below before self.old.sessions.connects }
        ensures sound { IsSound (state P.place_of self.new) }
    {
        self.sessions.connects.sweep(before)
    }

    /// Drops all wakers, which wakes their tasks, and stores none from then on.
    ///
    /// Filed answers can still be taken.
    pub fn shut(&mut self)
        ensures shut { WasShut (state P.place_of self.old) (state P.place_of self.new) }
        ensures sound { IsSound (state P.place_of self.new) }
    {
        self.is_closed_to_wakers = true;
        self.sessions.connects.unwatch_all();
    }

    /// Creates shard `index` of `shards` from `sessions`, after `place` entries.
    ///
    /// The patterns and held connects must be exactly those of the live `sessions`. No session may
    /// have formed more than `place` batches. At `place` and later, no connect may be held and no
    /// answer filed.
    pub fn resume(
        placing: Arc<P>,
        index: usize,
        shards: usize,
        place: u64,
        is_closed_to_wakers: bool,
        sessions: Sessions,
    ) -> Shard<P>
        requires some_shard { 1 ≤ shards }
        requires shards_in_range { shards ≤ 64 }
        requires fit { Fits place sessions }
        ensures placing { result.placing ≡ placing }
        ensures index { (result.index ≡ index) × (result.shards ≡ shards) }
        ensures place { (result.place ≡ place) × (result.is_closed_to_wakers ≡ is_closed_to_wakers) }
        ensures sessions { result.sessions ≡ sessions }
    {
        Shard {
            placing,
            index,
            shards,
            place,
            is_closed_to_wakers,
            sessions,
        }
    }

    /// Returns the shard's sessions, with their patterns and connects.
    pub fn sessions(&self) -> &Sessions
        ensures { result.now ≡ self.now.sessions }
    {
        &self.sessions
    }

    /// Returns `true` if the shard was [`shut`](Self::shut).
    pub fn is_closed_to_wakers(&self) -> bool
        ensures { result ≡ self.now.is_closed_to_wakers }
    {
        self.is_closed_to_wakers
    }

    /// Converts the shard into its sessions, by number, and its connects.
    pub fn into_parts(self) -> (IndexMap<u64, Session>, Connects)
    where
        P: Drop,
        ensures sessions { result.0 ≡ self.sessions.by_number }
        ensures connects { result.1 ≡ self.sessions.connects }
    {
        let Shard { sessions, .. } = self;
        let Sessions {
            by_number,
            connects,
            ..
        } = sessions;
        (by_number, connects)
    }
}
