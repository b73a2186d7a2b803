ghost use Rattle.std.specs.Prelude.{◌≡◌, ◌<◌, ℕ, nat_eq, not, ◌&&◌, ◌||◌, length, option_map, is_some, if◌then◌else◌, OnOk, IfOk};
ghost use Rattle.std.specs.List.{All};
ghost use Rattle.std.specs.Option.{option_or};
ghost use Rattle.bx_connects.specs.Connects.{filed_as, held_by};
ghost use Rattle.bx_shard.specs.Sessions.{patterns_in};
ghost use Rattle.bx_reshard.specs.Heirs.{AreAllClean, IsEmptyOf, SameConnects, SameSessions, connect_of, patterns_at, kept_of};

use bx_advice::Config;
use bx_session::{Answered, Session};
use bx_shard::{Sessions, Wakers};
use std::alloc::{AllocError, Global};

/// The sessions, patterns and connects of each new shard, while the shard is built.
#[derive(Drop)]
pub(crate) struct Heirs {
    pub(crate) shards: Vec<Sessions>,
}

impl Heirs {
    pub(crate) fn new(alloc: Global, config: Config, count: usize) -> Result<Heirs, AllocError>
        ensures many { IfOk result (λ heirs. length heirs.shards.items ≡ count) }
        ensures empty { IfOk result (λ heirs. All (IsEmptyOf config) heirs.shards.items) }
    {
        let mut shards = Vec::with_capacity(alloc, count)?;
        for index in 0..count {
            prove!(index < count);
            shards.push(Sessions::new(alloc, config))?;
        }
        Ok(Heirs { shards })
    }

    /// Reserves session `number` in shard `slot`, counted from 0, unless it is there already.
    ///
    /// Copies its patterns from `from`.
    pub(crate) fn reserve_session(
        &mut self,
        alloc: Global,
        slot: usize,
        number: u64,
        from: &Sessions,
    ) -> Result<(), AllocError>
        requires within { slot < length self.old.shards.items }
        requires clean { AreAllClean self.old.shards.items }
        ensures sessions { OnOk result ((k n : ℕ) → is_some (kept_of self.new.shards.items k n)
            ≡ ((nat_eq slot k && nat_eq number n) || is_some (kept_of self.old.shards.items k n))) }
        ensures patterns { OnOk result ((k n : ℕ) → patterns_at self.new.shards.items k n
            ≡ (if (nat_eq slot k && nat_eq number n) && not (is_some (kept_of self.old.shards.items k n)) then patterns_in from.now number
            else patterns_at self.old.shards.items k n)) }
        ensures clean { OnOk result (AreAllClean self.new.shards.items) }
        ensures connects { SameConnects self.old.shards.items self.new.shards.items }
    {
        let Some(heir) = self.shards.get_mut(slot) else {
            return Ok(());
        };
        heir.reserve_session(alloc, number, from)
    }

    /// Reserves in shard `slot` the connect that `session` holds at `place` until `deadline`.
    ///
    /// `deadline`: milliseconds since the server started, or `None` if no tick ends the hold.
    pub(crate) fn reserve_connect(
        &mut self,
        slot: usize,
        place: u64,
        session: u64,
        deadline: Option<u64>,
    ) -> Result<(), AllocError>
        requires within { slot < length self.old.shards.items }
        ensures connects { OnOk result ((k p : ℕ) → connect_of self.new.shards.items k p
            ≡ (if nat_eq slot k && nat_eq place p then option_or (connect_of self.old.shards.items k p) (held_by session deadline)
            else connect_of self.old.shards.items k p)) }
        ensures sessions { SameSessions self.old.shards.items self.new.shards.items }
    {
        let Some(heir) = self.shards.get_mut(slot) else {
            return Ok(());
        };
        heir.reserve_connect(place, session, deadline)
    }

    /// Stores `session` in shard `slot` as session `number`, if that number is reserved there.
    pub(crate) fn settle(&mut self, slot: usize, number: u64, session: Session)
        requires within { slot < length self.old.shards.items }
        ensures sessions { (k n : ℕ) → kept_of self.new.shards.items k n
            ≡ (if nat_eq slot k && nat_eq number n then option_map (λ _. session.kept) (kept_of self.old.shards.items k n)
            else kept_of self.old.shards.items k n) }
        ensures patterns { (k n : ℕ) → patterns_at self.new.shards.items k n ≡ patterns_at self.old.shards.items k n }
        ensures connects { SameConnects self.old.shards.items self.new.shards.items }
    {
        if let Some(heir) = self.shards.get_mut(slot) {
            heir.settle(number, session);
        }
    }

    /// Files the answer to a connect in shard `slot`, if the connect is reserved there.
    ///
    /// `place`: that of the entry that gave the answer. Moves the connect's waker to `wakers`.
    pub(crate) fn file(&mut self, slot: usize, place: u64, answered: Answered, wakers: &mut Wakers)
        requires within { slot < length self.old.shards.items }
        ensures connects { (k p : ℕ) → connect_of self.new.shards.items k p
            ≡ (if nat_eq slot k && nat_eq answered.place p then filed_as place answered.answer (connect_of self.old.shards.items k p)
            else connect_of self.old.shards.items k p) }
        ensures sessions { SameSessions self.old.shards.items self.new.shards.items }
    {
        if let Some(heir) = self.shards.get_mut(slot) {
            heir.file(place, answered, wakers);
        }
    }
}
