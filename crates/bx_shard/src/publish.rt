ghost use Rattle.std.specs.Prelude.{◌≡◌, ◌≢◌, ◌↔◌, Some, option_map, ℕ, IsTrue, Contains, OnOk, OnErr, IfOk};
ghost use Rattle.std.specs.List.{All};
ghost use Rattle.std.specs.List.Sorted.{IsStrictlyIncreasing};
ghost use Rattle.bx_names.specs.Kinds.{is_broadcast};
ghost use Rattle.bx_session.specs.declared.answered.Answered.{Answered};
ghost use Rattle.bx_connects.specs.declared.connects.ConnectState.TheVariants.{Filed};
ghost use Rattle.bx_connects.specs.Connects.{connect_at, session_at};
ghost use Rattle.bx_connects.specs.Waking.{AreWoken};
ghost use Rattle.bx_entry.specs.Keeping.{after};
ghost use Rattle.bx_entry.specs.Sessions.{published};
ghost use Rattle.bx_shard.specs.Effects.{answers_by};
ghost use Rattle.bx_shard.specs.Publishing.{AllReady, IsPacked, Turns, numbers_of, published_at, reaches};
ghost use Rattle.bx_shard.specs.Sessions.{AreCounted, AreCountable, AreHeld, kept_in, patterns_in};

use crate::sessions::Sessions;
use bx_connects::Wakers;
use bx_message::SharedEvent;
use bx_names::is_broadcast;
use std::alloc::{AllocError, Global};

/// An event for session `number`, with a clone if the session will both send and keep it.
#[derive(Drop)]
pub(crate) struct Parcel {
    pub(crate) number: u64,
    pub(crate) event: SharedEvent,
    pub(crate) further: Option<SharedEvent>,
}

impl Sessions {
    /// Returns the sessions with a pattern that matches `event`, in ascending order.
    ///
    /// Only the events of broadcast channels have receivers.
    pub(crate) fn receivers(
        &self,
        alloc: Global,
        event: &SharedEvent,
    ) -> Result<Vec<u64>, AllocError>
        ensures exact { IfOk result (λ numbers. (n : ℕ)
            → (Contains numbers.items n ↔ IsTrue (reaches event.now (patterns_in self.now n)))) }
        ensures ascending { IfOk result (λ numbers. IsStrictlyIncreasing numbers.items) }
    {
        let channel = event.event().channel.as_str();
        if !is_broadcast(channel) {
            return Ok(Vec::new(alloc));
        }
        let found = self.tree.nodes().find(alloc, event.name())?;
        Ok(found.numbers)
    }

    // Reserves room for `event` in each of the sessions, and returns their parcels in order. On
    // error, no session has received it.
    fn pack(
        &mut self,
        alloc: Global,
        numbers: &[u64],
        event: &SharedEvent,
    ) -> Result<Vec<Parcel>, AllocError>
        ensures sessions { (n : ℕ) → kept_in self.new n ≡ kept_in self.old n }
        ensures numbers { IfOk result (λ parcels. numbers_of parcels.items ≡ numbers.now) }
        ensures event { IfOk result (λ parcels. All (λ x. x.event ≡ event.now) parcels.items) }
        ensures packed { IfOk result (λ parcels. All (IsPacked self.new) parcels.items) }
        ensures others { (self.new.config ≡ self.old.config) × (self.new.tree ≡ self.old.tree) × (self.new.connects ≡ self.old.connects) }
    {
        let mut parcels = Vec::with_capacity(alloc, numbers.len())?;
        for number in numbers {
            let further = self.reserve(*number, event)?;
            let event = event.clone()?;
            let parcel = Parcel {
                number: *number,
                event,
                further,
            };
            parcels.push(parcel)?;
        }
        Ok(parcels)
    }

    // Delivers the parcels, and moves the wakers of answered connects to `wakers`.
    fn hand_out(&mut self, place: u64, parcels: Vec<Parcel>, wakers: &mut Wakers)
        requires ready { AllReady self.old parcels.items }
        requires tied { AreHeld self.old }
        requires counted { AreCounted self.old }
        ensures turns { Turns self.old.config place parcels.items self.old self.new }
        ensures woken { AreWoken (connect_at self.old.connects) (connect_at self.new.connects) wakers.old wakers.new }
        ensures counted { AreCounted self.new }
    {
        for parcel in parcels {
            self.receive(place, parcel, wakers);
        }
    }

    /// Delivers the event published at `place` to its receivers.
    ///
    /// Moves the wakers of answered connects to `wakers`. On error, no session has the event.
    pub(crate) fn publish(
        &mut self,
        alloc: Global,
        place: u64,
        event: &SharedEvent,
        wakers: &mut Wakers,
    ) -> Result<(), AllocError>
        requires counted { AreCounted self.old }
        requires held { AreHeld self.old }
        requires countable { AreCountable self.old }
        ensures sessions { OnOk result ((n : ℕ) → kept_in self.new n
            ≡ option_map (after (published self.old.config (published_at place event.now))) (kept_in self.old n)) }
        ensures given { OnOk result ((n : ℕ) → (a : Answered)
            → Contains (answers_by (published self.old.config (published_at place event.now)) (kept_in self.old n)) a → connect_at self.new.connects a.place ≡ Some (Filed n place a.answer)) }
        ensures known { OnOk result ((p : ℕ) → session_at (connect_at self.new.connects p) ≡ session_at (connect_at self.old.connects p)) }
        ensures kept { OnOk result ((p : ℕ) → ((n : ℕ) → (a : Answered)
            → Contains (answers_by (published self.old.config (published_at place event.now)) (kept_in self.old n)) a → a.place ≢ p)
            → connect_at self.new.connects p ≡ connect_at self.old.connects p) }
        ensures refused { OnErr result (((n : ℕ) → kept_in self.new n ≡ kept_in self.old n) × (self.new.connects ≡ self.old.connects)) }
        ensures woken { AreWoken (connect_at self.old.connects) (connect_at self.new.connects) wakers.old wakers.new }
        ensures counted { AreCounted self.new }
        ensures held { AreHeld self.new }
        ensures config { self.new.config ≡ self.old.config }
    {
        let numbers = self.receivers(alloc, event)?;
        let parcels = self.pack(alloc, numbers.as_slice(), event)?;
        self.hand_out(place, parcels, wakers);
        Ok(())
    }
}
