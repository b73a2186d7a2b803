ghost use Rattle.std.specs.Prelude.{◌≡◌, ℕ, nat_eq, option_map, if◌then◌else◌, OnOk, OnErr, IfSome, false};
ghost use Rattle.bx_entry.specs.Keeping.{Kept, after};
ghost use Rattle.bx_entry.specs.Sessions.{received, subscribed, unsubscribed};
ghost use Rattle.bx_session.specs.Views.{Countable};
ghost use Rattle.bx_connects.specs.Connects.{connect_at};
ghost use Rattle.bx_connects.specs.Waking.{AreWoken};
ghost use Rattle.bx_shard.specs.Effects.{answers_by, filing_each};
ghost use Rattle.bx_shard.specs.Publishing.{IsPacked, published_at};
ghost use Rattle.bx_shard.specs.Sessions.{AreCounted, AreHeld, HasRoom, kept_in};

use crate::publish::Parcel;
use crate::sessions::Sessions;
use bx_connects::Wakers;
use bx_names::Pattern;
use bx_session::Delivery;
use std::alloc::{AllocError, Global};

impl Sessions {
    /// Adds `patterns` to session `number`. On error, nothing has changed.
    ///
    /// Does nothing if it is not in this shard or has overflowed. If it overflows, removes all
    /// patterns.
    pub(crate) fn subscribe(
        &mut self,
        alloc: Global,
        number: u64,
        patterns: &[Pattern],
    ) -> Result<(), AllocError>
        requires counted { AreCounted self.old }
        ensures ok { OnOk result ((n : ℕ) → kept_in self.new n
            ≡ (if nat_eq number n then option_map (after (subscribed self.old.config patterns.now)) (kept_in self.old number)
            else kept_in self.old n)) }
        ensures err { OnErr result ((n : ℕ) → kept_in self.new n ≡ kept_in self.old n) }
        ensures others { (self.new.config ≡ self.old.config) × (self.new.connects ≡ self.old.connects) }
        ensures counted { AreCounted self.new }
        ensures held { AreHeld self.old → AreHeld self.new }
    {
        let Some(session) = self.by_number.get_mut(&number) else {
            return Ok(());
        };
        if session.is_overflowed() {
            return Ok(());
        }
        let fresh = self.tree.add_all(alloc, patterns, number)?;
        if session.subscribe(&self.config, patterns, fresh) {
            self.tree.remove_all(number);
        }
        Ok(())
    }

    /// Removes `patterns` from session `number`, if it is in this shard.
    pub(crate) fn unsubscribe(&mut self, number: u64, patterns: &[Pattern])
        requires counted { AreCounted self.old }
        ensures sessions { (n : ℕ) → kept_in self.new n
            ≡ (if nat_eq number n then option_map (after (unsubscribed patterns.now)) (kept_in self.old number)
            else kept_in self.old n) }
        ensures others { (self.new.config ≡ self.old.config) × (self.new.connects ≡ self.old.connects) }
        ensures counted { AreCounted self.old → AreCounted self.new }
        ensures held { AreHeld self.old → AreHeld self.new }
    {
        let Some(session) = self.by_number.get_mut(&number) else {
            return;
        };
        let gone = self.tree.remove_each(patterns, number);
        session.unsubscribe(patterns, gone);
    }

    /// Delivers `parcel` of the publish at `place` to its session, which must not have overflowed.
    ///
    /// If the session overflows, removes all its patterns. Moves the waker of an answered connect
    /// to `wakers`. Does nothing if the session is not in this shard.
    #[tactic(auto, using(crate::proofs::Receiving::received_patterns, crate::proofs::Receiving::received_hold))]
    pub(crate) fn receive(&mut self, place: u64, parcel: Parcel, wakers: &mut Wakers)
        requires here { IfSome (kept_in self.old parcel.number) (λ (k : Kept). (k.overflow ≡ false) × Countable k) }
        requires packed { IsPacked self.old parcel }
        ensures sessions { (n : ℕ) → kept_in self.new n
            ≡ (if nat_eq parcel.number n then option_map (after (received self.old.config (published_at place parcel.event))) (kept_in self.old parcel.number)
            else kept_in self.old n) }
        ensures connects { (p : ℕ) → connect_at self.new.connects p
            ≡ filing_each place (answers_by (received self.old.config (published_at place parcel.event)) (kept_in self.old parcel.number)) (connect_at self.old.connects) p }
        ensures woken { AreWoken (connect_at self.old.connects) (connect_at self.new.connects) wakers.old wakers.new }
        ensures room { (n : ℕ) → nat_eq parcel.number n ≡ false → HasRoom self.old n → HasRoom self.new n }
        ensures config { self.new.config ≡ self.old.config }
        ensures counted { AreCounted self.old → AreCounted self.new }
        ensures held { AreHeld self.old → AreHeld self.new }
    {
        let Parcel {
            number,
            event,
            further,
        } = parcel;
        let Some(session) = self.by_number.get_mut(&number) else {
            return;
        };
        match session.deliver(&self.config, place, event, further) {
            Delivery::Waits => {}
            Delivery::Given(answered) => self.connects.file(place, answered, wakers),
            Delivery::Overflowed => {
                self.tree.remove_all(number);
            }
        }
    }
}
