ghost use Rattle.std.specs.Prelude.{◌≡◌, ◌≢◌, ◌==◌, ℕ, Some, None, option_map, if◌then◌else◌, Contains};
ghost use Rattle.std.specs.List.{list_any};
ghost use Rattle.bx_entry.specs.Keeping.{after};
ghost use Rattle.bx_entry.specs.Sessions.{expired};
ghost use Rattle.bx_session.specs.declared.answered.Answered.{Answered};
ghost use Rattle.bx_connects.specs.declared.connects.ConnectState.TheVariants.{Filed};
ghost use Rattle.bx_connects.specs.Connects.{connect_at, session_at};
ghost use Rattle.bx_connects.specs.Waking.{AreWoken};
ghost use Rattle.bx_shard.specs.Effects.{answers_by};
ghost use Rattle.bx_shard.specs.Sessions.{AreCounted, AreHeld, kept_in};
ghost use Rattle.bx_shard.specs.States.{dropped_by};

use crate::sessions::Sessions;
use bx_connects::Wakers;

impl Sessions {
    /// Ends the holds that are due at `moment`, for the tick at `place`.
    ///
    /// `moment`: milliseconds since the server started. Moves the wakers to `wakers`. The cost
    /// depends only on the number of holds that end.
    pub(crate) fn end_holds(&mut self, place: u64, moment: u64, wakers: &mut Wakers)
        requires held { AreHeld self.old }
        ensures sessions { (n : ℕ) → kept_in self.new n ≡ option_map (after (expired self.old.config place moment)) (kept_in self.old n) }
        ensures given { (n : ℕ) → (a : Answered) → Contains (answers_by (expired self.old.config place moment) (kept_in self.old n)) a
            → connect_at self.new.connects a.place ≡ Some (Filed n place a.answer) }
        ensures known { (p : ℕ) → session_at (connect_at self.new.connects p) ≡ session_at (connect_at self.old.connects p) }
        ensures kept { (p : ℕ) → ((n : ℕ) → (a : Answered) → Contains (answers_by (expired self.old.config place moment) (kept_in self.old n)) a → a.place ≢ p)
            → connect_at self.new.connects p ≡ connect_at self.old.connects p }
        ensures woken { AreWoken (connect_at self.old.connects) (connect_at self.new.connects) wakers.old wakers.new }
        ensures counted { AreCounted self.old → AreCounted self.new }
        ensures held { AreHeld self.new }
        ensures config { self.new.config ≡ self.old.config }
    {
        while let Some(number) = self.connects.first_due(moment) {
            self.tick(place, moment, number, wakers);
        }
    }

    /// Removes the sessions, their patterns and their held connects.
    ///
    /// Moves the wakers of these connects to `wakers`.
    pub(crate) fn close_all(&mut self, numbers: &[u64], wakers: &mut Wakers)
        requires held { AreHeld self.old }
        ensures sessions { (n : ℕ) → kept_in self.new n
            ≡ (if list_any (λ m. m == n) numbers.now then None else kept_in self.old n) }
        ensures connects { (p : ℕ) → connect_at self.new.connects p ≡ dropped_by numbers.now (connect_at self.old.connects p) }
        ensures woken { AreWoken (connect_at self.old.connects) (connect_at self.new.connects) wakers.old wakers.new }
        ensures counted { AreCounted self.old → AreCounted self.new }
        ensures held { AreHeld self.new }
        ensures config { self.new.config ≡ self.old.config }
    {
        for number in numbers {
            self.close(*number, wakers);
        }
    }
}
