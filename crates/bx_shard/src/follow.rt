ghost use Rattle.std.specs.Prelude.{◌≡◌, ◌≤◌, ◌<◌, ℕ, true, None, OnOk, OnErr, IsOk};
ghost use Rattle.bx_connects.specs.Connects.{connect_at};
ghost use Rattle.bx_connects.specs.Waking.{AreWoken};
ghost use Rattle.bx_shard.specs.Following.{Followed, alone, rides_of};
ghost use Rattle.bx_shard.specs.Sessions.{AreCountable, AreCounted, AreHeld, kept_in};
ghost use Rattle.bx_shard.specs.States.{takes_no_memory, takes_none_by};

use crate::sessions::Sessions;
use bx_connects::Wakers;
use bx_entry::{Entry, EntryKind};
use bx_session::PendingConnect;
use std::alloc::{AllocError, Global};

impl Sessions {
    /// Applies `entry`, and answers its rider last. On error, nothing has changed.
    ///
    /// `belongs`: whether a session that `entry` opens belongs to this shard. The wakers of
    /// answered and removed connects move to `wakers`.
    pub(crate) fn follow(
        &mut self,
        alloc: Global,
        entry: &Entry,
        belongs: bool,
        wakers: &mut Wakers,
    ) -> Result<(), AllocError>
        requires fresh { connect_at self.old.connects entry.now.place ≡ None }
        requires counted { AreCounted self.old }
        requires held { AreHeld self.old }
        requires countable { AreCountable self.old }
        ensures done { OnOk result (Followed belongs entry.now self.old self.new) }
        ensures refused { OnErr result (((n : ℕ) → kept_in self.new n ≡ kept_in self.old n)
            × ((p : ℕ) → connect_at self.new.connects p ≡ connect_at self.old.connects p)) }
        ensures woken { AreWoken (connect_at self.old.connects) (connect_at self.new.connects) wakers.old wakers.new }
        ensures free { takes_no_memory entry.now ≡ true → IsOk result }
        ensures counted { AreCounted self.new }
        ensures held { AreHeld self.new }
        ensures config { self.new.config ≡ self.old.config }
    {
        let Some(rider) = self.rider_here(entry) else {
            return self.follow_alone(alloc, entry, belongs, wakers);
        };
        let room = self.prepare_ride(alloc, entry.place, rider)?;
        if let Err(error) = self.follow_alone(alloc, entry, belongs, wakers) {
            self.connects.forget(entry.place, wakers);
            return Err(error);
        }
        self.ride(entry.place, rider.session, room);
        Ok(())
    }

    // Applies `entry` without its rider, as `follow` does.
    fn follow_alone(
        &mut self,
        alloc: Global,
        entry: &Entry,
        belongs: bool,
        wakers: &mut Wakers,
    ) -> Result<(), AllocError>
        requires fresh { rides_of entry.now ≡ None → connect_at self.old.connects entry.now.place ≡ None }
        requires counted { AreCounted self.old }
        requires held { AreHeld self.old }
        requires countable { AreCountable self.old }
        ensures done { OnOk result (Followed belongs (alone entry.now) self.old self.new) }
        ensures refused { OnErr result (((n : ℕ) → kept_in self.new n ≡ kept_in self.old n)
            × ((p : ℕ) → connect_at self.new.connects p ≡ connect_at self.old.connects p)) }
        ensures woken { AreWoken (connect_at self.old.connects) (connect_at self.new.connects) wakers.old wakers.new }
        ensures free { takes_none_by entry.now.kind ≡ true → IsOk result }
        ensures counted { AreCounted self.new }
        ensures held { AreHeld self.new }
        ensures config { self.new.config ≡ self.old.config }
    {
        match &entry.kind {
            EntryKind::Opened { session, ack } => {
                if belongs && !self.has(*session) {
                    self.open(alloc, *session, *ack, entry.moment)?;
                }
            }
            EntryKind::Connect {
                session,
                client,
                id,
                acked,
                hold,
            } => {
                if self.has(*session) {
                    let (place, moment) = (entry.place, entry.moment);
                    let id = id.as_ref();
                    let connect = PendingConnect::new(alloc, place, client, id, moment, *hold)?;
                    self.connect(alloc, *session, connect, *acked, wakers)?;
                }
            }
            EntryKind::Subscribe { session, patterns } => {
                self.subscribe(alloc, *session, patterns.as_slice())?;
            }
            EntryKind::Unsubscribe { session, patterns } => {
                self.unsubscribe(*session, patterns.as_slice());
            }
            EntryKind::Publish(event) => self.publish(alloc, entry.place, event, wakers)?,
            EntryKind::Disconnect { session } => self.disconnect(entry.place, *session, wakers),
            EntryKind::Refused => {}
            EntryKind::Tick(numbers) => {
                self.end_holds(entry.place, entry.moment, wakers);
                self.close_all(numbers.as_slice(), wakers);
            }
        }
        Ok(())
    }
}
