ghost use Rattle.std.specs.Prelude.{◌≡◌, ◌≤◌, ℕ, nat_eq, None, Some, OnOk, OnErr, IfOk, IfSome, option_map, if◌then◌else◌};
ghost use Rattle.std.specs.Option.{option_copied};
ghost use Rattle.bx_connects.specs.Connects.{connect_at};
ghost use Rattle.bx_connects.specs.declared.connects.ConnectState.TheVariants.{Filed};
ghost use Rattle.bx_entry.specs.Keeping.{Kept, resumed};
ghost use Rattle.bx_entry.specs.Sessions.{ride_portion};
ghost use Rattle.bx_session.specs.Views.{ride_most};
ghost use Rattle.bx_shard.specs.Following.{completed_by, given_up, rider_in, rides_of, unridden};
ghost use Rattle.bx_shard.specs.Sessions.{AreCounted, AreHeld, kept_in};

use crate::sessions::Sessions;
use bx_entry::{Entry, EntryKind, Rider};
use bx_message::{Answer, Reply, Sequence};
use bx_session::RideRoom;
use std::alloc::{AllocError, Global};

impl Sessions {
    pub(crate) fn rider_here<'e>(&self, entry: &'e Entry) -> Option<&'e Rider>
        ensures { option_copied result ≡ rider_in (kept_in self.now) entry.now }
    {
        let rider = rider_of(entry)?;
        if self.has(rider.session) {
            Some(rider)
        } else {
            None
        }
    }

    /// Files an answer without events to `rider`, which is at `place`, and returns room for events.
    ///
    /// At `place`, no connect may be held and no answer filed. On error, nothing has changed.
    pub(crate) fn prepare_ride(
        &mut self,
        alloc: Global,
        place: u64,
        rider: &Rider,
    ) -> Result<RideRoom, AllocError>
        requires fresh { connect_at self.old.connects place ≡ None }
        ensures room { IfOk result (λ room. IfSome (kept_in self.old rider.now.session) (λ (k : Kept). ride_most self.old.config k ≤ room)) }
        ensures connects { OnOk result ((p : ℕ) → connect_at self.new.connects p
            ≡ (if nat_eq place p then Some (Filed rider.now.session place (unridden rider.now)) else connect_at self.old.connects p)) }
        ensures err { OnErr result ((p : ℕ) → connect_at self.new.connects p ≡ connect_at self.old.connects p) }
        ensures others { (self.new.config ≡ self.old.config) × (self.new.by_number ≡ self.old.by_number) × (self.new.tree ≡ self.old.tree) }
    {
        let room = self.ride_room(alloc, rider.session)?;
        let answer = Answer {
            events: Sequence::new(alloc),
            reply: copy_of(&rider.reply)?,
        };
        self.connects.file_rider(place, rider.session, answer)?;
        Ok(room)
    }

    // Returns room for the events that the session sends with a rider's reply; for none if the
    // session is not in this shard.
    fn ride_room(&self, alloc: Global, number: u64) -> Result<RideRoom, AllocError>
        ensures { IfOk result (λ room. IfSome (kept_in self.now number) (λ (k : Kept). ride_most self.now.config k ≤ room)) }
    {
        match self.by_number.get(&number) {
            Some(session) => session.reserve_ride(alloc, &self.config),
            None => RideRoom::new(alloc, 0),
        }
    }

    /// Moves waiting events of session `number` into the answer filed for the rider at `place`.
    ///
    /// Moves at most one batch, and no events if the session acknowledges. Does nothing if the
    /// session is not in this shard. `room`: from [`prepare_ride`](Self::prepare_ride).
    pub(crate) fn ride(&mut self, place: u64, number: u64, room: RideRoom)
        requires room { IfSome (kept_in self.old number) (λ (k : Kept). ride_portion self.old.config (resumed k) ≤ room) }
        ensures sessions { (n : ℕ) → kept_in self.new n
            ≡ (if nat_eq number n then option_map (given_up self.old.config) (kept_in self.old number) else kept_in self.old n) }
        ensures connects { (p : ℕ) → connect_at self.new.connects p
            ≡ (if nat_eq place p then completed_by self.old.config (kept_in self.old number) (connect_at self.old.connects place) else connect_at self.old.connects p) }
        ensures others { (self.new.config ≡ self.old.config) × (self.new.tree ≡ self.old.tree) }
        ensures counted { AreCounted self.old → AreCounted self.new }
        ensures held { AreHeld self.old → AreHeld self.new }
    {
        if let Some(session) = self.by_number.get_mut(&number) {
            let events = session.ride(&self.config, room);
            self.connects.set_events(place, events);
        }
    }
}

fn rider_of(entry: &Entry) -> Option<&Rider>
    ensures { option_copied result ≡ rides_of entry.now }
{
    match &entry.kind {
        EntryKind::Subscribe { .. } | EntryKind::Unsubscribe { .. } | EntryKind::Publish(_) => {
            entry.rides.as_ref()
        }
        _ => None,
    }
}

fn copy_of(reply: &Reply) -> Result<Reply, AllocError>
    ensures { IfOk result (λ copy. copy ≡ reply.now) }
{
    reply.clone()
}
