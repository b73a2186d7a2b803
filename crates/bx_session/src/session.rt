ghost use Rattle.std.specs.Prelude.{◌≡◌, ◌<◌, ◌≤◌, ◌+◌, ◌&&◌, not, ℕ, [], IfOk, IsOk, OnOk, OnErr, true, false, length, map, take, drop, fold, nat_lt, is_some, if◌then◌else◌, Option, None, Some, option_map, IsTrue, ◌^◌};
ghost use Rattle.std.specs.Option.{option_to_list};
ghost use Rattle.std.specs.VecDeque.Iter.{deque_iter_rest};
ghost use Rattle.bx_names.specs.InForce.{with_pattern, without_pattern};
ghost use Rattle.bx_advice.specs.declared.advice.Outcome.TheVariants.{Connected, Disconnected};
ghost use Rattle.bx_entry.specs.Answers.{events_of};
ghost use Rattle.bx_entry.specs.Keeping.{after, answers_of, kept, resumed};
ghost use Rattle.bx_message.specs.Events.{event_size};
ghost use Rattle.bx_entry.specs.Windows.{bytes_of};
ghost use Rattle.bx_entry.specs.Sessions.{ack_given, acknowledged, admitted, answered_or_held, begun, connected, ends_by, expired, forgotten, given, gives, has_room, overflowed, received, released, ride_portion, subscribed, unheld, unopened, unsubscribed};
ghost use Rattle.bx_session.specs.Views.{Countable, answered_of, connection_answers, delivery_answers, is_overflow, ride_most, wants_two};

use crate::answered::{Answered, ConnectResult, Delivery};
use crate::patterns::{with_all, without_all};
use crate::pending::PendingConnect;
use crate::room::RideRoom;
use bx_advice::{Config, Error, Outcome};
use bx_batches::Window;
use bx_history::History;
use bx_message::{AckReply, SharedEvent};
use bx_names::Pattern;
use std::alloc::{AllocError, Global};
use std::collections::vec_deque::Iter;
use std::marker::Model;

/// One session: its queued events, its held connect and its number of patterns.
///
/// A connect is held if there are no events. An acknowledging session keeps the events that it
/// sends until its client acknowledges them. Any other session drops them at once.
///
/// With too many patterns or events a session overflows: it drops its events, and later connects
/// fail, but a held one stays held. The caller, which stores the patterns, must then remove them.
/// Overflow is a policy of this server.
#[derive(Drop)]
pub struct Session {
    number: u64,
    // In milliseconds since the server started.
    opened: u64,
    ack: bool,
    has_overflowed: bool,
    held: Option<PendingConnect>,
    patterns: usize,
    in_force: History<Pattern>,
    window: Window,
}

impl Model for Session {
    ghost use Rattle.std.specs.Prelude.{◌≡◌, ◌≤◌, length, true, false, [], is_some};
    ghost use Rattle.bx_entry.specs.Sessions.{Live};
    ghost use Rattle.bx_session.specs.Views.{WithRoom};

    ghost Value = { WithRoom };

    ghost view = { λ s. record {
      kept = record {
        number = s.number;
        stage = Live;
        ack = s.ack;
        overflow = s.has_overflowed;
        held = s.held;
        patterns = s.in_force;
        queue = s.window.contents.queue;
        out = s.window.contents.out;
        num = s.window.contents.number;
      };
      spare = s.window.spare;
      opened = s.opened;
    } };

    ghost invariant = { λ s.
        (s.patterns ≡ length s.in_force) × (s.window.contents.out ≤ length s.window.contents.queue)
        × (s.has_overflowed ≡ true → s.window.contents.queue ≡ []) × (s.ack ≡ false → s.window.contents.out ≡ 0)
        × (is_some s.held ≡ true → s.window.contents.queue ≡ []) };
}

impl Session {
    /// Creates live session `number`, without patterns or events. Does not allocate.
    ///
    /// `ack`: whether it acknowledges batches (CometD's acknowledgement extension). `moment`:
    /// milliseconds since the server started.
    pub fn open(alloc: Global, number: u64, ack: bool, moment: u64) -> Session
        ensures kept { result.kept ≡ after (λ s. begun ack s s.stage) (kept (unopened number)) }
        ensures opened { result.opened ≡ moment }
    {
        Session {
            number,
            opened: moment,
            ack,
            has_overflowed: false,
            held: None,
            patterns: 0,
            in_force: History::new(),
            window: Window::new(alloc),
        }
    }

    /// Returns the session's number.
    pub fn number(&self) -> u64
        ensures { result ≡ self.now.kept.number }
    {
        self.number
    }

    /// Returns the moment of opening, in milliseconds since the server started.
    pub fn opened(&self) -> u64
        ensures { result ≡ self.now.opened }
    {
        self.opened
    }

    /// Returns `true` if the session acknowledges batches.
    pub fn acknowledges(&self) -> bool
        ensures { result ≡ self.now.kept.ack }
    {
        self.ack
    }

    /// Returns how many patterns are active.
    pub fn patterns(&self) -> usize
        ensures { result ≡ length self.now.kept.patterns }
    {
        self.patterns
    }

    /// Returns the number of outstanding and waiting events.
    pub fn queued_events(&self) -> usize
        ensures { result ≡ length self.now.kept.queue }
    {
        self.window.len()
    }

    /// Returns the length in bytes of the JSON texts of these events.
    pub fn queued_bytes(&self) -> usize
        ensures { result ≡ bytes_of self.now.kept.queue }
    {
        self.window.bytes()
    }

    /// Returns the number of events that were sent but not acknowledged.
    pub fn outstanding(&self) -> usize
        ensures { result ≡ self.now.kept.out }
    {
        self.window.outstanding()
    }

    /// Returns the number of the last batch, or 0 before the first.
    pub fn last_batch(&self) -> u64
        ensures { result ≡ self.now.kept.num }
    {
        self.window.outstanding_batch().number
    }

    /// Returns `true` if the session has overflowed.
    pub fn is_overflowed(&self) -> bool
        ensures { result ≡ self.now.kept.overflow }
    {
        self.has_overflowed
    }

    /// Returns `true` if a connect is held.
    pub fn is_held(&self) -> bool
        ensures { result ≡ is_some self.now.kept.held }
    {
        self.held.is_some()
    }

    /// Returns the place of the held connect, if any.
    pub fn held_place(&self) -> Option<u64>
        ensures { result ≡ option_map (λ p. p.place) self.now.kept.held }
    {
        self.held.as_ref().map(|held| held.place())
    }

    /// Adds `patterns`, and returns `true` if the session overflows.
    ///
    /// With more than `config.limits.patterns` active patterns, it drops all patterns and events.
    /// If it has overflowed before, returns `false` and changes nothing.
    ///
    /// `fresh`: how many of `patterns` are not active yet.
    pub fn subscribe(&mut self, config: &Config, patterns: &[Pattern], fresh: usize) -> bool
        requires fresh { length self.old.kept.patterns + fresh ≡ length (fold with_pattern self.old.kept.patterns patterns.now) }
        ensures overflows { result ≡ (not self.old.kept.overflow && self.new.kept.overflow) }
        ensures kept { self.new.kept ≡ after (subscribed config.now patterns.now) self.old.kept }
    {
        if self.has_overflowed {
            return false;
        }
        if passes(self.patterns, fresh, config.limits.patterns) {
            self.overflow();
            return true;
        }
        self.patterns += fresh;
        self.in_force = with_all(&self.in_force, patterns);
        false
    }

    /// Removes `patterns`, of which `gone` were active.
    pub fn unsubscribe(&mut self, patterns: &[Pattern], gone: usize)
        requires gone { length (fold without_pattern self.old.kept.patterns patterns.now) + gone ≡ length self.old.kept.patterns }
        ensures kept { self.new.kept ≡ after (unsubscribed patterns.now) self.old.kept }
    {
        self.patterns -= gone;
        self.in_force = without_all(&self.in_force, patterns);
    }

    /// Reserves room to deliver one event.
    pub fn reserve(&mut self) -> Result<(), AllocError>
        ensures ok { OnOk result (0 < self.new.spare) }
        ensures refused { OnErr result (self.old.spare ≡ 0) }
        ensures kept { self.new.kept ≡ self.old.kept }
    {
        self.window.reserve(1)
    }

    fn overflow(&mut self)
        ensures { self.new.kept ≡ after overflowed self.old.kept }
    {
        self.window.clear();
        self.patterns = 0;
        self.in_force = History::new();
        self.has_overflowed = true;
    }

    // Returns the acknowledgement in the reply to a connect: the number of the last batch.
    //
    // There is none if the connect fails or the session does not acknowledge.
    fn ack_for(&self, outcome: Outcome) -> AckReply
        ensures { result ≡ ack_given self.now.kept.ack self.now.kept.num outcome }
    {
        match outcome {
            Outcome::Connected | Outcome::Disconnected if self.ack => AckReply::AckNumber(
                self.last_batch(),
            ),
            _ => AckReply::NoAck,
        }
    }

    // Answers the held connect, if any, without events.
    fn release(&mut self, config: &Config, outcome: Outcome) -> Option<Answered>
        ensures answer { (place : ℕ) → option_to_list result ≡ map answered_of (answers_of (released config.now place outcome) self.old.kept) }
        ensures kept { self.new.kept ≡ after unheld self.old.kept }
    {
        let ack = self.ack_for(outcome);
        match self.held.take() {
            Some(held) => Some(held.answer_empty(config, outcome, ack)),
            None => None,
        }
    }

    // Returns how many events a connect acknowledges, and how many of the next ones it gets.
    fn look_ahead(&self, config: &Config, acked: Option<u64>) -> (usize, usize)
        ensures part { take result.1 (drop result.0 self.now.kept.queue) ≡ given config.now (acknowledged acked (resumed self.now.kept)) }
        ensures none { given config.now (acknowledged acked (resumed self.now.kept)) ≡ [] → result.1 ≡ 0 }
    {
        let done = match acked {
            Some(number) if self.ack => self.window.acknowledged(number),
            _ => 0,
        };
        (done, self.window.portion(done, config.limits.batch))
    }

    // Clones the events that a connect gets if it acknowledges batch `acked`.
    fn events_for(
        &self,
        alloc: Global,
        config: &Config,
        acked: Option<u64>,
    ) -> Result<Vec<SharedEvent>, AllocError>
        ensures events { IfOk result (λ events. events.items ≡ events_of (given config.now (acknowledged acked (resumed self.now.kept)))) }
        ensures none { given config.now (acknowledged acked (resumed self.now.kept)) ≡ [] → IsOk result }
    {
        let (done, count) = self.look_ahead(config, acked);
        if count == 0 {
            return Ok(Vec::new(alloc));
        }
        clone_part(alloc, self.window.events(), done, count)
    }

    // Drops the outstanding batch of an acknowledging session if `acked` is at least its number.
    fn acknowledge(&mut self, acked: Option<u64>)
        ensures { self.new.kept ≡ after (acknowledged acked) self.old.kept }
    {
        match acked {
            Some(number) if self.ack => self.window.acknowledge(number),
            _ => {}
        }
    }

    // Answers `connect` with `events`, or holds it if there are none and it may be held.
    fn settle(
        &mut self,
        config: &Config,
        connect: PendingConnect,
        events: Vec<SharedEvent>,
    ) -> Option<Answered>
        requires live { self.old.kept.overflow ≡ false }
        requires free { self.old.kept.held ≡ None }
        requires given { events.items ≡ events_of (given config.now (resumed self.old.kept)) }
        requires countable { Countable self.old.kept }
        ensures answer { option_to_list result ≡ map answered_of (answers_of (answered_or_held config.now connect) self.old.kept) }
        ensures kept { self.new.kept ≡ after (answered_or_held config.now connect) self.old.kept }
    {
        if !events.is_empty() {
            self.give(config, events.len());
            let ack = self.ack_for(Outcome::Connected);
            return Some(connect.answer_all(config, events, ack));
        }
        if connect.is_answered_at_once() {
            let ack = self.ack_for(Outcome::Connected);
            return Some(connect.answer_empty(config, Outcome::Connected, ack));
        }
        self.held = Some(connect);
        None
    }

    // Records that the first `count` events were sent.
    //
    // They become the outstanding batch, unless one is outstanding. A session that does not
    // acknowledge drops them.
    fn give(&mut self, config: &Config, count: usize)
        requires given { count ≡ length (given config.now (resumed self.old.kept)) }
        requires countable { Countable self.old.kept }
        ensures { self.new.kept ≡ after (gives config.now) self.old.kept }
    {
        if self.ack {
            self.window.give(config.limits.batch);
        } else {
            self.window.forget(count);
        }
    }

    /// Answers or holds a connect that acknowledges batch `acked`, if any.
    ///
    /// A connect that was held is answered as superseded. After an overflow, the new one fails.
    ///
    /// An acknowledging session drops the outstanding batch if `acked` is at least its number, and
    /// then forms the next one. Otherwise it sends the batch again. A session that does not
    /// acknowledge sends its first events, at most one batch, and drops them. Without events to
    /// send, the connect is held, if it may be.
    ///
    /// Bayeux 1.0, connect. CometD's acknowledgement extension. Superseding is this server's
    /// policy.
    pub fn connect(
        &mut self,
        alloc: Global,
        config: &Config,
        connect: PendingConnect,
        acked: Option<u64>,
    ) -> Result<ConnectResult, AllocError>
        requires countable { Countable self.old.kept }
        ensures ok { IfOk result (λ c. connection_answers c ≡ map answered_of (answers_of (connected config.now connect acked) self.old.kept)) }
        ensures kept { OnOk result (self.new.kept ≡ after (connected config.now connect acked) self.old.kept) }
        ensures err { OnErr result (self.new ≡ self.old) }
        ensures none { given config.now (acknowledged acked (resumed self.old.kept)) ≡ [] → IsOk result }
    {
        let events = self.events_for(alloc, config, acked)?;
        let superseded = self.release(config, Outcome::Failed(Error::SupersededConnect));
        let answered = self.admit(config, connect, acked, events);
        Ok(ConnectResult {
            superseded,
            answered,
        })
    }

    // Acknowledges `acked`, and answers `connect` with `events` or holds it.
    //
    // After an overflow, answers it with an error. No other connect may be held.
    fn admit(
        &mut self,
        config: &Config,
        connect: PendingConnect,
        acked: Option<u64>,
        events: Vec<SharedEvent>,
    ) -> Option<Answered>
        requires free { self.old.kept.held ≡ None }
        requires given { events.items ≡ events_of (given config.now (acknowledged acked (resumed self.old.kept))) }
        requires countable { Countable self.old.kept }
        ensures answer { option_to_list result ≡ map answered_of (answers_of (admitted config.now connect acked self.old.kept.overflow) self.old.kept) }
        ensures kept { self.new.kept ≡ after (admitted config.now connect acked self.old.kept.overflow) self.old.kept }
    {
        if self.is_overflowed() {
            let overflow = Outcome::Failed(Error::QueueOverflow);
            return Some(connect.answer_empty(config, overflow, AckReply::NoAck));
        }
        self.acknowledge(acked);
        self.settle(config, connect, events)
    }

    /// Clones `event` for [`deliver`](Self::deliver) if it is to be both sent and kept.
    ///
    /// This is so if an acknowledging session holds a connect.
    pub fn further(&self, event: &SharedEvent) -> Result<Option<SharedEvent>, AllocError>
        ensures { IfOk result (λ further. further ≡ (if wants_two self.now.kept then Some event.now else None)) }
    {
        if self.ack && self.held.is_some() {
            Ok(Some(event.clone()?))
        } else {
            Ok(None)
        }
    }

    fn has_room(&self, config: &Config, event: &SharedEvent) -> bool
        ensures room { result ≡ has_room config.now event.now (resumed self.now.kept) }
        ensures fits { IsTrue result → bytes_of self.now.kept.queue + event_size event.now < 2 ^ 64 }
    {
        let limits = config.limits;
        !self.window.is_full(limits.events, limits.bytes, event)
    }

    /// Delivers the event published at `place`.
    ///
    /// Sends it to the held connect, or queues it. An acknowledging session that sends it also
    /// keeps `further`, from [`further`](Self::further), as its next batch. If the event would
    /// exceed a limit of `config`, the session overflows.
    ///
    /// Does not allocate: call [`reserve`](Self::reserve) first. The session must not have
    /// overflowed.
    ///
    /// Bayeux 1.0, delivery of events.
    pub fn deliver(
        &mut self,
        config: &Config,
        place: u64,
        event: SharedEvent,
        further: Option<SharedEvent>,
    ) -> Delivery
        requires room { 0 < self.old.spare }
        requires live { self.old.kept.overflow ≡ false }
        requires further { wants_two self.old.kept ≡ true → further ≡ Some event }
        requires countable { Countable self.old.kept }
        ensures answer { delivery_answers result ≡ map answered_of (answers_of (received config.now (record { place = place; event = event })) self.old.kept) }
        ensures overflow { is_overflow result ≡ self.new.kept.overflow }
        ensures kept { self.new.kept ≡ after (received config.now (record { place = place; event = event })) self.old.kept }
    {
        if !self.has_room(config, &event) {
            self.overflow();
            return Delivery::Overflowed;
        }
        match self.held.take() {
            Some(held) => {
                if self.ack {
                    let Some(keep) = further else { unreachable!() };
                    self.window.push_reserved(place, keep);
                    self.window.give(config.limits.batch);
                }
                let ack = self.ack_for(Outcome::Connected);
                Delivery::Given(held.answer_one(config, event, ack))
            }
            None => {
                self.window.push_reserved(place, event);
                Delivery::Waits
            }
        }
    }

    /// Reserves room for the events sent with the reply to a rider, a request's last message.
    ///
    /// These are the queued events and one that the rider may publish, at most one batch.
    pub fn reserve_ride(&self, alloc: Global, config: &Config) -> Result<RideRoom, AllocError>
        ensures { IfOk result (λ room. ride_most config.now self.now.kept ≤ room) }
    {
        let most = if self.ack {
            0
        } else {
            config.limits.batch.min(self.window.len().saturating_add(1))
        };
        RideRoom::new(alloc, most)
    }

    /// Removes the events to send with the reply to a rider, and returns them in `room`.
    ///
    /// They are the first ones, at most one batch; none if the session acknowledges. Does not
    /// allocate.
    ///
    /// Policy of this server.
    pub fn ride(&mut self, config: &Config, room: RideRoom) -> Vec<SharedEvent>
        requires room { ride_portion config.now (resumed self.old.kept) ≤ room }
        ensures events { result.items ≡ events_of (take (ride_portion config.now (resumed self.old.kept)) self.old.kept.queue) }
        ensures kept { self.new.kept ≡ after (forgotten (ride_portion config.now (resumed self.old.kept))) self.old.kept }
    {
        let room = room.into_list();
        if self.ack {
            return room;
        }
        let count = self.window.portion(0, config.limits.batch);
        self.window.hand_over(count, room)
    }

    /// Answers the held connect without events if its hold has ended by `moment`.
    ///
    /// `moment`: milliseconds since the server started. Does not allocate.
    pub fn tick(&mut self, config: &Config, moment: u64) -> Option<Answered>
        ensures answer { (place : ℕ) → option_to_list result ≡ map answered_of (answers_of (expired config.now place moment) self.old.kept) }
        ensures kept { (place : ℕ) → self.new.kept ≡ after (expired config.now place moment) self.old.kept }
    {
        match &self.held {
            Some(held) if held.is_due(moment) => self.release(config, Outcome::Connected),
            _ => None,
        }
    }

    /// Answers the held connect without events when its client disconnects.
    ///
    /// The reply advises the client not to reconnect. Does not allocate.
    ///
    /// Bayeux 1.0, disconnect.
    pub fn close(&mut self, config: &Config) -> Option<Answered>
        ensures answer { (place : ℕ) → option_to_list result ≡ map answered_of (answers_of (released config.now place Disconnected) self.old.kept) }
        ensures kept { (place : ℕ) → self.new.kept ≡ after (released config.now place Disconnected) self.old.kept }
    {
        self.release(config, Outcome::Disconnected)
    }
}

fn clone_part(
    alloc: Global,
    events: Iter<'_, SharedEvent>,
    skipped: usize,
    count: usize,
) -> Result<Vec<SharedEvent>, AllocError>
    ensures { IfOk result (λ part. part.items ≡ take count (drop skipped (deque_iter_rest events.entry))) }
{
    let mut part = Vec::with_capacity(alloc, count)?;
    for event in events.skip(skipped).take(count) {
        part.push(event.clone()?)?;
    }
    Ok(part)
}

// Returns `true` if `count + more` exceeds `limit`, even if that sum does not fit in 64 bits.
fn passes(count: usize, more: usize, limit: usize) -> bool
    ensures { result ≡ nat_lt limit (count + more) }
{
    match count.checked_add(more) {
        Some(sum) => limit < sum,
        None => true,
    }
}
