//! A hub under test, its caller's pass, and two waiting tasks that its gate inspects.
use crate::same::same;
use crate::steps::Shown;
use bx_calls::texts::{
    CONNECT, CONNECT_THIRD, HANDSHAKE, PING, PUBLISH, SUBSCRIBE, SUBSCRIBE_THIRD,
};
use bx_calls::{Found, Refused, Task, Tasks, find, is_of, long_ping, post, post_all, waker_of};
use bx_entry::{Arrival, ByTable, Ticket};
use bx_hub::{Gate, Hub, HubKind, Lagging, Pass, PostFault, RecordFront, Watch};
use bx_record::{Chunk, RecordFault};
use futures::task::Waker;
use std::alloc::{AllocGlobal, Global};
use std::process::Abort;
use std::random::RandomSource;
use std::sync::atomic::{AtomicBool, AtomicU64, Ordering};
use std::sync::{Arc, Wait};
use std::test::*;

/// Two waiting tasks, and what the hub's gate has recorded.
#[derive(Drop)]
pub struct Waiting {
    /// Shard of the first session.
    pub home: usize,
    pub tasks: Tasks,
    /// Whether the first task was woken while a call held the lock of shard `home`.
    pub woken_under_lock: AtomicBool,
    /// How often the hub called the gate before it advanced a shard.
    pub before: AtomicU64,
    /// How often it did so while the first task was woken.
    pub before_woken: AtomicU64,
    /// How often the hub called the gate after it advanced a shard.
    pub after: AtomicU64,
}

impl Waiting {
    /// Creates two tasks that are not woken, and counters at 0.
    ///
    /// `home`: the shard of the first session.
    ///
    /// # Errors
    ///
    /// [`Fail`] if memory runs out.
    pub fn new<R: Wait + AllocGlobal + RandomSource>(rt: &R, home: usize) -> Result<Waiting, Fail> {
        Ok(Waiting {
            home,
            tasks: Tasks::new(rt)?,
            woken_under_lock: AtomicBool::new(false),
            before: AtomicU64::new(0),
            before_woken: AtomicU64::new(0),
            after: AtomicU64::new(0),
        })
    }
}

/// A gate that counts its calls, and records whether the first task is woken while its shard is
/// locked.
#[derive(Drop)]
pub struct Looking {
    pub waiting: Arc<Waiting, Global>,
}

impl Gate for Looking {
    fn before(&self, _shard: usize) {
        self.waiting.before.fetch_add(1, Ordering::SeqCst);
        if self.waiting.tasks.first.is_woken() {
            self.waiting.before_woken.fetch_add(1, Ordering::SeqCst);
        }
    }

    fn after(&self, shard: usize) {
        self.waiting.after.fetch_add(1, Ordering::SeqCst);
        if shard == self.waiting.home && self.waiting.tasks.first.is_woken() {
            self.waiting.woken_under_lock.store(true, Ordering::SeqCst);
        }
    }
}

/// What the hub did with a waker that was to be registered for a connect.
#[derive(Clone, Copy, Debug, PartialEq, Eq)]
pub enum Watched {
    Unknown,
    /// The hub stored the waker. The value is `true` if it returned an older one.
    Stored(bool),
    Ready,
    Shut,
}

/// Creates the counts of lagging shards if `paused` are paused and all others have advanced.
pub fn behind(paused: usize) -> Lagging {
    Lagging {
        paused,
        ..Lagging::none()
    }
}

/// A hub, its caller's pass, and the waiting tasks.
#[derive(Drop)]
pub struct Bench<L: HubKind, H: Wait + Drop> {
    pub alloc: Global,
    pub hub: Arc<Hub<L, H>, Global>,
    pub pass: Pass<L>,
    pub waiting: Arc<Waiting, Global>,
    /// The last request that the hub did not admit, until a step posts it again.
    pub back: Option<Arrival>,
    /// The older waker that the last stored waker replaced, if any.
    pub older: Option<Waker>,
}

impl<L: HubKind, H: Wait + Drop> Bench<L, H> {
    /// Creates the ticket of a connect or rider at `place` in the first session's shard.
    pub fn ticket(&self, place: u64) -> Ticket {
        Ticket {
            place,
            shard: self.waiting.home,
        }
    }

    /// Posts `body`, and checks that it gets `place` and that its answer is pending.
    ///
    /// # Errors
    ///
    /// [`Refused`] if the post fails.
    pub fn wait<R: Wait + Abort>(&mut self, rt: &R, body: &str, place: u64) -> Result<(), Refused> {
        let posted = post(rt, self.alloc, &self.hub, &mut self.pass, body)?;
        same(rt, posted, (place, Some(self.ticket(place))), body);
        Ok(())
    }

    /// Opens three sessions, and subscribes the first and third.
    ///
    /// Their connects are held at places 5 and 6.
    ///
    /// # Errors
    ///
    /// [`Refused`] if a post fails.
    pub fn hold_two<R: Wait + Abort>(&mut self, rt: &R) -> Result<(), Refused> {
        let opening = [HANDSHAKE, HANDSHAKE, HANDSHAKE, SUBSCRIBE, SUBSCRIBE_THIRD];
        post_all(rt, self.alloc, &self.hub, &mut self.pass, &opening)?;
        self.wait(rt, CONNECT, 5)?;
        self.wait(rt, CONNECT_THIRD, 6)
    }

    /// Opens the second session, which then publishes an event for the first one.
    ///
    /// # Errors
    ///
    /// [`Refused`] if a post fails.
    pub fn publish<R: Wait>(&mut self, rt: &R) -> Result<(), Refused> {
        post_all(
            rt,
            self.alloc,
            &self.hub,
            &mut self.pass,
            &[HANDSHAKE, PUBLISH],
        )
    }

    /// Opens the second session, publishes with another pass, and extends `self.pass` to that pass.
    ///
    /// # Errors
    ///
    /// [`Refused`] if a post fails.
    pub fn publish_apart<R: Wait>(&mut self, rt: &R) -> Result<(), Refused> {
        let mut other = self.hub.pass();
        post_all(rt, self.alloc, &self.hub, &mut other, &[HANDSHAKE, PUBLISH])?;
        self.pass = self.pass.longer(&other);
        Ok(())
    }

    /// Posts `arrival`, and returns its first place and how many shards did not apply all of it.
    ///
    /// A request that is not admitted must come back with `body`, and is then stored in `back`.
    ///
    /// # Errors
    ///
    /// The hub's fault.
    pub fn post<R: Wait + Abort>(
        &mut self,
        rt: &R,
        arrival: Arrival,
        body: &str,
    ) -> Result<(u64, Lagging), PostFault> {
        match self.hub.post(rt, self.alloc, &mut self.pass, arrival) {
            Ok(posted) => Ok((posted.first, posted.advanced.behind())),
            Err((back, why)) => {
                same(rt, is_of(&back, body), true, body);
                self.back = Some(back);
                Err(why.fault())
            }
        }
    }

    /// Posts a ping for each place from `first` to before `end`, and checks the place that it gets.
    ///
    /// `length`: the least number of bytes of each body. `paused`: how many shards, because they
    /// are paused, must not apply each ping.
    ///
    /// # Errors
    ///
    /// [`Fail`] if memory runs out for a ping.
    pub fn pings<R: Wait + Abort>(
        &mut self,
        rt: &R,
        first: u64,
        end: u64,
        length: usize,
        paused: usize,
    ) -> Result<(), Fail> {
        for place in first..end {
            let ping = long_ping(self.alloc, length)?;
            let posted = self.post(rt, ping, PING);
            same(rt, posted, Ok((place, behind(paused))), place);
        }
        Ok(())
    }

    /// Checks what is seen of the session at `index` of the first session's shard.
    ///
    /// `wanted`: what must be seen of the first session. `None`: the shard must have no session at
    /// the index.
    ///
    /// # Errors
    ///
    /// [`Fail`] if memory runs out.
    pub fn sees<R: Wait + Abort>(
        &self,
        rt: &R,
        index: usize,
        wanted: Option<Shown>,
    ) -> Result<(), Fail> {
        let shown = self
            .hub
            .survey_session(rt, self.alloc, self.waiting.home, index)?;
        same(rt, shown.is_some(), wanted.is_some(), index);
        if let (Some((shown, _)), Some(wanted)) = (shown, wanted) {
            same(rt, (shown.number, shown.opened), (1, wanted.opened), index);
            let flags = (shown.ack, shown.has_overflowed, shown.is_held);
            same(
                rt,
                flags,
                (wanted.ack, wanted.has_overflowed, wanted.is_held),
                index,
            );
            let queue = (shown.events, shown.bytes, shown.outstanding, shown.batch);
            let wanted_queue = (
                wanted.events,
                wanted.bytes,
                wanted.outstanding,
                wanted.batch,
            );
            same(rt, queue, wanted_queue, index);
            same(rt, shown.patterns.len(), wanted.patterns.len(), index);
            for (pattern, text) in shown.patterns.iter().zip(wanted.patterns) {
                assert!(rt; pattern.as_str() == *text);
            }
        }
        Ok(())
    }

    /// Registers a waker of `task` for the connect with `ticket`, and returns the result.
    ///
    /// If the hub stores the waker, `older` is afterwards the waker that this replaced, if any.
    ///
    /// # Errors
    ///
    /// [`Fail`] if memory runs out for the waker.
    pub fn watch<R: Wait>(&mut self, rt: &R, ticket: Ticket, task: Task) -> Result<Watched, Fail> {
        let waker = waker_of(self.waiting.tasks.task(task)).ok_or("no waker")?;
        let (said, _watching) = self.hub.watch(rt, ticket, waker);
        match said {
            Watch::Unknown(_) => Ok(Watched::Unknown),
            Watch::Stored(older) => {
                self.older = older;
                Ok(Watched::Stored(self.older.is_some()))
            }
            Watch::Ready(_) => Ok(Watched::Ready),
            Watch::Shut(_) => Ok(Watched::Shut),
        }
    }

    /// Polls for the answer under `ticket`, and returns whether it was found and its text is
    /// `wanted`.
    ///
    /// # Errors
    ///
    /// [`Refused`] if memory runs out for the answer's text.
    pub fn find<R: Wait>(
        &mut self,
        rt: &R,
        ticket: Ticket,
        wanted: &str,
    ) -> Result<Found, Refused> {
        find(rt, self.alloc, &self.hub, &mut self.pass, ticket, wanted)
    }

    /// Takes and returns what waits of the record, and checks its `length` in bytes and the
    /// `fault`.
    ///
    /// `fault`: what must have ended the record. `None`: the record must not have ended. Before the
    /// bytes are taken, the hub must report that `length` bytes wait, or 0 if a fault ended the
    /// record.
    ///
    /// # Errors
    ///
    /// [`Fail`] if nothing is recorded.
    pub fn take_record<R: Wait + Abort>(
        &self,
        rt: &R,
        length: usize,
        fault: Option<RecordFault>,
    ) -> Result<Chunk<RecordFront<L>>, Fail> {
        let waiting = if fault.is_none() { length } else { 0 };
        same(rt, self.hub.waiting_record_bytes(rt), waiting, "what waits");
        match self.hub.take_record(rt, Vec::new(self.alloc)) {
            Ok(taken) => {
                same(rt, taken.fault, fault, "the fault");
                same(rt, taken.chunk.bytes().len(), length, "what is taken out");
                Ok(taken.chunk)
            }
            Err(_) => Err(Fail::from("nothing is recorded")),
        }
    }

    /// Takes what waits of the record, and checks that it is `lines`.
    ///
    /// `fault`: the fault that must have ended the record, if any.
    ///
    /// # Errors
    ///
    /// [`Fail`] if nothing is recorded or memory runs out.
    pub fn take_lines<R: Wait + Abort>(
        &self,
        rt: &R,
        lines: &[&str],
        fault: Option<RecordFault>,
    ) -> Result<(), Fail> {
        let mut wanted = Vec::new(self.alloc);
        for line in lines {
            wanted.extend_from_slice(line.as_bytes())?;
        }
        let chunk = self.take_record(rt, wanted.len(), fault)?;
        assert!(rt; chunk.bytes() == wanted.as_slice());
        Ok(())
    }
}
