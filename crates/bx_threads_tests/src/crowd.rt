//! Test of eight threads that use one hub with four shards.

use crate::caller::Caller;
use crate::hubs::{Work, work_in_hub};
use crate::same::same;
use bx_calls::Stage;
use bx_calls::texts::{
    CONNECT_AT_ONCE, CONNECT_OTHER_AT_ONCE, HANDSHAKE, SUBSCRIBE, SUBSCRIBE_OTHER,
};
use bx_entry::ByRemainder;
use bx_hub::{HubKind, OpenGate};
use bx_message::Answer;
use std::process::Abort;
use std::sync::Wait;
use std::test::*;
use std::thread::{Threads, map_indices};

// The number of ticks that each of two threads appends, and of the sweeps that a third thread
// makes.
//
// With the requests of all threads, the ticks exceed the window's 4,096 batches.
const TICKS: usize = 2_000;

// The number of events that each of three threads publishes. All three together publish fewer than
// a session may queue.
const EVENTS: usize = 250;

// Number of events that all three threads publish.
const ALL_EVENTS: usize = 3 * EVENTS;

// For each of two sessions, the body of a request with a connect that is answered at once, and the
// number by which its events' numbers are raised, so that they differ from the other session's.
const SESSIONS: [(&str, usize); 2] = [(CONNECT_AT_ONCE, 0), (CONNECT_OTHER_AT_ONCE, ALL_EVENTS)];

// The number of connects that a thread posts for a session in one call of `receive`.
const CONNECTS: usize = 100;

// What one of the eight threads does.
#[derive(Clone, Copy, Debug)]
enum Job {
    // A thread's work: it publishes `EVENTS` events. The field is the number of the first event.
    Publish(usize),
    Tick,
    // A thread's work: it posts `CONNECTS` connects and collects the events. The field is the
    // session's index in `SESSIONS`.
    Receive(usize),
    Sweep,
}

// What each of the eight threads does.
const JOBS: [Job; 8] = [
    Job::Publish(0),
    Job::Receive(0),
    Job::Tick,
    Job::Publish(EVENTS),
    Job::Publish(2 * EVENTS),
    Job::Receive(1),
    Job::Tick,
    Job::Sweep,
];

impl<L: HubKind, R: Wait + Drop> Caller<'_, L, R> {
    // Publishes `EVENTS` events. The data of each is its number, counted from `first`. Returns
    // `None` if a post fails.
    fn publish_events(&mut self, first: usize) -> Option<()> {
        for number in first..first.checked_add(EVENTS)? {
            let body = format!(in self.stage.alloc;
                r#"[{{"channel":"/a/b","clientId":"000000000000000000000000000000000000000000000002","data":{number}}}]"#
            ).ok()?;
            self.post(body.as_str()).ok()?;
        }
        Some(())
    }

    // Posts a request with a connect, and returns its answer. Returns `None` if a call fails or the
    // connect has no answer.
    fn connect(&mut self, body: &str) -> Option<Answer> {
        let ticket = self.post(body).ok()??;
        let Stage { rt, alloc, hub } = self.stage;
        let (polled, _unfiled) = hub.poll_answer(rt, *alloc, &mut self.pass, ticket);
        polled.ok()?
    }

    // Posts `CONNECTS` connects of a session, and appends the raised numbers of their events to
    // `given`.
    //
    // `session`: the session's index in `SESSIONS`. Returns `None` if a call fails or a connect has
    // no answer.
    fn receive(&mut self, session: usize, given: &mut Vec<usize>) -> Option<()> {
        let (body, raise) = *SESSIONS.get(session)?;
        for _ in 0..CONNECTS {
            push_numbers(&self.connect(body)?, raise, given)?;
        }
        Some(())
    }

    // Sweeps all shards `TICKS` times, below place 0. Returns `None` if a sweep drops an answer.
    fn sweep_all(&mut self) -> Option<()> {
        for _ in 0..TICKS {
            if self.stage.hub.sweep(&self.stage.rt, 0).dropped() > 0 {
                return None;
            }
        }
        Some(())
    }

    // Performs the job with this index in `JOBS`, and returns the numbers of the events that it
    // gets. Returns `None` if a call fails.
    fn do_job(&mut self, index: usize) -> Option<Vec<usize>> {
        let mut given = Vec::new(self.stage.alloc);
        match *JOBS.get(index)? {
            Job::Publish(first) => self.publish_events(first)?,
            Job::Tick => self.ticks(TICKS).ok()?,
            Job::Receive(session) => self.receive(session, &mut given)?,
            Job::Sweep => self.sweep_all()?,
        }
        Some(given)
    }
}

// Appends the numbers of the events of `answer`, raised by `raise`, to `given`. Returns `None` if
// an event has no number or memory runs out.
fn push_numbers(answer: &Answer, raise: usize, given: &mut Vec<usize>) -> Option<()> {
    for event in answer.events.as_slice() {
        let number = event.event().payload.as_str().parse::<usize>().ok()?;
        given.push(number.checked_add(raise)?).ok()?;
    }
    Some(())
}

// Runs eight threads, and returns the numbers of all events that they get.
//
// Each thread performs one of `JOBS`. Returns `None` if a call fails.
fn given_to_threads<
    L: HubKind<Placing: Send + Sync, Gate: Send + Sync> + Send + Sync,
    R: Threads + Wait + Send + Sync + Drop,
>(stage: &Stage<L, R>) -> Option<Vec<usize>> {
    let work = |index| Caller::of(stage).do_job(index);
    let each = map_indices(&stage.rt, stage.alloc, JOBS.len(), &work);
    let mut all = Vec::new(stage.alloc);
    for given in each.ok()? {
        all.extend_from_slice(given?.as_slice()).ok()?;
    }
    Some(all)
}

// Runs eight threads on two new sessions, and returns the numbers of all events that these get, in
// ascending order.
//
// After the threads end, more connects fetch the events that are left. Returns `None` if a call
// fails.
fn given<
    L: HubKind<Placing: Send + Sync, Gate: Send + Sync> + Send + Sync,
    R: Threads + Wait + Send + Sync + Drop,
>(stage: &Stage<L, R>) -> Option<Vec<usize>> {
    let mut caller = Caller::of(stage);
    caller
        .post_all(&[HANDSHAKE, HANDSHAKE, SUBSCRIBE, SUBSCRIBE_OTHER])
        .ok()?;
    let mut all = given_to_threads(stage)?;
    caller.receive(0, &mut all)?;
    caller.receive(1, &mut all)?;
    all.sort().ok()?;
    Some(all)
}

/// Runs eight threads on two new sessions, and checks that each session gets each event once.
///
/// # Errors
///
/// [`Fail`] if a call fails.
pub fn run<
    L: HubKind<Placing: Send + Sync, Gate: Send + Sync> + Send + Sync,
    R: Threads + Wait + Abort + Send + Sync + Drop,
>(stage: &Stage<L, R>) -> Result<(), Fail> {
    let given = given(stage).ok_or("a call failed")?;
    // Each of two sessions gets each event of three publishing threads once.
    same(&stage.rt, given.len(), 2 * ALL_EVENTS, "given");
    for (number, event) in given.iter().enumerate() {
        same(&stage.rt, *event, number, "event");
    }
    Ok(())
}

// Checks that each session gets each published event once while eight threads run.
#[test]
fn eight_threads(rt: HostRuntime) -> Result<(), Fail> {
    work_in_hub(&rt, rt.alloc(), 4, ByRemainder, OpenGate, &Work::Crowd)
}
