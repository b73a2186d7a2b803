//! Test of wakers. In each round, one thread posts a connect and sleeps until another thread's
//! event answers the connect.

use crate::caller::Caller;
use crate::hubs::{Work, work_in_hub};
use crate::same::same;
use bx_calls::texts::{CONNECT, HANDSHAKE, SUBSCRIBE};
use bx_calls::{Found, Stage};
use bx_entry::{ByRemainder, Ticket};
use bx_hub::{HubKind, OpenGate, Watch};
use futures::task::{Doorbell, Poll, Queue, Source, Waker};
use std::alloc::{AllocError, Global};
use std::process::Abort;
use std::sync::Wait;
use std::sync::atomic::{AtomicU64, Ordering};
use std::test::*;
use std::thread;
use std::thread::{Threads, join};
use std::time::{Clock, Duration, Instant};

// The maximum number of rounds of the test. Each round appends the batches of a connect and a
// publish. All rounds together append more batches than a full window has.
const ROUNDS: u64 = 10_000;

// The number of seconds after which no more rounds of the test begin. So the test also ends on a
// busy machine.
const SECONDS: u64 = 5;

// How often the publishing thread looks whether it may publish, before it gives up.
//
// It yields after each of the first `QUICK_LOOKS` looks, and sleeps for a millisecond after each
// later one.
const LOOKS: u32 = 11_000;

const QUICK_LOOKS: u32 = 1_000;

// The two parts of a request's body with a publish by the second session. The number of the round
// is written between them, as the event's data.
const PUBLISH: [&str; 2] = [
    r#"[{"channel":"/a/b","clientId":"000000000000000000000000000000000000000000000002","data":"#,
    "}]",
];

// The two parts of the response to the first session's connect in a round. The number of the round
// is written between them, as the event's data.
const ANSWER: [&str; 2] = [
    r#"[{"channel":"/a/b","data":"#,
    r#"},{"advice":{"interval":0,"reconnect":"retry","timeout":30000},"channel":"/meta/connect","clientId":"000000000000000000000000000000000000000000000001","successful":true}]"#,
];

// Returns the two texts `around` with `round` between them.
fn text_of(alloc: Global, around: [&str; 2], round: u64) -> Result<String, AllocError> {
    let [head, tail] = around;
    format!(in alloc; "{head}{round}{tail}")
}

/// What two threads share: the task of the one that sleeps, and the round of the other's next
/// publish.
#[derive(Drop)]
pub struct Turns {
    task: Queue,
    source: Source,
    round: AtomicU64,
}

impl Turns {
    // Sleeps until the task is woken, and stores a new waker in `slot`.
    //
    // Returns `None` if the task was shut down.
    fn sleep<R: Wait>(&self, rt: &R, slot: &mut Option<Waker>) -> Option<()> {
        let mut cx = self.task.next(rt)?;
        let _: Poll<()> = cx.register(&self.source, slot);
        cx.park();
        Some(())
    }

    // Waits until the event of `round` may be published, and returns what the publisher does next.
    //
    // Returns `Next::Over` if no more rounds follow, and `Next::Late` after `LOOKS` looks.
    // Otherwise returns `Next::Publish`.
    fn next<R: Clock>(&self, rt: &R, round: u64) -> Next {
        for look in 0..LOOKS {
            let told = self.round.load(Ordering::SeqCst);
            if told == OVER {
                return Next::Over;
            }
            if told >= round {
                return Next::Publish;
            }
            if look < QUICK_LOOKS {
                thread::yield_now();
            } else {
                thread::sleep(rt, Duration::from_millis(1));
            }
        }
        Next::Late
    }
}

// The value of `Turns::round` when no more rounds follow.
const OVER: u64 = u64::MAX;

// What the publishing thread does next.
#[derive(Clone, Copy, Debug, PartialEq, Eq)]
enum Next {
    Publish,
    Over,
    // The publishing thread gives up, because the next round did not begin in time.
    Late,
}

// Returns `true` if less than `SECONDS` seconds have passed since `start`, and the clock works.
fn has_time<R: Clock>(rt: &R, start: Instant) -> bool {
    let elapsed = start.elapsed(rt);
    elapsed.is_ok_and(|elapsed| elapsed.as_secs() < SECONDS)
}

// Counts of rounds begun and ended, of wakers registered with the hub, and of wakes from sleep.
#[derive(Clone, Copy, Debug, Default, PartialEq, Eq)]
struct Told {
    begun: u64,
    ended: u64,
    left: u64,
    woken: u64,
}

// The thread that posts connects, and sleeps until they are answered.
#[derive(Drop)]
struct Sleeper<'a, L: HubKind, R: Wait + Drop> {
    caller: Caller<'a, L, R>,
    turns: &'a Turns,
    // A waker of the task, for the next connect.
    slot: Option<Waker>,
    told: Told,
}

impl<'a, L: HubKind, R: Wait + Clock + Drop> Sleeper<'a, L, R> {
    // Registers the waker in `slot` with a connect, and sleeps until the task is woken.
    //
    // If the connect was already answered, puts the waker back and does not sleep. Otherwise counts
    // the waker and the wake in `told`, and stores a new waker in `slot`. Returns `None` if `slot`
    // is empty, the hub does not store the waker or has another one, or the task was shut down.
    fn wait(&mut self, ticket: Ticket) -> Option<()> {
        let Stage { rt, hub, .. } = self.caller.stage;
        let (said, _watching) = hub.watch(rt, ticket, self.slot.take()?);
        match said {
            Watch::Stored(None) => {
                self.told.left = self.told.left.wrapping_add(1);
                self.turns.sleep(rt, &mut self.slot)?;
                self.told.woken = self.told.woken.wrapping_add(1);
            }
            Watch::Ready(waker) => self.slot = Some(waker),
            Watch::Stored(Some(_waker)) | Watch::Unknown(_waker) | Watch::Shut(_waker) =>
                return None,
        }
        Some(())
    }

    // Polls for the answer under `ticket`. If there is none yet, calls `wait` and polls once again.
    //
    // Returns `None` unless a poll finds an answer with the text `wanted`.
    fn receive(&mut self, ticket: Ticket, wanted: &str) -> Option<()> {
        let mut found = self.caller.find(ticket, wanted).ok()?;
        if found == Found::Nothing {
            self.wait(ticket)?;
            found = self.caller.find(ticket, wanted).ok()?;
        }
        (found == Found::Wanted).then_some(())
    }

    // Posts a connect of the first session, lets the event of `round` be published, and returns a
    // ticket.
    //
    // In even rounds the event may be published already before the connect. Returns `None` if the
    // post fails.
    fn connect(&mut self, round: u64) -> Option<Ticket> {
        if round % 2 == 0 {
            self.turns.round.store(round, Ordering::SeqCst);
        }
        let ticket = self.caller.post(CONNECT).ok()?;
        self.turns.round.store(round, Ordering::SeqCst);
        ticket
    }

    // Posts the connect of `round`, and waits for its answer. Returns `None` unless the answer has
    // the event of `round`.
    fn play(&mut self, round: u64) -> Option<()> {
        let ticket = self.connect(round)?;
        let wanted = text_of(self.caller.stage.alloc, ANSWER, round).ok()?;
        self.receive(ticket, wanted.as_str())
    }

    // Plays at most `ROUNDS` rounds, until one fails or time is up, and returns the counts.
    //
    // Then sets `turns.round` to `OVER`, so that the publishing thread ends.
    fn play_all(stage: &'a Stage<L, R>, turns: &'a Turns, start: Instant) -> Told {
        let mut sleeper = Sleeper {
            caller: Caller::of(stage),
            turns,
            slot: None,
            told: Told::default(),
        };
        turns.sleep(&stage.rt, &mut sleeper.slot);
        for round in 1..=ROUNDS {
            if !has_time(&stage.rt, start) {
                break;
            }
            sleeper.told.begun = round;
            if sleeper.play(round).is_none() {
                break;
            }
            sleeper.told.ended = round;
        }
        turns.round.store(OVER, Ordering::SeqCst);
        sleeper.told
    }
}

impl<L: HubKind, R: Wait + Clock + Drop> Caller<'_, L, R> {
    // Publishes an event in each round, and returns the number of events.
    //
    // Returns `None` if a publish fails or a round does not begin in time.
    fn publish_rounds(&mut self, turns: &Turns) -> Option<u64> {
        for round in 1..=ROUNDS {
            match turns.next(&self.stage.rt, round) {
                Next::Publish => {
                    let body = text_of(self.stage.alloc, PUBLISH, round).ok()?;
                    self.post(body.as_str()).ok()?;
                }
                Next::Over => return Some(round - 1),
                Next::Late => return None,
            }
        }
        Some(ROUNDS)
    }

    // Runs `publish_rounds` and returns its result. If that is `None`, shuts the waiting task down,
    // so that it does not sleep forever.
    fn publish_or_shut_down(&mut self, turns: &Turns) -> Option<u64> {
        let published = self.publish_rounds(turns);
        if published.is_none() {
            turns.task.shut_down();
        }
        published
    }
}

/// Opens two sessions, plays the rounds in two threads, and checks the counts.
///
/// Each round that began must have ended, and each registered waker must have woken the task once.
/// At least one waker must have been registered, and one event published in each round.
///
/// # Errors
///
/// [`Fail`] if a call before the rounds or the clock fails.
pub fn run<
    L: HubKind<Placing: Send + Sync, Gate: Send + Sync> + Send + Sync,
    R: Threads + Wait + Clock + Abort + Send + Sync + Drop,
>(stage: &Stage<L, R>, turns: &Turns) -> Result<(), Fail> {
    Caller::of(stage).post_all(&[HANDSHAKE, HANDSHAKE, SUBSCRIBE])?;
    let start = Instant::now(&stage.rt)?;
    let (told, published) = join(
        &stage.rt,
        || Sleeper::play_all(stage, turns, start),
        || Caller::of(stage).publish_or_shut_down(turns),
    );
    let wanted = Told {
        ended: told.begun,
        woken: told.left,
        ..told
    };
    same(&stage.rt, told, wanted, published);
    same(&stage.rt, published, Some(told.begun), "published");
    same(&stage.rt, told.left > 0, true, "some waker was left");
    Ok(())
}

// Checks that each waker registered with a held connect wakes its task once.
#[test]
fn each_waker_wakes_once(rt: HostRuntime) -> Result<(), Fail> {
    let turns = Turns {
        task: Queue::new(&rt, Doorbell::parking())?,
        source: Source::new(),
        round: AtomicU64::new(0),
    };
    turns.task.add()?.schedule();
    work_in_hub(
        &rt,
        rt.alloc(),
        2,
        ByRemainder,
        OpenGate,
        &Work::Rounds(&turns),
    )
}
