//! Tests of when a shard wakes the tasks that wait for answers, which no clause states.
use crate::same::same;
use bx_advice::Config;
use bx_entry::{ByRemainder, Entry, EntryKind, Ticket};
use bx_message::{Event, RawJson, Sequence, SharedEvent, Text};
use bx_names::{ChannelName, Pattern};
use bx_shard::{Shard, Wakers, Watch};
use futures::task::{Poll, Source, Waker};
use futures::test::MockTask;
use std::alloc::{AllocGlobal, Global};
use std::process::Abort;
use std::random::RandomSource;
use std::sync::Arc;
use std::test::Fail;

// A greater number of entries than any test has.
const MOST_ENTRIES: u64 = 100;

// What an entry of the list does.
#[derive(Clone, Copy)]
enum Deed {
    Open(u64),
    // Subscribes a session to a pattern.
    Subscribe(u64, &'static str),
    Connect(u64),
    // Publishes 7 to a channel.
    Publish(&'static str),
}

// Some of two tasks: whether the first is one of them, and whether the second is.
type Tasks = [bool; 2];

const NONE: Tasks = [false, false];

const FIRST: Tasks = [true, false];

const SECOND: Tasks = [false, true];

const BOTH: Tasks = [true, true];

// What a shard does with a waker: `Replaces` stores it, and returns the other task's waker.
#[derive(Clone, Copy, Debug, PartialEq, Eq)]
enum Watched {
    Stored,
    Replaces,
    Ready,
    Unknown,
    Shut,
}

// A step of a test, and what it must result in.
#[derive(Clone, Copy)]
enum Step {
    // Applies an entry. Its answers wake exactly these tasks.
    Apply(Deed, Tasks),
    // Registers a waker of the task, `FIRST` or `SECOND`, for the connect at this place.
    Watch(Tasks, u64, Watched),
    // Shuts the shard, which wakes both tasks.
    Shut,
}

const OPEN: Step = Step::Apply(Deed::Open(1), NONE);

const OPEN_OTHER: Step = Step::Apply(Deed::Open(2), NONE);

const SUBSCRIBE: Step = Step::Apply(Deed::Subscribe(1, "/a/*"), NONE);

const SUBSCRIBE_OTHER: Step = Step::Apply(Deed::Subscribe(2, "/b/*"), NONE);

const CONNECT: Step = Step::Apply(Deed::Connect(1), NONE);

const CONNECT_OTHER: Step = Step::Apply(Deed::Connect(2), NONE);

// Runs over a new shard, the only one of a server.
const RUNS: [&[Step]; 3] = [
    // The answer to a connect wakes the task that waits for it, once.
    &[
        OPEN,
        SUBSCRIBE,
        CONNECT,
        Step::Watch(FIRST, 2, Watched::Stored),
        Step::Apply(Deed::Publish("/a/b"), FIRST),
        Step::Apply(Deed::Publish("/a/b"), NONE),
        Step::Watch(FIRST, 2, Watched::Ready),
        Step::Watch(FIRST, 1, Watched::Unknown),
    ],
    // A newer waker replaces an older one. The older one wakes its task when it is dropped. The
    // answer wakes only the task of the newer one.
    &[
        OPEN,
        SUBSCRIBE,
        CONNECT,
        Step::Watch(FIRST, 2, Watched::Stored),
        Step::Watch(SECOND, 2, Watched::Replaces),
        Step::Apply(Deed::Publish("/a/b"), SECOND),
    ],
    // Two connects of two sessions are held. A shard that is shut wakes both tasks, and then stores
    // no waker. Later answers wake no task.
    &[
        OPEN,
        OPEN_OTHER,
        SUBSCRIBE,
        SUBSCRIBE_OTHER,
        CONNECT,
        CONNECT_OTHER,
        Step::Watch(FIRST, 4, Watched::Stored),
        Step::Watch(SECOND, 5, Watched::Stored),
        Step::Shut,
        Step::Watch(FIRST, 4, Watched::Shut),
        Step::Watch(FIRST, 5, Watched::Shut),
        Step::Apply(Deed::Publish("/a/b"), NONE),
        Step::Apply(Deed::Publish("/b/c"), NONE),
    ],
];

// Creates the kind of an entry that publishes 7 to `channel`.
fn publish(alloc: Global, channel: &str) -> Result<EntryKind, Fail> {
    let event = Event {
        channel: Text::new(alloc, channel)?,
        payload: RawJson::new(alloc, "7")?,
        id: None,
    };
    let name = ChannelName::read(alloc, channel)?;
    Ok(EntryKind::Publish(SharedEvent::new(alloc, event, name)?))
}

// Creates the kind of an entry that subscribes `session` to `pattern`.
fn subscribe(alloc: Global, session: u64, pattern: &str) -> Result<EntryKind, Fail> {
    let mut patterns = Sequence::new(alloc);
    patterns.push(Pattern::read(alloc, pattern)?)?;
    Ok(EntryKind::Subscribe { session, patterns })
}

// Creates the kind of the entry that does `deed`.
fn kind(alloc: Global, deed: Deed) -> Result<EntryKind, Fail> {
    match deed {
        Deed::Open(session) => Ok(EntryKind::Opened {
            session,
            ack: false,
        }),
        Deed::Subscribe(session, pattern) => subscribe(alloc, session, pattern),
        Deed::Connect(session) => Ok(EntryKind::Connect {
            session,
            client: Text::new(alloc, "a client id")?,
            id: None,
            acked: None,
            hold: 30_000,
        }),
        Deed::Publish(channel) => publish(alloc, channel),
    }
}

// Creates a waker of `task`.
fn waker(task: &MockTask) -> Option<Waker> {
    let mut slot = None;
    let source = Source::new();
    task.enter(|cx| {
        let _: Poll<()> = cx.register(&source, &mut slot);
    });
    slot
}

// Returns `true` if `task` was woken since the last call, or since a waker of it was created.
fn was_woken(task: &MockTask) -> bool {
    let woken = task.is_woken();
    task.enter(|_cx| ());
    woken
}

// Returns what `watch` says of a waker of `task`, and the tasks that are woken if it is dropped.
fn outcome(watch: &Watch, task: Tasks) -> (Watched, Tasks) {
    match watch {
        Watch::Stored(None) => (Watched::Stored, NONE),
        Watch::Stored(Some(_)) => (Watched::Replaces, [task[1], task[0]]),
        Watch::Ready(_) => (Watched::Ready, task),
        Watch::Unknown(_) => (Watched::Unknown, task),
        Watch::Shut(_) => (Watched::Shut, task),
    }
}

// The only shard of a server, and two tasks. The shard may store wakers of them.
#[derive(Drop)]
struct Scene {
    alloc: Global,
    shard: Shard<ByRemainder>,
    first: MockTask,
    second: MockTask,
}

impl Scene {
    // Returns which tasks were woken since the last call.
    fn woken(&self) -> Tasks {
        [was_woken(&self.first), was_woken(&self.second)]
    }

    // Checks that dropping `wakers` wakes exactly the tasks `woken`, and that none is woken before.
    fn check_drop<T: Drop>(&self, rt: &impl Abort, wakers: T, woken: Tasks, at: usize) {
        same(rt, self.woken(), NONE, at);
        drop(wakers);
        same(rt, self.woken(), woken, at);
    }

    // Applies the next entry, and returns the wakers of the connects that it answers.
    fn apply(&mut self, deed: Deed) -> Result<Wakers, Fail> {
        let place = self.shard.place();
        if place > MOST_ENTRIES {
            return Err(Fail::from("too many entries"));
        }
        let entry = Entry {
            place,
            moment: 0,
            kind: kind(self.alloc, deed)?,
            rides: None,
        };
        let mut wakers = Wakers::new(self.alloc);
        self.shard.apply(self.alloc, &entry, &mut wakers)?;
        Ok(wakers)
    }

    fn check_step(&mut self, rt: &impl Abort, step: Step, at: usize) -> Result<(), Fail> {
        match step {
            Step::Apply(deed, woken) => {
                let wakers = self.apply(deed)?;
                self.check_drop(rt, wakers, woken, at);
            }
            Step::Watch(task, place, watched) => {
                let own = if task == FIRST {
                    &self.first
                } else {
                    &self.second
                };
                let own = waker(own).ok_or("no waker")?;
                let watch = self.shard.watch(Ticket { place, shard: 0 }, own);
                let (found, woken) = outcome(&watch, task);
                same(rt, found, watched, at);
                self.check_drop(rt, watch, woken, at);
            }
            Step::Shut => {
                self.shard.shut();
                same(rt, self.woken(), BOTH, at);
            }
        }
        Ok(())
    }
}

// Checks `steps` of a new shard.
fn check<R: Abort + RandomSource + AllocGlobal>(rt: &R, steps: &[Step]) -> Result<(), Fail> {
    let alloc = rt.alloc();
    let config = Config::new(1, 30_000, 0, 10_000).ok_or("no configuration")?;
    let mut scene = Scene {
        alloc,
        shard: Shard::new(alloc, 0, config, Arc::new(alloc, ByRemainder)?),
        first: MockTask::new(rt)?,
        second: MockTask::new(rt)?,
    };
    same(rt, scene.woken(), BOTH, "new tasks are to be polled");
    for (index, step) in steps.iter().enumerate() {
        scene.check_step(rt, *step, index)?;
    }
    Ok(())
}

// Checks that answers, newer wakers and the end of a shard wake the tasks that wait.
#[test]
fn tasks_that_wait_are_woken(rt: HostRuntime) -> Result<(), Fail> {
    for steps in RUNS {
        check(&rt, steps)?;
    }
    Ok(())
}
