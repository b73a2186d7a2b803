//! Test that tasks are woken while no shard is locked.

use crate::caller::{Caller, wait_for};
use crate::hubs::{Work, work_in_hub};
use crate::same::same;
use bx_calls::texts::{ANSWER, HANDSHAKE, PUBLISH};
use bx_calls::{Found, Stage};
use bx_entry::{ByRemainder, Ticket};
use bx_hub::{Gate, HubKind, Watch};
use futures::task::{Doorbell, Poll, Solo, Source, Waker};
use libc::net::{EFD_CLOEXEC, eventfd};
use os::FromRawFd;
use std::alloc::{AllocGlobal, Global};
use std::os::fd::{AsRawFd, OwnedFd};
use std::process::Abort;
use std::random::RandomSource;
use std::sync::atomic::{AtomicBool, Ordering};
use std::sync::{Arc, Wait};
use std::test::*;
use std::thread;
use std::thread::{Threads, join};
use std::time::{Clock, Duration};

// Creates an `eventfd` of Linux: a counter at 0. If it is full, a write blocks until it is read.
//
// Returns `None` if that fails.
fn new_counter() -> Option<OwnedFd> {
    let fd = eventfd(0, EFD_CLOEXEC);
    if fd < 0 {
        return None;
    }
    Some(unsafe { OwnedFd::from_raw_fd(fd) })
}

// Fills `counter`, which must be at 1, so that the next write blocks. Returns `true` if that
// succeeds.
fn fill(counter: i32) -> bool {
    libc::write(counter, &(u64::MAX - 2).to_ne_bytes()) == 8
}

// Reads `counter`, so that a blocked write continues. Returns `true` if that succeeds.
fn empty(counter: i32) -> bool {
    let mut count = [0; 8];
    libc::read(counter, &mut count) == 8
}

// The call that answers the held connect and so wakes the task that waits for the answer.
//
// `Publish` publishes an event to the connect's session. `Question` polls the connect's shard,
// which was paused while such an event was published.
#[derive(Clone, Copy, Debug, PartialEq, Eq)]
enum Waking {
    Publish,
    Question,
}

// Flags with which the threads of this test wait for one another. At first none is set.
#[derive(Default, Drop)]
struct Flags {
    // A flag that is set just before the call that wakes a task.
    is_armed: AtomicBool,
    // A flag that is set when the call that wakes a task has locked shard 1, before the shard
    // advances.
    has_locked: AtomicBool,
    // A flag that is set when every shard was locked and unlocked once, during the call that wakes
    // a task.
    swept: AtomicBool,
    // A flag that is set after the call that wakes a task has ended.
    ended: AtomicBool,
}

// A gate that sets `Flags::has_locked` before an advance of shard 1, if `Flags::is_armed` is set.
#[derive(Drop)]
struct Telling {
    flags: Arc<Flags, Global>,
}

impl Gate for Telling {
    fn before(&self, shard: usize) {
        if shard == 1 && self.flags.is_armed.load(Ordering::SeqCst) {
            self.flags.has_locked.store(true, Ordering::SeqCst);
        }
    }

    fn after(&self, _shard: usize) {}
}

impl<L: HubKind, R: Wait + Clock + Abort + Drop> Caller<'_, L, R> {
    // Opens two sessions, holds the first one's connect, and returns its ticket.
    //
    // For `Waking::Question`, the event for the first session is already published, while its shard
    // was paused.
    fn open(&mut self, waking: Waking) -> Result<Ticket, Fail> {
        let ticket = self.hold()?;
        self.post(HANDSHAKE)?;
        if waking == Waking::Question {
            let Stage { rt, hub, .. } = self.stage;
            same(rt, hub.pause(rt, 1).is_some(), true, "pause 1");
            self.post(PUBLISH)?;
            same(rt, hub.resume(rt, 1).is_some(), true, "resume 1");
        }
        Ok(ticket)
    }

    // Registers a waker of `scene.task` with the connect under `ticket`. A wake of it blocks.
    fn register(&mut self, ticket: Ticket, scene: &Scene) -> Result<(), Fail> {
        let waker = waker_of(&scene.task).ok_or("no waker")?;
        let Stage { rt, hub, .. } = self.stage;
        let (said, _watching) = hub.watch(rt, ticket, waker);
        let is_left = matches!(said, Watch::Stored(None));
        same(rt, is_left, true, "the waker");
        same(rt, fill(scene.counter), true, "a full counter");
        Ok(())
    }

    // Makes the call that wakes a task, and returns `true` if it succeeds.
    fn wake(&mut self, ticket: Ticket, waking: Waking, flags: &Flags) -> bool {
        flags.is_armed.store(true, Ordering::SeqCst);
        let answered = match waking {
            Waking::Publish => self.post(PUBLISH).is_ok(),
            Waking::Question => self.find(ticket, ANSWER).ok() == Some(Found::Wanted),
        };
        flags.ended.store(true, Ordering::SeqCst);
        answered
    }

    // Waits for `flags.has_locked`, then locks and unlocks every shard once, and sets
    // `flags.swept`.
    //
    // The wait ends as that of `wait_for` does. Returns `true` if `flags.has_locked` was set in
    // that time. The shards are locked in any case.
    fn sweep_once(&mut self, flags: &Flags) -> bool {
        let Stage { rt, hub, .. } = self.stage;
        let had_locked = wait_for(rt, &flags.has_locked);
        hub.sweep(rt, 0);
        flags.swept.store(true, Ordering::SeqCst);
        had_locked
    }
}

// Waits for `flags.swept` as `wait_for` does, and lets the blocked wake continue.
//
// For that, reads `counter`. Returns whether every shard could be locked while the wake was
// blocked, whether the call that wakes had ended too early, and whether `counter` could be read.
fn lets_go<R: Clock>(rt: &R, flags: &Flags, counter: i32) -> (bool, bool, bool) {
    let was_free = wait_for(rt, &flags.swept);
    thread::sleep(rt, Duration::from_millis(20));
    let had_ended = flags.ended.load(Ordering::SeqCst);
    (was_free, had_ended, empty(counter))
}

/// What a run of the test uses besides its hub.
#[derive(Drop)]
pub struct Scene {
    waking: Waking,
    // The task that sleeps until its connect is answered.
    task: Solo,
    flags: Arc<Flags, Global>,
    // The counter that blocks the wake of `task`, owned by it.
    counter: i32,
}

// Sweeps in one thread, and lets the blocked wake continue in another. Returns what they find.
fn sweep_and_let_go<
    L: HubKind<Placing: Send + Sync, Gate: Send + Sync> + Send + Sync,
    R: Threads + Wait + Clock + Abort + Send + Sync + Drop,
>(stage: &Stage<L, R>, scene: &Scene) -> (bool, (bool, bool, bool)) {
    let (flags, counter) = (&*scene.flags, scene.counter);
    join(
        &stage.rt,
        || Caller::of(stage).sweep_once(flags),
        || lets_go(&stage.rt, flags, counter),
    )
}

// Runs the test's threads, and checks what they find.
fn check_beside<
    L: HubKind<Placing: Send + Sync, Gate: Send + Sync> + Send + Sync,
    R: Threads + Wait + Clock + Abort + Send + Sync + Drop,
>(stage: &Stage<L, R>, ticket: Ticket, scene: &Scene) {
    let (waking, flags) = (scene.waking, &*scene.flags);
    let (answered, (had_locked, told)) = join(
        &stage.rt,
        || Caller::of(stage).wake(ticket, waking, flags),
        || sweep_and_let_go(stage, scene),
    );
    same(&stage.rt, (answered, had_locked), (true, true), "the calls");
    let (was_free, had_ended, let_go) = told;
    same(&stage.rt, was_free, true, ("each shard was free", waking));
    same(&stage.rt, had_ended, false, ("the call had ended", waking));
    same(&stage.rt, let_go, true, ("the counter was read", waking));
}

fn waker_of(task: &Solo) -> Option<Waker> {
    let mut slot = None;
    let source = Source::new();
    let mut cx = task.begin();
    let _: Poll<()> = cx.register(&source, &mut slot);
    cx.park();
    slot
}

/// Holds a connect, runs the test's threads while the task sleeps, and checks what they find.
///
/// # Errors
///
/// [`Fail`] if a call fails or the task is awake.
pub fn run<
    L: HubKind<Placing: Send + Sync, Gate: Send + Sync> + Send + Sync,
    R: Threads + Wait + Clock + Abort + Send + Sync + Drop,
>(stage: &Stage<L, R>, scene: &Scene) -> Result<(), Fail> {
    let mut caller = Caller::of(stage);
    let ticket = caller.open(scene.waking)?;
    caller.register(ticket, scene)?;
    let asleep = scene.task.sleep().ok_or("the task is awake")?;
    check_beside(stage, ticket, scene);
    asleep.end();
    Ok(())
}

// Runs the test's threads with a new hub, and checks what they find.
fn check_waking<R: Threads + Wait + Clock + Abort + RandomSource + AllocGlobal + Sync>(
    rt: &R,
    alloc: Global,
    waking: Waking,
) -> Result<(), Fail> {
    let fd = new_counter().ok_or("no counter")?;
    let counter = fd.as_raw_fd();
    let task = Solo::new(rt, Doorbell::from_event_fd(fd))?;
    let flags = Arc::new(alloc, Flags::default())?;
    let gate = Telling {
        flags: Arc::try_clone(&flags)?,
    };
    let scene = Scene {
        waking,
        task,
        flags,
        counter,
    };
    work_in_hub(rt, alloc, 2, ByRemainder, gate, &Work::Wake(scene))
}

// Checks that a publish and a poll unlock every shard before they wake a task.
#[test]
fn wakes_wait_for_no_shard(rt: HostRuntime) -> Result<(), Fail> {
    for waking in [Waking::Publish, Waking::Question] {
        check_waking(&rt, rt.alloc(), waking)?;
    }
    Ok(())
}
