//! Tests of the locks that a call holds while it waits for another one, and that gates enclose
//! advances.
ghost use Rattle.bx_entry.specs.Placings.{by_remainder, by_remainder-below};

use crate::caller::{Caller, wait_for};
use crate::hubs::{Work, work_in_hub};
use crate::same::same;
use bx_calls::Stage;
use bx_calls::texts::{CONNECT, HANDSHAKE, PING};
use bx_entry::{ByRemainder, Placing, Ticket};
use bx_hub::{Gate, HubKind};
use std::alloc::{AllocError, Global};
use std::process::Abort;
use std::sync::atomic::{AtomicBool, AtomicU64, Ordering};
use std::sync::{Arc, Wait};
use std::test::*;
use std::thread;
use std::thread::{Threads, join};
use std::time::{Clock, Duration};

// How often all shards are locked while a post has locked admission, one millisecond apart. Also
// how many milliseconds pass before a post, while a poll has locked a shard.
//
// Meanwhile a call in a third thread, which was stopped in a shard, continues until it waits for
// admission or for the shard.
const SWEEPS: u32 = 200;

// The number of pings that are posted before the post of `Call::Post`. That post then makes the
// list 64 entries long and trims the window.
const AHEAD: usize = 62;

// The call that the gate stops in shard 1, the last one that it advances: a tick, a post, or a
// poll, which is `Question`.
#[derive(Clone, Copy, Debug)]
enum Call {
    Tick,
    Post,
    Question,
}

// What two other threads do meanwhile.
#[derive(Clone, Copy, Debug)]
enum Others {
    // One thread posts, and stops while admission is locked. The other one sweeps all shards.
    PostAndSweeps,
    // One thread polls, and stops while shard 0 is locked. The other one posts.
    PollAndPost,
}

// The flags and counters that the threads of a test share. At first no flag is set.
#[derive(Default, Drop)]
struct Flags {
    // Whether a call must stop in shard 1, after the shard has advanced.
    holds_call: AtomicBool,
    // Whether a post must stop where it places a session, while admission is locked.
    holds_post: AtomicBool,
    // Whether a poll must stop in shard 0, after the shard has advanced.
    holds_poll: AtomicBool,
    // Whether the next post lets the stopped poll continue, while admission is locked.
    frees_poll: AtomicBool,
    // A flag that is set when a call has stopped in shard 1.
    is_call_stopped: AtomicBool,
    // A flag that is set when a post has stopped while admission is locked, or a poll in shard 0.
    is_other_stopped: AtomicBool,
    // A flag that is set when this post or poll may continue.
    is_free: AtomicBool,
    // A flag that is set when a thread has waited for another flag in vain.
    gave_up: AtomicBool,
    // How often the placing was called.
    asked: AtomicU64,
    // How often the placing was called before the last advance of a shard.
    before: AtomicU64,
    // The number of advances of a shard in which the placing was called.
    between: AtomicU64,
}

impl Flags {
    // Waits until `flag` is set. If this wait is in vain, sets `gave_up`.
    fn wait_for<C: Clock>(&self, clock: &C, flag: &AtomicBool) {
        if !wait_for(clock, flag) {
            self.gave_up.store(true, Ordering::SeqCst);
        }
    }

    // Stops a post or poll until it may continue.
    fn stop_other<C: Clock>(&self, clock: &C) {
        self.is_other_stopped.store(true, Ordering::SeqCst);
        self.wait_for(clock, &self.is_free);
    }
}

// A gate that stops one poll in shard 0 and one call in shard 1, and a placing that stops one post
// during admission. Both also count.
#[derive(Drop)]
struct Holding<C: Clock + Drop> {
    clock: C,
    flags: Arc<Flags, Global>,
}

// Stops one call after shard 1 has advanced, until a post in another thread has locked admission,
// or a poll has locked shard 0. Counts the advances in which the placing was called.
//
// A tick or post that continues then only trims the window. A poll that continues has nothing left
// to do.
impl<C: Clock + Drop> Gate for Holding<C> {
    fn before(&self, _shard: usize) {
        let asked = self.flags.asked.load(Ordering::SeqCst);
        self.flags.before.store(asked, Ordering::SeqCst);
    }

    fn after(&self, shard: usize) {
        if self.flags.asked.load(Ordering::SeqCst) > self.flags.before.load(Ordering::SeqCst) {
            self.flags.between.fetch_add(1, Ordering::SeqCst);
        }
        if shard == 1 && self.flags.holds_call.swap(false, Ordering::SeqCst) {
            self.flags.is_call_stopped.store(true, Ordering::SeqCst);
            self.flags
                .wait_for(&self.clock, &self.flags.is_other_stopped);
        }
        if shard == 0 && self.flags.holds_poll.swap(false, Ordering::SeqCst) {
            self.flags.stop_other(&self.clock);
        }
    }
}

// Places sessions by remainder, and counts the calls. Stops one post where it places its connect,
// while admission is locked, or lets a poll continue there.
impl<C: Clock + Drop> Placing for Holding<C> {
    ghost place_of = { λ _ number shards. by_remainder number shards };

    ghost is_below = { λ _ number shards some _. by_remainder-below number shards some };

    fn place(&self, number: u64, shards: usize) -> usize {
        self.flags.asked.fetch_add(1, Ordering::SeqCst);
        if self.flags.holds_post.swap(false, Ordering::SeqCst) {
            self.flags.stop_other(&self.clock);
        }
        if self.flags.frees_poll.swap(false, Ordering::SeqCst) {
            self.flags.is_free.store(true, Ordering::SeqCst);
        }
        ByRemainder.place(number, shards)
    }
}

impl<L: HubKind, R: Wait + Clock + Drop> Caller<'_, L, R> {
    // Polls for an answer at place 0 of `shard`, and returns `true` if the poll succeeds.
    fn polls(&mut self, shard: usize) -> bool {
        let ticket = Ticket { place: 0, shard };
        let Stage { rt, alloc, hub } = self.stage;
        let (polled, _unfiled) = hub.poll_answer(rt, *alloc, &mut self.pass, ticket);
        polled.is_ok()
    }

    // Makes `call`, which the gate stops in shard 1, and returns `true` if it succeeds.
    //
    // Before a post, posts `AHEAD` pings, which are not stopped.
    fn call(&mut self, flags: &Flags, call: Call) -> bool {
        if matches!(call, Call::Post) && self.post_all(&[PING; AHEAD]).is_err() {
            return false;
        }
        flags.holds_call.store(true, Ordering::SeqCst);
        match call {
            Call::Tick => self.tick(0).is_ok(),
            Call::Post => self.post(PING).is_ok(),
            Call::Question => self.polls(1),
        }
    }

    // Waits until a call is stopped in shard 1, and posts a connect. Returns `true` if it is
    // admitted.
    //
    // The placing stops this post while admission is locked.
    fn connect_once_stopped(&mut self, flags: &Flags) -> bool {
        flags.wait_for(&self.stage.rt, &flags.is_call_stopped);
        flags.holds_post.store(true, Ordering::SeqCst);
        self.post(CONNECT).is_ok()
    }

    // Locks every shard `SWEEPS` times while a post has locked admission, and lets the post
    // continue.
    //
    // The call that was stopped in shard 1 can continue meanwhile. Returns `true` if no answers
    // were dropped.
    fn sweep_meanwhile(&mut self, flags: &Flags) -> bool {
        let Stage { rt, hub, .. } = self.stage;
        flags.wait_for(rt, &flags.is_other_stopped);
        let mut swept: usize = 0;
        for _ in 0..SWEEPS {
            swept = swept.saturating_add(hub.sweep(rt, 0).dropped());
            thread::sleep(rt, Duration::from_millis(1));
        }
        flags.is_free.store(true, Ordering::SeqCst);
        swept == 0
    }

    // Waits until a call is stopped in shard 1, and polls for an answer in shard 0. Returns `true`
    // if the poll succeeds.
    //
    // The gate stops this poll while shard 0 is locked.
    fn poll_once_stopped(&mut self, flags: &Flags) -> bool {
        flags.wait_for(&self.stage.rt, &flags.is_call_stopped);
        flags.holds_poll.store(true, Ordering::SeqCst);
        self.polls(0)
    }

    // Posts a connect while a poll has locked shard 0, and returns `true` if it is admitted.
    //
    // The call that was stopped in shard 1 can continue before the post, until it waits for shard
    // 0. When the post has locked admission, it lets the poll continue.
    fn connect_later(&mut self, flags: &Flags) -> bool {
        flags.wait_for(&self.stage.rt, &flags.is_other_stopped);
        thread::sleep(&self.stage.rt, Duration::from_millis(SWEEPS as u64));
        flags.frees_poll.store(true, Ordering::SeqCst);
        self.post(CONNECT).is_ok()
    }
}

// Runs `others` in two threads, and returns whether the calls of each succeed.
fn both<
    L: HubKind<Placing: Send + Sync, Gate: Send + Sync> + Send + Sync,
    R: Threads + Wait + Clock + Send + Sync + Drop,
>(stage: &Stage<L, R>, flags: &Flags, others: Others) -> (bool, bool) {
    match others {
        Others::PostAndSweeps => join(
            &stage.rt,
            || Caller::of(stage).connect_once_stopped(flags),
            || Caller::of(stage).sweep_meanwhile(flags),
        ),
        Others::PollAndPost => join(
            &stage.rt,
            || Caller::of(stage).poll_once_stopped(flags),
            || Caller::of(stage).connect_later(flags),
        ),
    }
}

/// What three threads do, and the flags that they share.
#[derive(Drop)]
pub struct Scene<'a> {
    flags: &'a Flags,
    call: Call,
    others: Others,
}

/// Opens a session, and runs `scene` in three threads.
///
/// Checks that all calls succeed and that none waited in vain. If the call waited for admission
/// with a shard locked, the sweeps would block, and the post would wait for them in vain. If it
/// waited for shard 0 with admission locked, the post would block, and the poll would wait for it
/// in vain.
///
/// # Errors
///
/// [`Fail`] if the session cannot be opened.
pub fn run<
    L: HubKind<Placing: Send + Sync, Gate: Send + Sync> + Send + Sync,
    R: Threads + Wait + Clock + Abort + Send + Sync + Drop,
>(stage: &Stage<L, R>, scene: &Scene<'_>) -> Result<(), Fail> {
    let (rt, flags) = (&stage.rt, scene.flags);
    let (call, others) = (scene.call, scene.others);
    Caller::of(stage).post(HANDSHAKE)?;
    // Each shard places the new session when it applies the handshake.
    let between = flags.between.load(Ordering::SeqCst);
    same(rt, between, 2, "between the gates");
    let (called, (one, other)) = join(
        rt,
        || Caller::of(stage).call(flags, call),
        || both(stage, flags, others),
    );
    same(rt, (called, one, other), (true, true, true), "each call");
    let was_stopped = flags.is_other_stopped.load(Ordering::SeqCst);
    same(rt, was_stopped, true, "stopped under the lock");
    let in_vain = flags.gave_up.load(Ordering::SeqCst);
    same(rt, in_vain, false, "waited in vain");
    Ok(())
}

// Creates a gate or placing that obeys and sets `flags`.
fn obeying<'a, R: Clock>(
    clock: &'a R,
    flags: &Arc<Flags, Global>,
) -> Result<Holding<&'a R>, AllocError> {
    let flags = Arc::try_clone(flags)?;
    Ok(Holding { clock, flags })
}

// Runs `others` while `call` is stopped, with a new hub.
fn check_case<R: Threads + Wait + Clock + Abort + Sync>(
    rt: &R,
    alloc: Global,
    call: Call,
    others: Others,
) -> Result<(), Fail> {
    let flags = Arc::new(alloc, Flags::default())?;
    let (placing, gate) = (obeying(rt, &flags)?, obeying(rt, &flags)?);
    let scene = Scene {
        flags: &*flags,
        call,
        others,
    };
    work_in_hub(rt, alloc, 2, placing, gate, &Work::Locks(scene))
}

// Checks that calls unlock shards before they wait for admission, and that gates enclose advances.
#[test]
fn calls_wait_without_a_shard(rt: HostRuntime) -> Result<(), Fail> {
    for call in [Call::Tick, Call::Post, Call::Question] {
        check_case(&rt, rt.alloc(), call, Others::PostAndSweeps)?;
    }
    Ok(())
}

// Checks that calls that trim a window with room do not wait for a shard while admission is locked.
#[test]
fn trims_wait_without_admission(rt: HostRuntime) -> Result<(), Fail> {
    for call in [Call::Tick, Call::Post] {
        check_case(&rt, rt.alloc(), call, Others::PollAndPost)?;
    }
    Ok(())
}
