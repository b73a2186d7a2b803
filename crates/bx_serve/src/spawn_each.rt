ghost use Rattle.std.specs.Prelude.{◌≡◌, IfErr, IfOk, IfSome, false};
ghost use Rattle.futures.specs.Runs.{AllItems};

use futures::executor::{SpawnError, TaskSet};
use futures::stream::select;
use futures::task::{Context, Poll};
use futures::{Future, Stream, StreamExt, ready};
use std::alloc::AllocGlobal;
use std::io;
use std::random::RandomSource;
use std::sync::Wait;
use std::thread::Threads;
use std::time::Clock;
use tokio::runtime::Runtime;

// How many futures one poll spawns before it yields to other tasks.
const BUDGET: u32 = 128;

/// Runs up to `count` futures of `first` and `other` as tasks, until `end` is ready.
///
/// Then waits for the tasks to end, up to the runtime's shutdown timeout. If memory runs out for a
/// task, its future is dropped.
///
/// # Errors
///
/// The error of a system call, or of an allocation that fails before any task is run.
///
/// # Blocking
///
/// Blocks until all tasks have ended.
pub fn run_until<R, S, F, A, T>(
    rt: &R,
    runtime: &mut Runtime,
    first: S,
    other: Option<S>,
    count: usize,
    end: A,
) -> io::Result<()>
where
    R: Wait + Threads + Clock + RandomSource + AllocGlobal + Sync,
    S: Stream<Item = F>,
    F: Future<Output = ()> + Send,
    A: Future<Output = T>,
    T: Drop,
    requires first { S.can_poll first }
    requires other { IfSome other S.can_poll }
    requires end { A.can_poll end }
    requires items { (each : S) → AllItems (S.yields each) F.can_poll }
{
    match other {
        None => run(rt, runtime, first.take(count), end),
        Some(other) => run(rt, runtime, select(first, other).take(count), end),
    }
}

// Runs a stream's futures as tasks, until `end` is ready or the stream ends. Waits for the tasks.
fn run<R, S, F, A, T>(rt: &R, runtime: &mut Runtime, futures: S, end: A) -> io::Result<()>
where
    R: Wait + Threads + Clock + RandomSource + AllocGlobal + Sync,
    S: Stream<Item = F>,
    F: Future<Output = ()> + Send,
    A: Future<Output = T>,
    T: Drop,
    requires stream { S.can_poll futures }
    requires end { A.can_poll end }
    requires items { AllItems (S.yields futures) F.can_poll }
{
    let tasks = runtime.task_set(rt)?;
    runtime.block_on_with(rt, &tasks, SpawnEach::new(&tasks, futures.take_until(end)))
}

/// A future that spawns each future of a stream as a task.
///
/// It is ready once the stream ends or `tasks`, the set of spawned tasks, is shut down. If memory
/// runs out for a task, its future is dropped.
#[derive(Drop)]
pub struct SpawnEach<'a, F: Future, S> {
    tasks: &'a TaskSet<F>,
    futures: S,
}

impl<'a, F: Future, S> SpawnEach<'a, F, S> {
    /// Creates the future, which spawns into `tasks` when it is polled.
    pub fn new(tasks: &'a TaskSet<F>, futures: S) -> SpawnEach<'a, F, S>
        ensures { result.futures ≡ futures }
    {
        SpawnEach { tasks, futures }
    }
}

// Returns whether the set of tasks is shut down. Drops the future of a failed spawn.
fn is_shut_down<F: Drop>(spawned: Result<(), SpawnError<F>>) -> bool
    ensures spawned { IfOk spawned (λ _. result ≡ false) }
    ensures refused { IfErr spawned (λ refused. result ≡ refused.1) }
{
    match spawned {
        Ok(()) => false,
        Err(refused) => refused.is_shutdown(),
    }
}

impl<F: Future<Output = ()>, S: Stream<Item = F>> Future for SpawnEach<'_, F, S> {
    type Output = ();

    ghost can_poll = { λ each. S.can_poll each.futures × AllItems (S.yields each.futures) F.can_poll };

    ghost needs = { λ each. S.needs each.futures };

    fn poll(&mut self, cx: &mut Context<'_>) -> Poll<()> {
        for _ in 0..BUDGET {
            let Some(future) = ready!(self.futures.poll_next(cx)) else {
                return Poll::Ready(());
            };
            if is_shut_down(self.tasks.spawn(future)) {
                return Poll::Ready(());
            }
        }
        cx.yield_now()
    }
}
