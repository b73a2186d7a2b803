//! Tests of the wakers of held connects.
use crate::bench::Watched;
use crate::steps::{Step, check_runs};
use bx_calls::texts::{ANSWER, ANSWER_THIRD, CONNECTED, PING, PUBLISH};
use bx_calls::{Found, Task};
use bx_hub::PostFault;
use std::test::*;

// Runs of steps, each with its own hub.
const RUNS: [&[Step]; 4] = [
    // A tick at the connect's deadline wakes the task and answers the connect without events.
    &[
        Step::Hold,
        Step::Watch(2, Task::First, Watched::Stored(false)),
        Step::Tick(29_999, Ok(3)),
        Step::Woken(Task::First, false),
        Step::Tick(30_000, Ok(4)),
        Step::Woken(Task::First, true),
        Step::Finds(2, CONNECTED, Found::Wanted),
    ],
    // One publish wakes both tasks. Shard 0 advances first, since the list then has eight entries.
    // If the tasks wait in it, they are woken before the other shard advances. Taking one answer
    // leaves the other.
    &[
        Step::HoldTwo,
        Step::Watch(5, Task::First, Watched::Stored(false)),
        Step::Watch(6, Task::Second, Watched::Stored(false)),
        Step::Woken(Task::Second, false),
        Step::Post(PUBLISH, 7, 0),
        Step::WokenFirst(0),
        Step::Woken(Task::First, true),
        Step::Woken(Task::Second, true),
        Step::Finds(5, ANSWER, Found::Wanted),
        Step::Finds(6, ANSWER_THIRD, Found::Wanted),
    ],
    // A poll advances a shard that was paused. This wakes the task of another connect in the shard.
    &[
        Step::HoldTwo,
        Step::Watch(5, Task::First, Watched::Stored(false)),
        Step::Watch(6, Task::Second, Watched::Stored(false)),
        Step::Pause,
        Step::Post(PUBLISH, 7, 1),
        Step::Resume,
        Step::Woken(Task::Second, false),
        Step::Finds(5, ANSWER, Found::Wanted),
        Step::Woken(Task::Second, true),
        Step::Finds(6, ANSWER_THIRD, Found::Wanted),
    ],
    // A post to a full window advances a shard that was paused, and so wakes the task. The post
    // still fails, because the other shard is paused.
    &[
        Step::Hold,
        Step::Watch(2, Task::First, Watched::Stored(false)),
        Step::PauseShard(0),
        Step::PauseShard(1),
        Step::Publish,
        Step::Pings(5, 4_099, 0, 2),
        Step::Refused(PING, PostFault::Behind { first: 3 }),
        Step::Resume,
        Step::Woken(Task::First, false),
        Step::Refused(PING, PostFault::Behind { first: 3 }),
        Step::Woken(Task::First, true),
        Step::Finds(2, ANSWER, Found::Wanted),
    ],
];

const RUNS_ANYWHERE: [&[Step]; 2] = [
    // If a newer waker is registered, the hub returns the older one. The publish that answers the
    // connect wakes the task, and the answer is filed until it is taken. A ticket of a missing or
    // another shard is unknown.
    &[
        Step::Hold,
        Step::Elsewhere,
        Step::Watch(2, Task::First, Watched::Stored(false)),
        Step::Watch(2, Task::First, Watched::Stored(true)),
        Step::Woken(Task::First, false),
        Step::Publish,
        Step::Woken(Task::First, true),
        Step::Watch(2, Task::First, Watched::Ready),
        Step::Finds(2, ANSWER, Found::Wanted),
        Step::Watch(2, Task::First, Watched::Unknown),
    ],
    // Closing the hub wakes the task. No waker is stored afterwards.
    &[
        Step::Hold,
        Step::Watch(2, Task::First, Watched::Stored(false)),
        Step::Woken(Task::First, false),
        Step::Close,
        Step::Woken(Task::First, true),
        Step::Watch(2, Task::First, Watched::Shut),
    ],
];

// Checks which calls wake a task, and that the first task is not woken while its shard is locked.
#[test]
fn a_task_is_woken(rt: HostRuntime) -> Result<(), Fail> {
    check_runs(&rt, &[0, 1], false, &RUNS)?;
    check_runs(&rt, &[0, 1, 4], false, &RUNS_ANYWHERE)
}
