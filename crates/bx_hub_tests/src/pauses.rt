//! Tests of paused shards.
use crate::steps::{Step, check_runs};
use bx_calls::Found;
use bx_calls::texts::{ANSWER, HANDSHAKE, PING, PUBLISH_OWN, RIDDEN, SUBSCRIBE};
use bx_hub::{HubFault, PostFault, Survey};
use std::test::*;

const IS_PAUSED: Step = Step::Finds(2, ANSWER, Found::Stopped(HubFault::Paused));

// The survey of the list after the steps `Hold` and `PublishApart`: three requests, then two.
const PUBLISHED: Survey = Survey {
    entries: 5,
    live: 2,
    opened: 2,
    batches: 5,
};

// Runs of steps, each with its own hub.
const RUNS: [&[Step]; 2] = [
    // A paused shard that has the whole list is not counted as stopped. Later the window fills up,
    // and posts fail until the shard resumes. An index past the last shard is unknown.
    &[
        Step::NoShard(2),
        Step::Pause,
        Step::Post("[]", 0, 0),
        Step::Pings(0, 4_096, 0, 1),
        Step::Refused(PING, PostFault::Behind { first: 0 }),
        Step::Again(PING, Err(PostFault::Behind { first: 0 })),
        Step::NoShard(2),
        Step::Resume,
        Step::Again(PING, Ok(4_096)),
    ],
    // Two shards are paused. If one resumes, the other still applies nothing. Resuming twice has no
    // effect.
    &[
        Step::PauseShard(0),
        Step::PauseShard(1),
        Step::Post(PING, 0, 2),
        Step::ResumeShard(0),
        Step::Post(PING, 1, 1),
        Step::ResumeShard(1),
        Step::Post(PING, 2, 0),
        Step::ResumeShard(0),
    ],
];

const RUNS_ANYWHERE: [&[Step]; 3] = [
    // A connect held in a paused shard gets another caller's event only after the shard resumes.
    // Resuming files no answer. A later poll does.
    &[
        Step::Hold,
        Step::Pause,
        Step::PublishApart,
        IS_PAUSED,
        Step::List(PUBLISHED),
        Step::Stands(3, 1, 0),
        Step::Resume,
        Step::Sweep(5, 0),
        Step::Finds(2, ANSWER, Found::Wanted),
    ],
    // A paused shard still returns a filed answer. After the hub is closed, a poll without an
    // answer fails with `Closed`, not with `Paused`.
    &[
        Step::Hold,
        Step::Publish,
        Step::Pause,
        Step::Stands(5, 0, 1),
        Step::Finds(2, ANSWER, Found::Wanted),
        Step::Stands(5, 0, 0),
        IS_PAUSED,
        Step::Close,
        Step::Finds(2, ANSWER, Found::Stopped(HubFault::Closed)),
    ],
    // An answer that was filed before its shard was paused can be swept. A poll for it then fails
    // with `Paused`.
    &[
        Step::Hold,
        Step::Publish,
        Step::Pause,
        Step::Sweep(4, 0),
        Step::Sweep(5, 1),
        IS_PAUSED,
    ],
];

const RUNS_RIDING: [&[Step]; 1] = [
    // A rider in a paused shard is answered after the shard resumes. It gets another session's
    // earlier event and its own, once.
    &[
        Step::Post(HANDSHAKE, 0, 0),
        Step::Post(SUBSCRIBE, 1, 0),
        Step::Pause,
        Step::PublishApart,
        Step::Wait(PUBLISH_OWN, 4),
        Step::Finds(4, RIDDEN, Found::Stopped(HubFault::Paused)),
        Step::Resume,
        Step::Finds(4, RIDDEN, Found::Wanted),
        Step::Finds(4, RIDDEN, Found::Nothing),
    ],
];

// Checks that a paused shard applies nothing, and continues when it is resumed.
#[test]
fn a_shard_stands_still(rt: HostRuntime) -> Result<(), Fail> {
    check_runs(&rt, &[0, 1], false, &RUNS)?;
    check_runs(&rt, &[0, 1, 4], false, &RUNS_ANYWHERE)?;
    check_runs(&rt, &[0, 1], true, &RUNS_RIDING)
}
