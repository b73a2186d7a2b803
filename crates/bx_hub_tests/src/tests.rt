//! Tests of a hub's calls from one thread.
use crate::steps::{LATE, Step, check_runs};
use bx_calls::Found;
use bx_calls::texts::{ANSWER, CONNECT_OTHER, HANDSHAKE, PING, PUBLISH};
use bx_entry::Refusal;
use bx_hub::{HubFault, PostFault};
use std::test::*;

const TWO_PINGS: &str = r#"[{"channel":"/meta/ping"},{"channel":"/meta/ping"}]"#;

// Runs of steps, each with its own hub.
const RUNS: [&[Step]; 8] = [
    // A truncated body and a late tick are rejected. A request without messages appends nothing.
    &[
        Step::Refused("[", PostFault::Refused(Refusal::NotJson)),
        Step::Seen(0, 0),
        Step::Post("[]", 0, 0),
        Step::Post(HANDSHAKE, 0, 0),
        Step::Post("[]", 1, 0),
        Step::Seen(0, 1),
        Step::Tick(LATE, Err(PostFault::Refused(Refusal::BadMoment))),
    ],
    // A held connect has no answer until a publish. The answer can be taken once.
    &[
        Step::Hold,
        Step::Finds(2, ANSWER, Found::Nothing),
        Step::Publish,
        Step::Finds(2, ANSWER, Found::Wanted),
        Step::Finds(2, ANSWER, Found::Nothing),
        Step::Sweep(5, 0),
        Step::Elsewhere,
    ],
    // An answer that was not taken is swept once, by the place of the entry that filed it.
    &[
        Step::Hold,
        Step::Publish,
        Step::Sweep(4, 0),
        Step::Sweep(5, 1),
        Step::Sweep(5, 0),
        Step::Finds(2, ANSWER, Found::Nothing),
    ],
    // One tick answers the connects of two sessions in two shards. Both answers are swept.
    &[
        Step::Hold,
        Step::Post(HANDSHAKE, 3, 0),
        Step::Post(CONNECT_OTHER, 4, 0),
        Step::Tick(30_000, Ok(5)),
        Step::Sweep(5, 0),
        Step::Sweep(6, 2),
        Step::Sweep(6, 0),
    ],
    // A tick trims the window up to the place that all shards have reached. The caller sees this
    // after its next call.
    &[
        Step::Post(HANDSHAKE, 0, 0),
        Step::Post(HANDSHAKE, 1, 0),
        Step::Post(HANDSHAKE, 2, 0),
        Step::Tick(0, Ok(3)),
        Step::Seen(0, 4),
        Step::Tick(0, Ok(4)),
        Step::Seen(4, 5),
        Step::PauseShard(0),
        Step::Tick(0, Ok(5)),
        Step::Seen(5, 6),
        Step::Tick(0, Ok(6)),
        Step::Seen(5, 7),
        Step::ResumeShard(0),
        Step::Tick(0, Ok(7)),
        Step::Seen(5, 8),
        Step::Tick(0, Ok(8)),
        Step::Seen(8, 9),
    ],
    // A post trims the window if its messages make the list reach or pass a multiple of 64 entries.
    &[
        Step::Pings(0, 63, 0, 0),
        Step::Post("[]", 63, 0),
        Step::Seen(0, 63),
        Step::Post(PING, 63, 0),
        Step::Post("[]", 64, 0),
        Step::Seen(64, 64),
        Step::Pings(64, 70, 0, 0),
        Step::PauseShard(0),
        Step::Pings(70, 128, 0, 1),
        Step::Post("[]", 128, 1),
        Step::Seen(70, 128),
        Step::ResumeShard(0),
        Step::Pings(128, 191, 0, 0),
        Step::Post(TWO_PINGS, 191, 0),
        Step::Post("[]", 193, 0),
        Step::Seen(193, 193),
    ],
    // A filed answer can be taken after a trim.
    &[
        Step::Hold,
        Step::Publish,
        Step::Pings(5, 64, 0, 0),
        Step::Finds(2, ANSWER, Found::Wanted),
    ],
    // A closed hub admits no requests and ticks, and still returns a filed answer, once.
    &[
        Step::Hold,
        Step::Publish,
        Step::Close,
        Step::Refused(PUBLISH, PostFault::Closed),
        Step::Refused("[", PostFault::Refused(Refusal::NotJson)),
        Step::Refused("[]", PostFault::Closed),
        Step::Tick(0, Err(PostFault::Closed)),
        Step::Tick(LATE, Err(PostFault::Closed)),
        Step::Finds(2, ANSWER, Found::Wanted),
        Step::Finds(2, ANSWER, Found::Stopped(HubFault::Closed)),
        Step::Elsewhere,
    ],
];

// Checks the results of posts, ticks, polls and sweeps, and when the window is trimmed.
#[test]
fn one_thread(rt: HostRuntime) -> Result<(), Fail> {
    check_runs(&rt, &[1], false, &RUNS)
}
