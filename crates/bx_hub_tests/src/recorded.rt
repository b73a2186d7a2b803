//! Tests of the hub's record.
use crate::steps::{LATE, Step, check_runs};
use bx_advice::BODY_LIMIT;
use bx_calls::texts::{HANDSHAKE, PING};
use bx_entry::Refusal;
use bx_hub::PostFault;
use bx_record::RecordFault;
use std::test::*;

// The recorded lines of a handshake.
const HANDSHAKE_LINES: &str =
    "0 N 00000000000000000000000000000000\n0 P [{\"channel\":\"/meta/handshake\",\"version\":\"1.0\",\"supportedConnectionTypes\":[\"long-polling\"]}]\n";

// The recorded line of a ping.
const PING_LINE: &str = "0 P [{\"channel\":\"/meta/ping\"}]\n";

// The recorded line of a tick.
const TICK_LINE: &str = "5 T\n";

// Length in bytes of 63 lines, each with the longest ping that a line can hold.
const WAITING: usize = 63 * (BODY_LIMIT + 5);

// Length in bytes of a ping. After `WAITING` bytes, its line exceeds the limit of 64 MiB by one
// byte.
const TOO_LONG: usize = 67_108_864 - WAITING - 4;

// Runs of steps, each with its own hub.
const RUNS: [&[Step]; 4] = [
    // The record has what was appended, once and in order, without rejected ticks and empty
    // requests. No second record can start.
    &[
        Step::Starts(true),
        Step::Lines(&[], None),
        Step::Post("[]", 0, 0),
        Step::Post(HANDSHAKE, 0, 0),
        Step::Tick(LATE, Err(PostFault::Refused(Refusal::BadMoment))),
        Step::Post(PING, 1, 0),
        Step::Lines(&[HANDSHAKE_LINES, PING_LINE], None),
        Step::Lines(&[], None),
        Step::Tick(5, Ok(2)),
        Step::Starts(false),
        Step::Lines(&[TICK_LINE], None),
    ],
    // A request that no line can hold ends the record. Earlier lines can still be taken, once, and
    // the hub continues.
    &[
        Step::Starts(true),
        Step::Post(PING, 0, 0),
        Step::Pings(1, 2, BODY_LIMIT + 1, 0),
        Step::Post(PING, 2, 0),
        Step::Lines(&[PING_LINE], Some(RecordFault::Unrecordable)),
        Step::NoRecord,
        Step::Post(PING, 3, 0),
    ],
    // The record ends when more than 64 MiB would wait to be written, here by one byte.
    &[
        Step::Starts(true),
        Step::Pings(0, 63, BODY_LIMIT, 0),
        Step::Waits(WAITING),
        Step::Pings(63, 64, TOO_LONG, 0),
        Step::Takes(WAITING, Some(RecordFault::Full)),
        Step::NoRecord,
    ],
    // A stopped record is gone. A record cannot start after the first entry.
    &[
        Step::Starts(true),
        Step::Post(PING, 0, 0),
        Step::Stops,
        Step::NoRecord,
        Step::Post(PING, 1, 0),
        Step::NoRecord,
        Step::Starts(false),
        Step::NoRecord,
    ],
];

// Checks that the record has what was appended to the list, and when it ends.
#[test]
fn a_record_has_what_is_listed(rt: HostRuntime) -> Result<(), Fail> {
    check_runs(&rt, &[1], false, &RUNS)
}
