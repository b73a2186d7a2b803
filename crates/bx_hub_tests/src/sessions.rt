//! Tests of what an operator sees of a session.
use crate::steps::{Shown, Step, check_runs};
use bx_calls::texts::{ACK_CONNECT, ACK_HANDSHAKE, CONNECT, HANDSHAKE, PUBLISH_OWN, SUBSCRIBE};
use std::test::*;

// The first session's subscription to two patterns.
const SUBSCRIBE_TWO: &str =
    r#"[{"channel":"/meta/subscribe","clientId":"000000000000000000000000000000000000000000000001","subscription":["/b/**","/a/c"]}]"#;

// The survey of a session without patterns or events, opened at moment 0.
const OPENED: Shown = Shown {
    opened: 0,
    ack: false,
    has_overflowed: false,
    is_held: false,
    patterns: &[],
    events: 0,
    bytes: 0,
    outstanding: 0,
    batch: 0,
};

// Runs of steps, each with its own hub.
const RUNS: [&[Step]; 2] = [
    // The event of `PUBLISH_OWN` is `{"channel":"/a/c","data":8}`, 27 bytes. The connect takes it,
    // and the next connect is held. The session was opened after a tick at moment 250.
    &[
        Step::Session(0, None),
        Step::Tick(250, Ok(0)),
        Step::Post(HANDSHAKE, 1, 0),
        Step::Session(
            0,
            Some(Shown {
                opened: 250,
                ..OPENED
            }),
        ),
        Step::Post(SUBSCRIBE_TWO, 2, 0),
        Step::Post(PUBLISH_OWN, 3, 0),
        Step::Session(
            0,
            Some(Shown {
                opened: 250,
                patterns: &["/b/**", "/a/c"],
                events: 1,
                bytes: 27,
                ..OPENED
            }),
        ),
        Step::Post(CONNECT, 4, 0),
        Step::Wait(CONNECT, 5),
        Step::Session(
            0,
            Some(Shown {
                opened: 250,
                patterns: &["/b/**", "/a/c"],
                is_held: true,
                ..OPENED
            }),
        ),
        Step::Session(1, None),
    ],
    // An acknowledging session keeps the batch that it sent. Another event waits after the batch.
    &[
        Step::Post(ACK_HANDSHAKE, 0, 0),
        Step::Post(SUBSCRIBE, 1, 0),
        Step::Post(PUBLISH_OWN, 2, 0),
        Step::Post(ACK_CONNECT, 3, 0),
        Step::Post(PUBLISH_OWN, 4, 0),
        Step::Session(
            0,
            Some(Shown {
                ack: true,
                patterns: &["/a/*"],
                events: 2,
                bytes: 54,
                outstanding: 1,
                batch: 1,
                ..OPENED
            }),
        ),
        Step::Session(1, None),
    ],
];

// Checks what is seen of a session with events, a held connect or an outstanding batch.
#[test]
fn a_session_is_shown(rt: HostRuntime) -> Result<(), Fail> {
    check_runs(&rt, &[0, 1], false, &RUNS)
}
