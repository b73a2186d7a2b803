//! Test of two threads, each with its own pass.

use crate::caller::Caller;
use crate::hubs::{Work, work_in_hub};
use crate::same::same;
use bx_calls::texts::{ANSWER, HANDSHAKE, PUBLISH};
use bx_calls::{Found, Stage};
use bx_entry::{ByRemainder, Ticket};
use bx_hub::{HubKind, OpenGate};
use std::process::Abort;
use std::sync::Wait;
use std::test::*;
use std::thread::{Threads, join};

// The number of ticks that one thread appends. They are more than the batches in a full window.
//
// That thread publishes no event, so an event found later was published by the other thread.
const TICKS: usize = 5_000;

// Polls for the answer under `ticket`, and checks what is found.
//
// If an answer is wanted, its text must be `ANSWER`.
fn check_poll<L: HubKind, R: Wait + Abort + Drop>(
    caller: &mut Caller<'_, L, R>,
    ticket: Ticket,
    wanted: Found,
    what: &str,
) -> Result<(), Fail> {
    let found = caller.find(ticket, ANSWER)?;
    same(&caller.stage.rt, found, wanted, what);
    Ok(())
}

/// Holds a connect, ticks in one thread and publishes in another, and checks the answer.
///
/// The publishing thread also opens the second session, which publishes.
/// The check uses the longer of the two threads' passes. It must find the answer once, with the
/// event.
///
/// # Errors
///
/// [`Fail`] if a call fails.
pub fn run<
    L: HubKind<Placing: Send + Sync, Gate: Send + Sync> + Send + Sync,
    R: Threads + Wait + Abort + Send + Sync + Drop,
>(stage: &Stage<L, R>) -> Result<(), Fail> {
    let mut caller = Caller::of(stage);
    let ticket = caller.hold()?;
    check_poll(&mut caller, ticket, Found::Nothing, "before the event")?;
    let mut other = Caller::of(stage);
    let (ticked, published) = join(
        &stage.rt,
        || caller.ticks(TICKS),
        || other.post_all(&[HANDSHAKE, PUBLISH]),
    );
    ticked?;
    published?;
    caller.pass = caller.pass.longer(&other.pass);
    check_poll(&mut caller, ticket, Found::Wanted, "the first poll")?;
    check_poll(&mut caller, ticket, Found::Nothing, "the second poll")
}

// Checks that a poll with the longer of two threads' passes finds the event of one of them, once.
#[test]
fn two_threads(rt: HostRuntime) -> Result<(), Fail> {
    work_in_hub(&rt, rt.alloc(), 2, ByRemainder, OpenGate, &Work::Two)
}
