//! A test that runs the example in the doc comment of `Hub::post`.
//!
//! `tests/test_documents.py` checks that a test has the lines of each example.

use bx_calls::texts::{CONNECT, HANDSHAKE};
use bx_calls::{HubWork, Stage, arrival, config_of, post, work_in_open_hub};
use bx_entry::Slot;
use bx_hub::{Hub, HubKind};
use std::alloc::Global;
use std::process::Abort;
use std::sync::Wait;
use std::test::*;

fn posts_and_polls<L: HubKind, H: Wait + Drop, R: Wait + Abort>(
    rt: &R,
    alloc: Global,
    hub: &Hub<L, H>,
) -> Result<(), Fail> {
    post(rt, alloc, hub, &mut hub.pass(), HANDSHAKE)?;
    let connect = arrival(alloc, CONNECT)?;
    let mut pass = hub.pass();
    let receipt = hub
        .post(rt, alloc, &mut pass, connect)
        .map_err(|_| "rejected")?;
    let Some(Slot::Waiting(ticket)) = receipt.slots.as_slice().first() else {
        return Err(Fail::from("answered at once"));
    };
    let (answer, _) = hub.poll_answer(rt, alloc, &mut pass, *ticket);
    assert!(rt; answer.map_err(|_| "stopped")?.is_none());
    Ok(())
}

#[derive(Drop)]
struct PostAndPoll;

impl<R: Wait + Abort> HubWork<&R> for PostAndPoll {
    type Value = ();

    type Fault = Fail;

    fn work<L: HubKind>(self, stage: &Stage<L, &R>) -> Result<(), Fail> {
        posts_and_polls(stage.rt, stage.alloc, &stage.hub)
    }
}

// Runs the example of `Hub::post`: a poll finds no answer to a connect that was just posted.
#[test]
fn hub_post(rt: HostRuntime) -> Result<(), Fail> {
    let config = config_of(4).ok_or("shards: 1 to 64")?;
    work_in_open_hub(&rt, rt.alloc(), config, PostAndPoll)
}
