//! A test of many tasks that wait in one shard.
use crate::same::same;
use bx_calls::texts::HANDSHAKE;
use bx_calls::{HubWork, Stage, config_of, post, waker_of, work_in_open_hub};
use bx_entry::Ticket;
use bx_hub::{Hub, HubKind, Watch};
use futures::test::MockTask;
use std::alloc::{AllocError, AllocGlobal, Global};
use std::process::Abort;
use std::random::RandomSource;
use std::sync::Wait;
use std::test::*;

// Number of tasks. Each has a session, the first of which has number 1.
const TASKS: u64 = 1_000;

// Creates a request with a message of session `number`.
//
// `start`, `end`: the message's fields before and after its client id.
fn request(alloc: Global, start: &str, number: u64, end: &str) -> Result<String, AllocError> {
    format!(in alloc; "[{{{start},\"clientId\":\"{number:048x}\",{end}}}]")
}

// Opens and subscribes session `number`, and returns the ticket of its held connect.
fn hold<L: HubKind, H: Wait + Drop, R: Wait>(
    rt: &R,
    alloc: Global,
    hub: &Hub<L, H>,
    number: u64,
) -> Result<Ticket, Fail> {
    let subscribe = request(
        alloc,
        r#""channel":"/meta/subscribe""#,
        number,
        r#""subscription":"/a/*""#,
    )?;
    let connect = request(
        alloc,
        r#""channel":"/meta/connect""#,
        number,
        r#""connectionType":"long-polling""#,
    )?;
    let mut pass = hub.pass();
    post(rt, alloc, hub, &mut pass, HANDSHAKE)?;
    post(rt, alloc, hub, &mut pass, subscribe.as_str())?;
    let (_, ticket) = post(rt, alloc, hub, &mut pass, connect.as_str())?;
    Ok(ticket.ok_or("answered at once")?)
}

#[derive(Drop)]
struct WakeAll;

impl<R: Wait + Abort + AllocGlobal + RandomSource> HubWork<&R> for WakeAll {
    type Value = ();

    type Fault = Fail;

    fn work<L: HubKind>(self, stage: &Stage<L, &R>) -> Result<(), Fail> {
        let (rt, alloc, hub) = (stage.rt, stage.alloc, &stage.hub);
        let mut tasks = Vec::new(alloc);
        for number in 1..TASKS + 1 {
            let ticket = hold(rt, alloc, hub, number)?;
            let task = MockTask::new(rt)?;
            let waker = waker_of(&task).ok_or("no waker")?;
            let (said, _watching) = hub.watch(rt, ticket, waker);
            same(rt, matches!(said, Watch::Stored(None)), true, number);
            tasks.push(task)?;
        }
        for task in &tasks {
            same(rt, task.is_woken(), false, "before the publish");
        }
        let publish = request(alloc, r#""channel":"/a/b""#, 1, r#""data":7"#)?;
        post(rt, alloc, hub, &mut hub.pass(), publish.as_str())?;
        for task in &tasks {
            same(rt, task.is_woken(), true, "after the publish");
        }
        Ok(())
    }
}

// Checks that one publish wakes each of a thousand tasks that wait in one shard.
#[test]
fn a_publish_wakes_a_thousand_tasks(rt: HostRuntime) -> Result<(), Fail> {
    let config = config_of(1).ok_or("no configuration")?;
    work_in_open_hub(&rt, rt.alloc(), config, WakeAll)
}
