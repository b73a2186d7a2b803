//! The part `hub`: hubs of two shards and of one, with a record.
mod caller;
mod learns;
mod waits;

use crate::requests::{add_line, config};
use crate::unlike::{Unlike, check};
use bx_calls::{HubWork, Stage, work_in_open_hub};
use bx_hub::{Hub, HubKind};
use bx_record::RecordFault;
use caller::Caller;
use futures::test::MockTask;
use std::alloc::{AllocGlobal, Global};
use std::random::RandomSource;
use std::sync::Wait;

/// Runs two sessions and a tick over a hub of two shards, and then over a hub of one.
///
/// One session subscribes and connects, and the other publishes. Each session has its own pass.
/// Over two shards, the subscriber's pass learns what the publisher's pass has seen. Over one
/// shard, a task waits for the answer. The hub keeps a record. If memory runs out for the record,
/// only the record ends.
///
/// Returns, for each hub, a line for each message with its place and its reply, a line for the
/// tick, and a line with the answer to the connect. The line of the connect itself is `2 waits`.
pub fn run<R>(rt: &R, alloc: Global) -> Result<String, Unlike>
where
    R: Wait + RandomSource + AllocGlobal,
{
    let mut text = String::new(alloc);
    for (shards, is_awaited) in [(2, false), (1, true)] {
        let exchange = Exchange::new(rt, is_awaited)?;
        let lines = work_in_open_hub(rt, alloc, config(shards)?, exchange)?;
        add_line(&mut text, lines.as_str())?;
    }
    Ok(text)
}

// The exchange of a run: the messages of both sessions, and the tick.
#[derive(Drop)]
struct Exchange {
    task: MockTask,
    // Whether `task` waits for the answer, or a pass learns that it is filed.
    is_awaited: bool,
}

impl Exchange {
    fn new<R: RandomSource + AllocGlobal>(rt: &R, is_awaited: bool) -> Result<Exchange, Unlike> {
        match MockTask::new(rt) {
            Ok(task) => Ok(Exchange { task, is_awaited }),
            Err(_) => Err(Unlike::Memory),
        }
    }

    // Makes the exchange, and appends a line for each message, the tick and the answer.
    fn exchange<L: HubKind, H: Wait + Drop, R: Wait>(
        &self,
        caller: &mut Caller<'_, L, H, R>,
    ) -> Result<(), Unlike> {
        let answer = if self.is_awaited {
            caller.awaited_answer(&self.task)?
        } else {
            caller.learned_answer()?
        };
        caller.add_answer(answer)
    }
}

impl<R: Wait> HubWork<&R> for Exchange {
    type Value = String;

    type Fault = Unlike;

    fn work<L: HubKind>(self, stage: &Stage<L, &R>) -> Result<String, Unlike> {
        let (rt, alloc, hub) = (stage.rt, stage.alloc, &stage.hub);
        check(hub.start_record(rt, alloc).is_ok(), "no record")?;
        let mut caller = Caller::new(rt, alloc, hub);
        self.exchange(&mut caller)?;
        check_record(rt, alloc, hub)?;
        Ok(caller.into_text())
    }
}

// Checks that the record of `hub` ends with the tick, or that it stopped because memory ran out.
fn check_record<L: HubKind, H: Wait + Drop, R: Wait>(
    rt: &R,
    alloc: Global,
    hub: &Hub<L, H>,
) -> Result<(), Unlike> {
    let Ok(taken) = hub.take_record(rt, Vec::new(alloc)) else {
        return Err(Unlike::Wrong("the record is gone"));
    };
    match taken.fault {
        None if taken.chunk.bytes().ends_with(b"0 T\n") => Ok(()),
        Some(RecordFault::Memory) => Ok(()),
        _ => Err(Unlike::Wrong("another record")),
    }
}
