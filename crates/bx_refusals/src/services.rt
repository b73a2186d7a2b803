//! The part `service`: a service over a hub of two shards.
mod asked;
mod client;
mod exchanges;

use crate::requests::config;
use crate::unlike::Unlike;
use bx_calls::{HubWork, Stage, work_in_open_hub};
use bx_entry::Access;
use bx_hub::HubKind;
use bx_service::{BayeuxService, Clock, HubBackend, Nonces};
use client::Client;
use futures::test::MockTask;
use std::alloc::{AllocGlobal, Global};
use std::random::RandomSource;
use std::sync::{Arc, Wait};

// A clock that always shows 0.
#[derive(Clone, Copy)]
struct Still;

impl Clock for Still {
    fn now(&self) -> u64 {
        0
    }
}

// A source of nonces that are all 0.
#[derive(Clone, Copy)]
struct Zeros;

impl Nonces for Zeros {
    fn next(&self) -> u128 {
        0
    }
}

/// Makes all exchanges with a new service, and returns the lines of their responses.
pub fn run<R>(rt: R) -> Result<String, Unlike>
where
    R: Wait + RandomSource + AllocGlobal + Copy + Drop,
{
    let task = MockTask::new(&rt).map_err(|_| Unlike::Memory)?;
    work_in_open_hub(rt, rt.alloc(), config(2)?, ServiceRun { task })
}

// The exchanges, and the task that polls them.
#[derive(Drop)]
struct ServiceRun {
    task: MockTask,
}

impl<R: Wait + Copy + Drop> HubWork<R> for ServiceRun {
    type Value = String;

    type Fault = Unlike;

    fn work<L: HubKind>(self, stage: &Stage<L, R>) -> Result<String, Unlike> {
        let mut client = Client {
            rt: stage.rt,
            alloc: stage.alloc,
            hub: Arc::try_clone(&stage.hub)?,
            service: service_of(stage)?,
            task: self.task,
            text: String::new(stage.alloc),
            entries: 0,
            sessions: 0,
        };
        client.make_all()?;
        let Client { text, .. } = client;
        Ok(text)
    }
}

fn service_of<L: HubKind, R: Wait + Copy + Drop>(
    stage: &Stage<L, R>,
) -> Result<BayeuxService<HubBackend<L, R, Still, Zeros>>, Unlike> {
    let hub = Arc::try_clone(&stage.hub)?;
    let backend = HubBackend::new(stage.rt, stage.alloc, hub, Access::ReadWrite, Still, Zeros);
    Ok(BayeuxService::new(stage.alloc, backend)?)
}
