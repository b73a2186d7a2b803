//! A hub of two shards, served over connections in memory.
use crate::host::{Host, Tools};
use anyhow::{Result, anyhow};
use bx_calls::{HubWork, Stage, config_of, work_in_open_hub};
use bx_entry::Access;
use bx_hub::HubKind;
use bx_service::{BayeuxService, Clock, HubBackend, Nonces};
use futures::test::MockTask;
use hyper::server::conn::http1;
use std::alloc::{AllocGlobal, Global};
use std::hash::RandomState;
use std::random::RandomSource;
use std::sync::{Arc, Wait};

// A clock that always reads 0.
#[derive(Clone, Copy)]
struct Still;

impl Clock for Still {
    fn now(&self) -> u64 {
        0
    }
}

// A source of nonces that are all 0.
#[derive(Clone, Copy)]
struct Zeros;

impl Nonces for Zeros {
    fn next(&self) -> u128 {
        0
    }
}

/// Sends this program's requests to a new service, and returns their names and the responses.
///
/// # Errors
///
/// If memory runs out or a response is missing.
pub fn run<R>(rt: R) -> Result<String>
where
    R: Wait + RandomSource + AllocGlobal + Copy + Drop,
{
    let alloc = rt.alloc();
    let config = config_of(2).ok_or(anyhow!("no configuration"))?;
    let tools = Tools {
        http: http1::Builder::new(alloc, RandomState::new(&rt)?),
        task: MockTask::new(&rt)?,
        waiting: MockTask::new(&rt)?,
    };
    work_in_open_hub(rt, alloc, config, tools)
}

impl<R: Wait + Copy + Drop> HubWork<R> for Tools {
    type Value = String;

    type Fault = anyhow::Error;

    fn work<L: HubKind>(self, stage: &Stage<L, R>) -> Result<String> {
        let (rt, alloc, hub) = (stage.rt, stage.alloc, &stage.hub);
        let backend = HubBackend::new(
            rt,
            alloc,
            Arc::try_clone(hub)?,
            Access::ReadWrite,
            Still,
            Zeros,
        );
        let service = BayeuxService::new(alloc, backend)?;
        let host = Host {
            alloc,
            service: &service,
            tools: &self,
        };
        host.serve_all(&rt, hub)
    }
}
