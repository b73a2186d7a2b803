//! Tests that run the examples in the doc comments of `World::run_schedule` and `Round::run`.
//!
//! `tests/test_documents.py` checks that a test has the lines of each example.
use bx_advice::{Config, WorkerCount};
use bx_cut::Bodies;
use bx_entry::{Access, Arrival, ByRemainder, Input};
use bx_fanout::Round;
use bx_shard::OpenGate;
use bx_world::{Step, StepOut, World};
use std::sync::Arc;
use std::test::*;

// Runs the example of `World::run_schedule`: shard 0 applies a tick, and then has no more to apply.
#[test]
fn world_run_schedule(rt: HostRuntime) -> Result<(), Fail> {
    let alloc = rt.alloc();
    let config = Config::new(1, 30_000, 0, 10_000).ok_or("shards: 1 to 64")?;
    let mut world = World::new(alloc, config, Arc::new(alloc, ByRemainder)?)?;
    let steps = [
        Step::Admit(Input::Tick(100)),
        Step::Apply(0),
        Step::Apply(0),
    ];
    let mut outs = Vec::new(alloc);
    world
        .run_schedule(alloc, &steps, &mut outs)
        .map_err(|_| "out of memory")?;
    assert!(rt; matches!(outs.get(1), Some(StepOut::Applied)));
    assert!(rt; matches!(outs.get(2), Some(StepOut::Level)));
    Ok(())
}

// Runs the example of `Round::run`: a ping and a tick, which both get an out.
#[test]
fn round_run(rt: HostRuntime) -> Result<(), Fail> {
    let alloc = rt.alloc();
    let config = Config::new(4, 30_000, 0, 10_000).ok_or("shards: 1 to 64")?;
    let placing = Arc::new(alloc, ByRemainder)?;
    let workers = WorkerCount::new(2).ok_or("workers: 1 to 16")?;
    let mut round = Round::new(alloc, config, placing, workers)?;
    let arrival = Arrival {
        moment: 0,
        nonce: 0,
        access: Access::ReadWrite,
        bodies: Bodies::Whole(br#"{"channel":"/meta/ping"}"#.to_vec(alloc)?),
    };
    let inputs = [Input::Post(arrival), Input::Tick(100)];
    let mut outs = Vec::new(alloc);
    round
        .run(&rt, alloc, &OpenGate, &inputs, &mut outs)
        .map_err(|_| "out of memory")?;
    assert_eq!(rt; outs.len(), 2);
    Ok(())
}
