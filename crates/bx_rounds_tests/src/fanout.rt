//! Tests of the workers of rounds, which no contract counts.
use crate::gates::Meeting;
use crate::requests::request;
use crate::same::same;
use bx_advice::{Config, ShardCount, WorkerCount};
use bx_entry::{ByTable, Input};
use bx_fanout::Round;
use std::alloc::{AllocError, Global};
use std::process::Abort;
use std::sync::Arc;
use std::test::Fail;
use std::thread::Threads;

// Number of sessions that tests open, each by a request. With them, a round expects at least 1,024
// deliveries for a publish, and so uses all workers.
const CROWD: usize = 1_024;

// The limit of `run` on the inputs that a round has started, and on those of one run. No test
// exceeds it.
const MOST_INPUTS: usize = 10_000;

const HANDSHAKE: &str =
    r#"{"channel":"/meta/handshake","version":"1.0","supportedConnectionTypes":["long-polling"]}"#;

// Inputs with few deliveries: one more handshake, a subscription and a connect of the first
// session, and a tick.
const FEW: [&str; 4] = [
    HANDSHAKE,
    r#"{"channel":"/meta/subscribe","clientId":"000000000000000000000000000000000000000000000001","subscription":"/a/*"}"#,
    r#"{"channel":"/meta/connect","clientId":"000000000000000000000000000000000000000000000001","connectionType":"long-polling"}"#,
    "",
];

// A publish of the second session, whose event answers the connect of the first.
const PUBLISH: &str =
    r#"{"channel":"/a/b","clientId":"000000000000000000000000000000000000000000000002","data":7}"#;

// The shards in which `ByTable` places the sessions in turn, modulo their number.
const TABLE: [u8; 5] = [3, 62, 17, 40, 9];

fn table(alloc: Global) -> Result<Arc<ByTable>, Fail> {
    Ok(Arc::new(alloc, ByTable::new(alloc, &TABLE)?)?)
}

// Creates a round of `shards` shards and `workers` workers.
fn new_round(alloc: Global, shards: usize, workers: usize) -> Result<Round<ByTable>, Fail> {
    let config = Config::new(shards, 30_000, 0, 10_000).ok_or("no configuration")?;
    let placing = table(alloc)?;
    let workers = WorkerCount::new(workers).ok_or("no such number of workers")?;
    Ok(Round::new(alloc, config, placing, workers)?)
}

fn inputs(alloc: Global, bodies: &[&str]) -> Result<Vec<Input>, AllocError> {
    let mut inputs = Vec::new(alloc);
    for body in bodies {
        inputs.push(match *body {
            "" => Input::Tick(0),
            body => Input::Post(request(alloc, body)?),
        })?;
    }
    Ok(inputs)
}

// Runs the inputs with `bodies`, and checks the number of outs. An empty body is a tick.
//
// Workers call `gate`. Fails if memory runs out.
fn run<R: Threads + Sync + Abort>(
    rt: &R,
    alloc: Global,
    gate: &Meeting,
    round: &mut Round<ByTable>,
    bodies: &[&str],
    outs: usize,
) -> Result<(), Fail> {
    let inputs = inputs(alloc, bodies)?;
    same(
        rt,
        run_inputs(rt, alloc, gate, round, &inputs)?,
        outs,
        "outs",
    );
    Ok(())
}

// Runs `inputs`, and returns the number of outs.
fn run_inputs<R: Threads + Sync>(
    rt: &R,
    alloc: Global,
    gate: &Meeting,
    round: &mut Round<ByTable>,
    inputs: &[Input],
) -> Result<usize, Fail> {
    if round.started_inputs() > MOST_INPUTS || inputs.len() > MOST_INPUTS {
        return Err(Fail::from("too many inputs"));
    }
    let mut outs = Vec::new(alloc);
    round
        .run(rt, alloc, gate, inputs, &mut outs)
        .map_err(|_| "no memory")?;
    Ok(outs.len())
}

// Redistributes the sessions of `round`, which has `before` shards, to `shards` shards.
fn redistributed<R: Threads + Sync>(
    rt: &R,
    alloc: Global,
    round: Round<ByTable>,
    before: usize,
    shards: usize,
) -> Result<Round<ByTable>, Fail> {
    if shards == before {
        return Ok(round);
    }
    let placing = table(alloc)?;
    match ShardCount::new(shards) {
        Some(shards) => resharded(rt, alloc, round, shards, placing),
        None => Err(Fail::from("no such number of shards")),
    }
}

// Prover: a function of its own, because a call of `reshard` with other values is proved slowly.
fn resharded<R: Threads + Sync>(
    rt: &R,
    alloc: Global,
    round: Round<ByTable>,
    shards: ShardCount,
    placing: Arc<ByTable>,
) -> Result<Round<ByTable>, Fail> {
    match round.reshard(rt, alloc, shards, placing) {
        Ok(round) => Ok(round),
        Err(_) => Err(Fail::from("no memory")),
    }
}

// Opens the crowd in `round`, which is new.
fn open_crowd<R: Threads + Sync + Abort>(
    rt: &R,
    alloc: Global,
    round: &mut Round<ByTable>,
) -> Result<(), Fail> {
    let crowd = vec![in alloc; HANDSHAKE; CROWD]?;
    run(rt, alloc, &Meeting::none(), round, &crowd, CROWD)
}

// Runs the inputs with few deliveries, in which only worker 0 must take part.
fn hold<R: Threads + Sync + Abort>(
    rt: &R,
    alloc: Global,
    round: &mut Round<ByTable>,
) -> Result<(), Fail> {
    let one = Meeting::of(0b1);
    run(rt, alloc, &one, round, &FEW, 3)?;
    same(rt, one.finished(), Some(0b1), "one worker");
    Ok(())
}

// Runs the publish, in which exactly the workers in `team` must take part, and checks that it
// answers the connect. Bit k of `team` is set for worker k.
fn publish<R: Threads + Sync + Abort>(
    rt: &R,
    alloc: Global,
    round: &mut Round<ByTable>,
    gate: &Meeting,
    team: u16,
) -> Result<(), Fail> {
    run(rt, alloc, gate, round, &[PUBLISH], 2)?;
    same(rt, gate.finished(), Some(team), "the team");
    Ok(())
}

// Holds a connect in a new round, redistributes its sessions from `shards` to `more` shards, and
// checks that exactly the workers in `team` take part in the run of the publish.
fn check_team<R: Threads + Sync + Abort>(
    rt: &R,
    alloc: Global,
    (shards, workers, more): (usize, usize, usize),
    gate: &Meeting,
    team: u16,
) -> Result<(), Fail> {
    let mut round = new_round(alloc, shards, workers)?;
    open_crowd(rt, alloc, &mut round)?;
    hold(rt, alloc, &mut round)?;
    let mut round = redistributed(rt, alloc, round, shards, more)?;
    publish(rt, alloc, &mut round, gate, team)
}

// Checks that the workers of a run work concurrently. If one thread did the work of both workers in
// turn, the held one would give up.
#[test]
fn workers_run_at_the_same_time(rt: HostRuntime) -> Result<(), Fail> {
    let alloc = rt.alloc();
    for held in [0, 1] {
        check_team(&rt, alloc, (2, 2, 2), &Meeting::holding(held), 0b11)?;
    }
    Ok(())
}

// Checks that each worker has its own thread. With fewer threads, workers would wait in vain for
// each other at the gate. Every worker with a shard takes part in the run of the publish, since the
// publish could reach the sessions of the crowd. Then the sessions move to more shards, and each
// worker must have some of these.
#[test]
fn as_many_threads_run_as_workers(rt: HostRuntime) -> Result<(), Fail> {
    let alloc = rt.alloc();
    for (shards, team, more) in [(64, 0xffff, 64), (4, 0b1111, 4), (4, 0xffff, 64)] {
        check_team(&rt, alloc, (shards, 16, more), &Meeting::of(team), team)?;
    }
    Ok(())
}
