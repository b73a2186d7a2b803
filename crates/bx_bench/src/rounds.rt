//! Workloads of rounds with several workers, from JSON to outs.
//!
//! The rounds are never dropped: a server would continue to run, and the time that one thread needs
//! to drop a round would distort the result.
use crate::bodies::{arrival, connect, opening};
use anyhow::{Result, anyhow};
use bx_advice::{Config, WorkerCount};
use bx_entry::{ByRemainder, Input};
use bx_fanout::{Out, Round};
use bx_shard::OpenGate;
use std::alloc::Global;
use std::mem;
use std::sync::Arc;
use std::thread::Threads;

const SHARDS: usize = 8;

const SESSIONS: u64 = 10_000;

// Number of rooms, which are channels `/room/N/..`. Each session subscribes to one room by two
// patterns, so a publish reaches 1,000 sessions.
const ROOMS: u64 = 10;

// Number of publishes to each room in a turn.
const PUBLISHES: u64 = 50;

// A limit on the number of inputs that no workload reaches.
const MOST_INPUTS: usize = 1_000_000_000;

/// The turns of a workload. In each, 500 publishes are made, a request each, to ten rooms.
#[derive(Clone, Copy, Debug)]
pub struct Turns {
    count: u64,
    // Whether every session connects at the end of a turn, and gets its events.
    connect: bool,
}

impl Turns {
    /// No turns: the workload only opens the sessions.
    pub const NONE: Turns = Turns {
        count: 0,
        connect: false,
    };

    /// Ten turns. After each, every session connects and gets its events.
    pub const CONNECTING: Turns = Turns {
        count: 10,
        connect: true,
    };

    /// Twenty turns. Then 1,000 events wait for each session, since no session connects.
    pub const WAITING: Turns = Turns {
        count: 20,
        connect: false,
    };
}

fn publish(alloc: Global, room: u64) -> Result<String> {
    let sender = 1u64;
    Ok(format!(in alloc;
        "[{{\"channel\":\"/room/{room}/news\",\"clientId\":\"{sender:048x}\",\"data\":{{\"symbol\":\"GOOG\",\"price\":1234.5}}}}]"
    )?)
}

// Creates a request for each session, with its handshake and its subscription.
fn openings(alloc: Global) -> Result<Vec<Input>> {
    let mut inputs = Vec::new(alloc);
    for number in 1..=SESSIONS {
        let room = number % ROOMS;
        let patterns = format!(in alloc; "[\"/room/{room}/*\",\"/room/{room}/**\"]")?;
        let body = opening(alloc, number, patterns.as_str())?;
        inputs.push(Input::Post(arrival(body)))?;
    }
    Ok(inputs)
}

// Creates the publishes of one turn, a request each, to the rooms in rotation.
fn publishes(alloc: Global) -> Result<Vec<Input>> {
    let mut inputs = Vec::new(alloc);
    for _ in 0..PUBLISHES {
        for room in 0..ROOMS {
            inputs.push(Input::Post(arrival(publish(alloc, room)?)))?;
        }
    }
    Ok(inputs)
}

// Creates a request for each session that connects in `turns`, with its connect.
fn connects(alloc: Global, turns: Turns) -> Result<Vec<Input>> {
    let mut inputs = Vec::new(alloc);
    let sessions = if turns.connect { SESSIONS } else { 0 };
    for number in 1..=sessions {
        inputs.push(Input::Post(arrival(connect(alloc, number)?)))?;
    }
    Ok(inputs)
}

// Runs `inputs`, and returns the number of items in the responses that the run appends.
fn serve<R: Threads + Sync>(
    rt: &R,
    alloc: Global,
    round: &mut Round<ByRemainder>,
    inputs: &[Input],
) -> Result<usize> {
    if round.started_inputs() > MOST_INPUTS || inputs.len() > MOST_INPUTS {
        return Err(anyhow!("too many inputs"));
    }
    let mut outs = Vec::new(alloc);
    let ran = round.run(rt, alloc, &OpenGate, inputs, &mut outs);
    ran.map_err(|_| anyhow!("no memory"))?;
    let mut items = 0usize;
    for out in &outs {
        if let Ok(response) = &out.result {
            items = items.wrapping_add(response.len());
        }
    }
    Ok(items)
}

fn new_round(alloc: Global, workers: usize) -> Result<Round<ByRemainder>> {
    let config = Config::new(SHARDS, 30_000, 0, 10_000).ok_or(anyhow!("no configuration"))?;
    let placing = Arc::new(alloc, ByRemainder)?;
    let workers = WorkerCount::new(workers).ok_or(anyhow!("no such number of workers"))?;
    Ok(Round::new(alloc, config, placing, workers)?)
}

/// Opens 10,000 sessions, each subscribed to one of ten rooms by two patterns, and runs `turns`.
///
/// Each publish reaches 1,000 sessions. Returns the number of items in all responses.
///
/// # Errors
///
/// If `workers` is not 1 to 16, or memory runs out.
pub fn run<R: Threads + Sync>(
    rt: &R,
    alloc: Global,
    workers: usize,
    turns: Turns,
) -> Result<usize> {
    let mut round = new_round(alloc, workers)?;
    let items = run_in(rt, alloc, &mut round, turns);
    mem::forget(round);
    items
}

fn run_in<R: Threads + Sync>(
    rt: &R,
    alloc: Global,
    round: &mut Round<ByRemainder>,
    turns: Turns,
) -> Result<usize> {
    let mut items = serve(rt, alloc, round, &openings(alloc)?)?;
    let publishes = publishes(alloc)?;
    let connects = connects(alloc, turns)?;
    for _ in 0..turns.count {
        items = items.wrapping_add(serve(rt, alloc, round, &publishes)?);
        if turns.connect {
            items = items.wrapping_add(serve(rt, alloc, round, &connects)?);
        }
    }
    Ok(items)
}
