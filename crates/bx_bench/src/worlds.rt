//! Workloads of a single-threaded server, from JSON to answers.
use crate::bodies::{arrival, opening};
use crate::load::{Load, Server, connect_all};
use anyhow::{Result, anyhow};
use bx_advice::{Config, MAX_ENTRIES};
use bx_entry::{ByRemainder, Slot};
use bx_world::{Applied, World};
use std::alloc::Global;
use std::sync::Arc;

const SESSIONS: u64 = 10_000;

// Number of channels. Ten sessions subscribe to each.
const CHANNELS: u64 = 1_000;

// Number of publishes in a request.
const PUBLISHES: u64 = 100;

// A single-threaded server, the number of its shards, and the number of entries in its list.
#[derive(Drop)]
struct Shards {
    world: World<ByRemainder>,
    shards: usize,
    entries: u64,
}

impl Shards {
    fn new(alloc: Global, shards: usize) -> Result<Shards> {
        let config = Config::new(shards, 30_000, 0, 10_000).ok_or(anyhow!("no configuration"))?;
        let placing = Arc::new(alloc, ByRemainder)?;
        Ok(Shards {
            world: World::new(alloc, config, placing)?,
            shards,
            entries: 0,
        })
    }

    // Advances `shard` to the end of the list, or until memory runs out.
    fn bring_up(&mut self, alloc: Global, shard: usize) {
        for _ in 0..MAX_ENTRIES {
            if self.world.apply(alloc, shard) != Applied::Done {
                break;
            }
        }
    }
}

impl Server for Shards {
    // Admits a request, advances every shard and takes the answers.
    fn serve(&mut self, alloc: Global, body: String) -> Result<u64> {
        let admitted = self.world.admit(alloc, &arrival(body));
        let admitted = admitted.map_err(|_| anyhow!("not admitted"))?;
        let count = admitted.slots.len() as u64;
        self.entries = self.entries.wrapping_add(count);
        for shard in 0..self.shards {
            self.bring_up(alloc, shard);
        }
        let mut events = 0u64;
        for slot in admitted.slots.into_vec() {
            if let Slot::Waiting(ticket) = slot {
                let answer = self.world.take(ticket);
                let count = answer.map_or(0, |answer| answer.events.len() as u64);
                events = events.wrapping_add(count);
            }
        }
        Ok(events)
    }
}

// Opens the sessions, each with one subscription.
fn open(alloc: Global, server: &mut Shards) -> Result<()> {
    for number in 1..=SESSIONS {
        let channel = number % CHANNELS;
        let pattern = format!(in alloc; "\"/stock/{channel}\"")?;
        server.serve(alloc, opening(alloc, number, pattern.as_str())?)?;
    }
    Ok(())
}

// Creates a body with a publish to each of `PUBLISHES` channels, from `first` on.
fn publishes(alloc: Global, first: u64) -> Result<String> {
    let mut body = String::new(alloc);
    body.push('[')?;
    let sender = 1u64;
    for channel in first..first.saturating_add(PUBLISHES) {
        let comma = if channel == first { "" } else { "," };
        let publish = format!(in alloc;
            "{comma}{{\"channel\":\"/stock/{channel}\",\"clientId\":\"{sender:048x}\",\"data\":{{\"symbol\":\"GOOG\",\"price\":1234.5}}}}"
        )?;
        body.push_str(publish.as_str())?;
    }
    body.push(']')?;
    Ok(body)
}

// Makes 90 publishes to each channel.
fn publish_all(alloc: Global, server: &mut Shards) -> Result<()> {
    for _ in 0..90 {
        for request in 0..CHANNELS / PUBLISHES {
            server.serve(alloc, publishes(alloc, request.wrapping_mul(PUBLISHES))?)?;
        }
    }
    Ok(())
}

/// Opens 10,000 sessions in `shards` shards, each with one subscription, and runs `rounds` rounds.
///
/// A round has 90,000 publishes and 10,000 connects. Each request has 100 publishes or one connect.
/// Each publish reaches ten sessions, which get the event by their connects. Returns the number of
/// entries in the list, plus the number of events that the connects get.
///
/// # Errors
///
/// If `shards` is not 1 to 64, or memory runs out.
pub fn run(alloc: Global, shards: usize, rounds: u64) -> Result<usize> {
    let mut server = Shards::new(alloc, shards)?;
    run_in(alloc, &mut server, rounds)
}

fn run_in(alloc: Global, server: &mut Shards, rounds: u64) -> Result<usize> {
    open(alloc, server)?;
    let mut events = 0u64;
    for _ in 0..rounds {
        publish_all(alloc, server)?;
        events = events.wrapping_add(connect_all(alloc, server, 1, SESSIONS)?);
    }
    Ok(server.entries.wrapping_add(events) as usize)
}

/// Makes the publishes and connects of `load` in a single-threaded server of `shards` shards.
///
/// Returns the number of events that the connects get.
///
/// # Errors
///
/// If `shards` is not 1 to 64, or memory runs out.
pub fn posts(alloc: Global, shards: usize, load: Load) -> Result<usize> {
    let mut server = Shards::new(alloc, shards)?;
    load.open(alloc, &mut server, 0)?;
    Ok(load.run(alloc, &mut server, 0)? as usize)
}
