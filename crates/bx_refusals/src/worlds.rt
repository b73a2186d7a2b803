//! The part `world`: two shards that one worker advances.
use crate::requests::{config, text_of};
use crate::unlike::{Unlike, check};
use bx_advice::WorkerCount;
use bx_calls::arrival;
use bx_calls::texts::{CONNECT, HANDSHAKE, PUBLISH, SUBSCRIBE};
use bx_entry::{AdmitFault, ByRemainder, Slot, Ticket};
use bx_message::Answer;
use bx_shard::OpenGate;
use bx_world::{Applied, World};
use std::alloc::Global;
use std::sync::Arc;
use std::thread::Threads;

const SHARDS: usize = 2;

/// Returns the text of the answer to one session's connect, after another session has published.
///
/// All requests are admitted first. Then one worker advances the shards.
pub fn run<R: Threads + Sync>(rt: &R, alloc: Global) -> Result<String, Unlike> {
    let placing = Arc::new(alloc, ByRemainder)?;
    let mut world = World::new(alloc, config(SHARDS)?, placing)?;
    let answer = answer(rt, alloc, &mut world)?;
    text_of(alloc, answer)
}

fn answer<R: Threads + Sync>(
    rt: &R,
    alloc: Global,
    world: &mut World<ByRemainder>,
) -> Result<Answer, Unlike> {
    let mut connect = None;
    for body in [HANDSHAKE, HANDSHAKE, SUBSCRIBE, CONNECT, PUBLISH] {
        connect = connect.or(admit(alloc, world, body)?);
    }
    bring_up(rt, alloc, world)?;
    let ticket = connect.ok_or(Unlike::Wrong("no connect"))?;
    world.take(ticket).ok_or(Unlike::Wrong("no answer"))
}

fn ticket_of(slots: &[Slot]) -> Option<Ticket> {
    for slot in slots {
        if let Slot::Waiting(ticket) = slot {
            return Some(*ticket);
        }
    }
    None
}

// Admits a request with the body `body`, and returns the ticket of its connect, if it has one.
// Retries once if memory runs out.
fn admit(
    alloc: Global,
    world: &mut World<ByRemainder>,
    body: &str,
) -> Result<Option<Ticket>, Unlike> {
    let arrival = arrival(alloc, body)?;
    for _ in 0..2 {
        match world.admit(alloc, &arrival) {
            Ok(admitted) => return Ok(ticket_of(admitted.slots.as_slice())),
            Err(AdmitFault::Memory) => (),
            Err(_) => break,
        }
    }
    Err(Unlike::Wrong("not admitted"))
}

// Advances the shards. If memory runs out for one of them, checks that exactly one shard is
// reported as not advanced, and that a second attempt advances it to the end.
fn bring_up<R: Threads + Sync>(
    rt: &R,
    alloc: Global,
    world: &mut World<ByRemainder>,
) -> Result<(), Unlike> {
    let behind = world.bring_up(rt, alloc, &OpenGate, WorkerCount::one());
    check(
        behind.saturating_add(level(alloc, world)) == SHARDS,
        "not so many shards are behind",
    )?;
    if behind == 0 {
        return Ok(());
    }
    let left = world.bring_up(rt, alloc, &OpenGate, WorkerCount::one());
    check(
        behind == 1 && left == 0 && level(alloc, world) == SHARDS,
        "shards stay behind",
    )
}

// Returns the number of shards that have applied the whole list. Applies one entry to each other
// shard.
fn level(alloc: Global, world: &mut World<ByRemainder>) -> usize {
    let mut level = 0usize;
    for shard in 0..SHARDS {
        if world.apply(alloc, shard) == Applied::Level {
            level = level.saturating_add(1);
        }
    }
    level
}
