//! A program that runs a workload of one part of the server, for timing.
//!
//! Without an argument, it prints a list of the workloads.
#![tactic(auto)]

mod bodies;
mod hubs;
mod inputs;
mod load;
mod registry;
mod rounds;
mod scripts;
mod sessions;
mod transports;
mod tree;
mod workloads;
mod worlds;

use anyhow::Result;
use load::Load;
use rounds::Turns;
use std::alloc::Global;
use std::env;
use std::sync::Wait;
use std::thread::Threads;

const LIST: &str = "\
check-many   serde_json checks a body of 1 MB with 256 messages, 20 times
cut-many     the same body is cut into messages and ten members of each are looked up, 20 times
check-one    serde_json checks a body of 1 MB with one message, 20 times
cut-one      the same body is cut, and ten members are looked up, 20 times
value-texts  serde_json writes an array of 100,000 replies and events from a value
item-texts   the same array is written from replies and events
take-plain   a POST's JSON is taken and cut, 20 times
take-form    the same JSON in a form of 1 MB, 20 times
sessions-open     1,000 sessions are opened
sessions-wait     each of 1,000 sessions is delivered 1,000 events, which wait
sessions-batches  each is delivered 100 events and then connects, 10 times
sessions-holds    each holds a connect, which an event answers, 1,000 times
tree-build        10,000 sessions with ten patterns each are put into the tree of patterns
tree-find         the same, and then 1,000,000 names are looked up in it
plain-build       the same patterns are put into a list
plain-find        the same, and then 100 names are looked up in it, each by a walk over the list
tree-100          a tree of 100 patterns, and 1,000,000 finds of one session
tree-100000       a tree of 100,000 patterns, and 1,000,000 finds of one session
tree-100000-build only the tree
registry-open     10,000 sessions are opened, a request each
registry-publish  1,000,000 publishes of 10,000 sessions are planned and committed, a request each
registry-hundreds the same, 100 publishes a request
registry-tick     100,000 ticks over 65,536 live sessions of which none is due
world-1-open      a server of one shard, and 10,000 sessions that are opened and subscribe
world-1           the same, and then 900,000 publishes that reach ten sessions each, and 100,000 connects
world-4-open      the same as world-1-open with 4 shards
world-4           the same as world-1 with 4 shards
world-64-open     with 64 shards
world-64          with 64 shards
round-1-open      a round of eight shards and one worker, and 10,000 sessions that are opened and subscribe
round-1           the same, and then 5,000 publishes that reach a thousand sessions each, and 100,000 connects
round-2           the same with two workers
round-4           the same with four workers
waiting-1         the opening, and then 10,000 publishes that reach a thousand sessions each, by one worker; their events wait
waiting-2         the same with two workers
waiting-4         the same with four workers
hub-1-4-0     a hub of 4 shards; one thread makes 100,000 publishes, a request each, that reach no session
hub-1-4-10    the same, and each publish reaches ten sessions, which connect after each 200
hub-1-4-1000  10,000 publishes that reach a thousand sessions each
hub-1-64-10   the same as hub-1-4-10 with 64 shards
hub-2-4-10    two threads do what one does in hub-1-4-10, each with sessions of its own
hub-4-4-10    four threads
world-4-0     what hub-1-4-0 does, by admission and application in a world, in one thread
world-4-10    what hub-1-4-10 does
world-4-1000  what hub-1-4-1000 does
world-64-10   what hub-1-64-10 does
tick-open     a hub of 64 shards, and 65,536 sessions
tick          the same, and then 100,000 ticks that close none
script-check      serde_json checks the body of each line of a script on standard input";

fn main(rt: HostRuntime) -> Result<()> {
    match env::args(&rt)?.nth(1) {
        None => rt.println(LIST)?,
        Some(name) => {
            let total = match name.as_str() {
                "script-check" => scripts::check(&rt)?,
                name => run(&rt, rt.alloc(), name)?,
            };
            println!(rt; "{total}")?;
        }
    }
    Ok(())
}

// Runs the workload `name`. Returns what it counts, such as messages or events, or 0 for an unknown
// `name`.
fn run<R: Threads + Wait + Sync>(rt: &R, alloc: Global, name: &str) -> Result<usize> {
    match name.split_once('-').map_or(name, |parts| parts.0) {
        "check" | "cut" | "value" | "item" | "take" => run_texts(alloc, name),
        "sessions" | "registry" => run_sessions(alloc, name),
        "tree" | "plain" => run_finds(alloc, name),
        "world" => run_worlds(alloc, name),
        "round" | "waiting" => run_rounds(rt, alloc, name),
        "hub" | "tick" => run_hubs(rt, alloc, name),
        _ => Ok(0),
    }
}

fn run_texts(alloc: Global, name: &str) -> Result<usize> {
    match name {
        "check-many" => workloads::check(alloc, inputs::many(alloc)?.as_slice()),
        "cut-many" => workloads::cut(alloc, inputs::many(alloc)?.as_slice()),
        "check-one" => workloads::check(alloc, inputs::one(alloc)?.as_slice()),
        "cut-one" => workloads::cut(alloc, inputs::one(alloc)?.as_slice()),
        "value-texts" => workloads::value_texts(alloc),
        "item-texts" => workloads::item_texts(alloc),
        "take-plain" => transports::plain(alloc),
        "take-form" => transports::form(alloc),
        _ => Ok(0),
    }
}

fn run_sessions(alloc: Global, name: &str) -> Result<usize> {
    match name {
        "sessions-open" => sessions::open(alloc),
        "sessions-wait" => sessions::wait(alloc),
        "sessions-batches" => sessions::batches(alloc),
        "sessions-holds" => sessions::holds(alloc),
        "registry-open" => registry::open(alloc),
        "registry-publish" => registry::publish(alloc, 1),
        "registry-hundreds" => registry::publish(alloc, 100),
        "registry-tick" => registry::tick(alloc),
        _ => Ok(0),
    }
}

fn run_finds(alloc: Global, name: &str) -> Result<usize> {
    match name {
        "tree-build" => tree::build(alloc),
        "tree-find" => tree::find(alloc, 250_000),
        "plain-build" => tree::plain_build(alloc),
        "plain-find" => tree::plain_find(alloc, 25),
        "tree-100" => tree::grown(alloc, 100, 1_000_000),
        "tree-100000" => tree::grown(alloc, 100_000, 1_000_000),
        "tree-100000-build" => tree::grown(alloc, 100_000, 0),
        _ => Ok(0),
    }
}

fn run_worlds(alloc: Global, name: &str) -> Result<usize> {
    match name {
        "world-1-open" => worlds::run(alloc, 1, 0),
        "world-1" => worlds::run(alloc, 1, 10),
        "world-4-open" => worlds::run(alloc, 4, 0),
        "world-4" => worlds::run(alloc, 4, 10),
        "world-64-open" => worlds::run(alloc, 64, 0),
        "world-64" => worlds::run(alloc, 64, 10),
        "world-4-0" => worlds::posts(alloc, 4, Load::NONE),
        "world-4-10" => worlds::posts(alloc, 4, Load::TEN),
        "world-4-1000" => worlds::posts(alloc, 4, Load::THOUSAND),
        "world-64-10" => worlds::posts(alloc, 64, Load::TEN),
        _ => Ok(0),
    }
}

fn run_rounds<R: Threads + Sync>(rt: &R, alloc: Global, name: &str) -> Result<usize> {
    match name {
        "round-1-open" => rounds::run(rt, alloc, 1, Turns::NONE),
        "round-1" => rounds::run(rt, alloc, 1, Turns::CONNECTING),
        "round-2" => rounds::run(rt, alloc, 2, Turns::CONNECTING),
        "round-4" => rounds::run(rt, alloc, 4, Turns::CONNECTING),
        "waiting-1" => rounds::run(rt, alloc, 1, Turns::WAITING),
        "waiting-2" => rounds::run(rt, alloc, 2, Turns::WAITING),
        "waiting-4" => rounds::run(rt, alloc, 4, Turns::WAITING),
        _ => Ok(0),
    }
}

fn run_hubs<R: Threads + Wait + Sync>(rt: &R, alloc: Global, name: &str) -> Result<usize> {
    match name {
        "hub-1-4-0" => hubs::posts(rt, alloc, 1, 4, Load::NONE),
        "hub-1-4-10" => hubs::posts(rt, alloc, 1, 4, Load::TEN),
        "hub-1-4-1000" => hubs::posts(rt, alloc, 1, 4, Load::THOUSAND),
        "hub-1-64-10" => hubs::posts(rt, alloc, 1, 64, Load::TEN),
        "hub-2-4-10" => hubs::posts(rt, alloc, 2, 4, Load::TEN),
        "hub-4-4-10" => hubs::posts(rt, alloc, 4, 4, Load::TEN),
        "tick-open" => hubs::ticks(rt, alloc, 0),
        "tick" => hubs::ticks(rt, alloc, 100_000),
        _ => Ok(0),
    }
}
