//! Sample runs that retry each call for which memory runs out.
//!
//! If one allocation in a retried call fails, the program prints what it prints if none fails. If
//! an allocation outside of the retried calls fails, the program exits with status 1. An argument
//! names the part to run. Without an argument, all parts run in turn.
#![tactic(auto)]

mod hubs;
mod parts;
mod plans;
mod requests;
mod rounds;
mod services;
mod shards;
mod unlike;
mod windows;
mod worlds;

use anyhow::{Result, anyhow};
use std::alloc::AllocGlobal;
use std::env;
use std::random::RandomSource;
use std::sync::Wait;
use std::thread::Threads;
use unlike::Unlike;

const PARTS: [&str; 8] = [
    "plans", "shard", "rounds", "world", "hub", "window", "service", "pieces",
];

fn main(rt: HostRuntime) -> Result<()> {
    match env::args(&rt)?.nth(1) {
        Some(part) => print(rt, run(rt, part.as_str())),
        None => {
            for part in PARTS {
                print(rt, run(rt, part))?;
            }
            Ok(())
        }
    }
}

// Prints the text of a part, or what was wrong. Fails if memory ran out outside of the retried
// calls, or if `said` is `None`: no part has the given name.
fn print(rt: HostRuntime, said: Option<Result<String, Unlike>>) -> Result<()> {
    match said {
        Some(Ok(text)) => rt.println(text.as_str())?,
        Some(Err(Unlike::Wrong(what))) => rt.println(what)?,
        Some(Err(Unlike::Memory)) => return Err(anyhow!("out of memory")),
        None => return Err(anyhow!("no part has this name")),
    }
    Ok(())
}

// Runs `part` and returns its text or error, or `None` if no part has this name.
fn run<R>(rt: R, part: &str) -> Option<Result<String, Unlike>>
where
    R: Threads + Wait + RandomSource + AllocGlobal + Copy + Drop + Sync,
{
    let alloc = rt.alloc();
    match part {
        "plans" => Some(plans::run(alloc)),
        "shard" => Some(shards::run(alloc)),
        "rounds" => Some(rounds::run(&rt, alloc)),
        "world" => Some(worlds::run(&rt, alloc)),
        "hub" => Some(hubs::run(&rt, alloc)),
        "window" => Some(windows::run(&rt, alloc)),
        "service" => Some(services::run(rt)),
        "pieces" => Some(parts::run(&rt, alloc)),
        _ => None,
    }
}
