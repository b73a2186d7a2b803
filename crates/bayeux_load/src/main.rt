//! The load tester `bayeux_load`: measures how fast a server delivers events, and reports losses.
#![tactic(auto)]

mod client;
mod context;
mod fault;
mod link;
mod load;
mod part;
mod report;
mod role;
mod tally;
mod worker;

use bx_load::{LoadSettings, SettingsFault};
use fault::Fault;
use load::ThreadedLoad;
use report::report;
use std::env;
use std::io::IsTerminal;
use std::process::ExitCode;
use tally::Tally;

const USAGE: &str = "usage: bayeux_load url sessions channels publishers events [rate] [ack]";

fn main(rt: HostRuntime) -> ExitCode {
    match settings(&rt) {
        Ok(settings) => match ThreadedLoad::new(rt, settings) {
            Ok(load) => match load.run(rt.stderr().is_terminal()) {
                Ok(tally) => reported(&rt, &tally),
                Err(fault) => failed(&rt, fault),
            },
            Err(fault) => failed(&rt, fault),
        },
        Err(SettingsFault::Memory) => failed(&rt, Fault::Memory),
        Err(fault) => {
            let _ = eprintln!(rt; "{USAGE}\nbayeux_load: {fault}");
            ExitCode::from(2)
        }
    }
}

fn settings(rt: &HostRuntime) -> Result<LoadSettings, SettingsFault> {
    let mut args = Vec::new(rt.alloc());
    for arg in env::args(rt)?.skip(1) {
        args.push(arg).map_err(|_arg| SettingsFault::Memory)?;
    }
    LoadSettings::read(rt.alloc(), args.as_slice())
}

// Prints the report. Returns success if every event arrived once and in order.
fn reported(rt: &HostRuntime, tally: &Tally) -> ExitCode {
    let Ok(text) = report(rt.alloc(), tally) else {
        return failed(rt, Fault::Memory);
    };
    match rt.println(text.as_str()) {
        Ok(()) if tally.is_whole() => ExitCode::SUCCESS,
        _ => ExitCode::FAILURE,
    }
}

fn failed(rt: &HostRuntime, fault: Fault) -> ExitCode {
    let _ = eprintln!(rt; "bayeux_load: {}", fault.text());
    ExitCode::FAILURE
}
