//! A bare HTTP server, as a baseline for measuring `bayeuxd`.
#![tactic(auto)]

mod answer;
mod serve;

use serve::serve;
use std::process::ExitCode;
use std::{env, io};

const USAGE: &str = "usage: bare_hyper address connections";

fn main(rt: HostRuntime) -> ExitCode {
    let served = match args(&rt) {
        Ok(args) => serve(rt, args.as_slice(), &mut io::writer(&rt)),
        Err(error) => Err(error),
    };
    match served {
        Ok(true) => ExitCode::SUCCESS,
        Ok(false) => {
            let _ = rt.eprintln(USAGE);
            ExitCode::from(2)
        }
        Err(_) => {
            let _ = rt.eprintln("bare_hyper: cannot serve");
            ExitCode::FAILURE
        }
    }
}

fn args(rt: &HostRuntime) -> io::Result<Vec<String>> {
    let mut args = Vec::new(rt.alloc());
    for arg in env::args(rt)?.skip(1) {
        args.push(arg)?;
    }
    Ok(args)
}
