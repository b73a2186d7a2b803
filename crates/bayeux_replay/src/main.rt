//! The program `bayeux_replay`, which replays a script of requests or the record of a server.
#![tactic(auto)]

use bx_entry::ByRemainder;
use bx_replay::{ArgumentError, Arguments, read_settings, replay};
use bx_script::{Dialect, Lines, Output, ScriptFault};
use std::fs::File;
use std::io::{BufRead, BufReader, BufWriter, Read};
use std::process::ExitCode;
use std::sync::Arc;
use std::thread::Threads;
use std::{env, io};

const USAGE: &str =
    "usage: bayeux_replay shards workers timeout interval max_interval [options [limit]]";

fn main(rt: HostRuntime) -> ExitCode {
    match run(&rt, &rt) {
        Ok(code) => code,
        Err(fault) => {
            let _ = eprintln!(rt; "bayeux_replay: {fault}");
            ExitCode::FAILURE
        }
    }
}

// Replays the record in the file after `--record`, or on standard input if that is `-`. Without
// `--record`, replays the script on standard input.
fn run<T: Threads + Sync>(rt: &HostRuntime, threads: &T) -> Result<ExitCode, ScriptFault> {
    let args = match args(rt) {
        Err(error) if error.kind() == io::ErrorKind::InvalidData => {
            let _ = eprintln!(rt; "{USAGE}\nbayeux_replay: expected arguments in UTF-8");
            return Ok(ExitCode::from(2));
        }
        args => args.map_err(|error| ScriptFault::of_read(&error))?,
    };
    match args.as_slice() {
        [flag, path] if flag.as_str() == "--record" && path.as_str() == "-" => {
            replay_record(rt, threads, rt.reader())
        }
        [flag, path] if flag.as_str() == "--record" => match File::open(rt, path.as_str()) {
            Ok(file) => replay_record(rt, threads, file),
            Err(error) => {
                let _ = eprintln!(rt; "bayeux_replay: cannot open {path}: {error}");
                Ok(ExitCode::FAILURE)
            }
        },
        args => replay_script(rt, threads, args),
    }
}

fn args(rt: &HostRuntime) -> io::Result<Vec<String>> {
    let mut args = Vec::new(rt.alloc());
    for arg in env::args(rt)?.skip(1) {
        args.push(arg)?;
    }
    Ok(args)
}

// Returns exit code 2 if the arguments are wrong.
fn replay_script<T: Threads + Sync>(
    rt: &HostRuntime,
    threads: &T,
    args: &[String],
) -> Result<ExitCode, ScriptFault> {
    let alloc = rt.alloc();
    let mut bytes = Vec::new(alloc);
    for arg in args {
        bytes.push(arg.as_bytes())?;
    }
    match Arguments::read(&bytes) {
        Ok(arguments) => {
            let reader = BufReader::new(alloc, rt.reader()).map_err(|error| ScriptFault::of_read(
                &error,
            ))?;
            answer(rt, threads, arguments, Dialect::Script, reader)
        }
        Err(wrong) => {
            let _ = eprintln!(rt; "{USAGE}\nbayeux_replay: {wrong}");
            Ok(ExitCode::from(2))
        }
    }
}

// Returns exit code 2 if the first line is wrong.
fn replay_record<T: Threads + Sync, R: Read + Drop>(
    rt: &HostRuntime,
    threads: &T,
    record: R,
) -> Result<ExitCode, ScriptFault> {
    let alloc = rt.alloc();
    let mut reader = BufReader::new(alloc, record).map_err(|error| ScriptFault::of_read(&error))?;
    match read_settings(alloc, &mut reader)? {
        Ok(arguments) => answer(rt, threads, arguments, Dialect::Recorded, reader),
        Err(wrong) => {
            let _ = eprintln!(rt; "bayeux_replay: the first line of the record: {wrong}");
            Ok(ExitCode::from(2))
        }
    }
}

// Prints the answers to the lines that `reader` still has.
fn answer<T: Threads + Sync, R: BufRead + Drop>(
    rt: &HostRuntime,
    threads: &T,
    arguments: Arguments,
    dialect: Dialect,
    reader: R,
) -> Result<ExitCode, ScriptFault> {
    let alloc = rt.alloc();
    let writer = BufWriter::new(alloc, io::writer(rt)).map_err(|error| ScriptFault::of_write(
        &error,
    ))?;
    let Arguments { config, workers } = arguments;
    let placing = Arc::new(alloc, ByRemainder)?;
    replay(
        threads,
        alloc,
        config,
        placing,
        workers,
        &mut Lines::new(alloc, dialect, reader),
        &mut Output::new(writer),
    )?;
    Ok(ExitCode::SUCCESS)
}
