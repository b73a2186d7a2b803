//! Test of a replay whose output cannot be flushed, which no clause tells from one that is.
use crate::same::same;
use bx_advice::{Config, WorkerCount};
use bx_entry::ByRemainder;
use bx_replay::replay;
use bx_script::{Dialect, Lines, Output, ScriptFault};
use std::alloc::Global;
use std::io;
use std::io::{ErrorKind, Write};
use std::sync::Arc;
use std::test::Fail;
use std::thread::Threads;

// A writer that cannot be flushed.
#[derive(Drop)]
struct Writer {
    written: Vec<u8>,
}

impl Write for Writer {
    fn write(&mut self, buf: &[u8]) -> io::Result<usize> {
        self.written.extend_from_slice(buf)?;
        Ok(buf.len())
    }

    fn flush(&mut self) -> io::Result<()> {
        Err(io::Error::from(ErrorKind::BrokenPipe))
    }
}

// A script, and what a replay of it writes. A connect supersedes another.
const SCRIPT: &str =
    r#"0 P [{"channel":"/meta/handshake","version":"1.0","supportedConnectionTypes":["long-polling"]}]
0 P [{"channel":"/meta/connect","clientId":"000000000000000000000000000000000000000000000001","connectionType":"long-polling"}]
x
1 P [{"channel":"/meta/connect","clientId":"000000000000000000000000000000000000000000000001","connectionType":"long-polling"}]
"#;

const OUTPUT: &str =
    r#"1 200 [{"advice":{"interval":0,"reconnect":"retry","timeout":30000},"channel":"/meta/handshake","clientId":"000000000000000000000000000000000000000000000001","successful":true,"supportedConnectionTypes":["long-polling","callback-polling"],"version":"1.0"}]
3 bad
2 200 [{"channel":"/meta/connect","clientId":"000000000000000000000000000000000000000000000001","error":"408::Superseded connect","successful":false}]
4 held
"#;

// Replays the script, and returns the replay's result.
fn replayed<R: Threads + Sync>(
    rt: &R,
    alloc: Global,
    writer: &mut Writer,
) -> Result<Result<(), ScriptFault>, Fail> {
    let config = Config::new(3, 30_000, 0, 10_000).ok_or("no configuration")?;
    let workers = WorkerCount::new(2).ok_or("no such number of workers")?;
    let placing = Arc::new(alloc, ByRemainder)?;
    let mut lines = Lines::new(alloc, Dialect::Script, SCRIPT.as_bytes());
    let mut output = Output::new(writer);
    Ok(replay(rt, alloc, config, placing, workers, &mut lines, &mut output))
}

// Checks that a failed flush is a write fault, after all output is written.
#[test]
fn a_failed_flush_is_a_write_fault(rt: HostRuntime) -> Result<(), Fail> {
    let alloc = rt.alloc();
    let mut writer = Writer {
        written: Vec::new(alloc),
    };
    let ended = replayed(&rt, alloc, &mut writer)?;
    same(&rt, ended, Err(ScriptFault::Write), "a failed flush");
    same(&rt, writer.written.as_slice(), OUTPUT.as_bytes(), "all");
    Ok(())
}
