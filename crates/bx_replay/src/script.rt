ghost use Rattle.std.specs.Prelude.{◌≡◌, [], IfErr, IfOk, IfSome, OnErr};
ghost use Rattle.bx_replay.specs.Serving.{IsAll, Prints, Serves, held_lines};
ghost use Rattle.bx_script.specs.Replay.{replay_text};
ghost use Rattle.bx_fanout.specs.Rounds.{setup_in};
ghost use Rattle.bx_replay.specs.Faults.{IsReplayFault};
ghost use Rattle.bx_script.specs.Lines.{read_as, unread};
ghost use Rattle.bx_script.specs.Output.{IsWriteFault, written};
ghost use Rattle.bx_script.specs.Printing.{AppendsFront, Writes};

use crate::kept::print_held;
use crate::server::{ReplayServer, answer, new_server};
use bx_advice::{Config, WorkerCount};
use bx_entry::Placing;
use bx_script::{Lines, Output, ScriptFault};
use std::alloc::Global;
use std::io::{BufRead, Write};
use std::sync::Arc;
use std::thread::Threads;

/// Writes the answers to all lines, and then which lines have no answer yet.
///
/// Lines are numbered from 1. The output is the same for every number of workers and shards, and
/// for every placing. A line that changes the number of shards redistributes the sessions by
/// `placing`.
///
/// # Errors
///
/// `Memory`, `Read` or `Write`; a prefix of the output may be written.
pub fn replay<T: Threads + Sync, P: Placing + Drop + Send + Sync, R: BufRead, W: Write>(
    rt: &T,
    alloc: Global,
    config: Config,
    placing: Arc<P>,
    workers: WorkerCount,
    lines: &mut Lines<R>,
    writer: &mut Output<W>,
) -> Result<(), ScriptFault>
    ensures text { IfSome (unread R.remaining lines.old)
        (λ script. Writes (written W.contents writer.old) (written W.contents writer.new) result (replay_text (read_as lines.old) config script)) }
    ensures reason { IfErr result (IsReplayFault lines.new writer.new) }
{
    let own = placing.clone()?;
    let first = new_server(alloc, config, own, workers)?;
    let server = answer_all(rt, alloc, &placing, first, lines, writer)?;
    finish(alloc, &server, writer)
}

// Processes all lines that are left, and returns the server after them.
fn answer_all<T: Threads + Sync, P: Placing + Drop + Send + Sync, R: BufRead, W: Write>(
    rt: &T,
    alloc: Global,
    placing: &Arc<P>,
    mut server: ReplayServer<P>,
    lines: &mut Lines<R>,
    writer: &mut Output<W>,
) -> Result<ReplayServer<P>, ScriptFault>
    requires serves { Serves server }
    requires none { server.lines ≡ [] }
    ensures serves { IfOk result (λ s. Serves s) }
    ensures config { IfOk result (λ s. (setup_in s.round).config ≡ (setup_in server.round).config) }
    ensures all { IfOk result (λ s. IsAll (read_as lines.old) (unread R.remaining lines.old) s.lines) }
    ensures prints { IfOk result (λ s. Prints (setup_in s.round).config [] s.lines (written W.contents writer.old) (written W.contents writer.new)) }
    ensures fault { OnErr result (IfSome (unread R.remaining lines.old) (λ script.
        AppendsFront (written W.contents writer.old) (written W.contents writer.new) (replay_text (read_as lines.old) (setup_in server.round).config script))) }
    ensures reason { IfErr result (IsReplayFault lines.new writer.new) }
{
    loop {
        let Some(line) = lines.next_line(alloc)? else {
            return Ok(server);
        };
        server = answer(rt, alloc, placing, server, line, writer)?;
    }
}

// Writes which lines have no answer, and flushes `writer`.
fn finish<P: Placing, W: Write>(
    alloc: Global,
    server: &ReplayServer<P>,
    writer: &mut Output<W>,
) -> Result<(), ScriptFault>
    requires serves { Serves server.now }
    ensures text { Writes (written W.contents writer.old) (written W.contents writer.new) result (held_lines (setup_in server.now.round).config server.now.lines) }
    ensures reason { IfErr result (IsWriteFault writer.new) }
{
    let numbers = server.round.held(alloc)?;
    print_held(&server.kept, &numbers, writer)?;
    writer.flush()
}
