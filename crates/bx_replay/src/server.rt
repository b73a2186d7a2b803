ghost use Rattle.std.specs.Prelude.{◌≡◌, ◌+◌, ◌++◌, ◌≤◌, ◌<◌, ◌^◌, [], ◌∷◌, length, option_map, string_bytes, IfErr, IfOk, OnErr, OnOk};
ghost use Rattle.std.specs.BTreeMap.{get};
ghost use Rattle.std.specs.Ordering.{nat_cmp};
ghost use Rattle.bx_replay.specs.Kept.{Keeps};
ghost use Rattle.bx_replay.specs.Serving.{Hands, HandsFront, Prints, PrintsFront, Serves, shards_after};
ghost use Rattle.bx_entry.specs.Requests.{read_input};
ghost use Rattle.bx_entry.specs.Runs.{held, outs};
ghost use Rattle.bx_fanout.specs.Rounds.{added_by, inputs_of, setup_in};
ghost use Rattle.bx_script.specs.Output.{IsWriteFault, written};
ghost use Rattle.bx_script.specs.Printing.{is_tick, numbered};
ghost use Rattle.bx_script.specs.Replay.{nonce_left, with_nonce};

use crate::kept::{PendingLine, print_outs};
use bx_advice::{Config, ShardCount, WorkerCount};
use bx_entry::{Arrival, Input, Placing};
use bx_fanout::{Round, RoundFault};
use bx_history::History;
use bx_script::{Line, Output, ScriptFault, write_bad, write_status};
use bx_shard::OpenGate;
use std::alloc::Global;
use std::collections::BTreeMap;
use std::io::Write;
use std::sync::Arc;
use std::thread::Threads;

/// The state of a replay between two lines.
#[derive(Drop)]
pub struct ReplayServer<P: Placing> {
    pub round: Round<P>,
    /// What is kept of inputs until their outs are printed, by the input's number.
    pub kept: BTreeMap<usize, PendingLine>,
    /// Number of lines processed.
    pub number: u64,
    /// The nonce of the next request, or 0 if no line gave one.
    pub nonce: u128,
    pub lines: History<Line>,
}

/// Creates a server that has processed no lines.
pub fn new_server<P: Placing + Drop>(
    alloc: Global,
    config: Config,
    placing: Arc<P>,
    workers: WorkerCount,
) -> Result<ReplayServer<P>, ScriptFault>
    ensures serves { IfOk result (λ s. Serves s) }
    ensures lines { IfOk result (λ s. s.lines ≡ []) }
    ensures config { IfOk result (λ s. (setup_in s.round).config ≡ config) }
    ensures reason { IfErr result (λ e. e ≡ ScriptFault.Memory) }
{
    let round = Round::new(alloc, config, placing, workers)?;
    Ok(ReplayServer {
        round,
        kept: BTreeMap::new(alloc),
        number: 0,
        nonce: 0,
        lines: History::new(),
    })
}

/// Processes `line`, prints the outs that result, and returns the server after it.
///
/// `placing`: for a change of the number of shards.
///
/// # Errors
///
/// `Memory` or `Write`; `server` is dropped, and a prefix of the output may be written.
pub fn answer<T: Threads + Sync, P: Placing + Drop + Send + Sync, W: Write>(
    rt: &T,
    alloc: Global,
    placing: &Arc<P>,
    mut server: ReplayServer<P>,
    line: Line,
    writer: &mut Output<W>,
) -> Result<ReplayServer<P>, ScriptFault>
    requires serves { Serves server }
    requires few { server.number < 2 ^ 62 }
    ensures serves { IfOk result (λ s. Serves s) }
    ensures lines { IfOk result (λ s. s.lines ≡ server.lines ++ line ∷ []) }
    ensures config { IfOk result (λ s. (setup_in s.round).config ≡ (setup_in server.round).config) }
    ensures shards { IfOk result (λ s. (setup_in s.round).shards ≡ shards_after line (setup_in server.round).shards) }
    ensures prints { IfOk result (λ s. Prints (setup_in s.round).config server.lines s.lines (written W.contents writer.old) (written W.contents writer.new)) }
    ensures fault { OnErr result (PrintsFront (setup_in server.round).config server.lines (server.lines ++ line ∷ []) (written W.contents writer.old) (written W.contents writer.new)) }
    ensures reason { IfErr result (IsWriteFault writer.new) }
{
    server.lines.push(&line);
    server.number += 1;
    let number = server.number;
    match line {
        Line::Bad => {
            write_bad(writer, number)?;
            Ok(server)
        }
        Line::Rejected { status } => {
            write_status(writer, number, status)?;
            Ok(server)
        }
        Line::Accepted { callback, input } => {
            let (input, left) = take_nonce(server.nonce, input);
            server.nonce = left;
            let (round, kept) = (&mut server.round, &mut server.kept);
            hand(rt, alloc, round, kept, number, callback, input, writer)?;
            Ok(server)
        }
        Line::Resharded { shards } => {
            let ReplayServer {
                round,
                kept,
                nonce,
                lines,
                ..
            } = server;
            let round = reshard(rt, alloc, round, shards, placing)?;
            Ok(ReplayServer {
                round,
                kept,
                number,
                nonce,
                lines,
            })
        }
        Line::Announced { nonce } => {
            server.nonce = nonce;
            Ok(server)
        }
        Line::Noted => Ok(server),
    }
}

// Gives `nonce` to `input` if it is a request. Returns it with the next request's nonce: 0 after a
// request, otherwise `nonce`.
fn take_nonce(nonce: u128, input: Input) -> (Input, u128)
    ensures input { read_input result.0 ≡ with_nonce nonce (read_input input) }
    ensures left { result.1 ≡ nonce_left nonce (read_input input) }
{
    match input {
        Input::Post(arrival) => (Input::Post(Arrival { nonce, ..arrival }), 0),
        Input::Tick(moment) => (Input::Tick(moment), nonce),
    }
}

// Runs the input of line `line`, and prints the outs that result. Keeps in `kept` what the out of
// an unanswered input needs.
fn hand<T: Threads + Sync, P: Placing + Send + Sync, W: Write>(
    rt: &T,
    alloc: Global,
    round: &mut Round<P>,
    kept: &mut BTreeMap<usize, PendingLine>,
    line: u64,
    callback: Option<String>,
    input: Input,
    writer: &mut Output<W>,
) -> Result<(), ScriptFault>
    requires few { length (inputs_of round.old) + 1 ≤ 2 ^ 62 }
    requires added { added_by round.old ≡ outs (setup_in round.old).config (inputs_of round.old) }
    requires kept { Keeps (get nat_cmp kept.old) (held (setup_in round.old).config (inputs_of round.old)) (length (inputs_of round.old)) }
    ensures hands { OnOk result (Hands round.old (numbered line (option_map string_bytes callback) (read_input input)) round.new
        (written W.contents writer.old) (written W.contents writer.new) (get nat_cmp kept.old) (get nat_cmp kept.new)) }
    ensures fault { OnErr result (HandsFront round.old (numbered line (option_map string_bytes callback) (read_input input))
        (written W.contents writer.old) (written W.contents writer.new) (get nat_cmp kept.old)) }
    ensures reason { IfErr result (IsWriteFault writer.new) }
{
    let tick = ticks(&input);
    let asked = PendingLine {
        line,
        callback,
        tick,
    };
    kept.insert(round.started_inputs(), asked)?;
    let inputs = [input];
    let mut outs = Vec::new(alloc);
    match round.run(rt, alloc, &OpenGate, &inputs, &mut outs) {
        Ok(()) => print_outs(alloc, kept, &outs, writer),
        Err(RoundFault::Memory { .. }) => Err(ScriptFault::Memory),
    }
}

fn ticks(input: &Input) -> bool
    ensures { result ≡ is_tick (read_input input.now) }
{
    matches!(input, Input::Tick(_))
}

fn reshard<T: Threads + Sync, P: Placing + Drop + Send + Sync>(
    rt: &T,
    alloc: Global,
    round: Round<P>,
    shards: ShardCount,
    placing: &Arc<P>,
) -> Result<Round<P>, ScriptFault>
    ensures inputs { IfOk result (λ r. inputs_of r ≡ inputs_of round) }
    ensures added { IfOk result (λ r. added_by r ≡ added_by round) }
    ensures config { IfOk result (λ r. (setup_in r).config ≡ (setup_in round).config) }
    ensures shards { IfOk result (λ r. (setup_in r).shards ≡ shards) }
    ensures reason { IfErr result (λ e. e ≡ ScriptFault.Memory) }
{
    match round.reshard(rt, alloc, shards, placing.clone()?) {
        Ok(round) => Ok(round),
        Err(_) => Err(ScriptFault::Memory),
    }
}
