ghost use Rattle.std.specs.Prelude.{◌≡◌, ◌++◌, ℕ, [], ◌∷◌, List, IsSome, map, if◌then◌else◌, IfErr, OnErr, OnOk};
ghost use Rattle.std.specs.BTreeMap.{get, is_at};
ghost use Rattle.std.specs.Ordering.{nat_cmp};
ghost use Rattle.bx_replay.specs.Kept.{AllKept, AreKept, PrintsOuts, held_texts, inputs_given};
ghost use Rattle.bx_script.specs.Replay.{Numbered};
ghost use Rattle.bx_fanout.specs.Stages.{seen_out};
ghost use Rattle.bx_theory.specs.Lines.{outs_text};
ghost use Rattle.bx_script.specs.Output.{IsWriteFault, written};
ghost use Rattle.bx_script.specs.Printing.{AppendsFront, Writes};

use bx_fanout::Out;
use bx_script::{Output, ScriptFault, write_held, write_result};
use std::alloc::Global;
use std::collections::BTreeMap;
use std::io::Write;

/// What is kept of an input until its out is printed.
#[derive(Drop)]
pub struct PendingLine {
    /// From 1.
    pub line: u64,
    /// The name of the function that a callback-polling response calls.
    pub callback: Option<String>,
    /// Whether the input is a tick, which prints nothing unless it is rejected.
    pub tick: bool,
}

/// Prints `outs` in order, and drops what `kept` has of their inputs.
///
/// # Errors
///
/// `Memory` or `Write`; a prefix of the output may be written.
pub fn print_outs<W: Write>(
    alloc: Global,
    kept: &mut BTreeMap<usize, PendingLine>,
    outs: &[Out],
    writer: &mut Output<W>,
) -> Result<(), ScriptFault>
    requires kept { AllKept (get nat_cmp kept.old) (inputs_given outs.now) }
    ensures others { OnOk result ((others : List ℕ) → AllKept (get nat_cmp kept.old) (inputs_given outs.now ++ others) → AllKept (get nat_cmp kept.new) others) }
    ensures prints { OnOk result ((numbered : List Numbered) → AreKept numbered (get nat_cmp kept.old) →
        PrintsOuts numbered (map seen_out outs.now) (written W.contents writer.old) (written W.contents writer.new) (get nat_cmp kept.new)) }
    ensures fault { OnErr result ((numbered : List Numbered) → AreKept numbered (get nat_cmp kept.old) →
        AppendsFront (written W.contents writer.old) (written W.contents writer.new) (outs_text numbered (map seen_out outs.now))) }
    ensures reason { IfErr result (IsWriteFault writer.new) }
{
    for out in outs {
        print_out(alloc, kept, out, writer)?;
    }
    Ok(())
}

fn print_out<W: Write>(
    alloc: Global,
    kept: &mut BTreeMap<usize, PendingLine>,
    out: &Out,
    writer: &mut Output<W>,
) -> Result<(), ScriptFault>
    requires kept { IsSome (get nat_cmp kept.old out.now.input) }
    ensures others { OnOk result ((i : ℕ) → get nat_cmp kept.new i ≡ (if is_at (nat_cmp out.now.input) i then None else get nat_cmp kept.old i)) }
    ensures prints { OnOk result ((numbered : List Numbered) → AreKept numbered (get nat_cmp kept.old) →
        PrintsOuts numbered (seen_out out.now ∷ []) (written W.contents writer.old) (written W.contents writer.new) (get nat_cmp kept.new)) }
    ensures fault { OnErr result ((numbered : List Numbered) → AreKept numbered (get nat_cmp kept.old) →
        AppendsFront (written W.contents writer.old) (written W.contents writer.new) (outs_text numbered (seen_out out.now ∷ []))) }
    ensures reason { IfErr result (IsWriteFault writer.new) }
{
    let Some(asked) = kept.remove(&out.input) else {
        unreachable!()
    };
    write_result(
        alloc,
        writer,
        asked.line,
        &asked.callback,
        asked.tick,
        &out.result,
    )
}

/// Prints for each input in `numbers` that it is held.
///
/// # Errors
///
/// `Memory` or `Write`; a prefix of the output may be written.
pub fn print_held<W: Write>(
    kept: &BTreeMap<usize, PendingLine>,
    numbers: &[usize],
    writer: &mut Output<W>,
) -> Result<(), ScriptFault>
    requires kept { AllKept (get nat_cmp kept.now) numbers.now }
    ensures text { (numbered : List Numbered) → AreKept numbered (get nat_cmp kept.now) →
        Writes (written W.contents writer.old) (written W.contents writer.new) result (held_texts numbered numbers.now) }
    ensures reason { IfErr result (IsWriteFault writer.new) }
{
    for number in numbers {
        let Some(asked) = kept.get(number) else {
            unreachable!()
        };
        write_held(writer, asked.line)?;
    }
    Ok(())
}
