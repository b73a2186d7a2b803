ghost use Rattle.std.specs.Prelude.{◌≡◌, ◌++◌, [], filter, IfOk, OnErr};
ghost use Rattle.bx_fanout.specs.HeldInputs.{waits};
ghost use Rattle.bx_fanout.specs.Stages.{GivesOut, is_collecting, own};

use crate::held_inputs::HeldInputs;
use crate::out::Out;
use crate::stage::Stage;
use std::alloc::{AllocError, Global};

/// Appends the outs of answered held connects, and then that of the complete input, to `outs`.
///
/// Removes these connects from `held`, and the input from `stage`. On error, some outs may be
/// appended; the next call continues.
pub(crate) fn give_out(
    alloc: Global,
    held: &mut HeldInputs,
    stage: &mut Stage,
    outs: &mut Vec<Out>,
) -> Result<(), AllocError>
    ensures gives { GivesOut held.old stage.old outs.old.items outs.new.items held.new stage.new }
    ensures held { IfOk result (λ _. held.new ≡ filter waits held.old) }
    ensures all { IfOk result (λ _. own stage.new ≡ []) }
{
    held.give(alloc, outs)?;
    give_own(stage, outs)
}

// Moves the out of the complete input, if any, from `stage` to `outs`, or keeps it on error.
fn give_own(stage: &mut Stage, outs: &mut Vec<Out>) -> Result<(), AllocError>
    ensures all { IfOk result (λ _. own stage.new ≡ []) }
    ensures added { IfOk result (λ _. outs.new.items ≡ outs.old.items ++ own stage.old) }
    ensures left { OnErr result (own stage.new ≡ own stage.old) }
    ensures same { OnErr result (outs.new.items ≡ outs.old.items) }
    ensures collecting { is_collecting stage.new ≡ is_collecting stage.old }
{
    let Stage::Complete(current) = stage else {
        return Ok(());
    };
    current.write()?;
    outs.reserve(1)?;
    if let Some(current) = stage.take_complete() {
        outs.push_reserved(current.into_out());
    }
    Ok(())
}
