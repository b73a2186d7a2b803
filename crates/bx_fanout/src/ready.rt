ghost use Rattle.std.specs.Prelude.{◌≡◌, [], IsTrue, IfOk};
ghost use Rattle.bx_fanout.specs.CurrentInputs.{Collects, IsCollected, NextReady};
ghost use Rattle.bx_entry.specs.Placings.{Setup};
ghost use Rattle.bx_world.specs.Worlds.{WorldState};

use crate::current_input::CurrentInput;
use bx_entry::Slot;
use bx_message::{Answer, Sequence};
use std::alloc::{AllocError, Global};
use std::collections::VecDeque;

/// Collects the replies of the input's slots, up to the first `Waiting` slot.
///
/// Returns `true` if there is none. On error, the replies collected so far are kept.
pub(crate) fn collect_ready(alloc: Global, current: &mut CurrentInput) -> Result<bool, AllocError>
    ensures so_far { (setup : Setup) (w : WorldState) → IsCollected setup w current.old → IsCollected setup w current.new }
    ensures collects { Collects current.old current.new }
    ensures whole { IfOk result (λ whole. IsTrue whole → current.new.slots.items ≡ []) }
{
    while !current.slots.is_empty() {
        current.answers.reserve(1)?;
        let Some(answer) = next_ready(alloc, &mut current.slots) else {
            return Ok(false);
        };
        current.answers.push_back_reserved(answer);
    }
    Ok(true)
}

// Takes the reply in the first slot, and removes the slot, unless it is `Waiting`.
fn next_ready(alloc: Global, slots: &mut VecDeque<Slot>) -> Option<Answer>
    ensures { NextReady slots.old.items slots.new.items result }
{
    let Some(Slot::Ready(_)) = slots.front() else {
        return None;
    };
    match slots.pop_front() {
        Some(Slot::Ready(reply)) => Some(Answer {
            events: Sequence::new(alloc),
            reply,
        }),
        _ => None,
    }
}
