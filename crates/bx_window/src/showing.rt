ghost use Rattle.std.specs.Prelude.{◌≡◌, [], List, None, IsTrue, IfNone, IfSome, IfOk};
ghost use Rattle.left_right.specs.Handles.{published, pending};
ghost use Rattle.bx_window.specs.declared.law.LogStep.{LogStep};
ghost use Rattle.bx_window.specs.Changes.{after};
ghost use Rattle.bx_window.specs.Showing.{IsShown};

use crate::front::Front;
use crate::law::LogId;
use crate::published::{RingChange, Trimmed};
use crate::ring::Ring;
use left_right::WriteHandle;
use std::alloc::AllocError;
use std::sync::Wait;

/// A change that could not be shown, so that readers do not see it yet.
#[derive(Drop)]
pub(crate) struct Late<O: Drop> {
    change: O,
}

/// Shows `change` to readers, or returns it as late.
///
/// If it is late, readers see what they saw before.
pub(crate) fn show<L: LogId, R: Wait + Drop>(
    handle: &mut WriteHandle<Ring<L>, RingChange<L>, R>,
    change: RingChange<L>,
) -> Option<Late<RingChange<L>>>
    requires { pending handle.old ≡ [] }
    ensures pending { pending handle.new ≡ [] }
    ensures shown { IfNone result ((published handle.new).front ≡ after (published handle.old).front change) }
    ensures late { IfSome result (λ l. (l.change ≡ change) × (published handle.new ≡ published handle.old)) }
{
    match handle.append(change) {
        Ok(()) => {
            let _ = handle.publish();
            None
        }
        Err(change) => Some(Late { change }),
    }
}

/// Shows the late change, if any. Returns `true` if no change is late any more.
pub(crate) fn catch_up<L: LogId, R: Wait + Drop>(
    handle: &mut WriteHandle<Ring<L>, RingChange<L>, R>,
    late: &mut Option<Late<RingChange<L>>>,
) -> bool
    requires { pending handle.old ≡ [] }
    ensures pending { pending handle.new ≡ [] }
    ensures none { IsTrue result → late.new ≡ None }
    ensures shown { (log : List LogStep) → IsShown after log late.old (published handle.old).front → IsShown after log late.new (published handle.new).front }
{
    match late.take() {
        Some(Late { change }) => {
            *late = show(handle, change);
            late.is_none()
        }
        None => true,
    }
}

/// Makes room in the log of the crate `left_right`, so that showing a change never allocates.
///
/// The log has at most two changes: the next one, and the last one, which is still to be applied to
/// the second of the two copies of the ring. `front`: empty, for two changes without effect.
pub(crate) fn make_room<L: LogId, R: Wait + Drop>(
    handle: &mut WriteHandle<Ring<L>, RingChange<L>, R>,
    front: &Front<L>,
) -> Result<(), AllocError>
    requires pending { pending handle.old ≡ [] }
    requires empty { (front.now ≡ []) × ((published handle.old).front ≡ []) }
    ensures pending { IfOk result (λ _. pending handle.new ≡ []) }
    ensures shown { IfOk result (λ _. (published handle.new).front ≡ []) }
{
    for _ in 0..2 {
        let nothing = RingChange::Trim(Trimmed::new(0, front.again()));
        if show(handle, nothing).is_some() {
            return Err(AllocError);
        }
    }
    Ok(())
}
