ghost use Rattle.std.specs.Prelude.{◌≡◌, ◌-◌, Some, slice_get};
ghost use Rattle.bx_window.specs.Places.{IsOf};

use bx_entry::{Batch, Entry, Input, Listing};
use bx_history::History;

/// A batch to publish.
#[derive(Drop)]
pub struct UnpublishedBatch {
    /// Begins at the end of the list.
    pub batch: Batch,
    /// Ghost: the messages and ticks that the batch appends to the list.
    pub elements: Listing,
    /// Ghost: the requests and ticks that these result from.
    pub inputs: History<Input>,
}

/// Returns the entry of `batch` at `place`, which must be one of its places.
pub fn entry_of(batch: &Batch, place: u64) -> &Entry
    requires { IsOf batch.now place }
    ensures { slice_get batch.now.entries (place - batch.now.first) ≡ Some result.now }
{
    &batch.entries.as_slice()[(place - batch.first) as usize]
}
