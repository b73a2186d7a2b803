use crate::change::Change;
use bx_entry::{Batch, Listing, Slot};
use bx_message::Sequence;

/// What a request or a tick results in.
#[derive(Drop)]
pub struct Plan {
    /// One entry for each message, or one for the tick, with the sessions that it closes.
    pub batch: Batch,
    /// How each message is answered, in order.
    pub slots: Sequence<Slot>,
    /// Ghost: the messages or the tick.
    pub elements: Listing,
    /// For [`Registry::commit`](crate::Registry::commit).
    pub change: Change,
}
