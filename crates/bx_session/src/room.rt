ghost use Rattle.std.specs.Prelude.{◌≡◌, ◌≤◌, [], IfOk};
ghost use Rattle.std.specs.Vec.{vec_capacity};

use bx_message::SharedEvent;
use std::alloc::{AllocError, Global};
use std::marker::Model;

/// Room for the events of the answer to a rider, so that sending them does not allocate.
#[derive(Drop)]
pub struct RideRoom {
    events: Vec<SharedEvent>,
}

impl Model for RideRoom {
    ghost use Rattle.std.specs.Prelude.{ℕ, ◌≡◌, []};
    ghost use Rattle.std.specs.Vec.{vec_capacity};

    ghost Value = { ℕ };

    ghost view = { λ r. vec_capacity r.events };

    ghost invariant = { λ r. r.events.items ≡ [] };
}

impl RideRoom {
    /// Creates room for at least `count` events.
    pub fn new(alloc: Global, count: usize) -> Result<RideRoom, AllocError>
        ensures { IfOk result (λ room. count ≤ room) }
    {
        let events = Vec::with_capacity(alloc, count)?;
        Ok(RideRoom { events })
    }

    pub(crate) fn into_list(self) -> Vec<SharedEvent>
        ensures empty { result.items ≡ [] }
        ensures room { vec_capacity result ≡ self }
    {
        let RideRoom { events } = self;
        events
    }
}
