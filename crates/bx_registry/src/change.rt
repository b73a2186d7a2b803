use bx_roster::Edits;
use std::marker::Model;

/// What a planned request or tick changes in the registry.
#[derive(Drop)]
pub struct Change {
    pub(crate) edits: Edits,
    pub(crate) clock: u64,
    pub(crate) length: u64,
}

impl Model for Change {
    ghost use Rattle.bx_registry.specs.Changes.{Amendment};

    ghost Value = { Amendment };

    ghost view = { λ c. record { edits = c.edits; clock = c.clock; length = c.length } };
}
