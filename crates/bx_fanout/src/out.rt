use bx_entry::Refusal;
use bx_message::{Item, Sequence};

/// The result of a complete input.
#[derive(Drop)]
pub struct Out {
    /// Its number among all inputs of the round, from 0.
    pub input: usize,
    /// The response, or why the input was rejected.
    ///
    /// A response has, for each message, its events and then its reply. That to a tick is empty.
    pub result: Result<Sequence<Item>, Refusal>,
}

/// Why a run of a round ended early.
#[derive(Clone, Copy, Debug, PartialEq, Eq)]
pub enum RoundFault {
    /// Memory ran out after `admitted` of the run's inputs were started.
    ///
    /// The next run appends their remaining outs.
    Memory { admitted: usize },
}
