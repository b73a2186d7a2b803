use bx_message::Answer;

/// An answer that was taken.
#[derive(Drop)]
pub struct TakenAnswer {
    /// The place of the connect or rider.
    pub connect: u64,
    /// The place of the entry that gave the answer; for a rider, its own.
    pub place: u64,
    pub answer: Answer,
}
