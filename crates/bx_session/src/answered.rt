use bx_message::Answer;

/// The answer to a connect or a rider.
#[derive(Drop)]
pub struct Answered {
    pub place: u64,
    /// The events are oldest first.
    pub answer: Answer,
}

/// The result of [`Session::connect`](crate::Session::connect).
#[derive(Drop)]
pub struct ConnectResult {
    /// The answer to the connect that was held before.
    pub superseded: Option<Answered>,
    /// The answer to the new connect, unless it is held.
    pub answered: Option<Answered>,
}

/// What became of an event in [`Session::deliver`](crate::Session::deliver).
#[derive(Drop)]
pub enum Delivery {
    /// The event waits for a connect.
    Waits,
    /// The event answers the held connect.
    Given(Answered),
    /// The session overflowed and dropped the event. The caller must remove its patterns.
    Overflowed,
}
