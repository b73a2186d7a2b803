use futures::task::Waker;

/// The result of registering a waker with a connect.
#[derive(Drop)]
pub enum Watch {
    /// The waker is stored. Returns the one that it replaces; dropping that wakes its task.
    Stored(Option<Waker>),
    /// Not stored: the answer is filed and can be taken.
    Ready(Waker),
    /// Not stored: neither a held connect nor a filed answer is at the place.
    Unknown(Waker),
    /// Not stored: the shard is closed, and the connect is still held.
    Shut(Waker),
}
