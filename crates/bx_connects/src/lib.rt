//! Held connects, filed answers, and the wakers of tasks that wait for them.
#![tactic(auto)]

mod connects;
mod deadlines;
mod filing;
mod held;
mod wakers;
mod watch;
mod woken;

pub use connects::{ConnectState, Connects, FiledAnswer};
pub use filing::TakenAnswer;
pub use wakers::Wakers;
pub use watch::Watch;
