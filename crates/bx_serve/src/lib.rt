//! Serves HTTP on one listener or two, with a task for each connection.
#![tactic(auto)]

mod connections;
mod listen;
mod make_task;
mod spawn_each;
#[cfg(test)]
mod tests;
mod timeout_body;
mod timeout_io;
mod timeouts;

pub use connections::{Connections, accept_limit};
pub use listen::{Endpoint, serve_until};
pub use make_task::{IgnoreOutput, MakeTask, Server};
pub use spawn_each::{SpawnEach, run_until};
pub use timeout_body::{TimeoutBody, TimeoutBodyFault, TimeoutService};
pub use timeout_io::TimeoutIo;
pub use timeouts::{ProgressTimeout, TimeLimits};
