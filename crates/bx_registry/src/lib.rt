//! The registry of live sessions, the only place where messages are judged and become entries.
#![tactic(auto)]

mod change;
mod id;
mod judge;
mod laws;
mod plan;
mod planner;
mod posted;
mod refusal;
mod registry;
mod session_overlay;
mod setup;

pub use change::Change;
pub use laws::{roll_judges_element_as_registry, roll_judges_list_as_registry};
pub use plan::Plan;
pub use registry::Registry;
