//! Load tests of a server: settings, requests, responses, and the arrivals of events.
#![tactic(auto)]

mod arrivals;
mod items;
mod latencies;
mod requests;
mod response;
mod settings;
mod shares;
#[cfg(test)]
mod tests;

pub use arrivals::{Arrivals, Reception};
pub use items::{Received, Stamp, client_of, item_of};
pub use latencies::Latencies;
pub use requests::Requests;
pub use response::{Malformed, Response, read_response};
pub use settings::{LoadSettings, SettingsFault, Target};
pub use shares::{NANOS_PER_SECOND, due, events_of};
