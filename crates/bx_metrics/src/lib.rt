//! The server's metrics, and the HTTP responses that show them.
#![tactic(auto)]

mod ascii;
mod channel_lines;
mod counts;
mod histogram;
mod hub_state;
mod metric;
mod observer;
mod page;
mod process;
mod response;
mod session_lines;
mod settings;
mod status_page;
#[cfg(test)]
mod tests;

pub use channel_lines::ChannelLines;
pub use counts::{Counts, MetricValues};
pub use metric::Metric;
pub use page::page_text;
pub use process::{ProcessTexts, ProcessValues};
pub use response::{MetricsRequest, ServerHealth, response_text};
pub use session_lines::SessionLines;
pub use settings::PageSettings;
pub use status_page::STATUS_PAGE;
