//! Scripts: reading and parsing their lines, and printing a result for each.
#![tactic(auto)]

mod dialect;
mod digest;
mod error;
mod kept;
mod line;
mod lines;
mod nonce;
mod output;
mod part;
mod print;

pub use dialect::Dialect;
pub use error::ScriptFault;
pub use line::Line;
pub use lines::Lines;
pub use output::{MAX_INTERRUPTIONS, Output};
pub use part::MAX_READS;
pub use print::{write_bad, write_held, write_result, write_status};
