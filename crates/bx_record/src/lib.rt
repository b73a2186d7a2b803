//! Records of a server's requests and ticks: the lines of a record, and how they are written.
#![tactic(auto)]

mod answer;
mod answer_lines;
mod answer_log;
mod chunk;
mod config;
mod counted;
mod form;
mod laws;
mod nonce;
mod record_file;
mod source;
#[cfg(test)]
mod tests;
mod text;
mod waiting;
mod writer;

pub use answer_lines::TakenAnswerLines;
pub use answer_log::WaitingAnswerLines;
pub use chunk::{Chunk, TextPosition};
pub use config::{config_text, read_config};
pub use counted::CountedFile;
pub use laws::{
    answer_lines_are_skipped, answer_lines_change_nothing, configs_read_back, records_answer_alike,
    records_read_back, truncated_records_read_back, truncated_records_with_answers_read_back,
};
pub use record_file::{FailedWrite, RecordFile};
pub use source::{Source, TakenText};
pub use text::{request_text, tick_text};
pub use waiting::{MAX_WAITING_BYTES, RecordFault, WaitingBytes};
pub use writer::{WriteSummary, WriterEnd, write_until_stopped};
