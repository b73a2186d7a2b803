//! Laws of records: what is read from a record is what was written.
//!
//! They hold for all inputs that lines can express.
ghost use Rattle.bx_record.specs.Laws.{AnswersAreSkipped, AnswersBreakOff, AnswersChangeNothing, ConfigsReadBack, RecordsAnswerAlike, RecordsBreakOff, RecordsReadBack};

/// Proves that reading a record gives the inputs that it was made from, in order.
///
/// All other lines of the record are nonces. A request without a handshake is read with nonce 0.
pub fn records_read_back()
    ensures { RecordsReadBack }
{}

/// Proves that the inputs read from a record have the same results as the original ones.
///
/// For every configuration, the responses and rejections are the same, and so are the inputs that
/// are not completely answered at the end.
pub fn records_answer_alike()
    ensures { RecordsAnswerAlike }
{}

/// Proves that the complete lines of a truncated record give its first inputs, in order.
///
/// All other complete lines are nonces.
pub fn truncated_records_read_back()
    ensures { RecordsBreakOff }
{}

/// Proves that reading a record skips the line of an answer.
///
/// The place is below 2^64, the digest has 32 bytes, and any text may follow.
pub fn answer_lines_are_skipped()
    ensures { AnswersAreSkipped }
{}

/// Proves that lines of answers between inputs do not change what a record gives.
///
/// The inputs and, for every configuration, their results are the same as without these lines.
pub fn answer_lines_change_nothing()
    ensures { AnswersChangeNothing }
{}

/// Proves that the complete lines of a truncated record with answers give its first inputs.
///
/// All other complete lines are nonces or answers.
pub fn truncated_records_with_answers_read_back()
    ensures { AnswersBreakOff }
{}

/// Proves that the line of a configuration gives this configuration.
///
/// This holds for every configuration that can be set, and any text may follow the line.
pub fn configs_read_back()
    ensures { ConfigsReadBack }
{}
