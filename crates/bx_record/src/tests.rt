//! Tests of the lines of a record, of the log of answers, and of the writer.
mod answers;
mod texts;
mod writing;
