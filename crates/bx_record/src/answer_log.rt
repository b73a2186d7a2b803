ghost use Rattle.std.specs.Prelude.{◌≡◌, []};

use crate::answer::answer_line;
use crate::answer_lines::{AnswerLines, TakenAnswerLines};
use crate::waiting::RecordFault;
use bx_message::Item;
use std::alloc::Global;
use std::sync::{Mutex, Wait};

/// A log of answers: their lines that wait to be written.
///
/// Any thread can add lines, and one thread takes them. At most 64 MiB wait.
#[derive(Drop)]
pub struct WaitingAnswerLines {
    lines: Mutex<AnswerLines>,
}

impl WaitingAnswerLines {
    /// Creates a log without lines, which accepts them.
    pub fn new(alloc: Global) -> WaitingAnswerLines {
        WaitingAnswerLines {
            lines: Mutex::new(AnswerLines::new(alloc)),
        }
    }

    /// Appends the line for the items that answer a request, unless the log has ended.
    ///
    /// `place`: that of the request's first message. If more than 64 MiB would wait, or memory runs
    /// out, the log ends without the line.
    ///
    /// # Blocking
    ///
    /// Locks the log, but not while it computes the digest.
    pub fn log_answer<R: Wait>(&self, rt: &R, alloc: Global, place: u64, items: &[Item]) {
        if !self.lines.lock(rt).is_open() {
            return;
        }
        match answer_line(alloc, place, items) {
            Ok(line) => self.add(rt, line.as_slice()),
            Err(_) => self.end(rt, RecordFault::Memory),
        }
    }

    /// Appends `line`, as [`log_answer`](Self::log_answer) does.
    pub(crate) fn add<R: Wait>(&self, rt: &R, line: &[u8]) {
        self.lines.lock(rt).add(line);
    }

    /// Ends the log because of `fault`, unless it has ended.
    ///
    /// # Blocking
    ///
    /// Locks the log.
    pub(crate) fn end<R: Wait>(&self, rt: &R, fault: RecordFault) {
        self.lines.lock(rt).end(fault);
    }

    /// Ends the log without a fault.
    ///
    /// Drops the waiting lines, and a fault that is not reported yet.
    ///
    /// # Blocking
    ///
    /// Locks the log.
    pub fn stop<R: Wait>(&self, rt: &R, alloc: Global) {
        self.lines.lock(rt).stop(alloc);
    }

    /// Takes all waiting lines, and the fault that ended the log, if it is not reported yet.
    ///
    /// `empty` replaces the lines. To let each line follow its request, take the lines before the
    /// hub's record, and write them after it.
    ///
    /// # Blocking
    ///
    /// Locks the log.
    pub fn take<R: Wait>(&self, rt: &R, empty: Vec<u8>) -> TakenAnswerLines
        requires { empty.items ≡ [] }
    {
        self.lines.lock(rt).take(empty)
    }
}
