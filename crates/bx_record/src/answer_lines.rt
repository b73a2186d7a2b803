ghost use Rattle.std.specs.Prelude.{◌≡◌, ◌≤◌, [], length, ◌↔◌, IsTrue};
ghost use Rattle.bx_record.specs.AnswerLog.{IsAdded, ended_by, fault_in, after_report};
ghost use Rattle.bx_record.specs.declared.answer_lines.LogState.TheVariants.{Open, Closed};
ghost use Rattle.bx_record.specs.declared.waiting.TheConstants.{MAX_WAITING_BYTES};

use crate::waiting::{RecordFault, WaitingBytes};
use std::alloc::Global;

/// Whether a log of answers accepts lines.
#[derive(Clone, Copy, Debug, PartialEq, Eq)]
pub(crate) enum LogState {
    Open,
    /// Ended because of this fault, which is not reported yet.
    Ended(RecordFault),
    /// Ended, without a fault left to report.
    Closed,
}

/// Lines taken from a log of answers.
#[derive(Drop)]
pub struct TakenAnswerLines {
    /// In the order in which they were added, after all lines taken before.
    pub bytes: Vec<u8>,
    /// The fault that ended the log, unless it was reported before.
    pub fault: Option<RecordFault>,
    pub ghost bounded: { length bytes.items ≤ MAX_WAITING_BYTES },
}

/// The waiting lines of a log of answers.
#[derive(Drop)]
pub(crate) struct AnswerLines {
    waiting: WaitingBytes,
    state: LogState,
}

impl AnswerLines {
    /// Creates a log without lines, which accepts them.
    pub(crate) fn new(alloc: Global) -> AnswerLines
        ensures lines { result.waiting ≡ [] }
        ensures state { result.state ≡ Open }
    {
        AnswerLines {
            waiting: WaitingBytes::new(alloc),
            state: LogState::Open,
        }
    }

    pub(crate) fn is_open(&self) -> bool
        ensures { IsTrue result ↔ (self.now.state ≡ Open) }
    {
        self.state == LogState::Open
    }

    /// Appends `line`, unless the log has ended.
    ///
    /// If more than 64 MiB would wait, or memory runs out, the log ends without `line`.
    pub(crate) fn add(&mut self, line: &[u8])
        ensures { IsAdded self.old.state self.new.state line.now self.old.waiting self.new.waiting }
    {
        if self.state != LogState::Open {
            return;
        }
        if let Err(fault) = self.waiting.push(line) {
            self.state = LogState::Ended(fault);
        }
    }

    /// Ends the log because of `fault`, unless it has ended.
    pub(crate) fn end(&mut self, fault: RecordFault)
        ensures lines { self.new.waiting ≡ self.old.waiting }
        ensures state { self.new.state ≡ ended_by fault self.old.state }
    {
        if let LogState::Open = self.state {
            self.state = LogState::Ended(fault);
        }
    }

    /// Ends the log without a fault.
    ///
    /// Drops the waiting lines, and a fault that is not reported yet.
    pub(crate) fn stop(&mut self, alloc: Global)
        ensures lines { self.new.waiting ≡ [] }
        ensures state { self.new.state ≡ Closed }
    {
        self.waiting = WaitingBytes::new(alloc);
        self.state = LogState::Closed;
    }

    /// Takes all waiting lines, and the fault that ended the log, if it is not reported yet.
    ///
    /// `empty` replaces the lines. Does not allocate or copy.
    pub(crate) fn take(&mut self, empty: Vec<u8>) -> TakenAnswerLines
        requires { empty.items ≡ [] }
        ensures bytes { result.bytes.items ≡ self.old.waiting }
        ensures fault { result.fault ≡ fault_in self.old.state }
        ensures emptied { self.new.waiting ≡ [] }
        ensures state { self.new.state ≡ after_report self.old.state }
    {
        let fault = match self.state {
            LogState::Ended(fault) => {
                self.state = LogState::Closed;
                Some(fault)
            }
            _ => None,
        };
        let bytes = self.waiting.take(empty);
        TakenAnswerLines { bytes, fault }
    }
}
