ghost use Rattle.std.specs.Prelude.{◌≡◌, ◌≢◌, ◌+◌, ◌<◌, ◌^◌, ◌↔◌, IfErr, IfOk, IsTrue, OnErr};
ghost use Rattle.std.specs.Io.{WritesAtMost};
ghost use Rattle.std.specs.Io.KnownBytes.{Keeps, WriteAppends};
ghost use Rattle.std.specs.IoError.{error_kind};
ghost use Rattle.bx_script.specs.Output.{HasFailed, interruptions_left, written};

use crate::error::ScriptFault;
use std::io::{Error, ErrorKind, Write};

/// The most interrupted writes that an [`Output`] allows, 2^40.
pub const MAX_INTERRUPTIONS: u64 = 1_099_511_627_776;

/// A writer of results, which records whether a write has failed.
#[derive(Drop)]
pub struct Output<W> {
    writer: W,
    interruptions_left: u64,
    failed: bool,
}

impl<W: Write> Output<W> {
    /// Creates an output to `writer`.
    pub fn new(writer: W) -> Output<W>
        ensures written { written W.contents result ≡ W.contents writer }
        ensures interruptions { interruptions_left result ≡ 2 ^ 40 }
        ensures sound { ¬ HasFailed result }
    {
        Output {
            writer,
            interruptions_left: MAX_INTERRUPTIONS,
            failed: false,
        }
    }

    /// Flushes the writer.
    ///
    /// # Errors
    ///
    /// `Memory` if the writer is out of memory, and otherwise `Write`.
    pub fn flush(&mut self) -> Result<(), ScriptFault>
        ensures bytes { Keeps (written W.contents self.old) (written W.contents self.new) }
        ensures fault { IfErr result (λ e. e ≢ ScriptFault.Read) }
        ensures failed { OnErr result (HasFailed self.new) }
    {
        match self.writer.flush() {
            Ok(()) => Ok(()),
            Err(error) => Err(self.fail(&error)),
        }
    }

    // Writes a prefix of `text`, which is not empty, and returns its length, or 0 if interrupted.
    pub(crate) fn write_some(&mut self, text: &[u8]) -> Result<usize, ScriptFault>
        ensures within { WritesAtMost result text.now }
        ensures bytes { WriteAppends (written W.contents self.old) (written W.contents self.new) result text.now }
        ensures goes_on { IfOk result (λ n. interruptions_left self.new < interruptions_left self.old + n) }
        ensures fault { IfErr result (λ e. e ≢ ScriptFault.Read) }
        ensures failed { OnErr result (HasFailed self.new) }
    {
        match self.writer.write(text) {
            Ok(0) => Err(self.fail(&Error::from(ErrorKind::WriteZero))),
            Ok(count) => Ok(count),
            Err(error) if self.may_go_on(&error) => {
                self.interruptions_left -= 1;
                Ok(0)
            }
            Err(error) => Err(self.fail(&error)),
        }
    }

    fn may_go_on(&self, error: &Error) -> bool
        ensures { IsTrue result
            ↔ ((error_kind error.now ≡ ErrorKind.Interrupted) × (0 < interruptions_left self.now)) }
    {
        error.kind() == ErrorKind::Interrupted && self.interruptions_left > 0
    }

    fn fail(&mut self, error: &Error) -> ScriptFault
        ensures failed { HasFailed self.new }
        ensures bytes { written W.contents self.new ≡ written W.contents self.old }
        ensures fault { result ≢ ScriptFault.Read }
    {
        self.failed = true;
        ScriptFault::of_write(error)
    }
}
