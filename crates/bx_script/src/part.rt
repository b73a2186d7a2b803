ghost use Rattle.std.specs.Prelude.{◌≡◌, ◌<◌, ◌^◌, IfOk, ◌≤◌, OnOk, IfErr, length, position};
ghost use Rattle.bx_script.specs.Reading.{IsCut, ReadsLine, ReadsPart};
ghost use Rattle.bx_script.specs.Replay.{is_newline};

use crate::error::ScriptFault;
use crate::kept::keep;
use memchr::memchr;
use std::io::{BufRead, ErrorKind};

#[derive(Clone, Copy)]
enum ReadOutcome {
    // The read was interrupted.
    Again,
    // A part of a line that continues.
    More,
    // The end of a line.
    Line,
    // The end of the script.
    End,
}

/// The most reads of a script, 2^40. Interrupted reads count.
pub const MAX_READS: u64 = 1_099_511_627_776;

/// The reads that are left, and whether one has failed.
#[derive(Drop)]
pub struct Reads {
    left: u64,
    failed: bool,
    ghost few: { left ≤ 2 ^ 40 },
}

impl Reads {
    ghost use Rattle.bx_script.specs.Reads.{HasEnded, IsReadFault};

    pub(crate) fn new() -> Reads
        ensures left { result.left ≡ 2 ^ 40 }
        ensures sound { ¬ HasEnded result }
    {
        Reads {
            left: MAX_READS,
            failed: false,
        }
    }

    // Reads a line, and stores at most `KEPT_LIMIT` bytes of it in `kept`. Returns `false` if the
    // script has no more lines.
    pub(crate) fn read_text<R: BufRead>(
        &mut self,
        reader: &mut R,
        kept: &mut Vec<u8>,
    ) -> Result<bool, ScriptFault>
        ensures line { IfOk result (λ found. ReadsLine found (R.remaining reader.old) (R.remaining reader.new) kept.new.items) }
        ensures fewer { OnOk result (self.new.left < self.old.left) }
        ensures fault { IfErr result (IsReadFault self.new) }
    {
        kept.clear();
        let mut began = false;
        while self.left > 0 {
            self.left -= 1;
            match self.read_part(reader, kept)? {
                ReadOutcome::Again => {}
                ReadOutcome::More => began = true,
                ReadOutcome::Line => return Ok(true),
                ReadOutcome::End => return Ok(began),
            }
        }
        Err(ScriptFault::Read)
    }

    // Reads what `reader` has buffered, up to the end of the line. Appends what must be kept.
    fn read_part<R: BufRead>(
        &mut self,
        reader: &mut R,
        kept: &mut Vec<u8>,
    ) -> Result<ReadOutcome, ScriptFault>
        ensures part { IfOk result (λ step. ReadsPart step (R.remaining reader.old) (R.remaining reader.new)
            kept.old.items kept.new.items) }
        ensures left { self.new.left ≡ self.old.left }
        ensures fault { IfErr result (IsReadFault self.new) }
    {
        let shown = match reader.fill_buf() {
            Ok(shown) => shown,
            Err(error) if error.kind() == ErrorKind::Interrupted => return Ok(ReadOutcome::Again),
            Err(error) => {
                self.failed = true;
                return Err(ScriptFault::of_read(&error));
            }
        };
        let (length, used, step) = cut(shown);
        keep(kept, &shown[..length])?;
        reader.consume(used);
        Ok(step)
    }
}

// Returns how many bytes of `shown` belong to the line, how many to consume, and the outcome.
fn cut(shown: &[u8]) -> (usize, usize, ReadOutcome)
    ensures parts { IsCut shown.now result.0 result.1 result.2 }
    ensures before { result.0 ≤ length shown.now }
    ensures within { result.1 ≤ length shown.now }
{
    if shown.is_empty() {
        return (0, 0, ReadOutcome::End);
    }
    match newline_in(shown) {
        Some(length) => (length, length + 1, ReadOutcome::Line),
        None => (shown.len(), shown.len(), ReadOutcome::More),
    }
}

fn newline_in(shown: &[u8]) -> Option<usize>
    ensures { result ≡ position is_newline shown.now }
{
    memchr(b'\n', shown)
}
