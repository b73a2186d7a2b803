ghost use Rattle.std.specs.Prelude.{◌≡◌, [], IfOk};

use crate::record_file::{FailedWrite, RecordFile};
use crate::source::{Source, TakenText};
use std::alloc::Global;
use std::io::Write;
use std::sync::Wait;
use std::sync::atomic::{AtomicBool, Ordering};
use std::time::{Clock, Duration};
use std::{io, thread};

// Milliseconds between two checks of how many bytes of text wait. Policy of this server.
const REST: u64 = 10;

// After this many checks, all waiting bytes are written, however few. Policy of this server.
const LOOKS: u32 = 10;

// If a check finds at least this many waiting bytes, they are written. Policy of this server.
pub(crate) const SOON: usize = 64 << 10;

/// Why [`write_until_stopped`] ended.
#[derive(Debug, Drop)]
pub enum WriterEnd<E> {
    /// `stop` was set; everything that waited is written.
    StopRequested,
    /// The text ended, for this reason; its last part is written.
    Ended(E),
    /// The source returned no text; it had ended before.
    AlreadyEnded,
    /// A write failed, or a chunk does not follow the text written so far.
    WriteFailed(io::Error),
}

/// How far a record's file was written.
#[derive(Debug, Drop)]
pub struct WriteSummary<E> {
    /// Including what a failed write wrote.
    pub count: u64,
    pub end: WriterEnd<E>,
}

/// Writes what waits in `source` to `out`, until `stop` is set.
///
/// Writes at once, then every 100 ms, or within 10 ms if 64 KiB of text wait. After `stop` is set,
/// writes a last time and does not stop the source.
///
/// Ends earlier if the text ends or cannot be written, and then stops the source.
///
/// # Blocking
///
/// Sleeps between writes.
pub fn write_until_stopped<R, S, W>(
    rt: &R,
    alloc: Global,
    mut source: S,
    out: RecordFile<S::TextPosition, W>,
    stop: &AtomicBool,
) -> WriteSummary<S::Fault>
where
    R: Wait + Clock,
    S: Source + Drop,
    W: Write + Drop,
{
    let mut out = out;
    let (mut text, mut answers) = (Vec::new(alloc), Vec::new(alloc));
    let mut looks = 0;
    for _ in rt.forever() {
        // Read first, so that all that was appended before `stop` was set is written.
        let is_last = stop.load(Ordering::SeqCst);
        if is_last || looks == 0 || source.waiting() >= SOON {
            looks = LOOKS;
            match write_once(&mut source, out, text, answers) {
                Ok(next) => {
                    out = next.0;
                    text = next.1;
                    answers = next.2;
                }
                Err(written) => return written,
            }
        }
        if is_last {
            break;
        }
        looks -= 1;
        thread::sleep(rt, Duration::from_millis(REST));
    }
    WriteSummary {
        count: out.count(),
        end: WriterEnd::StopRequested,
    }
}

// Writes all that waits. Returns the file and the two empty buffers.
//
// If the text has ended or a write fails, stops the source and returns why writing ended.
//
// Answers are taken first and written last, so that each follows the text of its request. If the
// text ends, the answers are dropped, since it may lack their requests.
fn write_once<S: Source, W: Write + Drop>(
    source: &mut S,
    out: RecordFile<S::TextPosition, W>,
    text: Vec<u8>,
    answers: Vec<u8>,
) -> Result<(RecordFile<S::TextPosition, W>, Vec<u8>, Vec<u8>), WriteSummary<S::Fault>>
    requires { (text.items ≡ []) × (answers.items ≡ []) }
    ensures { IfOk result (λ next. (next.1.items ≡ []) × (next.2.items ≡ [])) }
{
    let mut answers = source.take_answers(answers);
    let count = out.count();
    let Some(TakenText { chunk, fault }) = source.take(text) else {
        source.stop();
        return Err(WriteSummary {
            count,
            end: WriterEnd::AlreadyEnded,
        });
    };
    if fault.is_some() {
        answers.clear();
    }
    let out = match out
        .write(&chunk)
        .and_then(|out| out.write_answer_lines(answers.as_slice()))
    {
        Ok(out) => out,
        Err(FailedWrite { count, error }) => {
            source.stop();
            return Err(WriteSummary {
                count,
                end: WriterEnd::WriteFailed(error),
            });
        }
    };
    if let Some(fault) = fault {
        source.stop();
        return Err(WriteSummary {
            count: out.count(),
            end: WriterEnd::Ended(fault),
        });
    }
    answers.clear();
    Ok((out, chunk.into_empty(), answers))
}
