ghost use Rattle.std.specs.Prelude.{◌≡◌, ◌++◌, [], IfErr, IfOk};
ghost use Rattle.std.specs.Io.KnownBytes.{Appends};

use crate::chunk::{Chunk, TextPosition};
use crate::counted::CountedFile;
use bx_history::History;
use std::io;
use std::io::Write;

/// The error of a failed write, and how far the file was written.
#[derive(Debug, Drop)]
pub struct FailedWrite {
    /// Including what the failed write wrote.
    pub count: u64,
    pub error: io::Error,
}

/// A file that contains a text up to a position, and lines of answers between the text's lines.
///
/// A write that fails consumes the `RecordFile`, so nothing can be written after a gap.
#[derive(Drop)]
pub struct RecordFile<F: TextPosition, W> {
    file: CountedFile<W>,
    written: History<u8>,
    upto: F,
    ghost whole: { written ≡ F.text upto },
}

impl<F: TextPosition, W: Write + Drop> RecordFile<F, W> {
    /// Creates a `RecordFile` for a text that begins at `start`. Writes nothing.
    pub fn new(file: CountedFile<W>, start: F) -> RecordFile<F, W>
        requires { F.text start ≡ [] }
        ensures { (result.file ≡ file) × (result.written ≡ []) × (result.upto ≡ start) }
    {
        RecordFile {
            file,
            written: History::new(),
            upto: start,
        }
    }

    /// Returns how many bytes were written, including lines of answers.
    pub fn count(&self) -> u64
        ensures { result ≡ self.now.file.count }
    {
        self.file.count()
    }

    /// Writes `chunk`, the next part of the text.
    ///
    /// # Errors
    ///
    /// - `InvalidInput`: `chunk` does not follow the text written so far.
    /// - Any error of the file, which may then have a prefix of `chunk`.
    pub fn write(self, chunk: &Chunk<F>) -> Result<RecordFile<F, W>, FailedWrite>
        ensures written { IfOk result (λ out. out.written ≡ self.written ++ chunk.now.bytes.items) }
        ensures file { IfOk result (λ out. Appends (W.contents self.file.file) (W.contents out.file.file) chunk.now.bytes.items) }
        ensures upto { IfOk result (λ out. F.is_copy chunk.now.to out.upto) }
    {
        let RecordFile {
            mut file,
            mut written,
            upto,
        } = self;
        if !upto.is_same(&chunk.from) {
            return Err(FailedWrite {
                count: file.count(),
                error: io::ErrorKind::InvalidInput.into(),
            });
        }
        if let Err(error) = file.write_all(chunk.bytes.as_slice()) {
            return Err(FailedWrite {
                count: file.count(),
                error,
            });
        }
        written.append(chunk.bytes.as_slice());
        Ok(RecordFile {
            file,
            written,
            upto: chunk.to.again(),
        })
    }

    /// Writes `lines`, which are not part of the text.
    ///
    /// # Errors
    ///
    /// Any error of the file, which may then have a prefix of `lines`.
    pub fn write_answer_lines(self, lines: &[u8]) -> Result<RecordFile<F, W>, FailedWrite>
        ensures written { IfOk result (λ out. (out.written ≡ self.written) × (out.upto ≡ self.upto)) }
        ensures file { IfOk result (λ out. Appends (W.contents self.file.file) (W.contents out.file.file) lines.now) }
    {
        let mut out = self;
        if let Err(error) = out.file.write_all(lines) {
            return Err(FailedWrite {
                count: out.file.count(),
                error,
            });
        }
        Ok(out)
    }
}
