ghost use Rattle.std.specs.Prelude.{◌≡◌, ◌+◌, ◌-◌, ◌^◌, min, IfOk, OnErr};
ghost use Rattle.std.specs.Io.{WritesAtMost};
ghost use Rattle.std.specs.Io.KnownBytes.{WriteAppends};

use std::io;
use std::io::Write;

/// A file, and a count of the bytes written to it, which stops at `u64::MAX`.
#[derive(Drop)]
pub struct CountedFile<W> {
    file: W,
    count: u64,
}

impl<W> CountedFile<W> {
    /// Creates a `CountedFile` with a count of 0.
    pub fn new(file: W) -> CountedFile<W>
        ensures { result ≡ record { file = file; count = 0 } }
    {
        CountedFile { file, count: 0 }
    }

    /// Returns how many bytes were written, at most `u64::MAX`.
    pub fn count(&self) -> u64
        ensures { result ≡ self.now.count }
    {
        self.count
    }
}

impl<W: Write> Write for CountedFile<W> {
    ghost contents = { λ it. W.contents it.file };

    fn write(&mut self, buf: &[u8]) -> io::Result<usize>
        ensures bound { WritesAtMost result buf.now }
        ensures bytes { WriteAppends (W.contents self.old.file) (W.contents self.new.file) result buf.now }
        ensures counted { IfOk result (λ n. self.new.count ≡ min (self.old.count + n) (2 ^ 64 - 1)) }
        ensures same { OnErr result (self.new.count ≡ self.old.count) }
    {
        let written = self.file.write(buf)?;
        self.count = self.count.saturating_add(written as u64);
        Ok(written)
    }

    fn flush(&mut self) -> io::Result<()> {
        self.file.flush()
    }
}
