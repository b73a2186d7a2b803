ghost use Rattle.std.specs.Prelude.{◌≡◌, ◌<◌, ◌^◌, IfErr, IfOk, IfSome, OnOk};
ghost use Rattle.bx_script.specs.Lines.{CannotRead, IsFault, IsNext, dialect_of, read_as, reads_left, unread};

use crate::dialect::Dialect;
use crate::error::ScriptFault;
use crate::line::Line;
use crate::part::Reads;
use std::alloc::Global;
use std::io::BufRead;

/// A reader of the lines of a script or a record.
///
/// It keeps a bounded part of one line in memory.
#[derive(Drop)]
pub struct Lines<R> {
    dialect: Dialect,
    reader: R,
    kept: Vec<u8>,
    reads: Reads,
}

impl<R: BufRead> Lines<R> {
    /// Creates a reader of the lines that `reader` gives. Does not allocate.
    ///
    /// It reads from `reader` at most [`MAX_READS`](crate::MAX_READS) times.
    pub fn new(alloc: Global, dialect: Dialect, reader: R) -> Lines<R>
        ensures dialect { read_as result ≡ dialect_of dialect }
        ensures script { unread R.remaining result ≡ R.remaining reader }
        ensures reads { reads_left result ≡ 2 ^ 40 }
        ensures sound { ¬ CannotRead result }
    {
        Lines {
            dialect,
            reader,
            kept: Vec::new(alloc),
            reads: Reads::new(),
        }
    }

    /// Reads and parses the next line, up to a line feed or the end of the script.
    ///
    /// Returns `None` at the end. Interrupted reads are repeated.
    ///
    /// # Errors
    ///
    /// `Read` or `Memory`; a part of the script may be lost then.
    pub fn next_line(&mut self, alloc: Global) -> Result<Option<Line>, ScriptFault>
        ensures next { IfOk result (λ next. IfSome (unread R.remaining self.old)
            (λ script. IsNext (read_as self.old) next script (unread R.remaining self.new))) }
        ensures dialect { read_as self.new ≡ read_as self.old }
        ensures reads { OnOk result (reads_left self.new < reads_left self.old) }
        ensures fault { IfErr result (IsFault self.new) }
    {
        if !self.reads.read_text(&mut self.reader, &mut self.kept)? {
            return Ok(None);
        }
        Ok(Some(Line::read(alloc, self.dialect, self.kept.as_slice())?))
    }
}
