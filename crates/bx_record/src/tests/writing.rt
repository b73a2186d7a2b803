//! Tests of the writer, with a file that fails after a given number of writes.
ghost use Rattle.std.specs.Prelude.{◌≡◌, ◌==◌, [], codes, if◌then◌else◌};

use crate::writer::SOON;
use crate::{
    Chunk, CountedFile, RecordFile, Source, TakenText, TextPosition, WriteSummary, WriterEnd,
    write_until_stopped,
};
use std::io;
use std::io::Write;
use std::sync::atomic::{AtomicBool, Ordering};
use std::test::Fail;

// A position in a text of three lines: before them (`count` is 0), after two (1) or after all (2).
#[derive(Clone, Copy, Drop)]
struct Stage {
    count: u8,
}

impl TextPosition for Stage {
    ghost text = { λ it. if it.count == 0 then [] else (if it.count == 1 then codes "one\ntwo\n" else codes "one\ntwo\nthree\n") };

    ghost is_copy = { λ it copy. copy.count ≡ it.count };

    fn again(&self) -> Stage {
        Stage { count: self.count }
    }

    fn is_same(&self, other: &Stage) -> bool {
        self.count == other.count
    }
}

// A source of two lines, and then of a third line with fault 7. Its line of an answer is `n1`
// before the first part is taken, and `n2` afterwards. `waiting` is the number of waiting bytes
// that the source reports.
#[derive(Drop)]
struct Lines<'a> {
    turn: usize,
    waiting: usize,
    stopped: &'a AtomicBool,
}

impl<'a> Source for Lines<'a> {
    type TextPosition = Stage;

    type Fault = u8;

    fn waiting(&self) -> usize {
        self.waiting
    }

    fn take(&mut self, empty: Vec<u8>) -> Option<TakenText<Stage, u8>> {
        self.turn = self.turn.saturating_add(1);
        let mut bytes = empty;
        match self.turn {
            1 => {
                bytes.extend_from_slice(b"one\ntwo\n").ok()?;
                let chunk = Chunk::new(Stage { count: 0 }, Stage { count: 1 }, bytes);
                Some(TakenText { chunk, fault: None })
            }
            2 => {
                bytes.extend_from_slice(b"three\n").ok()?;
                let chunk = Chunk::new(Stage { count: 1 }, Stage { count: 2 }, bytes);
                Some(TakenText {
                    chunk,
                    fault: Some(7),
                })
            }
            _ => None,
        }
    }

    fn take_answers(&mut self, empty: Vec<u8>) -> Vec<u8> {
        let mut answers = empty;
        let _ = answers.extend_from_slice(if self.turn == 0 { b"n1\n" } else { b"n2\n" });
        answers
    }

    fn stop(&mut self) {
        self.stopped.store(true, Ordering::SeqCst);
    }
}

// A file that writes one byte at a time, and fails after `left` bytes.
#[derive(Drop)]
struct Failing {
    left: usize,
    got: Vec<u8>,
}

impl Write for Failing {
    fn write(&mut self, buf: &[u8]) -> io::Result<usize> {
        let Some(first) = buf.first() else {
            return Ok(0);
        };
        if self.left == 0 {
            return Err(io::ErrorKind::StorageFull.into());
        }
        self.left -= 1;
        self.got.push(*first)?;
        Ok(1)
    }

    fn flush(&mut self) -> io::Result<()> {
        Ok(())
    }
}

// Why writing ended, as a value that can be compared with `==`.
#[derive(Clone, Copy, Debug, PartialEq, Eq)]
enum Ending {
    Told,
    Fault(u8),
    Gone,
    Full,
    Behind,
    Other,
}

fn ending_of(written: &WriteSummary<u8>) -> Ending {
    match &written.end {
        WriterEnd::StopRequested => Ending::Told,
        WriterEnd::Ended(fault) => Ending::Fault(*fault),
        WriterEnd::AlreadyEnded => Ending::Gone,
        WriterEnd::WriteFailed(error) if error.kind() == io::ErrorKind::StorageFull => Ending::Full,
        WriterEnd::WriteFailed(error) if error.kind() == io::ErrorKind::InvalidInput =>
            Ending::Behind,
        WriterEnd::WriteFailed(_) => Ending::Other,
    }
}

#[test]
fn ends_at_each_write(rt: HostRuntime) -> Result<(), Fail> {
    let text = b"one\ntwo\nn1\nthree\n";
    for left in 0..19usize {
        let (stopped, over) = (AtomicBool::new(false), AtomicBool::new(false));
        let lines = Lines {
            turn: 0,
            waiting: SOON,
            stopped: &stopped,
        };
        let mut file = Failing {
            left,
            got: Vec::new(rt.alloc()),
        };
        let out = RecordFile::new(CountedFile::new(&mut file), Stage { count: 0 });
        let written = write_until_stopped(&rt, rt.alloc(), lines, out, &over);
        let (count, ending) = (written.count, ending_of(&written));
        assert_eq!(rt; file.got.as_slice(), &text[..left.min(17)]);
        assert_eq!(rt; count, left.min(17) as u64);
        let wanted = if left < 17 {
            Ending::Full
        } else {
            Ending::Fault(7)
        };
        assert_eq!(rt; ending, wanted);
        assert!(rt; stopped.load(Ordering::SeqCst));
    }
    Ok(())
}

#[test]
fn ends_as_it_is_told(rt: HostRuntime) -> Result<(), Fail> {
    for (turn, count, wanted) in [
        (0usize, 11, Ending::Told),
        (1, 0, Ending::Behind),
        (2, 0, Ending::Gone),
    ] {
        let (stopped, over) = (AtomicBool::new(false), AtomicBool::new(true));
        let lines = Lines {
            turn,
            waiting: 0,
            stopped: &stopped,
        };
        let out = RecordFile::new(CountedFile::new(Vec::new(rt.alloc())), Stage { count: 0 });
        let written = write_until_stopped(&rt, rt.alloc(), lines, out, &over);
        assert_eq!(rt; (written.count, ending_of(&written)), (count, wanted));
        assert_eq!(rt; stopped.load(Ordering::SeqCst), wanted != Ending::Told);
    }
    Ok(())
}

// Checks that bytes are written even if few wait.
#[test]
fn few_bytes_are_written_too(rt: HostRuntime) -> Result<(), Fail> {
    let (stopped, over) = (AtomicBool::new(false), AtomicBool::new(false));
    let lines = Lines {
        turn: 0,
        waiting: 0,
        stopped: &stopped,
    };
    let mut got = Vec::new(rt.alloc());
    let out = RecordFile::new(CountedFile::new(&mut got), Stage { count: 0 });
    let written = write_until_stopped(&rt, rt.alloc(), lines, out, &over);
    assert_eq!(rt; ending_of(&written), Ending::Fault(7));
    assert!(rt; got.as_slice() == b"one\ntwo\nn1\nthree\n".as_slice());
    Ok(())
}
