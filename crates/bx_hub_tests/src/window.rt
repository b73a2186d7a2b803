//! Tests of what the readers of a window find, as tables of steps.
ghost use Rattle.std.specs.Prelude.{◌≡◌, [], IfOk};

use crate::same::same;
use bx_calls::{Taken, Ticker};
use bx_window::{EmptyWindow, Front, LogId, LogReader, Next, PublishFault, entry_of, log_pair};
use std::alloc::{AllocError, Global};
use std::marker::Brand;
use std::process::Abort;
use std::sync::Wait;
use std::test::*;

/// What a reader found at a place.
#[derive(Clone, Copy, Debug, PartialEq, Eq)]
enum Found {
    /// The reader found a batch. Fields: its first place, its number of entries, and the place of
    /// the entry that `entry_of` returns.
    Batch(u64, usize, u64),
    Level,
    Overrun,
    Memory,
}

// A step of a run with one writer and two readers, with its expected result. Steps look with the
// first reader, unless they name the other.
#[derive(Clone, Copy, Debug)]
enum Step {
    // Publishes a batch of ticks. Fields: the number of ticks, and the expected result.
    Publish(u64, Taken),
    // Publishes batches of one tick each. The field is the number of batches.
    Fill(usize),
    // Drops the batches that are wholly before the given place.
    Trim(u64),
    // The first reader looks for an entry. Fields: its place, and what is found.
    Finds(u64, Found),
    // The first reader finds a batch of one entry at each place in a range. Fields: the first
    // place, and the place after the last.
    FindsEach(u64, u64),
    // The other reader looks for an entry. Fields: its place, and what is found.
    OtherFinds(u64, Found),
    // Checks the place at which the window begins for the first reader.
    Begin(u64),
    // Checks the place at which the window begins for the writer.
    WriterBegin(u64),
    // The other reader, which has seen nothing, learns what the first reader has seen. The field is
    // the number of entries that the first reader has seen.
    Told(u64),
    // The other reader learns the writer's front. The field is the number of steps that it then has
    // seen.
    ToldByWriter(u64),
    // The writer's front covers the first reader's shorter one. Fields: the numbers of entries and
    // steps of the writer's front.
    Covers(u64, u64),
}

// The result of publishing a batch of two ticks to a full window, which returns the batch.
const FULL: Taken = Taken::Refused {
    why: PublishFault::Full,
    first: 4_096,
    entries: 2,
};

// Runs of steps, each with its own window.
const RUNS: [&[Step]; 6] = [
    // A batch of three ticks is found at its three places, and no entry is found at the next place.
    &[
        Step::Finds(0, Found::Level),
        Step::Publish(3, Taken::Published),
        Step::Finds(0, Found::Batch(0, 3, 0)),
        Step::Finds(1, Found::Batch(0, 3, 1)),
        Step::Finds(2, Found::Batch(0, 3, 2)),
        Step::Finds(3, Found::Level),
    ],
    // A trim drops the batches that are wholly before its place.
    &[
        Step::Publish(3, Taken::Published),
        Step::Publish(2, Taken::Published),
        Step::Trim(2),
        Step::Finds(0, Found::Batch(0, 3, 0)),
        Step::Begin(0),
        Step::Trim(3),
        Step::Finds(0, Found::Overrun),
        Step::Finds(2, Found::Overrun),
        Step::Finds(3, Found::Batch(3, 2, 3)),
        Step::Begin(3),
    ],
    // A trim past the end leaves no batches. The window then begins at the end.
    &[
        Step::Publish(3, Taken::Published),
        Step::Publish(2, Taken::Published),
        Step::Trim(100),
        Step::WriterBegin(5),
        Step::Finds(4, Found::Overrun),
        Step::Finds(5, Found::Level),
        Step::Publish(1, Taken::Published),
        Step::Finds(5, Found::Batch(5, 1, 5)),
    ],
    // A window of 4,096 batches is full until one is dropped. A batch of two ticks then fits, and
    // the window has places 1 to 4,097.
    &[
        Step::Fill(4_096),
        Step::Publish(2, FULL),
        Step::Finds(4_096, Found::Level),
        Step::Trim(1),
        Step::Publish(2, Taken::Published),
        Step::Finds(4_097, Found::Batch(4_096, 2, 4_097)),
        Step::Finds(0, Found::Overrun),
        Step::FindsEach(1, 4_096),
        Step::Finds(4_098, Found::Level),
    ],
    // A reader that learns a note has seen what the note has, without looking. An older note has no
    // effect.
    &[
        Step::Publish(3, Taken::Published),
        Step::Finds(3, Found::Level),
        Step::Told(3),
        Step::ToldByWriter(1),
        Step::OtherFinds(2, Found::Batch(0, 3, 2)),
    ],
    // The longer of two fronts covers the other.
    &[
        Step::Publish(3, Taken::Published),
        Step::Publish(2, Taken::Published),
        Step::Covers(5, 2),
    ],
];

// Creates a writer of ticks with two readers.
fn pair<L: LogId, R: Wait + Drop>(
    alloc: Global,
    rt: R,
    opened: EmptyWindow,
) -> Result<(Ticker<L, R>, LogReader<L>, LogReader<L>), AllocError>
    requires { opened.seen.book ≡ L.book }
{
    let (writer, mut readers) = log_pair(alloc, rt, opened, 2)?;
    let other = readers.pop().ok_or(AllocError)?;
    let reader = readers.pop().ok_or(AllocError)?;
    Ok((Ticker::new(writer), reader, other))
}

fn find<L: LogId>(reader: &mut LogReader<L>, place: u64) -> Found {
    match reader.next(place) {
        Ok(Next::Batch(batch)) => {
            let entry = entry_of(&batch, place).place;
            Found::Batch(batch.first, batch.entries.len(), entry)
        }
        Ok(Next::Level) => Found::Level,
        Ok(Next::Overrun) => Found::Overrun,
        Err(_) => Found::Memory,
    }
}

// Checks that `reader`, which has seen nothing, learns `prefix`, and then ignores an older front.
// `length`: how many entries `prefix` has.
fn check_told<L: LogId, R: Abort>(
    rt: &R,
    reader: &mut LogReader<L>,
    prefix: &Front<L>,
    length: u64,
) {
    let old = reader.note();
    same(rt, old.len(), 0, "before");
    reader.learn(prefix);
    same(rt, reader.note().len(), length, "told");
    reader.learn(&old);
    same(rt, reader.note().len(), length, "told what is old");
}

// Checks that `long` covers `short` and itself, and that `short` does not cover `long`.
fn check_covers<L: LogId, R: Abort>(rt: &R, long: &Front<L>, short: &Front<L>) {
    same(rt, long.covers(short), true, "the shorter");
    same(rt, long.covers(&long.again()), true, "itself");
    same(rt, short.covers(long), false, "the longer");
}

fn take<L: LogId, H: Wait + Drop, R: Abort>(
    rt: &R,
    alloc: Global,
    writer: &mut Ticker<L, H>,
    reader: &mut LogReader<L>,
    other: &mut LogReader<L>,
    step: Step,
) -> Result<(), AllocError> {
    match step {
        Step::Publish(ticks, wanted) => same(rt, writer.publish(alloc, ticks)?, wanted, step),
        Step::Fill(batches) => {
            for _ in 0..batches {
                same(rt, writer.publish(alloc, 1)?, Taken::Published, step);
            }
        }
        Step::Trim(place) => same(rt, writer.trim(place), true, step),
        Step::Finds(place, wanted) => same(rt, find(reader, place), wanted, step),
        Step::FindsEach(from, end) => {
            for place in from..end {
                same(rt, find(reader, place), Found::Batch(place, 1, place), step);
            }
        }
        Step::OtherFinds(place, wanted) => same(rt, find(other, place), wanted, step),
        Step::Begin(place) => same(rt, reader.note().begin(), place, step),
        Step::WriterBegin(place) => same(rt, writer.tell().begin(), place, step),
        Step::Told(length) => check_told(rt, other, &reader.note(), length),
        Step::ToldByWriter(steps) => {
            other.learn(&writer.tell());
            same(rt, other.note().steps(), steps, step);
        }
        Step::Covers(length, steps) => {
            let short = reader.note();
            let long = writer.tell_beyond(&short);
            check_covers(rt, &long, &short);
            let longer = (short.longer(&long).len(), long.longer(&short).steps());
            same(rt, longer, (length, steps), step);
        }
    }
    Ok(())
}

fn take_all<L: LogId, H: Wait + Drop, R: Abort>(
    rt: &R,
    alloc: Global,
    writer: &mut Ticker<L, H>,
    reader: &mut LogReader<L>,
    other: &mut LogReader<L>,
    steps: &[Step],
) -> Result<(), AllocError> {
    for step in steps {
        take(rt, alloc, writer, reader, other, *step)?;
    }
    Ok(())
}

fn ask<L: LogId, R: Wait + Abort>(
    rt: &R,
    alloc: Global,
    opened: EmptyWindow,
    steps: &[Step],
) -> Result<(), AllocError>
    requires { opened.seen.book ≡ L.book }
{
    let (mut writer, mut reader, mut other) = pair::<L, &R>(alloc, rt, opened)?;
    take_all(rt, alloc, &mut writer, &mut reader, &mut other, steps)
}

// Checks what readers find while one writer publishes and trims.
#[test]
fn one_writer(rt: HostRuntime) -> Result<(), Fail> {
    for steps in RUNS {
        ask::<Brand, _>(&rt, rt.alloc(), EmptyWindow::new(), steps)?;
    }
    Ok(())
}
