//! Test that a log of answers is not locked while the digest of an answer is computed.

use crate::caller::wait_for;
use crate::same::same;
use bx_calls::{event, json_string};
use bx_message::Item;
use bx_record::WaitingAnswerLines;
use std::alloc::Global;
use std::sync::Wait;
use std::sync::atomic::{AtomicBool, Ordering};
use std::test::*;
use std::thread::{Threads, join};
use std::time::Clock;

// The length of an answer, in bytes. To compute its digest takes much longer than `TAKES` calls of
// `take`.
const LENGTH: usize = 4 << 20;

// How often the lines are taken while another thread logs the answer.
const TAKES: usize = 100;

// For how many answers all these takes must find no line, and how many answers are tried. The
// thread that takes may have no processor while the digest is computed.
const WANTED: usize = 3;

const TRIES: usize = 100;

// Sets `is_logging`, and logs the answer `items`.
fn log_answer<R: Wait>(
    rt: &R,
    alloc: Global,
    log: &WaitingAnswerLines,
    items: &[Item],
    is_logging: &AtomicBool,
) {
    is_logging.store(true, Ordering::SeqCst);
    log.log_answer(rt, alloc, 0, items);
}

// Waits for `is_logging`, and takes lines `TAKES` times. Returns `true` if there are none.
//
// If the log were locked while the digest is computed, the first take would wait for the line.
fn takes_nothing<R: Wait + Clock>(
    rt: &R,
    alloc: Global,
    log: &WaitingAnswerLines,
    is_logging: &AtomicBool,
) -> bool {
    wait_for(rt, is_logging);
    let mut has_line = false;
    for _ in 0..TAKES {
        let taken = log.take(rt, Vec::new(alloc));
        has_line = has_line || !taken.bytes.is_empty();
    }
    !has_line
}

// Logs the answer `items` in one thread while another takes lines, and returns `true` if these
// takes find none.
fn is_unlocked<R: Threads + Wait + Clock + Sync>(rt: &R, alloc: Global, items: &[Item]) -> bool {
    let (log, is_logging) = (WaitingAnswerLines::new(alloc), AtomicBool::new(false));
    let ((), was_empty) = join(
        rt,
        || log_answer(rt, alloc, &log, items, &is_logging),
        || takes_nothing(rt, alloc, &log, &is_logging),
    );
    was_empty
}

#[test]
fn digests_are_computed_without_a_lock(rt: HostRuntime) -> Result<(), Fail> {
    let alloc = rt.alloc();
    let data = json_string(alloc, "x", LENGTH)?;
    let items = [Item::EventItem(event(alloc, "/a", data.as_str())?)];
    let mut found: usize = 0;
    for _ in 0..TRIES {
        if is_unlocked(&rt, alloc, &items) {
            found = found.saturating_add(1);
        }
        if found == WANTED {
            break;
        }
    }
    same(&rt, found, WANTED, "logs that were not locked meanwhile");
    Ok(())
}
