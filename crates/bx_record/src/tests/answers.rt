//! Tests of the log of answers, with digests that `sha256sum` computed.
use crate::answer::answer_line;
use crate::{RecordFault, TakenAnswerLines, WaitingAnswerLines};
use bx_advice::{Config, Outcome};
use bx_message::{AckReply, Item, RawJson, Reply, Text};
use std::alloc::{AllocError, Global};
use std::process::Abort;
use std::sync::Wait;
use std::test::Fail;

// The SHA-256 digest of `[]`, in hexadecimal.
const NO_ITEMS: &str = "4f53cda18c2baa0c0354bb5f9a3ecbe5ed12ab4d8e11ba873c2f11161202b945";

// The SHA-256 digest of the array with the reply that `connected` returns, in hexadecimal.
const CONNECTED: &str = "c05f57690a6736a0d8e981284e720d1734dfbc50c79b53ef7be450dc98159062";

fn connected(alloc: Global, config: &Config) -> Result<Vec<Item>, AllocError> {
    let client = Text::new(alloc, "Z1")?;
    let id = RawJson::new(alloc, "12")?;
    let (outcome, ack) = (Outcome::Connected, AckReply::NoAck);
    let mut items = Vec::new(alloc);
    items.push(Item::ReplyItem(Reply::to_connect(&config, client, Some(id), outcome, ack)))?;
    Ok(items)
}

fn config() -> Result<Config, Fail> {
    Ok(Config::new(2, 30_000, 0, 10_000).ok_or("no configuration")?)
}

// Checks that `log` has the lines `wanted` and the fault `wanted_fault`, and takes them.
fn check_taken<R: Wait + Abort>(
    rt: &R,
    alloc: Global,
    log: &WaitingAnswerLines,
    wanted: &str,
    wanted_fault: Option<RecordFault>,
) {
    let TakenAnswerLines { bytes, fault, .. } = log.take(rt, Vec::new(alloc));
    assert_eq!(rt; bytes.as_slice(), wanted.as_bytes());
    assert_eq!(rt; fault, wanted_fault);
}

#[test]
fn lines_tell_places_and_digests(rt: HostRuntime) -> Result<(), Fail> {
    let alloc = rt.alloc();
    let items = connected(alloc, &config()?)?;
    for (place, items, digest) in [
        (0, &items[..0], NO_ITEMS),
        (7, items.as_slice(), CONNECTED),
        (u64::MAX, items.as_slice(), CONNECTED),
    ] {
        let line = answer_line(alloc, place, items)?;
        let wanted = format!(in alloc; "A {place} {digest}\n")?;
        assert_eq!(rt; line.as_slice(), wanted.as_bytes());
    }
    Ok(())
}

#[test]
fn lines_wait_until_they_are_taken(rt: HostRuntime) -> Result<(), Fail> {
    let alloc = rt.alloc();
    let log = WaitingAnswerLines::new(alloc);
    check_taken(&rt, alloc, &log, "", None);
    log.add(&rt, b"one\n");
    log.add(&rt, b"two\n");
    check_taken(&rt, alloc, &log, "one\ntwo\n", None);
    check_taken(&rt, alloc, &log, "", None);
    log.add(&rt, b"three\n");
    check_taken(&rt, alloc, &log, "three\n", None);
    Ok(())
}

#[test]
fn nothing_is_added_behind_an_end(rt: HostRuntime) -> Result<(), Fail> {
    let alloc = rt.alloc();
    let log = WaitingAnswerLines::new(alloc);
    log.add(&rt, b"one\n");
    log.end(&rt, RecordFault::Memory);
    log.end(&rt, RecordFault::Full);
    log.add(&rt, b"two\n");
    check_taken(&rt, alloc, &log, "one\n", Some(RecordFault::Memory));
    log.end(&rt, RecordFault::Full);
    log.add(&rt, b"three\n");
    check_taken(&rt, alloc, &log, "", None);
    let log = WaitingAnswerLines::new(alloc);
    log.add(&rt, b"one\n");
    log.stop(&rt, alloc);
    log.end(&rt, RecordFault::Full);
    log.add(&rt, b"two\n");
    check_taken(&rt, alloc, &log, "", None);
    Ok(())
}

#[test]
fn a_full_log_ends(rt: HostRuntime) -> Result<(), Fail> {
    let alloc = rt.alloc();
    let log = WaitingAnswerLines::new(alloc);
    let chunk = [b'x'; 1 << 16];
    for _ in 0..1024 {
        log.add(&rt, &chunk);
    }
    log.add(&rt, b"");
    log.add(&rt, b"y");
    log.add(&rt, b"");
    let TakenAnswerLines { bytes, fault, .. } = log.take(&rt, Vec::new(alloc));
    assert_eq!(rt; bytes.len(), 64 << 20);
    assert_eq!(rt; fault, Some(RecordFault::Full));
    log.add(&rt, b"z");
    check_taken(&rt, alloc, &log, "", None);
    Ok(())
}
