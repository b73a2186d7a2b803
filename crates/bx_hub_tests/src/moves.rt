//! Test that types of entries and of the window can move to other threads.
use bx_entry::{Batch, Entry};
use bx_window::{
    EmptyWindow, Front, LogId, LogReader, LogWriter, Next, PublishedBatch, Ring, UnpublishedBatch,
};
use std::alloc::Global;
use std::marker::Brand;
use std::sync::{Arc, Wait};

fn moves<T: Send>() {}

fn all_move<L: LogId + Send + Sync, R: Wait + Drop + Send>() {
    moves::<Front<L>>();
    moves::<LogReader<L>>();
    moves::<LogWriter<L, R>>();
    moves::<PublishedBatch<L>>();
    moves::<Ring<L>>();
}

fn values_move() {
    moves::<Entry>();
    moves::<Arc<Batch, Global>>();
    moves::<Next>();
    moves::<UnpublishedBatch>();
    moves::<EmptyWindow>();
}

// Checks, by compiling, that the types of entries and of the window are `Send`.
#[test]
fn types_move(rt: HostRuntime) {
    let _ = rt.alloc();
    all_move::<Brand, HostRuntime>();
    values_move();
}
