//! A window writer that publishes only ticks.
ghost use Rattle.std.specs.Prelude.{◌≡◌, ◌+◌, ◌<◌, ◌≤◌, ◌^◌, [], IfOk, IfErr, OnErr};
ghost use Rattle.bx_window.specs.Steps.{list_of};
ghost use Rattle.bx_calls.specs.Ticks.{ticks, tick_entries};

use bx_entry::{Batch, Entry, EntryKind, Listing};
use bx_history::History;
use bx_message::Sequence;
use bx_window::{Front, LogId, LogWriter, PublishFault, UnpublishedBatch};
use std::alloc::{AllocError, Global};
use std::sync::Wait;

// The ticker publishes only if the number of its steps, the length of its list and the length of
// the batch are each below this number.
const MOST: u64 = 1_000_000;

/// The result of publishing a batch to the window.
#[derive(Clone, Copy, Debug, PartialEq, Eq)]
pub enum Taken {
    /// The batch was published.
    Published,
    /// The batch was not published, and was returned.
    Refused {
        /// Why the window did not accept the batch.
        why: PublishFault,
        /// The first place of the returned batch.
        first: u64,
        /// The number of entries of the returned batch.
        entries: usize,
    },
}

/// A window writer that publishes only ticks of moment 0.
#[derive(Drop)]
pub struct Ticker<L: LogId, R: Wait + Drop> {
    writer: LogWriter<L, R>,
    /// The number of published ticks.
    pub end: u64,
    ghost ticks: { list_of writer ≡ ticks end },
}

impl<L: LogId, R: Wait + Drop> Ticker<L, R> {
    /// Wraps a writer that has published nothing.
    pub fn new(writer: LogWriter<L, R>) -> Ticker<L, R>
        requires { writer ≡ [] }
    {
        Ticker { writer, end: 0 }
    }

    /// Returns the front of all that was published.
    pub fn tell(&self) -> Front<L> {
        self.writer.tell()
    }

    /// Returns the front of all that was published, which covers `front`.
    pub fn tell_beyond(&mut self, front: &Front<L>) -> Front<L> {
        self.writer.tell_beyond(front)
    }

    /// Publishes a batch of `count` ticks, and returns whether the window accepted it.
    ///
    /// # Errors
    ///
    /// `AllocError` if `count` or the list's length is at least 1,000,000, or if memory runs out
    /// for the batch; nothing has changed.
    pub fn publish(&mut self, alloc: Global, count: u64) -> Result<Taken, AllocError> {
        let bundle = self.bundle(alloc, count)?;
        match self.publish_bundle(alloc, bundle, count) {
            Ok(()) => Ok(Taken::Published),
            Err((back, why)) => Ok(Taken::Refused {
                why,
                first: back.batch.first,
                entries: back.batch.entries.len(),
            }),
        }
    }

    /// Creates a batch of `count` ticks that continues the list.
    ///
    /// # Errors
    ///
    /// `AllocError` if `count` or the list's length is at least 1,000,000, or if memory runs out.
    pub fn bundle(&self, alloc: Global, count: u64) -> Result<UnpublishedBatch, AllocError>
        ensures first { IfOk result (λ b. b.batch.first ≡ self.now.end) }
        ensures entries { IfOk result (λ b. b.batch.entries ≡ tick_entries self.now.end count) }
        ensures elements { IfOk result (λ b. b.elements ≡ ticks count) }
    {
        if count >= MOST || self.end >= MOST {
            return Err(AllocError);
        }
        ticks(alloc, self.end, count)
    }

    /// Publishes `bundle`, the next `count` ticks.
    ///
    /// # Errors
    ///
    /// `bundle`, and one of the following faults; the list is unchanged:
    ///
    /// - `Full`, if `count` is 0, or `count` or the list's length is at least 1,000,000.
    /// - The window's fault, otherwise.
    pub fn publish_bundle(
        &mut self,
        alloc: Global,
        bundle: UnpublishedBatch,
        count: u64,
    ) -> Result<(), (UnpublishedBatch, PublishFault)>
        requires first { bundle.batch.first ≡ self.old.end }
        requires entries { bundle.batch.entries ≡ tick_entries self.old.end count }
        requires elements { bundle.elements ≡ ticks count }
        ensures back { IfErr result (λ e. e.0 ≡ bundle) }
        ensures same { OnErr result (self.new.end ≡ self.old.end) }
    {
        if count == 0 || count >= MOST || self.end >= MOST {
            return Err((bundle, PublishFault::Full));
        }
        match self.writer.publish(alloc, bundle) {
            Ok(()) => {
                self.end += count;
                Ok(())
            }
            Err(refused) => Err(refused),
        }
    }

    /// Drops the batches that are wholly before `place`, and returns `true` if that succeeds.
    ///
    /// Returns `false`, and drops nothing, if an earlier change still cannot be shown to readers.
    pub fn trim(&mut self, place: u64) -> bool {
        self.writer.trim(place).is_ok()
    }
}

// Creates a batch of `count` ticks of moment 0, from place `first`.
fn ticks(alloc: Global, first: u64, count: u64) -> Result<UnpublishedBatch, AllocError>
    requires { first + count < 2 ^ 62 }
    ensures first { IfOk result (λ b. b.batch.first ≡ first) }
    ensures entries { IfOk result (λ b. b.batch.entries ≡ tick_entries first count) }
    ensures elements { IfOk result (λ b. b.elements ≡ ticks count) }
{
    let mut entries = Sequence::new(alloc);
    let mut elements = Listing::new();
    for step in 0..count {
        let kind = EntryKind::Tick(Sequence::new(alloc));
        entries.push(Entry {
            place: first + step,
            moment: 0,
            kind,
            rides: None,
        })?;
        elements.tick(0);
    }
    Ok(UnpublishedBatch {
        batch: Batch { first, entries },
        elements,
        inputs: History::new(),
    })
}
