ghost use Rattle.std.specs.Prelude.{◌≡◌, ◌+◌, ◌<◌, ◌≤◌, ◌^◌, ◌++◌, ◌∷◌, ◌⊎◌, [], length, drop, slice_index_or, List, None, IsTrue, IfNone, IfSome, IfOk, IfErr, OnOk, OnErr};
ghost use Rattle.left_right.specs.Handles.{published, pending};
ghost use mathlib.Core.List.{IsPrefix};
ghost use Rattle.std.specs.Arc.{arc_value};
ghost use Rattle.std.specs.List.{All};
ghost use Rattle.bx_advice.specs.Limits.{greatest_length};
ghost use Rattle.bx_window.specs.Places.{Continues};
ghost use Rattle.bx_window.specs.Steps.{adding, list_of, inputs_of, firsts_of, below};
ghost use Rattle.bx_window.specs.declared.law.LogStep.{LogStep};
ghost use Rattle.bx_window.specs.Changes.{after};
ghost use Rattle.bx_window.specs.Showing.{IsShown};
ghost use Rattle.bx_window.specs.Refusals.{IsFair};

use crate::batch::UnpublishedBatch;
use crate::front::{Book, EmptyWindow, Front};
use crate::law::{LogId, LogStep};
use crate::published::{PublishedBatch, RingChange, Trimmed};
use crate::reader::LogReader;
use crate::ring::{Ring, drop_first};
use crate::showing::{Late, catch_up, make_room, show};
use bx_entry::{Batch, Input, Listing};
use bx_history::History;
use circular_buffer::HeapCircularBuffer;
use left_right::{Absorb, WriteHandle};
use std::alloc::{AllocError, Global};
use std::marker::Model;
use std::sync::{Arc, Wait};

/// The maximum number of batches, so that a shard that does not advance keeps no more.
///
/// Policy of this server.
pub const MAX_BATCHES: usize = 4096;

/// The greatest number of publishes and trims: a million a second for 146,000 years.
const MAX_STEPS: u64 = 1 << 62;

/// The reason why a batch was not published.
#[derive(Clone, Copy, Debug, PartialEq, Eq)]
pub enum PublishFault {
    /// The window has had 2^62 publishes and trims.
    Ended,
    /// The window has [`MAX_BATCHES`] batches.
    Full,
    /// Memory ran out, or an earlier change still cannot be shown.
    Memory,
}

/// The writer of a log of steps, and of a value `T` that shows the steps to readers.
///
/// Readers see all steps except at most one late change, which could not be shown yet.
#[derive(Drop)]
pub struct Writer<L: LogId, R: Wait + Drop, T: Absorb<O, State = [LogStep; 0]> + Drop, O: Drop> {
    handle: WriteHandle<T, O, R>,
    book: Book<L>,
    firsts: HeapCircularBuffer<u64>,
    // Trimmed batches that were not taken, then the window's. `None`: the reference count was full.
    kept: HeapCircularBuffer<Option<Arc<Batch, Global>>>,
    late: Option<Late<O>>,
}

impl<L: LogId, R: Wait + Drop, T: Absorb<O, State = [LogStep; 0]> + Drop, O: Drop> Model
    for Writer<L, R, T, O> {
    ghost use Rattle.std.specs.Prelude.{◌≡◌, [], List};
    ghost use Rattle.left_right.specs.Handles.{published, pending};
    ghost use Rattle.bx_window.specs.declared.law.LogStep.{LogStep};
    ghost use Rattle.bx_window.specs.Steps.{firsts_of};
    ghost use Rattle.bx_window.specs.Showing.{IsShown};

    ghost Value = { List LogStep };

    ghost view = { λ w. w.book };

    ghost invariant = { λ w. (w.firsts.items ≡ firsts_of w.book) × (w.firsts.capacity ≡ 4096) × (pending w.handle ≡ []) × IsShown T.applied w.book w.late (T.state (published w.handle)) };
}

/// The writer of a window, which shows its batches to readers as a ring.
pub type LogWriter<L, R> = Writer<L, R, Ring<L>, RingChange<L>>;

/// Creates the writer and `readers` readers of an opened window.
///
/// `readers`: from 1 to 2^32 - 1.
pub fn log_pair<L: LogId, R: Wait + Drop>(
    alloc: Global,
    rt: R,
    opened: EmptyWindow,
    readers: usize,
) -> Result<(LogWriter<L, R>, Vec<LogReader<L>>), AllocError>
    requires book { opened.seen.book ≡ L.book }
    requires readers { (0 < readers) × (readers < 2 ^ 32) }
    ensures writer { IfOk result (λ p. p.0 ≡ []) }
    ensures readers { IfOk result (λ p. All (λ r. r ≡ []) p.1.items) }
    ensures count { IfOk result (λ p. length p.1.items ≡ readers) }
{
    let Some(book) = opened.begun::<L>() else {
        return Err(AllocError);
    };
    let front = book.front();
    let first = empty_ring(alloc, &front)?;
    let second = empty_ring(alloc, &front)?;
    let firsts = HeapCircularBuffer::with_capacity(alloc, MAX_BATCHES)?;
    let kept = HeapCircularBuffer::with_capacity(alloc, 2 * MAX_BATCHES)?;
    let mut handle = WriteHandle::new(alloc, rt, first, second, readers)?;
    make_room(&mut handle, &front)?;
    let mut all = Vec::new(alloc);
    for _ in 0..readers {
        let reader = LogReader::over(handle.handle()?, front.again());
        all.push(reader)?;
    }
    let writer = Writer {
        handle,
        book,
        firsts,
        kept,
        late: None,
    };
    Ok((writer, all))
}

fn empty_ring<L: LogId>(alloc: Global, front: &Front<L>) -> Result<Ring<L>, AllocError>
    requires { front.now ≡ [] }
    ensures { IfOk result (λ r. r.front ≡ []) }
{
    Ok(Ring {
        batches: HeapCircularBuffer::with_capacity(alloc, MAX_BATCHES)?,
        front: front.again(),
    })
}

impl<L: LogId, R: Wait + Drop> Writer<L, R, Ring<L>, RingChange<L>> {
    /// Returns the front with all steps so far, for readers to learn.
    pub fn tell(&self) -> Front<L>
        ensures { result ≡ self.now }
    {
        self.book.front()
    }

    /// Returns the front with all steps so far. It covers every front, such as `front`.
    ///
    /// Only the writer appends steps. Does not allocate.
    pub fn tell_beyond(&mut self, front: &Front<L>) -> Front<L>
        ensures same { self.new ≡ self.old }
        ensures whole { result ≡ self.old }
        ensures begins { IsPrefix front.now self.old }
    {
        self.book.beyond(front)
    }

    /// Returns the number of batches in the window, at most [`MAX_BATCHES`].
    pub fn batches(&self) -> usize
        ensures { result ≡ length (firsts_of self.now) }
    {
        self.firsts.len()
    }

    /// Publishes the batch of `bundle`.
    ///
    /// A change that cannot be shown is late: readers see it after a later call has shown it.
    ///
    /// # Errors
    ///
    /// `bundle`, with the first fault that applies: `Ended`, `Full`, or `Memory`.
    ///
    /// # Blocking
    ///
    /// Waits for readers that still use the copy of the window that is to be changed.
    #[tactic(auto, using(crate::proofs::Places::stands_newest, crate::proofs::Places::many_elements, crate::proofs::Lists::firsts_of_adding, crate::proofs::Rooms::room_full, crate::proofs::Rings::newest_bundle, crate::proofs::Rings::ends_bundle))]
    pub fn publish(
        &mut self,
        alloc: Global,
        bundle: UnpublishedBatch,
    ) -> Result<(), (UnpublishedBatch, PublishFault)>
        requires continues { Continues L.config (list_of self.old) bundle }
        requires places { length (list_of self.old) + length bundle.batch.entries ≤ greatest_length }
        ensures ok { OnOk result (self.new ≡ self.old ++ adding bundle.elements bundle.inputs ∷ []) }
        ensures err { IfErr result (λ e. (e.0 ≡ bundle) × (self.new ≡ self.old) × IsFair self.old e.1) }
    {
        if self.tell().steps() >= MAX_STEPS {
            return Err((bundle, PublishFault::Ended));
        }
        if self.firsts.len() >= MAX_BATCHES {
            return Err((bundle, PublishFault::Full));
        }
        if !catch_up(&mut self.handle, &mut self.late) {
            return Err((bundle, PublishFault::Memory));
        }
        let (batch, elements, inputs) = match shared(alloc, bundle) {
            Ok(parts) => parts,
            Err(bundle) => return Err((bundle, PublishFault::Memory)),
        };
        let first = batch.first;
        let count = batch.entries.len() as u64;
        let kept = Arc::try_clone(&batch).ok();
        self.book.add(&elements, &inputs, count);
        let published = PublishedBatch::new(batch, self.book.front());
        self.late = show(&mut self.handle, RingChange::Add(published));
        put_last(&mut self.firsts, first);
        self.kept.push_back(kept);
        Ok(())
    }

    /// Drops the batches with only places below `n`.
    ///
    /// A change that cannot be shown is late, as in [`publish`](Self::publish). Does nothing if the
    /// window has had 2^62 publishes and trims. Does not allocate.
    ///
    /// # Errors
    ///
    /// `AllocError` if an earlier change still cannot be shown; nothing has changed.
    ///
    /// # Blocking
    ///
    /// If it drops batches, waits for readers that still use the copy that is to be changed.
    #[tactic(auto, using(crate::proofs::Lists::begin_of_trimming, crate::proofs::Lists::list_of_trimming, crate::proofs::Lists::inputs_of_trimming, crate::proofs::Lists::firsts_of_trimming, crate::proofs::Rings::trimmed))]
    pub fn trim(&mut self, n: u64) -> Result<(), AllocError>
        ensures grows { IsPrefix self.old self.new }
        ensures list { list_of self.new ≡ list_of self.old }
        ensures inputs { inputs_of self.new ≡ inputs_of self.old }
        ensures ok { OnOk result ((firsts_of self.new ≡ drop (below n (length (list_of self.old)) (firsts_of self.old)) (firsts_of self.old))
            ⊎ ((self.new ≡ self.old) × (2 ^ 62 ≤ length self.old))) }
        ensures err { OnErr result (self.new ≡ self.old) }
    {
        if self.tell().steps() >= MAX_STEPS {
            return Ok(());
        }
        let end = self.tell().len();
        let count = count_below(&self.firsts, n, end);
        if count == 0 {
            return Ok(());
        }
        let begin = first_at(&self.firsts, count, end);
        if !catch_up(&mut self.handle, &mut self.late) {
            return Err(AllocError);
        }
        self.book.trim(count as u64, begin);
        let trimmed = Trimmed::new(count, self.book.front());
        self.late = show(&mut self.handle, RingChange::Trim(trimmed));
        drop_first(&mut self.firsts, count);
        Ok(())
    }

    /// Moves to `taken` the batches that were trimmed since the last call.
    ///
    /// Their memory is freed when the caller drops `taken`, for example after unlocking the writer.
    /// Allocates only if `taken` has too little room. Drops a batch for which memory runs out.
    pub fn take_trimmed(&mut self, taken: &mut Vec<Arc<Batch, Global>>)
        ensures { self.new ≡ self.old }
    {
        move_oldest(&mut self.kept, self.firsts.len(), taken);
    }
}

// Moves the batch into an `Arc`, beside the bundle's elements and inputs.
fn shared(
    alloc: Global,
    bundle: UnpublishedBatch,
) -> Result<(Arc<Batch, Global>, Listing, History<Input>), UnpublishedBatch>
    ensures ok { IfOk result (λ r. (arc_value r.0 ≡ bundle.batch) × (r.1 ≡ bundle.elements) × (r.2 ≡ bundle.inputs)) }
    ensures err { IfErr result (λ b. b ≡ bundle) }
{
    let UnpublishedBatch {
        batch,
        elements,
        inputs,
    } = bundle;
    match Arc::new(alloc, batch) {
        Ok(batch) => Ok((batch, elements, inputs)),
        Err(failed) => Err(UnpublishedBatch {
            batch: failed.value,
            elements,
            inputs,
        }),
    }
}

// Returns where batch `index` begins, or `end` if there is no such batch.
#[tactic(auto, using(crate::proofs::Firsts::found_or))]
fn first_at(firsts: &HeapCircularBuffer<u64>, index: usize, end: u64) -> u64
    ensures { result ≡ slice_index_or firsts.now.items index end }
{
    firsts.get(index).copied().unwrap_or(end)
}

// Returns how many batches have only places below `n`. The last one ends at `end`.
#[tactic(auto, using(crate::proofs::Firsts::below_on, crate::proofs::Firsts::below_off, crate::proofs::Firsts::below_none))]
fn count_below(firsts: &HeapCircularBuffer<u64>, n: u64, end: u64) -> usize
    ensures { result ≡ below n end firsts.now.items }
{
    let len = firsts.len();
    for index in 0..len {
        if first_at(firsts, index + 1, end) > n {
            return index;
        }
    }
    len
}

#[tactic(auto, using(crate::proofs::Firsts::kept_all))]
fn put_last(firsts: &mut HeapCircularBuffer<u64>, first: u64)
    requires { length firsts.old.items < firsts.old.capacity }
    ensures items { firsts.new.items ≡ firsts.old.items ++ first ∷ [] }
    ensures capacity { firsts.new.capacity ≡ firsts.old.capacity }
{
    firsts.push_back(first);
}

// Moves all items of `kept` except the newest `len`. Drops those for which memory runs out.
fn move_oldest<T: Drop>(kept: &mut HeapCircularBuffer<Option<T>>, len: usize, taken: &mut Vec<T>) {
    for _ in len..kept.len() {
        if let Some(Some(item)) = kept.pop_front() {
            let _ = taken.push(item);
        }
    }
}
