ghost use Rattle.std.specs.Prelude.{◌≡◌, ◌≢◌, ◌+◌, ◌<◌, ◌++◌, ◌∷◌, [], None, false, length, OnErr, OnOk, IfErr, IfOk};
ghost use Rattle.std.specs.List.{AllByRecursion};
ghost use Rattle.bx_hub.specs.Records.{documents_in, input_in, inputs_by, list_by, record_props};
ghost use Rattle.bx_record.specs.declared.waiting.RecordFault.TheVariants as faults;
ghost use Rattle.bx_record.specs.declared.waiting.TheConstants.{MAX_WAITING_BYTES};
ghost use Rattle.bx_record.specs.Laws.{CanRecord};
ghost use Rattle.bx_record.specs.Record.{can_say, input_text, record_of};
ghost use Rattle.bx_window.specs.Steps.{inputs_of, list_of};

use crate::admission::Admission;
use crate::submission::Submission;
use bx_entry::Input;
use bx_history::{History, Lists};
use bx_record::{Chunk, RecordFault, TextPosition, WaitingBytes, request_text, tick_text};
use bx_window::{Front, LogId};
use std::alloc::Global;
use std::marker::PhantomData;
use std::mem;
use std::sync::Wait;

/// A front of the hub's list that a record has reached.
///
/// The requests and ticks up to it result in exactly the list up to it, and can be recorded.
#[derive(Drop)]
pub struct RecordFront<L: LogId> {
    front: Front<L>,
    ghost listed: { list_by (inputs_of front) ≡ list_of front },
    ghost recordable: { AllByRecursion CanRecord (inputs_of front) } by { Prim.hlevel record_props },
}

impl<L: LogId> RecordFront<L> {
    // The list of `front` must result from its requests and ticks, all of which are recordable.
    fn new(front: Front<L>) -> RecordFront<L>
        requires listed { list_by (inputs_of front) ≡ list_of front }
        requires recordable { AllByRecursion CanRecord (inputs_of front) }
        ensures { result.front ≡ front }
    {
        RecordFront { front }
    }

    /// Returns how many entries the front's list has.
    pub fn place(&self) -> u64
        ensures { result ≡ length (list_of self.now.front) }
    {
        self.front.len()
    }

    /// Creates the start of a record at the empty `front`.
    pub(crate) fn first(front: Front<L>) -> RecordFront<L>
        requires { front ≡ [] }
        ensures { result.front ≡ front }
    {
        RecordFront { front }
    }
}

impl<L: LogId> TextPosition for RecordFront<L> {
    ghost use Rattle.std.specs.Prelude.{◌≡◌};
    ghost use Rattle.bx_record.specs.Record.{record_of};
    ghost use Rattle.bx_window.specs.Steps.{inputs_of};

    ghost text = { λ it. record_of (inputs_of it.front) };

    ghost is_copy = { λ it copy. copy.front ≡ it.front };

    fn again(&self) -> RecordFront<L> {
        RecordFront {
            front: self.front.again(),
        }
    }

    fn is_same(&self, other: &RecordFront<L>) -> bool {
        self.front.covers(&other.front) && other.front.covers(&self.front)
    }
}

/// Evidence, created while admission is locked, that nothing of a record is kept.
#[derive(Drop)]
pub struct NotRecording<L: LogId> {
    of: PhantomData<L>,
}

impl<L: LogId> NotRecording<L> {
    pub(crate) fn new<R: Wait + Drop>(admission: &Admission<L, R>) -> NotRecording<L>
        requires recording { admission.now.recording ≡ None }
        requires end { admission.now.record_end ≡ None }
    {
        let _ = admission;
        NotRecording { of: PhantomData }
    }
}

/// The lines of a record that wait to be written.
///
/// They follow the text up to `from`, which was taken earlier.
#[derive(Drop)]
pub(crate) struct Recording<L: LogId> {
    from: RecordFront<L>,
    inputs: History<Input>,
    waiting: WaitingBytes,
    ghost whole: { record_of (inputs_of from.front) ++ waiting ≡ record_of inputs },
    ghost recordable: { AllByRecursion CanRecord inputs } by { Prim.hlevel record_props },
}

impl<L: LogId> Recording<L> {
    /// Creates a record that begins at `from`, without requests and ticks.
    pub(crate) fn new(alloc: Global, from: RecordFront<L>) -> Recording<L>
        requires { from.front ≡ [] }
        ensures { (result.from ≡ from) × (result.inputs ≡ []) × (result.waiting ≡ []) }
    {
        Recording {
            from,
            inputs: History::new(),
            waiting: WaitingBytes::new(alloc),
        }
    }

    pub(crate) fn waiting(&self) -> usize
        ensures { result ≡ length self.now.waiting }
    {
        self.waiting.len()
    }

    /// Appends the lines of `listed`, which must have added entries to the list.
    #[tactic(auto, using(crate::proofs::Records::all_recordable))]
    pub(crate) fn add(&mut self, alloc: Global, listed: &Submission<'_>) -> Result<(), RecordFault>
        requires { inputs_by listed.now ≡ input_in listed.now ∷ [] }
        ensures added { OnOk result ((self.new.inputs ≡ self.old.inputs ++ input_in listed.now ∷ []) × (self.new.waiting ≡ self.old.waiting ++ input_text (input_in listed.now))) }
        ensures same { OnErr result ((self.new.inputs ≡ self.old.inputs) × (self.new.waiting ≡ self.old.waiting)) }
        ensures from { self.new.from ≡ self.old.from }
        ensures full { IfErr result (λ f. f ≡ faults.Full → MAX_WAITING_BYTES < length self.old.waiting + length (input_text (input_in listed.now))) }
        ensures unsayable { IfErr result (λ f. f ≡ faults.Unrecordable → can_say (documents_in listed.now) ≡ false) }
    {
        self.waiting.push(text_of(alloc, listed)?.as_slice())?;
        self.inputs.join(&inputs_by(listed));
        Ok(())
    }

    /// Takes all bytes that wait, and leaves `empty` in their place. Does not allocate or copy.
    ///
    /// Returns the text since the last call, up to `upto`, which must be the front that ends with
    /// the last recorded request or tick.
    pub(crate) fn take_text(&mut self, upto: Front<L>, empty: Vec<u8>) -> Chunk<RecordFront<L>>
        requires inputs { self.old.inputs ≡ inputs_of upto }
        requires listed { list_by self.old.inputs ≡ list_of upto }
        requires empty { empty.items ≡ [] }
        ensures fronts { (result.from ≡ self.old.from) × (result.to.front ≡ upto) }
        ensures bytes { result.bytes.items ≡ self.old.waiting }
        ensures left { (self.new.from.front ≡ upto) × (self.new.waiting ≡ []) × (self.new.inputs ≡ self.old.inputs) }
    {
        let to = RecordFront::new(upto);
        let from = mem::replace(&mut self.from, to.again());
        Chunk::new(from, to, self.waiting.take(empty))
    }
}

/// Returns the ghost list of what is recorded of `wanted`.
///
/// It is empty for a request without messages.
pub(crate) fn inputs_by(wanted: &Submission<'_>) -> History<Input>
    ensures { result ≡ inputs_by wanted.now }
{
    History::of::<&Submission<'_>, Recorded>(&wanted)
}

// Returns the lines for `listed`. Fails with `Unrecordable` if no line can hold the request.
fn text_of(alloc: Global, listed: &Submission<'_>) -> Result<Vec<u8>, RecordFault>
    ensures text { IfOk result (λ text. text.items ≡ input_text (input_in listed.now)) }
    ensures recordable { OnOk result (CanRecord (input_in listed.now)) }
    ensures unsayable { IfErr result (λ f. (f ≢ faults.Full) × (f ≡ faults.Unrecordable → can_say (documents_in listed.now) ≡ false)) }
{
    match listed {
        Submission::Request(request) => {
            match request_text(alloc, &request.arrival, request.messages.as_slice())? {
                Some(text) => Ok(text),
                None => Err(RecordFault::Unrecordable),
            }
        }
        Submission::Tick(tick) => Ok(tick_text(alloc, tick.moment())?),
    }
}

// Ghost: what is recorded of a request or a tick.
struct Recorded;

impl<'a, 'b> Lists<&'a Submission<'b>, Input> for Recorded {
    ghost use Rattle.bx_hub.specs.Records.{inputs_by};

    ghost listed = { λ listed. inputs_by listed.now };
}
