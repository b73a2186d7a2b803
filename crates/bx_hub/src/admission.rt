ghost use Rattle.std.specs.Prelude.{◌≡◌, ◌<◌, ◌++◌, ◌∷◌, ◌⊎◌, drop, length, [], None, Some, true, false, IfOk, IfErr, IfSome, IfNone, MatchOption, OnOk, OnErr};
ghost use Rattle.std.specs.Option.{ForSome};
ghost use mathlib.Core.List.{IsPrefix};
ghost use Rattle.bx_registry.specs.Slots.{admitted_slots};
ghost use Rattle.bx_registry.specs.Standings.{Continues};
ghost use Rattle.bx_entry.specs.Inputs.{IsFault, added_by, refusal_of};
ghost use Rattle.bx_window.specs.Steps.{adding, below, firsts_of, inputs_of, list_of, setup_of};
ghost use Rattle.bx_hub.specs.declared.shard_state.evidence.ShardChange.TheVariants as changes;
ghost use Rattle.bx_hub.specs.Submissions.{input_of};
ghost use Rattle.bx_hub.specs.Records.{input_in, inputs_by, list_by};
ghost use Rattle.bx_record.specs.Record.{record_of};
ghost use Rattle.bx_hub.specs.Surveys.{survey_of};
ghost use Rattle.bx_hub.specs.Posts.{IsRefused, IsTrimmedTo, IsUnpublished, IsWhole};

mod lock;

use crate::fault::PostFault;
use crate::recording::{RecordFront, Recording, inputs_by};
use crate::submission::Submission;
use crate::survey::Survey;
use crate::walk::{AdvanceReport, ChangeReport};
use bx_advice::Config;
use bx_entry::{AdmitFault, Admitted, Batch, Placing, Refusal};
use bx_record::{RecordFault, TakenText, TextPosition};
use bx_registry::{Plan, Registry};
use bx_window::{Front, LogId, LogWriter, PublishFault, UnpublishedBatch};
pub(crate) use lock::AdmissionLock;
use std::alloc::{AllocError, Global};
use std::mem;
use std::sync::{Arc, Wait};

/// The unwritten rest of a record that a fault ended.
#[derive(Drop)]
struct RecordEnd<L: LogId> {
    recording: Recording<L>,
    // The front of the list at which the record ends.
    front: Front<L>,
    fault: RecordFault,
    ghost whole: { (recording.inputs ≡ inputs_of front) × (list_by recording.inputs ≡ list_of front) },
}

/// The registry of sessions, the writer of the list and, if one is kept, the record.
#[derive(Drop)]
pub(crate) struct Admission<L: LogId, R: Wait + Drop> {
    registry: Registry,
    closed: bool,
    writer: LogWriter<L, R>,
    recording: Option<Recording<L>>,
    // Kept until it is taken.
    record_end: Option<RecordEnd<L>>,
    ghost config: { registry.config ≡ L.config },
    ghost counted: { registry.shards ≡ L.config.shards },
    ghost listed: { registry.list ≡ list_of writer },
    ghost of_inputs: { list_by (inputs_of writer) ≡ list_of writer },
    ghost recorded: { ForSome recording (λ r. r.inputs ≡ inputs_of writer) },
}

impl<L: LogId, R: Wait + Drop> Admission<L, R> {
    ghost use Rattle.bx_hub.specs.Advancing.{lowest_of};
    ghost use Rattle.bx_hub.specs.Admissions.{HasNoRecord, HasRecorded, HasSeenAll, HasSlotsIn, IsAdmittedIn, IsAppended, IsPublished, KeepsAllButRecord, KeepsLog, KeepsRecord, TellsClosed};
    ghost use Rattle.bx_hub.specs.Recordings.{IsRecorded};

    pub(crate) fn new(
        alloc: Global,
        config: Config,
        writer: LogWriter<L, R>,
    ) -> Result<Admission<L, R>, AllocError>
        requires config { config ≡ L.config }
        requires empty { writer ≡ [] }
        ensures { IfOk result (λ a. (a.writer ≡ []) × (a.closed ≡ false)) }
    {
        Ok(Admission {
            registry: Registry::new(alloc, config)?,
            closed: false,
            writer,
            recording: None,
            record_end: None,
        })
    }

    /// Appends a request or a tick to the list, and to the record if one is kept.
    ///
    /// Returns the first place and the slots of `wanted`. A request without messages appends
    /// nothing. `pass` has then seen the whole list, unless the result is `Closed`. If `wanted`
    /// cannot be recorded, the record ends before it.
    ///
    /// # Errors
    ///
    /// The first of these that applies. Nothing is appended or recorded:
    ///
    /// - `Closed`: admission is closed.
    /// - `Refused`: the moment is too large, or the list or the window's log is too long.
    /// - `Behind`: the window is full.
    /// - `Memory`: memory ran out, or an earlier change still cannot be shown to readers.
    #[tactic(auto, using(crate::proofs::Posts::whole_planned, crate::proofs::Posts::input_readable))]
    pub(crate) fn admit<P: Placing>(
        &mut self,
        alloc: Global,
        placing: &P,
        pass: &mut Front<L>,
        wanted: &Submission<'_>,
    ) -> Result<Admitted, PostFault>
        requires placing { P.place_of placing.now ≡ L.placing }
        ensures seen { IsPrefix pass.old pass.new }
        ensures admitted { IfOk result (IsAdmittedIn wanted.now pass.old pass.new) }
        ensures slots { IfOk result (HasSlotsIn (setup_of L.config L.placing) wanted.now pass.new) }
        ensures refused { IfErr result (λ f. IsRefused (input_of wanted.now) f pass.new) }
        ensures whole { HasSeenAll result pass.new self.new.writer }
        ensures grown { IfOk result (IsAppended wanted.now self.old.writer pass.new) }
        ensures same { OnErr result (KeepsLog self.old self.new) }
        ensures closed { IfErr result (TellsClosed self.old.closed) }
        ensures open { OnOk result (self.old.closed ≡ false) }
        ensures kept { self.new.closed ≡ self.old.closed }
        ensures recorded { OnOk result (HasRecorded wanted.now self.old self.new) }
    {
        if self.closed {
            return Err(PostFault::Closed);
        }
        *pass = self.writer.tell_beyond(pass);
        let plan = self.plan(alloc, placing, wanted)?;
        let count = plan.batch.entries.len();
        if count == 0 {
            return Ok(Admitted {
                first: plan.batch.first,
                slots: plan.slots,
            });
        }
        self.publish(alloc, pass, plan, wanted)
    }

    // Keeps `recording`, if given, as the record, with `listed` appended, which was just published.
    // If that fails, the record ends at `before`, the front without `listed`.
    #[tactic(auto, using(crate::proofs::Records::record_none, crate::proofs::Records::record_on, crate::proofs::Records::record_ended))]
    fn record(
        &mut self,
        alloc: Global,
        recording: Option<Recording<L>>,
        before: Front<L>,
        listed: &Submission<'_>,
    )
        requires unrecorded { self.old.recording ≡ None }
        requires some { inputs_by listed.now ≡ input_in listed.now ∷ [] }
        requires inputs { ForSome recording (λ r. r.inputs ≡ inputs_of before) }
        requires listed { list_by (inputs_of before) ≡ list_of before }
        requires grown { inputs_of self.old.writer ≡ inputs_of before ++ inputs_by listed.now }
        ensures same { KeepsAllButRecord self.old self.new }
        ensures recorded { IsRecorded before (record_of (inputs_by listed.now)) recording self.old.record_end self.new.recording self.new.record_end }
    {
        match recording {
            None => {}
            Some(mut recording) => match recording.add(alloc, listed) {
                Ok(()) => self.recording = Some(recording),
                Err(fault) => {
                    self.record_end = Some(RecordEnd {
                        recording,
                        front: before,
                        fault,
                    });
                }
            },
        }
    }

    /// Starts to record what is appended to the list, which must be empty.
    ///
    /// Returns the front at which the record begins, or the front of a list that is not empty.
    pub(crate) fn start_record(&mut self, alloc: Global) -> Result<RecordFront<L>, Front<L>>
        ensures same { KeepsAllButRecord self.old self.new }
        ensures started { IfOk result (λ it. (it.front ≡ []) × (self.old.writer ≡ [])
            × MatchOption self.new.recording ⊥ (λ r. (r.from.front ≡ []) × (r.waiting ≡ []))) }
        ensures refused { IfErr result (λ front. (front ≡ self.old.writer) × (0 < length front)
            × (self.new.recording ≡ self.old.recording) × (self.new.record_end ≡ self.old.record_end)) }
    {
        let front = self.writer.tell();
        if front.steps() > 0 {
            return Err(front);
        }
        let start = RecordFront::first(front);
        self.recording = Some(Recording::new(alloc, start.again()));
        Ok(start)
    }

    pub(crate) fn stop_record(&mut self)
        ensures same { KeepsAllButRecord self.old self.new }
        ensures none { HasNoRecord self.new }
    {
        self.recording = None;
        self.record_end = None;
    }

    /// Returns how many bytes of the record wait to be written; 0 without a record.
    pub(crate) fn waiting_record_bytes(&self) -> usize
        ensures { MatchOption self.now.recording (result ≡ 0) (λ r. result ≡ length r.waiting) }
    {
        match &self.recording {
            Some(recording) => recording.waiting(),
            None => 0,
        }
    }

    /// Takes what waits to be written to the record, and leaves `empty` in its place.
    ///
    /// If a fault ended the record, returns its rest once, with the fault.
    pub(crate) fn take_record(
        &mut self,
        empty: Vec<u8>,
    ) -> Option<TakenText<RecordFront<L>, RecordFault>>
        requires { empty.items ≡ [] }
        ensures same { KeepsAllButRecord self.old self.new }
        ensures taken { IfSome self.old.recording (λ r. MatchOption result ⊥ (λ t. (t.chunk.from ≡ r.from) × (t.chunk.to.front ≡ self.old.writer) × (t.chunk.bytes.items ≡ r.waiting) × (t.fault ≡ None))) }
        ensures left { IfSome self.old.recording (λ _. MatchOption self.new.recording ⊥ (λ r. (r.from.front ≡ self.old.writer) × (r.waiting ≡ []))) }
        ensures end { IfNone self.old.recording (IfSome self.old.record_end (λ e. MatchOption result ⊥ (λ t. (t.chunk.from ≡ e.recording.from) × (t.chunk.to.front ≡ e.front) × (t.chunk.bytes.items ≡ e.recording.waiting) × (t.fault ≡ Some e.fault)))) }
        ensures none { IfNone self.old.recording (IfNone self.old.record_end (result ≡ None)) }
        ensures gone { IfNone self.old.recording (HasNoRecord self.new) }
        ensures nothing { IfNone result (HasNoRecord self.new) }
    {
        if let Some(mut recording) = self.recording.take() {
            let chunk = recording.take_text(self.writer.tell(), empty);
            self.recording = Some(recording);
            return Some(TakenText { chunk, fault: None });
        }
        let RecordEnd {
            mut recording,
            front,
            fault,
        } = self.record_end.take()?;
        Some(TakenText {
            chunk: recording.take_text(front, empty),
            fault: Some(fault),
        })
    }

    // Plans the entries and slots that `wanted` gets at the end of the list, which is unchanged.
    #[tactic(auto, using(crate::proofs::Posts::planning))]
    fn plan<P: Placing>(
        &mut self,
        alloc: Global,
        placing: &P,
        wanted: &Submission<'_>,
    ) -> Result<Plan, AdmitFault>
        requires placing { P.place_of placing.now ≡ L.placing }
        ensures same { (self.new.writer ≡ self.old.writer) × (self.new.closed ≡ self.old.closed) × (self.new.recording ≡ self.old.recording) × (self.new.record_end ≡ self.old.record_end) }
        ensures continues { IfOk result (λ p. Continues self.new.registry p) }
        ensures elements { IfOk result (λ p. p.elements ≡ added_by (input_of wanted.now)) }
        ensures slots { IfOk result (λ p. p.slots ≡ admitted_slots (setup_of L.config L.placing)
            (list_of self.new.writer) p.elements) }
        ensures allowed { OnOk result (refusal_of (length (list_of self.new.writer)) (input_of wanted.now) ≡ None) }
        ensures fault { IfErr result (λ f. IsFault (refusal_of (length (list_of self.new.writer)) (input_of wanted.now)) f) }
    {
        match wanted {
            Submission::Request(request) => self.registry.plan(
                alloc,
                placing,
                request.arrival.moment,
                request.arrival.nonce,
                request.messages.as_slice(),
            ),
            Submission::Tick(tick) => self.registry.plan_tick(alloc, tick.moment()),
        }
    }

    // Publishes `plan`, applies it to the registry, and records `wanted`, from which it was made.
    // Returns its first place and slots. `pass` must have seen the whole list, and has then seen
    // `plan` too. On error nothing has changed.
    fn publish(
        &mut self,
        alloc: Global,
        pass: &mut Front<L>,
        plan: Plan,
        wanted: &Submission<'_>,
    ) -> Result<Admitted, PostFault>
        requires inputs { list_by (inputs_by wanted.now) ≡ plan.elements }
        requires continues { Continues self.old.registry plan }
        requires some { 0 < length plan.batch.entries }
        requires whole { pass.old ≡ self.old.writer }
        ensures seen { IsPrefix pass.old pass.new }
        ensures taken { IfOk result (IsPublished plan pass.old pass.new) }
        ensures step { OnOk result (pass.new ≡ pass.old ++ adding plan.elements (inputs_by wanted.now) ∷ []) }
        ensures refused { IfErr result (λ f. IsUnpublished f pass.new) }
        ensures same { OnErr result ((self.new.writer ≡ self.old.writer) × (pass.new ≡ pass.old)) }
        ensures unrecorded { OnErr result (KeepsRecord self.old self.new) }
        ensures whole { pass.new ≡ self.new.writer }
        ensures room { IfErr result (λ f. IsWhole f pass.new self.new.writer) }
        ensures kept { self.new.closed ≡ self.old.closed }
        ensures recorded { OnOk result (HasRecorded wanted.now self.old self.new) }
    {
        let Plan {
            batch,
            slots,
            elements,
            change,
        } = plan;
        let first = batch.first;
        let added = elements.again();
        let recording = self.recording.take();
        let bundle = UnpublishedBatch {
            batch,
            elements,
            inputs: inputs_by(wanted),
        };
        match self.writer.publish(alloc, bundle) {
            Ok(()) => {
                self.registry.commit(change, &added);
                let before = mem::replace(pass, self.writer.tell());
                self.record(alloc, recording, before, wanted);
                Ok(Admitted { first, slots })
            }
            Err((_, fault)) => {
                self.recording = recording;
                match fault {
                    PublishFault::Ended => Err(PostFault::Refused(Refusal::Ended)),
                    PublishFault::Full => Err(PostFault::Behind {
                        first: pass.begin(),
                    }),
                    PublishFault::Memory => Err(PostFault::Memory),
                }
            }
        }
    }

    /// Drops the batches that all shards have applied.
    ///
    /// Drops nothing if the window's log has no room for another step.
    ///
    /// # Errors
    ///
    /// `AllocError` if an earlier change still cannot be shown to readers; nothing has changed.
    #[tactic(auto, using(crate::proofs::Places::untrimmable))]
    pub(crate) fn trim(&mut self, report: &AdvanceReport<L>) -> Result<(), AllocError>
        requires all { length report.now.stays ≡ L.config.shards }
        ensures trimmed { OnOk result ((firsts_of self.new.writer ≡ firsts_of self.old.writer)
            ⊎ (firsts_of self.new.writer ≡ drop (below (lowest_of report.now) (length (list_of self.old.writer)) (firsts_of self.old.writer)) (firsts_of self.old.writer))) }
        ensures room { OnOk result (IsTrimmedTo (lowest_of report.now) self.new.writer) }
        ensures same { OnErr result (self.new.writer ≡ self.old.writer) }
        ensures list { (list_of self.new.writer ≡ list_of self.old.writer) × (inputs_of self.new.writer ≡ inputs_of self.old.writer) × (self.new.registry ≡ self.old.registry) }
        ensures kept { (self.new.closed ≡ self.old.closed) × (self.new.recording ≡ self.old.recording) × (self.new.record_end ≡ self.old.record_end) }
    {
        self.writer.trim(report.lowest_place())
    }

    /// Moves to `taken` the batches that were trimmed since the last call.
    ///
    /// The caller drops them after unlocking. Allocates only if `taken` has too little room.
    pub(crate) fn take_trimmed(&mut self, taken: &mut Vec<Arc<Batch, Global>>)
        ensures same { (self.new.registry ≡ self.old.registry) × (self.new.writer ≡ self.old.writer) × (self.new.closed ≡ self.old.closed) × (self.new.recording ≡ self.old.recording) × (self.new.record_end ≡ self.old.record_end) }
    {
        self.writer.take_trimmed(taken);
    }

    /// Moves the batches of earlier trims to `taken`, and trims the window.
    ///
    /// If an earlier change still cannot be shown to readers, drops no batches.
    pub(crate) fn let_go(&mut self, report: &AdvanceReport<L>, taken: &mut Vec<Arc<Batch, Global>>)
        requires all { length report.now.stays ≡ L.config.shards }
        ensures list { (list_of self.new.writer ≡ list_of self.old.writer) × (inputs_of self.new.writer ≡ inputs_of self.old.writer) × (self.new.registry ≡ self.old.registry) }
        ensures kept { (self.new.closed ≡ self.old.closed) × (self.new.recording ≡ self.old.recording) × (self.new.record_end ≡ self.old.record_end) }
    {
        self.take_trimmed(taken);
        let _ = self.trim(report);
    }

    /// Returns the state of the list and the sessions. `pass` has then seen the whole list.
    pub(crate) fn survey(&mut self, pass: &mut Front<L>) -> Survey
        ensures same { (self.new.registry ≡ self.old.registry) × (self.new.writer ≡ self.old.writer) × (self.new.closed ≡ self.old.closed) × (self.new.recording ≡ self.old.recording) × (self.new.record_end ≡ self.old.record_end) }
        ensures seen { IsPrefix pass.old pass.new }
        ensures whole { pass.new ≡ self.old.writer }
        ensures counted { result ≡ survey_of L.config pass.new }
    {
        *pass = self.writer.tell_beyond(pass);
        Survey {
            entries: self.registry.entries(),
            live: self.registry.sessions(),
            opened: self.registry.opened(),
            batches: self.writer.batches(),
        }
    }

    pub(crate) fn is_closed(&self) -> bool
        ensures { result ≡ self.now.closed }
    {
        self.closed
    }

    /// Closes admission, and returns evidence of that. No shard is closed yet.
    pub(crate) fn close(&mut self) -> ChangeReport<L>
        ensures closed { self.new.closed ≡ true }
        ensures none { (result.change.value ≡ changes.Shut) × (result.done ≡ []) }
        ensures same { (self.new.writer ≡ self.old.writer) × (self.new.recording ≡ self.old.recording) × (self.new.record_end ≡ self.old.record_end) }
    {
        self.closed = true;
        ChangeReport::shutting(self)
    }
}
