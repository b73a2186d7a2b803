ghost use Rattle.std.specs.Prelude.{◌≡◌, ◌≢◌, ◌≤◌, ◌<◌, ◌++◌, [], length, Ok, None, Some, IsErr, OnOk, IfOk, IfErr, IfSome, IfNone, IsSomeAnd, MatchOption};
ghost use Rattle.std.specs.Arc.{arc_value};
ghost use mathlib.Core.List.{IsPrefix};
ghost use Rattle.bx_entry.specs.Requests.{read_input};
ghost use Rattle.bx_entry.specs.declared.input.Input.TheVariants as inputs;
ghost use Rattle.bx_window.specs.Steps.{inputs_of, list_of, setup_of};
ghost use Rattle.bx_hub.specs.Faults.{IsStopped};

mod changes;
mod records;
mod surveys;

use crate::admission::{Admission, AdmissionLock};
use crate::fault::{PostFault, PostReceipt, TickReceipt};
use crate::kind::HubKind;
use crate::parsed_request::{ParsedRequest, Rejection};
use crate::shard_state::{
    AddedWakers, LockedShard, NoAnswer, PolledAnswer, ShardAdvance, ShardState, TakenMark, Unfiled,
    WatchEvidence,
};
use crate::submission::{Submission, Tick};
use crate::walk::AdvanceReport;
use bx_advice::Config;
use bx_connects::Watch;
use bx_cut::MAX_MESSAGES;
use bx_entry::{Admitted, Arrival, Ticket};
use bx_message::Answer;
use bx_shard::Wakers;
use bx_window::{EmptyWindow, Front, log_pair};
use futures::task::Waker;
use std::alloc::{AllocError, Global};
use std::snapshot::Snapshot;
use std::sync::{Arc, Mutex, Wait};

// Posts trim the window when the list's length reaches or passes a multiple of this number. The
// window's memory is then reused while it is in a processor's cache. Policy of this server.
const TRIM_EVERY: u64 = 64;

// Room for the batches of a trim. While no shard lags, trims drop fewer batches.
const TRIM_ROOM: usize = 128;

/// The part of a hub's list that a caller has seen.
///
/// Calls that take the pass can extend it, also by entries of other callers. [`Front::longer`]
/// returns the longer of two passes.
pub type Pass<L> = Front<L>;

/// The server for any number of threads.
///
/// Admission, under a lock, appends requests and ticks to one list. Each shard applies the list
/// under its own lock, at its own pace.
///
/// A caller gets what a server with one thread gives for the entries that its [`Pass`] has seen.
#[derive(Drop)]
pub struct Hub<L: HubKind, R: Wait + Drop> {
    placing: Arc<L::Placing, Global>,
    gate: L::Gate,
    admission: AdmissionLock<L, R>,
    shards: Vec<Mutex<ShardState<L, L::Placing>>>,
    // How many messages a request has at most.
    most_messages: usize,
    ghost placed: { L.Placing.place_of (arc_value placing) ≡ L.placing },
    ghost started: { admission.start ≡ [] },
    ghost counted: { length shards.items ≡ L.config.shards },
}

impl<L: HubKind, R: Wait + Drop> Hub<L, R> {
    ghost use Rattle.bx_hub.specs.Advancing.{IsAdvance, IsOfAll};
    ghost use Rattle.bx_hub.specs.Held.{IsUnfiledAt, answer_over};
    ghost use Rattle.bx_hub.specs.Lags.{IsLagging, no_room_of};
    ghost use Rattle.bx_hub.specs.Submissions.{input_of};
    ghost use Rattle.bx_hub.specs.Records.{EndsIn, inputs_by, inputs_from};
    ghost use Rattle.bx_hub.specs.Posts.{AreSlotsAt, IsAdmittedAt, IsRefused, IsRejected, IsTrimmedTo, IsWithoutRoom, messages_in};
    ghost use Rattle.bx_cut.specs.declared.document.TheConstants.{MAX_MESSAGES};
    ghost use Rattle.bx_hub.specs.Waking.{put_of};
    ghost use Rattle.bx_connects.specs.declared.watch.Watch.TheVariants as watches;
    ghost use Rattle.bx_hub.specs.Watches.{IsBack, IsToldOf};

    /// Creates a hub with an empty list and `config.shards` shards.
    ///
    /// It accepts requests with up to 256 messages ([`MAX_MESSAGES`]). `rt`: the right to wait,
    /// which the window's writer keeps.
    pub fn new(
        alloc: Global,
        rt: R,
        opened: EmptyWindow,
        config: Config,
        placing: Arc<L::Placing, Global>,
        gate: L::Gate,
    ) -> Result<Hub<L, R>, AllocError>
    where
        requires book { opened.seen.book ≡ L.book }
        requires config { config ≡ L.config }
        requires placing { L.Placing.place_of (arc_value placing) ≡ L.placing }
        ensures empty { IfOk result (λ hub. hub.admission.start ≡ []) }
        ensures parts { IfOk result (λ hub. (arc_value hub.placing ≡ arc_value placing) × (hub.gate ≡ gate)) }
        ensures shards { IfOk result (λ hub. length hub.shards.items ≡ config.shards) }
        ensures messages { IfOk result (λ hub. hub.most_messages ≡ MAX_MESSAGES) }
    {
        let (writer, readers) = log_pair::<L, R>(alloc, rt, opened, config.shards)?;
        let mut shards = Vec::new(alloc);
        for reader in readers {
            let shard_state = ShardState::new(
                alloc,
                shards.len(),
                config,
                Arc::try_clone(&placing)?,
                reader,
            );
            shards.push(Mutex::new(shard_state))?;
        }
        let admission = AdmissionLock::new(Admission::new(alloc, config, writer)?);
        Ok(Hub {
            placing,
            gate,
            admission,
            shards,
            most_messages: MAX_MESSAGES,
        })
    }

    /// Returns the hub, which from now on rejects requests with more than `most` messages.
    pub fn with_most_messages(self, most: usize) -> Hub<L, R>
        ensures most { result.most_messages ≡ most }
        ensures rest { (result.placing ≡ self.placing) × (result.gate ≡ self.gate) × (result.admission ≡ self.admission) × (result.shards ≡ self.shards) }
    {
        let mut hub = self;
        hub.most_messages = most;
        hub
    }

    /// Returns a pass that has seen no entries.
    pub fn pass(&self) -> Pass<L>
        ensures { result ≡ [] }
    {
        self.admission.start()
    }

    /// Appends a request to the list and advances every shard.
    ///
    /// `pass` has then seen the list through the last message of the request. A request without
    /// messages appends nothing. If the list reaches a multiple of 64 entries, trims the window.
    ///
    /// # Errors
    ///
    /// `arrival`, with the first of these that applies. Nothing is appended, but `pass` may grow:
    ///
    /// - `Refused`, from `NotJson` to `Forbidden`: the documents are not at most 256 messages, or
    ///   the read-only listener forbids them.
    /// - `TooManyMessages`: they are more than the hub accepts.
    /// - `Closed`: [`close`](Self::close) was called.
    /// - `Refused(BadMoment)`, `Refused(Ended)`: the moment is too large; the list or the window's
    ///   log is too long.
    /// - `Overrun`, `WrongShard`, `Behind`: the window is full, and advancing the shards made no
    ///   room.
    /// - `Memory`: memory ran out.
    ///
    /// # Blocking
    ///
    /// Locks admission, then each shard in turn. Tasks with an answered connect are woken after its
    /// shard is unlocked, or before if memory runs out. If the window is full, the shards are also
    /// advanced while admission is locked. Trimming locks admission again.
    ///
    /// # Examples
    ///
    /// ```
    /// let mut pass = hub.pass();
    /// let receipt = hub
    ///  .post(rt, alloc, &mut pass, connect)
    ///  .map_err(|_| "rejected")?;
    /// let Some(Slot::Waiting(ticket)) = receipt.slots.as_slice().first() else {
    ///  return Err(Fail::from("answered at once"));
    /// };
    /// let (answer, _) = hub.poll_answer(rt, alloc, &mut pass, *ticket);
    /// assert!(rt; answer.map_err(|_| "stopped")?.is_none());
    /// ```
    pub fn post<W: Wait>(
        &self,
        rt: &W,
        alloc: Global,
        pass: &mut Pass<L>,
        arrival: Arrival,
    ) -> Result<PostReceipt<L>, (Arrival, Rejection<L>)>
        ensures seen { IsPrefix pass.old pass.new }
        ensures admitted { IfOk result (λ p. IsAdmittedAt (read_input (inputs.Post arrival)) p.first pass.old pass.new) }
        ensures slots { IfOk result (λ p. AreSlotsAt (setup_of L.config L.placing) (read_input (inputs.Post arrival))
            p.first pass.new p.slots) }
        ensures few { OnOk result (messages_in (read_input (inputs.Post arrival)) ≤ self.now.most_messages) }
        ensures back { IfErr result (λ r. r.0 ≡ arrival) }
        ensures refused { IfErr result (λ r. IsRejected self.now.most_messages (read_input (inputs.Post arrival)) r.1.fault pass.new) }
        ensures lags { IfErr result (λ r. IsLagging r.1.fault r.1.lag pass.new) }
        ensures behind { IfOk result (λ p. IsOfAll L.config.shards pass.new p.advanced) }
        ensures inputs { OnOk result (EndsIn (inputs_of pass.new) (inputs_from (inputs.Post arrival))) }
    {
        let request = ParsedRequest::parse(alloc, self.most_messages, arrival)?;
        let wanted = Submission::Request(&request);
        let Admitted { first, slots } = match self.admit(rt, alloc, pass, &wanted) {
            Ok(admitted) => admitted,
            Err(why) => return Err((request.arrival, why)),
        };
        let advanced = self.advance_all(rt, alloc, &*pass);
        drop(request);
        if first % TRIM_EVERY + slots.len() as u64 >= TRIM_EVERY {
            self.let_go(rt, alloc, &advanced);
        }
        Ok(PostReceipt {
            first,
            slots,
            advanced,
        })
    }

    /// Appends a tick, advances every shard and trims the window.
    ///
    /// `pass` has then seen the list through the tick.
    ///
    /// # Errors
    ///
    /// `tick`, with one of the faults of [`post`](Self::post) after the first; nothing is appended.
    ///
    /// # Blocking
    ///
    /// As [`post`](Self::post).
    pub fn tick<W: Wait>(
        &self,
        rt: &W,
        alloc: Global,
        pass: &mut Pass<L>,
        tick: Tick,
    ) -> Result<TickReceipt<L>, (Tick, Rejection<L>)>
        ensures seen { IsPrefix pass.old pass.new }
        ensures admitted { IfOk result (λ t. IsAdmittedAt (read_input (inputs.Tick tick.moment)) t.place pass.old pass.new) }
        ensures back { IfErr result (λ r. r.0 ≡ tick) }
        ensures refused { IfErr result (λ r. IsRefused (read_input (inputs.Tick tick.moment)) r.1.fault pass.new) }
        ensures lags { IfErr result (λ r. IsLagging r.1.fault r.1.lag pass.new) }
        ensures behind { IfOk result (λ t. IsOfAll L.config.shards pass.new t.advanced) }
        ensures inputs { OnOk result (EndsIn (inputs_of pass.new) (inputs_from (inputs.Tick tick.moment))) }
    {
        let wanted = Submission::Tick(&tick);
        let Admitted { first, .. } = match self.admit(rt, alloc, pass, &wanted) {
            Ok(admitted) => admitted,
            Err(why) => return Err((tick, why)),
        };
        let advanced = self.advance_all(rt, alloc, &*pass);
        self.let_go(rt, alloc, &advanced);
        Ok(TickReceipt {
            place: first,
            advanced,
        })
    }

    // Appends `wanted`, making room first if the window is full. `pass` has then seen its entries.
    fn admit<W: Wait>(
        &self,
        rt: &W,
        alloc: Global,
        pass: &mut Front<L>,
        wanted: &Submission<'_>,
    ) -> Result<Admitted, Rejection<L>>
        ensures seen { IsPrefix pass.old pass.new }
        ensures admitted { IfOk result (λ a. IsAdmittedAt (input_of wanted.now) a.first pass.old pass.new) }
        ensures slots { IfOk result (λ a. AreSlotsAt (setup_of L.config L.placing) (input_of wanted.now) a.first
            pass.new a.slots) }
        ensures refused { IfErr result (λ r. IsRefused (input_of wanted.now) r.fault pass.new) }
        ensures lags { IfErr result (λ r. IsLagging r.fault r.lag pass.new) }
        ensures inputs { OnOk result (EndsIn (inputs_of pass.new) (inputs_by wanted.now)) }
    {
        let mut admission = self.admission.lock(rt);
        match admission.admit(alloc, &*self.placing, pass, wanted) {
            Err(PostFault::Behind { .. }) => {}
            Err(fault) => return Err(Rejection::new(&*admission, fault, None)),
            Ok(admitted) => return Ok(admitted),
        }
        let lowest = match self.advance_and_trim(rt, alloc, &mut admission, pass) {
            Ok(lowest) => lowest,
            Err((fault, lag)) => return Err(Rejection::new(&*admission, fault, lag)),
        };
        match admission.admit(alloc, &*self.placing, pass, wanted) {
            Ok(admitted) => Ok(admitted),
            Err(fault) => Err(Rejection::new(&*admission, fault, Some(lowest))),
        }
    }

    // Advances every shard to the end of `pass`, and trims the full window. Returns the result of a
    // shard with the lowest position. Fails if this shard is overrun or was not found. On an
    // overrun, `pass` grows to what the shard's reader has seen.
    #[tactic(auto, using(crate::proofs::Lags::without_room))]
    fn advance_and_trim<W: Wait>(
        &self,
        rt: &W,
        alloc: Global,
        admission: &mut Admission<L, R>,
        pass: &mut Front<L>,
    ) -> Result<ShardAdvance<L>, (PostFault, Option<ShardAdvance<L>>)>
        ensures seen { IsPrefix pass.old pass.new }
        ensures refused { IfErr result (λ r. IsWithoutRoom r.0 pass.new × IsLagging r.0 r.1 pass.new) }
        ensures room { IfOk result (λ s. (no_room_of s.index s.stays ≡ None) × IsTrimmedTo s.place admission.new.writer) }
        ensures list { (list_of admission.new.writer ≡ list_of admission.old.writer) × (inputs_of admission.new.writer ≡ inputs_of admission.old.writer)
            × (admission.new.registry ≡ admission.old.registry) }
        ensures kept { (admission.new.closed ≡ admission.old.closed) × (admission.new.recording ≡ admission.old.recording)
            × (admission.new.record_end ≡ admission.old.record_end) }
    {
        let report = self.advance_all(rt, alloc, &*pass);
        let trimmed = admission.trim(&report);
        let Some(lowest) = report.into_lowest() else {
            unreachable!()
        };
        if let Some(fault) = lowest.no_room() {
            *pass = lowest.front();
            return Err((fault, Some(lowest)));
        }
        match trimmed {
            Ok(()) => Ok(lowest),
            Err(_) => Err((PostFault::Memory, None)),
        }
    }

    // Drops the window's batches that all shards have applied, by the positions in `report`. If
    // memory runs out or a shard was not found, a later call drops them. The next call frees them,
    // after it has unlocked admission.
    fn let_go<W: Wait>(&self, rt: &W, alloc: Global, report: &AdvanceReport<L>)
        requires { length report.now.stays ≡ L.config.shards }
    {
        let mut taken = Vec::with_capacity(alloc, TRIM_ROOM).unwrap_or(Vec::new(alloc));
        self.admission.lock(rt).let_go(report, &mut taken);
    }

    #[tactic(auto, using(crate::proofs::Walks::all_walked))]
    fn advance_all<W: Wait>(&self, rt: &W, alloc: Global, prefix: &Front<L>) -> AdvanceReport<L>
        ensures all { IsOfAll L.config.shards prefix.now result }
        ensures lowest { IfSome result.lowest (IsAdvance prefix.now) }
    {
        let shards = self.shards.len();
        let mut round = AdvanceReport::new(prefix, shards);
        for step in 0..shards {
            let index = round.index_at(step);
            let mut wakers = Wakers::new(alloc);
            round.add(self.advance_one(rt, alloc, index, prefix, &mut wakers));
        }
        round
    }

    // Advances shard `index` to the end of `prefix`, unless a fault stops it.
    fn advance_one<W: Wait>(
        &self,
        rt: &W,
        alloc: Global,
        index: usize,
        prefix: &Front<L>,
        wakers: &mut Wakers,
    ) -> ShardAdvance<L>
        requires { index < length self.now.shards.items }
        ensures advance { IsAdvance prefix.now result }
        ensures index { result.index ≡ index }
        ensures put { wakers.new ≡ wakers.old ++ put_of result.woken }
        ensures kept { IsSomeAnd result.taken (λ taken. taken.after ≡ taken.before) }
    {
        match self.lock_shard(rt, index) {
            Ok((mut shard_state, taken)) => {
                let advanced = shard_state.advance_to(alloc, &self.gate, prefix, wakers);
                advanced.unlocked(taken.unlock(shard_state))
            }
            Err((other, taken)) => {
                let advanced = ShardAdvance::misplaced(&*other, index, prefix);
                advanced.unlocked(taken.unlock(other))
            }
        }
    }

    // Locks shard `index`. Returns the guard as `Err` if the lock guards another shard. Prover: no
    // contract can state which shard a lock guards, so every call checks.
    fn lock_shard<W: Wait>(
        &self,
        rt: &W,
        index: usize,
    ) -> Result<LockedShard<'_, L, L::Placing>, LockedShard<'_, L, L::Placing>>
        requires { index < length self.now.shards.items }
        ensures own { IfOk result (λ locked. locked.0.value.shard.index ≡ index) }
        ensures other { IfErr result (λ locked. locked.0.value.shard.index ≢ index) }
        ensures taken { (IfOk result (λ locked. locked.1.places ≡ locked.0.value.taken)) × (IfErr result (λ locked. locked.1.places ≡ locked.0.value.taken)) }
    {
        let (shard_state, taken) = TakenMark::lock(&self.shards[index], rt);
        if shard_state.index() == index {
            Ok((shard_state, taken))
        } else {
            Err((shard_state, taken))
        }
    }

    /// Takes the answer to a connect or a rider, if it is filed.
    ///
    /// If it is not, advances the ticket's shard to the end of the longest front that it has
    /// learned, `pass` included, and looks again. `pass` has then seen at least that front. A filed
    /// answer can be taken even after [`close`](Self::close).
    ///
    /// If there is still no answer, the second value is evidence that the shard was active and had
    /// no answer under `ticket` when it had applied all that `pass` has seen. If `ticket` names no
    /// shard, there is neither.
    ///
    /// # Errors
    ///
    /// `WrongShard` if the shard's lock guards another shard. Otherwise, if no answer is filed:
    ///
    /// - `Closed`, `Paused`: the hub is closed, or the shard paused.
    /// - `Overrun`: the window no longer has the shard's next entry.
    /// - `Memory`: memory ran out.
    ///
    /// # Blocking
    ///
    /// Locks the ticket's shard. Tasks are woken as in [`post`](Self::post).
    pub fn poll_answer<W: Wait>(
        &self,
        rt: &W,
        alloc: Global,
        pass: &mut Pass<L>,
        ticket: Ticket,
    ) -> (Result<Option<Answer>, NoAnswer<L>>, Option<Unfiled<L>>)
        ensures seen { IsPrefix pass.old pass.new }
        ensures answer { IfOk result.0 (λ o. IfSome o (λ a. answer_over L.config pass.new ticket.place ≡ Some a)) }
        ensures none { IfOk result.0 (λ o. IfNone o (MatchOption result.1 (L.config.shards ≤ ticket.shard) (IsUnfiledAt ticket pass.new))) }
        ensures stopped { IfErr result.0 (λ s. (s.ticket.value ≡ ticket) × IsStopped s.fault ticket.shard pass.new) }
        ensures unknown { L.config.shards ≤ ticket.shard → result.0 ≡ Ok None }
    {
        if ticket.shard >= self.shards.len() {
            return (Ok(None), None);
        }
        let mut wakers = Wakers::new(alloc);
        let (answer, unfiled, _woken) = self.poll_one(rt, alloc, pass, ticket, &mut wakers);
        (answer, unfiled)
    }

    // Takes the answer under `ticket` from its shard, as `poll_answer` does. Returns evidence of
    // the added wakers if the shard is found.
    fn poll_one<W: Wait>(
        &self,
        rt: &W,
        alloc: Global,
        pass: &mut Front<L>,
        ticket: Ticket,
        wakers: &mut Wakers,
    ) -> (PolledAnswer<L>, Option<Unfiled<L>>, Option<AddedWakers>)
        requires { ticket.shard < length self.now.shards.items }
        ensures seen { IsPrefix pass.old pass.new }
        ensures answer { IfOk result.0 (λ o. IfSome o (λ a. answer_over L.config pass.new ticket.place ≡ Some a)) }
        ensures none { IfOk result.0 (λ o. IfNone o (IsSomeAnd result.1 (IsUnfiledAt ticket pass.new))) }
        ensures stopped { IfErr result.0 (λ s. (s.ticket.value ≡ ticket) × IsStopped s.fault ticket.shard pass.new) }
        ensures put { wakers.new ≡ wakers.old ++ put_of result.2 }
        ensures asked { IfNone result.2 (IsErr result.0) }
    {
        match self.lock_shard(rt, ticket.shard) {
            Ok((mut shard, _)) => {
                let (answer, unfiled, woken) = shard.poll(alloc, &self.gate, pass, ticket, wakers);
                (answer, unfiled, Some(woken))
            }
            Err((other, _)) => (Err(NoAnswer::misplaced(&*other, &ticket)), None, None),
        }
    }

    /// Registers `waker` with a held connect, and returns the waker that it replaces.
    ///
    /// Returns `waker` itself if an answer is filed (`Ready`), no connect is held under `ticket`
    /// (`Unknown`), or the hub is closed (`Shut`). The second value is evidence of the result. If
    /// `ticket` names no shard, the result is `Unknown`, without evidence.
    ///
    /// # Blocking
    ///
    /// Locks the ticket's shard. The call that answers the connect wakes `waker`, as in
    /// [`post`](Self::post). [`close`](Self::close) wakes it while the shard is locked.
    pub fn watch<W: Wait>(
        &self,
        rt: &W,
        ticket: Ticket,
        waker: Waker,
    ) -> (Watch, Option<WatchEvidence<L>>)
        ensures told { IsToldOf L.config.shards ticket waker result.0 result.1 }
        ensures back { IsBack waker result.0 }
        ensures unknown { L.config.shards ≤ ticket.shard → result.0 ≡ watches.Unknown waker }
    {
        if ticket.shard >= self.shards.len() {
            return (Watch::Unknown(waker), None);
        }
        match self.lock_shard(rt, ticket.shard) {
            Ok((mut shard_state, _)) => {
                let (said, evidence) = shard_state.watch(ticket, waker);
                (said, Some(evidence))
            }
            Err((other, _)) => {
                let seen = Snapshot::of(&waker);
                let said = Watch::Unknown(waker);
                let evidence = WatchEvidence::misplaced(&*other, &ticket, seen, &said);
                (said, Some(evidence))
            }
        }
    }
}
