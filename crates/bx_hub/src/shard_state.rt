ghost use Rattle.std.specs.Prelude.{◌≡◌, ◌+◌, ◌<◌, ◌≤◌, ◌⊎◌, ◌++◌, ◌∷◌, [], length, take, nat_eq, ℕ, if◌then◌else◌, is_some, true, Ok, Some, None, OnOk, IfOk, IfErr, IfSome, IfNone, IsSomeAnd};
ghost use Rattle.std.specs.Arc.{arc_value};
ghost use mathlib.Core.List.{IsPrefix};
ghost use Rattle.std.specs.Map.{keys_of};
ghost use Rattle.bx_connects.specs.Connects.{count_filed_below, filed_answer, watched};
ghost use Rattle.bx_connects.specs.Waking.{AreWoken, waker_of};
ghost use Rattle.bx_shard.specs.Refining.{Refines};
ghost use Rattle.bx_shard.specs.Props.{holds_props};
ghost use Rattle.bx_shard.specs.Seen.{state};
ghost use Rattle.bx_shard.specs.Surveys.{IsSurveyAt};
ghost use Rattle.bx_entry.specs.Keeping.{Kept};
ghost use Rattle.bx_shard.specs.States.{Swept, WasShut, Watched, connect_in};
ghost use Rattle.bx_window.specs.Places.{IsOf, StandsIn};
ghost use Rattle.bx_window.specs.Steps.{list_of, setup_of};
ghost use Rattle.bx_hub.specs.Faults.{IsAt, IsStopped, IsStoppedIn, paused, resumed};
ghost use Rattle.bx_hub.specs.declared.activity.Activity.TheVariants.{Active, Paused, Closed};
ghost use Rattle.bx_hub.specs.declared.fault.HubFault.TheVariants as faults;

mod evidence;
mod taken;

use crate::activity::Activity;
use crate::fault::HubFault;
use crate::survey::ShardSurvey;
use bx_advice::Config;
use bx_connects::Watch;
use bx_entry::{Batch, Placing, Ticket};
use bx_history::{History, Lists};
use bx_message::Answer;
use bx_shard::{Gate, SessionSurvey, Shard, Wakers};
use bx_window::{Front, LogId, LogReader, Next, entry_of};
use evidence::listed;
pub(crate) use evidence::{AddedWakers, ShardAdvance};
pub use evidence::{
    ChangeEvidence, NoAnswer, SessionEvidence, ShardChange, Unfiled, WatchEvidence,
};
use futures::task::Waker;
use std::alloc::{AllocError, Global};
use std::snapshot::Snapshot;
use std::sync::Arc;
pub(crate) use taken::{LockedShard, TakenEvidence, TakenMark};

/// The answer under a ticket, `None` if none is filed, or evidence of why there is none.
pub(crate) type PolledAnswer<L> = Result<Option<Answer>, NoAnswer<L>>;

/// A shard, its reader of the window, and the longest front of the list that it has learned.
///
/// The longest front is `prefix`. The reader has seen it, and the shard never advances past its
/// end. The shard's state is what the definitions give for the entries that it has applied.
#[derive(Drop)]
pub(crate) struct ShardState<L: LogId, P: Placing> {
    shard: Shard<P>,
    reader: LogReader<L>,
    prefix: Front<L>,
    taken: History<u64>,
    activity: Activity,
    ghost learnt: { take (length prefix) reader ≡ prefix },
    ghost within: { shard.place ≤ length (list_of prefix) },
    ghost holds: { Refines (setup_of L.config L.placing) (list_of reader) taken shard.index shard.place
        (state P.place_of shard) } by { Prim.hlevel holds_props },
}

impl<L: LogId, P: Placing> ShardState<L, P> {
    ghost use Rattle.bx_hub.specs.Held.{IsUnfiledAt, Stands, answer_over, held_of, taken_by};
    ghost use Rattle.bx_hub.specs.Changes.{MakesOf, TakesOf, activity_after};
    ghost use Rattle.bx_hub.specs.Surveys.{IsSessionOf};
    ghost use Rattle.bx_hub.specs.Watches.{IsBack, IsSaid};
    ghost use Rattle.bx_hub.specs.Advancing.{IsAdvance};
    ghost use Rattle.bx_hub.specs.Waking.{put_of};
    ghost use Rattle.bx_shard.specs.Refining.{swept_places};

    pub(crate) fn new(
        alloc: Global,
        index: usize,
        config: Config,
        placing: Arc<P>,
        reader: LogReader<L>,
    ) -> ShardState<L, P>
        requires reader { reader ≡ [] }
        requires config { config ≡ L.config }
        requires placing { P.place_of (arc_value placing) ≡ L.placing }
        ensures { (result.prefix ≡ []) × (result.shard.place ≡ 0) × (result.shard.index ≡ index) × (result.activity ≡ Active) }
    {
        let prefix = reader.note();
        ShardState {
            shard: Shard::new(alloc, index, config, placing),
            reader,
            prefix,
            taken: History::new(),
            activity: Activity::Active,
        }
    }

    pub(crate) fn place(&self) -> u64
        ensures place { result ≡ self.now.shard.place }
        ensures stands { Stands (setup_of L.config L.placing) (held_of self.now) }
    {
        self.shard.place()
    }

    pub(crate) fn front(&self) -> Front<L>
        ensures all { result ≡ self.now.reader }
        ensures longer { IsPrefix self.now.prefix result }
    {
        self.reader.note()
    }

    pub(crate) fn index(&self) -> usize
        ensures { result ≡ self.now.shard.index }
    {
        self.shard.index()
    }

    // Learns `prefix`, and advances the shard to the end of the longest front learned. Fails if the
    // shard stops before, or is closed or paused and only learns `prefix`.
    fn advance<G: Gate>(
        &mut self,
        alloc: Global,
        gate: &G,
        prefix: &Front<L>,
        wakers: &mut Wakers,
    ) -> Result<(), HubFault>
        ensures old { IsPrefix self.old.prefix self.new.prefix }
        ensures told { IsPrefix prefix.now self.new.prefix }
        ensures one { (self.new.prefix ≡ self.old.prefix) ⊎ (self.new.prefix ≡ prefix.now) }
        ensures end { OnOk result (self.new.shard.place ≡ length (list_of self.new.prefix)) }
        ensures stopped { IfErr result (λ f. IsStopped f self.old.shard.index self.new.reader × IsStoppedIn self.old.activity f) }
        ensures at { IfErr result (λ f. IsAt f self.new.shard.place) }
        ensures active { OnOk result (self.old.activity ≡ Active) }
        ensures still { (self.old.activity ≡ Active → ⊥) → self.new.shard ≡ self.old.shard }
        ensures woken { AreWoken (connect_in (state P.place_of self.old.shard)) (connect_in (state P.place_of self.new.shard)) wakers.old wakers.new }
        ensures kept { (self.new.shard.index ≡ self.old.shard.index) × (self.new.taken ≡ self.old.taken) × (self.new.activity ≡ self.old.activity) }
    {
        self.learn(prefix);
        match self.activity {
            Activity::Closed => Err(HubFault::Closed),
            Activity::Paused => Err(HubFault::Paused),
            Activity::Active => {
                gate.before(self.index());
                let advanced = self.go_on(alloc, wakers);
                gate.after(self.index());
                advanced
            }
        }
    }

    /// Learns `prefix`, and advances the shard to the end of the longest front learned.
    ///
    /// Calls `gate` before and after. A closed or paused shard only learns `prefix`. The result has
    /// a fault if the shard stops before the end of `prefix`.
    #[tactic(auto, using(crate::proofs::Lists::list_length))]
    pub(crate) fn advance_to<G: Gate>(
        &mut self,
        alloc: Global,
        gate: &G,
        prefix: &Front<L>,
        wakers: &mut Wakers,
    ) -> ShardAdvance<L>
        ensures advance { IsAdvance prefix.now result }
        ensures index { result.index ≡ self.old.shard.index }
        ensures place { (result.place ≡ self.new.shard.place) × (result.front ≡ self.new.reader) }
        ensures stopped { IfSome result.stays (λ f. IsStopped f self.old.shard.index self.new.reader × IsStoppedIn self.old.activity f) }
        ensures woken { AreWoken (connect_in (state P.place_of self.old.shard)) (connect_in (state P.place_of self.new.shard)) wakers.old wakers.new }
        ensures put { wakers.new ≡ wakers.old ++ put_of result.woken }
        ensures kept { (self.new.shard.index ≡ self.old.shard.index) × (self.new.taken ≡ self.old.taken) × (self.new.activity ≡ self.old.activity) }
    {
        let before = listed(wakers);
        let advanced = self.advance(alloc, gate, prefix, wakers);
        let stays = match advanced {
            Err(fault) if self.place() < prefix.len() => Some(fault),
            _ => None,
        };
        let woken = AddedWakers::since(before, wakers);
        ShardAdvance::new(self, prefix, stays, woken)
    }

    fn learn(&mut self, prefix: &Front<L>)
        ensures old { IsPrefix self.old.prefix self.new.prefix }
        ensures told { IsPrefix prefix.now self.new.prefix }
        ensures one { (self.new.prefix ≡ self.old.prefix) ⊎ (self.new.prefix ≡ prefix.now) }
        ensures same { (self.new.shard ≡ self.old.shard) × (self.new.taken ≡ self.old.taken) × (self.new.activity ≡ self.old.activity) }
    {
        self.reader.learn(prefix);
        self.prefix = self.prefix.longer(prefix);
    }

    // Applies the entries of the longest front learned, batch by batch, up to the first fault.
    fn go_on(&mut self, alloc: Global, wakers: &mut Wakers) -> Result<(), HubFault>
        ensures told { self.new.prefix ≡ self.old.prefix }
        ensures woken { AreWoken (connect_in (state P.place_of self.old.shard)) (connect_in (state P.place_of self.new.shard)) wakers.old wakers.new }
        ensures end { OnOk result (self.new.shard.place ≡ length (list_of self.new.prefix)) }
        ensures stopped { IfErr result (λ f. IsStopped f self.old.shard.index self.new.reader × IsStoppedIn Active f) }
        ensures at { IfErr result (λ f. IsAt f self.new.shard.place) }
        ensures kept { (self.new.shard.index ≡ self.old.shard.index) × (self.new.taken ≡ self.old.taken) × (self.new.activity ≡ self.old.activity) }
    {
        let end = self.prefix.len();
        while self.place() < end {
            let batch = self.next_batch()?;
            self.apply_batch(alloc, &batch, wakers)?;
        }
        Ok(())
    }

    // Returns the batch with the shard's next entry, which the longest front learned must have.
    // Fails with `Overrun` if the window begins after the entry, or with `Memory`.
    fn next_batch(&mut self) -> Result<Arc<Batch, Global>, HubFault>
        requires { self.old.shard.place < length (list_of self.old.prefix) }
        ensures same { (self.new.prefix ≡ self.old.prefix) × (self.new.shard ≡ self.old.shard) × (self.new.taken ≡ self.old.taken) × (self.new.activity ≡ self.old.activity) }
        ensures batch { IfOk result (λ b. IsOf (arc_value b) self.new.shard.place × StandsIn L.config (list_of self.new.reader) (arc_value b)) }
        ensures stopped { IfErr result (λ f. IsStopped f self.old.shard.index self.new.reader × IsStoppedIn Active f) }
        ensures at { IfErr result (λ f. IsAt f self.new.shard.place) }
    {
        let place = self.shard.place();
        match self.reader.next(place) {
            Ok(Next::Batch(batch)) => Ok(batch),
            Ok(Next::Level) => unreachable!(),
            Ok(Next::Overrun) => Err(HubFault::Overrun {
                shard: self.shard.index(),
                place,
            }),
            Err(_) => Err(HubFault::Memory),
        }
    }

    // Applies the entries of `batch` that the shard lacks, up to the end of the longest front
    // learned. On error, the shard stops at the entry that failed.
    fn apply_batch(
        &mut self,
        alloc: Global,
        batch: &Batch,
        wakers: &mut Wakers,
    ) -> Result<(), HubFault>
        requires place { IsOf batch.now self.old.shard.place }
        requires stands { StandsIn L.config (list_of self.old.reader) batch.now }
        requires within { self.old.shard.place < length (list_of self.old.prefix) }
        ensures same { (self.new.prefix ≡ self.old.prefix) × (self.new.reader ≡ self.old.reader) }
        ensures onward { OnOk result (self.old.shard.place < self.new.shard.place) }
        ensures woken { AreWoken (connect_in (state P.place_of self.old.shard)) (connect_in (state P.place_of self.new.shard)) wakers.old wakers.new }
        ensures stopped { IfErr result (λ f. f ≡ faults.Memory) }
        ensures kept { (self.new.shard.index ≡ self.old.shard.index) × (self.new.taken ≡ self.old.taken) × (self.new.activity ≡ self.old.activity) }
    {
        let end = self.prefix.len();
        let first = self.shard.place();
        let left = batch.entries.len() as u64 - (first - batch.first);
        let last = first + left.min(end - first);
        let mut place = first;
        while place < last {
            match self.shard.apply(alloc, entry_of(batch, place), wakers) {
                Ok(()) => place += 1,
                Err(_) => return Err(HubFault::Memory),
            }
        }
        Ok(())
    }

    // A ticket of another shard has no answer.
    fn take_filed(&mut self, ticket: Ticket) -> Option<Answer>
        ensures answer { IfSome result (λ a. answer_over L.config self.old.prefix ticket.place ≡ Some a) }
        ensures filed { result ≡ (if nat_eq ticket.shard self.old.shard.index then filed_answer (connect_in (state P.place_of self.old.shard) ticket.place) else None) }
        ensures taken { self.new.taken ≡ (if is_some result then self.old.taken ++ ticket.place ∷ [] else self.old.taken) }
        ensures waiting { (p : ℕ) → waker_of (connect_in (state P.place_of self.new.shard) p) ≡ waker_of (connect_in (state P.place_of self.old.shard) p) }
        ensures gone { ticket.shard ≡ self.old.shard.index → filed_answer (connect_in (state P.place_of self.new.shard) ticket.place) ≡ None }
        ensures same { (self.new.prefix ≡ self.old.prefix) × (self.new.reader ≡ self.old.reader) × (self.new.activity ≡ self.old.activity) }
        ensures stands { (self.new.shard.index ≡ self.old.shard.index) × (self.new.shard.place ≡ self.old.shard.place) }
    {
        match self.shard.take(ticket) {
            Some(answer) => {
                self.taken.push(&ticket.place);
                Some(answer)
            }
            None => None,
        }
    }

    // Takes the answer filed under `ticket`, a ticket of this shard, or returns evidence that there
    // is none. The shard must be active, and have applied all of the longest front learned.
    fn take_level(&mut self, ticket: Ticket) -> (Option<Answer>, Option<Unfiled<L>>)
        requires own { ticket.shard ≡ self.old.shard.index }
        requires active { self.old.activity ≡ Active }
        requires level { self.old.shard.place ≡ length (list_of self.old.prefix) }
        ensures answer { IfSome result.0 (λ a. answer_over L.config self.old.prefix ticket.place ≡ Some a) }
        ensures none { IfNone result.0 (IsSomeAnd result.1 (IsUnfiledAt ticket self.old.prefix)) }
        ensures taken { self.new.taken ≡ (if is_some result.0 then self.old.taken ++ ticket.place ∷ [] else self.old.taken) }
        ensures waiting { (p : ℕ) → waker_of (connect_in (state P.place_of self.new.shard) p) ≡ waker_of (connect_in (state P.place_of self.old.shard) p) }
        ensures same { (self.new.prefix ≡ self.old.prefix) × (self.new.reader ≡ self.old.reader) × (self.new.activity ≡ self.old.activity) }
        ensures index { self.new.shard.index ≡ self.old.shard.index }
    {
        match self.take_filed(ticket) {
            Some(answer) => (Some(answer), None),
            None => (None, Some(Unfiled::new(self, &ticket))),
        }
    }

    /// Takes the answer filed under `ticket`, if any.
    ///
    /// If there is none, learns `pass`, advances the shard to the end of the longest front learned,
    /// and looks again. In every case, `pass` has then seen at least the longest front learned.
    ///
    /// `ticket` must be one of this shard. The second value is evidence that there is no answer.
    ///
    /// # Errors
    ///
    /// If no answer is filed, what stopped the shard: `Closed`, `Paused`, `Overrun` or `Memory`.
    #[tactic(auto, using(crate::proofs::Held::over_longer))]
    pub(crate) fn poll<G: Gate>(
        &mut self,
        alloc: Global,
        gate: &G,
        pass: &mut Front<L>,
        ticket: Ticket,
        wakers: &mut Wakers,
    ) -> (PolledAnswer<L>, Option<Unfiled<L>>, AddedWakers)
        requires { ticket.shard ≡ self.old.shard.index }
        ensures seen { IsPrefix pass.old pass.new }
        ensures answer { IfOk result.0 (λ o. IfSome o (λ a. answer_over L.config pass.new ticket.place ≡ Some a)) }
        ensures none { IfOk result.0 (λ o. IfNone o (IsSomeAnd result.1 (IsUnfiledAt ticket pass.new))) }
        ensures filed { IfSome (filed_answer (connect_in (state P.place_of self.old.shard) ticket.place)) (λ a. result.0 ≡ Ok (Some a)) }
        ensures taken { self.new.taken ≡ taken_by result.0 ticket.place self.old.taken }
        ensures stopped { IfErr result.0 (λ s. (s.ticket.value ≡ ticket) × IsStopped s.fault ticket.shard pass.new × IsStoppedIn self.old.activity s.fault) }
        ensures woken { AreWoken (connect_in (state P.place_of self.old.shard)) (connect_in (state P.place_of self.new.shard)) wakers.old wakers.new }
        ensures put { wakers.new ≡ wakers.old ++ result.2 }
        ensures kept { (self.new.shard.index ≡ self.old.shard.index) × (self.new.activity ≡ self.old.activity) }
    {
        let before = listed(wakers);
        if let Some(answer) = self.take_filed(ticket) {
            *pass = pass.longer(&self.prefix);
            return (Ok(Some(answer)), None, AddedWakers::since(before, wakers));
        }
        match self.advance(alloc, gate, pass, wakers) {
            Ok(()) => {
                *pass = self.prefix.again();
                let (answer, unfiled) = self.take_level(ticket);
                (Ok(answer), unfiled, AddedWakers::since(before, wakers))
            }
            Err(fault) => {
                *pass = self.front();
                if let Some(filed) = self.take_filed(ticket) {
                    return (Ok(Some(filed)), None, AddedWakers::since(before, wakers));
                }
                let no_answer = NoAnswer::new(self, &ticket, fault);
                (Err(no_answer), None, AddedWakers::since(before, wakers))
            }
        }
    }

    /// Registers `waker` with the connect held under `ticket`, a ticket of this shard.
    ///
    /// A waker that is replaced or not stored is returned, with evidence of the result.
    #[tactic(auto, using(crate::proofs::Watches::holds_after, crate::proofs::Watches::back_of))]
    pub(crate) fn watch(&mut self, ticket: Ticket, waker: Waker) -> (Watch, WatchEvidence<L>)
        requires own { ticket.shard ≡ self.old.shard.index }
        ensures watch { result.0 ≡ watched self.old.shard.is_closed_to_wakers waker
            (connect_in (state P.place_of self.old.shard) ticket.place) }
        ensures watched { Watched ticket.place waker (state P.place_of self.old.shard)
            (state P.place_of self.new.shard) }
        ensures said { IsSaid ticket waker result.0 result.1 }
        ensures back { IsBack waker result.0 }
        ensures same { (self.new.prefix ≡ self.old.prefix) × (self.new.reader ≡ self.old.reader) × (self.new.taken ≡ self.old.taken) × (self.new.activity ≡ self.old.activity) }
    {
        let seen = Snapshot::of(&waker);
        let said = self.leave(ticket, waker);
        let evidence = WatchEvidence::registered(self, &ticket, seen, &said);
        (said, evidence)
    }

    fn leave(&mut self, ticket: Ticket, waker: Waker) -> Watch
        requires own { ticket.shard ≡ self.old.shard.index }
        ensures watch { result ≡ watched self.old.shard.is_closed_to_wakers waker
            (connect_in (state P.place_of self.old.shard) ticket.place) }
        ensures watched { Watched ticket.place waker (state P.place_of self.old.shard)
            (state P.place_of self.new.shard) }
        ensures same { (self.new.prefix ≡ self.old.prefix) × (self.new.reader ≡ self.old.reader) × (self.new.taken ≡ self.old.taken) × (self.new.activity ≡ self.old.activity) }
    {
        self.shard.watch(ticket, waker)
    }

    #[tactic(auto, using(crate::proofs::Changes::unswept_twice, crate::proofs::Changes::added_behind, crate::proofs::Changes::paused_stands, crate::proofs::Changes::resumed_goes))]
    pub(crate) fn change(&mut self, change: ShardChange) -> ChangeEvidence<L>
        ensures shard { result.shard.value ≡ self.old.shard.index }
        ensures change { result.change.value ≡ change }
        ensures activity { self.new.activity ≡ activity_after change self.old.activity }
        ensures makes { MakesOf change (state P.place_of self.old.shard) (state P.place_of self.new.shard) }
        ensures taken { TakesOf change self.old.taken self.new.taken }
        ensures same { (self.new.prefix ≡ self.old.prefix) × (self.new.reader ≡ self.old.reader) }
    {
        let dropped = match change {
            ShardChange::Pause => {
                self.pause();
                0
            }
            ShardChange::Resume => {
                self.resume();
                0
            }
            ShardChange::Shut => {
                self.close();
                0
            }
            ShardChange::Sweep { before } => self.sweep(before),
        };
        ChangeEvidence::new(self, change, dropped)
    }

    fn sweep(&mut self, before: u64) -> usize
        ensures swept { Swept before (state P.place_of self.old.shard) (state P.place_of self.new.shard) }
        ensures count { result ≡ count_filed_below before self.old.shard.sessions.connects }
        ensures taken { self.new.taken ≡ self.old.taken ++ swept_places before (state P.place_of self.old.shard) }
        ensures same { (self.new.prefix ≡ self.old.prefix) × (self.new.reader ≡ self.old.reader) × (self.new.activity ≡ self.old.activity) }
    {
        let places = History::of::<(u64, &Shard<P>), SweptPlaces>(&(before, &self.shard));
        self.taken.join(&places);
        self.shard.sweep(before)
    }

    pub(crate) fn survey(&self) -> ShardSurvey
        ensures place { result.place ≡ self.now.shard.place }
        ensures held { result.held ≡ length (keys_of self.now.shard.sessions.connects.held) }
        ensures filed { result.filed ≡ length (keys_of self.now.shard.sessions.connects.filed) }
    {
        let connects = self.shard.sessions().connects();
        ShardSurvey {
            place: self.place(),
            held: connects.held_places().len(),
            filed: connects.filed_places().len(),
        }
    }

    /// Returns what an operator sees of the session at `index`, if any, with evidence of it.
    pub(crate) fn survey_session(
        &self,
        alloc: Global,
        index: usize,
    ) -> Result<Option<(SessionSurvey, SessionEvidence<L>)>, AllocError>
        ensures shown { IfOk result (λ survey. IfSome survey (λ s. (k : Kept) × IsSurveyAt self.now.shard.sessions index k s.0)) }
        ensures none { IfOk result (λ survey. IfNone survey (length self.now.shard.sessions.by_number.entries ≤ index)) }
        ensures session { IfOk result (λ survey. IfSome survey (λ s. IsSessionOf (setup_of L.config L.placing) self.now.shard.index index s.0 s.1)) }
    {
        let Some(survey) = self.shard.sessions().survey(alloc, index)? else {
            return Ok(None);
        };
        let evidence = SessionEvidence::new(self, &index, &survey);
        Ok(Some((survey, evidence)))
    }

    fn pause(&mut self)
        ensures same { (self.new.shard ≡ self.old.shard) × (self.new.prefix ≡ self.old.prefix) × (self.new.reader ≡ self.old.reader) × (self.new.taken ≡ self.old.taken) }
        ensures paused { self.new.activity ≡ paused self.old.activity }
    {
        if let Activity::Active = self.activity {
            self.activity = Activity::Paused;
        }
    }

    fn resume(&mut self)
        ensures same { (self.new.shard ≡ self.old.shard) × (self.new.prefix ≡ self.old.prefix) × (self.new.reader ≡ self.old.reader) × (self.new.taken ≡ self.old.taken) }
        ensures resumed { self.new.activity ≡ resumed self.old.activity }
    {
        if let Activity::Paused = self.activity {
            self.activity = Activity::Active;
        }
    }

    // Closes the shard, which stores no wakers from then on. Wakes the tasks of held connects.
    // Filed answers can still be taken.
    fn close(&mut self)
        ensures shut { WasShut (state P.place_of self.old.shard) (state P.place_of self.new.shard) }
        ensures closed { self.new.activity ≡ Closed }
        ensures same { (self.new.prefix ≡ self.old.prefix) × (self.new.reader ≡ self.old.reader) × (self.new.taken ≡ self.old.taken) }
    {
        self.activity = Activity::Closed;
        self.shard.shut();
    }
}

// Ghost: the places of the messages that lose their answers in a sweep.
struct SweptPlaces;

impl<'a, P: Placing> Lists<(u64, &'a Shard<P>), u64> for SweptPlaces {
    ghost use Rattle.bx_shard.specs.Refining.{swept_places};
    ghost use Rattle.bx_shard.specs.Seen.{state};

    ghost listed = { λ p. swept_places p.0 (state P.place_of p.1.now) };
}
