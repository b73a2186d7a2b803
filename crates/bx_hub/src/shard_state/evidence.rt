//! Evidence of what calls did to a shard under its lock.
//!
//! Each value describes the shard after a call, or reports that the lock guards another shard.
//! Ghost parts take no memory.
ghost use Rattle.std.specs.Prelude.{◌≡◌, ◌≢◌, ◌≤◌, ◌<◌, length, drop, is_some, Some, None, IfSome, IfNone};
ghost use mathlib.Core.List.{IsPrefix};
ghost use Rattle.bx_connects.specs.Connects.{filed_answer};
ghost use Rattle.bx_entry.specs.Keeping.{Kept};
ghost use Rattle.bx_shard.specs.Seen.{state};
ghost use Rattle.bx_shard.specs.States.{connect_in};
ghost use Rattle.bx_shard.specs.Surveys.{IsSurveyAt};
ghost use Rattle.bx_hub.specs.Faults.{IsAt, IsStopped, IsStoppedIn};
ghost use Rattle.bx_hub.specs.declared.activity.Activity.TheVariants.{Active};
ghost use Rattle.bx_hub.specs.declared.fault.HubFault.TheVariants as faults;
ghost use Rattle.bx_window.specs.Steps.{list_of, setup_of};

use crate::fault::{HubFault, PostFault};
use crate::shard_state::{ShardState, TakenEvidence};
use bx_connects::Watch;
use bx_entry::{Placing, Ticket};
use bx_history::{History, Lists};
use bx_shard::{SessionSurvey, Wakers};
use bx_window::{Front, LogId};
use futures::task::Waker;
use std::marker::{Model, PhantomData};
use std::snapshot::Snapshot;

/// The result of advancing a shard to a front of the list, `prefix`.
///
/// The shard has applied `place` entries, and has reached the end of `prefix`, unless the fault
/// `stays` stopped it. With `WrongShard`, it was not found, nothing was done, and `place` is 0.
///
/// `front`: what the shard's reader has seen. Ghost: the wakers added to the caller's list, and the
/// shard's taken answers once it is unlocked.
#[derive(Drop)]
pub(crate) struct ShardAdvance<L: LogId> {
    index: usize,
    prefix: Snapshot<Front<L>>,
    place: u64,
    front: Front<L>,
    stays: Option<HubFault>,
    woken: Option<AddedWakers>,
    taken: Option<TakenEvidence>,
}

impl<L: LogId> ShardAdvance<L> {
    ghost use Rattle.bx_hub.specs.Advancing.{IsAdvance};
    ghost use Rattle.bx_hub.specs.Lags.{no_room_of};

    /// Creates the result for `shard_state`, which has learned `prefix`.
    pub(super) fn new<P: Placing>(
        shard_state: &ShardState<L, P>,
        prefix: &Front<L>,
        stays: Option<HubFault>,
        woken: AddedWakers,
    ) -> ShardAdvance<L>
        requires told { IsPrefix prefix.now shard_state.now.prefix }
        requires level { IfNone stays (length (list_of prefix.now) ≤ shard_state.now.shard.place) }
        requires below { IfSome stays (λ f. shard_state.now.shard.place < length (list_of prefix.now)) }
        requires stopped { IfSome stays (λ f. IsStopped f shard_state.now.shard.index shard_state.now.reader
            × IsStoppedIn shard_state.now.activity f) }
        requires at { IfSome stays (λ f. IsAt f shard_state.now.shard.place) }
        ensures advance { IsAdvance prefix.now result }
        ensures index { result.index ≡ shard_state.now.shard.index }
        ensures place { (result.place ≡ shard_state.now.shard.place) × (result.front ≡ shard_state.now.reader) }
        ensures stays { result.stays ≡ stays }
        ensures woken { result.woken ≡ Some woken }
    {
        ShardAdvance {
            index: shard_state.index(),
            prefix: Snapshot::of(prefix),
            place: shard_state.place(),
            front: shard_state.front(),
            stays,
            woken: Some(woken),
            taken: None,
        }
    }

    pub(crate) fn unlocked(self, taken: TakenEvidence) -> ShardAdvance<L>
        ensures { result ≡ record self { taken = Some taken } }
    {
        ShardAdvance {
            taken: Some(taken),
            ..self
        }
    }

    /// Creates the result `WrongShard` for shard `index`, whose lock guards `shard_state`.
    pub(crate) fn misplaced<P: Placing>(
        shard_state: &ShardState<L, P>,
        index: usize,
        prefix: &Front<L>,
    ) -> ShardAdvance<L>
        requires { shard_state.now.shard.index ≢ index }
        ensures advance { IsAdvance prefix.now result }
        ensures index { result.index ≡ index }
        ensures stays { result.stays ≡ Some (faults.WrongShard shard_state.now.shard.index) }
        ensures woken { (result.woken ≡ None) × (result.taken ≡ None) × (result.place ≡ 0) }
    {
        ShardAdvance {
            index,
            prefix: Snapshot::of(prefix),
            place: 0,
            front: prefix.again(),
            stays: Some(HubFault::WrongShard {
                found: shard_state.index(),
            }),
            woken: None,
            taken: None,
        }
    }

    /// Returns why the shard stopped before the end of the front, or was not found.
    pub(crate) fn stays(&self) -> Option<HubFault>
        ensures { result ≡ self.now.stays }
    {
        self.stays
    }

    /// Returns how many entries the shard had applied, or 0 if it was not found.
    pub(crate) fn place(&self) -> u64
        ensures { result ≡ self.now.place }
    {
        self.place
    }

    /// Returns what the shard's reader has seen.
    pub(crate) fn front(&self) -> Front<L>
        ensures { result ≡ self.now.front }
    {
        self.front.again()
    }

    /// Returns why the shard leaves no room in a full window: it is overrun or was not found.
    ///
    /// Returns `None` for other shards.
    pub(crate) fn no_room(&self) -> Option<PostFault>
        ensures { result ≡ no_room_of self.now.index self.now.stays }
    {
        match self.stays? {
            HubFault::Overrun { shard, place } => Some(PostFault::Overrun { shard, place }),
            HubFault::WrongShard { found } => Some(PostFault::WrongShard {
                shard: self.index,
                found,
            }),
            HubFault::Closed | HubFault::Paused | HubFault::Memory => None,
        }
    }
}

/// Evidence of why there is no answer under a ticket.
///
/// The fault stopped the ticket's shard. If it is `WrongShard`, an answer may be filed.
#[derive(Drop)]
pub struct NoAnswer<L: LogId> {
    ticket: Snapshot<Ticket>,
    fault: HubFault,
    of: PhantomData<L>,
}

impl<L: LogId> NoAnswer<L> {
    pub(super) fn new<P: Placing>(
        shard_state: &ShardState<L, P>,
        ticket: &Ticket,
        fault: HubFault,
    ) -> NoAnswer<L>
        requires own { ticket.now.shard ≡ shard_state.now.shard.index }
        requires stopped { IsStopped fault shard_state.now.shard.index shard_state.now.reader }
        requires activity { IsStoppedIn shard_state.now.activity fault }
        requires at { IsAt fault shard_state.now.shard.place }
        requires unfiled { filed_answer (connect_in (state P.place_of shard_state.now.shard) ticket.now.place) ≡ None }
        ensures { (result.fault ≡ fault) × (result.ticket.value ≡ ticket.now) }
    {
        let _ = shard_state;
        NoAnswer {
            ticket: Snapshot::of(ticket),
            fault,
            of: PhantomData,
        }
    }

    pub(crate) fn misplaced<P: Placing>(
        shard_state: &ShardState<L, P>,
        ticket: &Ticket,
    ) -> NoAnswer<L>
        requires { shard_state.now.shard.index ≢ ticket.now.shard }
        ensures { (result.fault ≡ faults.WrongShard shard_state.now.shard.index) × (result.ticket.value ≡ ticket.now) }
    {
        NoAnswer {
            ticket: Snapshot::of(ticket),
            fault: HubFault::WrongShard {
                found: shard_state.index(),
            },
            of: PhantomData,
        }
    }

    /// Returns why there is no answer.
    pub fn fault(&self) -> HubFault
        ensures { result ≡ self.now.fault }
    {
        self.fault
    }
}

/// Evidence that no answer is filed under a ticket.
///
/// The ticket's shard was active, and had applied all of the longest front that it had learned. The
/// answer is not due yet, was taken or swept, or the ticket is not one of the shard.
///
/// Ghost: the ticket and that front.
#[derive(Drop)]
pub struct Unfiled<L: LogId> {
    ticket: Snapshot<Ticket>,
    front: Snapshot<Front<L>>,
}

impl<L: LogId> Unfiled<L> {
    pub(super) fn new<P: Placing>(shard_state: &ShardState<L, P>, ticket: &Ticket) -> Unfiled<L>
        requires own { ticket.now.shard ≡ shard_state.now.shard.index }
        requires active { shard_state.now.activity ≡ Active }
        requires level { shard_state.now.shard.place ≡ length (list_of shard_state.now.prefix) }
        requires unfiled { filed_answer (connect_in (state P.place_of shard_state.now.shard) ticket.now.place) ≡ None }
        ensures { (result.ticket.value ≡ ticket.now) × (result.front.value ≡ shard_state.now.prefix) }
    {
        Unfiled {
            ticket: Snapshot::of(ticket),
            front: Snapshot::of(&shard_state.prefix),
        }
    }
}

/// Evidence of the result of registering a waker under a ticket.
///
/// If the shard was not found, the result is `Unknown`.
#[derive(Drop)]
pub struct WatchEvidence<L: LogId> {
    ticket: Snapshot<Ticket>,
    waker: Snapshot<Waker>,
    said: Snapshot<Watch>,
    of: PhantomData<L>,
}

impl<L: LogId> WatchEvidence<L> {
    ghost use Rattle.bx_hub.specs.Watches.{HoldsOf, IsShut};
    ghost use Rattle.bx_connects.specs.declared.watch.Watch.TheVariants as watches;

    fn new(ticket: &Ticket, waker: Snapshot<Waker>, said: &Watch) -> WatchEvidence<L>
        ensures { (result.ticket.value ≡ ticket.now) × (result.waker.value ≡ waker.value)
            × (result.said.value ≡ said.now) }
    {
        WatchEvidence {
            ticket: Snapshot::of(ticket),
            waker,
            said: Snapshot::of(said),
            of: PhantomData,
        }
    }

    /// Creates evidence that `said` is the result of registering `waker` under `ticket`.
    ///
    /// `shard_state`: the ticket's shard after the call.
    pub(super) fn registered<P: Placing>(
        shard_state: &ShardState<L, P>,
        ticket: &Ticket,
        waker: Snapshot<Waker>,
        said: &Watch,
    ) -> WatchEvidence<L>
        requires own { ticket.now.shard ≡ shard_state.now.shard.index }
        requires holds { HoldsOf shard_state.now.shard.is_closed_to_wakers waker.value
            (connect_in (state P.place_of shard_state.now.shard) ticket.now.place) said.now }
        ensures { (result.ticket.value ≡ ticket.now) × (result.waker.value ≡ waker.value)
            × (result.said.value ≡ said.now) }
    {
        let _ = shard_state;
        WatchEvidence::new(ticket, waker, said)
    }

    /// Returns evidence that the ticket's shard is closed and has no answer under `ticket`.
    ///
    /// The result must be `Shut`.
    pub fn no_answer(&self, ticket: &Ticket) -> NoAnswer<L>
        requires ticket { self.now.ticket.value ≡ ticket.now }
        requires shut { IsShut self.now.said.value }
        ensures { (result.fault ≡ faults.Closed) × (result.ticket.value ≡ ticket.now) }
    {
        NoAnswer {
            ticket: Snapshot::of(ticket),
            fault: HubFault::Closed,
            of: PhantomData,
        }
    }

    /// Creates evidence of `Unknown`, because the ticket's shard was not found.
    ///
    /// `shard_state`: the other shard that the lock guards.
    pub(crate) fn misplaced<P: Placing>(
        shard_state: &ShardState<L, P>,
        ticket: &Ticket,
        waker: Snapshot<Waker>,
        said: &Watch,
    ) -> WatchEvidence<L>
        requires other { shard_state.now.shard.index ≢ ticket.now.shard }
        requires unknown { said.now ≡ watches.Unknown waker.value }
        ensures { (result.ticket.value ≡ ticket.now) × (result.waker.value ≡ waker.value)
            × (result.said.value ≡ said.now) }
    {
        let _ = shard_state;
        WatchEvidence::new(ticket, waker, said)
    }
}

/// Evidence that a survey shows a session of a shard.
///
/// The shard had the session, and had applied the first `place` entries of `front`.
///
/// Ghost: the shard's index, the index of the session in the shard, and the survey.
#[derive(Drop)]
pub struct SessionEvidence<L: LogId> {
    shard: Snapshot<usize>,
    index: Snapshot<usize>,
    survey: Snapshot<SessionSurvey>,
    place: u64,
    front: Front<L>,
}

impl<L: LogId> SessionEvidence<L> {
    ghost use Rattle.bx_hub.specs.Surveys.{IsSessionOf};

    pub(super) fn new<P: Placing>(
        shard_state: &ShardState<L, P>,
        index: &usize,
        survey: &SessionSurvey,
    ) -> SessionEvidence<L>
        requires { (k : Kept) × IsSurveyAt shard_state.now.shard.sessions index.now k survey.now }
        ensures { IsSessionOf (setup_of L.config L.placing) shard_state.now.shard.index index.now survey.now result }
    {
        SessionEvidence {
            shard: Snapshot::of(&shard_state.index()),
            index: Snapshot::of(index),
            survey: Snapshot::of(survey),
            place: shard_state.place(),
            front: shard_state.front(),
        }
    }
}

/// A change to a shard, other than by entries, polls and wakers.
#[derive(Clone, Copy)]
pub enum ShardChange {
    /// An active shard applies nothing until it is resumed.
    Pause,
    /// A paused shard can advance again.
    Resume,
    /// The shard is closed permanently, and the tasks of its held connects are woken.
    Shut,
    /// Answers filed by entries before place `before` and never taken are dropped.
    Sweep { before: u64 },
}

/// Evidence that a change was applied to a shard, and of how many answers the change dropped.
///
/// A shard that was not found did not change. Ghost: its taken answers once it is unlocked.
#[derive(Drop)]
pub struct ChangeEvidence<L: LogId> {
    shard: Snapshot<usize>,
    change: Snapshot<ShardChange>,
    dropped: usize,
    taken: Option<TakenEvidence>,
    of: PhantomData<L>,
}

impl<L: LogId> ChangeEvidence<L> {
    ghost use Rattle.bx_hub.specs.Changes.{IsAfter};

    pub(super) fn new<P: Placing>(
        shard_state: &ShardState<L, P>,
        change: ShardChange,
        dropped: usize,
    ) -> ChangeEvidence<L>
        requires { IsAfter change shard_state.now.activity (state P.place_of shard_state.now.shard) }
        ensures shard { result.shard.value ≡ shard_state.now.shard.index }
        ensures change { (result.change.value ≡ change) × (result.dropped ≡ dropped) }
    {
        ChangeEvidence {
            shard: Snapshot::of(&shard_state.index()),
            change: Snapshot::of(&change),
            dropped,
            taken: None,
            of: PhantomData,
        }
    }

    pub(crate) fn unlocked(self, taken: TakenEvidence) -> ChangeEvidence<L>
        ensures { result ≡ record self { taken = Some taken } }
    {
        ChangeEvidence {
            taken: Some(taken),
            ..self
        }
    }

    /// Creates evidence that `change` was not applied to shard `index`, whose lock guards
    /// `shard_state`.
    pub(crate) fn misplaced<P: Placing>(
        shard_state: &ShardState<L, P>,
        index: &usize,
        change: ShardChange,
    ) -> ChangeEvidence<L>
        requires { shard_state.now.shard.index ≢ index.now }
        ensures shard { result.shard.value ≡ index.now }
        ensures change { (result.change.value ≡ change) × (result.dropped ≡ 0) × (result.taken ≡ None) }
    {
        let _ = shard_state;
        ChangeEvidence {
            shard: Snapshot::of(index),
            change: Snapshot::of(&change),
            dropped: 0,
            taken: None,
            of: PhantomData,
        }
    }

    pub(crate) fn dropped(&self) -> usize
        ensures { result ≡ self.now.dropped }
    {
        self.dropped
    }
}

/// Evidence of the wakers that a call added to its caller's list under a shard's lock.
#[derive(Drop)]
pub(crate) struct AddedWakers {
    put: History<Waker>,
}

impl Model for AddedWakers {
    ghost use Rattle.std.specs.Prelude.{List};
    ghost use Rattle.futures.specs.declared.task.waker.Waker.{Waker};

    ghost Value = { List Waker };

    ghost view = { λ w. w.put };
}

impl AddedWakers {
    /// Returns the wakers that were added to `wakers` after it was equal to `before`.
    pub(super) fn since(before: History<Waker>, wakers: &Wakers) -> AddedWakers
        ensures { result ≡ drop (length before) wakers.now }
    {
        let put = History::of::<(&History<Waker>, &Wakers), Further>(&(&before, wakers));
        AddedWakers { put }
    }
}

pub(super) fn listed(wakers: &Wakers) -> History<Waker>
    ensures { result ≡ wakers.now }
{
    History::of::<&Wakers, All>(&wakers)
}

struct All;

impl<'a> Lists<&'a Wakers, Waker> for All {
    ghost listed = { λ w. w.now };
}

struct Further;

impl<'a> Lists<(&'a History<Waker>, &'a Wakers), Waker> for Further {
    ghost use Rattle.std.specs.Prelude.{length, drop};

    ghost listed = { λ p. drop (length p.0.now) p.1.now };
}
