ghost use Rattle.std.specs.Prelude.{◌≡◌, ◌++◌, ◌∷◌, ◌<◌, [], None, IfErr, IfOk, OnOk, MatchOption, length};
ghost use Rattle.std.specs.Vec.Iter.{into_iter_items};
ghost use Rattle.futures.specs.Poll.{IfReady, OnPending};
ghost use Rattle.futures.specs.Task.{Covers, Keeps};
ghost use Rattle.bx_entry.specs.declared.entry.Slot.TheVariants.{Waiting};
ghost use Rattle.bx_message.specs.declared.reply.Item.TheVariants.{ReplyItem};
ghost use Rattle.bx_service.specs.Gatherings.{AreBelow, Gathers, IsBelow, IsMissing, IsOnWay, IsUnfinished, are_below-prop, is_unfinished-prop, items_of, left_in, place_of};
ghost use Rattle.bx_window.specs.Steps.{list_of};
ghost use Rattle.bx_service.specs.declared.gathering.Missing.TheVariants.{Memory};

use crate::backend::{Answered, Unanswered};
use crate::witness::{HubWitness, Lack, Stamp};
use bx_entry::{Slot, Ticket};
use bx_held::PendingAnswer;
use bx_hub::{Hub, HubKind, Pass};
use bx_message::{Answer, Item, Reply, Sequence};
use bx_window::LogId;
use futures::Future;
use futures::task::{Context, Poll};
use std::alloc::{AllocError, Global};
use std::mem;
use std::sync::{Arc, Wait};
use std::vec::IntoIter;

// Why an item is missing.
#[derive(Drop)]
enum Missing<L: LogId> {
    // The hub gave no answer under the ticket. The pass is that after the poll for it.
    Answer(Ticket, Pass<L>, Lack<L>),
    Memory,
}

impl<L: LogId> From<AllocError> for Missing<L> {
    ghost from_gives = { λ _ given. given ≡ Memory };

    fn from(_error: AllocError) -> Missing<L> {
        Missing::Memory
    }
}

/// The future of the events and replies that answer an admitted request.
///
/// It handles the slots in order, and waits for the answer to each connect or rider. Polling for an
/// answer locks its shard.
#[derive(Drop)]
pub struct ItemsFuture<L: HubKind, R: Wait + Drop> {
    rt: R,
    alloc: Global,
    hub: Arc<Hub<L, R>, Global>,
    // The pass after the post.
    pass: Pass<L>,
    // The longest pass with which an answer was taken, or `pass`.
    seen: Pass<L>,
    stamp: Stamp,
    // The place of the first message, or the list's length if the request has no messages.
    start: u64,
    items: Vec<Item>,
    held: Option<PendingAnswer<L>>,
    slots: IntoIter<Slot>,
    // The place of the request's first message, if it has any.
    first: Option<u64>,
    ghost within: { AreBelow (length (list_of pass)) (into_iter_items slots) } by { are_below-prop (length (list_of pass)) (into_iter_items slots) },
    ghost unfinished: { IsUnfinished held } by { is_unfinished-prop held },
}

impl<L: HubKind, R: Wait + Copy + Drop> ItemsFuture<L, R> {
    /// Creates the future for `slots`, which the hub returned for a post that updated `pass`.
    ///
    /// `start`: the place of the request's first message.
    pub(crate) fn new(
        rt: R,
        alloc: Global,
        hub: Arc<Hub<L, R>, Global>,
        pass: Pass<L>,
        stamp: Stamp,
        start: u64,
        slots: Sequence<Slot>,
    ) -> ItemsFuture<L, R>
        requires { AreBelow (length (list_of pass)) slots }
        ensures begins { (result.items.items ≡ []) × (result.held ≡ None) }
        ensures slots { (result.pass ≡ pass) × (result.seen ≡ pass) × (into_iter_items result.slots ≡ slots) }
        ensures stamp { (result.stamp ≡ stamp) × (result.start ≡ start) }
        ensures place { result.first ≡ place_of start slots }
    {
        let first = place_of(start, slots.as_slice());
        ItemsFuture {
            rt,
            alloc,
            hub,
            seen: pass.again(),
            pass,
            stamp,
            start,
            items: Vec::new(alloc),
            held: None,
            slots: slots.into_vec().into_iter(),
            first,
        }
    }

    pub(crate) fn place(&self) -> Option<u64>
        ensures { result ≡ self.now.first }
    {
        self.first
    }

    fn wait_for(&mut self, ticket: Ticket)
        requires { ticket.place < length (list_of self.old.pass) }
        ensures waits { left_in self.new.held (into_iter_items self.new.slots) ≡ Waiting ticket ∷ into_iter_items self.old.slots }
        ensures same { (self.new.items ≡ self.old.items) × (self.new.seen ≡ self.old.seen) }
        ensures fixed { (self.new.pass ≡ self.old.pass) × (self.new.stamp ≡ self.old.stamp) × (self.new.start ≡ self.old.start) }
        ensures slots { self.new.slots ≡ self.old.slots }
    {
        self.held = Some(PendingAnswer::new(self.pass.again(), ticket));
    }

    // Polls the awaited answer, if any, and appends its items.
    fn poll_held(&mut self, cx: &mut Context<'_>) -> Result<Poll<()>, Missing<L>>
        ensures same { OnOk result (IsOnWay L.config self.old.seen self.old.items.items
            (left_in self.old.held (into_iter_items self.old.slots)) self.new.seen self.new.items.items
            (left_in self.new.held (into_iter_items self.new.slots))) }
        ensures missing { IfErr result (IsMissing L.config.shards (left_in self.old.held (into_iter_items self.old.slots))) }
        ensures done { IfOk result (λ polled. IfReady polled (λ _. self.new.held ≡ None)) }
        ensures fixed { (self.new.pass ≡ self.old.pass) × (self.new.stamp ≡ self.old.stamp) × (self.new.start ≡ self.old.start) }
        ensures slots { self.new.slots ≡ self.old.slots }
        ensures registered { IfOk result (λ polled. OnPending polled (Covers cx.new (λ s. MatchOption self.new.held ⊥ (λ h. s ≡ h.source.id)))) }
        ensures kept { Keeps cx.old cx.new }
    {
        let Some(mut held) = self.held.take() else {
            return Ok(Poll::Ready(()));
        };
        let (polled, evidence) = held.poll(&self.rt, self.alloc, &*self.hub, cx);
        let Poll::Ready(given) = polled else {
            self.held = Some(held);
            return Ok(Poll::Pending);
        };
        match given {
            Ok(Some(answer)) => {
                self.seen = self.seen.longer(held.pass());
                add_answer(&mut self.items, answer)?;
                Ok(Poll::Ready(()))
            }
            Ok(None) => Err(Missing::Answer(
                held.ticket(),
                held.pass().again(),
                Lack::Unknown(evidence),
            )),
            Err(stopped) => Err(Missing::Answer(
                held.ticket(),
                held.pass().again(),
                Lack::Stopped(stopped),
            )),
        }
    }

    // Appends the reply in `slot`, or waits for its answer and appends the answer's items.
    fn take(&mut self, slot: Slot, cx: &mut Context<'_>) -> Result<Poll<()>, Missing<L>>
        requires below { IsBelow (length (list_of self.old.pass)) slot }
        requires free { self.old.held ≡ None }
        ensures same { OnOk result (IsOnWay L.config self.old.seen self.old.items.items
            (slot ∷ into_iter_items self.old.slots) self.new.seen self.new.items.items
            (left_in self.new.held (into_iter_items self.new.slots))) }
        ensures missing { IfErr result (IsMissing L.config.shards (slot ∷ into_iter_items self.old.slots)) }
        ensures done { IfOk result (λ polled. IfReady polled (λ _. self.new.held ≡ None)) }
        ensures fixed { (self.new.pass ≡ self.old.pass) × (self.new.stamp ≡ self.old.stamp) × (self.new.start ≡ self.old.start) }
        ensures slots { self.new.slots ≡ self.old.slots }
        ensures registered { IfOk result (λ polled. OnPending polled (Covers cx.new (λ s. MatchOption self.new.held ⊥ (λ h. s ≡ h.source.id)))) }
        ensures kept { Keeps cx.old cx.new }
    {
        match slot {
            Slot::Ready(reply) => {
                add_reply(&mut self.items, reply)?;
                Ok(Poll::Ready(()))
            }
            Slot::Waiting(ticket) => {
                self.wait_for(ticket);
                self.poll_held(cx)
            }
        }
    }

    fn gather(&mut self, cx: &mut Context<'_>) -> Result<Poll<()>, Missing<L>>
        ensures same { OnOk result (IsOnWay L.config self.old.seen self.old.items.items
            (left_in self.old.held (into_iter_items self.old.slots)) self.new.seen self.new.items.items
            (left_in self.new.held (into_iter_items self.new.slots))) }
        ensures missing { IfErr result (IsMissing L.config.shards (left_in self.old.held (into_iter_items self.old.slots))) }
        ensures done { IfOk result (λ polled. IfReady polled (λ _. (self.new.held ≡ None) × (into_iter_items self.new.slots ≡ []))) }
        ensures fixed { (self.new.pass ≡ self.old.pass) × (self.new.stamp ≡ self.old.stamp) × (self.new.start ≡ self.old.start) }
        ensures registered { IfOk result (λ polled. OnPending polled (Covers cx.new (λ s. MatchOption self.new.held ⊥ (λ h. s ≡ h.source.id)))) }
        ensures kept { Keeps cx.old cx.new }
    {
        if self.poll_held(cx)?.is_pending() {
            return Ok(Poll::Pending);
        }
        while let Some(slot) = self.slots.next() {
            if self.take(slot, cx)?.is_pending() {
                return Ok(Poll::Pending);
            }
        }
        Ok(Poll::Ready(()))
    }
}

impl<L: HubKind, R: Wait + Copy + Drop> Future for ItemsFuture<L, R> {
    type Output = Result<Answered<HubWitness<L>>, Unanswered<HubWitness<L>>>;

    // Ghost: what wakes the future is the source of the awaited answer.
    ghost needs = { λ g s. MatchOption g.held ⊥ (λ h. s ≡ h.source.id) };

    // Ghost: the items are those that the witness shows, or it shows that an answer is missing.
    ghost gives = { λ f gathered. Gathers L.config f.stamp f.start f.pass f.seen f.items.items
        (left_in f.held (into_iter_items f.slots)) gathered };

    fn poll(&mut self, cx: &mut Context<'_>) -> Poll<Self::Output> {
        match self.gather(cx) {
            Ok(Poll::Pending) => Poll::Pending,
            Ok(Poll::Ready(())) => {
                let items = mem::replace(&mut self.items, Vec::new(self.alloc));
                let witness = HubWitness::Answering {
                    stamp: self.stamp,
                    first: self.start,
                    posted: self.pass.again(),
                    seen: self.seen.again(),
                };
                Poll::Ready(Ok(Answered { items, witness }))
            }
            Err(Missing::Answer(ticket, seen, lack)) => {
                let witness = HubWitness::Lacking {
                    stamp: self.stamp,
                    first: self.start,
                    posted: self.pass.again(),
                    seen,
                    ticket,
                    lack,
                };
                Poll::Ready(Err(Unanswered::Unavailable(witness)))
            }
            Err(Missing::Memory) => Poll::Ready(Err(Unanswered::Memory)),
        }
    }
}

fn place_of(first: u64, slots: &[Slot]) -> Option<u64>
    ensures { result ≡ place_of first slots.now }
{
    match slots {
        [] => None,
        _ => Some(first),
    }
}

// Appends an answer's events and then its reply. On error some may be appended.
fn add_answer(items: &mut Vec<Item>, answer: Answer) -> Result<(), AllocError>
    ensures { OnOk result (items.new.items ≡ items.old.items ++ items_of answer) }
{
    let Answer { events, reply } = answer;
    for event in events.into_vec() {
        items.push(Item::EventItem(event))?;
    }
    add_reply(items, reply)
}

fn add_reply(items: &mut Vec<Item>, reply: Reply) -> Result<(), AllocError>
    ensures { OnOk result (items.new.items ≡ items.old.items ++ ReplyItem reply ∷ []) }
{
    items.push(Item::ReplyItem(reply))?;
    Ok(())
}
