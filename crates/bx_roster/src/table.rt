ghost use Rattle.std.specs.Prelude.{◌≡◌, ◌+◌, ◌<◌, ◌≤◌, ◌^◌, ◌++◌, ◌∷◌, [], length, fold, nat_lt, option_map, true, false, IfOk, OnOk, OnErr};
ghost use Rattle.std.specs.List.{list_any};
ghost use Rattle.bx_entry.specs.Registry.{closed, extended, overdue, overdue_closed};
ghost use Rattle.bx_roster.specs.Live.{live_in, with_live};
ghost use Rattle.bx_roster.specs.Tables.{AllLive, IsTable, client_and_ack_of};
ghost use Rattle.bx_roster.specs.Queues.{AllFiled, IsFrom, IsRoster, Queue, entries, is_past, past_numbers};
ghost use Rattle.bx_roster.specs.Edits.{CanEdit, CanEditBy, CanEditEach, IsNext, edited, edited_by, is_open, opened_by, opened_by_each, opens, room_of};

use crate::due_queue::{Due, DueQueue};
use crate::edit::{Edit, Edits};
use crate::roster::Roster;
use crate::session::{ClientAndAck, LiveSession};
use bx_message::Sequence;
use std::alloc::{AllocError, AllocFailed, Global};
use std::marker::Model;

/// The live sessions, with a queue of their due moments.
///
/// Each has an entry in the queue, at its due moment or before. Extending a session does not move
/// its entry. The first tick after the moment of an entry closes the session if it is overdue, and
/// otherwise moves the entry to the due moment. So a tick looks only at the entries before its
/// moment. It takes logarithmic time for each session that it closes, and for each entry of a
/// session that was closed or extended in the meantime.
///
/// If the queue is full when a session is opened, its entries are replaced by one for each live
/// session. This takes logarithmic time for each opening, on average.
#[derive(Drop)]
pub struct Table {
    roster: Roster,
    queue: DueQueue,
}

impl Model for Table {
    ghost use Rattle.bx_roster.specs.Live.{Prepared};
    ghost use Rattle.bx_roster.specs.Queues.{IsQueued};

    ghost Value = { Prepared };

    ghost view = { λ t. t.roster };

    ghost invariant = { λ t. IsQueued t.roster.members t.queue };
}

impl Table {
    /// Creates an empty table for at most `limit` live sessions.
    pub fn new(alloc: Global, limit: usize) -> Result<Table, AllocError>
        ensures { IfOk result (λ t. t ≡ record { members = record { limit = limit; opened = 0; live = [] }; ready = false }) }
    {
        Ok(Table {
            roster: Roster::new(alloc, limit),
            queue: DueQueue::new(alloc, limit.saturating_mul(2))?,
        })
    }

    /// Returns how many sessions are live, and how many were ever opened.
    pub fn counts(&self) -> (usize, u64)
        ensures live { result.0 ≡ length self.now.members.live }
        ensures opened { result.1 ≡ self.now.members.opened }
        ensures room { length self.now.members.live ≤ self.now.members.limit }
        ensures table { IsTable 0 self.now.members.opened self.now.members.live }
        ensures all { AllLive self.now.members.live }
        ensures limit { self.now.members.limit < 2 ^ 64 }
    {
        self.roster.counts()
    }

    /// Returns what is needed to judge the messages of session `number`, if it is live.
    pub fn client_and_ack_of(&self, number: u64) -> Option<ClientAndAck<'_>>
        ensures { option_map (λ k. (k.client.now, k.ack)) result ≡ client_and_ack_of number self.now.members.live }
    {
        Some(self.roster.find(number)?.known())
    }

    /// Reserves a record for the session that `edits` open, unless one is reserved.
    pub fn prepare(&mut self, edits: &[Edit]) -> Result<(), AllocError>
        requires { self.old.members.opened + 1 < 2 ^ 64 }
        ensures members { self.new.members ≡ self.old.members }
        ensures room { OnOk result (opened_by_each edits.now ≤ 1 → opened_by_each edits.now ≤ room_of self.new.ready) }
        ensures refused { OnErr result (self.new ≡ self.old) }
    {
        if opens_one(edits) {
            self.roster.prepare()?;
        }
        Ok(())
    }

    fn open(&mut self, session: LiveSession)
        requires next { IsNext self.old.members session }
        requires ready { self.old.ready ≡ true }
        ensures { self.new ≡ record {
          members = record self.old.members {
            opened = session.number;
            live = self.old.members.live ++ session ∷ [];
          };
          ready = false;
        } }
    {
        make_room(&mut self.queue, &self.roster);
        self.queue.file(session.due, session.number);
        self.roster.open(session);
    }

    // Moves the due moment of a live session to `due`, but never back.
    fn extend(&mut self, number: u64, due: u64)
        ensures { self.new ≡ record self.old {
          members = with_live self.old.members (live_in (extended number due self.old.members.live));
        } }
    {
        self.roster.extend(number, due);
    }

    fn close(&mut self, number: u64)
        ensures { self.new ≡ record self.old {
          members = with_live self.old.members (live_in (closed number self.old.members.live));
        } }
    {
        self.roster.close(number);
    }

    /// Applies `edits`. Does not allocate.
    ///
    /// They may open one session, with the next number, for which [`prepare`](Self::prepare)
    /// reserved a record. A session that they close must be live.
    pub fn apply(&mut self, edits: Edits)
        requires can { CanEditBy self.old.members edits }
        requires room { opens edits ≤ room_of self.old.ready }
        ensures { self.new.members ≡ edited_by self.old.members edits }
    {
        match edits {
            Edits::Each(edits) => self.edit(edits),
            Edits::Expire(moment) => self.expire(moment),
        }
    }

    fn edit(&mut self, edits: Sequence<Edit>)
        requires can { CanEditEach self.old.members edits }
        requires room { opened_by_each edits ≤ room_of self.old.ready }
        ensures { self.new.members ≡ fold edited self.old.members edits }
    {
        for edit in edits.into_vec() {
            self.edit_once(edit);
        }
    }

    fn edit_once(&mut self, edit: Edit)
        requires can { CanEdit self.old.members edit }
        requires room { opened_by edit ≤ room_of self.old.ready }
        ensures members { self.new.members ≡ edited self.old.members edit }
        ensures room { room_of self.old.ready ≡ room_of self.new.ready + opened_by edit }
    {
        match edit {
            Edit::Open(session) => self.open(session),
            Edit::Extend { number, due } => self.extend(number, due),
            Edit::Close { number } => self.close(number),
        }
    }

    /// Returns the numbers of the live sessions due before `moment`, in ascending order.
    ///
    /// `moment`: milliseconds since the server started.
    pub fn overdue(&mut self, alloc: Global, moment: u64) -> Result<Sequence<u64>, AllocError>
        ensures same { self.new ≡ self.old }
        ensures overdue { IfOk result (λ numbers. numbers ≡ overdue moment self.old.members.live) }
    {
        self.queue.expire(moment);
        let mut numbers = past_numbers(alloc, &self.roster, self.queue.late(), moment)?;
        numbers.sort_unstable();
        // Prover: a session has only one entry, but no contract says so.
        numbers.dedup();
        Ok(Sequence::from_vec(numbers))
    }

    fn expire(&mut self, moment: u64)
        ensures { self.new.members ≡ with_live self.old.members (live_in (overdue_closed moment self.old.members.live)) }
    {
        self.queue.expire(moment);
        settle_late(&mut self.roster, &mut self.queue, moment);
    }
}

fn opens_one(edits: &[Edit]) -> bool
    ensures { result ≡ list_any is_open edits.now }
{
    edits.iter().any(|edit| matches!(edit, Edit::Open(_)))
}

// Returns the overdue sessions in `late`, with repetitions.
fn past_numbers(
    alloc: Global,
    roster: &Roster,
    late: &[Due],
    moment: u64,
) -> Result<Vec<u64>, AllocError>
    ensures { IfOk result (λ numbers. numbers.items ≡ past_numbers moment roster.now.members.live late.now) }
{
    let mut numbers = Vec::new(alloc);
    for due in late {
        if is_past(roster.due_of(due.number), moment) {
            numbers.push(due.number)?;
        }
    }
    Ok(numbers)
}

fn is_past(due: Option<u64>, moment: u64) -> bool
    ensures { result ≡ is_past moment due }
{
    match due {
        Some(due) => due < moment,
        None => false,
    }
}

// Closes the overdue sessions of the late entries, and gives their other ones new entries.
fn settle_late(roster: &mut Roster, queue: &mut DueQueue, moment: u64)
    requires roster { IsRoster roster.old.members }
    requires filed { AllFiled (entries queue.old) roster.old.members.live }
    requires from { IsFrom moment queue.old.waiting }
    ensures roster { IsRoster roster.new.members }
    ensures filed { AllFiled (entries queue.new) roster.new.members.live }
    ensures overdue_closed { roster.new.members ≡ with_live roster.old.members (live_in (overdue_closed moment roster.old.members.live)) }
    ensures room { queue.new.room ≡ queue.old.room }
{
    while let Some(due) = queue.take_late() {
        settle(roster, queue, due, moment);
    }
}

// Closes the session of the removed entry `due`, or gives it a new entry if it is not overdue.
fn settle(roster: &mut Roster, queue: &mut DueQueue, due: Due, moment: u64)
    requires roster { IsRoster roster.old.members }
    requires filed { AllFiled (due ∷ entries queue.old) roster.old.members.live }
    requires free { length (entries queue.old) < queue.old.room }
    ensures roster { IsRoster roster.new.members }
    ensures filed { AllFiled (entries queue.new) roster.new.members.live }
    ensures overdue_closed { with_live roster.new.members (live_in (overdue_closed moment roster.new.members.live)) ≡ with_live roster.old.members (live_in (overdue_closed moment roster.old.members.live)) }
    ensures from { IsFrom moment queue.old.waiting → IsFrom moment queue.new.waiting }
    ensures late { queue.new.late ≡ queue.old.late }
    ensures room { queue.new.room ≡ queue.old.room }
{
    match roster.due_of(due.number) {
        Some(moved) if moved >= moment => queue.file(moved, due.number),
        Some(_) => roster.close(due.number),
        None => {}
    }
}

// Replaces the entries of a full `queue` by one for each live session.
//
// The queue is then at most half full, so this is rare.
fn make_room(queue: &mut DueQueue, roster: &Roster)
    requires filed { AllFiled (entries queue.old) roster.now.members.live }
    requires few { length roster.now.members.live < queue.old.room }
    ensures filed { AllFiled (entries queue.new) roster.now.members.live }
    ensures room { queue.new.room ≡ queue.old.room }
    ensures free { length (entries queue.new) < queue.new.room }
{
    if !queue.has_room() {
        queue.clear();
        roster.file_all(queue);
    }
}
