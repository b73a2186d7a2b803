ghost use Rattle.std.specs.Prelude.{◌≡◌, ◌+◌, ◌<◌, ◌≤◌, ◌^◌, ◌++◌, ◌∷◌, [], length, true, false, option_map, OnOk, OnErr};
ghost use Rattle.indexmap.specs.IndexMap.{values};
ghost use Rattle.bx_entry.specs.Registry.{closed, extended};
ghost use Rattle.bx_roster.specs.Live.{live_in, with_live};
ghost use Rattle.bx_roster.specs.Tables.{AllLive, IsTable, due_at, client_and_ack_of, known_of};
ghost use Rattle.bx_roster.specs.Queues.{AllFiled, IsRoster, entries};
ghost use Rattle.bx_roster.specs.Edits.{IsNext};
ghost use Rattle.bx_roster.specs.Kept.{later, sessions_in};

use crate::due_queue::DueQueue;
use crate::session::LiveSession;
use indexmap::IndexMap;
use std::alloc::{AllocFailed, Global};
use std::marker::Model;

/// The live sessions by number, and possibly a vacant record for the next one.
#[derive(Drop)]
pub(crate) struct Roster {
    records: IndexMap<u64, Option<LiveSession>>,
    limit: usize,
    count: usize,
    opened: u64,
}

impl Model for Roster {
    ghost use Rattle.std.specs.Prelude.{◌+◌, is_some, nat_eq};
    ghost use Rattle.indexmap.specs.IndexMap.{get, index_map_len};
    ghost use Rattle.bx_roster.specs.Kept.{IsKept, sessions_to};
    ghost use Rattle.bx_roster.specs.Live.{Prepared};

    ghost Value = { Prepared };

    ghost view = { λ t. record {
      members = record { limit = t.limit; opened = t.opened; live = sessions_to (get nat_eq t.records) t.opened };
      ready = is_some (get nat_eq t.records (t.opened + 1));
    } };

    ghost invariant = { λ t. IsKept (get nat_eq t.records) (index_map_len t.records) t.limit t.count t.opened };
}

impl Roster {
    pub(crate) fn new(alloc: Global, limit: usize) -> Roster
        ensures { result ≡ record { members = record { limit = limit; opened = 0; live = [] }; ready = false } }
    {
        Roster {
            records: IndexMap::new(alloc),
            limit,
            count: 0,
            opened: 0,
        }
    }

    /// Returns how many sessions are live, and how many were ever opened.
    pub(crate) fn counts(&self) -> (usize, u64)
        ensures live { result.0 ≡ length self.now.members.live }
        ensures opened { result.1 ≡ self.now.members.opened }
        ensures room { length self.now.members.live ≤ self.now.members.limit }
        ensures table { IsTable 0 self.now.members.opened self.now.members.live }
        ensures all { AllLive self.now.members.live }
        ensures limit { self.now.members.limit < 2 ^ 64 }
    {
        (self.count, self.opened)
    }

    pub(crate) fn find(&self, number: u64) -> Option<&LiveSession>
        ensures known { option_map (λ s. known_of s.now) result ≡ client_and_ack_of number self.now.members.live }
        ensures due { option_map (λ s. s.now.due) result ≡ due_at number self.now.members.live }
    {
        match self.records.get(&number)? {
            Some(session) => Some(session),
            None => None,
        }
    }

    pub(crate) fn due_of(&self, number: u64) -> Option<u64>
        ensures { result ≡ due_at number self.now.members.live }
    {
        Some(self.find(number)?.due)
    }

    /// Adds an entry for every session to `queue`, which must be empty and have room.
    pub(crate) fn file_all(&self, queue: &mut DueQueue)
        requires empty { entries queue.old ≡ [] }
        requires few { length self.now.members.live ≤ queue.old.room }
        ensures filed { AllFiled (entries queue.new) self.now.members.live }
        ensures count { length (entries queue.new) ≤ length self.now.members.live }
        ensures room { queue.new.room ≡ queue.old.room }
    {
        file_each(queue, &self.records);
    }

    /// Adds a vacant record for the next session, if there is none.
    pub(crate) fn prepare(&mut self) -> Result<(), AllocFailed<(u64, Option<LiveSession>)>>
        requires { self.old.members.opened + 1 < 2 ^ 64 }
        ensures members { self.new.members ≡ self.old.members }
        ensures ready { OnOk result (self.new.ready ≡ true) }
        ensures refused { OnErr result (self.new ≡ self.old) }
    {
        self.records.insert(self.opened + 1, None)?;
        Ok(())
    }

    /// Stores the next session in the vacant record. Does not allocate.
    pub(crate) fn open(&mut self, session: LiveSession)
        requires next { IsNext self.old.members session }
        requires ready { self.old.ready ≡ true }
        ensures opened { self.new ≡ record {
          members = record self.old.members {
            opened = session.number;
            live = self.old.members.live ++ session ∷ [];
          };
          ready = false;
        } }
        ensures roster { IsRoster self.new.members }
    {
        self.count += 1;
        self.opened = session.number;
        let Some(vacant) = self.records.get_mut(&session.number) else {
            return;
        };
        *vacant = Some(session);
    }

    /// Moves the due moment of a live session to `due`, in milliseconds, but never back.
    pub(crate) fn extend(&mut self, number: u64, due: u64)
        ensures extended { self.new ≡ record self.old {
          members = with_live self.old.members (live_in (extended number due self.old.members.live));
        } }
        ensures roster { IsRoster self.new.members }
    {
        let Some(session) = self.records.get_mut(&number) else {
            return;
        };
        move_on(session, due);
    }

    pub(crate) fn close(&mut self, number: u64)
        ensures closed { self.new ≡ record self.old {
          members = with_live self.old.members (live_in (closed number self.old.members.live));
        } }
        ensures roster { IsRoster self.new.members }
    {
        if number > self.opened {
            return;
        }
        let Some(_closed) = self.records.swap_remove(&number) else {
            return;
        };
        self.count -= 1;
    }
}

fn file_each(queue: &mut DueQueue, records: &IndexMap<u64, Option<LiveSession>>)
    requires empty { entries queue.old ≡ [] }
    requires few { length (sessions_in (values records.now)) ≤ queue.old.room }
    ensures filed { AllFiled (entries queue.new) (sessions_in (values records.now)) }
    ensures count { length (entries queue.new) ≡ length (sessions_in (values records.now)) }
    ensures room { queue.new.room ≡ queue.old.room }
{
    for record in records.values() {
        if let Some(session) = record {
            queue.file(session.due, session.number);
        }
    }
}

fn move_on(session: &mut Option<LiveSession>, due: u64)
    ensures { session.new ≡ option_map (later due) session.old }
{
    if let Some(session) = session {
        session.due = session.due.max(due);
    }
}
