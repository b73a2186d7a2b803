ghost use Rattle.std.specs.Prelude.{◌≡◌, ◌+◌, ◌≤◌, ◌==◌, ◌++◌, Err, None, [], ◌∷◌, length, IfOk, IfSome, IsOkUnless};
ghost use Rattle.std.specs.List.{list_any};
ghost use Rattle.bx_advice.specs.Limits.{greatest_length};
ghost use Rattle.bx_entry.specs.Listing.{request};
ghost use Rattle.bx_entry.specs.Listing as elements;
ghost use Rattle.bx_entry.specs.Placings.{placed_by};
ghost use Rattle.bx_entry.specs.Registry.{Registered, count_live, registry};
ghost use Rattle.bx_entry.specs.Inputs.{refused_beyond};
ghost use Rattle.bx_entry.specs.declared.input.AdmitFault.TheVariants.{Memory, Refused};
ghost use Rattle.bx_registry.specs.Plans.{checked};
ghost use Rattle.bx_registry.specs.Slots.{admitted_slots};
ghost use Rattle.bx_registry.specs.Standings.{Continues, LeadsTo, roll_at};

use crate::change::Change;
use crate::plan::Plan;
use crate::planner::{Start, plan_all};
use crate::session_overlay::SessionOverlay;
use crate::setup::Setup;
use bx_advice::{Config, MAX_ENTRIES, MAX_MOMENT, ShardCount};
use bx_entry::{AdmitFault, Batch, Entry, EntryKind, Listing, Placing, Refusal};
use bx_message::{Message, Sequence};
use bx_roster::{Edits, Table};
use std::alloc::{AllocError, Global};
use std::marker::Model;

/// The live sessions, and the number of shards that they are placed in.
///
/// Messages are judged only here. A request or a tick is first planned, which leaves the list
/// unchanged. Then it is committed, which neither allocates nor fails.
///
/// Model: the configuration, the number of shards, the list of all admitted messages and ticks, and
/// whether a record is reserved for the next session. The program does not store the list.
#[derive(Drop)]
pub struct Registry {
    config: Config,
    shards: usize,
    table: Table,
    clock: u64,
    entries: u64,
    listing: Listing,
}

impl Model for Registry {
    ghost use Rattle.std.specs.Prelude.{◌≡◌, ◌≤◌, length};
    ghost use Rattle.bx_registry.specs.Changes.{IsWithin};
    ghost use Rattle.bx_registry.specs.Planners.{roll_between};
    ghost use Rattle.bx_registry.specs.Standings.{Standing, roll_at};

    ghost Value = { Standing };

    ghost view = { λ r. record { config = r.config; shards = r.shards; list = r.listing; ready = r.table.ready } };

    ghost invariant = { λ r.
        (1 ≤ r.shards) × (r.shards ≤ 64) × IsWithin r.config r.table.members r.clock r.entries × (r.entries ≡ length r.listing)
        × (roll_between r.config r.table.members r.clock r.entries ≡ roll_at r.config r.listing) };
}

impl Registry {
    /// Creates a registry with an empty list and `config.shards` shards.
    ///
    /// Allocates the queue of due moments for `config.limits.sessions` live sessions.
    pub fn new(alloc: Global, config: Config) -> Result<Registry, AllocError>
        ensures { IfOk result (λ r. (r.config ≡ config) × (r.shards ≡ config.shards) × (r.list ≡ [])) }
    {
        let table = Table::new(alloc, config.limits.sessions)?;
        Ok(Registry {
            config,
            shards: config.shards,
            table,
            clock: 0,
            entries: 0,
            listing: Listing::new(),
        })
    }

    /// Returns how many messages and ticks were admitted.
    pub fn entries(&self) -> u64
        ensures { result ≡ length self.now.list }
    {
        self.entries
    }

    /// Returns how many sessions are live.
    pub fn sessions(&self) -> usize
        ensures { result ≡ count_live (registry self.now.config self.now.list).sessions }
    {
        self.table.counts().0
    }

    /// Returns how many sessions were ever opened.
    pub fn opened(&self) -> u64
        ensures { result ≡ (roll_at self.now.config self.now.list).members.opened }
    {
        self.table.counts().1
    }

    /// Returns `true` if session `number` is live.
    pub fn live(&self, number: u64) -> bool
        ensures { result ≡ list_any (λ (r : Registered). r.number == number) (roll_at self.now.config self.now.list).members.live }
    {
        self.table.client_and_ack_of(number).is_some()
    }

    /// Plans a request: judges its messages in order, each after the effects of the earlier ones.
    ///
    /// `moment`: milliseconds since the server started. `nonce`: for the client id of an opened
    /// session.
    ///
    /// # Errors
    ///
    /// The first of these that applies:
    ///
    /// - `Refused(BadMoment)`: the moment is too large.
    /// - `Refused(Ended)`: the list would become too long.
    /// - `Memory`: memory ran out.
    pub fn plan<P: Placing>(
        &mut self,
        alloc: Global,
        placing: &P,
        moment: u64,
        nonce: u128,
        messages: &[Message],
    ) -> Result<Plan, AdmitFault>
        ensures same { self.new ≡ record self.old { ready = self.new.ready } }
        ensures refused { IfSome (refused_beyond moment (length self.old.list + length messages.now))
            (λ refusal. result ≡ Err (Refused refusal)) }
        ensures memory { refused_beyond moment (length self.old.list + length messages.now) ≡ None → IsOkUnless result Memory }
        ensures elements { IfOk result (λ p. p.elements ≡ request moment nonce messages.now) }
        ensures continues { IfOk result (λ p. Continues self.new p) }
        ensures slots { IfOk result (λ p. p.slots
            ≡ admitted_slots (placed_by self.old.config self.old.shards (P.place_of placing.now)) self.old.list p.elements) }
    {
        self.check(moment, messages.len())?;
        let mut overlay = SessionOverlay::new(alloc, &self.table);
        let setup = Setup {
            config: &self.config,
            shards: self.shards,
            placing,
        };
        let start = Start {
            moment,
            nonce,
            place: self.entries,
            clock: self.clock,
        };
        let planning = plan_all(alloc, &setup, &mut overlay, start, messages)?;
        let edits = overlay.into_edits();
        self.table.prepare(edits.as_slice())?;
        let mut elements = Listing::new();
        elements.post(moment, nonce, messages);
        Ok(Plan {
            batch: Batch {
                first: self.entries,
                entries: planning.entries,
            },
            slots: planning.slots,
            elements,
            change: Change {
                edits: Edits::Each(edits),
                clock: planning.clock,
                length: self.entries + messages.len() as u64,
            },
        })
    }

    /// Plans a tick, which closes the live sessions that are due before the clock.
    ///
    /// `moment`: milliseconds since the server started. The clock is the greatest moment so far.
    /// Takes O(c * log n) amortized time to close c sessions, if n may be live.
    ///
    /// # Errors
    ///
    /// `Refused(BadMoment)`, `Refused(Ended)` or `Memory`, as for [`plan`](Self::plan).
    pub fn plan_tick(&mut self, alloc: Global, moment: u64) -> Result<Plan, AdmitFault>
        ensures same { self.new ≡ self.old }
        ensures refused { IfSome (refused_beyond moment (length self.old.list + 1)) (λ refusal. result ≡ Err (Refused refusal)) }
        ensures memory { refused_beyond moment (length self.old.list + 1) ≡ None → IsOkUnless result Memory }
        ensures elements { IfOk result (λ p. p.elements ≡ elements.Tick moment ∷ []) }
        ensures continues { IfOk result (λ p. Continues self.old p) }
        ensures slots { IfOk result (λ p. p.slots ≡ []) }
    {
        self.check(moment, 1)?;
        let clock = self.clock.max(moment);
        let mut entries = Sequence::new(alloc);
        entries.push(Entry {
            place: self.entries,
            moment: clock,
            kind: EntryKind::Tick(self.table.overdue(alloc, clock)?),
            rides: None,
        })?;
        let mut elements = Listing::new();
        elements.tick(moment);
        Ok(Plan {
            batch: Batch {
                first: self.entries,
                entries,
            },
            slots: Sequence::new(alloc),
            elements,
            change: Change {
                edits: Edits::Expire(clock),
                clock,
                length: self.entries + 1,
            },
        })
    }

    fn check(&self, moment: u64, count: usize) -> Result<(), AdmitFault>
        ensures { result ≡ checked (refused_beyond moment (length self.now.list + count)) }
    {
        if moment > MAX_MOMENT {
            return Err(AdmitFault::Refused(Refusal::BadMoment));
        }
        if count as u64 > MAX_ENTRIES - self.entries {
            return Err(AdmitFault::Refused(Refusal::Ended));
        }
        Ok(())
    }

    /// Applies a planned change, and appends its `elements` to the list. Does not allocate.
    ///
    /// The plan must come from this registry, with nothing committed since.
    #[tactic(auto, using(crate::proofs::Planning::committing))]
    pub fn commit(&mut self, change: Change, elements: &Listing)
        requires { LeadsTo self.old change elements.now }
        ensures { self.new ≡ record self.old { list = self.old.list ++ elements.now; ready = self.new.ready } }
    {
        let Change {
            edits,
            clock,
            length,
        } = change;
        self.table.apply(edits);
        self.clock = clock;
        self.entries = length;
        self.listing.join(elements);
    }

    /// Changes the number of shards for all later plans.
    pub fn reshard(&mut self, shards: ShardCount)
        ensures shards { self.new ≡ record self.old { shards = shards } }
        ensures in_range { (1 ≤ self.new.shards) × (self.new.shards ≤ 64) }
    {
        self.shards = shards.get();
    }
}
