ghost use Rattle.std.specs.Prelude.{◌≡◌, ◌+◌, ◌<◌, ◌≤◌, ◌++◌, ◌∷◌, [], ℕ, length, option_map, IfOk, OnOk, OnErr, MatchOption};
ghost use Rattle.bx_entry.specs.Registry.{count_live, live_with_id, named_by};
ghost use Rattle.bx_roster.specs.Tables.{AllLive, IsTable, client_and_ack_of};
ghost use Rattle.bx_roster.specs.Edits.{CanEdit, CanEditEach};
ghost use Rattle.bx_registry.specs.SessionOverlays.{Overlay, IsSender, known_after, members_of};

use crate::id::number_in;
use bx_message::{Message, MessageKind, Sequence, Text, TextMember};
use bx_roster::{ClientAndAck, Edit, Table};
use std::alloc::{AllocError, AllocFailed, Global};
use std::marker::Model;

/// The live session that a message names.
#[derive(Drop)]
pub(crate) struct Sender<'m> {
    pub(crate) number: u64,
    pub(crate) client: &'m Text,
    pub(crate) ack: bool,
}

/// The sessions after the messages of a request that are judged so far.
///
/// The table is unchanged until the edits are committed.
#[derive(Drop)]
pub(crate) struct SessionOverlay<'a> {
    table: &'a Table,
    edits: Sequence<Edit>,
    count: usize,
    opened: u64,
}

impl<'a> Model for SessionOverlay<'a> {
    ghost use Rattle.bx_registry.specs.SessionOverlays.{Overlay, IsOverlay};

    ghost Value = { Overlay };

    ghost view = { λ d. record { base = d.table.now.members; edits = d.edits } };

    ghost invariant = { λ d. IsOverlay d.table.now.members d.edits d.count d.opened };
}

impl<'a> SessionOverlay<'a> {
    pub(crate) fn new(alloc: Global, table: &'a Table) -> SessionOverlay<'a>
        ensures { result ≡ record { base = table.now.members; edits = [] } }
    {
        let (count, opened) = table.counts();
        SessionOverlay {
            table,
            edits: Sequence::new(alloc),
            count,
            opened,
        }
    }

    /// Returns how many sessions are live, and how many were ever opened.
    #[tactic(auto, using(crate::proofs::Overlays::counting))]
    pub(crate) fn counts(&self) -> (usize, u64)
        ensures live { result.0 ≡ count_live (members_of self.now).live }
        ensures all { AllLive (members_of self.now).live }
        ensures opened { result.1 ≡ (members_of self.now).opened }
    {
        (self.count, self.opened)
    }

    /// Returns the live session that `message` names, if any.
    ///
    /// Handshakes and messages to unknown meta channels name none.
    pub(crate) fn named_by<'m>(
        &self,
        message_kind: MessageKind,
        message: &'m Message,
    ) -> Option<Sender<'m>>
        ensures { MatchOption result (named_by (members_of self.now).live message_kind message.now ≡ None)
            (λ s. IsSender (named_by (members_of self.now).live message_kind message.now) s.number s.client.now s.ack) }
    {
        match (message_kind, &message.client) {
            (MessageKind::Handshake | MessageKind::UnknownMeta, _) => None,
            (_, TextMember::Text(client)) => self.live_with_id(client),
            _ => None,
        }
    }

    // Returns the live session with client id `client`, whose last digits name the only candidate.
    fn live_with_id<'m>(&self, client: &'m Text) -> Option<Sender<'m>>
        ensures { MatchOption result (live_with_id (members_of self.now).live client.now ≡ None)
            (λ s. IsSender (live_with_id (members_of self.now).live client.now) s.number s.client.now s.ack) }
    {
        // Prover: reading a field makes the struct's invariant available.
        let _ = &self.edits;
        let number = number_in(client.as_str());
        let known = self.client_and_ack_of(number)?;
        if known.client.as_str() == client.as_str() {
            Some(Sender {
                number,
                client,
                ack: known.ack,
            })
        } else {
            None
        }
    }

    #[tactic(auto, using(crate::proofs::Overlays::knowing))]
    fn client_and_ack_of(&self, number: u64) -> Option<ClientAndAck<'_>>
        ensures { option_map (λ k. (k.client.now, k.ack)) result ≡ client_and_ack_of number (members_of self.now).live }
    {
        let mut known = self.table.client_and_ack_of(number);
        for edit in self.edits.as_slice() {
            known = known_after(number, known, edit);
        }
        known
    }

    /// Appends an edit, which must be possible after the earlier ones.
    pub(crate) fn push(&mut self, edit: Edit) -> Result<(), AllocError>
        requires { CanEdit (members_of self.old) edit }
        ensures base { self.new.base ≡ self.old.base }
        ensures edits { OnOk result (self.new.edits ≡ self.old.edits ++ edit ∷ []) }
    {
        let (count, opened) = match &edit {
            Edit::Open(session) => (self.count + 1, session.number),
            Edit::Extend { .. } => (self.count, self.opened),
            Edit::Close { .. } => (self.count - 1, self.opened),
        };
        self.edits.push(edit)?;
        self.count = count;
        self.opened = opened;
        Ok(())
    }

    pub(crate) fn into_edits(self) -> Sequence<Edit>
        ensures edits { result ≡ self.entry.edits }
        ensures can { CanEditEach self.entry.base self.entry.edits }
    {
        let SessionOverlay { edits, .. } = self;
        edits
    }
}

fn known_after<'a>(
    number: u64,
    known: Option<ClientAndAck<'a>>,
    edit: &'a Edit,
) -> Option<ClientAndAck<'a>>
    ensures { option_map (λ k. (k.client.now, k.ack)) result
        ≡ known_after number (option_map (λ k. (k.client.now, k.ack)) known.entry) edit.now }
{
    match edit {
        Edit::Open(session) => {
            if known.is_none() && session.number == number {
                Some(session.known())
            } else {
                known
            }
        }
        Edit::Extend { .. } => known,
        Edit::Close { number: closed } => { if *closed == number { None } else { known } }
    }
}
