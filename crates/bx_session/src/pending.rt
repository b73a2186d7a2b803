ghost use Rattle.std.specs.Prelude.{◌≡◌, ◌==◌, IfOk, [], ◌∷◌, not};
ghost use Rattle.std.specs.Option.{option_copied};
ghost use Rattle.bx_advice.specs.declared.advice.Outcome.TheVariants.{Connected};
ghost use Rattle.bx_entry.specs.Sessions.{ends_by};
ghost use Rattle.bx_session.specs.Views.{answer_to, answered, deadline_of, pending};

use crate::answered::Answered;
use bx_advice::{Config, Outcome};
use bx_message::{AckReply, Answer, RawJson, Reply, Sequence, SharedEvent, Text, share_json};
use std::alloc::{AllocError, Global};
use std::marker::Model;

/// A connect that is not answered yet.
///
/// It has all that its answer needs, including room for one event, so answering does not allocate.
#[derive(Drop)]
pub struct PendingConnect {
    place: u64,
    client: Text,
    id: Option<RawJson>,
    moment: u64,
    hold: u64,
    // An empty list with room for one event.
    room: Vec<SharedEvent>,
}

impl Model for PendingConnect {
    ghost use Rattle.std.specs.Prelude.{◌≡◌, ◌<◌, []};
    ghost use Rattle.std.specs.Vec.{vec_capacity, vec_len};
    ghost use Rattle.bx_entry.specs.Sessions.{Pending};
    ghost use Rattle.bx_session.specs.Views.{pending};

    ghost Value = { Pending };

    ghost view = { λ c. pending c.place c.client c.id c.moment c.hold };

    ghost invariant = { λ c. (c.room.items ≡ []) × (vec_len c.room < vec_capacity c.room) };
}

impl PendingConnect {
    /// Creates the connect at `place` in the list, sent by the session with client id `client`.
    ///
    /// `id`: the message's `id`, which the reply repeats. `moment`: milliseconds since the server
    /// started. `hold`: how many milliseconds it may be held; 0: it is answered at once.
    pub fn new(
        alloc: Global,
        place: u64,
        client: &Text,
        id: Option<&RawJson>,
        moment: u64,
        hold: u64,
    ) -> Result<PendingConnect, AllocError>
        ensures { IfOk result (λ c.
            c ≡ pending place client.now (option_copied id.entry) moment hold) }
    {
        Ok(PendingConnect {
            place,
            client: client.clone()?,
            id: share_json(id)?,
            moment,
            hold,
            room: Vec::with_capacity(alloc, 1)?,
        })
    }

    pub(crate) fn is_answered_at_once(&self) -> bool
        ensures { result ≡ (self.now.hold == 0) }
    {
        self.hold == 0
    }

    /// Returns its place in the list.
    pub fn place(&self) -> u64
        ensures { result ≡ self.now.place }
    {
        self.place
    }

    /// Returns the hold's end in milliseconds since the server started, if it fits in 64 bits.
    pub fn deadline(&self) -> Option<u64>
        ensures { result ≡ deadline_of self.now }
    {
        self.moment.checked_add(self.hold)
    }

    pub(crate) fn is_due(&self, moment: u64) -> bool
        ensures { result ≡ ends_by moment self.now }
    {
        match self.deadline() {
            Some(deadline) => deadline <= moment,
            None => false,
        }
    }

    pub(crate) fn answer_empty(self, config: &Config, outcome: Outcome, ack: AckReply) -> Answered
        ensures { result ≡ answer_to config.now self [] outcome ack }
    {
        let PendingConnect {
            place,
            client,
            id,
            room,
            ..
        } = self;
        answer_of(
            place,
            room,
            Reply::to_connect(config, client, id, outcome, ack),
        )
    }

    pub(crate) fn answer_one(self, config: &Config, event: SharedEvent, ack: AckReply) -> Answered
        ensures { result ≡ answer_to config.now self (event ∷ []) Connected ack }
    {
        let PendingConnect {
            place,
            client,
            id,
            mut room,
            ..
        } = self;
        room.push_reserved(event);
        answer_of(
            place,
            room,
            Reply::to_connect(config, client, id, Outcome::Connected, ack),
        )
    }

    pub(crate) fn answer_all(
        self,
        config: &Config,
        events: Vec<SharedEvent>,
        ack: AckReply,
    ) -> Answered
        ensures { result ≡ answer_to config.now self events.items Connected ack }
    {
        let PendingConnect {
            place,
            client,
            id,
            ..
        } = self;
        answer_of(
            place,
            events,
            Reply::to_connect(config, client, id, Outcome::Connected, ack),
        )
    }
}

fn answer_of(place: u64, events: Vec<SharedEvent>, reply: Reply) -> Answered
    ensures { result ≡ answered place events.items reply }
{
    Answered {
        place,
        answer: Answer {
            events: Sequence::from_vec(events),
            reply,
        },
    }
}
