ghost use Rattle.std.specs.Prelude.{◌≡◌};
ghost use Rattle.bx_roster.specs.Tables.{known_of};

use bx_message::Text;
use std::marker::Model;

/// A session that is live, or about to be opened.
#[derive(Drop)]
pub struct LiveSession {
    /// From 1, in the order of opening.
    pub number: u64,
    /// Ends with the 16 hexadecimal digits of the number.
    pub client: Text,
    pub ack: bool,
    /// In milliseconds since the server started. A later tick closes the session.
    pub due: u64,
    pub live: bool,
}

impl Model for LiveSession {
    ghost use Rattle.bx_entry.specs.Registry.{Registered};

    ghost Value = { Registered };

    ghost view = { λ s. record {
      number = s.number;
      client = s.client;
      ack = s.ack;
      due = s.due;
      live = s.live;
    } };
}

/// What is needed to judge a session's messages.
#[derive(Clone, Copy)]
pub struct ClientAndAck<'a> {
    pub client: &'a Text,
    pub ack: bool,
}

impl LiveSession {
    /// Returns the session's client id, and whether it acknowledges batches.
    pub fn known(&self) -> ClientAndAck<'_>
        ensures { (result.client.now, result.ack) ≡ known_of self.now }
    {
        ClientAndAck {
            client: &self.client,
            ack: self.ack,
        }
    }
}
