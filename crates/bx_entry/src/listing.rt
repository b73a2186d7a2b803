//! The list of all admitted messages and ticks, for use in contracts.
ghost use Rattle.std.specs.Prelude.{◌≡◌, [], ◌∷◌, ◌++◌};
ghost use Rattle.bx_entry.specs.Listing.{Listed};
ghost use Rattle.bx_entry.specs.Listing as elements;

use bx_history::{History, Lists};
use bx_message::Message;
use std::marker::Model;

/// Ghost: an element of the list, a message or a tick.
pub struct Element {
    ghost listed: { Listed },
}

impl Model for Element {
    ghost use Rattle.std.specs.Borrow.{ftrue};
    ghost use Rattle.bx_entry.specs.Listing.{Listed};

    ghost Value = { Listed };

    ghost view = { λ e. e.listed };

    ghost also_owns = { λ _. ftrue };
}

/// Ghost: messages and ticks in the order of their admission.
///
/// Moments are in milliseconds since the server started.
#[derive(Drop)]
pub struct Listing {
    elements: History<Element>,
}

impl Model for Listing {
    ghost use Rattle.std.specs.Prelude.{List};
    ghost use Rattle.bx_entry.specs.Listing.{Listed};

    ghost Value = { List Listed };

    ghost view = { λ l. l.elements };
}

impl Listing {
    /// Creates an empty listing.
    pub fn new() -> Listing
        ensures { result ≡ [] }
    {
        Listing {
            elements: History::new(),
        }
    }

    /// Appends the messages of a request.
    pub fn post(&mut self, moment: u64, nonce: u128, messages: &[Message])
        ensures { self.new ≡ self.old ++ elements.request moment nonce messages.now }
    {
        let request = Request {
            moment,
            nonce,
            messages,
        };
        self.elements
            .join(&History::of::<Request<'_>, Messages>(&request));
    }

    /// Appends a tick at `moment`.
    pub fn tick(&mut self, moment: u64)
        ensures { self.new ≡ self.old ++ elements.Tick moment ∷ [] }
    {
        self.elements.join(&History::of::<u64, Tick>(&moment));
    }

    /// Appends the elements of `later`.
    pub fn join(&mut self, later: &Listing)
        ensures { self.new ≡ self.old ++ later.now }
    {
        self.elements.join(&later.elements);
    }

    /// Returns a copy of the listing. Does not allocate.
    pub fn again(&self) -> Listing
        ensures { result ≡ self.now }
    {
        Listing {
            elements: self.elements.again(),
        }
    }
}

#[derive(Drop)]
struct Request<'a> {
    moment: u64,
    nonce: u128,
    messages: &'a [Message],
}

struct Messages;

impl<'a> Lists<Request<'a>, Element> for Messages {
    ghost use Rattle.bx_entry.specs.Listing.{request};

    ghost listed = { λ r. request r.moment r.nonce r.messages.now };
}

struct Tick;

impl Lists<u64, Element> for Tick {
    ghost use Rattle.std.specs.Prelude.{[], ◌∷◌};
    ghost use Rattle.bx_entry.specs.Listing as elements;

    ghost listed = { λ moment. elements.Tick moment ∷ [] };
}
