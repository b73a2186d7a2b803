ghost use Rattle.std.specs.Prelude.{◌≡◌, ◌≤◌, List, length, Ok, IfOk, IfErr};
ghost use Rattle.bx_entry.specs.Requests.{arrival_messages};

mod rejection;

use crate::fault::PostFault;
use bx_entry::Arrival;
use bx_message::Message;
use bx_window::LogId;
pub use rejection::Rejection;
use std::alloc::Global;

/// A request with its messages, which its listener allows.
///
/// Admission consumes it, so it is appended at most once.
#[derive(Drop)]
pub(crate) struct ParsedRequest {
    pub(crate) arrival: Arrival,
    pub(crate) messages: Vec<Message>,
    ghost read: { arrival_messages arrival ≡ Ok messages.items },
}

impl ParsedRequest {
    ghost use Rattle.bx_entry.specs.Requests.{read_input};
    ghost use Rattle.bx_entry.specs.declared.input.Input.TheVariants as inputs;
    ghost use Rattle.bx_hub.specs.Lags.{IsLagging};
    ghost use Rattle.bx_hub.specs.Posts.{IsRejected};
    ghost use Rattle.bx_window.specs.declared.law.LogStep.{LogStep};

    /// Reads the messages of `arrival`, up to `most`, and returns the request with them.
    ///
    /// # Errors
    ///
    /// `arrival`, with the reason.
    pub(crate) fn parse<L: LogId>(
        alloc: Global,
        most: usize,
        arrival: Arrival,
    ) -> Result<ParsedRequest, (Arrival, Rejection<L>)>
        ensures read { IfOk result (λ r. r.arrival ≡ arrival) }
        ensures few { IfOk result (λ r. length r.messages.items ≤ most) }
        ensures back { IfErr result (λ r. (r.0 ≡ arrival) × ((front : List LogStep) → IsLagging r.1.fault r.1.lag front)) }
        ensures refused { IfErr result (λ r. (front : List LogStep) → IsRejected most (read_input (inputs.Post arrival)) r.1.fault front) }
    {
        match arrival.read(alloc) {
            Ok(messages) if messages.len() > most => Err((
                arrival,
                Rejection::unlocked(PostFault::TooManyMessages),
            )),
            Ok(messages) => Ok(ParsedRequest { arrival, messages }),
            Err(fault) => Err((arrival, Rejection::unlocked(fault.into()))),
        }
    }
}
