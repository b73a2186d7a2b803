ghost use Rattle.std.specs.Prelude.{◌≡◌};
ghost use Rattle.bx_world.specs.Outputs.{admission, application};

use bx_entry::{AdmitFault, Admitted, Input, Refusal, Slot, Ticket};
use bx_message::{Answer, Sequence};

/// A step of a [`World`](crate::World).
#[derive(Drop)]
pub enum Step {
    /// Appends a request or a tick to the list.
    Admit(Input),
    /// Applies the next entry to the shard with this index.
    Apply(usize),
    /// Takes the answer filed under this ticket.
    Take(Ticket),
}

/// The output of a [`Step`].
#[derive(Drop)]
pub enum StepOut {
    Admitted {
        /// The place of the first entry.
        first: u64,
        /// How each message of a request is answered, in order.
        slots: Sequence<Slot>,
    },
    /// Nothing has changed.
    NotAdmitted(Refusal),
    Applied,
    /// The shard does not exist, or has applied the whole list.
    Level,
    /// `None` if no answer is filed under the ticket.
    Taken(Option<Answer>),
    /// Nothing has changed.
    OutOfMemory,
}

/// The result of applying a shard's next entry.
#[derive(Clone, Copy, Debug, PartialEq, Eq)]
pub enum Applied {
    Done,
    /// The shard does not exist, or has applied the whole list.
    Level,
    /// The shard is unchanged.
    Memory,
}

impl StepOut {
    pub(crate) fn of_admission(admitted: Result<Admitted, AdmitFault>) -> StepOut
        ensures { result ≡ admission admitted }
    {
        match admitted {
            Ok(Admitted { first, slots }) => StepOut::Admitted { first, slots },
            Err(AdmitFault::Refused(refusal)) => StepOut::NotAdmitted(refusal),
            Err(AdmitFault::Memory) => StepOut::OutOfMemory,
        }
    }

    pub(crate) fn of_application(applied: Applied) -> StepOut
        ensures { result ≡ application applied }
    {
        match applied {
            Applied::Done => StepOut::Applied,
            Applied::Level => StepOut::Level,
            Applied::Memory => StepOut::OutOfMemory,
        }
    }
}
