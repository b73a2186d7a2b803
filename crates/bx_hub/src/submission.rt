ghost use Rattle.std.specs.Prelude.{◌≡◌};

use crate::parsed_request::ParsedRequest;
use futures::task::Source;

/// A tick to append to the list.
///
/// `Hub::tick` takes it, and returns it only on error.
#[derive(Drop)]
pub struct Tick {
    moment: u64,
    // The name of the tick, which takes no bytes. No contract states a new tick's name, so
    // contracts distinguish ticks of the same moment.
    name: Source,
}

impl Tick {
    /// Creates a tick at `moment`, in milliseconds since the server started.
    pub fn new(moment: u64) -> Tick
        ensures { result.moment ≡ moment }
    {
        Tick {
            moment,
            name: Source::new(),
        }
    }

    pub(crate) fn moment(&self) -> u64
        ensures { result ≡ self.now.moment }
    {
        self.moment
    }
}

/// A request with its messages, or a tick.
#[derive(Clone, Copy)]
pub(crate) enum Submission<'a> {
    Request(&'a ParsedRequest),
    Tick(&'a Tick),
}
