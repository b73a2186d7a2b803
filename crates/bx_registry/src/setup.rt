ghost use Rattle.std.specs.Prelude.{◌≡◌, ◌≤◌};

use bx_advice::Config;
use bx_entry::{Placing, Ticket};

/// The settings under which messages are judged.
#[derive(Drop)]
pub(crate) struct Setup<'a, P> {
    pub(crate) config: &'a Config,
    pub(crate) shards: usize,
    pub(crate) placing: &'a P,
    pub(crate) ghost some: { 1 ≤ shards },
    pub(crate) ghost few: { shards ≤ 64 },
}

impl<'a, P: Placing> Setup<'a, P> {
    pub(crate) fn ticket(&self, place: u64, session: u64) -> Ticket
        ensures { result ≡ record { place = place; shard = P.place_of self.now.placing.now session self.now.shards } }
    {
        Ticket {
            place,
            shard: self.placing.place(session, self.shards),
        }
    }
}
