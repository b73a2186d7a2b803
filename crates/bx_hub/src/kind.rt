use bx_entry::Placing;
use bx_shard::Gate;
use bx_window::LogId;
use std::marker::PhantomData;

/// The log id of a hub, with the types of its placing and of its gate.
///
/// A caller that shares a hub between threads adds the bounds `Send` and `Sync` itself.
pub trait HubKind: LogId {
    type Placing: Placing + Drop;
    /// Called before and after a shard applies entries.
    type Gate: Gate + Drop;
}

/// The kind of a hub with log id `L`, placing `P` and gate `G`. It has no values.
pub struct Kind<L, P, G> {
    of: PhantomData<(L, P, G)>,
}

impl<L: LogId, P, G> LogId for Kind<L, P, G> {
    ghost book = { L.book };

    ghost config = { L.config };

    ghost placing = { L.placing };
}

impl<L: LogId, P: Placing + Drop, G: Gate + Drop> HubKind for Kind<L, P, G> {
    type Placing = P;

    type Gate = G;
}
