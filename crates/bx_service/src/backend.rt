ghost use Rattle.std.specs.Prelude.{⊤, ◌≡◌, ℕ, List, Option, Result, IfOk, IfErr};
ghost use Rattle.std.specs.Arc.{arc_value};
ghost use Rattle.bx_window.specs.Steps.{setup_of};
ghost use Rattle.bx_cut.specs.Bodies.{texts_of};
ghost use Rattle.bx_service.specs.Gatherings.{IsAnsweredBy, IsRejectedBy};
ghost use Rattle.bx_hub.specs.declared.fault.PostFault.{PostFault};
ghost use Rattle.bx_service.specs.declared.backend.{Answered.Answered, Unanswered.Unanswered};
ghost use Rattle.bx_service.specs.declared.backend.Unanswered.TheVariants.{Memory};

use crate::gathering::ItemsFuture;
use crate::witness::{HubWitness, Stamp};
use bx_cut::Bodies;
use bx_entry::{Access, Arrival};
use bx_hub::{Hub, HubKind, PostFault};
use bx_message::Item;
use futures::Future;
use std::alloc::{AllocError, Global};
use std::sync::{Arc, Wait};

/// A source of the moments of requests.
pub trait Clock {
    // Ghost: which moments a clock may return.
    ghost tells: { Self → ℕ → Type 0 } = { λ _ _. ⊤ };

    /// Returns the current moment, in milliseconds since any fixed start.
    fn now(&self) -> u64
        ensures { tells self.now result };
}

/// A source of nonces for client ids.
pub trait Nonces {
    // Ghost: which nonces a source may return.
    ghost draws: { Self → ℕ → Type 0 } = { λ _ _. ⊤ };

    /// Returns a nonce of 128 bits.
    fn next(&self) -> u128
        ensures { draws self.now result };
}

/// Why an admitted request has no items.
#[derive(Drop)]
pub enum Unanswered<W> {
    /// The server gives no answer, as the witness shows.
    Unavailable(W),
    Memory,
}

impl<W> From<AllocError> for Unanswered<W> {
    ghost from_gives = { λ _ given. given ≡ Memory };

    fn from(_error: AllocError) -> Unanswered<W> {
        Unanswered::Memory
    }
}

/// The items of a response, and what shows that they are the server's.
#[derive(Drop)]
pub struct Answered<W> {
    /// Events and replies, in order.
    pub items: Vec<Item>,
    pub witness: W,
}

/// A request that was not admitted.
#[derive(Drop)]
pub struct Declined<W> {
    pub fault: PostFault,
    /// The documents of the request, unchanged.
    pub bodies: Bodies,
    /// `None` if memory ran out before the server could reject it.
    pub witness: Option<W>,
}

/// A server that answers requests, given their JSON documents.
///
/// A service depends only on this trait, so its types do not name the parts of a hub.
pub trait Backend: Drop {
    /// What shows that a response is the server's. Only the server can create it.
    type Witness: Drop;

    type Items: Future<Output = Result<Answered<Self::Witness>, Unanswered<Self::Witness>>>;

    // Ghost: which outputs of the items' future answer a request with these documents, as their
    // witness shows.
    ghost answers: { Self → List (List ℕ) → Result (Answered Self.Witness) (Unanswered Self.Witness) → Type 0 } = { λ _ _ _. ⊤ };

    // Ghost: for which fault the witness shows that a request with these documents was rejected.
    ghost rejects: { Self → List (List ℕ) → PostFault → Option Self.Witness → Type 0 } = { λ _ _ _ _. ⊤ };

    // Ghost: what `place` may return for the items of a response.
    ghost stands: { Self.Items → Option ℕ → Type 0 } = { λ _ _. ⊤ };

    /// Admits a request with the documents `bodies`, and returns the future of its response.
    ///
    /// # Errors
    ///
    /// [`Declined`], with the unchanged documents and the reason.
    fn admit(&self, bodies: Bodies) -> Result<Self::Items, Declined<Self::Witness>>
        ensures can_poll { IfOk result Self.Items.can_poll }
        ensures back { IfErr result (λ d. d.bodies ≡ bodies) }
        ensures admitted { IfOk result (λ future. (output : Result (Answered Self.Witness) (Unanswered Self.Witness))
            → Self.Items.gives future output → answers self.now (texts_of bodies) output) }
        ensures declined { IfErr result (λ d. rejects self.now (texts_of bodies) d.fault d.witness) };

    /// Returns the place of the first message that `items` answer, if any.
    fn place(&self, items: &Self::Items) -> Option<u64>
        ensures { stands items.now result };
}

/// A [`Backend`] over a hub, for the requests of one listener.
#[derive(Drop)]
pub struct HubBackend<L: HubKind, R: Wait + Drop, C, N> {
    rt: R,
    alloc: Global,
    hub: Arc<Hub<L, R>, Global>,
    access: Access,
    clock: C,
    nonces: N,
}

impl<L: HubKind, R: Wait + Drop, C, N> HubBackend<L, R, C, N> {
    /// Creates a backend that posts to `hub`.
    ///
    /// `access`: what the requests' listener allows.
    pub fn new(
        rt: R,
        alloc: Global,
        hub: Arc<Hub<L, R>, Global>,
        access: Access,
        clock: C,
        nonces: N,
    ) -> HubBackend<L, R, C, N>
        ensures hub { arc_value result.hub ≡ arc_value hub }
        ensures others { (result.access ≡ access) × (result.clock ≡ clock) × (result.nonces ≡ nonces) }
    {
        HubBackend {
            rt,
            alloc,
            hub,
            access,
            clock,
            nonces,
        }
    }
}

impl<L, R, C, N> Backend for HubBackend<L, R, C, N>
where
    L: HubKind,
    R: Wait + Copy + Drop,
    C: Clock + Drop,
    N: Nonces + Drop,
{
    type Witness = HubWitness<L>;

    type Items = ItemsFuture<L, R>;

    // Ghost: the hub admitted the request, and a server with one thread gives these items. Or the
    // hub gave no answer, or memory ran out.
    ghost answers = { λ backend documents output.
        IsAnsweredBy (C.tells backend.clock) (N.draws backend.nonces) backend.access (setup_of L.config L.placing) documents output };

    // Ghost: the hub rejected the request, or memory ran out before the post.
    ghost rejects = { λ backend documents fault witness.
        IsRejectedBy (C.tells backend.clock) (N.draws backend.nonces) backend.access (arc_value backend.hub).most_messages documents fault witness };

    ghost stands = { λ items place. place ≡ items.first };

    // Clones the handles before the post, so that no error follows an admission.
    fn admit(&self, bodies: Bodies) -> Result<ItemsFuture<L, R>, Declined<HubWitness<L>>> {
        let (Ok(hub), Ok(access)) = (Arc::try_clone(&self.hub), copy_of(&self.access)) else {
            return Err(Declined {
                fault: PostFault::Memory,
                bodies,
                witness: None,
            });
        };
        let stamp = Stamp {
            moment: self.clock.now(),
            nonce: self.nonces.next(),
        };
        let arrival = Arrival {
            moment: stamp.moment,
            nonce: stamp.nonce,
            access,
            bodies,
        };
        let mut pass = self.hub.pass();
        match self.hub.post(&self.rt, self.alloc, &mut pass, arrival) {
            Ok(posted) => Ok(ItemsFuture::new(
                self.rt,
                self.alloc,
                hub,
                pass,
                stamp,
                posted.first,
                posted.slots,
            )),
            Err((arrival, rejection)) => Err(Declined {
                fault: rejection.fault(),
                bodies: arrival.bodies,
                witness: Some(HubWitness::Rejecting {
                    stamp,
                    seen: pass,
                    rejection,
                }),
            }),
        }
    }

    fn place(&self, items: &ItemsFuture<L, R>) -> Option<u64> {
        items.place()
    }
}

fn copy_of(access: &Access) -> Result<Access, AllocError>
    ensures { IfOk result (λ copy. copy ≡ access.now) }
{
    match access {
        Access::ReadWrite => Ok(Access::ReadWrite),
        Access::ReadOnly(patterns) => Ok(Access::ReadOnly(patterns.clone()?)),
    }
}
