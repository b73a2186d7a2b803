ghost use Rattle.std.specs.Prelude.{◌≡◌, IfOk, IfSome};
ghost use Rattle.bx_names.specs.Segments.{segments};
ghost use Rattle.bx_message.specs.Events.{event_size};

use crate::text::{RawJson, Text};
use crate::write::event_text;
use bx_names::ChannelName;
use std::alloc::{AllocError, Global};
use std::marker::Model;
use std::sync::Arc;

/// A publish as subscribers get it, without the publisher's client id.
///
/// Bayeux 1.0, delivery of events.
#[derive(Drop)]
pub struct Event {
    /// A valid channel name.
    pub channel: Text,
    /// The publish's `data`, as the sender wrote it.
    pub payload: RawJson,
    /// The publish's `id`, as the sender wrote it, if it is a JSON string or number.
    pub id: Option<RawJson>,
}

#[derive(Drop)]
struct NamedEvent {
    event: Event,
    name: ChannelName,
    size: usize,
}

// Size of an event's JSON text without its values; an `id` adds `ID_BYTES`.
const EVENT_BYTES: usize = 22;

const ID_BYTES: usize = 6;

/// A handle to an event. Its clones share the event instead of copying it.
///
/// The channel is parsed, and the size of the JSON text computed, only once.
#[derive(Drop)]
pub struct SharedEvent {
    named: Arc<NamedEvent>,
}

impl Model for SharedEvent {
    ghost use Rattle.std.specs.Prelude.{◌≡◌};
    ghost use Rattle.std.specs.Arc.{arc_value};
    ghost use Rattle.bx_names.specs.Segments.{segments};
    ghost use Rattle.bx_message.specs.declared.event.Event.{Event};
    ghost use Rattle.bx_message.specs.Events.{event_size};

    ghost Value = { Event };

    ghost view = { λ s. (arc_value s.named).event };

    ghost invariant = { λ s. ((arc_value s.named).name ≡ segments (arc_value s.named).event.channel)
        × ((arc_value s.named).size ≡ event_size (arc_value s.named).event) };
}

impl SharedEvent {
    /// Creates the first handle to `event`. `name`: its channel, parsed.
    pub fn new(alloc: Global, event: Event, name: ChannelName) -> Result<SharedEvent, AllocError>
        requires named { name ≡ segments event.channel }
        ensures { IfOk result (λ s. s ≡ event) }
    {
        let size = size_of(alloc, &event)?;
        let named = Arc::new(alloc, NamedEvent { event, name, size })?;
        Ok(SharedEvent { named })
    }

    /// Returns the event.
    pub fn event(&self) -> &Event
        ensures { result.now ≡ self.now }
    {
        &self.named.event
    }

    /// Returns the event's channel, parsed.
    pub fn name(&self) -> &ChannelName
        ensures { result.now ≡ segments self.now.channel }
    {
        &self.named.name
    }

    /// Returns the size of its JSON text, in bytes.
    pub fn size(&self) -> usize
        ensures { result ≡ event_size self.now }
    {
        self.named.size
    }
}

// Formats the text only if `plain_size` fails.
#[tactic(auto, unfolding(crate::specs::Events::event_size))]
fn size_of(alloc: Global, event: &Event) -> Result<usize, AllocError>
    ensures { IfOk result (λ size. size ≡ event_size event.now) }
{
    match plain_size(event) {
        Some(size) => Ok(size),
        None => Ok(event_text(alloc, event)?.len()),
    }
}

// Computes the size of an event's JSON text, without formatting it.
//
// Returns `None` if the channel needs escapes, or if the size overflows.
#[tactic(auto, using(crate::proofs::Sizes::size_without_id, crate::proofs::Sizes::size_with_id))]
fn plain_size(event: &Event) -> Option<usize>
    ensures { IfSome result (λ size. size ≡ event_size event.now) }
{
    if !event.channel.is_plain() {
        return None;
    }
    let texts = event
        .channel
        .as_str()
        .len()
        .checked_add(event.payload.as_str().len())?;
    let size = texts.checked_add(EVENT_BYTES)?;
    match &event.id {
        Some(id) => size.checked_add(id.as_str().len())?.checked_add(ID_BYTES),
        None => Some(size),
    }
}

impl Clone for SharedEvent {
    ghost is_clone = { λ old copy. copy ≡ old };

    fn clone(&self) -> Result<SharedEvent, AllocError> {
        let named = Arc::try_clone(&self.named)?;
        Ok(SharedEvent { named })
    }
}
