ghost use Rattle.std.specs.Prelude.{◌≡◌, ◌++◌, length, map, IfOk};
ghost use Rattle.bx_message.specs.Texts.{item_text};
ghost use Rattle.bx_pieces.specs.Elements.{element_text};

use bx_message::{Item, SharedEvent, item_room, write_item};
use std::alloc::{AllocError, Global};

/// An element of a response's array.
///
/// It takes far less memory than an [`Item`], of which a response can have many.
#[derive(Drop)]
pub(crate) enum Element {
    /// An event, shared with its other receivers.
    Shared(SharedEvent),
    /// The JSON text of a reply.
    Written(Vec<u8>),
}

impl Element {
    fn of(alloc: Global, item: &Item) -> Result<Element, AllocError>
        ensures { IfOk result (λ element. element_text element ≡ item_text item.now) }
    {
        if let Item::EventItem(event) = item {
            return Ok(Element::Shared(event.clone()?));
        }
        let room = Vec::with_capacity(alloc, item_room(item))?;
        let mut text = write_item(room, item)?;
        text.shrink_to_fit();
        Ok(Element::Written(text))
    }

    /// Returns the length of its text, in bytes.
    #[tactic(auto, unfolding(bx_message::specs::Events::event_size))]
    pub(crate) fn size(&self) -> usize
        ensures { result ≡ length (element_text self.now) }
    {
        match self {
            Element::Shared(event) => event.size(),
            Element::Written(text) => text.len(),
        }
    }

    pub(crate) fn write(&self, out: Vec<u8>) -> Result<Vec<u8>, AllocError>
        ensures { IfOk result (λ text. text.items ≡ out.items ++ element_text self.now) }
    {
        match self {
            Element::Shared(event) => write_item(out, &Item::EventItem(event.clone()?)),
            Element::Written(text) => {
                let mut out = out;
                out.extend_from_slice(text.as_slice())?;
                Ok(out)
            }
        }
    }
}

pub(crate) fn elements_of(alloc: Global, items: &[Item]) -> Result<Vec<Element>, AllocError>
    ensures { IfOk result (λ elements. map element_text elements.items ≡ map item_text items.now) }
{
    let mut elements = Vec::with_capacity(alloc, items.len())?;
    for item in items {
        let element = Element::of(alloc, item)?;
        elements.push(element)?;
    }
    Ok(elements)
}
