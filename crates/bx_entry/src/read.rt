ghost use Rattle.std.specs.Prelude.{◌≡◌, ◌++◌, ◌<◌, IfOk, IfErr, OnOk, IsErrOf, map, length, nat_lt, Some, None, Ok, option_map};
ghost use Rattle.std.specs.List.{list_any};
ghost use Rattle.bx_cut.specs.Bodies.{texts_of};
ghost use Rattle.bx_cut.specs.declared.document.TheConstants.{MAX_MESSAGES};
ghost use Rattle.bx_entry.specs.Requests.{IsUnread, all_messages, arrival_messages, request_messages};
ghost use Rattle.bx_entry.specs.Requests.{cut_fault, cut_of, is_not_json, is_not_object, is_too_many, objects_in, objects_of};

use crate::access::Access;
use crate::input::{AdmitFault, Arrival, Refusal};
use bx_cut::{Bodies, CutError, Document, MAX_MESSAGES};
use bx_message::{Message, MessageError};
use std::alloc::{AllocError, Global};

impl Arrival {
    /// Reads the messages of all documents, in order, if the listener allows them.
    ///
    /// # Errors
    ///
    /// `Refused`, with the first [`Refusal`] through `Forbidden`, or `Memory` if memory runs out.
    pub fn read(&self, alloc: Global) -> Result<Vec<Message>, AdmitFault>
        ensures messages { IfOk result (λ ms. arrival_messages self.now ≡ Ok ms.items) }
        ensures fault { IfErr result (IsUnread (arrival_messages self.now)) }
    {
        let messages = read_messages(alloc, &self.bodies)?;
        let is_allowed = match &self.access {
            Access::ReadWrite => true,
            Access::ReadOnly(patterns) => patterns.allows_all(alloc, messages.as_slice())?,
        };
        if is_allowed {
            Ok(messages)
        } else {
            Err(AdmitFault::Refused(Refusal::Forbidden))
        }
    }
}

type Cut<'a> = Result<Document<'a>, CutError>;

/// Reads the messages of all documents, in order, whatever the listener allows.
///
/// # Errors
///
/// `Refused`, with the first [`Refusal`] through `NoChannel`, or `Memory` if memory runs out.
pub fn read_messages(alloc: Global, bodies: &Bodies) -> Result<Vec<Message>, AdmitFault>
    ensures messages { IfOk result (λ ms. request_messages (texts_of bodies.now) ≡ Ok ms.items) }
    ensures fault { IfErr result (IsUnread (request_messages (texts_of bodies.now))) }
{
    let cuts = cut_all(alloc, bodies)?;
    if let Some(fault) = fault_in(cuts.as_slice()) {
        return Err(AdmitFault::Refused(fault));
    }
    match read_all(alloc, cuts.as_slice()) {
        Ok(messages) => Ok(messages),
        Err(MessageError::NoChannel) => Err(AdmitFault::Refused(Refusal::NoChannel)),
        Err(MessageError::Memory) => Err(AdmitFault::Memory),
    }
}

// Splits every document into its messages, in order.
//
// Goes on after an error, since a later document may have an error that is tested earlier.
fn cut_all(alloc: Global, bodies: &Bodies) -> Result<Vec<Cut<'_>>, AllocError>
    ensures { IfOk result (λ cuts. cuts.items ≡ map cut_of (texts_of bodies.now)) }
{
    let mut cuts = Vec::with_capacity(alloc, bodies.len())?;
    for i in 0..bodies.len() {
        match Document::read(alloc, bodies.get(i)) {
            Err(CutError::Memory) => return Err(AllocError),
            cut => cuts.push(cut)?,
        }
    }
    Ok(cuts)
}

fn fault_in(cuts: &[Cut<'_>]) -> Option<Refusal>
    ensures { result ≡ cut_fault cuts.now }
{
    if has_not_json(cuts) {
        Some(Refusal::NotJson)
    } else if has_not_object(cuts) {
        Some(Refusal::NotObject)
    } else if has_too_many(cuts) | are_too_many(cuts) {
        Some(Refusal::TooMany)
    } else {
        None
    }
}

fn has_not_json(cuts: &[Cut<'_>]) -> bool
    ensures { result ≡ list_any is_not_json cuts.now }
{
    cuts.iter().any(|cut| matches!(cut, Err(CutError::NotJson)))
}

fn has_not_object(cuts: &[Cut<'_>]) -> bool
    ensures { result ≡ list_any is_not_object cuts.now }
{
    cuts.iter()
        .any(|cut| matches!(cut, Err(CutError::NotObject)))
}

fn has_too_many(cuts: &[Cut<'_>]) -> bool
    ensures { result ≡ list_any is_too_many cuts.now }
{
    cuts.iter().any(|cut| matches!(cut, Err(CutError::TooMany)))
}

fn are_too_many(cuts: &[Cut<'_>]) -> bool
    ensures { result ≡ nat_lt MAX_MESSAGES (length (objects_of cuts.now)) }
{
    let mut room = MAX_MESSAGES;
    for cut in cuts {
        if let Ok(document) = cut {
            let count = document.pieces().len();
            if count > room {
                return true;
            }
            room -= count;
        }
    }
    false
}

fn read_all(alloc: Global, cuts: &[Cut<'_>]) -> Result<Vec<Message>, MessageError>
    ensures messages { IfOk result (λ ms. all_messages (objects_of cuts.now) ≡ Some ms.items) }
    ensures no_channel { IsErrOf result MessageError.NoChannel
        → all_messages (objects_of cuts.now) ≡ None }
{
    let mut messages = Vec::new(alloc);
    for cut in cuts {
        if let Err(error) = read_cut(alloc, cut, &mut messages) {
            return Err(error);
        }
    }
    Ok(messages)
}

// Appends the messages of a document without an error.
//
// On error, earlier ones may be appended.
fn read_cut(alloc: Global, cut: &Cut<'_>, messages: &mut Vec<Message>) -> Result<(), MessageError>
    ensures added { OnOk result (option_map (λ ms. messages.old.items ++ ms)
        (all_messages (objects_in cut.now)) ≡ Some messages.new.items) }
    ensures no_channel { IsErrOf result MessageError.NoChannel
        → all_messages (objects_in cut.now) ≡ None }
{
    let Ok(document) = cut else {
        return Ok(());
    };
    for piece in document.pieces() {
        messages.push(Message::read(alloc, piece)?)?;
    }
    Ok(())
}
