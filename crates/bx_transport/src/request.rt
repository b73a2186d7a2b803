ghost use Rattle.std.specs.Prelude.{◌≡◌, ◌≢◌, IfOk, IfErr, Ok, Err, option_map, string_bytes};
ghost use Rattle.bx_cut.specs.Bodies.{texts_of};
ghost use Rattle.bx_transport.specs.Transports.{post_taken, get_taken};

use crate::callback::{DEFAULT_CALLBACK, is_callback};
use crate::error::TransportError;
use crate::form::{Parameters, is_form, read_parameters};
use bx_advice::BODY_LIMIT;
use bx_cut::Bodies;
use std::alloc::Global;

/// Returns the documents of a POST.
///
/// `content_type`: the header's value. If it is `application/x-www-form-urlencoded`, the documents
/// are the values of the form's parameters `message`, in order. Otherwise the body is the document.
///
/// Bayeux 1.0, long-polling. The media types are a policy of this server.
///
/// # Errors
///
/// `TooLarge`, `Memory`, or `NoMessage` for a form, in this order.
///
/// # Examples
///
/// ```
/// let content_type = Some(b"application/x-www-form-urlencoded".as_slice());
/// let body = b"message=%5B%5D&message=%7B%7D".to_vec(alloc)?;
/// let bodies = read_post(alloc, content_type, body)?;
/// assert_eq!(rt; bodies.len(), 2);
/// assert_eq!(rt; bodies.get(0), b"[]".as_slice());
/// assert_eq!(rt; bodies.get(1), b"{}".as_slice());
/// ```
pub fn read_post(
    alloc: Global,
    content_type: Option<&[u8]>,
    body: Vec<u8>,
) -> Result<Bodies, TransportError>
    ensures ok { IfOk result (λ bodies.
        post_taken (option_map (λ t. t.now) content_type.entry) body.items ≡ Ok (texts_of bodies)) }
    ensures fault { IfErr result (λ e. e ≢ TransportError.Memory
        → post_taken (option_map (λ t. t.now) content_type.entry) body.items ≡ Err e) }
{
    if body.len() > BODY_LIMIT {
        return Err(TransportError::TooLarge);
    }
    if !is_form(content_type) {
        return Ok(Bodies::Whole(body));
    }
    let Parameters { documents, .. } = read_parameters(alloc, body.as_slice())?;
    if documents.is_empty() {
        return Err(TransportError::NoMessage);
    }
    Ok(Bodies::Decoded(documents))
}

/// Returns the callback's name and the documents of a GET.
///
/// `query`: the part of the target after the question mark.
///
/// The name is the value of the last parameter `jsonp`, or `jsonpcallback`. It must have 1 to 256
/// ASCII letters, digits, or characters of `_ $ . - [ ]`. The documents are the values of the
/// parameters `message`, in order.
///
/// Bayeux 1.0, callback-polling. Which names are valid is a policy of this server.
///
/// # Errors
///
/// `TooLarge`, `Memory`, `BadName` or `NoMessage`, in this order.
pub fn read_get(alloc: Global, query: &[u8]) -> Result<(String, Bodies), TransportError>
    ensures ok { IfOk result (λ taken. get_taken query.now ≡ Ok (string_bytes taken.0, texts_of taken.1)) }
    ensures fault { IfErr result (λ e. e ≢ TransportError.Memory → get_taken query.now ≡ Err e) }
{
    if query.len() > BODY_LIMIT {
        return Err(TransportError::TooLarge);
    }
    let Parameters {
        documents,
        callback,
    } = read_parameters(alloc, query)?;
    let name = match callback {
        Some(name) => name,
        None => String::from_str(alloc, DEFAULT_CALLBACK)?,
    };
    if !is_callback(name.as_str()) {
        return Err(TransportError::BadName);
    }
    if documents.is_empty() {
        return Err(TransportError::NoMessage);
    }
    Ok((name, Bodies::Decoded(documents)))
}
