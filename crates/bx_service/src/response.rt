ghost use Rattle.std.specs.Prelude.{◌≡◌, ◌⊎◌, IfOk, option_map};
ghost use Rattle.bx_service.specs.Responses.{allowed_methods, IsAnswer, IsRefusal, leaves_body, needed_fields, refusal_fields};

use crate::error::{RequestError, code_of};
use bx_message::Item;
use bx_pieces::Pieces;
use bx_transport::TransportError;
use bytes::Bytes;
use http::header::{ALLOW, CONNECTION, CONTENT_TYPE, HeaderName, HeaderValue};
use http::{HeaderMap, Response};
use std::alloc::{AllocError, Global};

/// Creates a response with the status of `error` and no body.
///
/// It has a field `Allow` if the status is 405, and `Connection: close` if the request's body may
/// not have been read. The reason is in a field `bayeux-error`, unless memory runs out for it.
pub(crate) fn refusal(
    alloc: Global,
    error: RequestError,
) -> Result<Response<Pieces<Bytes>>, AllocError>
    ensures { IfOk result (IsRefusal error) }
{
    let fields = refusal_fields(alloc, error)?;
    let mut response = Response::new(alloc, Pieces::none(alloc));
    *response.status_mut() = code_of(error.status());
    *response.headers_mut() = fields;
    Ok(response)
}

fn refusal_fields(alloc: Global, error: RequestError) -> Result<HeaderMap, AllocError>
    ensures { IfOk result (λ fields. (fields ≡ refusal_fields error) ⊎ (fields ≡ needed_fields error)) }
{
    let mut fields = needed_fields(alloc, error)?;
    let name = HeaderName::from_static("bayeux-error");
    let reason = HeaderValue::from_static(error.reason());
    match fields.insert(name, reason) {
        Ok(_) => Ok(fields),
        Err(_) => Ok(fields),
    }
}

fn needed_fields(alloc: Global, error: RequestError) -> Result<HeaderMap, AllocError>
    ensures { IfOk result (λ fields. fields ≡ needed_fields error) }
{
    let mut fields = allowed_methods(alloc, error)?;
    if leaves_body(error) {
        let close = HeaderValue::from_static("close");
        if fields.insert(CONNECTION, close).is_err() {
            return Err(AllocError);
        }
    }
    Ok(fields)
}

fn allowed_methods(alloc: Global, error: RequestError) -> Result<HeaderMap, AllocError>
    ensures { IfOk result (λ fields. fields ≡ allowed_methods error) }
{
    let mut fields = HeaderMap::new(alloc);
    if error == RequestError::MethodNotAllowed {
        let methods = HeaderValue::from_static("GET, POST");
        if fields.insert(ALLOW, methods).is_err() {
            return Err(AllocError);
        }
    }
    Ok(fields)
}

// The server does not read on after these errors. A client that sends the next request over the
// same connection would lose it.
fn leaves_body(error: RequestError) -> bool
    ensures { result ≡ leaves_body error }
{
    matches!(
        error,
        RequestError::NotFound
            | RequestError::MethodNotAllowed
            | RequestError::TransferCoding
            | RequestError::MediaType
            | RequestError::Unreadable(TransportError::TooLarge)
    )
}

/// Creates a response with status 200 and `items`, as JSON, or as a script that calls `callback`.
pub(crate) fn answer(
    alloc: Global,
    callback: Option<&str>,
    items: &[Item],
) -> Result<Response<Pieces<Bytes>>, AllocError>
    ensures { IfOk result (IsAnswer (option_map (λ name. name.now) callback.entry) items.now) }
{
    let kind = HeaderValue::from_static(match callback {
        Some(_) => "application/javascript;charset=UTF-8",
        None => "application/json;charset=UTF-8",
    });
    let mut response = Response::new(alloc, Pieces::answer(alloc, callback, items)?);
    if response.headers_mut().insert(CONTENT_TYPE, kind).is_err() {
        return Err(AllocError);
    }
    Ok(response)
}
