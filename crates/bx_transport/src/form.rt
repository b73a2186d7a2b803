ghost use Rattle.std.specs.Prelude.{◌≡◌, ◌++◌, ◌∷◌, [], IfOk, OnOk, map, option_map, position, codes, string_bytes};
ghost use Rattle.std.specs.List.{before_first};
ghost use Rattle.std.specs.Cow.{cow_str_bytes};
ghost use Rattle.bx_transport.specs.Forms.{has_media_type, is_form, is_semicolon, last_of, latest, media_type_of, text_of, values_among, values_of};

use form_urlencoded::{decode, raw_pairs};
use std::alloc::{AllocError, Global};
use std::borrow::CowStr;

const FORM_TYPE: &[u8] = b"application/x-www-form-urlencoded";

pub(crate) fn is_form(content_type: Option<&[u8]>) -> bool
    ensures { result ≡ is_form (option_map (λ t. t.now) content_type.entry) }
{
    has_media_type(content_type, FORM_TYPE)
}

/// Returns `true` if `content_type` is `name`, in any letter case, and with any parameters.
pub fn has_media_type(content_type: Option<&[u8]>, name: &[u8]) -> bool
    ensures { result ≡ has_media_type name.now (option_map (λ t. t.now) content_type.entry) }
{
    match content_type {
        Some(content_type) => media_type(content_type).eq_ignore_ascii_case(name),
        None => false,
    }
}

// Returns the media type, without parameters and surrounding whitespace.
fn media_type(content_type: &[u8]) -> &[u8]
    ensures { result.now ≡ media_type_of content_type.now }
{
    before_parameters(content_type).trim_ascii()
}

fn before_parameters(content_type: &[u8]) -> &[u8]
    ensures { result.now ≡ before_first is_semicolon content_type.now }
{
    match semicolon_in(content_type) {
        Some(end) => &content_type[..end],
        None => content_type,
    }
}

fn semicolon_in(content_type: &[u8]) -> Option<usize>
    ensures { result ≡ position is_semicolon content_type.now }
{
    content_type.iter().position(|byte| *byte == b';')
}

// The parameters that the server knows.
#[derive(Drop)]
pub(crate) struct Parameters {
    // The values of all parameters `message`, in order.
    pub(crate) documents: Vec<String>,
    // The value of the last parameter `jsonp`.
    pub(crate) callback: Option<String>,
}

// Parses the parameters of a form or a query.
pub(crate) fn read_parameters(alloc: Global, form: &[u8]) -> Result<Parameters, AllocError>
    ensures documents { IfOk result (λ p. map string_bytes p.documents.items
        ≡ values_of (codes "message") form.now) }
    ensures callback { IfOk result (λ p. option_map string_bytes p.callback
        ≡ last_of (values_of (codes "jsonp") form.now)) }
{
    let mut parameters = Parameters {
        documents: Vec::new(alloc),
        callback: None,
    };
    for (name, value) in raw_pairs(form) {
        add_parameter(alloc, &mut parameters, name, value)?;
    }
    Ok(parameters)
}

fn add_parameter(
    alloc: Global,
    parameters: &mut Parameters,
    name: &[u8],
    value: &[u8],
) -> Result<(), AllocError>
    ensures documents { OnOk result (map string_bytes parameters.new.documents.items
        ≡ map string_bytes parameters.old.documents.items
        ++ values_among (codes "message") ((name.now, value.now) ∷ [])) }
    ensures callback { OnOk result (option_map string_bytes parameters.new.callback
        ≡ latest (option_map string_bytes parameters.old.callback)
        (values_among (codes "jsonp") ((name.now, value.now) ∷ []))) }
{
    let name = read_text(alloc, name)?;
    if name.as_str() == "message" {
        let document = read_text(alloc, value)?.into_owned(alloc)?;
        parameters.documents.push(document)?;
    } else if name.as_str() == "jsonp" {
        parameters.callback = Some(read_text(alloc, value)?.into_owned(alloc)?);
    }
    Ok(())
}

// Bytes that are not UTF-8 become U+FFFD.
fn read_text(alloc: Global, encoded: &[u8]) -> Result<CowStr<'_>, AllocError>
    ensures { IfOk result (λ text. cow_str_bytes text ≡ text_of encoded.now) }
{
    decode(alloc, encoded)
}
