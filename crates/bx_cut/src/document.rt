ghost use Rattle.std.specs.Prelude.{◌≡◌, ◌≢◌, ◌<◌, length, map, option_map, is_some, IfOk, IfErr, OnOk, IfSome, Some, None};
ghost use Rattle.std.specs.List.{list_all};
ghost use Rattle.serde_json.specs.Data.{Data};
ghost use Rattle.serde_json.specs.Find.{as_object};
ghost use Rattle.serde_json.specs.Read.{read};
ghost use Rattle.serde_json.specs.View.{view};
ghost use Rattle.bx_cut.specs.Cut.{IsRest, listed, split_member};
ghost use Rattle.bx_cut.specs.Faults.{fault, value_fault};
ghost use Rattle.bx_cut.specs.Laws.{ArePiecesOf, LieIn};
ghost use Rattle.bx_cut.specs.Pieces.{last_member, pieces, split_object};
ghost use Rattle.bx_cut.specs.Views.{member_view};

use crate::error::CutError;
use crate::scan::after_first;
use crate::split::{Member, past, past_blank, split_member};
use crate::string::spells;
use serde_json::Value;
use std::alloc::{AllocError, Global};
use std::marker::Model;

/// The maximum number of messages in all documents of a request together.
///
/// Policy of this server.
pub const MAX_MESSAGES: usize = 256;

/// A JSON document, split into messages that borrow its text.
#[derive(Debug, Drop)]
pub struct Document<'a> {
    pieces: Vec<Piece<'a>>,
}

/// A message: the part of a document that is one JSON object, without surrounding whitespace.
///
/// Model: its text, and pairs of a quoted key and the text of a value.
#[derive(Debug, Drop)]
pub struct Piece<'a> {
    text: &'a str,
    members: Vec<Member<'a>>,
}

impl<'a> Model for Piece<'a> {
    ghost use Rattle.std.specs.Prelude.{ℕ, List, map};
    ghost use Rattle.bx_cut.specs.Views.{member_view};

    ghost Value = { List ℕ × List (List ℕ × List ℕ) };

    ghost view = { λ piece. (piece.text.now, map member_view piece.members.items) };
}

impl<'a> Model for Document<'a> {
    ghost use Rattle.std.specs.Prelude.{ℕ, List};

    ghost Value = { List (List ℕ × List (List ℕ × List ℕ)) };

    ghost view = { λ document. document.pieces.items };
}

impl<'a> Document<'a> {
    /// Parses a document and splits it into messages: its object, or the objects of its array.
    ///
    /// # Errors
    ///
    /// The first of `NotJson`, `NotObject` and `TooMany` that applies, or `Memory`.
    ///
    /// # Examples
    ///
    /// ```
    /// let document = Document::read(alloc, br#"[{"channel":"/chat/hall","data":1}]"#)?;
    /// let message = document.pieces().first().ok_or("no message")?;
    /// assert_eq!(rt; document.pieces().len(), 1);
    /// assert_eq!(rt; message.member("channel"), Some(r#""/chat/hall""#));
    /// assert_eq!(rt; message.member("id"), None);
    /// ```
    pub fn read(alloc: Global, body: &'a [u8]) -> Result<Document<'a>, CutError>
        ensures ok { OnOk result (fault body.now ≡ None) }
        ensures fault { IfErr result (λ e. e ≢ CutError.Memory → fault body.now ≡ Some e) }
        ensures pieces { IfOk result (λ document. document ≡ pieces body.now) }

        // Each message parses as its object in the document, and has the same members.
        ensures reads { IfOk result (λ document. (d : Data) → read body.now ≡ Some d
            → ArePiecesOf document d) }
        ensures order { IfOk result (λ document. LieIn document body.now) }
    {
        let Ok(text) = std::str::from_utf8(body) else {
            return Err(CutError::NotJson);
        };
        check(alloc, text)?;
        Ok(Document {
            pieces: cut(alloc, text)?,
        })
    }

    /// Returns the messages in order.
    pub fn pieces(&self) -> &[Piece<'a>]
        ensures { result.now ≡ self.now }
    {
        &self.pieces
    }
}

impl<'a> Piece<'a> {
    /// Returns the text, as the sender wrote it.
    pub fn text(&self) -> &'a str
        ensures { result.now ≡ self.now.0 }
    {
        self.text
    }

    /// Returns the text of the value of member `name`, if any. Does not allocate.
    ///
    /// Keys are compared after unescaping. Of equal keys, the last counts.
    pub fn member(&self, name: &str) -> Option<&'a str>
        ensures { option_map (λ value. value.now) result ≡ last_member name.now self.now.1 }
    {
        let mut found = None;
        for member in &self.members {
            if spells(member.key, name) {
                found = Some(member.value);
            }
        }
        found
    }
}

fn check(alloc: Global, text: &str) -> Result<(), CutError>
    ensures ok { OnOk result (value_fault (read text.now) ≡ None) }
    ensures fault { IfErr result (λ e. e ≢ CutError.Memory
        → value_fault (read text.now) ≡ Some e) }
{
    let value = match Value::from_str(alloc, text) {
        Ok(value) => value,
        Err(error) if error.is_memory() => return Err(CutError::Memory),
        Err(_) => return Err(CutError::NotJson),
    };
    match fault_of(&value) {
        None => Ok(()),
        Some(fault) => Err(fault),
    }
}

#[tactic(auto, using(crate::proofs::Checks::faults))]
fn fault_of(value: &Value) -> Option<CutError>
    ensures { result ≡ value_fault (Some (view value.now)) }
{
    if value.is_object() {
        return None;
    }
    let Some(items) = value.as_array() else {
        return Some(CutError::NotObject);
    };
    if !are_objects(items) {
        return Some(CutError::NotObject);
    }
    if items.len() > MAX_MESSAGES {
        return Some(CutError::TooMany);
    }
    None
}

fn are_objects(items: &[Value]) -> bool
    ensures { result ≡ list_all (λ item. is_some (as_object (view item))) items.now }
{
    items.iter().all(|item| item.is_object())
}

fn cut(alloc: Global, text: &str) -> Result<Vec<Piece<'_>>, AllocError>
    ensures { IfOk result (λ found. found.items ≡ pieces text.now) }
{
    let mut pieces = Vec::new(alloc);
    let Some(mut rest) = past(text, b'[') else {
        if let Some((piece, _)) = split_object(alloc, text)? {
            pieces.push(piece)?;
        }
        return Ok(pieces);
    };
    while let Some((piece, after)) = split_object(alloc, rest)? {
        pieces.push(piece)?;
        let Some(next) = past(after, b',') else {
            return Ok(pieces);
        };
        rest = next;
    }
    Ok(pieces)
}

// Splits `text` into its first object, which may follow whitespace, and the rest.
fn split_object<'a>(
    alloc: Global,
    text: &'a str,
) -> Result<Option<(Piece<'a>, &'a str)>, AllocError>
    ensures value { IfOk result (λ parts. option_map (λ p. (p.0, p.1.now)) parts ≡ split_object text.now) }
    ensures shorter { IfOk result (λ parts. IfSome parts (λ p. length p.1.now < length text.now)) }
{
    let text = past_blank(text);
    let Some(inside) = after_first(text, b'{') else {
        return Ok(None);
    };
    let (members, rest) = split_members(alloc, inside)?;
    let Some(after) = past(rest, b'}') else {
        return Ok(None);
    };
    let (text, _) = text.split_at(text.len() - after.len());
    Ok(Some((Piece { text, members }, after)))
}

// Returns the members of an object, and the rest of `text`, which begins after the opening brace.
fn split_members<'a>(alloc: Global, text: &'a str) -> Result<(Vec<Member<'a>>, &'a str), AllocError>
    ensures value { IfOk result (λ parts. (map member_view parts.0.items, parts.1.now)
        ≡ listed split_member text.now) }
    ensures rest { IfOk result (λ parts. IsRest parts.1.now text.now) }
{
    let mut members = Vec::new(alloc);
    let mut rest = text;
    while let Some((member, after)) = split_member(rest) {
        members.push(member)?;
        let Some(next) = past(after, b',') else {
            return Ok((members, after));
        };
        rest = next;
    }
    Ok((members, rest))
}
