ghost use Rattle.std.specs.Prelude.{◌≡◌, ◌<◌, length, Some, option_map, option_and_then, IsSome, IfSome};
ghost use Rattle.std.specs.Iterator.{YieldsFirstRef, item_count};
ghost use Rattle.serde_json.specs.Data.{Data};
ghost use Rattle.serde_json.specs.Find.{get};
ghost use Rattle.serde_json.specs.Read.{read};
ghost use Rattle.bx_cut.specs.Cut.{past_blank, past_byte, split_value, split_member, IsRest};
ghost use Rattle.bx_cut.specs.Laws.{IsBare, AreElementsOf};
ghost use Rattle.bx_cut.specs.Pieces.{elements, member_text};
ghost use Rattle.bx_cut.specs.Views.{member_view};

use crate::scan::{after_first, begins_with, blank_len, value_len};
use crate::string::spells;
use std::marker::Model;

#[derive(Clone, Copy, Debug, Drop)]
pub(crate) struct Member<'a> {
    // With its quotes.
    pub(crate) key: &'a str,
    pub(crate) value: &'a str,
}

pub(crate) fn past_blank(text: &str) -> &str
    ensures value { result.now ≡ past_blank text.now }
    ensures rest { IsRest result.now text.now }
{
    text.split_at(blank_len(text)).1
}

// Returns the rest of `text` after whitespace and then `byte`, if it begins with these.
pub(crate) fn past(text: &str, byte: u8) -> Option<&str>
    requires { byte < 128 }
    ensures value { option_map (λ rest. rest.now) result ≡ past_byte byte text.now }
    ensures rest { IfSome result (λ rest. IsRest rest.now text.now) }
    ensures shorter { IfSome result (λ rest. length rest.now < length text.now) }
{
    after_first(past_blank(text), byte)
}

// Splits `text` into its first value, which may follow whitespace, and the rest.
#[tactic(auto, unfolding(crate::specs::Cut::split_value))]
fn split_value(text: &str) -> Option<(&str, &str)>
    ensures value { option_map (λ parts. (parts.0.now, parts.1.now)) result
        ≡ split_value text.now }
    ensures rest { IfSome result (λ parts. IsRest parts.1.now text.now) }
    ensures shorter { IfSome result (λ parts. length parts.1.now < length text.now) }
{
    let text = past_blank(text);
    let len = value_len(text);
    if len == 0 {
        None
    } else {
        Some(text.split_at(len))
    }
}

// Splits `text` into its first member, which may follow whitespace, and the rest.
#[tactic(auto, unfolding(crate::specs::Cut::split_member))]
pub(crate) fn split_member(text: &str) -> Option<(Member<'_>, &str)>
    ensures value { option_map (λ parts. (member_view parts.0, parts.1.now)) result
        ≡ split_member text.now }
    ensures rest { IfSome result (λ parts. IsRest parts.1.now text.now) }
    ensures shorter { IfSome result (λ parts. length parts.1.now < length text.now) }
{
    let (key, rest) = split_value(text)?;
    if !begins_with(key, b'"') {
        return None;
    }
    let (value, rest) = split_value(past(rest, b':')?)?;
    Some((Member { key, value }, rest))
}

/// Returns the text of the value of member `name`, if `object` has that member.
///
/// `object`: any JSON value. Keys are compared after unescaping. Of equal keys, the last counts.
pub fn member_of<'a>(object: &'a str, name: &str) -> Option<&'a str>
    ensures value { option_map (λ value. value.now) result ≡ member_text name.now object.now }
    ensures reads { (d : Data) → read object.now ≡ Some d
        → option_and_then read (option_map (λ value. value.now) result) ≡ get name.now d }
    ensures bare { IsSome (read object.now) → IfSome result (λ value. IsBare value.now) }
{
    let mut rest = past(object, b'{')?;
    let mut found = None;
    while let Some((member, after)) = split_member(rest) {
        if spells(member.key, name) {
            found = Some(member.value);
        }
        let Some(next) = past(after, b',') else {
            return found;
        };
        rest = next;
    }
    found
}

/// An iterator over the texts of an array's elements, without surrounding whitespace.
#[derive(Debug, Drop)]
pub struct Elements<'a> {
    rest: &'a str,
}

impl<'a> Model for Elements<'a> {
    ghost use Rattle.std.specs.Prelude.{ℕ, List};
    ghost use Rattle.bx_cut.specs.Cut.{split_value, listed};

    ghost Value = { List (List ℕ) };

    ghost view = { λ elements. (listed split_value elements.rest.now).0 };
}

/// Iterates over the texts of the elements of `array`, the text of a JSON value.
pub fn elements_of(array: &str) -> Elements<'_>
    ensures value { result ≡ elements array.now }
    ensures reads { (d : Data) → read array.now ≡ Some d → AreElementsOf result d }
{
    Elements {
        rest: past(array, b'[').unwrap_or(""),
    }
}

impl<'a> Iterator for Elements<'a> {
    type Item = &'a str;

    ghost next_gives = { YieldsFirstRef (λ elements. elements) };

    ghost remaining = { item_count (λ elements. elements) };

    fn next(&mut self) -> Option<&'a str> {
        let (element, after) = split_value(self.rest)?;
        self.rest = past(after, b',').unwrap_or("");
        Some(element)
    }
}
