ghost use Rattle.std.specs.Prelude.{◌≡◌, IfOk, codes, string_bytes, true};
ghost use Rattle.std.specs.List.{list_all};
ghost use Rattle.json.specs.Run.{is_plain};

use std::alloc::{AllocError, Global};
use std::marker::Model;
use std::sync::ArcStr;

#[derive(Drop)]
enum Stored {
    // In memory that the text shares with its clones.
    Shared(ArcStr),
    // `/meta/connect`, the channel of connects, which is stored in the program itself.
    Connect,
}

/// An immutable text in UTF-8 that shares its bytes with its clones.
#[derive(Drop)]
pub struct Text {
    stored: Stored,
    // Whether the text needs no escapes in JSON. It is computed only once, because an event's
    // channel is written for each session that gets the event.
    plain: bool,
}

impl Model for Text {
    ghost use Rattle.std.specs.Prelude.{◌≡◌, List, ℕ};
    ghost use Rattle.std.specs.List.{list_all};
    ghost use Rattle.json.specs.Run.{is_plain};
    ghost use Rattle.bx_message.specs.Stored.{stored_bytes};

    ghost Value = { List ℕ };

    ghost view = { λ t. stored_bytes t.stored };

    ghost invariant = { λ t. t.plain ≡ list_all is_plain (stored_bytes t.stored) };
}

impl Text {
    /// Creates a text with a copy of `text`.
    pub fn new(alloc: Global, text: &str) -> Result<Text, AllocError>
        ensures { IfOk result (λ t. t ≡ text.now) }
    {
        let plain = needs_no_escape(text);
        let text = ArcStr::from_str(alloc, text)?;
        let stored = Stored::Shared(text);
        Ok(Text { stored, plain })
    }

    // Creates a text with a copy of `text`, which must need no escapes in JSON.
    pub(crate) fn plain(alloc: Global, text: &str) -> Result<Text, AllocError>
        requires { list_all is_plain text.now ≡ true }
        ensures { IfOk result (λ t. t ≡ text.now) }
    {
        let text = ArcStr::from_str(alloc, text)?;
        let stored = Stored::Shared(text);
        Ok(Text {
            stored,
            plain: true,
        })
    }

    /// Returns the channel of connects, `/meta/connect`, without allocating.
    pub fn connect_channel() -> Text
        ensures { result ≡ codes "/meta/connect" }
    {
        Text {
            stored: Stored::Connect,
            plain: true,
        }
    }

    /// Converts a string without copying its bytes.
    pub fn from_string(text: String) -> Result<Text, AllocError>
        ensures { IfOk result (λ t. t ≡ string_bytes text) }
    {
        let plain = needs_no_escape(text.as_str());
        let text = ArcStr::from_string(text)?;
        let stored = Stored::Shared(text);
        Ok(Text { stored, plain })
    }

    /// Returns the text.
    pub fn as_str(&self) -> &str
        ensures { result.now ≡ self.now }
    {
        match &self.stored {
            Stored::Shared(text) => text.as_str(),
            Stored::Connect => "/meta/connect",
        }
    }

    pub(crate) fn is_plain(&self) -> bool
        ensures { result ≡ list_all is_plain self.now }
    {
        self.plain
    }
}

// It needs none if it has no quotation mark, no backslash and no byte below 32.
fn needs_no_escape(text: &str) -> bool
    ensures { result ≡ list_all is_plain text.now }
{
    text.as_bytes()
        .iter()
        .all(|byte| *byte != b'"' && *byte != b'\\' && *byte >= b' ')
}

impl Clone for Text {
    ghost is_clone = { λ old copy. copy ≡ old };

    fn clone(&self) -> Result<Text, AllocError> {
        let stored = match &self.stored {
            Stored::Shared(text) => Stored::Shared(text.clone()?),
            Stored::Connect => Stored::Connect,
        };
        Ok(Text {
            stored,
            plain: self.plain,
        })
    }
}

/// The text of a JSON value, as its sender wrote it.
///
/// Its clones share its bytes. It is not checked that the text is JSON.
#[derive(Drop)]
pub struct RawJson {
    json: ArcStr,
}

impl Model for RawJson {
    ghost use Rattle.std.specs.Prelude.{List, ℕ};
    ghost use Rattle.std.specs.Arc.{arc_str_bytes};

    ghost Value = { List ℕ };

    ghost view = { λ j. arc_str_bytes j.json };
}

impl RawJson {
    /// Creates a copy of `json`, which should be the text of a JSON value.
    pub fn new(alloc: Global, json: &str) -> Result<RawJson, AllocError>
        ensures { IfOk result (λ j. j ≡ json.now) }
    {
        let json = ArcStr::from_str(alloc, json)?;
        Ok(RawJson { json })
    }

    /// Returns the text.
    pub fn as_str(&self) -> &str
        ensures { result.now ≡ self.now }
    {
        self.json.as_str()
    }
}

impl Clone for RawJson {
    ghost is_clone = { λ old copy. copy ≡ old };

    fn clone(&self) -> Result<RawJson, AllocError> {
        let json = self.json.clone()?;
        Ok(RawJson { json })
    }
}
