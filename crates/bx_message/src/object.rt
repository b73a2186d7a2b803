ghost use Rattle.std.specs.Prelude.{◌≡◌, [], ◌∷◌, ◌++◌, IfOk, OnOk, decimal, true};
ghost use Rattle.std.specs.List.{list_all};
ghost use Rattle.json.specs.Run.{is_plain};
ghost use Rattle.json.specs.Print.{quoted};
ghost use Rattle.bx_message.specs.Objects.{opened, closed, resumed, with_name, with_member, name_text};
ghost use Rattle.bx_message.specs.Texts.{member};

use crate::text::Text;
use itoa::Buffer;
use json::Writer;
use std::alloc::AllocError;
use std::marker::Model;

/// The name of a member of the JSON objects that this server writes, there in `camelCase`.
#[derive(Clone, Copy, Debug)]
pub enum Name {
    Ack,
    Advice,
    Channel,
    ClientId,
    Data,
    Error,
    Ext,
    Id,
    Interval,
    Reconnect,
    Subscription,
    Successful,
    SupportedConnectionTypes,
    Timeout,
    Version,
}

impl Name {
    #[tactic(auto, unfolding(json::specs::Print::escape_byte))]
    fn lead(self) -> &'static str
        ensures { result.now ≡ 44 ∷ (quoted (name_text self) ++ 58 ∷ []) }
    {
        match self {
            Name::Ack => ",\"ack\":",
            Name::Advice => ",\"advice\":",
            Name::Channel => ",\"channel\":",
            Name::ClientId => ",\"clientId\":",
            Name::Data => ",\"data\":",
            Name::Error => ",\"error\":",
            Name::Ext => ",\"ext\":",
            Name::Id => ",\"id\":",
            Name::Interval => ",\"interval\":",
            Name::Reconnect => ",\"reconnect\":",
            Name::Subscription => ",\"subscription\":",
            Name::Successful => ",\"successful\":",
            Name::SupportedConnectionTypes => ",\"supportedConnectionTypes\":",
            Name::Timeout => ",\"timeout\":",
            Name::Version => ",\"version\":",
        }
    }
}

/// A writer that appends one JSON object to a buffer, without whitespace.
///
/// If memory runs out, the member or object that was being written may be incomplete.
#[derive(Drop)]
pub struct ObjectWriter {
    out: Vec<u8>,
    is_empty: bool,
}

impl Model for ObjectWriter {
    ghost use Rattle.bx_message.specs.Objects.{OpenObject, open_object_code};

    ghost Value = { OpenObject };

    ghost coded = { open_object_code };

    ghost view = { λ w. record { text = w.out.items; is_empty = w.is_empty } };
}

impl ObjectWriter {
    /// Begins an object at the end of `out`, which is dropped if memory runs out.
    pub fn begin(mut out: Vec<u8>) -> Result<ObjectWriter, AllocError>
        ensures { IfOk result (λ w. w ≡ opened out.items) }
    {
        out.push(b'{')?;
        Ok(ObjectWriter {
            out,
            is_empty: true,
        })
    }

    /// Ends the object and returns the buffer, which is dropped if memory runs out.
    pub fn end(self) -> Result<Vec<u8>, AllocError>
        ensures { IfOk result (λ out. out.items ≡ closed self) }
    {
        let ObjectWriter { mut out, .. } = self;
        out.push(b'}')?;
        Ok(out)
    }

    /// Begins a nested object as the value of member `name`.
    pub fn open(&mut self, name: Name) -> Result<(), AllocError>
        ensures { OnOk result (self.new ≡ opened (with_name self.old (name_text name))) }
    {
        self.name(name)?;
        self.out.push(b'{')?;
        self.is_empty = true;
        Ok(())
    }

    /// Ends the object that [`open`](Self::open) began, and returns to the outer one.
    pub fn close(&mut self) -> Result<(), AllocError>
        ensures { OnOk result (self.new ≡ resumed (closed self.old)) }
    {
        self.out.push(b'}')?;
        self.is_empty = false;
        Ok(())
    }

    /// Appends member `name` with `json`, the text of a JSON value.
    pub fn raw(&mut self, name: Name, json: &str) -> Result<(), AllocError>
        ensures { OnOk result (self.new ≡ with_member self.old (member (name_text name) json.now)) }
    {
        self.name(name)?;
        self.out.extend_from_slice(json.as_bytes())
    }

    /// Appends member `name` with the string `text`, with escapes if it needs them.
    pub fn text(&mut self, name: Name, text: &Text) -> Result<(), AllocError>
        ensures { OnOk result (self.new
            ≡ with_member self.old (member (name_text name) (quoted text.now))) }
    {
        self.name(name)?;
        if text.is_plain() {
            push_plain(&mut self.out, text.as_str())
        } else {
            push_escaped(&mut self.out, text.as_str())
        }
    }

    /// Appends member `name` with the string `word`, which must need no escapes.
    pub fn word(&mut self, name: Name, word: &str) -> Result<(), AllocError>
        requires { list_all is_plain word.now ≡ true }
        ensures { OnOk result (self.new
            ≡ with_member self.old (member (name_text name) (quoted word.now))) }
    {
        self.name(name)?;
        push_plain(&mut self.out, word)
    }

    /// Appends member `name` with the number `n`, in decimal digits.
    pub fn number(&mut self, name: Name, n: u64) -> Result<(), AllocError>
        ensures { OnOk result (self.new ≡ with_member self.old (member (name_text name) (decimal n))) }
    {
        self.name(name)?;
        push_number(&mut self.out, n)
    }

    // Appends a comma, except in an empty object, then `name`, quoted, and a colon.
    fn name(&mut self, name: Name) -> Result<(), AllocError>
        ensures { OnOk result (self.new ≡ resumed (with_name self.old (name_text name))) }
    {
        let lead = name.lead().as_bytes();
        if self.is_empty {
            self.out.extend_from_slice(&lead[1..])?;
        } else {
            self.out.extend_from_slice(lead)?;
        }
        self.is_empty = false;
        Ok(())
    }
}

#[tactic(auto, using(crate::proofs::ObjectLemmas::plain_pushed))]
fn push_plain(out: &mut Vec<u8>, text: &str) -> Result<(), AllocError>
    requires { list_all is_plain text.now ≡ true }
    ensures { OnOk result (out.new.items ≡ out.old.items ++ quoted text.now) }
{
    out.push(b'"')?;
    out.extend_from_slice(text.as_bytes())?;
    out.push(b'"')?;
    Ok(())
}

// Appends the string `text`, quoted and with escapes.
//
// It is first written to a new buffer, because `Writer` initializes much spare room of its buffer.
fn push_escaped(out: &mut Vec<u8>, text: &str) -> Result<(), AllocError>
    ensures { OnOk result (out.new.items ≡ out.old.items ++ quoted text.now) }
{
    let mut writer = Writer::new(Vec::new(*out.allocator()));
    writer.string(text)?;
    out.extend_from_slice(writer.into_inner().as_slice())
}

fn push_number(out: &mut Vec<u8>, n: u64) -> Result<(), AllocError>
    ensures { OnOk result (out.new.items ≡ out.old.items ++ decimal n) }
{
    let mut buffer = Buffer::new();
    out.extend_from_slice(buffer.format(n).as_bytes())
}
