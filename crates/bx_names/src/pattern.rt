ghost use Rattle.std.specs.Prelude.{◌≡◌, ◌<◌, ◌≤◌, ◌↔◌, None, IsTrue, length, slice_get, IfOk, IfSome, OnOk, IsOkUnless};
ghost use Rattle.bx_names.specs.Segments.{is_path, segments};
ghost use Rattle.bx_names.specs.Globs.{glob_of, glob_text, same_glob};
ghost use Rattle.bx_names.specs.Faults.{pattern_fault, read_pattern};
ghost use Rattle.bx_names.specs.Kinds.{kind_of};

use crate::error::NameError;
use crate::fault::{pattern_fault, split_tail};
use crate::kind::{ChannelKind, kind_of};
use crate::limits::MAX_NAME_SEGMENTS;
use crate::segments::{Segments, segments_of};
use crate::tail::Tail;
use std::alloc::{AllocError, Global};
use std::marker::Model;

/// A pattern of channel names, such as `/a/b`, `/a/*` or `/a/**`.
///
/// Model: its segments without the wildcard, and the wildcard.
///
/// Bayeux 1.0, channel globbing.
#[derive(Debug, Drop)]
pub struct Pattern {
    text: String,
}

impl Model for Pattern {
    ghost use Rattle.std.specs.Prelude.{◌≡◌, None, string_bytes};
    ghost use Rattle.bx_names.specs.Segments.{segments};
    ghost use Rattle.bx_names.specs.Globs.{Glob, glob_of};
    ghost use Rattle.bx_names.specs.Faults.{pattern_fault};

    ghost Value = { Glob };

    ghost view = { λ pattern. glob_of (segments (string_bytes pattern.text)) };

    ghost invariant = { λ pattern. pattern_fault (string_bytes pattern.text) ≡ None };
}

impl Pattern {
    /// Parses a pattern and keeps a copy of `text`.
    ///
    /// # Errors
    ///
    /// The first [`NameError`] that applies. `Memory` occurs only if `text` is a pattern.
    ///
    /// # Examples
    ///
    /// ```
    /// let pattern = Pattern::read(alloc, "/chat/*")?;
    /// let hall = ChannelName::read(alloc, "/chat/hall")?;
    /// let table = ChannelName::read(alloc, "/chat/hall/table")?;
    /// assert!(rt; matches(&pattern, &hall));
    /// assert!(rt; !matches(&pattern, &table));
    /// ```
    pub fn read(alloc: Global, text: &str) -> Result<Pattern, NameError>
        ensures valid { OnOk result (pattern_fault text.now ≡ None) }
        ensures pattern { IfOk result (λ pattern. pattern ≡ glob_of (segments text.now)) }
        ensures fault { IfSome (pattern_fault text.now) (λ fault. result ≡ Err fault) }
        ensures memory { pattern_fault text.now ≡ None → IsOkUnless result NameError.Memory }
        ensures memory_alone { result ≡ Err NameError.Memory → pattern_fault text.now ≡ None }
    {
        match pattern_fault(text) {
            Some(fault) => Err(fault),
            None => Ok(Pattern {
                text: String::from_str(alloc, text)?,
            }),
        }
    }

    /// Returns the text of the pattern.
    #[tactic(auto, using(crate::proofs::FaultLemmas::sound))]
    pub fn as_str(&self) -> &str
        ensures text { result.now ≡ glob_text self.now }
        ensures reads_back { read_pattern result.now ≡ Ok self.now }
    {
        self.text.as_str()
    }

    /// Returns the kind of a channel with the same beginning as the pattern.
    ///
    /// `/**` is `Broadcast`, although it also matches names of other kinds.
    pub fn kind(&self) -> ChannelKind
        ensures { result ≡ kind_of (glob_text self.now) }
    {
        kind_of(self.as_str())
    }

    /// Splits the text into the segments without the wildcard, and the wildcard.
    pub(crate) fn split(&self) -> (&str, Tail)
        ensures path { IsTrue (is_path result.0.now) }
        ensures own { segments result.0.now ≡ self.now.segments }
        ensures tail { result.1 ≡ self.now.tail }
        ensures limit { length self.now.segments ≤ MAX_NAME_SEGMENTS }
    {
        split_tail(self.text.as_str())
    }

    /// Returns the wildcard, or `Exact`.
    pub fn tail(&self) -> Tail
        ensures { result ≡ self.now.tail }
    {
        self.split().1
    }

    /// Returns the segments without the wildcard, at most [`MAX_NAME_SEGMENTS`].
    pub fn segments(&self) -> Segments<'_>
        ensures segments { result ≡ self.now.segments }
        ensures limit { length self.now.segments ≤ MAX_NAME_SEGMENTS }
    {
        segments_of(self.split().0)
    }

    /// Returns the number of segments, without the wildcard.
    pub fn segment_count(&self) -> usize
        ensures { result ≡ length self.now.segments }
    {
        self.segments().count()
    }

    /// Returns segment `k`, counted from 0.
    pub fn segment(&self, k: usize) -> &str
        requires { k < length self.now.segments }
        ensures { slice_get self.now.segments k ≡ Some result.now }
    {
        self.segments().nth(k).unwrap()
    }
}

impl PartialEq for Pattern {
    ghost use Rattle.std.specs.Cmp.{decided, partial_equiv_from_equiv};
    ghost use Rattle.bx_names.specs.Globs.{same_glob};
    ghost use Rattle.bx_names.specs.Equality.{same_glob-decides};

    ghost eq = { same_glob };

    ghost laws = { partial_equiv_from_equiv (decided same_glob same_glob-decides) };

    fn eq(&self, other: &Pattern) -> bool
        ensures same { IsTrue result ↔ (self.now ≡ other.now) }
        ensures test { result ≡ same_glob self.now other.now }
    {
        self.text == other.text
    }
}

impl Clone for Pattern {
    ghost is_clone = { λ pattern copy. copy ≡ pattern };

    fn clone(&self) -> Result<Pattern, AllocError> {
        Ok(Pattern {
            text: self.text.clone()?,
        })
    }
}
