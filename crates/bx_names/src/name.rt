ghost use Rattle.std.specs.Prelude.{◌≡◌, ◌<◌, ◌≤◌, None, length, slice_get, IfOk, IfSome, OnOk, IsOkUnless};
ghost use Rattle.bx_names.specs.Segments.{path_of, segments};
ghost use Rattle.bx_names.specs.Faults.{name_fault, read_name};
ghost use Rattle.bx_names.specs.Kinds.{kind_of};

use crate::error::NameError;
use crate::fault::name_fault;
use crate::kind::{ChannelKind, kind_of};
use crate::limits::MAX_NAME_SEGMENTS;
use crate::segments::{Segments, segments_of};
use std::alloc::{AllocError, Global};
use std::marker::Model;

/// A channel name such as `/a/b`: an absolute path of segments. Bayeux 1.0, channel names.
#[derive(Debug, Drop)]
pub struct ChannelName {
    text: String,
}

impl Model for ChannelName {
    ghost use Rattle.std.specs.Prelude.{◌≡◌, ℕ, List, None, string_bytes};
    ghost use Rattle.bx_names.specs.Segments.{segments};
    ghost use Rattle.bx_names.specs.Faults.{name_fault};

    ghost Value = { List (List ℕ) };

    ghost view = { λ name. segments (string_bytes name.text) };

    ghost invariant = { λ name. name_fault (string_bytes name.text) ≡ None };
}

impl ChannelName {
    /// Parses a channel name and keeps a copy of `text`.
    ///
    /// # Errors
    ///
    /// The first [`NameError`] that applies. `Memory` occurs only if `text` is a channel name.
    pub fn read(alloc: Global, text: &str) -> Result<ChannelName, NameError>
        ensures valid { OnOk result (name_fault text.now ≡ None) }
        ensures segments { IfOk result (λ name. name ≡ segments text.now) }
        ensures fault { IfSome (name_fault text.now) (λ fault. result ≡ Err fault) }
        ensures memory { name_fault text.now ≡ None → IsOkUnless result NameError.Memory }
        ensures memory_alone { result ≡ Err NameError.Memory → name_fault text.now ≡ None }
    {
        match name_fault(text) {
            Some(fault) => Err(fault),
            None => Ok(ChannelName::of_valid(alloc, text)?),
        }
    }

    /// Creates a channel name from a copy of `text`, which must be a valid name.
    pub fn of_valid(alloc: Global, text: &str) -> Result<ChannelName, AllocError>
        requires valid { name_fault text.now ≡ None }
        ensures segments { IfOk result (λ name. name ≡ segments text.now) }
    {
        Ok(ChannelName {
            text: String::from_str(alloc, text)?,
        })
    }

    /// Returns the text of the name.
    #[tactic(auto, using(crate::proofs::FaultLemmas::sound))]
    pub fn as_str(&self) -> &str
        ensures text { result.now ≡ path_of self.now }
        ensures reads_back { read_name result.now ≡ Ok self.now }
    {
        self.text.as_str()
    }

    /// Returns the kind of the channel, by the beginning of its name.
    pub fn kind(&self) -> ChannelKind
        ensures { result ≡ kind_of (path_of self.now) }
    {
        kind_of(self.as_str())
    }

    /// Returns its segments, at most [`MAX_NAME_SEGMENTS`].
    pub fn segments(&self) -> Segments<'_>
        ensures segments { result ≡ self.now }
        ensures limit { length self.now ≤ MAX_NAME_SEGMENTS }
    {
        segments_of(self.text.as_str())
    }

    /// Returns the number of segments.
    pub fn segment_count(&self) -> usize
        ensures { result ≡ length self.now }
    {
        self.segments().count()
    }

    /// Returns segment `k`, counted from 0.
    pub fn segment(&self, k: usize) -> &str
        requires { k < length self.now }
        ensures { slice_get self.now k ≡ Some result.now }
    {
        self.segments().nth(k).unwrap()
    }
}
