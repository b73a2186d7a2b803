ghost use Rattle.std.specs.Prelude.{◌≡◌, IfOk};
ghost use Rattle.bx_names.specs.Globs.{any_matches};
ghost use Rattle.bx_entry.specs.Requests.{allows, allows_all};

use bx_message::Message;
use bx_names::{ChannelName, Pattern, is_broadcast, matches, name_fault};
use std::alloc::{AllocError, Global};
use std::marker::Model;
use std::sync::Arc;

/// What the listener that received a request allows. Policy of this server.
#[derive(Clone, Drop)]
pub enum Access {
    /// All messages.
    ReadWrite,
    /// No message to a broadcast channel, unless one of these patterns matches the channel.
    ReadOnly(SharedPatterns),
}

/// A list of patterns that its clones share.
#[derive(Drop)]
pub struct SharedPatterns {
    patterns: Arc<Vec<Pattern>>,
}

impl Model for SharedPatterns {
    ghost use Rattle.std.specs.Prelude.{List};
    ghost use Rattle.std.specs.Arc.{arc_value};
    ghost use Rattle.bx_names.specs.Globs.{Glob};

    ghost Value = { List Glob };

    ghost view = { λ shared. (arc_value shared.patterns).items };
}

impl SharedPatterns {
    /// Creates the first handle to `patterns`.
    pub fn new(alloc: Global, patterns: Vec<Pattern>) -> Result<SharedPatterns, AllocError>
        ensures { IfOk result (λ shared. shared ≡ patterns.items) }
    {
        let patterns = Arc::new(alloc, patterns)?;
        Ok(SharedPatterns { patterns })
    }

    fn as_slice(&self) -> &[Pattern]
        ensures { result.now ≡ self.now }
    {
        self.patterns.as_slice()
    }

    pub(crate) fn allows_all(&self, alloc: Global, messages: &[Message]) -> Result<bool, AllocError>
        ensures { IfOk result (λ allowed. allowed ≡ allows_all self.now messages.now) }
    {
        for message in messages {
            if !allows(alloc, self.as_slice(), message.channel.as_str())? {
                return Ok(false);
            }
        }
        Ok(true)
    }
}

impl Clone for SharedPatterns {
    ghost is_clone = { λ old copy. copy ≡ old };

    fn clone(&self) -> Result<SharedPatterns, AllocError> {
        let patterns = Arc::try_clone(&self.patterns)?;
        Ok(SharedPatterns { patterns })
    }
}

// Returns `true` unless `channel` is a broadcast channel that none of `patterns` matches.
fn allows(alloc: Global, patterns: &[Pattern], channel: &str) -> Result<bool, AllocError>
    ensures { IfOk result (λ allowed. allowed ≡ allows patterns.now channel.now) }
{
    if !is_broadcast(channel) {
        return Ok(true);
    }
    if name_fault(channel).is_some() {
        return Ok(false);
    }
    let name = ChannelName::of_valid(alloc, channel)?;
    Ok(any_matches(patterns, &name))
}

fn any_matches(patterns: &[Pattern], name: &ChannelName) -> bool
    ensures { result ≡ any_matches patterns.now name.now }
{
    patterns.iter().any(|pattern| matches(pattern, name))
}
