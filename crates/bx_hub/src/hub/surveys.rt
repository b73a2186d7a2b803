//! What a hub reports of its list, its shards and their sessions.
ghost use Rattle.std.specs.Prelude.{◌≡◌, ◌≤◌, Ok, None, IfOk, IfSome, is_some, nat_lt};
ghost use mathlib.Core.List.{IsPrefix};
ghost use Rattle.bx_window.specs.Steps.{setup_of};

use crate::hub::{Hub, Pass};
use crate::kind::HubKind;
use crate::shard_state::SessionEvidence;
use crate::survey::{ShardSurvey, Survey};
use bx_shard::SessionSurvey;
use std::alloc::{AllocError, Global};
use std::sync::Wait;

impl<L: HubKind, R: Wait + Drop> Hub<L, R> {
    ghost use Rattle.bx_hub.specs.Surveys.{IsSessionOf, survey_of};

    /// Returns the state of the list and the sessions. `pass` has then seen the whole list.
    ///
    /// # Blocking
    ///
    /// Locks admission.
    pub fn survey<W: Wait>(&self, rt: &W, pass: &mut Pass<L>) -> Survey
        ensures seen { IsPrefix pass.old pass.new }
        ensures counted { result ≡ survey_of L.config pass.new }
    {
        self.admission.lock(rt).survey(pass)
    }

    /// Returns the state of shard `shard`, if it exists.
    ///
    /// # Blocking
    ///
    /// Locks the shard.
    pub fn survey_shard<W: Wait>(&self, rt: &W, shard: usize) -> Option<ShardSurvey>
        ensures { is_some result ≡ nat_lt shard L.config.shards }
    {
        let shard_state = self.shards.get(shard)?;
        Some(shard_state.lock(rt).survey())
    }

    /// Returns what an operator sees of a session of a shard, with evidence of that.
    ///
    /// Returns `None` if the shard does not exist, or has no session at `index`. If a session is
    /// opened or closed, indexes of others may change.
    ///
    /// # Blocking
    ///
    /// Locks the shard, while the session's patterns are cloned.
    pub fn survey_session<W: Wait>(
        &self,
        rt: &W,
        alloc: Global,
        shard: usize,
        index: usize,
    ) -> Result<Option<(SessionSurvey, SessionEvidence<L>)>, AllocError>
        ensures shown { IfOk result (λ survey. IfSome survey (λ s. IsSessionOf (setup_of L.config L.placing) shard index s.0 s.1)) }
        ensures unknown { L.config.shards ≤ shard → result ≡ Ok None }
    {
        if shard >= self.shards.len() {
            return Ok(None);
        }
        match self.lock_shard(rt, shard) {
            Ok((shard_state, _)) => shard_state.survey_session(alloc, index),
            Err(_) => Ok(None),
        }
    }
}
