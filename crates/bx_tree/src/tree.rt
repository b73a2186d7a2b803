ghost use Rattle.std.specs.Prelude.{◌≡◌, ◌≢◌, ℕ, ◌+◌, [], not, length, fold, OnOk, OnErr, IfOk};
ghost use Rattle.bx_names.specs.InForce.{in_force, with_pattern, without_pattern};
ghost use Rattle.bx_tree.specs.Lists.{IsIndexOf};
ghost use Rattle.bx_tree.specs.Patterns.{patterns_of};

use crate::changes::shorten;
use crate::nodes::Nodes;
use crate::sessions::SessionPatterns;
use bx_names::Pattern;
use std::alloc::{AllocError, Global};
use std::marker::Model;
use std::slice;

/// The active patterns of each session, with an index by path.
///
/// For each [`Tail`](bx_names::Tail), the index maps a path to the sessions that have the pattern
/// of that path and tail. A search looks up each prefix of the name. Empty lists are dropped.
///
/// Bayeux 1.0, channel globbing.
#[derive(Drop)]
pub struct Tree {
    nodes: Nodes,
    sessions: SessionPatterns,
}

impl Model for Tree {
    ghost use Rattle.std.specs.Prelude.{ℕ, List};
    ghost use Rattle.bx_names.specs.Globs.{Glob};
    ghost use Rattle.bx_tree.specs.Lists.{IsIndexOf};

    ghost Value = { List (ℕ × List Glob) };

    ghost view = { λ tree. tree.sessions };

    ghost invariant = { λ tree. IsIndexOf tree.nodes tree.sessions };
}

impl Tree {
    /// Creates an empty tree.
    pub fn new(alloc: Global) -> Tree
        ensures { result ≡ [] }
    {
        Tree {
            nodes: Nodes::new(alloc),
            sessions: SessionPatterns::new(alloc),
        }
    }

    /// Adds `pattern` for session `number`, and returns `true` if it was not active.
    pub fn add(&mut self, alloc: Global, pattern: &Pattern, number: u64) -> Result<bool, AllocError>
        ensures own { OnOk result (patterns_of self.new number ≡ with_pattern (patterns_of self.old number) pattern.now) }
        ensures others { OnOk result ((n : ℕ) → n ≢ number → patterns_of self.new n ≡ patterns_of self.old n) }
        ensures added { IfOk result (λ added. added ≡ not (in_force (patterns_of self.old number) pattern.now)) }
        ensures err { OnErr result (self.new ≡ self.old) }
    {
        let added = self.add_all(alloc, slice::from_ref(pattern), number)?;
        Ok(added == 1)
    }

    /// Adds `patterns` for session `number`, in order, and returns how many became active.
    #[tactic(auto, using(crate::proofs::ChangeLemmas::no_fewer))]
    pub fn add_all(
        &mut self,
        alloc: Global,
        patterns: &[Pattern],
        number: u64,
    ) -> Result<usize, AllocError>
        ensures own { OnOk result (patterns_of self.new number ≡ fold with_pattern (patterns_of self.old number) patterns.now) }
        ensures others { OnOk result ((n : ℕ) → n ≢ number → patterns_of self.new n ≡ patterns_of self.old n) }
        ensures added { IfOk result (λ added. length (patterns_of self.old number) + added ≡ length (fold with_pattern (patterns_of self.old number) patterns.now)) }
        ensures err { OnErr result (self.new ≡ self.old) }
    {
        let before = self.count(number);
        self.sessions
            .add_all(alloc, &mut self.nodes, patterns, number)?;
        Ok(self.count(number) - before)
    }

    /// Copies the patterns of session `number`, which has none in `self`, from the tree `from`.
    pub fn copy(&mut self, alloc: Global, from: &Tree, number: u64) -> Result<(), AllocError>
        requires none { patterns_of self.old number ≡ [] }
        ensures own { OnOk result (patterns_of self.new number ≡ patterns_of from.now number) }
        ensures others { OnOk result ((n : ℕ) → n ≢ number → patterns_of self.new n ≡ patterns_of self.old n) }
        ensures err { OnErr result (self.new ≡ self.old) }
    {
        let patterns = from.sessions.patterns(alloc, number)?;
        self.add_all(alloc, patterns.as_slice(), number)?;
        Ok(())
    }

    /// Returns `true` if `pattern` is active for session `number`.
    pub fn has(&self, pattern: &Pattern, number: u64) -> bool
        ensures { result ≡ in_force (patterns_of self.now number) pattern.now }
    {
        self.nodes.has(pattern, number)
    }

    /// Removes `pattern` of session `number`, and returns `true` if it was active.
    pub fn remove(&mut self, pattern: &Pattern, number: u64) -> bool
        ensures own { patterns_of self.new number ≡ without_pattern (patterns_of self.old number) pattern.now }
        ensures others { (n : ℕ) → n ≢ number → patterns_of self.new n ≡ patterns_of self.old n }
        ensures removed { result ≡ in_force (patterns_of self.old number) pattern.now }
    {
        let Some(stamp) = self.nodes.remove(pattern, number) else {
            return false;
        };
        self.sessions.remove(number, pattern, stamp);
        true
    }

    /// Removes `patterns` of session `number`, and returns how many are no longer active.
    #[tactic(auto, using(crate::proofs::OnceLemmas::taken_out))]
    pub fn remove_each(&mut self, patterns: &[Pattern], number: u64) -> usize
        ensures own { patterns_of self.new number ≡ fold without_pattern (patterns_of self.old number) patterns.now }
        ensures others { (n : ℕ) → n ≢ number → patterns_of self.new n ≡ patterns_of self.old n }
        ensures removed { length (patterns_of self.new number) + result ≡ length (patterns_of self.old number) }
    {
        let before = self.count(number);
        for pattern in patterns {
            self.remove(pattern, number);
        }
        before - self.count(number)
    }

    /// Removes all patterns of session `number`, and returns how many it had.
    pub fn remove_all(&mut self, number: u64) -> usize
        ensures own { patterns_of self.new number ≡ [] }
        ensures others { (n : ℕ) → n ≢ number → patterns_of self.new n ≡ patterns_of self.old n }
        ensures removed { result ≡ length (patterns_of self.old number) }
    {
        let Some(mut arrivals) = self.sessions.remove_all(number) else {
            return 0;
        };
        let count = arrivals.len();
        shorten(&mut self.nodes, &mut arrivals, 0, number);
        count
    }

    /// Returns the number of active patterns of session `number`.
    pub fn count(&self, number: u64) -> usize
        ensures { result ≡ length (patterns_of self.now number) }
    {
        self.sessions.count(number)
    }

    /// Clones the patterns of session `number`, in the order of their addition.
    pub fn patterns(&self, alloc: Global, number: u64) -> Result<Vec<Pattern>, AllocError>
        ensures { IfOk result (λ list. list.items ≡ patterns_of self.now number) }
    {
        self.sessions.patterns(alloc, number)
    }

    /// Returns the index, which finds the sessions for a channel name.
    pub fn nodes(&self) -> &Nodes
        ensures { IsIndexOf result.now self.now }
    {
        &self.nodes
    }
}
