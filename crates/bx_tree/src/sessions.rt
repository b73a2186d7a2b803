ghost use Rattle.std.specs.Prelude.{◌≡◌, ◌≢◌, ℕ, [], fold, length, OnOk, OnErr, IfOk};
ghost use Rattle.std.specs.Option.{unwrap_or};
ghost use Rattle.bx_names.specs.InForce.{with_pattern, without_pattern};
ghost use Rattle.bx_tree.specs.Lists.{IsIndexOf};
ghost use Rattle.bx_tree.specs.Once.{AreOnce};
ghost use Rattle.bx_tree.specs.Patterns.{patterns_of};

use crate::arrivals::Arrivals;
use crate::changes::{add_all, shorten};
use crate::nodes::Nodes;
use bx_names::Pattern;
use indexmap::IndexMap;
use std::alloc::{AllocError, Global};
use std::marker::Model;

/// The patterns of each session, in the order in which they were added. No list is empty.
#[derive(Drop)]
pub(crate) struct SessionPatterns {
    by_number: IndexMap<u64, Arrivals>,
}

impl Model for SessionPatterns {
    ghost use Rattle.std.specs.Prelude.{ℕ, List};
    ghost use Rattle.bx_names.specs.Globs.{Glob};

    ghost Value = { List (ℕ × List Glob) };

    ghost view = { λ s. s.by_number.entries };
}

impl SessionPatterns {
    pub(crate) fn new(alloc: Global) -> SessionPatterns
        ensures { result ≡ [] }
    {
        SessionPatterns {
            by_number: IndexMap::new(alloc),
        }
    }

    pub(crate) fn count(&self, number: u64) -> usize
        ensures { result ≡ length (patterns_of self.now number) }
    {
        match self.by_number.get(&number) {
            Some(arrivals) => arrivals.len(),
            None => 0,
        }
    }

    pub(crate) fn patterns(&self, alloc: Global, number: u64) -> Result<Vec<Pattern>, AllocError>
        ensures list { IfOk result (λ list. list.items ≡ patterns_of self.now number) }
        ensures once { AreOnce (patterns_of self.now number) }
    {
        match self.by_number.get(&number) {
            Some(arrivals) => arrivals.to_vec(alloc),
            None => Ok(Vec::new(alloc)),
        }
    }

    /// Adds `patterns` for session `number`, also to the index. On error, nothing has changed.
    pub(crate) fn add_all(
        &mut self,
        alloc: Global,
        nodes: &mut Nodes,
        patterns: &[Pattern],
        number: u64,
    ) -> Result<(), AllocError>
        requires { IsIndexOf nodes.old self.old }
        ensures index { IsIndexOf nodes.new self.new }
        ensures own { OnOk result (patterns_of self.new number ≡ fold with_pattern (patterns_of self.old number) patterns.now) }
        ensures others { OnOk result ((n : ℕ) → n ≢ number → patterns_of self.new n ≡ patterns_of self.old n) }
        ensures err { OnErr result (self.new ≡ self.old) }
    {
        if let Some(arrivals) = self.by_number.get_mut(&number) {
            return add_all(alloc, nodes, arrivals, patterns, number);
        }
        let mut arrivals = Arrivals::new(alloc);
        add_all(alloc, nodes, &mut arrivals, patterns, number)?;
        if arrivals.len() == 0 {
            return Ok(());
        }
        if let Err(refused) = self.by_number.insert(number, arrivals) {
            let (_, mut arrivals) = refused.value;
            shorten(nodes, &mut arrivals, 0, number);
            return Err(AllocError);
        }
        Ok(())
    }

    /// Removes `pattern` of session `number`, which the caller has removed from the index before.
    ///
    /// With its `stamp`, this needs no search.
    pub(crate) fn remove(&mut self, number: u64, pattern: &Pattern, stamp: u64)
        ensures own { patterns_of self.new number ≡ without_pattern (patterns_of self.old number) pattern.now }
        ensures others { (n : ℕ) → n ≢ number → patterns_of self.new n ≡ patterns_of self.old n }
    {
        let Some(arrivals) = self.by_number.get_mut(&number) else {
            return;
        };
        arrivals.remove(pattern, stamp);
        if arrivals.len() == 0 {
            drop(self.by_number.swap_remove(&number));
        }
    }

    /// Removes and returns all patterns of session `number`, but not from the index.
    pub(crate) fn remove_all(&mut self, number: u64) -> Option<Arrivals>
        ensures own { patterns_of self.new number ≡ [] }
        ensures others { (n : ℕ) → n ≢ number → patterns_of self.new n ≡ patterns_of self.old n }
        ensures taken { unwrap_or result [] ≡ patterns_of self.old number }
    {
        self.by_number.swap_remove(&number)
    }
}
