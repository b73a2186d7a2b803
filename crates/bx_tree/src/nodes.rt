ghost use Rattle.std.specs.Prelude.{◌≡◌, ◌↔◌, ℕ, ◌+◌, ◌==◌, ◌&&◌, ◌||◌, not, false, ◌++◌, List, [], Contains, IsTrue, OnOk, OnErr, IfOk, fold, is_some, length};
ghost use Rattle.std.specs.List.{list_any};
ghost use Rattle.std.specs.List.Sorted.{IsStrictlyIncreasing};
ghost use Rattle.bx_names.specs.Globs.{Glob, any_matches, same_glob};
ghost use Rattle.bx_names.specs.InForce.{in_force, with_pattern};
ghost use Rattle.bx_tree.specs.Whole.{AreWhole};
ghost use Rattle.bx_tree.specs.Lists.{IsIndexAt, IsIndexOf, stands_for};
ghost use Rattle.bx_tree.specs.Patterns.{patterns_of};
ghost use Rattle.bx_tree.specs.Walks.{is_among, is_met};

mod found;
mod path_lists;

use crate::own_path::own_path;
use bx_names::{ChannelName, Pattern, Tail};
pub use found::Found;
use path_lists::PathLists;
use std::alloc::{AllocError, Global};

/// The index of patterns: which sessions have each pattern.
///
/// The path of a pattern is its text without a wildcard. A path has up to three lists of sessions:
/// for the pattern that is the path, for the path and `*`, and for the path and `**`. A list has
/// each session with a stamp: the key of the pattern in that session's own list.
#[derive(Drop)]
pub struct Nodes {
    exact: PathLists,
    one: PathLists,
    many: PathLists,
}

impl Nodes {
    pub(crate) fn new(alloc: Global) -> Nodes
        ensures { (pattern : Glob) → (n : ℕ) → stands_for result pattern n ≡ false }
    {
        Nodes {
            exact: PathLists::new(alloc),
            one: PathLists::new(alloc),
            many: PathLists::new(alloc),
        }
    }

    /// Adds session `number` to the list of `pattern`. On error, nothing has changed.
    ///
    /// `stamp`: the key of `pattern` in the session's own list.
    pub(crate) fn add(
        &mut self,
        alloc: Global,
        pattern: &Pattern,
        number: u64,
        stamp: u64,
    ) -> Result<(), AllocError>
        ensures ok { OnOk result ((other : Glob) → AreWhole other.segments → (n : ℕ)
            → stands_for self.new other n ≡ (stands_for self.old other n || (same_glob other pattern.now && (n == number)))) }
        ensures err { OnErr result ((other : Glob) → (n : ℕ) → stands_for self.new other n ≡ stands_for self.old other n) }
    {
        let path = own_path(pattern);
        match pattern.tail() {
            Tail::Exact => self.exact.add(alloc, path, number, stamp),
            Tail::One => self.one.add(alloc, path, number, stamp),
            Tail::Many => self.many.add(alloc, path, number, stamp),
        }
    }

    pub(crate) fn has(&self, pattern: &Pattern, number: u64) -> bool
        ensures has { result ≡ stands_for self.now pattern.now number }
        ensures whole { AreWhole pattern.now.segments }
    {
        let path = own_path(pattern);
        match pattern.tail() {
            Tail::Exact => self.exact.has(path, number),
            Tail::One => self.one.has(path, number),
            Tail::Many => self.many.has(path, number),
        }
    }

    /// Removes session `number` from the list of `pattern`, and returns its stamp, if any.
    pub(crate) fn remove(&mut self, pattern: &Pattern, number: u64) -> Option<u64>
        ensures gone { (other : Glob) → AreWhole other.segments → (n : ℕ)
            → stands_for self.new other n ≡ (stands_for self.old other n && not (same_glob other pattern.now && (n == number))) }
        ensures stood { is_some result ≡ stands_for self.old pattern.now number }
        ensures whole { AreWhole pattern.now.segments }
    {
        let path = own_path(pattern);
        match pattern.tail() {
            Tail::Exact => self.exact.remove(path, number),
            Tail::One => self.one.remove(path, number),
            Tail::Many => self.many.remove(path, number),
        }
    }

    /// Finds the sessions with a pattern that matches `name`.
    ///
    /// Looks up the list for `**` before each segment of the name, the list for `*` before the last
    /// one, and the list for the name itself.
    pub fn find(&self, alloc: Global, name: &ChannelName) -> Result<Found, AllocError>
        ensures exact { (all : List (ℕ × List Glob)) → IsIndexOf self.now all → IfOk result (λ found. (n : ℕ)
            → (Contains found.numbers.items n ↔ IsTrue (any_matches (patterns_of all n) name.now))) }
        ensures ascending { IfOk result (λ found. IsStrictlyIncreasing found.numbers.items) }
        ensures visited { IfOk result (λ found. found.visited ≡ length name.now + 2) }
    {
        self.settled(alloc, name)
    }

    fn settled(&self, alloc: Global, name: &ChannelName) -> Result<Found, AllocError>
        ensures numbers { IfOk result (λ found. (n : ℕ) → is_among found.numbers.items n ≡ is_met self.now [] name.now n) }
        ensures ascending { IfOk result (λ found. IsStrictlyIncreasing found.numbers.items) }
        ensures visited { IfOk result (λ found. found.visited ≡ length name.now + 2) }
        ensures whole { OnOk result (AreWhole name.now) }
    {
        let mut found = self.walk(alloc, name)?;
        found.settle()?;
        Ok(found)
    }

    /// Finds the same sessions, unsorted and possibly with duplicates.
    fn walk(&self, alloc: Global, name: &ChannelName) -> Result<Found, AllocError>
        ensures numbers { IfOk result (λ found. (n : ℕ) → is_among found.numbers.items n ≡ is_met self.now [] name.now n) }
        ensures visited { IfOk result (λ found. found.visited ≡ length name.now + 2) }
        ensures whole { OnOk result (AreWhole name.now) }
    {
        let mut found = Found {
            numbers: Vec::new(alloc),
            visited: 0,
        };
        let text = name.as_str();
        // The length of the part of the name before the next segment.
        let mut len = 0;
        let mut left = name.segment_count();
        for segment in name.segments() {
            let (path, _) = text.split_at(len);
            found.reach(&self.many, path)?;
            if left == 1 {
                found.reach(&self.one, path)?;
            }
            left -= 1;
            len += 1 + segment.len();
        }
        found.reach(&self.exact, text)?;
        Ok(found)
    }
}
