ghost use Rattle.std.specs.Prelude.{◌≡◌, ◌<◌, ℕ, [], ◌∷◌, ◌++◌, Some, None, true, false, length, OnOk, OnErr, IfOk, IfSome};
ghost use Rattle.std.specs.Ordering.{nat_cmp};
ghost use Rattle.std.specs.BTreeMap.{get, keys};
ghost use Rattle.std.specs.List.{All};
ghost use Rattle.bx_names.specs.InForce.{in_force, without_pattern};
ghost use Rattle.bx_tree.specs.Once.{AreOnce};

use bx_names::Pattern;
use std::alloc::{AllocError, Global};
use std::collections::BTreeMap;
use std::marker::Model;

/// The patterns of one session, each once, in the order in which they were added.
///
/// Each is stored under a stamp, a number greater than those before it. If a caller's stamp is
/// wrong, all patterns are compared.
#[derive(Drop)]
pub(crate) struct Arrivals {
    by_stamp: BTreeMap<u64, Pattern>,
}

impl Model for Arrivals {
    ghost use Rattle.std.specs.Prelude.{List};
    ghost use Rattle.std.specs.Map.{values_of};
    ghost use Rattle.bx_names.specs.Globs.{Glob};
    ghost use Rattle.bx_tree.specs.Once.{AreOnce};

    ghost Value = { List Glob };

    ghost view = { λ arrivals. values_of arrivals.by_stamp.entries };

    ghost invariant = { λ arrivals. AreOnce (values_of arrivals.by_stamp.entries) };
}

impl Arrivals {
    pub(crate) fn new(alloc: Global) -> Arrivals
        ensures { result ≡ [] }
    {
        Arrivals {
            by_stamp: BTreeMap::new(alloc),
        }
    }

    pub(crate) fn len(&self) -> usize
        ensures { result ≡ length self.now }
    {
        self.by_stamp.len()
    }

    pub(crate) fn to_vec(&self, alloc: Global) -> Result<Vec<Pattern>, AllocError>
        ensures list { IfOk result (λ copy. copy.items ≡ self.now) }
        ensures once { AreOnce self.now }
    {
        let mut copy = Vec::with_capacity(alloc, self.by_stamp.len())?;
        for pattern in self.by_stamp.values() {
            copy.push(pattern.clone()?)?;
        }
        Ok(copy)
    }

    /// Appends `pattern`, which must be new, and returns its stamp.
    ///
    /// Also fails if no greater stamp is left.
    pub(crate) fn push(&mut self, pattern: Pattern) -> Result<u64, AllocError>
        requires { in_force self.old pattern ≡ false }
        ensures ok { OnOk result (self.new ≡ self.old ++ pattern ∷ []) }
        ensures err { OnErr result (self.new ≡ self.old) }
    {
        let stamp = stamp_behind(&self.by_stamp)?;
        self.by_stamp.insert(stamp, pattern)?;
        Ok(stamp)
    }

    pub(crate) fn pop(&mut self) -> Option<Pattern>
        ensures some { IfSome result (λ pattern. self.old ≡ self.new ++ pattern ∷ []) }
        ensures once { IfSome result (λ pattern. in_force self.new pattern ≡ false) }
        ensures none { result ≡ None → self.old ≡ [] }
    {
        let Some(last) = self.by_stamp.pop_last() else {
            return None;
        };
        Some(last.1)
    }

    /// Removes `pattern`, if the session has it. With its `stamp`, this needs no search.
    pub(crate) fn remove(&mut self, pattern: &Pattern, stamp: u64)
        ensures { self.new ≡ without_pattern self.old pattern.now }
    {
        if stands_at(&self.by_stamp, stamp, pattern) {
            drop(self.by_stamp.remove(&stamp));
        } else {
            self.by_stamp.retain(|_, other| pattern != other);
        }
    }
}

fn stands_at(by_stamp: &BTreeMap<u64, Pattern>, stamp: u64, pattern: &Pattern) -> bool
    ensures { result ≡ true → get nat_cmp by_stamp.now stamp ≡ Some pattern.now }
{
    match by_stamp.get(&stamp) {
        Some(there) => there == pattern,
        None => false,
    }
}

/// Returns a stamp greater than all in `by_stamp`, if there is one.
fn stamp_behind(by_stamp: &BTreeMap<u64, Pattern>) -> Result<u64, AllocError>
    ensures { IfOk result (λ stamp. All (λ (k : ℕ). k < stamp) (keys by_stamp.now)) }
{
    match by_stamp.last_key_value() {
        Some((last, _)) => last.checked_add(1).ok_or(AllocError),
        None => Ok(0),
    }
}
