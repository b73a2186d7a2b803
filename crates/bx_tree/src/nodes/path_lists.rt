ghost use Rattle.std.specs.Prelude.{◌≡◌, ℕ, true, List};
ghost use Rattle.std.specs.BTreeMap.{get_by_text};
ghost use Rattle.bx_tree.specs.Kept.{is_kept};

use std::alloc::{AllocError, Global};
use std::collections::BTreeMap;

/// The sessions at each path, such as `/a/b`, each with the stamp of its pattern. No list is empty.
///
/// The map is ordered, because clients choose the paths, which could collide in a hash map.
#[derive(Drop)]
pub(super) struct PathLists {
    by_path: BTreeMap<String, BTreeMap<u64, u64>>,
    ghost no_empty: { (path : List ℕ) → is_kept (get_by_text by_path path) ≡ true },
}

impl PathLists {
    ghost use Rattle.std.specs.Prelude.{◌≡◌, ℕ, ◌+◌, ◌<◌, ◌^◌, ◌==◌, ◌&&◌, ◌||◌, not, false, List, OnOk, OnErr, bytes_eq, is_some};
    ghost use Rattle.std.specs.Option.{option_copied};
    ghost use Rattle.std.specs.BTreeMap.{get_by_text};
    ghost use Rattle.bx_tree.specs.Lists.{stands_at};

    pub(super) fn new(alloc: Global) -> PathLists
        ensures { (path : List ℕ) → (number : ℕ) → stands_at result path number ≡ false }
    {
        PathLists {
            by_path: BTreeMap::new(alloc),
        }
    }

    /// Returns the sessions at `path`, if any, and adds 1 to `visited`.
    ///
    /// A search uses only this function, so that each lookup is counted.
    pub(super) fn reach(&self, path: &str, visited: &mut usize) -> Option<&BTreeMap<u64, u64>>
        requires { visited.old + 1 < 2 ^ 64 }
        ensures list { option_copied result ≡ get_by_text self.now.by_path path.now }
        ensures visited { visited.new ≡ visited.old + 1 }
    {
        *visited += 1;
        self.by_path.get(path)
    }

    /// Returns `true` if session `number` has the pattern of this list's kind with `path`.
    pub(super) fn has(&self, path: &str, number: u64) -> bool
        ensures { result ≡ stands_at self.now path.now number }
    {
        match self.by_path.get(path) {
            Some(numbers) => numbers.contains_key(&number),
            None => false,
        }
    }

    /// Adds session `number` at `path`. On error, no list has changed.
    pub(super) fn add(
        &mut self,
        alloc: Global,
        path: &str,
        number: u64,
        stamp: u64,
    ) -> Result<(), AllocError>
        ensures ok { OnOk result ((other : List ℕ) → (n : ℕ)
            → stands_at self.new other n ≡ (stands_at self.old other n || (bytes_eq path.now other && (n == number)))) }
        ensures err { OnErr result ((other : List ℕ) → (n : ℕ) → stands_at self.new other n ≡ stands_at self.old other n) }
    {
        if let Some(numbers) = self.by_path.get_mut(path) {
            numbers.insert(number, stamp)?;
            return Ok(());
        }
        let mut numbers = BTreeMap::new(alloc);
        numbers.insert(number, stamp)?;
        let path = String::from_str(alloc, path)?;
        self.by_path.insert(path, numbers)?;
        Ok(())
    }

    /// Removes session `number` from `path`, and returns its stamp, if any. Drops an empty list.
    pub(super) fn remove(&mut self, path: &str, number: u64) -> Option<u64>
        ensures gone { (other : List ℕ) → (n : ℕ)
            → stands_at self.new other n ≡ (stands_at self.old other n && not (bytes_eq path.now other && (n == number))) }
        ensures stood { is_some result ≡ stands_at self.old path.now number }
    {
        let Some(numbers) = self.by_path.get_mut(path) else {
            return None;
        };
        let stamp = numbers.remove(&number);
        if numbers.is_empty() {
            self.by_path.remove(path);
        }
        stamp
    }
}
