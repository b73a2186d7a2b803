ghost use Rattle.std.specs.Prelude.{◌≡◌, ℕ, ◌+◌, ◌<◌, ◌^◌, ◌||◌, OnOk, IfOk, Contains, vec_len, ◌↔◌};
ghost use Rattle.std.specs.List.Sorted.{IsStrictlyIncreasing};
ghost use Rattle.bx_tree.specs.Lists.{stands_at};
ghost use Rattle.bx_tree.specs.Walks.{is_among};

use super::path_lists::PathLists;
use std::alloc::AllocError;

/// The sessions with a pattern that matches a channel name.
#[derive(Debug, Drop)]
pub struct Found {
    /// In ascending order, each once.
    pub numbers: Vec<u64>,
    /// How many lists the search looked up: the number of the name's segments plus 2.
    pub visited: usize,
}

impl Found {
    /// Looks up `path` in `lists`, and appends the numbers of its list.
    pub(super) fn reach(&mut self, lists: &PathLists, path: &str) -> Result<(), AllocError>
        requires { self.old.visited + 1 < 2 ^ 64 }
        ensures numbers { OnOk result ((n : ℕ)
            → is_among self.new.numbers.items n ≡ (is_among self.old.numbers.items n || stands_at lists.now path.now n)) }
        ensures visited { OnOk result (self.new.visited ≡ self.old.visited + 1) }
    {
        if let Some(list) = lists.reach(path, &mut self.visited) {
            for number in list.keys() {
                self.numbers.push(*number)?;
            }
        }
        Ok(())
    }

    /// Sorts the numbers and removes duplicates.
    ///
    /// They are a few ascending runs, which a stable sort merges.
    pub(super) fn settle(&mut self) -> Result<(), AllocError>
        ensures ascending { OnOk result (IsStrictlyIncreasing self.new.numbers.items) }
        ensures same { OnOk result ((n : ℕ) → is_among self.new.numbers.items n ≡ is_among self.old.numbers.items n) }
        ensures visited { self.new.visited ≡ self.old.visited }
    {
        self.numbers.sort()?;
        self.numbers.dedup();
        Ok(())
    }
}
