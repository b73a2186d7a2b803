ghost use Rattle.std.specs.Prelude.{◌≡◌, ◌≤◌, ◌<◌, ℕ, IfOk};
ghost use Rattle.bx_entry.specs.Placings.{all_first, by_remainder, by_remainder-below, by_table, by_table-below};

use std::alloc::{AllocError, Global};
use std::marker::Model;

/// A rule that places each session in a shard.
pub trait Placing {
    ghost place_of: { Self → ℕ → ℕ → ℕ };

    /// Returns the shard of session `number`, from 0 to `shards - 1`.
    ///
    /// Equal arguments give equal results.
    fn place(&self, number: u64, shards: usize) -> usize
        requires some_shard { 1 ≤ shards }
        requires shards_in_range { shards ≤ 64 }
        ensures same { result ≡ place_of self.now number shards }
        ensures below { result < shards };

    ghost is_below: { (placing : Self) (number shards : ℕ) → 1 ≤ shards → shards ≤ 64 → place_of placing number shards < shards };
}

/// A rule that places sessions in turn: session `number` in shard `number % shards`.
#[derive(Clone, Copy, Debug)]
pub struct ByRemainder;

impl Placing for ByRemainder {
    ghost place_of = { λ _ number shards. by_remainder number shards };

    ghost is_below = { λ _ number shards some _. by_remainder-below number shards some };

    fn place(&self, number: u64, shards: usize) -> usize {
        (number % shards as u64) as usize
    }
}

/// A rule that places all sessions in the first shard.
#[derive(Clone, Copy, Debug)]
pub struct AllFirst;

impl Placing for AllFirst {
    ghost place_of = { λ _ number shards. all_first number shards };

    ghost is_below = { λ _ _ _ some _. some };

    fn place(&self, _number: u64, _shards: usize) -> usize {
        0
    }
}

/// A rule that places session `number` in shard `table[number % table.len()] % shards`.
///
/// An empty table places all sessions in the first shard.
#[derive(Drop)]
pub struct ByTable {
    table: Vec<u8>,
}

impl Model for ByTable {
    ghost use Rattle.std.specs.Prelude.{List, ℕ};

    ghost Value = { List ℕ };

    ghost view = { λ t. t.table.items };
}

impl ByTable {
    /// Creates the rule from a copy of `table`.
    pub fn new(alloc: Global, table: &[u8]) -> Result<ByTable, AllocError>
        ensures { IfOk result (λ t. t ≡ table.now) }
    {
        let table = Vec::from_slice(alloc, table)?;
        Ok(ByTable { table })
    }
}

impl Placing for ByTable {
    ghost place_of = { λ table number shards. by_table table number shards };

    ghost is_below = { λ table number shards some _. by_table-below table number shards some };

    fn place(&self, number: u64, shards: usize) -> usize {
        if self.table.is_empty() {
            return 0;
        }
        let row = (number % self.table.len() as u64) as usize;
        usize::from(self.table[row]) % shards
    }
}
