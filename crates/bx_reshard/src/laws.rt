ghost use Rattle.bx_reshard.specs.Redistribution.{HoldersAreApart, RefinesRedistributed};

/// Proves that shards that agree with their definition share no session or connect.
///
/// They also have the same configuration and the same place.
pub fn shards_are_disjoint()
    ensures { HoldersAreApart }
{}

/// Proves that shards still agree with their definition after redistribution.
///
/// They agree with it for the new number of shards and the new placing.
pub fn refines_redistributed()
    ensures { RefinesRedistributed }
{}
