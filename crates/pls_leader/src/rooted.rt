//! What the schemes of a root have in common.

ghost use Rattle.std.specs.Prelude.{◌≡◌, ◌<◌, length, map, unwrap_or, IfOk};
ghost use Rattle.pls_configuration.specs.Walk.{IsConnected};
ghost use Rattle.pls_leader.specs.Rooted.{is_0_at_root_alone};
ghost use Rattle.pls_leader.specs.inner.LevelsFrom.{AreLevelsFrom};

use pls_graph::Network;
use pls_search::levels;
use pls_streams::NoMemory;
use std::alloc::Global;

pub(crate) fn is_0_at_root_alone(id: u32, root: u64, depth: u64) -> bool
    ensures { result ≡ is_0_at_root_alone id root depth }
{
    (depth == 0) == (u64::from(id) == root)
}

pub(crate) fn levels_from(alloc: Global, net: &Network, place: usize) -> Result<Vec<u32>, NoMemory>
    requires joined { IsConnected net.now }
    requires within { place < length net.now }
    ensures { IfOk result (λ levels. AreLevelsFrom net.now place levels.items) }
{
    let found = levels(alloc, net, place)?;
    let levels = levels_or_zero(alloc, &found)?;
    Ok(levels)
}

// All levels must be found; a missing one becomes 0.
fn levels_or_zero(alloc: Global, found: &[Option<u32>]) -> Result<Vec<u32>, NoMemory>
    ensures { IfOk result (λ levels. levels.items ≡ map (λ level. unwrap_or level 0) found.now) }
{
    let levels = found.iter().map(|level| level.unwrap_or(0)).collect(alloc)?;
    Ok(levels)
}
