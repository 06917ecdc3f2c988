//! What is found out of a map, once for all nodes that have it.

ghost use Rattle.std.specs.Prelude.{IfOk};
ghost use Rattle.pls_universal.specs.inner.Stating.{IsStated};

use crate::building::network_of;
use crate::map::MapRow;
use crate::property_test::PropertyTest;
use pls_graph::Network;
use pls_streams::NoMemory;
use std::alloc::Global;

/// The connected network that a map states, and whether it has the property.
#[derive(Drop)]
pub struct StatedNetwork {
    pub(crate) net: Network,
    pub(crate) has_property: bool,
}

// `None` where the records state no connected network; the property is decided once at most.
pub(crate) fn stated_by<P: PropertyTest>(
    alloc: Global,
    property: &P,
    rows: &[MapRow],
) -> Result<Option<StatedNetwork>, NoMemory>
    ensures { IfOk result (IsStated (P.test property.now) rows.now) }
{
    let Some(net) = network_of(alloc, rows)? else {
        return Ok(None);
    };
    let has_property = property.decide(alloc, &net)?;
    Ok(Some(StatedNetwork { net, has_property }))
}
