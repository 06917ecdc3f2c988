//! Whether any two nodes are at most so many edges apart, by the levels from each node.

ghost use Rattle.std.specs.Prelude.{◌≡◌, ◌<◌, ◌↔◌, length, IfOk, IsTrue};
ghost use Rattle.std.specs.List.{list_all};
ghost use Rattle.pls_diameter_bridges.specs.Diameter.{HasDiameterAtMost};
ghost use Rattle.pls_diameter_bridges.specs.inner.Reaching.{ReachesAll, is_within};

use pls_graph::Network;
use pls_scheme::Property;
use pls_search::levels;
use pls_streams::NoMemory;
use std::alloc::Global;

/// The property that any two nodes are the ends of a walk of at most so many edges.
#[derive(Clone, Copy, Debug, PartialEq, Eq)]
pub struct Diameter {
    /// The greatest number of edges between two nodes.
    pub most: u32,
}

impl Diameter {
    /// The property that at most `most` edges lie between any two nodes.
    pub fn new(most: u32) -> Diameter
        ensures { result.most ≡ most }
    {
        Diameter { most }
    }
}

impl Property for Diameter {
    ghost holds = { λ property. HasDiameterAtMost property.most };

    fn decide(&self, alloc: Global, net: &Network) -> Result<bool, NoMemory> {
        has_diameter_at_most(alloc, net, self.most)
    }
}

fn has_diameter_at_most(alloc: Global, net: &Network, most: u32) -> Result<bool, NoMemory>
    ensures { IfOk result (λ yes. IsTrue yes ↔ HasDiameterAtMost most net.now) }
{
    for place in 0..net.len() {
        if !reaches_all(alloc, net, place, most)? {
            return Ok(false);
        }
    }
    Ok(true)
}

fn reaches_all(alloc: Global, net: &Network, place: usize, most: u32) -> Result<bool, NoMemory>
    requires { place < length net.now }
    ensures { IfOk result (λ yes. IsTrue yes ↔ ReachesAll most net.now place) }
{
    let found = levels(alloc, net, place)?;
    Ok(are_within(&found, most))
}

fn are_within(found: &[Option<u32>], most: u32) -> bool
    ensures { result ≡ list_all (is_within most) found.now }
{
    found.iter().all(|level| is_within(*level, most))
}

fn is_within(level: Option<u32>, most: u32) -> bool
    ensures { result ≡ is_within most level }
{
    match level {
        Some(level) => level <= most,
        None => false,
    }
}
