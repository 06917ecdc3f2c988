//! The two properties as functions from rows to a truth value.

ghost use Rattle.std.specs.Prelude.{◌↔◌, ℕ, IsTrue};
ghost use Rattle.pls_diameter_bridges.specs.Diameter.{HasDiameterAtMost};
ghost use Rattle.pls_diameter_bridges.specs.Bridgeless.{IsBridgeless};
ghost use Rattle.pls_diameter_bridges.specs.Tests.{bridgeless_test, diameter_test};

use pls_graph::Network;

/// The test of the diameter passes exactly where any two nodes are at most so many edges apart.
pub fn diameter_is_tested(net: &Network)
    ensures { (most : ℕ) → IsTrue (diameter_test most net.now) ↔ HasDiameterAtMost most net.now }
{}

/// The test for bridges passes exactly where no edge is one.
pub fn bridgeless_is_tested(net: &Network)
    ensures { IsTrue (bridgeless_test net.now) ↔ IsBridgeless net.now }
{}
