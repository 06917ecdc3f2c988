//! Properties that are told by a test.

ghost use Rattle.std.specs.Prelude.{◌≡◌, ℕ, Bool, List, Contains};
ghost use Rattle.pls_configuration.specs.declared.row.NodeRow.{NodeRow};
ghost use Rattle.pls_configuration.specs.Walk.{IsConnected};
ghost use Rattle.pls_scheme.specs.Theorem.{AreRightEverywhere, HoldEverywhere};
ghost use Rattle.pls_universal.specs.declared.map.MapLabel.{MapLabel};
ghost use Rattle.pls_universal.specs.Rules.{IsTestOf, map_rules, map_says, nodes_of};

use pls_facts::is_valid;
use pls_graph::Network;
use pls_scheme::Property;

/// A property with a test that passes exactly where a connected network has it. The rules of the
/// universal scheme ask the test of the network that a map states.
pub trait PropertyTest: Property {
    // Whether the rows pass.
    ghost test: { Self → List NodeRow → Bool };

    /// Where the rules hold at each node of a connected network, whatever the labels say, each map
    /// states the network itself, and the network has the property.
    final fn maps_are_right(&self, net: &Network)
        requires { IsConnected net.now }
        ensures maps { (say : ℕ → MapLabel)
            → HoldEverywhere (map_rules (test self.now)) net.now say
            → (row : NodeRow) → Contains net.now row → nodes_of (say row.id).rows ≡ net.now }
        ensures holds { (say : ℕ → MapLabel)
            → HoldEverywhere (map_rules (test self.now)) net.now say
            → Self.holds self.now net.now }
    {
        is_valid(net);
    }

    /// Where a connected network has the property, and each label says the identity of its node and
    /// the map of the network, the rules hold at each node.
    final fn right_maps_pass(&self, net: &Network)
        requires connected { IsConnected net.now }
        requires holds { Self.holds self.now net.now }
        ensures { (say : ℕ → MapLabel) → AreRightEverywhere (map_says net.now) net.now say
            → HoldEverywhere (map_rules (test self.now)) net.now say }
    {
        // Its identities, weights and marks are numbers of 32 bits.
        net.size();
    }

    // The test tells the property.
    ghost test_law: { (s : Self) → IsTestOf (test s) (Self.holds s) };
}
