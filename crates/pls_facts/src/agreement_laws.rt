//! What all nodes of a connected network have in common.

ghost use Rattle.std.specs.Prelude.{◌≡◌, ℕ, Contains};
ghost use Rattle.pls_configuration.specs.Configuration.{ids_of};
ghost use Rattle.pls_configuration.specs.Walk.{IsConnected};
ghost use Rattle.pls_facts.specs.Agreement.{AgreeAtPorts};

use pls_graph::Network;

/// Where each node of a connected network says what each neighbour says, all say the same, be it
/// numbers or what else.
pub fn all_agree<L>(net: &Network)
    requires { IsConnected net.now }
    ensures { (say : ℕ → L) → AgreeAtPorts net.now say → (u v : ℕ)
        → Contains (ids_of net.now) u → Contains (ids_of net.now) v → say u ≡ say v }
{}
