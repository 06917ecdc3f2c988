//! What holds of each network.

ghost use Rattle.pls_configuration.specs.Configuration.{IsNetwork};

use pls_graph::Network;

/// A network is valid: its rows are within the limits, and no refusal occurs. A proof that needs it
/// calls this; it takes neither time nor memory.
pub fn is_valid(net: &Network)
    ensures { IsNetwork net.now }
{
    net.len();
}
