//! How long labels with maps are.

ghost use Rattle.std.specs.Prelude.{◌≡◌, [], ℕ, ◌+◌, ◌*◌, ◌≤◌, Bool, List, length, Contains};
ghost use Rattle.pls_configuration.specs.declared.row.NodeRow.{NodeRow};
ghost use Rattle.pls_graph.specs.Size.{size_of};
ghost use Rattle.pls_streams.specs.Steps.{capped};
ghost use Rattle.pls_universal.specs.Bound.{longest_map};
ghost use Rattle.pls_numbers.specs.Numbers.{AreCoded};
ghost use Rattle.pls_numbers.specs.Shape.{IsSpelled};
ghost use Rattle.pls_universal.specs.Map.{map_of, numbers_of_map};
ghost use Rattle.pls_universal.specs.Reading.{map_label_with, map_shape};

use pls_bits::NumCode;
use pls_graph::{Network, Size};
use pls_scheme::codes_length;

/// The bits that a label with the map of a network of this size has at most, or `u64::MAX` where
/// they are more. It takes no memory.
pub fn map_bound<C: NumCode>(size: &Size) -> u64
    ensures { result ≡ capped (longest_map C.code size.now) }
{
    let id = u64::from(size.max_id);
    let degree = u64::from(size.max_degree);
    let mark = u64::from(size.max_mark);
    let head = [id, degree, mark, size.max_num, degree];
    let port = [id, u64::from(size.max_weight)];
    let front = codes_length::<C>(&[id, size.nodes]);
    let heads = with_times(front, size.nodes, codes_length::<C>(&head));
    with_times(heads, size.ports, codes_length::<C>(&port))
}

// `front + count * each`, capped at the greatest `u64`.
fn with_times(front: u64, count: u64, each: u64) -> u64
    ensures { (a b : ℕ) → front ≡ capped a → each ≡ capped b
        → result ≡ capped (a + count * b) }
{
    front.saturating_add(count.saturating_mul(each))
}

/// The numbers of a network's map are small enough to be written, and the label of each node with
/// the map has at most so many bits. It does nothing.
pub fn maps_are_short<C: NumCode>(net: &Network)
    ensures coded { AreCoded [] (numbers_of_map (map_of net.now)) }
    ensures short { (row : NodeRow) (bits : List Bool) → Contains net.now row
        → IsSpelled map_shape C.code bits (map_label_with row.id (map_of net.now))
        → length bits ≤ longest_map C.code (size_of net.now) }
{
    // Its identities, weights and marks are numbers of 32 bits.
    net.size();
}
