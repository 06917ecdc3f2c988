//! Distances of nodes at the two ends of an edge. Sums are taken in 128 bits.

ghost use Rattle.std.specs.Prelude.{◌≡◌, ◌+◌, ◌==◌, nat_le};

// Whether `dist` equals `other + weight`.
pub(crate) fn is_farther_by(dist: u64, other: u64, weight: u32) -> bool
    ensures { result ≡ (dist == other + weight) }
{
    u128::from(dist) == u128::from(other) + u128::from(weight)
}

// Whether `dist` is at most `other + weight`.
pub(crate) fn is_reached_by(dist: u64, other: u64, weight: u32) -> bool
    ensures { result ≡ nat_le dist (other + weight) }
{
    u128::from(dist) <= u128::from(other) + u128::from(weight)
}
