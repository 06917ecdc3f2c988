//! What the forms in memory share: which calls are to fail, and copies of bounded length.

ghost use Rattle.std.specs.Prelude.{◌≡◌, ◌+◌, ◌↔◌, min, length, take, IsTrue, Contains};

// Whether the call after the first `calls` is in the list; none is past 2^64-1.
pub(crate) fn is_due(fails: &[u64], calls: u64) -> bool
    ensures { IsTrue result ↔ Contains fails.now (calls + 1) }
{
    match calls.checked_add(1) {
        Some(number) => fails.contains(&number),
        None => false,
    }
}

// Copies as many bytes as both slices have, at most `most`.
pub(crate) fn copy_front(from: &[u8], into: &mut [u8], most: usize) -> usize
    ensures count { result ≡ min (min most (length into.new)) (length from.now) }
    ensures same { take result into.new ≡ take result from.now }
{
    let count = most.min(into.len()).min(from.len());
    into[..count].copy_from_slice(&from[..count]);
    count
}
