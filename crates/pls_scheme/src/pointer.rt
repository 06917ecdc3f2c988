//! Pointers of nodes.

ghost use Rattle.std.specs.Prelude.{◌≡◌};
ghost use Rattle.pls_scheme.specs.Reading.{is_pointer};

/// Whether a node with this pointer points at the port of this number, from 0.
#[inline(always)]
pub fn is_pointer(up: Option<u32>, port: usize) -> bool
    ensures { result ≡ is_pointer up port }
{
    match up {
        Some(number) => number as usize == port,
        None => false,
    }
}
