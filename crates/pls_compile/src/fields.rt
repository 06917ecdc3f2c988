//! Labels that are fields, read in place.

ghost use Rattle.std.specs.Prelude.{◌≡◌, ◌≤◌, length, take, option_map, slice_get, IfSome};
ghost use Rattle.std.specs.List.{list_all};
ghost use Rattle.pls_bits.specs.Gamma.{gamma_takes};
ghost use Rattle.pls_numbers.specs.Fixed.{fields_shape};
ghost use Rattle.pls_numbers.specs.Shape.{said_by};
ghost use Rattle.pls_compile.specs.ReadLabels.{is_read, values_of};

use pls_bits::{Bits, Gamma};
use pls_labels::PortView;
use pls_numbers::{FieldKind, read_field};

// At the front of the array; `None` where the bits are not exactly a label.
#[inline(always)]
pub(crate) fn read_fields(kinds: &[FieldKind], bits: &Bits<'_>) -> Option<[u64; 8]>
    requires { length kinds.now ≤ 8 }
    ensures { option_map (take (length kinds.now)) result
        ≡ said_by (fields_shape kinds.now) gamma_takes bits.now }
{
    let mut cursor = bits.cursor();
    let mut values = [0; 8];
    for i in 0..kinds.len() {
        values[i] = read_field::<Gamma>(&mut cursor, kinds[i])?;
    }
    if cursor.rest().is_empty() {
        Some(values)
    } else {
        None
    }
}

// Whether the bits at each port are a label.
pub(crate) fn are_read(kinds: &[FieldKind], ports: &[PortView<'_>]) -> bool
    requires { length kinds.now ≤ 8 }
    ensures { result ≡ list_all (λ port. is_read kinds.now port.label) ports.now }
{
    for p in 0..ports.len() {
        if read_fields(kinds, &ports[p].label).is_none() {
            return false;
        }
    }
    true
}

// 0 where the bits are no label or lack the field.
#[inline(always)]
pub(crate) fn field_in(kinds: &[FieldKind], bits: &Bits<'_>, field: u8) -> u64
    requires { length kinds.now ≤ 8 }
    ensures { IfSome (slice_get (values_of kinds.now bits.now) field) (λ value. result ≡ value) }
{
    match read_fields(kinds, bits) {
        Some(values) if field < 8 => values[field as usize],
        _ => 0,
    }
}
