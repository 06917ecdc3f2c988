//! Labels whose format a text states: a list of fields, each a number in code or one bit.

ghost use Rattle.std.specs.Prelude.{◌≡◌, ◌≤◌, ◌++◌, length, IfOk, OnOk};
ghost use Rattle.pls_bits.specs.NumberCode.{Takes};
ghost use Rattle.pls_numbers.specs.Fixed.{fields_shape};
ghost use Rattle.pls_numbers.specs.Numbers.{AreCoded, codes_of, most_of, field_code, takes_field};
ghost use Rattle.pls_numbers.specs.Shape.{said_by};

use crate::format::Format;
use crate::kind::FieldKind;
use pls_bits::{BitBuf, Bits, Cursor, NumCode};
use pls_streams::NoMemory;
use std::alloc::Global;
use std::marker::Model;

/// The numbers of a label, one for each field, seen as their list.
#[derive(Drop)]
pub struct FieldValues {
    values: Vec<u64>,
}

impl Model for FieldValues {
    ghost use Rattle.std.specs.Prelude.{ℕ, List};

    ghost Value = { List ℕ };

    ghost view = { λ list. list.values.items };
}

/// A list of fields.
#[derive(Drop)]
pub struct Fields {
    /// How each is written.
    pub kinds: Vec<FieldKind>,
}

impl Format for Fields {
    ghost use Rattle.pls_numbers.specs.Fixed.{fields_shape};
    ghost use Rattle.pls_numbers.specs.laws.FixedLaws.{lists_law};

    type Label = FieldValues;

    ghost shape = { λ s. fields_shape s.kinds.items };

    fn read<C: NumCode>(
        &self,
        alloc: Global,
        bits: &Bits<'_>,
    ) -> Result<Option<FieldValues>, NoMemory> {
        read_fields::<C>(alloc, self.kinds.as_slice(), bits)
    }

    fn append<C: NumCode>(&self, bits: &mut BitBuf, label: &FieldValues) -> Result<(), NoMemory> {
        append_fields::<C>(bits, self.kinds.as_slice(), label.values.as_slice())
    }

    ghost numbers_law = { λ s. lists_law s.kinds.items };
}

// `None` where the bits are not exactly these fields.
fn read_fields<C: NumCode>(
    alloc: Global,
    kinds: &[FieldKind],
    bits: &Bits<'_>,
) -> Result<Option<FieldValues>, NoMemory>
    ensures { IfOk result (λ found. found ≡ said_by (fields_shape kinds.now) C.takes bits.now) }
{
    let mut cursor = bits.cursor();
    let mut values = Vec::new(alloc);
    for kind in kinds {
        let Some(number) = read_field::<C>(&mut cursor, *kind) else {
            return Ok(None);
        };
        values.push(number)?;
    }
    if cursor.rest().is_empty() {
        Ok(Some(FieldValues { values }))
    } else {
        Ok(None)
    }
}

/// The number of the field that comes next, which the cursor moves past, or `None` where there is
/// none; the cursor then stays. It takes no memory.
#[inline(always)]
pub fn read_field<C: NumCode>(cursor: &mut Cursor<'_>, kind: FieldKind) -> Option<u64>
    ensures { Takes (takes_field C.takes kind) result cursor.old cursor.new }
{
    match kind {
        FieldKind::Num => C::read(cursor),
        FieldKind::Bit => match cursor.bit() {
            Some(true) => Some(1),
            Some(false) => Some(0),
            None => None,
        },
    }
}

fn append_fields<C: NumCode>(
    bits: &mut BitBuf,
    kinds: &[FieldKind],
    numbers: &[u64],
) -> Result<(), NoMemory>
    requires many { length numbers.now ≡ length kinds.now }
    requires coded { AreCoded kinds.now numbers.now }
    ensures { OnOk result (bits.new ≡ bits.old ++ codes_of C.code kinds.now numbers.now) }
{
    for i in 0..kinds.len() {
        append_field::<C>(bits, kinds[i], numbers[i])?;
    }
    Ok(())
}

fn append_field<C: NumCode>(bits: &mut BitBuf, kind: FieldKind, number: u64) -> Result<(), NoMemory>
    requires { number ≤ most_of kind }
    ensures { OnOk result (bits.new ≡ bits.old ++ field_code C.code kind number) }
{
    match kind {
        FieldKind::Num => C::write(bits, number),
        FieldKind::Bit => bits.push(number == 1),
    }
}
