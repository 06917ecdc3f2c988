//! Labels of expressions under another number code.

ghost use Rattle.std.specs.Prelude.{◌≡◌, ◌<◌, ℕ, Bool, true, List, Option, Some, None, length, slice_get, take, IfOk, IfSome};
ghost use Rattle.pls_numbers.specs.Shape.{recoded};
ghost use Rattle.pls_universal.specs.Reading.{map_shape};
ghost use Rattle.pls_expressions.specs.Held.{expression_of};
ghost use Rattle.pls_combine.specs.Converted.{all_converted, converted, first_unreadable};

use crate::any_scheme::AnyScheme;
use pls_bits::{BitBuf, Bits, NumCode};
use pls_expressions::ExpressionTree;
use pls_labels::LabelStore;
use pls_names::SchemeByName;
use pls_numbers::recode;
use pls_parts::{joined_bits, parts, tagged_bits};
use pls_streams::NoMemory;
use pls_universal::{MapFormat, recode_beside};
use std::alloc::Global;

impl<C: NumCode> AnyScheme<C> {
    /// The label that the bits are, written in the number code `D`, or `None` where they are no
    /// label. The one error is want of memory, by which a part too long for a length code goes too.
    pub fn convert_label<D: NumCode>(
        &self,
        alloc: Global,
        bits: &Bits<'_>,
    ) -> Result<Option<BitBuf>, NoMemory>
        ensures { IfOk result (λ found. found ≡ converted C.takes D.code self.now bits.now) }
    {
        convert_tree::<C, D>(alloc, self.tree(), bits)
    }

    /// Puts labels into a store with as many, each written in the number code `D`, up to the first
    /// that cannot be read, and answers the place of that. A map that the label before has too is
    /// copied. The one error is want of memory, by which a part too long for a length code goes
    /// too.
    pub fn convert_labels<D: NumCode>(
        &self,
        alloc: Global,
        labels: &LabelStore,
        into: &mut LabelStore,
    ) -> Result<Option<usize>, NoMemory>
        requires { length into.old ≡ length labels.now }
        ensures place { IfOk result (λ place.
            place ≡ first_unreadable (converted C.takes D.code self.now) labels.now) }
        ensures within { IfOk result (λ place. IfSome place (λ place. place < length labels.now)) }
        ensures all { IfOk result (λ place. place ≡ None
            → into.new ≡ all_converted (converted C.takes D.code self.now) labels.now) }
    {
        for place in 0..labels.len() {
            match self.convert_at::<D>(alloc, labels, into, place)? {
                Some(label) => into.replace(place, &label)?,
                None => return Ok(Some(place)),
            }
        }
        Ok(None)
    }

    // `into` holds the labels before `place`; `None` where the label cannot be read.
    fn convert_at<D: NumCode>(
        &self,
        alloc: Global,
        labels: &LabelStore,
        into: &LabelStore,
        place: usize,
    ) -> Result<Option<BitBuf>, NoMemory>
        requires within { place < length labels.now }
        requires each { length into.now ≡ length labels.now }
        requires read { first_unreadable (converted C.takes D.code self.now) (take place labels.now)
            ≡ None }
        requires made { take place into.now
            ≡ all_converted (converted C.takes D.code self.now) (take place labels.now) }
        ensures { IfOk result (λ found. (bits : List Bool) → slice_get labels.now place ≡ Some bits
            → found ≡ converted C.takes D.code self.now bits) }
    {
        let bits = labels.bits(place);
        if place == 0 || !self.is_map() {
            return self.convert_label::<D>(alloc, &bits);
        }
        let (old, new) = (labels.bits(place - 1), into.bits(place - 1));
        recode_beside::<C, D>(alloc, &bits, &old, &new)
    }

    // Whether labels are maps.
    fn is_map(&self) -> bool
        ensures { result ≡ true → (takes : List Bool → Option (ℕ × List Bool))
            (code : ℕ → List Bool) (bits : List Bool)
            → converted takes code self.now bits ≡ recoded map_shape takes code bits }
    {
        matches!(self.tree(), ExpressionTree::Map(_))
    }
}

// `None` where the bits cannot be read.
fn convert_tree<C: NumCode, D: NumCode>(
    alloc: Global,
    tree: &ExpressionTree,
    bits: &Bits<'_>,
) -> Result<Option<BitBuf>, NoMemory>
    ensures { IfOk result
        (λ found. found ≡ converted C.takes D.code (expression_of tree.now) bits.now) }
{
    match tree {
        ExpressionTree::Of(name) => SchemeByName::<C>::new(*name).convert_label::<D>(alloc, bits),
        ExpressionTree::And(first, second) => {
            let Some((front, back)) = parts::<C>(bits) else {
                return Ok(None);
            };
            let Some(front) = convert_tree::<C, D>(alloc, first, &front)? else {
                return Ok(None);
            };
            let Some(back) = convert_tree::<C, D>(alloc, second, &back)? else {
                return Ok(None);
            };
            Ok(Some(joined_bits::<D>(alloc, front.bits(), back.bits())?))
        }
        ExpressionTree::Or(first, second) => {
            let mut cursor = bits.cursor();
            let Some(tag) = cursor.bit() else {
                return Ok(None);
            };
            let part = if tag { second } else { first };
            let Some(rest) = convert_tree::<C, D>(alloc, part, &cursor.rest())? else {
                return Ok(None);
            };
            Ok(Some(tagged_bits(alloc, tag, rest.bits())?))
        }
        ExpressionTree::Diameter(_) | ExpressionTree::Bridgeless | ExpressionTree::Map(_) => {
            recode::<MapFormat, C, D>(&MapFormat, alloc, bits)
        }
    }
}
