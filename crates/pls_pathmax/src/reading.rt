//! Levels that are read where they lie.

ghost use Rattle.std.specs.Prelude.{◌≡◌, None, IfSome, IfNone};
ghost use Rattle.pls_numbers.specs.Taking.{IsTaken};
ghost use Rattle.pls_pathmax.specs.Labels.{centroid_level_off};

use pls_bits::NumCode;
use pls_centroid::CentroidLevel;
use pls_numbers::Numbers;

#[inline(always)]
pub(crate) fn read_level<C: NumCode>(numbers: &mut Numbers<'_, C>) -> Option<CentroidLevel>
    ensures found { IfSome result
        (λ level. IsTaken centroid_level_off level numbers.old numbers.new) }
    ensures none { IfNone result (centroid_level_off numbers.old.numbers ≡ None) }
{
    let centroid = numbers.next()?;
    let hops = numbers.next()?;
    let greatest = numbers.next()?;
    Some(CentroidLevel {
        centroid,
        hops,
        greatest,
    })
}
