//! Levels that are read where they lie, one after another.

ghost use Rattle.std.specs.Prelude.{◌≡◌, ◌==◌, None, IfSome, IfNone};
ghost use Rattle.std.specs.List.{list_all};
ghost use Rattle.pls_numbers.specs.Taking.{IsTaken, items_off};
ghost use Rattle.pls_mst.specs.Labels.{level_off};

use pls_bits::NumCode;
use pls_boruvka::Level;
use pls_numbers::Numbers;

// `None` where no level follows whose edge has its smaller end first.
#[inline(always)]
pub(crate) fn read_level<C: NumCode>(numbers: &mut Numbers<'_, C>) -> Option<Level>
    ensures found { IfSome result (λ level. IsTaken level_off level numbers.old numbers.new) }
    ensures none { IfNone result (level_off numbers.old.numbers ≡ None) }
{
    let fragment = numbers.next()?;
    let weight = numbers.next()?;
    let a = numbers.next()?;
    let b = numbers.next()?;
    if a < b {
        Some(Level {
            fragment,
            weight,
            a,
            b,
        })
    } else {
        None
    }
}

// Stops at the first of `count` levels with another fragment.
pub(crate) fn all_have<C: NumCode>(numbers: &mut Numbers<'_, C>, count: u64, own: u64) -> bool
    ensures { result ≡ list_all (λ level. level.fragment == own)
        (items_off level_off count numbers.old.numbers) }
{
    for _ in 0..count {
        let Some(level) = read_level(numbers) else {
            return true;
        };
        if level.fragment != own {
            return false;
        }
    }
    true
}
