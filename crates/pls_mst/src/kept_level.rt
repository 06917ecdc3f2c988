//! Levels in as few bytes as the numbers of a right label need.

ghost use Rattle.std.specs.Prelude.{◌≡◌, true, false, IfSome, IfNone};
ghost use Rattle.pls_mst.specs.inner.KeptLevel.{fits, kept_of, whole};

use pls_boruvka::Level;
use pls_levels::is_short;

/// A level whose numbers are all below 2^32, in half of its bytes.
#[derive(Clone, Copy, Debug, PartialEq, Eq)]
pub struct KeptLevel {
    pub(crate) fragment: u32,
    pub(crate) weight: u32,
    pub(crate) a: u32,
    pub(crate) b: u32,
}

impl KeptLevel {
    // `None` where a number has more than 32 bits.
    #[inline(always)]
    pub(crate) fn of(level: &Level) -> Option<KeptLevel>
        ensures fits { IfSome result (λ _. fits level.now ≡ true) }
        ensures found { IfSome result (λ short. short ≡ kept_of level.now) }
        ensures none { IfNone result (fits level.now ≡ false) }
    {
        if is_short(level.fragment)
            && (is_short(level.weight) && (is_short(level.a) && is_short(level.b)))
        {
            Some(KeptLevel {
                fragment: level.fragment as u32,
                weight: level.weight as u32,
                a: level.a as u32,
                b: level.b as u32,
            })
        } else {
            None
        }
    }

    #[inline(always)]
    pub(crate) fn whole(&self) -> Level
        ensures { result ≡ whole self.now }
    {
        Level {
            fragment: u64::from(self.fragment),
            weight: u64::from(self.weight),
            a: u64::from(self.a),
            b: u64::from(self.b),
        }
    }
}
