//! Levels in as few bytes as the numbers of a right label need.

ghost use Rattle.std.specs.Prelude.{◌≡◌, true, false, IfSome, IfNone};
ghost use Rattle.pls_pathmax.specs.inner.KeptLevel.{fits, kept_of, whole};

use pls_centroid::CentroidLevel;
use pls_levels::is_short;

/// A level whose numbers are all below 2^32, in half of its bytes.
#[derive(Clone, Copy, Debug, PartialEq, Eq)]
pub struct KeptLevel {
    pub(crate) centroid: u32,
    pub(crate) hops: u32,
    pub(crate) greatest: u32,
}

impl KeptLevel {
    // `None` where a number has more than 32 bits.
    #[inline(always)]
    pub(crate) fn of(level: &CentroidLevel) -> Option<KeptLevel>
        ensures fits { IfSome result (λ _. fits level.now ≡ true) }
        ensures found { IfSome result (λ short. short ≡ kept_of level.now) }
        ensures none { IfNone result (fits level.now ≡ false) }
    {
        if is_short(level.centroid) && (is_short(level.hops) && is_short(level.greatest)) {
            Some(KeptLevel {
                centroid: level.centroid as u32,
                hops: level.hops as u32,
                greatest: level.greatest as u32,
            })
        } else {
            None
        }
    }

    #[inline(always)]
    pub(crate) fn whole(&self) -> CentroidLevel
        ensures { result ≡ whole self.now }
    {
        CentroidLevel {
            centroid: u64::from(self.centroid),
            hops: u64::from(self.hops),
            greatest: u64::from(self.greatest),
        }
    }
}
