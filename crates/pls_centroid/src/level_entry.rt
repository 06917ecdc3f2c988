//! What a level says of one node, in few bytes.

ghost use Rattle.std.specs.Prelude.{◌≡◌, None, Some};
ghost use Rattle.pls_centroid.specs.inner.Entry.{level_with};

use crate::level::CentroidLevel;
use crate::reaching::Way;
use std::marker::Model;

// What a level says of a node: its centroid and the way there, or nothing. Every level has an entry
// for each node, so its numbers have 32 bits, as identities, hops and weights of a network do.
#[derive(Drop)]
pub(crate) struct LevelEntry {
    centroid: Option<u32>,
    hops: u32,
    greatest: u32,
}

impl Model for LevelEntry {
    ghost use Rattle.std.specs.Prelude.{Option, option_map};
    ghost use Rattle.pls_centroid.specs.declared.level.CentroidLevel.{CentroidLevel};
    ghost use Rattle.pls_centroid.specs.inner.Entry.{level_with};

    ghost Value = { Option CentroidLevel };

    ghost view = { λ entry. option_map (λ centroid. level_with centroid entry.hops entry.greatest)
        entry.centroid };
}

impl LevelEntry {
    pub(crate) fn nothing() -> LevelEntry
        ensures { result ≡ None }
    {
        LevelEntry {
            centroid: None,
            hops: 0,
            greatest: 0,
        }
    }

    pub(crate) fn of_way(centroid: u32, way: Way) -> LevelEntry
        ensures { result ≡ Some (level_with centroid way.hops way.greatest) }
    {
        LevelEntry {
            centroid: Some(centroid),
            hops: way.hops,
            greatest: way.greatest,
        }
    }

    pub(crate) fn level(&self) -> Option<CentroidLevel>
        ensures { result ≡ self.now }
    {
        match self.centroid {
            Some(centroid) => Some(CentroidLevel {
                centroid: u64::from(centroid),
                hops: u64::from(self.hops),
                greatest: u64::from(self.greatest),
            }),
            None => None,
        }
    }
}
