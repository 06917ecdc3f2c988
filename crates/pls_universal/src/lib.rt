//! The universal scheme (Korman, Kutten and Peleg 2010): each label holds its node's identity and a
//! map of the whole network. [`MapOf`] is the scheme of any property that a test tells
//! ([`PropertyTest`]). Its round reads and decides each map once, for all nodes that have it.
//!
//! `specs/Map` says of which numbers a map is (`numbers_of_map`, `map_of`), and `specs/Reading`
//! what numbers say (`map_shape` of a label, `rows_shape` of a map alone). [`MapFormat`] reads and
//! writes labels ([`MapLabel`]); a map may state any number of records: room is made as they come,
//! never by a count that is stated. [`write_map`] writes the map of a network, [`map_labels`]
//! labels one, and [`map_bound`] tells the length of its longest label at most (`specs/Bound`:
//! `longest_map`). [`recode_beside`] writes a label in another number code, and copies the map
//! where another label with the same one was written before.
//!
//! `specs/Rules` says what a node asks of the maps in its view (`map_rules`), by the test of the
//! property. [`PropertyTest::maps_are_right`] is the theorem: where the rules hold at all
//! nodes of a connected network, each map states that network, and the network has the property;
//! [`PropertyTest::right_maps_pass`] is its other half. Proofs above may cite `specs/laws/MapLaws`
//! (`map_numbers`), `specs/laws/MapShow` (`map_show`, `each_map`) and `specs/laws/MapMet`
//! (`map_met`, `map_one_right`); [`maps_are_short`] says that labels with maps are within the
//! bound.
#![tactic(auto)]

mod bound;
mod building;
mod deciding;
mod format;
mod map;
mod map_of;
mod marking;
mod property_test;
mod reading;
mod recoding;
mod stating;
mod verifying;
mod writing;

pub use bound::{map_bound, maps_are_short};
pub use format::MapFormat;
pub use map::{MapLabel, MapRow, PortList, RowList};
pub use map_of::MapOf;
pub use marking::map_labels;
pub use property_test::PropertyTest;
pub use recoding::recode_beside;
pub use writing::write_map;
