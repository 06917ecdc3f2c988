//! The numbers by which a text names why an input makes no sense.

/// Identities do not rise.
pub const ORDER: u8 = 10;

/// A port names its own node.
pub const SELF_LINK: u8 = 11;

/// A node names a neighbour twice.
pub const TWICE: u8 = 12;

/// A node names an unknown neighbour.
pub const UNKNOWN: u8 = 13;

/// A port has no way back.
pub const ONE_WAY: u8 = 14;

/// The two ports of an edge have two weights.
pub const WEIGHTS: u8 = 15;

/// A node points at no port of its own.
pub const POINTER: u8 = 16;

/// A line of the labels does not fit the nodes.
pub const MISFIT: u8 = 20;

/// An edit does not apply to the network as it is then, or would make its labels too long.
pub const EDIT: u8 = 30;

/// An event names no node, no port of its node, or no emit before it.
pub const EVENT: u8 = 40;

/// An event of a watch names no node, no port of its node, or no emit before it.
pub const WATCH_EVENT: u8 = 41;

/// A rule set names a field twice, names one that it does not have, or asks of a neighbour outside
/// of all quantifiers.
pub const FIELD: u8 = 50;

/// A rule is nested too deep.
pub const DEPTH: u8 = 51;

/// A label cannot be read, so that it is not converted.
pub const UNREADABLE: u8 = 60;

/// A network is no ring.
pub const NO_RING: u8 = 70;

/// A node rejects its label.
pub const REJECTS: u8 = 71;
