//! The limits within which inputs are read, and networks and labels are made.

/// The greatest number of bytes of an input, 2^27.
pub const MAX_INPUT: u64 = 134_217_728;

/// The greatest number of nodes.
pub const MAX_NODES: usize = 32_768;

/// The greatest number of ports of all nodes together; each edge has two.
pub const MAX_PORTS: usize = 262_144;

/// The greatest number of ports of one node, which has at most one to each other node.
pub const MAX_DEGREE: usize = 32_767;

/// The greatest number of 32 bits, 2^32 - 1: of identities, marks, weights and ports, and in the
/// lines of events and edits.
pub const MAX_WORD: u64 = 4_294_967_295;

/// The greatest `num` of a state, 2^62.
pub const MAX_NUM: u64 = 4_611_686_018_427_387_904;

/// The greatest number of bits of one label, and of all labels together, 2^28.
pub const MAX_BITS: u64 = 268_435_456;

/// The greatest number of lines between the heading and the end of a schedule, of edits or of a
/// watch, 2^20.
pub const MAX_LINES: usize = 1_048_576;

/// The greatest number of `round` lines of edits, and of `look` lines of a watch.
pub const MAX_ROUNDS: usize = 128;
