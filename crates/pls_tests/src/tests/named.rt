//! The parts of an input that have a name.

/// Names and what they stand for, each below what it shows.
pub(super) const NAMED: &str = "
# A node alone.
alone = network; node 5 - 0 0
# Two nodes with an edge.
pair = network; node 1 - 0 0; port 2 1; node 2 - 0 0; port 1 1
# Two nodes without an edge.
apart = network; node 1 - 0 0; node 2 - 0 0
# Two nodes that point at each other.
circle = network; node 1 0 0 0; port 2 0; node 2 0 0 0; port 1 0
# Three nodes in a row, without pointers.
row = network; node 1 - 0 0; port 2 1; node 2 - 0 0; port 1 1; port 3 2; node 3 - 0 0; port 2 2
# The same, and each but the first points at the one before it.
chain = network; node 1 - 0 0; port 2 1; node 2 0 0 0; port 1 1; port 3 2; node 3 0 0 0; port 2 2
# The same, and the second alone points.
two-trees = network; node 1 - 0 0; port 2 1; node 2 0 0 0; port 1 1; port 3 2; node 3 - 0 0; \
    port 2 2
# Each of three nodes joined to the others; the last points at the second.
triangle = network; node 1 - 0 0; port 2 7; port 3 7; node 2 0 0 0; port 1 7; port 3 7; \
    node 3 1 0 0; port 1 7; port 2 7
# The same, where the lightest edge is not pointed along.
heavy = network; node 1 - 0 0; port 2 2; port 3 1; node 2 0 0 0; port 1 2; port 3 2; node 3 1 0 0; \
    port 1 1; port 2 2
# Four nodes in a ring; each but the first points at the one before it.
ring = network; node 1 - 0 0; port 2 1; port 4 5; node 2 0 0 0; port 1 1; port 3 5; node 3 0 0 0; \
    port 2 5; port 4 1; node 4 0 0 0; port 3 1; port 1 5
# A centre and three leaves.
star = network; node 1 - 0 0; port 2 1; port 3 1; port 4 1; node 2 - 0 0; port 1 1; node 3 - 0 0; \
    port 1 1; node 4 - 0 0; port 1 1
# Four nodes in a row, the first of which is marked.
marked = network; node 1 - 1 0; port 2 1; node 2 - 0 0; port 1 1; port 3 1; node 3 - 0 0; \
    port 2 1; port 4 1; node 4 - 0 0; port 3 1
# The same, and the last is marked too.
two-marks = network; node 1 - 1 0; port 2 1; node 2 - 0 0; port 1 1; port 3 1; node 3 - 0 0; \
    port 2 1; port 4 1; node 4 - 1 0; port 3 1
# A pair, and the one marked node, which is alone.
pair-and-one = network; node 1 - 0 0; port 2 1; node 2 - 0 0; port 1 1; node 3 - 1 0
# Six nodes in a ring, the first one marked.
six = network; node 1 - 1 0; port 2 1; port 6 1; node 2 - 0 0; port 1 1; port 3 1; node 3 - 0 0; \
    port 2 1; port 4 1; node 4 - 0 0; port 3 1; port 5 1; node 5 - 0 0; port 4 1; port 6 1; \
    node 6 - 0 0; port 5 1; port 1 1
# Eight nodes in a ring, the first one marked.
eight = network; node 1 - 1 0; port 2 1; port 8 1; node 2 - 0 0; port 1 1; port 3 1; node 3 - 0 0; \
    port 2 1; port 4 1; node 4 - 0 0; port 3 1; port 5 1; node 5 - 0 0; port 4 1; port 6 1; \
    node 6 - 0 0; port 5 1; port 7 1; node 7 - 0 0; port 6 1; port 8 1; node 8 - 0 0; port 7 1; \
    port 1 1
# Two nodes that have the property of every scheme.
all = network; node 1 - 1 2; port 2 1; node 2 0 0 2; port 1 1
# Six nodes in a ring that have the property of every scheme but `acyclic`.
round = network; node 1 - 1 6; port 2 1; port 6 5; node 2 0 0 6; port 1 1; port 3 1; node 3 0 0 6; \
    port 2 1; port 4 1; node 4 0 0 6; port 3 1; port 5 1; node 5 0 0 6; port 4 1; port 6 1; \
    node 6 0 0 6; port 5 1; port 1 5
# The most nodes, each of which but the first points at it.
hub = network; node 1 - 0 0{32767 of ; port #2# 4294967295}\
    {32767 of ; node #2# 0 0 0; port 1 4294967295}
# 200 nodes in a row, and 4096.
path = network; node 1 - 0 0; port 2 1{198 of ; node #2# - 0 0; port #1# 1; port #3# 1}; \
    node 200 - 0 0; port 199 1
long-path = network; node 1 - 0 0; port 2 1{4094 of ; node #2# - 0 0; port #1# 1; port #3# 1}; \
    node 4096 - 0 0; port 4095 1
# One node more than there may be, and a node with one port more.
many-nodes = network{32769 of ; node #0# - 0 0}
many-ports = network; node 1 - 0 0{262145 of ; port 2 1}
# Labels of the pair, each of one bit more than half of what all may have.
many-bits = labels; label 1 134217729 {1048576 of 00000000000000000000000000000000}00; \
    label 2 134217729 {1048576 of 00000000000000000000000000000000}00
# A colour for each node of the pair.
colours = labels; label 1 1 00; label 2 1 80
# A colour for each node of the star.
star-colours = labels; label 1 1 00; label 2 1 80; label 3 1 80; label 4 1 80
# A colour for each node of the pair and the one.
one-colours = labels; label 1 1 00; label 2 1 80; label 3 1 00
# A colour for each node of the ring of six.
six-colours = labels; label 1 1 00; label 2 1 80; label 3 1 00; label 4 1 80; label 5 1 00; \
    label 6 1 80
# A colour for each node of the ring of eight.
eight-colours = labels; label 1 1 00; label 2 1 80; label 3 1 00; label 4 1 80; label 5 1 00; \
    label 6 1 80; label 7 1 00; label 8 1 80
# Each neighbour has another colour.
differ = rules; field colour bit; rule all(not(eq(nb.colour,my.colour)))
";
