//! Expressions of schemes, and properties that a map shows.

pub(super) const ROWS: &str = "
## Both of two schemes, and one of two.
0 mark and(bipartite,acyclic) < pair > labels / label 1 5 48 / label 2 7 54 / end
0 bound and(bipartite,acyclic) < pair > bound 7
0 verify and(bipartite,acyclic) < pair | labels; label 1 5 48; label 2 7 54 \
    > node 1 accept / node 2 accept / rejecting 0
1 mark and(bipartite,acyclic) < ring > no
1 mark or(count,acyclic) < ring > no
# A tag names no scheme that has these labels.
1 verify or(bipartite,mst) < pair | labels; label 1 2 00; label 2 1 80 \
    > node 1 reject 0 3 / node 2 reject 0 3 / rejecting 2

## Properties without a scheme, shown by a map of the network.
0 mark map(diameter:1) < pair > labels / label 1 36 4d74d3e920 / label 2 36 6d74d3e920 / end
1 verify map(diameter:2) < pair | labels; label 1 63 445d34fb48889d34; \
    label 2 63 645d34fb48889d34 > node 1 accept / node 2 reject 1 6 / rejecting 1
1 mark map(bridgeless) < pair > no
0 mark map(diameter:0) < alone > labels / label 5 17 323780 / end
0 mark map(bridgeless) < alone > labels / label 5 17 323780 / end
# A map of 2^60 rows.
1 verify map(bridgeless) < alone | labels; label 5 126 30000000000000004000000000000004 \
    > node 5 reject 1 1 / rejecting 1
";
