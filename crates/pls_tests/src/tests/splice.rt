//! Rings of which two edges are crossed.

pub(super) const ROWS: &str = "
## Rings with two edges that may be crossed, and without.
0 splice bipartite < eight | eight-colours \
    > network / node 1 - 1 0 / port 6 1 / port 8 1 / node 2 - 0 0 / port 5 1 / port 3 1 \
    / node 3 - 0 0 / port 2 1 / port 4 1 / node 4 - 0 0 / port 3 1 / port 5 1 / node 5 - 0 0 \
    / port 4 1 / port 2 1 / node 6 - 0 0 / port 1 1 / port 7 1 / node 7 - 0 0 / port 6 1 \
    / port 8 1 / node 8 - 0 0 / port 7 1 / port 1 1 / end / labels / label 1 1 00 \
    / label 2 1 80 / label 3 1 00 / label 4 1 80 / label 5 1 00 / label 6 1 80 / label 7 1 00 \
    / label 8 1 80 / end
0 splice < eight | eight-colours | differ \
    > network / node 1 - 1 0 / port 6 1 / port 8 1 / node 2 - 0 0 / port 5 1 / port 3 1 \
    / node 3 - 0 0 / port 2 1 / port 4 1 / node 4 - 0 0 / port 3 1 / port 5 1 / node 5 - 0 0 \
    / port 4 1 / port 2 1 / node 6 - 0 0 / port 1 1 / port 7 1 / node 7 - 0 0 / port 6 1 \
    / port 8 1 / node 8 - 0 0 / port 7 1 / port 1 1 / end / labels / label 1 1 00 \
    / label 2 1 80 / label 3 1 00 / label 4 1 80 / label 5 1 00 / label 6 1 80 / label 7 1 00 \
    / label 8 1 80 / end
1 splice bipartite < six | six-colours > none
1 splice leader < eight | labels; label 1 4 50; label 2 6 48; label 3 6 4c; label 4 8 44; \
    label 5 8 45; label 6 8 44; label 7 6 4c; label 8 6 48 > none

## Networks that are no ring, and rings of which a node rejects.
3 splice bipartite < pair | colours > refused 70 at 1
3 splice bipartite < six | labels; label 1 1 00; label 2 1 00; label 3 1 00; label 4 1 00; \
    label 5 1 00; label 6 1 00 > refused 71 at 1
3 splice bipartite < pair | labels; label 1 1 00; label 2 1 00 > refused 70 at 1
3 splice bipartite < network; node 1 - 0 0; port 2 1; port 3 1; node 2 - 0 0; port 1 1; port 3 1; \
    node 3 - 0 0; port 1 1; port 2 1; node 4 - 0 0; port 5 1; port 6 1; node 5 - 0 0; port 4 1; \
    port 6 1; node 6 - 0 0; port 4 1; port 5 1 | labels; label 1 1 00; label 2 1 00; label 3 1 00; \
    label 4 1 00; label 5 1 00; label 6 1 00 > refused 70 at 4
3 splice bipartite < network; node 1 - 0 0; port 2 1; port 3 1; node 2 - 0 0; port 1 1; port 3 1; \
    node 3 - 0 0; port 1 1; port 2 1; node 5 - 0 0; port 7 1; port 8 1; node 7 - 0 0; port 5 1; \
    port 8 1; node 8 - 0 0; port 5 1; port 7 1 | labels; label 1 1 00; label 2 1 00; label 3 1 00; \
    label 5 1 00; label 7 1 00; label 8 1 00 > refused 70 at 5
3 splice acyclic < round | labels; label 1 1 80; label 2 1 80; label 3 1 80; label 4 1 80; \
    label 5 1 80; label 6 1 80 > refused 71 at 1
";
