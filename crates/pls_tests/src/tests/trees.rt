//! Trees, forests, networks without a ring, two-colourings, leaders, counts and nearest walks.

pub(super) const ROWS: &str = "
## Networks and their labels, or none.
# Pointers that make a tree, and others.
1 mark tree < circle > no
1 mark forest < circle > no
0 mark tree < chain > labels / label 1 4 50 / label 2 6 48 / label 3 6 4c / end
0 mark forest < chain > labels / label 1 1 80 / label 2 3 40 / label 3 3 60 / end
1 mark tree < row > no
0 mark forest < row > labels / label 1 1 80 / label 2 1 80 / label 3 1 80 / end
1 mark tree < two-trees > no
0 mark tree < alone > labels / label 5 6 34 / end
# Edges that close no ring.
0 mark acyclic < chain > labels / label 1 1 80 / label 2 3 40 / label 3 3 60 / end
0 mark acyclic < row > labels / label 1 1 80 / label 2 3 40 / label 3 3 60 / end
1 mark acyclic < ring > no
1 mark acyclic < triangle > no
# Two colours.
0 mark bipartite < pair > labels / label 1 1 00 / label 2 1 80 / end
1 mark bipartite < triangle > no
0 mark bipartite < alone > labels / label 5 1 00 / end
0 mark bipartite < row > labels / label 1 1 00 / label 2 1 80 / label 3 1 00 / end
0 mark bipartite < ring > labels / label 1 1 00 / label 2 1 80 / label 3 1 00 / label 4 1 80 / end
# One leader, how many nodes there are, nearest walks.
0 mark leader < marked > labels / label 1 4 50 / label 2 6 48 / label 3 6 4c / label 4 8 44 / end
0 mark leader < eight > labels / label 1 4 50 / label 2 6 48 / label 3 6 4c / label 4 8 44 \
    / label 5 8 45 / label 6 8 44 / label 7 6 4c / label 8 6 48 / end
0 mark count < network; node 1 - 0 2; port 2 1; node 2 - 0 2; port 1 1 \
    > labels / label 1 16 495b / label 2 18 4d24c0 / end
1 mark count < pair > no
1 mark spt < circle > no
1 mark spt < ring > no
0 bound bipartite < pair > bound 1

## Networks with labels, right and wrong.
# Two colours, one colour, a label of two bits, an empty one.
0 verify bipartite < pair | colours > node 1 accept / node 2 accept / rejecting 0
1 verify bipartite < pair | labels; label 1 0 -; label 2 1 80 \
    > node 1 reject 1 1 / node 2 reject 1 2 / rejecting 2
1 verify bipartite < pair | labels; label 1 1 80; label 2 1 80 \
    > node 1 reject 1 3 / node 2 reject 1 3 / rejecting 2
1 verify bipartite < pair | labels; label 1 2 00; label 2 1 80 \
    > node 1 reject 1 1 / node 2 reject 1 2 / rejecting 2
# Labels that were marked, of nodes with pointers, marks, numbers and weights of their own.
0 mark bipartite < network; node 3 - 0 0; port 5 2; port 9 0; node 5 0 1 7; port 3 2; port 6 1; \
    node 6 - 0 0; port 5 1; port 9 1; node 9 - 0 0; port 3 0; port 6 1 \
    > labels / label 3 1 00 / label 5 1 80 / label 6 1 00 / label 9 1 80 / end
0 verify bipartite < network; node 3 - 0 0; port 5 2; port 9 0; node 5 0 1 7; port 3 2; port 6 1; \
    node 6 - 0 0; port 5 1; port 9 1; node 9 - 0 0; port 3 0; port 6 1 | labels; label 3 1 00; \
    label 5 1 80; label 6 1 00; label 9 1 80 \
    > node 3 accept / node 5 accept / node 6 accept / node 9 accept / rejecting 0
# A leader, and two.
0 verify leader < marked | labels; label 1 4 50; label 2 6 48; label 3 6 4c; label 4 8 44 \
    > node 1 accept / node 2 accept / node 3 accept / node 4 accept / rejecting 0
1 verify leader < two-marks | labels; label 1 4 50; label 2 6 48; label 3 8 2a; label 4 6 2c \
    > node 1 accept / node 2 reject 1 3 / node 3 reject 1 3 / node 4 accept / rejecting 2
# Pointers in a circle, two trees, another root, a ring.
1 verify tree < circle | labels; label 1 4 50; label 2 4 50 \
    > node 1 reject 1 5 / node 2 reject 1 5 / rejecting 2
1 verify tree < two-trees | labels; label 1 4 50; label 2 6 48; label 3 6 24 \
    > node 1 accept / node 2 reject 1 3 / node 3 reject 1 3 / rejecting 2
1 verify tree < chain | labels; label 1 4 50; label 2 6 48; label 3 6 6c \
    > node 1 accept / node 2 reject 1 3 / node 3 reject 1 3 / rejecting 2
1 verify acyclic < triangle | labels; label 1 1 80; label 2 3 40; label 3 3 40 \
    > node 1 accept / node 2 reject 1 3 / node 3 reject 1 3 / rejecting 2
1 verify acyclic < ring | labels; label 1 1 80; label 2 3 40; label 3 3 60; label 4 3 40 \
    > node 1 accept / node 2 accept / node 3 reject 1 4 / node 4 accept / rejecting 1
# A depth: its code cut off, a bit behind it, no code, and just a code.
1 verify forest < alone | labels; label 5 2 00 > node 5 reject 1 1 / rejecting 1
1 verify forest < alone | labels; label 5 2 c0 > node 5 reject 1 1 / rejecting 1
1 verify forest < alone | labels; label 5 0 - > node 5 reject 1 1 / rejecting 1
0 verify forest < alone | labels; label 5 1 80 > node 5 accept / rejecting 0
# 2^63 - 1, which has no code, and 2^63 - 2, the greatest number that has one.
1 verify forest < alone | labels; label 5 127 00000000000000010000000000000000 \
    > node 5 reject 1 1 / rejecting 1
1 verify forest < alone | labels; label 5 125 0000000000000003fffffffffffffff8 \
    > node 5 reject 1 3 / rejecting 1
1 verify forest < network; node 1 - 0 0; port 2 1; node 2 0 0 0; port 1 1 | labels; \
    label 1 125 0000000000000003fffffffffffffff8; label 2 1 80 \
    > node 1 reject 1 3 / node 2 reject 1 4 / rejecting 2
";
