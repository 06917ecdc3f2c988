//! Lightest trees, by the levels of Boruvka's method and by centroids.

pub(super) const ROWS: &str = "
## Lightest trees, others, and the levels that show them.
0 mark mst < alone > labels / label 5 17 318d80 / end
0 mark mst < triangle > labels / label 1 29 49521098 / label 2 31 4d24c426 \
    / label 3 37 446d104320 / end
1 mark mst < heavy > no
0 mark mst < ring > labels / label 1 41 495a49a33200 / label 2 43 4d26d268cc80 \
    / label 3 53 446d9110a43320 / label 4 57 452119510a433200 / end
0 bound mst < ring > bound 63

## Levels, right and wrong.
0 verify mst < alone | labels; label 5 17 318d80 > node 5 accept / rejecting 0
0 verify mst < triangle | labels; label 1 29 49521098; label 2 31 4d24c426; \
    label 3 37 446d104320 > node 1 accept / node 2 accept / node 3 accept / rejecting 0
# An edge that is not the lightest, and another fragment.
1 verify mst < heavy | labels; label 1 41 495a48892200; label 2 41 4d26da6db200; \
    label 3 49 446d9122112200 > node 1 accept / node 2 reject 1 6 / node 3 accept / rejecting 1
1 verify mst < chain | labels; label 1 29 4950a498; label 2 27 4d24d260; label 3 35 446d0a6c80 \
    > node 1 reject 1 5 / node 2 accept / node 3 reject 1 5 / rejecting 2
# 2^60 levels, and the label of a neighbour.
1 verify mst < alone | labels; label 5 137 318d00000000000000080000000000000080 \
    > node 5 reject 1 1 / rejecting 1
1 verify mst < triangle | labels; label 1 29 49521098; label 2 31 4d24c426; label 3 31 4d24c426 \
    > node 1 accept / node 2 accept / node 3 reject 1 3 / rejecting 1

## Lightest trees, and the centroids that show them.
0 mark pathmax < alone > labels / label 5 26 318d46c0 / end
0 mark pathmax < triangle > labels / label 1 31 495b4216 / label 2 20 4d24f0 \
    / label 3 37 446db42098 / end
1 mark pathmax < heavy > no
0 bound pathmax < alone > bound 30
1 verify pathmax < heavy | labels; label 1 27 495b4960; label 2 20 4d24f0; \
    label 3 33 446db48980 > node 1 reject 1 5 / node 2 accept / node 3 reject 1 5 / rejecting 2
1 mark pathmax < two-trees > no
0 verify pathmax < triangle | labels; label 1 31 495b4216; label 2 20 4d24f0; \
    label 3 37 446db42098 > node 1 accept / node 2 accept / node 3 accept / rejecting 0
";
