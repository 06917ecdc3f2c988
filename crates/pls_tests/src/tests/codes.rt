//! Labels in the delta code.

pub(super) const ROWS: &str = "
## Labels and bounds in the code that the words name.
0 mark leader --code delta < marked > labels delta / label 1 5 48 / label 2 8 44 / label 3 8 45 \
    / label 4 9 4600 / end
0 bound mst --code delta < ring > bound 64
0 --code delta mark leader < marked > labels delta / label 1 5 48 / label 2 8 44 / label 3 8 45 \
    / label 4 9 4600 / end
0 mark --code delta leader < marked > labels delta / label 1 5 48 / label 2 8 44 / label 3 8 45 \
    / label 4 9 4600 / end
0 mark bipartite --code gamma < pair > labels / label 1 1 00 / label 2 1 80 / end

## Labels in the delta code.
0 verify leader < marked | labels delta; label 1 5 48; label 2 8 44; label 3 8 45; \
    label 4 9 4600 > node 1 accept / node 2 accept / node 3 accept / node 4 accept / rejecting 0
3 splice tree < six | labels delta; label 1 5 48 > refused 20 at 23

## Labels in the gamma code, and what becomes of them.
0 convert mst < alone | labels; label 5 17 318d80 > labels delta / label 5 17 739d80 / end
3 convert forest < alone | labels; label 5 2 00 > refused 60 at 5
3 convert bipartite < pair | labels delta; label 1 1 00; label 2 1 80 > refused form at 7
3 convert forest < alone | labels delta; label 5 17 739d80 > refused form at 4
";
