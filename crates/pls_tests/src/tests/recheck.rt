//! Edits, and rounds in which touched nodes are judged again.

pub(super) const ROWS: &str = "
## Edits, and the rounds in which nodes are judged again.
1 recheck bipartite < star | star-colours \
    | edits; label 1 1 80; round; state 2 - 0 7; round; unlink 1 4; round \
    > node 1 accept / node 2 accept / node 3 accept / node 4 accept \
    / round 0 checked 4 connected yes rejecting 0 / node 1 reject 1 3 / node 2 reject 1 3 \
    / node 3 reject 1 3 / node 4 reject 1 3 / round 1 checked 4 connected yes rejecting 4 \
    / node 1 reject 1 3 / node 2 reject 1 3 / node 3 reject 1 3 / node 4 reject 1 3 \
    / round 2 checked 1 connected yes rejecting 4 / node 1 reject 1 3 / node 2 reject 1 3 \
    / node 3 reject 1 3 / node 4 accept / round 3 checked 2 connected no rejecting 3
0 recheck bipartite < pair | colours | edits; round; join 9 0 0; leave 9; round \
    > node 1 accept / node 2 accept / round 0 checked 2 connected yes rejecting 0 \
    / node 1 accept / node 2 accept / round 1 checked 0 connected yes rejecting 0 \
    / node 1 accept / node 2 accept / round 2 checked 0 connected yes rejecting 0
0 recheck bipartite < pair | colours | edits \
    > node 1 accept / node 2 accept / round 0 checked 2 connected yes rejecting 0
0 recheck bipartite < pair | colours | edits; join 9 0 0; leave 9; round \
    > node 1 accept / node 2 accept / round 0 checked 2 connected yes rejecting 0 \
    / node 1 accept / node 2 accept / round 1 checked 0 connected yes rejecting 0
0 recheck bipartite < pair | colours | edits; join 9 0 0; round; link 2 9 1; label 9 1 00; \
    round > node 1 accept / node 2 accept / round 0 checked 2 connected yes rejecting 0 \
    / node 1 accept / node 2 accept / node 9 reject 1 1 \
    / round 1 checked 1 connected no rejecting 1 / node 1 accept / node 2 accept \
    / node 9 accept / round 2 checked 2 connected yes rejecting 0

## Edits of which one does not apply.
3 recheck bipartite < pair | colours | edits; link 1 2 3; round > refused 30 at 12
3 recheck bipartite < pair | colours | edits; leave 1; round > refused 30 at 12
3 recheck bipartite < pair | colours | edits; state 1 1 0 0; round > refused 30 at 12
3 recheck bipartite < pair | colours | edits; join 2 0 0; round > refused 30 at 12
3 recheck bipartite < pair | colours | edits; unlink 1 2; unlink 1 2; round > refused 30 at 13
3 recheck bipartite < pair | colours | edits; round; leave 9; round > refused 30 at 13
3 recheck bipartite < pair | colours | edits; round; weight 1 3 7; round > refused 30 at 13
3 recheck bipartite < pair | colours | edits; round; label 3 0 -; round > refused 30 at 13
# The last line is no `round`.
3 recheck bipartite < pair | colours | edits; state 1 - 0 1 > refused form at 13
";
