//! Labels that change while messages are under way.

pub(super) const ROWS: &str = "
## Events with looks between them.
1 watch bipartite < pair | colours | watch; emit 1 0; emit 2 0; arrive 1; arrive 2; \
    relabel 1 1 80; look > node 1 reject 1 3 / node 2 accept stale 0 \
    / look 1 rejecting 1 waiting 0 stale 1
0 watch bipartite < pair | colours | watch; emit 1 0; relabel 1 1 80; relabel 2 1 00; emit 1 0; \
    emit 2 0; arrive 3; arrive 2; arrive 1; look \
    > node 1 accept / node 2 accept / look 1 rejecting 0 waiting 0 stale 0
1 watch bipartite < network; node 1 - 0 0; port 2 1; port 3 1; node 2 - 0 0; port 1 1; \
    node 3 - 0 0; port 1 1 | labels; label 1 1 00; label 2 1 80; label 3 1 80 | watch; emit 2 0; \
    arrive 1; relabel 2 1 00; look \
    > node 1 waiting 1 / node 2 waiting 0 / node 3 waiting 0 \
    / look 1 rejecting 0 waiting 3 stale 0
1 watch bipartite < pair | colours | watch; emit 1 0; emit 2 0; arrive 1; arrive 2; \
    relabel 1 1 00; look > node 1 accept / node 2 accept stale 0 \
    / look 1 rejecting 0 waiting 0 stale 1
1 watch bipartite < pair | colours | watch; look \
    > node 1 waiting 0 / node 2 waiting 0 / look 1 rejecting 0 waiting 2 stale 0
# The last look gives the status.
0 watch bipartite < pair | colours | watch; look; emit 1 0; emit 2 0; arrive 1; arrive 2; look \
    > node 1 waiting 0 / node 2 waiting 0 / look 1 rejecting 0 waiting 2 stale 0 \
    / node 1 accept / node 2 accept / look 2 rejecting 0 waiting 0 stale 0
1 watch bipartite < pair | colours | watch; look; emit 1 0; emit 2 0; arrive 1; arrive 2; look; \
    restart 1; look > node 1 waiting 0 / node 2 waiting 0 \
    / look 1 rejecting 0 waiting 2 stale 0 / node 1 accept / node 2 accept \
    / look 2 rejecting 0 waiting 0 stale 0 / node 1 waiting 0 / node 2 accept \
    / look 3 rejecting 0 waiting 1 stale 0

## Events that name no node, no port or no emit.
3 watch bipartite < pair | colours | watch; arrive 1; look > refused 41 at 12
3 watch bipartite < pair | colours | watch; relabel 3 1 00; look > refused 41 at 12
3 watch bipartite < pair | colours | watch; look; relabel 9 1 00; look > refused 41 at 13
3 watch bipartite < pair | colours | watch; look; look; emit 1 1; look > refused 41 at 14
3 watch bipartite < pair | colours | watch; restart 3; emit 9 9; look > refused 41 at 12
# Lines that cannot stand there.
3 watch bipartite < pair | colours | watch > refused form at 12
3 watch bipartite < pair | colours | watch; look; emit 1 0 > refused form at 14
3 watch bipartite < pair | colours | watch; emit 1 0; end > refused form at 13
3 watch bipartite < pair | colours | watch; look 1 > refused form at 12
3 watch bipartite < pair | colours | watch; relabel 1 1 81; look > refused form at 12
";
