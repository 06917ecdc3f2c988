//! Rounds that are played from a schedule.

pub(super) const ROWS: &str = "
## Schedules, and what nodes have heard.
# Nothing was heard, one node has heard, a restart forgets, what comes late is heard.
1 simulate bipartite < pair | colours | schedule \
    > node 1 waiting 0 / node 2 waiting 0 / rejecting 0 waiting 2
1 simulate bipartite < pair | colours | schedule; emit 1 0; arrive 1 \
    > node 1 waiting 0 / node 2 accept / rejecting 0 waiting 1
1 simulate bipartite < pair | colours | schedule; emit 1 0; arrive 1; restart 2 \
    > node 1 waiting 0 / node 2 waiting 0 / rejecting 0 waiting 2
0 simulate bipartite < pair | colours | schedule; emit 1 0; emit 2 0; arrive 1; restart 2; \
    arrive 1; arrive 2 > node 1 accept / node 2 accept / rejecting 0 waiting 0
# Rejecting nodes, and all ports at which a node waits.
1 simulate bipartite < row | labels; label 1 1 00; label 2 1 00; label 3 1 80 | schedule \
    > node 1 waiting 0 / node 2 waiting 0 1 / node 3 waiting 0 / rejecting 0 waiting 3
1 simulate bipartite < row | labels; label 1 1 00; label 2 1 00; label 3 1 80 \
    | schedule; emit 1 0; emit 2 0; arrive 2; arrive 1 \
    > node 1 reject 1 3 / node 2 waiting 1 / node 3 waiting 0 / rejecting 1 waiting 2
1 simulate bipartite < row | labels; label 1 1 00; label 2 1 00; label 3 1 80 \
    | schedule; emit 1 0; emit 2 0; emit 2 1; emit 3 0; arrive 4; arrive 3; arrive 2; arrive 1 \
    > node 1 reject 1 3 / node 2 reject 1 3 / node 3 accept / rejecting 2 waiting 0

## Events that name no node, no port or no emit.
3 simulate bipartite < pair | colours | schedule; arrive 1 > refused 40 at 12
3 simulate bipartite < pair | colours | schedule; emit 1 1 > refused 40 at 12
3 simulate bipartite < pair | colours | schedule; emit 3 0 > refused 40 at 12
3 simulate bipartite < pair | colours | schedule; restart 3 > refused 40 at 12
3 simulate bipartite < pair | colours | schedule; arrive 0 > refused 40 at 12
3 simulate bipartite < pair | colours | schedule; restart 9 > refused 40 at 12
3 simulate bipartite < pair | colours | schedule; emit 1 0; arrive 2; emit 9 9 > refused 40 at 13
# Lines that cannot stand there.
3 simulate bipartite < pair | colours | schedule; emit 1 > refused form at 12
3 simulate bipartite < pair | colours | schedule; emit 1 0; end > refused form at 14

## Reports in JSON.
1 verify bipartite --json < pair | labels; label 1 1 00; label 2 1 00 \
    > {\"nodes\":[{\"id\":1,\"leaf\":1,\"rule\":3,\"verdict\":\"reject\"},{\"id\":2,\"leaf\":1,\
    \"rule\":3,\"verdict\":\"reject\"}],\"rejecting\":2,\"waiting\":0}
1 simulate bipartite --json < pair | colours | schedule; emit 1 0; arrive 1 \
    > {\"nodes\":[{\"id\":1,\"ports\":[0],\"verdict\":\"waiting\"},{\"id\":2,\
    \"verdict\":\"accept\"}],\"rejecting\":0,\"waiting\":1}
1 verify --json bipartite < pair | labels; label 1 1 00; label 2 1 00 \
    > {\"nodes\":[{\"id\":1,\"leaf\":1,\"rule\":3,\"verdict\":\"reject\"},{\"id\":2,\"leaf\":1,\
    \"rule\":3,\"verdict\":\"reject\"}],\"rejecting\":2,\"waiting\":0}
";
