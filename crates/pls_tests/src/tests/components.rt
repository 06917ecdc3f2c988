//! Networks of several components.

pub(super) const ROWS: &str = "
## Networks of two components, which are marked one by one.
0 mark tree < apart > labels / label 1 4 50 / label 2 4 70 / end
0 mark bipartite < pair-and-one > labels / label 1 1 00 / label 2 1 80 / label 3 1 00 / end
1 mark leader < pair-and-one > no 1
1 mark leader < apart > no 1 2
0 bound tree < pair-and-one > bound 8
0 bound bipartite < apart > bound 1

## Reports of two components.
0 verify bipartite < pair-and-one | one-colours \
    > node 1 accept / node 2 accept / node 3 accept / component 1 nodes 2 rejecting 0 \
    / component 3 nodes 1 rejecting 0 / rejecting 0
0 verify bipartite < apart | labels; label 1 1 00; label 2 1 00 \
    > node 1 accept / node 2 accept / component 1 nodes 1 rejecting 0 \
    / component 2 nodes 1 rejecting 0 / rejecting 0
1 verify bipartite < pair-and-one | labels; label 1 1 00; label 2 1 00; label 3 1 00 \
    > node 1 reject 1 3 / node 2 reject 1 3 / node 3 accept / component 1 nodes 2 rejecting 2 \
    / component 3 nodes 1 rejecting 0 / rejecting 2
0 judge < pair-and-one | one-colours | rules; field b bit; rule all(not(eq(my.b,nb.b))) \
    > node 1 accept / node 2 accept / node 3 accept / component 1 nodes 2 rejecting 0 \
    / component 3 nodes 1 rejecting 0 / rejecting 0
1 simulate bipartite < pair-and-one | one-colours | schedule; emit 1 0; arrive 1 \
    > node 1 waiting 0 / node 2 accept / node 3 accept \
    / component 1 nodes 2 rejecting 0 waiting 1 / component 3 nodes 1 rejecting 0 waiting 0 \
    / rejecting 0 waiting 1
0 verify bipartite --json < pair-and-one | one-colours \
    > {\"components\":[{\"id\":1,\"nodes\":2,\"rejecting\":0,\"waiting\":0},{\"id\":3,\"nodes\":1,\
    \"rejecting\":0,\"waiting\":0}],\"nodes\":[{\"id\":1,\"verdict\":\"accept\"},{\"id\":2,\
    \"verdict\":\"accept\"},{\"id\":3,\"verdict\":\"accept\"}],\"rejecting\":0,\"waiting\":0}
0 recheck bipartite < star | star-colours | edits; unlink 1 4; round \
    > node 1 accept / node 2 accept / node 3 accept / node 4 accept \
    / round 0 checked 4 connected yes rejecting 0 / node 1 accept / node 2 accept \
    / node 3 accept / node 4 accept / round 1 checked 2 connected no rejecting 0
";
