//! Inputs that are no networks, and labels that are not those of the nodes.

pub(super) const ROWS: &str = "
## Rows that are no network, by the number of what is wrong with them.
# A row that does not rise, a port to itself, two ports to one node.
3 mark tree < network; node 2 - 0 0; node 1 - 0 0 > refused 10 at 1
3 mark bipartite < network; node 2 - 0 0; node 1 - 0 0 > refused 10 at 1
3 mark tree < network; node 1 - 0 0; port 1 1 > refused 11 at 1
3 mark bipartite < network; node 1 - 0 0; port 1 1 > refused 11 at 1
3 mark tree < network; node 1 - 0 0; port 2 1; port 2 1; node 2 - 0 0; port 1 1 > refused 12 at 1
3 mark bipartite < network; node 1 - 0 0; port 2 1; port 2 1; node 2 - 0 0; port 1 1 \
    > refused 12 at 1
# A port to a node that is not there, one without a port back, one with another weight back.
3 mark tree < network; node 1 - 0 0; port 9 1 > refused 13 at 1
3 mark bipartite < network; node 1 - 0 0; port 9 1 > refused 13 at 1
3 mark tree < network; node 1 - 0 0; port 2 1; node 2 - 0 0 > refused 14 at 1
3 mark bipartite < network; node 1 - 0 0; port 2 1; node 2 - 0 0 > refused 14 at 1
3 mark tree < network; node 1 - 0 0; port 2 1; node 2 - 0 0; port 1 2 > refused 15 at 1
3 mark bipartite < network; node 1 - 0 0; port 2 1; node 2 - 0 0; port 1 2 > refused 15 at 1
# A pointer to a port that the node does not have.
3 mark tree < network; node 1 1 0 0; port 2 1; node 2 - 0 0; port 1 1 > refused 16 at 1
3 mark bipartite < network; node 1 1 0 0; port 2 1; node 2 - 0 0; port 1 1 > refused 16 at 1

## Lines that cannot stand there.
# No node, an identity that is too large, no last line, a line behind the part.
3 mark tree < network > refused form at 2
3 mark bipartite < network > refused form at 2
3 mark tree < network; node 4294967296 - 0 0; port 2 1; node 2 - 0 0; port 1 1 > refused form at 2
3 mark bipartite < network; node 4294967296 - 0 0; port 2 1; node 2 - 0 0; port 1 1 \
    > refused form at 2
3 mark tree < = network; node 1 - 0 0; port 2 1; node 2 - 0 0; port 1 1 > refused form at 6
3 mark bipartite < = network; node 1 - 0 0; port 2 1; node 2 - 0 0; port 1 1 > refused form at 6
3 mark tree < pair | = x > refused form at 7
3 mark bipartite < pair | = x > refused form at 7
3 mark tree < network; node 4294967296 - 0 0 > refused form at 2
3 mark tree < network; node 1 - 0 0 | = x > refused form at 4
3 bound tree < network > refused form at 2
# Nothing at all, and labels where none may stand.
3 mark tree > refused form at 1
3 mark tree < pair | colours > refused form at 7

## Labels that are no part, or not those of the nodes.
# No last line of the network, no labels, a bit behind the label that is not 0.
3 verify bipartite < = network; node 1 - 0 0; port 2 1; node 2 - 0 0; port 1 1 > refused form at 6
3 verify bipartite < pair > refused form at 7
3 verify bipartite < pair | labels; label 1 1 40; label 2 1 80 > refused form at 8
# A length above the limit, and no such code.
3 verify bipartite < pair | labels; label 1 268435457 00; label 2 1 80 > refused form at 8
3 verify bipartite < pair | labels gamma; label 1 1 00; label 2 1 80 > refused form at 7
3 verify bipartite < pair | labels gamma; label 1 1 00 > refused form at 7
# Labels out of step with the nodes.
3 verify bipartite < pair | labels; label 2 1 00 > refused 20 at 8
3 verify bipartite < pair | labels; label 2 1 00; label 2 1 80 > refused 20 at 8
3 verify bipartite < pair | labels; label 2 1 00; label 1 1 80 > refused 20 at 8
3 verify bipartite < pair | labels; label 1 1 00 > refused 20 at 9
3 verify bipartite < pair | labels; label 1 1 00; label 2 1 80; label 3 1 80 > refused 20 at 10
3 verify bipartite < apart | labels; label 2 1 00; label 1 1 80 > refused 20 at 6
";
