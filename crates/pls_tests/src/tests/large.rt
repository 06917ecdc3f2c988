//! Large networks, which are marked and then judged.

pub(super) const ROWS: &str = "
# As many nodes as there may be, all joined to one, with the greatest weight.
0 verify mst < hub | as mark mst > ... / node 32768 accept / rejecting 0
# Maps of a long path, and maps that are too large together.
0 bound map(diameter:199) < path > bound 11794
1 mark map(diameter:198) < path > no
0 verify map(diameter:199) < path | as mark map(diameter:199) > ... / node 200 accept / rejecting 0
7 mark map(bridgeless) < long-path > limit labels
# A large trial.
0 trial 4096:7 > trial nodes 4096 edges ... rejecting 0
";
