//! Words that are no command, and commands that read nothing.

use super::rows::end_of_run;

pub(super) const ROWS: &str = "
## Words that are no command.
# Words of other programs, none, too few, too many flags.
2 --help > usage
2 --version > usage
2 -h > usage
2 > usage
2 verify > usage
2 verify bipartite -- > usage
2 --json > usage
2 verify bipartite --json --json > usage
2 mark bipartite --json > usage
2 judge tree > usage
2 rules mst > usage
2 watch tree --json > usage
2 --help < pair > usage
2 < pair > usage
2 verify < pair > usage
2 mark tree --json < pair > usage
2 bound --json tree < pair > usage
2 --json verify tree --json < pair > usage
2 verify -- tree < pair > usage
2 rules Bipartite > usage
2 code bipartite > usage
2 trial 1:7 --json > usage
2 verify colour < pair | colours > usage
2 verify colour > usage

## Words with a code where none may stand.
2 verify --code delta bipartite > usage
2 mark tree --code=delta > usage
2 mark tree --code > usage
2 mark --code gamma tree --code gamma > usage
2 verify mst --code delta < alone > usage
2 mark mst --code beta > usage
2 mark --code delta --code > usage
2 mark tree --json --code > usage

## Words that name no scheme.
2 verify map(diameter:01) > usage
2 verify map(diameter:32768) > usage
2 verify map(map(tree)) > usage
2 verify diameter:3 > usage
2 verify bridgeless > usage
2 bound and(tree,) > usage
2 bound and(and(and(tree,tree),and(tree,tree)),and(and(tree,tree),and(tree,and(tree,tree)))) \
    > usage
2 verify and(tree < pair > usage
2 verify and(tree,tree < pair > usage
2 verify or() < pair > usage
2 verify xor(tree,tree) < pair > usage
2 verify tree,tree < pair > usage
2 verify and(and(and(and(and(and(and(and(tree,tree),tree),tree),tree),tree),tree),tree),tree) \
    < pair > usage

## Words that are no number of nodes and number to begin with.
2 trial 0:1 > usage
2 trial 1:0 > usage
2 trial 01:1 > usage
2 trial 32769:1 > usage
2 trial 1:2147483647 > usage
2 trial 1:01 > usage
2 trial 1 > usage
2 trial 1: > usage
2 trial :1 > usage
2 trial 1:1:1 > usage

## Trials of one node and of two.
0 trial 1:7 > trial nodes 1 edges 0 bound 13 longest 11 rejecting 0
0 trial 2:1 > trial nodes 2 edges 1 bound 43 longest 43 rejecting 0
";

// Words that no row can say, since a space parts its words.
const ODD: &[[&str; 2]] = &[
    ["verify", ""],
    ["trial", ""],
    ["trial", "1 1"],
    ["mark", "tree "],
];

#[test]
fn an_empty_word_and_one_with_a_space_are_usage(rt: HostRuntime) {
    for words in ODD {
        let end = end_of_run(&rt, rt.alloc(), words, "");
        assert!(rt; end.as_str() == "2\nusage\n", "{} {}", words[0], words[1]);
    }
}
