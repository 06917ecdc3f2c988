//! What the rules ask, in words. A node rejects by the first rule that fails.

ghost use Rattle.std.specs.Prelude.{◌≡◌, ◌&&◌, nat_le, length};
ghost use Rattle.std.specs.Option.{is_some};
ghost use Rattle.pls_names.specs.Named.{judge_named};
ghost use Rattle.pls.specs.RuleNumbers.{NamesRuleUpTo, last_map_rule, last_rule};

use pls_bits::NumCode;
use pls_labels::View;
use pls_names::{SchemeByName, SchemeName};

/// What a rule of the scheme of a name asks of a node, or `None` where the scheme has no rule of
/// this number. Rules are counted from 1.
pub fn rule_text(name: SchemeName, rule: u8) -> Option<&'static str>
    ensures { is_some result ≡ (nat_le 1 rule && nat_le rule (last_rule name)) }
{
    if rule == 0 {
        return None;
    }
    rules_of(name).get(rule as usize - 1).copied()
}

/// Whatever a node sees, a rejection by the scheme of a name is by a rule that has a text. A proof
/// that needs it calls this; it takes neither time nor memory.
pub fn rejections_have_texts<C: NumCode>(scheme: &SchemeByName<C>, view: &View<'_>)
    ensures { NamesRuleUpTo (last_rule scheme.now.name)
        (judge_named C.takes scheme.now.name view.now) }
{}

/// What the rules of the universal scheme ask of a node, from rule 1 on.
pub fn map_rules() -> &'static [&'static str]
    ensures { length result.now ≡ last_map_rule }
{
    MAP
}

/// What the rules of the scheme of a name ask of a node, from rule 1 on.
pub fn rules_of(name: SchemeName) -> &'static [&'static str]
    ensures { length result.now ≡ last_rule name }
{
    match name {
        SchemeName::Tree => TREE,
        SchemeName::Forest => FOREST,
        SchemeName::Bipartite => BIPARTITE,
        SchemeName::Acyclic => ACYCLIC,
        SchemeName::Leader => LEADER,
        SchemeName::Count => COUNT,
        SchemeName::ShortestPathTree => SHORTEST_PATH_TREE,
        SchemeName::MinimumSpanningTree => MINIMUM_SPANNING_TREE,
        SchemeName::PathMax => PATH_MAX,
    }
}

// The first two rules of every scheme.
const OWN: &str = "the own label can be read";

const NEIGHBOURS: &str = "each neighbour's label can be read";

const TREE: &[&str] = &[
    OWN,
    NEIGHBOURS,
    "every neighbour's root is the own root",
    "the node points, or its depth is 0 and it is the root",
    "the node does not point, or its depth is the target's and one more",
];

const FOREST: &[&str] = &[
    OWN,
    NEIGHBOURS,
    "the node points, or its depth is 0",
    "the node does not point, or its depth is the target's and one more",
];

const BIPARTITE: &[&str] = &[
    OWN,
    NEIGHBOURS,
    "each neighbour's colour differs from the own colour",
];

const ACYCLIC: &[&str] = &[
    OWN,
    NEIGHBOURS,
    "each neighbour's depth is one more or one less than the own depth",
    "at most one neighbour's depth is one less than the own depth",
];

const LEADER: &[&str] = &[
    OWN,
    NEIGHBOURS,
    "every neighbour's root is the own root",
    "the depth is 0 exactly where the node is the root",
    "the depth is 0, or some neighbour's depth is one less",
    "the node's mark is 1 exactly where its depth is 0",
];

const COUNT: &[&str] = &[
    OWN,
    NEIGHBOURS,
    "every neighbour's root is the own root, and its total the own total",
    "own is the identity, and the total is the node's number",
    "the depth is 0 exactly where the node is the root",
    "the depth is not 0, or the parent is the node itself and its size is the total",
    "the depth is 0, or the parent is a neighbour whose depth is one less",
    "the size is one more than the sizes of the neighbours whose parent is the node",
];

const SHORTEST_PATH_TREE: &[&str] = &[
    OWN,
    NEIGHBOURS,
    "every neighbour's root is the own root",
    "the node points, or it is the root, and its depth and its distance are 0",
    "the node does not point, or it is one deeper than its target, and farther by the edge's weight",
    "at each port the distance is at most the neighbour's and the weight of the edge",
];

const MINIMUM_SPANNING_TREE: &[&str] = &[
    OWN,
    NEIGHBOURS,
    IN_TREE,
    "every neighbour's root is the own root, and it has as many levels",
    "on each level the fragment is the node's own, or its target has the same",
    "on each level neighbours in one fragment chose one edge, and none to another one is less",
    "the node does not point, or the edge was chosen on some level by a fragment at its end",
];

const PATH_MAX: &[&str] = &[
    OWN,
    NEIGHBOURS,
    IN_TREE,
    "every neighbour's root is the own root",
    "on each level the node is the centroid, or has a way in the tree to it as its label says",
    "each edge outside of the tree is as heavy as what both its ends have on a way to one centroid",
];

const MAP: &[&str] = &[
    OWN,
    NEIGHBOURS,
    "own is the identity",
    "every neighbour's map is the own map",
    "the map is a connected network",
    "the map has the node as it is, with its state, its ports and its neighbours",
    "the network of the map has the property",
];

// Rule 3 of both schemes of lightest trees.
const IN_TREE: &str =
    "own is the identity, and the parent and the depth are those that the pointer gives";
