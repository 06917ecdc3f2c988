//! What holds of the rule sets that have names.

ghost use Rattle.std.specs.Prelude.{IfSome};
ghost use Rattle.pls_colour.specs.Acyclic.{acyclic_rules, acyclic_shape};
ghost use Rattle.pls_colour.specs.Bipartite.{bipartite_rules, colour_shape};
ghost use Rattle.pls_distance.specs.Spt.{spt_rules, spt_shape};
ghost use Rattle.pls_leader.specs.Count.{count_rules, count_shape};
ghost use Rattle.pls_leader.specs.Leader.{leader_rules, leader_shape};
ghost use Rattle.pls_pointer.specs.Forest.{forest_rules, forest_shape};
ghost use Rattle.pls_pointer.specs.Tree.{tree_rules, tree_shape};
ghost use Rattle.pls_rules.specs.RuleSet.{AreRules};
ghost use Rattle.pls_builtin.specs.Builtin.{acyclic_set, bipartite_set, count_set, forest_set, leader_set, set_named, spt_set, tree_set};
ghost use Rattle.pls_builtin.specs.Judges.{JudgesAs, JudgesAsNamed};

use pls_labels::View;
use pls_names::SchemeName;

/// The sets that have names judge a view as the schemes of these names, the number of the rule that
/// rejects included, in every number code.
pub fn builtin_agrees(view: &View<'_>)
    ensures leader { JudgesAs leader_set leader_shape leader_rules view.now }
    ensures tree { JudgesAs tree_set tree_shape tree_rules view.now }
    ensures forest { JudgesAs forest_set forest_shape forest_rules view.now }
    ensures spt { JudgesAs spt_set spt_shape spt_rules view.now }
    ensures bipartite { JudgesAs bipartite_set colour_shape bipartite_rules view.now }
    ensures acyclic { JudgesAs acyclic_set acyclic_shape acyclic_rules view.now }
    ensures count { JudgesAs count_set count_shape count_rules view.now }
{
    // A pointer is the number of a port.
    view.degree();
}

/// The set of a name, if it has one, makes sense: its rules are over its fields, and small enough
/// to be compiled.
pub fn builtin_sets_make_sense(name: &str)
    ensures { IfSome (set_named name.now) AreRules }
{}

/// The set that has the name of a scheme judges a view as the scheme.
pub fn named_agrees(name: SchemeName, view: &View<'_>)
    ensures { JudgesAsNamed name view.now }
{
    // A pointer is the number of a port.
    view.degree();
}
