//! The rule sets by their names.

ghost use Rattle.std.specs.Prelude.{◌≡◌, IfOk, IfSome, option_map};
ghost use Rattle.pls_rules.specs.HeldTrees.{set_of};
ghost use Rattle.pls_rules.specs.RuleSet.{AreRules};
ghost use Rattle.pls_builtin.specs.Builtin.{name_with_set, set_named, set_of_name};

use crate::sets::{acyclic, bipartite, count, forest, leader, spt, tree};
use pls_names::SchemeName;
use pls_rules::RuleSet;
use pls_streams::NoMemory;
use std::alloc::Global;

/// The rule set of a name, which makes sense, and `None` where no set has the name; `Err` where
/// there is no memory.
pub fn builtin(alloc: Global, name: &str) -> Result<Option<RuleSet>, NoMemory>
    ensures named { IfOk result (λ set. option_map set_of set ≡ set_named name.now) }
    ensures sense { IfOk result (λ set. IfSome set (λ set. AreRules (set_of set))) }
{
    match name_with_set(name) {
        Some(scheme) => builtin_set(alloc, scheme),
        None => Ok(None),
    }
}

/// The rule set that has the name of a scheme, which makes sense, and `None` where none has it;
/// `Err` where there is no memory.
pub fn builtin_set(alloc: Global, name: SchemeName) -> Result<Option<RuleSet>, NoMemory>
    ensures named { IfOk result (λ set. option_map set_of set ≡ set_of_name name) }
    ensures sense { IfOk result (λ set. IfSome set (λ set. AreRules (set_of set))) }
{
    set_by_name(alloc, name)
}

fn set_by_name(alloc: Global, name: SchemeName) -> Result<Option<RuleSet>, NoMemory>
    ensures { IfOk result (λ set. option_map set_of set ≡ set_of_name name) }
{
    match name {
        SchemeName::Leader => Ok(Some(leader(alloc)?)),
        SchemeName::Tree => Ok(Some(tree(alloc)?)),
        SchemeName::Forest => Ok(Some(forest(alloc)?)),
        SchemeName::ShortestPathTree => Ok(Some(spt(alloc)?)),
        SchemeName::Bipartite => Ok(Some(bipartite(alloc)?)),
        SchemeName::Acyclic => Ok(Some(acyclic(alloc)?)),
        SchemeName::Count => Ok(Some(count(alloc)?)),
        SchemeName::MinimumSpanningTree | SchemeName::PathMax => Ok(None),
    }
}

/// The scheme whose name a word is, where a rule set has it too.
pub fn name_with_set(word: &str) -> Option<SchemeName>
    ensures { result ≡ name_with_set word.now }
{
    match word {
        "leader" => Some(SchemeName::Leader),
        "tree" => Some(SchemeName::Tree),
        "forest" => Some(SchemeName::Forest),
        "spt" => Some(SchemeName::ShortestPathTree),
        "bipartite" => Some(SchemeName::Bipartite),
        "acyclic" => Some(SchemeName::Acyclic),
        "count" => Some(SchemeName::Count),
        _ => None,
    }
}
