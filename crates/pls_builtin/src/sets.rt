//! The rule sets that have names, as trees.

ghost use Rattle.std.specs.Prelude.{◌≡◌, ◌∷◌, [], IfOk, codes};
ghost use Rattle.pls_rules.specs.Formula.{Add, All, Any, Both, Either, Eq, Id, Le, Lt, Mark, My, Nb, NbWeight, Num, Number, Pointed, Same, Sum, Up, UpWeight};
ghost use Rattle.pls_rules.specs.HeldTrees.{formula_of, set_of};
ghost use Rattle.pls_builtin.specs.Builtin.{acyclic_set, bipartite_set, count_fields, count_set, forest_set, leader_set, number, spt_set, tree_set};

use crate::fields::{field, number};
use crate::parts::{is_deeper, is_nearer, is_shared, is_zero, points_nowhere_or, points_or};
use crate::trees::{at_most, both, either, equal, every, less, no, plus, same, some, sum};
use pls_rules::{BoolExpr, Field, FieldKind, NumExpr, RuleSet};
use pls_streams::NoMemory;
use std::alloc::Global;

pub(crate) fn leader(alloc: Global) -> Result<RuleSet, NoMemory>
    ensures { IfOk result (λ set. set_of set ≡ leader_set) }
{
    let mut rules = Vec::with_capacity(alloc, 4)?;
    rules.push(shares_root(alloc)?)?;
    rules.push(is_root_at_0(alloc)?)?;
    rules.push(is_nearer_or_at_0(alloc)?)?;
    rules.push(is_marked_at_0(alloc)?)?;
    let fields = root_and_depth(alloc)?;
    Ok(RuleSet { fields, rules })
}

fn root_and_depth(alloc: Global) -> Result<Vec<Field>, NoMemory>
    ensures { IfOk result (λ fields.
        fields.items ≡ number (codes "root") ∷ number (codes "depth") ∷ []) }
{
    Ok(vec![in alloc; number(alloc, "root")?, number(alloc, "depth")?]?)
}

fn shares_root(alloc: Global) -> Result<BoolExpr, NoMemory>
    ensures { IfOk result (λ made. formula_of made ≡ All (Eq (Nb 0) (My 0))) }
{
    every(alloc, is_shared(alloc, 0)?)
}

fn is_root(alloc: Global) -> Result<BoolExpr, NoMemory>
    ensures { IfOk result (λ made. formula_of made ≡ Eq Id (My 0)) }
{
    equal(alloc, NumExpr::Id, NumExpr::My(0))
}

fn is_root_at_0(alloc: Global) -> Result<BoolExpr, NoMemory>
    ensures { IfOk result (λ made. formula_of made ≡ Same (Eq (My 1) (Number 0)) (Eq Id (My 0))) }
{
    same(alloc, is_zero(alloc, 1)?, is_root(alloc)?)
}

fn is_nearer_or_at_0(alloc: Global) -> Result<BoolExpr, NoMemory>
    ensures { IfOk result (λ made. formula_of made
        ≡ Either (Eq (My 1) (Number 0)) (Any (Eq (Add (Nb 1) (Number 1)) (My 1)))) }
{
    let nearer = some(alloc, is_nearer(alloc, 1)?)?;
    either(alloc, is_zero(alloc, 1)?, nearer)
}

fn is_marked_at_0(alloc: Global) -> Result<BoolExpr, NoMemory>
    ensures { IfOk result (λ made. formula_of made
        ≡ Same (Eq Mark (Number 1)) (Eq (My 1) (Number 0))) }
{
    let marked = equal(alloc, NumExpr::Mark, NumExpr::Number(1))?;
    same(alloc, marked, is_zero(alloc, 1)?)
}

pub(crate) fn tree(alloc: Global) -> Result<RuleSet, NoMemory>
    ensures { IfOk result (λ set. set_of set ≡ tree_set) }
{
    let mut rules = Vec::with_capacity(alloc, 3)?;
    rules.push(shares_root(alloc)?)?;
    rules.push(points_or_is_top(alloc)?)?;
    rules.push(points_nowhere_or(alloc, is_deeper(alloc, 1)?)?)?;
    let fields = root_and_depth(alloc)?;
    Ok(RuleSet { fields, rules })
}

fn points_or_is_top(alloc: Global) -> Result<BoolExpr, NoMemory>
    ensures { IfOk result (λ made. formula_of made
        ≡ Either (Eq Pointed (Number 1)) (Both (Eq (My 1) (Number 0)) (Eq Id (My 0)))) }
{
    let is_top = both(alloc, is_zero(alloc, 1)?, is_root(alloc)?)?;
    points_or(alloc, is_top)
}

pub(crate) fn forest(alloc: Global) -> Result<RuleSet, NoMemory>
    ensures { IfOk result (λ set. set_of set ≡ forest_set) }
{
    let fields = vec![in alloc; number(alloc, "depth")?]?;
    let rules = vec![in alloc;
        points_or(alloc, is_zero(alloc, 0)?)?,
        points_nowhere_or(alloc, is_deeper(alloc, 0)?)?,
    ]?;
    Ok(RuleSet { fields, rules })
}

pub(crate) fn spt(alloc: Global) -> Result<RuleSet, NoMemory>
    ensures { IfOk result (λ set. set_of set ≡ spt_set) }
{
    let mut rules = Vec::with_capacity(alloc, 4)?;
    rules.push(shares_root(alloc)?)?;
    rules.push(points_or_is_start(alloc)?)?;
    rules.push(points_nowhere_or_is_farther(alloc)?)?;
    rules.push(has_no_shorter_way(alloc)?)?;
    let fields = root_depth_and_distance(alloc)?;
    Ok(RuleSet { fields, rules })
}

fn root_depth_and_distance(alloc: Global) -> Result<Vec<Field>, NoMemory>
    ensures { IfOk result (λ fields. fields.items
        ≡ number (codes "root") ∷ number (codes "depth") ∷ number (codes "dist") ∷ []) }
{
    Ok(vec![in alloc;
        number(alloc, "root")?,
        number(alloc, "depth")?,
        number(alloc, "dist")?,
    ]?)
}

fn points_or_is_start(alloc: Global) -> Result<BoolExpr, NoMemory>
    ensures { IfOk result (λ made. formula_of made ≡ Either (Eq Pointed (Number 1))
        (Both (Both (Eq (My 1) (Number 0)) (Eq (My 2) (Number 0))) (Eq Id (My 0)))) }
{
    let at_0 = both(alloc, is_zero(alloc, 1)?, is_zero(alloc, 2)?)?;
    let is_start = both(alloc, at_0, is_root(alloc)?)?;
    points_or(alloc, is_start)
}

fn points_nowhere_or_is_farther(alloc: Global) -> Result<BoolExpr, NoMemory>
    ensures { IfOk result (λ made. formula_of made ≡ Either (Eq Pointed (Number 0))
        (Both (Eq (My 1) (Add (Up 1) (Number 1))) (Eq (My 2) (Add (Up 2) UpWeight)))) }
{
    let by_target = plus(alloc, NumExpr::Up(2), NumExpr::UpWeight)?;
    let is_farther = equal(alloc, NumExpr::My(2), by_target)?;
    let is_below = both(alloc, is_deeper(alloc, 1)?, is_farther)?;
    points_nowhere_or(alloc, is_below)
}

fn has_no_shorter_way(alloc: Global) -> Result<BoolExpr, NoMemory>
    ensures { IfOk result (λ made. formula_of made ≡ All (Le (My 2) (Add (Nb 2) NbWeight))) }
{
    let by_port = plus(alloc, NumExpr::Nb(2), NumExpr::NbWeight)?;
    every(alloc, at_most(alloc, NumExpr::My(2), by_port)?)
}

pub(crate) fn bipartite(alloc: Global) -> Result<RuleSet, NoMemory>
    ensures { IfOk result (λ set. set_of set ≡ bipartite_set) }
{
    let fields = vec![in alloc; field(alloc, "colour", FieldKind::Bit)?]?;
    let rules = vec![in alloc; every(alloc, no(alloc, is_shared(alloc, 0)?)?)?]?;
    Ok(RuleSet { fields, rules })
}

pub(crate) fn acyclic(alloc: Global) -> Result<RuleSet, NoMemory>
    ensures { IfOk result (λ set. set_of set ≡ acyclic_set) }
{
    let fields = vec![in alloc; number(alloc, "depth")?]?;
    let rules = vec![in alloc; is_deeper_or_nearer(alloc)?, is_nearer_at_most_once(alloc)?]?;
    Ok(RuleSet { fields, rules })
}

fn is_deeper_or_nearer(alloc: Global) -> Result<BoolExpr, NoMemory>
    ensures { IfOk result (λ made. formula_of made
        ≡ All (Either (Eq (Nb 0) (Add (My 0) (Number 1)))
        (Eq (Add (Nb 0) (Number 1)) (My 0)))) }
{
    let next = plus(alloc, NumExpr::My(0), NumExpr::Number(1))?;
    let deeper = equal(alloc, NumExpr::Nb(0), next)?;
    every(alloc, either(alloc, deeper, is_nearer(alloc, 0)?)?)
}

fn is_nearer_at_most_once(alloc: Global) -> Result<BoolExpr, NoMemory>
    ensures { IfOk result (λ made. formula_of made
        ≡ Le (Sum (Eq (Add (Nb 0) (Number 1)) (My 0)) (Number 1)) (Number 1)) }
{
    let nearer = sum(alloc, is_nearer(alloc, 0)?, NumExpr::Number(1))?;
    at_most(alloc, nearer, NumExpr::Number(1))
}

pub(crate) fn count(alloc: Global) -> Result<RuleSet, NoMemory>
    ensures { IfOk result (λ set. set_of set ≡ count_set) }
{
    let mut rules = Vec::with_capacity(alloc, 6)?;
    rules.push(shares_root_and_total(alloc)?)?;
    rules.push(names_itself_and_total(alloc)?)?;
    rules.push(is_root_at_0_of_count(alloc)?)?;
    rules.push(is_below_or_whole(alloc)?)?;
    rules.push(falls_to_parent(alloc)?)?;
    rules.push(is_summed(alloc)?)?;
    let fields = fields_of_count(alloc)?;
    Ok(RuleSet { fields, rules })
}

fn fields_of_count(alloc: Global) -> Result<Vec<Field>, NoMemory>
    ensures { IfOk result (λ fields. fields.items ≡ count_fields) }
{
    let mut fields = Vec::with_capacity(alloc, 6)?;
    fields.push(number(alloc, "root")?)?;
    fields.push(number(alloc, "own")?)?;
    fields.push(number(alloc, "parent")?)?;
    fields.push(number(alloc, "depth")?)?;
    fields.push(number(alloc, "size")?)?;
    fields.push(number(alloc, "total")?)?;
    Ok(fields)
}

fn shares_root_and_total(alloc: Global) -> Result<BoolExpr, NoMemory>
    ensures { IfOk result (λ made. formula_of made
        ≡ All (Both (Eq (Nb 0) (My 0)) (Eq (Nb 5) (My 5)))) }
{
    let are_shared = both(alloc, is_shared(alloc, 0)?, is_shared(alloc, 5)?)?;
    every(alloc, are_shared)
}

fn names_itself_and_total(alloc: Global) -> Result<BoolExpr, NoMemory>
    ensures { IfOk result (λ made. formula_of made ≡ Both (Eq (My 1) Id) (Eq (My 5) Num)) }
{
    let itself = equal(alloc, NumExpr::My(1), NumExpr::Id)?;
    let total = equal(alloc, NumExpr::My(5), NumExpr::Num)?;
    both(alloc, itself, total)
}

fn is_root_at_0_of_count(alloc: Global) -> Result<BoolExpr, NoMemory>
    ensures { IfOk result (λ made. formula_of made
        ≡ Same (Eq (My 3) (Number 0)) (Eq (My 0) Id)) }
{
    let is_root = equal(alloc, NumExpr::My(0), NumExpr::Id)?;
    same(alloc, is_zero(alloc, 3)?, is_root)
}

fn is_below_or_whole(alloc: Global) -> Result<BoolExpr, NoMemory>
    ensures { IfOk result (λ made. formula_of made
        ≡ Either (Lt (Number 0) (My 3)) (Both (Eq (My 2) Id) (Eq (My 4) (My 5)))) }
{
    let below = less(alloc, NumExpr::Number(0), NumExpr::My(3))?;
    let own_parent = equal(alloc, NumExpr::My(2), NumExpr::Id)?;
    let whole = equal(alloc, NumExpr::My(4), NumExpr::My(5))?;
    either(alloc, below, both(alloc, own_parent, whole)?)
}

fn falls_to_parent(alloc: Global) -> Result<BoolExpr, NoMemory>
    ensures { IfOk result (λ made. formula_of made ≡ Either (Eq (My 3) (Number 0))
        (Any (Both (Eq (Nb 1) (My 2)) (Eq (Add (Nb 3) (Number 1)) (My 3))))) }
{
    let parent = equal(alloc, NumExpr::Nb(1), NumExpr::My(2))?;
    let parent_above = both(alloc, parent, is_nearer(alloc, 3)?)?;
    either(alloc, is_zero(alloc, 3)?, some(alloc, parent_above)?)
}

fn is_summed(alloc: Global) -> Result<BoolExpr, NoMemory>
    ensures { IfOk result (λ made. formula_of made
        ≡ Eq (My 4) (Add (Sum (Eq (Nb 2) Id) (Nb 4)) (Number 1))) }
{
    let child = equal(alloc, NumExpr::Nb(2), NumExpr::Id)?;
    let below = sum(alloc, child, NumExpr::Nb(4))?;
    let whole = plus(alloc, below, NumExpr::Number(1))?;
    equal(alloc, NumExpr::My(4), whole)
}
