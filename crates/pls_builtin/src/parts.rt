//! Expressions that stand in more than one rule, of fields by their numbers.

ghost use Rattle.std.specs.Prelude.{◌≡◌, IfOk};
ghost use Rattle.pls_rules.specs.Formula.{Add, Either, Eq, My, Nb, Number, Pointed, Up};
ghost use Rattle.pls_rules.specs.HeldTrees.{formula_of};

use crate::trees::{either, equal, plus};
use pls_rules::{BoolExpr, NumExpr};
use pls_streams::NoMemory;
use std::alloc::Global;

// A neighbour has the node's value in the field.
pub(crate) fn is_shared(alloc: Global, field: u8) -> Result<BoolExpr, NoMemory>
    ensures { IfOk result (λ made. formula_of made ≡ Eq (Nb field) (My field)) }
{
    equal(alloc, NumExpr::Nb(field), NumExpr::My(field))
}

pub(crate) fn is_zero(alloc: Global, field: u8) -> Result<BoolExpr, NoMemory>
    ensures { IfOk result (λ made. formula_of made ≡ Eq (My field) (Number 0)) }
{
    equal(alloc, NumExpr::My(field), NumExpr::Number(0))
}

// A neighbour is one less deep than the node.
pub(crate) fn is_nearer(alloc: Global, depth: u8) -> Result<BoolExpr, NoMemory>
    ensures { IfOk result (λ made. formula_of made ≡ Eq (Add (Nb depth) (Number 1)) (My depth)) }
{
    let next = plus(alloc, NumExpr::Nb(depth), NumExpr::Number(1))?;
    equal(alloc, next, NumExpr::My(depth))
}

// The node is one deeper than the one that it points at.
pub(crate) fn is_deeper(alloc: Global, depth: u8) -> Result<BoolExpr, NoMemory>
    ensures { IfOk result (λ made. formula_of made ≡ Eq (My depth) (Add (Up depth) (Number 1))) }
{
    let next = plus(alloc, NumExpr::Up(depth), NumExpr::Number(1))?;
    equal(alloc, NumExpr::My(depth), next)
}

pub(crate) fn points_or(alloc: Global, other: BoolExpr) -> Result<BoolExpr, NoMemory>
    ensures { IfOk result (λ made. formula_of made
        ≡ Either (Eq Pointed (Number 1)) (formula_of other)) }
{
    let points = equal(alloc, NumExpr::Pointed, NumExpr::Number(1))?;
    either(alloc, points, other)
}

pub(crate) fn points_nowhere_or(alloc: Global, other: BoolExpr) -> Result<BoolExpr, NoMemory>
    ensures { IfOk result (λ made. formula_of made
        ≡ Either (Eq Pointed (Number 0)) (formula_of other)) }
{
    let points_nowhere = equal(alloc, NumExpr::Pointed, NumExpr::Number(0))?;
    either(alloc, points_nowhere, other)
}
