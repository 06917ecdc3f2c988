//! Expressions out of smaller ones, each in a box of its own.

ghost use Rattle.std.specs.Prelude.{◌≡◌, IfOk};
ghost use Rattle.pls_rules.specs.Formula.{Add, All, Any, Both, Either, Eq, Le, Lt, Not, Same, Sum};
ghost use Rattle.pls_rules.specs.HeldTrees.{formula_of, term_of};

use pls_rules::{BoolExpr, NumExpr};
use pls_streams::NoMemory;
use std::alloc::Global;

pub(crate) fn equal(alloc: Global, first: NumExpr, second: NumExpr) -> Result<BoolExpr, NoMemory>
    ensures { IfOk result (λ made. formula_of made ≡ Eq (term_of first) (term_of second)) }
{
    let first = Box::new(alloc, first)?;
    let second = Box::new(alloc, second)?;
    Ok(BoolExpr::Eq(first, second))
}

pub(crate) fn less(alloc: Global, first: NumExpr, second: NumExpr) -> Result<BoolExpr, NoMemory>
    ensures { IfOk result (λ made. formula_of made ≡ Lt (term_of first) (term_of second)) }
{
    let first = Box::new(alloc, first)?;
    let second = Box::new(alloc, second)?;
    Ok(BoolExpr::Lt(first, second))
}

pub(crate) fn at_most(alloc: Global, first: NumExpr, second: NumExpr) -> Result<BoolExpr, NoMemory>
    ensures { IfOk result (λ made. formula_of made ≡ Le (term_of first) (term_of second)) }
{
    let first = Box::new(alloc, first)?;
    let second = Box::new(alloc, second)?;
    Ok(BoolExpr::Le(first, second))
}

pub(crate) fn same(alloc: Global, first: BoolExpr, second: BoolExpr) -> Result<BoolExpr, NoMemory>
    ensures { IfOk result (λ made. formula_of made ≡ Same (formula_of first) (formula_of second)) }
{
    let first = Box::new(alloc, first)?;
    let second = Box::new(alloc, second)?;
    Ok(BoolExpr::Same(first, second))
}

pub(crate) fn both(alloc: Global, first: BoolExpr, second: BoolExpr) -> Result<BoolExpr, NoMemory>
    ensures { IfOk result (λ made. formula_of made ≡ Both (formula_of first) (formula_of second)) }
{
    let first = Box::new(alloc, first)?;
    let second = Box::new(alloc, second)?;
    Ok(BoolExpr::Both(first, second))
}

pub(crate) fn either(alloc: Global, first: BoolExpr, second: BoolExpr) -> Result<BoolExpr, NoMemory>
    ensures { IfOk result (λ made. formula_of made
        ≡ Either (formula_of first) (formula_of second)) }
{
    let first = Box::new(alloc, first)?;
    let second = Box::new(alloc, second)?;
    Ok(BoolExpr::Either(first, second))
}

pub(crate) fn no(alloc: Global, part: BoolExpr) -> Result<BoolExpr, NoMemory>
    ensures { IfOk result (λ made. formula_of made ≡ Not (formula_of part)) }
{
    Ok(BoolExpr::Not(Box::new(alloc, part)?))
}

pub(crate) fn every(alloc: Global, part: BoolExpr) -> Result<BoolExpr, NoMemory>
    ensures { IfOk result (λ made. formula_of made ≡ All (formula_of part)) }
{
    Ok(BoolExpr::All(Box::new(alloc, part)?))
}

pub(crate) fn some(alloc: Global, part: BoolExpr) -> Result<BoolExpr, NoMemory>
    ensures { IfOk result (λ made. formula_of made ≡ Any (formula_of part)) }
{
    Ok(BoolExpr::Any(Box::new(alloc, part)?))
}

pub(crate) fn plus(alloc: Global, first: NumExpr, second: NumExpr) -> Result<NumExpr, NoMemory>
    ensures { IfOk result (λ made. term_of made ≡ Add (term_of first) (term_of second)) }
{
    let first = Box::new(alloc, first)?;
    let second = Box::new(alloc, second)?;
    Ok(NumExpr::Add(first, second))
}

pub(crate) fn sum(alloc: Global, first: BoolExpr, second: NumExpr) -> Result<NumExpr, NoMemory>
    ensures { IfOk result (λ made. term_of made ≡ Sum (formula_of first) (term_of second)) }
{
    let first = Box::new(alloc, first)?;
    let second = Box::new(alloc, second)?;
    Ok(NumExpr::Sum(first, second))
}
