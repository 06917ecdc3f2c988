//! From rules to instructions.

ghost use Rattle.std.specs.Prelude.{◌≡◌, ◌+◌, ◌<◌, [], ◌∷◌, ◌++◌, length, slice_set, IfOk, OnOk};
ghost use Rattle.pls_rules.specs.HeldTrees.{formula_of, term_of};
ghost use Rattle.pls_compile.specs.Code.{at_ports_code, formula_code, formulas_code, term_code, terms_code};
ghost use Rattle.pls_compile.specs.declared.instr.Instr.TheVariants.{Begin, More, Next, Push};

use crate::instr::Instr;
use pls_rules::{BoolExpr, NumExpr};
use pls_streams::NoMemory;

#[cycle(emit)]
pub(crate) fn emit_formula(code: &mut Vec<Instr>, formula: &BoolExpr) -> Result<(), NoMemory>
    ensures { OnOk result (code.new.items
        ≡ code.old.items ++ formula_code (length code.old.items) (formula_of formula.now)) }
{
    match formula {
        BoolExpr::Eq(first, second) => emit_terms(code, first, second, Instr::Eq),
        BoolExpr::Lt(first, second) => emit_terms(code, first, second, Instr::Lt),
        BoolExpr::Le(first, second) => emit_terms(code, first, second, Instr::Le),
        BoolExpr::Same(first, second) => emit_formulas(code, first, second, Instr::Eq),
        BoolExpr::Both(first, second) => emit_formulas(code, first, second, Instr::Both),
        BoolExpr::Either(first, second) => emit_formulas(code, first, second, Instr::Either),
        BoolExpr::Not(inner) => {
            emit_formula(code, inner)?;
            put(code, Instr::Not)
        }
        BoolExpr::All(inner) => emit_at_ports(code, 1, inner, Instr::Both),
        BoolExpr::Any(inner) => emit_at_ports(code, 0, inner, Instr::Either),
    }
}

#[cycle(emit)]
fn emit_terms(
    code: &mut Vec<Instr>,
    first: &NumExpr,
    second: &NumExpr,
    instr: Instr,
) -> Result<(), NoMemory>
    ensures { OnOk result (code.new.items ≡ code.old.items
        ++ terms_code (length code.old.items) (term_of first.now) (term_of second.now) instr) }
{
    emit_term(code, first)?;
    emit_term(code, second)?;
    put(code, instr)
}

#[cycle(emit)]
fn emit_formulas(
    code: &mut Vec<Instr>,
    first: &BoolExpr,
    second: &BoolExpr,
    instr: Instr,
) -> Result<(), NoMemory>
    ensures { OnOk result (code.new.items ≡ code.old.items
        ++ formulas_code (length code.old.items) (formula_of first.now) (formula_of second.now)
        instr) }
{
    emit_formula(code, first)?;
    emit_formula(code, second)?;
    put(code, instr)
}

// A loop over the ports, in which `instr` takes `first` and then the value of `inner` at each.
#[cycle(emit)]
fn emit_at_ports(
    code: &mut Vec<Instr>,
    first: u64,
    inner: &BoolExpr,
    instr: Instr,
) -> Result<(), NoMemory>
    ensures { OnOk result (code.new.items ≡ code.old.items
        ++ at_ports_code (length code.old.items) first (formula_of inner.now) instr) }
{
    let start = begin_loop(code, first)?;
    emit_formula(code, inner)?;
    put(code, instr)?;
    end_loop(code, start)
}

#[cycle(emit)]
fn emit_term(code: &mut Vec<Instr>, term: &NumExpr) -> Result<(), NoMemory>
    ensures { OnOk result (code.new.items
        ≡ code.old.items ++ term_code (length code.old.items) (term_of term.now)) }
{
    match term {
        NumExpr::Number(number) => put(code, Instr::Push(*number)),
        NumExpr::Id => put(code, Instr::Id),
        NumExpr::Mark => put(code, Instr::Mark),
        NumExpr::Num => put(code, Instr::Num),
        NumExpr::Degree => put(code, Instr::Degree),
        NumExpr::Pointed => put(code, Instr::Pointed),
        NumExpr::My(field) => put(code, Instr::My(*field)),
        NumExpr::Up(field) => put(code, Instr::Up(*field)),
        NumExpr::UpWeight => put(code, Instr::UpWeight),
        NumExpr::Nb(field) => put(code, Instr::Nb(*field)),
        NumExpr::NbWeight => put(code, Instr::NbWeight),
        NumExpr::NbUp => put(code, Instr::NbUp),
        NumExpr::Add(first, second) => emit_terms(code, first, second, Instr::Add),
        NumExpr::Sum(test, number) => {
            let start = begin_loop(code, 0)?;
            emit_formula(code, test)?;
            emit_term(code, number)?;
            put(code, Instr::Mask)?;
            put(code, Instr::Add)?;
            end_loop(code, start)
        }
    }
}

pub(crate) fn put(code: &mut Vec<Instr>, instr: Instr) -> Result<(), NoMemory>
    ensures { OnOk result (code.new.items ≡ code.old.items ++ instr ∷ []) }
{
    code.push(instr)?;
    Ok(())
}

// The place of the instruction that tests for one more port; the end is written later.
fn begin_loop(code: &mut Vec<Instr>, first: u64) -> Result<usize, NoMemory>
    ensures code { OnOk result (code.new.items
        ≡ code.old.items ++ Push first ∷ (Begin ∷ (More 0 ∷ []))) }
    ensures start { IfOk result (λ start. start ≡ length code.old.items + 2) }
{
    put(code, Instr::Push(first))?;
    put(code, Instr::Begin)?;
    let start = code.len();
    put(code, Instr::More(0))?;
    Ok(start)
}

fn end_loop(code: &mut Vec<Instr>, start: usize) -> Result<(), NoMemory>
    requires { start < length code.old.items }
    ensures { OnOk result (code.new.items ≡ slice_set (code.old.items ++ Next start ∷ []) start
        (More (length code.old.items + 1))) }
{
    put(code, Instr::Next(start))?;
    let end = code.len();
    code[start] = Instr::More(end);
    Ok(())
}
