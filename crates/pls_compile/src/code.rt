//! The code of a rule set.

ghost use Rattle.std.specs.Prelude.{◌≡◌, ◌+◌, ◌≤◌, IfOk, length};
ghost use Rattle.pls_compile.specs.Code.{code_of_rules};
ghost use Rattle.pls_rules.specs.HeldTrees.{set_of};
ghost use Rattle.pls_rules.specs.RuleSet.{AreRules};

use crate::emit::{emit_formula, put};
use crate::instr::Instr;
use pls_rules::RuleSet;
use pls_streams::NoMemory;
use std::alloc::Global;
use std::marker::Model;

/// The code of a rule set, seen as the list of its instructions.
#[derive(Drop)]
pub struct Code {
    instrs: Vec<Instr>,
}

impl Model for Code {
    ghost use Rattle.std.specs.Prelude.{List};
    ghost use Rattle.pls_compile.specs.declared.instr.Instr.{Instr};

    ghost Value = { List Instr };

    ghost view = { λ code. code.instrs.items };
}

impl Code {
    /// The instructions in order.
    #[inline(always)]
    pub fn instructions(&self) -> &[Instr]
        ensures { result.now ≡ self.now }
    {
        self.instrs.as_slice()
    }
}

/// The code of a rule set's rules. The one error is want of memory.
pub fn compile(alloc: Global, set: &RuleSet) -> Result<Code, NoMemory>
    requires { AreRules (set_of set.now) }
    ensures { IfOk result (λ code. code ≡ code_of_rules (set_of set.now).rules) }
{
    let mut instrs = Vec::new(alloc);
    let mut number = 3;
    for rule in &set.rules {
        emit_formula(&mut instrs, rule)?;
        put(&mut instrs, Instr::Rule(number))?;
        number += 1;
    }
    put(&mut instrs, Instr::Accept)?;
    Ok(Code { instrs })
}
