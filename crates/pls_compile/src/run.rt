//! The run of a rule set's code.

ghost use Rattle.std.specs.Prelude.{◌≡◌, length};
ghost use Rattle.pls_scheme.specs.Judging.{judged_from};
ghost use Rattle.pls_compile.specs.Code.{code_of_rules};
ghost use Rattle.pls_rules.specs.HeldTrees.{set_of};
ghost use Rattle.pls_rules.specs.RuleSet.{AreRules};
ghost use Rattle.pls_compile.specs.Readable.{IsReadable};
ghost use Rattle.pls_compile.specs.RuleMeaning.{rules_hold};

use crate::instr::Instr;
use crate::machine::Machine;
use crate::sees::Sees;
use crate::step::step_on;
use pls_configuration::Verdict;
use pls_rules::RuleSet;

// `machine` may be in any state, as it is restarted first.
pub(crate) fn run_code<S: Sees>(
    machine: &mut Machine,
    set: &RuleSet,
    code: &[Instr],
    node: &S,
) -> Verdict
    requires sensible { AreRules (set_of set.now) }
    requires code { code.now ≡ code_of_rules (set_of set.now).rules }
    requires node { IsReadable (length (set_of set.now).fields) (S.sight node.now) }
    ensures { result ≡ judged_from 3 (rules_hold (set_of set.now).rules (S.sight node.now)) }
{
    machine.restart();
    loop {
        if let Some(verdict) = step_on(machine, code, node) {
            return verdict;
        }
    }
}
