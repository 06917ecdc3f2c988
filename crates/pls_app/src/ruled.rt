//! The answers to `judge`, `splice`, `code` and `rules`.

ghost use Rattle.std.specs.Prelude.{◌≡◌, false, length, IfOk, IsSome};
ghost use Rattle.pls_bits.specs.Gamma.{gamma_takes};
ghost use Rattle.pls_builtin.specs.Builtin.{set_of_name};
ghost use Rattle.pls_compile.specs.RuleMeaning.{meaning};
ghost use Rattle.pls_components.specs.Components.{AreComponents};
ghost use Rattle.pls_rules.specs.HeldTrees.{set_of};
ghost use Rattle.pls_rules.specs.RuleSet.{AreRules};
ghost use Rattle.pls_app.specs.Answer.{report_answer};
ghost use Rattle.pls_app.specs.Reports.{decided_by};
ghost use Rattle.pls_app.specs.Ruled.{code_answer, rules_answer};
ghost use Rattle.pls_app.specs.inner.Tasks.{DoesSplice, IsWorked};

use crate::answer::{Answer, Content};
use crate::command::ReportForm;
use crate::splice::splice;
use crate::verify::verify;
use pls_bits::CodeName;
use pls_builtin::builtin_set;
use pls_compile::{RuleChecker, compile, listing};
use pls_components::Components;
use pls_graph::Network;
use pls_labels::LabelStore;
use pls_names::SchemeName;
use pls_rules::RuleSet;
use pls_rules_part::print_rules;
use pls_streams::{NoMemory, Status};
use std::alloc::Global;

pub(crate) fn judge(
    alloc: Global,
    set: RuleSet,
    form: ReportForm,
    net: &Network,
    parts: &Components,
    labels: &LabelStore,
) -> Result<Answer, NoMemory>
    requires made { AreComponents net.now parts.now }
    requires each { length labels.now ≡ length net.now }
    requires sense { AreRules (set_of set) }
    ensures reports { IfOk result (λ answer. answer ≡ report_answer form false net.now parts.now
        (decided_by (meaning gamma_takes (set_of set)) net.now labels.now)) }
    ensures worked { IfOk result (λ answer. IsWorked answer.status) }
{
    let checker = RuleChecker::new(alloc, set)?;
    verify(alloc, &checker, form, net, parts, labels)
}

pub(crate) fn splice_by_rules(
    alloc: Global,
    set: RuleSet,
    code: CodeName,
    net: Network,
    labels: LabelStore,
) -> Result<Answer, NoMemory>
    requires each { length labels ≡ length net }
    requires sense { AreRules (set_of set) }
    ensures does { IfOk result (DoesSplice (meaning gamma_takes (set_of set)) code net labels) }
    ensures worked { IfOk result (λ answer. IsWorked answer.status) }
{
    let checker = RuleChecker::new(alloc, set)?;
    splice(alloc, &checker, code, net, labels)
}

pub(crate) fn list_code(alloc: Global, set: &RuleSet) -> Result<Answer, NoMemory>
    requires { AreRules (set_of set.now) }
    ensures { IfOk result (λ answer. answer ≡ code_answer (set_of set.now)) }
{
    let code = compile(alloc, set)?;
    Ok(Answer {
        status: Status::Done,
        content: Content::Written(listing(alloc, &code)?),
    })
}

// Prints the rules part alone.
pub(crate) fn print_named(alloc: Global, name: SchemeName) -> Result<Answer, NoMemory>
    requires { IsSome (set_of_name name) }
    ensures { IfOk result (λ answer. answer ≡ rules_answer name) }
{
    let set = builtin_set(alloc, name)?.unwrap();
    Ok(Answer {
        status: Status::Done,
        content: Content::Written(print_rules(alloc, &set)?),
    })
}
