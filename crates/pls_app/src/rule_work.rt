//! The answer of a task with a rule set to the bytes of an input.

ghost use Rattle.std.specs.Prelude.{◌≤◌, ℕ, List, length, IfOk};
ghost use Rattle.pls_inputs.specs.Read.{IsRead, said};
ghost use Rattle.pls_app.specs.Answer.{Answers};
ghost use Rattle.pls_app.specs.Command.{input_parts_of};
ghost use Rattle.pls_app.specs.inner.Tasks.{DoesWork, IsWorked};

use crate::answer::{Answer, refuse};
use crate::command::{Command, RuleTask};
use crate::ruled::{judge, list_code, splice_by_rules};
use crate::work::input_of;
use pls_components::components;
use pls_configuration::MAX_INPUT;
use pls_inputs::Input;
use pls_streams::NoMemory;
use std::alloc::Global;

pub(crate) fn answer_by_rules(
    alloc: Global,
    task: RuleTask,
    bytes: Vec<u8>,
) -> Result<Answer, NoMemory>
    requires { length bytes.items ≤ MAX_INPUT }
    ensures answer { IfOk result (λ answer. Answers (Command.ByRules task) bytes.items answer) }
    ensures worked { IfOk result (λ answer. IsWorked answer.status) }
{
    match input_of(alloc, task.parts(), bytes) {
        Ok(input) => do_rule_task(alloc, task, input),
        Err(error) => refuse(alloc, error),
    }
}

fn do_rule_task(alloc: Global, task: RuleTask, input: Input) -> Result<Answer, NoMemory>
    requires { (bytes : List ℕ) × IsRead (input_parts_of (Command.ByRules task)) bytes input }
    ensures does { IfOk result (λ answer. DoesWork (Command.ByRules task) (said input) answer) }
    ensures worked { IfOk result (λ answer. IsWorked answer.status) }
{
    let set = input.rules.unwrap();
    match task {
        RuleTask::Judge(form) => {
            let net = input.network.unwrap();
            let parts = components(alloc, &net)?;
            judge(alloc, set, form, &net, &parts, &input.labels.unwrap())
        }
        RuleTask::Splice => {
            let net = input.network.unwrap();
            // What is refused and answered is said of a network and its components.
            let parts = components(alloc, &net)?;
            splice_by_rules(alloc, set, input.code, net, input.labels.unwrap())
        }
        RuleTask::Code => list_code(alloc, &set),
    }
}
