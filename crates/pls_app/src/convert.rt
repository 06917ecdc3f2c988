//! The answer to `convert`.

ghost use Rattle.std.specs.Prelude.{◌≡◌, ℕ, List, length, IfOk, None, Some};
ghost use Rattle.pls_inputs.specs.Parts.{Input, code_in, labels_in, rows_in};
ghost use Rattle.pls_streams.specs.declared.text_error.TextError.{TextError as Error};
ghost use Rattle.pls_streams.specs.declared.text_error.Quantity.TheVariants.{Bits};
ghost use Rattle.pls_bits.specs.declared.code_name.CodeName.TheVariants.{Delta as DeltaName};
ghost use Rattle.pls_configuration.specs.declared.limits.TheConstants.{MAX_BITS};
ghost use Rattle.pls_labels.specs.Labels.{bits_together};
ghost use Rattle.pls_inputs.specs.Order.{over};
ghost use Rattle.pls_app.specs.Answer.{labels_answer, refusal_answer};
ghost use Rattle.pls_app.specs.Meant.{takes_of};
ghost use Rattle.pls_app.specs.inner.Tasks.{Does, IsWorked};

use crate::answer::{Answer, Content, refuse, refuse_at};
use crate::command::{Command, Task};
use pls_bits::{CodeName, Delta, NumCode};
use pls_combine::AnyScheme;
use pls_configuration::MAX_BITS;
use pls_graph::Network;
use pls_labels::LabelStore;
use pls_streams::refusal_number::UNREADABLE;
use pls_streams::{NoMemory, Quantity, Status, TextError};
use std::alloc::Global;

// The labels in the delta code; refuses the first unreadable one, or else too many bits together.
pub(crate) fn convert<C: NumCode>(
    alloc: Global,
    scheme: &AnyScheme<C>,
    net: Network,
    labels: &LabelStore,
) -> Result<Answer, NoMemory>
    requires { length labels.now ≡ length net }
    ensures does { IfOk result (λ answer. (input : Input) → rows_in input ≡ net
        → labels_in input ≡ labels.now → C.takes ≡ takes_of (code_in input)
        → (parts : List (List ℕ))
        → Does (Command.With Task.Convert scheme.now) input parts answer) }
    ensures worked { IfOk result (λ answer. IsWorked answer.status) }
{
    let mut found = LabelStore::blank_for(alloc, labels.len(), labels.total())?;
    match scheme.convert_labels::<Delta>(alloc, labels, &mut found)? {
        Some(place) => refuse_at(alloc, UNREADABLE, net.node(place).0 as u64),
        None => labels_within(alloc, net, found),
    }
}

// Refuses labels with too many bits together.
fn labels_within(alloc: Global, net: Network, labels: LabelStore) -> Result<Answer, NoMemory>
    ensures within { over Bits MAX_BITS (bits_together labels) ≡ None
        → IfOk result (λ answer. answer ≡ labels_answer DeltaName net labels) }
    ensures refused { (error : Error) → over Bits MAX_BITS (bits_together labels) ≡ Some error
        → IfOk result (λ answer. answer ≡ refusal_answer error) }
    ensures worked { IfOk result (λ answer. IsWorked answer.status) }
{
    if labels.total() > MAX_BITS {
        return refuse(alloc, TextError::Limit(Quantity::Bits));
    }
    Ok(Answer {
        status: Status::Done,
        content: Content::Labels {
            code: CodeName::Delta,
            net,
            labels,
        },
    })
}
