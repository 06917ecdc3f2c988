//! The answer to `mark`.

ghost use Rattle.std.specs.Prelude.{◌≡◌, IfErr, IfOk, OnOk, None, Some};
ghost use Rattle.pls_streams.specs.declared.text_error.Quantity.TheVariants.{Labels};
ghost use Rattle.pls_configuration.specs.declared.limits.TheConstants.{MAX_BITS};
ghost use Rattle.pls_configuration.specs.declared.status.Status.TheVariants.{Done};
ghost use Rattle.pls_components.specs.Components.{AreComponents};
ghost use Rattle.pls_inputs.specs.Order.{over};
ghost use Rattle.pls_inputs.specs.Parts.{Input, rows_in};
ghost use Rattle.pls_app.specs.Answer.{Marks};
ghost use Rattle.pls_app.specs.inner.Tasks.{Does, IsNamed, IsWorked, ShowsIn};

use crate::answer::{Answer, Content, no_answer, refuse};
use crate::command::{Command, Task};
use pls_bits::{CodeName, NumCode};
use pls_combine::AnyScheme;
use pls_components::{Components, MarkResult, mark_parts, room_parts};
use pls_configuration::MAX_BITS;
use pls_graph::Network;
use pls_streams::{NoMemory, Quantity, Status, TextError};
use std::alloc::Global;

// Answers `no` where a component lacks the property; refuses labels that can have too many bits
// together.
pub(crate) fn mark<C: NumCode>(
    alloc: Global,
    scheme: &AnyScheme<C>,
    code: CodeName,
    net: Network,
    parts: &Components,
) -> Result<Answer, NoMemory>
    requires made { AreComponents net parts.now }
    requires named { IsNamed code C.code C.takes }
    ensures does { IfOk result (λ answer. (input : Input) → rows_in input ≡ net
        → Does (Command.With (Task.Mark code) scheme.now) input parts.now answer) }
    ensures worked { IfOk result (λ answer. IsWorked answer.status) }
    ensures shows { IfOk result (λ answer. answer.status ≡ Done
        → ShowsIn code scheme.now net answer.text) }
{
    let room = room_parts(scheme, &net, parts);
    match test_room(room) {
        Ok(()) => mark_within(alloc, scheme, code, net, parts),
        Err(error) => refuse(alloc, error),
    }
}

// Refuses labels that can have too many bits together.
fn test_room(room: u64) -> Result<(), TextError>
    ensures within { OnOk result (over Labels MAX_BITS room ≡ None) }
    ensures refused { IfErr result (λ error. over Labels MAX_BITS room ≡ Some error) }
{
    if room > MAX_BITS {
        return Err(TextError::Limit(Quantity::Labels));
    }
    Ok(())
}

fn mark_within<C: NumCode>(
    alloc: Global,
    scheme: &AnyScheme<C>,
    code: CodeName,
    net: Network,
    parts: &Components,
) -> Result<Answer, NoMemory>
    requires made { AreComponents net parts.now }
    requires named { IsNamed code C.code C.takes }
    ensures marks { IfOk result (λ answer. Marks code scheme.now net parts.now answer) }
    ensures worked { IfOk result (λ answer. IsWorked answer.status) }
    ensures shows { IfOk result (λ answer. answer.status ≡ Done
        → ShowsIn code scheme.now net answer.text) }
{
    match mark_parts(alloc, scheme, &net, parts)? {
        MarkResult::Labels(labels) => Ok(Answer {
            status: Status::Done,
            content: Content::Labels { code, net, labels },
        }),
        MarkResult::Lacking(ids) => no_answer(alloc, parts, ids.as_slice()),
    }
}
