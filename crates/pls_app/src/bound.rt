//! The answer to `bound`.

ghost use Rattle.std.specs.Prelude.{◌≡◌, IfOk};
ghost use Rattle.pls_combine.specs.Expression.{longest_of};
ghost use Rattle.pls_components.specs.Components.{AreComponents};
ghost use Rattle.pls_components.specs.Parts.{bound_of_parts};
ghost use Rattle.pls_netfile.specs.NetworkText.{AreRows};
ghost use Rattle.pls_expressions.specs.Expression.{IsSmall};
ghost use Rattle.pls_app.specs.Answer.{bound_answer};
ghost use Rattle.pls_app.specs.inner.Tasks.{IsWorked};

use crate::answer::{Answer, Content};
use pls_bits::NumCode;
use pls_combine::AnyScheme;
use pls_components::{Components, bound_parts};
use pls_facts::is_valid;
use pls_graph::Network;
use pls_streams::{NoMemory, Status};
use std::alloc::Global;

// How many bits a marked label has at most.
pub(crate) fn bound<C: NumCode>(
    alloc: Global,
    scheme: &AnyScheme<C>,
    net: &Network,
    parts: &Components,
) -> Result<Answer, NoMemory>
    requires made { AreComponents net.now parts.now }
    requires small { IsSmall scheme.now }
    requires ranges { AreRows net.now }
    ensures bounded { IfOk result
        (λ answer. answer
        ≡ bound_answer (bound_of_parts (longest_of C.code scheme.now) net.now parts.now)) }
    ensures worked { IfOk result (λ answer. IsWorked answer.status) }
{
    is_valid(net);
    let bound = bound_parts(scheme, net, parts);
    let text = format!(in alloc; "bound {bound}\n")?;
    Ok(Answer {
        status: Status::Done,
        content: Content::Written(text.into_bytes()),
    })
}
