//! Labels that are written are read back.

ghost use Rattle.std.specs.Prelude.{◌≡◌, ◌≤◌, length, IfErr, IfOk};
ghost use Rattle.pls_streams.specs.declared.text_error.TextError.TheVariants.{NoMemory};
ghost use Rattle.pls_labels.specs.Labels.{bits_together};
ghost use Rattle.pls_configuration.specs.declared.limits.TheConstants.{MAX_BITS};

use crate::labels_read::read_labels;
use crate::labels_write::write_labels;
use pls_bits::CodeName;
use pls_graph::Network;
use pls_labels::LabelStore;
use pls_streams::TextError;
use std::alloc::Global;

/// What is written of the labels of all nodes of a network is read as those labels under their
/// code, where they have at most 2^28 bits together. The one refusal is want of memory.
pub fn written_is_read(
    alloc: Global,
    net: &Network,
    labels: &LabelStore,
    code: CodeName,
) -> Result<(CodeName, LabelStore), TextError>
    requires lengths { length labels.now ≡ length net.now }
    requires few { bits_together labels.now ≤ MAX_BITS }
    ensures code { IfOk result (λ read. read.0 ≡ code) }
    ensures same { IfOk result (λ read. read.1 ≡ labels.now) }
    ensures memory { IfErr result (λ error. error ≡ NoMemory) }
{
    let text = write_labels(alloc, net, labels, code)?;
    read_labels(alloc, text.as_slice(), net)
}
