//! Labels that say given values.

ghost use Rattle.std.specs.Prelude.{All, IfOk};
ghost use Rattle.pls_scheme.specs.Spelled.{AreSpelled};

use pls_labels::LabelStore;
use pls_scheme::Scheme;
use pls_streams::NoMemory;
use std::alloc::Global;

/// The labels that say these values, in their order, as the scheme writes them. The one error is
/// want of memory.
pub fn labels_of<S: Scheme>(
    alloc: Global,
    scheme: &S,
    values: &[S::Label],
) -> Result<LabelStore, NoMemory>
    requires { All (S.writable scheme.now) values.now }
    ensures { IfOk result (AreSpelled (S.layout scheme.now) values.now) }
{
    let mut labels = LabelStore::blank(alloc, values.len())?;
    for (i, value) in values.iter().enumerate() {
        let bits = scheme.write_label(alloc, value)?;
        labels.replace(i, &bits)?;
    }
    Ok(labels)
}
