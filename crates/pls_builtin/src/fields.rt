//! Fields, by their names.

ghost use Rattle.std.specs.Prelude.{◌≡◌, IfOk};
ghost use Rattle.pls_builtin.specs.Builtin.{field, number};

use pls_rules::{Field, FieldKind, Name};
use pls_streams::NoMemory;
use std::alloc::Global;

pub(crate) fn field(alloc: Global, name: &str, kind: FieldKind) -> Result<Field, NoMemory>
    ensures { IfOk result (λ made. made ≡ field name.now kind) }
{
    let name = Name::of_text(String::from_str(alloc, name)?);
    Ok(Field { name, kind })
}

// A field written in the number code.
pub(crate) fn number(alloc: Global, name: &str) -> Result<Field, NoMemory>
    ensures { IfOk result (λ made. made ≡ number name.now) }
{
    field(alloc, name, FieldKind::Num)
}
