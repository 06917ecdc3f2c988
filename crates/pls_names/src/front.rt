//! The name of a scheme at the front of a text.

ghost use Rattle.std.specs.Prelude.{◌≡◌, option_map};
ghost use Rattle.pls_fronts.specs.Front.{found_front};
ghost use Rattle.pls_names.specs.Front.{first_name, name_front};

use crate::scheme_name::{SchemeName, all_names, name_of};
use pls_fronts::after;

/// The name at the front of a text, and what follows it.
pub fn name_front(text: &[u8]) -> Option<(SchemeName, &[u8])>
    ensures { option_map found_front result ≡ name_front text.now }
{
    first_name(&all_names(), text)
}

// Where several match, the first of `names` wins.
fn first_name<'a>(names: &[SchemeName], text: &'a [u8]) -> Option<(SchemeName, &'a [u8])>
    ensures { option_map found_front result ≡ first_name names.now text.now }
{
    let (name, others) = names.split_first()?;
    match after(text, name_of(*name).as_bytes()) {
        Some(rest) => Some((*name, rest)),
        None => first_name(others, text),
    }
}
