//! Why a rule is not read.

ghost use Rattle.std.specs.Prelude.{◌≡◌};

use pls_streams::NoMemory;
use thiserror::Error;

/// Why a rule is not read.
#[derive(Clone, Copy, Debug, PartialEq, Eq, Error)]
pub enum RuleError {
    /// The rule makes no sense, by this number: [`DEPTH`](pls_streams::refusal_number::DEPTH) or
    /// [`FIELD`](pls_streams::refusal_number::FIELD).
    #[error("refused {0}")]
    Refused(u8),
    /// There was no memory for the rule.
    #[error("out of memory")]
    NoMemory,
}

impl From<NoMemory> for RuleError {
    ghost use Rattle.pls_rule_text.specs.declared.rule_error.RuleError.TheVariants.{NoMemory as Wanting};

    ghost from_gives = { λ _ error. error ≡ Wanting };

    fn from(_: NoMemory) -> Self {
        RuleError::NoMemory
    }
}
