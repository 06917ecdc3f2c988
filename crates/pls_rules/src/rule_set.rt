//! Rule sets.

use crate::expr::BoolExpr;
use crate::field::Field;

/// A rule set: the fields of a label, and the rules from 3 on; rules 1 and 2 are that the own label
/// and each neighbour's can be read. `set_of` (`specs/HeldTrees`) is the set that it holds.
#[derive(Drop)]
pub struct RuleSet {
    /// The fields of a label, in the order in which they are written.
    pub fields: Vec<Field>,
    /// The rules in order, from rule 3 on.
    pub rules: Vec<BoolExpr>,
}
