//! What holds of the texts of all expressions.

ghost use Rattle.std.specs.Prelude.{◌≡◌};
ghost use Rattle.pls_expressions.specs.Expression.{IsSmall};
ghost use Rattle.pls_expressions.specs.Held.{expression_of};
ghost use Rattle.pls_scheme_text.specs.ExpressionText.{expression_text};

use pls_expressions::ExpressionTree;

/// Small expressions with one text are one.
pub fn one_text(one: &ExpressionTree, other: &ExpressionTree)
    requires one { IsSmall (expression_of one.now) }
    requires other { IsSmall (expression_of other.now) }
    ensures { expression_text (expression_of one.now) ≡ expression_text (expression_of other.now)
        → expression_of one.now ≡ expression_of other.now }
{}
