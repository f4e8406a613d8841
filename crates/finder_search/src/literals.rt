//! Literals by their variables and signs.
ghost use Rattle.std.specs.Prelude.{◌≡◌, ◌<◌, false};
ghost use Rattle.terms.specs.Clauses.{bad_literal, variable};
ghost use Rattle.finder_search.specs.Literals.{negated, index, row};

use terms::limits::MOST_VARIABLES;

/// The rows of an array that has one for each literal.
pub(crate) const LITERAL_ROWS: usize = 2 * MOST_VARIABLES;

/// The index of the literal's variable.
pub(crate) fn index_of(literal: i32) -> usize
    requires { 0 < variable literal }
    ensures { result ≡ index literal }
{
    (literal.unsigned_abs() - 1) as usize
}

/// The literal of the same variable with the other sign.
pub(crate) fn opposite(literal: i32) -> i32
    requires { bad_literal MOST_VARIABLES literal ≡ false }
    ensures { result ≡ negated literal }
{
    -literal
}

/// The row of a literal: a variable's two literals have neighbouring rows, the positive one first.
pub(crate) fn row_of(literal: i32) -> usize
    requires { bad_literal MOST_VARIABLES literal ≡ false }
    ensures row { result ≡ row literal }
    ensures within { result < LITERAL_ROWS }
{
    2 * index_of(literal) + usize::from(literal < 0)
}
