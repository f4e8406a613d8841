//! Literals are `i32`, clauses `&[i32]`, assignments byte slices with variable v at index v - 1.
ghost use Rattle.std.specs.Prelude.{◌≡◌, pos, if◌then◌else◌, ◌↔◌, IsTrue, int_lt};
ghost use Rattle.terms.specs.Clauses.{binary, Binary, true_in, satisfied_by, Satisfied, variable, bad_literal, first_bad, FirstBad};

/// Whether each byte is 0 or 1, as in an assignment.
pub fn is_binary(bytes: &[u8]) -> bool
    ensures value { result ≡ binary bytes.now }
    ensures means { IsTrue result ↔ Binary bytes.now }
{
    for byte in bytes {
        if *byte > 1 {
            return false;
        }
    }
    true
}

/// Whether at least one literal of the clause is true.
pub fn satisfies(assignment: &[u8], clause: &[i32]) -> bool
    ensures value { result ≡ satisfied_by assignment.now clause.now }
    ensures means { IsTrue result ↔ Satisfied assignment.now clause.now }
{
    clause.iter().any(|literal| is_true(assignment, *literal))
}

/// Whether a literal is true. The literal 0 is not, and neither is one of a variable that the assignment lacks.
fn is_true(assignment: &[u8], literal: i32) -> bool
    ensures { result ≡ true_in assignment.now literal }
{
    variable(literal)
        .checked_sub(1)
        .and_then(|index| assignment.get(index))
        .is_some_and(|value| *value == wanted(literal))
}

/// The value of its variable that makes a literal true.
fn wanted(literal: i32) -> u8
    ensures { result ≡ (if int_lt (pos 0) literal then 1 else 0) }
{
    u8::from(literal > 0)
}

/// The index of the first literal that is 0 or belongs to a variable above `n`.
pub fn first_bad_literal(clause: &[i32], n: usize) -> Option<usize>
    ensures value { result ≡ first_bad n clause.now }
    ensures means { FirstBad n clause.now result }
{
    clause.iter().position(|literal| is_bad(*literal, n))
}

/// Whether a literal is 0 or belongs to a variable above `n`.
fn is_bad(literal: i32, n: usize) -> bool
    ensures { result ≡ bad_literal n literal }
{
    let variable = variable(literal);
    variable == 0 || variable > n
}

/// The variable of a literal, 0 for the literal 0.
fn variable(literal: i32) -> usize
    ensures { result ≡ variable literal }
{
    literal.unsigned_abs() as usize
}
