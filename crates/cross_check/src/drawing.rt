//! Draws clauses.
use random::Xorshift;
use std::alloc::{AllocError, Global};

/// The seed of each comparison. Another one gives other inputs.
pub(crate) const SEED: u64 = 0x9e37_79b9_7f4a_7c15;

/// Draws so many literals of the variables, which may repeat each other or be opposites; none where there is no variable.
pub(crate) fn draw_literals(
    alloc: Global,
    random: &mut Xorshift,
    variables: u8,
    size: u8,
) -> Result<Vec<i32>, AllocError> {
    let mut literals = Vec::new(alloc);
    if variables > 0 {
        for _ in 0..size {
            let variable = 1 + i32::from(random.up_to(variables - 1));
            literals.push(if random.one_in(2) {
                variable
            } else {
                -variable
            })?;
        }
    }
    Ok(literals)
}
