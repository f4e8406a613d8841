//! The limits of the product, by the names under which definitions and contracts cite them.

/// The variables of a finder, at most.
pub const MOST_VARIABLES: usize = 256;

/// The literals of a clause, at most.
pub const MOST_LITERALS: usize = 64;

/// The soft clauses of a finder and the weights of a cover maker, at most, so that each soft number is below this.
pub const SOFT_PLACES: usize = 64;

/// The places of each of the two clause tables, at most.
pub const TABLE_PLACES: usize = 32_768;

/// The cores that a cover maker keeps, at most.
pub const CORE_PLACES: usize = 512;

/// The variables that the count-through finder goes through, and the soft places that the count-through maker does, at most.
pub const MOST_COUNTED: usize = 16;

/// The bytes of a text, at most.
pub const MOST_BYTES: usize = 65_536;

/// The rounds that a line of a session asks for, at most.
pub const MOST_ROUNDS: u64 = 65_535;

/// The clause places of a session.
pub const SESSION_CLAUSES: usize = 4_096;

/// The literal places of a session.
pub const SESSION_LITERALS: usize = 16_384;
