//! Whether a finder takes so many variables, and what it then has room for.
ghost use Rattle.std.specs.Prelude.{◌≡◌};
ghost use Rattle.std.specs.Result.{result_err};
ghost use Rattle.finders.specs.Refused.{variables_refused};
ghost use Rattle.clause_tables.specs.Room.{room};

use terms::Refusal;
use terms::limits::{SOFT_PLACES, TABLE_PLACES};

/// How many variables a finder has, how many soft clauses it takes, and how long its tables can be.
#[derive(Clone, Copy, Default, PartialEq, Eq, Debug)]
pub struct Room {
    pub(crate) variables: usize,
    pub(crate) softs: usize,
    pub(crate) places: usize,
}

impl Room {
    /// Refuses more variables than `most`.
    pub fn check(n: usize, most: usize) -> Result<(), Refusal>
        ensures { result_err result ≡ variables_refused most n }
    {
        if n > most {
            return Err(Refusal::TooManyVariables);
        }
        Ok(())
    }

    /// The room of a finder that takes up to `most` variables: with more than that it has none.
    pub(crate) fn new(n: usize, most: usize) -> Self
        ensures { result ≡ room most n }
    {
        Room::check(n, most)
            .map(|()| Room {
                variables: n,
                softs: SOFT_PLACES,
                places: TABLE_PLACES,
            })
            .unwrap_or_default()
    }
}
