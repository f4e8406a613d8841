//! The phase and the status of a job.
ghost use Rattle.std.specs.Prelude.{Some};
ghost use Rattle.bracket.specs.Statuses.{name_of};

use std::fmt;

/// Which sort of cover the next round takes, once an assignment is kept.
#[derive(Clone, Copy, PartialEq, Eq, Debug)]
pub enum Phase {
    /// Any cover: its cost says nothing of the floor.
    Quick,
    /// A least cover, whose cost is a floor.
    Exact,
}

/// How far a job has come.
#[derive(Clone, Copy, PartialEq, Eq, Debug)]
pub enum Status {
    /// No assignment is allowed, and none will be.
    Void,
    /// No assignment has been kept so far, or since the last one was let go.
    Unasked,
    /// The kept assignment costs as little as any that is allowed.
    Best,
    /// An assignment is kept, and a cheaper one may be allowed.
    Open,
}

impl fmt::Display for Status {
    ghost output = { λ status. Some (name_of status) };

    fn fmt<W: fmt::Write>(&self, f: &mut fmt::Formatter<W>) -> fmt::Result {
        match self {
            Status::Void => write!(f, "void"),
            Status::Unasked => write!(f, "unasked"),
            Status::Best => write!(f, "best"),
            Status::Open => write!(f, "open"),
        }
    }
}
