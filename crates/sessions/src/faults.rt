//! Why the playing of a line stopped.
ghost use Rattle.std.specs.Prelude.{◌≡◌};
ghost use Rattle.sessions.specs.declared.faults.SessionFault.TheVariants.{Memory, Line};
ghost use Rattle.texts.specs.Faults.{malformed};

use std::alloc::{AllocError, AllocFailed};
use texts::{FieldFault, LineFault};

/// A fault of the line, which is printed, or `AllocError`, which ends the program.
#[derive(Clone, Copy, PartialEq, Eq, Debug)]
pub(crate) enum SessionFault {
    Line(LineFault),
    Memory,
}

impl From<LineFault> for SessionFault {
    ghost from_gives = { λ fault r. r ≡ Line fault };

    fn from(fault: LineFault) -> SessionFault {
        SessionFault::Line(fault)
    }
}

impl From<FieldFault> for SessionFault {
    ghost from_gives = { λ fault r. r ≡ Line (malformed fault) };

    fn from(fault: FieldFault) -> SessionFault {
        SessionFault::Line(fault.into())
    }
}

impl From<AllocError> for SessionFault {
    ghost from_gives = { λ _ r. r ≡ Memory };

    fn from(_: AllocError) -> SessionFault {
        SessionFault::Memory
    }
}

impl<T: Drop> From<AllocFailed<T>> for SessionFault {
    ghost from_gives = { λ _ r. r ≡ Memory };

    fn from(_: AllocFailed<T>) -> SessionFault {
        SessionFault::Memory
    }
}
