// Why there is no table.
ghost use Rattle.std.specs.Prelude.{◌≡◌, Some};
ghost use Rattle.tabulation.specs.declared.error.TabulateError.TheVariants.{Unreadable, Refused, OutOfMemory};

use crate::input::BadInput;
use std::alloc::{AllocError, AllocFailed};
use std::error::Error;
use std::fmt;
use tape::RefusedAt;

#[derive(Clone, Copy, PartialEq, Eq, Debug)]
pub enum TabulateError {
    // the bytes are no input
    Unreadable(BadInput),
    // the tape is refused, at every request
    Refused(RefusedAt),
    OutOfMemory,
}

impl From<BadInput> for TabulateError {
    ghost from_gives = { λ bad e. e ≡ Unreadable bad };

    fn from(bad: BadInput) -> Self {
        TabulateError::Unreadable(bad)
    }
}

impl From<RefusedAt> for TabulateError {
    ghost from_gives = { λ refused e. e ≡ Refused refused };

    fn from(refused: RefusedAt) -> Self {
        TabulateError::Refused(refused)
    }
}

impl From<AllocError> for TabulateError {
    ghost from_gives = { λ _ e. e ≡ OutOfMemory };

    fn from(_error: AllocError) -> Self {
        TabulateError::OutOfMemory
    }
}

impl<T: Drop> From<AllocFailed<T>> for TabulateError {
    ghost from_gives = { λ _ e. e ≡ OutOfMemory };

    fn from(_failed: AllocFailed<T>) -> Self {
        TabulateError::OutOfMemory
    }
}

// A refusal by its number and its place.
impl fmt::Display for TabulateError {
    ghost use Rattle.tabulation.specs.Errors.{error_text};

    ghost output = { λ e. Some (error_text e) };

    fn fmt<W: fmt::Write>(&self, f: &mut fmt::Formatter<W>) -> fmt::Result {
        match self {
            TabulateError::Unreadable(bad) => write!(f, "{bad}"),
            TabulateError::Refused(at) => write!(f, "{at}"),
            TabulateError::OutOfMemory => write!(f, "memory allocation failed"),
        }
    }
}

impl Error for TabulateError {}
