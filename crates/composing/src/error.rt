// Why a text has no job.
ghost use Rattle.std.specs.Prelude.{◌≡◌, Some};
ghost use Rattle.composing.specs.Errors.{told};
ghost use Rattle.composing.specs.declared.error.ComposeError.TheVariants.{OutOfMemory};

use std::alloc::{AllocError, AllocFailed};
use std::error::Error;
use std::fmt;

#[derive(Clone, Copy, PartialEq, Eq, Hash, Debug)]
pub enum ComposeError {
    // the number of the first line that cannot be read, from 1
    Unreadable(usize),
    OutOfMemory,
}

impl fmt::Display for ComposeError {
    ghost output = { λ error. Some (told error) };

    fn fmt<W: fmt::Write>(&self, f: &mut fmt::Formatter<W>) -> fmt::Result {
        match *self {
            ComposeError::Unreadable(line) => write!(f, "line {line}: cannot be read"),
            ComposeError::OutOfMemory => write!(f, "memory allocation failed"),
        }
    }
}

impl Error for ComposeError {}

impl From<AllocError> for ComposeError {
    ghost from_gives = { λ _ error. error ≡ OutOfMemory };

    fn from(_: AllocError) -> ComposeError {
        Self::OutOfMemory
    }
}

impl<T: Drop> From<AllocFailed<T>> for ComposeError {
    ghost from_gives = { λ _ error. error ≡ OutOfMemory };

    fn from(failed: AllocFailed<T>) -> ComposeError {
        AllocError::from(failed).into()
    }
}
