ghost use Rattle.std.specs.Prelude.{◌≡◌};
ghost use Rattle.sheet.specs.declared.error.LineError.{LineError};
ghost use Rattle.sheet.specs.declared.error.ReadError.{ReadError};
ghost use Rattle.sheet.specs.LineErrors.{error_at};

use book::Refusal;
use std::alloc::{AllocError, AllocFailed};

// Why a sheet was not read.
#[derive(Clone, Copy, Debug, PartialEq, Eq)]
pub enum ReadError {
    Declined(Refusal),
    NoMemory,
}

impl From<AllocError> for ReadError {
    ghost from_gives = { λ _ r. r ≡ ReadError.NoMemory };

    fn from(_e: AllocError) -> ReadError {
        ReadError::NoMemory
    }
}

impl<T: Drop> From<AllocFailed<T>> for ReadError {
    ghost from_gives = { λ _ r. r ≡ ReadError.NoMemory };

    fn from(_e: AllocFailed<T>) -> ReadError {
        ReadError::NoMemory
    }
}

// Why a line was not read.
#[derive(Clone, Copy)]
pub(crate) enum LineError {
    Unreadable,
    NoMemory,
}

impl LineError {
    // The error of a sheet in which this happened on the line with this number.
    pub(crate) fn on_line(self, line: usize) -> ReadError
        ensures { result ≡ error_at self line }
    {
        match self {
            LineError::Unreadable => ReadError::Declined(Refusal::UnreadableLine { line }),
            LineError::NoMemory => ReadError::NoMemory,
        }
    }
}

impl From<AllocError> for LineError {
    ghost from_gives = { λ _ e. e ≡ LineError.NoMemory };

    fn from(_e: AllocError) -> LineError {
        LineError::NoMemory
    }
}
