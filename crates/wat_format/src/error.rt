//! Errors of `format`.
use std::alloc::{AllocError, AllocFailed};
use std::fmt;
use wat_lex::lexer::LexFault;

/// Reason why a text is not formatted.
#[derive(Clone, Copy, Debug, PartialEq)]
pub enum Error {
    /// An allocation failure.
    Memory(AllocError),
    /// A lexical error in the text.
    Fault(LexFault),
    /// A text without lexical errors whose formatted text would have more than `u32::MAX` bytes.
    TooLong,
}

impl From<AllocError> for Error {
    ghost use Rattle.std.specs.Prelude.{◌≡◌};
    ghost use Rattle.wat_format.specs.declared.error.Error.TheVariants.{Memory};

    ghost from_gives = { λ refused e. e ≡ Memory refused };

    fn from(refused: AllocError) -> Error {
        Error::Memory(refused)
    }
}

impl fmt::Display for Error {
    ghost use Rattle.std.specs.Prelude.{Some};
    ghost use Rattle.wat_format.specs.Errors.{printed};

    ghost output = { λ e. Some (printed e) };

    fn fmt<W: fmt::Write>(&self, f: &mut fmt::Formatter<W>) -> fmt::Result {
        match self {
            Error::Memory(_) => write!(f, "out of memory"),
            Error::Fault(fault) => write!(f, "{} at byte offset {}", fault.error, fault.offset),
            Error::TooLong => write!(
                f,
                "the formatted text would be longer than 4294967295 bytes"
            ),
        }
    }
}
