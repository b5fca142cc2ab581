//! Reports failed system calls.
ghost use Rattle.std.specs.Prelude.{◌≡◌, ◌<◌, Ok, IfOk, OnErr, unsigned_abs};
ghost use Rattle.std.specs.Option.{option_map};
ghost use Rattle.std.specs.IoError.{raw_os_error};
ghost use Rattle.wat_tokens_io.specs.Causes.{error_code, error_words, is_closed_pipe};
ghost use Rattle.wat_tokens_io.specs.Streams.{WroteNothing};

use std::{fmt, io};

/// A failed system call: a read, a write, or the opening of a file.
///
/// Values come only from the results of such calls, by [`Failed::of`] and [`taken`].
#[derive(Clone, Copy, Debug, PartialEq, Eq)]
pub struct Failed {
    /// Error number of the system, if there is one.
    code: Option<u32>,
}

/// Error number of a write to a pipe without a reader (`EPIPE`).
const CLOSED_PIPE: u32 = 32;

impl Failed {
    /// Converts an error of the standard library. Keeps only the absolute value of its error
    /// number.
    pub fn of(error: &io::Error) -> Failed
        ensures { error_code result ≡ option_map unsigned_abs (raw_os_error error.now) }
    {
        Failed {
            code: error.raw_os_error().map(|code| code.unsigned_abs()),
        }
    }

    /// Returns the error number of the system, if there is one.
    pub fn code(&self) -> Option<u32>
        ensures { result ≡ error_code self.now }
    {
        self.code
    }

    /// Returns `true` if the error number is that of a write to a pipe without a reader.
    pub fn is_closed_pipe(&self) -> bool
        ensures { result ≡ is_closed_pipe self.now }
    {
        self.code == Some(CLOSED_PIPE)
    }
}

/// Returns the number of bytes that a write consumed.
///
/// # Errors
///
/// Returns a failure if the write failed, or a failure without an error number if it consumed no
/// bytes.
pub fn taken(written: io::Result<usize>) -> Result<usize, Failed>
    ensures took { IfOk result (λ count. (written ≡ Ok count) × (0 < count)) }
    ensures none { OnErr result (WroteNothing written) }
{
    match written {
        Ok(0) => Err(Failed { code: None }),
        Ok(count) => Ok(count),
        Err(error) => Err(Failed::of(&error)),
    }
}

/// Prints a colon and the description of the error number, or nothing without an error number.
impl fmt::Display for Failed {
    ghost use Rattle.std.specs.Prelude.{Some};
    ghost use Rattle.wat_tokens_io.specs.Causes.{cause};

    ghost output = { λ f. Some (cause f) };

    fn fmt<W: fmt::Write>(&self, f: &mut fmt::Formatter<W>) -> fmt::Result {
        match self.code {
            Some(code) => write!(f, ": {}", ErrorNumber(code)),
            None => Ok(()),
        }
    }
}

/// An error number of the system, which prints as its description.
#[derive(Clone, Copy)]
struct ErrorNumber(u32);

impl fmt::Display for ErrorNumber {
    ghost use Rattle.std.specs.Prelude.{Some};
    ghost use Rattle.wat_tokens_io.specs.Causes.{error_words};

    ghost output = { λ n. Some (error_words n.0) };

    fn fmt<W: fmt::Write>(&self, f: &mut fmt::Formatter<W>) -> fmt::Result {
        let words = match self.0 {
            2 => "no such file or directory",
            5 => "input/output error",
            9 => "bad file descriptor",
            13 => "permission denied",
            20 => "not a directory",
            21 => "is a directory",
            24 => "too many open files",
            27 => "file too large",
            28 => "no space left on device",
            32 => "broken pipe",
            36 => "file name too long",
            40 => "too many levels of symbolic links",
            code => return write!(f, "error {code} of the system"),
        };
        write!(f, "{words}")
    }
}
