//! Reads a source to its end, and defines the errors of a run.
ghost use Rattle.std.specs.Prelude.{◌≡◌, ◌⊎◌, ◌↔◌, ℕ, None};
ghost use Rattle.std.specs.Prelude.{alloc_error, is_ok, IfOk, OnOk, IfErr, IsErrOf};
ghost use Rattle.std.specs.Str.{IsUtf8, IsValidUpTo};
ghost use Rattle.wat_tokens_output.specs.Inputs.{ReadsWhole, ReadsPast, ReadsShort};
ghost use Rattle.wat_tokens_output.specs.Refusals.{IsNotUtf8, IsFailedRead, read_failure};

use std::alloc::{AllocError, Global};
use std::{fmt, str};
use wat_tokens_io::ends::{Failed, Source};

/// The reason why a run ended without its output.
#[derive(Clone, Copy, Debug, PartialEq, Eq)]
pub enum RunError {
    /// A failed read.
    Read,
    /// An input of more than `u32::MAX` bytes.
    TooLong,
    /// An input that is not UTF-8.
    NotUtf8,
    /// A failed write.
    Write,
    /// An allocation failure.
    Memory,
}

/// The reason why a run ended without its output, with its cause.
#[derive(Clone, Copy, Debug, PartialEq, Eq)]
pub enum RunFailure {
    /// A failed read.
    Read(Failed),
    /// An input of more than `u32::MAX` bytes.
    TooLong,
    /// An input that is not UTF-8, with the length in bytes of its longest UTF-8 prefix.
    NotUtf8(usize),
    /// A failed write.
    Write(Failed),
    /// An allocation failure.
    Memory(AllocError),
}

impl From<AllocError> for RunFailure {
    ghost use Rattle.std.specs.Prelude.{◌≡◌};
    ghost use Rattle.wat_tokens_output.specs.declared.input.RunFailure.TheVariants.{Memory};

    ghost from_gives = { λ refused e. e ≡ Memory refused };

    fn from(refused: AllocError) -> RunFailure {
        RunFailure::Memory(refused)
    }
}

impl fmt::Display for RunFailure {
    ghost use Rattle.std.specs.Prelude.{Some};
    ghost use Rattle.wat_tokens_output.specs.Refusals.{refusal};

    ghost output = { λ e. Some (refusal e) };

    fn fmt<W: fmt::Write>(&self, f: &mut fmt::Formatter<W>) -> fmt::Result {
        match self {
            RunFailure::Read(failed) => write!(f, "read failed{failed}"),
            RunFailure::TooLong => write!(f, "input is too long"),
            RunFailure::NotUtf8(offset) => write!(f, "input is not UTF-8 at byte {offset}"),
            RunFailure::Write(failed) => write!(f, "write failed{failed}"),
            RunFailure::Memory(_) => write!(f, "out of memory"),
        }
    }
}

impl From<RunFailure> for RunError {
    ghost use Rattle.std.specs.Prelude.{◌≡◌};
    ghost use Rattle.wat_tokens_output.specs.Refusals.{error_of};

    ghost from_gives = { λ failure e. e ≡ error_of failure };

    fn from(failure: RunFailure) -> RunError {
        match failure {
            RunFailure::Read(_) => RunError::Read,
            RunFailure::TooLong => RunError::TooLong,
            RunFailure::NotUtf8(_) => RunError::NotUtf8,
            RunFailure::Write(_) => RunError::Write,
            RunFailure::Memory(_) => RunError::Memory,
        }
    }
}

impl fmt::Display for RunError {
    ghost use Rattle.std.specs.Prelude.{Some};
    ghost use Rattle.wat_tokens_output.specs.Refusals.{reason_message};

    ghost output = { λ e. Some (reason_message e) };

    fn fmt<W: fmt::Write>(&self, f: &mut fmt::Formatter<W>) -> fmt::Result {
        let words = match self {
            RunError::Read => "read failed",
            RunError::TooLong => "input is too long",
            RunError::NotUtf8 => "input is not UTF-8",
            RunError::Write => "write failed",
            RunError::Memory => "out of memory",
        };
        write!(f, "{words}")
    }
}

/// Length of the longest text, in bytes.
const LONGEST: usize = u32::MAX as usize;

/// Number of bytes that one read may return.
const PIECE: usize = 65_536;

/// Reads the source to its end, and returns the bytes.
///
/// # Errors
///
/// Returns [`RunFailure::TooLong`] once one byte more than the longest text was read,
/// [`RunFailure::Read`] if a read fails, and [`RunFailure::Memory`] if an allocation fails.
pub fn read_whole<R: Source>(alloc: Global, input: &mut R) -> Result<Vec<u8>, RunFailure>
    requires { R.failure input.old ≡ None }
    ensures whole { IfOk result (λ bytes.
        ReadsWhole (R.left input.old) (R.left input.new) bytes.items) }
    ensures ended { R.has_ended input.new ≡ is_ok result }
    ensures past { IsErrOf result RunFailure.TooLong →
        ReadsPast (R.left input.old) (R.left input.new) }
    ensures short { (IsErrOf result RunFailure.TooLong) ⊎
        ReadsShort (R.left input.old) (R.left input.new) }
    ensures read { read_failure result ≡ R.failure input.new }
    ensures refused { IfErr result (λ e.
        IsFailedRead e ⊎ ((e ≡ RunFailure.TooLong) ⊎ (e ≡ RunFailure.Memory alloc_error))) }
{
    let mut bytes = Vec::new(alloc);
    let mut piece = [0u8; PIECE];
    'pieces: loop {
        let left = LONGEST as u64 - bytes.len() as u64 + 1;
        let room = left.min(PIECE as u64) as usize;
        match input.read(&mut piece[..room]) {
            Err(failed) => return Err(RunFailure::Read(failed)),
            Ok(0) => return Ok(bytes),
            Ok(count) => {
                if count > LONGEST - bytes.len() {
                    return Err(RunFailure::TooLong);
                }
                bytes.extend_from_slice(&piece[..count])?;
            }
        }
    }
}

/// Returns the bytes as a `str`.
///
/// # Errors
///
/// Returns [`RunFailure::NotUtf8`] if the bytes are not UTF-8.
pub fn text_of(bytes: &[u8]) -> Result<&str, RunFailure>
    ensures text { IfOk result (λ text. text.now ≡ bytes.now) }
    ensures utf8 { OnOk result (IsUtf8 bytes.now) }
    ensures not_utf8 { (offset : ℕ) →
        IsErrOf result (RunFailure.NotUtf8 offset) ↔ IsValidUpTo bytes.now offset }
    ensures refused { IfErr result IsNotUtf8 }
{
    match str::from_utf8(bytes) {
        Ok(text) => Ok(text),
        Err(error) => Err(RunFailure::NotUtf8(error.valid_up_to())),
    }
}
