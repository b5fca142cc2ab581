//! Formats the text of a source, or compares it with its formatted text.
ghost use Rattle.std.specs.Prelude.{◌≡◌, ◌⊎◌, ◌↔◌, ◌<◌, ◌^◌, ℕ, true, None, Some, length};
ghost use Rattle.std.specs.Prelude.{alloc_error, IfOk, OnOk, OnErr, IfErr, IfSome, IsErrOf};
ghost use Rattle.std.specs.Str.{IsValidUpTo};
ghost use Rattle.wat_tokens_io.specs.declared.failed.Failed.{Failed};
ghost use Rattle.wat_tokens_output.specs.Inputs.{ReadsPast, ReadsShort, HasEnded};
ghost use Rattle.wat_tokens_output.specs.Layouts.{Compares, WritesLayout, WritesPart};
ghost use Rattle.wat_tokens_output.specs.Refusals.{IsNotUtf8, IsFailedWrite, failure_after};
ghost use Rattle.wat_tokens_output.specs.Refusals.{read_failure, write_failure};

use crate::input::{RunFailure, read_whole, text_of};
use crate::list::error_of;
use std::alloc::Global;
use wat_format::error::Error as FormatError;
use wat_format::format::format;
use wat_format::stream::{WriteError, format_to};
use wat_lex::error::Error;
use wat_lex::lexer::Settings;
use wat_tokens_io::ends::{Sink, Source};

/// The result of comparing a text with its formatted text.
#[derive(Drop)]
pub enum Compared {
    /// No difference: the text is formatted.
    Same,
    /// The formatted text, which differs from the text.
    Other(String),
    /// A formatted text of more than `u32::MAX` bytes, which is not returned.
    Longer,
    /// A lexical error in the text.
    Faulty(Error),
}

/// Writes the formatted text to the sink. If the text has a lexical error, writes nothing and
/// returns `Ok(Some(error))`.
fn write_text<W: Sink>(
    alloc: Global,
    text: &str,
    settings: Settings,
    output: &mut W,
) -> Result<Option<Error>, RunFailure>
    requires { length text.now < 2 ^ 32 }
    ensures written { IfOk result (λ error. WritesLayout settings text.now error
        (W.held output.old) (W.held output.new)) }
    ensures part { OnErr result
        (WritesPart settings text.now (W.held output.old) (W.held output.new)) }
    ensures write { W.failure output.new ≡ failure_after (W.failure output.old) result }
    ensures refused { IfErr result (λ e. IsFailedWrite e ⊎ (e ≡ RunFailure.Memory alloc_error)) }
{
    match format_to(alloc, text, settings, output) {
        Ok(()) => Ok(None),
        Err(WriteError::Memory(refused)) => Err(RunFailure::from(refused)),
        Err(WriteError::Failed(failed)) => Err(RunFailure::Write(failed)),
        Err(WriteError::Fault(fault)) => Ok(Some(error_of(alloc, text, fault)?)),
    }
}

/// Writes the formatted text to the sink, if the bytes are UTF-8. If they have a lexical error,
/// writes nothing and returns `Ok(Some(error))`.
fn write_bytes<W: Sink>(
    alloc: Global,
    bytes: &[u8],
    settings: Settings,
    output: &mut W,
) -> Result<Option<Error>, RunFailure>
    requires { length bytes.now < 2 ^ 32 }
    ensures written { IfOk result (λ error. WritesLayout settings bytes.now error
        (W.held output.old) (W.held output.new)) }
    ensures part { OnErr result
        (WritesPart settings bytes.now (W.held output.old) (W.held output.new)) }
    ensures write { W.failure output.new ≡ failure_after (W.failure output.old) result }
    ensures unwritten { IfErr result (λ e. IsFailedWrite e ⊎
        ((e ≡ RunFailure.Memory alloc_error) ⊎ (output.new ≡ output.old))) }
    ensures not_utf8 { (offset : ℕ) →
        IsErrOf result (RunFailure.NotUtf8 offset) ↔ IsValidUpTo bytes.now offset }
    ensures refused { IfErr result (λ e. IsNotUtf8 e ⊎
        (IsFailedWrite e ⊎ (e ≡ RunFailure.Memory alloc_error))) }
{
    match text_of(bytes) {
        Ok(text) => write_text(alloc, text, settings, output),
        Err(error) => Err(error),
    }
}

/// Reads the rest of the source, and writes its formatted text in chunks of about 64 KiB, however
/// long that text is. If the source has a lexical error, writes nothing and returns
/// `Ok(Some(error))`.
///
/// Allocates the input, a chunk, the longest token, and eight bytes for each open group. An
/// allocation may fail after a part of the output was written.
///
/// # Errors
///
/// Returns a [`RunFailure`] if a read, a write or an allocation fails, or if the input is not UTF-8
/// or has more than `u32::MAX` bytes.
pub fn run_fmt<R: Source, W: Sink>(
    alloc: Global,
    input: &mut R,
    output: &mut W,
    settings: Settings,
) -> Result<Option<Error>, RunFailure>
    requires { R.failure input.old ≡ None }
    ensures written { IfOk result (λ error. IfSome (R.left input.old) (λ bytes.
        WritesLayout settings bytes error (W.held output.old) (W.held output.new))) }

    // After a failed write or an allocation failure, a prefix of the formatted text was written, or
    // nothing. After every other error, nothing was written.
    ensures part { OnErr result (IfSome (R.left input.old) (λ bytes.
        WritesPart settings bytes (W.held output.old) (W.held output.new))) }
    ensures unwritten { IfErr result (λ e. IsFailedWrite e ⊎
        ((e ≡ RunFailure.Memory alloc_error) ⊎ (output.new ≡ output.old))) }

    // A result, an error in UTF-8 and a failed write occur only after the source was read to its
    // end.
    ensures ended { OnOk result (HasEnded (R.left input.new) (R.has_ended input.new)) }
    ensures not_utf8_ended { (offset : ℕ) → IsErrOf result (RunFailure.NotUtf8 offset) →
        HasEnded (R.left input.new) (R.has_ended input.new) }
    ensures write_ended { (failed : Failed) → IsErrOf result (RunFailure.Write failed) →
        HasEnded (R.left input.new) (R.has_ended input.new) }

    // The conditions of all errors except allocation failures.
    ensures read { read_failure result ≡ R.failure input.new }
    ensures write { W.failure output.new ≡ failure_after (W.failure output.old) result }
    ensures short { (IsErrOf result RunFailure.TooLong) ⊎
        ReadsShort (R.left input.old) (R.left input.new) }
    ensures too_long { IfSome (R.left input.old) (λ _.
        IsErrOf result RunFailure.TooLong ↔ ReadsPast (R.left input.old) (R.left input.new)) }
    ensures not_utf8 { (offset : ℕ) → IfSome (R.left input.old) (λ bytes.
        IsErrOf result (RunFailure.NotUtf8 offset) ↔
        ((R.has_ended input.new ≡ true) × IsValidUpTo bytes offset)) }
{
    let bytes = read_whole(alloc, input)?;
    write_bytes(alloc, &bytes, settings, output)
}

/// Compares a text with its formatted text.
fn compare_text(alloc: Global, text: &str, settings: Settings) -> Result<Compared, RunFailure>
    requires { length text.now < 2 ^ 32 }
    ensures compared { IfOk result (λ compared. Compares settings text.now compared) }
    ensures refused { IfErr result (λ e. e ≡ RunFailure.Memory alloc_error) }
{
    match format(alloc, text, settings) {
        Ok(answer) => {
            if answer.as_str() == text {
                Ok(Compared::Same)
            } else {
                Ok(Compared::Other(answer))
            }
        }
        Err(FormatError::TooLong) => Ok(Compared::Longer),
        Err(FormatError::Fault(fault)) => Ok(Compared::Faulty(error_of(alloc, text, fault)?)),
        Err(FormatError::Memory(refused)) => Err(RunFailure::from(refused)),
    }
}

/// Compares bytes with their formatted text, if they are UTF-8.
fn compare_bytes(alloc: Global, bytes: &[u8], settings: Settings) -> Result<Compared, RunFailure>
    requires { length bytes.now < 2 ^ 32 }
    ensures compared { IfOk result (λ compared. Compares settings bytes.now compared) }
    ensures not_utf8 { (offset : ℕ) →
        IsErrOf result (RunFailure.NotUtf8 offset) ↔ IsValidUpTo bytes.now offset }
    ensures refused { IfErr result (λ e. IsNotUtf8 e ⊎ (e ≡ RunFailure.Memory alloc_error)) }
{
    match text_of(bytes) {
        Ok(text) => compare_text(alloc, text, settings),
        Err(error) => Err(error),
    }
}

/// Reads the rest of the source, and compares it with its formatted text.
///
/// # Errors
///
/// Returns a [`RunFailure`] if a read or an allocation fails, or if the input is not UTF-8 or has
/// more than `u32::MAX` bytes. A lexical error is a result: [`Compared::Faulty`].
pub fn run_compare<R: Source>(
    alloc: Global,
    input: &mut R,
    settings: Settings,
) -> Result<Compared, RunFailure>
    requires { R.failure input.old ≡ None }
    ensures compared { IfOk result (λ compared. IfSome (R.left input.old) (λ bytes.
        Compares settings bytes compared)) }

    // A result and an error in UTF-8 occur only after the source was read to its end.
    ensures ended { OnOk result (HasEnded (R.left input.new) (R.has_ended input.new)) }
    ensures not_utf8_ended { (offset : ℕ) → IsErrOf result (RunFailure.NotUtf8 offset) →
        HasEnded (R.left input.new) (R.has_ended input.new) }

    // The conditions of all errors except allocation failures.
    ensures read { read_failure result ≡ R.failure input.new }
    ensures write { write_failure result ≡ None }
    ensures short { (IsErrOf result RunFailure.TooLong) ⊎
        ReadsShort (R.left input.old) (R.left input.new) }
    ensures too_long { IfSome (R.left input.old) (λ _.
        IsErrOf result RunFailure.TooLong ↔ ReadsPast (R.left input.old) (R.left input.new)) }
    ensures not_utf8 { (offset : ℕ) → IfSome (R.left input.old) (λ bytes.
        IsErrOf result (RunFailure.NotUtf8 offset) ↔
        ((R.has_ended input.new ≡ true) × IsValidUpTo bytes offset)) }
{
    let bytes = read_whole(alloc, input)?;
    compare_bytes(alloc, &bytes, settings)
}
