//! Formatting of a text into a sink, one block at a time.
ghost use Rattle.std.specs.Prelude.{◌≡◌, ◌<◌, ◌^◌, length, None, OnOk, IfErr, IfSome, IfNone};
ghost use Rattle.std.specs.Prelude.{string_bytes};
ghost use Rattle.std.specs.Io.KnownBytes.{Appends};
ghost use Rattle.std.specs.Str.{IsCharBoundary};
ghost use Rattle.wat_lex.specs.tokens.UniqueTilings.{EndsFrom};
ghost use Rattle.wat_format.specs.Streams.{AppendsLayout, RefusesToWrite, failed_after};
ghost use Rattle.wat_format.specs.inside.Writing.{CutsShort, Drains, TokenIsAt, StopsShort};

use crate::formatter::Formatter;
use std::alloc::{AllocError, Global};
use std::fmt;
use wat_lex::lexer::{LexFault, Lexer, Settings, Token};
use wat_tokens_io::ends::{Failed, Sink};

/// Reason why a text was not written, or only in part.
#[derive(Debug, Drop)]
pub enum WriteError {
    /// An allocation failure. A part of the formatted text may have been written.
    Memory(AllocError),
    /// A lexical error in the text. Nothing was written.
    Fault(LexFault),
    /// A write failure of the sink. A part of the formatted text may have been written.
    Failed(Failed),
}

impl From<AllocError> for WriteError {
    ghost use Rattle.std.specs.Prelude.{◌≡◌};
    ghost use Rattle.wat_format.specs.declared.stream.WriteError.TheVariants.{Memory};

    ghost from_gives = { λ refused e. e ≡ Memory refused };

    fn from(refused: AllocError) -> WriteError {
        WriteError::Memory(refused)
    }
}

impl fmt::Display for WriteError {
    ghost use Rattle.std.specs.Prelude.{Some};
    ghost use Rattle.wat_format.specs.Errors.{printed_of_writing};

    ghost output = { λ e. Some (printed_of_writing e) };

    fn fmt<W: fmt::Write>(&self, f: &mut fmt::Formatter<W>) -> fmt::Result {
        match self {
            WriteError::Memory(_) => write!(f, "out of memory"),
            WriteError::Fault(fault) => write!(
                f,
                "{} at byte offset {}",
                fault.error, fault.offset
            ),
            WriteError::Failed(_) => write!(f, "write failed"),
        }
    }
}

/// Length in bytes from which a block is written to the sink.
const BLOCK: usize = 65_536;

/// Formats a text, and writes the formatted text, which may have any length, to `output`. Allocates
/// a block, which holds up to 65,536 bytes plus the longest token with the gap before it, and 8
/// bytes for each open group.
///
/// # Errors
///
/// Returns `WriteError::Fault` for the first lexical error of the text, before anything is written.
/// Returns `WriteError::Failed` if a write fails, and `WriteError::Memory` if an allocation fails;
/// then a first part of the formatted text, possibly empty, is written.
pub fn format_to<W: Sink>(
    alloc: Global,
    text: &str,
    settings: Settings,
    output: &mut W,
) -> Result<(), WriteError>
    requires { length text.now < 2 ^ 32 }
    ensures written { OnOk result (AppendsLayout (record { text = text.now; flags = settings })
        (W.held output.old) (W.held output.new)) }
    ensures refused { IfErr result (RefusesToWrite (record { text = text.now; flags = settings })
        (W.held output.old) (W.held output.new)) }

    // Returns `Failed` if and only if a call of the sink failed, with its failure.
    ensures failed { W.failure output.new ≡ failed_after (W.failure output.old) result }
{
    let lexer = Lexer::with_settings(text, settings);
    match lexer.first_fault(0) {
        Some(fault) => Err(WriteError::Fault(fault)),
        None => write_formatted(alloc, &lexer, output),
    }
}

/// Writes the formatted text of a lexer's text, which must be without lexical errors.
fn write_formatted<W: Sink>(
    alloc: Global,
    lexer: &Lexer<'_>,
    output: &mut W,
) -> Result<(), WriteError>
    requires { EndsFrom lexer.now 0 None }
    ensures written { OnOk result
        (AppendsLayout lexer.now (W.held output.old) (W.held output.new)) }
    ensures cut { IfErr result (CutsShort lexer.now (W.held output.old) (W.held output.new)) }
    ensures failed { W.failure output.new ≡ failed_after (W.failure output.old) result }
{
    wat_lex::laws::one_answer();
    let text = lexer.input();
    let mut formatter = Formatter::new(alloc);
    let mut block = String::new(alloc);
    let mut pos = 0;
    'tokens: while let Some(token) = next_token(lexer, pos) {
        formatter.take(&mut block, text, &token)?;
        write_if_full(output, &mut block)?;
        pos = token.offset + token.len as usize;
    }
    formatter.finish(&mut block, text)?;
    write_bytes(output, block.as_bytes())
}

/// Lexes the token at `pos` in a text without lexical errors. Returns `None` at the end of the
/// text.
fn next_token(lexer: &Lexer<'_>, pos: usize) -> Option<Token>
    requires boundary { IsCharBoundary lexer.now.text pos }
    requires ends { EndsFrom lexer.now pos None }
    ensures some { IfSome result (TokenIsAt lexer.now pos) }
    ensures none { IfNone result (pos ≡ length lexer.now.text) }
{
    match lexer.scan(pos) {
        Ok(token) => token,
        Err(_) => unreachable!(),
    }
}

/// Writes a block and clears it if it has at least `BLOCK` bytes.
fn write_if_full<W: Sink>(output: &mut W, block: &mut String) -> Result<(), WriteError>
    ensures drained { OnOk result (Drains (W.held output.old) (W.held output.new)
        (string_bytes block.old) (string_bytes block.new)) }
    ensures cut { IfErr result
        (StopsShort (W.held output.old) (W.held output.new) (string_bytes block.old)) }
    ensures failed { W.failure output.new ≡ failed_after (W.failure output.old) result }
{
    if block.len() < BLOCK {
        return Ok(());
    }
    write_bytes(output, block.as_bytes())?;
    block.clear();
    Ok(())
}

/// Writes all the bytes to the sink.
fn write_bytes<W: Sink>(output: &mut W, bytes: &[u8]) -> Result<(), WriteError>
    ensures bytes { OnOk result (Appends (W.held output.old) (W.held output.new) bytes.now) }
    ensures cut { IfErr result (StopsShort (W.held output.old) (W.held output.new) bytes.now) }
    ensures failed { W.failure output.new ≡ failed_after (W.failure output.old) result }
{
    match output.write_all(bytes) {
        Ok(()) => Ok(()),
        Err(failure) => Err(WriteError::Failed(failure)),
    }
}
