//! Formatting of a text into a string.
ghost use Rattle.std.specs.Prelude.{◌≡◌, ◌≤◌, ◌<◌, ◌^◌, length, IfOk, IfErr, string_bytes};
ghost use Rattle.std.specs.Str.{IsCharBoundary};
ghost use Rattle.wat_format.specs.Formatting.{Formatted, Refuses};
ghost use Rattle.wat_format.specs.inside.Steps.{EndsWithError};

use crate::error::Error;
use crate::formatter::Formatter;
use std::alloc::Global;
use wat_lex::lexer::{Lexer, Settings};

/// Maximum length of a formatted text in bytes, so that its offsets fit in a `u32`.
const MOST: usize = 4_294_967_295;

/// Formats a text, and returns the formatted text.
///
/// # Errors
///
/// Returns `Error::Fault` for the first lexical error of the text. If there is none, returns
/// `Error::TooLong` if the formatted text would have more than `u32::MAX` bytes. Returns
/// `Error::Memory` if an allocation fails.
pub fn format(alloc: Global, text: &str, settings: Settings) -> Result<String, Error>
    requires { length text.now < 2 ^ 32 }
    ensures formatted { IfOk result (λ answer.
        Formatted (record { text = text.now; flags = settings }) (string_bytes answer)) }
    ensures short { IfOk result (λ answer. length (string_bytes answer) < 2 ^ 32) }
    ensures refused { IfErr result (Refuses (record { text = text.now; flags = settings })) }
{
    let lexer = Lexer::with_settings(text, settings);
    let mut formatter = Formatter::new(alloc);
    let mut out = String::with_capacity(alloc, text.len())?;
    let mut pos = 0;
    'tokens: loop {
        match lexer.scan(pos) {
            Ok(Some(token)) => {
                formatter.take(&mut out, text, &token)?;
                pos = token.offset + token.len as usize;
                if out.len() > MOST {
                    return Err(too_long(&lexer, pos));
                }
            }
            Ok(None) => break 'tokens,
            Err(fault) => return Err(Error::Fault(fault)),
        }
    }
    formatter.finish(&mut out, text)?;
    if out.len() > MOST {
        return Err(Error::TooLong);
    }
    Ok(out)
}

/// Returns the error for a text whose formatted text is too long up to offset `pos`: the lexical
/// error after `pos` if there is one, otherwise `Error::TooLong`.
fn too_long(lexer: &Lexer<'_>, pos: usize) -> Error
    requires { IsCharBoundary lexer.now.text pos }
    ensures { EndsWithError lexer.now pos result }
{
    match lexer.first_fault(pos) {
        Some(fault) => Error::Fault(fault),
        None => Error::TooLong,
    }
}
