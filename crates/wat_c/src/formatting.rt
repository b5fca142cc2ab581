//! Formatting of texts.
ghost use Rattle.std.specs.Prelude.{◌≡◌, ◌<◌, ◌^◌, length};
ghost use Rattle.std.specs.Str.{IsUtf8};
ghost use Rattle.wat_c.specs.Answers.{Answers, OneAnswer};
ghost use Rattle.wat_c.specs.Formatting.{Formats, refusal_of};
ghost use Rattle.wat_c_records.specs.Rows.{setting};

use crate::answers::{Answer, Refusal, give};
use crate::laws::one_formatted;
use std::alloc::Global;
use std::str;
use wat_format::error::Error;
use wat_format::format::format;
use wat_lex::lexer::Settings;

/// Returns the reason for an error of the formatter.
fn refusal_of(error: Error) -> Refusal
    ensures { result ≡ refusal_of error }
{
    match error {
        Error::Memory(refused) => Refusal::Memory(refused),
        Error::Fault(fault) => Refusal::Fault(fault.error),
        Error::TooLong => Refusal::Other,
    }
}

/// Formats a text, and writes the formatted text to `out` if it fits.
fn give_formatted(alloc: Global, text: &str, settings: Settings, out: &mut [u8]) -> Answer
    requires { length text.now < 2 ^ 32 }
    ensures { Answers (Formats (record { text = text.now; flags = settings }))
        out.old out.new result }
{
    match format(alloc, text, settings) {
        Ok(formatted) => give(formatted.as_bytes(), out),
        Err(error) => refusal_of(error).answer(),
    }
}

/// Formats a text, and writes the formatted text to `out` if it fits. It has the tokens of the
/// text, comments included, and only the whitespace between them differs. Fails with the code of
/// the first lexical error if the text has one, with status 1 if the formatted text has more than
/// 4,294,967,295 bytes, and with status 2 if an allocation fails.
#[unsafe(no_mangle)]
pub extern "C" fn wat_format(
    alloc: Global,
    text: &[u8],
    allow: bool,
    strict: bool,
    out: &mut [u8],
) -> Answer
    requires utf8 { IsUtf8 text.now }
    requires short { length text.now < 2 ^ 32 }
    ensures found { Answers (Formats (setting text.now allow strict)) out.old out.new result }
    ensures one { OneAnswer (Formats (setting text.now allow strict)) out.old }
{
    one_formatted();
    let text = unsafe { str::from_utf8_unchecked(text) };
    give_formatted(alloc, text, Settings { allow, strict }, out)
}
