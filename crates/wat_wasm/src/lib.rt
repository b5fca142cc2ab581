//! Lexer for a web page: one export that writes a row for each raw token of a text into memory that
//! the page provides. It does not allocate. Every input has a defined result, as there are no
//! preconditions on the arguments.
#![tactic(auto)]

ghost use Rattle.wat_wasm.specs.Reports.{Reports};

mod report;
mod rows;
#[cfg(test)]
mod tests;

pub use report::{Ending, Report};
pub use rows::Row;
use rows::fill;
use std::str;
use wat_lex::lexer::Lexer;

/// Lexes a text, and writes a row for each raw token to `rows`, until the text ends, there is a
/// lexical error, or `rows` is full. Formats the lexical error into `message`, and cuts it at the
/// end of the buffer. `report` tells how the rows end.
#[unsafe(no_mangle)]
pub extern "C" fn wat_page_read(
    bytes: &[u8],
    allow: bool,
    strict: bool,
    rows: &mut [Row],
    message: &mut [u8],
    report: &mut Report,
)
    ensures { Reports (record {
      text = bytes.now;
      flags = record { allow = allow; strict = strict };
    }) rows.old rows.new message.old message.new report.new }
{
    let text = match str::from_utf8(bytes) {
        Ok(text) => text,
        Err(error) => {
            *report = Ending::NotUtf8(error.valid_up_to()).report("", 0, message);
            return;
        }
    };
    if text.len() > u32::MAX as usize {
        *report = Ending::TooLong.report("", 0, message);
        return;
    }
    let mut lexer = Lexer::new(text);
    lexer
        .allow_confusing_unicode(allow)
        .strict_underscores(strict);
    let (count, ending) = fill(&lexer, rows);
    *report = ending.report(text, count, message);
}
