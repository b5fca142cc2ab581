//! Results of lexing a text for a page.
ghost use Rattle.std.specs.Prelude.{◌≡◌, length};
ghost use Rattle.wat_wasm.specs.Endings.{report_of, known};
ghost use Rattle.wat_lex.specs.errors.Rendering.{overwrite_start};

use wat_lex::error::Rendered;
use wat_lex::lexer::LexFault;
use wat_lex::token::Span;

/// Reason why the rows of a text end.
#[derive(Clone, Copy, Debug, PartialEq, Eq)]
pub enum Ending {
    /// The end of the text, after the last row.
    Whole,
    /// A lexical error, after the last row.
    Faulty(LexFault),
    /// A full buffer: another token follows the last row.
    Full,
    /// Bytes that are not valid UTF-8 from this offset on. No rows are written.
    NotUtf8(usize),
    /// A text of more than `u32::MAX` bytes. No rows are written.
    TooLong,
}

/// Result of lexing a text, as integers. A field that does not apply to an ending is 0.
#[repr(C)]
#[derive(Clone, Copy, Debug, PartialEq, Eq)]
pub struct Report {
    /// Index of the variant of [`Ending`], starting at 0.
    pub ending: u32,
    /// Number of rows written.
    pub rows: usize,
    /// Byte offset of the lexical error, or length of the valid UTF-8 at the start of the bytes.
    pub offset: usize,
    /// Line of the lexical error, starting at 0.
    pub line: usize,
    /// Column of the lexical error in bytes, starting at 0.
    pub column: usize,
    /// Number of bytes of the formatted error that were written. If it is less than the length of
    /// the buffer, the formatted error is complete.
    pub message: usize,
}

impl Ending {
    /// Returns the report for a number of rows and this ending, and formats the lexical error, if
    /// there is one, into `message`. The error is cut at the end of the buffer.
    pub fn report(self, text: &str, rows: usize, message: &mut [u8]) -> Report
        ensures report { result ≡ report_of text.now (length message.old) rows self }
        ensures message { message.new ≡ overwrite_start (known text.now self) message.old }
    {
        let plain = Report {
            ending: 0,
            rows,
            offset: 0,
            line: 0,
            column: 0,
            message: 0,
        };
        match self {
            Ending::Whole => plain,
            Ending::Faulty(fault) => {
                let (line, column) = Span::from_offset(fault.offset).linecol_in(text);
                Report {
                    ending: 1,
                    rows,
                    offset: fault.offset,
                    line,
                    column,
                    message: Rendered::new(text, fault).write_to(message),
                }
            }
            Ending::Full => Report { ending: 2, ..plain },
            Ending::NotUtf8(offset) => Report {
                ending: 3,
                offset,
                ..plain
            },
            Ending::TooLong => Report { ending: 4, ..plain },
        }
    }
}
