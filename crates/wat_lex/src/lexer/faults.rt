//! Lexical errors and their messages.
ghost use Rattle.std.specs.Prelude.{◌≡◌, ◌++◌, flat_map, codes};
ghost use Rattle.wat_lex.specs.errors.Messages.{lower_hex, message, escaped_char};
ghost use Rattle.wat_lex.specs.errors.PieceTexts.{piece_text};
ghost use Rattle.wat_lex.specs.declared.lexer.faults.LexError.TheVariants.{Expected};

use crate::error::pieces::{Piece, print};
use std::fmt;

/// A lexical error of a text, without its offset.
#[derive(Clone, Copy, Debug, PartialEq, Eq)]
pub enum LexError {
    /// An unterminated block comment, reported at its `(;`.
    DanglingBlockComment,
    /// A character with which no token begins.
    Unexpected(char),
    /// A control character in a string: below U+0020, or U+007F.
    InvalidStringElement(char),
    /// A character that begins no escape, after a `\` in a string.
    InvalidStringEscape(char),
    /// A character other than the hexadecimal digit that must be there.
    InvalidHexDigit(char),
    /// A character other than the decimal digit that must be there. The lexer never returns it.
    InvalidDigit(char),
    /// A character other than the one that must be there.
    Expected {
        /// The character that must be there.
        wanted: char,
        /// The character that is there.
        found: char,
    },
    /// The end of the text inside a string.
    UnexpectedEof,
    /// A number of 2^32 or more in `\u{..}`.
    NumberTooBig,
    /// A number in `\u{..}` that is not a Unicode scalar value.
    InvalidUnicodeValue(u32),
    /// An underscore at the end of the digits in `\u{..}` or, with strict underscores, directly
    /// after another.
    LoneUnderscore,
    /// One of the 9 confusing characters, which can change how a text is displayed, in a comment or
    /// a string.
    ConfusingUnicode(char),
    /// A quoted name that is not UTF-8.
    InvalidUtf8Id,
    /// A `$` without a name.
    EmptyId,
    /// An `@` without a name.
    EmptyAnnotation,
}

/// A lexical error and its offset.
#[derive(Clone, Copy, Debug, PartialEq, Eq)]
pub struct LexFault {
    /// Byte offset at which the error is reported.
    pub offset: usize,
    /// The error.
    pub error: LexError,
}

impl LexError {
    /// Returns the message as chunks.
    pub(crate) fn pieces(&self) -> [Piece<'static>; 9]
        ensures { flat_map piece_text result ≡ message self.now }
    {
        match *self {
            LexError::DanglingBlockComment => plain("unterminated block comment"),
            LexError::Unexpected(c) => about("unexpected character '", c),
            LexError::InvalidStringElement(c) => about("invalid character in string '", c),
            LexError::InvalidStringEscape(c) => about("invalid string escape '", c),
            LexError::InvalidHexDigit(c) => about("invalid hex digit '", c),
            LexError::InvalidDigit(c) => about("invalid decimal digit '", c),
            LexError::Expected { wanted, found } => other(wanted, found),
            LexError::UnexpectedEof => plain("unexpected end-of-file"),
            LexError::NumberTooBig => plain("number is too big to parse"),
            LexError::InvalidUnicodeValue(n) => number("invalid unicode scalar value 0x", n, ""),
            LexError::LoneUnderscore => plain("bare underscore in numeric literal"),
            LexError::ConfusingUnicode(c) => number(
                "likely-confusing unicode character found '\\u{",
                u32::from(c),
                "}'",
            ),
            LexError::InvalidUtf8Id => plain("malformed UTF-8 encoding of string-based id"),
            LexError::EmptyId => plain("empty identifier"),
            LexError::EmptyAnnotation => plain("empty annotation id"),
        }
    }
}

/// Returns the chunks of a message without parameters.
fn plain(text: &'static str) -> [Piece<'static>; 9]
    ensures { flat_map piece_text result ≡ text.now }
{
    let none = Piece::Text("");
    let text = Piece::Text(text);
    [text, none, none, none, none, none, none, none, none]
}

/// Returns the chunks of a message about a character. `text` ends with its opening quote.
fn about(text: &'static str, c: char) -> [Piece<'static>; 9]
    ensures { flat_map piece_text result ≡ text.now ++ (escaped_char c ++ codes "'") }
{
    let none = Piece::Text("");
    let (a, b, c) = escaped_char(c);
    let end = Piece::Text("'");
    [Piece::Text(text), a, b, c, end, none, none, none, none]
}

/// Returns the chunks of the message about a character other than the one that must be there.
fn other(wanted: char, found: char) -> [Piece<'static>; 9]
    ensures { flat_map piece_text result ≡ message (Expected wanted found) }
{
    let (a, b, c) = escaped_char(wanted);
    let (d, e, f) = escaped_char(found);
    let first = Piece::Text("expected '");
    let between = Piece::Text("' but found '");
    let end = Piece::Text("'");
    [first, a, b, c, between, d, e, f, end]
}

/// Returns the chunks of a message about an integer, which is printed in hexadecimal digits.
fn number(text: &'static str, number: u32, end: &'static str) -> [Piece<'static>; 9]
    ensures { flat_map piece_text result ≡ text.now ++ (lower_hex number ++ end.now) }
{
    let none = Piece::Text("");
    let number = Piece::Hexadecimal(number);
    let end = Piece::Text(end);
    [
        Piece::Text(text),
        number,
        end,
        none,
        none,
        none,
        none,
        none,
        none,
    ]
}

/// Returns the chunks of a character in a message. TAB, CR, LF, `\` and `'` are escaped, other
/// characters from U+0020 to U+007E are printed unchanged, and all others as `\u{..}`.
fn escaped_char(c: char) -> (Piece<'static>, Piece<'static>, Piece<'static>)
    ensures { piece_text result.0 ++ (piece_text result.1 ++ piece_text result.2) ≡ escaped_char c }
{
    let none = Piece::Text("");
    match c {
        '\t' => (Piece::Text("\\t"), none, none),
        '\r' => (Piece::Text("\\r"), none, none),
        '\n' => (Piece::Text("\\n"), none, none),
        '\\' => (Piece::Text("\\\\"), none, none),
        '\'' => (Piece::Text("\\'"), none, none),
        '\x20'..='\x7e' => (Piece::Character(c), none, none),
        _ => {
            let code = Piece::Hexadecimal(u32::from(c));
            (Piece::Text("\\u{"), code, Piece::Text("}"))
        }
    }
}

impl fmt::Display for LexError {
    ghost use Rattle.std.specs.Prelude.{Some};
    ghost use Rattle.wat_lex.specs.errors.Messages.{message};

    ghost output = { λ e. Some (message e) };

    fn fmt<W: fmt::Write>(&self, f: &mut fmt::Formatter<W>) -> fmt::Result {
        print(&self.pieces(), f)
    }
}
