//! Classification of a token's first byte.
ghost use Rattle.wat_lex.specs.inside.Outlines.{Begun};

use crate::lexer::kinds::Sign;
use crate::lexer::scan::classes::is_idchar;

/// Class of the first byte of a token.
#[derive(Clone, Copy)]
pub enum Start {
    /// Space, LF, CR or TAB.
    Whitespace,
    /// `(`
    OpenParen,
    /// `)`
    CloseParen,
    /// `;`
    Semicolon,
    /// `,`, `[`, `]`, `{` or `}`.
    Punctuation,
    /// `"`
    Quote,
    /// A digit or the given sign. Most lexemes that begin with it are numbers.
    Number(Sign),
    /// The first letter of `inf` or `nan`, with which keywords begin too.
    Letter,
    /// Any other lowercase letter. A lexeme that begins with it is a keyword.
    Keyword,
    /// `$`
    Id,
    /// `@`
    Annotation,
    /// Any other idchar. A lexeme that begins with it is reserved.
    Reserved,
    /// A byte with which no token begins.
    Other,
}

/// Returns the class of the first byte of a token.
// Neighboring bytes are in separate patterns. In one pattern they would form a range, and ranges
// are compared one after the other instead of by one jump.
#[inline(always)]
pub fn start_of(first: u8) -> Start
    ensures { Begun first result }
{
    match first {
        b' ' | b'\n' | b'\r' => Start::Whitespace,
        b'\t' => Start::Whitespace,
        b'(' => Start::OpenParen,
        b')' => Start::CloseParen,
        b'0' | b'2' | b'4' | b'6' | b'8' => Start::Number(Sign::None),
        b'1' | b'3' | b'5' | b'7' | b'9' => Start::Number(Sign::None),
        b'+' => Start::Number(Sign::Plus),
        b'-' => Start::Number(Sign::Minus),
        b'a' | b'c' | b'e' | b'g' | b'k' | b'm' | b'o' | b'q' | b's' | b'u' | b'w' | b'y' => {
            Start::Keyword
        }
        b'b' | b'd' | b'f' | b'h' | b'j' | b'l' | b'p' | b'r' | b't' | b'v' | b'x' | b'z' => {
            Start::Keyword
        }
        b'i' | b'n' => Start::Letter,
        b'$' => Start::Id,
        b'"' => Start::Quote,
        b'@' => Start::Annotation,
        b';' => Start::Semicolon,
        b',' | b'[' | b']' | b'{' | b'}' => Start::Punctuation,
        _ if is_idchar(first) => Start::Reserved,
        _ => Start::Other,
    }
}
