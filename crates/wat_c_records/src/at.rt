//! Lexing of one token, as rows.
ghost use Rattle.std.specs.Prelude.{◌≡◌, ◌<◌, ◌^◌, length};
ghost use Rattle.std.specs.Str.{IsCharBoundary};
ghost use Rattle.wat_c_records.specs.Rows.{FoundAt, TokenFoundAt};
ghost use Rattle.wat_c_records.specs.declared.rows.Found.{Found as FoundRow};

use crate::one_byte::one_byte_token;
use crate::rows::{Found, TokenRow, found_row};
use wat_lex::laws::one_answer;
use wat_lex::lexer::{Lexer, Settings};

/// Lexes the token at `pos`. Its length and the code of its kind are 0 at the end of the text and
/// at a lexical error.
// Inlined, and with both branches inlined: a row that a call returns is written to memory and read
// back.
#[inline(always)]
pub fn token_at(text: &str, pos: usize, settings: Settings) -> TokenRow
    requires short { length text.now < 2 ^ 32 }
    requires boundary { IsCharBoundary text.now pos }
    ensures found { TokenFoundAt (record { text = text.now; flags = settings }) pos result }
    ensures one { (row : FoundRow) →
        FoundAt (record { text = text.now; flags = settings }) pos row → row.token ≡ result }
{
    one_answer();
    match one_byte_token(text, pos) {
        Some(row) => row,
        None => found_row(pos, Lexer::with_settings(text, settings).scan(pos)).token,
    }
}

/// Lexes the token at `pos`. The result is a token, the end of the text, or a lexical error.
// Inlined, and with both branches inlined, like `token_at`.
#[inline(always)]
pub fn found_at(text: &str, pos: usize, settings: Settings) -> Found
    requires short { length text.now < 2 ^ 32 }
    requires boundary { IsCharBoundary text.now pos }
    ensures found { FoundAt (record { text = text.now; flags = settings }) pos result }
    ensures one { (row : FoundRow) →
        FoundAt (record { text = text.now; flags = settings }) pos row → row ≡ result }
{
    one_answer();
    match one_byte_token(text, pos) {
        Some(token) => Found {
            token,
            fault: 0,
            found: 0,
            wanted: 0,
        },
        None => found_row(pos, Lexer::with_settings(text, settings).scan(pos)),
    }
}
