//! Rows of the significant tokens, i.e. all tokens except whitespace and comments.
ghost use Rattle.std.specs.Prelude.{◌≡◌, ◌≤◌, ◌<◌, ◌^◌, ◌+◌, length, take, drop};
ghost use Rattle.std.specs.Str.{IsCharBoundary};
ghost use Rattle.wat_c_records.specs.Counting.{FillsCounting, row_kind_of, row_of};

use crate::rows::{Filled, KindRow, fault_code, kind_row, plain};
use wat_lex::lexer::{Lexer, Settings, Token, TokenKind};

/// Row of the token table: one significant token, in 16 bytes.
#[repr(C)]
#[derive(Clone, Copy, Debug, PartialEq)]
pub struct Row {
    /// Byte offset of the token in the text.
    pub offset: u32,
    /// Length in bytes.
    pub len: u32,
    /// Kind of the token, as in a `TokenRow`, except that the code of a `(` followed immediately by
    /// `@` is 16.
    pub kind: KindRow,
    /// 1 plus the index of the `)` that closes the innermost group still open after this row, or 0
    /// if there is none. It is 0 until `link` sets it.
    pub link: u32,
}

/// Returns the kind of a token's row: code 16 for a `(` followed immediately by `@`.
fn row_kind_of(text: &str, token: Token) -> KindRow
    requires { token.offset < 2 ^ 32 }
    ensures { result ≡ row_kind_of text.now token token.kind }
{
    match token.kind {
        TokenKind::LParen => {
            if token.is_marked(text) {
                plain(16)
            } else {
                kind_row(token.kind)
            }
        }
        kind => kind_row(kind),
    }
}

/// Returns the row of a token, with the link 0.
fn row_of(text: &str, token: Token) -> Row
    requires { token.offset < 2 ^ 32 }
    ensures { result ≡ row_of text.now 0 token }
{
    Row {
        offset: token.offset as u32,
        len: token.len,
        kind: row_kind_of(text, token),
        link: 0,
    }
}

/// Writes the rows of the significant tokens from byte `pos` on to `out`, until `out` is full, the
/// text ends, or there is a lexical error. Their links are 0. Elements of `out` after the first
/// `count` are unchanged. To get further rows, call the function again with the returned `at` as
/// `pos`.
pub fn fill_counting(text: &str, pos: usize, settings: Settings, out: &mut [Row]) -> Filled
    requires short { length text.now < 2 ^ 32 }
    requires boundary { IsCharBoundary text.now pos }
    ensures rows { FillsCounting (record { text = text.now; flags = settings }) pos
        (length out.old) (take result.count out.new) result }
    ensures boundary { IsCharBoundary text.now result.at }
    ensures count { result.count ≤ length out.old }
    ensures rest { drop result.count out.new ≡ drop result.count out.old }
{
    let lexer = Lexer::with_settings(text, settings);
    let mut at = pos;
    let mut count = 0;
    'rows: while count < out.len() {
        match lexer.scan(at) {
            Ok(Some(token)) => {
                at = token.offset + token.len as usize;
                if token.kind.is_blank() {
                    continue 'rows;
                }
                out[count] = row_of(text, token);
                count += 1;
            }
            Ok(None) => return Filled { count, at, why: 0 },
            Err(fault) => {
                let why = fault_code(fault.error);
                return Filled { count, at, why };
            }
        }
    }
    Filled { count, at, why: 1 }
}
