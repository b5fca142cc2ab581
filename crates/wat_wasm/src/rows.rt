//! Rows of the raw tokens of a text.
ghost use Rattle.std.specs.Prelude.{◌≡◌, ◌<◌, ◌^◌, ◌+◌};
ghost use Rattle.wat_wasm.specs.Endings.{row_of};
ghost use Rattle.wat_wasm.specs.Reports.{Filled};

use crate::report::Ending;
use wat_lex::lexer::{Lexer, Token};

/// A raw token. It begins at the end of the row before it, and the first one at offset 0.
#[repr(C)]
#[derive(Clone, Copy, Debug, PartialEq, Eq)]
pub struct Row {
    /// End offset of the token in the text, in bytes.
    pub end: u32,
    /// Code of the kind, 1 to 15, as `TokenKind::number` returns it.
    pub kind: u32,
}

/// Returns the row of a token.
fn row_of(token: Token) -> Row
    requires { token.offset + token.len < 2 ^ 32 }
    ensures { result ≡ row_of token }
{
    Row {
        end: token.offset as u32 + token.len,
        kind: u32::from(token.kind.number()),
    }
}

/// Writes a row for each raw token until the text ends, there is a lexical error, or `rows` is
/// full. Returns the number of rows, and the reason why they end.
pub fn fill(lexer: &Lexer, rows: &mut [Row]) -> (usize, Ending)
    ensures { Filled lexer.now rows.old rows.new result.0 result.1 }
{
    // From this call, the proof gets the fact that the text is UTF-8.
    let _ = lexer.input();
    let mut count = 0;
    let mut pos = 0;
    'tokens: loop {
        match lexer.scan_by_byte(pos) {
            Ok(Some(token)) => {
                if count == rows.len() {
                    return (count, Ending::Full);
                }
                rows[count] = row_of(token);
                count += 1;
                pos = token.offset + token.len as usize;
            }
            Ok(None) => return (count, Ending::Whole),
            Err(fault) => return (count, Ending::Faulty(fault)),
        }
    }
}
