//! Lexing of many tokens, as rows.
ghost use Rattle.std.specs.Prelude.{◌≡◌, ◌≤◌, ◌<◌, ◌^◌, length, take, drop};
ghost use Rattle.std.specs.Str.{IsCharBoundary};
ghost use Rattle.wat_c_records.specs.Rows.{Fills};

use crate::one_byte::one_byte_token;
use crate::rows::{Filled, TokenRow, fault_code, token_row};
use wat_lex::lexer::{Lexer, Settings};

/// Writes the tokens from byte `pos` on to `out`, until `out` is full, the text ends, or there is a
/// lexical error. Elements of `out` after the first `count` are unchanged.
pub fn fill(text: &str, pos: usize, settings: Settings, out: &mut [TokenRow]) -> Filled
    requires short { length text.now < 2 ^ 32 }
    requires boundary { IsCharBoundary text.now pos }
    ensures rows { Fills (record { text = text.now; flags = settings }) pos
        (length out.old) (take result.count out.new) result }
    ensures boundary { IsCharBoundary text.now result.at }
    ensures count { result.count ≤ length out.old }
    ensures rest { drop result.count out.new ≡ drop result.count out.old }
{
    let lexer = Lexer::with_settings(text, settings);
    let mut at = pos;
    let mut count = 0;
    'rows: while count < out.len() {
        if let Some(row) = one_byte_token(text, at) {
            out[count] = row;
            count += 1;
            at += 1;
            continue 'rows;
        }
        match lexer.scan(at) {
            Ok(Some(token)) => {
                out[count] = token_row(token);
                count += 1;
                at = token.offset + token.len as usize;
            }
            Ok(None) => return Filled { count, at, why: 0 },
            Err(fault) => {
                let why = fault_code(fault.error);
                return Filled { count, at, why };
            }
        }
    }
    Filled { count, at, why: 1 }
}
