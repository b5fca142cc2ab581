//! Error recovery: the bytes that a lexical error covers, after which lexing resumes.
ghost use Rattle.std.specs.Prelude.{◌≡◌, ℕ, true, length, slice_index, IfSome, IfNone};
ghost use Rattle.std.specs.Bool.{MatchBool};
ghost use Rattle.std.specs.Str.{chars};
ghost use Rattle.wat_lex.specs.grammar.Classes.{Begins, is_run_char};
ghost use Rattle.wat_lex.specs.inside.Outlines.{BeginsWithFault};
ghost use Rattle.wat_lex.specs.inside.Recovered.{
  BeginsComment,
  BeginsFault,
  Covered,
  PassedIn,
  PassedTo,
  SomeCovered,
};
ghost use Rattle.wat_lex.specs.tokens.Recovery.{is_escaped, is_inside};
ghost use Rattle.wat_lex.specs.declared.lexer.faults.LexError.TheVariants.{ConfusingUnicode};

use crate::lexer::faults::LexError;
use crate::lexer::scan::byte_at;
use crate::lexer::scan::classes::{idchar_len, is_run_char};
use crate::lexer::scan::comments::{block_comment_len, line_comment_len};
use crate::lexer::scan::strings::string_len;
use crate::lexer::settings::Settings;

/// Returns `true` if the text begins with a quote or a backslash, which a backslash before it
/// escapes in a string with an error.
fn begins_escaped(text: &str) -> bool
    ensures { MatchBool result
        (Begins is_escaped (chars text.now)) (Begins is_escaped (chars text.now) → ⊥) }
{
    match text.chars().next() {
        Some(c) => c == '"' || c == '\\',
        None => false,
    }
}

/// Returns the length in bytes of the first character, or of a backslash and the character that it
/// escapes, inside a string with an error. Returns `None` if the string ends: at a quote, at a line
/// end, or at the end of the text.
fn inside_len(text: &str) -> Option<usize>
    ensures some { IfSome result (PassedIn text.now) }
    ensures none { IfNone result (Begins is_inside (chars text.now) → ⊥) }
{
    let mut it = text.chars();
    let c = it.next()?;
    if c == '"' || c == '\n' || c == '\r' {
        return None;
    }
    if c == '\\' && begins_escaped(it.as_str()) {
        return Some(2);
    }
    Some(text.len() - it.as_str().len())
}

/// Returns the number of bytes that are left of a string with an error, after its opening quote.
/// The string extends through the next unescaped quote in the line, or otherwise up to the line
/// end.
fn rest_of_string(text: &str) -> usize
    ensures { PassedTo text.now result }
{
    let mut at = 0;
    'inside: while let Some(len) = inside_len(&text[at..]) {
        at += len;
    }
    if byte_at(text.as_bytes(), at) == b'"' {
        return at + 1;
    }
    at
}

/// Returns the number of bytes that a lexical error in a string covers. The text begins with the
/// run that contains the string.
fn covered_run(text: &str, flags: Settings) -> usize
    requires refused { BeginsWithFault flags text.now }
    requires run { is_run_char (slice_index text.now 0) ≡ true }
    ensures { SomeCovered flags text.now result }
{
    let bytes = text.as_bytes();
    let mut len = idchar_len(bytes);
    while len < bytes.len() && bytes[len] == b'"' {
        let inside = len + 1;
        match string_len(&text[inside..], flags) {
            Ok(taken) => len = inside + taken,
            Err(_) => return inside + rest_of_string(&text[inside..]),
        }
        len += idchar_len(&bytes[len..]);
    }
    unreachable!()
}

/// Returns the length in bytes of the comment at the start of the text, with confusing characters
/// allowed.
fn covered_comment(text: &str, flags: Settings) -> usize
    requires { BeginsComment flags text.now }
    ensures { (c : ℕ) → Covered flags text.now (ConfusingUnicode c) result }
{
    let allowing = Settings {
        allow: true,
        strict: flags.strict,
    };
    let len = if byte_at(text.as_bytes(), 0) == b'(' {
        block_comment_len(text, allowing)
    } else {
        line_comment_len(text, allowing)
    };
    match len {
        Some(len) => len,
        None => unreachable!(),
    }
}

/// Returns the number of bytes that the lexical error at the start of the text covers.
pub fn covered_len(text: &str, error: LexError, flags: Settings) -> usize
    requires { BeginsFault flags text.now error }
    ensures { Covered flags text.now error result }
{
    match error {
        LexError::Unexpected(c) => c.len_utf8(),
        LexError::DanglingBlockComment => 2,
        _ => {
            if is_run_char(byte_at(text.as_bytes(), 0)) {
                covered_run(text, flags)
            } else {
                covered_comment(text, flags)
            }
        }
    }
}
