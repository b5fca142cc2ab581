//! Ranges of the text that are the values of string literals and names.
ghost use Rattle.std.specs.Prelude.{
  ◌≡◌,
  ◌≤◌,
  ◌<◌,
  ◌^◌,
  ◌+◌,
  ◌-◌,
  ◌==◌,
  length,
  true,
  false,
  slice_index,
};
ghost use Rattle.std.specs.Str.{chars, IsUtf8};
ghost use Rattle.wat_lex.specs.grammar.Classes.{backslash};
ghost use Rattle.wat_lex.specs.grammar.Words.{Word as Spells};
ghost use Rattle.wat_lex.specs.tokens.ReadableTokens.{token_text};
ghost use Rattle.wat_lex.specs.tokens.Setting.{lenient};
ghost use Rattle.wat_lex.specs.values.Names.{HasNone};
ghost use Rattle.wat_lex.specs.values.WordValues.{empty_name};
ghost use Rattle.wat_lex.specs.declared.lexer.kinds.TokenKind.TheVariants as token_kind;
ghost use Rattle.wat_c.specs.ByRow.{kind_of, token_of};
ghost use Rattle.wat_c.specs.Readings.{IsNamed};
ghost use Rattle.wat_c.specs.Words.{TellsWord, OneWord, no_word};
ghost use Rattle.wat_c_records.specs.Counting.{IsRow};
ghost use Rattle.wat_c_records.specs.Rows.{fault_code};

use crate::by_row::{name_kind, token_of};
use crate::laws::one_word;
use memchr::memchr;
use std::str;
use wat_c_records::counting::Row;
use wat_c_records::rows::fault_code;
use wat_lex::lexer::{LexError, TokenKind};

/// Range of bytes of the text, or the reason why there is none.
#[repr(C)]
#[derive(Clone, Copy, Debug, PartialEq)]
pub struct Word {
    /// Byte offset of the range in the text.
    pub start: u32,
    /// Length in bytes.
    pub len: u32,
    /// 0 if there is a range. Otherwise `start` and `len` are 0, and the status is 1 if the token
    /// has no value, 3 if no comment was found, 4 if the value contains an escape, or the code of
    /// an error.
    pub status: u32,
}

impl Word {
    /// Returns the result without a range, with this status.
    pub(crate) fn refused(status: u32) -> Word
        ensures { result ≡ no_word status }
    {
        Word {
            start: 0,
            len: 0,
            status,
        }
    }
}

/// Returns `true` if the lexeme contains a backslash, with which each escape begins.
fn has_backslash(word: &str) -> bool
    ensures none { result ≡ false → HasNone backslash (chars word.now) }
    ensures some { result ≡ true → HasNone backslash (chars word.now) → ⊥ }
{
    memchr(b'\\', word.as_bytes()).is_some()
}

/// Returns the lexeme of a row, whose kind must be `kind`.
pub(crate) fn source<'a>(text: &'a str, row: Row, kind: TokenKind) -> &'a str
    requires known { IsRow text.now row }
    requires is { kind_of row.kind ≡ kind }
    ensures text { result.now ≡ token_text text.now (token_of row) }
    ensures word { Spells kind (chars result.now) lenient }
    ensures len { length result.now ≡ row.len }
    ensures ends { row.offset + row.len ≤ length text.now }
{
    wat_lex::laws::tokens();
    token_of(row, kind).src(text)
}

/// Returns the range of a string literal's value, or status 4 if it contains an escape.
fn string_word(text: &str, row: Row) -> Word
    requires short { length text.now < 2 ^ 32 }
    requires known { IsRow text.now row }
    requires is { kind_of row.kind ≡ token_kind.String }
    ensures { TellsWord text.now (token_of row) result }
{
    wat_lex::laws::strings();
    if has_backslash(source(text, row, TokenKind::String)) {
        return Word::refused(4);
    }
    Word {
        start: row.offset + 1,
        len: row.len - 2,
        status: 0,
    }
}

/// Returns `true` if the name in the lexeme of an identifier or annotation is quoted.
fn is_quoted(word: &str) -> bool
    ensures { result ≡ (slice_index word.now 1 == 34) }
{
    let bytes = word.as_bytes();
    bytes.len() > 1 && bytes[1] == b'"'
}

/// Returns the error for an empty name in a token of this kind.
fn empty_name(kind: TokenKind) -> LexError
    ensures { result ≡ empty_name kind }
{
    match kind {
        TokenKind::Annotation => LexError::EmptyAnnotation,
        _ => LexError::EmptyId,
    }
}

/// Returns the range of the name in a token, without the first `before` and the last `after` bytes.
/// Returns the code of the error if the name is empty.
fn name_within(row: Row, kind: TokenKind, before: u32, after: u32) -> Word
    requires fits { before + after ≤ row.len }
    requires ends { row.offset + row.len < 2 ^ 32 }
    ensures empty { row.len ≡ before + after → result ≡ no_word (fault_code (empty_name kind)) }
    ensures some { before + after < row.len → result ≡ record {
      start = row.offset + before;
      len = row.len - before - after;
      status = 0;
    } }
{
    let len = row.len - before - after;
    if len == 0 {
        return Word::refused(fault_code(empty_name(kind)));
    }
    Word {
        start: row.offset + before,
        len,
        status: 0,
    }
}

/// Returns the range of the name of an identifier or annotation.
fn name_word(text: &str, row: Row, kind: TokenKind) -> Word
    requires short { length text.now < 2 ^ 32 }
    requires known { IsRow text.now row }
    requires is { kind_of row.kind ≡ kind }
    requires named { IsNamed kind }
    ensures { TellsWord text.now (token_of row) result }
{
    wat_lex::laws::names();
    let word = source(text, row, kind);
    if !is_quoted(word) {
        return name_within(row, kind, 1, 0);
    }
    if has_backslash(word) {
        return Word::refused(4);
    }
    name_within(row, kind, 2, 1)
}

/// Returns the range of the text that is the value of a row.
fn word_of(text: &str, row: Row) -> Word
    requires short { length text.now < 2 ^ 32 }
    requires known { IsRow text.now row }
    ensures { TellsWord text.now (token_of row) result }
{
    if row.kind.code == TokenKind::String.number() {
        return string_word(text, row);
    }
    match name_kind(row.kind.code) {
        Some(kind) => name_word(text, row, kind),
        None => Word::refused(1),
    }
}

/// Returns the range of the text that is the value of a row: for a string literal, the bytes
/// between its quotation marks; for an identifier or annotation, its name without `$` or `@` and
/// without quotation marks. Fails with status 1 if the row is none of these, with status 4 if the
/// literal or the quoted name contains an escape, and with the code of the error if the name is
/// empty.
#[unsafe(no_mangle)]
pub extern "C" fn wat_word(text: &[u8], row: &Row) -> Word
    requires utf8 { IsUtf8 text.now }
    requires short { length text.now < 2 ^ 32 }
    requires known { IsRow text.now row.now }
    ensures known { TellsWord text.now (token_of row.now) result }
    ensures one { OneWord text.now (token_of row.now) }
{
    one_word();
    let text = unsafe { str::from_utf8_unchecked(text) };
    word_of(text, *row)
}
