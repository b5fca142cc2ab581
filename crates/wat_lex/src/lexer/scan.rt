//! Scanning: finds the token at an offset of a text, by its first bytes.
ghost use Rattle.std.specs.Prelude.{
  ◌≡◌,
  ◌≢◌,
  ◌<◌,
  ◌≤◌,
  ◌↔◌,
  ◌∷◌,
  [],
  true,
  false,
  drop,
  length,
  slice_index,
};
ghost use Rattle.std.specs.Prelude.{IfSome, IsTrue};
ghost use Rattle.std.specs.List.{prefix_len};
ghost use Rattle.std.specs.Str.{IsCharBoundary};
ghost use Rattle.wat_lex.specs.grammar.Classes.{is_idchar, is_run_char, quote};
ghost use Rattle.wat_lex.specs.grammar.Numbers.{sign_of};
ghost use Rattle.wat_lex.specs.tokens.BareWords.{bare_len};
ghost use Rattle.wat_lex.specs.tokens.Faults.{begins_word};
ghost use Rattle.wat_lex.specs.inside.ScannedLexemes.{Refused};
ghost use Rattle.wat_lex.specs.inside.Outlines.{BeginsWord, Begun, FoundIn, IdcharsOnly};
ghost use Rattle.wat_lex.specs.inside.Outlines.{BeginsWithFault};
ghost use Rattle.wat_lex.specs.inside.Outlines.{Outlined};
ghost use Rattle.wat_lex.specs.declared.lexer.kinds.Found.TheVariants as found;
ghost use Rattle.wat_lex.specs.declared.lexer.settings.Settings.{Settings};

use crate::lexer::faults::{LexError, LexFault};
use crate::lexer::kinds::{Found, Lexeme, Outline, Shape, Sign, Stride, TokenKind};
use crate::lexer::scan::blocks::{block_at, other_than_idchars};
use crate::lexer::scan::classes::{
    idchar_len, idchar_len_by_block, is_idchar, is_run_char, keyword_len, whitespace_len, word_len,
};
use crate::lexer::scan::comments::{
    block_comment, block_comment_len, line_comment, line_comment_len, short_block_comment_len,
};
use crate::lexer::scan::runs::{
    classify_word, decimal_kind, letters_kind, long_number_kind, run, run_outline,
    short_number_kind,
};
use crate::lexer::scan::starts::{Start, start_of};
use crate::lexer::settings::Settings;

pub(super) mod blocks;
pub(super) mod classes;
pub(super) mod comments;
pub(super) mod numbers;
pub(super) mod plain;
mod runs;
mod short;
mod starts;
pub(super) mod strings;

/// Returns the byte at index `i`, or 0 past the end.
#[inline(always)]
pub fn byte_at(text: &[u8], i: usize) -> u8
    ensures { result ≡ slice_index text.now i }
{
    if i < text.len() { text[i] } else { 0 }
}

/// Returns `true` if a quote follows the first `len` bytes, so that they are not all of their run.
#[inline(always)]
fn string_follows(text: &[u8], len: usize) -> bool
    ensures { IsTrue result ↔ slice_index text.now len ≡ 34 }
{
    byte_at(text, len) == b'"'
}

/// Returns `true` if a byte is neither an idchar nor a quote, so that idchars before it are all of
/// their run.
#[inline(always)]
fn ends_bare_word(b: u8) -> bool
    ensures { IsTrue result → (is_idchar b ≡ false) × (b ≢ quote) }
{
    !is_idchar(b) && b != b'"'
}

/// Returns the number of leading idchars, or 0 if a string follows them directly. Inside a group it
/// is often 1, which is tested first.
#[inline(always)]
pub fn bare_len(text: &[u8]) -> usize
    ensures { result ≡ bare_len text.now }
{
    match text {
        [first, next, ..] if is_idchar(*first) && ends_bare_word(*next) => 1,
        _ => {
            let len = idchar_len(text);
            if string_follows(text, len) { 0 } else { len }
        }
    }
}

/// Returns the token of a kind and a length.
#[inline(always)]
fn lexeme(kind: TokenKind, len: usize) -> Found
    ensures { result ≡ found.Lexeme (record { kind = kind; len = len }) }
{
    Found::Lexeme(Lexeme { kind, len })
}

/// Returns the token of the `len` idchars at the start, or `None` if a string follows them. A
/// lexeme that begins with the first of them must be of kind `kind`.
#[inline(always)]
fn idchars(text: &[u8], kind: TokenKind, len: usize) -> Option<Lexeme>
    requires some { 0 < length text.now }
    requires first { BeginsWord (slice_index text.now 0) kind }
    requires len { len ≡ prefix_len is_idchar text.now }
    ensures { IfSome result (IdcharsOnly text.now) }
{
    if string_follows(text, len) {
        return None;
    }
    Some(Lexeme { kind, len })
}

/// Returns the token of the idchars at the start, or `None` if a string follows them. The first of
/// them must be a lowercase letter.
#[inline(always)]
fn letters(text: &[u8], stride: Stride) -> Option<Lexeme>
    requires { (97 ≤ slice_index text.now 0) × (slice_index text.now 0 ≤ 122) }
    ensures { IfSome result (IdcharsOnly text.now) }
{
    let len = keyword_len(text, stride);
    if string_follows(text, len) {
        return None;
    }
    let kind = letters_kind(text, len, stride);
    Some(Lexeme { kind, len })
}

/// Returns the token of the idchars at the start, which may be a number, or `None` if a string
/// follows them. Examines one byte at a time.
#[inline(always)]
fn number_by_byte(text: &[u8]) -> Option<Lexeme>
    ensures { IfSome result (IdcharsOnly text.now) }
{
    let len = word_len(text, Stride::Byte);
    if string_follows(text, len) {
        return None;
    }
    let kind = decimal_kind(text, len, Stride::Byte);
    Some(Lexeme { kind, len })
}

/// Returns the token of the `len` idchars at the start, which fill a block and may be a number, or
/// `None` if a string follows them.
#[inline(always)]
fn long_number(text: &[u8], len: usize) -> Option<Lexeme>
    requires { len ≡ prefix_len is_idchar text.now }
    ensures { IfSome result (IdcharsOnly text.now) }
{
    if string_follows(text, len) {
        return None;
    }
    let kind = long_number_kind(text, len);
    Some(Lexeme { kind, len })
}

/// Returns the token of the idchars at the start, or `None` if a string follows them. The first of
/// them must be a digit or the given sign.
#[inline(always)]
fn number(text: &[u8], sign: Sign, stride: Stride) -> Option<Lexeme>
    requires some { 0 < length text.now }
    requires first { is_idchar (slice_index text.now 0) ≡ true }
    requires sign { sign ≡ sign_of (slice_index text.now 0 ∷ []) }
    ensures { IfSome result (IdcharsOnly text.now) }
{
    if stride == Stride::Byte || text.len() < 16 {
        return number_by_byte(text);
    }
    let others = other_than_idchars(block_at(text, 0));
    if others == 0 {
        return long_number(text, 16 + idchar_len_by_block(&text[16..]));
    }
    let len = others.trailing_zeros() as usize;
    if string_follows(text, len) {
        return None;
    }
    let kind = short_number_kind(text, len, sign);
    Some(Lexeme { kind, len })
}

/// Returns the token of the idchars at the start, or `None` if there are none or a string follows
/// them. `start` must be the class of the first byte.
#[inline(always)]
fn word(text: &[u8], start: Start, stride: Stride) -> Option<Lexeme>
    requires some { 0 < length text.now }
    requires start { Begun (slice_index text.now 0) start }
    ensures { IfSome result (IdcharsOnly text.now) }
{
    match start {
        Start::Number(sign) => number(text, sign, stride),
        Start::Letter => letters(text, stride),
        Start::Keyword => idchars(text, TokenKind::Keyword, keyword_len(text, stride)),
        Start::Id => idchars(text, TokenKind::Id, word_len(text, stride)),
        Start::Annotation => idchars(text, TokenKind::Annotation, word_len(text, stride)),
        Start::Reserved => idchars(text, TokenKind::Reserved, word_len(text, stride)),
        _ => None,
    }
}

/// Returns the token or the lexical error at the start of a text that begins with a run, by the
/// outline of the run.
#[inline(always)]
fn classify_outline(text: &str, outline: Outline) -> Found
    requires { outline.len ≤ length text.now }
    ensures { (flags : Settings) → Outlined flags text.now outline → FoundIn flags text.now result }
{
    let kind = match outline.shape {
        Shape::String => TokenKind::String,
        Shape::Id => TokenKind::Id,
        Shape::Annotation => TokenKind::Annotation,
        Shape::Reserved => TokenKind::Reserved,
        Shape::Word => classify_word(text.as_bytes(), outline.len, Stride::Byte),
        Shape::Fault => return Found::Fault,
    };
    lexeme(kind, outline.len)
}

/// Returns the token or the lexical error at byte offset `pos`, at which there must be an idchar or
/// a quote.
// The settings are passed by reference, so that they are read only if they are needed.
#[inline(always)]
fn scan_run(text: &str, pos: usize, start: Start, flags: &Settings, stride: Stride) -> Found
    requires boundary { IsCharBoundary text.now pos }
    requires some { 0 < length (drop pos text.now) }
    requires run { is_run_char (slice_index (drop pos text.now) 0) ≡ true }
    requires start { Begun (slice_index (drop pos text.now) 0) start }
    ensures { FoundIn flags.now (drop pos text.now) result }
{
    match word(&text.as_bytes()[pos..], start, stride) {
        Some(lexeme) => Found::Lexeme(lexeme),
        None => classify_outline(&text[pos..], run_outline(&text[pos..], *flags)),
    }
}

/// Returns the token or the lexical error at byte offset `pos`, at which there must be a `(`.
#[inline(always)]
fn opened(text: &str, pos: usize, flags: &Settings) -> Found
    requires boundary { IsCharBoundary text.now pos }
    requires some { 0 < length (drop pos text.now) }
    requires first { slice_index (drop pos text.now) 0 ≡ 40 }
    ensures { FoundIn flags.now (drop pos text.now) result }
{
    let bytes = &text.as_bytes()[pos..];
    if byte_at(bytes, 1) != b';' {
        return lexeme(TokenKind::LParen, 1);
    }
    if let Some(len) = short_block_comment_len(bytes) {
        return lexeme(TokenKind::BlockComment, len);
    }
    match block_comment_len(&text[pos..], *flags) {
        Some(len) => lexeme(TokenKind::BlockComment, len),
        None => Found::Fault,
    }
}

/// Returns the token or the lexical error at byte offset `pos`, at which there must be a `;`.
#[inline(always)]
fn semicolon(text: &str, pos: usize, flags: &Settings) -> Found
    requires boundary { IsCharBoundary text.now pos }
    requires some { 0 < length (drop pos text.now) }
    requires first { slice_index (drop pos text.now) 0 ≡ 59 }
    ensures { FoundIn flags.now (drop pos text.now) result }
{
    if byte_at(&text.as_bytes()[pos..], 1) != b';' {
        return lexeme(TokenKind::Reserved, 1);
    }
    match line_comment_len(&text[pos..], *flags) {
        Some(len) => lexeme(TokenKind::LineComment, len),
        None => Found::Fault,
    }
}

/// Returns what is at byte offset `pos`: a token, the end of the text, or a lexical error.
// The text is sliced at `pos` only if that is needed, since slicing examines the byte there again.
#[inline(always)]
pub fn scan_at(text: &str, pos: usize, flags: &Settings, stride: Stride) -> Found
    requires { IsCharBoundary text.now pos }
    ensures { FoundIn flags.now (drop pos text.now) result }
{
    let bytes = &text.as_bytes()[pos..];
    if bytes.is_empty() {
        return Found::End;
    }
    let start = start_of(byte_at(bytes, 0));
    match start {
        Start::Whitespace => {
            lexeme(
                TokenKind::Whitespace,
                1 + whitespace_len(&bytes[1..], stride),
            )
        }
        Start::OpenParen => opened(text, pos, flags),
        Start::CloseParen => lexeme(TokenKind::RParen, 1),
        Start::Semicolon => semicolon(text, pos, flags),
        Start::Punctuation => lexeme(TokenKind::Reserved, 1),
        Start::Other => Found::Fault,
        _ => scan_run(text, pos, start, flags, stride),
    }
}

/// Returns the lexical error of a text with whose first character no token begins.
fn unexpected(text: &str) -> LexFault
    requires first { 0 < length text.now }
    requires no_word { begins_word (slice_index text.now 0) ≡ false }
    ensures { (flags : Settings) → Refused flags text.now result }
{
    match text.chars().next() {
        Some(c) => LexFault {
            offset: 0,
            error: LexError::Unexpected(c),
        },
        None => unreachable!(),
    }
}

/// Returns the lexical error at the start of a text. The text is scanned again for it, so that
/// scanning a token does not bear its cost.
#[cold]
#[inline(never)]
pub fn fault_at_start(text: &str, flags: Settings) -> LexFault
    requires { BeginsWithFault flags text.now }
    ensures { Refused flags text.now result }
{
    let bytes = text.as_bytes();
    let first = byte_at(bytes, 0);
    if is_run_char(first) {
        return match run(text, flags) {
            Err(fault) => fault,
            Ok(_) => unreachable!(),
        };
    }
    let second = byte_at(bytes, 1);
    if first == b'(' && second == b';' {
        return match block_comment(text, flags) {
            Err(fault) => fault,
            Ok(_) => unreachable!(),
        };
    }
    if first == b';' && second == b';' {
        return match line_comment(text, flags) {
            Err(fault) => fault,
            Ok(_) => unreachable!(),
        };
    }
    unexpected(text)
}
