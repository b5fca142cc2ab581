//! Classes of bytes and characters, and the lengths of their sequences.
ghost use Rattle.std.specs.Prelude.{◌≡◌};
ghost use Rattle.std.specs.Char.{is_ascii_digit};
ghost use Rattle.std.specs.List.{prefix_len};
ghost use Rattle.wat_lex.specs.grammar.Classes.{is_whitespace, is_idchar, is_hex};
ghost use Rattle.wat_lex.specs.grammar.Classes.{is_run_char, is_confusing};

use crate::lexer::kinds::Stride;
use crate::lexer::scan::blocks::{
    block_at, other_than_digits, other_than_hex_digits, other_than_idchars, other_than_whitespace,
};

/// The bit of idchars and quotes in `CLASSES`: the bytes with which a run begins.
const RUN_CHAR: u8 = 1;

/// The bit of idchars in `CLASSES`.
const IDCHAR: u8 = 2;

/// The bit of hexadecimal digits in `CLASSES`.
const HEX_DIGIT: u8 = 4;

/// The bit of whitespace in `CLASSES`.
const WHITESPACE: u8 = 8;

/// The classes of each byte, with a bit for each class, in rows of 32 bytes.
const CLASSES: [u8; 256] = [
    0, 0, 0, 0, 0, 0, 0, 0, 0, 8, 8, 0, 0, 8, 0, 0, 0, 0, 0, 0, 0, 0, 0, 0, 0, 0, 0, 0, 0, 0, 0, 0,
    8, 3, 1, 3, 3, 3, 3, 3, 0, 0, 3, 3, 0, 3, 3, 3, 7, 7, 7, 7, 7, 7, 7, 7, 7, 7, 3, 0, 3, 3, 3, 3,
    3, 7, 7, 7, 7, 7, 7, 3, 3, 3, 3, 3, 3, 3, 3, 3, 3, 3, 3, 3, 3, 3, 3, 3, 3, 3, 3, 0, 3, 0, 3, 3,
    3, 7, 7, 7, 7, 7, 7, 3, 3, 3, 3, 3, 3, 3, 3, 3, 3, 3, 3, 3, 3, 3, 3, 3, 3, 3, 3, 0, 3, 0, 3, 0,
    0, 0, 0, 0, 0, 0, 0, 0, 0, 0, 0, 0, 0, 0, 0, 0, 0, 0, 0, 0, 0, 0, 0, 0, 0, 0, 0, 0, 0, 0, 0, 0,
    0, 0, 0, 0, 0, 0, 0, 0, 0, 0, 0, 0, 0, 0, 0, 0, 0, 0, 0, 0, 0, 0, 0, 0, 0, 0, 0, 0, 0, 0, 0, 0,
    0, 0, 0, 0, 0, 0, 0, 0, 0, 0, 0, 0, 0, 0, 0, 0, 0, 0, 0, 0, 0, 0, 0, 0, 0, 0, 0, 0, 0, 0, 0, 0,
    0, 0, 0, 0, 0, 0, 0, 0, 0, 0, 0, 0, 0, 0, 0, 0, 0, 0, 0, 0, 0, 0, 0, 0, 0, 0, 0, 0, 0, 0, 0, 0,
];

/// Returns `true` for space, LF, CR and TAB.
pub fn is_whitespace(b: u8) -> bool
    ensures { result ≡ is_whitespace b }
{
    CLASSES[b as usize] & WHITESPACE != 0
}

/// Returns `true` for an idchar.
pub fn is_idchar(b: u8) -> bool
    ensures { result ≡ is_idchar b }
{
    CLASSES[b as usize] & IDCHAR != 0
}

/// Returns `true` for an idchar or a quote, with which a run begins.
pub fn is_run_char(b: u8) -> bool
    ensures { result ≡ is_run_char b }
{
    CLASSES[b as usize] & RUN_CHAR != 0
}

/// Returns `true` for a byte that is a hexadecimal digit.
pub fn is_hex_digit(b: u8) -> bool
    ensures { result ≡ is_hex b }
{
    CLASSES[b as usize] & HEX_DIGIT != 0
}

/// Returns `true` for a character that is a hexadecimal digit.
pub fn is_hex(c: char) -> bool
    ensures { result ≡ is_hex c }
{
    matches!(c, '0'..='9' | 'A'..='F' | 'a'..='f')
}

/// Returns `true` for one of the 9 confusing characters, which can change how a text is displayed.
pub fn is_confusing(c: char) -> bool
    ensures { result ≡ is_confusing c }
{
    matches!(
        c,
        '\u{202a}'
            | '\u{202b}'
            | '\u{202d}'
            | '\u{202e}'
            | '\u{2066}'
            | '\u{2067}'
            | '\u{2068}'
            | '\u{2069}'
            | '\u{206c}'
    )
}

/// Returns the number of leading whitespace bytes, a byte at a time.
#[inline(never)]
fn whitespace_len_by_byte(text: &[u8]) -> usize
    ensures { result ≡ prefix_len is_whitespace text.now }
{
    let mut i = 0;
    while i < text.len() && is_whitespace(text[i]) {
        i += 1;
    }
    i
}

/// Returns the number of leading whitespace bytes, a block at a time.
#[inline]
fn whitespace_len_by_block(text: &[u8]) -> usize
    ensures { result ≡ prefix_len is_whitespace text.now }
{
    let mut i = 0;
    while text.len() - i >= 16 {
        let others = other_than_whitespace(block_at(text, i));
        if others != 0 {
            return i + others.trailing_zeros() as usize;
        }
        i += 16;
    }
    i + whitespace_len_by_byte(&text[i..])
}

/// Returns the number of leading whitespace bytes of the text after a first one. Usually there are
/// none, which is tested first.
#[inline(always)]
pub fn whitespace_len(text: &[u8], stride: Stride) -> usize
    ensures { result ≡ prefix_len is_whitespace text.now }
{
    match text {
        [next, ..] if !is_whitespace(*next) => 0,
        _ => match stride {
            Stride::Byte => whitespace_len_by_byte(text),
            Stride::Block => whitespace_len_by_block(text),
        },
    }
}

/// Returns the number of leading whitespace bytes. The usual counts 0 and 1 are found by branches
/// that a processor predicts well.
#[inline(always)]
pub fn blank_len(text: &[u8]) -> usize
    ensures { result ≡ prefix_len is_whitespace text.now }
{
    if text.is_empty() || !is_whitespace(text[0]) {
        return 0;
    }
    1 + whitespace_len(&text[1..], Stride::Block)
}

/// Returns the number of leading idchars, a byte at a time. With blocks, it is used only for the
/// last bytes of a text.
#[inline(never)]
fn idchar_len_by_byte(text: &[u8]) -> usize
    ensures { result ≡ prefix_len is_idchar text.now }
{
    let mut i = 0;
    while i < text.len() && is_idchar(text[i]) {
        i += 1;
    }
    i
}

/// Returns the number of leading idchars, a block at a time.
#[inline]
pub fn idchar_len_by_block(text: &[u8]) -> usize
    ensures { result ≡ prefix_len is_idchar text.now }
{
    let mut i = 0;
    while text.len() - i >= 16 {
        let others = other_than_idchars(block_at(text, i));
        if others != 0 {
            return i + others.trailing_zeros() as usize;
        }
        i += 16;
    }
    i + idchar_len_by_byte(&text[i..])
}

/// Returns the number of leading idchars, of which there usually are some.
#[inline(always)]
pub fn word_len(text: &[u8], stride: Stride) -> usize
    ensures { result ≡ prefix_len is_idchar text.now }
{
    match stride {
        Stride::Byte => idchar_len_by_byte(text),
        Stride::Block => idchar_len_by_block(text),
    }
}

/// Returns the number of leading idchars. Usually they end within the first block, and then no
/// function is called.
#[inline(always)]
pub fn keyword_len(text: &[u8], stride: Stride) -> usize
    ensures { result ≡ prefix_len is_idchar text.now }
{
    if stride == Stride::Block && text.len() >= 16 {
        let others = other_than_idchars(block_at(text, 0));
        if others != 0 {
            return others.trailing_zeros() as usize;
        }
    }
    word_len(text, stride)
}

/// Returns the number of leading idchars. Next to a string there usually are none, which is tested
/// first.
#[inline]
pub fn idchar_len(text: &[u8]) -> usize
    ensures { result ≡ prefix_len is_idchar text.now }
{
    match text {
        [first, ..] if !is_idchar(*first) => 0,
        _ => idchar_len_by_block(text),
    }
}

/// Returns the number of leading decimal digits, a byte at a time.
fn digit_len_by_byte(text: &[u8]) -> usize
    ensures { result ≡ prefix_len is_ascii_digit text.now }
{
    let mut i = 0;
    while i < text.len() && text[i].is_ascii_digit() {
        i += 1;
    }
    i
}

/// Returns the number of leading decimal digits, a block at a time.
#[inline]
fn digit_len_by_block(text: &[u8]) -> usize
    ensures { result ≡ prefix_len is_ascii_digit text.now }
{
    let mut i = 0;
    while text.len() - i >= 16 {
        let others = other_than_digits(block_at(text, i));
        if others != 0 {
            return i + others.trailing_zeros() as usize;
        }
        i += 16;
    }
    i + digit_len_by_byte(&text[i..])
}

/// Returns the number of leading decimal digits.
#[inline(always)]
pub fn digit_len(text: &[u8], stride: Stride) -> usize
    ensures { result ≡ prefix_len is_ascii_digit text.now }
{
    match stride {
        Stride::Byte => digit_len_by_byte(text),
        Stride::Block => digit_len_by_block(text),
    }
}

/// Returns the number of leading hexadecimal digits, a byte at a time.
fn hex_digit_len_by_byte(text: &[u8]) -> usize
    ensures { result ≡ prefix_len is_hex text.now }
{
    let mut i = 0;
    while i < text.len() && is_hex_digit(text[i]) {
        i += 1;
    }
    i
}

/// Returns the number of leading hexadecimal digits, a block at a time.
#[inline]
fn hex_digit_len_by_block(text: &[u8]) -> usize
    ensures { result ≡ prefix_len is_hex text.now }
{
    let mut i = 0;
    while text.len() - i >= 16 {
        let others = other_than_hex_digits(block_at(text, i));
        if others != 0 {
            return i + others.trailing_zeros() as usize;
        }
        i += 16;
    }
    i + hex_digit_len_by_byte(&text[i..])
}

/// Returns the number of leading hexadecimal digits.
#[inline(always)]
pub fn hex_digit_len(text: &[u8], stride: Stride) -> usize
    ensures { result ≡ prefix_len is_hex text.now }
{
    match stride {
        Stride::Byte => hex_digit_len_by_byte(text),
        Stride::Block => hex_digit_len_by_block(text),
    }
}
