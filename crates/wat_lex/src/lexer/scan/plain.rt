//! Plain bytes of strings: those that need no examination of their own.
ghost use Rattle.std.specs.Prelude.{◌≡◌, ◌≤◌, length};
ghost use Rattle.std.specs.List.{prefix_len};
ghost use Rattle.wat_lex.specs.inside.Blocks.{failures};
ghost use Rattle.wat_lex.specs.inside.ScannedStrings.{is_plain};
ghost use Rattle.wat_lex.specs.tokens.QuotedNames.{is_quoted_name, quoted_name_len};

use crate::lexer::scan::blocks::block_at;
use crate::lexer::scan::byte_at;
use crate::lexer::scan::classes::is_run_char;
use std::simd::prelude::*;

/// Returns `true` if a byte is plain in a string: not a quote, a backslash, a control character, or
/// 0xE2, with which every confusing character begins.
pub fn is_plain(b: u8) -> bool
    ensures { result ≡ is_plain b }
{
    b >= 0x20 && !matches!(b, b'"' | b'\\' | 0x7f | 0xe2)
}

/// Returns a bit mask of the bytes that are not plain. The lowest bit is the first byte's.
#[inline(always)]
fn other_than_plain(block: u8x16) -> u64
    ensures { result ≡ failures is_plain block }
{
    (block.simd_lt(u8x16::splat(0x20))
        | block.simd_eq(u8x16::splat(b'"'))
        | block.simd_eq(u8x16::splat(b'\\'))
        | block.simd_eq(u8x16::splat(0x7f))
        | block.simd_eq(u8x16::splat(0xe2))).to_bitmask()
}

/// Returns the number of leading plain bytes, a byte at a time.
fn plain_len_by_byte(text: &[u8]) -> usize
    ensures { result ≡ prefix_len is_plain text.now }
{
    let mut i = 0;
    while i < text.len() && is_plain(text[i]) {
        i += 1;
    }
    i
}

/// Returns the number of leading plain bytes, a block at a time.
pub fn plain_len(text: &[u8]) -> usize
    ensures { result ≡ prefix_len is_plain text.now }
{
    let mut i = 0;
    while text.len() - i >= 16 {
        let others = other_than_plain(block_at(text, i));
        if others != 0 {
            return i + others.trailing_zeros() as usize;
        }
        i += 16;
    }
    i + plain_len_by_byte(&text[i..])
}

/// Returns `true` if the text begins with `@`, a quote, `len` bytes, at least 1, and a quote, which
/// neither an idchar nor a quote follows.
#[inline(always)]
fn is_quoted_name(text: &[u8], len: usize) -> bool
    requires { len ≤ length text.now }
    ensures { result ≡ is_quoted_name text.now len }
{
    byte_at(text, 0) == b'@'
        && byte_at(text, 1) == b'"'
        && len > 0
        && byte_at(text, len + 2) == b'"'
        && !is_run_char(byte_at(text, len + 3))
}

/// Returns the length in bytes of the annotation at the start if its name is plain bytes in quotes,
/// and otherwise 0.
#[inline(always)]
pub fn quoted_name_len(text: &[u8]) -> usize
    ensures { result ≡ quoted_name_len text.now }
{
    if text.len() < 2 {
        return 0;
    }
    let len = plain_len(&text[2..]);
    if is_quoted_name(text, len) {
        len + 3
    } else {
        0
    }
}
