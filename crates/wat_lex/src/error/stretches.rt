//! Stretches of a line that are displayed unchanged, found by their bytes.
ghost use Rattle.std.specs.Prelude.{◌≡◌, ◌<◌, ◌↔◌, ◌++◌, [], length, IsTrue, MatchOption};
ghost use Rattle.std.specs.List.{prefix_len};
ghost use Rattle.std.specs.Str.{IsUtf8};
ghost use Rattle.wat_lex.specs.errors.LineBytes.{is_by_columns, is_kept};
ghost use Rattle.wat_lex.specs.errors.Rendering.{rendered_line};
ghost use Rattle.wat_lex.specs.inside.Blocks.{failures};

use crate::lexer::{block_at, first_confusing, is_confusing};
use memchr::{memchr, memchr2};
use std::simd::prelude::*;

/// Splits a line after its first stretch that is displayed unchanged, or after its first character
/// if there is none. Returns the displayed form of what is before the split, and the rest of the
/// line. Returns `None` if the line is empty.
pub fn split_shown(line: &str) -> Option<(&str, &str)>
    ensures { MatchOption result (rendered_line line.now ≡ [])
        (λ parts. (rendered_line line.now ≡ parts.0.now ++ rendered_line parts.1.now)
        × (length parts.1.now < length line.now) × IsUtf8 parts.1.now) }
{
    let kept = kept_len(line.as_bytes());
    if kept > 0 {
        return Some(line.split_at(kept));
    }
    let c = line.chars().next()?;
    let (own, after) = line.split_at(c.len_utf8());
    let shown = if c == '\t' {
        "    "
    } else if is_confusing(c) {
        ""
    } else {
        own
    };
    Some((shown, after))
}

/// Returns the number of bytes before the first TAB, or before the first byte 0xE2, with which
/// every confusing character begins.
fn kept_len(line: &[u8]) -> usize
    ensures { result ≡ prefix_len is_kept line.now }
{
    memchr2(b'\t', 0xe2, line).unwrap_or(line.len())
}

/// Returns `true` if a text has neither a TAB nor a confusing character, so that it is displayed
/// unchanged.
pub fn is_shown_as_it_is(text: &str) -> bool
    ensures { IsTrue result → rendered_line text.now ≡ text.now }
{
    memchr(b'\t', text.as_bytes()).is_none() && first_confusing(text).is_none()
}

/// Returns a bit mask of the bytes that are neither printable ASCII nor a TAB. The lowest bit is
/// the first byte's.
#[inline(always)]
fn other_than_by_columns(block: u8x16) -> u64
    ensures { result ≡ failures is_by_columns block }
{
    let outside = block.simd_lt(u8x16::splat(0x20)) | block.simd_gt(u8x16::splat(0x7e));
    (outside & block.simd_ne(u8x16::splat(b'\t'))).to_bitmask()
}

/// Returns the number of leading bytes that are printable ASCII or TABs, a byte at a time.
fn by_columns_len_by_byte(text: &[u8]) -> usize
    ensures { result ≡ prefix_len is_by_columns text.now }
{
    let mut i = 0;
    while i < text.len() && matches!(text[i], b' '..=b'~' | b'\t') {
        i += 1;
    }
    i
}

/// Returns the number of leading bytes that are printable ASCII or TABs, a block at a time.
pub fn by_columns_len(text: &[u8]) -> usize
    ensures { result ≡ prefix_len is_by_columns text.now }
{
    let mut i = 0;
    while text.len() - i >= 16 {
        let others = other_than_by_columns(block_at(text, i));
        if others != 0 {
            return i + others.trailing_zeros() as usize;
        }
        i += 16;
    }
    i + by_columns_len_by_byte(&text[i..])
}
