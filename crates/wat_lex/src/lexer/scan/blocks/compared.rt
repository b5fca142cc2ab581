//! Classification of 16 bytes at once by comparisons, for processors without a shuffle instruction.
ghost use Rattle.std.specs.Prelude.{◌≡◌};
ghost use Rattle.wat_lex.specs.grammar.Classes.{is_hex, is_idchar, is_whitespace};
ghost use Rattle.wat_lex.specs.inside.Blocks.{failures, is_plain_in_line};

use std::simd::prelude::*;

/// Returns a bit mask of the bytes that are not idchars. The lowest bit is the first byte's.
// The signs `;`, `[` and `{` differ in the bits 0x60 only, `]` and `}` in the bit 0x20 only, and
// `(` and `)` in the lowest bit only.
#[inline(always)]
pub fn other_than_idchars(block: u8x16) -> u64
    ensures { result ≡ failures is_idchar block }
{
    let is_sign = (block | u8x16::splat(0x60)).simd_eq(u8x16::splat(b'{'))
        | (block | u8x16::splat(0x20)).simd_eq(u8x16::splat(b'}'))
        | (block | u8x16::splat(1)).simd_eq(u8x16::splat(b')'))
        | block.simd_eq(u8x16::splat(b','))
        | block.simd_eq(u8x16::splat(b'"'));
    let is_outside = block.simd_lt(u8x16::splat(0x21)) | u8x16::splat(0x7e).simd_lt(block);
    (is_sign | is_outside).to_bitmask()
}

/// Returns a bit mask of the bytes that are not hexadecimal digits. The lowest bit is the first
/// byte's.
#[inline(always)]
pub fn other_than_hex_digits(block: u8x16) -> u64
    ensures { result ≡ failures is_hex block }
{
    let small = block | u8x16::splat(0x20);
    let no_digit = block.simd_lt(u8x16::splat(b'0')) | u8x16::splat(b'9').simd_lt(block);
    let no_letter = small.simd_lt(u8x16::splat(b'a')) | u8x16::splat(b'f').simd_lt(small);
    (no_digit & no_letter).to_bitmask()
}

/// Returns a bit mask of the bytes that are not whitespace. The lowest bit is the first byte's.
#[inline(always)]
pub fn other_than_whitespace(block: u8x16) -> u64
    ensures { result ≡ failures is_whitespace block }
{
    (block.simd_ne(u8x16::splat(b' '))
        & block.simd_ne(u8x16::splat(b'\n'))
        & block.simd_ne(u8x16::splat(b'\t'))
        & block.simd_ne(u8x16::splat(b'\r'))).to_bitmask()
}

/// Returns a bit mask of the bytes that end a line or are 0xE2, with which every confusing
/// character begins. The lowest bit is the first byte's.
#[inline(always)]
pub fn other_than_plain_in_line(block: u8x16) -> u64
    ensures { result ≡ failures is_plain_in_line block }
{
    (block.simd_eq(u8x16::splat(b'\n'))
        | block.simd_eq(u8x16::splat(b'\r'))
        | block.simd_eq(u8x16::splat(0xe2))).to_bitmask()
}
