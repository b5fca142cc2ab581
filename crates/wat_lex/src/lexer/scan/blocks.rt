//! Classification of 16 bytes at once.
ghost use Rattle.std.specs.Prelude.{◌≡◌, ◌≤◌, ◌+◌, ◌==◌, length, map, not};
ghost use Rattle.std.specs.Char.{is_ascii_digit};
ghost use Rattle.std.specs.Simd.Lanes.{chunk, mask_l};
ghost use Rattle.wat_lex.specs.grammar.Classes.{is_hex, is_idchar, is_whitespace};
ghost use Rattle.wat_lex.specs.inside.Blocks.{failures, is_plain_in_line, is_surely_plain};
ghost use Rattle.wat_lex.specs.inside.Blocks.{is_plain_in_block};
ghost use Rattle.wat_lex.specs.inside.Blocks.{is_confusing_end};

use std::simd::prelude::*;

mod compared;

/// `true` to classify bytes by tables, which needs a shuffle instruction, and `false` to classify
/// them by comparisons. The results are equal.
const BY_SHUFFLE: bool = true;

/// Table by a byte's low four bits. A byte is an idchar if and only if its entry has a bit in
/// common with its entry of `IDCHARS_BY_HIGH`.
const IDCHARS_BY_LOW: [u8; 16] = [30, 31, 30, 31, 31, 31, 31, 31, 30, 30, 31, 5, 30, 7, 31, 15];

/// Table by a byte's high four bits, for idchars.
const IDCHARS_BY_HIGH: [u8; 16] = [0, 0, 1, 2, 4, 8, 4, 16, 0, 0, 0, 0, 0, 0, 0, 0];

/// Table by a byte's low four bits. A byte is a hexadecimal digit if and only if its entry has a
/// bit in common with its entry of `HEX_DIGITS_BY_HIGH`.
const HEX_DIGITS_BY_LOW: [u8; 16] = [1, 3, 3, 3, 3, 3, 3, 1, 1, 1, 0, 0, 0, 0, 0, 0];

/// Table by a byte's high four bits, for hexadecimal digits.
const HEX_DIGITS_BY_HIGH: [u8; 16] = [0, 0, 0, 1, 2, 0, 2, 0, 0, 0, 0, 0, 0, 0, 0, 0];

/// Table by a byte's low four bits: the whitespace with these bits, or a byte with others if there
/// is none.
const WHITESPACE_BY_LOW: [u8; 16] = [32, 0, 0, 0, 0, 0, 0, 0, 0, 9, 10, 0, 0, 13, 0, 0];

/// Table by a byte's low four bits: the line end or 0xE2 with these bits, or a byte with others if
/// there is none.
const NOT_PLAIN_IN_LINE_BY_LOW: [u8; 16] = [1, 0, 226, 0, 0, 0, 0, 0, 0, 0, 10, 0, 0, 13, 0, 0];

/// Returns the 16 bytes from index `i` on.
#[inline(always)]
pub fn block_at(text: &[u8], i: usize) -> u8x16
    requires { i + 16 ≤ length text.now }
    ensures { result ≡ chunk i 16 text.now }
{
    u8x16::from_slice(&text[i..])
}

/// Returns a bit mask of the bytes that are not idchars. The lowest bit is the first byte's.
#[inline(always)]
pub fn other_than_idchars(block: u8x16) -> u64
    ensures { result ≡ failures is_idchar block }
{
    if !BY_SHUFFLE {
        return compared::other_than_idchars(block);
    }
    let low = u8x16::from_array(IDCHARS_BY_LOW).swizzle_dyn(block & u8x16::splat(15));
    let high = u8x16::from_array(IDCHARS_BY_HIGH).swizzle_dyn(block >> u8x16::splat(4));
    (low & high).simd_eq(u8x16::splat(0)).to_bitmask()
}

/// Returns a bit mask of the bytes that are not decimal digits. The lowest bit is the first byte's.
#[inline(always)]
pub fn other_than_digits(block: u8x16) -> u64
    ensures { result ≡ failures is_ascii_digit block }
{
    (block.simd_lt(u8x16::splat(b'0')) | u8x16::splat(b'9').simd_lt(block)).to_bitmask()
}

/// Returns a bit mask of the bytes that are not hexadecimal digits. The lowest bit is the first
/// byte's.
#[inline(always)]
pub fn other_than_hex_digits(block: u8x16) -> u64
    ensures { result ≡ failures is_hex block }
{
    if !BY_SHUFFLE {
        return compared::other_than_hex_digits(block);
    }
    let low = u8x16::from_array(HEX_DIGITS_BY_LOW).swizzle_dyn(block & u8x16::splat(15));
    let high = u8x16::from_array(HEX_DIGITS_BY_HIGH).swizzle_dyn(block >> u8x16::splat(4));
    (low & high).simd_eq(u8x16::splat(0)).to_bitmask()
}

/// Returns a bit mask of the bytes that are not whitespace. The lowest bit is the first byte's.
#[inline(always)]
pub fn other_than_whitespace(block: u8x16) -> u64
    ensures { result ≡ failures is_whitespace block }
{
    if !BY_SHUFFLE {
        return compared::other_than_whitespace(block);
    }
    let wanted = u8x16::from_array(WHITESPACE_BY_LOW).swizzle_dyn(block & u8x16::splat(15));
    wanted.simd_ne(block).to_bitmask()
}

/// Returns a bit mask of the bytes that equal `byte`. The lowest bit is the first byte's.
#[inline(always)]
pub fn equal_to(block: u8x16, byte: u8) -> u64
    ensures { result ≡ mask_l (map (λ b. b == byte) block) }
{
    block.simd_eq(u8x16::splat(byte)).to_bitmask()
}

/// Returns a bit mask of the bytes that end a line or are 0xE2, with which every confusing
/// character begins. The lowest bit is the first byte's.
#[inline(always)]
pub fn other_than_plain_in_line(block: u8x16) -> u64
    ensures { result ≡ failures is_plain_in_line block }
{
    if !BY_SHUFFLE {
        return compared::other_than_plain_in_line(block);
    }
    let stop = u8x16::from_array(NOT_PLAIN_IN_LINE_BY_LOW).swizzle_dyn(block & u8x16::splat(15));
    stop.simd_eq(block).to_bitmask()
}

/// Returns a bit mask of the bytes that are `(`, `;` or 0xE2, with which every confusing character
/// begins. The lowest bit is the first byte's.
#[inline(always)]
pub fn other_than_plain_in_block(block: u8x16) -> u64
    ensures { result ≡ failures is_plain_in_block block }
{
    (block.simd_eq(u8x16::splat(b'('))
        | block.simd_eq(u8x16::splat(b';'))
        | block.simd_eq(u8x16::splat(0xe2))).to_bitmask()
}

/// Returns a bit mask of the bytes from 0xA6 to 0xAE, one of which ends every confusing character.
/// The lowest bit is the first byte's.
#[inline(always)]
pub fn confusing_ends(block: u8x16) -> u64
    ensures { result ≡ failures (λ b. not (is_confusing_end b)) block }
{
    (block.simd_lt(u8x16::splat(0xaf)) & u8x16::splat(0xa5).simd_lt(block)).to_bitmask()
}

/// Returns a bit mask of the bytes that are below 14, as line ends and TABs are, or not ASCII. The
/// lowest bit is the first byte's.
#[inline(always)]
pub fn other_than_surely_plain(block: u8x16) -> u64
    ensures { result ≡ failures is_surely_plain block }
{
    (block.simd_lt(u8x16::splat(14)) | u8x16::splat(127).simd_lt(block)).to_bitmask()
}
