//! Numbers of UTF-16 code units, counted in UTF-8.
ghost use Rattle.std.specs.Prelude.{◌≡◌, ◌≤◌, ◌*◌, length, map};
ghost use Rattle.std.specs.Fmt.{is_char_start};
ghost use Rattle.std.specs.List.{sum_by};
ghost use Rattle.std.specs.Simd.Lanes.{mask_l};
ghost use Rattle.wat_lex.specs.inside.Utf16Bytes.{begins_pair, byte_units};

use crate::lexer::block_at;
use std::simd::prelude::*;

/// Returns a bit mask of the bytes that begin a character. The lowest bit is the first byte's.
#[inline(always)]
fn starts_in_block(block: u8x16) -> u64
    ensures { result ≡ mask_l (map is_char_start block) }
{
    (block.simd_lt(u8x16::splat(0x80)) | u8x16::splat(0xbf).simd_lt(block)).to_bitmask()
}

/// Returns a bit mask of the bytes that begin a character of 2 code units. The lowest bit is the
/// first byte's.
#[inline(always)]
fn pairs_in_block(block: u8x16) -> u64
    ensures { result ≡ mask_l (map begins_pair block) }
{
    let high = u8x16::splat(0xf0);
    (block & high).simd_eq(high).to_bitmask()
}

/// Returns the number of code units of the character that begins with a byte, or 0 for a
/// continuation byte.
fn units_of(byte: u8) -> usize
    ensures { result ≡ byte_units byte }
{
    (byte < 0x80 || byte >= 0xc0) as usize + (byte >= 0xf0) as usize
}

/// Returns the number of code units of the characters that begin in `text`, counted a byte at a
/// time.
fn units_by_byte(text: &[u8]) -> usize
    ensures count { result ≡ sum_by byte_units text.now }
    ensures bound { result ≤ length text.now * 2 }
{
    let mut units = 0;
    let mut i = 0;
    while i < text.len() {
        units += units_of(text[i]);
        i += 1;
    }
    units
}

/// Returns the number of code units of the characters that begin in `text`, counted a block at a
/// time.
pub fn units(text: &[u8]) -> usize
    ensures count { result ≡ sum_by byte_units text.now }
    ensures bound { result ≤ length text.now * 2 }
{
    let mut units = 0;
    let mut i = 0;
    while text.len() - i >= 16 {
        let block = block_at(text, i);
        units += starts_in_block(block).count_ones() as usize;
        units += pairs_in_block(block).count_ones() as usize;
        i += 16;
    }
    units + units_by_byte(&text[i..])
}
