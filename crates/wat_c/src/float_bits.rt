//! Values of number tokens as the bits of an `f32` or an `f64`. The fields of both results are
//! private, so that only this module reports an allocation failure.
ghost use Rattle.std.specs.Prelude.{◌≡◌, ◌<◌, ◌^◌, ◌↔◌, IsTrue, IfSome, IfNone, length};
ghost use Rattle.std.specs.Float.{binary32, binary64};
ghost use Rattle.std.specs.Str.{IsCharBoundary, IsUtf8};
ghost use Rattle.wat_lex.specs.tokens.ReadableTokens.{IsTokenOf, token_text};
ghost use Rattle.wat_lex.specs.tokens.Tiling.{TokenAt};
ghost use Rattle.wat_c.specs.ByRow.{kind_of, token_of};
ghost use Rattle.wat_c.specs.FloatBits.{FindsBits, IsNumber, OneBits, ReadsBits, TellsBits};
ghost use Rattle.wat_c.specs.Readings.{OtherAt};
ghost use Rattle.wat_c_records.specs.Counting.{IsRow};
ghost use Rattle.wat_c_records.specs.Rows.{setting};

use crate::laws::one_bits;
use std::alloc::Global;
use std::str;
use wat_c_records::counting::Row;
use wat_c_records::rows::KindRow;
use wat_floats::{f32_bits, f64_bits};
use wat_lex::lexer::{Lexer, Settings, Token, TokenKind};

/// Bits of an `f32`, and a status.
#[repr(C)]
#[derive(Clone, Copy, Debug, PartialEq)]
pub struct Bits32 {
    /// Bits of the value. They are 0 if `status` is not 0.
    bits: u32,
    /// 0 if there is a value. Otherwise 1 if the token is not a number, 2 after an allocation
    /// failure, or 5 if the value is out of range.
    status: u32,
}

/// Bits of an `f64`, and a status.
#[repr(C)]
#[derive(Clone, Copy, Debug, PartialEq)]
pub struct Bits64 {
    /// Bits of the value. They are 0 if `status` is not 0.
    bits: u64,
    /// 0 if there is a value. Otherwise 1 if the token is not a number, 2 after an allocation
    /// failure, or 5 if the value is out of range.
    status: u32,
}

impl Bits32 {
    /// Returns the result without a value, with this status.
    fn refused(status: u32) -> Bits32
        ensures bits { result.bits ≡ 0 }
        ensures status { result.status ≡ status }
    {
        Bits32 { bits: 0, status }
    }

    /// Returns the bits of the value of a number's lexeme.
    fn of(alloc: Global, word: &str) -> Bits32
        ensures { ReadsBits binary32 word.now result.bits result.status }
    {
        match f32_bits(alloc, word) {
            Ok(Some(bits)) => Bits32 { bits, status: 0 },
            Ok(None) => Bits32::refused(5),
            Err(_) => Bits32::refused(2),
        }
    }
}

impl Bits64 {
    /// Returns the result without a value, with this status.
    fn refused(status: u32) -> Bits64
        ensures bits { result.bits ≡ 0 }
        ensures status { result.status ≡ status }
    {
        Bits64 { bits: 0, status }
    }

    /// Returns the bits of the value of a number's lexeme.
    fn of(alloc: Global, word: &str) -> Bits64
        ensures { ReadsBits binary64 word.now result.bits result.status }
    {
        match f64_bits(alloc, word) {
            Ok(Some(bits)) => Bits64 { bits, status: 0 },
            Ok(None) => Bits64::refused(5),
            Err(_) => Bits64::refused(2),
        }
    }
}

/// Returns `true` if a row of this kind is a number.
fn is_number(kind: KindRow) -> bool
    ensures { IsTrue result ↔ IsNumber (kind_of kind) }
{
    matches!(kind.code, 11..=15)
}

/// Returns the lexeme of a row.
fn lexeme<'a>(text: &'a str, row: Row) -> &'a str
    requires { IsRow text.now row }
    ensures { result.now ≡ token_text text.now (token_of row) }
{
    wat_lex::laws::tokens();
    let start = row.offset as usize;
    let end = start + row.len as usize;
    &text[start..end]
}

/// Returns the value of the number of a row as the bits of an `f32`, i.e. the nearest `f32`, or of
/// two equally near ones the one whose significand is even. Fails with status 1 if the row is not a
/// number, with status 5 if the value rounds to infinity, or the payload of a NaN is 0 or has more
/// than 23 bits, and with status 2 if an allocation fails. Allocates only if the number contains an
/// underscore.
#[unsafe(no_mangle)]
pub extern "C" fn wat_f32_of(alloc: Global, text: &[u8], row: &Row) -> Bits32
    requires utf8 { IsUtf8 text.now }
    requires short { length text.now < 2 ^ 32 }
    requires known { IsRow text.now row.now }
    ensures found { TellsBits binary32 text.now (token_of row.now) result.bits result.status }
    ensures one { OneBits (TellsBits binary32 text.now (token_of row.now)) }
{
    one_bits();
    let text = unsafe { str::from_utf8_unchecked(text) };
    if !is_number(row.kind) {
        return Bits32::refused(1);
    }
    Bits32::of(alloc, lexeme(text, *row))
}

/// Returns the value of the number of a row as the bits of an `f64`, i.e. the nearest `f64`, or of
/// two equally near ones the one whose significand is even. Fails with status 1 if the row is not a
/// number, with status 5 if the value rounds to infinity, or the payload of a NaN is 0 or has more
/// than 52 bits, and with status 2 if an allocation fails. Allocates only if the number contains an
/// underscore.
#[unsafe(no_mangle)]
pub extern "C" fn wat_f64_of(alloc: Global, text: &[u8], row: &Row) -> Bits64
    requires utf8 { IsUtf8 text.now }
    requires short { length text.now < 2 ^ 32 }
    requires known { IsRow text.now row.now }
    ensures found { TellsBits binary64 text.now (token_of row.now) result.bits result.status }
    ensures one { OneBits (TellsBits binary64 text.now (token_of row.now)) }
{
    one_bits();
    let text = unsafe { str::from_utf8_unchecked(text) };
    if !is_number(row.kind) {
        return Bits64::refused(1);
    }
    Bits64::of(alloc, lexeme(text, *row))
}

/// Returns the number at `pos`, or `None` if another token, the end of the text or a lexical error
/// is there.
fn number_at(text: &str, pos: usize, settings: Settings) -> Option<Token>
    requires short { length text.now < 2 ^ 32 }
    requires boundary { IsCharBoundary text.now pos }
    ensures some { IfSome result (λ t. IsNumber t.kind × IsTokenOf text.now t
        × TokenAt (record { text = text.now; flags = settings }) pos t) }
    ensures none { IfNone result
        (OtherAt IsNumber (record { text = text.now; flags = settings }) pos) }
{
    match Lexer::with_settings(text, settings).scan(pos) {
        Ok(Some(token)) => match token.kind {
            TokenKind::Integer(_) | TokenKind::Float(_) => Some(token),
            _ => None,
        },
        _ => None,
    }
}

/// Returns the value of the number at `pos` as the bits of an `f32`, like `wat_f32_of`. Fails with
/// status 1 unless a number begins at `pos`, and otherwise like `wat_f32_of`.
#[unsafe(no_mangle)]
pub extern "C" fn wat_f32(
    alloc: Global,
    text: &[u8],
    pos: usize,
    allow: bool,
    strict: bool,
) -> Bits32
    requires utf8 { IsUtf8 text.now }
    requires short { length text.now < 2 ^ 32 }
    requires boundary { IsCharBoundary text.now pos }
    ensures found { FindsBits binary32 (setting text.now allow strict) pos
        result.bits result.status }
    ensures one { OneBits (FindsBits binary32 (setting text.now allow strict) pos) }
{
    one_bits();
    let text = unsafe { str::from_utf8_unchecked(text) };
    match number_at(text, pos, Settings { allow, strict }) {
        Some(token) => Bits32::of(alloc, token.src(text)),
        None => Bits32::refused(1),
    }
}

/// Returns the value of the number at `pos` as the bits of an `f64`, like `wat_f64_of`. Fails with
/// status 1 unless a number begins at `pos`, and otherwise like `wat_f64_of`.
#[unsafe(no_mangle)]
pub extern "C" fn wat_f64(
    alloc: Global,
    text: &[u8],
    pos: usize,
    allow: bool,
    strict: bool,
) -> Bits64
    requires utf8 { IsUtf8 text.now }
    requires short { length text.now < 2 ^ 32 }
    requires boundary { IsCharBoundary text.now pos }
    ensures found { FindsBits binary64 (setting text.now allow strict) pos
        result.bits result.status }
    ensures one { OneBits (FindsBits binary64 (setting text.now allow strict) pos) }
{
    one_bits();
    let text = unsafe { str::from_utf8_unchecked(text) };
    match number_at(text, pos, Settings { allow, strict }) {
        Some(token) => Bits64::of(alloc, token.src(text)),
        None => Bits64::refused(1),
    }
}
