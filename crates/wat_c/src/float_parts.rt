//! Ranges of the text that are the parts of a floating-point number, read from rows without an
//! allocation.
ghost use Rattle.std.specs.Prelude.{◌≡◌, ◌≤◌, ◌<◌, ◌^◌, ◌-◌, true, drop, length};
ghost use Rattle.std.specs.List.{prefix_len};
ghost use Rattle.std.specs.Str.{IsUtf8};
ghost use Rattle.wat_lex.specs.grammar.Numbers.{Decimals, Tail, Payload, is_negative, unsigned};
ghost use Rattle.wat_lex.specs.values.NumberValues.{after_prefix};
ghost use Rattle.wat_c.specs.ByRow.{token_of};
ghost use Rattle.wat_c.specs.FloatSpans.{AreParts, OneParts, TellsParts};
ghost use Rattle.wat_c.specs.FloatSpans.{before, nowhere, only_payload, without_plus};
ghost use Rattle.wat_c.specs.inside.SplitFloats.{SplitsFraction, is_of_digits};
ghost use Rattle.wat_c_records.specs.Counting.{IsRow};

use crate::by_row::float_kind;
use crate::laws::one_parts;
use crate::words::source;
use std::str;
use wat_c_records::counting::Row;
use wat_lex::lexer::{FloatKind, TokenKind};

/// Range of bytes of the text that is a part of a number. Both fields are 0 if the number does not
/// have the part.
#[repr(C)]
#[derive(Clone, Copy, Debug, PartialEq)]
pub struct Span {
    /// Byte offset of the range in the text.
    pub start: u32,
    /// Length in bytes.
    pub len: u32,
}

/// Parts of a floating-point number, and a status.
#[repr(C)]
#[derive(Clone, Copy, Debug, PartialEq)]
pub struct Parts {
    /// Digits before the decimal point, without sign and `0x`.
    pub integral: Span,
    /// Digits after the decimal point.
    pub fractional: Span,
    /// Decimal digits of the exponent, with a `-` but without `+`.
    pub exponent: Span,
    /// Hexadecimal digits after `nan:0x`.
    pub payload: Span,
    /// 0 if the token is a floating-point number, otherwise 1.
    pub status: u32,
    /// `true` if the number begins with `-`.
    pub negative: bool,
}

impl Span {
    /// Returns the range of the `len` bytes before offset `end`, or the empty range of a part that
    /// the number does not have if `len` is 0.
    fn before(end: u32, len: usize) -> Span
        requires { len ≤ end }
        ensures none { len ≡ 0 → result ≡ nowhere }
        ensures some { 0 < len → result ≡ record { start = end - len; len = len } }
    {
        if len == 0 {
            return Span { start: 0, len: 0 };
        }
        let len = len as u32;
        Span {
            start: end - len,
            len,
        }
    }
}

impl Parts {
    /// Returns the result with no part except this payload, which may be empty.
    fn only(payload: Span, negative: bool, status: u32) -> Parts
        ensures { result ≡ only_payload payload negative status }
    {
        let none = Span { start: 0, len: 0 };
        Parts {
            integral: none,
            fractional: none,
            exponent: none,
            payload,
            status,
            negative,
        }
    }
}

/// Returns `true` if the lexeme begins with `-`.
fn is_negative(word: &[u8]) -> bool
    ensures { result ≡ is_negative word.now }
{
    matches!(word, [b'-', ..])
}

/// Returns the lexeme without its sign.
fn unsigned(word: &[u8]) -> &[u8]
    ensures { result.now ≡ unsigned word.now }
{
    match word {
        [b'+' | b'-', rest @ ..] => rest,
        _ => word,
    }
}

/// Returns the digits after `0x` of a hexadecimal number, and a decimal number unchanged.
fn after_prefix(number: &[u8], hex: bool) -> &[u8]
    requires { hex ≡ true → 2 ≤ length number.now }
    ensures { result.now ≡ after_prefix hex number.now }
{
    if hex { &number[2..] } else { number }
}

/// Returns `true` if the byte is neither a dot nor the letter of an exponent.
fn is_of_digits(byte: u8, hex: bool) -> bool
    ensures { result ≡ is_of_digits hex byte }
{
    // This bit makes a letter lowercase.
    let small = byte | 0x20;
    byte != b'.' && small != if hex { b'p' } else { b'e' }
}

/// Returns the number of bytes before the first dot or exponent letter.
fn digits_len(text: &[u8], hex: bool) -> usize
    ensures { result ≡ prefix_len (is_of_digits hex) text.now }
{
    let mut i = 0;
    while i < text.len() && is_of_digits(text[i], hex) {
        i += 1;
    }
    i
}

/// Returns the number of digits of the fraction at the start of a text, and the exponent after it.
fn split_fraction(tail: &[u8], hex: bool) -> (usize, &[u8])
    requires { Tail hex tail.now }
    ensures { SplitsFraction hex tail.now result.0 result.1.now }
{
    match tail {
        [b'.', after @ ..] => {
            let len = digits_len(after, hex);
            (len, &after[len..])
        }
        _ => (0, tail),
    }
}

/// Returns the number of bytes of an exponent after its letter and `+`, or 0 without an exponent.
fn exponent_len(power: &[u8]) -> usize
    ensures { result ≡ length (without_plus (drop 1 power.now)) }
{
    match power {
        [_, b'+', ..] => power.len() - 2,
        [_, ..] => power.len() - 1,
        [] => 0,
    }
}

/// Returns the ranges of the parts of a decimal or hexadecimal number's lexeme, which ends before
/// offset `end`.
fn decimal_parts(word: &[u8], hex: bool, end: u32) -> Parts
    requires number { Decimals hex (unsigned word.now) }
    requires fits { length word.now ≤ end }
    ensures { AreParts hex word.now (end - length word.now) result }
{
    let digits = after_prefix(unsigned(word), hex);
    let integral = digits_len(digits, hex);
    let tail = &digits[integral..];
    let (fraction, power) = split_fraction(tail, hex);
    Parts {
        integral: Span::before(end - tail.len() as u32, integral),
        fractional: Span::before(end - power.len() as u32, fraction),
        exponent: Span::before(end, exponent_len(power)),
        payload: Span { start: 0, len: 0 },
        status: 0,
        negative: is_negative(word),
    }
}

/// Returns the range of the payload of a NaN's lexeme, which ends before offset `end`.
fn payload(word: &[u8], end: u32) -> Span
    requires number { Payload (unsigned word.now) }
    requires fits { length word.now ≤ end }
    ensures { result ≡ before end (drop 6 (unsigned word.now)) }
{
    Span::before(end, unsigned(word).len() - "nan:0x".len())
}

/// Returns the ranges of the parts of a floating-point number's row.
fn parts_of(text: &str, row: Row) -> Parts
    requires short { length text.now < 2 ^ 32 }
    requires known { IsRow text.now row }
    ensures { TellsParts text.now (token_of row) result }
{
    let none = Span { start: 0, len: 0 };
    let Some(kind) = float_kind(row.kind) else {
        return Parts::only(none, false, 1);
    };
    let word = source(text, row, TokenKind::Float(kind)).as_bytes();
    let end = row.offset + row.len;
    match kind {
        FloatKind::Normal { hex, .. } => decimal_parts(word, hex, end),
        FloatKind::NanVal { negative, .. } => Parts::only(payload(word, end), negative, 0),
        FloatKind::Inf { negative } | FloatKind::Nan { negative } => Parts::only(none, negative, 0),
    }
}

/// Returns the ranges of the text that are the parts of the floating-point number of a row: its
/// digits before and after the decimal point without sign and `0x`, the digits of its exponent
/// with a `-` but without `+`, and the hexadecimal digits of a NaN's payload. They are as in the
/// text, with underscores. The range of a part that the number does not have is empty. Fails with
/// status 1 if the row is not a floating-point number. Does not allocate.
#[unsafe(no_mangle)]
pub extern "C" fn wat_float_parts(text: &[u8], row: &Row) -> Parts
    requires utf8 { IsUtf8 text.now }
    requires short { length text.now < 2 ^ 32 }
    requires known { IsRow text.now row.now }
    ensures known { TellsParts text.now (token_of row.now) result }
    ensures one { OneParts text.now (token_of row.now) }
{
    one_parts();
    let text = unsafe { str::from_utf8_unchecked(text) };
    parts_of(text, *row)
}
