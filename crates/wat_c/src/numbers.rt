//! Values and digits of integers, read from rows without an allocation.
ghost use Rattle.std.specs.Prelude.{
  ◌≡◌,
  ◌≢◌,
  ◌≤◌,
  ◌<◌,
  ◌^◌,
  ◌+◌,
  ◌*◌,
  ◌==◌,
  length,
  MatchOption,
  Ok,
};
ghost use Rattle.std.specs.Prelude.{IfSome, take, drop, ◌++◌};
ghost use Rattle.std.specs.Str.{IsUtf8};
ghost use Rattle.wat_lex.specs.grammar.Numbers.{unsigned};
ghost use Rattle.wat_lex.specs.tokens.ReadableTokens.{word_of};
ghost use Rattle.wat_lex.specs.values.NumberValues.{after_prefix, joined};
ghost use Rattle.wat_lexer_parser.specs.parser.Takers.{as_integer};
ghost use Rattle.wat_c.specs.Answers.{Answers, OneAnswer, answer_of, left_of};
ghost use Rattle.wat_c.specs.ByRow.{FindsOf, kind_of, token_of};
ghost use Rattle.wat_c.specs.Numbers.{half_range, wrap_to_bits, lead, no_number, number_known};
ghost use Rattle.wat_c.specs.Numbers.{signed_digits};
ghost use Rattle.wat_c.specs.Readings.{IsInteger, ReadsInteger};
ghost use Rattle.wat_c_records.specs.Counting.{IsRow};

use crate::answers::{Answer, Refusal};
use crate::laws::one_answer_of_row;
use std::str;
use wat_c_records::counting::Row;
use wat_c_records::rows::KindRow;
use wat_lex::lexer::magnitude;

/// Code of an integer in a row.
const INTEGER: u8 = 11;

/// Value of an integer in a given number of bits, and a status.
#[repr(C)]
#[derive(Clone, Copy, Debug, PartialEq)]
pub struct Number {
    /// Two's complement in this number of bits, zero-extended to 64 bits. It is 0 if `status` is
    /// not 0.
    pub value: u64,
    /// 0 if there is a value. Otherwise 1 if the token is not an integer, or 5 if the value is out
    /// of range or the number of bits is not supported.
    pub status: u32,
}

impl Number {
    /// Returns the result without a value, with this status.
    fn refused(status: u32) -> Number
        ensures { result ≡ no_number status }
    {
        Number { value: 0, status }
    }
}

/// Returns the number of bytes before the digits of an integer: its sign and `0x`.
fn lead(kind: KindRow) -> usize
    ensures { result ≡ lead kind }
{
    let sign = if kind.sign == 0 { 0 } else { 1 };
    let prefix = if kind.hex { 2 } else { 0 };
    sign + prefix
}

/// Returns the digits of an integer's row as in the text, with their underscores, after the sign
/// and `0x`.
fn digits<'a>(text: &'a str, row: Row) -> &'a [u8]
    requires known { IsRow text.now row }
    requires is { row.kind.code ≡ 11 }
    ensures digits { result.now
        ≡ after_prefix row.kind.hex (unsigned (word_of text.now (token_of row))) }
    ensures read { ReadsInteger text.now (token_of row)
        (Ok (signed_digits (row.kind.sign == 2) result.now)) }
{
    wat_lex::laws::tokens();
    let start = row.offset as usize;
    let end = start + row.len as usize;
    &text.as_bytes()[start + lead(row.kind)..end]
}

/// Returns 2^(bits-1) if `bits` is 8, 16, 32 or 64, otherwise `None`.
fn half_range(bits: u32) -> Option<u64>
    ensures value { result ≡ half_range bits }
    ensures bound { IfSome result (λ half. half ≤ 2 ^ 63) }
    ensures some { IfSome result (λ half. 0 < half) }
{
    match bits {
        8 => Some(0x80),
        16 => Some(0x8000),
        32 => Some(0x8000_0000),
        64 => Some(0x8000_0000_0000_0000),
        _ => None,
    }
}

/// Returns the two's complement of an integer, given its sign and magnitude, in the number of bits
/// of which `half` is 2^(bits-1). Returns `None` if it is out of range. The range is from 0 to `2 *
/// half - 1`, and a `-` is out of range even before 0. If `is_signed` is `true`, the range is from
/// `-half` to `2 * half - 1`.
fn wrap_to_bits(minus: bool, magnitude: u64, half: u64, is_signed: bool) -> Option<u64>
    requires some { 0 < half }
    requires bound { half ≤ 2 ^ 63 }
    ensures { result ≡ wrap_to_bits half is_signed (minus, magnitude) }
{
    let most = half - 1 + half;
    if !minus {
        return if magnitude <= most {
            Some(magnitude)
        } else {
            None
        };
    }
    if !is_signed || magnitude > half {
        return None;
    }
    if magnitude == 0 {
        return Some(0);
    }
    Some(most - (magnitude - 1))
}

/// Returns the value of an integer's row in a number of bits.
fn integer_of(text: &str, row: Row, bits: u32, is_signed: bool) -> Number
    requires { IsRow text.now row }
    ensures { result ≡ number_known bits is_signed
        (as_integer text.now (token_of row) (kind_of row.kind)) }
{
    if row.kind.code != INTEGER {
        return Number::refused(1);
    }
    let Some(half) = half_range(bits) else {
        return Number::refused(5);
    };
    let Some(magnitude) = magnitude(digits(text, row), row.kind.hex) else {
        return Number::refused(5);
    };
    match wrap_to_bits(row.kind.sign == 2, magnitude, half, is_signed) {
        Some(value) => Number { value, status: 0 },
        None => Number::refused(5),
    }
}

/// Returns the value of an integer's row in `bits` bits, i.e. 8, 16, 32 or 64. If `is_signed` is
/// `false`, the range is from 0 to 2^bits-1, and a `-` is out of range even before 0. If
/// `is_signed` is `true`, the range is from -2^(bits-1) to 2^bits-1. Fails with status 1 if the row
/// is not an integer, and with status 5 if the value is out of range or `bits` is another number.
#[unsafe(no_mangle)]
pub extern "C" fn wat_integer_of(text: &[u8], row: &Row, bits: u32, is_signed: bool) -> Number
    requires utf8 { IsUtf8 text.now }
    requires short { length text.now < 2 ^ 32 }
    requires known { IsRow text.now row.now }
    ensures { result ≡ number_known bits is_signed
        (as_integer text.now (token_of row.now) (kind_of row.now.kind)) }
{
    let text = unsafe { str::from_utf8_unchecked(text) };
    integer_of(text, *row, bits, is_signed)
}

/// Returns the number of digits without the underscores.
fn count(digits: &[u8]) -> usize
    ensures count { result ≡ length (joined digits.now) }
    ensures bound { result ≤ length digits.now }
{
    digits.iter().filter(|byte| **byte != b'_').count()
}

/// Writes the digits without underscores to `out`, from index `at` on.
fn write_digits(digits: &[u8], out: &mut [u8], at: usize)
    requires { at + length (joined digits.now) ≤ length out.old }
    ensures { out.new ≡ take at out.old ++ joined digits.now
        ++ drop (at + length (joined digits.now)) out.old }
{
    let mut at = at;
    for byte in digits {
        if *byte != b'_' {
            out[at] = *byte;
            at += 1;
        }
    }
}

/// Writes the digits without underscores to the front of `out`, after a `-` if `minus` is `true`.
/// They must fit.
fn write_signed(digits: &[u8], minus: bool, out: &mut [u8])
    requires { length (signed_digits minus digits.now) ≤ length out.old }
    ensures { out.new ≡ signed_digits minus digits.now
        ++ drop (length (signed_digits minus digits.now)) out.old }
{
    if !minus {
        return write_digits(digits, out, 0);
    }
    out[0] = b'-';
    write_digits(digits, out, 1);
}

/// Writes the digits without underscores to the front of `out` if they fit, after a `-` if `minus`
/// is `true`. Returns their number, including the `-`.
fn give_signed(digits: &[u8], minus: bool, out: &mut [u8]) -> Answer
    ensures known { result ≡ answer_of (Ok (signed_digits minus digits.now)) }
    ensures left { out.new ≡ left_of out.old (Ok (signed_digits minus digits.now)) }
{
    let needed = if minus {
        count(digits) + 1
    } else {
        count(digits)
    };
    if needed <= out.len() {
        write_signed(digits, minus, out);
    }
    Answer::of_len(needed)
}

/// Writes the digits of an integer's row, with a leading `-` if it has one.
fn give_digits(text: &str, row: Row, out: &mut [u8]) -> Answer
    requires { IsRow text.now row }
    ensures found { Answers (FindsOf IsInteger ReadsInteger text.now row) out.old out.new result }
    ensures free { result.status ≢ 2 }
{
    if row.kind.code != INTEGER {
        return Refusal::Other.answer();
    }
    give_signed(digits(text, row), row.kind.sign == 2, out)
}

/// Writes the digits of an integer's row, with a leading `-` if it has one, and without `+`, `0x`
/// and underscores. Fails with status 1 if the row is not an integer. Does not allocate.
#[unsafe(no_mangle)]
pub extern "C" fn wat_digits_of(text: &[u8], row: &Row, out: &mut [u8]) -> Answer
    requires utf8 { IsUtf8 text.now }
    requires short { length text.now < 2 ^ 32 }
    requires known { IsRow text.now row.now }
    ensures found { Answers (FindsOf IsInteger ReadsInteger text.now row.now)
        out.old out.new result }
    ensures one { OneAnswer (FindsOf IsInteger ReadsInteger text.now row.now) out.old }
    ensures free { result.status ≢ 2 }
{
    one_answer_of_row();
    let text = unsafe { str::from_utf8_unchecked(text) };
    give_digits(text, *row, out)
}
