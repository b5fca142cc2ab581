//! Classification of numbers without underscores that fit into one block.
ghost use Rattle.std.specs.Prelude.{
  ◌≡◌,
  ◌≤◌,
  ◌<◌,
  ℕ,
  Bool,
  List,
  IsTrue,
  IfSome,
  length,
  take,
  drop,
};
ghost use Rattle.std.specs.Char.{is_ascii_digit};
ghost use Rattle.std.specs.List.{prefix_len};
ghost use Rattle.wat_lex.specs.grammar.Numbers.{is_digit, sign_of, unsigned, Number};
ghost use Rattle.wat_lex.specs.inside.Blocks.{FirstFailures};
ghost use Rattle.wat_lex.specs.inside.ScannedNumbers.{PlainExponent, PlainTail, prefixed_kind};

use crate::lexer::kinds::{FloatKind, IntegerKind, Sign, TokenKind};
use crate::lexer::scan::blocks::{block_at, other_than_digits, other_than_hex_digits};
use crate::lexer::scan::numbers::{is_exponent_letter, past_prefix, unsigned};

/// Returns the number of clear bits from bit `i` on, up to the next set bit or bit 16.
#[inline(always)]
fn clear_from(bits: u64, i: usize) -> usize
    requires { i ≤ 16 }
    ensures clear { (p : ℕ → Bool) (text : List ℕ) → FirstFailures p text bits →
        result ≤ prefix_len p (drop i text) }
    ensures few { result ≤ 64 }
{
    // All bits from bit 16 on are set, so that a set bit is found.
    ((bits | 0xffff_ffff_ffff_0000) >> i).trailing_zeros() as usize
}

/// Returns `true` if the first `len` bytes are an exponent without underscores from index `i` on.
/// `digits` must be the mask of the bytes that are not decimal digits.
#[inline(always)]
fn is_short_exponent(text: &[u8], len: usize, i: usize, hex: bool, digits: u64) -> bool
    requires within { len ≤ length text.now }
    requires short { len ≤ 16 }
    requires place { i ≤ len }
    requires digits { FirstFailures is_ascii_digit text.now digits }
    ensures { IsTrue result → PlainExponent hex (drop i (take len text.now)) }
{
    let [letter, after @ ..] = &text[i..len] else {
        return false;
    };
    if !is_exponent_letter(*letter, hex) {
        return false;
    }
    let number = unsigned(after).len();
    number != 0 && clear_from(digits, len - number) >= number
}

/// Returns `true` if the first `len` bytes are a fraction, an exponent or both without underscores,
/// from index `i` on. `others` and `digits` must be the masks of the bytes that are not digits in
/// the base of the number, and in base 10.
#[inline(always)]
fn is_short_tail(text: &[u8], len: usize, i: usize, hex: bool, others: u64, digits: u64) -> bool
    requires within { len ≤ length text.now }
    requires short { len ≤ 16 }
    requires place { i < len }
    requires others { FirstFailures (is_digit hex) text.now others }
    requires digits { FirstFailures is_ascii_digit text.now digits }
    ensures { IsTrue result → PlainTail hex (drop i (take len text.now)) }
{
    if text[i] != b'.' {
        return is_short_exponent(text, len, i, hex, digits);
    }
    let end = i + 1 + clear_from(others, i + 1);
    if end >= len {
        return true;
    }
    is_short_exponent(text, len, end, hex, digits)
}

/// Returns the length of a sign in bytes.
#[inline(always)]
fn sign_len(sign: Sign) -> usize
    ensures unsigned { (word : List ℕ) → sign ≡ sign_of word → unsigned word ≡ drop result word }
    ensures few { result ≤ 1 }
{
    match sign {
        Sign::None => 0,
        _ => 1,
    }
}

/// Returns the kind of the lexeme in the first `len` bytes if it is a decimal integer or a decimal
/// float without underscores. `sign` must be the sign of the lexeme.
#[inline(always)]
pub fn short_decimal(text: &[u8], len: usize, sign: Sign) -> Option<TokenKind>
    requires sign { sign ≡ sign_of (take len text.now) }
    requires some { 0 < len }
    requires short { len ≤ 16 }
    requires long { 16 ≤ length text.now }
    ensures { IfSome result (λ kind. Number (take len text.now) kind) }
{
    let start = sign_len(sign);
    let others = other_than_digits(block_at(text, 0));
    let end = start + clear_from(others, start);
    if end >= len {
        if start == len {
            return None;
        }
        return Some(TokenKind::Integer(IntegerKind {
            sign,
            has_underscores: false,
            hex: false,
        }));
    }
    if end == start || !is_short_tail(text, len, end, false, others, others) {
        return None;
    }
    Some(TokenKind::Float(FloatKind::Normal {
        has_underscores: false,
        hex: false,
    }))
}

/// Class of a lexeme that may begin with `0x` or `nan:0x`.
#[derive(Clone, Copy)]
pub enum Prefixed {
    /// A hexadecimal integer without a sign and without underscores.
    Integer,
    /// A hexadecimal float without a sign and without underscores.
    Float,
    /// A NaN with a payload, without a sign and without underscores.
    Payload,
    /// A lexeme that one block does not classify.
    Other,
}

impl Prefixed {
    /// Returns the kind of the lexeme, or `None` if it is not classified.
    #[inline(always)]
    pub fn kind(self) -> Option<TokenKind>
        ensures { result ≡ prefixed_kind self }
    {
        match self {
            Prefixed::Integer => Some(TokenKind::Integer(IntegerKind {
                sign: Sign::None,
                has_underscores: false,
                hex: true,
            })),
            Prefixed::Float => Some(TokenKind::Float(FloatKind::Normal {
                has_underscores: false,
                hex: true,
            })),
            Prefixed::Payload => Some(TokenKind::Float(FloatKind::NanVal {
                negative: false,
                has_underscores: false,
            })),
            Prefixed::Other => None,
        }
    }
}

/// Classifies the lexeme in the first `len` bytes if it is `0x` and an integer or a float of at
/// most 16 bytes after it. It is a call that returns one byte, so that its caller stays small.
#[inline(never)]
pub fn short_hexadecimal(text: &[u8], len: usize) -> Prefixed
    requires { len ≤ length text.now }
    ensures { IfSome (prefixed_kind result) (λ kind. Number (take len text.now) kind) }
{
    let Some(digits) = past_prefix(&text[..len], b"0x".as_slice()) else {
        return Prefixed::Other;
    };
    let number = digits.len();
    if number > 16 || text.len() < 18 {
        return Prefixed::Other;
    }
    let after = &text[2..];
    let block = block_at(after, 0);
    let others = other_than_hex_digits(block);
    let end = clear_from(others, 0);
    if end >= number {
        if number == 0 {
            return Prefixed::Other;
        }
        return Prefixed::Integer;
    }
    if end == 0 || !is_short_tail(after, number, end, true, others, other_than_digits(block)) {
        return Prefixed::Other;
    }
    Prefixed::Float
}

/// Classifies the lexeme in the first `len` bytes if it is `nan:0x` and at most 16 digits.
#[inline(never)]
pub fn short_payload(text: &[u8], len: usize) -> Prefixed
    requires { len ≤ length text.now }
    ensures { IfSome (prefixed_kind result) (λ kind. Number (take len text.now) kind) }
{
    let Some(digits) = past_prefix(&text[..len], b"nan:0x".as_slice()) else {
        return Prefixed::Other;
    };
    let number = digits.len();
    if number == 0 || text.len() < 22 {
        return Prefixed::Other;
    }
    let others = other_than_hex_digits(block_at(&text[6..], 0));
    if clear_from(others, 0) < number {
        return Prefixed::Other;
    }
    Prefixed::Payload
}
