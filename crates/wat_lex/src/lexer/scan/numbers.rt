//! Classification of lexemes that may be numbers.
ghost use Rattle.std.specs.Prelude.{
  ◌≡◌,
  ◌≢◌,
  ◌↔◌,
  ◌≤◌,
  ◌++◌,
  ℕ,
  List,
  [],
  MatchOption,
  IfSome,
  IfNone,
};
ghost use Rattle.std.specs.Prelude.{IsTrue, codes, length, take};
ghost use Rattle.std.specs.List.{prefix_len};
ghost use Rattle.wat_lex.specs.declared.lexer.kinds.TokenKind.{TokenKind};
ghost use Rattle.wat_lex.specs.grammar.Numbers.{is_digit, is_exponent_letter, sign_of, unsigned};
ghost use Rattle.wat_lex.specs.grammar.Numbers.{is_negative, has_underscores, Digits, Exponent};
ghost use Rattle.wat_lex.specs.grammar.Numbers.{Tail, Payload, Number};
ghost use Rattle.wat_lex.specs.inside.ScannedNumbers.{LongestDigits, NoDigits, OnlyIntegralPart};
ghost use Rattle.wat_lex.specs.inside.ScannedNumbers.{NoIntegralPart};
ghost use Rattle.wat_lex.specs.inside.ScannedNumbers.{IsPlainFloat, PlainDecimals, PlainExponent};
ghost use Rattle.wat_lex.specs.inside.ScannedNumbers.{PlainTail};

use crate::lexer::kinds::{FloatKind, IntegerKind, Sign, Stride, TokenKind};
use crate::lexer::scan::classes::{digit_len, hex_digit_len, is_hex_digit};

/// Returns `true` for a hexadecimal digit if `hex`, and otherwise for a decimal digit.
fn is_digit(b: u8, hex: bool) -> bool
    ensures { result ≡ is_digit hex b }
{
    if hex {
        is_hex_digit(b)
    } else {
        b.is_ascii_digit()
    }
}

/// Returns `true` for the letter of an exponent: `p` or `P` if `hex`, and otherwise `e` or `E`.
pub fn is_exponent_letter(b: u8, hex: bool) -> bool
    ensures { result ≡ is_exponent_letter hex b }
{
    // This bit makes a letter lowercase.
    let small = b | 0x20;
    if hex { small == b'p' } else { small == b'e' }
}

/// Returns the sign at the start of a lexeme.
pub fn sign_of(word: &[u8]) -> Sign
    ensures { result ≡ sign_of word.now }
{
    match word {
        [b'+', ..] => Sign::Plus,
        [b'-', ..] => Sign::Minus,
        _ => Sign::None,
    }
}

/// Returns `true` if a lexeme begins with `-`.
pub fn is_negative(word: &[u8]) -> bool
    ensures { result ≡ is_negative word.now }
{
    matches!(word, [b'-', ..])
}

/// Returns a lexeme without its sign.
pub fn unsigned(word: &[u8]) -> &[u8]
    ensures { result.now ≡ unsigned word.now }
{
    match word {
        [b'+' | b'-', rest @ ..] => rest,
        _ => word,
    }
}

/// Returns `true` if a lexeme has an underscore.
fn has_underscores(word: &[u8]) -> bool
    ensures { result ≡ has_underscores word.now }
{
    word.contains(&b'_')
}

/// Returns the text after a prefix, or `None` if it does not begin with the prefix.
pub fn past_prefix<'a>(text: &'a [u8], prefix: &[u8]) -> Option<&'a [u8]>
    ensures { MatchOption result ((rest : List ℕ) → text.now ≢ prefix.now ++ rest)
        (λ rest. text.now ≡ prefix.now ++ rest.now) }
{
    text.strip_prefix(prefix)
}

/// Returns the text after the digits at the start, which single underscores may separate. Returns
/// `None` if there are none, or if an underscore after them is not followed by a digit.
pub fn after_digits(text: &[u8], hex: bool) -> Option<&[u8]>
    ensures { MatchOption result (NoDigits hex text.now)
        (λ rest. LongestDigits hex text.now rest.now) }
{
    if text.is_empty() || !is_digit(text[0], hex) {
        return None;
    }
    let mut last = 0;
    while last + 1 < text.len() {
        let next = text[last + 1];
        if is_digit(next, hex) {
            last += 1;
        } else if next != b'_' {
            return Some(&text[last + 1..]);
        } else if last + 2 < text.len() && is_digit(text[last + 2], hex) {
            last += 2;
        } else {
            return None;
        }
    }
    Some(&text[last + 1..])
}

/// Returns `true` if a text is digits, which single underscores may separate.
fn is_digits(text: &[u8], hex: bool) -> bool
    ensures { IsTrue result ↔ Digits hex text.now [] }
{
    match after_digits(text, hex) {
        Some(rest) => rest.is_empty(),
        None => false,
    }
}

/// Returns `true` if a text is an exponent: a letter, an optional sign, and decimal digits.
fn is_exponent(text: &[u8], hex: bool) -> bool
    ensures { IsTrue result ↔ Exponent hex text.now }
{
    match text {
        [first, rest @ ..] => is_exponent_letter(*first, hex) && is_digits(unsigned(rest), false),
        [] => false,
    }
}

/// Returns `true` if a text is a fraction, an exponent or both, which make a float of the digits
/// before it.
fn is_tail(text: &[u8], hex: bool) -> bool
    ensures { IsTrue result ↔ Tail hex text.now }
{
    let [b'.', after @ ..] = text else {
        return is_exponent(text, hex);
    };
    if after.is_empty() || is_exponent(after, hex) {
        return true;
    }
    match after_digits(after, hex) {
        Some(rest) => rest.is_empty() || is_exponent(rest, hex),
        None => false,
    }
}

/// Returns the text after the digits at the start of an unsigned number, and `true` if they are
/// hexadecimal. Returns `None` if the number does not begin with such digits.
fn after_integral(text: &[u8]) -> Option<(bool, &[u8])>
    ensures { MatchOption result (NoIntegralPart text.now)
        (λ f. OnlyIntegralPart f.0 text.now f.1.now) }
{
    if let Some(digits) = past_prefix(text, b"0x".as_slice()) {
        return Some((true, after_digits(digits, true)?));
    }
    Some((false, after_digits(text, false)?))
}

/// Returns the kind of a number by the text after its first digits, or `None` if the lexeme is not
/// a number. It is not inlined, since the kind would then be cleared at each of these digits.
#[inline(never)]
fn kind_by_rest(word: &[u8], hex: bool, rest: &[u8]) -> Option<TokenKind>
    requires infinity { unsigned word.now ≢ codes "inf" }
    requires nan { unsigned word.now ≢ codes "nan" }
    requires payload { Payload (unsigned word.now) → ⊥ }
    requires first { OnlyIntegralPart hex (unsigned word.now) rest.now }
    ensures some { IfSome result (λ kind. Number word.now kind) }
    ensures none { IfNone result ((kind : TokenKind) → Number word.now kind → ⊥) }
{
    let has_underscores = has_underscores(word);
    if rest.is_empty() {
        return Some(TokenKind::Integer(IntegerKind {
            sign: sign_of(word),
            has_underscores,
            hex,
        }));
    }
    if !is_tail(rest, hex) {
        return None;
    }
    Some(TokenKind::Float(FloatKind::Normal {
        has_underscores,
        hex,
    }))
}

/// Returns the kind of a number that is neither an infinity nor a NaN, or `None` if the lexeme is
/// not a number.
fn digits_kind(word: &[u8]) -> Option<TokenKind>
    requires infinity { unsigned word.now ≢ codes "inf" }
    requires nan { unsigned word.now ≢ codes "nan" }
    requires payload { Payload (unsigned word.now) → ⊥ }
    ensures some { IfSome result (λ kind. Number word.now kind) }
    ensures none { IfNone result ((kind : TokenKind) → Number word.now kind → ⊥) }
{
    let (hex, rest) = after_integral(unsigned(word))?;
    kind_by_rest(word, hex, rest)
}

/// Returns the number of leading digits, hexadecimal if `hex` and otherwise decimal.
#[inline(always)]
fn digits_len(text: &[u8], hex: bool, stride: Stride) -> usize
    ensures { result ≡ prefix_len (is_digit hex) text.now }
{
    if hex {
        hex_digit_len(text, stride)
    } else {
        digit_len(text, stride)
    }
}

/// Returns `true` if the first `len` bytes are an exponent without underscores.
#[inline(always)]
fn is_plain_exponent(text: &[u8], len: usize, hex: bool, stride: Stride) -> bool
    requires { len ≤ length text.now }
    ensures { IsTrue result → PlainExponent hex (take len text.now) }
{
    let [letter, after @ ..] = &text[..len] else {
        return false;
    };
    if !is_exponent_letter(*letter, hex) {
        return false;
    }
    let digits = unsigned(after).len();
    digits != 0 && digit_len(&text[len - digits..], stride) >= digits
}

/// Returns `true` if the first `len` bytes are a fraction, an exponent or both, without
/// underscores.
#[inline(always)]
fn is_plain_tail(text: &[u8], len: usize, hex: bool, stride: Stride) -> bool
    requires { len ≤ length text.now }
    ensures { IsTrue result → PlainTail hex (take len text.now) }
{
    let [b'.', ..] = &text[..len] else {
        return is_plain_exponent(text, len, hex, stride);
    };
    let digits = digits_len(&text[1..], hex, stride);
    if digits >= len - 1 {
        return true;
    }
    is_plain_exponent(&text[1 + digits..], len - 1 - digits, hex, stride)
}

/// Returns `true` if the first `len` bytes are digits and a fraction, an exponent or both, without
/// underscores.
#[inline(always)]
fn is_plain_decimals(text: &[u8], len: usize, hex: bool, stride: Stride) -> bool
    requires { len ≤ length text.now }
    ensures { IsTrue result → PlainDecimals hex (take len text.now) }
{
    let digits = digits_len(text, hex, stride);
    if digits == 0 || digits >= len {
        return false;
    }
    is_plain_tail(&text[digits..], len - digits, hex, stride)
}

/// Returns the kind of a float if the first `len` bytes are its digits and a fraction, an exponent
/// or both, without underscores.
#[inline(always)]
fn plain_decimals(text: &[u8], len: usize, hex: bool, stride: Stride) -> Option<TokenKind>
    requires { len ≤ length text.now }
    ensures { IfSome result (IsPlainFloat hex (take len text.now)) }
{
    if !is_plain_decimals(text, len, hex, stride) {
        return None;
    }
    Some(TokenKind::Float(FloatKind::Normal {
        has_underscores: false,
        hex,
    }))
}

/// Returns the kind of the lexeme in the first `len` bytes if it is `nan:0x` and digits without
/// underscores, after an optional sign.
#[inline(always)]
fn plain_payload(text: &[u8], len: usize, stride: Stride) -> Option<TokenKind>
    requires { len ≤ length text.now }
    ensures { IfSome result (λ kind. Number (take len text.now) kind) }
{
    let word = &text[..len];
    let Some(payload) = past_prefix(unsigned(word), b"nan:0x".as_slice()) else {
        return None;
    };
    let digits = payload.len();
    if digits == 0 || hex_digit_len(&text[len - digits..], stride) < digits {
        return None;
    }
    Some(TokenKind::Float(FloatKind::NanVal {
        negative: is_negative(word),
        has_underscores: false,
    }))
}

/// Returns the kind of the lexeme in the first `len` bytes if it is a float without underscores,
/// other than an infinity and a NaN without a payload.
#[inline(always)]
pub fn plain_float(text: &[u8], len: usize, stride: Stride) -> Option<TokenKind>
    requires { len ≤ length text.now }
    ensures { IfSome result (λ kind. Number (take len text.now) kind) }
{
    let number = unsigned(&text[..len]);
    let digits = number.len();
    match number {
        [b'0'..=b'9', ..] => {}
        [b'n', ..] => return plain_payload(text, len, stride),
        _ => return None,
    }
    match past_prefix(number, b"0x".as_slice()) {
        Some(after) => plain_decimals(&text[len - after.len()..], after.len(), true, stride),
        None => plain_decimals(&text[len - digits..], digits, false, stride),
    }
}

/// Returns the kind of the lexeme in the first `len` bytes if it is `0x` and digits without
/// underscores, after an optional sign.
#[inline(always)]
pub fn plain_hexadecimal(text: &[u8], len: usize, stride: Stride) -> Option<TokenKind>
    requires { len ≤ length text.now }
    ensures { IfSome result (λ kind. Number (take len text.now) kind) }
{
    let word = &text[..len];
    let Some(digits) = past_prefix(unsigned(word), b"0x".as_slice()) else {
        return None;
    };
    let number = digits.len();
    if number == 0 || hex_digit_len(&text[len - number..], stride) < number {
        return None;
    }
    Some(TokenKind::Integer(IntegerKind {
        sign: sign_of(word),
        has_underscores: false,
        hex: true,
    }))
}

/// Returns the kind of the lexeme in the first `len` bytes if it is decimal digits without
/// underscores, after an optional sign.
#[inline(always)]
pub fn plain_decimal(text: &[u8], len: usize, stride: Stride) -> Option<TokenKind>
    requires { len ≤ length text.now }
    ensures { IfSome result (λ kind. Number (take len text.now) kind) }
{
    let word = &text[..len];
    let number = unsigned(word).len();
    if number == 0 {
        return None;
    }
    let digits = digit_len(&text[len - number..], stride);
    if digits < number {
        return None;
    }
    Some(TokenKind::Integer(IntegerKind {
        sign: sign_of(word),
        has_underscores: false,
        hex: false,
    }))
}

/// Returns the kind of a number, or `None` if the lexeme is not a number.
#[inline(never)]
pub fn classify(word: &[u8]) -> Option<TokenKind>
    ensures some { IfSome result (λ kind. Number word.now kind) }
    ensures none { IfNone result ((kind : TokenKind) → Number word.now kind → ⊥) }
{
    let negative = is_negative(word);
    let number = unsigned(word);
    if number == b"inf".as_slice() {
        return Some(TokenKind::Float(FloatKind::Inf { negative }));
    }
    if number == b"nan".as_slice() {
        return Some(TokenKind::Float(FloatKind::Nan { negative }));
    }
    let Some(payload) = past_prefix(number, b"nan:0x".as_slice()) else {
        return digits_kind(word);
    };
    if !is_digits(payload, true) {
        return None;
    }
    Some(TokenKind::Float(FloatKind::NanVal {
        negative,
        has_underscores: has_underscores(word),
    }))
}
