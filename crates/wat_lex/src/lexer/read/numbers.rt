//! The parts and values of numbers, from their lexemes.
ghost use Rattle.std.specs.Prelude.{◌≡◌, ◌≤◌, ◌+◌, ◌*◌, ◌^◌, ◌++◌, ◌||◌, Bool, true, false, []};
ghost use Rattle.std.specs.Prelude.{length, IfOk, OnOk, IsOk, IfSome, MatchOption, string_bytes};
ghost use Rattle.std.specs.Char.{digit_value};
ghost use Rattle.std.specs.Option.{option_map};
ghost use Rattle.std.specs.Str.{IsAscii};
ghost use Rattle.std.specs.Str.Parse.{digits_value};
ghost use Rattle.wat_lex.specs.grammar.Numbers.{unsigned, has_underscores, Number, IntegralPart};
ghost use Rattle.wat_lex.specs.grammar.Numbers.{Tail, Decimals, Payload};
ghost use Rattle.wat_lex.specs.values.NumberValues.{joined, after_prefix, number_text};
ghost use Rattle.wat_lex.specs.values.NumberValues.{bare_digits, base, integer_value};
ghost use Rattle.wat_lex.specs.values.NumberValues.{payload_text, is_integer_rewritten};
ghost use Rattle.wat_lex.specs.values.NumberValues.{is_float_rewritten, integer_sign};
ghost use Rattle.wat_lex.specs.values.NumberValues.{integer_digits, integer_base, Point, Power};
ghost use Rattle.wat_lex.specs.values.NumberValues.{IsText, IsOptionalText, IsIntegerOf};
ghost use Rattle.wat_lex.specs.values.NumberValues.{IsFloatOf};
ghost use Rattle.wat_lex.specs.inside.ScannedNumbers.{without_plus, EndsFloat};
ghost use Rattle.wat_lex.specs.declared.lexer.kinds.TokenKind.TheVariants as token_kind;
ghost use Rattle.wat_lex.specs.declared.lexer.kinds.FloatKind.TheVariants.{Normal};

use crate::lexer::kinds::{FloatKind, IntegerKind, SignToken};
use crate::lexer::scan::numbers::{after_digits, is_negative, unsigned};
use std::alloc::{AllocError, Global};
use std::borrow::CowStr;

/// An integer token's sign, digits and base.
#[derive(Debug, Drop, PartialEq)]
pub struct Integer<'a> {
    /// The sign before the digits, if any.
    sign: Option<SignToken>,
    /// The digits without `+`, underscores and `0x`, after a `-` if the integer is negative.
    digits: CowStr<'a>,
    /// `true` if the base is 16, and `false` if it is 10.
    hex: bool,
}

impl<'a> Integer<'a> {
    /// Returns the sign before the digits, if any.
    pub fn sign(&self) -> Option<SignToken>
        ensures { result ≡ integer_sign self.now }
    {
        self.sign
    }

    /// Returns the digits and their base. The digits are without underscores and `0x`, and follow a
    /// `-` if the integer is negative.
    pub fn val(&self) -> (&str, u32)
        ensures digits { result.0.now ≡ integer_digits self.now }
        ensures base { result.1 ≡ integer_base self.now }
    {
        let base = if self.hex { 16 } else { 10 };
        (self.digits.as_str(), base)
    }

    /// Returns the sign and the digits of an integer's lexeme.
    #[inline]
    pub(crate) fn from_word(
        alloc: Global,
        word: &'a str,
        kind: IntegerKind,
    ) -> Result<Integer<'a>, AllocError>
        requires ascii { IsAscii word.now }
        requires number { Number word.now (token_kind.Integer kind) }
        ensures value { IfOk result (IsIntegerOf kind word.now) }
        ensures free { is_integer_rewritten kind ≡ false → IsOk result }
    {
        let digits = number_text(alloc, word, kind.hex, kind.has_underscores)?;
        Ok(Integer {
            sign: kind.sign.token(),
            digits,
            hex: kind.hex,
        })
    }
}

/// Returns the value of a digit in base 36, or 36 for any other byte.
fn digit(byte: u8) -> u64
    ensures { result ≡ digit_value byte }
{
    match byte {
        b'0'..=b'9' => u64::from(byte - b'0'),
        b'A'..=b'Z' => u64::from(byte - b'A') + 10,
        b'a'..=b'z' => u64::from(byte - b'a') + 10,
        _ => 36,
    }
}

/// Returns the integer with one digit appended, or `None` if it is 2^64 or more.
fn with_digit(value: u64, base: u64, byte: u8) -> Option<u64>
    ensures { MatchOption result (2 ^ 64 ≤ value * base + digit_value byte)
        (λ n. n ≡ value * base + digit_value byte) }
{
    value.checked_mul(base)?.checked_add(digit(byte))
}

/// Returns the value of the digits of an integer, which are without sign and `0x`, or `None` if it
/// is 2^64 or more. Ignores underscores.
pub fn magnitude(digits: &[u8], hex: bool) -> Option<u64>
    ensures { MatchOption result (2 ^ 64 ≤ digits_value (base hex) (joined digits.now))
        (λ n. n ≡ digits_value (base hex) (joined digits.now)) }
{
    let base = if hex { 16 } else { 10 };
    let mut value = 0;
    for byte in digits {
        if *byte != b'_' {
            value = with_digit(value, base, *byte)?;
        }
    }
    Some(value)
}

/// Returns the absolute value of an integer's lexeme, or `None` if it is 2^64 or more.
pub(crate) fn magnitude_of(word: &str, kind: IntegerKind) -> Option<u64>
    requires { Number word.now (token_kind.Integer kind) }
    ensures { MatchOption result (2 ^ 64 ≤ integer_value kind.hex word.now)
        (λ n. n ≡ integer_value kind.hex word.now) }
{
    let digits = after_prefix(unsigned(word.as_bytes()), kind.hex);
    magnitude(digits, kind.hex)
}

/// A floating-point token, split into its parts.
#[derive(Debug, Drop, PartialEq, Eq)]
pub enum Float<'a> {
    /// `nan`, with the digits of its payload, if any.
    Nan {
        /// The payload's hexadecimal digits after `nan:0x`, without underscores.
        val: Option<CowStr<'a>>,
        /// `true` if the number begins with `-`.
        negative: bool,
    },
    /// `inf`, with or without a sign.
    Inf {
        /// `true` if the number begins with `-`.
        negative: bool,
    },
    /// A number with a dot or an exponent. Its parts are without `+` and underscores.
    Val {
        /// `true` if the digits are hexadecimal. Those of the exponent are always decimal.
        hex: bool,
        /// The digits before the dot, without `0x`, after a `-` if the number is negative.
        integral: CowStr<'a>,
        /// The digits after the dot, or `None` if there are none.
        fractional: Option<CowStr<'a>>,
        /// The digits of the exponent, after a `-` if it is negative, or `None` if there is no
        /// exponent.
        exponent: Option<CowStr<'a>>,
    },
}

impl<'a> Float<'a> {
    /// Returns the parts of a floating-point number's lexeme.
    #[inline]
    pub(crate) fn from_word(
        alloc: Global,
        word: &'a str,
        kind: FloatKind,
    ) -> Result<Float<'a>, AllocError>
        requires ascii { IsAscii word.now }
        requires number { Number word.now (token_kind.Float kind) }
        ensures value { IfOk result (IsFloatOf kind word.now) }
        ensures free { is_float_rewritten kind ≡ false → IsOk result }
    {
        match kind {
            FloatKind::Inf { negative } => Ok(Float::Inf { negative }),
            FloatKind::Nan { negative } => Ok(Float::Nan {
                val: None,
                negative,
            }),
            FloatKind::NanVal {
                negative,
                has_underscores,
            } => {
                let val = payload(alloc, word, has_underscores)?;
                Ok(Float::Nan {
                    val: Some(val),
                    negative,
                })
            }
            FloatKind::Normal {
                has_underscores,
                hex,
            } => decimals(alloc, word, hex, has_underscores),
        }
    }
}

/// Returns the lexeme without a `+` at its start.
#[inline]
fn without_plus(word: &str) -> &str
    ensures { result.now ≡ without_plus word.now }
{
    let bytes = word.as_bytes();
    if bytes.is_empty() || bytes[0] != b'+' {
        return word;
    }
    &word[1..]
}

/// Returns the digits after `0x` of a hexadecimal number, and a decimal number unchanged.
fn after_prefix(number: &[u8], hex: bool) -> &[u8]
    requires long { hex ≡ true → 2 ≤ length number.now }
    ensures { result.now ≡ after_prefix hex number.now }
{
    if hex { &number[2..] } else { number }
}

/// Appends digits to a text, without underscores.
fn push_joined(text: &mut String, digits: &[u8]) -> Result<(), AllocError>
    requires ascii { IsAscii digits.now }
    ensures { OnOk result (string_bytes text.new ≡ string_bytes text.old ++ joined digits.now) }
{
    for b in digits {
        if *b != b'_' {
            text.push(*b as char)?;
        }
    }
    Ok(())
}

/// Appends a number's digits to a text, without sign, underscores and `0x`.
fn push_digits(
    text: &mut String,
    word: &str,
    hex: bool,
    underscores: bool,
) -> Result<(), AllocError>
    requires ascii { IsAscii word.now }
    requires long { hex ≡ true → 2 ≤ length (unsigned word.now) }
    requires plain { underscores ≡ false → has_underscores word.now ≡ false }
    ensures { OnOk result
        (string_bytes text.new ≡ string_bytes text.old ++ bare_digits hex word.now) }
{
    let digits = after_prefix(unsigned(word.as_bytes()), hex);
    if underscores {
        return push_joined(text, digits);
    }
    text.push_str(&word[word.len() - digits.len()..])
}

/// Copies a number's digits, without `+`, underscores and `0x`, after a `-` if the number is
/// negative.
// It stays a call, so that digits that are borrowed are returned without one.
#[inline(never)]
fn joined_text<'a>(
    alloc: Global,
    word: &str,
    hex: bool,
    underscores: bool,
) -> Result<CowStr<'a>, AllocError>
    requires ascii { IsAscii word.now }
    requires long { hex ≡ true → 2 ≤ length (unsigned word.now) }
    requires plain { underscores ≡ false → has_underscores word.now ≡ false }
    ensures { IfOk result (IsText true (number_text hex word.now)) }
{
    let mut text = String::new(alloc);
    if is_negative(word.as_bytes()) {
        text.push('-')?;
    }
    push_digits(&mut text, word, hex, underscores)?;
    Ok(CowStr::Owned(text))
}

/// Returns a number's digits, without `+`, underscores and `0x`, after a `-` if the number is
/// negative. They are borrowed if they are decimal and have no underscores.
#[inline(always)]
fn number_text<'a>(
    alloc: Global,
    word: &'a str,
    hex: bool,
    underscores: bool,
) -> Result<CowStr<'a>, AllocError>
    requires ascii { IsAscii word.now }
    requires long { hex ≡ true → 2 ≤ length (unsigned word.now) }
    requires plain { underscores ≡ false → has_underscores word.now ≡ false }
    ensures value { IfOk result (IsText (hex || underscores) (number_text hex word.now)) }
    ensures free { (hex || underscores) ≡ false → IsOk result }
{
    if !hex && !underscores {
        return Ok(CowStr::Borrowed(without_plus(word)));
    }
    joined_text(alloc, word, hex, underscores)
}

/// Returns the digits of a payload after `nan:0x`, without underscores.
fn payload<'a>(alloc: Global, word: &'a str, underscores: bool) -> Result<CowStr<'a>, AllocError>
    requires ascii { IsAscii word.now }
    requires payload { Payload (unsigned word.now) }
    requires plain { underscores ≡ false → has_underscores word.now ≡ false }
    ensures value { IfOk result (IsText underscores (payload_text word.now)) }
    ensures free { underscores ≡ false → IsOk result }
{
    let number = unsigned(word.as_bytes());
    let start = word.len() - number.len() + "nan:0x".len();
    number_text(alloc, &word[start..], false, underscores)
}

/// Splits a floating-point number's lexeme after the digits before its dot or exponent.
fn split_integral(word: &str, hex: bool) -> (&str, &str)
    requires ascii { IsAscii word.now }
    requires decimals { Decimals hex (unsigned word.now) }
    ensures cut { word.now ≡ result.0.now ++ result.1.now }
    ensures integral { IntegralPart hex (unsigned result.0.now) [] }
    ensures tail { Tail hex result.1.now }
{
    let number = unsigned(word.as_bytes());
    match after_digits(after_prefix(number, hex), hex) {
        Some(tail) => word.split_at(word.len() - tail.len()),
        None => unreachable!(),
    }
}

/// Returns the digits after a dot, if any, and the exponent after them.
#[inline]
fn split_fraction(tail: &str, hex: bool) -> (Option<&str>, &str)
    requires ascii { IsAscii tail.now }
    requires tail { Tail hex tail.now }
    ensures point { Point hex tail.now (option_map (λ r. r.now) result.0) result.1.now }
    ensures rest { EndsFloat hex result.1.now }
{
    if tail.as_bytes()[0] != b'.' {
        return (None, tail);
    }
    let after = &tail[1..];
    match after_digits(after.as_bytes(), hex) {
        Some(rest) => {
            let (digits, rest) = after.split_at(after.len() - rest.len());
            (Some(digits), rest)
        }
        None => (None, after),
    }
}

/// Returns an exponent without its letter, or `None` if the text is empty.
#[inline]
fn after_letter(rest: &str) -> Option<&str>
    requires ascii { IsAscii rest.now }
    ensures { (hex : Bool) → EndsFloat hex rest.now →
        Power hex rest.now (option_map (λ r. r.now) result) }
{
    if rest.is_empty() {
        None
    } else {
        Some(&rest[1..])
    }
}

/// Returns a decimal part of a number without `+` and underscores, if there is such a part.
#[inline]
fn optional_text<'a>(
    alloc: Global,
    part: Option<&'a str>,
    underscores: bool,
) -> Result<Option<CowStr<'a>>, AllocError>
    requires ascii { IfSome part (λ p. IsAscii p.now) }
    requires plain { underscores ≡ false → IfSome part (λ p. has_underscores p.now ≡ false) }
    ensures value { IfOk result (IsOptionalText underscores (
        option_map (λ p. number_text false p.now) part.entry)) }
    ensures free { underscores ≡ false → IsOk result }
{
    match part {
        Some(part) => {
            let text = number_text(alloc, part, false, underscores)?;
            Ok(Some(text))
        }
        None => Ok(None),
    }
}

/// Splits a floating-point number's lexeme into its parts.
fn decimals<'a>(
    alloc: Global,
    word: &'a str,
    hex: bool,
    underscores: bool,
) -> Result<Float<'a>, AllocError>
    requires ascii { IsAscii word.now }
    requires decimals { Decimals hex (unsigned word.now) }
    requires plain { underscores ≡ false → has_underscores word.now ≡ false }
    ensures value { IfOk result (IsFloatOf (Normal underscores hex) word.now) }
    ensures free { (hex || underscores) ≡ false → IsOk result }
{
    let (leading, tail) = split_integral(word, hex);
    let (fraction, rest) = split_fraction(tail, hex);
    let integral = number_text(alloc, leading, hex, underscores)?;
    let fractional = optional_text(alloc, fraction, underscores)?;
    let exponent = optional_text(alloc, after_letter(rest), underscores)?;
    Ok(Float::Val {
        hex,
        integral,
        fractional,
        exponent,
    })
}
