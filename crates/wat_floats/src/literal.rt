//! Conversion of literals: their sign, underscores, base and special values.
ghost use Rattle.std.specs.Prelude.{◌≡◌, ◌<◌, ◌*◌, false, true, None, Some, IfOk, IfSome, IsOk};
ghost use Rattle.std.specs.Prelude.{MatchOption};
ghost use Rattle.std.specs.Str.Parse.{digits_value};
ghost use Rattle.wat_lex.specs.grammar.Numbers.{has_underscores};
ghost use Rattle.wat_lex.specs.values.NumberValues.{joined};
ghost use Rattle.wat_floats.specs.Literals as literals;
ghost use Rattle.wat_floats.specs.Literals.{digits, literal, sign_bit};
ghost use Rattle.wat_floats.specs.Rounding.{format};

use crate::decimal::decimal;
use crate::exponent::{is_negative, unsigned};
use crate::hexadecimal::{Leading, hexadecimal, whole, with_digits};
use crate::precision::Precision;
use std::alloc::{AllocError, Global};

/// Returns the bits if they are less than those of infinity.
fn finite(precision: Precision, bits: u64) -> Option<u64>
    ensures { result ≡ literals.finite (format precision) bits }
{
    if bits < precision.infinity() {
        Some(bits)
    } else {
        None
    }
}

/// Returns the bits of the NaN whose payload is the hexadecimal digits at the start of the text, or
/// `None` if the payload is 0 or too large.
fn payload(precision: Precision, text: &[u8]) -> Option<u64>
    ensures { result
        ≡ literals.payload (format precision) (digits_value 16 (digits true text.now)) }
{
    let (payload, _) = with_digits(Leading::none(), text);
    if 0 < payload.count && payload.count < precision.exponent_bit() {
        Some(precision.infinity() + payload.count)
    } else {
        None
    }
}

/// Returns the part of the word after the prefix, or `None` if the word does not begin with it.
fn after<'w>(prefix: &[u8], word: &'w [u8]) -> Option<&'w [u8]>
    ensures { MatchOption result (literals.after prefix.now word.now ≡ None)
        (λ r. literals.after prefix.now word.now ≡ Some r.now) }
{
    word.strip_prefix(prefix)
}

/// Returns the bits of a literal without sign and underscores.
fn magnitude(precision: Precision, word: &[u8]) -> Option<u64>
    ensures { result ≡ literals.magnitude (format precision) word.now }
{
    if word == b"inf".as_slice() {
        return Some(precision.infinity());
    }
    if word == b"nan".as_slice() {
        return Some(precision.infinity() + precision.exponent_bit() / 2);
    }
    if let Some(digits) = after(b"nan:0x", word) {
        return payload(precision, digits);
    }
    match after(b"0x", word) {
        Some(digits) => finite(precision, hexadecimal(precision, digits)),
        None => finite(precision, decimal(precision, word)),
    }
}

/// Returns the bits of a literal without sign. Allocates a copy without underscores if it has any.
fn joined_magnitude(
    alloc: Global,
    precision: Precision,
    word: &[u8],
) -> Result<Option<u64>, AllocError>
    ensures value { IfOk result
        (λ bits. bits ≡ literals.magnitude (format precision) (joined word.now)) }
    ensures free { has_underscores word.now ≡ false → IsOk result }
{
    if !word.contains(&b'_') {
        return Ok(magnitude(precision, word));
    }
    let mut joined = Vec::with_capacity(alloc, word.len())?;
    for byte in word {
        if *byte != b'_' {
            joined.push(*byte)?;
        }
    }
    Ok(magnitude(precision, &joined))
}

/// Returns the bits of a literal. Allocates only if it has underscores.
pub(crate) fn literal(
    alloc: Global,
    precision: Precision,
    word: &[u8],
) -> Result<Option<u64>, AllocError>
    ensures value { IfOk result (λ bits. bits ≡ literal (format precision) word.now) }
    ensures free { has_underscores word.now ≡ false → IsOk result }
    ensures small { IfOk result (λ bits. IfSome bits (λ b. b < sign_bit (format precision) * 2)) }
{
    let magnitude = joined_magnitude(alloc, precision, unsigned(word))?;
    Ok(signed(precision, is_negative(word), magnitude))
}

/// Returns the bits with the sign bit, which is set if `negative` is.
fn signed(precision: Precision, negative: bool, magnitude: Option<u64>) -> Option<u64>
    requires { IfSome magnitude (λ b. b < sign_bit (format precision)) }
    ensures value { result ≡ literals.signed (format precision) negative magnitude }
    ensures small { IfSome result (λ b. b < sign_bit (format precision) * 2) }
{
    match magnitude {
        Some(bits) if negative => Some(precision.sign_bit() + bits),
        Some(bits) => Some(bits),
        None => None,
    }
}

/// Returns the bits of the number nearest to an integer with this sign and absolute value, or
/// `None` if the number rounds to infinity.
pub(crate) fn of_integer(precision: Precision, negative: bool, size: u64) -> Option<u64>
    ensures value { result ≡ literals.of_integer (format precision) negative size }
    ensures small { IfSome result (λ b. b < sign_bit (format precision) * 2) }
{
    signed(
        precision,
        negative,
        finite(precision, whole(precision, size)),
    )
}
