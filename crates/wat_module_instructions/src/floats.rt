//! Floating-point immediates.
ghost use Rattle.std.specs.Prelude.{◌≡◌, Ok, Err};
ghost use Rattle.wat_module_ast.specs.Grammar.{bits_by, f32, f64, is_minus};
ghost use Rattle.wat_module_ast.specs.declared.error.Range.TheVariants as ranges;
ghost use Rattle.wat_module_tokens.specs.TokenCursor.{terminals_of};
ghost use Rattle.wat_module_instructions.specs.Parts.{ReadsAs, ReadsExactly};

use crate::faults::{fault, unexpected};
use std::alloc::Global;
use wat_floats::{f32_bits, f32_of_integer, f64_bits, f64_of_integer};
use wat_module_ast::error::{Expected, Fault, FaultKind, ParseFailure, Range};
use wat_module_tokens::stream::TokenCursor;
use wat_module_tokens::token::{DecodedToken, Sign};

/// Returns `true` if the sign of an integer is `-`. The integer may be `-0`.
fn is_minus(sign: Sign) -> bool
    ensures { result ≡ is_minus sign }
{
    match sign {
        Sign::Minus => true,
        Sign::Absent | Sign::Plus => false,
    }
}

/// Returns the bits of a 32-bit float and the remaining tokens, or `OutOfRange` if `bits` is
/// `None`. `all` begins with the float, for errors.
fn single<'p, 'a>(
    bits: Option<u32>,
    all: TokenCursor<'p, 'a>,
    rest: TokenCursor<'p, 'a>,
) -> Result<(u32, TokenCursor<'p, 'a>), Fault<'p, 'a>>
    ensures { ReadsExactly (λ v. v)
        (bits_by ranges.Float32 bits (terminals_of all.entry) (terminals_of rest.entry)) result }
{
    match bits {
        Some(bits) => Ok((bits, rest)),
        None => Err(fault(FaultKind::OutOfRange(Range::Float32), all)),
    }
}

/// Returns the bits of a 64-bit float and the remaining tokens, or `OutOfRange` if `bits` is
/// `None`. `all` begins with the float, for errors.
fn double<'p, 'a>(
    bits: Option<u64>,
    all: TokenCursor<'p, 'a>,
    rest: TokenCursor<'p, 'a>,
) -> Result<(u64, TokenCursor<'p, 'a>), Fault<'p, 'a>>
    ensures { ReadsExactly (λ v. v)
        (bits_by ranges.Float64 bits (terminals_of all.entry) (terminals_of rest.entry)) result }
{
    match bits {
        Some(bits) => Ok((bits, rest)),
        None => Err(fault(FaultKind::OutOfRange(Range::Float64), all)),
    }
}

/// Parses a 32-bit float, which may be written as an integer. Returns the bits of the nearest float
/// and the remaining tokens. Returns `OutOfRange` if a number rounds to infinity, or if the payload
/// of a NaN is 0 or has too many bits.
pub(crate) fn float_32<'p, 'a>(
    alloc: Global,
    cursor: TokenCursor<'p, 'a>,
) -> Result<(u32, TokenCursor<'p, 'a>), ParseFailure<'p, 'a>>
    ensures { ReadsAs (λ v. v) (f32 (terminals_of cursor.entry)) result }
{
    match cursor.first() {
        Some((DecodedToken::Integer(sign, size), rest)) => {
            let bits = f32_of_integer(is_minus(sign), size);
            Ok(single(bits, cursor, rest)?)
        }
        Some((DecodedToken::Float(word), rest)) => {
            let bits = f32_bits(alloc, word)?;
            Ok(single(bits, cursor, rest)?)
        }
        _ => Err(ParseFailure::Text(unexpected(Expected::Number, cursor))),
    }
}

/// Parses a 64-bit float, which may be written as an integer. Returns the bits of the nearest float
/// and the remaining tokens. Returns `OutOfRange` if a number rounds to infinity, or if the payload
/// of a NaN is 0 or has too many bits.
pub(crate) fn float_64<'p, 'a>(
    alloc: Global,
    cursor: TokenCursor<'p, 'a>,
) -> Result<(u64, TokenCursor<'p, 'a>), ParseFailure<'p, 'a>>
    ensures { ReadsAs (λ v. v) (f64 (terminals_of cursor.entry)) result }
{
    match cursor.first() {
        Some((DecodedToken::Integer(sign, size), rest)) => {
            let bits = f64_of_integer(is_minus(sign), size);
            Ok(double(bits, cursor, rest)?)
        }
        Some((DecodedToken::Float(word), rest)) => {
            let bits = f64_bits(alloc, word)?;
            Ok(double(bits, cursor, rest)?)
        }
        _ => Err(ParseFailure::Text(unexpected(Expected::Number, cursor))),
    }
}
