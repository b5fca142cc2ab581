//! Conversion of the floats and integers of the WebAssembly text format to the bits of an `f32` or
//! `f64`. The result is the nearest number of the format, or of two equally near ones the one whose
//! significand is even.
#![tactic(auto)]

ghost use Rattle.std.specs.Prelude.{◌≡◌, false, IfOk, IsOk};
ghost use Rattle.std.specs.Float.{binary32, binary64};
ghost use Rattle.wat_lex.specs.grammar.Numbers.{has_underscores};
ghost use Rattle.wat_floats.specs.Literals.{literal, of_integer};

mod decimal;
mod exponent;
mod hexadecimal;
pub mod laws;
mod literal;
mod precision;
mod rounding;
#[cfg(test)]
mod tests;

use crate::precision::Precision;
use std::alloc::{AllocError, Global};

/// Returns the bits of the `f32` that a float or integer literal denotes, or `None` if the literal
/// rounds to infinity, or is a NaN whose payload is 0 or has more than 23 bits. For any other word
/// the result has no meaning. Allocates only if the word has underscores.
///
/// # Errors
///
/// Fails with `AllocError` if the allocation fails.
pub fn f32_bits(alloc: Global, word: &str) -> Result<Option<u32>, AllocError>
    ensures value { IfOk result (λ bits. bits ≡ literal binary32 word.now) }
    ensures free { has_underscores word.now ≡ false → IsOk result }
{
    match literal::literal(alloc, Precision::Single, word.as_bytes())? {
        Some(bits) => Ok(Some(bits as u32)),
        None => Ok(None),
    }
}

/// Returns the bits of the `f32` nearest to an integer with this sign and absolute value. The
/// result is `None` if the number rounds to infinity, which no `u64` does.
pub fn f32_of_integer(negative: bool, size: u64) -> Option<u32>
    ensures { result ≡ of_integer binary32 negative size }
{
    match literal::of_integer(Precision::Single, negative, size) {
        Some(bits) => Some(bits as u32),
        None => None,
    }
}

/// Returns the bits of the `f64` nearest to an integer with this sign and absolute value. The
/// result is `None` if the number rounds to infinity, which no `u64` does.
pub fn f64_of_integer(negative: bool, size: u64) -> Option<u64>
    ensures { result ≡ of_integer binary64 negative size }
{
    literal::of_integer(Precision::Double, negative, size)
}

/// Returns the bits of the `f64` that a float or integer literal denotes, or `None` if the literal
/// rounds to infinity, or is a NaN whose payload is 0 or has more than 52 bits. For any other word
/// the result has no meaning. Allocates only if the word has underscores.
///
/// # Errors
///
/// Fails with `AllocError` if the allocation fails.
pub fn f64_bits(alloc: Global, word: &str) -> Result<Option<u64>, AllocError>
    ensures value { IfOk result (λ bits. bits ≡ literal binary64 word.now) }
    ensures free { has_underscores word.now ≡ false → IsOk result }
{
    literal::literal(alloc, Precision::Double, word.as_bytes())
}
