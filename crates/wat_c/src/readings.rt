//! Reading of values at an offset of a text.
ghost use Rattle.std.specs.Prelude.{◌≡◌, ◌≢◌, ◌<◌, ◌^◌, ℕ, length, IfOk, IfErr, Ok, Err};
ghost use Rattle.std.specs.Cow.{cow_str_bytes, cow_slice_items};
ghost use Rattle.wat_lex.specs.values.NumberValues.{integer_digits};
ghost use Rattle.std.specs.Option.{option_map};
ghost use Rattle.std.specs.Str.{IsCharBoundary};
ghost use Rattle.wat_c.specs.Readings.{Finds, IsString, IsNamed, IsInteger, IsFloat};
ghost use Rattle.wat_c.specs.Readings.{
  ReadsString,
  ReadsName,
  ReadsInteger,
  ReadsFloat,
  FloatAt,
  part_of,
};
ghost use Rattle.wat_c.specs.Readings.{FindsFault, ReadsNameFault, shown_fault};

use crate::answers::Refusal;
use std::alloc::{AllocError, Global};
use std::borrow::{CowSlice, CowStr};
use wat_lex::lexer::{Float, Integer, LexFault, Lexer, Settings, TokenKind};

impl From<AllocError> for Refusal {
    ghost use Rattle.wat_c.specs.declared.answers.Refusal.TheVariants.{Memory};

    ghost from_gives = { λ refused r. r ≡ Memory refused };

    fn from(refused: AllocError) -> Refusal {
        Refusal::Memory(refused)
    }
}

/// Reads the value of the string literal at `pos`, with its escapes decoded.
///
/// # Errors
///
/// Fails with `Refusal::Other` unless a string literal begins at `pos`, and with `Refusal::Memory`
/// if an allocation fails.
pub fn string_at<'a>(
    alloc: Global,
    text: &'a str,
    pos: usize,
    settings: Settings,
) -> Result<CowSlice<'a, u8>, Refusal>
    requires short { length text.now < 2 ^ 32 }
    requires boundary { IsCharBoundary text.now pos }
    ensures found { IfOk result (λ value. Finds IsString ReadsString
        (record { text = text.now; flags = settings }) pos (Ok (cow_slice_items value))) }
    ensures refused { IfErr result (λ refusal. Finds IsString ReadsString
        (record { text = text.now; flags = settings }) pos (Err refusal)) }
{
    let Ok(Some(token)) = Lexer::with_settings(text, settings).scan(pos) else {
        return Err(Refusal::Other);
    };
    match token.kind {
        TokenKind::String => Ok(token.string(alloc, text)?),
        _ => Err(Refusal::Other),
    }
}

/// Reads the name of the identifier or annotation at `pos`.
///
/// # Errors
///
/// Fails with `Refusal::Other` unless an identifier or annotation begins at `pos`, with
/// `Refusal::Fault` if the name is empty or not UTF-8, and with `Refusal::Memory` if an allocation
/// fails.
pub fn name_at<'a>(
    alloc: Global,
    text: &'a str,
    pos: usize,
    settings: Settings,
) -> Result<CowStr<'a>, Refusal>
    requires short { length text.now < 2 ^ 32 }
    requires boundary { IsCharBoundary text.now pos }
    ensures found { IfOk result (λ name. Finds IsNamed ReadsName
        (record { text = text.now; flags = settings }) pos (Ok (cow_str_bytes name))) }
    ensures refused { IfErr result (λ refusal. Finds IsNamed ReadsName
        (record { text = text.now; flags = settings }) pos (Err refusal)) }
{
    let Ok(Some(token)) = Lexer::with_settings(text, settings).scan(pos) else {
        return Err(Refusal::Other);
    };
    match token.kind {
        TokenKind::Id | TokenKind::Annotation => {
            token.name(alloc, text)?.map_err(Refusal::Fault)
        }
        _ => Err(Refusal::Other),
    }
}

/// Reads the digits of the integer at `pos`, with a leading `-` if it has one.
///
/// # Errors
///
/// Fails with `Refusal::Other` unless an integer begins at `pos`, and with `Refusal::Memory` if an
/// allocation fails.
#[tactic(auto, using(crate::proofs::Texts::bytes_of_text))]
pub fn integer_at<'a>(
    alloc: Global,
    text: &'a str,
    pos: usize,
    settings: Settings,
) -> Result<Integer<'a>, Refusal>
    requires short { length text.now < 2 ^ 32 }
    requires boundary { IsCharBoundary text.now pos }
    ensures found { IfOk result (λ integer. Finds IsInteger ReadsInteger
        (record { text = text.now; flags = settings }) pos (Ok (integer_digits integer))) }
    ensures refused { IfErr result (λ refusal. Finds IsInteger ReadsInteger
        (record { text = text.now; flags = settings }) pos (Err refusal)) }
{
    let Ok(Some(token)) = Lexer::with_settings(text, settings).scan(pos) else {
        return Err(Refusal::Other);
    };
    match token.kind {
        TokenKind::Integer(kind) => Ok(token.integer(alloc, text, kind)?),
        _ => Err(Refusal::Other),
    }
}

/// Reads the parts of the floating-point number at `pos`.
///
/// # Errors
///
/// Fails with `Refusal::Other` unless a floating-point number begins at `pos`, and with
/// `Refusal::Memory` if an allocation fails.
pub fn float_at<'a>(
    alloc: Global,
    text: &'a str,
    pos: usize,
    settings: Settings,
) -> Result<Float<'a>, Refusal>
    requires short { length text.now < 2 ^ 32 }
    requires boundary { IsCharBoundary text.now pos }
    ensures found { IfOk result (FloatAt (record { text = text.now; flags = settings }) pos) }
    ensures refused { IfErr result (λ refusal.
        (refusal ≢ Refusal.Absent) × ((part : ℕ) → Finds IsFloat (ReadsFloat part)
        (record { text = text.now; flags = settings }) pos (Err refusal))) }
{
    let Ok(Some(token)) = Lexer::with_settings(text, settings).scan(pos) else {
        return Err(Refusal::Other);
    };
    match token.kind {
        TokenKind::Float(kind) => Ok(token.float(alloc, text, kind)?),
        _ => Err(Refusal::Other),
    }
}

/// Returns one part of a floating-point number, or `None` if the number does not have it. Part 0 is
/// the digits before the decimal point, 1 is the digits after it, 2 is the digits of the exponent,
/// and 3 is the hexadecimal digits of a NaN's payload.
pub fn part_of<'s>(float: &'s Float<'_>, part: u32) -> Option<&'s str>
    ensures { option_map (λ r. r.now) result ≡ part_of part float.now }
{
    match (part, float) {
        (0, Float::Val { integral, .. }) => Some(integral.as_str()),
        (1, Float::Val { fractional, .. }) => fractional.as_ref().map(|digits| digits.as_str()),
        (2, Float::Val { exponent, .. }) => exponent.as_ref().map(|digits| digits.as_str()),
        (3, Float::Nan { val, .. }) => val.as_ref().map(|digits| digits.as_str()),
        _ => None,
    }
}

/// Returns the lexical error at `pos`, or `Refusal::Other` if there is none.
pub fn fault_at(text: &str, pos: usize, settings: Settings) -> Result<LexFault, Refusal>
    requires short { length text.now < 2 ^ 32 }
    requires boundary { IsCharBoundary text.now pos }
    ensures found { IfOk result (λ fault. FindsFault
        (record { text = text.now; flags = settings }) pos (Ok (shown_fault text.now fault))) }
    ensures refused { IfErr result (λ refusal. FindsFault
        (record { text = text.now; flags = settings }) pos (Err refusal)) }
{
    match Lexer::with_settings(text, settings).scan(pos) {
        Ok(_) => Err(Refusal::Other),
        Err(fault) => Ok(fault),
    }
}

/// Returns the error in the name of the identifier or annotation at `pos`, with the offset of its
/// token.
///
/// # Errors
///
/// Fails with `Refusal::Absent` if the name is valid, with `Refusal::Other` unless an identifier or
/// annotation begins at `pos`, and with `Refusal::Memory` if an allocation fails.
pub fn name_fault_at(
    alloc: Global,
    text: &str,
    pos: usize,
    settings: Settings,
) -> Result<LexFault, Refusal>
    requires short { length text.now < 2 ^ 32 }
    requires boundary { IsCharBoundary text.now pos }
    ensures found { IfOk result (λ fault. Finds IsNamed ReadsNameFault
        (record { text = text.now; flags = settings }) pos (Ok (shown_fault text.now fault))) }
    ensures refused { IfErr result (λ refusal. Finds IsNamed ReadsNameFault
        (record { text = text.now; flags = settings }) pos (Err refusal)) }
{
    let Ok(Some(token)) = Lexer::with_settings(text, settings).scan(pos) else {
        return Err(Refusal::Other);
    };
    match token.kind {
        TokenKind::Id | TokenKind::Annotation => {}
        _ => return Err(Refusal::Other),
    }
    match token.name(alloc, text)? {
        Ok(_) => Err(Refusal::Absent),
        Err(error) => {
            let offset = token.offset;
            Ok(LexFault { offset, error })
        }
    }
}
