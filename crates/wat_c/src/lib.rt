//! Lexer, compiler and formatter of the WebAssembly text format as a static library for programs in
//! C and Rust.
//! `include/wat.h` documents the preconditions and the results of each function for C.
#![tactic(auto)]

ghost use Rattle.std.specs.Prelude.{◌≡◌, ◌≢◌, ◌≤◌, ◌<◌, ◌^◌, ◌↔◌, IsTrue, length, take, drop};
ghost use Rattle.std.specs.Str.{IsCharBoundary, IsUtf8};
ghost use Rattle.wat_c.specs.Answers.{Answers, OneAnswer};
ghost use Rattle.wat_c.specs.Readings.{
  Finds,
  FindsFault,
  IsString,
  IsNamed,
  IsInteger,
  IsFloat,
};
ghost use Rattle.wat_c.specs.Readings.{
  ReadsString,
  ReadsName,
  ReadsInteger,
  ReadsFloat,
  ReadsNameFault,
};
ghost use Rattle.wat_c_records.specs.Rows.{FoundAt, TokenFoundAt, Fills, OneFill, setting};
ghost use Rattle.wat_c_records.specs.declared.rows.Found.{Found as FoundRow};

pub mod answers;
mod by_place;
pub mod by_row;
pub mod comments;
pub mod compiling;
pub mod float_bits;
pub mod float_parts;
pub mod formatting;
mod laws;
pub mod looks;
pub mod messages;
pub mod numbers;
pub mod positions;
pub mod printing;
mod readings;
pub mod recovery;
pub mod version;
pub mod words;

use answers::Answer;
use by_place::{give_fault, give_float, give_integer, give_name, give_name_fault, give_string};
use laws::one_answer;
use std::alloc::Global;
use std::str;
use wat_c_records::at::{found_at, token_at};
use wat_c_records::fill::fill;
use wat_c_records::laws::one_fill;
use wat_c_records::rows::{Filled, Found, TokenRow};
use wat_lex::lexer::{Lexer, Settings};

/// Returns `true` if the bytes are valid UTF-8 and their number is at most 4,294,967,295, as the
/// other functions require.
#[unsafe(no_mangle)]
pub extern "C" fn wat_is_text(text: &[u8]) -> bool
    ensures { IsTrue result ↔ IsUtf8 text.now × (length text.now < 2 ^ 32) }
{
    text.len() <= u32::MAX as usize && str::from_utf8(text).is_ok()
}

/// Returns `true` if `pos` is a char boundary of the text: its length, or the offset of the first
/// byte of a character.
#[unsafe(no_mangle)]
pub extern "C" fn wat_is_place(text: &[u8], pos: usize) -> bool
    requires { IsUtf8 text.now }
    ensures { IsTrue result ↔ IsCharBoundary text.now pos }
{
    let text = unsafe { str::from_utf8_unchecked(text) };
    text.is_char_boundary(pos)
}

/// Lexes the token at byte `pos`. The result is a token, the end of the text, or a lexical error.
#[unsafe(no_mangle)]
pub extern "C" fn wat_scan(text: &[u8], pos: usize, allow: bool, strict: bool) -> Found
    requires utf8 { IsUtf8 text.now }
    requires short { length text.now < 2 ^ 32 }
    requires boundary { IsCharBoundary text.now pos }
    ensures found { FoundAt (setting text.now allow strict) pos result }
    ensures one { (row : FoundRow) →
        FoundAt (setting text.now allow strict) pos row → row ≡ result }
{
    let text = unsafe { str::from_utf8_unchecked(text) };
    found_at(text, pos, Settings { allow, strict })
}

/// Returns the same token as `wat_scan` without the details of an error. The result is small enough
/// to be returned to C in registers. Its length is 0 at the end of the text and at a lexical error.
#[unsafe(no_mangle)]
pub extern "C" fn wat_token_at(text: &[u8], pos: usize, allow: bool, strict: bool) -> TokenRow
    requires utf8 { IsUtf8 text.now }
    requires short { length text.now < 2 ^ 32 }
    requires boundary { IsCharBoundary text.now pos }
    ensures found { TokenFoundAt (setting text.now allow strict) pos result }
    ensures one { (row : FoundRow) →
        FoundAt (setting text.now allow strict) pos row → row.token ≡ result }
{
    let text = unsafe { str::from_utf8_unchecked(text) };
    token_at(text, pos, Settings { allow, strict })
}

/// Writes the tokens from byte `pos` on to `out`, until `out` is full, the text ends, or there is a
/// lexical error. Elements of `out` after the first `count` are unchanged.
#[unsafe(no_mangle)]
pub extern "C" fn wat_fill(
    text: &[u8],
    pos: usize,
    allow: bool,
    strict: bool,
    out: &mut [TokenRow],
) -> Filled
    requires utf8 { IsUtf8 text.now }
    requires short { length text.now < 2 ^ 32 }
    requires boundary { IsCharBoundary text.now pos }
    ensures rows { Fills (setting text.now allow strict) pos
        (length out.old) (take result.count out.new) result }
    ensures boundary { IsCharBoundary text.now result.at }
    ensures count { result.count ≤ length out.old }
    ensures rest { drop result.count out.new ≡ drop result.count out.old }
    ensures one { OneFill (setting text.now allow strict) pos (length out.old) }
{
    one_fill();
    let text = unsafe { str::from_utf8_unchecked(text) };
    fill(text, pos, Settings { allow, strict }, out)
}

/// Writes the value of the string literal at `pos`, with its escapes decoded. The value need not be
/// UTF-8. Fails with status 1 unless a string literal begins at `pos`, and with status 2 if an
/// allocation fails. Allocates only if the literal contains an escape.
#[unsafe(no_mangle)]
pub extern "C" fn wat_string(
    alloc: Global,
    text: &[u8],
    pos: usize,
    allow: bool,
    strict: bool,
    out: &mut [u8],
) -> Answer
    requires utf8 { IsUtf8 text.now }
    requires short { length text.now < 2 ^ 32 }
    requires boundary { IsCharBoundary text.now pos }
    ensures found { Answers (Finds IsString ReadsString (setting text.now allow strict) pos)
        out.old out.new result }
    ensures one { OneAnswer
        (Finds IsString ReadsString (setting text.now allow strict) pos) out.old }
{
    one_answer();
    let text = unsafe { str::from_utf8_unchecked(text) };
    give_string(alloc, text, pos, Settings { allow, strict }, out)
}

/// Writes the name of the identifier or annotation at `pos`: what follows the `$` or `@`, decoded
/// if it is a string literal. The name is valid UTF-8 and not empty. Fails with status 1 unless an
/// identifier or annotation begins at `pos`, with the code of the error if the name is empty or not
/// UTF-8, and with status 2 if an allocation fails. Allocates only if the name contains an escape.
#[unsafe(no_mangle)]
pub extern "C" fn wat_name(
    alloc: Global,
    text: &[u8],
    pos: usize,
    allow: bool,
    strict: bool,
    out: &mut [u8],
) -> Answer
    requires utf8 { IsUtf8 text.now }
    requires short { length text.now < 2 ^ 32 }
    requires boundary { IsCharBoundary text.now pos }
    ensures found { Answers (Finds IsNamed ReadsName (setting text.now allow strict) pos)
        out.old out.new result }
    ensures one { OneAnswer
        (Finds IsNamed ReadsName (setting text.now allow strict) pos) out.old }
{
    one_answer();
    let text = unsafe { str::from_utf8_unchecked(text) };
    give_name(alloc, text, pos, Settings { allow, strict }, out)
}

/// Writes the digits of the integer at `pos`, with a leading `-` if it has one, and without `+`,
/// `0x` and underscores. Fails with status 1 unless an integer begins at `pos`, and with status 2
/// if an allocation fails. Allocates only if the integer contains an underscore or `0x`.
#[unsafe(no_mangle)]
pub extern "C" fn wat_integer(
    alloc: Global,
    text: &[u8],
    pos: usize,
    allow: bool,
    strict: bool,
    out: &mut [u8],
) -> Answer
    requires utf8 { IsUtf8 text.now }
    requires short { length text.now < 2 ^ 32 }
    requires boundary { IsCharBoundary text.now pos }
    ensures found { Answers (Finds IsInteger ReadsInteger (setting text.now allow strict) pos)
        out.old out.new result }
    ensures one { OneAnswer
        (Finds IsInteger ReadsInteger (setting text.now allow strict) pos) out.old }
{
    one_answer();
    let text = unsafe { str::from_utf8_unchecked(text) };
    give_integer(alloc, text, pos, Settings { allow, strict }, out)
}

/// Writes one part of the floating-point number at `pos`, without underscores. Part 0 is the digits
/// before the decimal point, with a `-` but without `+` and `0x`. Part 1 is the digits after the
/// point, part 2 is the digits of the exponent, with a `-` but without `+`, and part 3 is the
/// hexadecimal digits of a NaN's payload. Fails with status 1 unless a floating-point number begins
/// at `pos`, with status 3 if the number does not have this part, and with status 2 if an
/// allocation fails. Allocates only if the number contains an underscore, or if it is hexadecimal
/// and not a NaN.
#[unsafe(no_mangle)]
pub extern "C" fn wat_float(
    alloc: Global,
    text: &[u8],
    pos: usize,
    allow: bool,
    strict: bool,
    part: u32,
    out: &mut [u8],
) -> Answer
    requires utf8 { IsUtf8 text.now }
    requires short { length text.now < 2 ^ 32 }
    requires boundary { IsCharBoundary text.now pos }
    ensures found { Answers (Finds IsFloat (ReadsFloat part) (setting text.now allow strict) pos)
        out.old out.new result }
    ensures one { OneAnswer
        (Finds IsFloat (ReadsFloat part) (setting text.now allow strict) pos) out.old }
{
    one_answer();
    let text = unsafe { str::from_utf8_unchecked(text) };
    give_float(alloc, text, pos, Settings { allow, strict }, part, out)
}

/// Formats the lexical error at `pos`: the message, the location, the source line, and a marker.
/// Fails with status 1 unless there is a lexical error at `pos`. Does not allocate.
#[tactic(auto, using(crate::proofs::Answering::fault_free))]
#[unsafe(no_mangle)]
pub extern "C" fn wat_fault(
    text: &[u8],
    pos: usize,
    allow: bool,
    strict: bool,
    out: &mut [u8],
) -> Answer
    requires utf8 { IsUtf8 text.now }
    requires short { length text.now < 2 ^ 32 }
    requires boundary { IsCharBoundary text.now pos }
    ensures found { Answers (FindsFault (setting text.now allow strict) pos)
        out.old out.new result }
    ensures one { OneAnswer (FindsFault (setting text.now allow strict) pos) out.old }
    ensures free { result.status ≢ 2 }
{
    one_answer();
    let text = unsafe { str::from_utf8_unchecked(text) };
    give_fault(text, pos, Settings { allow, strict }, out)
}

/// Formats the error in the name of the identifier or annotation at `pos`, in the format of
/// `wat_fault`. Fails with status 3 if the name is valid, with status 1 unless an identifier or
/// annotation begins at `pos`, and with status 2 if an allocation fails. Allocates only if the name
/// contains an escape.
#[unsafe(no_mangle)]
pub extern "C" fn wat_name_fault(
    alloc: Global,
    text: &[u8],
    pos: usize,
    allow: bool,
    strict: bool,
    out: &mut [u8],
) -> Answer
    requires utf8 { IsUtf8 text.now }
    requires short { length text.now < 2 ^ 32 }
    requires boundary { IsCharBoundary text.now pos }
    ensures found { Answers (Finds IsNamed ReadsNameFault (setting text.now allow strict) pos)
        out.old out.new result }
    ensures one { OneAnswer
        (Finds IsNamed ReadsNameFault (setting text.now allow strict) pos) out.old }
{
    one_answer();
    let text = unsafe { str::from_utf8_unchecked(text) };
    give_name_fault(alloc, text, pos, Settings { allow, strict }, out)
}
