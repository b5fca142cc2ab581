//! Reading of values from rows, whose tokens are not lexed again.
ghost use Rattle.std.specs.Prelude.{◌≡◌, ◌≢◌, ◌<◌, ◌⊎◌, ℕ, IfOk, IfErr, IfSome, IfNone, Ok, Err};
ghost use Rattle.std.specs.Prelude.{◌^◌, length};
ghost use Rattle.std.specs.Str.{IsUtf8};
ghost use Rattle.std.specs.Cow.{cow_str_bytes, cow_slice_items};
ghost use Rattle.wat_lex.specs.values.KindNumbers.{kind_number};
ghost use Rattle.wat_lex.specs.declared.lexer.kinds.TokenKind.TheVariants as token_kind;
ghost use Rattle.wat_c.specs.Answers.{Answers, OneAnswer};
ghost use Rattle.wat_c.specs.ByRow.{FindsOf, kind_of, token_of};
ghost use Rattle.wat_c.specs.Readings.{IsString, IsNamed, IsFloat, IsFloatToken};
ghost use Rattle.wat_c.specs.Readings.{ReadsString, ReadsName, ReadsFloat};
ghost use Rattle.wat_c_records.specs.Counting.{IsRow};

use crate::answers::{Answer, Refusal, give};
use crate::laws::one_answer_of_row;
use crate::readings::part_of;
use std::alloc::Global;
use std::borrow::{CowSlice, CowStr};
use std::str;
use wat_c_records::counting::Row;
use wat_c_records::rows::KindRow;
use wat_lex::lexer::{Float, FloatKind, Token, TokenKind};

/// Returns the token of a row, whose kind must be `kind`.
pub(crate) fn token_of(row: Row, kind: TokenKind) -> Token
    ensures { result ≡ record { offset = row.offset; len = row.len; kind = kind } }
{
    Token {
        offset: row.offset as usize,
        len: row.len,
        kind,
    }
}

/// Returns the value of a string literal's row, with its escapes decoded.
///
/// # Errors
///
/// Fails with `Refusal::Other` if the row is another token, and with `Refusal::Memory` if an
/// allocation fails.
pub fn string_of<'a>(alloc: Global, text: &'a str, row: Row) -> Result<CowSlice<'a, u8>, Refusal>
    requires { IsRow text.now row }
    ensures found { IfOk result (λ value.
        FindsOf IsString ReadsString text.now row (Ok (cow_slice_items value))) }
    ensures refused { IfErr result (λ refusal.
        FindsOf IsString ReadsString text.now row (Err refusal)) }
{
    wat_lex::laws::tokens();
    if row.kind.code != TokenKind::String.number() {
        return Err(Refusal::Other);
    }
    let token = token_of(row, TokenKind::String);
    Ok(token.string(alloc, text)?)
}

/// Returns the kind of an identifier or annotation by its code, or `None` for other codes.
pub(crate) fn name_kind(code: u8) -> Option<TokenKind>
    ensures some { IfSome result (λ kind. IsNamed kind × (code ≡ kind_number kind)) }
    ensures none { IfNone result ((code ≢ 7) × (code ≢ 9)) }
{
    if code == TokenKind::Id.number() {
        Some(TokenKind::Id)
    } else if code == TokenKind::Annotation.number() {
        Some(TokenKind::Annotation)
    } else {
        None
    }
}

/// Returns the name in the row of an identifier or annotation.
///
/// # Errors
///
/// Fails with `Refusal::Other` if the row is another token, with `Refusal::Fault` if the name is
/// empty or not UTF-8, and with `Refusal::Memory` if an allocation fails.
pub fn name_of<'a>(alloc: Global, text: &'a str, row: Row) -> Result<CowStr<'a>, Refusal>
    requires { IsRow text.now row }
    ensures found { IfOk result (λ name.
        FindsOf IsNamed ReadsName text.now row (Ok (cow_str_bytes name))) }
    ensures refused { IfErr result (λ refusal.
        FindsOf IsNamed ReadsName text.now row (Err refusal)) }
{
    wat_lex::laws::tokens();
    let Some(kind) = name_kind(row.kind.code) else {
        return Err(Refusal::Other);
    };
    let token = token_of(row, kind);
    token.name(alloc, text)?.map_err(Refusal::Fault)
}

/// Returns the kind of a floating-point number's row, or `None` if the row is another token.
pub(crate) fn float_kind(kind: KindRow) -> Option<FloatKind>
    ensures some { IfSome result (λ f. kind_of kind ≡ token_kind.Float f) }
    ensures none { IfNone result ((kind.code < 12) ⊎ (15 < kind.code)) }
{
    let negative = kind.sign == 2;
    let has_underscores = kind.has_underscores;
    let hex = kind.hex;
    match kind.code {
        12 => Some(FloatKind::Inf { negative }),
        13 => Some(FloatKind::Nan { negative }),
        14 => Some(FloatKind::NanVal {
            negative,
            has_underscores,
        }),
        15 => Some(FloatKind::Normal {
            has_underscores,
            hex,
        }),
        _ => None,
    }
}

/// Returns the parts of a floating-point number's row.
///
/// # Errors
///
/// Fails with `Refusal::Other` if the row is another token, and with `Refusal::Memory` if an
/// allocation fails.
pub fn float_of<'a>(alloc: Global, text: &'a str, row: Row) -> Result<Float<'a>, Refusal>
    requires { IsRow text.now row }
    ensures found { IfOk result (λ float. IsFloat (kind_of row.kind)
        × IsFloatToken text.now (token_of row) float) }
    ensures refused { IfErr result (λ refusal.
        (refusal ≢ Refusal.Absent) × ((part : ℕ) →
        FindsOf IsFloat (ReadsFloat part) text.now row (Err refusal))) }
{
    wat_lex::laws::tokens();
    let Some(kind) = float_kind(row.kind) else {
        return Err(Refusal::Other);
    };
    let token = token_of(row, TokenKind::Float(kind));
    Ok(token.float(alloc, text, kind)?)
}

/// Writes the value of a string literal's row.
#[tactic(auto, using(crate::proofs::Answering::given, crate::proofs::Answering::refused))]
fn give_string(alloc: Global, text: &str, row: Row, out: &mut [u8]) -> Answer
    requires { IsRow text.now row }
    ensures { Answers (FindsOf IsString ReadsString text.now row) out.old out.new result }
{
    match string_of(alloc, text, row) {
        Ok(value) => give(value.as_slice(), out),
        Err(refusal) => refusal.answer(),
    }
}

/// Writes the value of the string literal of a row, like `wat_string`, but without lexing the token
/// again. Fails with status 1 if the row is not a string literal, and with status 2 if an
/// allocation fails. Allocates only if the literal contains an escape.
#[unsafe(no_mangle)]
pub extern "C" fn wat_string_of(alloc: Global, text: &[u8], row: &Row, out: &mut [u8]) -> Answer
    requires utf8 { IsUtf8 text.now }
    requires short { length text.now < 2 ^ 32 }
    requires known { IsRow text.now row.now }
    ensures found { Answers (FindsOf IsString ReadsString text.now row.now)
        out.old out.new result }
    ensures one { OneAnswer (FindsOf IsString ReadsString text.now row.now) out.old }
{
    one_answer_of_row();
    let text = unsafe { str::from_utf8_unchecked(text) };
    give_string(alloc, text, *row, out)
}

/// Writes the name of a row.
#[tactic(auto, using(crate::proofs::Answering::given, crate::proofs::Answering::refused))]
fn give_name(alloc: Global, text: &str, row: Row, out: &mut [u8]) -> Answer
    requires { IsRow text.now row }
    ensures { Answers (FindsOf IsNamed ReadsName text.now row) out.old out.new result }
{
    match name_of(alloc, text, row) {
        Ok(name) => give(name.as_str().as_bytes(), out),
        Err(refusal) => refusal.answer(),
    }
}

/// Writes the name of the identifier or annotation of a row, like `wat_name`, but without lexing
/// the token again. Fails with status 1 if the row is neither, with the code of the error if the
/// name is empty or not UTF-8, and with status 2 if an allocation fails. Allocates only if the name
/// contains an escape.
#[unsafe(no_mangle)]
pub extern "C" fn wat_name_of(alloc: Global, text: &[u8], row: &Row, out: &mut [u8]) -> Answer
    requires utf8 { IsUtf8 text.now }
    requires short { length text.now < 2 ^ 32 }
    requires known { IsRow text.now row.now }
    ensures found { Answers (FindsOf IsNamed ReadsName text.now row.now)
        out.old out.new result }
    ensures one { OneAnswer (FindsOf IsNamed ReadsName text.now row.now) out.old }
{
    one_answer_of_row();
    let text = unsafe { str::from_utf8_unchecked(text) };
    give_name(alloc, text, *row, out)
}

/// Writes one part of a floating-point number's row.
#[tactic(auto, using(crate::proofs::Answering::given, crate::proofs::Answering::refused))]
fn give_float(alloc: Global, text: &str, row: Row, part: u32, out: &mut [u8]) -> Answer
    requires { IsRow text.now row }
    ensures { Answers (FindsOf IsFloat (ReadsFloat part) text.now row) out.old out.new result }
{
    match float_of(alloc, text, row) {
        Ok(float) => match part_of(&float, part) {
            Some(digits) => give(digits.as_bytes(), out),
            None => Refusal::Absent.answer(),
        },
        Err(refusal) => refusal.answer(),
    }
}

/// Writes one part of the floating-point number of a row, like `wat_float`, but without lexing the
/// token again. Fails with status 1 if the row is not a floating-point number, with status 3 if the
/// number does not have this part, and with status 2 if an allocation fails. Allocates only if the
/// number contains an underscore, or if it is hexadecimal and not a NaN.
#[unsafe(no_mangle)]
pub extern "C" fn wat_float_of(
    alloc: Global,
    text: &[u8],
    row: &Row,
    part: u32,
    out: &mut [u8],
) -> Answer
    requires utf8 { IsUtf8 text.now }
    requires short { length text.now < 2 ^ 32 }
    requires known { IsRow text.now row.now }
    ensures found { Answers (FindsOf IsFloat (ReadsFloat part) text.now row.now)
        out.old out.new result }
    ensures one { OneAnswer (FindsOf IsFloat (ReadsFloat part) text.now row.now) out.old }
{
    one_answer_of_row();
    let text = unsafe { str::from_utf8_unchecked(text) };
    give_float(alloc, text, *row, part, out)
}
