//! Results of the readers by offset, written to a buffer of the caller.
ghost use Rattle.std.specs.Prelude.{◌≡◌, ◌<◌, ◌^◌, length, Ok};
ghost use Rattle.std.specs.Str.{IsCharBoundary};
ghost use Rattle.wat_c.specs.Answers.{Answers, answer_of, left_of};
ghost use Rattle.wat_c.specs.Readings.{FindsFault, ReadsNameFault, shown_fault};
ghost use Rattle.wat_c.specs.Readings.{Finds, IsString, IsNamed, IsInteger, IsFloat};
ghost use Rattle.wat_c.specs.Readings.{ReadsString, ReadsName, ReadsInteger, ReadsFloat};

use crate::answers::{Answer, Refusal, give};
use crate::readings::{fault_at, float_at, integer_at, name_at, name_fault_at, part_of, string_at};
use std::alloc::Global;
use wat_lex::error::Rendered;
use wat_lex::lexer::{LexFault, Settings};

/// Writes the value of the string literal at `pos`.
#[tactic(auto, using(crate::proofs::Answering::given, crate::proofs::Answering::refused))]
pub fn give_string(
    alloc: Global,
    text: &str,
    pos: usize,
    settings: Settings,
    out: &mut [u8],
) -> Answer
    requires short { length text.now < 2 ^ 32 }
    requires boundary { IsCharBoundary text.now pos }
    ensures { Answers (Finds IsString ReadsString
        (record { text = text.now; flags = settings }) pos) out.old out.new result }
{
    match string_at(alloc, text, pos, settings) {
        Ok(value) => give(value.as_slice(), out),
        Err(refusal) => refusal.answer(),
    }
}

/// Writes the name of the identifier or annotation at `pos`.
#[tactic(auto, using(crate::proofs::Answering::given, crate::proofs::Answering::refused))]
pub fn give_name(
    alloc: Global,
    text: &str,
    pos: usize,
    settings: Settings,
    out: &mut [u8],
) -> Answer
    requires short { length text.now < 2 ^ 32 }
    requires boundary { IsCharBoundary text.now pos }
    ensures { Answers (Finds IsNamed ReadsName
        (record { text = text.now; flags = settings }) pos) out.old out.new result }
{
    match name_at(alloc, text, pos, settings) {
        Ok(name) => give(name.as_str().as_bytes(), out),
        Err(refusal) => refusal.answer(),
    }
}

/// Writes the digits of the integer at `pos`, with a leading `-` if it has one.
#[tactic(auto, using(crate::proofs::Answering::given, crate::proofs::Answering::refused))]
pub fn give_integer(
    alloc: Global,
    text: &str,
    pos: usize,
    settings: Settings,
    out: &mut [u8],
) -> Answer
    requires short { length text.now < 2 ^ 32 }
    requires boundary { IsCharBoundary text.now pos }
    ensures { Answers (Finds IsInteger ReadsInteger
        (record { text = text.now; flags = settings }) pos) out.old out.new result }
{
    match integer_at(alloc, text, pos, settings) {
        Ok(integer) => {
            let (digits, _) = integer.val();
            give(digits.as_bytes(), out)
        }
        Err(refusal) => refusal.answer(),
    }
}

/// Writes one part of the floating-point number at `pos`, which `part` selects.
#[tactic(auto, using(crate::proofs::Answering::given, crate::proofs::Answering::refused))]
pub fn give_float(
    alloc: Global,
    text: &str,
    pos: usize,
    settings: Settings,
    part: u32,
    out: &mut [u8],
) -> Answer
    requires short { length text.now < 2 ^ 32 }
    requires boundary { IsCharBoundary text.now pos }
    ensures { Answers (Finds IsFloat (ReadsFloat part)
        (record { text = text.now; flags = settings }) pos) out.old out.new result }
{
    match float_at(alloc, text, pos, settings) {
        Ok(float) => match part_of(&float, part) {
            Some(digits) => give(digits.as_bytes(), out),
            None => Refusal::Absent.answer(),
        },
        Err(refusal) => refusal.answer(),
    }
}

/// Formats the lexical error at `pos`.
#[tactic(auto, using(crate::proofs::Answering::refused))]
pub fn give_fault(text: &str, pos: usize, settings: Settings, out: &mut [u8]) -> Answer
    requires short { length text.now < 2 ^ 32 }
    requires boundary { IsCharBoundary text.now pos }
    ensures { Answers (FindsFault
        (record { text = text.now; flags = settings }) pos) out.old out.new result }
{
    match fault_at(text, pos, settings) {
        Ok(fault) => give_shown(text, fault, out),
        Err(refusal) => refusal.answer(),
    }
}

/// Formats the error in the name of the identifier or annotation at `pos`.
#[tactic(auto, using(crate::proofs::Answering::refused))]
pub fn give_name_fault(
    alloc: Global,
    text: &str,
    pos: usize,
    settings: Settings,
    out: &mut [u8],
) -> Answer
    requires short { length text.now < 2 ^ 32 }
    requires boundary { IsCharBoundary text.now pos }
    ensures { Answers (Finds IsNamed ReadsNameFault
        (record { text = text.now; flags = settings }) pos) out.old out.new result }
{
    match name_fault_at(alloc, text, pos, settings) {
        Ok(fault) => give_shown(text, fault, out),
        Err(refusal) => refusal.answer(),
    }
}

/// Formats an error into `out` if it fits, and returns its length. Does not allocate.
fn give_shown(text: &str, fault: LexFault, out: &mut [u8]) -> Answer
    requires { length text.now < 2 ^ 32 }
    ensures known { result ≡ answer_of (Ok (shown_fault text.now fault)) }
    ensures left { out.new ≡ left_of out.old (Ok (shown_fault text.now fault)) }
{
    let rendered = Rendered::new(text, fault);
    let needed = rendered.length();
    if needed <= out.len() {
        rendered.write_to(out);
    }
    Answer::of_len(needed)
}
