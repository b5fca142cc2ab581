//! Offsets at which lexing continues, for error recovery.
ghost use Rattle.std.specs.Prelude.{◌≡◌, ◌<◌, ◌^◌, ℕ, length};
ghost use Rattle.std.specs.Str.{IsCharBoundary, IsUtf8};
ghost use Rattle.wat_c.specs.Resuming.{GoesOnAt};
ghost use Rattle.wat_lex.specs.tokens.Unclosed.{AreMarks};
ghost use Rattle.wat_c_records.specs.Rows.{FoundAt, setting};
ghost use Rattle.wat_c_records.specs.declared.rows.Found.{Found as FoundRow};

use std::str;
use wat_c_records::rows::{Found, found_row};
use wat_lex::lexer::{Lexer, Settings};

/// Returns the offset at which lexing continues after the token or the lexical error at `pos`.
fn resume_at(text: &str, pos: usize, settings: Settings) -> usize
    requires short { length text.now < 2 ^ 32 }
    requires boundary { IsCharBoundary text.now pos }
    ensures goes_on { GoesOnAt (record { text = text.now; flags = settings }) pos result }
    ensures one { (place : ℕ) →
        GoesOnAt (record { text = text.now; flags = settings }) pos place → place ≡ result }
    ensures progress { pos < length text.now → pos < result }
    ensures boundary { IsCharBoundary text.now result }
{
    let lexer = Lexer::with_settings(text, settings);
    match lexer.scan(pos) {
        Ok(Some(token)) => pos + token.len as usize,
        Ok(None) => pos,
        Err(fault) => lexer.resume(pos, fault),
    }
}

/// Returns the offset at which lexing can continue after the token or the lexical error at `pos`,
/// for error recovery. The result is a char boundary, and it is greater than `pos` except at the
/// end of the text. For a token, it is the end of the token. For a lexical error, it is the end of
/// the bytes to skip, which `Lexer::resume` defines.
#[unsafe(no_mangle)]
pub extern "C" fn wat_resume(text: &[u8], pos: usize, allow: bool, strict: bool) -> usize
    requires utf8 { IsUtf8 text.now }
    requires short { length text.now < 2 ^ 32 }
    requires boundary { IsCharBoundary text.now pos }
    ensures goes_on { GoesOnAt (setting text.now allow strict) pos result }
    ensures one { (place : ℕ) →
        GoesOnAt (setting text.now allow strict) pos place → place ≡ result }
    ensures progress { pos < length text.now → pos < result }
    ensures boundary { IsCharBoundary text.now result }
{
    let text = unsafe { str::from_utf8_unchecked(text) };
    resume_at(text, pos, Settings { allow, strict })
}

/// What is at an offset, and the offset at which lexing continues after it.
#[repr(C)]
#[derive(Clone, Copy, Debug, PartialEq)]
pub struct Step {
    /// Token, end of the text, or lexical error at the offset.
    pub found: Found,
    /// Offset at which lexing continues: the end of the token, or of the bytes to skip after the
    /// error.
    pub next: usize,
}

/// Lexes the token at `pos`, and returns it with the offset at which lexing continues after it.
fn step_at(text: &str, pos: usize, settings: Settings, marks: &mut [u32]) -> Step
    requires short { length text.now < 2 ^ 32 }
    requires boundary { IsCharBoundary text.now pos }
    requires marks { AreMarks (record { text = text.now; flags = settings }) marks.old }
    ensures found { FoundAt (record { text = text.now; flags = settings }) pos result.found }
    ensures one { (row : FoundRow) →
        FoundAt (record { text = text.now; flags = settings }) pos row → row ≡ result.found }
    ensures next { GoesOnAt (record { text = text.now; flags = settings }) pos result.next }
    ensures one_next { (place : ℕ) →
        GoesOnAt (record { text = text.now; flags = settings }) pos place → place ≡ result.next }
    ensures progress { pos < length text.now → pos < result.next }
    ensures boundary { IsCharBoundary text.now result.next }
    ensures marks { AreMarks (record { text = text.now; flags = settings }) marks.new }
{
    let lexer = Lexer::with_settings(text, settings);
    match lexer.scan_with_marks(pos, marks) {
        Ok(Some(token)) => Step {
            found: found_row(pos, Ok(Some(token))),
            next: pos + token.len as usize,
        },
        Ok(None) => Step {
            found: found_row(pos, Ok(None)),
            next: pos,
        },
        Err(fault) => Step {
            found: found_row(pos, Err(fault)),
            next: lexer.resume(pos, fault),
        },
    }
}

/// Lexes the token at `pos` like `wat_scan`, and returns it with the result of `wat_resume`.
/// `marks` records unclosed block comments between calls for one text, so that a loop from error to
/// error does not search the rest of the text for the end of each of them. All marks must be 0
/// before the first call, and only this function may change them. 32 of them suffice for every
/// text.
#[unsafe(no_mangle)]
pub extern "C" fn wat_next(
    text: &[u8],
    pos: usize,
    allow: bool,
    strict: bool,
    marks: &mut [u32],
) -> Step
    requires utf8 { IsUtf8 text.now }
    requires short { length text.now < 2 ^ 32 }
    requires boundary { IsCharBoundary text.now pos }
    requires marks { AreMarks (setting text.now allow strict) marks.old }
    ensures found { FoundAt (setting text.now allow strict) pos result.found }
    ensures one { (row : FoundRow) →
        FoundAt (setting text.now allow strict) pos row → row ≡ result.found }
    ensures next { GoesOnAt (setting text.now allow strict) pos result.next }
    ensures one_next { (place : ℕ) →
        GoesOnAt (setting text.now allow strict) pos place → place ≡ result.next }
    ensures progress { pos < length text.now → pos < result.next }
    ensures boundary { IsCharBoundary text.now result.next }
    ensures marks { AreMarks (setting text.now allow strict) marks.new }
{
    let text = unsafe { str::from_utf8_unchecked(text) };
    step_at(text, pos, Settings { allow, strict }, marks)
}
