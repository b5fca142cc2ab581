//! Compilation of modules, and the error of a text that is not a module.
ghost use Rattle.std.specs.Prelude.{◌≡◌, ◌<◌, ◌^◌, ℕ, List, length, true, IfOk, IfSome, Ok};
ghost use Rattle.std.specs.Str.{IsUtf8};
ghost use Rattle.wat_lexer_parser.specs.parser.State as parser;
ghost use Rattle.wat_c.specs.Answers.{Answers, OneAnswer};
ghost use Rattle.wat_c.specs.Compiling.{Checks, Compilation, Compiles, CompilesTo, IsBinary};
ghost use Rattle.wat_c.specs.Compiling.{LengthAt, MarkedLength, OneCheck};
ghost use Rattle.wat_c.specs.inside.CompilerErrors.{GivesError, refusal_of};

use crate::answers::{Answer, Checked, Refusal, give};
use crate::laws::{one_binary, one_check};
use std::alloc::Global;
use std::str;
use wat_c_records::at::token_at;
use wat_lex::lexer::Settings;
use wat_lexer_parser::Error;
use wat_modules::{compile, compile_with_customs};

/// Compiles a module from text to binary, with a name section and custom sections if `names`.
fn compile_as(alloc: Global, text: &str, names: bool) -> Result<Vec<u8>, Error>
    requires { length text.now < 2 ^ 32 }
    ensures bytes { IfOk result (λ bytes. IsBinary names text.now bytes.items) }
    ensures all { (binary : List ℕ) → IsBinary names text.now binary →
        parser.Answers true (λ bytes. bytes.items) (Ok binary) result }
    ensures compiled { (wanted : Compilation) → CompilesTo names text.now wanted →
        parser.Answers true (λ bytes. bytes.items) wanted result }
    ensures some { (wanted : Compilation) × CompilesTo names text.now wanted }
{
    if names {
        compile_with_customs(alloc, text)
    } else {
        compile(alloc, text)
    }
}

/// Returns the reason for an error of the compiler: an allocation failure, or an error of the text.
fn refusal_of(error: &Error) -> Refusal
    ensures { result ≡ refusal_of error.now }
{
    match error.alloc_error() {
        Some(refused) => Refusal::Memory(refused),
        None => Refusal::Other,
    }
}

/// Compiles a module, and writes its binary to `out` if it fits.
fn give_binary(alloc: Global, text: &str, names: bool, out: &mut [u8]) -> Answer
    requires { length text.now < 2 ^ 32 }
    ensures { Answers (Compiles names text.now) out.old out.new result }
{
    match compile_as(alloc, text, names) {
        Ok(bytes) => give(&bytes, out),
        Err(error) => refusal_of(&error).answer(),
    }
}

/// Compiles a module from text to binary, and writes its binary to `out` if it fits. If `names` is
/// true, the binary has a name section with the identifiers of the text and the names of its
/// annotations `(@name ..)`, if it has any, and the custom sections of its annotations `(@custom
/// ..)`. Fails with status 1 if the text is not a module, if `names` is true and such an annotation
/// is ill-formed or misplaced, or if the binary has more than 4,294,967,295 bytes, and with status
/// 2 if an allocation fails. `wat_check` returns the error.
#[unsafe(no_mangle)]
pub extern "C" fn wat_compile(alloc: Global, text: &[u8], names: bool, out: &mut [u8]) -> Answer
    requires utf8 { IsUtf8 text.now }
    requires short { length text.now < 2 ^ 32 }
    ensures found { Answers (Compiles names text.now) out.old out.new result }
    ensures one { OneAnswer (Compiles names text.now) out.old }
{
    one_binary();
    let text = unsafe { str::from_utf8_unchecked(text) };
    give_binary(alloc, text, names, out)
}

/// Returns the length of the token that begins at `offset`, or 0 if none begins there.
fn token_length(text: &str, offset: usize) -> usize
    requires { length text.now < 2 ^ 32 }
    ensures { LengthAt text.now offset result }
{
    if !text.is_char_boundary(offset) {
        return 0;
    }
    let settings = Settings {
        allow: true,
        strict: true,
    };
    token_at(text, offset, settings).len as usize
}

/// Returns the number of bytes that an error of the text concerns: the length of the token at its
/// offset, or 0 for a lexical error.
fn error_length(text: &str, error: &Error) -> usize
    requires { length text.now < 2 ^ 32 }
    ensures { IfSome error.now (λ r. MarkedLength text.now r.offset r.cause result) }
{
    match error.lex_error() {
        Some(_) => 0,
        None => token_length(text, error.span().offset()),
    }
}

/// Returns an error of the compiler, and writes its message to `out` if it fits.
fn give_error(alloc: Global, text: &str, error: &Error, out: &mut [u8]) -> Checked
    requires { length text.now < 2 ^ 32 }
    ensures { GivesError text.now error.now out.old out.new result }
{
    if let Some(refused) = error.alloc_error() {
        return Checked::without(Refusal::Memory(refused));
    }
    match error.message(alloc) {
        Ok(message) => Checked::at(
            error.span().offset(),
            error_length(text, error),
            give(message.as_bytes(), out),
        ),
        Err(refused) => Checked::without(Refusal::Memory(refused)),
    }
}

/// Compiles a module, and returns the error of the text. Writes the message to `out` if it fits.
fn check(alloc: Global, text: &str, names: bool, out: &mut [u8]) -> Checked
    requires { length text.now < 2 ^ 32 }
    ensures { Checks names text.now out.old out.new result }
{
    match compile_as(alloc, text, names) {
        Ok(_) => Checked::without(Refusal::Absent),
        Err(error) => give_error(alloc, text, &error, out),
    }
}

/// Returns the error for which `wat_compile` fails with status 1, and writes its message to `out`
/// if it fits: its offset, and the length of the token there, which is 0 if no token begins there
/// and for a lexical error. Fails with status 3 if the text has no error, and with status 2 if an
/// allocation fails.
#[unsafe(no_mangle)]
pub extern "C" fn wat_check(alloc: Global, text: &[u8], names: bool, out: &mut [u8]) -> Checked
    requires utf8 { IsUtf8 text.now }
    requires short { length text.now < 2 ^ 32 }
    ensures found { Checks names text.now out.old out.new result }
    ensures one { OneCheck names text.now out.old }
{
    one_check();
    let text = unsafe { str::from_utf8_unchecked(text) };
    check(alloc, text, names, out)
}
