//! Formatting of errors with a message of the caller.
ghost use Rattle.std.specs.Prelude.{
  ◌≡◌,
  ◌≤◌,
  ◌<◌,
  ◌+◌,
  ◌^◌,
  ◌++◌,
  ℕ,
  List,
  [],
  length,
  codes,
  true,
  false,
  IfOk,
};
ghost use Rattle.std.specs.Str.{IsUtf8};
ghost use Rattle.wat_lex.specs.errors.Rendering.{Excerpt, excerpt, rendered_location_in};
ghost use Rattle.wat_lex.specs.errors.Rendering.{rendered_location};
ghost use Rattle.wat_lex.specs.declared.lexer.faults.LexError.TheVariants.{EmptyId};
ghost use Rattle.wat_c.specs.Answers.{Answers, OneAnswer};
ghost use Rattle.wat_c.specs.Printing.{Prints, file_name, printed_in};

use crate::answers::{Answer, Refusal, give};
use crate::laws::one_print;
use crate::messages::location_length;
use std::alloc::{AllocError, Global};
use std::str;
use wat_lex::error::Rendered;
use wat_lex::lexer::{LexError, LexFault};

/// Length in bytes of the message "empty identifier". No message of a lexical error is shorter.
const SHORTEST: usize = 16;

/// Returns an error at `offset` with the message "empty identifier", in whose formatted text
/// another message replaces this one.
fn rendered_at<'a>(text: &'a str, offset: usize) -> Rendered<'a>
    ensures { result ≡ (text.now, record { offset = offset; error = EmptyId }) }
{
    let error = LexError::EmptyId;
    Rendered::new(text, LexFault { offset, error })
}

/// Formats an error into `out`, which must have the length of the result. Formats the error of
/// `rendered_at` to the end of `out` first, and then writes the message over the message of that
/// error.
fn write_long(text: &str, offset: usize, message: &[u8], out: &mut [u8])
    requires long { 16 ≤ length message.now }
    requires room { length out.old
        ≡ length message.now + length (rendered_location (excerpt text.now offset)) }
    ensures { out.new ≡ printed_in text.now offset message.now [] }
{
    let before = message.len() - SHORTEST;
    rendered_at(text, offset).write_to(&mut out[before..]);
    out[..message.len()].copy_from_slice(message);
}

/// Formats an error without the name of a file. Its message must have at least 16 bytes. Does not
/// allocate.
fn give_long(text: &str, offset: usize, message: &[u8], out: &mut [u8]) -> Answer
    requires short { length text.now < 2 ^ 32 }
    requires long { 16 ≤ length message.now }
    ensures { Answers (Prints text.now offset message.now []) out.old out.new result }
{
    let needed = message.len() + location_length(text, offset);
    let answer = Answer::of_len(needed);
    if needed <= out.len() {
        write_long(text, offset, message, &mut out[..needed]);
    }
    answer
}

/// Returns what is before and what is after the name of the file in the formatted error of
/// `rendered_at`, without its message.
fn split_at_name(shown: &[u8]) -> (&[u8], &[u8])
    requires { (e : Excerpt) × (shown.now ≡ codes "empty identifier" ++ rendered_location e) }
    ensures { (e : Excerpt) (name : List ℕ) →
        shown.now ≡ codes "empty identifier" ++ rendered_location e →
        result.0.now ++ (name ++ result.1.now) ≡ rendered_location_in name e }
{
    if shown[16] == b'\n' {
        (&shown[16..26], &shown[32..])
    } else {
        (&shown[16..20], &shown[26..])
    }
}

/// Returns the name of the file in a formatted error: `<anon>` if `file` is empty.
fn file_name(file: &[u8]) -> &[u8]
    ensures { result.now ≡ file_name file.now }
{
    if file.is_empty() {
        "<anon>".as_bytes()
    } else {
        file
    }
}

/// Formats the error of `rendered_at` into a new vector.
fn shown_at(alloc: Global, text: &str, offset: usize) -> Result<Vec<u8>, AllocError>
    requires short { length text.now < 2 ^ 32 }
    ensures { IfOk result (λ shown. shown.items
        ≡ codes "empty identifier" ++ rendered_location (excerpt text.now offset)) }
{
    let rendered = rendered_at(text, offset);
    let mut shown = Vec::from_elem(alloc, 0, rendered.length())?;
    rendered.write_to(&mut shown);
    Ok(shown)
}

/// Formats an error into a new vector.
fn printed(
    alloc: Global,
    text: &str,
    offset: usize,
    message: &[u8],
    file: &[u8],
) -> Result<Vec<u8>, AllocError>
    requires short { length text.now < 2 ^ 32 }
    ensures { IfOk result (λ all. all.items
        ≡ printed_in text.now offset message.now file.now) }
{
    let shown = shown_at(alloc, text, offset)?;
    let (before, after) = split_at_name(&shown);
    let mut all = Vec::new(alloc);
    all.extend_from_slice(message)?;
    all.extend_from_slice(before)?;
    all.extend_from_slice(file_name(file))?;
    all.extend_from_slice(after)?;
    Ok(all)
}

/// Returns `true` if formatting the error needs a vector: if the message has fewer than 16 bytes,
/// or the file has a name.
fn takes_memory(message: &[u8], file: &[u8]) -> bool
    ensures none { result ≡ false → (16 ≤ length message.now) × (file.now ≡ []) }
    ensures some { result ≡ true → 16 ≤ length message.now → file.now ≡ [] → ⊥ }
{
    message.len() < SHORTEST || !file.is_empty()
}

/// Formats an error into `out`.
fn give_printed(
    alloc: Global,
    text: &str,
    offset: usize,
    message: &[u8],
    file: &[u8],
    out: &mut [u8],
) -> Answer
    requires short { length text.now < 2 ^ 32 }
    ensures { Answers (Prints text.now offset message.now file.now) out.old out.new result }
{
    if !takes_memory(message, file) {
        return give_long(text, offset, message, out);
    }
    match printed(alloc, text, offset, message, file) {
        Ok(all) => give(&all, out),
        Err(refused) => Refusal::Memory(refused).answer(),
    }
}

/// Formats an error of the caller in the format of `wat_fault`: `message`, the location of the byte
/// at `offset`, its source line, and a marker. `file` replaces `<anon>` unless it is empty. Fails
/// with status 2 if an allocation fails. Allocates only if `file` is not empty or `message` has
/// fewer than 16 bytes.
#[unsafe(no_mangle)]
pub extern "C" fn wat_print(
    alloc: Global,
    text: &[u8],
    offset: usize,
    message: &[u8],
    file: &[u8],
    out: &mut [u8],
) -> Answer
    requires utf8 { IsUtf8 text.now }
    requires short { length text.now < 2 ^ 32 }
    ensures found { Answers (Prints text.now offset message.now file.now)
        out.old out.new result }
    ensures one { OneAnswer (Prints text.now offset message.now file.now) out.old }
{
    one_print();
    let text = unsafe { str::from_utf8_unchecked(text) };
    give_printed(alloc, text, offset, message, file, out)
}
