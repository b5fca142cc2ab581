//! Messages of lexical errors.
ghost use Rattle.std.specs.Prelude.{◌≡◌, ◌≢◌, ◌<◌, ◌^◌, length, Ok};
ghost use Rattle.wat_lex.specs.errors.Messages.{message};
ghost use Rattle.wat_lex.specs.errors.Rendering.{excerpt, rendered_location};
ghost use Rattle.wat_c.specs.Answers.{answer_of, left_of};
ghost use Rattle.wat_c.specs.FaultMessages.{FaultsAreKnown, char_of, expected, error_of_codes};
ghost use Rattle.wat_c.specs.FaultMessages.{message_result};

use crate::answers::{Answer, Refusal};
use crate::laws::faults_are_known;
use wat_lex::error::Rendered;
use wat_lex::lexer::{LexError, LexFault};

/// Returns the error for a required character and the one found instead, or `None` if one of them
/// is not a Unicode scalar value.
fn expected(wanted: u32, found: u32) -> Option<LexError>
    ensures { result ≡ expected (char_of wanted) (char_of found) }
{
    let wanted = char_of(wanted)?;
    let found = char_of(found)?;
    Some(LexError::Expected { wanted, found })
}

/// Returns the character of a Unicode scalar value, or `None` for other integers.
fn char_of(number: u32) -> Option<char>
    ensures { result ≡ char_of number }
{
    char::from_u32(number)
}

/// Returns the error with this code and these characters. Returns `None` if `code` is not the code
/// of an error, or if the error contains a character and the argument for it is not a Unicode
/// scalar value.
fn fault_of(code: u32, found: u32, wanted: u32) -> Option<LexError>
    ensures { result ≡ error_of_codes code found wanted }
{
    match code {
        101 => Some(LexError::DanglingBlockComment),
        102 => Some(LexError::Unexpected(char_of(found)?)),
        103 => Some(LexError::InvalidStringElement(char_of(found)?)),
        104 => Some(LexError::InvalidStringEscape(char_of(found)?)),
        105 => Some(LexError::InvalidHexDigit(char_of(found)?)),
        106 => Some(LexError::InvalidDigit(char_of(found)?)),
        107 => expected(wanted, found),
        108 => Some(LexError::UnexpectedEof),
        109 => Some(LexError::NumberTooBig),
        110 => Some(LexError::InvalidUnicodeValue(found)),
        111 => Some(LexError::LoneUnderscore),
        112 => Some(LexError::ConfusingUnicode(char_of(found)?)),
        113 => Some(LexError::InvalidUtf8Id),
        114 => Some(LexError::EmptyId),
        115 => Some(LexError::EmptyAnnotation),
        _ => None,
    }
}

/// Returns the length of what follows the message in a formatted error: the location, the source
/// line and the marker. It does not depend on the message.
pub fn location_length(text: &str, offset: usize) -> usize
    requires { length text.now < 2 ^ 32 }
    ensures { result ≡ length (rendered_location (excerpt text.now offset)) }
{
    let error = LexError::EmptyId;
    Rendered::new(text, LexFault { offset, error }).length() - "empty identifier".len()
}

/// Writes the message of an error to the front of `out` if it fits, and returns its length.
fn give_message(error: LexError, out: &mut [u8]) -> Answer
    ensures known { result ≡ answer_of (Ok (message error)) }
    ensures left { out.new ≡ left_of out.old (Ok (message error)) }
{
    let rendered = Rendered::new("", LexFault { offset: 0, error });
    let needed = rendered.length() - location_length("", 0);
    let answer = Answer::of_len(needed);
    if needed <= out.len() {
        rendered.write_to(&mut out[..needed]);
    }
    answer
}

/// Writes the message of an error, such as "invalid string escape 'q'", given the code of the error
/// and its characters, as in `Found`. Fails with status 1 if `fault` is not the code of an error,
/// or if the message contains `found` or `wanted` as a character and the argument is not a Unicode
/// scalar value. Does not allocate.
#[unsafe(no_mangle)]
pub extern "C" fn wat_message(fault: u32, found: u32, wanted: u32, out: &mut [u8]) -> Answer
    ensures known { result ≡ answer_of (message_result (error_of_codes fault found wanted)) }
    ensures left { out.new ≡ left_of out.old (message_result (error_of_codes fault found wanted)) }
    ensures each { FaultsAreKnown }
{
    faults_are_known();
    match fault_of(fault, found, wanted) {
        Some(error) => give_message(error, out),
        None => Refusal::Other.answer(),
    }
}
