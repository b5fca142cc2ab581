//! Scanning of strings and their escapes.
ghost use Rattle.std.specs.Prelude.{◌≡◌, ◌≢◌, ◌≤◌, ◌<◌, ◌+◌, ◌*◌, ◌^◌, ◌∷◌, [], true, slice_index};
ghost use Rattle.std.specs.Prelude.{IfErr, IfOk};
ghost use Rattle.std.specs.Bool.{MatchBool};
ghost use Rattle.std.specs.Str.{IsUtf8};
ghost use Rattle.std.specs.Str.Iter.{chars_rest};
ghost use Rattle.std.specs.Char.{digit_value};
ghost use Rattle.wat_lex.specs.declared.lexer.faults.LexError.TheVariants.{NumberTooBig};
ghost use Rattle.wat_lex.specs.grammar.Classes.{is_hex};
ghost use Rattle.wat_lex.specs.grammar.Strings.{letter_value, is_control};
ghost use Rattle.wat_lex.specs.inside.ScannedStrings.{Escaped, escape_bytes, Breaks, IsRowValue};
ghost use Rattle.wat_lex.specs.inside.ScannedStrings.{Ends, BeginsByteEscape, ElementTaken};
ghost use Rattle.wat_lex.specs.inside.ScannedStrings.{BeginsLetterEscape, BeginsPunctuation};
ghost use Rattle.wat_lex.specs.inside.ScannedStrings.{StringTaken, StringFaultFound};

use crate::lexer::faults::{LexError, LexFault};
use crate::lexer::scan::classes::{is_confusing, is_hex, is_hex_digit};
use crate::lexer::scan::plain::{is_plain, plain_len};
use crate::lexer::settings::Settings;
use std::str::Chars;

/// A lexical error in a string.
#[derive(Clone, Copy)]
pub struct Broken {
    /// Number of bytes from the offset at which the error is reported to the end of the text.
    pub left: usize,
    pub error: LexError,
}

/// The value of an escape.
#[derive(Clone, Copy)]
pub enum EscapeValue {
    /// The byte of two hexadecimal digits, or of a letter.
    Byte(u8),
    /// The character of a number in `\u{..}`.
    Scalar(char),
}

/// Returns `true` for a control character: below U+0020, or U+007F.
fn is_control(c: char) -> bool
    ensures { result ≡ is_control c }
{
    (c as u32) < 0x20 || c as u32 == 0x7f
}

/// Returns the byte that a character after a backslash stands for, if it is one of `"`, `'`, `\`,
/// `t`, `n` and `r`.
pub fn letter(c: char) -> Option<u8>
    ensures { result ≡ letter_value c }
{
    match c {
        '"' => Some(b'"'),
        '\'' => Some(b'\''),
        '\\' => Some(b'\\'),
        't' => Some(b'\t'),
        'n' => Some(b'\n'),
        'r' => Some(b'\r'),
        _ => None,
    }
}

/// Returns the value of a hexadecimal digit.
pub fn hex_digit(c: char) -> u32
    requires { is_hex c ≡ true }
    ensures value { result ≡ digit_value c }
    ensures small { result < 16 }
{
    match c {
        'a'..='f' => c as u32 - 87,
        'A'..='F' => c as u32 - 55,
        _ => c as u32 - 48,
    }
}

/// Returns a lexical error that is reported `left` bytes before the end of the text.
fn string_error_at<T>(left: usize, error: LexError) -> Result<T, Broken>
    ensures { result ≡ Err (record { left = left; error = error }) }
{
    Err(Broken { left, error })
}

/// Parses the second hexadecimal digit of an escape whose first one is `first`.
fn second(it: &mut Chars<'_>, first: char, flags: Settings) -> Result<EscapeValue, Broken>
    requires utf8 { IsUtf8 (chars_rest it.old) }
    requires hex { is_hex first ≡ true }
    ensures ok { IfOk result (λ e.
        Escaped flags (92 ∷ first ∷ [])
        (chars_rest it.old) (chars_rest it.new) (escape_bytes e)) }
    ensures err { IfErr result (Breaks flags (92 ∷ first ∷ []) (chars_rest it.old)) }
{
    let left = it.as_str().len();
    let Some(c) = it.next() else {
        return string_error_at(0, LexError::UnexpectedEof);
    };
    if !is_hex(c) {
        return string_error_at(left, LexError::InvalidHexDigit(c));
    }
    let value = 16 * hex_digit(first) + hex_digit(c);
    Ok(EscapeValue::Byte(value as u8))
}

/// Returns the character of the number in `\u{..}`, or an error if its digits end in an underscore
/// or if it is not a Unicode scalar value. The error is reported `last` bytes before the end of the
/// text.
fn row_value(n: u32, underscore: bool, last: usize) -> Result<char, Broken>
    ensures { IsRowValue n underscore last result }
{
    if underscore {
        return string_error_at(last, LexError::LoneUnderscore);
    }
    match char::from_u32(n) {
        Some(c) => Ok(c),
        None => string_error_at(last, LexError::InvalidUnicodeValue(n)),
    }
}

/// Returns the escape of a character, or an error if the digits are followed by a character other
/// than `}`.
fn closing_brace(c: char, left: usize, value: char) -> Result<EscapeValue, Broken>
    ensures { Ends c left value result }
{
    if c != '}' {
        let error = LexError::Expected {
            wanted: '}',
            found: c,
        };
        return string_error_at(left, error);
    }
    Ok(EscapeValue::Scalar(value))
}

/// Returns a number with a hexadecimal digit appended, or an error if it is 2^32 or more.
fn with_digit(n: u32, digit: char, left: usize) -> Result<u32, Broken>
    requires { is_hex digit ≡ true }
    ensures ok { IfOk result (λ m. m ≡ n * 16 + digit_value digit) }
    ensures err { IfErr result (λ broken.
        (2 ^ 32 ≤ n * 16 + digit_value digit)
        × (broken ≡ record { left = left; error = NumberTooBig })) }
{
    let wide = n as u64 * 16 + hex_digit(digit) as u64;
    if wide >= 0x1_0000_0000 {
        return string_error_at(left, LexError::NumberTooBig);
    }
    Ok(wide as u32)
}

/// Parses an escape `\u{..}` after its first digit.
fn number(it: &mut Chars<'_>, first: char, flags: Settings) -> Result<EscapeValue, Broken>
    requires utf8 { IsUtf8 (chars_rest it.old) }
    requires hex { is_hex first ≡ true }
    ensures ok { IfOk result (λ e.
        Escaped flags (92 ∷ 117 ∷ 123 ∷ first ∷ [])
        (chars_rest it.old) (chars_rest it.new) (escape_bytes e)) }
    ensures err { IfErr result (Breaks flags (92 ∷ 117 ∷ 123 ∷ first ∷ []) (chars_rest it.old)) }
{
    let mut n = hex_digit(first);
    let mut underscore = false;
    let mut last = 0usize;
    'row: loop {
        let left = it.as_str().len();
        let Some(c) = it.next() else {
            row_value(n, underscore, last)?;
            return string_error_at(0, LexError::UnexpectedEof);
        };
        if c == '_' && underscore && flags.strict {
            return string_error_at(left, LexError::LoneUnderscore);
        }
        if is_hex(c) {
            n = with_digit(n, c, left)?;
        } else if c != '_' {
            return closing_brace(c, left, row_value(n, underscore, last)?);
        }
        underscore = c == '_';
        last = left;
    }
}

/// Parses an escape `\u{..}` after its `\u{`.
fn braced_number(it: &mut Chars<'_>, flags: Settings) -> Result<EscapeValue, Broken>
    requires utf8 { IsUtf8 (chars_rest it.old) }
    ensures ok { IfOk result (λ e.
        Escaped flags (92 ∷ 117 ∷ 123 ∷ [])
        (chars_rest it.old) (chars_rest it.new) (escape_bytes e)) }
    ensures err { IfErr result (Breaks flags (92 ∷ 117 ∷ 123 ∷ []) (chars_rest it.old)) }
{
    let left = it.as_str().len();
    let Some(c) = it.next() else {
        return string_error_at(0, LexError::UnexpectedEof);
    };
    if !is_hex(c) {
        return string_error_at(left, LexError::InvalidHexDigit(c));
    }
    number(it, c, flags)
}

/// Parses an escape `\u{..}` after its `\u`.
fn braced(it: &mut Chars<'_>, flags: Settings) -> Result<EscapeValue, Broken>
    requires utf8 { IsUtf8 (chars_rest it.old) }
    ensures ok { IfOk result (λ e.
        Escaped flags (92 ∷ 117 ∷ [])
        (chars_rest it.old) (chars_rest it.new) (escape_bytes e)) }
    ensures err { IfErr result (Breaks flags (92 ∷ 117 ∷ []) (chars_rest it.old)) }
{
    let left = it.as_str().len();
    let Some(c) = it.next() else {
        return string_error_at(0, LexError::UnexpectedEof);
    };
    if c != '{' {
        let error = LexError::Expected {
            wanted: '{',
            found: c,
        };
        return string_error_at(left, error);
    }
    braced_number(it, flags)
}

/// Parses an escape after its backslash.
pub fn escape(it: &mut Chars<'_>, flags: Settings) -> Result<EscapeValue, Broken>
    requires utf8 { IsUtf8 (chars_rest it.old) }
    ensures ok { IfOk result (λ e.
        Escaped flags (92 ∷ [])
        (chars_rest it.old) (chars_rest it.new) (escape_bytes e)) }
    ensures err { IfErr result (Breaks flags (92 ∷ []) (chars_rest it.old)) }
{
    let left = it.as_str().len();
    let Some(c) = it.next() else {
        return string_error_at(0, LexError::UnexpectedEof);
    };
    if let Some(byte) = letter(c) {
        return Ok(EscapeValue::Byte(byte));
    }
    if is_hex(c) {
        return second(it, c, flags);
    }
    if c != 'u' {
        return string_error_at(left, LexError::InvalidStringEscape(c));
    }
    braced(it, flags)
}

/// Returns `true` if an escape of two hexadecimal digits is at the start.
pub fn is_byte_escape(text: &[u8]) -> bool
    ensures { MatchBool result (BeginsByteEscape text.now) (BeginsByteEscape text.now → ⊥) }
{
    match text {
        // `&` avoids a branch between the digits, which is often mispredicted
        [b'\\', first, second, ..] => is_hex_digit(*first) & is_hex_digit(*second),
        _ => false,
    }
}

/// Returns `true` if an escape of one letter is at the start.
fn is_letter_escape(text: &[u8]) -> bool
    ensures { MatchBool result (BeginsLetterEscape text.now) (BeginsLetterEscape text.now → ⊥) }
{
    match text {
        [b'\\', second, ..] => letter(*second as char).is_some(),
        _ => false,
    }
}

/// Returns `true` if a character of three bytes is at the start that begins with 0xE2, as general
/// punctuation does, and that has other bytes than the confusing characters.
fn is_punctuation(text: &[u8]) -> bool
    ensures { MatchBool result (BeginsPunctuation text.now) (BeginsPunctuation text.now → ⊥) }
{
    match text {
        [0xe2, second, third, ..] => {
            !(matches!(*second, 0x80 | 0x81) && matches!(*third, 0xa6..=0xae))
        }
        _ => false,
    }
}

/// Returns a lexical error at an offset from the start of the scanned text.
fn fault_at(offset: usize, error: LexError) -> Result<usize, LexFault>
    ensures { result ≡ Err (record { offset = offset; error = error }) }
{
    Err(LexFault { offset, error })
}

/// Returns the length in bytes of the element at the start: a character or an escape. It must not
/// be the closing quote.
fn element_len(text: &str, flags: Settings) -> Result<usize, LexFault>
    requires open { slice_index text.now 0 ≢ 34 }
    ensures ok { IfOk result (ElementTaken flags text.now) }
    ensures err { IfErr result (StringFaultFound flags text.now) }
{
    let mut it = text.chars();
    let Some(c) = it.next() else {
        return fault_at(0, LexError::UnexpectedEof);
    };
    if c == '\\' {
        if let Err(broken) = escape(&mut it, flags) {
            return fault_at(text.len() - broken.left, broken.error);
        }
    } else if is_control(c) {
        return fault_at(0, LexError::InvalidStringElement(c));
    } else if !flags.allow && is_confusing(c) {
        return fault_at(0, LexError::ConfusingUnicode(c));
    }
    Ok(text.len() - it.as_str().len())
}

/// Returns the length in bytes of a string after its opening quote, including its closing quote.
pub fn string_len(text: &str, flags: Settings) -> Result<usize, LexFault>
    ensures ok { IfOk result (StringTaken flags text.now) }
    ensures err { IfErr result (StringFaultFound flags text.now) }
{
    let bytes = text.as_bytes();
    let mut at = 0;
    'elements: loop {
        match &bytes[at..] {
            rest if is_byte_escape(rest) => at += 3,
            [b'"', ..] => return Ok(at + 1),
            [first, ..] if is_plain(*first) => at += plain_len(&bytes[at..]),
            rest if is_letter_escape(rest) => at += 2,
            rest if is_punctuation(rest) => at += 3,
            _ => match element_len(&text[at..], flags) {
                Ok(len) => at += len,
                Err(fault) => return fault_at(at + fault.offset, fault.error),
            },
        }
    }
}
