//! Names that are compared and validated one part at a time, without an allocation.
ghost use Rattle.std.specs.Prelude.{◌≡◌, ◌≢◌, ◌++◌, [], ℕ, List, MatchOption, IsTrue};
ghost use Rattle.std.specs.Bool.{Decides};
ghost use Rattle.std.specs.Str.{chars, IsUtf8};
ghost use Rattle.wat_lex.specs.values.Names.{IsQuoted, IsNamed};
ghost use Rattle.wat_lex.specs.values.WordValues.{named_bytes};
ghost use Rattle.wat_lex.specs.inside.ScannedStrings.{escape_bytes};
ghost use Rattle.wat_lex.specs.inside.StringParts.{value_of, part_bytes, IsWhole};
ghost use Rattle.wat_lex.specs.inside.StringParts.{PlainBytes, IsFirstPart, IsEscapedByte};
ghost use Rattle.wat_lex.specs.inside.StringParts.{IsPastCharacter};

use crate::lexer::read::strings::{byte_escape, first_escape, plain};
use crate::lexer::scan::strings::EscapeValue;
use memchr::memchr;
use std::str::from_utf8;

/// A part of a string's value.
#[derive(Clone, Copy)]
pub enum Part<'a> {
    /// Characters without an escape, at least one.
    Text(&'a str),
    /// The byte of an escape of two hexadecimal digits, or of a letter.
    Byte(u8),
    /// The character of an escape `\u{..}`.
    Scalar(char),
}

impl<'a> Part<'a> {
    /// Returns the part for an escape's value.
    fn escaped(read: EscapeValue) -> Part<'a>
        ensures bytes { part_bytes result ≡ escape_bytes read }
        ensures whole { IsWhole result }
    {
        match read {
            EscapeValue::Byte(byte) => Part::Byte(byte),
            EscapeValue::Scalar(c) => Part::Scalar(c),
        }
    }

    /// Returns the bytes of `value` after the part, or `None` if `value` does not begin with it.
    fn stripped_from<'v>(self, value: &'v [u8]) -> Option<&'v [u8]>
        ensures { MatchOption result
            ((rest : List ℕ) → value.now ≢ part_bytes self.entry ++ rest)
            (λ rest. value.now ≡ part_bytes self.entry ++ rest.now) }
    {
        match self {
            Part::Text(text) => value.strip_prefix(text.as_bytes()),
            Part::Byte(byte) => value.strip_prefix(&[byte]),
            Part::Scalar(c) => {
                let mut buffer = [0u8; 4];
                value.strip_prefix(c.encode_utf8(&mut buffer).as_bytes())
            }
        }
    }
}

/// Returns the first `len` bytes as a part, and the elements after it, or `None` if `len` is 0.
/// These bytes must be those up to the first escape or the closing quote. `elements` is the rest of
/// a string, with its closing quote.
fn text_part<'a>(elements: &'a str, len: usize) -> Option<(Part<'a>, &'a str)>
    requires { PlainBytes elements.now len }
    ensures { IsFirstPart elements.now result }
{
    if len == 0 {
        return None;
    }
    Some((Part::Text(&elements[..len]), &elements[len..]))
}

/// Returns the first part of a string's value, and the elements after it, or `None` if the value is
/// empty. `elements` is the rest of a string, with its closing quote.
fn first_part<'a>(elements: &'a str) -> Option<(Part<'a>, &'a str)>
    requires { IsQuoted (chars elements.now) }
    ensures { IsFirstPart elements.now result }
{
    if let Some((byte, after)) = byte_escape(elements) {
        return Some((Part::Byte(byte), after));
    }
    match memchr(b'\\', elements.as_bytes()) {
        Some(0) => {
            let (read, after) = first_escape(elements);
            Some((Part::escaped(read), after))
        }
        Some(before) => text_part(elements, before),
        None => text_part(elements, elements.len() - 1),
    }
}

/// Returns `true` if a string has this value. `elements` is the rest of a string, with its closing
/// quote.
fn is_value(elements: &str, value: &[u8]) -> bool
    requires { IsQuoted (chars elements.now) }
    ensures { Decides result (value_of elements.now ≡ value.now) }
{
    let mut rest = elements;
    let mut left = value;
    while let Some((part, after)) = first_part(rest) {
        let Some(stripped) = part.stripped_from(left) else {
            return false;
        };
        left = stripped;
        rest = after;
    }
    left.is_empty()
}

/// Returns the byte of the escape at the start, and the elements after it. Returns `None` if
/// another part is at the start, or the closing quote. `elements` is the rest of a string, with its
/// closing quote.
fn escaped_byte<'a>(elements: &'a str) -> Option<(u8, &'a str)>
    requires { IsQuoted (chars elements.now) }
    ensures { IsEscapedByte elements.now result }
{
    let (part, after) = first_part(elements)?;
    let Part::Byte(byte) = part else {
        return None;
    };
    Some((byte, after))
}

/// Returns the elements after the first character, which begins with the byte `first` and goes on
/// with the value of `elements`. Returns `None` if these bytes are not UTF-8. `elements` is the
/// rest of a string, with its closing quote.
fn past_character<'a>(first: u8, elements: &'a str) -> Option<&'a str>
    requires { IsQuoted (chars elements.now) }
    ensures { IsPastCharacter first elements.now result }
{
    let mut buffer = [first, 0, 0, 0];
    let mut len = 1;
    let mut rest = elements;
    while from_utf8(&buffer[..len]).is_err() {
        if len == 4 {
            return None;
        }
        let (byte, after) = escaped_byte(rest)?;
        buffer[len] = byte;
        len += 1;
        rest = after;
    }
    Some(rest)
}

/// Returns `true` if the value of a string is UTF-8. Only the escape of a byte can begin a sequence
/// that is not. `elements` is the rest of a string, with its closing quote.
fn is_utf8_value(elements: &str) -> bool
    requires { IsQuoted (chars elements.now) }
    ensures { Decides result (IsUtf8 (value_of elements.now)) }
{
    let mut rest = elements;
    while let Some((part, after)) = first_part(rest) {
        let Part::Byte(byte) = part else {
            rest = after;
            continue;
        };
        let Some(past) = past_character(byte, after) else {
            return false;
        };
        rest = past;
    }
    true
}

/// Returns `true` if the name that a text after `$` or `@` stands for has these bytes.
pub fn is_named(text: &str, bytes: &[u8]) -> bool
    requires { IsNamed (chars text.now) }
    ensures { Decides result (named_bytes (chars text.now) ≡ bytes.now) }
{
    match text.strip_prefix('"') {
        Some(elements) => is_value(elements, bytes),
        None => text.as_bytes() == bytes,
    }
}

/// Returns `true` if the name that a text after `$` or `@` stands for is UTF-8.
pub fn is_utf8_name(text: &str) -> bool
    requires { IsNamed (chars text.now) }
    ensures { Decides result (IsUtf8 (named_bytes (chars text.now))) }
{
    match text.strip_prefix('"') {
        Some(elements) => is_utf8_value(elements),
        None => true,
    }
}

/// Returns `true` if the name that a text after `$` or `@` stands for is nonempty and has no
/// escape, so that it is UTF-8. A name with an escape can be valid too.
pub fn is_plain_name(text: &str) -> bool
    requires { IsNamed (chars text.now) }
    ensures some { IsTrue result → named_bytes (chars text.now) ≢ [] }
    ensures utf8 { IsTrue result → IsUtf8 (named_bytes (chars text.now)) }
{
    let Some(elements) = text.strip_prefix('"') else {
        return !text.is_empty();
    };
    match plain(elements) {
        Some(value) => !value.is_empty(),
        None => false,
    }
}
