//! The values of strings and names.
ghost use Rattle.std.specs.Prelude.{◌≡◌, ◌↔◌, ◌≤◌, ◌<◌, ◌+◌, ◌*◌, ◌++◌, ◌∷◌, ℕ, List, [], length};
ghost use Rattle.std.specs.Prelude.{Some, IfOk, OnOk, IsOk, IfSome, IfNone, true, slice_index, take};
ghost use Rattle.std.specs.Char.{digit_value};
ghost use Rattle.memchr.specs.Find.{IsFirstByte, is_byte};
ghost use Rattle.std.specs.Cow.{cow_str_bytes, IsBorrowedStr};
ghost use Rattle.std.specs.Str.{chars, IsUtf8};
ghost use Rattle.wat_lex.specs.grammar.Classes.{backslash, is_hex};
ghost use Rattle.wat_lex.specs.values.Names.{Named, HasNone, HasNoEscape, IsQuoted, IsNamed};
ghost use Rattle.wat_lex.specs.inside.ScannedStrings.{escape_bytes, BeginsByteEscape};
ghost use Rattle.wat_lex.specs.tokens.Setting.{lenient};
ghost use Rattle.wat_lex.specs.grammar.Strings.{Element, Quoted};

use crate::lexer::scan::blocks::{block_at, equal_to};
use crate::lexer::scan::strings::{EscapeValue, escape, letter};
use crate::lexer::settings::Settings;
use memchr::memchr;
use std::alloc::{AllocError, Global};
use std::borrow::CowStr;

/// The most permissive settings: they accept every string that any settings accept.
const LENIENT: Settings = Settings {
    allow: true,
    strict: false,
};

/// The capacity in bytes that a value has at first, unless its text is shorter. A longer value
/// grows by doubling, since it can have a third of the bytes of its escapes.
const FIRST_CAPACITY: usize = 64;

/// The value of each byte as a hexadecimal digit, or 16 if it is not one.
const DIGIT_VALUES: [u8; 256] = [
    16, 16, 16, 16, 16, 16, 16, 16, 16, 16, 16, 16, 16, 16, 16, 16, 16, 16, 16, 16, 16, 16, 16, 16,
    16, 16, 16, 16, 16, 16, 16, 16, 16, 16, 16, 16, 16, 16, 16, 16, 16, 16, 16, 16, 16, 16, 16, 16,
    0, 1, 2, 3, 4, 5, 6, 7, 8, 9, 16, 16, 16, 16, 16, 16, 16, 10, 11, 12, 13, 14, 15, 16, 16, 16,
    16, 16, 16, 16, 16, 16, 16, 16, 16, 16, 16, 16, 16, 16, 16, 16, 16, 16, 16, 16, 16, 16, 16, 10,
    11, 12, 13, 14, 15, 16, 16, 16, 16, 16, 16, 16, 16, 16, 16, 16, 16, 16, 16, 16, 16, 16, 16, 16,
    16, 16, 16, 16, 16, 16, 16, 16, 16, 16, 16, 16, 16, 16, 16, 16, 16, 16, 16, 16, 16, 16, 16, 16,
    16, 16, 16, 16, 16, 16, 16, 16, 16, 16, 16, 16, 16, 16, 16, 16, 16, 16, 16, 16, 16, 16, 16, 16,
    16, 16, 16, 16, 16, 16, 16, 16, 16, 16, 16, 16, 16, 16, 16, 16, 16, 16, 16, 16, 16, 16, 16, 16,
    16, 16, 16, 16, 16, 16, 16, 16, 16, 16, 16, 16, 16, 16, 16, 16, 16, 16, 16, 16, 16, 16, 16, 16,
    16, 16, 16, 16, 16, 16, 16, 16, 16, 16, 16, 16, 16, 16, 16, 16, 16, 16, 16, 16, 16, 16, 16, 16,
    16, 16, 16, 16, 16, 16, 16, 16, 16, 16, 16, 16, 16, 16,
];

/// Returns the value of a string if it has no escape. `elements` is the rest of a string, with its
/// closing quote.
pub fn plain(elements: &str) -> Option<&str>
    requires { IsQuoted (chars elements.now) }
    ensures value { IfSome result (λ value. Quoted lenient (chars elements.now) value.now []) }
    ensures utf8 { IfSome result (λ value. IsUtf8 value.now) }
    ensures some { IfSome result (λ _. HasNone backslash (chars elements.now)) }
    ensures none { IfNone result (HasNone backslash (chars elements.now) → ⊥) }
{
    match memchr(b'\\', elements.as_bytes()) {
        Some(_) => None,
        None => Some(&elements[..elements.len() - 1]),
    }
}

/// Appends the value of an escape.
fn append(value: &mut Vec<u8>, read: EscapeValue) -> Result<(), AllocError>
    ensures { OnOk result (value.new.items ≡ value.old.items ++ escape_bytes read) }
{
    match read {
        EscapeValue::Byte(byte) => value.push(byte)?,
        EscapeValue::Scalar(c) => {
            let mut buffer = [0u8; 4];
            value.extend_from_slice(c.encode_utf8(&mut buffer).as_bytes())?;
        }
    }
    Ok(())
}

/// Returns the offset of the first backslash. The first 16 bytes are searched without a call.
#[inline(always)]
fn first_backslash(text: &[u8]) -> Option<usize>
    ensures { IsFirstByte (is_byte 92) text.now result }
{
    if text.len() >= 16 {
        let found = equal_to(block_at(text, 0), b'\\');
        if found != 0 {
            return Some(found.trailing_zeros() as usize);
        }
    }
    memchr(b'\\', text)
}

/// Appends the first `len` bytes of a text. Copies a whole block without a call if `len` is at most
/// 16, and removes the bytes after the first `len`.
#[inline(always)]
fn append_prefix(value: &mut Vec<u8>, text: &[u8], len: usize) -> Result<(), AllocError>
    requires { len ≤ length text.now }
    ensures { OnOk result (value.new.items ≡ value.old.items ++ take len text.now) }
{
    if len > 16 || text.len() < 16 {
        return value.extend_from_slice(&text[..len]);
    }
    let before = value.len();
    value.extend_from_slice(&text[..16])?;
    value.truncate(before + len);
    Ok(())
}

/// Returns the value of a hexadecimal digit, or 16 if the byte is not one.
#[inline(always)]
fn digit(byte: u8) -> u8
    ensures digit { result < 16 → is_hex byte ≡ true }
    ensures value { is_hex byte ≡ true → result ≡ digit_value byte }
{
    DIGIT_VALUES[byte as usize]
}

/// Returns the byte of an escape of two hexadecimal digits at the start.
#[inline(always)]
fn byte_of_digits(text: &[u8]) -> Option<u8>
    ensures begins { IfSome result (λ _. BeginsByteEscape text.now) }
    ensures value { IfSome result (λ byte.
        byte ≡ 16 * digit_value (slice_index text.now 1) + digit_value (slice_index text.now 2)) }
{
    let [b'\\', first, second, ..] = text else {
        return None;
    };
    let high = digit(*first);
    let low = digit(*second);
    if high < 16 && low < 16 {
        return Some(16 * high + low);
    }
    None
}

/// Returns the byte of an escape of one letter at the start, and the text after it.
#[inline]
fn letter_escape(text: &str) -> Option<(u8, &str)>
    ensures element { IfSome result (λ found.
        Element lenient (chars text.now) (found.0 ∷ []) (chars found.1.now)) }
    ensures utf8 { IfSome result (λ found. IsUtf8 found.1.now) }
    ensures shorter { IfSome result (λ found. length found.1.now < length text.now) }
{
    let [b'\\', second, ..] = text.as_bytes() else {
        return None;
    };
    let byte = letter(*second as char)?;
    Some((byte, &text[2..]))
}

/// Returns the byte of an escape of two hexadecimal digits at the start, and the text after it.
#[inline]
pub fn byte_escape(text: &str) -> Option<(u8, &str)>
    ensures element { IfSome result (λ found.
        Element lenient (chars text.now) (found.0 ∷ []) (chars found.1.now)) }
    ensures utf8 { IfSome result (λ found. IsUtf8 found.1.now) }
    ensures shorter { IfSome result (λ found. length found.1.now < length text.now) }
{
    let byte = byte_of_digits(text.as_bytes())?;
    Some((byte, &text[3..]))
}

/// Returns the value of the escape at the start, and the elements after it. `elements` is the rest
/// of a string, with its closing quote.
pub fn first_escape(elements: &str) -> (EscapeValue, &str)
    requires quoted { IsQuoted (chars elements.now) }
    requires first { IsFirstByte (is_byte 92) elements.now (Some 0) }
    ensures element { Element lenient
        (chars elements.now) (escape_bytes result.0) (chars result.1.now) }
    ensures utf8 { IsUtf8 result.1.now }
    ensures shorter { length result.1.now < length elements.now }
{
    let mut it = elements[1..].chars();
    match escape(&mut it, LENIENT) {
        Ok(read) => (read, it.as_str()),
        Err(_) => unreachable!(),
    }
}

/// Returns the value of a string with its escapes decoded. `elements` is the rest of a string, with
/// its closing quote.
pub fn unescaped(alloc: Global, elements: &str) -> Result<Vec<u8>, AllocError>
    requires { IsQuoted (chars elements.now) }
    ensures { IfOk result (λ value. Quoted lenient (chars elements.now) value.items []) }
{
    let mut value = Vec::with_capacity(alloc, elements.len().min(FIRST_CAPACITY))?;
    let mut rest = elements;
    'elements: loop {
        if let Some((byte, after)) = byte_escape(rest) {
            value.push(byte)?;
            rest = after;
            continue 'elements;
        }
        if let [b'"'] = rest.as_bytes() {
            return Ok(value);
        }
        if let Some((byte, after)) = letter_escape(rest) {
            value.push(byte)?;
            rest = after;
            continue 'elements;
        }
        match first_backslash(rest.as_bytes()) {
            Some(0) => {
                let (read, after) = first_escape(rest);
                append(&mut value, read)?;
                rest = after;
            }
            Some(before) => {
                append_prefix(&mut value, rest.as_bytes(), before)?;
                rest = &rest[before..];
            }
            None => {
                value.extend_from_slice(&rest.as_bytes()[..rest.len() - 1])?;
                return Ok(value);
            }
        }
    }
}

/// Returns the name that a text after `$` or `@` stands for, or `None` if its bytes are not UTF-8.
/// It is borrowed, without an allocation, if it has no escape.
pub fn name<'a>(alloc: Global, text: &'a str) -> Result<Option<CowStr<'a>>, AllocError>
    requires { IsNamed (chars text.now) }
    ensures some { IfOk result (λ found. IfSome found (λ name.
        Named (chars text.now) (cow_str_bytes name))) }
    ensures none { IfOk result (λ found. IfNone found (
        (bytes : List ℕ) × Named (chars text.now) bytes × (IsUtf8 bytes → ⊥))) }
    ensures borrowed { IfOk result (λ found. IfSome found (λ name.
        IsBorrowedStr name ↔ HasNoEscape (chars text.now))) }
    ensures free { HasNoEscape (chars text.now) → IsOk result }
{
    let Some(elements) = text.strip_prefix('"') else {
        return Ok(Some(CowStr::Borrowed(text)));
    };
    if let Some(value) = plain(elements) {
        return Ok(Some(CowStr::Borrowed(value)));
    }
    match String::from_utf8(unescaped(alloc, elements)?) {
        Ok(value) => Ok(Some(CowStr::Owned(value))),
        Err(_) => Ok(None),
    }
}
