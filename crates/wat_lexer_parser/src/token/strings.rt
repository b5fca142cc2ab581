//! Strings, as bytes or as UTF-8 text.
ghost use Rattle.std.specs.Prelude.{◌≡◌, true, false, codes, MatchOption};
ghost use Rattle.std.specs.Cow.{cow_slice_items, cow_str_bytes};
ghost use Rattle.std.specs.Str.{is_utf8};
ghost use Rattle.wat_lexer_parser.specs.parser.Sights.{PeekIs};
ghost use Rattle.wat_lexer_parser.specs.parser.State.{at_place};

use crate::parser::{Cursor, Parse, Parser, Peek};
use std::borrow::{CowSlice, CowStr};
use wat_lex::error::Error;

/// Parses the bytes of a string.
impl<'a> Parse<'a> for CowSlice<'a, u8> {
    ghost use Rattle.std.specs.Prelude.{List, ℕ};
    ghost use Rattle.std.specs.Cow.{cow_slice_items};
    ghost use Rattle.wat_lexer_parser.specs.readings.Types.{bytes};

    ghost Value = { List ℕ };

    ghost value = { λ v. cow_slice_items v };

    ghost meaning = { bytes };

    fn parse(parser: &mut Parser<'a>) -> Result<CowSlice<'a, u8>, Error> {
        parser.step(|c| match c.string()? {
            Some(found) => Ok(found),
            None => Err(c.error("expected a string")),
        })
    }
}

impl<'a> Peek for CowSlice<'a, u8> {
    ghost use Rattle.wat_lexer_parser.specs.readings.Types.{a_string};

    ghost sight = { a_string };

    ghost shows = { codes "string" };

    fn peek(cursor: Cursor<'_, '_>) -> Result<bool, Error>
        ensures { PeekIs (a_string (at_place cursor.entry.parser.now cursor.entry.at)) result }
    {
        cursor.peek_string()
    }

    fn display() -> &'static str
        ensures { result.now ≡ codes "string" }
    {
        "string"
    }
}

/// Parses a string, which must be UTF-8.
impl<'a> Parse<'a> for CowStr<'a> {
    ghost use Rattle.std.specs.Prelude.{List, ℕ};
    ghost use Rattle.std.specs.Cow.{cow_str_bytes};
    ghost use Rattle.wat_lexer_parser.specs.readings.Types.{text};

    ghost Value = { List ℕ };

    ghost value = { λ v. cow_str_bytes v };

    ghost meaning = { text };

    fn parse(parser: &mut Parser<'a>) -> Result<CowStr<'a>, Error> {
        let bytes = parser.parse::<CowSlice<u8>>()?;
        match utf8(bytes) {
            Some(text) => Ok(text),
            None => Err(parser.error_at(parser.prev_span(), "malformed UTF-8 encoding")),
        }
    }
}

impl<'a> Peek for CowStr<'a> {
    ghost use Rattle.wat_lexer_parser.specs.readings.Types.{a_string};

    ghost sight = { a_string };

    ghost shows = { codes "string" };

    fn peek(cursor: Cursor<'_, '_>) -> Result<bool, Error>
        ensures { PeekIs (a_string (at_place cursor.entry.parser.now cursor.entry.at)) result }
    {
        cursor.peek_string()
    }

    fn display() -> &'static str
        ensures { result.now ≡ codes "string" }
    {
        "string"
    }
}

/// Parses a string, which must be UTF-8, into its own allocation.
impl<'a> Parse<'a> for String {
    ghost use Rattle.std.specs.Prelude.{List, ℕ, string_bytes};
    ghost use Rattle.wat_lexer_parser.specs.readings.Types.{owned_text};

    ghost Value = { List ℕ };

    ghost value = { λ v. string_bytes v };

    ghost meaning = { owned_text };

    fn parse(parser: &mut Parser<'a>) -> Result<String, Error> {
        let alloc = parser.alloc();
        let text = parser.parse::<CowStr>()?;
        Ok(text.into_owned(alloc)?)
    }
}

/// Returns the bytes as text, or `None` if they are not UTF-8.
fn utf8<'a>(bytes: CowSlice<'a, u8>) -> Option<CowStr<'a>>
    ensures { MatchOption result (is_utf8 (cow_slice_items bytes.entry) ≡ false)
        (λ text. (is_utf8 (cow_slice_items bytes.entry) ≡ true)
        × (cow_str_bytes text ≡ cow_slice_items bytes.entry)) }
{
    match bytes {
        CowSlice::Borrowed(bytes) => match str::from_utf8(bytes) {
            Ok(text) => Some(CowStr::Borrowed(text)),
            Err(_) => None,
        },
        CowSlice::Owned(bytes) => match String::from_utf8(bytes) {
            Ok(text) => Some(CowStr::Owned(text)),
            Err(_) => None,
        },
    }
}
