//! Parsing of whole texts.
ghost use Rattle.std.specs.Prelude.{◌≡◌};
ghost use Rattle.wat_lexer_parser.specs.parser.State.{Answers};
ghost use Rattle.wat_lexer_parser.specs.places.Source.{IsRead, Source};
ghost use Rattle.wat_lexer_parser.specs.readings.Readings.{start, whole, whole_may_allocate};

use crate::parser::{Cursor, Parse, ParseBuffer, Parser};
use wat_lex::error::Error;
use wat_lex::token::Span;

/// Parses a whole text, from its start to its end, with no annotation names registered.
///
/// Returns a value if and only if the type's `meaning` reads the whole text.
///
/// # Errors
///
/// Returns the error of the type, or `extra tokens remaining after parse` at the first remaining
/// token, or the error that a peek finds after the value. Fails if an allocation fails.
pub fn parse<'a, T: Parse<'a>>(buffer: &'a ParseBuffer<'a>) -> Result<T, Error>
    ensures value { (s : Source) → IsRead s → s.setting ≡ buffer.now.setting →
        s.track ≡ buffer.now.track →
        Answers (whole_may_allocate T.meaning s) T.value (whole T.meaning s) result }
    ensures read { IsRead buffer.now }
{
    buffer.lemma_only();
    read(buffer.parser())
}

/// Parses a whole text like `parse`, from a parser at its start.
pub fn read<'a, T: Parse<'a>>(parser: Parser<'a>) -> Result<T, Error>
    requires { parser ≡ start parser.source }
    ensures { Answers (whole_may_allocate T.meaning parser.entry.source) T.value
        (whole T.meaning parser.entry.source) result }
{
    let mut parser = parser;
    let value = parser.parse::<T>()?;
    match Cursor::new(&parser).token()? {
        Some(token) => {
            let span = Span::from_offset(token.offset);
            Err(parser.error_at(span, "extra tokens remaining after parse"))
        }
        None => Ok(value),
    }
}
