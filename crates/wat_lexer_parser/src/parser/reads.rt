//! The trait of types that a parser can parse.
ghost use Rattle.std.specs.Prelude.{◌≤◌};
ghost use Rattle.wat_lexer_parser.specs.readings.Readings.{Reading};
ghost use Rattle.wat_lexer_parser.specs.readings.Reads.{IsKept, Reads};

use crate::parser::Parser;
use wat_lex::error::Error;

/// The result of a parser's functions.
pub type Result<T, E = Error> = std::result::Result<T, E>;

/// A type that can be parsed.
///
/// An implementation defines the value of the type that callers see, and its `meaning`: what it
/// reads, in the language of readings. Its `parse` calls those of its parts. The clauses below are
/// all that can be proved about parsing a type parameter.
pub trait Parse<'a>: Sized + Drop {
    // The type of the value that callers see.
    ghost Value: { Type 0 };

    ghost value: { Self → Value };

    // The value or error that parsing yields in a parser's state, and the number of raw tokens
    // consumed.
    ghost meaning: { Reading Value };

    /// Parses a value. Only the position changes, never backwards, even if an error is returned.
    fn parse(parser: &mut Parser<'a>) -> Result<Self, Error>
        ensures kept { IsKept parser.old parser.new }
        ensures on { parser.old.place ≤ parser.new.place }
        ensures reads { Reads value meaning parser.old result parser.new.place };
}
