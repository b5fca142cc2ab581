//! The trait of types that a parser can peek at.
ghost use Rattle.std.specs.Prelude.{◌≡◌, ℕ, List};
ghost use Rattle.wat_lexer_parser.specs.parser.Sights.{Sight, PeekIs, second};
ghost use Rattle.wat_lexer_parser.specs.parser.State.{at_place};

use crate::parser::Cursor;
use wat_lex::error::Error;

/// A type for which a parser can test whether it comes next.
///
/// # Errors
///
/// `peek` and `peek2` return an error if they reach a lexical error, an annotation with an invalid
/// name or an annotation group without end, or if an allocation fails.
pub trait Peek {
    // The result of a peek in a parser's state, and whether a peek may allocate.
    ghost sight: { Sight };

    // The display name of the type in messages.
    ghost shows: { List ℕ };

    /// Returns `true` if the type comes next at the cursor.
    fn peek(cursor: Cursor<'_, '_>) -> Result<bool, Error>
        ensures { PeekIs (sight (at_place cursor.entry.parser.now cursor.entry.at)) result };

    /// Returns `true` if the type comes after the next visible token; `false` if that token is
    /// missing.
    fn peek2(cursor: Cursor<'_, '_>) -> Result<bool, Error>
        ensures { PeekIs (second sight (at_place cursor.entry.parser.now cursor.entry.at)) result }
    {
        match cursor.any()? {
            Some((_, next)) => Self::peek(next),
            None => Ok(false),
        }
    }

    /// Returns the display name of the type in messages.
    fn display() -> &'static str
        ensures { result.now ≡ shows };
}
