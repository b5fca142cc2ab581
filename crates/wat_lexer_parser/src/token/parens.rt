//! Parentheses, as types to peek at.
use crate::parser::{Cursor, Peek};
use wat_lex::error::Error;

/// The token `(`.
#[derive(Clone, Copy, Debug, PartialEq, Eq)]
pub struct LParen(());

impl Peek for LParen {
    ghost use Rattle.std.specs.Prelude.{codes};
    ghost use Rattle.wat_lexer_parser.specs.parser.Sights.{sight_of};
    ghost use Rattle.wat_lexer_parser.specs.parser.Takers.{as_open};

    ghost sight = { sight_of as_open };

    ghost shows = { codes "left paren" };

    fn peek(cursor: Cursor<'_, '_>) -> Result<bool, Error> {
        cursor.peek_lparen()
    }

    fn display() -> &'static str {
        "left paren"
    }
}

/// The token `)`.
#[derive(Clone, Copy, Debug, PartialEq, Eq)]
pub struct RParen(());

impl Peek for RParen {
    ghost use Rattle.std.specs.Prelude.{codes};
    ghost use Rattle.wat_lexer_parser.specs.parser.Sights.{sight_of};
    ghost use Rattle.wat_lexer_parser.specs.parser.Takers.{as_close};

    ghost sight = { sight_of as_close };

    ghost shows = { codes "right paren" };

    fn peek(cursor: Cursor<'_, '_>) -> Result<bool, Error> {
        cursor.peek_rparen()
    }

    fn display() -> &'static str {
        "right paren"
    }
}
