//! Types that contain another type.

use crate::parser::{Parse, Parser, Peek};
use wat_lex::error::Error;

/// Parses a `T` if it comes next. Otherwise returns `None` and consumes nothing.
impl<'a, T: Parse<'a> + Peek> Parse<'a> for Option<T> {
    ghost use Rattle.std.specs.Prelude.{Option, option_map};
    ghost use Rattle.wat_lexer_parser.specs.readings.Readings.{optional};

    ghost Value = { Option T.Value };

    ghost value = { λ v. option_map T.value v };

    ghost meaning = { optional T.sight T.meaning };

    fn parse(parser: &mut Parser<'a>) -> Result<Option<T>, Error> {
        if parser.peek::<T>()? {
            Ok(Some(parser.parse::<T>()?))
        } else {
            Ok(None)
        }
    }
}

/// A value in parentheses.
#[derive(Debug, Drop)]
pub struct Parens<T> {
    /// The value between the parentheses.
    pub inner: T,
}

impl<'a, T: Parse<'a>> Parse<'a> for Parens<T> {
    ghost use Rattle.wat_lexer_parser.specs.readings.Readings.{group};

    ghost Value = { T.Value };

    ghost value = { λ p. T.value p.inner };

    ghost meaning = { group T.meaning };

    fn parse(parser: &mut Parser<'a>) -> Result<Parens<T>, Error> {
        Ok(Parens {
            inner: parser.parens_of::<T>()?,
        })
    }
}

/// Parses a `T` into its own allocation.
impl<'a, T: Parse<'a>> Parse<'a> for Box<T> {
    ghost use Rattle.wat_lexer_parser.specs.readings.Readings.{allocated};

    ghost Value = { T.Value };

    ghost value = { λ b. T.value b.value };

    ghost meaning = { allocated T.meaning };

    fn parse(parser: &mut Parser<'a>) -> Result<Box<T>, Error> {
        let alloc = parser.alloc();
        Ok(Box::new(alloc, parser.parse::<T>()?)?)
    }
}
