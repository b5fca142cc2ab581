//! Parsing of lists.
ghost use Rattle.std.specs.Prelude.{◌≤◌, map};
ghost use Rattle.wat_lexer_parser.specs.parser.Sights.{second};
ghost use Rattle.wat_lexer_parser.specs.readings.Readings.{many, while_seen};
ghost use Rattle.wat_lexer_parser.specs.readings.Reads.{Advances, IsKept, Reads};

use crate::parser::{Cursor, Parse, Parser, Peek};
use std::marker::PhantomData;
use wat_lex::error::Error;

/// Anything except `)` and the end of the text. An error counts too, so that the list reports it.
pub struct Something(());

impl Peek for Something {
    ghost use Rattle.std.specs.Prelude.{codes};
    ghost use Rattle.wat_lexer_parser.specs.readings.Readings.{more_comes};

    ghost sight = { more_comes };

    ghost shows = { codes "something" };

    fn peek(cursor: Cursor<'_, '_>) -> Result<bool, Error> {
        Ok(!cursor.is_empty())
    }

    fn display() -> &'static str {
        "something"
    }
}

/// The type `P`, after the next visible token.
pub struct After<P> {
    of: PhantomData<P>,
}

impl<P: Peek> Peek for After<P> {
    ghost sight = { second P.sight };

    ghost shows = { P.shows };

    fn peek(cursor: Cursor<'_, '_>) -> Result<bool, Error> {
        P::peek2(cursor)
    }

    fn display() -> &'static str {
        P::display()
    }
}

impl<'a> Parser<'a> {
    /// Parses values of type `T` until `)` or the end of the text.
    pub fn all_of<T: Parse<'a>>(&mut self) -> Result<Vec<T>, Error>
        requires { Advances T.meaning }
        ensures kept { IsKept self.old self.new }
        ensures on { self.old.place ≤ self.new.place }
        ensures reads { Reads (λ v. map T.value v.items) (many T.meaning) self.old result
            self.new.place }
    {
        self.all_while::<Something, T>()
    }

    /// Parses values of type `T` as long as a `P` comes after the next visible token, like `param`
    /// in `(param i32)`.
    pub fn all_after<P: Peek, T: Parse<'a>>(&mut self) -> Result<Vec<T>, Error>
        requires { Advances T.meaning }
        ensures kept { IsKept self.old self.new }
        ensures on { self.old.place ≤ self.new.place }
        ensures reads { Reads (λ v. map T.value v.items)
            (while_seen (second P.sight) T.meaning) self.old result self.new.place }
    {
        self.all_while::<After<P>, T>()
    }

    /// Parses values of type `T` as long as a `P` comes next.
    pub fn all_while<P: Peek, T: Parse<'a>>(&mut self) -> Result<Vec<T>, Error>
        requires { Advances T.meaning }
        ensures kept { IsKept self.old self.new }
        ensures on { self.old.place ≤ self.new.place }
        ensures reads { Reads (λ v. map T.value v.items) (while_seen P.sight T.meaning) self.old
            result self.new.place }
    {
        let mut values = Vec::new(self.alloc());
        self.lemma_sound();
        'each: while self.peek::<P>()? {
            let value = self.parse::<T>()?;
            self.lemma_sound();
            values.push(value)?;
        }
        Ok(values)
    }
}
