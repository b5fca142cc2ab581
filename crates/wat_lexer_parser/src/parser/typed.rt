//! Parsing of types.
ghost use Rattle.std.specs.Prelude.{◌≡◌, ◌≤◌, [], OnErr};
ghost use Rattle.wat_lexer_parser.specs.readings.Readings.{group, pair, under};
ghost use Rattle.wat_lexer_parser.specs.readings.Reads.{IsKept, Reads};
ghost use Rattle.wat_lexer_parser.specs.readings.Types.{under_standard};

use crate::parser::{Lookahead1, Parse, Parser};
use std::marker::PhantomData;
use wat_lex::error::Error;
use wat_words::{StdAnnotation, Word};

/// A value parsed while an annotation name is registered.
#[derive(Drop)]
struct Under<N: Word, T> {
    value: T,
    of: PhantomData<N>,
}

impl<'a, N: Word, T: Parse<'a>> Parse<'a> for Under<N, T> {
    ghost use Rattle.wat_lexer_parser.specs.readings.Readings.{under};

    ghost Value = { T.Value };

    ghost value = { λ u. T.value u.value };

    ghost meaning = { under N.text T.meaning };

    fn parse(parser: &mut Parser<'a>) -> Result<Under<N, T>, Error> {
        Ok(Under {
            value: parser.with_annotation::<T>(N::word())?,
            of: PhantomData,
        })
    }
}

/// A pair of values, one after the other.
#[derive(Drop)]
struct Pair<T, U> {
    first: T,
    second: U,
}

impl<'a, T: Parse<'a>, U: Parse<'a>> Parse<'a> for Pair<T, U> {
    ghost use Rattle.wat_lexer_parser.specs.readings.Readings.{pair};

    ghost Value = { T.Value × U.Value };

    ghost value = { λ p. (T.value p.first, U.value p.second) };

    ghost meaning = { pair T.meaning U.meaning };

    fn parse(parser: &mut Parser<'a>) -> Result<Pair<T, U>, Error> {
        Ok(Pair {
            first: parser.parse::<T>()?,
            second: parser.parse::<U>()?,
        })
    }
}

impl<'a> Parser<'a> {
    /// Parses a value of type `T`.
    pub fn parse<T: Parse<'a>>(&mut self) -> Result<T, Error>
        ensures kept { IsKept self.old self.new }
        ensures on { self.old.place ≤ self.new.place }
        ensures reads { Reads T.value T.meaning self.old result self.new.place }
    {
        T::parse(self)
    }

    /// Consumes `(`, parses a value with the depth increased by 1, and consumes `)`.
    ///
    /// # Errors
    ///
    /// Returns the error of the type, or an error if a parenthesis is missing. The parser is then
    /// unchanged.
    pub fn parens_of<T: Parse<'a>>(&mut self) -> Result<T, Error>
        ensures kept { IsKept self.old self.new }
        ensures on { self.old.place ≤ self.new.place }
        ensures reads { Reads T.value (group T.meaning) self.old result self.new.place }
        ensures back { OnErr result (self.new ≡ self.old) }
    {
        let (place, byte, depth) = (self.place, self.byte, self.depth);
        self.source.lemma_read();
        self.open()?;
        self.depth += 1;
        let result = self.parse::<T>();
        self.depth = depth;
        match result {
            Ok(value) => match self.close() {
                Ok(()) => Ok(value),
                Err(e) => {
                    self.put_back(place, byte, depth);
                    Err(e)
                }
            },
            Err(e) => {
                self.put_back(place, byte, depth);
                Err(e)
            }
        }
    }

    /// Parses a value while an annotation name is registered. The registration is removed
    /// afterwards, even if the type returns an error.
    ///
    /// # Errors
    ///
    /// Returns the error of the type, or an error if the name cannot be registered.
    pub fn with_annotation<T: Parse<'a>>(&mut self, name: &str) -> Result<T, Error>
        ensures kept { IsKept self.old self.new }
        ensures on { self.old.place ≤ self.new.place }
        ensures reads { Reads T.value (under name.now T.meaning) self.old result
            self.new.place }
    {
        self.register_annotation(name)?;
        let result = self.parse::<T>();
        self.unregister_annotation(name);
        result
    }

    /// Parses a value while the standard annotation names are registered: `custom`, `producers`,
    /// `name`, `dylink.0` and `metadata.code.branch_hint`. The registrations are removed
    /// afterwards, even if there is an error.
    ///
    /// # Errors
    ///
    /// Returns the error of the type, or an error if a name cannot be registered.
    #[rattlefmt::skip]
    #[tactic(auto, unfolding(
        wat_words::specs::Words::annotation_word,
        wat_words::specs::Words::annotation_words,
    ))]
    pub fn with_standard_annotations_registered<T: Parse<'a>>(&mut self) -> Result<T, Error>
        ensures kept { IsKept self.old self.new }
        ensures on { self.old.place ≤ self.new.place }
        ensures reads { Reads T.value
            (under_standard T.meaning) self.old result self.new.place }
    {
        let value = self.parse::<
            Under<
                StdAnnotation<0>,
                Under<
                    StdAnnotation<2>,
                    Under<StdAnnotation<1>, Under<StdAnnotation<3>, Under<StdAnnotation<4>, T>>>,
                >,
            >,
        >()?;
        Ok(value.value.value.value.value.value)
    }

    /// Parses a pair of values in a group, like [`parens_of`](Parser::parens_of).
    pub(crate) fn parens_of_two<T: Parse<'a>, U: Parse<'a>>(&mut self) -> Result<(T, U), Error>
        ensures kept { IsKept self.old self.new }
        ensures on { self.old.place ≤ self.new.place }
        ensures reads { Reads (λ v. (T.value v.0, U.value v.1))
            (group (pair T.meaning U.meaning)) self.old result self.new.place }
    {
        let both = self.parens_of::<Pair<T, U>>()?;
        Ok((both.first, both.second))
    }

    /// Creates a lookahead at the position, to choose one of several types.
    pub fn lookahead1(&self) -> Lookahead1<'_, 'a>
        ensures { result ≡ (self.now, []) }
    {
        Lookahead1::new(self)
    }
}
