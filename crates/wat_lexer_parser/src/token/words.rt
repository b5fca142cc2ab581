//! Keywords, reserved symbols and annotations with a fixed text.
ghost use Rattle.std.specs.Prelude.{◌≡◌, ◌<◌, ℕ, IfOk, IfSome};
ghost use Rattle.std.specs.Option.{option_map};
ghost use Rattle.wat_lexer_parser.specs.parser.State.{Answers, at_place};
ghost use Rattle.wat_lexer_parser.specs.parser.Takers.{as_annotation, allocates_at, token_value_at};
ghost use Rattle.wat_lexer_parser.specs.readings.Types.{spelling};
ghost use Rattle.wat_words.specs.Words.{quoted};

use crate::parser::{Cursor, Parse, Parser, Peek};
use std::marker::PhantomData;
use wat_lex::error::Error;
use wat_lex::token::Span;
use wat_words::Word;

/// A keyword whose text is the word `N`.
#[derive(Clone, Copy, Debug)]
pub struct Keyword<N: Word> {
    /// Offset of the keyword.
    pub span: Span,
    of: PhantomData<N>,
}

impl<N: Word> Keyword<N> {
    /// Creates a keyword at an offset. The text is not read.
    pub fn new(span: Span) -> Self
        ensures { result.span ≡ span }
    {
        Keyword {
            span,
            of: PhantomData,
        }
    }
}

impl<'a, N: Word> Parse<'a> for Keyword<N> {
    ghost use Rattle.wat_lexer_parser.specs.readings.Types.{keyword};

    ghost Value = { ℕ };

    ghost value = { λ k. k.span };

    ghost meaning = { keyword N.AT N.text };

    #[tactic(auto, unfolding(crate::specs::readings::Types::keyword))]
    fn parse(parser: &mut Parser<'a>) -> Result<Self, Error> {
        parser.step(|c| match c.keyword()? {
            Some((text, next)) if text == N::word() => Ok((Keyword::new(c.cur_span()), next)),
            _ => Err(c.error_of("expected keyword ", N::display())),
        })
    }
}

impl<N: Word> Peek for Keyword<N> {
    ghost use Rattle.wat_lexer_parser.specs.parser.Takers.{as_keyword};
    ghost use Rattle.wat_lexer_parser.specs.readings.Types.{sees_word};

    ghost sight = { sees_word as_keyword N.text };

    ghost shows = { quoted N.AT N.text };

    fn peek(cursor: Cursor<'_, '_>) -> Result<bool, Error> {
        match cursor.keyword()? {
            Some((text, _)) => Ok(text == N::word()),
            None => Ok(false),
        }
    }

    fn display() -> &'static str {
        N::display()
    }
}

/// A reserved token whose text is the word `N`.
#[derive(Clone, Copy, Debug)]
pub struct ReservedSymbol<N: Word> {
    /// Offset of the token.
    pub span: Span,
    of: PhantomData<N>,
}

impl<N: Word> ReservedSymbol<N> {
    /// Creates a reserved symbol at an offset. The text is not read.
    pub fn new(span: Span) -> Self
        ensures { result.span ≡ span }
    {
        ReservedSymbol {
            span,
            of: PhantomData,
        }
    }
}

impl<'a, N: Word> Parse<'a> for ReservedSymbol<N> {
    ghost use Rattle.wat_lexer_parser.specs.readings.Types.{reserved_symbol};

    ghost Value = { ℕ };

    ghost value = { λ k. k.span };

    ghost meaning = { reserved_symbol N.AT N.text };

    #[tactic(auto, unfolding(crate::specs::readings::Types::reserved_symbol))]
    fn parse(parser: &mut Parser<'a>) -> Result<Self, Error> {
        parser.step(|c| match c.reserved()? {
            Some((text, next)) if text == N::word() => {
                Ok((ReservedSymbol::new(c.cur_span()), next))
            }
            _ => Err(c.error_of("expected reserved symbol ", N::display())),
        })
    }
}

impl<N: Word> Peek for ReservedSymbol<N> {
    ghost use Rattle.wat_lexer_parser.specs.parser.Takers.{as_reserved};
    ghost use Rattle.wat_lexer_parser.specs.readings.Types.{sees_word};

    ghost sight = { sees_word as_reserved N.text };

    ghost shows = { quoted N.AT N.text };

    fn peek(cursor: Cursor<'_, '_>) -> Result<bool, Error> {
        match cursor.reserved()? {
            Some((text, _)) => Ok(text == N::word()),
            None => Ok(false),
        }
    }

    fn display() -> &'static str {
        N::display()
    }
}

/// An annotation whose name is the word `N`.
#[derive(Clone, Copy, Debug)]
pub struct AnnotationWord<N: Word> {
    /// Offset of the annotation.
    pub span: Span,
    of: PhantomData<N>,
}

impl<N: Word> AnnotationWord<N> {
    /// Creates an annotation at an offset. The text is not read.
    pub fn new(span: Span) -> Self
        ensures { result.span ≡ span }
    {
        AnnotationWord {
            span,
            of: PhantomData,
        }
    }
}

impl<'a, N: Word> Parse<'a> for AnnotationWord<N> {
    ghost use Rattle.wat_lexer_parser.specs.readings.Types.{annotation};

    ghost Value = { ℕ };

    ghost value = { λ k. k.span };

    ghost meaning = { annotation N.AT N.text };

    #[tactic(auto, unfolding(crate::specs::readings::Types::annotation))]
    fn parse(parser: &mut Parser<'a>) -> Result<Self, Error> {
        parser.step(|c| match annotation(c, N::word())? {
            Some(next) => Ok((AnnotationWord::new(c.cur_span()), next)),
            None => Err(c.error_of("expected annotation ", N::display())),
        })
    }
}

impl<N: Word> Peek for AnnotationWord<N> {
    ghost use Rattle.wat_lexer_parser.specs.readings.Types.{sees_annotation};

    ghost sight = { sees_annotation N.text };

    ghost shows = { quoted N.AT N.text };

    fn peek(cursor: Cursor<'_, '_>) -> Result<bool, Error> {
        match annotation(cursor, N::word())? {
            Some(_) => Ok(true),
            None => Ok(false),
        }
    }

    fn display() -> &'static str {
        N::display()
    }
}

/// Consumes an annotation with the given name, and returns the cursor after it. Returns `None` if
/// another token is next.
fn annotation<'p, 'a>(cursor: Cursor<'p, 'a>, name: &str) -> Result<Option<Cursor<'p, 'a>>, Error>
    ensures value { Answers
        (allocates_at as_annotation (at_place cursor.entry.parser.now cursor.entry.at))
        (option_map (λ next. (tt, next.at)))
        (token_value_at (spelling as_annotation name.now)
        (at_place cursor.entry.parser.now cursor.entry.at))
        result }
    ensures parser { IfOk result (λ found. IfSome found (λ next.
        next.parser ≡ cursor.entry.parser)) }
    ensures on { IfOk result (λ found. IfSome found (λ next. cursor.entry.at < next.at)) }
{
    match cursor.annotation()? {
        Some((text, next)) if text.as_str() == name => Ok(Some(next)),
        _ => Ok(None),
    }
}
