//! Identifiers, indices and item references.
ghost use Rattle.std.specs.Prelude.{◌≡◌, ◌<◌, codes, IfOk, IfSome};
ghost use Rattle.std.specs.Cow.{cow_str_bytes};
ghost use Rattle.std.specs.Option.{option_map};
ghost use Rattle.wat_lex.specs.identifiers.Identifiers.{is_owned_str};
ghost use Rattle.wat_lexer_parser.specs.parser.Sights.{PeekIs};
ghost use Rattle.wat_lexer_parser.specs.parser.State.{Answers, at_place};
ghost use Rattle.wat_lexer_parser.specs.parser.Takers.{allocates_at, token_value_at};
ghost use Rattle.wat_lexer_parser.specs.readings.Types.{as_owned_id};

use crate::parser::{Cursor, Parse, Parser, Peek};
use std::alloc::{AllocError, Global};
use std::borrow::CowStr;
use wat_lex::error::Error;
use wat_lex::lexer::TokenKind;
use wat_lex::token::{Id, Index, Span};

impl<'a> Parse<'a> for Id<'a> {
    ghost use Rattle.wat_lexer_parser.specs.readings.Types.{Spelled, identifier, spelled};

    ghost Value = { Spelled };

    ghost value = { λ i. spelled i };

    ghost meaning = { identifier };

    fn parse(parser: &mut Parser<'a>) -> Result<Id<'a>, Error> {
        parser.step(|c| match named(c)? {
            Some((name, next)) => Ok((Id::from_cow(name, c.cur_span()), next)),
            None => Err(c.error("expected an identifier")),
        })
    }
}

/// Consumes an identifier, and returns its name and the cursor after it. Returns `None` if another
/// token is next. The contract also determines whether the name is owned.
fn named<'p, 'a>(cursor: Cursor<'p, 'a>) -> Result<Option<(CowStr<'a>, Cursor<'p, 'a>)>, Error>
    ensures value { Answers
        (allocates_at as_owned_id (at_place cursor.entry.parser.now cursor.entry.at))
        (option_map (λ v. ((cow_str_bytes v.0, is_owned_str v.0), v.1.at)))
        (token_value_at as_owned_id (at_place cursor.entry.parser.now cursor.entry.at)) result }
    ensures parser { IfOk result (λ found. IfSome found (λ v.
        v.1.parser ≡ cursor.entry.parser)) }
    ensures on { IfOk result (λ found. IfSome found (λ v. cursor.entry.at < v.1.at)) }
{
    cursor.id()
}

impl<'a> Peek for Id<'a> {
    ghost use Rattle.wat_lexer_parser.specs.readings.Types.{an_identifier};

    ghost sight = { an_identifier };

    ghost shows = { codes "an identifier" };

    fn peek(cursor: Cursor<'_, '_>) -> Result<bool, Error>
        ensures { PeekIs (an_identifier (at_place cursor.entry.parser.now cursor.entry.at)) result }
    {
        cursor.peek_id()
    }

    fn display() -> &'static str
        ensures { result.now ≡ codes "an identifier" }
    {
        "an identifier"
    }
}

impl<'a> Parse<'a> for Index<'a> {
    ghost use Rattle.wat_lexer_parser.specs.readings.Types.{Reference, an_index, reference};

    ghost Value = { Reference };

    ghost value = { λ i. reference i };

    ghost meaning = { an_index };

    fn parse(parser: &mut Parser<'a>) -> Result<Index<'a>, Error> {
        if parser.peek::<Id>()? {
            return Ok(Index::Id(parser.parse::<Id>()?));
        }
        if parser.peek::<u32>()? {
            let (number, span) = parser.parse::<(u32, Span)>()?;
            return Ok(Index::Num(number, span));
        }
        Err(parser.error("unexpected token, expected an index or an identifier"))
    }
}

impl<'a> Peek for Index<'a> {
    ghost use Rattle.wat_lexer_parser.specs.readings.Types.{sees_index};

    ghost sight = { sees_index };

    ghost shows = { codes "an index" };

    fn peek(cursor: Cursor<'_, '_>) -> Result<bool, Error>
        ensures { PeekIs (sees_index (at_place cursor.entry.parser.now cursor.entry.at)) result }
    {
        match cursor.token()? {
            Some(token) => Ok(matches!(token.kind, TokenKind::Id | TokenKind::Integer(_))),
            None => Ok(false),
        }
    }

    fn display() -> &'static str
        ensures { result.now ≡ codes "an index" }
    {
        "an index"
    }
}

/// A reference to an item of a given kind, like `(func $f)`.
#[derive(Debug, Drop)]
pub struct ItemRef<'a, K> {
    /// Kind of the item.
    pub kind: K,
    /// Index of the item.
    pub idx: Index<'a>,
}

impl<'a, K: Clone> ItemRef<'a, K> {
    ghost use Rattle.std.specs.Prelude.{false, IfOk, IsOk};
    ghost use Rattle.wat_lex.specs.identifiers.Indices.{owns_name};

    /// Returns a copy, made with the `clone` of the kind and [`Index::clone`].
    pub fn clone(&self, alloc: Global) -> Result<Self, AllocError>
        ensures kind { IfOk result (λ copy. K.is_clone self.now.kind copy.kind) }
        ensures idx { IfOk result (λ copy. copy.idx ≡ self.now.idx) }
        ensures free { K.is_infallible self.now.kind → owns_name self.now.idx ≡ false →
            IsOk result }
    {
        let kind = self.kind.clone()?;
        let idx = self.idx.clone(alloc)?;
        Ok(ItemRef { kind, idx })
    }
}

impl<'a, K: Parse<'a>> Parse<'a> for ItemRef<'a, K> {
    ghost use Rattle.wat_lexer_parser.specs.readings.Types.{Reference, item, reference};

    ghost Value = { K.Value × Reference };

    ghost value = { λ i. (K.value i.kind, reference i.idx) };

    ghost meaning = { item K.meaning };

    fn parse(parser: &mut Parser<'a>) -> Result<ItemRef<'a, K>, Error> {
        let (kind, idx) = parser.parens_of_two::<K, Index<'a>>()?;
        Ok(ItemRef { kind, idx })
    }
}

impl<'a, K: Peek> Peek for ItemRef<'a, K> {
    ghost use Rattle.wat_lexer_parser.specs.readings.Types.{after_open};

    ghost sight = { after_open K.sight };

    ghost shows = { codes "an item reference" };

    fn peek(cursor: Cursor<'_, '_>) -> Result<bool, Error>
        ensures { PeekIs (after_open K.sight
            (at_place cursor.entry.parser.now cursor.entry.at)) result }
    {
        match cursor.lparen()? {
            Some(next) => K::peek(next),
            None => Ok(false),
        }
    }

    fn display() -> &'static str
        ensures { result.now ≡ codes "an item reference" }
    {
        "an item reference"
    }
}
