//! Parses custom annotations, and the other tokens of a text as far as placements depend on them.
ghost use Rattle.std.specs.Prelude.{◌≡◌, ◌≤◌, ◌<◌, ℕ, List, Some, Ok, codes, map, IfOk};
ghost use Rattle.wat_lex.specs.declared.lexer.kinds.Token.{Token};
ghost use Rattle.std.specs.Cow.{cow_slice_items, cow_str_bytes};
ghost use Rattle.std.specs.Option.{option_map};
ghost use Rattle.wat_lexer_parser.specs.parser.Sights.{PeekIs, sight_of};
ghost use Rattle.wat_lexer_parser.specs.parser.State.{at_place};
ghost use Rattle.wat_lexer_parser.specs.readings.Readings.{many, token};
ghost use Rattle.wat_lexer_parser.specs.readings.Reads.{CursorReads, IsKept, Reads};
ghost use Rattle.wat_lexer_parser.specs.readings.Types.{bytes};
ghost use Rattle.wat_module_custom.specs.Customs.{anchor_named, as_piece, custom, custom_data};
ghost use Rattle.wat_module_custom.specs.Customs.{custom_place, expected_place, item, items};
ghost use Rattle.wat_module_custom.specs.Customs.{place, place_after, place_named, side};
ghost use Rattle.wat_module_custom.specs.Customs.{side_named};
ghost use Rattle.wat_module_custom.specs.Values.{item_of, section_of};

use crate::kw;
use crate::sections::{Anchor, CustomSection, Place, Side};
use std::borrow::{CowSlice, CowStr};
use wat_lexer_parser::Error;
use wat_lexer_parser::lexer::TokenKind;
use wat_lexer_parser::parser::{Cursor, Parse, Parser, Peek};
use wat_lexer_parser::token::LParen;

/// Returns the section that a keyword names in a placement, if there is one.
#[tactic(auto, unfolding(crate::specs::Customs::anchor_named))]
fn anchor_named(word: &str) -> Option<Anchor>
    ensures { result ≡ anchor_named word.now }
{
    match word {
        "type" => Some(Anchor::Type),
        "import" => Some(Anchor::Import),
        "func" => Some(Anchor::Func),
        "table" => Some(Anchor::Table),
        "memory" => Some(Anchor::Memory),
        "tag" => Some(Anchor::Tag),
        "global" => Some(Anchor::Global),
        "export" => Some(Anchor::Export),
        "start" => Some(Anchor::Start),
        "elem" => Some(Anchor::Elem),
        "datacount" => Some(Anchor::DataCount),
        "code" => Some(Anchor::Code),
        "data" => Some(Anchor::Data),
        _ => None,
    }
}

/// Returns the side that a keyword names, if there is one.
#[tactic(auto, unfolding(crate::specs::Customs::side_named))]
fn side_named(word: &str) -> Option<Side>
    ensures { result ≡ side_named word.now }
{
    match word {
        "before" => Some(Side::Before),
        "after" => Some(Side::After),
        _ => None,
    }
}

/// Returns the placement on a side of the section that a keyword names, if there is one.
fn around(side: Side, word: &str) -> Option<Place>
    ensures { result ≡ option_map (λ a. Place.Around side a) (anchor_named word.now) }
{
    match anchor_named(word) {
        Some(anchor) => Some(Place::Around(side, anchor)),
        None => None,
    }
}

/// Returns the placement that a keyword names after `before`, if there is one.
#[tactic(auto, unfolding(crate::specs::Customs::place_named))]
fn place_before(word: &str) -> Option<Place>
    ensures { result ≡ place_named Side.Before word.now }
{
    match word {
        "first" => Some(Place::BeforeFirst),
        _ => around(Side::Before, word),
    }
}

/// Returns the placement that a keyword names after `after`, if there is one.
#[tactic(auto, unfolding(crate::specs::Customs::place_named))]
fn place_behind(word: &str) -> Option<Place>
    ensures { result ≡ place_named Side.After word.now }
{
    match word {
        "last" => Some(Place::AfterLast),
        _ => around(Side::After, word),
    }
}

/// Returns the placement that a keyword names after `before` or `after`, if there is one.
fn place_named(side: Side, word: &str) -> Option<Place>
    ensures { result ≡ place_named side word.now }
{
    match side {
        Side::Before => place_before(word),
        Side::After => place_behind(word),
    }
}

/// Returns what an error expects after `before` or `after`.
fn expected_place(side: Side) -> &'static str
    ensures { result.now ≡ expected_place side }
{
    match side {
        Side::Before => "expected `first` or a section",
        Side::After => "expected `last` or a section",
    }
}

/// Consumes `before` or `after`.
#[tactic(auto, unfolding(crate::specs::Customs::side))]
fn side_at<'p, 'a>(cursor: Cursor<'p, 'a>) -> Result<(Side, Cursor<'p, 'a>), Error>
    ensures value { CursorReads (λ v. v) side.reading
        (at_place cursor.entry.parser.now cursor.entry.at) (λ next. next.at) result }
    ensures parser { IfOk result (λ v. v.1.parser ≡ cursor.entry.parser) }
    ensures on { IfOk result (λ v. cursor.entry.at < v.1.at) }
{
    let Some((word, next)) = cursor.keyword()? else {
        return Err(cursor.error("expected `before` or `after`"));
    };
    match side_named(word) {
        Some(side) => Ok((side, next)),
        None => Err(cursor.error("expected `before` or `after`")),
    }
}

/// Consumes the keyword after `before` or `after`.
#[tactic(auto, unfolding(crate::specs::Customs::place_after))]
fn place_at<'p, 'a>(side: Side, cursor: Cursor<'p, 'a>) -> Result<(Place, Cursor<'p, 'a>), Error>
    ensures value { CursorReads (λ v. v) (place_after side).reading
        (at_place cursor.entry.parser.now cursor.entry.at) (λ next. next.at) result }
    ensures parser { IfOk result (λ v. v.1.parser ≡ cursor.entry.parser) }
    ensures on { IfOk result (λ v. cursor.entry.at < v.1.at) }
{
    let Some((word, next)) = cursor.keyword()? else {
        return Err(cursor.error(expected_place(side)));
    };
    match place_named(side, word) {
        Some(place) => Ok((place, next)),
        None => Err(cursor.error(expected_place(side))),
    }
}

/// Parses a placement, between its parentheses.
#[tactic(auto, unfolding(crate::specs::Customs::place))]
fn place(parser: &mut Parser<'_>) -> Result<Place, Error>
    ensures kept { IsKept parser.old parser.new }
    ensures on { parser.old.place ≤ parser.new.place }
    ensures reads { Reads (λ p. p) place.reading parser.old result parser.new.place }
{
    let side = side_of(parser)?;
    place_of(parser, side)
}

/// Parses `before` or `after`.
fn side_of(parser: &mut Parser<'_>) -> Result<Side, Error>
    ensures kept { IsKept parser.old parser.new }
    ensures on { parser.old.place ≤ parser.new.place }
    ensures reads { Reads (λ s. s) side.reading parser.old result parser.new.place }
{
    parser.step(|cursor| side_at(cursor))
}

/// Parses the keyword after `before` or `after`.
fn place_of(parser: &mut Parser<'_>, side: Side) -> Result<Place, Error>
    ensures kept { IsKept parser.old parser.new }
    ensures on { parser.old.place ≤ parser.new.place }
    ensures reads { Reads (λ p. p) (place_after side).reading parser.old result parser.new.place }
{
    parser.step(|cursor| place_at(side, cursor))
}

/// Parses a custom annotation, between its parentheses.
#[tactic(auto, unfolding(crate::specs::Customs::custom))]
fn custom<'a>(parser: &mut Parser<'a>) -> Result<CustomSection<'a>, Error>
    ensures kept { IsKept parser.old parser.new }
    ensures on { parser.old.place ≤ parser.new.place }
    ensures reads { Reads (λ s. section_of s) custom.reading parser.old result parser.new.place }
{
    parser.parse::<kw::custom>()?;
    let name = parser.parse::<CowStr>()?;
    custom_place(parser, name)
}

/// Parses a custom annotation after its name.
#[tactic(auto, unfolding(crate::specs::Customs::custom_place))]
fn custom_place<'a>(parser: &mut Parser<'a>, name: CowStr<'a>) -> Result<CustomSection<'a>, Error>
    ensures kept { IsKept parser.old parser.new }
    ensures on { parser.old.place ≤ parser.new.place }
    ensures reads { Reads (λ s. section_of s) (custom_place (cow_str_bytes name.entry)).reading
        parser.old result parser.new.place }
{
    if parser.peek::<LParen>()? {
        let place = parser.parens(place)?;
        return custom_data(parser, name, Some(place));
    }
    custom_data(parser, name, None)
}

/// Parses the strings of a custom annotation.
#[tactic(auto, unfolding(crate::specs::Customs::custom_data))]
fn custom_data<'a>(
    parser: &mut Parser<'a>,
    name: CowStr<'a>,
    place: Option<Place>,
) -> Result<CustomSection<'a>, Error>
    ensures kept { IsKept parser.old parser.new }
    ensures on { parser.old.place ≤ parser.new.place }
    ensures reads { Reads (λ s. section_of s)
        (custom_data (cow_str_bytes name.entry) place).reading parser.old result
        parser.new.place }
{
    let data = strings(parser)?;
    let place = place.unwrap_or(Place::AfterLast);
    Ok(CustomSection { name, place, data })
}

/// Parses strings up to `)`.
fn strings<'a>(parser: &mut Parser<'a>) -> Result<Vec<CowSlice<'a, u8>>, Error>
    ensures kept { IsKept parser.old parser.new }
    ensures on { parser.old.place ≤ parser.new.place }
    ensures reads { Reads (λ v. map cow_slice_items v.items) (many bytes) parser.old result
        parser.new.place }
{
    parser.all_of::<CowSlice<'a, u8>>()
}

/// A token outside of custom annotations, by its effect on where an annotation may be.
#[derive(Clone, Copy, Debug, PartialEq, Eq)]
pub enum Piece {
    /// `(`.
    Open,
    /// `)`.
    Close,
    /// The keyword `module`.
    Module,
    /// An identifier.
    Id,
    /// Any other token.
    Other,
}

impl Peek for Piece {
    ghost sight = { sight_of as_piece };

    ghost shows = { codes "token" };

    fn peek(cursor: Cursor<'_, '_>) -> Result<bool, Error> {
        match cursor.token()? {
            Some(_) => Ok(true),
            None => Ok(false),
        }
    }

    fn display() -> &'static str {
        "token"
    }
}

impl<'a> Parse<'a> for Piece {
    ghost use Rattle.std.specs.Prelude.{codes};
    ghost use Rattle.wat_lexer_parser.specs.readings.Readings.{token};
    ghost use Rattle.wat_module_custom.specs.Customs.{as_piece};
    ghost use Rattle.wat_module_custom.specs.declared.reading.Piece.{Piece as Value};

    ghost Value = { Value };

    ghost value = { λ p. p };

    ghost meaning = { token as_piece (codes "expected a token") };

    fn parse(parser: &mut Parser<'a>) -> Result<Piece, Error> {
        parser.step(|cursor| piece_at(cursor))
    }
}

/// Consumes a token that is not the keyword `module`.
fn piece_at<'p, 'a>(cursor: Cursor<'p, 'a>) -> Result<(Piece, Cursor<'p, 'a>), Error>
    ensures value { CursorReads (λ v. v) (token as_piece (codes "expected a token"))
        (at_place cursor.entry.parser.now cursor.entry.at) (λ next. next.at) result }
    ensures parser { IfOk result (λ v. v.1.parser ≡ cursor.entry.parser) }
    ensures on { IfOk result (λ v. cursor.entry.at < v.1.at) }
{
    let Some((token, next)) = cursor.any()? else {
        return Err(cursor.error("expected a token"));
    };
    Ok((piece_of(token.kind), next))
}

/// Returns the piece of a token that is not the keyword `module`.
fn piece_of(kind: TokenKind) -> Piece
    ensures { (text : List ℕ) (t : Token) → as_piece text t kind ≡ Some (Ok result) }
{
    match kind {
        TokenKind::LParen => Piece::Open,
        TokenKind::RParen => Piece::Close,
        TokenKind::Id => Piece::Id,
        _ => Piece::Other,
    }
}

/// A custom annotation or another token.
#[derive(Debug, Drop)]
pub enum Item<'a> {
    /// A token outside of custom annotations.
    Plain(Piece),
    /// A custom annotation, with the offset of its `(`.
    Annotated(CustomSection<'a>, usize),
}

impl<'a> Parse<'a> for Item<'a> {
    ghost use Rattle.wat_module_custom.specs.Customs.{Item as Value, item};
    ghost use Rattle.wat_module_custom.specs.Values.{item_of};

    ghost Value = { Value };

    ghost value = { λ i. item_of i };

    ghost meaning = { item.reading };

    #[tactic(auto, unfolding(crate::specs::Customs::item))]
    fn parse(parser: &mut Parser<'a>) -> Result<Item<'a>, Error> {
        if parser.peek2::<kw::custom>()? {
            let span = parser.cur_span();
            let section = parser.parens(custom)?;
            return Ok(Item::Annotated(section, span.offset()));
        }
        if parser.peek::<kw::module>()? {
            parser.parse::<kw::module>()?;
            return Ok(Item::Plain(Piece::Module));
        }
        Ok(Item::Plain(parser.parse::<Piece>()?))
    }
}

/// All items of a text.
#[derive(Debug, Drop)]
pub struct Items<'a> {
    /// The items, in source order.
    pub items: Vec<Item<'a>>,
}

impl<'a> Parse<'a> for Items<'a> {
    ghost use Rattle.std.specs.Prelude.{List, map};
    ghost use Rattle.wat_module_custom.specs.Customs.{Item as Value, items};
    ghost use Rattle.wat_module_custom.specs.Values.{item_of};

    ghost Value = { List Value };

    ghost value = { λ l. map (λ i. item_of i) l.items.items };

    ghost meaning = { items.reading };

    #[tactic(auto, unfolding(crate::specs::Customs::items))]
    fn parse(parser: &mut Parser<'a>) -> Result<Items<'a>, Error> {
        Ok(Items {
            items: parser.all_while::<Piece, Item<'a>>()?,
        })
    }
}

/// All items of a text in which the annotation `@custom` is visible.
#[derive(Debug, Drop)]
pub struct AllItems<'a> {
    /// The items, in source order.
    pub items: Items<'a>,
}

impl<'a> Parse<'a> for AllItems<'a> {
    ghost use Rattle.std.specs.Prelude.{List, map};
    ghost use Rattle.wat_module_custom.specs.Customs.{Item as Value, all_items};
    ghost use Rattle.wat_module_custom.specs.Values.{item_of};

    ghost Value = { List Value };

    ghost value = { λ l. map (λ i. item_of i) l.items.items.items };

    ghost meaning = { all_items };

    #[tactic(auto, unfolding(crate::specs::Customs::all_items))]
    fn parse(parser: &mut Parser<'a>) -> Result<AllItems<'a>, Error> {
        Ok(AllItems {
            items: parser.with_annotation::<Items<'a>>("custom")?,
        })
    }
}
