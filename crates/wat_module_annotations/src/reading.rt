//! Parses name annotations, and the other tokens of a text as far as placements depend on them.
ghost use Rattle.std.specs.Prelude.{◌≡◌, ◌≤◌, ◌<◌, ℕ, List, None, Some, Ok, codes, map, IfOk};
ghost use Rattle.std.specs.Option.{option_map};
ghost use Rattle.wat_lex.specs.declared.lexer.kinds.Token.{Token};
ghost use Rattle.wat_lexer_parser.specs.parser.Sights.{sight_of};
ghost use Rattle.wat_lexer_parser.specs.parser.State.{at_place};
ghost use Rattle.wat_lexer_parser.specs.parser.Takers.{as_close, as_keyword};
ghost use Rattle.wat_lexer_parser.specs.readings.Readings.{many, mapped, optional, spanned, token};
ghost use Rattle.wat_lexer_parser.specs.readings.Reads.{CursorReads, IsKept, Reads};
ghost use Rattle.wat_lexer_parser.specs.readings.Types.{an_identifier, optional_name};
ghost use Rattle.wat_module_annotations.specs.Items.{after_id, any_token, as_other, checked_occurrence};
ghost use Rattle.wat_module_annotations.specs.Items.{closing, group_by, import};
ghost use Rattle.wat_module_annotations.specs.Items.{imported, imported_by, item, item_by, items};
ghost use Rattle.wat_module_annotations.specs.Items.{occurrence, occurrence_by, one_type, opened, role_of, stray};
ghost use Rattle.wat_module_annotations.specs.Items.{types, unnamed, variables, variables_by, word};
ghost use Rattle.wat_module_annotations.specs.Values.{item_of, label_of, occurrence_of, variable_of};

use std::borrow::CowSlice;
use wat_lexer_parser::lexer::TokenKind;
use wat_lexer_parser::parser::{Cursor, Parse, Parser, Peek};
use wat_lexer_parser::token::{Id, LParen, NameAnnotation};
use wat_lexer_parser::{Error, annotation};

/// The role of a token, by what it begins.
#[derive(Clone, Copy, Debug, PartialEq, Eq)]
pub enum Role {
    /// `(`.
    Open,
    /// `)`.
    Close,
    /// The keyword `module`.
    Module,
    /// The keyword `func`.
    Func,
    /// The keyword of another field with an identifier, except `import`.
    Field,
    /// The keyword `import`.
    Import,
    /// The keyword `export` or `result`.
    Header,
    /// The keyword `param`.
    Param,
    /// The keyword `local`.
    Local,
    /// The keyword `block` or `loop`.
    Block,
    /// The keyword `if`.
    If,
    /// The keyword `then`.
    Then,
    /// Any other token.
    Other,
}

/// Returns the role of a keyword.
#[tactic(auto, unfolding(crate::specs::Items::role_of))]
fn role_of(word: &str) -> Role
    ensures { result ≡ role_of word.now }
{
    match word {
        "block" | "loop" => Role::Block,
        "if" => Role::If,
        "then" => Role::Then,
        "param" => Role::Param,
        "local" => Role::Local,
        "result" | "export" => Role::Header,
        "func" => Role::Func,
        "type" | "table" | "memory" | "global" | "elem" | "data" => Role::Field,
        "import" => Role::Import,
        "module" => Role::Module,
        _ => Role::Other,
    }
}

/// A keyword, as a type to peek at.
pub struct AnyKeyword(());

impl Peek for AnyKeyword {
    ghost use Rattle.std.specs.Prelude.{codes};
    ghost use Rattle.wat_lexer_parser.specs.parser.Sights.{sight_of};
    ghost use Rattle.wat_lexer_parser.specs.parser.Takers.{as_keyword};

    ghost sight = { sight_of as_keyword };

    ghost shows = { codes "keyword" };

    fn peek(cursor: Cursor<'_, '_>) -> Result<bool, Error> {
        cursor.peek_keyword()
    }

    fn display() -> &'static str {
        "keyword"
    }
}

impl Peek for Role {
    ghost sight = { sight_of as_other };

    ghost shows = { codes "token" };

    fn peek(cursor: Cursor<'_, '_>) -> Result<bool, Error> {
        match cursor.token()? {
            Some(_) => Ok(true),
            None => Ok(false),
        }
    }

    fn display() -> &'static str {
        "token"
    }
}

/// Consumes a keyword.
fn word_at<'p, 'a>(cursor: Cursor<'p, 'a>) -> Result<(Role, Cursor<'p, 'a>), Error>
    ensures value { CursorReads (λ v. v)
        (mapped role_of (token as_keyword (codes "expected a keyword")))
        (at_place cursor.entry.parser.now cursor.entry.at) (λ next. next.at) result }
    ensures parser { IfOk result (λ v. v.1.parser ≡ cursor.entry.parser) }
    ensures on { IfOk result (λ v. cursor.entry.at < v.1.at) }
{
    let Some((word, next)) = cursor.keyword()? else {
        return Err(cursor.error("expected a keyword"));
    };
    Ok((role_of(word), next))
}

/// Returns the role of a token that is not a keyword.
fn role_of_kind(kind: TokenKind) -> Role
    ensures { (text : List ℕ) (t : Token) → as_other text t kind ≡ Some (Ok result) }
{
    match kind {
        TokenKind::LParen => Role::Open,
        TokenKind::RParen => Role::Close,
        _ => Role::Other,
    }
}

/// Consumes a token that is not a keyword.
fn other_at<'p, 'a>(cursor: Cursor<'p, 'a>) -> Result<(Role, Cursor<'p, 'a>), Error>
    ensures value { CursorReads (λ v. v) (token as_other (codes "expected a token"))
        (at_place cursor.entry.parser.now cursor.entry.at) (λ next. next.at) result }
    ensures parser { IfOk result (λ v. v.1.parser ≡ cursor.entry.parser) }
    ensures on { IfOk result (λ v. cursor.entry.at < v.1.at) }
{
    let Some((token, next)) = cursor.any()? else {
        return Err(cursor.error("expected a token"));
    };
    Ok((role_of_kind(token.kind), next))
}

/// Consumes `)`.
fn close_at<'p, 'a>(cursor: Cursor<'p, 'a>) -> Result<((), Cursor<'p, 'a>), Error>
    ensures value { CursorReads (λ v. tt) (token as_close (codes "expected `)`"))
        (at_place cursor.entry.parser.now cursor.entry.at) (λ next. next.at) result }
    ensures parser { IfOk result (λ v. v.1.parser ≡ cursor.entry.parser) }
    ensures on { IfOk result (λ v. cursor.entry.at < v.1.at) }
{
    let Some(next) = cursor.rparen()? else {
        return Err(cursor.error("expected `)`"));
    };
    Ok(((), next))
}

/// Parses a keyword.
#[tactic(auto, unfolding(crate::specs::Items::word))]
fn word(parser: &mut Parser<'_>) -> Result<Role, Error>
    ensures kept { IsKept parser.old parser.new }
    ensures on { parser.old.place ≤ parser.new.place }
    ensures reads { Reads (λ r. r) word.reading parser.old result parser.new.place }
{
    parser.step(|cursor| word_at(cursor))
}

/// Parses a token that is not a keyword.
fn other(parser: &mut Parser<'_>) -> Result<Role, Error>
    ensures kept { IsKept parser.old parser.new }
    ensures on { parser.old.place ≤ parser.new.place }
    ensures reads { Reads (λ r. r) (token as_other (codes "expected a token")) parser.old result
        parser.new.place }
{
    parser.step(|cursor| other_at(cursor))
}

/// Parses `)`.
#[tactic(auto, unfolding(crate::specs::Items::closing))]
fn closing(parser: &mut Parser<'_>) -> Result<(), Error>
    ensures kept { IsKept parser.old parser.new }
    ensures on { parser.old.place ≤ parser.new.place }
    ensures reads { Reads (λ u. tt) closing.reading parser.old result parser.new.place }
{
    parser.step(|cursor| close_at(cursor))
}

/// Parses a token.
#[tactic(auto, unfolding(crate::specs::Items::any_token))]
fn any_token(parser: &mut Parser<'_>) -> Result<Role, Error>
    ensures kept { IsKept parser.old parser.new }
    ensures on { parser.old.place ≤ parser.new.place }
    ensures reads { Reads (λ r. r) any_token.reading parser.old result parser.new.place }
{
    if parser.peek::<AnyKeyword>()? {
        return word(parser);
    }
    other(parser)
}

/// A binding occurrence of an identifier.
#[derive(Debug, Drop)]
pub struct Occurrence<'a> {
    /// The annotation, if there is one.
    pub name: Option<NameAnnotation<'a>>,
    /// The offset of what follows the identifier, which is that of the annotation.
    pub offset: usize,
}

/// Parses an identifier, if there is one.
fn skip_id(parser: &mut Parser<'_>) -> Result<Option<Role>, Error>
    ensures kept { IsKept parser.old parser.new }
    ensures on { parser.old.place ≤ parser.new.place }
    ensures reads { Reads (λ r. r) (optional an_identifier any_token.reading) parser.old result
        parser.new.place }
{
    if parser.peek::<Id>()? {
        return Ok(Some(any_token(parser)?));
    }
    Ok(None)
}

/// Parses an optional annotation.
fn annotation_at<'a>(parser: &mut Parser<'a>) -> Result<Occurrence<'a>, Error>
    ensures kept { IsKept parser.old parser.new }
    ensures on { parser.old.place ≤ parser.new.place }
    ensures reads { Reads (λ o. occurrence_of o) (mapped occurrence_by (spanned optional_name))
        parser.old result parser.new.place }
{
    let span = parser.cur_span();
    let name = NameAnnotation::parse_option(parser)?;
    let offset = span.offset();
    Ok(Occurrence { name, offset })
}

/// Returns an occurrence, or an error if an identifier follows its annotation.
#[tactic(auto, unfolding(crate::specs::Items::checked_occurrence))]
fn checked_occurrence<'a>(
    parser: &mut Parser<'a>,
    occurrence: Occurrence<'a>,
) -> Result<Occurrence<'a>, Error>
    ensures kept { IsKept parser.old parser.new }
    ensures on { parser.old.place ≤ parser.new.place }
    ensures reads { Reads (λ o. occurrence_of o)
        (checked_occurrence (occurrence_of occurrence.entry)).reading parser.old result
        parser.new.place }
{
    if occurrence.name.is_none() {
        return Ok(occurrence);
    }
    if parser.peek::<Id>()? {
        return Err(parser.error("annotation `@name` before the identifier"));
    }
    Ok(occurrence)
}

/// Parses an optional annotation, which no identifier may follow.
#[tactic(auto, unfolding(crate::specs::Items::after_id))]
fn after_id<'a>(parser: &mut Parser<'a>) -> Result<Occurrence<'a>, Error>
    ensures kept { IsKept parser.old parser.new }
    ensures on { parser.old.place ≤ parser.new.place }
    ensures reads { Reads (λ o. occurrence_of o) after_id.reading parser.old result
        parser.new.place }
{
    let occurrence = annotation_at(parser)?;
    checked_occurrence(parser, occurrence)
}

/// Parses an optional identifier and an optional annotation.
#[tactic(auto, unfolding(crate::specs::Items::occurrence))]
fn binding<'a>(parser: &mut Parser<'a>) -> Result<Occurrence<'a>, Error>
    ensures kept { IsKept parser.old parser.new }
    ensures on { parser.old.place ≤ parser.new.place }
    ensures reads { Reads (λ o. occurrence_of o) occurrence.reading parser.old result
        parser.new.place }
{
    skip_id(parser)?;
    after_id(parser)
}

/// The name of a parameter, local or label, if an annotation gives one.
#[derive(Debug, Drop)]
pub struct VariableName<'a> {
    /// The annotation, if there is one.
    pub name: Option<NameAnnotation<'a>>,
}

impl<'a> Parse<'a> for VariableName<'a> {
    ghost use Rattle.wat_module_annotations.specs.Items.{unnamed};
    ghost use Rattle.wat_module_annotations.specs.Values.{variable_of};
    ghost use Rattle.wat_module_tokens.specs.Terminals.{Label};

    ghost Value = { Label };

    ghost value = { λ v. variable_of v };

    ghost meaning = { unnamed.reading };

    #[tactic(auto, unfolding(crate::specs::Items::unnamed))]
    fn parse(parser: &mut Parser<'a>) -> Result<VariableName<'a>, Error> {
        word(parser)?;
        Ok(VariableName { name: None })
    }
}

/// An item of a text: the tokens around a binding occurrence, or another token. One that begins
/// with `(` opens a group, if it is not said to be whole.
#[derive(Debug, Drop)]
pub enum Item<'a> {
    /// An annotation at an offset that is not directly after a keyword or identifier.
    Stray(usize),
    /// `(`, with the keyword after it, if there is one, of any other group.
    Open,
    /// `)`.
    Close,
    /// `(export`, `(result` and an inline `(import "" ""`.
    Header,
    /// `(module $x`.
    Module(Occurrence<'a>),
    /// `(func $x`, and so for the other fields, except imports.
    Field(Occurrence<'a>),
    /// `(import "" "" (func $x`.
    Import(Occurrence<'a>),
    /// `(param i32 i32)` or `(local i32 i32)`, whole; `true` for parameters.
    Variables(bool, Vec<VariableName<'a>>),
    /// `(param $x (@name "") i32)`, and so for `local`, whole; `true` for a parameter.
    Variable(bool, Occurrence<'a>),
    /// `block $x`, and so for `loop` and `if`.
    Block(Occurrence<'a>),
    /// `(block $x` and `(loop $x`.
    FoldedBlock(Occurrence<'a>),
    /// `(if $x`.
    FoldedIf(Occurrence<'a>),
    /// `(then`.
    Then,
    /// Any other token.
    Other,
}

/// Parses the type after an annotation, and `)`.
#[tactic(auto, unfolding(crate::specs::Items::one_type))]
fn one_type<'a>(
    parser: &mut Parser<'a>,
    is_param: bool,
    occurrence: Occurrence<'a>,
) -> Result<Item<'a>, Error>
    ensures kept { IsKept parser.old parser.new }
    ensures on { parser.old.place ≤ parser.new.place }
    ensures reads { Reads (λ i. item_of i)
        (one_type is_param (occurrence_of occurrence.entry)).reading parser.old result
        parser.new.place }
{
    word(parser)?;
    closing(parser)?;
    Ok(Item::Variable(is_param, occurrence))
}

/// Parses any number of types, and `)`.
#[tactic(auto, unfolding(crate::specs::Items::types))]
fn types<'a>(parser: &mut Parser<'a>, is_param: bool) -> Result<Item<'a>, Error>
    ensures kept { IsKept parser.old parser.new }
    ensures on { parser.old.place ≤ parser.new.place }
    ensures reads { Reads (λ i. item_of i) (types is_param).reading parser.old result
        parser.new.place }
{
    let names = unnamed(parser)?;
    closing(parser)?;
    Ok(Item::Variables(is_param, names))
}

/// Parses types up to `)`.
fn unnamed<'a>(parser: &mut Parser<'a>) -> Result<Vec<VariableName<'a>>, Error>
    ensures kept { IsKept parser.old parser.new }
    ensures on { parser.old.place ≤ parser.new.place }
    ensures reads { Reads (λ v. map variable_of v.items) (many unnamed.reading) parser.old result
        parser.new.place }
{
    parser.all_of::<VariableName<'a>>()
}

/// Parses parameters or locals after `(param` or `(local`.
#[tactic(auto, unfolding(crate::specs::Items::variables))]
fn variables<'a>(parser: &mut Parser<'a>, is_param: bool) -> Result<Item<'a>, Error>
    ensures kept { IsKept parser.old parser.new }
    ensures on { parser.old.place ≤ parser.new.place }
    ensures reads { Reads (λ i. item_of i) (variables is_param).reading parser.old result
        parser.new.place }
{
    let occurrence = binding(parser)?;
    if occurrence.name.is_some() {
        return one_type(parser, is_param, occurrence);
    }
    types(parser, is_param)
}

/// Parses the contents of an import description, after its keyword.
fn imported_by<'a>(parser: &mut Parser<'a>, role: Role) -> Result<Item<'a>, Error>
    ensures kept { IsKept parser.old parser.new }
    ensures on { parser.old.place ≤ parser.new.place }
    ensures reads { Reads (λ i. item_of i) (imported_by role).reading parser.old result
        parser.new.place }
{
    match role {
        Role::Func => Ok(Item::Import(binding(parser)?)),
        _ => Ok(Item::Import(Occurrence {
            name: None,
            offset: 0,
        })),
    }
}

/// Parses an import description, if there is one.
#[tactic(auto, unfolding(crate::specs::Items::imported))]
fn imported<'a>(parser: &mut Parser<'a>) -> Result<Item<'a>, Error>
    ensures kept { IsKept parser.old parser.new }
    ensures on { parser.old.place ≤ parser.new.place }
    ensures reads { Reads (λ i. item_of i) imported.reading parser.old result parser.new.place }
{
    if parser.peek::<LParen>()? {
        any_token(parser)?;
        let role = word(parser)?;
        return imported_by(parser, role);
    }
    Ok(Item::Header)
}

/// Parses an import after its keyword.
#[tactic(auto, unfolding(crate::specs::Items::import))]
fn import<'a>(parser: &mut Parser<'a>) -> Result<Item<'a>, Error>
    ensures kept { IsKept parser.old parser.new }
    ensures on { parser.old.place ≤ parser.new.place }
    ensures reads { Reads (λ i. item_of i) import.reading parser.old result parser.new.place }
{
    parser.parse::<CowSlice<'a, u8>>()?;
    parser.parse::<CowSlice<'a, u8>>()?;
    imported(parser)
}

/// Parses an item that begins with `(` after its keyword.
fn group_by<'a>(parser: &mut Parser<'a>, role: Role) -> Result<Item<'a>, Error>
    ensures kept { IsKept parser.old parser.new }
    ensures on { parser.old.place ≤ parser.new.place }
    ensures reads { Reads (λ i. item_of i) (group_by role).reading parser.old result
        parser.new.place }
{
    match role {
        Role::Module => Ok(Item::Module(binding(parser)?)),
        Role::Func | Role::Field => Ok(Item::Field(binding(parser)?)),
        Role::Import => import(parser),
        Role::Header => Ok(Item::Header),
        Role::Param => variables(parser, true),
        Role::Local => variables(parser, false),
        Role::Block => Ok(Item::FoldedBlock(binding(parser)?)),
        Role::If => Ok(Item::FoldedIf(binding(parser)?)),
        Role::Then => Ok(Item::Then),
        Role::Open | Role::Close | Role::Other => Ok(Item::Open),
    }
}

/// Parses an item that begins with `(` after that.
#[tactic(auto, unfolding(crate::specs::Items::opened))]
fn opened<'a>(parser: &mut Parser<'a>) -> Result<Item<'a>, Error>
    ensures kept { IsKept parser.old parser.new }
    ensures on { parser.old.place ≤ parser.new.place }
    ensures reads { Reads (λ i. item_of i) opened.reading parser.old result parser.new.place }
{
    if parser.peek::<AnyKeyword>()? {
        let role = word(parser)?;
        return group_by(parser, role);
    }
    Ok(Item::Open)
}

/// Parses an item after its first token.
fn item_by<'a>(parser: &mut Parser<'a>, role: Role) -> Result<Item<'a>, Error>
    ensures kept { IsKept parser.old parser.new }
    ensures on { parser.old.place ≤ parser.new.place }
    ensures reads { Reads (λ i. item_of i) (item_by role).reading parser.old result
        parser.new.place }
{
    match role {
        Role::Open => opened(parser),
        Role::Close => Ok(Item::Close),
        Role::Block | Role::If => Ok(Item::Block(binding(parser)?)),
        _ => Ok(Item::Other),
    }
}

/// Parses an annotation that is not at a binding occurrence.
#[tactic(auto, unfolding(crate::specs::Items::stray))]
fn stray<'a>(parser: &mut Parser<'a>) -> Result<Item<'a>, Error>
    ensures kept { IsKept parser.old parser.new }
    ensures on { parser.old.place ≤ parser.new.place }
    ensures reads { Reads (λ i. item_of i) stray.reading parser.old result parser.new.place }
{
    let span = parser.cur_span();
    parser.parens_of::<NameAnnotation>()?;
    Ok(Item::Stray(span.offset()))
}

impl<'a> Parse<'a> for Item<'a> {
    ghost use Rattle.wat_module_annotations.specs.Items.{Item as Value, item};
    ghost use Rattle.wat_module_annotations.specs.Values.{item_of};

    ghost Value = { Value };

    ghost value = { λ i. item_of i };

    ghost meaning = { item.reading };

    #[tactic(auto, unfolding(crate::specs::Items::item))]
    fn parse(parser: &mut Parser<'a>) -> Result<Item<'a>, Error> {
        if parser.peek2::<annotation::name>()? {
            return stray(parser);
        }
        let role = any_token(parser)?;
        item_by(parser, role)
    }
}

/// All items of a text.
#[derive(Debug, Drop)]
pub struct Items<'a> {
    /// The items, in source order.
    pub items: Vec<Item<'a>>,
}

impl<'a> Parse<'a> for Items<'a> {
    ghost use Rattle.std.specs.Prelude.{List, map};
    ghost use Rattle.wat_module_annotations.specs.Items.{Item as Value, items};
    ghost use Rattle.wat_module_annotations.specs.Values.{item_of};

    ghost Value = { List Value };

    ghost value = { λ l. map (λ i. item_of i) l.items.items };

    ghost meaning = { items.reading };

    #[tactic(auto, unfolding(crate::specs::Items::items))]
    fn parse(parser: &mut Parser<'a>) -> Result<Items<'a>, Error> {
        Ok(Items {
            items: parser.all_while::<Role, Item<'a>>()?,
        })
    }
}

/// All items of a text in which the annotation `@name` is visible.
#[derive(Debug, Drop)]
pub struct AllItems<'a> {
    /// The items, in source order.
    pub items: Items<'a>,
}

impl<'a> Parse<'a> for AllItems<'a> {
    ghost use Rattle.std.specs.Prelude.{List, map};
    ghost use Rattle.wat_module_annotations.specs.Items.{Item as Value, all_items};
    ghost use Rattle.wat_module_annotations.specs.Values.{item_of};

    ghost Value = { List Value };

    ghost value = { λ l. map (λ i. item_of i) l.items.items.items };

    ghost meaning = { all_items };

    #[tactic(auto, unfolding(crate::specs::Items::all_items))]
    fn parse(parser: &mut Parser<'a>) -> Result<AllItems<'a>, Error> {
        Ok(AllItems {
            items: parser.with_annotation::<Items<'a>>("name")?,
        })
    }
}
