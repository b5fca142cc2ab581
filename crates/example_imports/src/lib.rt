//! Import lists: a custom s-expression format, over the parser of the WebAssembly text format.
//!
//! A source is `(imports ENTRY*)`. An entry is `(entry STRING STRING ID? KIND NAME?)`: a module, a
//! field of it, an optional identifier, `code N` or `pages N`, and an optional `(@name STRING)`,
//! which is visible if `name` is registered.
#![tactic(auto)]

ghost use Rattle.std.specs.Prelude.{◌≤◌, map};
ghost use Rattle.wat_lexer_parser.specs.readings.Readings.{many};
ghost use Rattle.wat_lexer_parser.specs.readings.Reads.{IsKept, Reads};
ghost use Rattle.std.specs.Cow.{cow_str_bytes};
ghost use Rattle.std.specs.Option.{option_map};
ghost use Rattle.wat_lexer_parser.specs.readings.Types.{spelled};
ghost use Rattle.example_imports.specs.Imports.{entry_after_strings, entry_after_id, entry_body};
ghost use Rattle.example_imports.specs.Imports.{entry, inner, list};
ghost use Rattle.example_imports.specs.Values.{read_of};

pub mod kw;
pub mod laws;

use std::borrow::CowStr;
use wat_lexer_parser::Error;
use wat_lexer_parser::parser::{Parse, Parser};
use wat_lexer_parser::token::{Id, NameAnnotation};

/// The kind of an import.
#[derive(Debug, Clone, Copy, PartialEq, Eq)]
pub enum Kind {
    /// Code, with the index of its type.
    Code(u32),
    /// Memory, with its number of pages.
    Pages(u32),
}

impl<'a> Parse<'a> for Kind {
    ghost use Rattle.example_imports.specs.Imports.{kind};
    ghost use Rattle.example_imports.specs.declared.Kind.{Kind as Value};

    ghost Value = { Value };

    ghost value = { λ k. k };

    ghost meaning = { kind.reading };

    #[tactic(auto, unfolding(crate::specs::Imports::kind))]
    fn parse(parser: &mut Parser<'a>) -> Result<Kind, Error> {
        let mut lookahead = parser.lookahead1();
        if lookahead.peek::<kw::code>()? {
            drop(lookahead);
            parser.parse::<kw::code>()?;
            return Ok(Kind::Code(parser.parse::<u32>()?));
        }
        if lookahead.peek::<kw::pages>()? {
            drop(lookahead);
            parser.parse::<kw::pages>()?;
            return Ok(Kind::Pages(parser.parse::<u32>()?));
        }
        Err(lookahead.error())
    }
}

/// An entry of an import list.
#[derive(Debug, Drop)]
pub struct Entry<'a> {
    /// The name of the module.
    pub place: CowStr<'a>,
    /// The name of the field.
    pub field: CowStr<'a>,
    /// The identifier that the entry defines.
    pub id: Option<Id<'a>>,
    /// The kind of the import.
    pub kind: Kind,
    /// The name that an annotation `(@name ..)` gives.
    pub name: Option<NameAnnotation<'a>>,
}

impl<'a> Parse<'a> for Entry<'a> {
    ghost use Rattle.example_imports.specs.Imports.{Read, entry};
    ghost use Rattle.example_imports.specs.Values.{read_of};

    ghost Value = { Read };

    ghost value = { λ e. read_of e };

    ghost meaning = { entry.reading };

    fn parse(parser: &mut Parser<'a>) -> Result<Entry<'a>, Error> {
        parser.parens(inner)
    }
}

/// Parses the contents of an entry's group.
#[tactic(auto, unfolding(crate::specs::Imports::inner))]
fn inner<'a>(parser: &mut Parser<'a>) -> Result<Entry<'a>, Error>
    ensures kept { IsKept parser.old parser.new }
    ensures on { parser.old.place ≤ parser.new.place }
    ensures reads { Reads (λ e. read_of e) inner.reading parser.old result parser.new.place }
{
    parser.parse::<kw::entry>()?;
    entry_body(parser)
}

/// Parses an entry after its keyword.
#[tactic(auto, unfolding(crate::specs::Imports::entry_body))]
fn entry_body<'a>(parser: &mut Parser<'a>) -> Result<Entry<'a>, Error>
    ensures kept { IsKept parser.old parser.new }
    ensures on { parser.old.place ≤ parser.new.place }
    ensures reads { Reads (λ e. read_of e) entry_body.reading parser.old result parser.new.place }
{
    let place = parser.parse::<CowStr>()?;
    let field = parser.parse::<CowStr>()?;
    entry_after_strings(parser, place, field)
}

/// Parses an entry after its two strings.
#[tactic(auto, unfolding(crate::specs::Imports::entry_after_strings))]
fn entry_after_strings<'a>(
    parser: &mut Parser<'a>,
    place: CowStr<'a>,
    field: CowStr<'a>,
) -> Result<Entry<'a>, Error>
    ensures kept { IsKept parser.old parser.new }
    ensures on { parser.old.place ≤ parser.new.place }
    ensures reads { Reads (λ e. read_of e) (entry_after_strings (cow_str_bytes place.entry)
        (cow_str_bytes field.entry)).reading parser.old result parser.new.place }
{
    let id = parser.parse::<Option<Id>>()?;
    entry_after_id(parser, place, field, id)
}

/// Parses an entry after its identifier.
#[tactic(auto, unfolding(crate::specs::Imports::entry_after_id))]
fn entry_after_id<'a>(
    parser: &mut Parser<'a>,
    place: CowStr<'a>,
    field: CowStr<'a>,
    id: Option<Id<'a>>,
) -> Result<Entry<'a>, Error>
    ensures kept { IsKept parser.old parser.new }
    ensures on { parser.old.place ≤ parser.new.place }
    ensures reads { Reads (λ e. read_of e) (entry_after_id (cow_str_bytes place.entry)
        (cow_str_bytes field.entry) (option_map (λ i. spelled i) id.entry)).reading parser.old
        result parser.new.place }
{
    let kind = parser.parse::<Kind>()?;
    let name = NameAnnotation::parse_option(parser)?;
    Ok(Entry {
        place,
        field,
        id,
        kind,
        name,
    })
}

/// A parsed list of imports.
#[derive(Debug, Drop)]
pub struct Imports<'a> {
    /// The entries, in source order.
    pub entries: Vec<Entry<'a>>,
}

impl<'a> Parse<'a> for Imports<'a> {
    ghost use Rattle.std.specs.Prelude.{List, map};
    ghost use Rattle.example_imports.specs.Imports.{Read, imports};
    ghost use Rattle.example_imports.specs.Values.{read_of};

    ghost Value = { List Read };

    ghost value = { λ l. map (λ e. read_of e) l.entries.items };

    ghost meaning = { imports.reading };

    fn parse(parser: &mut Parser<'a>) -> Result<Imports<'a>, Error> {
        parser.parens(list)
    }
}

/// Parses the contents of a list's group.
#[tactic(auto, unfolding(crate::specs::Imports::list))]
fn list<'a>(parser: &mut Parser<'a>) -> Result<Imports<'a>, Error>
    ensures kept { IsKept parser.old parser.new }
    ensures on { parser.old.place ≤ parser.new.place }
    ensures reads { Reads (λ l. map (λ e. read_of e) l.entries.items) list.reading parser.old result
        parser.new.place }
{
    parser.parse::<kw::imports>()?;
    Ok(Imports {
        entries: entries(parser)?,
    })
}

/// Parses all entries before `)`.
fn entries<'a>(parser: &mut Parser<'a>) -> Result<Vec<Entry<'a>>, Error>
    ensures kept { IsKept parser.old parser.new }
    ensures on { parser.old.place ≤ parser.new.place }
    ensures reads { Reads (λ v. map (λ e. read_of e) v.items) (many entry.reading) parser.old
        result parser.new.place }
{
    parser.all_of::<Entry<'a>>()
}
