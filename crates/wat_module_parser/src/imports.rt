//! Parses imports, both import fields and inline imports.
ghost use Rattle.std.specs.Prelude.{◌≡◌, [], ◌∷◌, map, IfOk};
ghost use Rattle.wat_module_parser.specs.Reading as reading;
ghost use Rattle.wat_module_ast.specs.Views.{extern_of, field_of, text_of};
ghost use Rattle.wat_module_parser.specs.Views.{types_of, use_of};
ghost use Rattle.wat_module_ast.specs.Grammar.{label_of};
ghost use Rattle.wat_module_tokens.specs.TokenCursor.{terminals_of};
ghost use Rattle.wat_module_instructions.specs.Parts.{ReadsAs, ReadsExactly, SkipsAs};
ghost use Rattle.wat_module_tokens.specs.Terminals.{label};

use crate::header::{closed, utf8_text};
use crate::names::Names;
use crate::places::duplicate_variable;
use crate::types::{after_memory_limits, global_type, limits, space_of, table_type};
use crate::uses::{after_use, type_use};
use crate::variables::{NamedUse, are_parameters_distinct, without_names};
use std::alloc::{AllocError, Global};
use wat_module_ast::error::{Expected, Fault, ParseFailure};
use wat_module_ast::fields::{ExternType, Field, Import, IndexSpace};
use wat_module_instructions::faults::unexpected;
use wat_module_instructions::reading;
use wat_module_tokens::stream::TokenCursor;
use wat_module_tokens::token::{DecodedToken, Name};

/// Parses the module name and the item name of an import.
#[tactic(auto, unfolding(crate::specs::Reading::import_names))]
fn import_names<'p, 'a>(
    cursor: TokenCursor<'p, 'a>,
) -> Result<((&'a [u8], &'a [u8]), TokenCursor<'p, 'a>), Fault<'p, 'a>>
    ensures { ReadsExactly (λ v. (v.0.now, v.1.now))
        (reading.import_names (terminals_of cursor.entry)) result }
{
    let (from, rest) = utf8_text(cursor)?;
    let (item, rest) = utf8_text(rest)?;
    Ok(((from, item), rest))
}

/// Parses the type of an imported item of this index space.
#[tactic(auto, unfolding(crate::specs::Reading::extern_at))]
fn extern_type<'p, 'a>(
    alloc: Global,
    names: &Names<'a>,
    space: IndexSpace,
    cursor: TokenCursor<'p, 'a>,
) -> Result<(ExternType, TokenCursor<'p, 'a>), ParseFailure<'p, 'a>>
    ensures { ReadsAs extern_of
        (reading.extern_at (types_of names.now) space (terminals_of cursor.entry)) result }
{
    match space {
        IndexSpace::Func => {
            let (uses, rest) = type_use(alloc, names, cursor)?;
            func_type(alloc, uses, cursor, rest)
        }
        IndexSpace::Table => {
            let (of, rest) = table_type(Expected::Limits, cursor)?;
            Ok((ExternType::Table(of), rest))
        }
        IndexSpace::Mem => {
            let (limits, rest) = limits(Expected::Limits, cursor)?;
            Ok((ExternType::Memory(limits), rest))
        }
        IndexSpace::Global => {
            let (of, rest) = global_type(Expected::GlobalType, cursor)?;
            Ok((ExternType::Global(of), rest))
        }
    }
}

/// Returns the type of an imported function. The identifiers of its parameters must be distinct.
/// `all` starts at the type use, for errors.
fn func_type<'p, 'a>(
    alloc: Global,
    uses: NamedUse<'_, 'a>,
    all: TokenCursor<'p, 'a>,
    rest: TokenCursor<'p, 'a>,
) -> Result<(ExternType, TokenCursor<'p, 'a>), ParseFailure<'p, 'a>>
    ensures { ReadsAs extern_of
        (reading.func_type (use_of uses.entry) (terminals_of all.entry) (terminals_of rest.entry))
        result }
{
    if !are_parameters_distinct(alloc, &uses)? {
        return Err(ParseFailure::Text(duplicate_variable(alloc, all)?));
    }
    Ok((ExternType::Func(without_names(uses)), rest))
}

/// Parses an inline import, after the identifier and inline exports of its field and `(import`, up
/// to the closing parenthesis of the field.
pub(crate) fn inline_import<'p, 'a>(
    alloc: Global,
    names: &Names<'a>,
    space: IndexSpace,
    name: Name<'a>,
    exports: Vec<&'a [u8]>,
    cursor: TokenCursor<'p, 'a>,
) -> Result<(Field<'a>, TokenCursor<'p, 'a>), ParseFailure<'p, 'a>>
    ensures { ReadsAs (λ v. field_of v ∷ [])
        (reading.inline_import (types_of names.now) space (label name.entry)
        (map text_of exports.entry.items) (terminals_of cursor.entry))
        result }
{
    let ((from, item), rest) = import_names(cursor)?;
    let start = closed(rest)?;
    let (what, rest) = extern_type(alloc, names, space, start)?;
    let rest = extern_closed(alloc, &what, start, rest)?;
    Ok((
        Field::Import(Import {
            from,
            item,
            name,
            exports,
            what,
        }),
        rest,
    ))
}

/// Parses an import field after its keyword.
pub(crate) fn import_at<'p, 'a>(
    alloc: Global,
    names: &Names<'a>,
    cursor: TokenCursor<'p, 'a>,
) -> Result<(Field<'a>, TokenCursor<'p, 'a>), ParseFailure<'p, 'a>>
    ensures { ReadsAs (λ v. field_of v ∷ [])
        (reading.import_at (types_of names.now) (terminals_of cursor.entry)) result }
{
    let ((from, item), rest) = import_names(cursor)?;
    import_open(alloc, names, from, item, rest)
}

/// Parses the description of an import, which begins with an opening parenthesis, after the names
/// of the import.
#[tactic(auto, unfolding(crate::specs::Reading::import_open))]
fn import_open<'p, 'a>(
    alloc: Global,
    names: &Names<'a>,
    from: &'a [u8],
    item: &'a [u8],
    cursor: TokenCursor<'p, 'a>,
) -> Result<(Field<'a>, TokenCursor<'p, 'a>), ParseFailure<'p, 'a>>
    ensures { ReadsAs (λ v. field_of v ∷ [])
        (reading.import_open (types_of names.now) (from.now, item.now) (terminals_of cursor.entry))
        result }
{
    match cursor.first() {
        Some((DecodedToken::Open, rest)) => import_word(alloc, names, from, item, rest),
        _ => Err(ParseFailure::Text(unexpected(Expected::ImportDescription, cursor))),
    }
}

/// Parses the description of an import after its opening parenthesis.
fn import_word<'p, 'a>(
    alloc: Global,
    names: &Names<'a>,
    from: &'a [u8],
    item: &'a [u8],
    cursor: TokenCursor<'p, 'a>,
) -> Result<(Field<'a>, TokenCursor<'p, 'a>), ParseFailure<'p, 'a>>
    ensures { ReadsAs (λ v. field_of v ∷ [])
        (reading.import_word (types_of names.now) (from.now, item.now) (terminals_of cursor.entry))
        result }
{
    match cursor.first() {
        Some((DecodedToken::Word(word), rest)) => match space_of(word) {
            Some(space) => import_item(alloc, names, from, item, space, rest),
            None => Err(ParseFailure::Text(unexpected(Expected::ItemKind, cursor))),
        },
        _ => Err(ParseFailure::Text(unexpected(Expected::ItemKind, cursor))),
    }
}

/// Parses the description of an import after `func`, `table`, `memory` or `global`, and the closing
/// parentheses of the description and of the field.
fn import_item<'p, 'a>(
    alloc: Global,
    names: &Names<'a>,
    from: &'a [u8],
    item: &'a [u8],
    space: IndexSpace,
    cursor: TokenCursor<'p, 'a>,
) -> Result<(Field<'a>, TokenCursor<'p, 'a>), ParseFailure<'p, 'a>>
    ensures { ReadsAs (λ v. field_of v ∷ [])
        (reading.extern_after (types_of names.now) (from.now, item.now) space
        (label_of (terminals_of cursor.entry)))
        result }
{
    let (name, start) = reading::label(cursor);
    let (what, rest) = extern_type(alloc, names, space, start)?;
    let rest = extern_closed(alloc, &what, start, rest)?;
    let rest = closed(rest)?;
    let exports = Vec::new(alloc);
    Ok((
        Field::Import(Import {
            from,
            item,
            name,
            exports,
            what,
        }),
        rest,
    ))
}

/// Skips the closing parenthesis after an import description, which begins at `start` after its
/// identifier and ends at `cursor`.
fn extern_closed<'p, 'a>(
    alloc: Global,
    what: &ExternType,
    start: TokenCursor<'p, 'a>,
    cursor: TokenCursor<'p, 'a>,
) -> Result<TokenCursor<'p, 'a>, ParseFailure<'p, 'a>>
    ensures { SkipsAs
        (reading.closed_or (reading.after_extern (extern_of what.now) (terminals_of start.entry))
        (terminals_of cursor.entry))
        result }
{
    match cursor.first() {
        Some((DecodedToken::Close, rest)) => Ok(rest),
        _ => {
            let expected = after_extern(alloc, what, start)?;
            Err(ParseFailure::Text(unexpected(expected, cursor)))
        }
    }
}

/// Returns what the grammar accepts after an import description, which begins at `start` after its
/// identifier.
fn after_extern<'p, 'a>(
    alloc: Global,
    what: &ExternType,
    start: TokenCursor<'p, 'a>,
) -> Result<Expected, AllocError>
    ensures { IfOk result
        (λ e. e ≡ reading.after_extern (extern_of what.now) (terminals_of start.entry)) }
{
    match what {
        ExternType::Func(_) => after_use(alloc, start),
        ExternType::Memory(limits) => Ok(after_memory_limits(limits.max)),
        ExternType::Table(_) | ExternType::Global(_) => Ok(Expected::Close),
    }
}
