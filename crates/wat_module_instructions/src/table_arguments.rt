//! Immediates of table instructions.
ghost use Rattle.std.specs.Prelude.{◌≡◌, Ok};
ghost use Rattle.wat_module_ast.specs.Grammar as grammar;
ghost use Rattle.wat_module_tokens.specs.TokenCursor.{terminals_of};
ghost use Rattle.wat_module_instructions.specs.Parts.{ReadsAs, ReadsExactly};

use crate::names::IndexedNames;
use crate::reading::index;
use crate::uses::table_index;
use std::alloc::Global;
use wat_module_ast::error::{Fault, ParseFailure, Space};
use wat_module_ast::instruction::Argument;
use wat_module_ast::pairs::IndexPair;
use wat_module_tokens::stream::TokenCursor;
use wat_module_tokens::token::DecodedToken;

/// Returns `true` if the first token is an index: an integer or an identifier.
fn is_index(cursor: TokenCursor<'_, '_>) -> bool
    ensures { result ≡ grammar.is_index (terminals_of cursor.entry) }
{
    match cursor.first() {
        Some((DecodedToken::Integer(_, _) | DecodedToken::Id(_), _)) => true,
        _ => false,
    }
}

/// Returns `true` if each of the first two tokens is an index: an integer or an identifier.
fn are_indices(cursor: TokenCursor<'_, '_>) -> bool
    ensures { result ≡ grammar.are_indices (terminals_of cursor.entry) }
{
    match cursor.first() {
        Some((DecodedToken::Integer(_, _) | DecodedToken::Id(_), rest)) => is_index(rest),
        _ => false,
    }
}

/// Parses an optional table index as an immediate, 0 by default.
pub(crate) fn table<'p, 'a>(
    tables: &IndexedNames<'_>,
    cursor: TokenCursor<'p, 'a>,
) -> Result<(Argument, TokenCursor<'p, 'a>), Fault<'p, 'a>>
    ensures { ReadsExactly (λ v. v)
        (grammar.with_index (grammar.table_of tables.now (terminals_of cursor.entry))) result }
{
    let (n, rest) = table_index(tables, cursor)?;
    Ok((Argument::Index(n), rest))
}

/// Parses the two table indices of `table.copy`. Both are 0 if they are omitted.
pub(crate) fn copy<'p, 'a>(
    alloc: Global,
    tables: &IndexedNames<'_>,
    cursor: TokenCursor<'p, 'a>,
) -> Result<(Argument, TokenCursor<'p, 'a>), ParseFailure<'p, 'a>>
    ensures { ReadsAs (λ v. v) (grammar.copy_of tables.now (terminals_of cursor.entry)) result }
{
    if !is_index(cursor) {
        let pair = IndexPair::new(alloc, 0, 0)?;
        return Ok((Argument::Pair(pair), cursor));
    }
    let (target, rest) = index(Space::Table, tables, cursor)?;
    let (source, rest) = index(Space::Table, tables, rest)?;
    let pair = IndexPair::new(alloc, target, source)?;
    Ok((Argument::Pair(pair), rest))
}

/// Parses the table index of `table.init`. It is omitted, and 0, if fewer than two indices follow.
fn init_table<'p, 'a>(
    tables: &IndexedNames<'_>,
    cursor: TokenCursor<'p, 'a>,
) -> Result<(usize, TokenCursor<'p, 'a>), Fault<'p, 'a>>
    ensures { ReadsExactly (λ v. v) (grammar.init_table tables.now (terminals_of cursor.entry))
        result }
{
    if are_indices(cursor) {
        index(Space::Table, tables, cursor)
    } else {
        Ok((0, cursor))
    }
}

/// Parses the optional table index and the element segment of `table.init`. The binary format has
/// them in reverse order.
pub(crate) fn init<'p, 'a>(
    alloc: Global,
    tables: &IndexedNames<'_>,
    elems: &IndexedNames<'_>,
    cursor: TokenCursor<'p, 'a>,
) -> Result<(Argument, TokenCursor<'p, 'a>), ParseFailure<'p, 'a>>
    ensures { ReadsAs (λ v. v)
        (grammar.init_by elems.now (grammar.init_table tables.now (terminals_of cursor.entry)))
        result }
{
    let (table, rest) = init_table(tables, cursor)?;
    let (elements, rest) = index(Space::Elem, elems, rest)?;
    let pair = IndexPair::new(alloc, elements, table)?;
    Ok((Argument::Pair(pair), rest))
}
