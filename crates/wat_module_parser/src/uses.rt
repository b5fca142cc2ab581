//! Parses type uses, and type fields.
ghost use Rattle.std.specs.Prelude.{◌≡◌, Ok, Err, Some, None, slice_get, map, IfOk};
ghost use Rattle.wat_module_parser.specs.Reading as reading;
ghost use Rattle.wat_module_ast.specs.Views.{definition_of};
ghost use Rattle.wat_module_parser.specs.Views.{types_of, use_of};
ghost use Rattle.wat_module_tokens.specs.TokenCursor.{terminals_of};
ghost use Rattle.wat_module_instructions.specs.Parts.{ReadsAs, SkipsExactly};
ghost use Rattle.wat_module_tokens.specs.Terminals.{label};
ghost use Rattle.wat_module_ast.specs.TypeViews.{type_of};

use crate::header::{closed, variables};
use crate::names::Names;
use crate::variables::{ListedUse, NamedUse, Variables, function_type, into_function_type};
use std::alloc::{AllocError, Global};
use wat_module_ast::error::{Expected, Fault, FaultKind, ParseFailure, Space};
use wat_module_ast::fields::Definition;
use wat_module_ast::types::{FunctionType, same_type, type_at_index};
use wat_module_instructions::faults::{fault, unexpected};
use wat_module_instructions::reading::{self, after};
use wat_module_tokens::stream::TokenCursor;
use wat_module_tokens::token::{DecodedToken, Name};

/// Parses a type use: `(type index)`, if it comes next, and then parameters and results.
#[tactic(auto, unfolding(crate::specs::Reading::use_at))]
pub(crate) fn type_use<'s, 'p, 'a>(
    alloc: Global,
    names: &'s Names<'a>,
    cursor: TokenCursor<'p, 'a>,
) -> Result<(NamedUse<'s, 'a>, TokenCursor<'p, 'a>), ParseFailure<'p, 'a>>
    ensures { ReadsAs use_of (reading.use_at (types_of names.now) (terminals_of cursor.entry))
        result }
{
    if let Some(rest) = after("type", cursor) {
        return indexed_use(alloc, names, rest);
    }
    listed_use(alloc, cursor)
}

/// Parses a type use without an index: parameters and results.
fn listed_use<'s, 'p, 'a>(
    alloc: Global,
    cursor: TokenCursor<'p, 'a>,
) -> Result<(NamedUse<'s, 'a>, TokenCursor<'p, 'a>), ParseFailure<'p, 'a>>
    ensures { ReadsAs use_of (reading.listed_use (terminals_of cursor.entry)) result }
{
    let (params, rest) = variables(alloc, "param", true, cursor)?;
    let (results, rest) = variables(alloc, "result", false, rest)?;
    let index = None;
    Ok((
        NamedUse::Listed(ListedUse {
            index,
            params,
            results,
        }),
        rest,
    ))
}

/// Parses a type use after `(type`.
fn indexed_use<'s, 'p, 'a>(
    alloc: Global,
    names: &'s Names<'a>,
    cursor: TokenCursor<'p, 'a>,
) -> Result<(NamedUse<'s, 'a>, TokenCursor<'p, 'a>), ParseFailure<'p, 'a>>
    ensures { ReadsAs use_of (reading.indexed_use (types_of names.now) (terminals_of cursor.entry))
        result }
{
    let (index, rest) = reading::index(Space::Type, &names.type_names, cursor)?;
    let rest = closed(rest)?;
    if names.are_types_known {
        return known_use(alloc, names, index, cursor, rest);
    }
    assumed_use(alloc, index, rest)
}

/// Parses a type use after `(type index)`, with the types known: the index must be that of a type.
/// `all` starts at the index, for errors.
fn known_use<'s, 'p, 'a>(
    alloc: Global,
    names: &'s Names<'a>,
    index: usize,
    all: TokenCursor<'p, 'a>,
    cursor: TokenCursor<'p, 'a>,
) -> Result<(NamedUse<'s, 'a>, TokenCursor<'p, 'a>), ParseFailure<'p, 'a>>
    ensures { ReadsAs use_of
        (reading.lists_after index (slice_get (types_of names.now).types index)
        (terminals_of all.entry) (terminals_of cursor.entry))
        result }
{
    match type_at_index(&names.types, index) {
        Some(of) => lists(alloc, index, of, all, cursor),
        None => Err(ParseFailure::Text(fault(FaultKind::UnknownName(Space::Type), all))),
    }
}

/// Parses a type use after `(type index)`, with the types unknown: any index is accepted, with any
/// parameters and results.
fn assumed_use<'s, 'p, 'a>(
    alloc: Global,
    index: usize,
    cursor: TokenCursor<'p, 'a>,
) -> Result<(NamedUse<'s, 'a>, TokenCursor<'p, 'a>), ParseFailure<'p, 'a>>
    ensures { ReadsAs use_of (reading.assumed_use index (terminals_of cursor.entry)) result }
{
    let (params, rest) = variables(alloc, "param", true, cursor)?;
    let (results, rest) = variables(alloc, "result", false, rest)?;
    let index = Some(index);
    Ok((
        NamedUse::Listed(ListedUse {
            index,
            params,
            results,
        }),
        rest,
    ))
}

/// Parses a type use after `(type index)`, where the type with this index is `of`: parameters and
/// results, which must agree with `of` if there are any. `all` starts at the index, for errors.
fn lists<'s, 'p, 'a>(
    alloc: Global,
    index: usize,
    of: &'s FunctionType,
    all: TokenCursor<'p, 'a>,
    cursor: TokenCursor<'p, 'a>,
) -> Result<(NamedUse<'s, 'a>, TokenCursor<'p, 'a>), ParseFailure<'p, 'a>>
    ensures { ReadsAs use_of
        (reading.lists_after index (Some (type_of of.now)) (terminals_of all.entry)
        (terminals_of cursor.entry))
        result }
{
    let (params, rest) = variables(alloc, "param", true, cursor)?;
    let (results, rest) = variables(alloc, "result", false, rest)?;
    if list_nothing(&params, &results) {
        return Ok((NamedUse::Indexed(index, of), rest));
    }
    let listed = function_type(alloc, &params, &results)?;
    if !same_type(&listed, of) {
        return Err(ParseFailure::Text(fault(FaultKind::OtherType, all)));
    }
    let index = Some(index);
    Ok((
        NamedUse::Listed(ListedUse {
            index,
            params,
            results,
        }),
        rest,
    ))
}

/// Returns `true` if there are neither parameters nor results.
fn list_nothing(params: &Variables<'_>, results: &Variables<'_>) -> bool
    ensures { result ≡ reading.list_nothing params.now results.now }
{
    params.is_empty() && results.is_empty()
}

/// Parses a type field after its keyword.
#[tactic(auto, unfolding(crate::specs::Reading::type_at))]
pub(crate) fn type_at<'p, 'a>(
    alloc: Global,
    cursor: TokenCursor<'p, 'a>,
) -> Result<(Definition<'a>, TokenCursor<'p, 'a>), ParseFailure<'p, 'a>>
    ensures { ReadsAs definition_of (reading.type_at (terminals_of cursor.entry)) result }
{
    let (name, cursor) = reading::label(cursor);
    match after("func", cursor) {
        Some(rest) => type_lists(alloc, name, rest),
        None => Err(ParseFailure::Text(unexpected(Expected::FunctionType, cursor))),
    }
}

/// Parses a type field after `(func`: parameters, results and both closing parentheses.
fn type_lists<'p, 'a>(
    alloc: Global,
    name: Name<'a>,
    cursor: TokenCursor<'p, 'a>,
) -> Result<(Definition<'a>, TokenCursor<'p, 'a>), ParseFailure<'p, 'a>>
    ensures { ReadsAs definition_of
        (reading.type_lists (label name.entry) (terminals_of cursor.entry)) result }
{
    let (params, start) = variables(alloc, "param", true, cursor)?;
    let (results, rest) = variables(alloc, "result", false, start)?;
    let rest = results_closed(start, rest)?;
    let of = into_function_type(params, results);
    Ok((Definition { name, of }, rest))
}

/// Skips the closing parentheses of a function type and of its field. The results begin at `start`
/// and end at `cursor`.
fn results_closed<'p, 'a>(
    start: TokenCursor<'p, 'a>,
    cursor: TokenCursor<'p, 'a>,
) -> Result<TokenCursor<'p, 'a>, Fault<'p, 'a>>
    ensures { SkipsExactly
        (reading.skip_two_closes_or (reading.after_results (terminals_of start.entry))
        (terminals_of cursor.entry))
        result }
{
    match cursor.first() {
        Some((DecodedToken::Close, rest)) => closed(rest),
        _ => Err(unexpected(after_results(start), cursor)),
    }
}

/// Returns what the grammar accepts after the results of a function type, which begin at `start`.
fn after_results(start: TokenCursor<'_, '_>) -> Expected
    ensures { result ≡ reading.after_results (terminals_of start.entry) }
{
    match after("result", start) {
        Some(_) => Expected::ResultOrClose,
        None => Expected::ParamOrResultOrClose,
    }
}

/// Returns what the grammar accepts after a type use, which begins at `start`.
pub(crate) fn after_use<'p, 'a>(
    alloc: Global,
    start: TokenCursor<'p, 'a>,
) -> Result<Expected, AllocError>
    ensures { IfOk result (λ e. e ≡ reading.after_use (terminals_of start.entry)) }
{
    if let Some(rest) = after("type", start) {
        return after_lists(alloc, after_index(rest));
    }
    if after("param", start).is_none() && after("result", start).is_none() {
        return Ok(Expected::TypeUseOrClose);
    }
    after_lists(alloc, start)
}

/// Returns the tokens after an index and the closing parenthesis of its group.
fn after_index<'p, 'a>(cursor: TokenCursor<'p, 'a>) -> TokenCursor<'p, 'a>
    ensures { terminals_of result ≡ reading.after_index (terminals_of cursor.entry) }
{
    match cursor.first() {
        Some((_, close)) => match close.first() {
            Some((DecodedToken::Close, rest)) => rest,
            _ => cursor,
        },
        None => cursor,
    }
}

/// Returns what the grammar accepts after parameters and results, which begin at `start`.
fn after_lists<'p, 'a>(alloc: Global, start: TokenCursor<'p, 'a>) -> Result<Expected, AllocError>
    ensures { IfOk result
        (λ e. e ≡ reading.after_params (reading.params (terminals_of start.entry))) }
{
    match variables(alloc, "param", true, start) {
        Ok((_, rest)) => Ok(after_results(rest)),
        Err(ParseFailure::Text(_)) => Ok(Expected::ParamOrResultOrClose),
        Err(ParseFailure::Memory(error)) => Err(error),
    }
}
