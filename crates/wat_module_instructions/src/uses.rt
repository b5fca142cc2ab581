//! Parses type uses of instructions, which do not name their parameters.
ghost use Rattle.std.specs.Prelude.{◌≡◌, ◌<◌, ◌^◌, [], true, false, Ok, Err, Some, None, codes};
ghost use Rattle.std.specs.Prelude.{length, map, slice_get, IfOk, IfSome, MatchOption, MatchResult};
ghost use Rattle.wat_module_ast.specs.Grammar as grammar;
ghost use Rattle.wat_module_ast.specs.declared.instruction.Argument.TheVariants as argument;
ghost use Rattle.wat_module_ast.specs.declared.error.Space.TheVariants as spaces;
ghost use Rattle.wat_module_tokens.specs.TokenCursor.{terminals_of};
ghost use Rattle.wat_module_instructions.specs.Parts.{Faults, IsListed, NotListed, ReadsAs};
ghost use Rattle.wat_module_instructions.specs.Parts.{ReadsExactly};
ghost use Rattle.wat_module_instructions.specs.Parts.{scope_of};
ghost use Rattle.wat_module_ast.specs.Types as spec;
ghost use Rattle.wat_module_ast.specs.TypeViews.{type_of, use_of};

use crate::faults::{fault, unexpected};
use crate::names::IndexedNames;
use crate::reading::{Scope, after, index, value_type};
use std::alloc::{AllocError, Global};
use wat_module_ast::error::{Expected, Fault, FaultKind, ParseFailure, Space};
use wat_module_ast::instruction::{Argument, ValueType};
use wat_module_ast::types::{
    BoxedUse, FunctionType, IndirectCall, SelectTypes, TypeUse, same_type, type_at_index,
};
use wat_module_tokens::stream::TokenCursor;
use wat_module_tokens::token::DecodedToken;

/// Progress in consecutive groups of value types.
#[derive(Clone, Copy)]
struct GroupProgress<'p, 'a> {
    /// `true` if the remaining tokens begin inside a group.
    is_inside: bool,
    /// The remaining tokens.
    cursor: TokenCursor<'p, 'a>,
}

/// Parses consecutive groups that begin with a keyword, such as `(param i32 i64)`. Returns all
/// value types in them.
fn listed<'p, 'a>(
    alloc: Global,
    word: &str,
    cursor: TokenCursor<'p, 'a>,
) -> Result<(Vec<ValueType>, TokenCursor<'p, 'a>), ParseFailure<'p, 'a>>
    ensures { ReadsAs (λ v. v.items) (grammar.listed word.now false (terminals_of cursor.entry))
        result }
{
    let mut types = Vec::new(alloc);
    let mut place = GroupProgress {
        is_inside: false,
        cursor,
    };
    'tokens: loop {
        match next_in_group(word, &mut types, place) {
            Ok(Some(next)) => {
                place = next;
            }
            Ok(None) => return Ok((types, place.cursor)),
            Err(refusal) => return Err(refusal),
        }
    }
}

/// Parses a token of a group, or the `(` and the keyword that open the next group. Returns `None`
/// if the groups have ended.
fn next_in_group<'p, 'a>(
    word: &str,
    types: &mut Vec<ValueType>,
    place: GroupProgress<'p, 'a>,
) -> Result<Option<GroupProgress<'p, 'a>>, ParseFailure<'p, 'a>>
    ensures is { MatchResult result
        (λ o. MatchOption o
        (NotListed word.now place.entry.is_inside (terminals_of place.entry.cursor)
        types.old.items types.new.items)
        (λ l. IsListed word.now place.entry.is_inside (terminals_of place.entry.cursor)
        types.old.items types.new.items l.is_inside (terminals_of l.cursor)))
        (λ e. Faults
        (grammar.listed word.now place.entry.is_inside (terminals_of place.entry.cursor)) e) }
    ensures shorter { IfOk result (λ o. IfSome o (λ l. length (terminals_of l.cursor) <
        length (terminals_of place.entry.cursor))) }
{
    if place.is_inside {
        let next = in_group(word, types, place.cursor)?;
        return Ok(Some(next));
    }
    Ok(group(word, place.cursor))
}

/// Returns the tokens inside the group that comes next, or `None` if the tokens do not begin with
/// `(` and the keyword.
#[tactic(auto, using(crate::proofs::Listed::opens_group, crate::proofs::Listed::no_group))]
fn group<'p, 'a>(word: &str, cursor: TokenCursor<'p, 'a>) -> Option<GroupProgress<'p, 'a>>
    ensures is { MatchOption result
        (grammar.listed word.now false (terminals_of cursor.entry) ≡
        Ok ([], terminals_of cursor.entry))
        (λ l. grammar.listed word.now false (terminals_of cursor.entry) ≡
        grammar.listed word.now l.is_inside (terminals_of l.cursor)) }
    ensures shorter { IfSome result (λ l. length (terminals_of l.cursor) <
        length (terminals_of cursor.entry)) }
{
    match after(word, cursor) {
        Some(rest) => Some(GroupProgress {
            is_inside: true,
            cursor: rest,
        }),
        None => None,
    }
}

/// Parses a value type in a group and appends it to `types`, or parses the `)` of the group.
#[tactic(auto, unfolding(wat_module_ast::specs::Grammar::listed))]
fn in_group<'p, 'a>(
    word: &str,
    types: &mut Vec<ValueType>,
    cursor: TokenCursor<'p, 'a>,
) -> Result<GroupProgress<'p, 'a>, ParseFailure<'p, 'a>>
    ensures is { MatchResult result
        (λ l. IsListed word.now true (terminals_of cursor.entry) types.old.items types.new.items
        l.is_inside (terminals_of l.cursor))
        (λ e. Faults (grammar.listed word.now true (terminals_of cursor.entry)) e) }
    ensures shorter { IfOk result (λ l. length (terminals_of l.cursor) <
        length (terminals_of cursor.entry)) }
{
    match cursor.first() {
        Some((DecodedToken::Word(name), rest)) => match value_type(name) {
            Some(of) => {
                types.push(of)?;
                Ok(GroupProgress {
                    is_inside: true,
                    cursor: rest,
                })
            }
            None => {
                let kind = FaultKind::UnknownWord(Expected::ValueTypeOrClose);
                Err(ParseFailure::Text(fault(kind, cursor)))
            }
        },
        Some((DecodedToken::Close, rest)) => Ok(GroupProgress {
            is_inside: false,
            cursor: rest,
        }),
        _ => Err(ParseFailure::Text(unexpected(Expected::ValueTypeOrClose, cursor))),
    }
}

/// Parses parameter and result types.
#[tactic(auto, unfolding(wat_module_ast::specs::Grammar::lists_of))]
fn lists<'p, 'a>(
    alloc: Global,
    cursor: TokenCursor<'p, 'a>,
) -> Result<(FunctionType, TokenCursor<'p, 'a>), ParseFailure<'p, 'a>>
    ensures { ReadsAs type_of (grammar.lists_of (terminals_of cursor.entry)) result }
{
    let (params, rest) = listed(alloc, "param", cursor)?;
    let (results, rest) = listed(alloc, "result", rest)?;
    Ok((FunctionType { params, results }, rest))
}

/// Parses a type use: an optional type index, and parameter and result types.
#[tactic(auto, unfolding(wat_module_ast::specs::Grammar::use_of))]
fn type_use<'p, 'a>(
    alloc: Global,
    scope: &Scope<'_, '_>,
    cursor: TokenCursor<'p, 'a>,
) -> Result<(TypeUse, TokenCursor<'p, 'a>), ParseFailure<'p, 'a>>
    ensures is { ReadsAs use_of
        (grammar.use_of (scope_of scope.now).types (terminals_of cursor.entry)) result }
    ensures small { IfOk result (λ r. spec.index_or_zero (use_of r.0) < 2 ^ 63) }
{
    match after("type", cursor) {
        Some(rest) => indexed_use(alloc, scope, rest),
        None => listed_use(alloc, cursor),
    }
}

/// Parses a type use without a type index.
fn listed_use<'p, 'a>(
    alloc: Global,
    cursor: TokenCursor<'p, 'a>,
) -> Result<(TypeUse, TokenCursor<'p, 'a>), ParseFailure<'p, 'a>>
    ensures is { ReadsAs use_of (grammar.listed_use (grammar.lists_of (terminals_of cursor.entry)))
        result }
    ensures small { IfOk result (λ r. spec.index_or_zero (use_of r.0) < 2 ^ 63) }
{
    let (of, rest) = lists(alloc, cursor)?;
    Ok((TypeUse::Inline(of), rest))
}

/// Parses a type use after `(type`.
fn indexed_use<'p, 'a>(
    alloc: Global,
    scope: &Scope<'_, '_>,
    cursor: TokenCursor<'p, 'a>,
) -> Result<(TypeUse, TokenCursor<'p, 'a>), ParseFailure<'p, 'a>>
    ensures is { ReadsAs use_of
        (grammar.indexed_use (scope_of scope.now).types (terminals_of cursor.entry)
        (grammar.index spaces.Type (scope_of scope.now).types.names (terminals_of cursor.entry)))
        result }
    ensures small { IfOk result (λ r. spec.index_or_zero (use_of r.0) < 2 ^ 63) }
{
    let (index, rest) = index(Space::Type, scope.type_names, cursor)?;
    closed_use(alloc, scope, index, cursor, rest)
}

/// Parses the `)` after the type index and the rest of a type use. `all` begins with the index, for
/// errors.
fn closed_use<'p, 'a>(
    alloc: Global,
    scope: &Scope<'_, '_>,
    index: usize,
    all: TokenCursor<'p, 'a>,
    cursor: TokenCursor<'p, 'a>,
) -> Result<(TypeUse, TokenCursor<'p, 'a>), ParseFailure<'p, 'a>>
    ensures is { ReadsAs use_of
        (grammar.closed_index (scope_of scope.now).types index (terminals_of all.entry)
        (terminals_of cursor.entry))
        result }
    ensures small { IfOk result (λ r. spec.index_or_zero (use_of r.0) < 2 ^ 63) }
{
    match cursor.first() {
        Some((DecodedToken::Close, rest)) => {
            if scope.are_types_known {
                typed_use(alloc, scope.types, index, all, rest)
            } else {
                assumed_use(alloc, rest)
            }
        }
        _ => Err(ParseFailure::Text(unexpected(Expected::Close, cursor))),
    }
}

/// Parses the rest of a type use after `(type index)`, if types are not known. The result has index
/// 0.
fn assumed_use<'p, 'a>(
    alloc: Global,
    cursor: TokenCursor<'p, 'a>,
) -> Result<(TypeUse, TokenCursor<'p, 'a>), ParseFailure<'p, 'a>>
    ensures is { ReadsAs use_of (grammar.assumed (grammar.lists_of (terminals_of cursor.entry)))
        result }
    ensures small { IfOk result (λ r. spec.index_or_zero (use_of r.0) < 2 ^ 63) }
{
    let (_, rest) = lists(alloc, cursor)?;
    Ok((TypeUse::Index(0), rest))
}

/// Parses the rest of a type use after `(type index)`, if types are known. Returns `UnknownName` if
/// the index is out of range.
fn typed_use<'p, 'a>(
    alloc: Global,
    types: &[FunctionType],
    index: usize,
    all: TokenCursor<'p, 'a>,
    cursor: TokenCursor<'p, 'a>,
) -> Result<(TypeUse, TokenCursor<'p, 'a>), ParseFailure<'p, 'a>>
    ensures is { ReadsAs use_of
        (grammar.indexed_by index (slice_get (map type_of types.now) index) (terminals_of all.entry)
        (terminals_of cursor.entry))
        result }
    ensures small { IfOk result (λ r. spec.index_or_zero (use_of r.0) < 2 ^ 63) }
{
    match type_at_index(types, index) {
        Some(of) => agreed(alloc, index, of, all, cursor),
        None => Err(ParseFailure::Text(fault(FaultKind::UnknownName(Space::Type), all))),
    }
}

/// Returns `true` if there are neither parameters nor results.
fn list_nothing(params: &[ValueType], results: &[ValueType]) -> bool
    ensures { result ≡ grammar.list_nothing params.now results.now }
{
    params.is_empty() && results.is_empty()
}

/// Parses the parameter and result types of a type use whose index has the type `of`. They may be
/// omitted. Returns `OtherType` if they differ from `of`.
fn agreed<'p, 'a>(
    alloc: Global,
    index: usize,
    of: &FunctionType,
    all: TokenCursor<'p, 'a>,
    cursor: TokenCursor<'p, 'a>,
) -> Result<(TypeUse, TokenCursor<'p, 'a>), ParseFailure<'p, 'a>>
    requires { index < 2 ^ 63 }
    ensures is { ReadsAs use_of
        (grammar.agreed index (type_of of.now) (terminals_of all.entry)
        (grammar.lists_of (terminals_of cursor.entry)))
        result }
    ensures small { IfOk result (λ r. spec.index_or_zero (use_of r.0) < 2 ^ 63) }
{
    let (listed, rest) = lists(alloc, cursor)?;
    if list_nothing(&listed.params, &listed.results) || same_type(&listed, of) {
        return Ok((TypeUse::Index(index), rest));
    }
    Err(ParseFailure::Text(fault(FaultKind::OtherType, all)))
}

/// Parses an optional table index, which is 0 by default.
pub(crate) fn table_index<'p, 'a>(
    tables: &IndexedNames<'_>,
    cursor: TokenCursor<'p, 'a>,
) -> Result<(usize, TokenCursor<'p, 'a>), Fault<'p, 'a>>
    ensures { ReadsExactly (λ v. v) (grammar.table_of tables.now (terminals_of cursor.entry))
        result }
{
    match cursor.first() {
        Some((DecodedToken::Integer(_, _), _)) => index(Space::Table, tables, cursor),
        Some((DecodedToken::Id(_), _)) => index(Space::Table, tables, cursor),
        _ => Ok((0, cursor)),
    }
}

/// Parses the immediates of `call_indirect`.
pub(crate) fn indirect_call<'p, 'a>(
    alloc: Global,
    scope: &Scope<'_, '_>,
    cursor: TokenCursor<'p, 'a>,
) -> Result<(Argument, TokenCursor<'p, 'a>), ParseFailure<'p, 'a>>
    ensures { ReadsAs (λ v. v)
        (grammar.indirect_by (scope_of scope.now).types
        (grammar.table_of (scope_of scope.now).tables (terminals_of cursor.entry)))
        result }
{
    let (table, rest) = table_index(scope.tables, cursor)?;
    let (uses, rest) = type_use(alloc, scope, rest)?;
    let call = IndirectCall::new(alloc, table, uses)?;
    Ok((Argument::Indirect(call), rest))
}

/// Parses the optional result types of `select`.
pub(crate) fn select_types<'p, 'a>(
    alloc: Global,
    cursor: TokenCursor<'p, 'a>,
) -> Result<(Argument, TokenCursor<'p, 'a>), ParseFailure<'p, 'a>>
    ensures { ReadsAs (λ v. v)
        (grammar.select_by (grammar.after (codes "result") (terminals_of cursor.entry))
        (terminals_of cursor.entry))
        result }
{
    match after("result", cursor) {
        Some(_) => {
            let (types, rest) = listed(alloc, "result", cursor)?;
            let types = SelectTypes::new(alloc, types)?;
            Ok((Argument::Select(types), rest))
        }
        None => Ok((Argument::Nothing, cursor)),
    }
}

/// Parses a block type: at most one result, or a type use.
pub(crate) fn block_type<'p, 'a>(
    alloc: Global,
    scope: &Scope<'_, '_>,
    cursor: TokenCursor<'p, 'a>,
) -> Result<(Argument, TokenCursor<'p, 'a>), ParseFailure<'p, 'a>>
    ensures { ReadsAs (λ v. v)
        (grammar.block_type (scope_of scope.now).types (terminals_of cursor.entry)) result }
{
    let (uses, rest) = type_use(alloc, scope, cursor)?;
    let argument = block_argument(alloc, uses)?;
    Ok((argument, rest))
}

/// Returns the result of a block type that has at most one result, no parameters and no type index.
/// Returns `None` for any other block type.
fn short_form(uses: &TypeUse) -> Option<Option<ValueType>>
    ensures { MatchOption result
        (grammar.block_of (use_of uses.now) ≡ argument.BlockUse (use_of uses.now))
        (λ of. grammar.block_of (use_of uses.now) ≡ argument.Block of) }
{
    match uses {
        TypeUse::Index(_) => None,
        TypeUse::Inline(of) => only_result(&of.params, &of.results),
    }
}

/// Returns the result if there is at most one result and no parameter, otherwise `None`.
fn only_result(params: &[ValueType], results: &[ValueType]) -> Option<Option<ValueType>>
    ensures { MatchOption result
        ((u : spec.TypeUse) → grammar.inline_block params.now results.now u ≡ argument.BlockUse u)
        (λ of. (u : spec.TypeUse) →
        grammar.inline_block params.now results.now u ≡ argument.Block of) }
{
    match params {
        [] => match results {
            [] => Some(None),
            [of] => Some(Some(*of)),
            [_, _, ..] => None,
        },
        [_, ..] => None,
    }
}

/// Returns the immediate of a block with this type use.
fn block_argument(alloc: Global, uses: TypeUse) -> Result<Argument, AllocError>
    requires { spec.index_or_zero (use_of uses) < 2 ^ 63 }
    ensures { IfOk result (λ a. a ≡ grammar.block_of (use_of uses)) }
{
    match short_form(&uses) {
        Some(of) => Ok(Argument::Block(of)),
        None => {
            let uses = BoxedUse::new(alloc, uses)?;
            Ok(Argument::BlockUse(uses))
        }
    }
}
