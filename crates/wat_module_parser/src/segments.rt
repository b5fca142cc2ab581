//! Parses data segments, memories, and what data and element segments have in common: memory and
//! table uses, and expressions.
ghost use Rattle.std.specs.Prelude.{◌≡◌, [], ◌∷◌, Ok, Err, map, IfOk, MatchOption, MatchResult};
ghost use Rattle.wat_module_ast.specs.Fields as grammar;
ghost use Rattle.wat_module_parser.specs.Reading as reading;
ghost use Rattle.wat_module_ast.specs.Views.{field_of, target_of, text_of, together};
ghost use Rattle.wat_module_parser.specs.Views.{IsItem, ItemFaults, NoItem, context_of};
ghost use Rattle.wat_module_ast.specs.Grammar.{label_of};
ghost use Rattle.wat_module_tokens.specs.TokenCursor.{terminals_of};
ghost use Rattle.wat_module_instructions.specs.Parts.{ReadsAs, ReadsExactly, SkipsExactly};
ghost use Rattle.wat_module_tokens.specs.Terminals.{label};

use crate::elements::elem_at;
use crate::header::{closed, closed_or};
use crate::module::scope;
use crate::names::Names;
use crate::types::{after_memory_limits, limits, skip_two_closes_or};
use std::alloc::{AllocError, Global};
use wat_module_ast::error::{Expected, Fault, FaultKind, ParseFailure, Range, Space};
use wat_module_ast::fields::{Data, Field, Limits, Memory, Target, len_of};
use wat_module_ast::instruction::Instruction;
use wat_module_instructions::faults::{fault, unexpected};
use wat_module_instructions::machine;
use wat_module_instructions::names::IndexedNames;
use wat_module_instructions::reading::{self, after};
use wat_module_tokens::stream::TokenCursor;
use wat_module_tokens::token::{DecodedToken, Name};

/// Size of a memory page, in bytes.
const PAGE: usize = 0x1_0000;

/// Parses strings as long as one comes next.
fn strings<'p, 'a>(
    alloc: Global,
    cursor: TokenCursor<'p, 'a>,
) -> Result<(Vec<&'a [u8]>, TokenCursor<'p, 'a>), ParseFailure<'p, 'a>>
    ensures { ReadsAs (λ v. together v.items)
        (reading.all reading.string_item (terminals_of cursor.entry)) result }
{
    let mut found = Vec::new(alloc);
    let mut left = cursor;
    'strings: loop {
        match next_string(&mut found, left) {
            Ok(Some(next)) => {
                left = next;
            }
            Ok(None) => return Ok((found, left)),
            Err(refusal) => return Err(refusal),
        }
    }
}

/// Parses a string and appends it to `found`. Returns the tokens after it, or `None` if no string
/// comes next.
#[tactic(auto, unfolding(crate::specs::Reading::string_item))]
fn next_string<'p, 'a>(
    found: &mut Vec<&'a [u8]>,
    left: TokenCursor<'p, 'a>,
) -> Result<Option<TokenCursor<'p, 'a>>, ParseFailure<'p, 'a>>
    ensures { MatchResult result
        (λ o. MatchOption o
        (NoItem (reading.string_item (terminals_of left.entry)) (together found.old.items)
        (together found.new.items))
        (λ l. IsItem (reading.string_item (terminals_of left.entry)) (together found.old.items)
        (together found.new.items) (terminals_of l)))
        (λ e. ItemFaults (reading.string_item (terminals_of left.entry)) e) }
{
    match left.first() {
        Some((DecodedToken::Text(text), cursor)) => {
            found.push(text)?;
            Ok(Some(cursor))
        }
        _ => Ok(None),
    }
}

/// Parses a memory definition after its identifier and inline exports: its limits, or an inline
/// data segment.
pub(crate) fn memory_at<'p, 'a>(
    alloc: Global,
    name: Name<'a>,
    exports: Vec<&'a [u8]>,
    cursor: TokenCursor<'p, 'a>,
) -> Result<(Field<'a>, TokenCursor<'p, 'a>), ParseFailure<'p, 'a>>
    ensures { ReadsAs (λ v. field_of v ∷ [])
        (reading.memory_at (label name.entry) (map text_of exports.entry.items)
        (terminals_of cursor.entry))
        result }
{
    match after("data", cursor) {
        Some(rest) => memory_data(alloc, name, exports, rest),
        None => Ok(memory_type(name, exports, cursor)?),
    }
}

/// Parses a memory definition without an inline data segment, after its inline exports: its limits
/// and the closing parenthesis.
fn memory_type<'p, 'a>(
    name: Name<'a>,
    exports: Vec<&'a [u8]>,
    cursor: TokenCursor<'p, 'a>,
) -> Result<(Field<'a>, TokenCursor<'p, 'a>), Fault<'p, 'a>>
    ensures { ReadsExactly (λ v. field_of v ∷ [])
        (reading.memory_type (label name.entry) (map text_of exports.entry.items)
        (terminals_of cursor.entry))
        result }
{
    let (limits, rest) = limits(Expected::MemoryDefinition, cursor)?;
    let rest = closed_or(after_memory_limits(limits.max), rest)?;
    Ok((
        Field::Memory(Memory {
            name,
            exports,
            limits,
            data: None,
        }),
        rest,
    ))
}

/// Parses a memory definition after `(data`: its strings and both closing parentheses.
fn memory_data<'p, 'a>(
    alloc: Global,
    name: Name<'a>,
    exports: Vec<&'a [u8]>,
    cursor: TokenCursor<'p, 'a>,
) -> Result<(Field<'a>, TokenCursor<'p, 'a>), ParseFailure<'p, 'a>>
    ensures { ReadsAs (λ v. field_of v ∷ [])
        (reading.memory_data (label name.entry) (map text_of exports.entry.items)
        (terminals_of cursor.entry))
        result }
{
    let (strings, rest) = strings(alloc, cursor)?;
    let rest = skip_two_closes_or(Expected::TextOrClose, rest)?;
    memory_of(name, exports, cursor, strings, rest)
}

/// Returns a memory whose minimum and maximum size is the number of pages that hold its inline
/// data, which must be below 2^32. `all` starts at the strings, for errors.
fn memory_of<'p, 'a>(
    name: Name<'a>,
    exports: Vec<&'a [u8]>,
    all: TokenCursor<'p, 'a>,
    strings: Vec<&'a [u8]>,
    rest: TokenCursor<'p, 'a>,
) -> Result<(Field<'a>, TokenCursor<'p, 'a>), ParseFailure<'p, 'a>>
    ensures { ReadsAs (λ v. field_of v ∷ [])
        (reading.memory_of (label name.entry) (map text_of exports.entry.items)
        (terminals_of all.entry) (together strings.entry.items) (terminals_of rest.entry))
        result }
{
    let pages = pages_of(&strings)?;
    if pages as u64 >= 0x1_0000_0000 {
        let kind = FaultKind::OutOfRange(Range::Unsigned(0x8000_0000));
        return Err(ParseFailure::Text(fault(kind, all)));
    }
    let size = pages as u32;
    Ok((
        Field::Memory(Memory {
            name,
            exports,
            limits: Limits {
                min: size,
                max: Some(size),
            },
            data: Some(strings),
        }),
        rest,
    ))
}

/// Returns the number of pages that hold the bytes of the strings, rounded up.
fn pages_of(strings: &[&[u8]]) -> Result<usize, AllocError>
    ensures { IfOk result (λ pages. pages ≡ grammar.pages_of (together strings.now)) }
{
    Ok((len_of(strings)? + (PAGE - 1)) / PAGE)
}

/// Parses the memory use or table use of a segment: an opening parenthesis, `word`, an index and a
/// closing parenthesis. Returns index 0 if no such group comes next. `space` is the index space,
/// for errors.
#[tactic(auto, unfolding(crate::specs::Reading::used_at))]
pub(crate) fn used<'p, 'a>(
    word: &str,
    space: Space,
    names: &IndexedNames<'_>,
    cursor: TokenCursor<'p, 'a>,
) -> Result<(usize, TokenCursor<'p, 'a>), Fault<'p, 'a>>
    ensures { ReadsExactly (λ v. v)
        (reading.used_at word.now space names.now (terminals_of cursor.entry)) result }
{
    match after(word, cursor) {
        Some(rest) => {
            let (index, rest) = reading::index(space, names, rest)?;
            let rest = closed(rest)?;
            Ok((index, rest))
        }
        None => Ok((0, cursor)),
    }
}

/// Parses an expression: an opening parenthesis, `word`, instructions and a closing parenthesis; or
/// one folded instruction.
#[tactic(auto, unfolding(crate::specs::Reading::expression_at))]
pub(crate) fn expression<'p, 'a>(
    alloc: Global,
    names: &Names<'a>,
    word: &str,
    cursor: TokenCursor<'p, 'a>,
) -> Result<(Vec<Instruction>, TokenCursor<'p, 'a>), ParseFailure<'p, 'a>>
    ensures { ReadsAs (λ v. v.items)
        (reading.expression_at word.now (context_of names.now) (terminals_of cursor.entry)) result }
{
    match after(word, cursor) {
        Some(rest) => {
            let locals = IndexedNames::none(alloc);
            let scope = scope(names, &locals);
            machine::instructions(alloc, &scope, rest)
        }
        None => one_instruction(alloc, names, cursor),
    }
}

/// Parses an expression that is one folded instruction.
fn one_instruction<'p, 'a>(
    alloc: Global,
    names: &Names<'a>,
    cursor: TokenCursor<'p, 'a>,
) -> Result<(Vec<Instruction>, TokenCursor<'p, 'a>), ParseFailure<'p, 'a>>
    ensures { ReadsAs (λ v. v.items)
        (reading.one_at (context_of names.now) (terminals_of cursor.entry)) result }
{
    match cursor.first() {
        Some((DecodedToken::Open, rest)) => {
            let locals = IndexedNames::none(alloc);
            let scope = scope(names, &locals);
            machine::one_folded(alloc, &scope, rest)
        }
        _ => Err(ParseFailure::Text(unexpected(Expected::Expression, cursor))),
    }
}

/// Parses a data or element segment after its keyword. `all` starts at the keyword, for errors.
pub(crate) fn segment<'p, 'a>(
    alloc: Global,
    names: &Names<'a>,
    word: &str,
    all: TokenCursor<'p, 'a>,
    cursor: TokenCursor<'p, 'a>,
) -> Result<(Field<'a>, TokenCursor<'p, 'a>), ParseFailure<'p, 'a>>
    ensures { ReadsAs (λ v. field_of v ∷ [])
        (reading.segment_at (context_of names.now) word.now (terminals_of all.entry)
        (terminals_of cursor.entry))
        result }
{
    if word == "data" {
        return data_at(alloc, names, cursor);
    }
    if word == "elem" {
        return elem_at(alloc, names, cursor);
    }
    Err(ParseFailure::Text(fault(FaultKind::UnknownWord(Expected::Field), all)))
}

/// Parses a data segment after its keyword.
fn data_at<'p, 'a>(
    alloc: Global,
    names: &Names<'a>,
    cursor: TokenCursor<'p, 'a>,
) -> Result<(Field<'a>, TokenCursor<'p, 'a>), ParseFailure<'p, 'a>>
    ensures { ReadsAs (λ v. field_of v ∷ [])
        (reading.data_at (context_of names.now) (label_of (terminals_of cursor.entry))) result }
{
    let (name, rest) = reading::label(cursor);
    data_after(alloc, names, name, rest)
}

/// Parses a data segment after its identifier.
#[tactic(auto, unfolding(crate::specs::Reading::data_after))]
fn data_after<'p, 'a>(
    alloc: Global,
    names: &Names<'a>,
    name: Name<'a>,
    cursor: TokenCursor<'p, 'a>,
) -> Result<(Field<'a>, TokenCursor<'p, 'a>), ParseFailure<'p, 'a>>
    ensures { ReadsAs (λ v. field_of v ∷ [])
        (reading.data_after (context_of names.now) (label name.entry) (terminals_of cursor.entry))
        result }
{
    match cursor.first() {
        Some((DecodedToken::Open, _)) => active_data(alloc, names, name, cursor),
        _ => data_strings(alloc, name, None, cursor),
    }
}

/// Parses an active data segment after its identifier: its memory use, offset and strings.
fn active_data<'p, 'a>(
    alloc: Global,
    names: &Names<'a>,
    name: Name<'a>,
    cursor: TokenCursor<'p, 'a>,
) -> Result<(Field<'a>, TokenCursor<'p, 'a>), ParseFailure<'p, 'a>>
    ensures { ReadsAs (λ v. field_of v ∷ [])
        (reading.active_data (context_of names.now) (label name.entry) (terminals_of cursor.entry))
        result }
{
    let (index, rest) = used("memory", Space::Memory, &names.memories, cursor)?;
    let (offset, rest) = expression(alloc, names, "offset", rest)?;
    data_strings(alloc, name, Some(Target { index, offset }), rest)
}

/// Parses the strings of a data segment and its closing parenthesis.
fn data_strings<'p, 'a>(
    alloc: Global,
    name: Name<'a>,
    target: Option<Target>,
    cursor: TokenCursor<'p, 'a>,
) -> Result<(Field<'a>, TokenCursor<'p, 'a>), ParseFailure<'p, 'a>>
    ensures { ReadsAs (λ v. field_of v ∷ [])
        (reading.data_strings (label name.entry) (target_of target) (terminals_of cursor.entry))
        result }
{
    let (strings, rest) = strings(alloc, cursor)?;
    let rest = strings_closed(&target, cursor, rest)?;
    Ok((
        Field::Data(Data {
            name,
            target,
            strings,
        }),
        rest,
    ))
}

/// Skips the closing parenthesis of a data segment whose strings begin at `start` and end at
/// `cursor`.
fn strings_closed<'p, 'a>(
    target: &Option<Target>,
    start: TokenCursor<'p, 'a>,
    cursor: TokenCursor<'p, 'a>,
) -> Result<TokenCursor<'p, 'a>, Fault<'p, 'a>>
    ensures { SkipsExactly
        (reading.closed_or (reading.after_strings (target_of target.now) (terminals_of start.entry))
        (terminals_of cursor.entry))
        result }
{
    match cursor.first() {
        Some((DecodedToken::Close, rest)) => Ok(rest),
        _ => Err(unexpected(after_strings(target, start), cursor)),
    }
}

/// Returns what the grammar accepts after the strings of a data segment, which begin at `start`.
fn after_strings(target: &Option<Target>, start: TokenCursor<'_, '_>) -> Expected
    ensures { result ≡ reading.after_strings (target_of target.now) (terminals_of start.entry) }
{
    match target {
        Some(_) => Expected::TextOrClose,
        None => match start.first() {
            Some((DecodedToken::Text(_), _)) => Expected::TextOrClose,
            _ => Expected::DataSegment,
        },
    }
}
