//! Parses element segments, and tables, with or without an inline element segment.
ghost use Rattle.std.specs.Prelude.{◌≡◌, [], ◌∷◌, Ok, Err, Some, codes, map, MatchOption, MatchResult};
ghost use Rattle.wat_module_ast.specs.Fields as grammar;
ghost use Rattle.wat_module_parser.specs.Reading as reading;
ghost use Rattle.wat_module_ast.specs.Views.{expression_of, field_of, expressions_of, mode_of};
ghost use Rattle.wat_module_ast.specs.Views.{text_of};
ghost use Rattle.wat_module_parser.specs.Views.{IsItem, ItemFaults, NoItem, context_of};
ghost use Rattle.wat_module_ast.specs.Grammar.{label_of, reference_type};
ghost use Rattle.wat_module_tokens.specs.TokenCursor.{terminals_of};
ghost use Rattle.wat_module_instructions.specs.Parts.{ReadsAs, ReadsExactly, SkipsExactly};
ghost use Rattle.wat_module_tokens.specs.Terminals.{label};

use crate::header::closed;
use crate::names::Names;
use crate::segments::{expression, used};
use crate::types::table_type;
use std::alloc::Global;
use wat_module_ast::error::{Expected, Fault, FaultKind, ParseFailure, Range, Space};
use wat_module_ast::fields::{Elem, ElemMode, Elements, Field, Limits, Table, TableType, Target};
use wat_module_ast::instruction::{Instruction, ReferenceType};
use wat_module_instructions::faults::{fault, unexpected};
use wat_module_instructions::reading::{self, after};
use wat_module_tokens::stream::TokenCursor;
use wat_module_tokens::token::{DecodedToken, Name};

/// Parses elements that are expressions, as long as an opening parenthesis comes next.
fn items<'p, 'a>(
    alloc: Global,
    names: &Names<'a>,
    cursor: TokenCursor<'p, 'a>,
) -> Result<(Vec<Vec<Instruction>>, TokenCursor<'p, 'a>), ParseFailure<'p, 'a>>
    ensures { ReadsAs (λ v. map expression_of v.items)
        (reading.all (reading.element_item (context_of names.now)) (terminals_of cursor.entry))
        result }
{
    wat_module_instructions::laws::machine_is_grammar();
    wat_module_instructions::laws::folded_is_grammar();
    wat_module_instructions::laws::instructions_are_balanced();
    let mut found = Vec::new(alloc);
    let mut left = cursor;
    'items: loop {
        match next_item(alloc, names, &mut found, left) {
            Ok(Some(next)) => {
                left = next;
            }
            Ok(None) => return Ok((found, left)),
            Err(refusal) => return Err(refusal),
        }
    }
}

/// Parses an element that is an expression and appends it to `found`. Returns the tokens after it,
/// or `None` if no opening parenthesis comes next.
#[tactic(auto, unfolding(crate::specs::Reading::element_item))]
fn next_item<'p, 'a>(
    alloc: Global,
    names: &Names<'a>,
    found: &mut Vec<Vec<Instruction>>,
    left: TokenCursor<'p, 'a>,
) -> Result<Option<TokenCursor<'p, 'a>>, ParseFailure<'p, 'a>>
    ensures { MatchResult result
        (λ o. MatchOption o
        (NoItem (reading.element_item (context_of names.now) (terminals_of left.entry))
        (map expression_of found.old.items) (map expression_of found.new.items))
        (λ l. IsItem (reading.element_item (context_of names.now) (terminals_of left.entry))
        (map expression_of found.old.items) (map expression_of found.new.items)
        (terminals_of l)))
        (λ e. ItemFaults (reading.element_item (context_of names.now) (terminals_of left.entry))
        e) }
{
    match left.first() {
        Some((DecodedToken::Open, _)) => {
            let (element, cursor) = expression(alloc, names, "item", left)?;
            found.push(element)?;
            Ok(Some(cursor))
        }
        _ => Ok(None),
    }
}

/// Parses function indices as long as an integer or an identifier comes next.
fn functions<'p, 'a>(
    alloc: Global,
    names: &Names<'a>,
    cursor: TokenCursor<'p, 'a>,
) -> Result<(Vec<usize>, TokenCursor<'p, 'a>), ParseFailure<'p, 'a>>
    ensures { ReadsAs (λ v. map grammar.ref_func v.items)
        (reading.all (reading.function_item (context_of names.now)) (terminals_of cursor.entry))
        result }
{
    wat_module_instructions::laws::machine_is_grammar();
    wat_module_instructions::laws::folded_is_grammar();
    wat_module_instructions::laws::instructions_are_balanced();
    let mut found = Vec::new(alloc);
    let mut left = cursor;
    'functions: loop {
        match next_function(names, &mut found, left) {
            Ok(Some(next)) => {
                left = next;
            }
            Ok(None) => return Ok((found, left)),
            Err(refusal) => return Err(refusal),
        }
    }
}

/// Parses a function index and appends it to `found`. Returns the tokens after it, or `None` if
/// neither an integer nor an identifier comes next.
#[tactic(auto, unfolding(crate::specs::Reading::function_item))]
fn next_function<'p, 'a>(
    names: &Names<'a>,
    found: &mut Vec<usize>,
    left: TokenCursor<'p, 'a>,
) -> Result<Option<TokenCursor<'p, 'a>>, ParseFailure<'p, 'a>>
    ensures { MatchResult result
        (λ o. MatchOption o
        (NoItem (reading.function_item (context_of names.now) (terminals_of left.entry))
        (map grammar.ref_func found.old.items) (map grammar.ref_func found.new.items))
        (λ l. IsItem (reading.function_item (context_of names.now) (terminals_of left.entry))
        (map grammar.ref_func found.old.items) (map grammar.ref_func found.new.items)
        (terminals_of l)))
        (λ e. ItemFaults (reading.function_item (context_of names.now) (terminals_of left.entry))
        e) }
{
    match left.first() {
        Some((DecodedToken::Integer(_, _) | DecodedToken::Id(_), _)) => {
            let (index, cursor) = reading::index(Space::Func, &names.funcs, left)?;
            found.push(index)?;
            Ok(Some(cursor))
        }
        _ => Ok(None),
    }
}

/// Parses the elements of an inline element segment: expressions if an opening parenthesis comes
/// next, otherwise function indices.
#[tactic(auto, unfolding(crate::specs::Reading::either_at))]
fn either<'p, 'a>(
    alloc: Global,
    names: &Names<'a>,
    cursor: TokenCursor<'p, 'a>,
) -> Result<(Elements, TokenCursor<'p, 'a>), ParseFailure<'p, 'a>>
    ensures { ReadsAs expressions_of
        (reading.either_at (context_of names.now) (terminals_of cursor.entry)) result }
{
    match cursor.first() {
        Some((DecodedToken::Open, _)) => {
            let (expressions, rest) = items(alloc, names, cursor)?;
            Ok((Elements::Expressions(expressions), rest))
        }
        _ => {
            let (functions, rest) = functions(alloc, names, cursor)?;
            Ok((Elements::Functions(functions), rest))
        }
    }
}

/// Parses a table definition after its identifier and inline exports: its type, or the type of its
/// elements and an inline element segment.
#[tactic(auto, unfolding(crate::specs::Reading::table_at))]
pub(crate) fn table_at<'p, 'a>(
    alloc: Global,
    names: &Names<'a>,
    name: Name<'a>,
    exports: Vec<&'a [u8]>,
    cursor: TokenCursor<'p, 'a>,
) -> Result<(Field<'a>, TokenCursor<'p, 'a>), ParseFailure<'p, 'a>>
    ensures { ReadsAs (λ v. field_of v ∷ [])
        (reading.table_at (context_of names.now) (label name.entry)
        (map text_of exports.entry.items) (terminals_of cursor.entry))
        result }
{
    match cursor.first() {
        Some((DecodedToken::Word(word), rest)) => match reading::reference_type(word) {
            Some(of) => table_open(alloc, names, name, exports, of, rest),
            None => {
                let kind = FaultKind::UnknownWord(Expected::TableDefinition);
                Err(ParseFailure::Text(fault(kind, cursor)))
            }
        },
        Some(
            (
                DecodedToken::Open
                | DecodedToken::Close
                | DecodedToken::Id(_)
                | DecodedToken::Integer(_, _)
                | DecodedToken::Text(_)
                | DecodedToken::Float(_)
                | DecodedToken::Other,
                _,
            ),
        ) => Ok(table_limits(name, exports, cursor)?),
        None => Ok(table_limits(name, exports, cursor)?),
    }
}

/// Parses a table definition without an inline element segment, after its inline exports: its type
/// and the closing parenthesis.
fn table_limits<'p, 'a>(
    name: Name<'a>,
    exports: Vec<&'a [u8]>,
    cursor: TokenCursor<'p, 'a>,
) -> Result<(Field<'a>, TokenCursor<'p, 'a>), Fault<'p, 'a>>
    ensures { ReadsExactly (λ v. field_of v ∷ [])
        (reading.table_limits (label name.entry) (map text_of exports.entry.items)
        (terminals_of cursor.entry))
        result }
{
    let (of, rest) = table_type(Expected::TableDefinition, cursor)?;
    let rest = closed(rest)?;
    Ok((
        Field::Table(Table {
            name,
            exports,
            of,
            elements: None,
        }),
        rest,
    ))
}

/// Parses a table definition after the type of its elements: an inline element segment must come
/// next.
fn table_open<'p, 'a>(
    alloc: Global,
    names: &Names<'a>,
    name: Name<'a>,
    exports: Vec<&'a [u8]>,
    of: ReferenceType,
    cursor: TokenCursor<'p, 'a>,
) -> Result<(Field<'a>, TokenCursor<'p, 'a>), ParseFailure<'p, 'a>>
    ensures { ReadsAs (λ v. field_of v ∷ [])
        (reading.table_by (context_of names.now) (label name.entry)
        (map text_of exports.entry.items) (Some of) (terminals_of cursor.entry)
        (terminals_of cursor.entry))
        result }
{
    match after("elem", cursor) {
        Some(rest) => table_elements(alloc, names, name, exports, of, rest),
        None => Err(ParseFailure::Text(unexpected(Expected::Elem, cursor))),
    }
}

/// Parses a table definition after `(elem`: its elements and both closing parentheses.
fn table_elements<'p, 'a>(
    alloc: Global,
    names: &Names<'a>,
    name: Name<'a>,
    exports: Vec<&'a [u8]>,
    of: ReferenceType,
    cursor: TokenCursor<'p, 'a>,
) -> Result<(Field<'a>, TokenCursor<'p, 'a>), ParseFailure<'p, 'a>>
    ensures { ReadsAs (λ v. field_of v ∷ [])
        (reading.table_elements (context_of names.now) (label name.entry)
        (map text_of exports.entry.items) of (terminals_of cursor.entry))
        result }
{
    let (elements, rest) = either(alloc, names, cursor)?;
    let rest = either_closed(cursor, rest)?;
    Ok(table_with(name, exports, of, cursor, elements, rest)?)
}

/// Skips the closing parentheses of an inline element segment and of its table. The elements begin
/// at `start` and end at `cursor`.
fn either_closed<'p, 'a>(
    start: TokenCursor<'p, 'a>,
    cursor: TokenCursor<'p, 'a>,
) -> Result<TokenCursor<'p, 'a>, Fault<'p, 'a>>
    ensures { SkipsExactly
        (reading.skip_two_closes_or (reading.after_either (terminals_of start.entry))
        (terminals_of cursor.entry))
        result }
{
    match cursor.first() {
        Some((DecodedToken::Close, rest)) => closed(rest),
        _ => Err(unexpected(after_either(start), cursor)),
    }
}

/// Returns what the grammar accepts after the inline elements of a table, which begin at `start`.
fn after_either(start: TokenCursor<'_, '_>) -> Expected
    ensures { result ≡ reading.after_either (terminals_of start.entry) }
{
    match start.first() {
        Some((DecodedToken::Open, _)) => Expected::ExpressionOrClose,
        Some((DecodedToken::Integer(_, _) | DecodedToken::Id(_), _)) => Expected::FunctionOrClose,
        _ => Expected::ElementOrClose,
    }
}

/// Returns a table whose minimum and maximum size is the number of its inline elements, which must
/// be below 2^32. `all` starts at the elements, for errors.
fn table_with<'p, 'a>(
    name: Name<'a>,
    exports: Vec<&'a [u8]>,
    of: ReferenceType,
    all: TokenCursor<'p, 'a>,
    elements: Elements,
    rest: TokenCursor<'p, 'a>,
) -> Result<(Field<'a>, TokenCursor<'p, 'a>), Fault<'p, 'a>>
    ensures { ReadsExactly (λ v. field_of v ∷ [])
        (reading.table_with (label name.entry) (map text_of exports.entry.items) of
        (terminals_of all.entry) (expressions_of elements) (terminals_of rest.entry))
        result }
{
    if elements.len() as u64 >= 0x1_0000_0000 {
        return Err(fault(FaultKind::OutOfRange(Range::Unsigned(0x8000_0000)), all));
    }
    let size = elements.len() as u32;
    Ok((
        Field::Table(Table {
            name,
            exports,
            of: TableType {
                limits: Limits {
                    min: size,
                    max: Some(size),
                },
                element: of,
            },
            elements: Some(elements),
        }),
        rest,
    ))
}

/// Parses an element list: a reference type and expressions, or `func` and function indices.
/// Without its keyword the error says that `expected` is accepted there.
#[tactic(auto, unfolding(crate::specs::Reading::elements_at))]
fn elements<'p, 'a>(
    alloc: Global,
    names: &Names<'a>,
    expected: Expected,
    cursor: TokenCursor<'p, 'a>,
) -> Result<((ReferenceType, Elements), TokenCursor<'p, 'a>), ParseFailure<'p, 'a>>
    ensures { ReadsAs (λ v. (v.0, expressions_of v.1))
        (reading.elements_at expected (context_of names.now) (terminals_of cursor.entry)) result }
{
    match cursor.first() {
        Some((DecodedToken::Word(word), rest)) => elements_after(
            alloc, names, expected, word, cursor, rest,
        ),
        _ => Err(ParseFailure::Text(unexpected(expected, cursor))),
    }
}

/// Parses an element list after its keyword. `all` starts at the keyword, for errors. With another
/// keyword the error says that `expected` is accepted there.
fn elements_after<'p, 'a>(
    alloc: Global,
    names: &Names<'a>,
    expected: Expected,
    word: &str,
    all: TokenCursor<'p, 'a>,
    cursor: TokenCursor<'p, 'a>,
) -> Result<((ReferenceType, Elements), TokenCursor<'p, 'a>), ParseFailure<'p, 'a>>
    ensures { ReadsAs (λ v. (v.0, expressions_of v.1))
        (reading.elements_by expected (context_of names.now) word.now (reference_type word.now)
        (terminals_of all.entry) (terminals_of cursor.entry))
        result }
{
    match reading::reference_type(word) {
        Some(of) => {
            let (expressions, rest) = items(alloc, names, cursor)?;
            Ok(((of, Elements::Expressions(expressions)), rest))
        }
        None => {
            if word == "func" {
                let (functions, rest) = functions(alloc, names, cursor)?;
                Ok(((ReferenceType::Func, Elements::Functions(functions)), rest))
            } else {
                Err(ParseFailure::Text(unexpected(expected, all)))
            }
        }
    }
}

/// Parses an element list and the closing parenthesis of its segment. Without an element list the
/// error says that `expected` is accepted there.
fn elem_list<'p, 'a>(
    alloc: Global,
    names: &Names<'a>,
    expected: Expected,
    name: Name<'a>,
    mode: ElemMode,
    cursor: TokenCursor<'p, 'a>,
) -> Result<(Field<'a>, TokenCursor<'p, 'a>), ParseFailure<'p, 'a>>
    ensures { ReadsAs (λ v. field_of v ∷ [])
        (reading.elem_list expected (context_of names.now) (label name.entry) (mode_of mode)
        (terminals_of cursor.entry))
        result }
{
    let ((of, elements), rest) = elements(alloc, names, expected, cursor)?;
    let rest = elements_closed(cursor, rest)?;
    Ok((
        Field::Elem(Elem {
            name,
            mode,
            of,
            elements,
        }),
        rest,
    ))
}

/// Skips the closing parenthesis of an element segment whose element list begins at `start` and
/// ends at `cursor`.
fn elements_closed<'p, 'a>(
    start: TokenCursor<'p, 'a>,
    cursor: TokenCursor<'p, 'a>,
) -> Result<TokenCursor<'p, 'a>, Fault<'p, 'a>>
    ensures { SkipsExactly
        (reading.closed_or (reading.after_elements (terminals_of start.entry))
        (terminals_of cursor.entry))
        result }
{
    match cursor.first() {
        Some((DecodedToken::Close, rest)) => Ok(rest),
        _ => Err(unexpected(after_elements(start), cursor)),
    }
}

/// Returns what the grammar accepts after an element list, which begins at `start`.
fn after_elements(start: TokenCursor<'_, '_>) -> Expected
    ensures { result ≡ reading.after_elements (terminals_of start.entry) }
{
    match start.first() {
        Some((DecodedToken::Word(word), _)) if word == "func" => Expected::FunctionOrClose,
        _ => Expected::ExpressionOrClose,
    }
}

/// Parses function indices and the closing parenthesis of their segment.
fn functions_list<'p, 'a>(
    alloc: Global,
    names: &Names<'a>,
    name: Name<'a>,
    mode: ElemMode,
    cursor: TokenCursor<'p, 'a>,
) -> Result<(Field<'a>, TokenCursor<'p, 'a>), ParseFailure<'p, 'a>>
    ensures { ReadsAs (λ v. field_of v ∷ [])
        (reading.functions_list (context_of names.now) (label name.entry) (mode_of mode)
        (terminals_of cursor.entry))
        result }
{
    let (functions, rest) = functions(alloc, names, cursor)?;
    let rest = functions_closed(cursor, rest)?;
    Ok((
        Field::Elem(Elem {
            name,
            mode,
            of: ReferenceType::Func,
            elements: Elements::Functions(functions),
        }),
        rest,
    ))
}

/// Skips the closing parenthesis of an element segment whose function indices begin at `start` and
/// end at `cursor`.
fn functions_closed<'p, 'a>(
    start: TokenCursor<'p, 'a>,
    cursor: TokenCursor<'p, 'a>,
) -> Result<TokenCursor<'p, 'a>, Fault<'p, 'a>>
    ensures { SkipsExactly
        (reading.closed_or (reading.after_functions (terminals_of start.entry))
        (terminals_of cursor.entry))
        result }
{
    match cursor.first() {
        Some((DecodedToken::Close, rest)) => Ok(rest),
        _ => Err(unexpected(after_functions(start), cursor)),
    }
}

/// Returns what the grammar accepts after function indices without `func`, which begin at `start`.
fn after_functions(start: TokenCursor<'_, '_>) -> Expected
    ensures { result ≡ reading.after_functions (terminals_of start.entry) }
{
    match start.first() {
        Some((DecodedToken::Integer(_, _) | DecodedToken::Id(_), _)) => Expected::FunctionOrClose,
        _ => Expected::ElementListOrFunction,
    }
}

/// Parses the elements of an active segment without a table use, after its offset: an element list
/// if a keyword comes next, otherwise function indices. Includes the closing parenthesis.
#[tactic(auto, unfolding(crate::specs::Reading::implicit_table))]
fn implicit_table<'p, 'a>(
    alloc: Global,
    names: &Names<'a>,
    name: Name<'a>,
    mode: ElemMode,
    cursor: TokenCursor<'p, 'a>,
) -> Result<(Field<'a>, TokenCursor<'p, 'a>), ParseFailure<'p, 'a>>
    ensures { ReadsAs (λ v. field_of v ∷ [])
        (reading.implicit_table (context_of names.now) (label name.entry) (mode_of mode)
        (terminals_of cursor.entry))
        result }
{
    match cursor.first() {
        Some((DecodedToken::Word(_), _)) => {
            let expected = Expected::ElementListOrFunction;
            elem_list(alloc, names, expected, name, mode, cursor)
        }
        _ => functions_list(alloc, names, name, mode, cursor),
    }
}

/// Parses an active element segment with a table use, after its identifier.
fn given_table<'p, 'a>(
    alloc: Global,
    names: &Names<'a>,
    name: Name<'a>,
    cursor: TokenCursor<'p, 'a>,
) -> Result<(Field<'a>, TokenCursor<'p, 'a>), ParseFailure<'p, 'a>>
    ensures { ReadsAs (λ v. field_of v ∷ [])
        (reading.given_table (context_of names.now) (label name.entry) (terminals_of cursor.entry))
        result }
{
    let (index, rest) = used("table", Space::Table, &names.tables, cursor)?;
    let (offset, rest) = expression(alloc, names, "offset", rest)?;
    let mode = ElemMode::Active(Target { index, offset });
    elem_list(alloc, names, Expected::ElementList, name, mode, rest)
}

/// Parses an active element segment after its identifier. Without a table use, its table is table
/// 0.
fn active_elem<'p, 'a>(
    alloc: Global,
    names: &Names<'a>,
    name: Name<'a>,
    cursor: TokenCursor<'p, 'a>,
) -> Result<(Field<'a>, TokenCursor<'p, 'a>), ParseFailure<'p, 'a>>
    ensures { ReadsAs (λ v. field_of v ∷ [])
        (reading.active_elem (context_of names.now) (label name.entry)
        (reading.after (codes "table") (terminals_of cursor.entry)) (terminals_of cursor.entry))
        result }
{
    match after("table", cursor) {
        Some(_) => given_table(alloc, names, name, cursor),
        None => {
            let index = 0;
            let (offset, rest) = expression(alloc, names, "offset", cursor)?;
            implicit_table(
                alloc,
                names,
                name,
                ElemMode::Active(Target { index, offset }),
                rest,
            )
        }
    }
}

/// Parses an element segment after its keyword.
pub(crate) fn elem_at<'p, 'a>(
    alloc: Global,
    names: &Names<'a>,
    cursor: TokenCursor<'p, 'a>,
) -> Result<(Field<'a>, TokenCursor<'p, 'a>), ParseFailure<'p, 'a>>
    ensures { ReadsAs (λ v. field_of v ∷ [])
        (reading.elem_at (context_of names.now) (label_of (terminals_of cursor.entry))) result }
{
    let (name, rest) = reading::label(cursor);
    elem_after(alloc, names, name, rest)
}

/// Parses an element segment after its identifier.
#[tactic(auto, unfolding(crate::specs::Reading::elem_after))]
fn elem_after<'p, 'a>(
    alloc: Global,
    names: &Names<'a>,
    name: Name<'a>,
    cursor: TokenCursor<'p, 'a>,
) -> Result<(Field<'a>, TokenCursor<'p, 'a>), ParseFailure<'p, 'a>>
    ensures { ReadsAs (λ v. field_of v ∷ [])
        (reading.elem_after (context_of names.now) (label name.entry) (terminals_of cursor.entry))
        result }
{
    match cursor.first() {
        Some((DecodedToken::Open, _)) => active_elem(alloc, names, name, cursor),
        Some((DecodedToken::Word(word), rest)) => elem_word(alloc, names, name, word, cursor, rest),
        _ => Err(ParseFailure::Text(unexpected(Expected::ElementSegment, cursor))),
    }
}

/// Parses a declarative element segment after `declare`, or a passive one, whose element list
/// begins with `word`. `all` starts at `word`, `cursor` after it.
fn elem_word<'p, 'a>(
    alloc: Global,
    names: &Names<'a>,
    name: Name<'a>,
    word: &str,
    all: TokenCursor<'p, 'a>,
    cursor: TokenCursor<'p, 'a>,
) -> Result<(Field<'a>, TokenCursor<'p, 'a>), ParseFailure<'p, 'a>>
    ensures { ReadsAs (λ v. field_of v ∷ [])
        (reading.elem_word (context_of names.now) (label name.entry) word.now
        (terminals_of all.entry) (terminals_of cursor.entry))
        result }
{
    if word == "declare" {
        let mode = ElemMode::Declarative;
        return elem_list(alloc, names, Expected::ElementList, name, mode, cursor);
    }
    elem_list(
        alloc,
        names,
        Expected::ElementSegment,
        name,
        ElemMode::Passive,
        all,
    )
}
