//! Errors of modules whose identifiers are not distinct, or whose fields are out of order. Each is
//! at the later of two tokens. Modules without these errors do not use this module.
ghost use Rattle.std.specs.Prelude.{◌≡◌, ◌≤◌, ◌<◌, ◌∷◌, [], IfOk, IfSome, MatchOption, None, Some};
ghost use Rattle.std.specs.Prelude.{drop, length, map, List};
ghost use Rattle.wat_module_ast.specs.Grammar as declared;
ghost use Rattle.wat_module_ast.specs.Views.{field_of, fields_of};
ghost use Rattle.wat_module_instructions.specs.Parts.{fault_of};
ghost use Rattle.wat_module_parser.specs.Places as places;
ghost use Rattle.wat_module_parser.specs.Reading as reading;
ghost use Rattle.wat_module_parser.specs.Views.{property};
ghost use Rattle.wat_module_tokens.specs.TokenCursor.{terminals_of};
ghost use Rattle.wat_module_tokens.specs.Terminals.{label, terminal};

use crate::names::starts;
use crate::types::space_of;
use std::alloc::{AllocError, Global};
use wat_module_ast::error::{Fault, FaultKind, Space};
use wat_module_ast::fields::Field;
use wat_module_instructions::faults::fault;
use wat_module_instructions::names::repeated;
use wat_module_instructions::reading;
use wat_module_tokens::stream::TokenCursor;
use wat_module_tokens::token::{DecodedToken, Name};

/// A property of fields.
#[derive(Clone, Copy)]
pub(crate) enum Sought {
    /// The definition of a function, table, memory or global.
    Definition,
    /// An import.
    Import,
    /// A start field.
    Start,
}

/// Returns the error for the fields of a module, two of which have the same identifier in an index
/// space.
#[tactic(auto, unfolding(crate::specs::Places::duplicate_among))]
pub(crate) fn duplicate_item<'p, 'a>(
    alloc: Global,
    cursor: TokenCursor<'p, 'a>,
) -> Result<Fault<'p, 'a>, AllocError>
    ensures { IfOk result (λ f. fault_of f ≡
        places.duplicate_item (reading.starts reading.Before [] (terminals_of cursor.entry))
        (terminals_of cursor.entry)) }
{
    let starts = starts(alloc, cursor)?;
    if let Some(fault) = duplicate_of(alloc, Space::Type, &starts)? {
        return Ok(fault);
    }
    if let Some(fault) = duplicate_of(alloc, Space::Func, &starts)? {
        return Ok(fault);
    }
    if let Some(fault) = duplicate_of(alloc, Space::Table, &starts)? {
        return Ok(fault);
    }
    if let Some(fault) = duplicate_of(alloc, Space::Memory, &starts)? {
        return Ok(fault);
    }
    if let Some(fault) = duplicate_of(alloc, Space::Global, &starts)? {
        return Ok(fault);
    }
    if let Some(fault) = duplicate_of(alloc, Space::Elem, &starts)? {
        return Ok(fault);
    }
    if let Some(fault) = duplicate_of(alloc, Space::Data, &starts)? {
        return Ok(fault);
    }
    Ok(fault(FaultKind::Duplicate(Space::Type, cursor.len()), cursor))
}

/// Returns the error at the first duplicate identifier of an index space in the fields at `starts`,
/// or `None` if the identifiers are distinct.
fn duplicate_of<'p, 'a>(
    alloc: Global,
    space: Space,
    starts: &[TokenCursor<'p, 'a>],
) -> Result<Option<Fault<'p, 'a>>, AllocError>
    ensures { IfOk result (λ found. MatchOption found
        ((f : declared.Fault) →
        places.duplicate_in space (places.field_names space (map terminals_of starts.now)) f ≡ f)
        (λ g. (f : declared.Fault) →
        places.duplicate_in space (places.field_names space (map terminals_of starts.now)) f ≡
        fault_of g)) }
{
    let at = field_names(alloc, space, starts)?;
    duplicate_in(alloc, space, &at)
}

/// Returns the error for a type use and locals, two of which have the same identifier. `cursor`
/// starts at the type use.
pub(crate) fn duplicate_variable<'p, 'a>(
    alloc: Global,
    cursor: TokenCursor<'p, 'a>,
) -> Result<Fault<'p, 'a>, AllocError>
    ensures { IfOk result (λ f. fault_of f ≡
        places.duplicate_variable (terminals_of cursor.entry)) }
{
    let at = variable_names(alloc, cursor)?;
    match duplicate_in(alloc, Space::Local, &at)? {
        Some(fault) => Ok(fault),
        None => Ok(fault(FaultKind::Duplicate(Space::Local, cursor.len()), cursor)),
    }
}

/// Returns the error for fields of which an import comes after a definition. `cursor` starts at the
/// fields.
pub(crate) fn import_fault<'p, 'a>(
    alloc: Global,
    fields: &[Field<'_>],
    cursor: TokenCursor<'p, 'a>,
) -> Result<Fault<'p, 'a>, AllocError>
    ensures { IfOk result (λ f. fault_of f ≡
        places.import_fault (fields_of fields.now)
        (reading.starts reading.Before [] (terminals_of cursor.entry))
        (terminals_of cursor.entry)) }
{
    let starts = starts(alloc, cursor)?;
    match two(fields, &starts, Sought::Definition, Sought::Import) {
        Some((first, second)) => Ok(fault(FaultKind::LateImport(first.len()), second)),
        None => Ok(fault(FaultKind::LateImport(cursor.len()), cursor)),
    }
}

/// Returns the error for fields of which two are start fields. `cursor` starts at the fields.
pub(crate) fn start_fault<'p, 'a>(
    alloc: Global,
    fields: &[Field<'_>],
    cursor: TokenCursor<'p, 'a>,
) -> Result<Fault<'p, 'a>, AllocError>
    ensures { IfOk result (λ f. fault_of f ≡
        places.start_fault (fields_of fields.now)
        (reading.starts reading.Before [] (terminals_of cursor.entry))
        (terminals_of cursor.entry)) }
{
    let starts = starts(alloc, cursor)?;
    match two(fields, &starts, Sought::Start, Sought::Start) {
        Some((first, second)) => Ok(fault(FaultKind::SecondStart(first.len()), second)),
        None => Ok(fault(FaultKind::SecondStart(cursor.len()), cursor)),
    }
}

/// Returns the tokens of the first field with a property, and of the first after it with another.
/// `starts` has the tokens of each field.
fn two<'p, 'a>(
    fields: &[Field<'_>],
    starts: &[TokenCursor<'p, 'a>],
    first: Sought,
    second: Sought,
) -> Option<(TokenCursor<'p, 'a>, TokenCursor<'p, 'a>)>
    ensures { MatchOption result
        (places.elements_at (map terminals_of starts.now)
        (places.then_by (property second) (fields_of fields.now)
        (places.index_by (property first) 0 (fields_of fields.now)))
        ≡ None)
        (λ p.
        places.elements_at (map terminals_of starts.now)
        (places.then_by (property second) (fields_of fields.now)
        (places.index_by (property first) 0 (fields_of fields.now)))
        ≡ Some (terminals_of p.0, terminals_of p.1)) }
{
    match next(fields, first, 0) {
        Some(i) => match next(fields, second, i + 1) {
            Some(j) => both(starts, i, j),
            None => None,
        },
        None => None,
    }
}

/// Returns the index of the first field with a property, from an index on.
fn next(fields: &[Field<'_>], sought: Sought, from: usize) -> Option<usize>
    requires { from ≤ length fields.now }
    ensures is { result ≡
        places.index_by (property sought) from (drop from (fields_of fields.now)) }
    ensures small { IfSome result (λ i. i < length fields.now) }
{
    for i in from..fields.len() {
        if has_property(&fields[i], sought) {
            return Some(i);
        }
    }
    None
}

/// Returns `true` if a field has a property.
fn has_property(field: &Field<'_>, sought: Sought) -> bool
    ensures { result ≡ property sought (field_of field.now) }
{
    match field {
        Field::Func(_) | Field::Table(_) | Field::Memory(_) | Field::Global(_) => match sought {
            Sought::Definition => true,
            Sought::Import | Sought::Start => false,
        },
        Field::Import(_) => match sought {
            Sought::Import => true,
            Sought::Definition | Sought::Start => false,
        },
        Field::Start(_) => match sought {
            Sought::Start => true,
            Sought::Definition | Sought::Import => false,
        },
        Field::Type(_) | Field::Export(_) | Field::Data(_) | Field::Elem(_) => false,
    }
}

/// Returns the elements at two indices, or `None` if an index is out of range.
fn both<'p, 'a>(
    at: &[TokenCursor<'p, 'a>],
    first: usize,
    second: usize,
) -> Option<(TokenCursor<'p, 'a>, TokenCursor<'p, 'a>)>
    ensures { MatchOption result
        (places.elements_at (map terminals_of at.now) (Some (first, second)) ≡ None)
        (λ p. places.elements_at (map terminals_of at.now) (Some (first, second)) ≡
        Some (terminals_of p.0, terminals_of p.1)) }
{
    match at.get(first) {
        Some(first) => match at.get(second) {
            Some(second) => Some((*first, *second)),
            None => None,
        },
        None => None,
    }
}

/// Returns the error at the first identifier that an earlier one has, or `None` if they are
/// distinct. `at` has the tokens from each optional identifier of the index space on.
fn duplicate_in<'p, 'a>(
    alloc: Global,
    space: Space,
    at: &[TokenCursor<'p, 'a>],
) -> Result<Option<Fault<'p, 'a>>, AllocError>
    ensures { IfOk result (λ found. MatchOption found
        ((f : declared.Fault) → places.duplicate_in space (map terminals_of at.now) f ≡ f)
        (λ g. (f : declared.Fault) →
        places.duplicate_in space (map terminals_of at.now) f ≡ fault_of g)) }
{
    let names = names_at(alloc, at)?;
    let Some((first, second)) = repeated(alloc, &names)? else {
        return Ok(None);
    };
    match both(at, first, second) {
        Some((first, second)) => Ok(Some(fault(FaultKind::Duplicate(space, first.len()), second))),
        None => Ok(None),
    }
}

/// Returns the optional identifier at the front of the tokens in each element.
fn names_at<'a>(alloc: Global, at: &[TokenCursor<'_, 'a>]) -> Result<Vec<Name<'a>>, AllocError>
    ensures { IfOk result (λ names. map label names.items ≡
        map places.name_at (map terminals_of at.now)) }
{
    let mut names = Vec::new(alloc);
    for cursor in at {
        names.push(reading::label(*cursor).0)?;
    }
    Ok(names)
}

/// Returns the tokens from each optional identifier of an index space on, in the fields at
/// `starts`.
fn field_names<'p, 'a>(
    alloc: Global,
    space: Space,
    starts: &[TokenCursor<'p, 'a>],
) -> Result<Vec<TokenCursor<'p, 'a>>, AllocError>
    ensures { IfOk result (λ at. map terminals_of at.items ≡
        places.field_names space (map terminals_of starts.now)) }
{
    let mut at = Vec::new(alloc);
    for start in starts {
        if let Some(name) = field_name(space, *start) {
            at.push(name)?;
        }
    }
    Ok(at)
}

/// Returns the tokens from the optional identifier of a field on, from its keyword on, or `None` if
/// the field has no item in the index space.
#[tactic(auto, unfolding(crate::specs::Places::field_name))]
fn field_name<'p, 'a>(space: Space, cursor: TokenCursor<'p, 'a>) -> Option<TokenCursor<'p, 'a>>
    ensures { MatchOption result
        (places.field_name space (terminals_of cursor.entry) ≡ [])
        (λ c. places.field_name space (terminals_of cursor.entry) ≡ terminals_of c ∷ []) }
{
    match cursor.first() {
        Some((DecodedToken::Word(word), rest)) => {
            if word == "import" {
                import_name(space, rest)
            } else {
                after_keyword(space, word, rest)
            }
        }
        _ => None,
    }
}

/// Returns the tokens after a keyword if fields with the keyword define items of the index space.
fn after_keyword<'p, 'a>(
    space: Space,
    word: &str,
    rest: TokenCursor<'p, 'a>,
) -> Option<TokenCursor<'p, 'a>>
    ensures { MatchOption result
        (places.after_keyword space word.now (terminals_of rest.entry) ≡ [])
        (λ c. places.after_keyword space word.now (terminals_of rest.entry) ≡
        terminals_of c ∷ []) }
{
    if has_keyword(space, word) {
        Some(rest)
    } else {
        None
    }
}

/// Returns `true` if fields with a keyword define items of the index space.
fn has_keyword(space: Space, word: &str) -> bool
    ensures { result ≡ places.has_keyword space word.now }
{
    match space {
        Space::Type => word == "type",
        Space::Func => word == "func",
        Space::Table => word == "table",
        Space::Memory => word == "memory",
        Space::Global => word == "global",
        Space::Elem => word == "elem",
        Space::Data => word == "data",
        Space::Local | Space::Label => false,
    }
}

/// Returns the tokens from the optional identifier of an import on, from its module name on, or
/// `None` if it is malformed, or has no item in the index space.
fn import_name<'p, 'a>(space: Space, cursor: TokenCursor<'p, 'a>) -> Option<TokenCursor<'p, 'a>>
    ensures { MatchOption result
        (places.import_name space (terminals_of cursor.entry) ≡ [])
        (λ c. places.import_name space (terminals_of cursor.entry) ≡ terminals_of c ∷ []) }
{
    match cursor.first() {
        Some((DecodedToken::Text(_), rest)) => text_name(space, rest),
        _ => None,
    }
}

/// Returns the tokens from the optional identifier of an import on, from its item name on, or
/// `None` if it is malformed, or has no item in the index space.
fn text_name<'p, 'a>(space: Space, cursor: TokenCursor<'p, 'a>) -> Option<TokenCursor<'p, 'a>>
    ensures { MatchOption result
        (places.text_name space (terminals_of cursor.entry) ≡ [])
        (λ c. places.text_name space (terminals_of cursor.entry) ≡ terminals_of c ∷ []) }
{
    match cursor.first() {
        Some((DecodedToken::Text(_), rest)) => open_name(space, rest),
        _ => None,
    }
}

/// Returns the tokens from the optional identifier of an import on, from the opening parenthesis of
/// its description on, or `None` if it is malformed, or has no item in the index space.
fn open_name<'p, 'a>(space: Space, cursor: TokenCursor<'p, 'a>) -> Option<TokenCursor<'p, 'a>>
    ensures { MatchOption result
        (places.open_name space (terminals_of cursor.entry) ≡ [])
        (λ c. places.open_name space (terminals_of cursor.entry) ≡ terminals_of c ∷ []) }
{
    match cursor.first() {
        Some((DecodedToken::Open, rest)) => word_name(space, rest),
        _ => None,
    }
}

/// Returns the tokens from the optional identifier of an import on, from the keyword of its
/// description on, or `None` if it is malformed, or has no item in the index space.
fn word_name<'p, 'a>(space: Space, cursor: TokenCursor<'p, 'a>) -> Option<TokenCursor<'p, 'a>>
    ensures { MatchOption result
        (places.word_name space (terminals_of cursor.entry) ≡ [])
        (λ c. places.word_name space (terminals_of cursor.entry) ≡ terminals_of c ∷ []) }
{
    match cursor.first() {
        Some((DecodedToken::Word(word), rest)) => {
            if space_of(word).is_some() {
                after_keyword(space, word, rest)
            } else {
                None
            }
        }
        _ => None,
    }
}

/// Returns the tokens from the optional identifier of each parameter and local on. `cursor` starts
/// at the type use of a function.
fn variable_names<'p, 'a>(
    alloc: Global,
    cursor: TokenCursor<'p, 'a>,
) -> Result<Vec<TokenCursor<'p, 'a>>, AllocError>
    ensures { IfOk result (λ at. map terminals_of at.items ≡
        places.variable_names (terminals_of cursor.entry)) }
{
    let mut at = Vec::new(alloc);
    let mut left = cursor;
    while let Some((token, rest)) = left.first() {
        if is_variable(token) {
            at.push(rest)?;
        }
        left = rest;
    }
    Ok(at)
}

/// Returns `true` if a token is the keyword of parameters or of locals.
fn is_variable(token: DecodedToken<'_>) -> bool
    ensures { result ≡ places.is_variable (terminal token.entry) }
{
    match token {
        DecodedToken::Word(word) => word == "param" || word == "local",
        _ => false,
    }
}
