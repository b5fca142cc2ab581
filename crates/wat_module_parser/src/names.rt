//! Collects the identifiers and types that fields define, before the fields are parsed, and checks
//! that identifiers are distinct.
ghost use Rattle.std.specs.Prelude.{◌≡◌, ◌++◌, ◌∷◌, [], ◌&&◌, true, IfOk, IfSome, MatchOption};
ghost use Rattle.std.specs.Prelude.{is_some, map};
ghost use Rattle.std.specs.List.{flat_map};
ghost use Rattle.wat_module_ast.specs.Fields.{all_distinct, definition_name, definition_type};
ghost use Rattle.wat_module_ast.specs.Fields.{is_space};
ghost use Rattle.wat_module_ast.specs.Fields.{name_of, names_in, names_of, unnamed};
ghost use Rattle.wat_module_parser.specs.Reading as reading;
ghost use Rattle.wat_module_ast.specs.Views.{definition_of};
ghost use Rattle.wat_module_parser.specs.Views.{binding_of, context_of, types_of};
ghost use Rattle.wat_module_parser.specs.Views.{use_of};
ghost use Rattle.wat_module_ast.specs.Grammar.{label_of};
ghost use Rattle.wat_module_tokens.specs.TokenCursor.{terminals_of};
ghost use Rattle.wat_module_ast.specs.Names.{are_distinct};
ghost use Rattle.wat_module_tokens.specs.Terminals.{label};
ghost use Rattle.wat_module_ast.specs.Uses.{retyped, unknown};
ghost use Rattle.wat_module_ast.specs.TypeViews.{type_of};

use crate::header::exports;
use crate::types::space_of;
use crate::uses::type_at;
use crate::variables::{NamedUse, Variables};
use std::alloc::{AllocError, Global};
use wat_module_ast::error::ParseFailure;
use wat_module_ast::fields::{Definition, IndexSpace};
use wat_module_ast::instruction::ValueType;
use wat_module_ast::types::FunctionType;
use wat_module_instructions::names::{IndexedNames, push_unnamed};
use wat_module_instructions::reading::{after, label};
use wat_module_tokens::stream::TokenCursor;
use wat_module_tokens::token::{DecodedToken, Name};

/// An item that a field defines or imports.
#[derive(Clone, Copy)]
struct Binding<'a> {
    /// Index space of the item.
    space: IndexSpace,
    /// Identifier of the item, if given.
    name: Name<'a>,
}

/// The identifiers of the items that can be imported, in the order of their indices.
#[derive(Drop)]
struct ItemNames<'a> {
    /// Identifiers of functions.
    funcs: IndexedNames<'a>,
    /// Identifiers of tables.
    tables: IndexedNames<'a>,
    /// Identifiers of memories.
    memories: IndexedNames<'a>,
    /// Identifiers of globals.
    globals: IndexedNames<'a>,
}

/// The identifiers of each index space, in the order of their indices, and the types.
#[derive(Drop)]
pub(crate) struct Names<'a> {
    /// Identifiers of functions.
    pub(crate) funcs: IndexedNames<'a>,
    /// Identifiers of tables.
    pub(crate) tables: IndexedNames<'a>,
    /// Identifiers of memories.
    pub(crate) memories: IndexedNames<'a>,
    /// Identifiers of globals.
    pub(crate) globals: IndexedNames<'a>,
    /// Identifiers of element segments.
    pub(crate) elems: IndexedNames<'a>,
    /// Identifiers of data segments.
    pub(crate) datas: IndexedNames<'a>,
    /// Identifiers of types.
    pub(crate) type_names: IndexedNames<'a>,
    /// Types by their indices; empty unless `are_types_known`.
    pub(crate) types: Vec<FunctionType>,
    /// `true` if type indices are resolved; otherwise any type index is accepted.
    pub(crate) are_types_known: bool,
}

/// Returns the identifiers and types that the fields of a module define, before the fields are
/// parsed. Fields are found by their parentheses alone, and syntax errors inside a field are not
/// reported. Returns `None` if two identifiers in one index space are equal.
pub(crate) fn names_of<'p, 'a>(
    alloc: Global,
    cursor: TokenCursor<'p, 'a>,
) -> Result<Option<Names<'a>>, AllocError>
    ensures context { IfOk result (λ found. IfSome found (λ names. context_of names ≡
        reading.context_by (reading.starts reading.Before [] (terminals_of cursor.entry))
        (reading.defined_types
        (reading.starts reading.Before [] (terminals_of cursor.entry))))) }
    ensures types { IfOk result (λ found. IfSome found (λ names. types_of names ≡
        reading.defined_types (reading.starts reading.Before [] (terminals_of cursor.entry)))) }
    ensures distinct { IfOk result (λ found. is_some found ≡
        all_distinct
        (reading.defined_types (reading.starts reading.Before [] (terminals_of cursor.entry)))
        (reading.context_by (reading.starts reading.Before [] (terminals_of cursor.entry))
        (reading.defined_types
        (reading.starts reading.Before [] (terminals_of cursor.entry))))) }
{
    let starts = starts(alloc, cursor)?;
    names_at(alloc, &starts)
}

/// Returns the identifiers and types that fields define, by the tokens of each field after its
/// opening parenthesis. Returns `None` if two identifiers in one index space are equal.
fn names_at<'p, 'a>(
    alloc: Global,
    starts: &[TokenCursor<'p, 'a>],
) -> Result<Option<Names<'a>>, AllocError>
    ensures context { IfOk result (λ found. IfSome found (λ names. context_of names ≡
        reading.context_by (map terminals_of starts.now)
        (reading.defined_types (map terminals_of starts.now)))) }
    ensures types { IfOk result (λ found. IfSome found (λ names. types_of names ≡
        reading.defined_types (map terminals_of starts.now))) }
    ensures distinct { IfOk result (λ found. is_some found ≡
        all_distinct (reading.defined_types (map terminals_of starts.now))
        (reading.context_by (map terminals_of starts.now)
        (reading.defined_types (map terminals_of starts.now)))) }
{
    let (type_names, types) = definitions(alloc, starts)?;
    let Some(type_names) = IndexedNames::new(alloc, type_names)? else {
        return Ok(None);
    };
    let bindings = bindings(alloc, starts)?;
    let Some(items) = item_names(alloc, &bindings)? else {
        return Ok(None);
    };
    let Some((elems, datas)) = segment_names(alloc, starts)? else {
        return Ok(None);
    };
    Ok(Some(Names {
        funcs: items.funcs,
        tables: items.tables,
        memories: items.memories,
        globals: items.globals,
        elems,
        datas,
        type_names,
        types,
        are_types_known: true,
    }))
}

/// Returns the identifiers of the items that can be imported, or `None` if two in one index space
/// are equal.
fn item_names<'a>(
    alloc: Global,
    bindings: &[Binding<'a>],
) -> Result<Option<ItemNames<'a>>, AllocError>
    ensures funcs { IfOk result (λ found. IfSome found (λ names. names.funcs ≡
        names_in IndexSpace.Func (map binding_of bindings.now))) }
    ensures tables { IfOk result (λ found. IfSome found (λ names. names.tables ≡
        names_in IndexSpace.Table (map binding_of bindings.now))) }
    ensures memories { IfOk result (λ found. IfSome found (λ names. names.memories ≡
        names_in IndexSpace.Mem (map binding_of bindings.now))) }
    ensures globals { IfOk result (λ found. IfSome found (λ names. names.globals ≡
        names_in IndexSpace.Global (map binding_of bindings.now))) }
    ensures distinct { IfOk result (λ found. is_some found ≡
        (are_distinct (names_in IndexSpace.Func (map binding_of bindings.now))
        && are_distinct (names_in IndexSpace.Table (map binding_of bindings.now))
        && are_distinct (names_in IndexSpace.Mem (map binding_of bindings.now))
        && are_distinct (names_in IndexSpace.Global (map binding_of bindings.now)))) }
{
    let Some(funcs) = names_among(alloc, bindings, IndexSpace::Func)? else {
        return Ok(None);
    };
    let Some(tables) = names_among(alloc, bindings, IndexSpace::Table)? else {
        return Ok(None);
    };
    let Some(memories) = names_among(alloc, bindings, IndexSpace::Mem)? else {
        return Ok(None);
    };
    let Some(globals) = names_among(alloc, bindings, IndexSpace::Global)? else {
        return Ok(None);
    };
    Ok(Some(ItemNames {
        funcs,
        tables,
        memories,
        globals,
    }))
}

/// Returns the identifiers of element segments and of data segments, by the tokens of each field
/// after its opening parenthesis. Returns `None` if two element segments, or two data segments,
/// have the same identifier.
fn segment_names<'p, 'a>(
    alloc: Global,
    starts: &[TokenCursor<'p, 'a>],
) -> Result<Option<(IndexedNames<'a>, IndexedNames<'a>)>, AllocError>
    ensures elems { IfOk result (λ found. IfSome found (λ names. names.0 ≡
        flat_map reading.elem_name_at (map terminals_of starts.now))) }
    ensures datas { IfOk result (λ found. IfSome found (λ names. names.1 ≡
        flat_map reading.data_name_at (map terminals_of starts.now))) }
    ensures distinct { IfOk result (λ found. is_some found ≡
        (are_distinct (flat_map reading.elem_name_at (map terminals_of starts.now))
        && are_distinct (flat_map reading.data_name_at (map terminals_of starts.now)))) }
{
    let Some(elems) = IndexedNames::new(alloc, elem_names(alloc, starts)?)? else {
        return Ok(None);
    };
    let Some(datas) = IndexedNames::new(alloc, data_names(alloc, starts)?)? else {
        return Ok(None);
    };
    Ok(Some((elems, datas)))
}

/// Returns `names` without types: any type index is accepted.
pub(crate) fn without_types<'a>(alloc: Global, names: Names<'a>) -> Names<'a>
    ensures types { types_of result ≡ unknown (types_of names.entry) }
    ensures context { context_of result ≡
        retyped (unknown (types_of names.entry)) [] (context_of names.entry) }
{
    Names {
        types: Vec::new(alloc),
        are_types_known: false,
        ..names
    }
}

/// Returns `names` with these types instead of its own.
pub(crate) fn with_types<'a>(types: Vec<FunctionType>, names: Names<'a>) -> Names<'a>
    ensures types { types_of result ≡
        record {
          names = (types_of names.entry).names;
          types = map type_of types.items;
          are_known =
              true;
        } }
    ensures context { context_of result ≡
        retyped
        (record {
          names = (types_of names.entry).names;
          types = map type_of types.items;
          are_known =
              true;
        })
        [] (context_of names.entry) }
{
    Names {
        types,
        are_types_known: true,
        ..names
    }
}

/// Returns `true` if two index spaces are equal.
fn is_space(a: IndexSpace, b: IndexSpace) -> bool
    ensures { result ≡ is_space a b }
{
    match (a, b) {
        (IndexSpace::Func, IndexSpace::Func)
        | (IndexSpace::Table, IndexSpace::Table)
        | (IndexSpace::Mem, IndexSpace::Mem)
        | (IndexSpace::Global, IndexSpace::Global) => true,
        _ => false,
    }
}

/// Returns the identifiers of the items in an index space, or `None` if two of them are equal.
fn names_among<'a>(
    alloc: Global,
    bindings: &[Binding<'a>],
    space: IndexSpace,
) -> Result<Option<IndexedNames<'a>>, AllocError>
    ensures these { IfOk result (λ found. IfSome found (λ names. names ≡
        names_in space (map binding_of bindings.now))) }
    ensures distinct { IfOk result (λ found. is_some found ≡
        are_distinct (names_in space (map binding_of bindings.now))) }
{
    let mut names = Vec::new(alloc);
    for binding in bindings {
        if is_space(space, binding.space) {
            names.push(binding.name)?;
        }
    }
    IndexedNames::new(alloc, names)
}

/// Returns the identifiers of an index space.
pub(crate) fn names_in<'s, 'a>(names: &'s Names<'a>, space: IndexSpace) -> &'s IndexedNames<'a>
    ensures { result.now ≡ names_of (context_of names.now) space }
{
    match space {
        IndexSpace::Func => &names.funcs,
        IndexSpace::Table => &names.tables,
        IndexSpace::Mem => &names.memories,
        IndexSpace::Global => &names.globals,
    }
}

/// Returns the tokens after the opening parenthesis of each field. Fields are found by their
/// parentheses alone.
pub(crate) fn starts<'p, 'a>(
    alloc: Global,
    cursor: TokenCursor<'p, 'a>,
) -> Result<Vec<TokenCursor<'p, 'a>>, AllocError>
    ensures { IfOk result (λ starts. map terminals_of starts.items ≡
        reading.starts reading.Before [] (terminals_of cursor.entry)) }
{
    let mut starts = Vec::new(alloc);
    let mut left = cursor;
    while let Some((inside, after)) = left.group() {
        starts.push(inside)?;
        left = after;
    }
    Ok(starts)
}

/// Returns the items that fields define or import, in the order of the fields.
fn bindings<'p, 'a>(
    alloc: Global,
    starts: &[TokenCursor<'p, 'a>],
) -> Result<Vec<Binding<'a>>, AllocError>
    ensures { IfOk result (λ bindings. map binding_of bindings.items ≡
        flat_map reading.binding_at (map terminals_of starts.now)) }
{
    let mut bindings = Vec::new(alloc);
    for start in starts {
        if let Some(binding) = binding_at(*start) {
            bindings.push(binding)?;
        }
    }
    Ok(bindings)
}

/// Returns the item that a field defines or imports, from its keyword on, or `None` if it is not
/// such a field.
#[tactic(auto, unfolding(crate::specs::Reading::binding_at))]
fn binding_at<'a>(cursor: TokenCursor<'_, 'a>) -> Option<Binding<'a>>
    ensures { MatchOption result
        (reading.binding_at (terminals_of cursor.entry) ≡ [])
        (λ b. reading.binding_at (terminals_of cursor.entry) ≡ binding_of b ∷ []) }
{
    match cursor.first() {
        Some((DecodedToken::Word(word), rest)) => {
            if word == "import" {
                import_binding(rest)
            } else {
                binding_named(space_of(word), rest)
            }
        }
        _ => None,
    }
}

/// Returns the item of an index space whose identifier comes next, if any does, or `None` without
/// an index space.
fn binding_named<'a>(space: Option<IndexSpace>, cursor: TokenCursor<'_, 'a>) -> Option<Binding<'a>>
    ensures { MatchOption result
        (reading.binding_by space (label_of (terminals_of cursor.entry)).0 ≡ [])
        (λ b. reading.binding_by space (label_of (terminals_of cursor.entry)).0 ≡
        binding_of b ∷ []) }
{
    match space {
        Some(space) => {
            let (name, _) = label(cursor);
            Some(Binding { space, name })
        }
        None => None,
    }
}

/// Returns the item of an import field, from its module name on, or `None` if it is malformed.
fn import_binding<'a>(cursor: TokenCursor<'_, 'a>) -> Option<Binding<'a>>
    ensures { MatchOption result
        (reading.import_binding (terminals_of cursor.entry) ≡ [])
        (λ b. reading.import_binding (terminals_of cursor.entry) ≡ binding_of b ∷ []) }
{
    match cursor.first() {
        Some((DecodedToken::Text(_), rest)) => text_binding(rest),
        _ => None,
    }
}

/// Returns the item of an import field, from its item name on, or `None` if it is malformed.
fn text_binding<'a>(cursor: TokenCursor<'_, 'a>) -> Option<Binding<'a>>
    ensures { MatchOption result
        (reading.text_binding (terminals_of cursor.entry) ≡ [])
        (λ b. reading.text_binding (terminals_of cursor.entry) ≡ binding_of b ∷ []) }
{
    match cursor.first() {
        Some((DecodedToken::Text(_), rest)) => open_binding(rest),
        _ => None,
    }
}

/// Returns the item of an import field, from the opening parenthesis of its description on, or
/// `None` if it is malformed.
fn open_binding<'a>(cursor: TokenCursor<'_, 'a>) -> Option<Binding<'a>>
    ensures { MatchOption result
        (reading.open_binding (terminals_of cursor.entry) ≡ [])
        (λ b. reading.open_binding (terminals_of cursor.entry) ≡ binding_of b ∷ []) }
{
    match cursor.first() {
        Some((DecodedToken::Open, rest)) => word_binding(rest),
        _ => None,
    }
}

/// Returns the item of an import field, from the keyword of its description on, or `None` if it is
/// malformed.
fn word_binding<'a>(cursor: TokenCursor<'_, 'a>) -> Option<Binding<'a>>
    ensures { MatchOption result
        (reading.word_binding (terminals_of cursor.entry) ≡ [])
        (λ b. reading.word_binding (terminals_of cursor.entry) ≡ binding_of b ∷ []) }
{
    match cursor.first() {
        Some((DecodedToken::Word(word), rest)) => binding_named(space_of(word), rest),
        _ => None,
    }
}

/// Returns the identifier of each data segment, inline ones included.
fn data_names<'p, 'a>(
    alloc: Global,
    starts: &[TokenCursor<'p, 'a>],
) -> Result<Vec<Name<'a>>, AllocError>
    ensures { IfOk result (λ names. map label names.items ≡
        flat_map reading.data_name_at (map terminals_of starts.now)) }
{
    let mut names = Vec::new(alloc);
    for start in starts {
        if let Some(name) = data_name_at(alloc, *start)? {
            names.push(name)?;
        }
    }
    Ok(names)
}

/// Returns the identifier of the data segment of a field, from its keyword on, or `None` if the
/// field has no data segment.
#[tactic(auto, unfolding(crate::specs::Reading::data_name_at))]
fn data_name_at<'p, 'a>(
    alloc: Global,
    cursor: TokenCursor<'p, 'a>,
) -> Result<Option<Name<'a>>, AllocError>
    ensures { IfOk result (λ o. MatchOption o
        (reading.data_name_at (terminals_of cursor.entry) ≡ [])
        (λ n. reading.data_name_at (terminals_of cursor.entry) ≡ label n ∷ [])) }
{
    match cursor.first() {
        Some((DecodedToken::Word(word), rest)) => {
            let (name, rest) = label(rest);
            if word == "data" {
                return Ok(Some(name));
            }
            if word == "memory" {
                return inline_data(alloc, rest);
            }
            Ok(None)
        }
        _ => Ok(None),
    }
}

/// Returns `Name::Absent` if a memory has an inline data segment, otherwise `None`. `cursor` starts
/// after the identifier of the memory.
fn inline_data<'p, 'a>(
    alloc: Global,
    cursor: TokenCursor<'p, 'a>,
) -> Result<Option<Name<'a>>, AllocError>
    ensures { IfOk result (λ o. MatchOption o
        (reading.inline_data (reading.all reading.export_item (terminals_of cursor.entry)) ≡ [])
        (λ n. reading.inline_data (reading.all reading.export_item (terminals_of cursor.entry)) ≡
        label n ∷ [])) }
{
    match exports(alloc, cursor) {
        Ok((_, rest)) => match after("data", rest) {
            Some(_) => Ok(Some(Name::Absent)),
            None => Ok(None),
        },
        Err(ParseFailure::Text(_)) => Ok(None),
        Err(ParseFailure::Memory(refused)) => Err(refused),
    }
}

/// Returns the identifier of each element segment, inline ones included.
fn elem_names<'p, 'a>(
    alloc: Global,
    starts: &[TokenCursor<'p, 'a>],
) -> Result<Vec<Name<'a>>, AllocError>
    ensures { IfOk result (λ names. map label names.items ≡
        flat_map reading.elem_name_at (map terminals_of starts.now)) }
{
    let mut names = Vec::new(alloc);
    for start in starts {
        if let Some(name) = elem_name_at(alloc, *start)? {
            names.push(name)?;
        }
    }
    Ok(names)
}

/// Returns the identifier of the element segment of a field, from its keyword on, or `None` if the
/// field has no element segment.
#[tactic(auto, unfolding(crate::specs::Reading::elem_name_at))]
fn elem_name_at<'p, 'a>(
    alloc: Global,
    cursor: TokenCursor<'p, 'a>,
) -> Result<Option<Name<'a>>, AllocError>
    ensures { IfOk result (λ o. MatchOption o
        (reading.elem_name_at (terminals_of cursor.entry) ≡ [])
        (λ n. reading.elem_name_at (terminals_of cursor.entry) ≡ label n ∷ [])) }
{
    match cursor.first() {
        Some((DecodedToken::Word(word), rest)) => {
            let (name, rest) = label(rest);
            if word == "elem" {
                return Ok(Some(name));
            }
            if word == "table" {
                return inline_elem(alloc, rest);
            }
            Ok(None)
        }
        _ => Ok(None),
    }
}

/// Returns `Name::Absent` if a table has an inline element segment, otherwise `None`. `cursor`
/// starts after the identifier of the table.
fn inline_elem<'p, 'a>(
    alloc: Global,
    cursor: TokenCursor<'p, 'a>,
) -> Result<Option<Name<'a>>, AllocError>
    ensures { IfOk result (λ o. MatchOption o
        (reading.inline_elem (reading.all reading.export_item (terminals_of cursor.entry)) ≡ [])
        (λ n. reading.inline_elem (reading.all reading.export_item (terminals_of cursor.entry)) ≡
        label n ∷ [])) }
{
    match exports(alloc, cursor) {
        Ok((_, rest)) => Ok(elem_after_type(rest)),
        Err(ParseFailure::Text(_)) => Ok(None),
        Err(ParseFailure::Memory(refused)) => Err(refused),
    }
}

/// Returns `Name::Absent` if a table has an inline element segment, otherwise `None`. `cursor`
/// starts after the inline exports of the table.
fn elem_after_type<'a>(cursor: TokenCursor<'_, 'a>) -> Option<Name<'a>>
    ensures { MatchOption result
        (reading.elem_after_type (terminals_of cursor.entry) ≡ [])
        (λ n. reading.elem_after_type (terminals_of cursor.entry) ≡ label n ∷ []) }
{
    match cursor.first() {
        Some((DecodedToken::Word(_), rest)) => match after("elem", rest) {
            Some(_) => Some(Name::Absent),
            None => None,
        },
        _ => None,
    }
}

/// Returns the identifiers and the types that type fields define, in the order of the fields.
fn definitions<'p, 'a>(
    alloc: Global,
    starts: &[TokenCursor<'p, 'a>],
) -> Result<(Vec<Name<'a>>, Vec<FunctionType>), AllocError>
    ensures names { IfOk result (λ r. map label r.0.items ≡
        map definition_name (flat_map reading.definition_at (map terminals_of starts.now))) }
    ensures types { IfOk result (λ r. map type_of r.1.items ≡
        map definition_type (flat_map reading.definition_at (map terminals_of starts.now))) }
{
    let mut names = Vec::new(alloc);
    let mut types = Vec::new(alloc);
    for start in starts {
        if let Some(Definition { name, of }) = definition_at(alloc, *start)? {
            names.push(name)?;
            types.push(of)?;
        }
    }
    Ok((names, types))
}

/// Returns the type that a field defines, from its keyword on, or `None` if it is not a well-formed
/// type field.
#[tactic(auto, unfolding(crate::specs::Reading::definition_at))]
fn definition_at<'p, 'a>(
    alloc: Global,
    cursor: TokenCursor<'p, 'a>,
) -> Result<Option<Definition<'a>>, AllocError>
    ensures { IfOk result (λ o. MatchOption o
        (reading.definition_at (terminals_of cursor.entry) ≡ [])
        (λ d. reading.definition_at (terminals_of cursor.entry) ≡ definition_of d ∷ [])) }
{
    match cursor.first() {
        Some((DecodedToken::Word(word), rest)) => {
            if word == "type" {
                definition_after(alloc, rest)
            } else {
                Ok(None)
            }
        }
        _ => Ok(None),
    }
}

/// Returns the type that a type field defines, after its keyword, or `None` if it is malformed.
fn definition_after<'p, 'a>(
    alloc: Global,
    cursor: TokenCursor<'p, 'a>,
) -> Result<Option<Definition<'a>>, AllocError>
    ensures { IfOk result (λ o. MatchOption o
        (reading.definition_by (reading.type_at (terminals_of cursor.entry)) ≡ [])
        (λ d. reading.definition_by (reading.type_at (terminals_of cursor.entry)) ≡
        definition_of d ∷ [])) }
{
    match type_at(alloc, cursor) {
        Ok((definition, _)) => Ok(Some(definition)),
        Err(ParseFailure::Text(_)) => Ok(None),
        Err(ParseFailure::Memory(refused)) => Err(refused),
    }
}

/// Returns the identifiers of the parameters of a type use and of locals, in the order of their
/// indices, or `None` if two of them are equal.
pub(crate) fn variable_names<'a>(
    alloc: Global,
    uses: &NamedUse<'_, 'a>,
    locals: &Variables<'a>,
) -> Result<Option<IndexedNames<'a>>, AllocError>
    ensures these { IfOk result (λ found. IfSome found (λ names. names ≡
        map name_of ((use_of uses.now).params ++ locals.now))) }
    ensures distinct { IfOk result (λ found. is_some found ≡
        are_distinct (map name_of ((use_of uses.now).params ++ locals.now))) }
{
    match uses {
        NamedUse::Listed(listed) => listed_names(alloc, &listed.params, locals),
        NamedUse::Indexed(_, of) => names_after(alloc, &of.params, locals),
    }
}

/// Returns the identifiers of locals, in the order of their indices, after parameters of these
/// types without identifiers. Returns `None` if two identifiers are equal.
fn names_after<'a>(
    alloc: Global,
    params: &[ValueType],
    locals: &Variables<'a>,
) -> Result<Option<IndexedNames<'a>>, AllocError>
    ensures these { IfOk result (λ found. IfSome found (λ names. names ≡
        map name_of (map unnamed params.now ++ locals.now))) }
    ensures distinct { IfOk result (λ found. is_some found ≡
        are_distinct (map name_of (map unnamed params.now ++ locals.now))) }
{
    let mut names = Vec::new(alloc);
    push_unnamed(&mut names, params.len())?;
    locals.append_names(&mut names)?;
    IndexedNames::from_runs(alloc, names)
}

/// Returns the identifiers of parameters and locals, in the order of their indices, or `None` if
/// two of them are equal.
fn listed_names<'a>(
    alloc: Global,
    params: &Variables<'a>,
    locals: &Variables<'a>,
) -> Result<Option<IndexedNames<'a>>, AllocError>
    ensures these { IfOk result (λ found. IfSome found (λ names. names ≡
        map name_of (params.now ++ locals.now))) }
    ensures distinct { IfOk result (λ found. is_some found ≡
        are_distinct (map name_of (params.now ++ locals.now))) }
{
    let mut names = Vec::new(alloc);
    params.append_names(&mut names)?;
    locals.append_names(&mut names)?;
    IndexedNames::from_runs(alloc, names)
}
