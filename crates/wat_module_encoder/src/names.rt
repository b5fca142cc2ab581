//! Encodes the name section: the identifiers of the items of a module, and of the parameters,
//! locals and labels of its functions, by their indices.
ghost use Rattle.std.specs.Prelude.{◌≡◌, ◌≤◌, ◌∷◌, ◌++◌, [], length, map, IfOk, MatchOption, OnOk};
ghost use Rattle.wat_module_ast.specs.Fields as grammar;
ghost use Rattle.std.specs.List.{flat_map};
ghost use Rattle.wat_lex.specs.binary.Encoding.{list_encoding};
ghost use Rattle.wat_module_ast.specs.Views.{association_of, field_of, fields_of};
ghost use Rattle.wat_module_tokens.specs.Terminals.{label};
ghost use Rattle.wat_module_encoder.specs.NameSection as section;
ghost use Rattle.wat_module_encoder.specs.Views.{labels_in, labels_of, maps_in};

use crate::bytes::{put, put_section, put_sized};
use crate::indices::extern_space;
use std::alloc::{AllocError, Global};
use wat_module_ast::fields::{ExternType, Field, IndexSpace, NameAssociation};
use wat_module_tokens::token::Name;

/// An index space whose items the name section names.
#[derive(Clone, Copy)]
pub(crate) enum NameSpace {
    /// Functions, tables, memories or globals.
    Items(IndexSpace),
    /// Types.
    Types,
    /// Element segments.
    Elements,
    /// Data segments.
    Data,
}

/// Returns `true` if two index spaces are equal.
fn is_space(a: IndexSpace, b: IndexSpace) -> bool
    ensures { result ≡ grammar.is_space a b }
{
    match (a, b) {
        (IndexSpace::Func, IndexSpace::Func)
        | (IndexSpace::Table, IndexSpace::Table)
        | (IndexSpace::Mem, IndexSpace::Mem)
        | (IndexSpace::Global, IndexSpace::Global) => true,
        _ => false,
    }
}

/// Returns the identifier of an item of the index space `of`, or `None` if `space` is another.
fn name_among<'p>(space: IndexSpace, of: IndexSpace, name: Name<'p>) -> Option<Name<'p>>
    ensures { MatchOption result
        (grammar.names_in space (grammar.binding of (label name.entry) ∷ []) ≡ [])
        (λ n. grammar.names_in space (grammar.binding of (label name.entry) ∷ []) ≡ label n ∷ []) }
{
    if is_space(space, of) {
        Some(name)
    } else {
        None
    }
}

/// Returns the identifier of the item that a field defines or imports, or `None` if the field has
/// no item in this index space.
fn item_name<'p>(space: IndexSpace, field: &Field<'p>) -> Option<Name<'p>>
    ensures { MatchOption result
        (grammar.names_in space (grammar.binding_of (field_of field.now)) ≡ [])
        (λ n. grammar.names_in space (grammar.binding_of (field_of field.now)) ≡ label n ∷ []) }
{
    match field {
        Field::Func(function) => name_among(space, IndexSpace::Func, function.name),
        Field::Table(table) => name_among(space, IndexSpace::Table, table.name),
        Field::Memory(memory) => name_among(space, IndexSpace::Mem, memory.name),
        Field::Global(global) => name_among(space, IndexSpace::Global, global.name),
        Field::Import(import) => name_among(space, extern_space(&import.what), import.name),
        Field::Type(_) | Field::Export(_) | Field::Start(_) | Field::Data(_) | Field::Elem(_) =>
            None,
    }
}

/// Returns the identifier of the type that a field defines, or `None` if it defines none.
fn type_name<'p>(field: &Field<'p>) -> Option<Name<'p>>
    ensures { MatchOption result
        (map grammar.definition_name (grammar.definition_of (field_of field.now)) ≡ [])
        (λ n. map grammar.definition_name (grammar.definition_of (field_of field.now)) ≡
        label n ∷ []) }
{
    match field {
        Field::Type(definition) => Some(definition.name),
        _ => None,
    }
}

/// Returns the identifier of the element segment that a field defines, or `None` if it defines
/// none. An inline segment has no identifier.
fn element_name<'p>(field: &Field<'p>) -> Option<Name<'p>>
    ensures { MatchOption result
        (grammar.elem_of (field_of field.now) ≡ [])
        (λ n. grammar.elem_of (field_of field.now) ≡ label n ∷ []) }
{
    match field {
        Field::Elem(segment) => Some(segment.name),
        Field::Table(table) => match &table.elements {
            Some(_) => Some(Name::Absent),
            None => None,
        },
        _ => None,
    }
}

/// Returns the identifier of the data segment that a field defines, or `None` if it defines none.
/// An inline segment has no identifier.
fn data_name<'p>(field: &Field<'p>) -> Option<Name<'p>>
    ensures { MatchOption result
        (grammar.data_of (field_of field.now) ≡ [])
        (λ n. grammar.data_of (field_of field.now) ≡ label n ∷ []) }
{
    match field {
        Field::Data(segment) => Some(segment.name),
        Field::Memory(memory) => match &memory.data {
            Some(_) => Some(Name::Absent),
            None => None,
        },
        _ => None,
    }
}

/// Returns the identifier of the item that a field adds to an index space, or `None` if it adds
/// none.
fn name_in<'p>(space: NameSpace, field: &Field<'p>) -> Option<Name<'p>>
    ensures { MatchOption result
        (labels_in space (field_of field.now) ≡ [])
        (λ n. labels_in space (field_of field.now) ≡ label n ∷ []) }
{
    match space {
        NameSpace::Items(space) => item_name(space, field),
        NameSpace::Types => type_name(field),
        NameSpace::Elements => element_name(field),
        NameSpace::Data => data_name(field),
    }
}

/// Appends a subsection with the names of an index space: its id `number`, its size, and the index
/// and name of each item that has an identifier. Appends nothing if none has.
fn put_map(
    alloc: Global,
    out: &mut Vec<u8>,
    number: u8,
    space: NameSpace,
    fields: &[Field<'_>],
) -> Result<(), AllocError>
    ensures { OnOk result (out.new.items ≡
        out.old.items ++ section.map_subsection number (labels_of space (fields_of fields.now))) }
{
    let mut items = Vec::new(alloc);
    let mut count = 0;
    let mut index = 0;
    for field in fields {
        if let Some(name) = name_in(space, field) {
            if let Name::Given(name) = name {
                put(&mut items, index)?;
                put_sized(&mut items, name.as_bytes())?;
                count += 1;
            }
            index += 1;
        }
    }
    put_section(alloc, out, number, count, &items)
}

/// The names inside functions that the name section has.
#[derive(Clone, Copy)]
pub(crate) enum FunctionNames {
    /// Those of parameters and locals.
    Locals,
    /// Those of labels.
    Labels,
}

/// Returns an empty name map.
fn no_names<'s, 'p>() -> &'s [NameAssociation<'p>]
    ensures { result.now ≡ [] }
{
    &[]
}

/// Returns the name map of the function that a field defines, empty if the field imports one, or
/// `None` if the field does neither.
fn names_within<'s, 'p>(
    which: FunctionNames,
    field: &'s Field<'p>,
) -> Option<&'s [NameAssociation<'p>]>
    ensures { MatchOption result
        (maps_in which (field_of field.now) ≡ [])
        (λ m. maps_in which (field_of field.now) ≡ map association_of m.now ∷ []) }
{
    match field {
        Field::Func(function) => match which {
            FunctionNames::Locals => Some(&function.local_names),
            FunctionNames::Labels => Some(&function.label_names),
        },
        Field::Import(import) => match &import.what {
            ExternType::Func(_) => Some(no_names()),
            ExternType::Table(_) | ExternType::Memory(_) | ExternType::Global(_) => None,
        },
        Field::Type(_)
        | Field::Table(_)
        | Field::Memory(_)
        | Field::Global(_)
        | Field::Export(_)
        | Field::Start(_)
        | Field::Data(_)
        | Field::Elem(_) => None,
    }
}

/// Appends a name map: the number of its entries, and the index and name of each.
fn put_associations(out: &mut Vec<u8>, names: &[NameAssociation<'_>]) -> Result<(), AllocError>
    ensures { OnOk result (out.new.items ≡
        out.old.items ++ list_encoding section.association_bytes (map association_of names.now)) }
{
    put(out, names.len())?;
    for association in names {
        put(out, association.index)?;
        put_sized(out, association.name.as_bytes())?;
    }
    Ok(())
}

/// Appends the index of a function and its name map, if the name map is not empty. Returns the
/// number of name maps appended.
#[tactic(auto, using(crate::proofs::NameLaws::empty_map, crate::proofs::NameLaws::full_map))]
fn put_function_names(
    items: &mut Vec<u8>,
    function: usize,
    names: &[NameAssociation<'_>],
) -> Result<usize, AllocError>
    ensures items { IfOk result (λ _. items.new.items ≡
        items.old.items ++
        flat_map section.indirect_bytes
        (section.indirect_associations function (map association_of names.now ∷ []))) }
    ensures count { IfOk result (λ count. count ≡
        length (section.indirect_associations function (map association_of names.now ∷ []))) }
    ensures small { IfOk result (λ count. count ≤ 1) }
{
    if names.is_empty() {
        return Ok(0);
    }
    put(items, function)?;
    put_associations(items, names)?;
    Ok(1)
}

/// Appends a subsection with names inside functions: its id `number`, its size, and the index and
/// the name map of each function whose name map is not empty. Appends nothing if all are empty.
#[tactic(auto, using(crate::proofs::NameLaws::map_step, crate::proofs::NameLaws::count_step))]
fn put_indirect_map(
    alloc: Global,
    out: &mut Vec<u8>,
    number: u8,
    which: FunctionNames,
    fields: &[Field<'_>],
) -> Result<(), AllocError>
    ensures { OnOk result (out.new.items ≡
        out.old.items ++
        section.indirect_subsection number (flat_map (maps_in which) (fields_of fields.now))) }
{
    let mut items = Vec::new(alloc);
    let mut count = 0;
    let mut function = 0;
    for field in fields {
        if let Some(names) = names_within(which, field) {
            count += put_function_names(&mut items, function, names)?;
            function += 1;
        }
    }
    put_section(alloc, out, number, count, &items)
}

/// Appends the subsection with the identifier of the module, if it has one.
fn put_module_name(alloc: Global, out: &mut Vec<u8>, name: Name<'_>) -> Result<(), AllocError>
    ensures { OnOk result (out.new.items ≡
        out.old.items ++ section.module_names (label name.entry)) }
{
    match name {
        Name::Given(name) => {
            let mut sized = Vec::new(alloc);
            put_sized(&mut sized, name.as_bytes())?;
            out.push(0x00)?;
            put_sized(out, &sized)
        }
        Name::Absent => Ok(()),
    }
}

/// Appends the subsections with the names of types, tables, memories, globals and segments.
fn put_extended(alloc: Global, out: &mut Vec<u8>, fields: &[Field<'_>]) -> Result<(), AllocError>
    ensures { OnOk result (out.new.items ≡
        out.old.items ++ section.extended_names (fields_of fields.now)) }
{
    put_map(alloc, out, 4, NameSpace::Types, fields)?;
    put_map(alloc, out, 5, NameSpace::Items(IndexSpace::Table), fields)?;
    put_map(alloc, out, 6, NameSpace::Items(IndexSpace::Mem), fields)?;
    put_map(alloc, out, 7, NameSpace::Items(IndexSpace::Global), fields)?;
    put_map(alloc, out, 8, NameSpace::Elements, fields)?;
    put_map(alloc, out, 9, NameSpace::Data, fields)
}

/// Appends the subsections of the name section, those that are not empty.
fn put_data(
    alloc: Global,
    out: &mut Vec<u8>,
    name: Name<'_>,
    fields: &[Field<'_>],
) -> Result<(), AllocError>
    ensures { OnOk result (out.new.items ≡
        out.old.items ++ section.name_data (label name.entry) (fields_of fields.now)) }
{
    put_module_name(alloc, out, name)?;
    put_map(alloc, out, 1, NameSpace::Items(IndexSpace::Func), fields)?;
    put_indirect_map(alloc, out, 2, FunctionNames::Locals, fields)?;
    put_indirect_map(alloc, out, 3, FunctionNames::Labels, fields)?;
    put_extended(alloc, out, fields)
}

/// Appends the name section of a module with this identifier, or nothing if there is no name.
#[tactic(auto, unfolding(crate::specs::NameSection::name_section))]
pub(crate) fn put_names(
    alloc: Global,
    out: &mut Vec<u8>,
    name: Name<'_>,
    fields: &[Field<'_>],
) -> Result<(), AllocError>
    ensures { OnOk result (out.new.items ≡
        out.old.items ++ section.name_section (label name.entry) (fields_of fields.now)) }
{
    let mut content = Vec::new(alloc);
    put_sized(&mut content, b"name")?;
    let head = content.len();
    put_data(alloc, &mut content, name, fields)?;
    if content.len() == head {
        return Ok(());
    }
    out.push(0)?;
    put_sized(out, &content)
}
