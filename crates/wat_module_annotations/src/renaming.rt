//! The fields of a module, with the names of annotations instead of identifiers.
ghost use Rattle.std.specs.Prelude.{◌≡◌, ◌<◌, ◌^◌, ◌++◌, map, slice_get, IfOk, OnOk};
ghost use Rattle.wat_module_ast.specs.TypeViews.{type_of, use_of};
ghost use Rattle.wat_module_ast.specs.Views.{association_of, extern_of, field_of, fields_of, function_of};
ghost use Rattle.wat_module_tokens.specs.Terminals.{label};
ghost use Rattle.wat_module_annotations.specs.Renaming as spec;
ghost use Rattle.wat_module_annotations.specs.Values.{field_names_of, label_of, variable_of};

use crate::names::FieldNames;
use crate::reading::VariableName;
use std::alloc::{AllocError, Global};
use wat_lexer_parser::token::NameAnnotation;
use wat_module_ast::fields::{
    Data, Definition, Elem, ExternType, Field, Function, GlobalVariable, Import, Memory,
    NameAssociation, Table,
};
use wat_module_ast::implicit_types::types_of;
use wat_module_ast::types::{FunctionType, TypeUse, type_at_index};
use wat_module_tokens::token::Name;

/// Returns the name of an annotation, or, if there is none, the identifier.
pub fn named<'a>(annotation: &'a Option<NameAnnotation<'_>>, name: Name<'a>) -> Name<'a>
    ensures { label result ≡ spec.named (label_of annotation.now) (label name.entry) }
{
    match annotation {
        Some(annotation) => Name::Given(&annotation.name),
        None => name,
    }
}

/// Returns the fields of a module with the names of annotations instead of identifiers.
#[tactic(auto, unfolding(crate::specs::Renaming::renamed))]
pub fn renamed<'a>(
    alloc: Global,
    names: &'a [FieldNames<'_>],
    fields: Vec<Field<'a>>,
) -> Result<Vec<Field<'a>>, AllocError>
    ensures { IfOk result (λ v. fields_of v.items
        ≡ spec.renamed (map field_names_of names.now) (fields_of fields.entry.items)) }
{
    if names.is_empty() {
        return Ok(fields);
    }
    let types = types_of(alloc, &fields)?;
    renamed_by(alloc, types.as_slice(), names, fields)
}

/// Returns the fields of a module with these types, with the names of annotations.
fn renamed_by<'a>(
    alloc: Global,
    types: &[FunctionType],
    names: &'a [FieldNames<'_>],
    fields: Vec<Field<'a>>,
) -> Result<Vec<Field<'a>>, AllocError>
    ensures { IfOk result (λ v. fields_of v.items ≡ spec.renamed_by (map type_of types.now)
        (map field_names_of names.now) (fields_of fields.entry.items)) }
{
    let mut renamed = Vec::new(alloc);
    let mut index = 0;
    for field in fields {
        renamed.push(renamed_at(alloc, types, names, index, field)?)?;
        index += 1;
    }
    Ok(renamed)
}

/// Returns a field with the names at an index, if there are any.
fn renamed_at<'a>(
    alloc: Global,
    types: &[FunctionType],
    names: &'a [FieldNames<'_>],
    index: usize,
    field: Field<'a>,
) -> Result<Field<'a>, AllocError>
    ensures { IfOk result (λ f. field_of f ≡ spec.renamed_with (map type_of types.now)
        (slice_get (map field_names_of names.now) index) (field_of field.entry)) }
{
    match names.get(index) {
        Some(names) => renamed_field(alloc, types, names, field),
        None => Ok(field),
    }
}

/// Returns a field with the names of annotations.
fn renamed_field<'a>(
    alloc: Global,
    types: &[FunctionType],
    names: &'a FieldNames<'_>,
    field: Field<'a>,
) -> Result<Field<'a>, AllocError>
    ensures { IfOk result (λ f. field_of f ≡ spec.renamed_field (map type_of types.now)
        (field_names_of names.now) (field_of field.entry)) }
{
    let item = &names.item;
    match field {
        Field::Type(of) => Ok(Field::Type(Definition {
            name: named(item, of.name),
            ..of
        })),
        Field::Import(of) => {
            let name = import_name(item, &of.what, of.name);
            Ok(Field::Import(Import { name, ..of }))
        }
        Field::Func(of) => Ok(Field::Func(renamed_function(alloc, types, names, of)?)),
        Field::Table(of) => Ok(Field::Table(Table {
            name: named(item, of.name),
            ..of
        })),
        Field::Memory(of) => Ok(Field::Memory(Memory {
            name: named(item, of.name),
            ..of
        })),
        Field::Global(of) => Ok(Field::Global(GlobalVariable {
            name: named(item, of.name),
            ..of
        })),
        Field::Data(of) => Ok(Field::Data(Data {
            name: named(item, of.name),
            ..of
        })),
        Field::Elem(of) => Ok(Field::Elem(Elem {
            name: named(item, of.name),
            ..of
        })),
        Field::Export(of) => Ok(Field::Export(of)),
        Field::Start(of) => Ok(Field::Start(of)),
    }
}

/// Returns the name of an imported item: its identifier, if it is not a function.
fn import_name<'a>(
    item: &'a Option<NameAnnotation<'_>>,
    what: &ExternType,
    name: Name<'a>,
) -> Name<'a>
    ensures { label result ≡ spec.renamed_import (label_of item.now) (label name.entry)
        (extern_of what.now) }
{
    match what {
        ExternType::Func(_) => named(item, name),
        _ => name,
    }
}

/// Returns a function with the names of annotations.
fn renamed_function<'a>(
    alloc: Global,
    types: &[FunctionType],
    names: &'a FieldNames<'_>,
    function: Function<'a>,
) -> Result<Function<'a>, AllocError>
    ensures { IfOk result (λ f. function_of f ≡ spec.renamed_function (map type_of types.now)
        (field_names_of names.now) (function_of function.entry)) }
{
    let first = first_variable(types, names, &function.uses);
    let local_names = with_names(alloc, first, &names.variables, &function.local_names)?;
    let label_names = with_names(alloc, 0, &names.labels, &function.label_names)?;
    Ok(Function {
        name: named(&names.item, function.name),
        local_names,
        label_names,
        ..function
    })
}

/// Returns the index of the first parameter or local that a function declares.
fn first_variable(types: &[FunctionType], names: &FieldNames<'_>, uses: &TypeUse) -> usize
    ensures is { result ≡ spec.first_variable (map type_of types.now) (field_names_of names.now)
        (use_of uses.now) }
    ensures small { result < 2 ^ 63 }
{
    if names.has_params {
        return 0;
    }
    params_of(types, uses)
}

/// Returns the number of parameters of a type use.
fn params_of(types: &[FunctionType], uses: &TypeUse) -> usize
    ensures is { result ≡ spec.params_of (map type_of types.now) (use_of uses.now) }
    ensures small { result < 2 ^ 63 }
{
    match uses {
        TypeUse::Index(index) => match type_at_index(types, *index) {
            Some(of) => of.params.len(),
            None => 0,
        },
        TypeUse::Inline(of) => of.params.len(),
    }
}

/// Returns a name map of items whose indices begin at `first`, with these names, each instead of
/// the entry with its index.
fn with_names<'a>(
    alloc: Global,
    first: usize,
    names: &'a [VariableName<'_>],
    entries: &[NameAssociation<'a>],
) -> Result<Vec<NameAssociation<'a>>, AllocError>
    requires { first < 2 ^ 63 }
    ensures { IfOk result (λ v. map association_of v.items ≡ spec.with_names first
        (map variable_of names.now) (map association_of entries.now)) }
{
    let mut merged = Vec::new(alloc);
    let mut rest = entries;
    for i in 0..names.len() {
        let index = first + i;
        put_entry(&mut merged, index, &names[i], here(index, rest))?;
        rest = later(index, rest);
    }
    merged.extend_from_slice(rest)?;
    Ok(merged)
}

/// Returns the first entry of a name map, if it has this index.
fn here<'m, 'a>(index: usize, entries: &'m [NameAssociation<'a>]) -> &'m [NameAssociation<'a>]
    ensures { map association_of result.now ≡ spec.here index (map association_of entries.now) }
{
    if !entries.is_empty() && entries[0].index == index {
        return &entries[..1];
    }
    &entries[..0]
}

/// Returns the entries of a name map after that with this index, if it is the first.
fn later<'m, 'a>(index: usize, entries: &'m [NameAssociation<'a>]) -> &'m [NameAssociation<'a>]
    ensures { map association_of result.now ≡ spec.later index (map association_of entries.now) }
{
    if !entries.is_empty() && entries[0].index == index {
        return &entries[1..];
    }
    entries
}

/// Appends an entry with the name of an annotation, or, if there is none, these entries.
fn put_entry<'a>(
    merged: &mut Vec<NameAssociation<'a>>,
    index: usize,
    name: &'a VariableName<'_>,
    entries: &[NameAssociation<'a>],
) -> Result<(), AllocError>
    ensures { OnOk result (map association_of merged.new.items
        ≡ map association_of merged.old.items
        ++ spec.entry index (variable_of name.now) (map association_of entries.now)) }
{
    match &name.name {
        Some(annotation) => {
            merged.push(NameAssociation {
                index,
                name: &annotation.name,
            })?;
            Ok(())
        }
        None => merged.extend_from_slice(entries),
    }
}
