//! Validation of the fields of a module, except their instructions (WebAssembly 2.0, 3.2 and 3.4).
ghost use Rattle.std.specs.Prelude.{◌≡◌, IsFalse, IsTrue, MatchResult};
ghost use Rattle.wat_module_ast.specs.Views.{extern_of, field_of, fields_of, mode_of, target_of};
ghost use Rattle.wat_module_ast.specs.TypeViews.{type_of, use_of};
ghost use Rattle.wat_valid.specs.ContextViews.{context_of};
ghost use Rattle.wat_valid.specs.Headers as headers;
ghost use Rattle.wat_valid.specs.Modules as validation;
ghost use Rattle.wat_valid.specs.Modules.{ExternIsValid, LimitsAreValid, item_count};
ghost use Rattle.std.specs.Prelude.{◌<◌};
ghost use Rattle.wat_module_ast.specs.Types.{from_to};
ghost use Rattle.std.specs.Prelude.{◌≤◌, ◌∷◌, IfOk, MatchOption, Some, [], length, map, slice_get};
ghost use Rattle.wat_module_ast.specs.Views.{text_of};
ghost use Rattle.wat_valid.specs.ExportNames.{Adds};
ghost use Rattle.wat_valid.specs.Modules.{export_names, mems_in, names_of};

use crate::context::{Context, ModuleContext, function_at, use_type};
use std::alloc::{AllocError, Global};
use std::collections::BTreeMap;
use wat_module_ast::fields::{ElemMode, ExternType, Field, IndexSpace, Limits, Target};
use wat_module_ast::implicit_types::types_of;
use wat_module_ast::instruction::ReferenceType;
use wat_module_ast::types::{FunctionType, TypeUse};

/// The reason for which a field of a module is not valid.
#[derive(Clone, Copy)]
pub enum Reason {
    /// A minimum or maximum size is out of range, or the minimum is above the maximum.
    Limits,
    /// The index of a type use is out of range.
    UnknownType,
    /// An index of this index space is out of range.
    UnknownItem(IndexSpace),
    /// The start function has parameters or results.
    StartType,
    /// The type of an active element segment is not that of its table.
    ElementType,
    /// The module has a memory already.
    SecondMemory,
    /// An earlier export has the same name.
    DuplicateExport,
}

/// Maximum size of a table, in elements.
const MAX_TABLE_SIZE: u32 = u32::MAX;

/// Maximum size of a memory, in pages of 64 KiB.
const MAX_MEMORY_SIZE: u32 = 65536;

/// Returns `true` if the minimum and the maximum are at most `range`, and the minimum is not above
/// the maximum.
pub fn limits_are_valid(limits: Limits, range: u32) -> bool
    ensures valid { IsTrue result → LimitsAreValid range limits }
    ensures invalid { IsFalse result → LimitsAreValid range limits → ⊥ }
{
    match limits.max {
        Some(max) => max <= range && limits.min <= max,
        None => limits.min <= range,
    }
}

/// Checks that a type use has a type.
fn check_use(context: &Context<'_>, uses: &TypeUse) -> Result<(), Reason>
    ensures { MatchResult result
        (λ _. headers.UseIsValid (context_of context.now).types (use_of uses.now))
        (λ r. headers.UseViolates (context_of context.now) (use_of uses.now) r) }
{
    match use_type(context.types, uses) {
        Some(_) => Ok(()),
        None => Err(Reason::UnknownType),
    }
}

/// Checks the limits of a table or a memory.
fn check_limits(limits: Limits, range: u32) -> Result<(), Reason>
    ensures { MatchResult result
        (λ _. LimitsAreValid range limits)
        (λ r. (r ≡ Reason.Limits) × (LimitsAreValid range limits → ⊥)) }
{
    if limits_are_valid(limits, range) {
        Ok(())
    } else {
        Err(Reason::Limits)
    }
}

/// Checks that the type of an imported item is valid.
fn check_import(context: &Context<'_>, of: &ExternType) -> Result<(), Reason>
    ensures { MatchResult result
        (λ _. ExternIsValid (context_of context.now) (extern_of of.now))
        (λ r. headers.ExternViolates (context_of context.now) (extern_of of.now) r) }
{
    match of {
        ExternType::Func(uses) => check_use(context, uses),
        ExternType::Table(of) => check_limits(of.limits, MAX_TABLE_SIZE),
        ExternType::Memory(limits) => check_limits(*limits, MAX_MEMORY_SIZE),
        ExternType::Global(_) => Ok(()),
    }
}

/// Returns the number of items of an index space.
fn item_count(context: &Context<'_>, space: IndexSpace) -> usize
    ensures { result ≡ item_count (context_of context.now) space }
{
    match space {
        IndexSpace::Func => context.functions.len(),
        IndexSpace::Table => context.tables.len(),
        IndexSpace::Mem => context.memories.len(),
        IndexSpace::Global => context.globals.len(),
    }
}

/// Checks that there is an item with an index.
fn check_export(context: &Context<'_>, space: IndexSpace, index: usize) -> Result<(), Reason>
    ensures { MatchResult result
        (λ _. index < item_count (context_of context.now) space)
        (λ r. headers.ExportViolates (context_of context.now) space index r) }
{
    if index < item_count(context, space) {
        Ok(())
    } else {
        Err(Reason::UnknownItem(space))
    }
}

/// Returns `true` if a function type has neither parameters nor results.
fn is_empty_type(of: &FunctionType) -> bool
    ensures empty { IsTrue result → type_of of.now ≡ from_to [] [] }
    ensures other { IsFalse result → type_of of.now ≡ from_to [] [] → ⊥ }
{
    of.params.is_empty() && of.results.is_empty()
}

/// Checks that the start function exists and has neither parameters nor results.
fn check_start(context: &Context<'_>, function: usize) -> Result<(), Reason>
    ensures { MatchResult result
        (λ _. slice_get (context_of context.now).funcs function ≡ Some (from_to [] []))
        (λ r. headers.StartViolates (context_of context.now) function r) }
{
    match function_at(context, function) {
        None => Err(Reason::UnknownItem(IndexSpace::Func)),
        Some(of) => {
            if is_empty_type(of) {
                Ok(())
            } else {
                Err(Reason::StartType)
            }
        }
    }
}

/// Checks that the memory of an active data segment exists.
fn check_data(context: &Context<'_>, target: &Option<Target>) -> Result<(), Reason>
    ensures { MatchResult result
        (λ _. headers.MemoryFits (context_of context.now) (target_of target.now))
        (λ r. headers.MemoryViolates (context_of context.now) (target_of target.now) r) }
{
    match target {
        Some(target) if target.index >= context.memories.len() => {
            Err(Reason::UnknownItem(IndexSpace::Mem))
        }
        _ => Ok(()),
    }
}

/// Checks that the table of an active element segment exists and has elements of its type.
fn check_elem(context: &Context<'_>, mode: &ElemMode, of: ReferenceType) -> Result<(), Reason>
    ensures { MatchResult result
        (λ _. headers.ModeFits (context_of context.now) of (mode_of mode.now))
        (λ r. headers.ModeViolates (context_of context.now) of (mode_of mode.now) r) }
{
    let ElemMode::Active(target) = mode else {
        return Ok(());
    };
    match context.tables.get(target.index) {
        None => Err(Reason::UnknownItem(IndexSpace::Table)),
        Some(table) => {
            if table.element == of {
                Ok(())
            } else {
                Err(Reason::ElementType)
            }
        }
    }
}

/// Checks a field of a module, except its instructions, in the context of the module.
pub fn check_header(context: &Context<'_>, field: &Field<'_>) -> Result<(), Reason>
    ensures { MatchResult result
        (λ _. headers.HeaderIsValid (context_of context.now) (field_of field.now))
        (λ r. headers.HeaderViolates (context_of context.now) (field_of field.now) r) }
{
    match field {
        Field::Import(import) => check_import(context, &import.what),
        Field::Func(function) => check_use(context, &function.uses),
        Field::Table(table) => check_limits(table.of.limits, MAX_TABLE_SIZE),
        Field::Memory(memory) => check_limits(memory.limits, MAX_MEMORY_SIZE),
        Field::Export(export) => check_export(context, export.space, export.index),
        Field::Start(function) => check_start(context, *function),
        Field::Data(segment) => check_data(context, &segment.target),
        Field::Elem(elem) => check_elem(context, &elem.mode, elem.of),
        Field::Type(_) | Field::Global(_) => Ok(()),
    }
}

/// Adds the name of an export to the names so far. Returns `false` if it is among them.
fn add_name<'p>(names: &mut BTreeMap<&'p [u8], ()>, name: &'p [u8]) -> Result<bool, AllocError>
    ensures { IfOk result (λ is_new. Adds names.old names.new (Some name.now ∷ []) is_new) }
{
    Ok(names.insert(name, ())?.is_none())
}

/// Adds names of exports to the names so far. Returns `false` if one of them is among them or
/// occurs twice.
fn add_names<'p>(
    names: &mut BTreeMap<&'p [u8], ()>,
    exports: &[&'p [u8]],
) -> Result<bool, AllocError>
    ensures { IfOk result (λ are_new. Adds names.old names.new
        (names_of (map text_of exports.now)) are_new) }
{
    for name in exports {
        if !add_name(names, *name)? {
            return Ok(false);
        }
    }
    Ok(true)
}

/// Adds the names of the exports of a field to the names so far. Returns `false` if one of them is
/// among them or occurs twice.
fn add_exports<'p>(
    names: &mut BTreeMap<&'p [u8], ()>,
    field: &Field<'p>,
) -> Result<bool, AllocError>
    ensures { IfOk result (λ are_new. Adds names.old names.new
        (export_names (field_of field.now)) are_new) }
{
    match field {
        Field::Import(import) => add_names(names, &import.exports),
        Field::Func(function) => add_names(names, &function.exports),
        Field::Table(table) => add_names(names, &table.exports),
        Field::Memory(memory) => add_names(names, &memory.exports),
        Field::Global(global) => add_names(names, &global.exports),
        Field::Export(export) => add_name(names, export.name),
        Field::Type(_) | Field::Start(_) | Field::Data(_) | Field::Elem(_) => Ok(true),
    }
}

/// Returns the number of memories that a field imports or defines.
fn memory_count(field: &Field<'_>) -> usize
    ensures is { result ≡ length (mems_in (field_of field.now)) }
    ensures small { result ≤ 1 }
{
    match field {
        Field::Memory(_) => 1,
        Field::Import(import) => match import.what {
            ExternType::Memory(_) => 1,
            ExternType::Func(_) | ExternType::Table(_) | ExternType::Global(_) => 0,
        },
        _ => 0,
    }
}

/// A field that is not valid.
#[derive(Clone, Copy)]
pub struct Violation {
    /// Index of the field.
    pub field: usize,
    /// Condition that the field violates.
    pub reason: Reason,
}

/// Checks the fields of a module, except their instructions, in the context of the module. Returns
/// the first field that violates a condition, or `None` if all fields meet all of them.
pub fn check_headers(
    alloc: Global,
    context: &Context<'_>,
    fields: &[Field<'_>],
) -> Result<Option<Violation>, AllocError>
    ensures { IfOk result (λ found. MatchOption found
        (headers.HeadersAreValid (context_of context.now) (fields_of fields.now))
        (λ v. headers.FirstViolation (context_of context.now) (fields_of fields.now)
        v.field v.reason)) }
{
    let mut names = BTreeMap::new(alloc);
    let mut memories = 0;
    for (i, field) in fields.iter().enumerate() {
        if let Err(reason) = check_header(context, field) {
            return Ok(Some(Violation { field: i, reason }));
        }
        memories += memory_count(field);
        if memories > 1 {
            return Ok(Some(Violation {
                field: i,
                reason: Reason::SecondMemory,
            }));
        }
        if !add_exports(&mut names, field)? {
            return Ok(Some(Violation {
                field: i,
                reason: Reason::DuplicateExport,
            }));
        }
    }
    Ok(None)
}

/// Checks the fields of a module, except their instructions. Returns the first field that violates
/// a condition, or `None` if all fields meet all of them.
pub fn check_fields(alloc: Global, fields: &[Field<'_>]) -> Result<Option<Violation>, AllocError>
    ensures { IfOk result (λ found. MatchOption found
        (headers.HeadersAreValid (validation.context_of (fields_of fields.now))
        (fields_of fields.now))
        (λ v. headers.FirstViolation (validation.context_of (fields_of fields.now))
        (fields_of fields.now) v.field v.reason)) }
{
    let types = types_of(alloc, fields)?;
    let context = ModuleContext::new(alloc, types.as_slice(), fields)?;
    check_headers(alloc, &context.full(), fields)
}

/// Theorem (no effect): a module is valid if and only if its fields meet the conditions on their
/// instructions and all others, which `check_fields` decides. A module with a field that violates a
/// condition is not valid.
pub fn conditions_are_parts_of_validity()
    ensures { headers.ConditionsArePartsOfValidity }
{}
