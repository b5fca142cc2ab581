//! The function types of a module: those that type fields define, and those that inline type uses
//! add.
ghost use Rattle.std.specs.Prelude.{◌≡◌, ◌∷◌, [], IfOk, OnOk, MatchOption, map};
ghost use Rattle.std.specs.List.{flat_map};
ghost use Rattle.wat_module_ast.specs.Fields as grammar;
ghost use Rattle.wat_module_ast.specs.ImplicitTypes as implicit;
ghost use Rattle.wat_module_ast.specs.Views.{expression_of, field_of, fields_of, expressions_of};
ghost use Rattle.wat_module_ast.specs.Views.{mode_of};
ghost use Rattle.wat_module_ast.specs.Types.{added_types};
ghost use Rattle.wat_module_ast.specs.Uses.{expression_types, instruction_types};
ghost use Rattle.wat_module_ast.specs.TypeViews.{type_of, use_of};

use crate::fields::{ElemMode, Elements, ExternType, Field};
use crate::indexed_types::IndexedTypes;
use crate::instruction::{Argument, Instruction};
use crate::types::{FunctionType, TypeUse, copied};
use std::alloc::{AllocError, Global};

/// Returns the types that type fields define, in the order of the fields.
fn defined_types(alloc: Global, fields: &[Field<'_>]) -> Result<IndexedTypes, AllocError>
    ensures { IfOk result (λ types. types ≡
        map grammar.definition_type (grammar.definitions_of (fields_of fields.now))) }
{
    let mut types = IndexedTypes::none(alloc);
    for field in fields {
        if let Field::Type(definition) = field {
            types.push(copied(alloc, &definition.of)?)?;
        }
    }
    Ok(types)
}

/// Returns the type that a type use adds to the module: its type if it has no index.
fn added_type(uses: &TypeUse) -> Option<&FunctionType>
    ensures { MatchOption result
        (added_types (use_of uses.now) ≡ [])
        (λ t. added_types (use_of uses.now) ≡ type_of t.now ∷ []) }
{
    match uses {
        TypeUse::Index(_) => None,
        TypeUse::Inline(of) => Some(of),
    }
}

/// Returns the type that the type use of an instruction, of `call_indirect` or of a block, adds to
/// the module, or `None` if it adds none.
fn instruction_type(instruction: &Instruction) -> Option<&FunctionType>
    ensures { MatchOption result
        (instruction_types instruction.now ≡ [])
        (λ t. instruction_types instruction.now ≡ type_of t.now ∷ []) }
{
    match &instruction.argument {
        Argument::Indirect(call) => added_type(call.uses()),
        Argument::BlockUse(uses) => added_type(uses.uses()),
        _ => None,
    }
}

/// Adds the types of the inline type uses in `all`, each unless it is among `types` already.
fn add_instructions(types: &mut IndexedTypes, all: &[Instruction]) -> Result<(), AllocError>
    ensures { OnOk result (types.new ≡ implicit.types_after types.old (expression_types all.now)) }
{
    for instruction in all {
        if let Some(of) = instruction_type(instruction) {
            types.add(of)?;
        }
    }
    Ok(())
}

/// Adds the types of the inline type uses in elements, each unless it is among `types` already.
#[tactic(auto, using(crate::proofs::FunctionTypes::functions_bring_none))]
fn add_elements(types: &mut IndexedTypes, elements: &Elements) -> Result<(), AllocError>
    ensures { OnOk result (types.new ≡
        implicit.types_after types.old (flat_map expression_types (expressions_of elements.now))) }
{
    match elements {
        Elements::Functions(_) => Ok(()),
        Elements::Expressions(expressions) => add_expressions(types, expressions),
    }
}

/// Adds the types of the inline type uses in expressions, each unless it is among `types` already.
fn add_expressions(
    types: &mut IndexedTypes,
    expressions: &[Vec<Instruction>],
) -> Result<(), AllocError>
    ensures { OnOk result (types.new ≡
        implicit.types_after types.old
        (flat_map expression_types (map expression_of expressions.now))) }
{
    for expression in expressions {
        add_instructions(types, expression)?;
    }
    Ok(())
}

/// Adds the types of the inline type uses in the offset of an active element segment, each unless
/// it is among `types` already.
fn add_mode(types: &mut IndexedTypes, mode: &ElemMode) -> Result<(), AllocError>
    ensures { OnOk result (types.new ≡
        implicit.types_after types.old (implicit.mode_types (mode_of mode.now))) }
{
    match mode {
        ElemMode::Active(target) => add_instructions(types, &target.offset),
        ElemMode::Passive | ElemMode::Declarative => Ok(()),
    }
}

/// Adds the type of a type use, if the use has no index and the type is not among `types` already.
fn add_use(types: &mut IndexedTypes, uses: &TypeUse) -> Result<(), AllocError>
    ensures { OnOk result (types.new ≡ implicit.types_after types.old
        (added_types (use_of uses.now))) }
{
    if let Some(of) = added_type(uses) {
        types.add(of)?;
    }
    Ok(())
}

/// Adds the types of the inline type uses in a field, each unless it is among `types` already.
fn add_field(types: &mut IndexedTypes, field: &Field<'_>) -> Result<(), AllocError>
    ensures { OnOk result (types.new ≡
        implicit.types_after types.old (implicit.field_types (field_of field.now))) }
{
    match field {
        Field::Func(function) => {
            add_use(types, &function.uses)?;
            add_instructions(types, &function.body)
        }
        Field::Import(import) => match &import.what {
            ExternType::Func(uses) => add_use(types, uses),
            ExternType::Table(_) | ExternType::Memory(_) | ExternType::Global(_) => Ok(()),
        },
        Field::Table(table) => match &table.elements {
            Some(elements) => add_elements(types, elements),
            None => Ok(()),
        },
        Field::Global(global) => add_instructions(types, &global.first),
        Field::Elem(elem) => {
            add_mode(types, &elem.mode)?;
            add_elements(types, &elem.elements)?;
            Ok(())
        }
        Field::Data(data) => match &data.target {
            Some(target) => add_instructions(types, &target.offset),
            None => Ok(()),
        },
        Field::Type(_) | Field::Memory(_) | Field::Export(_) | Field::Start(_) => Ok(()),
    }
}

/// Returns the function types of a module: all types that type fields define, and after them each
/// type of an inline type use that is not among them, once (WebAssembly 2.0, 6.6.3).
#[tactic(auto, unfolding(crate::specs::ImplicitTypes::types_of))]
pub fn types_of(alloc: Global, fields: &[Field<'_>]) -> Result<IndexedTypes, AllocError>
    ensures { IfOk result (λ types. types ≡ implicit.types_of (fields_of fields.now)) }
{
    let mut types = defined_types(alloc, fields)?;
    for field in fields {
        add_field(&mut types, field)?;
    }
    Ok(types)
}
