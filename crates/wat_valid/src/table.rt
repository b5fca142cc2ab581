//! Effects of the instructions on tables, and of bulk instructions on segments (WebAssembly 2.0,
//! 3.3.6 and 3.3.7).
ghost use Rattle.std.specs.Prelude.{◌&&◌, IfOk, Some, [], length, nat_lt, slice_get};
ghost use Rattle.std.specs.Option.{option_map};
ghost use Rattle.wat_valid.specs.Algorithm as algorithm;
ghost use Rattle.wat_valid.specs.ContextViews.{context_of};
ghost use Rattle.wat_valid.specs.Views.{Does};

use crate::applying::replace_all;
use crate::context::Context;
use crate::operands::Operands;
use std::alloc::AllocError;
use wat_module_ast::instruction::{Argument, ValueType};

/// Applies `table.get`. Returns `Ok(false)` if there is no such table, or if the operand does not
/// match.
pub fn table_get(
    context: &Context<'_>,
    operands: &mut Operands,
    argument: &Argument,
) -> Result<bool, AllocError>
    ensures { IfOk result (Does (algorithm.by_index (λ x. option_map algorithm.table_get
        (slice_get (context_of context.now).tables x)) argument.now)
        operands.old operands.new) }
{
    let Argument::Index(index) = argument else {
        return Ok(false);
    };
    match context.tables.get(*index) {
        Some(table) => {
            let element = ValueType::Reference(table.element);
            replace_all(operands, &[ValueType::I32], &[element])
        }
        None => Ok(false),
    }
}

/// Applies `table.set`. Returns `Ok(false)` if there is no such table, or if the operands do not
/// match.
pub fn table_set(
    context: &Context<'_>,
    operands: &mut Operands,
    argument: &Argument,
) -> Result<bool, AllocError>
    ensures { IfOk result (Does (algorithm.by_index (λ x. option_map algorithm.table_set
        (slice_get (context_of context.now).tables x)) argument.now)
        operands.old operands.new) }
{
    let Argument::Index(index) = argument else {
        return Ok(false);
    };
    match context.tables.get(*index) {
        Some(table) => {
            let element = ValueType::Reference(table.element);
            replace_all(operands, &[ValueType::I32, element], &[])
        }
        None => Ok(false),
    }
}

/// Applies `table.size`. Returns `Ok(false)` if there is no such table.
pub fn table_size(
    context: &Context<'_>,
    operands: &mut Operands,
    argument: &Argument,
) -> Result<bool, AllocError>
    ensures { IfOk result (Does (algorithm.by_index (λ x. option_map algorithm.table_size
        (slice_get (context_of context.now).tables x)) argument.now)
        operands.old operands.new) }
{
    let Argument::Index(index) = argument else {
        return Ok(false);
    };
    if *index < context.tables.len() {
        replace_all(operands, &[], &[ValueType::I32])
    } else {
        Ok(false)
    }
}

/// Applies `table.grow`. Returns `Ok(false)` if there is no such table, or if the operands do not
/// match.
pub fn table_grow(
    context: &Context<'_>,
    operands: &mut Operands,
    argument: &Argument,
) -> Result<bool, AllocError>
    ensures { IfOk result (Does (algorithm.by_index (λ x. option_map algorithm.table_grow
        (slice_get (context_of context.now).tables x)) argument.now)
        operands.old operands.new) }
{
    let Argument::Index(index) = argument else {
        return Ok(false);
    };
    match context.tables.get(*index) {
        Some(table) => {
            let element = ValueType::Reference(table.element);
            replace_all(operands, &[element, ValueType::I32], &[ValueType::I32])
        }
        None => Ok(false),
    }
}

/// Applies `table.fill`. Returns `Ok(false)` if there is no such table, or if the operands do not
/// match.
pub fn table_fill(
    context: &Context<'_>,
    operands: &mut Operands,
    argument: &Argument,
) -> Result<bool, AllocError>
    ensures { IfOk result (Does (algorithm.by_index (λ x. option_map algorithm.table_fill
        (slice_get (context_of context.now).tables x)) argument.now)
        operands.old operands.new) }
{
    let Argument::Index(index) = argument else {
        return Ok(false);
    };
    match context.tables.get(*index) {
        Some(table) => {
            let element = ValueType::Reference(table.element);
            replace_all(operands, &[ValueType::I32, element, ValueType::I32], &[])
        }
        None => Ok(false),
    }
}

/// Applies `table.copy`. Returns `Ok(false)` if one of the tables does not exist, if their elements
/// have different types, or if the operands do not match.
pub fn table_copy(
    context: &Context<'_>,
    operands: &mut Operands,
    argument: &Argument,
) -> Result<bool, AllocError>
    ensures { IfOk result (Does (algorithm.by_pair (λ x y. algorithm.table_copy
        (slice_get (context_of context.now).tables x)
        (slice_get (context_of context.now).tables y)) argument.now)
        operands.old operands.new) }
{
    let Argument::Pair(pair) = argument else {
        return Ok(false);
    };
    match (
        context.tables.get(pair.first()),
        context.tables.get(pair.second()),
    ) {
        (Some(to), Some(from)) if to.element == from.element => replace_three(operands),
        _ => Ok(false),
    }
}

/// Applies `table.init`. Returns `Ok(false)` if the table or the element segment does not exist, if
/// their elements have different types, or if the operands do not match.
pub fn table_init(
    context: &Context<'_>,
    operands: &mut Operands,
    argument: &Argument,
) -> Result<bool, AllocError>
    ensures { IfOk result (Does (algorithm.by_pair (λ y x. algorithm.table_init
        (slice_get (context_of context.now).tables x)
        (slice_get (context_of context.now).elems y)) argument.now)
        operands.old operands.new) }
{
    let Argument::Pair(pair) = argument else {
        return Ok(false);
    };
    match (
        context.tables.get(pair.second()),
        context.elements.get(pair.first()),
    ) {
        (Some(table), Some(of)) if table.element == *of => replace_three(operands),
        _ => Ok(false),
    }
}

/// Removes three operands of the type `i32`. Returns `Ok(false)` if there are too few operands, or
/// if a type does not match.
fn replace_three(operands: &mut Operands) -> Result<bool, AllocError>
    ensures { IfOk result (Does (Some (algorithm.Replace algorithm.three []))
        operands.old operands.new) }
{
    replace_all(
        operands,
        &[ValueType::I32, ValueType::I32, ValueType::I32],
        &[],
    )
}

/// Returns `true` if `elem.drop` has an element segment.
pub fn elem_drop(context: &Context<'_>, operands: &mut Operands, argument: &Argument) -> bool
    ensures { Does (algorithm.by_index (λ x. algorithm.guard
        (nat_lt x (length (context_of context.now).elems)) (algorithm.Replace [] []))
        argument.now) operands.old operands.new result }
{
    match argument {
        Argument::Index(index) => *index < context.elements.len(),
        _ => false,
    }
}

/// Applies `memory.init`. Returns `Ok(false)` if there is no memory or no such data segment, or if
/// the operands do not match.
pub fn memory_init(
    context: &Context<'_>,
    operands: &mut Operands,
    argument: &Argument,
) -> Result<bool, AllocError>
    ensures { IfOk result (Does (algorithm.by_index_zero (λ x. algorithm.guard
        (algorithm.has_memory (context_of context.now) && nat_lt x (context_of context.now).datas)
        (algorithm.Replace algorithm.three [])) argument.now) operands.old operands.new) }
{
    let Argument::IndexZero(index) = argument else {
        return Ok(false);
    };
    if !context.memories.is_empty() && *index < context.data_count {
        replace_three(operands)
    } else {
        Ok(false)
    }
}

/// Returns `true` if `data.drop` has a data segment.
pub fn data_drop(context: &Context<'_>, operands: &mut Operands, argument: &Argument) -> bool
    ensures { Does (algorithm.by_index (λ x. algorithm.guard
        (nat_lt x (context_of context.now).datas) (algorithm.Replace [] []))
        argument.now) operands.old operands.new result }
{
    match argument {
        Argument::Index(index) => *index < context.data_count,
        _ => false,
    }
}
