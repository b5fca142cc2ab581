//! Effects of branches and calls on operands (WebAssembly 2.0, 3.3.8).
ghost use Rattle.std.specs.Prelude.{◌≡◌, IfOk, Some, slice_get};
ghost use Rattle.std.specs.List.{list_all};
ghost use Rattle.std.specs.Option.{option_map};
ghost use Rattle.wat_module_ast.specs.Types.{from_to};
ghost use Rattle.wat_valid.specs.Algorithm as algorithm;
ghost use Rattle.wat_valid.specs.ContextViews.{context_of};
ghost use Rattle.wat_valid.specs.Views.{Does, fits_at, has_functions, labels_in};

use crate::applying::{has_values, leave, replace_all};
use crate::body::label_at;
use crate::context::{Context, function_at, use_type};
use crate::operands::{Operands, pop_value};
use std::alloc::AllocError;
use wat_module_ast::instruction::{Argument, ReferenceType, ValueType};

/// Applies `br`: removes the results of the label. Returns `false` if there is no such label, or if
/// the operands do not match.
pub fn branch(labels: &[&[ValueType]], operands: &mut Operands, argument: &Argument) -> bool
    ensures { Does (algorithm.by_index (λ l. option_map algorithm.Leave
        (slice_get (labels_in labels.now) l)) argument.now) operands.old operands.new result }
{
    let Argument::Index(label) = argument else {
        return false;
    };
    match label_at(labels, *label) {
        Some(types) => leave(operands, types),
        None => false,
    }
}

/// Applies `br_if`: removes a condition, and replaces the results of the label by themselves.
/// Returns `Ok(false)` if there is no such label, or if the operands do not match.
pub fn branch_if(
    labels: &[&[ValueType]],
    operands: &mut Operands,
    argument: &Argument,
) -> Result<bool, AllocError>
    ensures { IfOk result (Does (algorithm.by_index (λ l. option_map algorithm.br_if
        (slice_get (labels_in labels.now) l)) argument.now) operands.old operands.new) }
{
    let Argument::Index(label) = argument else {
        return Ok(false);
    };
    match label_at(labels, *label) {
        Some(types) => replace_below_number(operands, types, types),
        None => Ok(false),
    }
}

/// Removes an `i32`, and replaces the operands of the types `params` below it by operands of the
/// types `results`. Returns `Ok(false)` if there are too few operands, or if a type does not match.
fn replace_below_number(
    operands: &mut Operands,
    params: &[ValueType],
    results: &[ValueType],
) -> Result<bool, AllocError>
    ensures { IfOk result (Does (algorithm.indirect_type (Some
        (from_to params.now results.now))) operands.old operands.new) }
{
    if !pop_value(operands, ValueType::I32) {
        return Ok(false);
    }
    replace_all(operands, params, results)
}

/// Applies `br_table`: removes an index and the results of the labels. Returns `false` if one of
/// the labels does not exist, if their numbers of results differ, or if the operands do not match.
pub fn branch_table(labels: &[&[ValueType]], operands: &mut Operands, argument: &Argument) -> bool
    ensures { Does (algorithm.br_table (labels_in labels.now) argument.now)
        operands.old operands.new result }
{
    let Argument::Labels(table) = argument else {
        return false;
    };
    let Some(fallback) = label_at(labels, table.last()) else {
        return false;
    };
    if !pop_value(operands, ValueType::I32) {
        return false;
    }
    if !all_fit(labels, operands, table.labels(), fallback) {
        return false;
    }
    if !has_values(operands, fallback) {
        return false;
    }
    operands.types.clear();
    operands.is_unreachable = true;
    true
}

/// Returns `true` if the operands match the types of each of these labels, and each has as many
/// types as `fallback`.
fn all_fit(
    labels: &[&[ValueType]],
    operands: &Operands,
    chosen: &[usize],
    fallback: &[ValueType],
) -> bool
    ensures { result ≡
        list_all (fits_at (labels_in labels.now) operands.now fallback.now) chosen.now }
{
    chosen
        .iter()
        .all(|label| fits(labels, operands, *label, fallback))
}

/// Returns `true` if the operands match the types of a label, and it has as many types as
/// `fallback`.
fn fits(labels: &[&[ValueType]], operands: &Operands, label: usize, fallback: &[ValueType]) -> bool
    ensures { result ≡ fits_at (labels_in labels.now) operands.now fallback.now label }
{
    match label_at(labels, label) {
        Some(types) => types.len() == fallback.len() && has_values(operands, types),
        None => false,
    }
}

/// Applies `call`. Returns `Ok(false)` if there is no such function, or if the operands do not
/// match its parameters.
pub fn call(
    context: &Context<'_>,
    operands: &mut Operands,
    argument: &Argument,
) -> Result<bool, AllocError>
    ensures { IfOk result (Does (algorithm.by_index (λ x. option_map algorithm.call
        (slice_get (context_of context.now).funcs x)) argument.now) operands.old operands.new) }
{
    let Argument::Index(function) = argument else {
        return Ok(false);
    };
    match function_at(context, *function) {
        Some(of) => replace_all(operands, &of.params, &of.results),
        None => Ok(false),
    }
}

/// Applies `call_indirect`. Returns `Ok(false)` if there is no such table of functions, if the type
/// does not exist, or if the operands do not match it.
pub fn call_indirect(
    context: &Context<'_>,
    operands: &mut Operands,
    argument: &Argument,
) -> Result<bool, AllocError>
    ensures { IfOk result (Does (algorithm.call_indirect (context_of context.now) argument.now)
        operands.old operands.new) }
{
    let Argument::Indirect(call) = argument else {
        return Ok(false);
    };
    if !has_functions(context, call.table()) {
        return Ok(false);
    }
    match use_type(context.types, call.uses()) {
        Some(of) => replace_below_number(operands, &of.params, &of.results),
        None => Ok(false),
    }
}

/// Returns `true` if there is a table with this index, and its elements are functions.
pub fn has_functions(context: &Context<'_>, table: usize) -> bool
    ensures { result ≡ has_functions (slice_get (context_of context.now).tables table) }
{
    match context.tables.get(table) {
        Some(of) => of.element == ReferenceType::Func,
        None => false,
    }
}
