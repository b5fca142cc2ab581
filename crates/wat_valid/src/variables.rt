//! Effects of the instructions on locals and globals (WebAssembly 2.0, 3.3.5).
ghost use Rattle.std.specs.Prelude.{IfOk, slice_get};
ghost use Rattle.std.specs.Option.{option_map};
ghost use Rattle.wat_valid.specs.Algorithm as algorithm;
ghost use Rattle.wat_valid.specs.ContextViews.{body_context, context_of};
ghost use Rattle.wat_valid.specs.Views.{Does};

use crate::applying::replace_all;
use crate::body::{BodyContext, local_at};
use crate::context::Context;
use crate::operands::Operands;
use std::alloc::AllocError;
use wat_module_ast::instruction::Argument;

/// Applies `local.get`. Returns `Ok(false)` if there is no such local.
pub fn local_get(
    context: &BodyContext<'_>,
    operands: &mut Operands,
    argument: &Argument,
) -> Result<bool, AllocError>
    ensures { IfOk result (Does (algorithm.by_index (λ x. option_map algorithm.local_get
        (slice_get (body_context context.now).locals x)) argument.now)
        operands.old operands.new) }
{
    let Argument::Index(index) = argument else {
        return Ok(false);
    };
    match local_at(context, *index) {
        Some(of) => replace_all(operands, &[], &[of]),
        None => Ok(false),
    }
}

/// Applies `local.set`. Returns `Ok(false)` if there is no such local, or if the operand does not
/// match its type.
pub fn local_set(
    context: &BodyContext<'_>,
    operands: &mut Operands,
    argument: &Argument,
) -> Result<bool, AllocError>
    ensures { IfOk result (Does (algorithm.by_index (λ x. option_map algorithm.local_set
        (slice_get (body_context context.now).locals x)) argument.now)
        operands.old operands.new) }
{
    let Argument::Index(index) = argument else {
        return Ok(false);
    };
    match local_at(context, *index) {
        Some(of) => replace_all(operands, &[of], &[]),
        None => Ok(false),
    }
}

/// Applies `local.tee`. Returns `Ok(false)` if there is no such local, or if the operand does not
/// match its type.
pub fn local_tee(
    context: &BodyContext<'_>,
    operands: &mut Operands,
    argument: &Argument,
) -> Result<bool, AllocError>
    ensures { IfOk result (Does (algorithm.by_index (λ x. option_map algorithm.local_tee
        (slice_get (body_context context.now).locals x)) argument.now)
        operands.old operands.new) }
{
    let Argument::Index(index) = argument else {
        return Ok(false);
    };
    match local_at(context, *index) {
        Some(of) => replace_all(operands, &[of], &[of]),
        None => Ok(false),
    }
}

/// Applies `global.get`. Returns `Ok(false)` if there is no such global.
pub fn global_get(
    context: &Context<'_>,
    operands: &mut Operands,
    argument: &Argument,
) -> Result<bool, AllocError>
    ensures { IfOk result (Does (algorithm.by_index (λ x. option_map algorithm.global_get
        (slice_get (context_of context.now).globals x)) argument.now)
        operands.old operands.new) }
{
    let Argument::Index(index) = argument else {
        return Ok(false);
    };
    match context.globals.get(*index) {
        Some(global) => replace_all(operands, &[], &[global.value]),
        None => Ok(false),
    }
}

/// Applies `global.set`. Returns `Ok(false)` if there is no such global, if it is not mutable, or
/// if the operand does not match its type.
pub fn global_set(
    context: &Context<'_>,
    operands: &mut Operands,
    argument: &Argument,
) -> Result<bool, AllocError>
    ensures { IfOk result (Does (algorithm.by_index (λ x. algorithm.global_set
        (slice_get (context_of context.now).globals x)) argument.now)
        operands.old operands.new) }
{
    let Argument::Index(index) = argument else {
        return Ok(false);
    };
    match context.globals.get(*index) {
        Some(global) if global.is_mutable => replace_all(operands, &[global.value], &[]),
        _ => Ok(false),
    }
}
