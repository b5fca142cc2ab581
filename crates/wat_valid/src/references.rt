//! Effects of the instructions on references, and of `select` with types (WebAssembly 2.0, 3.3.2
//! and 3.3.4).
ghost use Rattle.std.specs.Prelude.{◌&&◌, ◌∷◌, IfOk, [], length, nat_lt};
ghost use Rattle.wat_module_ast.specs.declared.instruction.ReferenceType.TheVariants as reference;
ghost use Rattle.wat_valid.specs.Algorithm as algorithm;
ghost use Rattle.wat_valid.specs.ContextViews.{context_of};
ghost use Rattle.wat_valid.specs.Views.{Does};

use crate::applying::replace_all;
use crate::context::{Context, is_declared};
use crate::operands::Operands;
use std::alloc::AllocError;
use wat_module_ast::instruction::{Argument, ReferenceType, ValueType};

/// Applies `ref.null`. Returns `Ok(false)` if the immediate is not a heap type.
pub fn ref_null(operands: &mut Operands, argument: &Argument) -> Result<bool, AllocError>
    ensures { IfOk result (Does (algorithm.null_effect argument.now) operands.old operands.new) }
{
    match argument {
        Argument::HeapType(of) => replace_all(operands, &[], &[ValueType::Reference(*of)]),
        _ => Ok(false),
    }
}

/// Applies `ref.func`. Returns `Ok(false)` if there is no such function, or if it is not declared.
pub fn ref_func(
    context: &Context<'_>,
    operands: &mut Operands,
    argument: &Argument,
) -> Result<bool, AllocError>
    ensures { IfOk result (Does (algorithm.by_index (λ x. algorithm.guard
        (nat_lt x (length (context_of context.now).funcs) &&
        algorithm.has_index x (context_of context.now).refs)
        (algorithm.Replace [] (algorithm.ref_value reference.Func ∷ []))) argument.now)
        operands.old operands.new) }
{
    let Argument::Index(index) = argument else {
        return Ok(false);
    };
    if *index < context.functions.len() && is_declared(context, *index) {
        replace_all(operands, &[], &[ValueType::Reference(ReferenceType::Func)])
    } else {
        Ok(false)
    }
}

/// Applies `select` with types. Returns `Ok(false)` if it does not list one type, or if the
/// operands do not match.
pub fn select_of(operands: &mut Operands, argument: &Argument) -> Result<bool, AllocError>
    ensures { IfOk result (Does (algorithm.select_effect argument.now) operands.old operands.new) }
{
    let Argument::Select(types) = argument else {
        return Ok(false);
    };
    match types.types() {
        [of] => replace_all(operands, &[*of, *of, ValueType::I32], &[*of]),
        _ => Ok(false),
    }
}
