//! Signatures on operands.
ghost use Rattle.std.specs.Prelude.{◌≡◌, ◌++◌, IfOk, None, OnOk, Some, if◌then◌else◌};
ghost use Rattle.std.specs.Option.{option_to_list};
ghost use Rattle.wat_valid.specs.Algorithm as algorithm;
ghost use Rattle.wat_valid.specs.Contexts.{values};
ghost use Rattle.wat_valid.specs.Views.{operands_of, signature_type};

use crate::operands::{OperandType, Operands, pop_value};
use crate::typing::Signature;
use std::alloc::AllocError;
use wat_module_ast::instruction::ValueType;

/// Replaces the operands of a signature by its result. Returns `Ok(false)` if there are too few
/// operands, or if a type does not match.
pub fn replace(operands: &mut Operands, signature: Signature) -> Result<bool, AllocError>
    ensures { IfOk result (λ fits. algorithm.apply
        (algorithm.Replace (signature_type signature).params (signature_type signature).results)
        (operands_of operands.old) ≡ (if fits then Some (operands_of operands.new) else None)) }
{
    if !pop_params(operands, signature) {
        return Ok(false);
    }
    push_result(operands, result_of(signature))?;
    Ok(true)
}

/// Removes the operands of a signature. Returns `false` if there are too few operands, or if a type
/// does not match.
fn pop_params(operands: &mut Operands, signature: Signature) -> bool
    ensures same { operands.new.is_unreachable ≡ operands.old.is_unreachable }
    ensures is { algorithm.pop_values operands.old.is_unreachable operands.old.types.items
        (signature_type signature).params ≡
        (if result then Some operands.new.types.items else None) }
{
    match signature {
        Signature::None(_) => true,
        Signature::One(first, _) => pop_value(operands, first),
        Signature::Two(first, second, _) => {
            pop_value(operands, second) && pop_value(operands, first)
        }
        Signature::Three(first, second, third, _) => {
            pop_value(operands, third) && pop_value(operands, second) && pop_value(operands, first)
        }
    }
}

/// Returns the result of a signature, if it has one.
fn result_of(signature: Signature) -> Option<ValueType>
    ensures { option_to_list result ≡ (signature_type signature).results }
{
    match signature {
        Signature::None(result)
        | Signature::One(_, result)
        | Signature::Two(_, _, result)
        | Signature::Three(_, _, _, result) => result,
    }
}

/// Appends the result of a signature to the operands, if it has one.
fn push_result(operands: &mut Operands, of: Option<ValueType>) -> Result<(), AllocError>
    ensures same { OnOk result (operands.new.is_unreachable ≡ operands.old.is_unreachable) }
    ensures is { OnOk result (operands.new.types.items ≡
        operands.old.types.items ++ values (option_to_list of)) }
{
    if let Some(of) = of {
        operands.types.push(OperandType::Value(of))?;
    }
    Ok(())
}
