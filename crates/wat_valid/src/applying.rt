//! Effects of plain instructions on operands.
ghost use Rattle.std.specs.Prelude.{◌≡◌, IfOk, None, Some, if◌then◌else◌, is_some};
ghost use Rattle.wat_valid.specs.Algorithm as algorithm;
ghost use Rattle.wat_valid.specs.Views.{operands_of};

use crate::operands::{OperandType, Operands, is_value, pop, pop_value, pop_values, push_values};
use std::alloc::AllocError;
use wat_module_ast::instruction::ValueType;
use wat_module_ast::types::type_byte;

/// Replaces operands of the types `params` by operands of the types `results`. Returns `Ok(false)`
/// if there are too few operands, or if a type does not match.
pub fn replace_all(
    operands: &mut Operands,
    params: &[ValueType],
    results: &[ValueType],
) -> Result<bool, AllocError>
    ensures { IfOk result (λ fits. algorithm.apply (algorithm.Replace params.now results.now)
        (operands_of operands.old) ≡ (if fits then Some (operands_of operands.new) else None)) }
{
    if !pop_values(operands, params) {
        return Ok(false);
    }
    push_values(operands, results)?;
    Ok(true)
}

/// Removes operands of the types `params`, as an instruction does after which the code cannot be
/// reached. Returns `false` if there are too few operands, or if a type does not match.
pub fn leave(operands: &mut Operands, params: &[ValueType]) -> bool
    ensures { algorithm.apply (algorithm.Leave params.now) (operands_of operands.old) ≡
        (if result then Some (operands_of operands.new) else None) }
{
    if !pop_values(operands, params) {
        return false;
    }
    operands.types.clear();
    operands.is_unreachable = true;
    true
}

/// Removes an operand, as `drop` does. Returns `false` if there is none.
pub fn drop_one(operands: &mut Operands) -> bool
    ensures { algorithm.apply algorithm.Drop (operands_of operands.old) ≡
        (if result then Some (operands_of operands.new) else None) }
{
    match pop(operands) {
        Some(_) => true,
        None => false,
    }
}

/// Replaces a reference by an `i32`, as `ref.is_null` does. Returns `Ok(false)` if there is no
/// operand, or if it is not a reference.
pub fn test_null(operands: &mut Operands) -> Result<bool, AllocError>
    ensures { IfOk result (λ fits. algorithm.apply algorithm.TestNull (operands_of operands.old) ≡
        (if fits then Some (operands_of operands.new) else None)) }
{
    match pop(operands) {
        Some(of) if is_reference(of) => {
            operands.types.push(OperandType::Value(ValueType::I32))?;
            Ok(true)
        }
        _ => Ok(false),
    }
}

/// Returns `true` for ⊥ and for reference types.
fn is_reference(of: OperandType) -> bool
    ensures { result ≡ algorithm.is_reference of }
{
    match of {
        OperandType::Bottom | OperandType::Value(ValueType::Reference(_)) => true,
        OperandType::Value(_) => false,
    }
}

/// Returns `true` for ⊥, number types and the vector type.
fn is_numeric(of: OperandType) -> bool
    ensures { result ≡ algorithm.is_numeric of }
{
    match of {
        OperandType::Value(ValueType::Reference(_)) => false,
        OperandType::Bottom | OperandType::Value(_) => true,
    }
}

/// Returns the more specific of two operand types, or `None` if neither matches the other.
fn joined(of: OperandType, other: OperandType) -> Option<OperandType>
    ensures { result ≡ algorithm.joined of other }
{
    match (of, other) {
        (OperandType::Bottom, _) => Some(other),
        (_, OperandType::Bottom) => Some(of),
        (OperandType::Value(value), OperandType::Value(another)) => {
            if type_byte(value) == type_byte(another) {
                Some(of)
            } else {
                None
            }
        }
    }
}

/// Replaces two operands and a condition by one of the operands, as `select` without types does.
/// Returns `Ok(false)` if there are too few operands, or if their types are not equal numbers or
/// vectors.
pub fn select(operands: &mut Operands) -> Result<bool, AllocError>
    ensures { IfOk result (λ fits. algorithm.apply algorithm.Select (operands_of operands.old) ≡
        (if fits then Some (operands_of operands.new) else None)) }
{
    if !pop_value(operands, ValueType::I32) {
        return Ok(false);
    }
    let Some(second) = pop(operands) else {
        return Ok(false);
    };
    let Some(first) = pop(operands) else {
        return Ok(false);
    };
    push_joined(operands, joined(first, second))
}

/// Appends the type of the two operands of `select`. Returns `Ok(false)` if they have none, or if
/// it is not a number or a vector.
fn push_joined(operands: &mut Operands, of: Option<OperandType>) -> Result<bool, AllocError>
    ensures { IfOk result (λ fits. algorithm.select_joined operands.old.is_unreachable
        operands.old.types.items of ≡
        (if fits then Some (operands_of operands.new) else None)) }
{
    match of {
        Some(of) if is_numeric(of) => {
            operands.types.push(of)?;
            Ok(true)
        }
        _ => Ok(false),
    }
}

/// Returns `true` if the last operands match these types.
pub fn has_values(operands: &Operands, expected: &[ValueType]) -> bool
    ensures { result ≡ is_some (algorithm.pop_values operands.now.is_unreachable
        operands.now.types.items expected.now) }
{
    let mut left = expected.len();
    let mut top = operands.types.len();
    while left > 0 {
        left -= 1;
        if top == 0 {
            return operands.is_unreachable;
        }
        top -= 1;
        if !is_value(operands.types[top], expected[left]) {
            return false;
        }
    }
    true
}
