//! Types of operands, and the operands of a frame.
ghost use Rattle.std.specs.Prelude.{◌≡◌, ◌++◌, MatchOption, None, OnOk, Some, if◌then◌else◌};
ghost use Rattle.wat_valid.specs.Algorithm as algorithm;
ghost use Rattle.wat_valid.specs.Contexts.{values};

use std::alloc::AllocError;
use wat_module_ast::instruction::ValueType;
use wat_module_ast::types::type_byte;

/// The type of an operand on the stack: a value type, or ⊥, which matches each value type. An
/// operand in code that cannot be reached may have the type ⊥.
#[derive(Clone, Copy)]
pub enum OperandType {
    Value(ValueType),
    Bottom,
}

/// The operands of a frame.
#[derive(Drop)]
pub struct Operands {
    /// Types of the operands, the last of which is the top of the stack.
    pub types: Vec<OperandType>,
    /// `true` if the code cannot be reached.
    pub is_unreachable: bool,
}

/// Returns `true` if an operand type matches a value type.
pub fn is_value(of: OperandType, expected: ValueType) -> bool
    ensures { result ≡ algorithm.is_value of expected }
{
    match of {
        OperandType::Value(of) => type_byte(of) == type_byte(expected),
        OperandType::Bottom => true,
    }
}

/// Removes the last operand and returns its type. If there is none, returns ⊥ if the code cannot
/// be reached, and otherwise `None`.
pub fn pop(operands: &mut Operands) -> Option<OperandType>
    ensures same { operands.new.is_unreachable ≡ operands.old.is_unreachable }
    ensures is { MatchOption result
        (algorithm.pop operands.old.is_unreachable operands.old.types.items ≡ None)
        (λ t. algorithm.pop operands.old.is_unreachable operands.old.types.items ≡
        Some (operands.new.types.items, t)) }
{
    match operands.types.pop() {
        Some(of) => Some(of),
        None if operands.is_unreachable => Some(OperandType::Bottom),
        None => None,
    }
}

/// Removes the last operand. Returns `false` if there is none, or if its type does not match.
pub fn pop_value(operands: &mut Operands, expected: ValueType) -> bool
    ensures same { operands.new.is_unreachable ≡ operands.old.is_unreachable }
    ensures is { algorithm.pop_value operands.old.is_unreachable operands.old.types.items expected ≡
        (if result then Some operands.new.types.items else None) }
{
    match pop(operands) {
        Some(of) => is_value(of, expected),
        None => false,
    }
}

/// Removes operands, from the last of the types to the first. Returns `false` if there are too few
/// operands, or if a type does not match.
pub fn pop_values(operands: &mut Operands, expected: &[ValueType]) -> bool
    ensures same { operands.new.is_unreachable ≡ operands.old.is_unreachable }
    ensures is { algorithm.pop_values operands.old.is_unreachable operands.old.types.items
        expected.now ≡ (if result then Some operands.new.types.items else None) }
{
    let mut left = expected.len();
    while left > 0 {
        left -= 1;
        if !pop_value(operands, expected[left]) {
            return false;
        }
    }
    true
}

/// Appends operands of these types.
pub fn push_values(operands: &mut Operands, types: &[ValueType]) -> Result<(), AllocError>
    ensures same { OnOk result (operands.new.is_unreachable ≡ operands.old.is_unreachable) }
    ensures is { OnOk result (operands.new.types.items ≡
        operands.old.types.items ++ values types.now) }
{
    for of in types {
        operands.types.push(OperandType::Value(*of))?;
    }
    Ok(())
}
