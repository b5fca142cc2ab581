//! Constant expressions.
ghost use Rattle.std.specs.Prelude.{◌≡◌, ◌↔◌, ◌&&◌, IsTrue, Some, length, nat_lt};
ghost use Rattle.wat_module_ast.specs.declared.instruction.ValueType.TheVariants as value;
ghost use Rattle.wat_module_ast.specs.Fields.{ref_func};
ghost use Rattle.wat_valid.specs.Algorithm.{has_index};
ghost use Rattle.wat_valid.specs.Constants as constants;
ghost use Rattle.wat_valid.specs.ContextViews.{context_of};
ghost use Rattle.wat_valid.specs.Instructions.{Constant};

use crate::context::{Context, is_declared};
use wat_module_ast::instruction::{Argument, Instruction, Opcode, ReferenceType, ValueType};
use wat_module_ast::types::type_byte;

/// Returns `true` if instructions are a constant expression whose value has the type `of`.
pub fn is_constant(context: &Context<'_>, instructions: &[Instruction], of: ValueType) -> bool
    ensures { IsTrue result ↔ Constant (context_of context.now) instructions.now of }
{
    match instructions {
        [only] => has_value(context, only, of),
        _ => false,
    }
}

/// Returns `true` if the expression that is one `ref.func` is a constant expression whose value has
/// the type `of`.
pub fn is_constant_function(context: &Context<'_>, function: usize, of: ReferenceType) -> bool
    ensures { IsTrue result ↔ Constant (context_of context.now) (ref_func function)
        (value.Reference of) }
{
    match of {
        ReferenceType::Func => can_be_referred(context, function),
        ReferenceType::Extern => false,
    }
}

/// Returns `true` if there is a function with this index, and `ref.func` can refer to it.
fn can_be_referred(context: &Context<'_>, function: usize) -> bool
    ensures { result ≡ (nat_lt function (length (context_of context.now).funcs) &&
        has_index function (context_of context.now).refs) }
{
    function < context.functions.len() && is_declared(context, function)
}

/// Returns `true` if an instruction is constant, and its value has the type `of`.
fn has_value(context: &Context<'_>, instruction: &Instruction, of: ValueType) -> bool
    ensures { IsTrue result ↔ (constants.constant_value (context_of context.now)
        instruction.now.opcode instruction.now.argument ≡ Some of) }
{
    match value_of(context, instruction) {
        Some(value) => type_byte(value) == type_byte(of),
        None => false,
    }
}

/// Returns the type of the value of a constant instruction, or `None` if the instruction is not
/// constant.
fn value_of(context: &Context<'_>, instruction: &Instruction) -> Option<ValueType>
    ensures { result ≡ constants.constant_value (context_of context.now)
        instruction.now.opcode instruction.now.argument }
{
    match instruction.opcode {
        Opcode::Byte(byte) => byte_value(context, byte, &instruction.argument),
        Opcode::Prefixed(prefix, number) => {
            if prefix == 0xFD && number == 12 {
                Some(ValueType::V128)
            } else {
                None
            }
        }
    }
}

/// Returns the type of the value of a constant instruction with a one-byte opcode, or `None` if the
/// instruction is not constant.
fn byte_value(context: &Context<'_>, byte: u8, argument: &Argument) -> Option<ValueType>
    ensures { result ≡ constants.byte_value (context_of context.now) byte argument.now }
{
    if byte == 0x41 {
        return Some(ValueType::I32);
    }
    if byte == 0x42 {
        return Some(ValueType::I64);
    }
    if byte == 0x43 {
        return Some(ValueType::F32);
    }
    if byte == 0x44 {
        return Some(ValueType::F64);
    }
    if byte == 0xD0 {
        return null_value(argument);
    }
    if byte == 0xD2 {
        return function_value(context, argument);
    }
    if byte == 0x23 {
        return global_value(context, argument);
    }
    None
}

/// Returns the type of `ref.null`.
fn null_value(argument: &Argument) -> Option<ValueType>
    ensures { result ≡ constants.null_value argument.now }
{
    match argument {
        Argument::HeapType(of) => Some(ValueType::Reference(*of)),
        _ => None,
    }
}

/// Returns the type of `ref.func`, or `None` if it may not refer to its function.
fn function_value(context: &Context<'_>, argument: &Argument) -> Option<ValueType>
    ensures { result ≡ constants.function_value (context_of context.now) argument.now }
{
    match argument {
        Argument::Index(index) => {
            if *index < context.functions.len() && is_declared(context, *index) {
                Some(ValueType::Reference(ReferenceType::Func))
            } else {
                None
            }
        }
        _ => None,
    }
}

/// Returns the type of `global.get`, or `None` if its global is mutable or does not exist.
fn global_value(context: &Context<'_>, argument: &Argument) -> Option<ValueType>
    ensures { result ≡ constants.global_value (context_of context.now) argument.now }
{
    match argument {
        Argument::Index(index) => match context.globals.get(*index) {
            Some(global) if !global.is_mutable => Some(global.value),
            _ => None,
        },
        _ => None,
    }
}
