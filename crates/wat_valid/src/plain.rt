//! Effects of all instructions on operands other than those of blocks (WebAssembly 2.0, 3.3).
ghost use Rattle.std.specs.Prelude.{◌≡◌, IfOk, Some, [], drop};
ghost use Rattle.wat_module_ast.specs.declared.instruction.Opcode.TheVariants as opcodes;
ghost use Rattle.wat_valid.specs.Algorithm as algorithm;
ghost use Rattle.wat_valid.specs.ContextViews.{body_context};
ghost use Rattle.wat_valid.specs.Views.{Does, is_nothing, labels_in};

use crate::applying::{drop_one, leave, select, test_null};
use crate::body::BodyContext;
use crate::condition::holds;
use crate::control::{branch, branch_if, branch_table, call, call_indirect};
use crate::operands::Operands;
use crate::references::{ref_func, ref_null, select_of};
use crate::signature::replace;
use crate::table::{
    data_drop, elem_drop, memory_init, table_copy, table_fill, table_get, table_grow, table_init,
    table_set, table_size,
};
use crate::typing::find;
use crate::variables::{global_get, global_set, local_get, local_set, local_tee};
use std::alloc::AllocError;
use wat_module_ast::instruction::{Argument, Instruction, Opcode, ValueType};

/// Applies an instruction other than `block`, `loop`, `if`, `else` and `end`, within blocks with
/// these labels, the innermost last. Returns `Ok(false)` if no type of the instruction fits the
/// context and the operands.
pub fn apply(
    context: &BodyContext<'_>,
    labels: &[&[ValueType]],
    operands: &mut Operands,
    instruction: &Instruction,
) -> Result<bool, AllocError>
    ensures { IfOk result (Does (algorithm.effect_of (body_context context.now)
        (labels_in labels.now) instruction.now.opcode instruction.now.argument)
        operands.old operands.new) }
{
    let argument = &instruction.argument;
    match find(instruction.opcode) {
        Some(of) => {
            if !holds(of.condition, argument, !context.module.memories.is_empty()) {
                return Ok(false);
            }
            replace(operands, of.signature)
        }
        None => apply_own(context, labels, operands, instruction),
    }
}

/// Applies an instruction with a rule of its own. Returns `Ok(false)` if there is none for its
/// opcode, or if no type of the instruction fits the context and the operands.
fn apply_own(
    context: &BodyContext<'_>,
    labels: &[&[ValueType]],
    operands: &mut Operands,
    instruction: &Instruction,
) -> Result<bool, AllocError>
    ensures { IfOk result (Does (algorithm.effect_by instruction.now.opcode
        instruction.now.argument (algorithm.own_rules (body_context context.now)
        (labels_in labels.now))) operands.old operands.new) }
{
    let argument = &instruction.argument;
    match instruction.opcode {
        Opcode::Byte(byte) => apply_control(context, labels, operands, byte, argument),
        Opcode::Prefixed(0xFC, number) => apply_bulk(context, operands, number, argument),
        Opcode::Prefixed(..) => Ok(false),
    }
}

/// Applies an instruction of control, or another with a one-byte opcode. Returns `Ok(false)` if
/// there is none with this opcode, or if no type of it fits the context and the operands.
fn apply_control(
    context: &BodyContext<'_>,
    labels: &[&[ValueType]],
    operands: &mut Operands,
    byte: u8,
    argument: &Argument,
) -> Result<bool, AllocError>
    ensures { IfOk result (Does (algorithm.effect_by (opcodes.Byte byte) argument.now
        (algorithm.own_rules (body_context context.now) (labels_in labels.now)))
        operands.old operands.new) }
{
    if byte == 0x00 {
        return Ok(leave_by(operands, argument, &[]));
    }
    if byte == 0x0C {
        return Ok(branch(labels, operands, argument));
    }
    if byte == 0x0D {
        return branch_if(labels, operands, argument);
    }
    if byte == 0x0E {
        return Ok(branch_table(labels, operands, argument));
    }
    if byte == 0x0F {
        return Ok(leave_by(operands, argument, context.results));
    }
    if byte == 0x10 {
        return call(&context.module, operands, argument);
    }
    if byte == 0x11 {
        return call_indirect(&context.module, operands, argument);
    }
    apply_parametric(context, operands, byte, argument)
}

/// Removes operands of these types, as an instruction without immediates does after which the code
/// cannot be reached. Returns `false` if it has immediates, or if the operands do not match.
fn leave_by(operands: &mut Operands, argument: &Argument, types: &[ValueType]) -> bool
    ensures { Does (algorithm.by_nothing (Some (algorithm.Leave types.now)) argument.now)
        operands.old operands.new result }
{
    match argument {
        Argument::Nothing => leave(operands, types),
        _ => false,
    }
}

/// Applies `drop`, `select`, or another instruction with a one-byte opcode from 0x1A on. Returns
/// `Ok(false)` if there is none with this opcode, or if no type of it fits the context and the
/// operands.
fn apply_parametric(
    context: &BodyContext<'_>,
    operands: &mut Operands,
    byte: u8,
    argument: &Argument,
) -> Result<bool, AllocError>
    ensures { IfOk result (Does (algorithm.effect_by (opcodes.Byte byte) argument.now
        (drop 7 (algorithm.own_rules (body_context context.now) []))) operands.old operands.new) }
{
    if byte == 0x1A {
        return Ok(has_no_immediate(argument) && drop_one(operands));
    }
    if byte == 0x1B {
        if !has_no_immediate(argument) {
            return Ok(false);
        }
        return select(operands);
    }
    if byte == 0x1C {
        return select_of(operands, argument);
    }
    apply_variable(context, operands, byte, argument)
}

/// Returns `true` if there is no immediate.
fn has_no_immediate(argument: &Argument) -> bool
    ensures { result ≡ is_nothing argument.now }
{
    matches!(argument, Argument::Nothing)
}

/// Applies an instruction on locals and globals, or another with a one-byte opcode from 0x20 on.
/// Returns `Ok(false)` if there is none with this opcode, or if no type of it fits the context and
/// the operands.
fn apply_variable(
    context: &BodyContext<'_>,
    operands: &mut Operands,
    byte: u8,
    argument: &Argument,
) -> Result<bool, AllocError>
    ensures { IfOk result (Does (algorithm.effect_by (opcodes.Byte byte) argument.now
        (drop 10 (algorithm.own_rules (body_context context.now) []))) operands.old operands.new) }
{
    if byte == 0x20 {
        return local_get(context, operands, argument);
    }
    if byte == 0x21 {
        return local_set(context, operands, argument);
    }
    if byte == 0x22 {
        return local_tee(context, operands, argument);
    }
    if byte == 0x23 {
        return global_get(&context.module, operands, argument);
    }
    if byte == 0x24 {
        return global_set(&context.module, operands, argument);
    }
    apply_reference(context, operands, byte, argument)
}

/// Applies an instruction on references, or `table.get` or `table.set`. Returns `Ok(false)` if
/// there is none with this opcode, or if no type of it fits the context and the operands.
fn apply_reference(
    context: &BodyContext<'_>,
    operands: &mut Operands,
    byte: u8,
    argument: &Argument,
) -> Result<bool, AllocError>
    ensures { IfOk result (Does (algorithm.effect_by (opcodes.Byte byte) argument.now
        (drop 15 (algorithm.own_rules (body_context context.now) []))) operands.old operands.new) }
{
    if byte == 0x25 {
        return table_get(&context.module, operands, argument);
    }
    if byte == 0x26 {
        return table_set(&context.module, operands, argument);
    }
    if byte == 0xD0 {
        return ref_null(operands, argument);
    }
    if byte == 0xD1 {
        if !has_no_immediate(argument) {
            return Ok(false);
        }
        return test_null(operands);
    }
    if byte == 0xD2 {
        return ref_func(&context.module, operands, argument);
    }
    Ok(false)
}

/// Applies an instruction after the prefix 0xFC. Returns `Ok(false)` if there is none with this
/// number that has a rule of its own, or if no type of it fits the context and the operands.
fn apply_bulk(
    context: &BodyContext<'_>,
    operands: &mut Operands,
    number: u8,
    argument: &Argument,
) -> Result<bool, AllocError>
    ensures { IfOk result (Does (algorithm.effect_by (opcodes.Prefixed 0xFC number) argument.now
        (drop 20 (algorithm.own_rules (body_context context.now) []))) operands.old operands.new) }
{
    if number == 8 {
        return memory_init(&context.module, operands, argument);
    }
    if number == 9 {
        return Ok(data_drop(&context.module, operands, argument));
    }
    if number == 12 {
        return table_init(&context.module, operands, argument);
    }
    if number == 13 {
        return Ok(elem_drop(&context.module, operands, argument));
    }
    if number == 14 {
        return table_copy(&context.module, operands, argument);
    }
    if number == 15 {
        return table_grow(&context.module, operands, argument);
    }
    if number == 16 {
        return table_size(&context.module, operands, argument);
    }
    if number == 17 {
        return table_fill(&context.module, operands, argument);
    }
    Ok(false)
}
