//! Encodes instructions and expressions.
ghost use Rattle.std.specs.Prelude.{◌≡◌, ◌+◌, ◌++◌, ◌∷◌, [], OnOk};
ghost use Rattle.std.specs.List.{flat_map};
ghost use Rattle.wat_lex.specs.binary.Encoding.{list_encoding};
ghost use Rattle.wat_lex.specs.binary.Leb128.{unsigned_leb128};
ghost use Rattle.wat_module_encoder.specs.Binary as binary;

use crate::bytes::{put, put_byte, put_bytes, put_integer, put_pair, put_signed};
use crate::types::{put_values, use_index};
use std::alloc::AllocError;
use wat_module_ast::indexed_types::IndexedTypes;
use wat_module_ast::instruction::{Argument, Instruction, Opcode, ValueType};
use wat_module_ast::types::{reference_byte, type_byte};

/// Returns the byte of a block type without parameters: that of its result type, or `0x40`.
fn block_byte(of: Option<ValueType>) -> u8
    ensures { result ≡ binary.block_byte of }
{
    match of {
        Some(of) => type_byte(of),
        None => 0x40,
    }
}

/// Appends the label indices of `br_table`: the number of `labels`, each label, and the default
/// label `last`.
fn put_labels(out: &mut Vec<u8>, labels: &[usize], last: usize) -> Result<(), AllocError>
    ensures { OnOk result (out.new.items ≡
        out.old.items ++ (list_encoding unsigned_leb128 labels.now ++ unsigned_leb128 last)) }
{
    put(out, labels.len())?;
    for label in labels {
        put(out, *label)?;
    }
    put(out, last)
}

/// Appends an opcode: a byte, or a prefix and an unsigned LEB128 integer.
fn put_opcode(out: &mut Vec<u8>, opcode: Opcode) -> Result<(), AllocError>
    ensures { OnOk result (out.new.items ≡ out.old.items ++ binary.opcode_bytes opcode) }
{
    match opcode {
        Opcode::Byte(byte) => put_byte(out, byte),
        Opcode::Prefixed(prefix, number) => {
            out.push(prefix)?;
            put(out, usize::from(number))
        }
    }
}

/// Appends an instruction: its opcode and its immediates.
fn put_instruction(
    out: &mut Vec<u8>,
    types: &IndexedTypes,
    instruction: &Instruction,
) -> Result<(), AllocError>
    ensures { OnOk result (out.new.items ≡
        out.old.items ++ binary.instruction_bytes types.now instruction.now) }
{
    put_opcode(out, instruction.opcode)?;
    put_argument(out, types, &instruction.argument)
}

/// Appends the immediates of an instruction.
fn put_argument(
    out: &mut Vec<u8>,
    types: &IndexedTypes,
    argument: &Argument,
) -> Result<(), AllocError>
    ensures { OnOk result (out.new.items ≡
        out.old.items ++ binary.argument_bytes types.now argument.now) }
{
    match argument {
        Argument::Nothing => Ok(()),
        Argument::Index(n) => put(out, *n),
        Argument::Labels(table) => put_labels(out, table.labels(), table.last()),
        Argument::I32(n) => put_integer(out, i64::from(*n)),
        Argument::I64(n) => put_integer(out, *n),
        Argument::F32(bits) => put_bytes(out, &bits.to_le_bytes()),
        Argument::F64(bits) => put_bytes(out, &bits.to_le_bytes()),
        Argument::Indirect(call) => put_pair(out, use_index(types, call.uses())?, call.table()),
        Argument::Block(of) => put_byte(out, block_byte(*of)),
        Argument::BlockUse(uses) => put_signed(out, use_index(types, uses.uses())?),
        Argument::Memory(align, offset) => put_pair(out, usize::from(*align), *offset as usize),
        Argument::Zero => put_byte(out, 0),
        Argument::HeapType(of) => put_byte(out, reference_byte(*of)),
        Argument::Select(types) => put_values(out, types.types()),
        Argument::Zeros => put_bytes(out, &[0, 0]),
        Argument::IndexZero(n) => {
            put(out, *n)?;
            put_byte(out, 0)
        }
        Argument::Pair(pair) => put_pair(out, pair.first(), pair.second()),
        Argument::Lane(n) => put_byte(out, *n),
        Argument::MemoryLane(align, offset, n) => {
            put_pair(out, usize::from(*align), *offset as usize)?;
            put_byte(out, *n)
        }
        Argument::Bytes(vector) => put_bytes(out, vector.bytes()),
    }
}

/// Appends instructions, without an `end` after them.
pub(crate) fn put_instructions(
    out: &mut Vec<u8>,
    types: &IndexedTypes,
    all: &[Instruction],
) -> Result<(), AllocError>
    ensures { OnOk result (out.new.items ≡
        out.old.items ++ flat_map (binary.instruction_bytes types.now) all.now) }
{
    for instruction in all {
        put_instruction(out, types, instruction)?;
    }
    Ok(())
}

/// Returns the instruction `i32.const 0`, the offset of an inline segment.
pub(crate) fn zero() -> Instruction
    ensures { result ∷ [] ≡ binary.at_zero }
{
    Instruction {
        opcode: Opcode::Byte(0x41),
        argument: Argument::I32(0),
    }
}

/// Appends an expression: its instructions, and `end`.
pub(crate) fn put_expression(
    out: &mut Vec<u8>,
    types: &IndexedTypes,
    instructions: &[Instruction],
) -> Result<(), AllocError>
    ensures { OnOk result (out.new.items ≡
        out.old.items ++ binary.expression_bytes types.now instructions.now) }
{
    put_instructions(out, types, instructions)?;
    out.push(0x0B)?;
    Ok(())
}
