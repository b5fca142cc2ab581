//! The syntax tree of instructions.

use crate::branches::BranchTable;
use crate::pairs::IndexPair;
use crate::types::{BoxedUse, IndirectCall, SelectTypes};
use crate::vectors::VectorBytes;

/// A reference type: `funcref` or `externref`.
#[derive(Clone, Copy, PartialEq, Eq)]
pub enum ReferenceType {
    Func,
    Extern,
}

/// A value type: a number type, the vector type, or a reference type.
#[derive(Clone, Copy, PartialEq, Eq)]
pub enum ValueType {
    I32,
    I64,
    F32,
    F64,
    V128,
    Reference(ReferenceType),
}

/// The immediates of an instruction. Those of more than 8 bytes are boxed: a text may have millions
/// of instructions, few of which have such immediates.
#[derive(Drop)]
pub enum Argument {
    /// No immediate.
    Nothing,
    /// Index of an item or a label.
    Index(usize),
    /// Label indices of `br_table`.
    Labels(BranchTable),
    /// Value of `i32.const`.
    I32(i32),
    /// Value of `i64.const`.
    I64(i64),
    /// Bits of a 32-bit float.
    F32(u32),
    /// Bits of a 64-bit float.
    F64(u64),
    /// Table index and type use of `call_indirect`.
    Indirect(IndirectCall),
    /// A block type with at most one result and no type index.
    Block(Option<ValueType>),
    /// A block type that is a type use.
    BlockUse(BoxedUse),
    /// A memory argument: the exponent of its alignment, and its offset.
    Memory(u8, u32),
    /// A zero byte, which the text does not have.
    Zero,
    /// Heap type of `ref.null`.
    HeapType(ReferenceType),
    /// Result types of `select`, if it lists them.
    Select(SelectTypes),
    /// Two zero bytes, which the text does not have.
    Zeros,
    /// An index, and a zero byte after it, which the text does not have.
    IndexZero(usize),
    /// Two indices, in the order of the binary format.
    Pair(IndexPair),
    /// A lane index.
    Lane(u8),
    /// A memory argument, by the exponent of its alignment and its offset, and a lane index.
    MemoryLane(u8, u32, u8),
    /// The 16 bytes of `v128.const` or `i8x16.shuffle`.
    Bytes(VectorBytes),
}

/// Opcode of an instruction in the binary format.
#[derive(Clone, Copy)]
pub enum Opcode {
    /// A single byte.
    Byte(u8),
    /// A prefix byte, and an integer after it, which is encoded in LEB128.
    Prefixed(u8, u8),
}

/// An instruction of the binary format. `else` and `end` are instructions of their own.
#[derive(Drop)]
pub struct Instruction {
    pub opcode: Opcode,
    pub argument: Argument,
}
