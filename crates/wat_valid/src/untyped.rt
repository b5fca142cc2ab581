//! The reasons for which an instruction has no type in its context, whatever the operands are.
ghost use Rattle.std.specs.Prelude.{◌≡◌};
ghost use Rattle.wat_module_ast.specs.TypeViews.{use_of};
ghost use Rattle.wat_valid.specs.ContextViews.{body_context};
ghost use Rattle.wat_valid.specs.Untyped as reasons;
ghost use Rattle.wat_valid.specs.Views.{labels_in};

use crate::body::{BodyContext, label_at, local_at};
use wat_module_ast::branches::BranchTable;
use wat_module_ast::error::Space;
use wat_module_ast::instruction::{Argument, Instruction, Opcode, ValueType};
use wat_module_ast::types::TypeUse;

/// The reason for which an instruction has no type in its context, whatever the operands are.
#[derive(Clone, Copy)]
pub enum Untyped {
    /// An index space has no item with this index.
    Unknown(Space, usize),
    /// The global with this index, which the instruction sets, is immutable.
    ImmutableGlobal(usize),
    /// The function with this index, to which `ref.func` refers, is not declared.
    UndeclaredFunction(usize),
    /// The elements of the table with this index, through which the instruction calls, are not
    /// functions.
    NoFunctions(usize),
    /// The types of the elements of two tables, or of a table and an element segment, differ.
    OtherElements,
    /// `select` lists another number of types than one.
    SelectTypes,
    /// The alignment is larger than the natural one.
    Alignment,
    /// A lane index is out of range.
    Lane,
    /// The alignment is larger than the natural one, or the lane index is out of range.
    AlignmentOrLane,
    /// Another reason.
    Other,
}

/// Returns the reason for which an instruction has no type within blocks with these labels, the
/// innermost last. There must be such a reason.
pub fn reason(
    context: &BodyContext<'_>,
    labels: &[&[ValueType]],
    instruction: &Instruction,
) -> Untyped
    ensures { result ≡ reasons.reason (body_context context.now) (labels_in labels.now)
        instruction.now.opcode instruction.now.argument }
{
    let opcode = instruction.opcode;
    let memory = 0;
    match &instruction.argument {
        Argument::Index(index) => index_reason(context, labels, opcode, *index),
        Argument::Labels(table) => table_reason(context, labels, table),
        Argument::Indirect(call) => {
            let table = call.table();
            let after = use_reason(context, labels, call.uses(), Untyped::NoFunctions(table));
            unless_unknown(context, labels, Space::Table, table, after)
        }
        Argument::BlockUse(uses) => use_reason(context, labels, uses.uses(), Untyped::Other),
        Argument::Memory(_, _) => {
            unless_unknown(context, labels, Space::Memory, memory, Untyped::Alignment)
        }
        Argument::MemoryLane(_, _, _) => {
            unless_unknown(
                context,
                labels,
                Space::Memory,
                memory,
                Untyped::AlignmentOrLane,
            )
        }
        Argument::Zero | Argument::Zeros => {
            unless_unknown(context, labels, Space::Memory, memory, Untyped::Other)
        }
        Argument::IndexZero(index) => {
            let after = unless_unknown(context, labels, Space::Data, *index, Untyped::Other);
            unless_unknown(context, labels, Space::Memory, memory, after)
        }
        Argument::Pair(pair) => pair_reason(context, labels, opcode, pair.first(), pair.second()),
        Argument::Select(_) => Untyped::SelectTypes,
        Argument::Lane(_) | Argument::Bytes(_) => Untyped::Lane,
        _ => Untyped::Other,
    }
}

/// Returns `true` if an index space has an item with this index.
fn exists(context: &BodyContext<'_>, labels: &[&[ValueType]], space: Space, index: usize) -> bool
    ensures { result ≡ reasons.exists (body_context context.now) (labels_in labels.now)
        space index }
{
    let module = &context.module;
    match space {
        Space::Type => index < module.types.len(),
        Space::Func => index < module.functions.len(),
        Space::Table => index < module.tables.len(),
        Space::Memory => index < module.memories.len(),
        Space::Global => index < module.globals.len(),
        Space::Elem => index < module.elements.len(),
        Space::Data => index < module.data_count,
        Space::Local => local_at(context, index).is_some(),
        Space::Label => label_at(labels, index).is_some(),
    }
}

/// Returns `reason`, or that an index space has no item with this index.
fn unless_unknown(
    context: &BodyContext<'_>,
    labels: &[&[ValueType]],
    space: Space,
    index: usize,
    reason: Untyped,
) -> Untyped
    ensures { result ≡ reasons.unless_unknown (body_context context.now) (labels_in labels.now)
        space index reason }
{
    if exists(context, labels, space, index) {
        reason
    } else {
        Untyped::Unknown(space, index)
    }
}

/// Returns `reason`, or that the type of a type use does not exist.
fn use_reason(
    context: &BodyContext<'_>,
    labels: &[&[ValueType]],
    uses: &TypeUse,
    reason: Untyped,
) -> Untyped
    ensures { result ≡ reasons.use_reason (body_context context.now) (labels_in labels.now)
        (use_of uses.now) reason }
{
    match uses {
        TypeUse::Index(index) => unless_unknown(context, labels, Space::Type, *index, reason),
        TypeUse::Inline(_) => reason,
    }
}

/// Returns the reason for an instruction with one index.
fn index_reason(
    context: &BodyContext<'_>,
    labels: &[&[ValueType]],
    opcode: Opcode,
    index: usize,
) -> Untyped
    ensures { result ≡ reasons.index_reason (body_context context.now) (labels_in labels.now)
        opcode index (reasons.index_space opcode) }
{
    match index_space(opcode) {
        Some(space) => unless_unknown(context, labels, space, index, known_reason(opcode, index)),
        None => Untyped::Other,
    }
}

/// Returns the index space to which the one index of an instruction belongs, or `None` if the
/// instruction has no index, or more than one.
fn index_space(opcode: Opcode) -> Option<Space>
    ensures { result ≡ reasons.index_space opcode }
{
    match opcode {
        Opcode::Byte(byte) => byte_space(byte),
        Opcode::Prefixed(0xFC, number) => bulk_space(number),
        Opcode::Prefixed(..) => None,
    }
}

/// Returns the index space of the index of an instruction with a one-byte opcode.
fn byte_space(byte: u8) -> Option<Space>
    ensures { result ≡ reasons.byte_space byte }
{
    match byte {
        0x0C | 0x0D => Some(Space::Label),
        0x10 | 0xD2 => Some(Space::Func),
        0x20 | 0x21 | 0x22 => Some(Space::Local),
        0x23 | 0x24 => Some(Space::Global),
        0x25 | 0x26 => Some(Space::Table),
        _ => None,
    }
}

/// Returns the index space of the index of an instruction after the prefix 0xFC.
fn bulk_space(number: u8) -> Option<Space>
    ensures { result ≡ reasons.bulk_space number }
{
    match number {
        9 => Some(Space::Data),
        13 => Some(Space::Elem),
        15 | 16 | 17 => Some(Space::Table),
        _ => None,
    }
}

/// Returns the reason for an instruction whose one index exists.
fn known_reason(opcode: Opcode, index: usize) -> Untyped
    ensures { result ≡ reasons.known_reason opcode index }
{
    match opcode {
        Opcode::Byte(0x24) => Untyped::ImmutableGlobal(index),
        Opcode::Byte(0xD2) => Untyped::UndeclaredFunction(index),
        _ => Untyped::Other,
    }
}

/// Returns that the first label of `br_table` that does not exist is unknown.
fn table_reason(context: &BodyContext<'_>, labels: &[&[ValueType]], table: &BranchTable) -> Untyped
    ensures { result ≡ reasons.table_reason (body_context context.now) (labels_in labels.now)
        table.now }
{
    let last = unless_unknown(context, labels, Space::Label, table.last(), Untyped::Other);
    labels_reason(context, labels, table.labels(), last)
}

/// Returns that the first of these labels that does not exist is unknown, or `reason` if all exist.
fn labels_reason(
    context: &BodyContext<'_>,
    labels: &[&[ValueType]],
    chosen: &[usize],
    reason: Untyped,
) -> Untyped
    ensures { result ≡ reasons.labels_reason (body_context context.now) (labels_in labels.now)
        chosen.now reason }
{
    for label in chosen {
        if !exists(context, labels, Space::Label, *label) {
            return Untyped::Unknown(Space::Label, *label);
        }
    }
    reason
}

/// Returns the reason for an instruction with two indices, in the order of the binary format.
fn pair_reason(
    context: &BodyContext<'_>,
    labels: &[&[ValueType]],
    opcode: Opcode,
    first: usize,
    second: usize,
) -> Untyped
    ensures { result ≡ reasons.prefixed_pair_reason (body_context context.now)
        (labels_in labels.now) opcode first second }
{
    match opcode {
        Opcode::Prefixed(_, 12) => {
            let after = unless_unknown(context, labels, Space::Elem, first, Untyped::OtherElements);
            unless_unknown(context, labels, Space::Table, second, after)
        }
        Opcode::Prefixed(..) => {
            let after = unless_unknown(
                context,
                labels,
                Space::Table,
                second,
                Untyped::OtherElements,
            );
            unless_unknown(context, labels, Space::Table, first, after)
        }
        Opcode::Byte(_) => Untyped::Other,
    }
}
