//! Encodes the data section and the data count section.
ghost use Rattle.std.specs.Prelude.{◌≡◌, ◌+◌, ◌-◌, ◌^◌, ◌++◌, OnOk, IfOk, length, map, min};
ghost use Rattle.std.specs.List.{flat_map, list_any};
ghost use Rattle.wat_module_ast.specs.Fields as grammar;
ghost use Rattle.wat_module_ast.specs.Views.{field_of, fields_of, together};
ghost use Rattle.wat_module_encoder.specs.Binary as binary;
ghost use Rattle.wat_module_encoder.specs.Views.{counts_of, data_by, data_target_of, segment_head};
ghost use Rattle.wat_module_encoder.specs.Views.{segment_of};

use crate::bytes::{put, put_head, put_sized};
use crate::indices::{Counts, NO_ITEMS, counted};
use crate::instructions::{put_instructions, zero};
use std::alloc::{AllocError, Global};
use wat_module_ast::fields::{Field, Target, len_of};
use wat_module_ast::indexed_types::IndexedTypes;
use wat_module_ast::instruction::{Instruction, Opcode};

/// The destination of a data segment.
#[derive(Clone, Copy)]
pub(crate) enum DataTarget<'f> {
    /// No destination, for a passive segment.
    Nowhere,
    /// The target of an active segment.
    At(&'f Target),
    /// Offset 0 of the memory with this index: the segment is inline in the memory's field.
    Begin(usize),
}

/// A data segment: a `data` field, or the inline data of a memory.
#[derive(Clone, Copy)]
pub(crate) struct Segment<'f> {
    /// The target, if the segment is active.
    place: DataTarget<'f>,
    /// Strings whose concatenation is the content of the segment.
    strings: &'f [&'f [u8]],
}

/// Appends the data segment that a field defines: a `data` field, or a memory with inline data.
/// `counts` has the lengths of the index spaces before the field.
fn push_data<'f>(
    segments: &mut Vec<Segment<'f>>,
    counts: Counts,
    field: &'f Field<'_>,
) -> Result<(), AllocError>
    ensures { OnOk result (map segment_of segments.new.items ≡
        map segment_of segments.old.items ++ data_by (counts_of counts) (field_of field.now)) }
{
    match field {
        Field::Data(data) => {
            let place = match &data.target {
                Some(target) => DataTarget::At(target),
                None => DataTarget::Nowhere,
            };
            segments.push(Segment {
                place,
                strings: &data.strings,
            })?;
            Ok(())
        }
        Field::Memory(memory) => match &memory.data {
            Some(strings) => {
                let place = DataTarget::Begin(counts.memories);
                segments.push(Segment { place, strings })?;
                Ok(())
            }
            None => Ok(()),
        },
        Field::Type(_)
        | Field::Import(_)
        | Field::Func(_)
        | Field::Table(_)
        | Field::Global(_)
        | Field::Export(_)
        | Field::Start(_)
        | Field::Elem(_) => Ok(()),
    }
}

/// Returns the data segments of a module in the order of the source, inline ones included.
#[tactic(auto, unfolding(crate::specs::Binary::data_of))]
pub(crate) fn data_of<'f>(
    alloc: Global,
    fields: &'f [Field<'_>],
) -> Result<Vec<Segment<'f>>, AllocError>
    ensures { IfOk result (λ segments. map segment_of segments.items ≡
        binary.data_of (fields_of fields.now)) }
{
    let mut segments = Vec::new(alloc);
    let mut counts = NO_ITEMS;
    for field in fields {
        push_data(&mut segments, counts, field)?;
        counts = counted(counts, field);
    }
    Ok(segments)
}

/// Appends the mode of an active data segment: `0x00` for memory 0, otherwise `0x02` and the memory
/// index; then the offset expression.
fn put_target(
    out: &mut Vec<u8>,
    types: &IndexedTypes,
    index: usize,
    offset: &[Instruction],
) -> Result<(), AllocError>
    ensures { OnOk result (out.new.items ≡
        out.old.items ++ binary.target_bytes types.now (grammar.target index offset.now)) }
{
    if index == 0 {
        out.push(0x00)?;
    } else {
        out.push(0x02)?;
        put(out, index)?;
    }
    put_instructions(out, types, offset)?;
    out.push(0x0B)?;
    Ok(())
}

/// Appends the mode of a data segment: `0x01` if it is passive, otherwise its memory and offset as
/// in `put_target`.
fn put_place(
    out: &mut Vec<u8>,
    types: &IndexedTypes,
    place: DataTarget<'_>,
) -> Result<(), AllocError>
    ensures { OnOk result (out.new.items ≡
        out.old.items ++ binary.mode_bytes types.now (data_target_of place.entry)) }
{
    match place {
        DataTarget::Nowhere => {
            out.push(0x01)?;
            Ok(())
        }
        DataTarget::At(target) => put_target(out, types, target.index, &target.offset),
        DataTarget::Begin(index) => put_target(out, types, index, &[zero()]),
    }
}

/// Appends the concatenation of strings, without their length.
fn put_strings(out: &mut Vec<u8>, strings: &[&[u8]]) -> Result<(), AllocError>
    ensures { OnOk result (out.new.items ≡ out.old.items ++ together strings.now) }
{
    for string in strings {
        out.extend_from_slice(string)?;
    }
    Ok(())
}

/// Appends the mode and the length of a data segment, but not its content. Returns the length, in
/// bytes.
fn put_segment_head(
    out: &mut Vec<u8>,
    types: &IndexedTypes,
    segment: Segment<'_>,
) -> Result<usize, AllocError>
    ensures head { OnOk result (out.new.items ≡
        out.old.items ++ segment_head types.now (segment_of segment.entry)) }
    ensures len { IfOk result (λ len. len ≡ length (together segment.entry.strings.now)) }
{
    let len = len_of(segment.strings)?;
    put_place(out, types, segment.place)?;
    put(out, len)?;
    Ok(len)
}

/// Returns the total size of the encoded data segments, in bytes, or `usize::MAX` if it is greater.
fn segments_len(
    alloc: Global,
    types: &IndexedTypes,
    segments: &[Segment<'_>],
) -> Result<usize, AllocError>
    ensures { IfOk result (λ len. len ≡
        min (length (flat_map (binary.data_bytes types.now) (map segment_of segments.now)))
        (2 ^ 64 - 1)) }
{
    let mut all: usize = 0;
    for segment in segments {
        let mut head = Vec::new(alloc);
        let len = put_segment_head(&mut head, types, *segment)?;
        all = all.saturating_add(head.len()).saturating_add(len);
    }
    Ok(all)
}

/// Appends the data section. Computes its size before it appends anything, so that the content of
/// the segments, which may be most of the module, is copied only once.
pub(crate) fn put_data(
    alloc: Global,
    out: &mut Vec<u8>,
    types: &IndexedTypes,
    segments: &[Segment<'_>],
) -> Result<(), AllocError>
    ensures { OnOk result (out.new.items ≡
        out.old.items ++
        binary.list_section 11 (binary.data_bytes types.now) (map segment_of segments.now)) }
{
    if segments.is_empty() {
        return Ok(());
    }
    let len = segments_len(alloc, types, segments)?;
    put_head(alloc, out, 11, segments.len(), len)?;
    for segment in segments {
        put_segment_head(out, types, *segment)?;
        put_strings(out, segment.strings)?;
    }
    Ok(())
}

/// Returns `true` if an instruction is `memory.init` or `data.drop`.
fn has_data_index(instruction: &Instruction) -> bool
    ensures { result ≡ binary.has_data_index instruction.now }
{
    match instruction.opcode {
        Opcode::Byte(_) => false,
        Opcode::Prefixed(prefix, number) => prefix == 0xFC && (number == 8 || number == 9),
    }
}

/// Returns `true` if one of the instructions is `memory.init` or `data.drop`.
fn have_data_index(instructions: &[Instruction]) -> bool
    ensures { result ≡ list_any binary.has_data_index instructions.now }
{
    for instruction in instructions {
        if has_data_index(instruction) {
            return true;
        }
    }
    false
}

/// Returns `true` if a field requires the data count section: a function whose body contains
/// `memory.init` or `data.drop`.
fn needs_data_count(field: &Field<'_>) -> bool
    ensures { result ≡ binary.needs_data_count (field_of field.now) }
{
    match field {
        Field::Func(function) => have_data_index(&function.body),
        Field::Type(_)
        | Field::Import(_)
        | Field::Table(_)
        | Field::Memory(_)
        | Field::Global(_)
        | Field::Export(_)
        | Field::Start(_)
        | Field::Elem(_)
        | Field::Data(_) => false,
    }
}

/// Returns `true` if one of the fields requires the data count section.
fn need_data_count(fields: &[Field<'_>]) -> bool
    ensures { result ≡ list_any binary.needs_data_count (fields_of fields.now) }
{
    for field in fields {
        if needs_data_count(field) {
            return true;
        }
    }
    false
}

/// Appends the data count section, if one of the fields requires it. `segments` must be the data
/// segments of `fields`.
pub(crate) fn put_data_count(
    alloc: Global,
    out: &mut Vec<u8>,
    fields: &[Field<'_>],
    segments: &[Segment<'_>],
) -> Result<(), AllocError>
    requires { map segment_of segments.now ≡ binary.data_of (fields_of fields.now) }
    ensures { OnOk result (out.new.items ≡
        out.old.items ++ binary.data_count_section (fields_of fields.now)) }
{
    if !need_data_count(fields) {
        return Ok(());
    }
    let mut content = Vec::new(alloc);
    put(&mut content, segments.len())?;
    out.push(12)?;
    put_sized(out, &content)
}
