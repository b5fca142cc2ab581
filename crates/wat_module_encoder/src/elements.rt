//! Encodes the element section.
ghost use Rattle.std.specs.Prelude.{◌≡◌, ◌+◌, ◌++◌, ◌∷◌, [], OnOk, IfOk, MatchOption, map, None};
ghost use Rattle.std.specs.Prelude.{Some};
ghost use Rattle.wat_module_ast.specs.Fields as grammar;
ghost use Rattle.wat_module_ast.specs.Views.{field_of, fields_of, expression_of, expressions_of};
ghost use Rattle.wat_module_ast.specs.Views.{mode_of};
ghost use Rattle.wat_module_encoder.specs.Binary as binary;
ghost use Rattle.wat_module_encoder.specs.Views.{counts_of, element_target_of, element_segment_of};
ghost use Rattle.wat_module_encoder.specs.Views.{elements_by};

use crate::bytes::{put, put_section};
use crate::indices::{Counts, NO_ITEMS, counted};
use crate::instructions::{put_expression, zero};
use std::alloc::{AllocError, Global};
use wat_module_ast::fields::{ElemMode, Elements, Export, Field, Import, Target};
use wat_module_ast::indexed_types::IndexedTypes;
use wat_module_ast::instruction::{Argument, Instruction, Opcode, ReferenceType};
use wat_module_ast::types::reference_byte;

/// The mode of an element segment, and the destination of an active one.
#[derive(Clone, Copy)]
pub(crate) enum ElementTarget<'f> {
    Passive,
    Declarative,
    /// The target of an active segment.
    At(&'f Target),
    /// Offset 0 of the table with this index: the segment is inline in the table's field.
    Begin(usize),
}

/// An element segment: an `elem` field, or the inline elements of a table.
#[derive(Clone, Copy)]
pub(crate) struct ElementSegment<'f> {
    /// The mode, and the target of an active segment.
    place: ElementTarget<'f>,
    /// Reference type of the elements.
    of: ReferenceType,
    /// Function indices, or expressions, as in the source.
    elements: &'f Elements,
}

/// Returns the mode of an `elem` field as a target.
fn elem_place(mode: &ElemMode) -> ElementTarget<'_>
    ensures { element_target_of result ≡ mode_of mode.now }
{
    match mode {
        ElemMode::Passive => ElementTarget::Passive,
        ElemMode::Active(target) => ElementTarget::At(target),
        ElemMode::Declarative => ElementTarget::Declarative,
    }
}

/// Appends the element segment that a field defines: an `elem` field, or a table with elements.
/// `counts` has the lengths of the index spaces before the field.
fn push_elements<'f>(
    segments: &mut Vec<ElementSegment<'f>>,
    counts: Counts,
    field: &'f Field<'_>,
) -> Result<(), AllocError>
    ensures { OnOk result (map element_segment_of segments.new.items ≡
        map element_segment_of segments.old.items ++
        elements_by (counts_of counts) (field_of field.now)) }
{
    match field {
        Field::Elem(elem) => {
            segments.push(ElementSegment {
                place: elem_place(&elem.mode),
                of: elem.of,
                elements: &elem.elements,
            })?;
            Ok(())
        }
        Field::Table(table) => match &table.elements {
            Some(elements) => {
                segments.push(ElementSegment {
                    place: ElementTarget::Begin(counts.tables),
                    of: table.of.element,
                    elements,
                })?;
                Ok(())
            }
            None => Ok(()),
        },
        Field::Type(_)
        | Field::Import(_)
        | Field::Func(_)
        | Field::Memory(_)
        | Field::Global(_)
        | Field::Export(_)
        | Field::Start(_)
        | Field::Data(_) => Ok(()),
    }
}

/// Returns the element segments of a module in the order of the source, inline ones included.
#[tactic(auto, unfolding(crate::specs::Binary::elements_of))]
pub(crate) fn elements_of<'f>(
    alloc: Global,
    fields: &'f [Field<'_>],
) -> Result<Vec<ElementSegment<'f>>, AllocError>
    ensures { IfOk result (λ segments. map element_segment_of segments.items ≡
        binary.elements_of (fields_of fields.now)) }
{
    let mut segments = Vec::new(alloc);
    let mut counts = NO_ITEMS;
    for field in fields {
        push_elements(&mut segments, counts, field)?;
        counts = counted(counts, field);
    }
    Ok(segments)
}

/// Returns `true` if the opcode is the single byte `byte`.
fn is_byte(byte: u8, opcode: Opcode) -> bool
    ensures { result ≡ binary.is_byte byte opcode }
{
    match opcode {
        Opcode::Byte(of) => of == byte,
        Opcode::Prefixed(_, _) => false,
    }
}

/// Returns the instruction `ref.func index`.
fn ref_func(index: usize) -> Instruction
    ensures { result ∷ [] ≡ grammar.ref_func index }
{
    Instruction {
        opcode: Opcode::Byte(0xD2),
        argument: Argument::Index(index),
    }
}

/// Returns the function index of an expression that is one `ref.func`, or `None` for any other
/// expression.
fn function_in(instructions: &[Instruction]) -> Option<usize>
    ensures { result ≡ binary.function_in instructions.now }
{
    match instructions {
        [instruction] => {
            if !is_byte(0xD2, instruction.opcode) {
                return None;
            }
            index_of(&instruction.argument)
        }
        _ => None,
    }
}

/// Returns the index that is the immediate of an instruction, or `None` for any other immediate.
fn index_of(argument: &Argument) -> Option<usize>
    ensures { result ≡ binary.index_of argument.now }
{
    match argument {
        Argument::Index(index) => Some(*index),
        _ => None,
    }
}

/// Returns the function indices of expressions, or `None` if one of them is not a single
/// `ref.func`.
fn functions_in(
    alloc: Global,
    expressions: &[Vec<Instruction>],
) -> Result<Option<Vec<usize>>, AllocError>
    ensures { IfOk result (λ o. MatchOption o
        (binary.functions_in (map expression_of expressions.now) ≡ None)
        (λ xs. binary.functions_in (map expression_of expressions.now) ≡ Some xs.items)) }
{
    let mut functions = Vec::new(alloc);
    for expression in expressions {
        match function_in(expression) {
            Some(index) => functions.push(index)?,
            None => return Ok(None),
        }
    }
    Ok(Some(functions))
}

/// Returns the function indices of expressions of type `of`, or `None` if `of` is not `funcref` or
/// one of them is not a single `ref.func`.
fn functions_by(
    alloc: Global,
    of: ReferenceType,
    expressions: &[Vec<Instruction>],
) -> Result<Option<Vec<usize>>, AllocError>
    ensures { IfOk result (λ o. MatchOption o
        (binary.functions_by of (map expression_of expressions.now) ≡ None)
        (λ xs. binary.functions_by of (map expression_of expressions.now) ≡ Some xs.items)) }
{
    match of {
        ReferenceType::Func => functions_in(alloc, expressions),
        ReferenceType::Extern => Ok(None),
    }
}

/// Appends the number of functions, and then each function index.
fn put_functions_of(out: &mut Vec<u8>, functions: &[usize]) -> Result<(), AllocError>
    ensures { OnOk result (out.new.items ≡ out.old.items ++ binary.index_list functions.now) }
{
    put(out, functions.len())?;
    for index in functions {
        put(out, *index)?;
    }
    Ok(())
}

/// Appends the number of elements, and then each element as an expression.
fn put_elements_of(
    out: &mut Vec<u8>,
    types: &IndexedTypes,
    elements: &Elements,
) -> Result<(), AllocError>
    ensures { OnOk result (out.new.items ≡
        out.old.items ++ binary.element_list types.now (expressions_of elements.now)) }
{
    match elements {
        Elements::Functions(functions) => put_references(out, types, functions),
        Elements::Expressions(expressions) => put_expressions(out, types, expressions),
    }
}

/// Appends the number of functions, and then the expression `ref.func` of each.
fn put_references(
    out: &mut Vec<u8>,
    types: &IndexedTypes,
    functions: &[usize],
) -> Result<(), AllocError>
    ensures { OnOk result (out.new.items ≡
        out.old.items ++ binary.element_list types.now (map grammar.ref_func functions.now)) }
{
    put(out, functions.len())?;
    for index in functions {
        put_expression(out, types, &[ref_func(*index)])?;
    }
    Ok(())
}

/// Appends the number of expressions, and then each expression.
fn put_expressions(
    out: &mut Vec<u8>,
    types: &IndexedTypes,
    expressions: &[Vec<Instruction>],
) -> Result<(), AllocError>
    ensures { OnOk result (out.new.items ≡
        out.old.items ++ binary.element_list types.now (map expression_of expressions.now)) }
{
    put(out, expressions.len())?;
    for expression in expressions {
        put_expression(out, types, expression)?;
    }
    Ok(())
}

/// Appends an active segment of function indices: with the flags `0x00` for table 0, otherwise with
/// `0x02` and the table index.
fn put_active_functions(
    out: &mut Vec<u8>,
    types: &IndexedTypes,
    index: usize,
    offset: &[Instruction],
    functions: &[usize],
) -> Result<(), AllocError>
    ensures { OnOk result (out.new.items ≡
        out.old.items ++
        binary.function_segment types.now (grammar.Active (grammar.target index offset.now))
        functions.now) }
{
    if index > 0 {
        out.push(0x02)?;
        put(out, index)?;
        put_expression(out, types, offset)?;
        out.push(0x00)?;
        return put_functions_of(out, functions);
    }
    out.push(0x00)?;
    put_expression(out, types, offset)?;
    put_functions_of(out, functions)
}

/// Appends an element segment whose elements are encoded as function indices.
fn put_function_segment(
    out: &mut Vec<u8>,
    types: &IndexedTypes,
    place: ElementTarget<'_>,
    functions: &[usize],
) -> Result<(), AllocError>
    ensures { OnOk result (out.new.items ≡
        out.old.items ++
        binary.function_segment types.now (element_target_of place.entry) functions.now) }
{
    match place {
        ElementTarget::Passive => {
            out.push(0x01)?;
            out.push(0x00)?;
            put_functions_of(out, functions)
        }
        ElementTarget::Declarative => {
            out.push(0x03)?;
            out.push(0x00)?;
            put_functions_of(out, functions)
        }
        ElementTarget::At(target) => put_active_functions(
            out,
            types,
            target.index,
            &target.offset,
            functions,
        ),
        ElementTarget::Begin(index) => put_active_functions(
            out,
            types,
            index,
            &[zero()],
            functions,
        ),
    }
}

/// Returns `true` if the type is `funcref`.
fn is_funcref(of: ReferenceType) -> bool
    ensures { result ≡ binary.is_funcref of }
{
    match of {
        ReferenceType::Func => true,
        ReferenceType::Extern => false,
    }
}

/// Appends an active segment of expressions: with the flags `0x04` for table 0 and `funcref`,
/// otherwise with `0x06`, the table index and the type.
fn put_active_elements(
    out: &mut Vec<u8>,
    types: &IndexedTypes,
    index: usize,
    offset: &[Instruction],
    of: ReferenceType,
    elements: &Elements,
) -> Result<(), AllocError>
    ensures { OnOk result (out.new.items ≡
        out.old.items ++
        binary.other_segment types.now (grammar.Active (grammar.target index offset.now)) of
        (expressions_of elements.now)) }
{
    if index == 0 && is_funcref(of) {
        out.push(0x04)?;
        put_expression(out, types, offset)?;
        return put_elements_of(out, types, elements);
    }
    out.push(0x06)?;
    put(out, index)?;
    put_expression(out, types, offset)?;
    out.push(reference_byte(of))?;
    put_elements_of(out, types, elements)
}

/// Appends an element segment whose elements are encoded as expressions.
fn put_other_segment(
    out: &mut Vec<u8>,
    types: &IndexedTypes,
    place: ElementTarget<'_>,
    of: ReferenceType,
    elements: &Elements,
) -> Result<(), AllocError>
    ensures { OnOk result (out.new.items ≡
        out.old.items ++
        binary.other_segment types.now (element_target_of place.entry) of
        (expressions_of elements.now)) }
{
    match place {
        ElementTarget::Passive => {
            out.push(0x05)?;
            out.push(reference_byte(of))?;
            put_elements_of(out, types, elements)
        }
        ElementTarget::Declarative => {
            out.push(0x07)?;
            out.push(reference_byte(of))?;
            put_elements_of(out, types, elements)
        }
        ElementTarget::At(target) => {
            put_active_elements(out, types, target.index, &target.offset, of, elements)
        }
        ElementTarget::Begin(index) => put_active_elements(
            out,
            types,
            index,
            &[zero()],
            of,
            elements,
        ),
    }
}

/// Appends a segment whose elements are the function indices `functions`. The encoding has indices
/// if the segment's type is `funcref`, and `ref.func` expressions otherwise.
#[tactic(auto, using(crate::proofs::FunctionElements::functions_of_indices))]
fn put_indices(
    out: &mut Vec<u8>,
    types: &IndexedTypes,
    segment: ElementSegment<'_>,
    functions: &[usize],
) -> Result<(), AllocError>
    requires { expressions_of segment.elements.now ≡ map grammar.ref_func functions.now }
    ensures { OnOk result (out.new.items ≡
        out.old.items ++ binary.elem_bytes types.now (element_segment_of segment.entry)) }
{
    match segment.of {
        ReferenceType::Func => put_function_segment(out, types, segment.place, functions),
        ReferenceType::Extern => {
            put_other_segment(out, types, segment.place, segment.of, segment.elements)
        }
    }
}

/// Appends a segment whose elements are `expressions`, as function indices if its type is `funcref`
/// and each expression is one `ref.func`.
fn put_items(
    alloc: Global,
    out: &mut Vec<u8>,
    types: &IndexedTypes,
    segment: ElementSegment<'_>,
    expressions: &[Vec<Instruction>],
) -> Result<(), AllocError>
    requires { expressions_of segment.elements.now ≡ map expression_of expressions.now }
    ensures { OnOk result (out.new.items ≡
        out.old.items ++ binary.elem_bytes types.now (element_segment_of segment.entry)) }
{
    match functions_by(alloc, segment.of, expressions)? {
        Some(functions) => put_function_segment(out, types, segment.place, &functions),
        None => put_other_segment(out, types, segment.place, segment.of, segment.elements),
    }
}

/// Appends an element segment in the encoding that `elem_bytes` defines.
fn put_element_segment(
    alloc: Global,
    out: &mut Vec<u8>,
    types: &IndexedTypes,
    segment: ElementSegment<'_>,
) -> Result<(), AllocError>
    ensures { OnOk result (out.new.items ≡
        out.old.items ++ binary.elem_bytes types.now (element_segment_of segment.entry)) }
{
    match segment.elements {
        Elements::Functions(functions) => put_indices(out, types, segment, functions),
        Elements::Expressions(expressions) => put_items(alloc, out, types, segment, expressions),
    }
}

/// Appends the element section: each of `segments`.
pub(crate) fn put_elements(
    alloc: Global,
    out: &mut Vec<u8>,
    types: &IndexedTypes,
    segments: &[ElementSegment<'_>],
) -> Result<(), AllocError>
    ensures { OnOk result (out.new.items ≡
        out.old.items ++
        binary.list_section 9 (binary.elem_bytes types.now)
        (map element_segment_of segments.now)) }
{
    let mut items = Vec::new(alloc);
    for segment in segments {
        put_element_segment(alloc, &mut items, types, *segment)?;
    }
    put_section(alloc, out, 9, segments.len(), &items)
}
