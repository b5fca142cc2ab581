//! Messages of bodies that are not valid.
ghost use Rattle.std.specs.Prelude.{◌≡◌, ◌++◌, IfOk, drop, false, length, map, reverse, slice_get, string_bytes, take};
ghost use Rattle.std.specs.List.{list_all};
ghost use Rattle.std.specs.Option.{option_map};
ghost use Rattle.wat_module_ast.specs.Views.{field_of, fields_of, function_of};
ghost use Rattle.wat_module_ast.specs.Types.{from_to};
ghost use Rattle.wat_valid.specs.Algorithm.{labels_of, operands};
ghost use Rattle.wat_valid.specs.BodyMessages as messages;
ghost use Rattle.wat_valid.specs.ContextViews.{body_context, context_of};
ghost use Rattle.wat_valid.specs.Contexts.{values};
ghost use Rattle.wat_valid.specs.FrameViews.{HasLabels, frame_of, frames_of};
ghost use Rattle.wat_valid.specs.Views.{labels_in, operands_of, signature_type};
ghost use Rattle.wat_valid.specs.Wants as wants;
ghost use Rattle.wat_valid.specs.Wants.{wants_view};

use crate::accepting::frames_after;
use crate::applying::has_values;
use crate::blocks::{Frame, Frames, is_if};
use crate::body::{BodyContext, body_of, label_at};
use crate::context::{Context, ModuleContext};
use crate::operands::{OperandType, Operands, push_values};
use crate::typing::Signature;
use crate::untyped::{Untyped, reason};
use crate::wanted::{Wanted, wanted_by};
use std::alloc::{AllocError, Global};
use std::fmt;
use wat_module_ast::branches::BranchTable;
use wat_module_ast::error::Space;
use wat_module_ast::fields::{Field, Function};
use wat_module_ast::implicit_types::types_of;
use wat_module_ast::instruction::{Argument, Instruction, Opcode, ReferenceType, ValueType};

/// Maximum number of types in a list.
const MOST_TYPES: usize = 32;

/// Returns the keyword of a reference type.
pub fn reference_name(of: ReferenceType) -> &'static str
    ensures { result.now ≡ messages.reference_name of }
{
    match of {
        ReferenceType::Func => "funcref",
        ReferenceType::Extern => "externref",
    }
}

/// Returns the keyword of a value type.
pub fn value_name(of: ValueType) -> &'static str
    ensures { result.now ≡ messages.value_name of }
{
    match of {
        ValueType::I32 => "i32",
        ValueType::I64 => "i64",
        ValueType::F32 => "f32",
        ValueType::F64 => "f64",
        ValueType::V128 => "v128",
        ValueType::Reference(of) => reference_name(of),
    }
}

/// Returns the name of the type of an operand. An operand in code that cannot be reached can have
/// any.
fn operand_name(of: OperandType) -> &'static str
    ensures { result.now ≡ messages.operand_name of }
{
    match of {
        OperandType::Bottom => "any",
        OperandType::Value(of) => value_name(of),
    }
}

/// Returns the last `count` types, or all if there are fewer.
fn last_of(types: &[OperandType], count: usize) -> &[OperandType]
    ensures { result.now ≡ messages.last_of count types.now }
{
    &types[types.len().saturating_sub(count)..]
}

/// Returns the word for further types below those of a list, if there are any.
fn further(alloc: Global, has_more: bool) -> Result<Vec<&'static str>, AllocError>
    ensures { IfOk result (λ names. map (λ n. n.now) names.items ≡ messages.further has_more) }
{
    let mut names = Vec::new(alloc);
    if has_more {
        names.push("...")?;
    }
    Ok(names)
}

/// Returns the names of types, after the word for further ones below them if there are any.
fn type_names(
    alloc: Global,
    types: &[OperandType],
    has_more: bool,
) -> Result<Vec<&'static str>, AllocError>
    ensures { IfOk result (λ names. map (λ n. n.now) names.items ≡
        messages.further has_more ++ map messages.operand_name types.now) }
{
    let mut names = further(alloc, has_more)?;
    for of in types {
        names.push(operand_name(*of))?;
    }
    Ok(names)
}

/// Returns the list of these words in brackets.
#[tactic(auto, using(crate::proofs::Texts::join_mapped))]
fn listed(alloc: Global, words: &[&'static str]) -> Result<String, AllocError>
    ensures { IfOk result (λ text. string_bytes text ≡
        messages.listed (map (λ w. w.now) words.now)) }
{
    let all = words.join(alloc, " ")?;
    format!(in alloc; "[{all}]")
}

/// Returns the list of the last `most` operands of a block, the top last.
fn operands_text(alloc: Global, operands: &Operands, most: usize) -> Result<String, AllocError>
    ensures { IfOk result (λ text. string_bytes text ≡
        messages.operands_text most (operands_of operands.now)) }
{
    let has_more = operands.is_unreachable || most < operands.types.len();
    let names = type_names(alloc, last_of(&operands.types, most), has_more)?;
    listed(alloc, &names)
}

/// Returns operands of these types, in code that can be reached.
fn operands_with(alloc: Global, types: &[ValueType]) -> Result<Operands, AllocError>
    ensures { IfOk result (λ o. operands_of o ≡ operands false (values types.now)) }
{
    let mut operands = Operands {
        types: Vec::new(alloc),
        is_unreachable: false,
    };
    push_values(&mut operands, types)?;
    Ok(operands)
}

/// Returns the list of value types.
fn types_text(alloc: Global, types: &[ValueType]) -> Result<String, AllocError>
    ensures { IfOk result (λ text. string_bytes text ≡ messages.types_text types.now) }
{
    let operands = operands_with(alloc, types)?;
    operands_text(alloc, &operands, MOST_TYPES)
}

/// Returns value types, and the type `i32` after them.
fn with_index(alloc: Global, types: &[ValueType]) -> Result<Vec<ValueType>, AllocError>
    ensures { IfOk result (λ all. all.items ≡ messages.with_index types.now) }
{
    let mut all = Vec::new(alloc);
    all.extend_from_slice(types)?;
    all.push(ValueType::I32)?;
    Ok(all)
}

/// Returns the list of value types, and the type `i32` after them.
fn indexed_text(alloc: Global, types: &[ValueType]) -> Result<String, AllocError>
    ensures { IfOk result (λ text. string_bytes text ≡
        messages.types_text (messages.with_index types.now)) }
{
    let all = with_index(alloc, types)?;
    types_text(alloc, &all)
}

/// Returns the list of the operands of a signature.
fn signature_text(alloc: Global, signature: Signature) -> Result<String, AllocError>
    ensures { IfOk result (λ text. string_bytes text ≡
        messages.types_text (signature_type signature).params) }
{
    match signature {
        Signature::None(_) => types_text(alloc, &[]),
        Signature::One(first, _) => types_text(alloc, &[first]),
        Signature::Two(first, second, _) => types_text(alloc, &[first, second]),
        Signature::Three(first, second, third, _) => types_text(alloc, &[first, second, third]),
    }
}

/// Returns what an instruction takes, as a message has it.
fn wanted_text(alloc: Global, wanted: Wanted<'_>) -> Result<String, AllocError>
    ensures { IfOk result (λ text. string_bytes text ≡
        messages.wants_text (wants_view wanted.entry)) }
{
    match wanted {
        Wanted::Signature(signature) => signature_text(alloc, signature),
        Wanted::Types(types) => types_text(alloc, types),
        Wanted::TypesAndNumber(types) => indexed_text(alloc, types),
        Wanted::AnyType => String::from_str(alloc, "an operand"),
        Wanted::TwoNumbers => {
            String::from_str(alloc, "[t t i32] with a number or vector type t")
        }
        Wanted::Reference => String::from_str(alloc, "a reference"),
        Wanted::LabelTypes => String::from_str(alloc, "the types of its labels"),
    }
}

/// Returns the number of operands of a signature.
fn param_count(signature: Signature) -> usize
    ensures { result ≡ length (signature_type signature).params }
{
    match signature {
        Signature::None(_) => 0,
        Signature::One(_, _) => 1,
        Signature::Two(_, _, _) => 2,
        Signature::Three(_, _, _, _) => 3,
    }
}

/// Returns the smaller of a number and the maximum number of types in a list.
fn at_most(count: usize) -> usize
    ensures { result ≡ messages.at_most messages.most_types count }
{
    if count < MOST_TYPES {
        count
    } else {
        MOST_TYPES
    }
}

/// Returns the number of operands that are listed with what an instruction takes.
fn wanted_count(wanted: Wanted<'_>) -> usize
    ensures { result ≡ messages.wants_count (wants_view wanted.entry) }
{
    match wanted {
        Wanted::Signature(signature) => at_most(param_count(signature)),
        Wanted::Types(types) => at_most(types.len()),
        Wanted::TypesAndNumber(types) => at_most(types.len() + 1),
        Wanted::AnyType | Wanted::Reference => 1,
        Wanted::TwoNumbers => 3,
        Wanted::LabelTypes => MOST_TYPES,
    }
}

/// Returns what an instruction takes, and the last `most` operands that are there.
fn comparison(
    alloc: Global,
    wanted: Wanted<'_>,
    operands: &Operands,
    most: usize,
) -> Result<String, AllocError>
    ensures { IfOk result (λ text. string_bytes text ≡
        messages.comparison most (wants_view wanted.entry) (operands_of operands.now)) }
{
    let wanted = wanted_text(alloc, wanted)?;
    let found = operands_text(alloc, operands, most)?;
    format!(in alloc; "expected {wanted}, found {found}")
}

/// Returns the message of an instruction whose operands do not match what it takes.
fn mismatch(
    alloc: Global,
    wanted: Wanted<'_>,
    operands: &Operands,
    most: usize,
) -> Result<String, AllocError>
    ensures { IfOk result (λ text. string_bytes text ≡
        messages.mismatch most (wants_view wanted.entry) (operands_of operands.now)) }
{
    let text = comparison(alloc, wanted, operands, most)?;
    format!(in alloc; "type mismatch: {text}")
}

/// Returns the types of a label, or none if there is no such label.
fn label_types<'m>(labels: &[&'m [ValueType]], label: usize) -> &'m [ValueType]
    ensures { result.now ≡ messages.label_types (labels_in labels.now) label }
{
    match label_at(labels, label) {
        Some(types) => types,
        None => &[],
    }
}

/// Returns `true` if the operands match the types of a label, and an index above them.
fn label_matches(
    alloc: Global,
    labels: &[&[ValueType]],
    operands: &Operands,
    label: usize,
) -> Result<bool, AllocError>
    ensures { IfOk result (λ matches. matches ≡ messages.label_matches (labels_in labels.now)
        (operands_of operands.now) label) }
{
    let wanted = with_index(alloc, label_types(labels, label))?;
    Ok(has_values(operands, &wanted))
}

/// Returns the first of the labels of `br_table` that the operands do not match, or its default
/// label if there is none.
fn first_other(
    alloc: Global,
    labels: &[&[ValueType]],
    operands: &Operands,
    chosen: &[usize],
    last: usize,
) -> Result<usize, AllocError>
    ensures { IfOk result (λ label. label ≡ messages.first_other (labels_in labels.now)
        (operands_of operands.now) last chosen.now) }
{
    for label in chosen {
        if !label_matches(alloc, labels, operands, *label)? {
            return Ok(*label);
        }
    }
    Ok(last)
}

/// Returns `true` if two labels have the same number of types.
fn is_as_long(labels: &[&[ValueType]], last: usize, label: usize) -> bool
    ensures { result ≡ messages.is_as_long (labels_in labels.now) last label }
{
    label_types(labels, label).len() == label_types(labels, last).len()
}

/// Returns `true` if the labels of `br_table` have the same number of types.
fn are_as_long(labels: &[&[ValueType]], last: usize, chosen: &[usize]) -> bool
    ensures { result ≡ list_all (messages.is_as_long (labels_in labels.now) last) chosen.now }
{
    chosen.iter().all(|label| is_as_long(labels, last, *label))
}

/// Returns the message of a label of `br_table` that the operands do not match.
fn label_mismatch(
    alloc: Global,
    labels: &[&[ValueType]],
    operands: &Operands,
    label: usize,
) -> Result<String, AllocError>
    ensures { IfOk result (λ text. string_bytes text ≡ messages.label_mismatch
        (labels_in labels.now) (operands_of operands.now) label) }
{
    let wanted = with_index(alloc, label_types(labels, label))?;
    let count = at_most(wanted.len());
    let text = mismatch(alloc, Wanted::Types(&wanted), operands, count)?;
    format!(in alloc; "{text} for label {label}")
}

/// Returns the message of `br_table`, whose labels exist.
fn table_message(
    alloc: Global,
    labels: &[&[ValueType]],
    operands: &Operands,
    table: &BranchTable,
) -> Result<String, AllocError>
    ensures { IfOk result (λ text. string_bytes text ≡ messages.table_message
        (labels_in labels.now) (operands_of operands.now) table.now) }
{
    let last = table.last();
    if !are_as_long(labels, last, table.labels()) {
        return String::from_str(
            alloc,
            "labels of `br_table` have different numbers of types",
        );
    }
    let label = first_other(alloc, labels, operands, table.labels(), last)?;
    label_mismatch(alloc, labels, operands, label)
}

/// Returns an item of an index space.
fn noun(space: Space) -> &'static str
    ensures { result.now ≡ messages.noun space }
{
    match space {
        Space::Type => "type",
        Space::Func => "function",
        Space::Table => "table",
        Space::Memory => "memory",
        Space::Global => "global",
        Space::Elem => "element segment",
        Space::Data => "data segment",
        Space::Local => "local",
        Space::Label => "label",
    }
}

/// An instruction, by its index in the body of the function with this index.
#[derive(Clone, Copy)]
struct Place {
    /// Index of the function.
    function: usize,
    /// Index of the instruction, or the number of instructions for the end of the body.
    at: usize,
}

impl fmt::Display for Place {
    ghost use Rattle.std.specs.Prelude.{Some};
    ghost use Rattle.wat_valid.specs.BodyMessages.{not_valid};

    ghost output = { λ p. Some (not_valid p.function p.at) };

    fn fmt<W: fmt::Write>(&self, f: &mut fmt::Formatter<W>) -> fmt::Result {
        let Place { function, at } = self;
        write!(f, "instruction {at} of function {function} is not valid")
    }
}

/// Returns the message of an instruction or of an end of which nothing else is known.
fn not_valid(alloc: Global, place: Place) -> Result<String, AllocError>
    ensures { IfOk result (λ text. string_bytes text ≡
        messages.not_valid place.function place.at) }
{
    format!(in alloc; "{place}")
}

/// The reason for which an instruction has no type.
#[derive(Clone, Copy)]
struct Explained(Untyped, Place);

impl fmt::Display for Explained {
    ghost use Rattle.std.specs.Prelude.{Some};
    ghost use Rattle.wat_valid.specs.BodyMessages.{reason_text};

    ghost output = { λ e. Some (reason_text e.1.function e.1.at e.0) };

    fn fmt<W: fmt::Write>(&self, f: &mut fmt::Formatter<W>) -> fmt::Result {
        let Explained(reason, place) = self;
        match *reason {
            Untyped::Unknown(space, index) => write!(f, "unknown {} `{index}`", noun(space)),
            Untyped::ImmutableGlobal(index) => write!(f, "global `{index}` is immutable"),
            Untyped::UndeclaredFunction(index) => {
                write!(f, "undeclared function reference `{index}`")
            }
            Untyped::NoFunctions(index) => {
                write!(f, "elements of table `{index}` are not functions")
            }
            Untyped::OtherElements => write!(f, "types of elements differ"),
            Untyped::SelectTypes => write!(f, "`select` must list one type"),
            Untyped::Alignment => write!(f, "alignment must not be larger than natural"),
            Untyped::Lane => write!(f, "lane index out of range"),
            Untyped::AlignmentOrLane => write!(
                f,
                "alignment larger than natural, or lane index out of range"
            ),
            Untyped::Other => write!(f, "{place}"),
        }
    }
}

/// Returns the message of the `end` of an `if` without `else`, whose parameters are not its
/// results.
fn without_else(frame: &Frame<'_>, alloc: Global) -> Result<String, AllocError>
    ensures { IfOk result (λ text. string_bytes text ≡
        messages.without_else (from_to frame.now.params.now frame.now.results.now)) }
{
    let params = types_text(alloc, frame.params)?;
    let results = types_text(alloc, frame.results)?;
    format!(in alloc;
        "`if` without `else` must have equal parameters and results, found {params} and {results}"
    )
}

/// Returns `true` for `end`.
fn is_end(opcode: Opcode) -> bool
    ensures { result ≡ messages.is_end opcode }
{
    match opcode {
        Opcode::Byte(byte) => byte == 0x0B,
        Opcode::Prefixed(..) => false,
    }
}

/// Returns `true` for `else` and `end`.
fn ends_block(opcode: Opcode) -> bool
    ensures { result ≡ messages.ends_block opcode }
{
    match opcode {
        Opcode::Byte(byte) => byte == 0x05 || byte == 0x0B,
        Opcode::Prefixed(..) => false,
    }
}

/// Returns the message of an instruction that has no type, whatever the operands are.
fn untyped_message(
    alloc: Global,
    context: &BodyContext<'_>,
    frames: &Frames<'_>,
    instruction: &Instruction,
    place: Place,
) -> Result<String, AllocError>
    ensures { IfOk result (λ text. string_bytes text ≡ messages.untyped_message
        (body_context context.now) place.function place.at (labels_in frames.now.labels.items)
        (frame_of frames.now.current) instruction.now) }
{
    if is_if(frames.current.kind) && is_end(instruction.opcode) {
        return without_else(&frames.current, alloc);
    }
    let explained = Explained(reason(context, &frames.labels, instruction), place);
    format!(in alloc; "{explained}")
}

/// Returns the message of `br_table`, whose labels exist.
fn label_message(
    alloc: Global,
    frames: &Frames<'_>,
    argument: &Argument,
    place: Place,
) -> Result<String, AllocError>
    ensures { IfOk result (λ text. string_bytes text ≡ messages.label_message
        place.function place.at (labels_in frames.now.labels.items)
        (operands_of frames.now.current.operands) argument.now) }
{
    match argument {
        Argument::Labels(table) => {
            table_message(alloc, &frames.labels, &frames.current.operands, table)
        }
        _ => not_valid(alloc, place),
    }
}

/// Returns `true` for what `br_table` takes.
fn is_of_labels(wanted: Wanted<'_>) -> bool
    ensures { result ≡ messages.is_of_labels (wants_view wanted.entry) }
{
    matches!(wanted, Wanted::LabelTypes)
}

/// Returns the number of operands that are listed for an instruction: all of the block for `else`
/// and `end`, up to the maximum of a list, and otherwise as many as it takes.
fn listed_count(instruction: &Instruction, wanted: Wanted<'_>) -> usize
    ensures { result ≡ messages.listed_count instruction.now.opcode (wants_view wanted.entry) }
{
    if ends_block(instruction.opcode) {
        MOST_TYPES
    } else {
        wanted_count(wanted)
    }
}

/// Returns the message of an instruction whose operands do not match what it takes.
fn typed_message(
    alloc: Global,
    frames: &Frames<'_>,
    instruction: &Instruction,
    wanted: Wanted<'_>,
    place: Place,
) -> Result<String, AllocError>
    ensures { IfOk result (λ text. string_bytes text ≡ messages.typed_message
        place.function place.at (labels_in frames.now.labels.items)
        (operands_of frames.now.current.operands) instruction.now (wants_view wanted.entry)) }
{
    if is_of_labels(wanted) {
        return label_message(alloc, frames, &instruction.argument, place);
    }
    let count = listed_count(instruction, wanted);
    mismatch(alloc, wanted, &frames.current.operands, count)
}

/// Returns the message of an instruction that is not valid in the innermost of these frames.
fn instruction_message<'m>(
    alloc: Global,
    context: &BodyContext<'m>,
    frames: &Frames<'m>,
    instruction: &'m Instruction,
    place: Place,
) -> Result<String, AllocError>
    requires { HasLabels frames.now }
    ensures { IfOk result (λ text. string_bytes text ≡ messages.instruction_message
        (body_context context.now) place.function place.at (labels_of (frames_of frames.now))
        (frame_of frames.now.current) instruction.now
        (wants.wants (body_context context.now) (frames_of frames.now) instruction.now)) }
{
    match wanted_by(context, frames, instruction) {
        Some(wanted) => typed_message(alloc, frames, instruction, wanted, place),
        None => untyped_message(alloc, context, frames, instruction, place),
    }
}

/// Returns the message of the end of a body, at which the operands are not the results of the
/// function.
fn end_message(alloc: Global, frame: &Frame<'_>, place: Place) -> Result<String, AllocError>
    ensures { IfOk result (λ text. string_bytes text ≡
        messages.end_message place.function (frame_of frame.now)) }
{
    let text = comparison(
        alloc,
        Wanted::Types(frame.results),
        &frame.operands,
        MOST_TYPES,
    )?;
    let function = place.function;
    format!(in alloc; "type mismatch at the end of function {function}: {text}")
}

/// Returns the message of the next instruction, or of the end of the body, after these frames.
fn next_message<'m>(
    alloc: Global,
    context: &BodyContext<'m>,
    frames: &Frames<'m>,
    instructions: &'m [Instruction],
    place: Place,
) -> Result<String, AllocError>
    requires { HasLabels frames.now }
    ensures { IfOk result (λ text. string_bytes text ≡ messages.next_message
        (body_context context.now) place.function place.at (frame_of frames.now.current)
        (reverse (map frame_of frames.now.outer.items)) (drop place.at instructions.now)) }
{
    match instructions.get(place.at) {
        Some(instruction) => instruction_message(alloc, context, frames, instruction, place),
        None => end_message(alloc, &frames.current, place),
    }
}

/// Returns the instructions before the one with the index `at`.
fn instructions_before(instructions: &[Instruction], at: usize) -> &[Instruction]
    ensures { result.now ≡ take at instructions.now }
{
    instructions.get(..at).unwrap_or(instructions)
}

/// Returns the message of a body in its context.
fn message_in(
    alloc: Global,
    context: &BodyContext<'_>,
    instructions: &[Instruction],
    place: Place,
) -> Result<String, AllocError>
    ensures { IfOk result (λ text. string_bytes text ≡ messages.in_context
        (body_context context.now) instructions.now context.now.results.now
        place.function place.at) }
{
    match frames_after(alloc, context, instructions_before(instructions, place.at))? {
        Ok(frames) => next_message(alloc, context, &frames, instructions, place),
        Err(_) => not_valid(alloc, place),
    }
}

/// Returns the message of the body of a function in the context of its module.
fn function_message(
    alloc: Global,
    context: &Context<'_>,
    function: &Function<'_>,
    place: Place,
) -> Result<String, AllocError>
    ensures { IfOk result (λ text. string_bytes text ≡ messages.function_message
        (context_of context.now) (function_of function.now) place.function place.at) }
{
    match body_of(alloc, context, function)? {
        Some(body) => message_in(alloc, &body, &function.body, place),
        None => not_valid(alloc, place),
    }
}

/// Returns the message of the body of a function in the context of its module.
fn field_message(
    alloc: Global,
    context: &Context<'_>,
    field: Option<&Field<'_>>,
    place: Place,
) -> Result<String, AllocError>
    ensures { IfOk result (λ text. string_bytes text ≡ messages.field_message
        (context_of context.now) (option_map (λ f. field_of f.now) field.entry)
        place.function place.at) }
{
    match field {
        Some(Field::Func(function)) => function_message(alloc, context, function, place),
        _ => not_valid(alloc, place),
    }
}

/// Returns the field with this index.
fn field_at<'f, 'a>(fields: &'f [Field<'a>], field: usize) -> Option<&'f Field<'a>>
    ensures { option_map (λ f. field_of f.now) result ≡ slice_get (fields_of fields.now) field }
{
    fields.get(field)
}

/// Returns the message of a function whose body is not valid, by the index of its field and its
/// index among the functions. The body has its first error at the instruction with the index `at`,
/// or at its end if this is the number of instructions.
///
/// # Errors
///
/// Fails if an allocation fails.
pub fn body_message(
    alloc: Global,
    fields: &[Field<'_>],
    field: usize,
    function: usize,
    at: usize,
) -> Result<String, AllocError>
    ensures { IfOk result (λ text. string_bytes text ≡
        messages.body_message (fields_of fields.now) field function at) }
{
    let types = types_of(alloc, fields)?;
    let context = ModuleContext::new(alloc, types.as_slice(), fields)?;
    let place = Place { function, at };
    field_message(alloc, &context.full(), field_at(fields, field), place)
}
