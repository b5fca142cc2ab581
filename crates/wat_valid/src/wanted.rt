//! The operands that an instruction takes (WebAssembly 2.0, 3.3).
ghost use Rattle.std.specs.Prelude.{◌≡◌, ◌&&◌, ◌∷◌, None, Some, [], drop, if◌then◌else◌, length, nat_lt, slice_get};
ghost use Rattle.std.specs.List.{list_all};
ghost use Rattle.std.specs.Option.{option_map};
ghost use Rattle.wat_module_ast.specs.declared.instruction.Opcode.TheVariants as opcodes;
ghost use Rattle.wat_module_ast.specs.declared.instruction.ReferenceType.TheVariants as reference;
ghost use Rattle.wat_valid.specs.Algorithm as algorithm;
ghost use Rattle.wat_valid.specs.ContextViews.{body_context, context_of};
ghost use Rattle.wat_valid.specs.FrameViews.{HasLabels, frames_of, kind_of};
ghost use Rattle.wat_valid.specs.Instructions as rules;
ghost use Rattle.wat_valid.specs.Algorithm.{Effect};
ghost use Rattle.wat_valid.specs.Views.{labels_in};
ghost use Rattle.wat_valid.specs.Wants as wants;
ghost use Rattle.wat_valid.specs.Wants.{named, wants_of};

use crate::blocks::{FrameKind, Frames, block_type, is_if, may_end};
use crate::body::{BodyContext, label_at, local_at};
use crate::condition::holds;
use crate::context::{Context, function_at, is_declared, use_type};
use crate::control::has_functions;
use crate::typing::{Signature, find};
use wat_module_ast::branches::BranchTable;
use wat_module_ast::instruction::{Argument, Instruction, Opcode, ValueType};

/// The operands that an instruction takes. The last type of a list is that of the top.
#[derive(Clone, Copy)]
pub enum Wanted<'m> {
    /// The operands of this signature.
    Signature(Signature),
    /// Operands of these types.
    Types(&'m [ValueType]),
    /// Operands of these types, and an `i32` above them.
    TypesAndNumber(&'m [ValueType]),
    /// One operand of any type.
    AnyType,
    /// Two operands of one number or vector type, and an `i32` above them.
    TwoNumbers,
    /// A reference.
    Reference,
    /// An `i32`, and operands below it that match the types of each label of `br_table`.
    LabelTypes,
}

/// No operands.
const NOTHING: Signature = Signature::None(None);

/// Three operands of type `i32`.
const THREE: Signature = Signature::Three(ValueType::I32, ValueType::I32, ValueType::I32, None);

/// Returns what an instruction takes in the innermost frame, or `None` if it has no type there,
/// whatever the operands are.
pub fn wanted_by<'m>(
    context: &BodyContext<'m>,
    frames: &Frames<'m>,
    instruction: &'m Instruction,
) -> Option<Wanted<'m>>
    requires { HasLabels frames.now }
    ensures { named result ≡ wants.wants (body_context context.now) (frames_of frames.now)
        instruction.now }
{
    let Opcode::Byte(byte) = instruction.opcode else {
        return wanted_plain(context, &frames.labels, instruction);
    };
    if byte == 0x02 {
        return wanted_block(context, FrameKind::Block, &instruction.argument);
    }
    if byte == 0x03 {
        return wanted_block(context, FrameKind::Loop, &instruction.argument);
    }
    if byte == 0x04 {
        return wanted_block(context, FrameKind::If, &instruction.argument);
    }
    if byte == 0x05 {
        return wanted_results(frames, is_if(frames.current.kind));
    }
    if byte == 0x0B {
        return wanted_results(frames, may_end(&frames.current));
    }
    wanted_plain(context, &frames.labels, instruction)
}

/// Returns the results of the innermost block, if it may end so.
fn wanted_results<'m>(frames: &Frames<'m>, may_end: bool) -> Option<Wanted<'m>>
    ensures { named result ≡ (if may_end then Some (wants.Types frames.now.current.results.now)
        else None) }
{
    if may_end {
        Some(Wanted::Types(frames.current.results))
    } else {
        None
    }
}

/// Returns what a block of this kind takes.
fn wanted_block<'m>(
    context: &BodyContext<'m>,
    kind: FrameKind,
    argument: &'m Argument,
) -> Option<Wanted<'m>>
    ensures { named result ≡ option_map (wants.wants_params (kind_of kind))
        (rules.block_type (body_context context.now).types argument.now) }
{
    match (block_type(context.module.types, argument), kind) {
        (Some((params, _)), FrameKind::If) => Some(Wanted::TypesAndNumber(params)),
        (Some((params, _)), _) => Some(Wanted::Types(params)),
        (None, _) => None,
    }
}

/// Returns what an instruction other than `block`, `loop`, `if`, `else` and `end` takes, within
/// blocks with these labels, the innermost last.
fn wanted_plain<'m>(
    context: &BodyContext<'m>,
    labels: &[&'m [ValueType]],
    instruction: &'m Instruction,
) -> Option<Wanted<'m>>
    ensures { named result ≡ option_map wants_of (algorithm.effect_of (body_context context.now)
        (labels_in labels.now) instruction.now.opcode instruction.now.argument) }
{
    let argument = &instruction.argument;
    match find(instruction.opcode) {
        Some(of) => {
            if !holds(of.condition, argument, !context.module.memories.is_empty()) {
                return None;
            }
            Some(Wanted::Signature(of.signature))
        }
        None => wanted_own(context, labels, instruction),
    }
}

/// Returns what an instruction with a rule of its own takes.
fn wanted_own<'m>(
    context: &BodyContext<'m>,
    labels: &[&'m [ValueType]],
    instruction: &'m Instruction,
) -> Option<Wanted<'m>>
    ensures { named result ≡ option_map wants_of (algorithm.effect_by instruction.now.opcode
        instruction.now.argument (algorithm.own_rules (body_context context.now)
        (labels_in labels.now))) }
{
    let argument = &instruction.argument;
    match instruction.opcode {
        Opcode::Byte(byte) => wanted_control(context, labels, byte, argument),
        Opcode::Prefixed(0xFC, number) => wanted_bulk(&context.module, number, argument),
        Opcode::Prefixed(..) => None,
    }
}

/// Returns what an instruction of control takes, or another with a one-byte opcode.
fn wanted_control<'m>(
    context: &BodyContext<'m>,
    labels: &[&'m [ValueType]],
    byte: u8,
    argument: &'m Argument,
) -> Option<Wanted<'m>>
    ensures { named result ≡ option_map wants_of (algorithm.effect_by (opcodes.Byte byte)
        argument.now (algorithm.own_rules (body_context context.now) (labels_in labels.now))) }
{
    if byte == 0x00 {
        return wanted_alone(argument, Wanted::Signature(NOTHING));
    }
    if byte == 0x0C {
        return wanted_at_label(labels, argument);
    }
    if byte == 0x0D {
        return wanted_below_condition(labels, argument);
    }
    if byte == 0x0E {
        return wanted_at_labels(labels, argument);
    }
    if byte == 0x0F {
        return wanted_alone(argument, Wanted::Types(context.results));
    }
    if byte == 0x10 {
        return wanted_by_call(&context.module, argument);
    }
    if byte == 0x11 {
        return wanted_by_indirect_call(&context.module, argument);
    }
    wanted_parametric(context, byte, argument)
}

/// Returns `of`, if there is no immediate.
fn wanted_alone<'m>(argument: &Argument, of: Wanted<'m>) -> Option<Wanted<'m>>
    ensures { (e : Effect) → wants_of e ≡ wants.wants_view of.entry →
        named result ≡ option_map wants_of (algorithm.by_nothing (Some e) argument.now) }
{
    match argument {
        Argument::Nothing => Some(of),
        _ => None,
    }
}

/// Returns what `br` takes: the types of its label.
fn wanted_at_label<'m>(labels: &[&'m [ValueType]], argument: &Argument) -> Option<Wanted<'m>>
    ensures { named result ≡ option_map wants_of (algorithm.by_index (λ l.
        option_map algorithm.Leave (slice_get (labels_in labels.now) l)) argument.now) }
{
    let Argument::Index(label) = argument else {
        return None;
    };
    match label_at(labels, *label) {
        Some(types) => Some(Wanted::Types(types)),
        None => None,
    }
}

/// Returns what `br_if` takes: the types of its label, and a condition.
fn wanted_below_condition<'m>(labels: &[&'m [ValueType]], argument: &Argument) -> Option<Wanted<'m>>
    ensures { named result ≡ option_map wants_of (algorithm.by_index (λ l.
        option_map algorithm.br_if (slice_get (labels_in labels.now) l)) argument.now) }
{
    let Argument::Index(label) = argument else {
        return None;
    };
    match label_at(labels, *label) {
        Some(types) => Some(Wanted::TypesAndNumber(types)),
        None => None,
    }
}

/// Returns what `br_table` takes, if all its labels exist.
fn wanted_at_labels<'m>(labels: &[&'m [ValueType]], argument: &Argument) -> Option<Wanted<'m>>
    ensures { named result ≡ option_map wants_of (algorithm.br_table (labels_in labels.now)
        argument.now) }
{
    let Argument::Labels(table) = argument else {
        return None;
    };
    if all_exist(labels, table) {
        Some(Wanted::LabelTypes)
    } else {
        None
    }
}

/// Returns `true` if the labels of `br_table` exist.
fn all_exist(labels: &[&[ValueType]], table: &BranchTable) -> bool
    ensures { result ≡ (list_all (wants.has_label (labels_in labels.now)) table.now.labels &&
        wants.has_label (labels_in labels.now) table.now.default) }
{
    all_of(labels, table.labels()) && exists(labels, table.last())
}

/// Returns `true` if these labels exist.
fn all_of(labels: &[&[ValueType]], chosen: &[usize]) -> bool
    ensures { result ≡ list_all (wants.has_label (labels_in labels.now)) chosen.now }
{
    chosen.iter().all(|label| exists(labels, *label))
}

/// Returns `true` if there is a label with this index.
fn exists(labels: &[&[ValueType]], label: usize) -> bool
    ensures { result ≡ wants.has_label (labels_in labels.now) label }
{
    match label_at(labels, label) {
        Some(_) => true,
        None => false,
    }
}

/// Returns what `call` takes: the parameters of the function.
fn wanted_by_call<'m>(context: &Context<'m>, argument: &Argument) -> Option<Wanted<'m>>
    ensures { named result ≡ option_map wants_of (algorithm.by_index (λ x.
        option_map algorithm.call (slice_get (context_of context.now).funcs x)) argument.now) }
{
    let Argument::Index(function) = argument else {
        return None;
    };
    match function_at(context, *function) {
        Some(of) => Some(Wanted::Types(&of.params)),
        None => None,
    }
}

/// Returns what `call_indirect` takes: the parameters of its type, and an index.
fn wanted_by_indirect_call<'m>(context: &Context<'m>, argument: &'m Argument) -> Option<Wanted<'m>>
    ensures { named result ≡ option_map wants_of (algorithm.call_indirect
        (context_of context.now) argument.now) }
{
    let Argument::Indirect(call) = argument else {
        return None;
    };
    if !has_functions(context, call.table()) {
        return None;
    }
    match use_type(context.types, call.uses()) {
        Some(of) => Some(Wanted::TypesAndNumber(&of.params)),
        None => None,
    }
}

/// Returns what `drop` or `select` takes, or another instruction with a one-byte opcode from 0x1A
/// on.
fn wanted_parametric<'m>(
    context: &BodyContext<'m>,
    byte: u8,
    argument: &Argument,
) -> Option<Wanted<'m>>
    ensures { named result ≡ option_map wants_of (algorithm.effect_by (opcodes.Byte byte)
        argument.now (drop 7 (algorithm.own_rules (body_context context.now) []))) }
{
    if byte == 0x1A {
        return wanted_alone(argument, Wanted::AnyType);
    }
    if byte == 0x1B {
        return wanted_alone(argument, Wanted::TwoNumbers);
    }
    if byte == 0x1C {
        return wanted_by_select(argument);
    }
    wanted_variable(context, byte, argument)
}

/// Returns what `select` with a type takes.
fn wanted_by_select<'m>(argument: &Argument) -> Option<Wanted<'m>>
    ensures { named result ≡ option_map wants_of (algorithm.select_effect argument.now) }
{
    let Argument::Select(types) = argument else {
        return None;
    };
    match types.types() {
        [of] => Some(Wanted::Signature(Signature::Three(*of, *of, ValueType::I32, None))),
        _ => None,
    }
}

/// Returns what an instruction on locals or globals takes, or another with a one-byte opcode from
/// 0x20 on.
fn wanted_variable<'m>(
    context: &BodyContext<'m>,
    byte: u8,
    argument: &Argument,
) -> Option<Wanted<'m>>
    ensures { named result ≡ option_map wants_of (algorithm.effect_by (opcodes.Byte byte)
        argument.now (drop 10 (algorithm.own_rules (body_context context.now) []))) }
{
    if byte == 0x20 {
        return wanted_by_local_get(context, argument);
    }
    if byte == 0x21 || byte == 0x22 {
        return wanted_by_local_set(context, argument);
    }
    if byte == 0x23 {
        return wanted_by_global_get(&context.module, argument);
    }
    if byte == 0x24 {
        return wanted_by_global_set(&context.module, argument);
    }
    wanted_reference(&context.module, byte, argument)
}

/// Returns what `local.get` takes.
fn wanted_by_local_get<'m>(context: &BodyContext<'m>, argument: &Argument) -> Option<Wanted<'m>>
    ensures { named result ≡ option_map wants_of (algorithm.by_index (λ x.
        option_map algorithm.local_get (slice_get (body_context context.now).locals x))
        argument.now) }
{
    let Argument::Index(index) = argument else {
        return None;
    };
    match local_at(context, *index) {
        Some(_) => Some(Wanted::Signature(NOTHING)),
        None => None,
    }
}

/// Returns what `local.set` and `local.tee` take.
fn wanted_by_local_set<'m>(context: &BodyContext<'m>, argument: &Argument) -> Option<Wanted<'m>>
    ensures set { named result ≡ option_map wants_of (algorithm.by_index (λ x.
        option_map algorithm.local_set (slice_get (body_context context.now).locals x))
        argument.now) }
    ensures tee { named result ≡ option_map wants_of (algorithm.by_index (λ x.
        option_map algorithm.local_tee (slice_get (body_context context.now).locals x))
        argument.now) }
{
    let Argument::Index(index) = argument else {
        return None;
    };
    match local_at(context, *index) {
        Some(of) => Some(Wanted::Signature(Signature::One(of, None))),
        None => None,
    }
}

/// Returns what `global.get` takes.
fn wanted_by_global_get<'m>(context: &Context<'_>, argument: &Argument) -> Option<Wanted<'m>>
    ensures { named result ≡ option_map wants_of (algorithm.by_index (λ x.
        option_map algorithm.global_get (slice_get (context_of context.now).globals x))
        argument.now) }
{
    match argument {
        Argument::Index(index) if *index < context.globals.len() => {
            Some(Wanted::Signature(NOTHING))
        }
        _ => None,
    }
}

/// Returns what `global.set` takes.
fn wanted_by_global_set<'m>(context: &Context<'_>, argument: &Argument) -> Option<Wanted<'m>>
    ensures { named result ≡ option_map wants_of (algorithm.by_index (λ x.
        algorithm.global_set (slice_get (context_of context.now).globals x)) argument.now) }
{
    let Argument::Index(index) = argument else {
        return None;
    };
    match context.globals.get(*index) {
        Some(global) if global.is_mutable => {
            Some(Wanted::Signature(Signature::One(global.value, None)))
        }
        _ => None,
    }
}

/// Returns what an instruction on references takes, or `table.get` or `table.set`.
fn wanted_reference<'m>(context: &Context<'_>, byte: u8, argument: &Argument) -> Option<Wanted<'m>>
    ensures { named result ≡ option_map wants_of (algorithm.effect_by (opcodes.Byte byte)
        argument.now (drop 15 (algorithm.own_rules (context_of context.now) []))) }
{
    if byte == 0x25 {
        return wanted_by_table_get(context, argument);
    }
    if byte == 0x26 {
        return wanted_by_table_set(context, argument);
    }
    if byte == 0xD0 {
        return wanted_by_null(argument);
    }
    if byte == 0xD1 {
        return wanted_alone(argument, Wanted::Reference);
    }
    if byte == 0xD2 {
        return wanted_by_ref_func(context, argument);
    }
    None
}

/// Returns what `table.get` takes.
fn wanted_by_table_get<'m>(context: &Context<'_>, argument: &Argument) -> Option<Wanted<'m>>
    ensures { named result ≡ option_map wants_of (algorithm.by_index (λ x.
        option_map algorithm.table_get (slice_get (context_of context.now).tables x))
        argument.now) }
{
    match argument {
        Argument::Index(index) if *index < context.tables.len() => {
            Some(Wanted::Signature(Signature::One(ValueType::I32, None)))
        }
        _ => None,
    }
}

/// Returns what `table.set` takes.
fn wanted_by_table_set<'m>(context: &Context<'_>, argument: &Argument) -> Option<Wanted<'m>>
    ensures { named result ≡ option_map wants_of (algorithm.by_index (λ x.
        option_map algorithm.table_set (slice_get (context_of context.now).tables x))
        argument.now) }
{
    let Argument::Index(index) = argument else {
        return None;
    };
    match context.tables.get(*index) {
        Some(table) => {
            let element = ValueType::Reference(table.element);
            Some(Wanted::Signature(Signature::Two(ValueType::I32, element, None)))
        }
        None => None,
    }
}

/// Returns what `ref.null` takes.
fn wanted_by_null<'m>(argument: &Argument) -> Option<Wanted<'m>>
    ensures { named result ≡ option_map wants_of (algorithm.null_effect argument.now) }
{
    match argument {
        Argument::HeapType(_) => Some(Wanted::Signature(NOTHING)),
        _ => None,
    }
}

/// Returns what `ref.func` takes.
fn wanted_by_ref_func<'m>(context: &Context<'_>, argument: &Argument) -> Option<Wanted<'m>>
    ensures { named result ≡ option_map wants_of (algorithm.by_index (λ x. algorithm.guard
        (nat_lt x (length (context_of context.now).funcs) &&
        algorithm.has_index x (context_of context.now).refs)
        (algorithm.Replace [] (algorithm.ref_value reference.Func ∷ []))) argument.now) }
{
    let Argument::Index(index) = argument else {
        return None;
    };
    if *index < context.functions.len() && is_declared(context, *index) {
        Some(Wanted::Signature(NOTHING))
    } else {
        None
    }
}

/// Returns what an instruction after the prefix 0xFC takes.
fn wanted_bulk<'m>(context: &Context<'_>, number: u8, argument: &Argument) -> Option<Wanted<'m>>
    ensures { named result ≡ option_map wants_of (algorithm.effect_by
        (opcodes.Prefixed 0xFC number) argument.now
        (drop 20 (algorithm.own_rules (context_of context.now) []))) }
{
    if number == 8 {
        return wanted_by_memory_init(context, argument);
    }
    if number == 9 {
        return wanted_by_data_drop(context, argument);
    }
    if number == 12 {
        return wanted_by_table_init(context, argument);
    }
    if number == 13 {
        return wanted_by_elem_drop(context, argument);
    }
    if number == 14 {
        return wanted_by_table_copy(context, argument);
    }
    if number == 15 {
        return wanted_by_table_grow(context, argument);
    }
    if number == 16 {
        return wanted_by_table_size(context, argument);
    }
    if number == 17 {
        return wanted_by_table_fill(context, argument);
    }
    None
}

/// Returns what `memory.init` takes.
fn wanted_by_memory_init<'m>(context: &Context<'_>, argument: &Argument) -> Option<Wanted<'m>>
    ensures { named result ≡ option_map wants_of (algorithm.by_index_zero (λ x. algorithm.guard
        (algorithm.has_memory (context_of context.now) && nat_lt x (context_of context.now).datas)
        (algorithm.Replace algorithm.three [])) argument.now) }
{
    let Argument::IndexZero(index) = argument else {
        return None;
    };
    if !context.memories.is_empty() && *index < context.data_count {
        Some(Wanted::Signature(THREE))
    } else {
        None
    }
}

/// Returns what `data.drop` takes.
fn wanted_by_data_drop<'m>(context: &Context<'_>, argument: &Argument) -> Option<Wanted<'m>>
    ensures { named result ≡ option_map wants_of (algorithm.by_index (λ x. algorithm.guard
        (nat_lt x (context_of context.now).datas) (algorithm.Replace [] [])) argument.now) }
{
    match argument {
        Argument::Index(index) if *index < context.data_count => Some(Wanted::Signature(NOTHING)),
        _ => None,
    }
}

/// Returns what `elem.drop` takes.
fn wanted_by_elem_drop<'m>(context: &Context<'_>, argument: &Argument) -> Option<Wanted<'m>>
    ensures { named result ≡ option_map wants_of (algorithm.by_index (λ x. algorithm.guard
        (nat_lt x (length (context_of context.now).elems)) (algorithm.Replace [] []))
        argument.now) }
{
    match argument {
        Argument::Index(index) if *index < context.elements.len() => {
            Some(Wanted::Signature(NOTHING))
        }
        _ => None,
    }
}

/// Returns what `table.init` takes.
fn wanted_by_table_init<'m>(context: &Context<'_>, argument: &Argument) -> Option<Wanted<'m>>
    ensures { named result ≡ option_map wants_of (algorithm.by_pair (λ y x. algorithm.table_init
        (slice_get (context_of context.now).tables x)
        (slice_get (context_of context.now).elems y)) argument.now) }
{
    let Argument::Pair(pair) = argument else {
        return None;
    };
    match (
        context.tables.get(pair.second()),
        context.elements.get(pair.first()),
    ) {
        (Some(table), Some(of)) if table.element == *of => Some(Wanted::Signature(THREE)),
        _ => None,
    }
}

/// Returns what `table.copy` takes.
fn wanted_by_table_copy<'m>(context: &Context<'_>, argument: &Argument) -> Option<Wanted<'m>>
    ensures { named result ≡ option_map wants_of (algorithm.by_pair (λ x y. algorithm.table_copy
        (slice_get (context_of context.now).tables x)
        (slice_get (context_of context.now).tables y)) argument.now) }
{
    let Argument::Pair(pair) = argument else {
        return None;
    };
    match (
        context.tables.get(pair.first()),
        context.tables.get(pair.second()),
    ) {
        (Some(to), Some(from)) if to.element == from.element => Some(Wanted::Signature(THREE)),
        _ => None,
    }
}

/// Returns what `table.grow` takes.
fn wanted_by_table_grow<'m>(context: &Context<'_>, argument: &Argument) -> Option<Wanted<'m>>
    ensures { named result ≡ option_map wants_of (algorithm.by_index (λ x.
        option_map algorithm.table_grow (slice_get (context_of context.now).tables x))
        argument.now) }
{
    let Argument::Index(index) = argument else {
        return None;
    };
    match context.tables.get(*index) {
        Some(table) => {
            let element = ValueType::Reference(table.element);
            Some(Wanted::Signature(Signature::Two(element, ValueType::I32, None)))
        }
        None => None,
    }
}

/// Returns what `table.size` takes.
fn wanted_by_table_size<'m>(context: &Context<'_>, argument: &Argument) -> Option<Wanted<'m>>
    ensures { named result ≡ option_map wants_of (algorithm.by_index (λ x.
        option_map algorithm.table_size (slice_get (context_of context.now).tables x))
        argument.now) }
{
    match argument {
        Argument::Index(index) if *index < context.tables.len() => {
            Some(Wanted::Signature(NOTHING))
        }
        _ => None,
    }
}

/// Returns what `table.fill` takes.
fn wanted_by_table_fill<'m>(context: &Context<'_>, argument: &Argument) -> Option<Wanted<'m>>
    ensures { named result ≡ option_map wants_of (algorithm.by_index (λ x.
        option_map algorithm.table_fill (slice_get (context_of context.now).tables x))
        argument.now) }
{
    let Argument::Index(index) = argument else {
        return None;
    };
    match context.tables.get(*index) {
        Some(table) => {
            let element = ValueType::Reference(table.element);
            Some(Wanted::Signature(Signature::Three(ValueType::I32, element, ValueType::I32, None)))
        }
        None => None,
    }
}
