//! Control frames (WebAssembly 2.0, 7.3): `block`, `loop`, `if`, `else` and `end`.
ghost use Rattle.std.specs.Prelude.{◌≡◌, ◌∷◌, ◌++◌, IfOk, MatchOption, None, Some, [], false, if◌then◌else◌, map, reverse, true};
ghost use Rattle.wat_module_ast.specs.declared.instruction.ValueType.TheVariants as value;
ghost use Rattle.wat_module_ast.specs.TypeViews.{type_of};
ghost use Rattle.wat_module_ast.specs.Types.{from_to, same_values};
ghost use Rattle.wat_valid.specs.Algorithm as algorithm;
ghost use Rattle.wat_valid.specs.Contexts.{values};
ghost use Rattle.wat_valid.specs.FrameViews.{HasLabels, Leads, frame_of, frames_of, kind_of};
ghost use Rattle.wat_valid.specs.Instructions as rules;

use crate::context::use_type;
use crate::operands::{Operands, pop_value, pop_values, push_values};
use std::alloc::{AllocError, Global};
use std::mem;
use wat_module_ast::instruction::{Argument, ReferenceType, ValueType};
use wat_module_ast::types::FunctionType;

/// Kind of the block of a frame.
#[derive(Clone, Copy)]
pub enum FrameKind {
    /// The body of a function.
    Body,
    /// `block`.
    Block,
    /// `loop`.
    Loop,
    /// `if`, up to its `else`.
    If,
    /// `else`.
    Else,
}

/// A control frame.
#[derive(Drop)]
pub struct Frame<'m> {
    /// Kind of the block.
    pub kind: FrameKind,
    /// Types of the parameters of the block.
    pub params: &'m [ValueType],
    /// Types of the results of the block.
    pub results: &'m [ValueType],
    /// Operands of the frame.
    pub operands: Operands,
}

/// The open frames.
#[derive(Drop)]
pub struct Frames<'m> {
    /// The innermost frame.
    pub current: Frame<'m>,
    /// The frames around it, the innermost last.
    pub outer: Vec<Frame<'m>>,
    /// Types of the labels of all frames, the innermost last.
    pub labels: Vec<&'m [ValueType]>,
}

/// Removes the operands that a block of this kind takes. Returns `false` if there are too few
/// operands, or if a type does not match.
fn pop_params(operands: &mut Operands, kind: FrameKind, params: &[ValueType]) -> bool
    ensures same { operands.new.is_unreachable ≡ operands.old.is_unreachable }
    ensures is { algorithm.pop_values operands.old.is_unreachable operands.old.types.items
        (algorithm.block_params (kind_of kind) (from_to params.now [])) ≡
        (if result then Some operands.new.types.items else None) }
{
    match kind {
        FrameKind::If => pop_below_number(operands, params),
        _ => pop_values(operands, params),
    }
}

/// Removes an `i32`, and operands of these types below it. Returns `false` if there are too few
/// operands, or if a type does not match.
fn pop_below_number(operands: &mut Operands, params: &[ValueType]) -> bool
    ensures same { operands.new.is_unreachable ≡ operands.old.is_unreachable }
    ensures is { algorithm.pop_values operands.old.is_unreachable operands.old.types.items
        (params.now ++ value.I32 ∷ []) ≡
        (if result then Some operands.new.types.items else None) }
{
    if !pop_value(operands, ValueType::I32) {
        return false;
    }
    pop_values(operands, params)
}

/// Returns a frame whose operands are the parameters of its block.
fn frame_with<'m>(
    alloc: Global,
    kind: FrameKind,
    params: &'m [ValueType],
    results: &'m [ValueType],
) -> Result<Frame<'m>, AllocError>
    ensures { IfOk result (λ f. frame_of f ≡ algorithm.frame (kind_of kind)
        (from_to params.now results.now)
        (algorithm.operands false (values params.now))) }
{
    let mut operands = Operands {
        types: Vec::new(alloc),
        is_unreachable: false,
    };
    push_values(&mut operands, params)?;
    Ok(Frame {
        kind,
        params,
        results,
        operands,
    })
}

/// Returns the frames at the start of the body of a function with these results.
pub fn body_frames<'m>(alloc: Global, results: &'m [ValueType]) -> Result<Frames<'m>, AllocError>
    ensures is { IfOk result (λ frames. frames_of frames ≡
        algorithm.body_frame results.now ∷ []) }
    ensures labels { IfOk result (λ frames. HasLabels frames) }
{
    let current = frame_with(alloc, FrameKind::Body, &[], results)?;
    let mut labels = Vec::new(alloc);
    labels.push(results)?;
    Ok(Frames {
        current,
        outer: Vec::new(alloc),
        labels,
    })
}

/// Opens a frame with these parameters and results. Returns `Ok(false)` if the operands do not
/// match what its block takes.
pub fn enter<'m>(
    alloc: Global,
    frames: &mut Frames<'m>,
    kind: FrameKind,
    params: &'m [ValueType],
    results: &'m [ValueType],
) -> Result<bool, AllocError>
    ensures is { IfOk result (Leads (algorithm.enter (kind_of kind)
        (Some (from_to params.now results.now)) (frame_of frames.old.current)
        (reverse (map frame_of frames.old.outer.items))) frames.new) }
    ensures labels { IfOk result (λ fits. fits ≡ true → HasLabels frames.old →
        HasLabels frames.new) }
{
    if !pop_params(&mut frames.current.operands, kind, params) {
        return Ok(false);
    }
    let inner = frame_with(alloc, kind, params, results)?;
    frames.labels.push(label_of(kind, params, results))?;
    frames.outer.push(mem::replace(&mut frames.current, inner))?;
    Ok(true)
}

/// Returns the types of the label of a block: the parameters of a loop, otherwise the results.
fn label_of<'m>(
    kind: FrameKind,
    params: &'m [ValueType],
    results: &'m [ValueType],
) -> &'m [ValueType]
    ensures { result.now ≡ algorithm.label_of (kind_of kind) (from_to params.now results.now) }
{
    match kind {
        FrameKind::Loop => params,
        _ => results,
    }
}

/// Returns `true` if two lists of value types are equal.
fn are_same(some: &[ValueType], others: &[ValueType]) -> bool
    ensures { result ≡ same_values some.now others.now }
{
    if some.len() != others.len() {
        return false;
    }
    for (i, of) in some.iter().enumerate() {
        if *of != others[i] {
            return false;
        }
    }
    true
}

/// Returns `true` if a frame may end: an `if` without `else` must have the same parameters and
/// results.
pub fn may_end(frame: &Frame<'_>) -> bool
    ensures { result ≡ algorithm.may_end (frame_of frame.now) }
{
    match frame.kind {
        FrameKind::Body => false,
        FrameKind::If => are_same(frame.params, frame.results),
        FrameKind::Block | FrameKind::Loop | FrameKind::Else => true,
    }
}

/// Removes the results of a frame. Returns `true` if the operands were those.
pub fn finish(frame: &mut Frame<'_>) -> bool
    ensures same { frame.new.kind ≡ frame.old.kind }
    ensures params { frame.new.params ≡ frame.old.params }
    ensures results { frame.new.results ≡ frame.old.results }
    ensures is { result ≡ algorithm.is_finished (frame_of frame.old) }
{
    pop_values(&mut frame.operands, frame.results) && frame.operands.types.is_empty()
}

/// Applies `end`: closes the innermost frame. Returns `Ok(false)` if it is that of the body, if it
/// is an `if` whose parameters are not its results, or if its operands are not its results.
pub fn end(frames: &mut Frames<'_>) -> Result<bool, AllocError>
    ensures is { IfOk result (Leads (algorithm.end_block (frame_of frames.old.current)
        (reverse (map frame_of frames.old.outer.items))) frames.new) }
    ensures labels { IfOk result (λ fits. fits ≡ true → HasLabels frames.old →
        HasLabels frames.new) }
{
    if !may_end(&frames.current) || !finish(&mut frames.current) {
        return Ok(false);
    }
    let Some(mut outer) = frames.outer.pop() else {
        return Ok(false);
    };
    push_values(&mut outer.operands, frames.current.results)?;
    frames.labels.pop();
    frames.current = outer;
    Ok(true)
}

/// Applies `else`: replaces the innermost frame by that of the second branch. Returns `Ok(false)`
/// if it is not that of an `if`, or if its operands are not its results.
pub fn otherwise(alloc: Global, frames: &mut Frames<'_>) -> Result<bool, AllocError>
    ensures is { IfOk result (Leads (algorithm.else_block (frame_of frames.old.current)
        (reverse (map frame_of frames.old.outer.items))) frames.new) }
    ensures labels { IfOk result (λ fits. fits ≡ true → HasLabels frames.old →
        HasLabels frames.new) }
{
    if !is_if(frames.current.kind) || !finish(&mut frames.current) {
        return Ok(false);
    }
    let params = frames.current.params;
    let results = frames.current.results;
    frames.current = frame_with(alloc, FrameKind::Else, params, results)?;
    Ok(true)
}

/// Returns `true` for the kind of a frame of `if`, up to its `else`.
pub fn is_if(kind: FrameKind) -> bool
    ensures { result ≡ algorithm.is_if (kind_of kind) }
{
    matches!(kind, FrameKind::If)
}

/// Returns the parameters and the results of a block type, or `None` if its type use has no type,
/// or if the immediate is not a block type.
pub fn block_type<'m>(
    types: &'m [FunctionType],
    argument: &'m Argument,
) -> Option<(&'m [ValueType], &'m [ValueType])>
    ensures { MatchOption result
        (rules.block_type (map type_of types.now) argument.now ≡ None)
        (λ t. rules.block_type (map type_of types.now) argument.now ≡
        Some (from_to t.0.now t.1.now)) }
{
    match argument {
        Argument::Block(None) => Some((&[], &[])),
        Argument::Block(Some(of)) => Some((&[], one_type(*of))),
        Argument::BlockUse(uses) => match use_type(types, uses.uses()) {
            Some(of) => Some((&of.params, &of.results)),
            None => None,
        },
        _ => None,
    }
}

/// Returns the list of one value type.
fn one_type(of: ValueType) -> &'static [ValueType]
    ensures { result.now ≡ of ∷ [] }
{
    match of {
        ValueType::I32 => &[ValueType::I32],
        ValueType::I64 => &[ValueType::I64],
        ValueType::F32 => &[ValueType::F32],
        ValueType::F64 => &[ValueType::F64],
        ValueType::V128 => &[ValueType::V128],
        ValueType::Reference(ReferenceType::Func) => &[ValueType::Reference(ReferenceType::Func)],
        ValueType::Reference(ReferenceType::Extern) => {
            &[ValueType::Reference(ReferenceType::Extern)]
        }
    }
}
