//! The validation algorithm (WebAssembly 2.0, 7.3) on the body of a function.
ghost use Rattle.std.specs.Prelude.{◌≡◌, ◌∷◌, IfOk, MatchOption, MatchResult, Some, [], map, reverse, true, ⊤};
ghost use Rattle.wat_valid.specs.Algorithm as algorithm;
ghost use Rattle.wat_valid.specs.ContextViews.{body_context};
ghost use Rattle.wat_valid.specs.FrameViews.{HasLabels, Leads, frame_of, frames_of, kind_of};
ghost use Rattle.wat_valid.specs.FirstErrors.{ErrorAt, StopsAt};
ghost use Rattle.wat_valid.specs.Instructions as rules;
ghost use Rattle.wat_valid.specs.Instructions.{Expression};

use crate::blocks::{FrameKind, Frames, block_type, body_frames, end, enter, finish, otherwise};
use crate::body::BodyContext;
use crate::plain::apply;
use std::alloc::{AllocError, Global};
use wat_module_ast::instruction::{Argument, Instruction, Opcode};

/// Applies an instruction other than those of blocks. Returns `Ok(false)` if no type of it fits.
fn apply_plain(
    context: &BodyContext<'_>,
    frames: &mut Frames<'_>,
    instruction: &Instruction,
) -> Result<bool, AllocError>
    requires { HasLabels frames.old }
    ensures is { IfOk result (Leads (algorithm.plain_step (body_context context.now)
        (frame_of frames.old.current) (reverse (map frame_of frames.old.outer.items))
        instruction.now) frames.new) }
    ensures labels { IfOk result (λ fits. fits ≡ true → HasLabels frames.new) }
{
    apply(
        context,
        &frames.labels,
        &mut frames.current.operands,
        instruction,
    )
}

/// Opens the frame of `block`, `loop` or `if`. Returns `Ok(false)` if its type does not exist, or
/// if the operands do not match it.
fn open<'m>(
    alloc: Global,
    context: &BodyContext<'m>,
    frames: &mut Frames<'m>,
    kind: FrameKind,
    argument: &'m Argument,
) -> Result<bool, AllocError>
    requires { HasLabels frames.old }
    ensures is { IfOk result (Leads (algorithm.enter (kind_of kind)
        (rules.block_type (body_context context.now).types argument.now)
        (frame_of frames.old.current)
        (reverse (map frame_of frames.old.outer.items))) frames.new) }
    ensures labels { IfOk result (λ fits. fits ≡ true → HasLabels frames.new) }
{
    match block_type(context.module.types, argument) {
        Some((params, results)) => enter(alloc, frames, kind, params, results),
        None => Ok(false),
    }
}

/// Applies an instruction. Returns `Ok(false)` if the algorithm has an error there. The labels that
/// `frames` has must be those of its frames; they are so again if it returns `Ok(true)`.
#[tactic(auto, unfolding(crate::specs::Algorithm::step))]
pub fn step<'m>(
    alloc: Global,
    context: &BodyContext<'m>,
    frames: &mut Frames<'m>,
    instruction: &'m Instruction,
) -> Result<bool, AllocError>
    requires { HasLabels frames.old }
    ensures is { IfOk result (Leads (algorithm.step (body_context context.now)
        (frames_of frames.old) instruction.now) frames.new) }
    ensures labels { IfOk result (λ fits. fits ≡ true → HasLabels frames.new) }
{
    let Opcode::Byte(byte) = instruction.opcode else {
        return apply_plain(context, frames, instruction);
    };
    let argument = &instruction.argument;
    if byte == 0x02 {
        return open(alloc, context, frames, FrameKind::Block, argument);
    }
    if byte == 0x03 {
        return open(alloc, context, frames, FrameKind::Loop, argument);
    }
    if byte == 0x04 {
        return open(alloc, context, frames, FrameKind::If, argument);
    }
    if byte == 0x05 {
        return otherwise(alloc, frames);
    }
    if byte == 0x0B {
        return end(frames);
    }
    apply_plain(context, frames, instruction)
}

/// Returns the frames after instructions that begin the body of a function, or the index of the
/// first instruction at which the algorithm has an error.
pub fn frames_after<'m>(
    alloc: Global,
    context: &BodyContext<'m>,
    instructions: &'m [Instruction],
) -> Result<Result<Frames<'m>, usize>, AllocError>
    ensures is { IfOk result (λ r. MatchResult r
        (λ frames. algorithm.run (body_context context.now)
        (Some (algorithm.body_frame context.now.results.now ∷ [])) instructions.now ≡
        Some (frames_of frames))
        (λ i. StopsAt (body_context context.now) instructions.now context.now.results.now i)) }
    ensures labels { IfOk result (λ r. MatchResult r (λ frames. HasLabels frames) (λ i. ⊤)) }
{
    let mut frames = body_frames(alloc, context.results)?;
    for (i, instruction) in instructions.iter().enumerate() {
        if !step(alloc, context, &mut frames, instruction)? {
            return Ok(Err(i));
        }
    }
    Ok(Ok(frames))
}

/// Checks the body of a function. Returns `None` if it is valid, and otherwise the index of the
/// first instruction that no valid body has after those before it, or the number of instructions if
/// these begin a valid body.
pub fn check_body(
    alloc: Global,
    context: &BodyContext<'_>,
    instructions: &[Instruction],
) -> Result<Option<usize>, AllocError>
    ensures { IfOk result (λ found. MatchOption found
        (Expression (body_context context.now) (context.now.results.now ∷ []) instructions.now
        context.now.results.now)
        (λ i. ErrorAt (body_context context.now) instructions.now context.now.results.now i)) }
{
    match frames_after(alloc, context, instructions)? {
        Err(at) => Ok(Some(at)),
        Ok(mut frames) => {
            if frames.outer.is_empty() && finish(&mut frames.current) {
                Ok(None)
            } else {
                Ok(Some(instructions.len()))
            }
        }
    }
}
