//! The operands before an instruction of a body, and those that the instruction takes.
ghost use Rattle.std.specs.Prelude.{◌≡◌, IfOk, MatchOption, drop};
ghost use Rattle.wat_valid.specs.ContextViews.{body_context};
ghost use Rattle.wat_valid.specs.FrameViews.{HasLabels, frames_of};
ghost use Rattle.wat_valid.specs.Wants.{NoSituation, SituationIs, named, wants_end, wants_next};

use crate::accepting::frames_after;
use crate::blocks::Frames;
use crate::body::BodyContext;
use crate::operands::Operands;
use crate::wanted::{Wanted, wanted_by};
use std::alloc::{AllocError, Global};
use wat_module_ast::instruction::Instruction;

/// The operands before an instruction of a body, and those that it takes.
#[derive(Drop)]
pub struct Situation<'m> {
    /// Operands of the innermost block before the instruction.
    pub there: Operands,
    /// Operands that the instruction takes, or the end of the body. `None` if the instruction has
    /// no type, whatever the operands are, or if a block is open at the end.
    pub wanted: Option<Wanted<'m>>,
}

/// Returns what the end of a body takes: its results, if no block is open.
fn wanted_at_end<'m>(frames: &Frames<'m>) -> Option<Wanted<'m>>
    ensures { named result ≡ wants_end (frames_of frames.now) }
{
    if frames.outer.is_empty() {
        Some(Wanted::Types(frames.current.results))
    } else {
        None
    }
}

/// Returns what the instruction with this index takes, or the end of the body if there is none.
#[tactic(auto, using(crate::proofs::Situations::next_at, crate::proofs::Situations::no_next))]
fn wanted_next<'m>(
    context: &BodyContext<'m>,
    frames: &Frames<'m>,
    instructions: &'m [Instruction],
    at: usize,
) -> Option<Wanted<'m>>
    requires { HasLabels frames.now }
    ensures { named result ≡ wants_next (body_context context.now) (frames_of frames.now)
        (drop at instructions.now) }
{
    if at < instructions.len() {
        wanted_by(context, frames, &instructions[at])
    } else {
        wanted_at_end(frames)
    }
}

/// Returns the operands before the instruction with this index, or at the end of the body if the
/// index is the number of instructions, and what is wanted there. Returns `None` if there are fewer
/// instructions, or if the algorithm has an error in those before.
pub fn situation_at<'m>(
    alloc: Global,
    context: &BodyContext<'m>,
    instructions: &'m [Instruction],
    at: usize,
) -> Result<Option<Situation<'m>>, AllocError>
    ensures { IfOk result (λ found. MatchOption found
        (NoSituation (body_context context.now) instructions.now context.now.results.now at)
        (λ s. SituationIs (body_context context.now) instructions.now context.now.results.now
        at s.there s.wanted)) }
{
    if at > instructions.len() {
        return Ok(None);
    }
    match frames_after(alloc, context, &instructions[..at])? {
        Err(_) => Ok(None),
        Ok(frames) => {
            let wanted = wanted_next(context, &frames, instructions, at);
            Ok(Some(Situation {
                there: frames.current.operands,
                wanted,
            }))
        }
    }
}
