//! Parses the instructions of a body. A stack of frames holds its open parts.
ghost use Rattle.wat_module_ast.specs.Grammar.{is_then, structured};
ghost use Rattle.wat_module_tokens.specs.TokenCursor.{terminals_of};
ghost use Rattle.wat_module_instructions.specs.Machine as spec;
ghost use Rattle.wat_module_instructions.specs.Machine.{Part};
ghost use Rattle.wat_module_instructions.specs.Parts.{FailsIn, ReadsAs, RunsInto, RunsTo, StepsAs};
ghost use Rattle.wat_module_instructions.specs.Stack.{part};
ghost use Rattle.wat_module_instructions.specs.Parts.{StepsFrom};
ghost use Rattle.wat_module_instructions.specs.Parts.{scope_of};
ghost use Rattle.wat_module_tokens.specs.Terminals as terminals;
ghost use Rattle.std.specs.Prelude.{◌≡◌, [], ◌∷◌, true, List, Ok, Err, MatchResult};

use crate::faults::{fault, unexpected};
use crate::frame::{Frame, Frames};
use crate::reading::{self, Scope};
use crate::uses;
use std::alloc::Global;
use wat_module_ast::error::{Expected, FaultKind, ParseFailure};
use wat_module_ast::instruction::{Argument, Instruction, Opcode};
use wat_module_tokens::stream::TokenCursor;
use wat_module_tokens::token::{DecodedToken, Name};

/// Opcode of `if`.
const IF: u8 = 0x04;

/// The instruction between the two parts of an `if`.
const ELSE: Instruction = Instruction {
    opcode: Opcode::Byte(0x05),
    argument: Argument::Nothing,
};

/// The instruction that ends a block.
const END: Instruction = Instruction {
    opcode: Opcode::Byte(0x0B),
    argument: Argument::Nothing,
};

/// Parses the instructions of a body up to its closing parenthesis, which it consumes. Returns the
/// instructions and the remaining tokens. Frees the unused capacity of the vector.
pub fn instructions<'p, 'a>(
    alloc: Global,
    scope: &Scope<'_, '_>,
    cursor: TokenCursor<'p, 'a>,
) -> Result<(Vec<Instruction>, TokenCursor<'p, 'a>), ParseFailure<'p, 'a>>
    ensures { ReadsAs (λ v. v.items) (spec.body (scope_of scope.now) (terminals_of cursor.entry))
        result }
{
    let mut out = Vec::with_capacity(alloc, 1)?;
    let mut frames = Frames::new(alloc);
    frames.push(Frame::Body)?;
    match steps(alloc, scope, &mut frames, &mut out, cursor) {
        Ok(rest) => {
            out.shrink_to_fit();
            Ok((out, rest))
        }
        Err(refusal) => Err(refusal),
    }
}

/// Parses a folded instruction after its opening parenthesis, and consumes its closing parenthesis.
/// Returns the instructions in the order of the binary format, and the remaining tokens.
pub fn one_folded<'p, 'a>(
    alloc: Global,
    scope: &Scope<'_, '_>,
    cursor: TokenCursor<'p, 'a>,
) -> Result<(Vec<Instruction>, TokenCursor<'p, 'a>), ParseFailure<'p, 'a>>
    ensures { ReadsAs (λ v. v.items) (spec.folded (scope_of scope.now) (terminals_of cursor.entry))
        result }
{
    // Most are a single instruction. A first push into an empty vector would reserve capacity for
    // four.
    let mut out = Vec::with_capacity(alloc, 1)?;
    let mut frames = Frames::new(alloc);
    match first_step(alloc, scope, &mut frames, &mut out, cursor) {
        Ok(rest) => match steps(alloc, scope, &mut frames, &mut out, rest) {
            Ok(rest) => Ok((out, rest)),
            Err(refusal) => Err(refusal),
        },
        Err(refusal) => Err(refusal),
    }
}

/// Parses the keyword and the immediates of a folded instruction, and pushes its frame onto the
/// empty stack.
fn first_step<'p, 'a>(
    alloc: Global,
    scope: &Scope<'_, '_>,
    frames: &mut Frames<'p>,
    out: &mut Vec<Instruction>,
    cursor: TokenCursor<'p, 'a>,
) -> Result<TokenCursor<'p, 'a>, ParseFailure<'p, 'a>>
    requires { frames.now ≡ [] }
    ensures { StepsAs (spec.first_step (scope_of scope.now) (terminals_of cursor.entry))
        out.old.items out.new.items frames.new result }
{
    match cursor.first() {
        Some((DecodedToken::Word(word), rest)) => folded_instruction(
            alloc, scope, frames, out, word, cursor, rest,
        ),
        _ => Err(ParseFailure::Text(unexpected(Expected::Instruction, cursor))),
    }
}

/// Parses until the stack of frames is empty. This is a loop, so that nesting in the text does not
/// deepen the call stack.
fn steps<'p, 'a>(
    alloc: Global,
    scope: &Scope<'_, '_>,
    frames: &mut Frames<'p>,
    out: &mut Vec<Instruction>,
    cursor: TokenCursor<'p, 'a>,
) -> Result<TokenCursor<'p, 'a>, ParseFailure<'p, 'a>>
    ensures { MatchResult result
        (λ r. RunsTo (scope_of scope.now) frames.old (terminals_of cursor.entry)
        out.old.items out.new.items (terminals_of r))
        (λ e. RunsInto (scope_of scope.now) frames.old (terminals_of cursor.entry)
        e) }
{
    let mut left = cursor;
    'open: loop {
        match frames.last() {
            Some(_) => match step(alloc, scope, frames, out, left) {
                Ok(next) => {
                    left = next;
                }
                Err(refusal) => return Err(refusal),
            },
            None => return Ok(left),
        }
    }
}

/// Parses the next instruction or part inside the innermost part, or closes that part. Consumes at
/// least one token.
#[tactic(auto, unfolding(crate::specs::Machine::step))]
fn step<'p, 'a>(
    alloc: Global,
    scope: &Scope<'_, '_>,
    frames: &mut Frames<'p>,
    out: &mut Vec<Instruction>,
    cursor: TokenCursor<'p, 'a>,
) -> Result<TokenCursor<'p, 'a>, ParseFailure<'p, 'a>>
    ensures { StepsFrom
        (λ p ps. spec.step (scope_of scope.now) p ps (terminals_of cursor.entry))
        frames.old out.old.items out.new.items frames.new result }
{
    match cursor.first() {
        Some((DecodedToken::Open, rest)) => folded(alloc, scope, frames, out, rest),
        Some((DecodedToken::Close, rest)) => close(frames, out, cursor, rest),
        Some((DecodedToken::Word(word), rest)) => at_word(
            alloc, scope, frames, out, word, cursor, rest,
        ),
        _ => match frames.last() {
            Some(frame) => Err(ParseFailure::Text(unexpected(expected_in(frame), cursor))),
            None => Err(ParseFailure::Text(unexpected(Expected::InstructionOrClose, cursor))),
        },
    }
}

/// Returns what the grammar accepts next in a part, unless it is in the middle of an instruction.
fn expected_in(frame: &Frame<'_>) -> Expected
    ensures { result ≡ spec.expected_in (part frame.now) }
{
    match *frame {
        Frame::Body | Frame::Group(_) | Frame::Then(_) | Frame::Else(_) => {
            Expected::InstructionOrClose
        }
        Frame::Block(may_have_else, _) => expected_in_block(may_have_else),
        Frame::Operands(_) => Expected::OpenOrClose,
        Frame::Condition(_, _) => Expected::Then,
    }
}

/// Returns what the grammar accepts next in a `block .. end`, which may have an `else` if
/// `may_have_else` is `true`.
fn expected_in_block(may_have_else: bool) -> Expected
    ensures { result ≡ spec.expected_in_block may_have_else }
{
    if may_have_else {
        Expected::InstructionElseOrEnd
    } else {
        Expected::InstructionOrEnd
    }
}

/// Closes the innermost part at `)`. `cursor` begins with the `)`, and `rest` comes after it.
fn close<'p, 'a>(
    frames: &mut Frames<'p>,
    out: &mut Vec<Instruction>,
    cursor: TokenCursor<'p, 'a>,
    rest: TokenCursor<'p, 'a>,
) -> Result<TokenCursor<'p, 'a>, ParseFailure<'p, 'a>>
    ensures { StepsFrom
        (λ p ps. spec.close_step p (terminals_of cursor.entry) (terminals_of rest.entry) ps)
        frames.old out.old.items out.new.items frames.new result }
{
    match frames.pop() {
        Some(frame) => closed(frame, frames, out, cursor, rest),
        None => Err(ParseFailure::Text(unexpected(Expected::InstructionOrClose, cursor))),
    }
}

/// Parses what follows the `)` that closes `frame`, which is no longer on the stack. Emits the
/// instruction of operands, or `end` after a folded block. A `block .. end` and a folded `if`
/// without `(then` do not end with `)`.
fn closed<'p, 'a>(
    frame: Frame<'p>,
    frames: &mut Frames<'p>,
    out: &mut Vec<Instruction>,
    cursor: TokenCursor<'p, 'a>,
    rest: TokenCursor<'p, 'a>,
) -> Result<TokenCursor<'p, 'a>, ParseFailure<'p, 'a>>
    ensures { StepsAs
        (spec.close_step (part frame.entry) (terminals_of cursor.entry) (terminals_of rest.entry)
        frames.old)
        out.old.items out.new.items frames.new result }
{
    match frame {
        Frame::Body => Ok(rest),
        Frame::Group(_) => {
            out.push(END)?;
            Ok(rest)
        }
        Frame::Operands(instruction) => {
            out.push(instruction)?;
            Ok(rest)
        }
        Frame::Then(label) => after_then(label, frames, out, rest),
        Frame::Else(_) => after_else(frames, out, rest),
        Frame::Block(may_have_else, _) => {
            let expected = expected_in_block(may_have_else);
            Err(ParseFailure::Text(unexpected(expected, cursor)))
        }
        Frame::Condition(_, _) => Err(ParseFailure::Text(unexpected(Expected::Then, cursor))),
    }
}

/// Parses the `)` of `(if` after the `)` of its `(else`.
fn after_else<'p, 'a>(
    frames: &mut Frames<'p>,
    out: &mut Vec<Instruction>,
    cursor: TokenCursor<'p, 'a>,
) -> Result<TokenCursor<'p, 'a>, ParseFailure<'p, 'a>>
    ensures { StepsAs (spec.else_step (terminals_of cursor.entry) frames.old)
        out.old.items out.new.items frames.new result }
{
    match cursor.first() {
        Some((DecodedToken::Close, rest)) => {
            out.push(END)?;
            Ok(rest)
        }
        _ => Err(ParseFailure::Text(unexpected(Expected::Close, cursor))),
    }
}

/// Parses the `)` of `(if`, or `(else`, after the `)` of its `(then`.
fn after_then<'p, 'a>(
    label: Name<'p>,
    frames: &mut Frames<'p>,
    out: &mut Vec<Instruction>,
    cursor: TokenCursor<'p, 'a>,
) -> Result<TokenCursor<'p, 'a>, ParseFailure<'p, 'a>>
    ensures { StepsAs
        (spec.then_step (terminals.label label.entry) (terminals_of cursor.entry)
        frames.old)
        out.old.items out.new.items frames.new result }
{
    match cursor.first() {
        Some((DecodedToken::Close, rest)) => {
            out.push(END)?;
            Ok(rest)
        }
        Some((DecodedToken::Open, rest)) => other_part(label, frames, out, rest),
        _ => Err(ParseFailure::Text(unexpected(Expected::ElseOrClose, cursor))),
    }
}

/// Parses `else` after the `(` that follows the `)` of `(then`.
fn other_part<'p, 'a>(
    label: Name<'p>,
    frames: &mut Frames<'p>,
    out: &mut Vec<Instruction>,
    cursor: TokenCursor<'p, 'a>,
) -> Result<TokenCursor<'p, 'a>, ParseFailure<'p, 'a>>
    ensures { StepsAs
        (spec.other_step (terminals.label label.entry) (terminals_of cursor.entry)
        frames.old)
        out.old.items out.new.items frames.new result }
{
    match cursor.first() {
        Some((DecodedToken::Word(word), rest)) => {
            if reading::is_else(word) {
                step_at_else(label, frames, out, rest)
            } else {
                Err(ParseFailure::Text(unexpected(Expected::Else, cursor)))
            }
        }
        _ => Err(ParseFailure::Text(unexpected(Expected::Else, cursor))),
    }
}

/// Emits `else` and pushes the frame of `(else`, after that keyword.
fn step_at_else<'p, 'a>(
    label: Name<'p>,
    frames: &mut Frames<'p>,
    out: &mut Vec<Instruction>,
    rest: TokenCursor<'p, 'a>,
) -> Result<TokenCursor<'p, 'a>, ParseFailure<'p, 'a>>
    ensures { StepsAs
        (spec.other_part (terminals.label label.entry) (terminals_of rest.entry)
        frames.old)
        out.old.items out.new.items frames.new result }
{
    frames.push(Frame::Else(label))?;
    out.push(ELSE)?;
    Ok(rest)
}

/// Parses the keyword after a `(` inside the innermost part: `then`, or that of a folded
/// instruction.
fn folded<'p, 'a>(
    alloc: Global,
    scope: &Scope<'_, '_>,
    frames: &mut Frames<'p>,
    out: &mut Vec<Instruction>,
    cursor: TokenCursor<'p, 'a>,
) -> Result<TokenCursor<'p, 'a>, ParseFailure<'p, 'a>>
    ensures { StepsFrom
        (λ p ps. spec.open_step (scope_of scope.now) p (terminals_of cursor.entry) ps)
        frames.old out.old.items out.new.items frames.new result }
{
    match cursor.first() {
        Some((DecodedToken::Word(word), rest)) => folded_word(
            alloc, scope, frames, out, word, cursor, rest,
        ),
        _ => Err(ParseFailure::Text(unexpected(Expected::Instruction, cursor))),
    }
}

/// Parses `then` after a condition, or a folded instruction, after `(`. `cursor` begins with the
/// keyword `word`, and `rest` comes after it.
fn folded_word<'p, 'a>(
    alloc: Global,
    scope: &Scope<'_, '_>,
    frames: &mut Frames<'p>,
    out: &mut Vec<Instruction>,
    word: &str,
    cursor: TokenCursor<'p, 'a>,
    rest: TokenCursor<'p, 'a>,
) -> Result<TokenCursor<'p, 'a>, ParseFailure<'p, 'a>>
    ensures { StepsFrom
        (λ p ps. spec.folded_by (scope_of scope.now) p word.now (terminals_of cursor.entry)
        (terminals_of rest.entry) ps)
        frames.old out.old.items out.new.items frames.new result }
{
    if !reading::is_then(word) {
        return folded_instruction(alloc, scope, frames, out, word, cursor, rest);
    }
    match frames.pop() {
        Some(frame) => then_inside(alloc, scope, frame, frames, out, word, cursor, rest),
        None => Err(ParseFailure::Text(unexpected(Expected::Instruction, cursor))),
    }
}

/// Parses `then` after `(` inside `frame`, which is no longer on the stack. After a condition it
/// begins a branch; in any other part it is an unknown instruction. `cursor` begins with the
/// keyword `word`, and `rest` comes after it.
fn then_inside<'p, 'a>(
    alloc: Global,
    scope: &Scope<'_, '_>,
    frame: Frame<'p>,
    frames: &mut Frames<'p>,
    out: &mut Vec<Instruction>,
    word: &str,
    cursor: TokenCursor<'p, 'a>,
    rest: TokenCursor<'p, 'a>,
) -> Result<TokenCursor<'p, 'a>, ParseFailure<'p, 'a>>
    requires { is_then word.now ≡ true }
    ensures { StepsAs
        (spec.folded_by (scope_of scope.now) (part frame.entry) word.now (terminals_of cursor.entry)
        (terminals_of rest.entry) frames.old)
        out.old.items out.new.items frames.new result }
{
    match frame {
        Frame::Condition(instruction, label) => {
            frames.push(Frame::Then(label))?;
            out.push(instruction)?;
            Ok(rest)
        }
        Frame::Body
        | Frame::Block(_, _)
        | Frame::Group(_)
        | Frame::Operands(_)
        | Frame::Then(_)
        | Frame::Else(_) => {
            frames.push(frame)?;
            folded_instruction(alloc, scope, frames, out, word, cursor, rest)
        }
    }
}

/// Parses the keyword and the immediates of a folded instruction, and pushes its frame. `cursor`
/// begins with the keyword `word`, and `rest` comes after it.
fn folded_instruction<'p, 'a>(
    alloc: Global,
    scope: &Scope<'_, '_>,
    frames: &mut Frames<'p>,
    out: &mut Vec<Instruction>,
    word: &str,
    cursor: TokenCursor<'p, 'a>,
    rest: TokenCursor<'p, 'a>,
) -> Result<TokenCursor<'p, 'a>, ParseFailure<'p, 'a>>
    ensures { StepsAs
        (spec.open_by (scope_of scope.now) (structured word.now) (terminals_of cursor.entry)
        (terminals_of rest.entry) frames.old)
        out.old.items out.new.items frames.new result }
{
    match reading::structured(word) {
        Some(opcode) => folded_block(alloc, scope, frames, out, opcode, rest),
        None => {
            let (instruction, rest) = reading::plain(alloc, scope, frames, cursor)?;
            frames.push(Frame::Operands(instruction))?;
            Ok(rest)
        }
    }
}

/// Parses the label and the type of a folded `block`, `loop` or `if` after its keyword, and pushes
/// its frame. An `if` is emitted later, after its condition.
fn folded_block<'p, 'a>(
    alloc: Global,
    scope: &Scope<'_, '_>,
    frames: &mut Frames<'p>,
    out: &mut Vec<Instruction>,
    opcode: u8,
    cursor: TokenCursor<'p, 'a>,
) -> Result<TokenCursor<'p, 'a>, ParseFailure<'p, 'a>>
    ensures { StepsAs
        (spec.open_block (scope_of scope.now) opcode (terminals_of cursor.entry)
        frames.old)
        out.old.items out.new.items frames.new result }
{
    let (label, rest) = reading::label(cursor);
    let (argument, rest) = uses::block_type(alloc, scope, rest)?;
    let instruction = Instruction {
        opcode: Opcode::Byte(opcode),
        argument,
    };
    if opcode == IF {
        frames.push(Frame::Condition(instruction, label))?;
        return Ok(rest);
    }
    frames.push(Frame::Group(label))?;
    out.push(instruction)?;
    Ok(rest)
}

/// Parses `end`, `else` or an instruction that is not folded inside the innermost part. Operands
/// and conditions must be folded. `cursor` begins with the keyword `word`, and `rest` comes after
/// it.
fn at_word<'p, 'a>(
    alloc: Global,
    scope: &Scope<'_, '_>,
    frames: &mut Frames<'p>,
    out: &mut Vec<Instruction>,
    word: &str,
    cursor: TokenCursor<'p, 'a>,
    rest: TokenCursor<'p, 'a>,
) -> Result<TokenCursor<'p, 'a>, ParseFailure<'p, 'a>>
    ensures { StepsFrom
        (λ p ps. spec.word_step (scope_of scope.now) p word.now (terminals_of cursor.entry)
        (terminals_of rest.entry) ps)
        frames.old out.old.items out.new.items frames.new result }
{
    match frames.last() {
        Some(Frame::Block(may_have_else, label)) => {
            let (may_have_else, label) = (*may_have_else, *label);
            at_block_word(
                alloc,
                scope,
                may_have_else,
                label,
                frames,
                out,
                word,
                cursor,
                rest,
            )
        }
        Some(Frame::Body | Frame::Group(_) | Frame::Then(_) | Frame::Else(_)) => instruction(
            alloc, scope, frames, out, word, cursor, rest,
        ),
        Some(Frame::Operands(_)) | None => Err(ParseFailure::Text(unexpected(
            Expected::OpenOrClose,
            cursor,
        ))),
        Some(Frame::Condition(_, _)) => Err(ParseFailure::Text(unexpected(Expected::Then, cursor))),
    }
}

/// Parses `end`, `else` or an instruction that is not folded inside the innermost part, a
/// `block .. end` with this label. It may have an `else` if `may_have_else` is `true`. `cursor`
/// begins with the keyword `word`, and `rest` comes after it.
fn at_block_word<'p, 'a>(
    alloc: Global,
    scope: &Scope<'_, '_>,
    may_have_else: bool,
    label: Name<'p>,
    frames: &mut Frames<'p>,
    out: &mut Vec<Instruction>,
    word: &str,
    cursor: TokenCursor<'p, 'a>,
    rest: TokenCursor<'p, 'a>,
) -> Result<TokenCursor<'p, 'a>, ParseFailure<'p, 'a>>
    ensures { (ps : List Part) →
        frames.old ≡ spec.Block may_have_else (terminals.label label.entry) ∷ ps →
        StepsAs
        (spec.word_step (scope_of scope.now)
        (spec.Block may_have_else (terminals.label label.entry)) word.now
        (terminals_of cursor.entry) (terminals_of rest.entry) ps)
        out.old.items out.new.items frames.new result }
{
    if reading::is_end(word) {
        let rest = reading::end_label(label, rest)?;
        frames.pop();
        out.push(END)?;
        return Ok(rest);
    }
    if may_have_else && reading::is_else(word) {
        let rest = reading::end_label(label, rest)?;
        frames.pop();
        frames.push(Frame::Block(false, label))?;
        out.push(ELSE)?;
        return Ok(rest);
    }
    instruction(alloc, scope, frames, out, word, cursor, rest)
}

/// Parses an instruction that is not folded: a plain one, or the label and the type of a block,
/// whose frame is pushed. `cursor` begins with the keyword `word`, and `rest` comes after it.
#[inline(always)]
fn instruction<'p, 'a>(
    alloc: Global,
    scope: &Scope<'_, '_>,
    frames: &mut Frames<'p>,
    out: &mut Vec<Instruction>,
    word: &str,
    cursor: TokenCursor<'p, 'a>,
    rest: TokenCursor<'p, 'a>,
) -> Result<TokenCursor<'p, 'a>, ParseFailure<'p, 'a>>
    ensures { StepsAs
        (spec.word_by (scope_of scope.now) (structured word.now) (terminals_of cursor.entry)
        (terminals_of rest.entry) frames.old)
        out.old.items out.new.items frames.new result }
{
    match reading::structured(word) {
        Some(opcode) => {
            let (label, rest) = reading::label(rest);
            let (argument, rest) = uses::block_type(alloc, scope, rest)?;
            frames.push(Frame::Block(opcode == IF, label))?;
            out.push(Instruction {
                opcode: Opcode::Byte(opcode),
                argument,
            })?;
            Ok(rest)
        }
        None => match reading::plain(alloc, scope, frames, cursor) {
            Ok((instruction, rest)) => {
                out.push(instruction)?;
                Ok(rest)
            }
            Err(failure) => Err(failure_in(frames, failure)),
        },
    }
}

/// Returns the failure of a plain instruction in the innermost part.
fn failure_in<'p, 'a>(frames: &Frames<'_>, failure: ParseFailure<'p, 'a>) -> ParseFailure<'p, 'a>
    ensures { FailsIn frames.now failure.entry result }
{
    match failure {
        ParseFailure::Text(error) => {
            let kind = kind_in(error.kind, frames);
            ParseFailure::Text(fault(kind, error.left))
        }
        ParseFailure::Memory(_) => failure,
    }
}

/// Returns the kind of an error of a plain instruction in the innermost part. At a keyword that is
/// not an instruction, the grammar accepts what it accepts next in the part.
#[tactic(auto, using(crate::proofs::Stacks::kind_inside, crate::proofs::Stacks::kind_outside))]
fn kind_in(kind: FaultKind, frames: &Frames<'_>) -> FaultKind
    ensures { result ≡ spec.kind_in kind frames.now }
{
    match kind {
        FaultKind::UnknownWord(Expected::Instruction) => match frames.last() {
            Some(frame) => FaultKind::UnknownWord(expected_in(frame)),
            None => kind,
        },
        _ => kind,
    }
}
