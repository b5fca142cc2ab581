//! The stack of the parser of instructions.
ghost use Rattle.std.specs.Prelude.{◌≡◌, [], ◌∷◌, OnOk, MatchOption, Some, None};
ghost use Rattle.wat_module_ast.specs.Grammar.{position};
ghost use Rattle.wat_module_instructions.specs.Machine.{bound, labels_in};
ghost use Rattle.wat_module_instructions.specs.Stack.{part};
ghost use Rattle.wat_module_instructions.specs.Named.{innermost};
ghost use Rattle.wat_module_tokens.specs.Terminals.{label};

use crate::open_labels::Labels;
use std::alloc::{AllocError, Global};
use std::marker::Model;
use wat_module_ast::instruction::Instruction;
use wat_module_tokens::token::Name;

/// An open part of the instructions, on the stack of the parser.
#[derive(Drop)]
pub enum Frame<'p> {
    /// The body, which ends with `)`.
    Body,
    /// A block that ends with `end`: whether it may have an `else`, and its label.
    Block(bool, Name<'p>),
    /// A folded `block` or `loop`, and its label.
    Group(Name<'p>),
    /// A folded plain instruction, which is emitted after its operands.
    Operands(Instruction),
    /// A folded `if` before its `(then`: the instruction, which is emitted after the condition, and
    /// its label.
    Condition(Instruction, Name<'p>),
    /// The `(then ..)` of a folded `if`, and the label of the `if`.
    Then(Name<'p>),
    /// The `(else ..)` of a folded `if`, and the label of the `if`.
    Else(Name<'p>),
}

/// The stack of open parts, and the labels that they bind.
#[derive(Drop)]
pub struct Frames<'p> {
    /// The innermost part is last.
    open: Vec<Frame<'p>>,
    /// Number of labels that the parts bind.
    height: usize,
    /// The labels that have an identifier.
    labels: Labels<'p>,
}

impl<'p> Model for Frames<'p> {
    ghost use Rattle.std.specs.Prelude.{List};
    ghost use Rattle.wat_module_instructions.specs.Machine.{Part};

    ghost Value = { List Part };

    ghost use Rattle.std.specs.Prelude.{◌≡◌, length};
    ghost use Rattle.wat_module_instructions.specs.Machine.{labels_in};
    ghost use Rattle.wat_module_instructions.specs.Named.{named};
    ghost use Rattle.wat_module_instructions.specs.Stack.{stack};

    ghost view = { λ f. stack f.open.items };

    ghost invariant = { λ f.
        (f.height ≡ length (labels_in (stack f.open.items))) ×
        (f.labels ≡ named (labels_in (stack f.open.items))) };
}

impl<'p> Frames<'p> {
    /// Returns an empty stack. Does not allocate.
    pub fn new(alloc: Global) -> Frames<'p>
        ensures { result ≡ [] }
    {
        Frames {
            open: Vec::new(alloc),
            height: 0,
            labels: Labels::none(alloc),
        }
    }

    /// Opens a part inside the others.
    #[inline(always)]
    pub fn push(&mut self, frame: Frame<'p>) -> Result<(), AllocError>
        ensures { OnOk result (self.new ≡ part frame.entry ∷ self.old) }
    {
        match bound(&frame) {
            None => {
                self.open.push(frame)?;
            }
            Some(Name::Absent) => {
                self.open.push(frame)?;
                self.height += 1;
            }
            Some(Name::Given(name)) => {
                self.open.reserve(1)?;
                self.labels.push(name, self.height)?;
                self.open.push(frame)?;
                self.height += 1;
            }
        }
        Ok(())
    }

    /// Closes the innermost part and returns it. Does not allocate.
    #[inline(always)]
    pub fn pop(&mut self) -> Option<Frame<'p>>
        ensures { MatchOption result
            (self.old ≡ [])
            (λ f. self.old ≡ part f ∷ self.new) }
    {
        let Some(frame) = self.open.pop() else {
            return None;
        };
        match bound(&frame) {
            None => {}
            Some(Name::Absent) => {
                self.height -= 1;
            }
            Some(Name::Given(_)) => {
                self.height -= 1;
                self.labels.pop();
            }
        }
        Some(frame)
    }

    /// Returns the innermost part.
    #[inline(always)]
    pub fn last(&self) -> Option<&Frame<'p>>
        ensures { MatchOption result
            (innermost self.now ≡ None)
            (λ f. innermost self.now ≡ Some (part f.now)) }
    {
        match self.open.as_slice() {
            [.., frame] => Some(frame),
            [] => None,
        }
    }

    /// Returns the index of the innermost label with this identifier: the number of open labels
    /// inside it. Returns `None` if no open label has it.
    pub fn position(&self, name: &str) -> Option<usize>
        ensures { result ≡ position 0 name.now (labels_in self.now) }
    {
        match self.labels.height(name) {
            Some(height) => Some(self.height - 1 - height),
            None => None,
        }
    }
}

/// Returns the label that a frame binds, if it binds one. The body binds a label without an
/// identifier.
#[inline(always)]
fn bound<'p>(frame: &Frame<'p>) -> Option<Name<'p>>
    ensures { MatchOption result
        (bound (part frame.now) ≡ [])
        (λ l. bound (part frame.now) ≡ label l ∷ []) }
{
    match *frame {
        Frame::Body => Some(Name::Absent),
        Frame::Block(_, label) | Frame::Group(label) | Frame::Then(label) | Frame::Else(label) =>
            Some(label),
        Frame::Operands(_) | Frame::Condition(_, _) => None,
    }
}
