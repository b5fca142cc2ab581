//! The stack of the open groups of a text.
ghost use Rattle.std.specs.Prelude.{◌≡◌, ◌∷◌, [], MatchOption, OnOk};
ghost use Rattle.wat_module_places.specs.Walk.{group_of};

use std::alloc::{AllocError, Global};
use std::marker::Model;
use wat_module_tokens::stream::TokenCursor;

/// An open group.
#[derive(Clone, Copy)]
pub enum Group<'p, 'a> {
    /// A folded plain instruction, whose keyword is here. It comes after its operands.
    Operands(TokenCursor<'p, 'a>),
    /// A folded `if` before its `(then`, whose keyword is here. It comes after its condition.
    Condition(TokenCursor<'p, 'a>),
    /// A folded `block` or `loop`, or a folded `if` after its `(then`. Its `)` is an `end`.
    Ended,
    /// Any other group.
    Unplaced,
}

/// The open groups.
#[derive(Drop)]
pub struct Groups<'p, 'a> {
    /// The innermost is last.
    open: Vec<Group<'p, 'a>>,
}

impl<'p, 'a> Model for Groups<'p, 'a> {
    ghost use Rattle.std.specs.Prelude.{List, map, reverse};
    ghost use Rattle.wat_module_places.specs.Walk as walk;

    ghost Value = { List walk.Group };

    ghost view = { λ g. reverse (map walk.group_of g.open.items) };
}

impl<'p, 'a> Groups<'p, 'a> {
    /// Returns no groups. Does not allocate.
    pub fn new(alloc: Global) -> Groups<'p, 'a>
        ensures { result ≡ [] }
    {
        Groups {
            open: Vec::new(alloc),
        }
    }

    /// Opens a group inside the others.
    pub fn push(&mut self, group: Group<'p, 'a>) -> Result<(), AllocError>
        ensures { OnOk result (self.new ≡ group_of group.entry ∷ self.old) }
    {
        self.open.push(group)?;
        Ok(())
    }

    /// Closes the innermost group and returns it.
    pub fn pop(&mut self) -> Option<Group<'p, 'a>>
        ensures { MatchOption result
            ((self.old ≡ []) × (self.new ≡ []))
            (λ g. self.old ≡ group_of g ∷ self.new) }
    {
        self.open.pop()
    }
}
