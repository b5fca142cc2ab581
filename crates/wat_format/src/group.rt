//! Groups of tokens in parentheses, and the levels of their lines.
ghost use Rattle.std.specs.Prelude.{◌≡◌, ◌≤◌, ◌<◌, ◌+◌, ◌^◌, OnOk};
ghost use Rattle.wat_format.specs.declared.sort.Sort.TheVariants.{Open};
ghost use Rattle.wat_format.specs.Layout.{closed, groups_after, level, start};

use crate::sort::Sort;
use std::alloc::{AllocError, Global};
use std::marker::Model;

/// Highest level of a line.
const HIGHEST: u64 = 50;

/// A group in parentheses, or the whole text.
#[derive(Clone, Copy)]
pub struct Group {
    /// Level of its lines outside of flat blocks.
    pub floor: u32,
    /// Number of flat blocks that are open in it.
    pub blocks: u32,
}

impl Group {
    /// Returns the level of a line of the group that begins with a token of this sort.
    fn level(self, sort: Sort) -> u32
        ensures level { result ≡ level sort self }
        ensures low { result ≤ 50 }
    {
        let floor = u64::from(self.floor);
        let blocks = u64::from(self.blocks);
        let depth = match sort {
            Sort::Close => floor.saturating_sub(1),
            Sort::Ends | Sort::Parts => floor + blocks.saturating_sub(1),
            _ => floor + blocks,
        };
        depth.min(HIGHEST) as u32
    }
}

/// The open groups. Each occupies 8 bytes.
#[derive(Drop)]
pub struct Groups {
    inner: Group,
    around: Vec<Group>,
}

impl Model for Groups {
    ghost use Rattle.std.specs.Prelude.{reverse};
    ghost use Rattle.wat_format.specs.Layout.{Groups};

    ghost Value = { Groups };

    ghost view = { λ g. record { open_group = g.inner; around = reverse g.around.items } };
}

impl Groups {
    /// Returns the groups at the start of a text: only the group of the whole text is open.
    pub fn new(alloc: Global) -> Groups
        ensures { result ≡ start.groups }
    {
        Groups {
            inner: Group {
                floor: 0,
                blocks: 0,
            },
            around: Vec::new(alloc),
        }
    }

    /// Returns the level of a line that begins with a token of this sort.
    pub fn level(&self, sort: Sort) -> u32
        ensures level { result ≡ level sort self.now.open_group }
        ensures low { result ≤ 50 }
    {
        self.inner.level(sort)
    }

    /// Opens a group on a line of this level.
    fn enter(&mut self, line: u32) -> Result<(), AllocError>
        requires { line ≤ 50 }
        ensures { OnOk result (self.new ≡ groups_after Open line self.old) }
    {
        self.around.push(self.inner)?;
        self.inner = Group {
            floor: line + 1,
            blocks: 0,
        };
        Ok(())
    }

    /// Closes the innermost group. Does nothing if only the group of the whole text is open.
    fn leave(&mut self)
        ensures { self.new ≡ closed self.old.open_group self.old.around }
    {
        if let Some(outer) = self.around.pop() {
            self.inner = outer;
        }
    }

    /// Advances past a token of this sort, on a line of this level.
    pub fn pass(&mut self, sort: Sort, line: u32) -> Result<(), AllocError>
        requires line { line ≤ 50 }
        requires few { self.old.open_group.blocks + 1 < 2 ^ 32 }
        ensures { OnOk result (self.new ≡ groups_after sort line self.old) }
    {
        match sort {
            Sort::Open => return self.enter(line),
            Sort::Close => self.leave(),
            Sort::Begins => self.inner.blocks += 1,
            Sort::Ends => self.inner.blocks = self.inner.blocks.saturating_sub(1),
            _ => {}
        }
        Ok(())
    }
}
