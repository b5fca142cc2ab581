//! Labels of `br_table`.
ghost use Rattle.std.specs.Prelude.{◌≡◌, IfOk};
ghost use Rattle.wat_module_ast.specs.Branches.{branches};

use std::alloc::{AllocError, AllocFailed, Global};
use std::marker::Model;

/// Label indices of a `br_table`: those of its table, and the default.
#[derive(Drop)]
struct Branches {
    labels: Vec<usize>,
    last: usize,
}

/// Boxed label indices of a `br_table`.
#[derive(Drop)]
pub struct BranchTable {
    inner: Box<Branches>,
}

impl Model for BranchTable {
    ghost use Rattle.wat_module_ast.specs.Branches.{Branches, branches};

    ghost Value = { Branches };

    ghost view = { λ t. branches t.inner.value.labels.items t.inner.value.last };
}

impl BranchTable {
    /// Boxes the label indices of a `br_table`. `last` is the default label.
    pub fn new(alloc: Global, labels: Vec<usize>, last: usize) -> Result<BranchTable, AllocError>
        ensures { IfOk result (λ table. table ≡ branches labels.items last) }
    {
        match Box::new(alloc, Branches { labels, last }) {
            Ok(inner) => Ok(BranchTable { inner }),
            Err(failed) => Err(AllocError::from(failed)),
        }
    }

    /// Returns the label indices of the table, without the default.
    pub fn labels(&self) -> &[usize]
        ensures { result.now ≡ self.now.labels }
    {
        &self.inner.labels
    }

    /// Returns the index of the default label.
    pub fn last(&self) -> usize
        ensures { result ≡ self.now.default }
    {
        self.inner.last
    }
}
