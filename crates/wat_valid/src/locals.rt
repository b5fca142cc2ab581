//! The types of the locals of a function, by their indices.
ghost use Rattle.std.specs.Prelude.{◌≡◌, IfOk, slice_get};
ghost use Rattle.std.specs.List.{flat_map};
ghost use Rattle.wat_module_ast.specs.Views.{local_types};
ghost use Rattle.wat_valid.specs.LocalRuns.{RunEnds};

use std::alloc::{AllocError, Global};
use std::marker::Model;
use wat_module_ast::fields::Locals;
use wat_module_ast::instruction::ValueType;

/// Types of the locals of a function, without its parameters. A local is found by a binary search
/// in the runs of locals.
#[derive(Drop)]
pub struct LocalTypes<'m> {
    /// Runs of locals of one type.
    runs: &'m [Locals],
    /// For each run, the number of locals in it and in the runs before it. The list ends before the
    /// first run for which this number is too large for an index.
    ends: Vec<usize>,
}

impl<'m> Model for LocalTypes<'m> {
    ghost use Rattle.std.specs.Prelude.{List};
    ghost use Rattle.std.specs.List.{flat_map};
    ghost use Rattle.wat_module_ast.specs.declared.instruction.ValueType.{ValueType};
    ghost use Rattle.wat_module_ast.specs.Views.{local_types};
    ghost use Rattle.wat_valid.specs.LocalRuns.{RunEnds};

    ghost Value = { List ValueType };

    ghost view = { λ l. flat_map local_types l.runs.now };

    ghost invariant = { λ l. RunEnds l.runs.now l.ends.items };
}

impl<'m> LocalTypes<'m> {
    /// Returns the types of the locals in these runs.
    pub fn new(alloc: Global, runs: &'m [Locals]) -> Result<LocalTypes<'m>, AllocError>
        ensures { IfOk result (λ types. types ≡ flat_map local_types runs.now) }
    {
        let ends = run_ends(alloc, runs)?;
        Ok(LocalTypes { runs, ends })
    }

    /// Returns the type of the local with this index, or `None` if the index is out of range.
    pub fn get(&self, index: usize) -> Option<ValueType>
        ensures { result ≡ slice_get self.now index }
    {
        let run = self.ends.partition_point(|end| *end <= index);
        match self.runs.get(run) {
            Some(run) => Some(run.of),
            None => None,
        }
    }
}

/// Returns, for each run, the number of locals in it and in the runs before it, up to the first run
/// for which this number is too large for an index.
fn run_ends(alloc: Global, runs: &[Locals]) -> Result<Vec<usize>, AllocError>
    ensures { IfOk result (λ ends. RunEnds runs.now ends.items) }
{
    let mut ends = Vec::with_capacity(alloc, runs.len())?;
    let mut count: usize = 0;
    for run in runs {
        let Some(end) = count.checked_add(run.count) else {
            return Ok(ends);
        };
        ends.push(end)?;
        count = end;
    }
    Ok(ends)
}
