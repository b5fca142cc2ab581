//! Counts the items of each index space that fields define or import.
ghost use Rattle.std.specs.Prelude.{◌≡◌, ◌^◌};
ghost use Rattle.wat_module_ast.specs.Fields as grammar;
ghost use Rattle.wat_module_ast.specs.Views.{extern_of, field_of};
ghost use Rattle.wat_module_encoder.specs.Views.{AreBelow, count, counted, counts_of, more};

use std::alloc::Global;
use wat_module_ast::fields::{Export, ExternType, Field, Import, IndexSpace};

/// The number of items in each index space before a field, which is the index of the next item.
#[derive(Clone, Copy)]
pub(crate) struct Counts {
    pub(crate) funcs: usize,
    pub(crate) tables: usize,
    pub(crate) memories: usize,
    pub(crate) globals: usize,
}

/// The counts before the first field, all 0.
pub(crate) const NO_ITEMS: Counts = Counts {
    funcs: 0,
    tables: 0,
    memories: 0,
    globals: 0,
};

/// Returns the counts after one more item in an index space. All counts must be below 2^63.
fn more(counts: Counts, space: IndexSpace) -> Counts
    requires { AreBelow (counts_of counts) (2 ^ 63) }
    ensures { counts_of result ≡ more space (counts_of counts) }
{
    let mut counts = counts;
    match space {
        IndexSpace::Func => counts.funcs += 1,
        IndexSpace::Table => counts.tables += 1,
        IndexSpace::Mem => counts.memories += 1,
        IndexSpace::Global => counts.globals += 1,
    }
    counts
}

/// Returns the number of items in an index space, according to `counts`.
pub(crate) fn count(counts: Counts, space: IndexSpace) -> usize
    ensures { result ≡ count space (counts_of counts) }
{
    match space {
        IndexSpace::Func => counts.funcs,
        IndexSpace::Table => counts.tables,
        IndexSpace::Mem => counts.memories,
        IndexSpace::Global => counts.globals,
    }
}

/// Returns the index space of an imported item.
pub(crate) fn extern_space(what: &ExternType) -> IndexSpace
    ensures { result ≡ grammar.extern_space (extern_of what.now) }
{
    match what {
        ExternType::Func(_) => IndexSpace::Func,
        ExternType::Table(_) => IndexSpace::Table,
        ExternType::Memory(_) => IndexSpace::Mem,
        ExternType::Global(_) => IndexSpace::Global,
    }
}

/// Returns the counts after a field, which adds at most one item. All counts must be below 2^63.
pub(crate) fn counted(counts: Counts, field: &Field<'_>) -> Counts
    requires { AreBelow (counts_of counts) (2 ^ 63) }
    ensures { counts_of result ≡ counted (field_of field.now) (counts_of counts) }
{
    match field {
        Field::Func(_) => more(counts, IndexSpace::Func),
        Field::Table(_) => more(counts, IndexSpace::Table),
        Field::Memory(_) => more(counts, IndexSpace::Mem),
        Field::Global(_) => more(counts, IndexSpace::Global),
        Field::Import(import) => more(counts, extern_space(&import.what)),
        Field::Type(_) | Field::Export(_) | Field::Start(_) | Field::Data(_) | Field::Elem(_) =>
            counts,
    }
}
