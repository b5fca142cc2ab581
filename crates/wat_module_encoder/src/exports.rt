//! Encodes the export section.
ghost use Rattle.std.specs.Prelude.{◌≡◌, ◌+◌, ◌++◌, OnOk, IfOk, map};
ghost use Rattle.wat_module_ast.specs.Views.{field_of, fields_of, text_of};
ghost use Rattle.wat_module_encoder.specs.Binary as binary;
ghost use Rattle.wat_module_encoder.specs.Views.{counts_of, export_of, exports_by};

use crate::bytes::{put, put_section, put_sized};
use crate::indices::{Counts, NO_ITEMS, count, counted, extern_space};
use std::alloc::{AllocError, Global};
use wat_module_ast::fields::{Export, Field, Import, IndexSpace};

/// Appends an export of one item under each of its names.
fn push_names<'p>(
    exports: &mut Vec<Export<'p>>,
    names: &[&'p [u8]],
    space: IndexSpace,
    index: usize,
) -> Result<(), AllocError>
    ensures { OnOk result (map export_of exports.new.items ≡
        map export_of exports.old.items ++
        map (binary.export space index) (map text_of names.now)) }
{
    for name in names {
        exports.push(Export { name, space, index })?;
    }
    Ok(())
}

/// Appends the exports of a field: its inline exports, or the one that it consists of. `counts`
/// must be the counts of the fields before it.
fn push_exports<'p>(
    exports: &mut Vec<Export<'p>>,
    counts: Counts,
    field: &Field<'p>,
) -> Result<(), AllocError>
    ensures { OnOk result (map export_of exports.new.items ≡
        map export_of exports.old.items ++ exports_by (counts_of counts) (field_of field.now)) }
{
    match field {
        Field::Func(f) => push_names(exports, &f.exports, IndexSpace::Func, counts.funcs),
        Field::Import(i) => {
            let space = extern_space(&i.what);
            push_names(exports, &i.exports, space, count(counts, space))
        }
        Field::Table(t) => push_names(exports, &t.exports, IndexSpace::Table, counts.tables),
        Field::Memory(m) => push_names(exports, &m.exports, IndexSpace::Mem, counts.memories),
        Field::Global(g) => push_names(exports, &g.exports, IndexSpace::Global, counts.globals),
        Field::Export(export) => {
            exports.push(*export)?;
            Ok(())
        }
        Field::Type(_) | Field::Start(_) | Field::Data(_) | Field::Elem(_) => Ok(()),
    }
}

/// Returns the exports of a module in the order of the source, inline ones included.
#[tactic(auto, unfolding(crate::specs::Binary::exports_of))]
pub(crate) fn exports_of<'p>(
    alloc: Global,
    fields: &[Field<'p>],
) -> Result<Vec<Export<'p>>, AllocError>
    ensures { IfOk result (λ exports. map export_of exports.items ≡
        binary.exports_of (fields_of fields.now)) }
{
    let mut exports = Vec::new(alloc);
    let mut counts = NO_ITEMS;
    for field in fields {
        push_exports(&mut exports, counts, field)?;
        counts = counted(counts, field);
    }
    Ok(exports)
}

/// Returns the byte of an index space in an export: `0x00` to `0x03`.
fn space_byte(space: IndexSpace) -> u8
    ensures { result ≡ binary.space_byte space }
{
    match space {
        IndexSpace::Func => 0x00,
        IndexSpace::Table => 0x01,
        IndexSpace::Mem => 0x02,
        IndexSpace::Global => 0x03,
    }
}

/// Appends the export section: the name, index space and index of each export.
pub(crate) fn put_exports(
    alloc: Global,
    out: &mut Vec<u8>,
    exports: &[Export<'_>],
) -> Result<(), AllocError>
    ensures { OnOk result (out.new.items ≡
        out.old.items ++ binary.list_section 7 binary.export_bytes (map export_of exports.now)) }
{
    let mut items = Vec::new(alloc);
    for export in exports {
        put_sized(&mut items, export.name)?;
        items.push(space_byte(export.space))?;
        put(&mut items, export.index)?;
    }
    put_section(alloc, out, 7, exports.len(), &items)
}
