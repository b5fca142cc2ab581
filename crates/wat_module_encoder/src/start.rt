//! Encodes the start section.
ghost use Rattle.std.specs.Prelude.{◌≡◌, ◌+◌, ◌++◌, [], OnOk, MatchOption};
ghost use Rattle.wat_module_ast.specs.Fields as grammar;
ghost use Rattle.wat_module_ast.specs.Views.{fields_of};
ghost use Rattle.wat_lex.specs.binary.Leb128.{unsigned_leb128};
ghost use Rattle.wat_module_encoder.specs.Binary as binary;

use crate::bytes::{put, put_sized};
use std::alloc::{AllocError, Global};
use wat_module_ast::fields::Field;

/// Returns the index of the first start function, or `None` if there is none.
fn start_of(fields: &[Field<'_>]) -> Option<usize>
    ensures { MatchOption result
        (grammar.starts_of (fields_of fields.now) ≡ [])
        (λ i. binary.start_section (fields_of fields.now) ≡ binary.section 8 (unsigned_leb128 i)) }
{
    for field in fields {
        if let Field::Start(index) = field {
            return Some(*index);
        }
    }
    None
}

/// Appends the start section, if there is a start function.
pub(crate) fn put_start(
    alloc: Global,
    out: &mut Vec<u8>,
    fields: &[Field<'_>],
) -> Result<(), AllocError>
    ensures { OnOk result (out.new.items ≡
        out.old.items ++ binary.start_section (fields_of fields.now)) }
{
    match start_of(fields) {
        Some(index) => {
            let mut content = Vec::new(alloc);
            put(&mut content, index)?;
            out.push(8)?;
            put_sized(out, &content)
        }
        None => Ok(()),
    }
}
