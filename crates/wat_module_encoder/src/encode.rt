//! Encodes a module in the binary format.
ghost use Rattle.std.specs.Prelude.{◌≡◌, ◌++◌, IfOk, OnOk, map};
ghost use Rattle.wat_module_ast.specs.ImplicitTypes as implicit;
ghost use Rattle.wat_module_custom.specs.Values.{section_of};
ghost use Rattle.wat_module_encoder.specs.CustomSections as custom;
ghost use Rattle.wat_module_ast.specs.Views.{fields_of};
ghost use Rattle.wat_module_tokens.specs.Terminals.{label};
ghost use Rattle.wat_module_encoder.specs.Binary as binary;
ghost use Rattle.wat_module_encoder.specs.NameSection.{name_section};

use crate::code::put_codes;
use crate::customs::put_customs;
use crate::data::{data_of, put_data, put_data_count};
use crate::elements::{elements_of, put_elements};
use crate::exports::{exports_of, put_exports};
use crate::functions::put_functions;
use crate::globals::put_globals;
use crate::imports::put_imports;
use crate::memories::put_memories;
use crate::names::put_names;
use crate::start::put_start;
use crate::tables::put_tables;
use crate::types::put_types;
use std::alloc::{AllocError, Global};
use wat_module_ast::fields::Field;
use wat_module_ast::implicit_types::types_of;
use wat_module_ast::indexed_types::IndexedTypes;
use wat_module_custom::sections::{Anchor, CustomSection, Place, Side};
use wat_module_tokens::token::Name;

/// The magic number `\0asm` and version 1.
const HEADER: [u8; 8] = [0x00, 0x61, 0x73, 0x6D, 0x01, 0x00, 0x00, 0x00];

/// Returns the encoding of a module in the binary format.
///
/// Sections without content are left out, and custom sections are not generated;
/// `put_name_section` appends the name section.
///
/// # Errors
///
/// Fails if an allocation fails, if the strings of a data segment have 2^63 bytes or more together,
/// or if a function has 2^64 or more consecutive locals of one type.
#[tactic(auto, unfolding(crate::specs::Binary::module_bytes))]
pub fn module_bytes(alloc: Global, fields: &[Field<'_>]) -> Result<Vec<u8>, AllocError>
    ensures { IfOk result (λ bytes. bytes.items ≡ binary.module_bytes (fields_of fields.now)) }
{
    let mut bytes = Vec::new(alloc);
    bytes.extend_from_slice(&HEADER)?;
    let types = types_of(alloc, fields)?;
    put_types(alloc, &mut bytes, types.as_slice())?;
    put_imports(alloc, &mut bytes, &types, fields)?;
    put_functions(alloc, &mut bytes, &types, fields)?;
    put_tables(alloc, &mut bytes, fields)?;
    put_memories(alloc, &mut bytes, fields)?;
    put_globals(alloc, &mut bytes, &types, fields)?;
    let exports = exports_of(alloc, fields)?;
    put_exports(alloc, &mut bytes, &exports)?;
    put_start(alloc, &mut bytes, fields)?;
    let elements = elements_of(alloc, fields)?;
    put_elements(alloc, &mut bytes, &types, &elements)?;
    let segments = data_of(alloc, fields)?;
    put_data_count(alloc, &mut bytes, fields, &segments)?;
    put_codes(alloc, &mut bytes, &types, fields)?;
    put_data(alloc, &mut bytes, &types, &segments)?;
    Ok(bytes)
}

/// Appends the name section of a module to its encoding: the identifier `name` of the module, and
/// the identifiers of its items, without `$`, by their indices. Appends nothing if there are none.
///
/// # Errors
///
/// Fails if an allocation fails.
pub fn put_name_section(
    alloc: Global,
    bytes: &mut Vec<u8>,
    name: Name<'_>,
    fields: &[Field<'_>],
) -> Result<(), AllocError>
    ensures { OnOk result (bytes.new.items ≡
        bytes.old.items ++ name_section (label name.entry) (fields_of fields.now)) }
{
    put_names(alloc, bytes, name, fields)
}

/// Returns the encoding of a module with its name section and with custom sections.
///
/// # Errors
///
/// Fails if an allocation fails, if the strings of a data segment have 2^63 bytes or more together,
/// or if a function has 2^64 or more consecutive locals of one type.
#[tactic(auto, unfolding(crate::specs::CustomSections::complete_bytes))]
pub fn complete_bytes(
    alloc: Global,
    name: Name<'_>,
    fields: &[Field<'_>],
    customs: &[CustomSection<'_>],
) -> Result<Vec<u8>, AllocError>
    ensures { IfOk result (λ bytes. bytes.items ≡
        custom.complete_bytes (label name.entry) (fields_of fields.now)
        (map section_of customs.now)) }
{
    let types = types_of(alloc, fields)?;
    let mut bytes = first_sections(alloc, &types, fields, customs)?;
    put_middle_sections(alloc, &mut bytes, &types, fields, customs)?;
    put_last_sections(alloc, &mut bytes, &types, fields, customs)?;
    put_name_section(alloc, &mut bytes, name, fields)?;
    put_customs(alloc, &mut bytes, Place::AfterLast, customs)?;
    Ok(bytes)
}

/// Appends the custom sections directly before a section.
fn put_before(
    alloc: Global,
    bytes: &mut Vec<u8>,
    anchor: Anchor,
    customs: &[CustomSection<'_>],
) -> Result<(), AllocError>
    ensures { OnOk result (bytes.new.items ≡ bytes.old.items ++
        custom.customs_at (Place.Around Side.Before anchor) (map section_of customs.now)) }
{
    put_customs(alloc, bytes, Place::Around(Side::Before, anchor), customs)
}

/// Appends the custom sections directly after a section.
fn put_after(
    alloc: Global,
    bytes: &mut Vec<u8>,
    anchor: Anchor,
    customs: &[CustomSection<'_>],
) -> Result<(), AllocError>
    ensures { OnOk result (bytes.new.items ≡ bytes.old.items ++
        custom.customs_at (Place.Around Side.After anchor) (map section_of customs.now)) }
{
    put_customs(alloc, bytes, Place::Around(Side::After, anchor), customs)
}

/// Encodes the header and the sections up to that of memories.
#[tactic(auto, unfolding(crate::specs::CustomSections::first_sections))]
fn first_sections(
    alloc: Global,
    types: &IndexedTypes,
    fields: &[Field<'_>],
    customs: &[CustomSection<'_>],
) -> Result<Vec<u8>, AllocError>
    requires { types.now ≡ implicit.types_of (fields_of fields.now) }
    ensures { IfOk result (λ bytes. bytes.items ≡
        custom.first_sections (fields_of fields.now) (map section_of customs.now)) }
{
    let mut bytes = Vec::new(alloc);
    bytes.extend_from_slice(&HEADER)?;
    put_customs(alloc, &mut bytes, Place::BeforeFirst, customs)?;
    put_before(alloc, &mut bytes, Anchor::Type, customs)?;
    put_types(alloc, &mut bytes, types.as_slice())?;
    put_after(alloc, &mut bytes, Anchor::Type, customs)?;
    put_before(alloc, &mut bytes, Anchor::Import, customs)?;
    put_imports(alloc, &mut bytes, types, fields)?;
    put_after(alloc, &mut bytes, Anchor::Import, customs)?;
    put_before(alloc, &mut bytes, Anchor::Func, customs)?;
    put_functions(alloc, &mut bytes, types, fields)?;
    put_after(alloc, &mut bytes, Anchor::Func, customs)?;
    put_before(alloc, &mut bytes, Anchor::Table, customs)?;
    put_tables(alloc, &mut bytes, fields)?;
    put_after(alloc, &mut bytes, Anchor::Table, customs)?;
    put_before(alloc, &mut bytes, Anchor::Memory, customs)?;
    put_memories(alloc, &mut bytes, fields)?;
    put_after(alloc, &mut bytes, Anchor::Memory, customs)?;
    Ok(bytes)
}

/// Appends the sections from that of globals to that of elements.
#[tactic(auto, unfolding(crate::specs::CustomSections::middle_sections))]
fn put_middle_sections(
    alloc: Global,
    bytes: &mut Vec<u8>,
    types: &IndexedTypes,
    fields: &[Field<'_>],
    customs: &[CustomSection<'_>],
) -> Result<(), AllocError>
    requires { types.now ≡ implicit.types_of (fields_of fields.now) }
    ensures { OnOk result (bytes.new.items ≡ custom.middle_sections (fields_of fields.now)
        (map section_of customs.now) bytes.old.items) }
{
    put_before(alloc, bytes, Anchor::Tag, customs)?;
    put_after(alloc, bytes, Anchor::Tag, customs)?;
    put_before(alloc, bytes, Anchor::Global, customs)?;
    put_globals(alloc, bytes, types, fields)?;
    put_after(alloc, bytes, Anchor::Global, customs)?;
    let exports = exports_of(alloc, fields)?;
    put_before(alloc, bytes, Anchor::Export, customs)?;
    put_exports(alloc, bytes, &exports)?;
    put_after(alloc, bytes, Anchor::Export, customs)?;
    put_before(alloc, bytes, Anchor::Start, customs)?;
    put_start(alloc, bytes, fields)?;
    put_after(alloc, bytes, Anchor::Start, customs)?;
    let elements = elements_of(alloc, fields)?;
    put_before(alloc, bytes, Anchor::Elem, customs)?;
    put_elements(alloc, bytes, types, &elements)?;
    put_after(alloc, bytes, Anchor::Elem, customs)
}

/// Appends the sections from that of the data count to that of data.
#[tactic(auto, unfolding(crate::specs::CustomSections::last_sections))]
fn put_last_sections(
    alloc: Global,
    bytes: &mut Vec<u8>,
    types: &IndexedTypes,
    fields: &[Field<'_>],
    customs: &[CustomSection<'_>],
) -> Result<(), AllocError>
    requires { types.now ≡ implicit.types_of (fields_of fields.now) }
    ensures { OnOk result (bytes.new.items ≡ custom.last_sections (fields_of fields.now)
        (map section_of customs.now) bytes.old.items) }
{
    let segments = data_of(alloc, fields)?;
    put_before(alloc, bytes, Anchor::DataCount, customs)?;
    put_data_count(alloc, bytes, fields, &segments)?;
    put_after(alloc, bytes, Anchor::DataCount, customs)?;
    put_before(alloc, bytes, Anchor::Code, customs)?;
    put_codes(alloc, bytes, types, fields)?;
    put_after(alloc, bytes, Anchor::Code, customs)?;
    put_before(alloc, bytes, Anchor::Data, customs)?;
    put_data(alloc, bytes, types, &segments)?;
    put_after(alloc, bytes, Anchor::Data, customs)
}
