//! Encodes custom sections.
ghost use Rattle.std.specs.Prelude.{◌≡◌, ◌++◌, map, OnOk};
ghost use Rattle.std.specs.Cow.{cow_slice_items};
ghost use Rattle.std.specs.List.{flat_map};
ghost use Rattle.wat_module_custom.specs.Values.{section_of};
ghost use Rattle.wat_module_encoder.specs.CustomSections as custom;

use crate::bytes::{put_byte, put_bytes, put_sized};
use std::alloc::{AllocError, Global};
use std::borrow::CowSlice;
use wat_module_custom::sections::{Anchor, CustomSection, Place, Side};

/// Returns the position of a section among the sections of a module.
fn position(anchor: Anchor) -> u8
    ensures { result ≡ custom.position anchor }
{
    match anchor {
        Anchor::Type => 1,
        Anchor::Import => 2,
        Anchor::Func => 3,
        Anchor::Table => 4,
        Anchor::Memory => 5,
        Anchor::Tag => 6,
        Anchor::Global => 7,
        Anchor::Export => 8,
        Anchor::Start => 9,
        Anchor::Elem => 10,
        Anchor::DataCount => 11,
        Anchor::Code => 12,
        Anchor::Data => 13,
    }
}

/// Returns `true` if two placements are equal.
fn is_place(a: Place, b: Place) -> bool
    ensures { result ≡ custom.is_place a b }
{
    match (a, b) {
        (Place::BeforeFirst, Place::BeforeFirst) | (Place::AfterLast, Place::AfterLast) => true,
        (Place::Around(Side::Before, a), Place::Around(Side::Before, b))
        | (Place::Around(Side::After, a), Place::Around(Side::After, b)) => {
            position(a) == position(b)
        }
        _ => false,
    }
}

/// Appends the values of strings, one after another.
fn put_values(out: &mut Vec<u8>, values: &[CowSlice<'_, u8>]) -> Result<(), AllocError>
    ensures { OnOk result (out.new.items ≡
        out.old.items ++ flat_map (λ v. v) (map cow_slice_items values.now)) }
{
    for value in values {
        put_bytes(out, value)?;
    }
    Ok(())
}

/// Appends a custom section.
fn put_custom(
    alloc: Global,
    out: &mut Vec<u8>,
    section: &CustomSection<'_>,
) -> Result<(), AllocError>
    ensures { OnOk result (out.new.items ≡
        out.old.items ++ custom.custom_bytes (section_of section.now)) }
{
    let mut content = Vec::new(alloc);
    put_sized(&mut content, section.name.as_bytes())?;
    put_values(&mut content, &section.data)?;
    put_byte(out, 0)?;
    put_sized(out, &content)
}

/// Appends the custom sections at a placement, in their order.
#[tactic(auto, unfolding(crate::specs::CustomSections::customs_at))]
pub(crate) fn put_customs(
    alloc: Global,
    out: &mut Vec<u8>,
    place: Place,
    sections: &[CustomSection<'_>],
) -> Result<(), AllocError>
    ensures { OnOk result (out.new.items ≡
        out.old.items ++ custom.customs_at place (map section_of sections.now)) }
{
    for section in sections {
        if is_place(section.place, place) {
            put_custom(alloc, out, section)?;
        }
    }
    Ok(())
}
