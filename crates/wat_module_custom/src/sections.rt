//! Custom sections and their placements.
use std::borrow::{CowSlice, CowStr};

/// A section of the binary format that a placement names. `Tag` is that of WebAssembly 3.0.
#[derive(Clone, Copy, Debug, PartialEq, Eq)]
pub enum Anchor {
    /// The type section.
    Type,
    /// The import section.
    Import,
    /// The function section.
    Func,
    /// The table section.
    Table,
    /// The memory section.
    Memory,
    /// The tag section.
    Tag,
    /// The global section.
    Global,
    /// The export section.
    Export,
    /// The start section.
    Start,
    /// The element section.
    Elem,
    /// The data count section.
    DataCount,
    /// The code section.
    Code,
    /// The data section.
    Data,
}

/// A side of a section.
#[derive(Clone, Copy, Debug, PartialEq, Eq)]
pub enum Side {
    /// Directly before the section.
    Before,
    /// Directly after the section.
    After,
}

/// The placement of a custom section among the sections.
#[derive(Clone, Copy, Debug, PartialEq, Eq)]
pub enum Place {
    /// Before the first section.
    BeforeFirst,
    /// Directly before or after a section.
    Around(Side, Anchor),
    /// After the last section.
    AfterLast,
}

/// A custom section of a source text.
#[derive(Debug, Drop)]
pub struct CustomSection<'a> {
    /// The name.
    pub name: CowStr<'a>,
    /// The placement among the sections.
    pub place: Place,
    /// The strings whose values together are the bytes after the name.
    pub data: Vec<CowSlice<'a, u8>>,
}
