//! The fields of a module, as the parser returns them. References to items are indices, not
//! identifiers.
ghost use Rattle.std.specs.Prelude.{◌≡◌, ◌<◌, ◌≤◌, ◌^◌, length, IfErr, IfOk};
ghost use Rattle.wat_module_ast.specs.Views.{together, expressions_of};

use crate::instruction::{Instruction, ReferenceType, ValueType};
use crate::types::{FunctionType, TypeUse};
use std::alloc::AllocError;
use wat_module_tokens::token::Name;

/// A type definition.
#[derive(Drop)]
pub struct Definition<'p> {
    /// Identifier of the type, if given.
    pub name: Name<'p>,
    /// The defined function type.
    pub of: FunctionType,
}

/// A run of `count` consecutive locals of one type.
#[derive(Clone, Copy)]
pub struct Locals {
    /// Number of locals.
    pub count: usize,
    /// Type of each local.
    pub of: ValueType,
}

/// An entry of a name map: an index, and the identifier of the item with this index.
#[derive(Clone, Copy)]
pub struct NameAssociation<'p> {
    /// Index of the item.
    pub index: usize,
    /// Identifier of the item, without `$`.
    pub name: &'p str,
}

/// A function definition. The body refers to parameters, locals and labels by index.
#[derive(Drop)]
pub struct Function<'p> {
    /// Identifier of the function, if given.
    pub name: Name<'p>,
    /// Names of the inline exports.
    pub exports: Vec<&'p [u8]>,
    /// Type of the function.
    pub uses: TypeUse,
    /// Locals, without the parameters.
    pub locals: Vec<Locals>,
    /// Instructions, without the final `end`.
    pub body: Vec<Instruction>,
    /// Identifiers of the parameters and locals that have one, by their indices.
    pub local_names: Vec<NameAssociation<'p>>,
    /// Identifiers of the labels that have one, by their indices. The labels are those of `block`,
    /// `loop` and `if`, in the order of these instructions.
    pub label_names: Vec<NameAssociation<'p>>,
}

/// An index space whose items can be imported and exported.
#[derive(Clone, Copy)]
pub enum IndexSpace {
    Func,
    Table,
    Mem,
    Global,
}

/// The size limits of a memory, in pages, or of a table, in elements.
#[derive(Clone, Copy)]
pub struct Limits {
    /// Minimum size.
    pub min: u32,
    /// Maximum size, if given.
    pub max: Option<u32>,
}

/// The type of a table.
#[derive(Clone, Copy)]
pub struct TableType {
    /// Size limits, in elements.
    pub limits: Limits,
    /// Reference type of the elements.
    pub element: ReferenceType,
}

/// The type of a global.
#[derive(Clone, Copy)]
pub struct GlobalType {
    /// `true` if the global is mutable.
    pub is_mutable: bool,
    /// Type of the value.
    pub value: ValueType,
}

/// The elements of an element segment or of a table's inline segment.
#[derive(Drop)]
pub enum Elements {
    /// Function indices, each an abbreviation of the expression that is one `ref.func`.
    Functions(Vec<usize>),
    /// Expressions, each by its instructions, without the final `end`.
    Expressions(Vec<Vec<Instruction>>),
}

impl Elements {
    /// Returns the number of elements.
    pub fn len(&self) -> usize
        ensures is { result ≡ length (expressions_of self.now) }
        ensures small { result < 2 ^ 63 }
    {
        match self {
            Elements::Functions(functions) => functions.len(),
            Elements::Expressions(expressions) => expressions.len(),
        }
    }
}

/// A table definition.
#[derive(Drop)]
pub struct Table<'p> {
    /// Identifier of the table, if given.
    pub name: Name<'p>,
    /// Names of the inline exports.
    pub exports: Vec<&'p [u8]>,
    /// Type of the table.
    pub of: TableType,
    /// Elements of the inline element segment, if there is one.
    pub elements: Option<Elements>,
}

/// A memory definition.
#[derive(Drop)]
pub struct Memory<'p> {
    /// Identifier of the memory, if given.
    pub name: Name<'p>,
    /// Names of the inline exports.
    pub exports: Vec<&'p [u8]>,
    /// Size limits, in pages of 64 KiB.
    pub limits: Limits,
    /// Strings of the inline data segment, if there is one.
    pub data: Option<Vec<&'p [u8]>>,
}

/// The destination of an active segment.
#[derive(Drop)]
pub struct Target {
    /// Index of the memory or table.
    pub index: usize,
    /// Instructions of the offset expression, without the final `end`.
    pub offset: Vec<Instruction>,
}

/// The mode of an element segment.
#[derive(Drop)]
pub enum ElemMode {
    /// Elements that `table.init` copies.
    Passive,
    /// Elements that instantiation copies to this destination.
    Active(Target),
    /// Elements that only declare the functions to which `ref.func` may refer.
    Declarative,
}

/// An element segment.
#[derive(Drop)]
pub struct Elem<'p> {
    /// Identifier of the segment, if given.
    pub name: Name<'p>,
    /// Mode of the segment.
    pub mode: ElemMode,
    /// Reference type of the elements.
    pub of: ReferenceType,
    /// Elements of the segment.
    pub elements: Elements,
}

/// A data segment.
#[derive(Drop)]
pub struct Data<'p> {
    /// Identifier of the segment, if given.
    pub name: Name<'p>,
    /// Destination of an active segment; `None` if the segment is passive.
    pub target: Option<Target>,
    /// Strings whose concatenation is the content of the segment.
    pub strings: Vec<&'p [u8]>,
}

/// Maximum length of a slice, in bytes.
const MAX_SLICE_LEN: usize = isize::MAX as usize;

/// Returns the total length of the strings, in bytes.
///
/// # Errors
///
/// Returns an allocation failure if the total exceeds `isize::MAX`, the maximum length of a `Vec`.
pub fn len_of(strings: &[&[u8]]) -> Result<usize, AllocError>
    ensures is { IfOk result (λ len. len ≡ length (together strings.now)) }
    ensures small { IfOk result (λ len. len < 2 ^ 63) }
    ensures refused { IfErr result (λ e. 2 ^ 63 ≤ length (together strings.now)) }
{
    let mut len = 0;
    for string in strings {
        len += string.len();
        if len > MAX_SLICE_LEN {
            return Err(AllocError);
        }
    }
    Ok(len)
}

/// A global definition.
#[derive(Drop)]
pub struct GlobalVariable<'p> {
    /// Identifier of the global, if given.
    pub name: Name<'p>,
    /// Names of the inline exports.
    pub exports: Vec<&'p [u8]>,
    /// Type of the global.
    pub of: GlobalType,
    /// Instructions of the initial value, without the final `end`.
    pub first: Vec<Instruction>,
}

/// The type of an imported item.
#[derive(Drop)]
pub enum ExternType {
    Func(TypeUse),
    Table(TableType),
    Memory(Limits),
    Global(GlobalType),
}

/// An import.
#[derive(Drop)]
pub struct Import<'p> {
    /// Name of the module that provides the item.
    pub from: &'p [u8],
    /// Name of the item in that module.
    pub item: &'p [u8],
    /// Identifier of the item in this module, if given.
    pub name: Name<'p>,
    /// Names of the inline exports, if this is an inline import.
    pub exports: Vec<&'p [u8]>,
    /// Type of the item.
    pub what: ExternType,
}

/// An export of an item.
#[derive(Clone, Copy)]
pub struct Export<'p> {
    /// Name of the export.
    pub name: &'p [u8],
    /// Index space of the item.
    pub space: IndexSpace,
    /// Index of the item.
    pub index: usize,
}

/// A field of a module.
#[derive(Drop)]
pub enum Field<'p> {
    Type(Definition<'p>),
    Import(Import<'p>),
    Func(Function<'p>),
    Table(Table<'p>),
    Memory(Memory<'p>),
    Global(GlobalVariable<'p>),
    Export(Export<'p>),
    /// The start function, by its index.
    Start(usize),
    Data(Data<'p>),
    Elem(Elem<'p>),
}
