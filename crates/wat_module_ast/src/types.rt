//! Function types, and type uses in instructions.
ghost use Rattle.std.specs.Prelude.{◌≡◌, ◌<◌, ◌^◌, IfOk, IfSome, MatchOption, None, Some, map};
ghost use Rattle.std.specs.Prelude.{slice_get};
ghost use Rattle.wat_module_ast.specs.Types as spec;
ghost use Rattle.wat_module_ast.specs.TypeViews.{type_of, use_of};

use crate::instruction::{ReferenceType, ValueType};
use std::alloc::{AllocError, Global};
use std::marker::Model;

/// A function type.
#[derive(Drop)]
pub struct FunctionType {
    /// Types of the parameters.
    pub params: Vec<ValueType>,
    /// Types of the results.
    pub results: Vec<ValueType>,
}

/// A type use without the names of its parameters.
#[derive(Drop)]
pub enum TypeUse {
    /// Index of the type, if the text has `(type index)`.
    Index(usize),
    /// The type, if the text has no index.
    Inline(FunctionType),
}

/// Boxed type use. Its index, if it has one, is below 2^63, like the index of any item in memory.
#[derive(Drop)]
pub struct BoxedUse {
    uses: Box<TypeUse>,
}

impl Model for BoxedUse {
    ghost use Rattle.wat_module_ast.specs.Types as spec;
    ghost use Rattle.std.specs.Prelude.{◌<◌, ◌^◌};

    ghost Value = { spec.TypeUse };

    ghost use Rattle.wat_module_ast.specs.TypeViews.{use_of};

    ghost view = { λ u. use_of u.uses.value };

    ghost invariant = { λ u. spec.index_or_zero (use_of u.uses.value) < 2 ^ 63 };
}

impl BoxedUse {
    /// Boxes a type use. Its index, if it has one, must be below 2^63.
    pub fn new(alloc: Global, uses: TypeUse) -> Result<BoxedUse, AllocError>
        requires { spec.index_or_zero (use_of uses) < 2 ^ 63 }
        ensures { IfOk result (λ u. u ≡ use_of uses) }
    {
        match Box::new(alloc, uses) {
            Ok(uses) => Ok(BoxedUse { uses }),
            Err(failed) => Err(AllocError::from(failed)),
        }
    }

    /// Returns the type use.
    pub fn uses(&self) -> &TypeUse
        ensures is { use_of result.now ≡ self.now }
        ensures small { spec.index_or_zero (use_of result.now) < 2 ^ 63 }
    {
        &self.uses
    }
}

/// Table index and type use of `call_indirect`.
#[derive(Drop)]
struct Call {
    table: usize,
    uses: TypeUse,
}

/// Boxed immediates of `call_indirect`.
#[derive(Drop)]
pub struct IndirectCall {
    call: Box<Call>,
}

impl Model for IndirectCall {
    ghost use Rattle.wat_module_ast.specs.Types as spec;

    ghost Value = { spec.IndirectCall };

    ghost use Rattle.wat_module_ast.specs.TypeViews.{use_of};

    ghost view = { λ c. spec.indirect_call c.call.value.table (use_of c.call.value.uses) };
}

impl IndirectCall {
    /// Boxes a table index and a type use.
    pub fn new(alloc: Global, table: usize, uses: TypeUse) -> Result<IndirectCall, AllocError>
        ensures { IfOk result (λ c. c ≡ spec.indirect_call table (use_of uses)) }
    {
        match Box::new(alloc, Call { table, uses }) {
            Ok(call) => Ok(IndirectCall { call }),
            Err(failed) => Err(AllocError::from(failed)),
        }
    }

    /// Returns the table index.
    pub fn table(&self) -> usize
        ensures { result ≡ self.now.table }
    {
        self.call.table
    }

    /// Returns the type use.
    pub fn uses(&self) -> &TypeUse
        ensures { use_of result.now ≡ self.now.uses }
    {
        &self.call.uses
    }
}

/// Boxed result types of `select`.
#[derive(Drop)]
pub struct SelectTypes {
    types: Box<Vec<ValueType>>,
}

impl Model for SelectTypes {
    ghost use Rattle.std.specs.Prelude.{List};
    ghost use Rattle.wat_module_ast.specs.declared.instruction.ValueType.{ValueType};

    ghost Value = { List ValueType };

    ghost view = { λ t. t.types.value.items };
}

impl SelectTypes {
    /// Boxes the result types.
    pub fn new(alloc: Global, types: Vec<ValueType>) -> Result<SelectTypes, AllocError>
        ensures { IfOk result (λ t. t ≡ types.items) }
    {
        match Box::new(alloc, types) {
            Ok(types) => Ok(SelectTypes { types }),
            Err(failed) => Err(AllocError::from(failed)),
        }
    }

    /// Returns the result types.
    pub fn types(&self) -> &[ValueType]
        ensures { result.now ≡ self.now }
    {
        &self.types
    }
}

/// Returns the byte that encodes a reference type.
pub fn reference_byte(of: ReferenceType) -> u8
    ensures { result ≡ spec.reference_byte of }
{
    match of {
        ReferenceType::Func => 0x70,
        ReferenceType::Extern => 0x6F,
    }
}

/// Returns the byte that encodes a value type.
pub fn type_byte(of: ValueType) -> u8
    ensures { result ≡ spec.type_byte of }
{
    match of {
        ValueType::I32 => 0x7F,
        ValueType::I64 => 0x7E,
        ValueType::F32 => 0x7D,
        ValueType::F64 => 0x7C,
        ValueType::V128 => 0x7B,
        ValueType::Reference(of) => reference_byte(of),
    }
}

/// Returns `true` if two lists of value types are equal.
fn same_values(some: &[ValueType], others: &[ValueType]) -> bool
    ensures { result ≡ spec.same_values some.now others.now }
{
    if some.len() != others.len() {
        return false;
    }
    for (i, of) in some.iter().enumerate() {
        if *of != others[i] {
            return false;
        }
    }
    true
}

/// Returns `true` if two function types are equal.
pub fn same_type(of: &FunctionType, other: &FunctionType) -> bool
    ensures { result ≡ spec.same_type (type_of of.now) (type_of other.now) }
{
    same_values(&of.params, &other.params) && same_values(&of.results, &other.results)
}

/// Returns a copy of a function type.
pub fn copied(alloc: Global, of: &FunctionType) -> Result<FunctionType, AllocError>
    ensures { IfOk result (λ t. type_of t ≡ type_of of.now) }
{
    let mut params = Vec::new(alloc);
    params.extend_from_slice(&of.params)?;
    let mut results = Vec::new(alloc);
    results.extend_from_slice(&of.results)?;
    Ok(FunctionType { params, results })
}

/// Returns the type at an index, or `None` if the index is out of range.
pub fn type_at_index(types: &[FunctionType], index: usize) -> Option<&FunctionType>
    ensures small { IfSome result (λ _. index < 2 ^ 63) }
    ensures is { MatchOption result
        (slice_get (map type_of types.now) index ≡ None)
        (λ t. slice_get (map type_of types.now) index ≡ Some (type_of t.now)) }
{
    types.get(index)
}
