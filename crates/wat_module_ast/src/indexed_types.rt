//! A list of function types with a search for the least index of a type.
ghost use Rattle.std.specs.Prelude.{◌≡◌, ◌<◌, ◌^◌, ◌++◌, ◌∷◌, [], IfOk, OnOk, map};
ghost use Rattle.wat_module_ast.specs.ImplicitTypes as implicit;
ghost use Rattle.wat_module_ast.specs.Indices.{AreIndices, found_type, type_key};
ghost use Rattle.wat_module_ast.specs.Types.{type_byte};
ghost use Rattle.wat_module_ast.specs.TypeViews.{type_of};

use crate::instruction::ValueType;
use crate::types::{FunctionType, copied, same_type, type_byte};
use std::alloc::{AllocError, Global};
use std::collections::BTreeMap;
use std::marker::Model;

/// Function types, in the order of their indices.
#[derive(Drop)]
pub struct IndexedTypes {
    /// Allocator of keys and of copied types.
    alloc: Global,
    /// The types.
    types: Vec<FunctionType>,
    /// The least index of each type, by its key (`type_key`).
    indices: BTreeMap<Vec<u8>, usize>,
}

impl Model for IndexedTypes {
    ghost use Rattle.std.specs.Prelude.{List, map};
    ghost use Rattle.wat_module_ast.specs.Indices.{AreIndices};
    ghost use Rattle.wat_module_ast.specs.Types.{FunctionType};
    ghost use Rattle.wat_module_ast.specs.TypeViews.{type_of};

    ghost Value = { List FunctionType };

    ghost view = { λ t. map type_of t.types.items };

    ghost invariant = { λ t. AreIndices t.indices (map type_of t.types.items) };
}

/// Number of types up to which the search is linear and does not allocate.
const FEW: usize = 32;

impl IndexedTypes {
    /// Returns an empty list of types. Does not allocate.
    pub(crate) fn none(alloc: Global) -> IndexedTypes
        ensures { result ≡ [] }
    {
        IndexedTypes {
            alloc,
            types: Vec::new(alloc),
            indices: BTreeMap::new(alloc),
        }
    }

    /// Returns the types, in the order of their indices.
    pub fn as_slice(&self) -> &[FunctionType]
        ensures { map type_of result.now ≡ self.now }
    {
        &self.types
    }

    /// Returns the types as a `Vec`, in the order of their indices.
    pub fn into_types(self) -> Vec<FunctionType>
        ensures { map type_of result.items ≡ self }
    {
        self.types
    }

    /// Returns the least index of a type, or `None` if it is not among the types. Allocates a key
    /// if there are more than `FEW` types.
    fn position(&self, of: &FunctionType) -> Result<Option<usize>, AllocError>
        ensures { IfOk result (λ i. i ≡ found_type (type_of of.now) self.now) }
    {
        if self.types.len() <= FEW {
            return Ok(first(&self.types, of));
        }
        let key = type_key(self.alloc, of)?;
        Ok(self.indices.get(&key).copied())
    }

    /// Returns the least index of a type, or the number of types if it is not among them.
    ///
    /// # Errors
    ///
    /// Returns an allocation failure, which is possible only with more than `FEW` types.
    pub fn index(&self, of: &FunctionType) -> Result<usize, AllocError>
        ensures is { IfOk result (λ i. i ≡ implicit.type_index (type_of of.now) self.now) }
        ensures small { IfOk result (λ i. i < 2 ^ 63) }
    {
        let position = self.position(of)?;
        Ok(position.unwrap_or(self.types.len()))
    }

    /// Appends a type, even if it is among the types already.
    pub(crate) fn push(&mut self, of: FunctionType) -> Result<(), AllocError>
        ensures { OnOk result (self.new ≡ self.old ++ type_of of ∷ []) }
    {
        let key = type_key(self.alloc, &of)?;
        let index = self.types.len();
        // Reserve first, so that no allocation fails after the index of the type is inserted.
        self.types.reserve(1)?;
        if self.indices.get(&key).is_none() {
            self.indices.insert(key, index)?;
        }
        self.types.push(of)?;
        Ok(())
    }

    /// Appends a copy of a type, unless it is among the types already.
    pub(crate) fn add(&mut self, of: &FunctionType) -> Result<(), AllocError>
        ensures { OnOk result (self.new ≡ implicit.with_type self.old (type_of of.now)) }
    {
        if self.position(of)?.is_none() {
            self.push(copied(self.alloc, of)?)?;
        }
        Ok(())
    }
}

/// Returns the index of the first of `types` that equals `of`.
fn first(types: &[FunctionType], of: &FunctionType) -> Option<usize>
    ensures { result ≡ found_type (type_of of.now) (map type_of types.now) }
{
    for (i, known) in types.iter().enumerate() {
        if same_type(known, of) {
            return Some(i);
        }
    }
    None
}

/// Separator of parameters and results in a key, a byte that does not encode any value type.
const KEY_SEPARATOR: u8 = 0x40;

/// Returns the key of a function type: the bytes of its parameters, `KEY_SEPARATOR`, and the bytes
/// of its results. Different types have different keys.
fn type_key(alloc: Global, of: &FunctionType) -> Result<Vec<u8>, AllocError>
    ensures { IfOk result (λ key. key.items ≡ type_key (type_of of.now)) }
{
    let mut key = Vec::new(alloc);
    push_values(&mut key, &of.params)?;
    key.push(KEY_SEPARATOR)?;
    push_values(&mut key, &of.results)?;
    Ok(key)
}

/// Appends the byte of each value type to a key.
fn push_values(key: &mut Vec<u8>, types: &[ValueType]) -> Result<(), AllocError>
    ensures { OnOk result (key.new.items ≡ key.old.items ++ map type_byte types.now) }
{
    for of in types {
        key.push(type_byte(*of))?;
    }
    Ok(())
}
