//! Immediates of vector instructions.
ghost use Rattle.std.specs.Prelude.{◌≡◌, IfOk};

use std::alloc::{AllocError, AllocFailed, Global};
use std::marker::Model;

/// Type of a vector's lanes: integers or floats of 8 to 64 bits.
#[derive(Clone, Copy)]
pub enum Lane {
    I8,
    I16,
    I32,
    I64,
    F32,
    F64,
}

/// Boxed bytes of a vector.
#[derive(Drop)]
pub struct VectorBytes {
    bytes: Box<Vec<u8>>,
}

impl Model for VectorBytes {
    ghost use Rattle.std.specs.Prelude.{ℕ, List};

    ghost Value = { List ℕ };

    ghost view = { λ v. v.bytes.value.items };
}

impl VectorBytes {
    /// Boxes the bytes of a vector.
    pub fn new(alloc: Global, bytes: Vec<u8>) -> Result<VectorBytes, AllocError>
        ensures { IfOk result (λ v. v ≡ bytes.items) }
    {
        match Box::new(alloc, bytes) {
            Ok(bytes) => Ok(VectorBytes { bytes }),
            Err(failed) => Err(AllocError::from(failed)),
        }
    }

    /// Returns the bytes of the vector.
    pub fn bytes(&self) -> &[u8]
        ensures { result.now ≡ self.now }
    {
        &self.bytes
    }
}
