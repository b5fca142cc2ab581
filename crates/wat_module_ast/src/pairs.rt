//! Pairs of indices, for instructions with two.
ghost use Rattle.std.specs.Prelude.{◌≡◌, IfOk};

use std::alloc::{AllocError, AllocFailed, Global};
use std::marker::Model;

/// Two indices, in the order of the binary format.
#[derive(Clone, Copy)]
struct Indices {
    first: usize,
    second: usize,
}

/// Boxed pair of indices, in the order of the binary format.
#[derive(Drop)]
pub struct IndexPair {
    inner: Box<Indices>,
}

impl Model for IndexPair {
    ghost use Rattle.std.specs.Prelude.{ℕ};

    ghost Value = { ℕ × ℕ };

    ghost view = { λ p. (p.inner.value.first, p.inner.value.second) };
}

impl IndexPair {
    /// Boxes two indices. The binary format has `first` before `second`.
    pub fn new(alloc: Global, first: usize, second: usize) -> Result<IndexPair, AllocError>
        ensures { IfOk result (λ pair. pair ≡ (first, second)) }
    {
        match Box::new(alloc, Indices { first, second }) {
            Ok(inner) => Ok(IndexPair { inner }),
            Err(failed) => Err(AllocError::from(failed)),
        }
    }

    /// Returns the index that comes first in the binary format.
    pub fn first(&self) -> usize
        ensures { result ≡ self.now.0 }
    {
        self.inner.first
    }

    /// Returns the index that comes second in the binary format.
    pub fn second(&self) -> usize
        ensures { result ≡ self.now.1 }
    {
        self.inner.second
    }
}
