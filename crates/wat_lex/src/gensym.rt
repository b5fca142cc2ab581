//! Generated identifiers, each of which differs from every identifier of a source text.

ghost use Rattle.std.specs.Prelude.{◌≡◌, ◌≢◌, ◌+◌, ◌↔◌, false, None, Some, IsErr, IsErrOf, IsOk};
ghost use Rattle.std.specs.Prelude.{IfErr, IfNone, IfOk, IfSome, OnErr, OnOk};
ghost use Rattle.wat_lex.specs.identifiers.Identifiers.{IsFresh, generated};

use crate::token::{Id, Span};
use std::alloc::{AllocError, Global};
use std::marker::Model;

/// A counter of generated identifiers: the generation of the newest one.
#[derive(Drop)]
pub struct Gensym {
    /// The generation of the newest identifier, or 0.
    generation: u32,
}

impl Model for Gensym {
    ghost use Rattle.std.specs.Prelude.{ℕ};

    ghost Value = { ℕ };

    ghost view = { λ g. g.generation };
}

/// The error of a counter that has reached its last value, `u32::MAX`.
#[derive(Clone, Copy, Debug, PartialEq, Eq)]
pub struct GensymFull;

/// The reason why a slot was not filled.
#[derive(Clone, Copy, Debug, PartialEq, Eq)]
pub enum FillError {
    /// The counter has reached its last value, `u32::MAX`.
    Full,
    /// An allocation for a copy failed.
    Memory,
}

impl From<AllocError> for FillError {
    ghost use Rattle.std.specs.Prelude.{◌≡◌};
    ghost use Rattle.wat_lex.specs.declared.gensym.FillError.TheVariants.{Memory};

    ghost from_gives = { λ _ error. error ≡ Memory };

    /// Converts an allocation failure to `FillError::Memory`.
    fn from(_: AllocError) -> FillError {
        FillError::Memory
    }
}

impl Gensym {
    /// Creates a counter that has generated no identifier.
    pub fn new() -> Gensym
        ensures { result ≡ 0 }
    {
        Gensym { generation: 0 }
    }

    /// Creates a counter whose newest identifier has this generation, to continue where another
    /// counter stopped.
    pub fn with_generation(generation: u32) -> Gensym
        ensures { result ≡ generation }
    {
        Gensym { generation }
    }

    /// Resets the counter to 0. Later identifiers may equal those generated before.
    pub fn reset(&mut self)
        ensures { self.new ≡ 0 }
    {
        self.generation = 0;
    }

    /// Generates an identifier at a position. Does not allocate.
    ///
    /// # Errors
    ///
    /// Returns [`GensymFull`] if and only if the counter is `u32::MAX`. The counter is then
    /// unchanged.
    pub fn generate(&mut self, span: Span) -> Result<Id<'static>, GensymFull>
        ensures ok { IfOk result (λ id. id ≡ generated self.new span) }
        ensures counts { OnOk result (self.new ≡ self.old + 1) }
        ensures full { IsErr result ↔ (self.old ≡ u32.MAX) }
        ensures err { OnErr result (self.new ≡ self.old) }

        // It differs from every identifier of a source text, and from those that the counter has
        // generated since it was last reset, as their generations are at most the counter.
        ensures fresh { IfOk result (IsFresh self.old) }
    {
        if self.generation == u32::MAX {
            return Err(GensymFull);
        }
        self.generation += 1;
        Ok(Id::gensym(span, self.generation))
    }

    /// Returns a copy of the identifier in a slot. An empty slot is filled with a generated
    /// identifier first.
    ///
    /// Allocates only if the slot holds an identifier that owns its name.
    ///
    /// # Errors
    ///
    /// Returns [`FillError::Full`] if the slot is empty and the counter is `u32::MAX`, and
    /// [`FillError::Memory`] if the copy cannot be allocated. The slot and the counter are then
    /// unchanged.
    pub fn fill<'a>(
        &mut self,
        alloc: Global,
        span: Span,
        slot: &mut Option<Id<'a>>,
    ) -> Result<Id<'a>, FillError>
        // A filled slot keeps its identifier, and only the allocation for the copy can fail.
        ensures held { IfSome slot.old (λ id. (slot.new ≡ Some id) × (self.new ≡ self.old)) }
        ensures copied { IfSome slot.old (λ id. IfOk result (λ copy. copy ≡ id)) }
        ensures refused { IfSome slot.old (λ _. IfErr result (λ e. e ≡ FillError.Memory)) }
        ensures free { IfSome slot.old (λ id. id.owned ≡ false → IsOk result) }

        // An empty slot is filled with an identifier as `generate` returns it, unless the counter
        // is `u32::MAX`.
        ensures made { IfNone slot.old (IfOk result (λ id. id ≡ generated self.new span)) }
        ensures filled { IfNone slot.old (IfOk result (λ id. slot.new ≡ Some id)) }
        ensures counts { IfNone slot.old (OnOk result (self.new ≡ self.old + 1)) }
        ensures full { IsErrOf result FillError.Full ↔ ((slot.old ≡ None) × (self.old ≡ u32.MAX)) }
        ensures no_memory { IfNone slot.old (result ≢ Err FillError.Memory) }
        ensures fresh { IfNone slot.old (IfOk result (IsFresh self.old)) }

        ensures err { OnErr result ((slot.new ≡ slot.old) × (self.new ≡ self.old)) }
    {
        if let Some(id) = slot {
            return Ok(id.clone(alloc)?);
        }
        let id = self.generate(span).map_err(|_| FillError::Full)?;
        *slot = Some(id);
        Ok(Id::gensym(span, self.generation))
    }
}
