//! Registered annotation names.
ghost use Rattle.std.specs.Prelude.{◌≡◌, ◌<◌, ◌+◌, ◌-◌, ◌^◌, IsSome, OnOk, OnErr, IsTrue, ◌↔◌};
ghost use Rattle.std.specs.Prelude.{
  Some,
  Ok,
  ℕ,
  List,
  alloc_error,
  is_some,
  IfErr,
  IfSome,
  cond,
  nat_eq,
  false,
};
ghost use Rattle.std.specs.Cow.{cow_str_bytes};
ghost use Rattle.std.specs.FinMap as map;
ghost use Rattle.std.specs.String.{string_cmp, string_bytes};
ghost use Rattle.std.specs.BTreeMap.{UpdatesBy, get_by_text};
ghost use Rattle.std.specs.Cmp.Lexicographic.{slice_cmp};
ghost use Rattle.std.specs.Ordering.{nat_cmp};
ghost use Rattle.std.specs.Result.{IsErrOf};
ghost use Rattle.wat_lex.specs.tokens.ReadableTokens.{IsTokenOf, word_of};
ghost use Rattle.wat_lex.specs.values.WordValues.{name_value};
ghost use Rattle.wat_lex.specs.declared.lexer.faults.LexError.TheVariants.{EmptyAnnotation};
ghost use Rattle.wat_lex.specs.declared.lexer.kinds.TokenKind.TheVariants.{Annotation};
ghost use Rattle.std.specs.List.{list_any};
ghost use Rattle.std.specs.BTreeMap.{keys};
ghost use Rattle.wat_lexer_parser.specs.inside.MapEntries.{names_it};
ghost use Rattle.wat_lexer_parser.specs.names.RegisteredNames.{Names as Counts};
ghost use Rattle.wat_lexer_parser.specs.names.RegisteredNames.{count, fewer, is_registered};
ghost use Rattle.wat_lexer_parser.specs.names.RegisteredNames.{IsPositive};

use std::alloc::{AllocError, AllocFailed, Global};
use std::borrow::CowStr;
use std::collections::BTreeMap;
use std::marker::Model;
use wat_lex::lexer::Token;

/// The greatest number of registered names with each of which the name of an annotation is
/// compared. Among more names it is looked up.
const FEW: usize = 16;

/// The registered annotation names, each with its number of registrations.
#[derive(Drop)]
pub struct Names {
    counts: BTreeMap<String, usize>,
}

impl Model for Names {
    ghost use Rattle.wat_lexer_parser.specs.names.RegisteredNames.{Names};
    ghost use Rattle.std.specs.FinMap as map;
    ghost use Rattle.std.specs.Coded.{coded_ℕ, coded_list};

    ghost Value = { Names };

    ghost coded = { map.code (coded_list coded_ℕ) coded_ℕ };

    ghost use Rattle.wat_lexer_parser.specs.inside.MapEntries.{names_of};
    ghost use Rattle.wat_lexer_parser.specs.names.RegisteredNames.{IsPositive};

    ghost view = { λ n. names_of n.counts.entries };

    ghost invariant = { λ n. IsPositive (names_of n.counts.entries) };
}

/// The reason why a name was not registered.
#[derive(Clone, Copy, PartialEq, Eq)]
pub enum RegisterError {
    /// An overflow: the name is registered `usize::MAX` times.
    TooOften,
    /// An allocation failure.
    OutOfMemory(AllocError),
}

impl<T: Drop> From<AllocFailed<T>> for RegisterError {
    ghost use Rattle.std.specs.Prelude.{◌≡◌, alloc_error};
    ghost use Rattle.wat_lexer_parser.specs.declared.parser.names.RegisterError.TheVariants.{
      OutOfMemory,
    };

    ghost from_gives = { λ _ e. e ≡ OutOfMemory alloc_error };

    fn from(failed: AllocFailed<T>) -> RegisterError {
        RegisterError::OutOfMemory(AllocError::from(failed))
    }
}

impl From<AllocError> for RegisterError {
    ghost use Rattle.std.specs.Prelude.{◌≡◌};
    ghost use Rattle.wat_lexer_parser.specs.declared.parser.names.RegisterError.TheVariants.{
      OutOfMemory,
    };

    ghost from_gives = { λ refused e. e ≡ OutOfMemory refused };

    fn from(refused: AllocError) -> RegisterError {
        RegisterError::OutOfMemory(refused)
    }
}

/// Sets the number of registrations of a name, which must be registered.
fn set_count(counts: &mut BTreeMap<String, usize>, name: &str, count: usize)
    requires { IsSome (get_by_text counts.old name.now) }
    ensures { UpdatesBy string_cmp (λ k. slice_cmp nat_cmp name.now (string_bytes k)) counts.old
        counts.new (Some count) }
{
    if let Some(slot) = counts.get_mut(name) {
        *slot = count;
    }
}

/// Returns `true` if an annotation has the given name.
fn names_it(text: &str, token: Token, name: &str) -> bool
    requires token { IsTokenOf text.now token }
    requires kind { token.kind ≡ Annotation }
    ensures { result ≡ names_it text.now token name.now }
{
    token.has_name(text, name)
}

/// Returns `true` if an annotation's name is one of the keys.
fn has_key(counts: &BTreeMap<String, usize>, text: &str, token: Token) -> bool
    requires token { IsTokenOf text.now token }
    requires kind { token.kind ≡ Annotation }
    ensures { result ≡ list_any (λ k. names_it text.now token (string_bytes k)) (keys counts.now) }
{
    counts.keys().any(|key| names_it(text, token, key.as_str()))
}

/// Returns the name of an annotation, or `None` if it is invalid or an allocation fails. Allocates
/// only if the name has an escape.
fn name_of<'a>(alloc: Global, text: &'a str, token: Token) -> Option<CowStr<'a>>
    requires token { IsTokenOf text.now token }
    requires kind { token.kind ≡ Annotation }
    ensures { IfSome result (λ name.
        name_value EmptyAnnotation (word_of text.now token) ≡ Ok (cow_str_bytes name)) }
{
    match token.name(alloc, text) {
        Ok(Ok(name)) => Some(name),
        Ok(Err(_)) | Err(_) => None,
    }
}

impl Names {
    /// Creates an empty set of names.
    pub fn new(alloc: Global) -> Names
        ensures { result ≡ map.empty }
    {
        Names {
            counts: BTreeMap::new(alloc),
        }
    }

    /// Lemma (no effect): no name has a count of 0.
    pub fn lemma_positive(&self)
        ensures { IsPositive self.now }
    {
        let _names = self.counts.len();
    }

    /// Returns the number of registrations of a name, 0 if it is not registered.
    pub fn count(&self, name: &str) -> usize
        ensures { result ≡ count self.now name.now }
    {
        match self.counts.get(name) {
            Some(count) => *count,
            None => 0,
        }
    }

    /// Returns `true` if no names are registered.
    pub fn are_none(&self) -> bool
        ensures { IsTrue result → self.now ≡ map.empty }
    {
        self.counts.is_empty()
    }

    /// Returns `true` if a name is registered.
    pub fn is_registered(&self, name: &str) -> bool
        ensures { result ≡ is_registered self.now name.now }
    {
        self.count(name) > 0
    }

    /// Returns `true` if an annotation's name is registered. Allocates only if more than 16 names
    /// are registered and the name has an escape. If that fails, or if fewer names are registered,
    /// it compares the name with each of them.
    pub fn has_name_of(&self, alloc: Global, text: &str, token: Token) -> bool
        requires token { IsTokenOf text.now token }
        requires kind { token.kind ≡ Annotation }
        ensures { (x : List ℕ) → name_value EmptyAnnotation (word_of text.now token) ≡ Ok x →
            result ≡ is_registered self.now x }
    {
        if self.counts.len() <= FEW {
            return has_key(&self.counts, text, token);
        }
        match name_of(alloc, text, token) {
            Some(name) => self.is_registered(name.as_str()),
            None => has_key(&self.counts, text, token),
        }
    }

    /// Sets the number of registrations of a registered name. `times` must not be 0.
    pub fn set(&mut self, name: &str, times: usize)
        requires there { 0 < count self.old name.now }
        requires some { 0 < times }
        ensures { self.new ≡ map.insert self.old name.now times }
    {
        set_count(&mut self.counts, name, times);
    }

    /// Adds a registration of a name. Allocates only if the name is not registered yet. Has no
    /// effect if it fails.
    pub fn register(&mut self, alloc: Global, name: &str) -> Result<(), RegisterError>
        ensures ok { OnOk result (self.new ≡ map.insert self.old name.now (count self.old name.now
            + 1)) }
        ensures err { OnErr result (self.new ≡ self.old) }
        ensures there { OnOk result (0 < count self.new name.now) }
        ensures undo { OnOk result (fewer self.new name.now ≡ self.old) }
        ensures often { IsErrOf result RegisterError.TooOften
            ↔ count self.old name.now ≡ usize.MAX }
        ensures free { IsErrOf result (RegisterError.OutOfMemory alloc_error) →
            is_registered self.old name.now ≡ false }
    {
        let count = self.count(name);
        if count == usize::MAX {
            return Err(RegisterError::TooOften);
        }
        if count > 0 {
            self.set(name, count + 1);
        } else {
            let key = String::from_str(alloc, name)?;
            self.counts.insert(key, count + 1)?;
        }
        Ok(())
    }

    /// Removes a registration of a name, which must be registered.
    pub fn unregister(&mut self, name: &str)
        requires { 0 < count self.old name.now }
        ensures { self.new ≡ fewer self.old name.now }
    {
        let count = self.count(name);
        if count > 1 {
            self.set(name, count - 1);
        } else {
            self.counts.remove(name);
        }
    }
}
