//! Source positions, identifiers and indices, which all parsers of the text format share.

ghost use Rattle.std.specs.Prelude.{◌≡◌, ◌≤◌, ◌↔◌, false, not, length, IsTrue, IfOk, IsOk};
ghost use Rattle.std.specs.List.{suffix_len};
ghost use Rattle.wat_lex.specs.identifiers.Identifiers.{IsSameIdentifier, generated, identifier};
ghost use Rattle.wat_lex.specs.identifiers.Identifiers.{is_same_identifier};
ghost use Rattle.wat_lex.specs.identifiers.Indices.{IsSameIndex, is_same_index, owns_name, span_of};
ghost use Rattle.wat_lex.specs.errors.Positions.{is_line_feed, line_and_column};

use lines::line_feeds;
use memchr::memrchr;
use std::alloc::{AllocError, Global};
use std::borrow::CowStr;
use std::fmt;
use std::hash::{Hash, Hasher};
use std::marker::Model;

mod lines;
mod utf16;

pub use lines::{LineIndex, fill_line_feeds, linecol_by, utf16_linecol_by};

/// A position in a text, as a byte offset.
#[derive(Copy, Clone, Debug, PartialOrd, Ord, PartialEq, Eq, Hash)]
pub struct Span {
    pub(crate) offset: usize,
}

impl Model for Span {
    ghost use Rattle.std.specs.Prelude.{ℕ};

    ghost Value = { ℕ };

    ghost view = { λ s. s.offset };

    ghost inverse = { λ n. record { offset = n } };
}

impl Span {
    /// Creates the position at a byte offset.
    pub fn from_offset(offset: usize) -> Self
        ensures { result ≡ offset }
    {
        Span { offset }
    }

    /// Returns the byte offset.
    pub fn offset(&self) -> usize
        ensures { result ≡ self.now }
    {
        self.offset
    }

    /// Returns the line and column of the position in a text, both counted from 0. A line ends
    /// after its line feed, and a column counts bytes. Scans the text up to the position.
    ///
    /// If the offset is past the end of the text, the line is the number of lines and the column is
    /// 0.
    pub fn linecol_in(&self, text: &str) -> (usize, usize)
        ensures place { result ≡ line_and_column text.now self.now }
        ensures line { result.0 ≤ length text.now }
        ensures column { result.1 ≤ length text.now }
    {
        if self.offset > text.len() {
            return (text.lines().count(), 0);
        }
        let before = &text.as_bytes()[..self.offset];
        (line_feeds(before), since_line_feed(before))
    }
}

/// Returns the number of bytes after the last line feed, or of all bytes if there is none.
fn since_line_feed(text: &[u8]) -> usize
    ensures count { result ≡ suffix_len (λ b. not (is_line_feed b)) text.now }
    ensures bound { result ≤ length text.now }
{
    match memrchr(b'\n', text) {
        Some(end) => text.len() - (end + 1),
        None => text.len(),
    }
}

/// An identifier: a name, without the `$` before it, and its position.
///
/// Identifiers of a source text have generation 0. [`Gensym`](crate::gensym::Gensym) generates
/// identifiers with other generations, which differ from all of them. Equality and hash use the
/// name and the generation only.
#[derive(Drop)]
pub struct Id<'a> {
    name: CowStr<'a>,
    generation: u32,
    span: Span,
}

impl<'a> Model for Id<'a> {
    ghost use Rattle.wat_lex.specs.identifiers.Identifiers.{Identifier, identifier};

    ghost Value = { Identifier };

    ghost view = { λ i. identifier i.name i.generation i.span };
}

impl<'a> Id<'a> {
    /// Creates the identifier with a name and a position. Every text is a valid name.
    pub fn new(name: &'a str, span: Span) -> Id<'a>
        ensures { result ≡ record { name = name.now; owned = false; generation = 0; span = span } }
    {
        Id::from_cow(CowStr::Borrowed(name), span)
    }

    /// Creates the identifier with a borrowed or owned name and a position. Every text is a valid
    /// name.
    pub fn from_cow(name: CowStr<'a>, span: Span) -> Id<'a>
        ensures { result ≡ identifier name.entry 0 span }
    {
        Id {
            name,
            generation: 0,
            span,
        }
    }

    /// Creates the generated identifier with a generation and a position.
    pub(crate) fn gensym(span: Span, generation: u32) -> Id<'a>
        ensures { result ≡ generated generation span }
    {
        Id {
            name: CowStr::Borrowed("gensym"),
            generation,
            span,
        }
    }

    /// Returns the name, without `$`.
    pub fn name(&self) -> &str
        ensures { result.now ≡ self.now.name }
    {
        self.name.as_str()
    }

    /// Returns the position of the identifier.
    pub fn span(&self) -> Span
        ensures { result ≡ self.now.span }
    {
        self.span
    }

    /// Copies the identifier. Allocates only if its name is owned.
    ///
    /// # Errors
    ///
    /// Returns the allocation failure if an owned name cannot be copied.
    pub fn clone(&self, alloc: Global) -> Result<Self, AllocError>
        ensures copy { IfOk result (λ copy. copy ≡ self.now) }
        ensures free { self.now.owned ≡ false → IsOk result }
    {
        let name = match &self.name {
            CowStr::Borrowed(name) => CowStr::Borrowed(*name),
            CowStr::Owned(name) => CowStr::Owned(String::from_str(alloc, name.as_str())?),
        };
        Ok(Id {
            name,
            generation: self.generation,
            span: self.span,
        })
    }
}

impl<'a> PartialEq for Id<'a> {
    ghost use Rattle.std.specs.Cmp.Rules.{comparing};
    ghost use Rattle.std.proofs.Common.{rules};
    ghost use Rattle.wat_lex.specs.identifiers.Identifiers.{is_same_identifier};

    ghost eq = { is_same_identifier };

    ghost laws = { Prim.search (comparing, rules) };

    fn eq(&self, other: &Id<'a>) -> bool
        ensures value { result ≡ is_same_identifier self.now other.now }
        ensures same { IsTrue result ↔ IsSameIdentifier self.now other.now }
    {
        self.name() == other.name() && self.generation == other.generation
    }
}

impl<'a> Eq for Id<'a> {
    ghost use Rattle.std.specs.Cmp.Rules.{comparing};
    ghost use Rattle.std.proofs.Common.{rules};

    ghost laws = { Prim.search (comparing, rules) };
}

impl<'a> Hash for Id<'a> {
    ghost use Rattle.std.specs.Prelude.{◌++◌};
    ghost use Rattle.std.specs.Hash as fed;
    ghost use Rattle.std.specs.Cmp.Rules.{hashing};
    ghost use Rattle.std.proofs.Common.{rules};

    ghost hash_input = { λ i. fed.str i.name ++ fed.u32 i.generation };

    ghost respects_eq = { Prim.search (hashing, rules) };

    fn hash<H: Hasher>(&self, state: &mut H) {
        self.name().hash(state);
        self.generation.hash(state);
    }
}

/// Formats an identifier of a source text like its name, and a generated identifier by its
/// generation alone.
impl fmt::Debug for Id<'_> {
    fn fmt<W: fmt::Write>(&self, f: &mut fmt::Formatter<W>) -> fmt::Result {
        if self.generation == 0 {
            return self.name.fmt(f);
        }
        f.debug_struct("Id")
            .field("generation", &self.generation)
            .finish()
    }
}

/// A reference to a definition of the source text, by an integer or by an identifier.
///
/// Equality and hash use the integer or the identifier only, without its position.
#[derive(Debug, Drop)]
pub enum Index<'a> {
    /// An integer index, and its position.
    Num(u32, Span),
    /// An identifier instead of an integer.
    Id(Id<'a>),
}

impl<'a> Index<'a> {
    /// Returns the position of the integer or the identifier.
    pub fn span(&self) -> Span
        ensures { result ≡ span_of self.now }
    {
        match self {
            Index::Num(_, span) => *span,
            Index::Id(id) => id.span(),
        }
    }

    /// Copies the index. Allocates only if it is an identifier whose name is owned.
    ///
    /// # Errors
    ///
    /// Returns the allocation failure if an owned name cannot be copied.
    pub fn clone(&self, alloc: Global) -> Result<Self, AllocError>
        ensures copy { IfOk result (λ copy. copy ≡ self.now) }
        ensures free { owns_name self.now ≡ false → IsOk result }
    {
        match self {
            Index::Num(number, span) => Ok(Index::Num(*number, *span)),
            Index::Id(id) => Ok(Index::Id(id.clone(alloc)?)),
        }
    }
}

impl<'a> PartialEq for Index<'a> {
    ghost use Rattle.std.specs.Cmp;
    ghost use Rattle.wat_lex.specs.identifiers.Indices.{is_same_index};
    ghost use Rattle.wat_lex.specs.identifiers.IndexLaws.{is_same_index_laws};

    ghost eq = { is_same_index };

    ghost laws = { Cmp.partial_equiv_from_equiv is_same_index_laws };

    fn eq(&self, other: &Index<'a>) -> bool
        ensures value { result ≡ is_same_index self.now other.now }
        ensures same { IsTrue result ↔ IsSameIndex self.now other.now }
    {
        match (self, other) {
            (Index::Num(number, _), Index::Num(other, _)) => number == other,
            (Index::Id(id), Index::Id(other)) => id == other,
            _ => false,
        }
    }
}

impl<'a> Eq for Index<'a> {
    ghost use Rattle.wat_lex.specs.identifiers.IndexLaws.{is_same_index_laws};

    ghost laws = { is_same_index_laws };
}

impl<'a> Hash for Index<'a> {
    ghost use Rattle.wat_lex.specs.identifiers.Indices.{hash_input_of};
    ghost use Rattle.wat_lex.specs.identifiers.IndexLaws.{hash_input_of-same};

    ghost hash_input = { hash_input_of };

    ghost respects_eq = { hash_input_of-same };

    fn hash<H: Hasher>(&self, state: &mut H) {
        match self {
            Index::Num(number, _) => {
                state.write_u8(0);
                number.hash(state);
            }
            Index::Id(id) => {
                state.write_u8(1);
                id.hash(state);
            }
        }
    }
}

impl<'a> From<Id<'a>> for Index<'a> {
    ghost use Rattle.std.specs.Prelude.{◌≡◌};
    ghost use Rattle.wat_lex.specs.declared.token.Index.TheVariants as variants;

    ghost from_gives = { λ id index. index ≡ variants.Id id };

    fn from(id: Id<'a>) -> Index<'a> {
        Index::Id(id)
    }
}
