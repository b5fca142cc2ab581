//! Parsers, cursors and buffers.
ghost use Rattle.std.specs.Prelude.{◌≡◌, ◌≤◌, ◌<◌, ◌+◌, ◌^◌, false, not, length, Ok, Some};
ghost use Rattle.std.specs.Prelude.{IfOk, IfErr, IfSome, OnOk, OnErr};
ghost use Rattle.std.specs.FinMap as map;
ghost use Rattle.wat_lex.specs.errors.Errors.{IsUnlessMemory};
ghost use Rattle.wat_lexer_parser.specs.inside.Next.{IsAfter, IsNext, IsPlace};
ghost use Rattle.wat_lexer_parser.specs.names.RegisteredNames.{no_names, is_registered};
ghost use Rattle.wat_lexer_parser.specs.names.RegisteredNames.{count, fewer};
ghost use Rattle.wat_lexer_parser.specs.parser.Closures.{opened, closed, ParensOk, ParensErr};
ghost use Rattle.wat_lexer_parser.specs.parser.Sights.{PeekIs, second};
ghost use Rattle.wat_lexer_parser.specs.parser.State.{Answers, IsRefusal, IsSound};
ghost use Rattle.wat_lexer_parser.specs.parser.State.{report_here, message_at, depth_checked};
ghost use Rattle.wat_lexer_parser.specs.parser.State.{registered, too_often};
ghost use Rattle.wat_lexer_parser.specs.places.Places.{empty_of, is_meaningful};
ghost use Rattle.wat_lexer_parser.specs.places.Places.{offset_at, current_span};
ghost use Rattle.wat_lexer_parser.specs.shown.Showing.{shown};

mod buffer;
mod calls;
mod cursor;
pub(crate) mod fault;
mod kept;
mod lazy;
mod lists;
mod lookahead;
pub(crate) mod names;
mod peek;
mod reads;
pub(crate) mod source_ref;
pub(crate) mod steps;
mod table;
pub(crate) mod table_ref;
pub(crate) mod text_ref;
mod typed;
mod whole;

use crate::parser::fault::Fault;
use crate::parser::kept::Kept;
use crate::parser::names::{Names, RegisterError};
use crate::parser::source_ref::SourceRef;
use crate::parser::text_ref::Sight;
pub use buffer::ParseBuffer;
pub use calls::{Call, Reply, replay};
pub use cursor::Cursor;
pub use fault::FaultKind;
pub use lazy::LazyBuffer;
pub use lookahead::Lookahead1;
pub use peek::Peek;
pub use reads::{Parse, Result};
use std::alloc::Global;
use std::marker::Model;
use wat_lex::error::Error;
use wat_lex::lexer::{Token, TokenKind};
use wat_lex::token::Span;
pub use whole::parse;

/// A parser over a buffer: a position in its text, and the registered annotation names.
///
/// A position is a number of raw tokens. The next visible token is the first one at or after the
/// position that is neither whitespace, nor a comment, nor in a group of an unregistered
/// annotation.
#[derive(Drop)]
pub struct Parser<'a> {
    source: SourceRef<'a>,
    /// Number of raw tokens before the position.
    place: usize,
    /// Byte offset of the position.
    byte: usize,
    depth: usize,
    names: Names,
    /// Cached token visible at the position, if it is known.
    next: Kept,
}

impl<'a> Model for Parser<'a> {
    ghost use Rattle.std.specs.Prelude.{◌≤◌, IfSome};
    ghost use Rattle.wat_lexer_parser.specs.inside.Codes.{state_code};
    ghost use Rattle.wat_lexer_parser.specs.inside.Next.{IsNext, IsPlace};
    ghost use Rattle.wat_lexer_parser.specs.parser.State.{State};

    ghost Value = { State };

    ghost coded = { state_code };

    ghost view = { λ p. record {
      source = p.source;
      place = p.place;
      names = p.names;
      depth = p.depth;
    } };

    ghost invariant = { λ p. (p.depth ≤ p.place) × IsPlace p.source p.place p.byte
        × IfSome p.next (IsNext p.source p.place p.names) };
}

impl<'a> Parser<'a> {
    pub(crate) fn new(source: SourceRef<'a>) -> Parser<'a>
        ensures { result ≡ record {
          source = source.entry;
          place = 0;
          names = no_names;
          depth = 0;
        } }
    {
        let alloc = source.alloc();
        Parser {
            source,
            place: 0,
            byte: 0,
            depth: 0,
            names: Names::new(alloc),
            next: Kept::nothing(),
        }
    }

    pub(crate) fn source(&self) -> &SourceRef<'a>
        ensures { result.now ≡ self.now.source }
    {
        &self.source
    }

    /// Returns the allocator of the buffer, for the contents of parsed values.
    pub fn alloc(&self) -> Global {
        let source = &self.source;
        source.alloc()
    }

    pub(crate) fn text(&self) -> &'a str
        ensures { result.now ≡ self.now.source.setting.text }
    {
        let source = &self.source;
        source.text()
    }

    /// Returns the number of raw tokens before the position.
    pub(crate) fn place(&self) -> usize
        ensures place { result ≡ self.now.place }
        ensures within { result ≤ length self.now.source.tokens }
    {
        self.place
    }

    /// Returns the byte offset of the position.
    pub(crate) fn byte(&self) -> usize
        ensures { IsPlace self.now.source self.now.place result }
    {
        self.byte
    }

    /// Returns the token visible at a position, and the position after it, if the parser has it
    /// cached.
    #[inline(always)]
    pub(crate) fn kept(&self, place: usize) -> Option<(Token, usize)>
        ensures { IfSome result (IsNext self.now.source place self.now.names) }
    {
        if place == self.place {
            self.next.found()
        } else {
            None
        }
    }

    /// Returns the token visible at a position, and the position after it.
    pub(crate) fn look(&self, place: usize, byte: usize) -> Result<Option<(Token, usize)>, Fault>
        requires { IsPlace self.now.source place byte }
        ensures value { result ≡ shown self.now.source place self.now.names }
        ensures on { IfOk result (λ found. IfSome found (λ v. place < v.1)) }
        ensures after { IfOk result (λ found. IfSome found (IsAfter self.now.source)) }
    {
        match self.kept(place) {
            Some(found) => Ok(Some(found)),
            None => {
                let source = &self.source;
                source.look(place, byte, &self.names)
            }
        }
    }

    /// Moves to `place`, which must not be before the position, and caches the token visible there.
    // `inline(never)`: one call per move, into which the common paths of the sources are inlined.
    #[inline(never)]
    fn move_to(&mut self, place: usize, byte: usize)
        requires on { self.old.place ≤ place }
        requires place { IsPlace self.old.source place byte }
        ensures { self.new ≡ record self.old { place = place } }
    {
        self.place = place;
        self.byte = byte;
        let source = &self.source;
        source.lemma_read();
        let (token, at, sight) = source.first_at(place, byte);
        match sight {
            Sight::Plain => self.next.keep(token, at + 1),
            Sight::Blank => {
                let end = token.offset + token.len as usize;
                source.keep_past(at + 1, end, false, &self.names, &mut self.next);
            }
            Sight::Marked => source.keep_past(at, token.offset, true, &self.names, &mut self.next),
            Sight::Nothing => source.keep_look(self.place, self.byte, &self.names, &mut self.next),
        }
    }

    /// Restores a position and a depth.
    fn put_back(&mut self, place: usize, byte: usize, depth: usize)
        requires deep { depth ≤ place }
        requires place { IsPlace self.old.source place byte }
        ensures { self.new ≡ record self.old { place = place; depth = depth } }
    {
        self.next = Kept::nothing();
        self.place = place;
        self.byte = byte;
        self.depth = depth;
    }

    /// Returns the current span at a position, as described at [`cur_span`](Parser::cur_span).
    #[tactic(auto, unfolding(crate::specs::places::Places::current_span))]
    pub(crate) fn span_from(&self, place: usize, byte: usize) -> Span
        requires { IsPlace self.now.source place byte }
        ensures { result ≡ current_span self.now.source place self.now.names }
    {
        let offset = match self.look(place, byte) {
            Ok(None) => self.text().len(),
            Ok(Some((token, _))) => token.offset,
            Err(_) => byte,
        };
        Span::from_offset(offset)
    }

    /// Lemma (no effect): a parser's tokens are those of its text, which is UTF-8 and shorter than
    /// 2^32 bytes. The theorems of the module `laws` therefore apply to it, in the proofs of
    /// dependent crates.
    pub fn lemma_sound(&self)
        ensures sound { IsSound self.now }
    {
        let source = &self.source;
        source.lemma_read();
        let _text = source.text();
        self.names.lemma_positive();
    }

    /// Returns `true` if `)` or the end of the text is next, so that a list ends here; `false` at
    /// an error.
    pub fn is_empty(&self) -> bool
        ensures value { result ≡
            empty_of (shown self.now.source self.now.place self.now.names) }
        ensures sound { IsSound self.now }
    {
        self.lemma_sound();
        self.is_empty_from(self.place, self.byte)
    }

    /// Returns `true` if `)` or the end of the text is next at a position; `false` at an error.
    pub(crate) fn is_empty_from(&self, place: usize, byte: usize) -> bool
        requires { IsPlace self.now.source place byte }
        ensures { result ≡ empty_of (shown self.now.source place self.now.names) }
    {
        match self.look(place, byte) {
            Ok(None) => true,
            Ok(Some((token, _))) => matches!(token.kind, TokenKind::RParen),
            Err(_) => false,
        }
    }

    /// Returns the current span: the offset of the next visible token, the length of the text at
    /// its end, or the offset of the position itself at an error.
    pub fn cur_span(&self) -> Span
        ensures { result ≡ current_span self.now.source self.now.place self.now.names }
    {
        self.span_from(self.place, self.byte)
    }

    /// Returns the offset where the last consumed token or comment ends, or 0 at the start.
    pub fn prev_span(&self) -> Span
        ensures { result ≡ offset_at self.now.source.tokens self.now.place }
    {
        Span::from_offset(self.byte)
    }

    /// Returns the number of groups that [`parens`](Parser::parens) and
    /// [`parens_of`](Parser::parens_of) have open.
    pub fn parens_depth(&self) -> usize
        ensures { result ≡ self.now.depth }
    {
        self.depth
    }

    /// Creates an error with this message at the current span.
    pub fn error(&self, message: &str) -> Error
        ensures { IsUnlessMemory result
            (report_here self.now.source self.now.place self.now.names message.now) }
    {
        self.error_at(self.cur_span(), message)
    }

    /// Creates an error with this message at an offset of the text.
    pub fn error_at(&self, span: Span, message: &str) -> Error
        ensures { IsUnlessMemory result (message_at self.now.source span message.now) }
    {
        let source = &self.source;
        source.error_at(span, message)
    }

    /// Checks the number of open groups.
    ///
    /// # Errors
    ///
    /// Returns `item nesting too deep` if more than [`MAX_PARENS_DEPTH`] groups are open.
    pub fn depth_check(&self) -> Result<(), Error>
        ensures checked { Answers false (λ u. u) (depth_checked self.now) result }
        ensures most { MAX_PARENS_DEPTH ≡ 100 }
    {
        if self.depth > MAX_PARENS_DEPTH {
            return Err(self.error("item nesting too deep"));
        }
        Ok(())
    }

    /// Returns `true` if the text has a significant token or a lexical error anywhere.
    pub fn has_meaningful_tokens(&self) -> bool
        ensures { result ≡ is_meaningful self.now.source }
    {
        let source = &self.source;
        source.is_meaningful()
    }

    /// Returns the flag set by `track_instr_spans` of the buffer.
    pub fn track_instr_spans(&self) -> bool
        ensures { result ≡ self.now.source.track }
    {
        let source = &self.source;
        source.tracks()
    }

    /// Returns `true` if an annotation name is registered, so that its annotations are visible.
    pub fn is_registered(&self, name: &str) -> bool
        ensures { result ≡ is_registered self.now.names name.now }
    {
        self.names.is_registered(name)
    }

    /// Registers an annotation name, which makes its annotations visible. Registrations are
    /// counted. Allocates only if the name is not registered yet, apart from the error message.
    ///
    /// # Errors
    ///
    /// Fails without effect if an allocation fails, or if the name is registered `usize::MAX`
    /// times.
    pub fn register_annotation(&mut self, name: &str) -> Result<(), Error>
        ensures value { Answers (not (is_registered self.old.names name.now)) (λ _. self.new)
            (registered self.old name.now) result }
        ensures refused { OnErr result (self.new ≡ self.old) }
        ensures kept { self.new ≡ record self.old { names = self.new.names } }
        ensures undo { OnOk result (fewer self.new.names name.now ≡ self.old.names) }
        ensures there { OnOk result (0 < count self.new.names name.now) }
    {
        let alloc = self.alloc();
        self.next = Kept::nothing();
        match self.names.register(alloc, name) {
            Ok(()) => Ok(()),
            Err(RegisterError::TooOften) => Err(self.too_often()),
            Err(RegisterError::OutOfMemory(refused)) => Err(Error::from(refused)),
        }
    }

    /// Creates the error for a name that is registered `usize::MAX` times.
    fn too_often(&self) -> Error
        ensures { IsUnlessMemory result (too_often self.now) }
    {
        match String::from_str(self.alloc(), "annotation registered too often") {
            Ok(message) => Error::new(self.prev_span(), message),
            Err(refused) => Error::from(refused),
        }
    }

    /// Sets the number of registrations of a registered name, for a caller that restores a saved
    /// number. `times` must not be 0. Does not allocate.
    pub fn set_registrations(&mut self, name: &str, times: usize)
        requires there { 0 < count self.old.names name.now }
        requires some { 0 < times }
        ensures { self.new ≡ record self.old { names = map.insert self.old.names name.now times } }
    {
        self.next = Kept::nothing();
        self.names.set(name, times);
    }

    /// Removes one registration of a name, which must be registered.
    pub fn unregister_annotation(&mut self, name: &str)
        requires { 0 < count self.old.names name.now }
        ensures { self.new ≡ record self.old { names = fewer self.old.names name.now } }
    {
        self.next = Kept::nothing();
        self.names.unregister(name);
    }

    ghost use Rattle.std.specs.Fn.{FnOnceReturnsAtMut};

    /// Calls a function with a cursor at the position, and advances to the cursor that it returns.
    /// That cursor must be of this parser's text and names, and not before the position.
    ///
    /// # Errors
    ///
    /// Returns the error of the function. The parser is then unchanged.
    pub fn step<T, F: for<'p> FnOnce(Cursor<'p, 'a>) -> Result<(T, Cursor<'p, 'a>), Error>>(
        &mut self,
        f: F,
    ) -> Result<T, Error>
        requires may { (c : _) → c.parser.now ≡ self.old → c.at ≡ self.old.place → F.pre f c }
        requires same { (c : _) (t : T) (d : _) → c.parser.now ≡ self.old →
            c.at ≡ self.old.place → F.post f c (Ok (t, d)) →
            (d.parser.now.source ≡ self.old.source) × (d.parser.now.names ≡ self.old.names)
            × (self.old.place ≤ d.at) }
        ensures ok { IfOk result (λ t. (c : _) × (d : _) × (c.parser.now ≡ self.old)
            × (c.at ≡ self.old.place) × F.post f c (Ok (t, d))
            × (self.new ≡ record self.old { place = d.at })) }
        ensures err { IfErr result (λ e. (self.new ≡ self.old)
            × ((c : _) × (c.parser.now ≡ self.old) × (c.at ≡ self.old.place)
            × F.post f c (Err e))) }
    {
        match f(Cursor::new(self)) {
            Ok((value, next)) => {
                let (at, byte) = (next.place(), next.byte());
                self.move_to(at, byte);
                Ok(value)
            }
            Err(e) => Err(e),
        }
    }

    /// Consumes `(`. Fails if it is not next.
    #[rattlefmt::skip]
    #[tactic(
        auto,
        using(crate::proofs::parser::Refusals::refusal),
        unfolding(crate::specs::parser::Closures::opened),
    )]
    fn open(&mut self) -> Result<(), Error>
        ensures ok { OnOk result
            (opened self.old.source self.old.place self.old.names ≡ Ok self.new.place) }
        ensures moved { self.new ≡ record self.old { place = self.new.place } }
        ensures on { OnOk result (self.old.place < self.new.place) }
        ensures err { IfErr result
            (IsRefusal (opened self.old.source self.old.place self.old.names)) }
        ensures stays { OnErr result (self.new ≡ self.old) }
    {
        let cursor = Cursor::new(self);
        match cursor.lparen()? {
            Some(next) => {
                let (at, byte) = (next.place(), next.byte());
                self.move_to(at, byte);
                Ok(())
            }
            None => Err(cursor.error("expected `(`")),
        }
    }

    /// Consumes `)`. Fails if it is not next.
    #[rattlefmt::skip]
    #[tactic(
        auto,
        using(crate::proofs::parser::Refusals::refusal),
        unfolding(crate::specs::parser::Closures::closed),
    )]
    fn close(&mut self) -> Result<(), Error>
        ensures ok { OnOk result
            (closed self.old.source self.old.place self.old.names ≡ Ok self.new.place) }
        ensures moved { self.new ≡ record self.old { place = self.new.place } }
        ensures on { OnOk result (self.old.place < self.new.place) }
        ensures err { IfErr result
            (IsRefusal (closed self.old.source self.old.place self.old.names)) }
        ensures stays { OnErr result (self.new ≡ self.old) }
    {
        let cursor = Cursor::new(self);
        match cursor.rparen()? {
            Some(next) => {
                let (at, byte) = (next.place(), next.byte());
                self.move_to(at, byte);
                Ok(())
            }
            None => Err(cursor.error("expected `)`")),
        }
    }

    /// Consumes `(`, calls a function with the depth increased by 1, and consumes `)`. The function
    /// must restore the depth.
    ///
    /// # Errors
    ///
    /// Returns the error of the function, or an error if a parenthesis is missing. Position and
    /// depth are then restored. Registered names remain as the function left them.
    pub fn parens<T: Drop, F: FnOnce(&mut Parser<'a>) -> Result<T, Error>>(
        &mut self,
        f: F,
    ) -> Result<T, Error>
        requires may { (p : _) → p.now.source ≡ self.old.source →
            p.now.names ≡ self.old.names → p.now.depth ≡ self.old.depth + 1 →
            opened self.old.source self.old.place self.old.names ≡ Ok p.now.place → F.pre f p }
        requires leaves { (p : _) (r : _) (q : _) → p.now.source ≡ self.old.source →
            p.now.names ≡ self.old.names → p.now.depth ≡ self.old.depth + 1 →
            opened self.old.source self.old.place self.old.names ≡ Ok p.now.place →
            F.post f p r q →
            (q.now.source ≡ p.now.source) × (q.now.depth ≡ p.now.depth) }
        ensures ok { IfOk result (λ t.
            ParensOk (FnOnceReturnsAtMut F.FnOnce f) self.old t self.new) }
        ensures err { IfErr result (λ e.
            ParensErr (FnOnceReturnsAtMut F.FnOnce f) self.old e self.new) }
        ensures back { OnErr result
            ((self.new.place ≡ self.old.place) × (self.new.depth ≡ self.old.depth)) }
        ensures on { ((p : _) (r : _) (q : _) → p.now.source ≡ self.old.source →
            p.now.names ≡ self.old.names → p.now.depth ≡ self.old.depth + 1 →
            opened self.old.source self.old.place self.old.names ≡ Ok p.now.place →
            F.post f p r q → p.now.place ≤ q.now.place) → self.old.place ≤ self.new.place }
    {
        let (place, byte, depth) = (self.place, self.byte, self.depth);
        self.source.lemma_read();
        self.open()?;
        self.depth += 1;
        match f(self) {
            Ok(value) => match self.close() {
                Ok(()) => {
                    self.depth = depth;
                    Ok(value)
                }
                Err(e) => {
                    self.put_back(place, byte, depth);
                    Err(e)
                }
            },
            Err(e) => {
                self.put_back(place, byte, depth);
                Err(e)
            }
        }
    }

    /// Returns `true` if a `T` comes next.
    pub fn peek<T: Peek>(&self) -> Result<bool, Error>
        ensures { PeekIs (T.sight self.now) result }
    {
        T::peek(Cursor::new(self))
    }

    /// Returns `true` if a `T` comes after the next visible token; `false` if that token is
    /// missing.
    pub fn peek2<T: Peek>(&self) -> Result<bool, Error>
        ensures { PeekIs (second T.sight self.now) result }
    {
        T::peek2(Cursor::new(self))
    }

    /// Returns `true` if a `T` comes after the next 2 visible tokens; `false` if one of them is
    /// missing.
    pub fn peek3<T: Peek>(&self) -> Result<bool, Error>
        ensures { PeekIs (second (second T.sight) self.now) result }
    {
        match Cursor::new(self).any()? {
            Some((_, next)) => T::peek2(next),
            None => Ok(false),
        }
    }
}

/// Maximum number of open groups that [`Parser::depth_check`] accepts.
pub const MAX_PARENS_DEPTH: usize = 100;
