//! Calls of a parser as values, and the replies to them.
ghost use Rattle.std.specs.Prelude.{◌≡◌, ◌≤◌, ◌<◌, IfOk, IfSome, OnOk, OnErr};
ghost use Rattle.std.specs.Prelude.{Ok, Err};
ghost use Rattle.wat_lexer_parser.specs.inside.Next.{IsAfter, IsPlace, known_place};
ghost use Rattle.wat_lexer_parser.specs.laws.CallLaws.{IsIndependentOfPeeks};
ghost use Rattle.wat_lexer_parser.specs.calls.Calls.{answer, register, unregister, replies};
ghost use Rattle.wat_lexer_parser.specs.calls.Calls.{IsStateAfterPrefix, state_after};
ghost use Rattle.wat_lexer_parser.specs.calls.Calls.{fault_reply, shown_reply, comment_reply};
ghost use Rattle.wat_lexer_parser.specs.calls.Calls.{
  position_after,
  after_taking,
  close_reply,
  group_reply,
};
ghost use Rattle.wat_lexer_parser.specs.places.Places.{comment_at};
ghost use Rattle.wat_lexer_parser.specs.shown.Showing.{shown};

use crate::laws;
use crate::parser::Parser;
use crate::parser::fault::{Fault, FaultKind};
use crate::parser::kept::Kept;
use crate::parser::names::RegisterError;
use std::alloc::{AllocError, Global};
use wat_lex::lexer::{Token, TokenKind};

/// A call of a parser.
#[derive(Debug, Drop, PartialEq)]
pub enum Call {
    /// A peek at the next visible token.
    Look,
    /// An advance past the next visible token.
    Take,
    /// An advance past the next comment.
    Comment,
    /// The registration of an annotation name.
    Register(String),
    /// The removal of one registration of an annotation name.
    Unregister(String),
    /// An advance past `(`, this number of visible tokens of any kind, and `)`.
    Parens(usize),
}

/// A parser's reply to a call.
#[derive(Debug, Drop, PartialEq)]
pub enum Reply {
    /// The next visible token.
    Token(Token),
    /// The end of the text.
    End,
    /// An error that a peek found: its offset in the text, and its kind.
    Fault(usize, FaultKind),
    /// The offset and the length of a comment that the parser advanced past.
    Comment(usize, u32),
    /// Success of a registration, of its removal, or of an advance past a group.
    Done,
    /// Failure because no comment is next, or because the name is not registered.
    Absent,
    /// Failure because `(` is not next, with the offset of the current span.
    NotOpen(usize),
    /// Failure because `)` is not next after the tokens of a group, with the offset of the current
    /// span there.
    NotClosed(usize),
    /// Failure because the name is registered `usize::MAX` times.
    TooOften,
}

/// The result of a peek: a token or a comment with the position after it, `None`, or an error.
type Found = Result<Option<(Token, usize)>, Fault>;

/// Returns the reply for an error that a peek found.
fn fault_reply(fault: Fault) -> Reply
    ensures { result ≡ fault_reply fault }
{
    Reply::Fault(fault.offset, fault.kind)
}

/// Returns the reply for the result of a peek at a token.
fn shown_reply(found: Found) -> Reply
    ensures { result ≡ shown_reply found }
{
    match found {
        Ok(None) => Reply::End,
        Ok(Some((token, _))) => Reply::Token(token),
        Err(fault) => fault_reply(fault),
    }
}

/// Returns the reply for the result of a peek at a comment.
fn comment_reply(found: Found) -> Reply
    ensures { result ≡ comment_reply found }
{
    match found {
        Ok(None) => Reply::Absent,
        Ok(Some((token, _))) => Reply::Comment(token.offset, token.len),
        Err(fault) => fault_reply(fault),
    }
}

impl<'a> Parser<'a> {
    /// Returns the position after a token or comment found at the parser's position, and its byte
    /// offset. If none was found, returns the parser's position.
    fn position_after(&self, found: Found) -> (usize, usize)
        requires on { IfOk found (λ found. IfSome found (λ v. self.now.place < v.1)) }
        requires after { IfOk found (λ found. IfSome found (IsAfter self.now.source)) }
        ensures place { result.0 ≡ position_after found self.now.place }
        ensures on { self.now.place ≤ result.0 }
        ensures within { IsPlace self.now.source result.0 result.1 }
    {
        match found {
            Ok(Some((token, next))) => (next, token.offset + token.len as usize),
            Ok(None) => (self.place, self.byte),
            Err(_) => (self.place, self.byte),
        }
    }

    /// Returns the position after the next `count` visible tokens, and its byte offset. Stops early
    /// at the end of the text. Returns an error if a peek finds one.
    fn after_taking(&self, place: usize, byte: usize, count: usize) -> Result<(usize, usize), Fault>
        requires { IsPlace self.now.source place byte }
        ensures value { known_place result ≡
            after_taking self.now.source self.now.names count place }
        ensures on { IfOk result (λ q. place ≤ q.0) }
        ensures within { IfOk result (λ q. IsPlace self.now.source q.0 q.1) }
    {
        let mut at = place;
        let mut pos = byte;
        let mut left = count;
        while left > 0 {
            match self.look(at, pos) {
                Ok(Some((token, next))) => {
                    at = next;
                    pos = token.offset + token.len as usize;
                    left -= 1;
                }
                Ok(None) => return Ok((at, pos)),
                Err(fault) => return Err(fault),
            }
        }
        Ok((at, pos))
    }

    /// Returns the reply to consuming `)` at `at`, and the position after it with its byte offset.
    /// If `)` is not next, the position is the parser's own.
    fn close_group(&self, at: usize, pos: usize) -> (Reply, usize, usize)
        requires on { self.now.place ≤ at }
        requires within { IsPlace self.now.source at pos }
        ensures value { (result.0, result.1) ≡
            close_reply self.now.source self.now.names self.now.place (Ok at) }
        ensures on { self.now.place ≤ result.1 }
        ensures within { IsPlace self.now.source result.1 result.2 }
    {
        let (place, byte) = (self.place, self.byte);
        match self.look(at, pos) {
            Ok(Some((token, next))) => match token.kind {
                TokenKind::RParen => (Reply::Done, next, token.offset + token.len as usize),
                _ => (
                    Reply::NotClosed(self.span_from(at, pos).offset()),
                    place,
                    byte,
                ),
            },
            Ok(None) => (
                Reply::NotClosed(self.span_from(at, pos).offset()),
                place,
                byte,
            ),
            Err(fault) => (fault_reply(fault), place, byte),
        }
    }

    /// Returns the reply to consuming `(`, `count` visible tokens and `)`, and the position after
    /// them with its byte offset. If one of them is missing, the position is the parser's own.
    #[tactic(auto, unfolding(crate::specs::calls::Calls::group_reply))]
    fn group(&self, count: usize) -> (Reply, usize, usize)
        ensures value { (result.0, result.1) ≡
            group_reply self.now.source self.now.names count self.now.place }
        ensures on { self.now.place ≤ result.1 }
        ensures within { IsPlace self.now.source result.1 result.2 }
    {
        let (place, byte) = (self.place, self.byte);
        match self.look(place, byte) {
            Ok(Some((token, next))) => match token.kind {
                TokenKind::LParen => {
                    let inside = token.offset + token.len as usize;
                    match self.after_taking(next, inside, count) {
                        Ok((at, pos)) => self.close_group(at, pos),
                        Err(fault) => (fault_reply(fault), place, byte),
                    }
                }
                _ => (
                    Reply::NotOpen(self.span_from(place, byte).offset()),
                    place,
                    byte,
                ),
            },
            Ok(None) => (
                Reply::NotOpen(self.span_from(place, byte).offset()),
                place,
                byte,
            ),
            Err(fault) => (fault_reply(fault), place, byte),
        }
    }

    /// Executes a call and returns its reply. Has no effect if an allocation fails.
    fn answer(&mut self, call: &Call) -> Result<Reply, AllocError>
        ensures reply { IfOk result (λ reply. reply ≡ (answer self.old call.now).0) }
        ensures state { OnOk result (self.new ≡ (answer self.old call.now).1) }
        ensures refused { OnErr result (self.new ≡ self.old) }
    {
        match call {
            Call::Look => Ok(shown_reply(self.look(self.place, self.byte))),
            Call::Take => {
                let found = self.look(self.place, self.byte);
                let (next, byte) = self.position_after(found);
                self.move_to(next, byte);
                Ok(shown_reply(found))
            }
            Call::Comment => {
                let source = &self.source;
                let found = source.comment_at(self.place, self.byte);
                let (next, byte) = self.position_after(found);
                self.move_to(next, byte);
                Ok(comment_reply(found))
            }
            Call::Register(name) => self.reply_to_register(name.as_str()),
            Call::Unregister(name) => Ok(self.reply_to_unregister(name.as_str())),
            Call::Parens(count) => {
                let (reply, place, byte) = self.group(*count);
                self.move_to(place, byte);
                Ok(reply)
            }
        }
    }

    /// Registers an annotation name and returns the reply. Has no effect if an allocation fails.
    fn reply_to_register(&mut self, name: &str) -> Result<Reply, AllocError>
        ensures reply { IfOk result (λ reply. reply ≡ (register self.old name.now).0) }
        ensures state { OnOk result (self.new ≡ (register self.old name.now).1) }
        ensures refused { OnErr result (self.new ≡ self.old) }
    {
        let alloc = self.alloc();
        self.next = Kept::nothing();
        match self.names.register(alloc, name) {
            Ok(()) => Ok(Reply::Done),
            Err(RegisterError::TooOften) => Ok(Reply::TooOften),
            Err(RegisterError::OutOfMemory(refused)) => Err(refused),
        }
    }

    /// Removes one registration of an annotation name, if there is one, and returns the reply.
    fn reply_to_unregister(&mut self, name: &str) -> Reply
        ensures reply { result ≡ (unregister self.old name.now).0 }
        ensures state { self.new ≡ (unregister self.old name.now).1 }
    {
        if self.names.is_registered(name) {
            self.next = Kept::nothing();
            self.names.unregister(name);
            Reply::Done
        } else {
            Reply::Absent
        }
    }
}

/// Executes the calls of a list in order, and returns the replies.
///
/// # Errors
///
/// Fails if an allocation fails. The parser's state is then that after some number of calls from
/// the start of the list.
pub fn replay<'a>(
    alloc: Global,
    parser: &mut Parser<'a>,
    calls: &[Call],
) -> Result<Vec<Reply>, AllocError>
    ensures replies { IfOk result (λ made. made.items ≡ replies parser.old calls.now) }
    ensures state { IfOk result (λ _. parser.new ≡ state_after parser.old calls.now) }
    ensures beginning { OnErr result (IsStateAfterPrefix parser.old calls.now parser.new) }
    ensures law { IsIndependentOfPeeks parser.old calls.now }
{
    laws::calls();
    let mut replies = Vec::new(alloc);
    let mut i = 0;
    while i < calls.len() {
        let reply = parser.answer(&calls[i])?;
        i += 1;
        replies.push(reply)?;
    }
    Ok(replies)
}
