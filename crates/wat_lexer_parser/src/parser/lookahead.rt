//! Lookahead at one of several types.
ghost use Rattle.std.specs.Prelude.{◌≡◌, ◌||◌, ◌++◌, ◌∷◌, [], OnErr, IfOk, cond};
ghost use Rattle.std.specs.Prelude.{codes, map, string_bytes};
ghost use Rattle.wat_lex.specs.errors.Errors.{IsUnlessMemory};
ghost use Rattle.wat_lexer_parser.specs.parser.State.{Answers};
ghost use Rattle.wat_lexer_parser.specs.readings.Attempts.{attempts_message, attempts_report};
ghost use Rattle.wat_lexer_parser.specs.readings.Attempts.{needs_memory, joined};

use crate::parser::{Parser, Peek};
use smallvec::SmallVec;
use std::alloc::{AllocError, Global};
use std::marker::Model;
use wat_lex::error::Error;

/// A sequence of peeks at one position, which records the types that do not come next, for the
/// error message. The first 4 are stored inline.
#[derive(Drop)]
pub struct Lookahead1<'p, 'a> {
    parser: &'p Parser<'a>,
    attempts: SmallVec<&'static str, 4>,
}

impl<'p, 'a> Model for Lookahead1<'p, 'a> {
    ghost use Rattle.std.specs.Prelude.{◌≤◌, List, ℕ, map};
    ghost use Rattle.std.specs.Coded.{coded_ℕ, coded_list, coded×};
    ghost use Rattle.wat_lexer_parser.specs.inside.Codes.{state_code};
    ghost use Rattle.wat_lexer_parser.specs.parser.State.{State};
    ghost use Rattle.wat_lexer_parser.specs.readings.Attempts.{attempts_held};

    ghost Value = { State × List (List ℕ) };

    ghost coded = { coded× state_code (coded_list (coded_list coded_ℕ)) };

    ghost view = { λ l. (l.parser.now, map (λ t. t.now) l.attempts.items) };

    ghost invariant = { λ l. attempts_held ≤ l.attempts.capacity };
}

impl<'p, 'a> Lookahead1<'p, 'a> {
    /// Creates a lookahead at a parser's position.
    pub(crate) fn new(parser: &'p Parser<'a>) -> Lookahead1<'p, 'a>
        ensures { result ≡ (parser.now, []) }
    {
        Lookahead1 {
            parser,
            attempts: SmallVec::new(parser.alloc()),
        }
    }

    /// Returns `true` if a `T` comes next. Otherwise records the type for the error message; from
    /// the fifth type on this allocates.
    pub fn peek<T: Peek>(&mut self) -> Result<bool, Error>
        ensures value { Answers ((T.sight self.old.0).takes
            || needs_memory self.old.1 (T.sight self.old.0).known) (λ b. b)
            (T.sight self.old.0).known result }
        ensures kept { IfOk result (λ seen. self.new ≡
            (self.old.0, cond seen self.old.1 (self.old.1 ++ T.shows ∷ []))) }
        ensures refused { OnErr result (self.new ≡ self.old) }
    {
        if self.parser.peek::<T>()? {
            return Ok(true);
        }
        self.attempts.push(T::display())?;
        Ok(false)
    }

    /// Returns the parser that is peeked at.
    pub fn parser(&self) -> &Parser<'a>
        ensures { result.now ≡ self.now.0 }
    {
        self.parser
    }

    /// Creates an error at the current span, whose message lists the recorded types.
    pub fn error(self) -> Error
        ensures { IsUnlessMemory result (attempts_report self.entry.0 self.entry.1) }
    {
        let parser = self.parser;
        match message(parser.alloc(), parser.is_empty(), self.attempts.as_slice()) {
            Ok(message) => parser.error(message.as_str()),
            Err(refused) => Error::from(refused),
        }
    }
}

/// Returns the message that one of the recorded types was expected. If there are none, returns
/// `unexpected end of input` if `is_empty`, that is, at `)` or the end of the text, and otherwise
/// `unexpected token`.
fn message(alloc: Global, is_empty: bool, attempts: &[&'static str]) -> Result<String, AllocError>
    ensures { IfOk result (λ message. string_bytes message ≡
        attempts_message is_empty (map (λ t. t.now) attempts.now)) }
{
    let Some((one, others)) = attempts.split_first() else {
        if is_empty {
            return String::from_str(alloc, "unexpected end of input");
        }
        return String::from_str(alloc, "unexpected token");
    };
    let Some((other, more)) = others.split_first() else {
        return format!(in alloc; "unexpected token, expected {one}");
    };
    let Some(_) = more.split_first() else {
        return format!(in alloc; "unexpected token, expected {one} or {other}");
    };
    one_of(alloc, attempts)
}

/// Returns the message that one of 3 or more types was expected.
#[tactic(auto, using(crate::proofs::parser::Joins::join_mapped))]
fn one_of(alloc: Global, attempts: &[&'static str]) -> Result<String, AllocError>
    ensures { IfOk result (λ message. string_bytes message ≡
        codes "unexpected token, expected one of: " ++ joined (map (λ t. t.now) attempts.now)) }
{
    let all = attempts.join(alloc, ", ")?;
    format!(in alloc; "unexpected token, expected one of: {all}")
}
