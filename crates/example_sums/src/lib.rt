//! Sums: a custom s-expression format, over the parser of the WebAssembly text format.
//!
//! A source is one sum, `(sum TERM..)`. A term is an unsigned 32-bit integer, or `(neg INTEGER)`.
//! Whitespace, comments and integers are those of WebAssembly.
#![tactic(auto)]

ghost use Rattle.std.specs.Prelude.{
  ◌≡◌,
  ◌≤◌,
  ◌<◌,
  ◌^◌,
  ℤ,
  List,
  length,
  map,
  true,
  false,
  IfOk,
  Ok,
};
ghost use Rattle.wat_lexer_parser.specs.parser.State.{Answers};
ghost use Rattle.wat_lexer_parser.specs.places.Source.{Source, IsRead};
ghost use Rattle.wat_lexer_parser.specs.readings.Readings.{many, whole};
ghost use Rattle.wat_lexer_parser.specs.readings.Reads.{IsKept, Reads};
ghost use Rattle.example_sums.specs.Spelling.{SpellsSum};
ghost use Rattle.example_sums.specs.Sums.{negative, sum, term};

pub mod kw;
pub mod laws;
#[cfg(test)]
mod tests;

use std::alloc::Global;
use wat_lexer_parser::Error;
use wat_lexer_parser::parser::{LazyBuffer, Parse, Parser};
use wat_lexer_parser::token::LParen;

/// The value of a term, negated if the term is a group `(neg ..)`.
#[derive(Debug, Clone, Copy, PartialEq, Eq)]
pub struct Term(pub i64);

impl<'a> Parse<'a> for Term {
    ghost use Rattle.std.specs.Prelude.{ℤ};
    ghost use Rattle.example_sums.specs.Sums.{term};

    ghost Value = { ℤ };

    ghost value = { λ t. t.0 };

    ghost meaning = { term.reading };

    #[tactic(auto, unfolding(crate::specs::Sums::term))]
    fn parse(parser: &mut Parser<'a>) -> Result<Term, Error> {
        let mut lookahead = parser.lookahead1();
        if lookahead.peek::<u32>()? {
            drop(lookahead);
            return Ok(Term(i64::from(parser.parse::<u32>()?)));
        }
        if lookahead.peek::<LParen>()? {
            drop(lookahead);
            return parser.parens(negative);
        }
        Err(lookahead.error())
    }
}

/// Parses `neg` and an integer, and returns its negative.
#[tactic(auto, unfolding(crate::specs::Sums::negative))]
fn negative(parser: &mut Parser<'_>) -> Result<Term, Error>
    ensures kept { IsKept parser.old parser.new }
    ensures on { parser.old.place ≤ parser.new.place }
    ensures reads { Reads (λ t. t.0) negative.reading parser.old result parser.new.place }
{
    parser.parse::<kw::neg>()?;
    Ok(Term(-i64::from(parser.parse::<u32>()?)))
}

/// A parsed sum.
#[derive(Debug, Drop)]
pub struct Sum {
    /// The terms, in source order.
    pub terms: Vec<Term>,
}

impl<'a> Parse<'a> for Sum {
    ghost use Rattle.std.specs.Prelude.{List, ℤ, map};
    ghost use Rattle.example_sums.specs.Sums.{sum};

    ghost Value = { List ℤ };

    ghost value = { λ s. map (λ t. t.0) s.terms.items };

    ghost meaning = { sum.reading };

    #[tactic(auto, unfolding(crate::specs::Sums::sum))]
    fn parse(parser: &mut Parser<'a>) -> Result<Sum, Error> {
        parser.parens(|p| {
            p.parse::<kw::sum>()?;
            Ok(Sum { terms: terms(p)? })
        })
    }
}

/// Parses all terms before `)`.
fn terms(parser: &mut Parser<'_>) -> Result<Vec<Term>, Error>
    ensures kept { IsKept parser.old parser.new }
    ensures on { parser.old.place ≤ parser.new.place }
    ensures reads { Reads (λ v. map (λ t. t.0) v.items) (many term.reading) parser.old result
        parser.new.place }
{
    parser.all_of::<Term>()
}

/// Parses a source as one sum.
///
/// # Errors
///
/// Returns an error if the source does not match the grammar, or if an allocation fails.
pub fn read(alloc: Global, text: &str) -> Result<Sum, Error>
    requires { length text.now < 2 ^ 32 }
    ensures value { (s : Source) → IsRead s → s.setting ≡ record {
      text = text.now;
      flags = record { allow = false; strict = false };
    } → s.track ≡ false →
        Answers true (λ v. map (λ t. t.0) v.terms.items) (whole sum.reading s) result }

    // Every source has raw tokens, so `value` specifies the result for every source.
    ensures some { (s : Source) × IsRead s × (s.setting ≡ record {
      text = text.now;
      flags = record { allow = false; strict = false };
    }) × (s.track ≡ false) }

    // The source matches the grammar with the returned terms.
    ensures spells { IfOk result (λ v. SpellsSum text.now (map (λ t. t.0) v.terms.items)) }

    // If the source matches the grammar with some terms, then these are returned, unless an
    // allocation fails.
    ensures spelled { (terms : List ℤ) → SpellsSum text.now terms →
        Answers true (λ v. map (λ t. t.0) v.terms.items) (Ok terms) result }
{
    has_tokens(text);
    laws::reading_is_spelling();
    let buffer = LazyBuffer::new(alloc, text);
    buffer.parse::<Sum>()
}

/// Lemma (no effect): the source has raw tokens.
fn has_tokens(text: &str)
    ensures { (s : Source) × IsRead s × (s.setting ≡ record {
      text = text.now;
      flags = record { allow = false; strict = false };
    }) × (s.track ≡ false) }
{
    wat_lex::laws::one_tiling();
}
