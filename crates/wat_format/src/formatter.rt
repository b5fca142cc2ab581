//! Formatter that accepts the raw tokens of a text one at a time and writes them with their gaps.
ghost use Rattle.std.specs.Prelude.{◌≡◌, ◌≤◌, ◌<◌, ◌+◌, ◌^◌, ◌++◌, OnOk, [], string_bytes};
ghost use Rattle.std.specs.Str.{IsCharBoundary};
ghost use Rattle.wat_format.specs.Gaps.{gap_of};
ghost use Rattle.wat_format.specs.Layout.{after, gap_before, laid, line_level, start};
ghost use Rattle.wat_format.specs.inside.Steps.{Few, Lays, Writes};

use crate::blanks::push_gap;
use crate::gap::{Gap, gap_of};
use crate::group::Groups;
use crate::sort::{Sort, is_white, sort_of};
use std::alloc::{AllocError, Global};
use std::marker::Model;
use wat_lex::lexer::{Token, TokenKind};

/// State of a formatter between two tokens.
#[derive(Drop)]
pub struct Formatter {
    before: Option<Sort>,
    gap: Gap,
    line: u32,
    groups: Groups,
}

impl Model for Formatter {
    ghost use Rattle.std.specs.Prelude.{◌≤◌};
    ghost use Rattle.wat_format.specs.Layout.{State};

    ghost Value = { State };

    ghost view = { λ f. record {
      before = f.before;
      gap = f.gap;
      line = f.line;
      groups = f.groups;
    } };

    ghost invariant = { λ f. f.line ≤ 50 };
}

impl Formatter {
    /// Returns a formatter before the first token.
    pub fn new(alloc: Global) -> Formatter
        ensures { result ≡ start }
    {
        Formatter {
            before: None,
            gap: Gap::Touching,
            line: 0,
            groups: Groups::new(alloc),
        }
    }

    /// Returns the gap that is written between the preceding token and one of this sort. It is
    /// empty before the first token.
    fn gap_before(&self, sort: Sort) -> Gap
        ensures { result ≡ gap_before sort self.now }
    {
        match self.before {
            None => Gap::Touching,
            Some(before) => self.gap.settled(before, sort),
        }
    }

    /// Returns the level of the line that contains a token of this sort after this gap.
    fn line_level(&self, sort: Sort, gap: Gap) -> u32
        ensures level { result ≡ line_level sort gap self.now }
        ensures low { result ≤ 50 }
    {
        if gap.is_break() {
            self.groups.level(sort)
        } else {
            self.line
        }
    }

    /// Advances past a token of this sort, on a line of this level.
    fn pass(&mut self, sort: Sort, line: u32) -> Result<(), AllocError>
        requires line { line ≤ 50 }
        requires few { self.old.groups.open_group.blocks + 1 < 2 ^ 32 }
        ensures { OnOk result (self.new ≡ after sort line self.old) }
    {
        self.groups.pass(sort, line)?;
        self.before = Some(sort);
        self.gap = Gap::Touching;
        self.line = line;
        Ok(())
    }

    /// Advances past whitespace, which is the gap after the preceding token.
    fn pass_white(&mut self, white: &str)
        ensures { self.new ≡ record self.old { gap = gap_of white.now } }
    {
        self.gap = gap_of(white.as_bytes());
    }

    /// Writes the gap before a token, and the token.
    fn write(&mut self, out: &mut String, kind: TokenKind, word: &str) -> Result<(), AllocError>
        requires { self.old.groups.open_group.blocks + 1 < 2 ^ 32 }
        ensures { OnOk result (Writes kind word.now self.old self.new
            (string_bytes out.old) (string_bytes out.new)) }
    {
        let sort = sort_of(self.before, kind, word);
        let gap = self.gap_before(sort);
        let line = self.line_level(sort, gap);
        push_gap(out, gap, line)?;
        out.push_str(word)?;
        self.pass(sort, line)
    }

    /// Accepts a raw token of the text. Writes it with the gap before it, unless it is whitespace.
    pub fn take(&mut self, out: &mut String, text: &str, token: &Token) -> Result<(), AllocError>
        requires start { IsCharBoundary text.now token.now.offset }
        requires end { IsCharBoundary text.now (token.now.offset + token.now.len) }
        requires short { token.now.offset + token.now.len < 2 ^ 32 }
        requires some { 0 < token.now.len }
        requires few { Few token.now.offset self.old }
        ensures written { OnOk result (Lays text.now self.old token.now self.new
            (string_bytes out.old) (string_bytes out.new)) }
        ensures few { OnOk result (Few (token.now.offset + token.now.len) self.new) }
    {
        let word = &text[token.offset..token.offset + token.len as usize];
        if is_white(token.kind) {
            self.pass_white(word);
            return Ok(());
        }
        self.write(out, token.kind, word)
    }

    /// Writes the line end after the last token. Writes nothing if there was no token except
    /// whitespace.
    pub fn finish(&self, out: &mut String, text: &str) -> Result<(), AllocError>
        ensures { OnOk result (string_bytes out.new
            ≡ string_bytes out.old ++ laid text.now self.now []) }
    {
        match self.before {
            None => Ok(()),
            Some(_) => out.push_str("\n"),
        }
    }
}
