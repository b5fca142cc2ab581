//! Lists raw tokens or visible tokens as JSON, a line for each.
ghost use Rattle.std.specs.Prelude.{◌≡◌, ◌<◌, ◌^◌, length, OnOk, OnErr, Option, Some, ◌++◌};
ghost use Rattle.wat_lex.specs.errors.Errors.{Report};
ghost use Rattle.wat_tokens_io.specs.Blocks.{AppendsEach, AppendsEachCut};
ghost use Rattle.wat_tokens_io.specs.JsonRows.{json_line};
ghost use Rattle.wat_tokens_io.specs.Streams.{failure_after};
ghost use Rattle.wat_tokens_output.specs.JsonLists.{json_report};
ghost use Rattle.wat_tokens_output.specs.Shows.{AppendsShown, AppendsShownCut, ShownEnds};

use crate::show::{Form, write_in};
use std::alloc::{AllocError, Global};
use wat_lex::error::Error;
use wat_lex::lexer::{Lexer, Token};
use wat_lexer_parser::parser::Parser;
use wat_tokens_io::block::Block;
use wat_tokens_io::ends::{Failed, Sink};
use wat_tokens_io::position::Positions;
use wat_tokens_io::row::{push_fault, put_row};

/// Writes a line of JSON for each raw token of a lexer's text, up to its end or to a lexical error.
/// Each line begins with `begin`. Does not allocate.
///
/// # Errors
///
/// Returns the failure of the sink, after a prefix of the lines was written.
pub fn write_json<W: Sink>(lexer: &Lexer<'_>, begin: &[u8], output: &mut W) -> Result<(), Failed>
    ensures written { OnOk result (AppendsEach (json_line begin.now lexer.now.text) lexer.now
        (W.held output.old) (W.held output.new)) }
    ensures cut { OnErr result (AppendsEachCut (json_line begin.now lexer.now.text) lexer.now
        (W.held output.old) (W.held output.new)) }
    ensures failed { W.failure output.new ≡ failure_after (W.failure output.old) result }
{
    wat_lex::laws::one_tiling();
    let mut positions = Positions::new(lexer.input());
    let mut block = Block::new();
    let mut pos = 0;
    'tokens: loop {
        match lexer.scan(pos) {
            Ok(Some(token)) => {
                put_row(&mut block, output, &mut positions, begin, &token)?;
                pos = token.offset + token.len as usize;
            }
            Ok(None) => return block.write(output),
            Err(_) => return block.write(output),
        }
    }
}

/// Appends the line of an error in a text to `lines`, as JSON. The line begins with `begin`.
pub fn push_report(
    alloc: Global,
    lines: &mut Vec<u8>,
    text: &str,
    begin: &[u8],
    error: &Error,
) -> Result<(), AllocError>
    requires { length text.now < 2 ^ 32 }
    ensures { OnOk result (lines.new.items
        ≡ lines.old.items ++ json_report begin.now text.now (Some error.now)) }
{
    let message = error.message(alloc)?;
    push_fault(lines, text, begin, error.span().offset(), &message)
}

/// The JSON format: a line for each token, which begins with `begin`.
#[derive(Drop)]
struct JsonLines<'a> {
    /// The start of each line.
    begin: &'a [u8],
    /// The text of the tokens, with the line that was found last.
    positions: Positions<'a>,
}

impl Form for JsonLines<'_> {
    ghost use Rattle.std.specs.Prelude.{Some};
    ghost use Rattle.wat_tokens_io.specs.JsonRows.{json_line};

    ghost each = { λ r. json_line r.begin.now r.positions };

    ghost text = { λ r. Some r.positions };

    fn put<W: Sink>(
        &mut self,
        block: &mut Block,
        output: &mut W,
        token: &Token,
    ) -> Result<(), Failed> {
        put_row(block, output, &mut self.positions, self.begin, token)
    }
}

/// Writes a line of JSON for each of the `count` visible tokens from a parser's position on, and
/// then the bytes `last`. Each line begins with `begin`. Does not allocate.
///
/// `text` must be the parser's text, and `count` the number of visible tokens, a result of
/// `show::ending_of`.
///
/// # Errors
///
/// Returns the failure of the sink, after a prefix of the lines and `last` was written.
pub fn write_json_shown<W: Sink>(
    parser: &mut Parser<'_>,
    count: usize,
    text: &str,
    begin: &[u8],
    last: &[u8],
    output: &mut W,
) -> Result<(), Failed>
    requires text { text.now ≡ parser.old.source.setting.text }
    requires count { (error : Option (Option Report)) × ShownEnds parser.old.source
        parser.old.names parser.old.place count error }
    ensures written { OnOk result (AppendsShown (json_line begin.now text.now) last.now
        parser.old.source parser.old.names parser.old.place
        (W.held output.old) (W.held output.new)) }
    ensures cut { OnErr result (AppendsShownCut (json_line begin.now text.now) last.now
        parser.old.source parser.old.names parser.old.place
        (W.held output.old) (W.held output.new)) }
    ensures failed { W.failure output.new ≡ failure_after (W.failure output.old) result }
{
    parser.lemma_sound();
    let form = JsonLines {
        begin,
        positions: Positions::new(text),
    };
    write_in(parser, count, form, last, output)
}
