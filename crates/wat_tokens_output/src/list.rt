//! Lists the raw tokens of a text.
ghost use Rattle.std.specs.Prelude.{◌≡◌, ◌<◌, ◌^◌, length, Some, alloc_error};
ghost use Rattle.std.specs.Prelude.{IfOk, IfErr, OnOk, OnErr, IsNone};
ghost use Rattle.wat_lex.specs.errors.Errors.{lexical};
ghost use Rattle.wat_lexer_parser.specs.places.Source.{IsRead};
ghost use Rattle.wat_tokens_io.specs.Blocks.{AppendsEach, AppendsEachCut};
ghost use Rattle.wat_tokens_io.specs.Lines.{line};
ghost use Rattle.wat_tokens_io.specs.Streams.{failure_after};

use crate::input::RunFailure;
use std::alloc::{AllocError, Global};
use wat_lex::error::Error;
use wat_lex::lexer::{LexFault, Lexer, Settings};
use wat_lex::token::Span;
use wat_lexer_parser::parser::LazyBuffer;
use wat_tokens_io::block::Block;
use wat_tokens_io::ends::{Failed, Sink};
use wat_tokens_io::line::Place;

/// Returns the allocation failure that an error reports. The error must be out of memory, not an
/// error of the text.
pub(crate) fn refusal_of(error: &Error) -> AllocError
    requires { IsNone error.now }
{
    error.alloc_error().unwrap()
}

/// Creates the error that reports a lexical error of a text. Fails only if an allocation fails.
pub fn error_of(alloc: Global, text: &str, fault: LexFault) -> Result<Error, RunFailure>
    requires { length text.now < 2 ^ 32 }
    ensures error { IfOk result (λ error. error ≡ Some (lexical text.now fault)) }
    ensures refused { IfErr result (λ e. e ≡ RunFailure.Memory alloc_error) }
{
    let error = Error::lex(alloc, Span::from_offset(fault.offset), text, fault.error);
    match error.alloc_error() {
        Some(refused) => Err(RunFailure::from(refused)),
        None => Ok(error),
    }
}

/// Creates a buffer that lexes a text with these settings.
pub fn buffer_of<'a>(alloc: Global, text: &'a str, settings: Settings) -> LazyBuffer<'a>
    requires { length text.now < 2 ^ 32 }
    ensures setting { result.setting ≡ record { text = text.now; flags = settings } }
    ensures read { IsRead result }
{
    LazyBuffer::new_with_lexer(alloc, Lexer::with_settings(text, settings))
}

/// Writes a line for each raw token of a lexer's text, up to its end or to a lexical error. Does
/// not allocate.
///
/// # Errors
///
/// Returns the failure of the sink, after a prefix of the lines was written.
pub fn write_lines<W: Sink>(lexer: &Lexer<'_>, output: &mut W) -> Result<(), Failed>
    ensures written { OnOk result
        (AppendsEach line lexer.now (W.held output.old) (W.held output.new)) }
    ensures cut { OnErr result
        (AppendsEachCut line lexer.now (W.held output.old) (W.held output.new)) }
    ensures failed { W.failure output.new ≡ failure_after (W.failure output.old) result }
{
    wat_lex::laws::one_tiling();
    let _ = lexer.input();
    let mut block = Block::new();
    let mut place = Place::start();
    let mut pos = 0;
    'tokens: loop {
        match lexer.scan(pos) {
            Ok(Some(token)) => {
                block.put_line(output, &mut place, &token)?;
                pos = token.offset + token.len as usize;
            }
            Ok(None) => return block.write(output),
            Err(_) => return block.write(output),
        }
    }
}
