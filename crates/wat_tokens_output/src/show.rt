//! Lists the visible tokens of a text.
ghost use Rattle.std.specs.Prelude.{◌≡◌, ◌++◌, ◌+◌, ◌≤◌, ◌<◌, ◌^◌, ℕ, List, [], length, Option};
ghost use Rattle.std.specs.Prelude.{IfOk, IfErr, IfSome, OnOk, OnErr, None};
ghost use Rattle.std.specs.Io.KnownBytes.{Appends};
ghost use Rattle.wat_lex.specs.errors.Errors.{Report};
ghost use Rattle.wat_lex.specs.declared.lexer.kinds.Token.{Token};
ghost use Rattle.wat_lexer_parser.specs.names.RegisteredNames.{no_names};
ghost use Rattle.wat_tokens_io.specs.Blocks.{Puts};
ghost use Rattle.wat_tokens_io.specs.Lines.{line};
ghost use Rattle.wat_tokens_io.specs.Streams.{AppendsPrefix, failure_after};
ghost use Rattle.wat_tokens_output.specs.Shows.{with_name, with_names, IsInside, ShownEnds};
ghost use Rattle.wat_tokens_output.specs.Shows.{AppendsShown, AppendsShownCut, ShowsFault, Takes};
ghost use Rattle.wat_tokens_output.specs.Shows.{TakesNext};

use crate::list::refusal_of;
use std::alloc::AllocError;
use wat_lex::error::Error;
use wat_lex::lexer::Token;
use wat_lexer_parser::laws;
use wat_lexer_parser::parser::{Cursor, LazyBuffer, Parser};
use wat_tokens_io::block::Block;
use wat_tokens_io::ends::{Failed, Sink};
use wat_tokens_io::line::Place;

/// The number of visible tokens, and the error after them.
#[derive(Drop)]
pub struct Ending {
    /// Number of visible tokens.
    pub count: usize,
    /// The error after the last of them, or `None` at the end of the text.
    pub error: Option<Error>,
}

/// A format in which tokens are listed.
pub(crate) trait Form {
    // The bytes of a token in this format.
    ghost each: { Self → Token → List ℕ };

    // The text that the tokens must belong to, or `None` for a format that does not use it.
    ghost text: { Self → Option (List ℕ) };

    /// Appends a token in this format to the block. Writes the block to the sink first if the bytes
    /// do not fit.
    ///
    /// # Errors
    ///
    /// Returns the failure of the sink, after a prefix of the block and the token was written.
    fn put<W: Sink>(
        &mut self,
        block: &mut Block,
        output: &mut W,
        token: &Token,
    ) -> Result<(), Failed>
        requires inside { IfSome (text self.old) (λ t. IsInside t token.now) }
        requires short { token.now.offset + token.now.len < 2 ^ 32 }
        ensures put { OnOk result (Puts (W.held output.old) (W.held output.new)
            block.old block.new (each self.old token.now)) }
        ensures cut { OnErr result (AppendsPrefix (W.held output.old) (W.held output.new)
            (block.old ++ each self.old token.now)) }
        ensures failed { W.failure output.new ≡ failure_after (W.failure output.old) result }
        ensures same { each self.new ≡ each self.old }
        ensures same_text { text self.new ≡ text self.old };
}

/// The format of raw token lists: a line `{offset}..{end} {kind}` for each token.
#[derive(Drop)]
struct PlainLines {
    /// The offset that was written last, with its digits.
    place: Place,
}

impl Form for PlainLines {
    ghost use Rattle.std.specs.Prelude.{None};
    ghost use Rattle.wat_tokens_io.specs.Lines.{line};

    ghost each = { λ _. line };

    ghost text = { λ _. None };

    fn put<W: Sink>(
        &mut self,
        block: &mut Block,
        output: &mut W,
        token: &Token,
    ) -> Result<(), Failed> {
        block.put_line(output, &mut self.place, token)
    }
}

/// Registers an annotation name, unless it is registered already. Fails only if an allocation
/// fails.
fn register(parser: &mut Parser<'_>, name: &str) -> Result<(), Error>
    ensures names { OnOk result
        (parser.new ≡ record parser.old { names = with_name parser.old.names name.now }) }
    ensures refused { IfErr result (λ e. e ≡ None) }
{
    if parser.is_registered(name) {
        return Ok(());
    }
    parser.register_annotation(name)
}

/// Registers each of the annotation names that is not yet registered. Fails only if an allocation
/// fails.
pub(crate) fn register_all(parser: &mut Parser<'_>, names: &[String]) -> Result<(), Error>
    ensures names { OnOk result
        (parser.new ≡ record parser.old { names = with_names parser.old.names names.now }) }
    ensures refused { IfErr result (λ e. e ≡ None) }
{
    for name in names {
        register(parser, name)?;
    }
    Ok(())
}

/// Creates a parser at the start of a text, with these annotation names registered.
pub fn parser_of<'b>(buffer: &'b LazyBuffer<'_>, names: &[String]) -> Result<Parser<'b>, AllocError>
    ensures { IfOk result (λ parser. parser ≡ record {
      source = buffer.now;
      place = 0;
      names = with_names no_names names.now;
      depth = 0;
    }) }
{
    let mut parser = buffer.parser();
    match register_all(&mut parser, names) {
        Ok(()) => Ok(parser),
        Err(error) => Err(refusal_of(&error)),
    }
}

/// Counts the visible tokens from a cursor on, and returns their number with the error after them.
/// Fails only if an allocation fails.
fn counted<'p, 'a>(from: Cursor<'p, 'a>) -> Result<Ending, Error>
    ensures ends { IfOk result (λ e. ShownEnds from.entry.parser.now.source
        from.entry.parser.now.names from.entry.at e.count e.error) }
    ensures refused { IfErr result (λ e. e ≡ None) }
{
    laws::all_shown();
    from.lemma_sound();
    let mut count = 0;
    let mut cursor = from;
    'tokens: loop {
        match cursor.any() {
            Ok(Some((_, next))) => {
                count += 1;
                cursor = next;
            }
            Ok(None) => return Ok(Ending { count, error: None }),
            Err(error) if error.is_out_of_memory() => return Err(error),
            Err(error) => {
                let error = Some(error);
                return Ok(Ending { count, error });
            }
        }
    }
}

/// Counts like [`counted`], and returns the cursor unchanged too, as `Parser::step` requires.
fn counted_from<'p, 'a>(from: Cursor<'p, 'a>) -> Result<(Ending, Cursor<'p, 'a>), Error>
    ensures ends { IfOk result (λ r. ShownEnds from.entry.parser.now.source
        from.entry.parser.now.names from.entry.at r.0.count r.0.error) }
    ensures same { IfOk result (λ r. r.1 ≡ from.entry) }
    ensures refused { IfErr result (λ e. e ≡ None) }
{
    let ending = counted(from)?;
    Ok((ending, from))
}

/// Returns the number of visible tokens from a parser's position on, and the error after them. The
/// parser does not advance.
pub fn ending_of(parser: &mut Parser<'_>) -> Result<Ending, AllocError>
    ensures ends { IfOk result (λ e. ShownEnds parser.old.source parser.old.names
        parser.old.place e.count e.error) }
    ensures same { parser.new ≡ parser.old }
{
    match parser.step(|cursor| counted_from(cursor)) {
        Ok(ending) => Ok(ending),
        Err(error) => Err(refusal_of(&error)),
    }
}

/// Advances a cursor over the next visible token, and returns both. At the end of the text, returns
/// `None` and the same cursor.
fn take_visible<'p, 'a>(from: Cursor<'p, 'a>) -> Result<(Option<Token>, Cursor<'p, 'a>), Error>
    ensures taken { IfOk result (λ r. Takes from.entry.parser.now.source
        from.entry.parser.now.names from.entry.at r.0 r.1.at) }
    ensures parser { IfOk result (λ r. r.1.parser ≡ from.entry.parser) }
    ensures on { IfOk result (λ r. from.entry.at ≤ r.1.at) }
    ensures fault { IfErr result (λ _. ShowsFault from.entry.parser.now.source
        from.entry.parser.now.names from.entry.at) }
{
    match from.any()? {
        Some((token, next)) => Ok((Some(token), next)),
        None => Ok((None, from)),
    }
}

/// Advances a parser over the next visible token, and returns it. Returns `None` if `left` is 0, at
/// the end of the text, or if there is an error.
fn next(parser: &mut Parser<'_>, left: usize) -> Option<Token>
    ensures taken { TakesNext parser.old.source parser.old.names parser.old.place left
        result parser.new.place }
    ensures parser { parser.new ≡ record parser.old { place = parser.new.place } }
{
    if left == 0 {
        return None;
    }
    match parser.step(|cursor| take_visible(cursor)) {
        Ok(found) => found,
        Err(_) => None,
    }
}

/// Appends the bytes `last` to the block, and writes it to the sink.
fn finish<W: Sink>(block: &mut Block, last: &[u8], output: &mut W) -> Result<(), Failed>
    ensures written { OnOk result
        (Appends (W.held output.old) (W.held output.new) (block.old ++ last.now)) }
    ensures cut { OnErr result
        (AppendsPrefix (W.held output.old) (W.held output.new) (block.old ++ last.now)) }
    ensures failed { W.failure output.new ≡ failure_after (W.failure output.old) result }
{
    block.put(output, last)?;
    block.write(output)
}

/// Writes the `count` visible tokens from a parser's position on in this format, and then the bytes
/// `last`.
pub(crate) fn write_in<F: Form + Drop, W: Sink>(
    parser: &mut Parser<'_>,
    count: usize,
    form: F,
    last: &[u8],
    output: &mut W,
) -> Result<(), Failed>
    requires text { IfSome (F.text form) (λ t. t ≡ parser.old.source.setting.text) }
    requires count { (error : Option (Option Report)) × ShownEnds parser.old.source
        parser.old.names parser.old.place count error }
    ensures written { OnOk result (AppendsShown (F.each form) last.now parser.old.source
        parser.old.names parser.old.place (W.held output.old) (W.held output.new)) }
    ensures cut { OnErr result (AppendsShownCut (F.each form) last.now parser.old.source
        parser.old.names parser.old.place (W.held output.old) (W.held output.new)) }
    ensures failed { W.failure output.new ≡ failure_after (W.failure output.old) result }
{
    laws::all_shown();
    parser.lemma_sound();
    let mut form = form;
    let mut block = Block::new();
    let mut left = count;
    'tokens: loop {
        match next(parser, left) {
            Some(token) => {
                form.put(&mut block, output, &token)?;
                left -= 1;
            }
            None => return finish(&mut block, last, output),
        }
    }
}

/// Writes a line for each of the `count` visible tokens from a parser's position on. Does not
/// allocate.
///
/// `count` must be the number of visible tokens, a result of [`ending_of`].
///
/// # Errors
///
/// Returns the failure of the sink, after a prefix of the lines was written.
pub fn write_shown<W: Sink>(
    parser: &mut Parser<'_>,
    count: usize,
    output: &mut W,
) -> Result<(), Failed>
    requires { (error : Option (Option Report)) × ShownEnds parser.old.source
        parser.old.names parser.old.place count error }
    ensures written { OnOk result (AppendsShown line [] parser.old.source parser.old.names
        parser.old.place (W.held output.old) (W.held output.new)) }
    ensures cut { OnErr result (AppendsShownCut line [] parser.old.source parser.old.names
        parser.old.place (W.held output.old) (W.held output.new)) }
    ensures failed { W.failure output.new ≡ failure_after (W.failure output.old) result }
{
    let form = PlainLines {
        place: Place::start(),
    };
    write_in(parser, count, form, b"", output)
}
