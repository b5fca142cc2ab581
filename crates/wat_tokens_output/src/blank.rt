//! Blanks the comments of a text: overwrites their bytes with spaces, except line ends.
ghost use Rattle.std.specs.Prelude.{◌≡◌, ◌++◌, ◌+◌, ◌≤◌, length, map, OnOk, OnErr};
ghost use Rattle.wat_lexer_parser.specs.laws.BlankTexts.{blank_byte, blank_text};
ghost use Rattle.wat_tokens_io.specs.Blocks.{AppendsEach, AppendsEachCut, Puts};
ghost use Rattle.wat_tokens_io.specs.Streams.{AppendsPrefix, failure_after};

use wat_lex::lexer::{Lexer, Token, TokenKind};
use wat_tokens_io::block::Block;
use wat_tokens_io::ends::{Failed, Sink};

/// Returns a line feed or carriage return unchanged, and a space for any other byte.
fn blank_byte(byte: u8) -> u8
    ensures { result ≡ blank_byte byte }
{
    if byte == b'\n' || byte == b'\r' {
        byte
    } else {
        b' '
    }
}

/// Appends the bytes of a comment, blanked, to the block.
fn put_blanks<W: Sink>(block: &mut Block, output: &mut W, comment: &[u8]) -> Result<(), Failed>
    ensures put { OnOk result (Puts (W.held output.old) (W.held output.new)
        block.old block.new (map blank_byte comment.now)) }
    ensures cut { OnErr result (AppendsPrefix (W.held output.old) (W.held output.new)
        (block.old ++ map blank_byte comment.now)) }
    ensures failed { W.failure output.new ≡ failure_after (W.failure output.old) result }
{
    for byte in comment {
        block.put(output, &[blank_byte(*byte)])?;
    }
    Ok(())
}

/// Appends the bytes of a token to the block, blanked if it is a comment.
fn put_token<W: Sink>(
    block: &mut Block,
    output: &mut W,
    text: &[u8],
    token: &Token,
) -> Result<(), Failed>
    requires { token.now.offset + token.now.len ≤ length text.now }
    ensures put { OnOk result (Puts (W.held output.old) (W.held output.new)
        block.old block.new (blank_text text.now token.now)) }
    ensures cut { OnErr result (AppendsPrefix (W.held output.old) (W.held output.new)
        (block.old ++ blank_text text.now token.now)) }
    ensures failed { W.failure output.new ≡ failure_after (W.failure output.old) result }
{
    let bytes = &text[token.offset..token.offset + token.len as usize];
    match token.kind {
        TokenKind::LineComment | TokenKind::BlockComment => put_blanks(block, output, bytes),
        _ => block.put(output, bytes),
    }
}

/// Writes a lexer's text with its comments blanked, up to its end or to a lexical error. Does not
/// allocate.
///
/// # Errors
///
/// Returns the failure of the sink, after a prefix of the output was written.
pub fn write_blanked<W: Sink>(lexer: &Lexer<'_>, output: &mut W) -> Result<(), Failed>
    ensures written { OnOk result (AppendsEach (blank_text lexer.now.text) lexer.now
        (W.held output.old) (W.held output.new)) }
    ensures cut { OnErr result (AppendsEachCut (blank_text lexer.now.text) lexer.now
        (W.held output.old) (W.held output.new)) }
    ensures failed { W.failure output.new ≡ failure_after (W.failure output.old) result }
{
    wat_lex::laws::one_tiling();
    let text = lexer.input().as_bytes();
    let mut block = Block::new();
    let mut pos = 0;
    'tokens: loop {
        match lexer.scan(pos) {
            Ok(Some(token)) => {
                put_token(&mut block, output, text, &token)?;
                pos = token.offset + token.len as usize;
            }
            Ok(None) => return block.write(output),
            Err(_) => return block.write(output),
        }
    }
}
