//! Formats tokens and errors as lines of JSON. A token's line has the members before its text, the
//! text as a string, and the members after it.
ghost use Rattle.std.specs.Prelude.{◌≡◌, ◌++◌, ◌+◌, ◌∷◌, ◌<◌, ◌≤◌, ◌^◌, [], length, take, flat_map};
ghost use Rattle.std.specs.Prelude.{codes};
ghost use Rattle.std.specs.Prelude.{OnOk, OnErr, IfOk, IsTrue};
ghost use Rattle.std.specs.Option.{option_map};
ghost use Rattle.std.specs.Str.{IsCharBoundary};
ghost use Rattle.wat_lex.specs.errors.Positions.{line_and_column};
ghost use Rattle.wat_tokens_io.specs.Blocks.{Puts};
ghost use Rattle.wat_tokens_io.specs.JsonRows.{json_tail, json_fault, json_front};
ghost use Rattle.wat_tokens_io.specs.JsonRows.{json_line, json_open};
ghost use Rattle.wat_tokens_io.specs.JsonStrings.{escaped, hex_digit, json_string};
ghost use Rattle.wat_tokens_io.specs.Streams.{AppendsPrefix, failure_after};

use crate::block::Block;
use crate::ends::{Failed, Sink};
use crate::members::ROOM;
use crate::position::Positions;
use itoa::Buffer;
use std::alloc::{AllocError, Global};
use wat_lex::lexer::Token;
use wat_lex::token::Span;

/// Returns the lowercase hexadecimal digit of a value below 16.
fn hex_digit(digit: u8) -> u8
    requires { digit < 16 }
    ensures { result ≡ hex_digit digit }
{
    if digit < 10 {
        b'0' + digit
    } else {
        b'a' + (digit - 10)
    }
}

/// Returns six bytes that begin with the form of a byte in a JSON string, and the length of that
/// form: the byte itself, or its escape.
fn escaped(byte: u8) -> ([u8; 6], usize)
    ensures text { take result.1 result.0 ≡ escaped byte }
    ensures short { result.1 ≤ 6 }
{
    match byte {
        b'"' => (*b"\\\"    ", 2),
        b'\\' => (*b"\\\\    ", 2),
        b'\n' => (*b"\\n    ", 2),
        b'\r' => (*b"\\r    ", 2),
        b'\t' => (*b"\\t    ", 2),
        0..=31 => {
            let digits = [hex_digit(byte / 16), hex_digit(byte % 16)];
            ([b'\\', b'u', b'0', b'0', digits[0], digits[1]], 6)
        }
        _ => ([byte, b' ', b' ', b' ', b' ', b' '], 1),
    }
}

/// Returns `true` if the byte needs no escape in a JSON string.
fn is_plain(byte: u8) -> bool
    ensures { IsTrue result → escaped byte ≡ byte ∷ [] }
{
    byte >= b' ' && byte != b'"' && byte != b'\\'
}

/// Returns the number of bytes at the start of the text that need no escape in a JSON string.
fn plain_len(text: &[u8]) -> usize
    ensures plain { flat_map escaped (take result text.now) ≡ take result text.now }
    ensures within { result ≤ length text.now }
{
    let mut len = 0;
    while len < text.len() && is_plain(text[len]) {
        len += 1;
    }
    len
}

/// Appends the first bytes of a text to the block, in their form in a JSON string, and returns
/// their number: all bytes before the first that needs an escape, or that byte alone.
fn put_escaped_prefix<W: Sink>(
    block: &mut Block,
    output: &mut W,
    text: &[u8],
) -> Result<usize, Failed>
    requires { 0 < length text.now }
    ensures put { IfOk result (λ count. Puts (W.held output.old) (W.held output.new)
        block.old block.new (flat_map escaped (take count text.now))) }
    ensures on { IfOk result (λ count. 0 < count) }
    ensures within { IfOk result (λ count. count ≤ length text.now) }
    ensures cut { OnErr result (AppendsPrefix (W.held output.old) (W.held output.new)
        (block.old ++ flat_map escaped text.now)) }
    ensures failed { W.failure output.new ≡ failure_after (W.failure output.old) result }
{
    let plain = plain_len(text);
    if plain > 0 {
        block.put(output, &text[..plain])?;
        return Ok(plain);
    }
    let (bytes, count) = escaped(text[0]);
    block.put(output, &bytes[..count])?;
    Ok(1)
}

/// Appends the bytes of a text to the block, in their form in a JSON string.
fn put_escaped<W: Sink>(block: &mut Block, output: &mut W, text: &[u8]) -> Result<(), Failed>
    ensures put { OnOk result (Puts (W.held output.old) (W.held output.new)
        block.old block.new (flat_map escaped text.now)) }
    ensures cut { OnErr result (AppendsPrefix (W.held output.old) (W.held output.new)
        (block.old ++ flat_map escaped text.now)) }
    ensures failed { W.failure output.new ≡ failure_after (W.failure output.old) result }
{
    let mut put = 0;
    while put < text.len() {
        let count = put_escaped_prefix(block, output, &text[put..])?;
        put += count;
    }
    Ok(())
}

/// Appends the part of a token's line before its text: `begin`, the members before the text, and
/// the quotation mark that opens it.
fn put_row_head<W: Sink>(
    block: &mut Block,
    output: &mut W,
    positions: &mut Positions<'_>,
    begin: &[u8],
    token: &Token,
) -> Result<(), Failed>
    requires { token.now.offset + token.now.len < 2 ^ 32 }
    ensures put { OnOk result (Puts (W.held output.old) (W.held output.new)
        block.old block.new (json_front begin.now token.now ++ codes "\"")) }
    ensures cut { OnErr result (AppendsPrefix (W.held output.old) (W.held output.new)
        (block.old ++ (json_front begin.now token.now ++ codes "\""))) }
    ensures failed { W.failure output.new ≡ failure_after (W.failure output.old) result }
    ensures positions { positions.new ≡ positions.old }
{
    block.put(output, begin)?;
    block.ensure_capacity(output, ROOM)?;
    positions.push_head(block, token);
    Ok(())
}

/// Appends the part of a token's line after its text: the quotation mark that closes the text, and
/// the line and column of `offset`.
fn put_back<W: Sink>(
    block: &mut Block,
    output: &mut W,
    positions: &mut Positions<'_>,
    offset: usize,
) -> Result<(), Failed>
    requires place { IsCharBoundary positions.old offset }
    ensures put { OnOk result (Puts (W.held output.old) (W.held output.new)
        block.old block.new (codes "\"" ++ json_tail (line_and_column positions.old offset))) }
    ensures cut { OnErr result (AppendsPrefix (W.held output.old) (W.held output.new)
        (block.old ++ (codes "\"" ++ json_tail (line_and_column positions.old offset)))) }
    ensures failed { W.failure output.new ≡ failure_after (W.failure output.old) result }
    ensures positions { positions.new ≡ positions.old }
{
    let (line, column) = positions.linecol(offset);
    block.ensure_capacity(output, ROOM)?;
    positions.push_tail(block, line, column);
    Ok(())
}

/// Appends the line of a token, as JSON. The line begins with `begin`, a result of [`object_open`].
///
/// # Errors
///
/// Returns the failure of the sink, after a prefix of the block and the line was written.
pub fn put_row<W: Sink>(
    block: &mut Block,
    output: &mut W,
    positions: &mut Positions<'_>,
    begin: &[u8],
    token: &Token,
) -> Result<(), Failed>
    requires place { IsCharBoundary positions.old token.now.offset }
    requires end { token.now.offset + token.now.len ≤ length positions.old }
    ensures put { OnOk result (Puts (W.held output.old) (W.held output.new)
        block.old block.new (json_line begin.now positions.old token.now)) }
    ensures cut { OnErr result (AppendsPrefix (W.held output.old) (W.held output.new)
        (block.old ++ json_line begin.now positions.old token.now)) }
    ensures failed { W.failure output.new ≡ failure_after (W.failure output.old) result }
    ensures positions { positions.new ≡ positions.old }
{
    let text = positions.text().as_bytes();
    put_row_head(block, output, positions, begin, token)?;
    put_escaped(
        block,
        output,
        &text[token.offset..token.offset + token.len as usize],
    )?;
    put_back(block, output, positions, token.offset)
}

/// Appends the bytes of a text to `lines`, in their form in a JSON string.
fn push_escaped(lines: &mut Vec<u8>, text: &[u8]) -> Result<(), AllocError>
    ensures { OnOk result (lines.new.items ≡ lines.old.items ++ flat_map escaped text.now) }
{
    for byte in text {
        let (bytes, count) = escaped(*byte);
        lines.extend_from_slice(&bytes[..count])?;
    }
    Ok(())
}

/// Appends a text to `lines` as a JSON string.
fn push_string(lines: &mut Vec<u8>, text: &[u8]) -> Result<(), AllocError>
    ensures { OnOk result (lines.new.items ≡ lines.old.items ++ json_string text.now) }
{
    lines.extend_from_slice(b"\"")?;
    push_escaped(lines, text)?;
    lines.extend_from_slice(b"\"")
}

/// Returns the start of each JSON line of a list: the opening brace, and the member `file` if the
/// text is that of a named file.
pub fn object_open(alloc: Global, file: Option<&str>) -> Result<Vec<u8>, AllocError>
    ensures { IfOk result (λ begin. begin.items ≡ json_open (option_map (λ f. f.now) file.entry)) }
{
    let mut begin = Vec::new(alloc);
    begin.extend_from_slice(b"{")?;
    if let Some(name) = file {
        begin.extend_from_slice(b"\"file\":")?;
        push_string(&mut begin, name.as_bytes())?;
        begin.extend_from_slice(b",")?;
    }
    Ok(begin)
}

/// Appends the members `line` and `column` and the closing brace to `lines`. The arguments count
/// from 0, the members from 1.
fn push_line_and_column(lines: &mut Vec<u8>, line: usize, column: usize) -> Result<(), AllocError>
    requires line { line < 2 ^ 32 }
    requires column { column < 2 ^ 32 }
    ensures { OnOk result (lines.new.items ≡ lines.old.items ++ json_tail (line, column)) }
{
    lines.extend_from_slice(b",\"line\":")?;
    lines.extend_from_slice(Buffer::new().format(line + 1).as_bytes())?;
    lines.extend_from_slice(b",\"column\":")?;
    lines.extend_from_slice(Buffer::new().format(column + 1).as_bytes())?;
    lines.extend_from_slice(b"}\n")
}

/// Appends the line of an error to `lines`, as JSON: its offset, its message, and its line and
/// column. The line begins with `begin`, a result of [`object_open`].
pub fn push_fault(
    lines: &mut Vec<u8>,
    text: &str,
    begin: &[u8],
    offset: usize,
    message: &str,
) -> Result<(), AllocError>
    requires { length text.now < 2 ^ 32 }
    ensures { OnOk result (lines.new.items
        ≡ lines.old.items ++ json_fault begin.now text.now offset message.now) }
{
    let (line, column) = Span::from_offset(offset).linecol_in(text);
    lines.extend_from_slice(begin)?;
    lines.extend_from_slice(b"\"offset\":")?;
    lines.extend_from_slice(Buffer::new().format(offset).as_bytes())?;
    lines.extend_from_slice(b",\"fault\":")?;
    push_string(lines, message.as_bytes())?;
    push_line_and_column(lines, line, column)
}
