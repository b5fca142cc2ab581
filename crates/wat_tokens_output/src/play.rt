//! Formats the replies of a parser as lines.
ghost use Rattle.std.specs.Prelude.{◌≡◌, ◌<◌, ◌+◌, ◌^◌, length, IfOk};
ghost use Rattle.wat_tokens_output.specs.Replies.{play_text, PlayText};

use crate::list::buffer_of;
use std::alloc::{AllocError, Global};
use std::fmt;
use wat_lex::lexer::Settings;
use wat_lexer_parser::parser::{Call, FaultKind, Reply, replay};
use wat_tokens_io::line::line_end;

/// The kind of a parser's error, which prints as its message.
#[derive(Clone, Copy)]
struct Message(FaultKind);

impl fmt::Display for Message {
    ghost use Rattle.std.specs.Prelude.{Some};
    ghost use Rattle.wat_tokens_output.specs.Replies.{fault_message};

    ghost output = { λ m. Some (fault_message m.0) };

    fn fmt<W: fmt::Write>(&self, f: &mut fmt::Formatter<W>) -> fmt::Result {
        match self.0 {
            FaultKind::Lex(error) => write!(f, "{error}"),
            FaultKind::Unclosed => write!(f, "unclosed annotation"),
        }
    }
}

/// Returns the end offset of `len` bytes from `offset` on.
fn end_of(offset: usize, len: u32) -> u128
    ensures { result ≡ offset + len }
{
    offset as u128 + u128::from(len)
}

/// A reply, which prints as its line.
#[derive(Clone, Copy)]
struct ReplyLine<'a>(&'a Reply);

impl fmt::Display for ReplyLine<'_> {
    ghost use Rattle.std.specs.Prelude.{Some};
    ghost use Rattle.wat_tokens_output.specs.Replies.{reply_line};

    ghost output = { λ r. Some (reply_line r.0.now) };

    fn fmt<W: fmt::Write>(&self, f: &mut fmt::Formatter<W>) -> fmt::Result {
        match self.0 {
            Reply::Token(token) => {
                let offset = token.offset;
                let end = end_of(offset, token.len);
                write!(f, "{offset}..{end}{}", line_end(token.kind))
            }
            Reply::End => writeln!(f, "end"),
            Reply::Fault(offset, kind) => writeln!(f, "fault {offset} {}", Message(*kind)),
            Reply::Comment(offset, len) => {
                let end = end_of(*offset, *len);
                writeln!(f, "comment {offset}..{end}")
            }
            Reply::Done => writeln!(f, "done"),
            Reply::Absent => writeln!(f, "absent"),
            Reply::NotOpen(offset) => writeln!(f, "not open {offset}"),
            Reply::NotClosed(offset) => writeln!(f, "not closed {offset}"),
            Reply::TooOften => writeln!(f, "too often"),
        }
    }
}

/// Returns the lines of the replies, one for each.
pub fn reply_lines(alloc: Global, replies: &[Reply]) -> Result<Vec<u8>, AllocError>
    ensures { IfOk result (λ lines. lines.items ≡ play_text replies.now) }
{
    let mut lines = String::new(alloc);
    for reply in replies {
        write!(lines, "{}", ReplyLine(reply))?;
    }
    Ok(lines.into_bytes())
}

/// Replays calls of a parser from the start of a text of at most `u32::MAX` bytes, and returns a
/// line for each reply.
pub fn play(
    alloc: Global,
    text: &str,
    settings: Settings,
    calls: &[Call],
) -> Result<Vec<u8>, AllocError>
    requires { length text.now < 2 ^ 32 }
    ensures { IfOk result (λ lines.
        PlayText (record { text = text.now; flags = settings }) calls.now lines.items) }
{
    let buffer = buffer_of(alloc, text, settings);
    let mut parser = buffer.parser();
    let replies = replay(alloc, &mut parser, calls)?;
    reply_lines(alloc, &replies)
}
