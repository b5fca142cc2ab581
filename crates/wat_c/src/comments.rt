//! Ranges of comments.
ghost use Rattle.std.specs.Prelude.{◌≡◌, ◌<◌, ◌^◌, ◌+◌, length, IfOk, IfSome};
ghost use Rattle.std.specs.Str.{IsCharBoundary, IsUtf8};
ghost use Rattle.wat_c.specs.CommentPlaces.{CommentsAreOne, IsParsersComment};
ghost use Rattle.wat_c.specs.CommentPlaces.{IsPast, TellsComment, comment_word};
ghost use Rattle.wat_c_records.specs.Rows.{setting};

use crate::laws::comments_are_parsers;
use crate::words::Word;
use std::str;
use wat_c_records::rows::fault_code;
use wat_lex::lexer::{LexFault, Lexer, Settings, Token, TokenKind};

/// Lexes the token at `pos`, or the one after it if it is whitespace.
fn past_space(text: &str, pos: usize, settings: Settings) -> Result<Option<Token>, LexFault>
    requires short { length text.now < 2 ^ 32 }
    requires boundary { IsCharBoundary text.now pos }
    ensures past { IsPast (record { text = text.now; flags = settings }) pos result }
    ensures short { IfOk result (λ found. IfSome found (λ t. t.offset + t.len < 2 ^ 32)) }
{
    let lexer = Lexer::with_settings(text, settings);
    match lexer.scan(pos) {
        Ok(Some(token)) => match token.kind {
            TokenKind::Whitespace => lexer.scan(token.offset + token.len as usize),
            _ => Ok(Some(token)),
        },
        found => found,
    }
}

/// Returns the range of a comment. Returns status 3 for another token and for the end of the text,
/// and the code of the error for a lexical error.
fn comment_word(found: Result<Option<Token>, LexFault>) -> Word
    requires { IfOk found (λ found. IfSome found (λ t. t.offset + t.len < 2 ^ 32)) }
    ensures { result ≡ comment_word found }
{
    match found {
        Ok(Some(token)) => match token.kind {
            TokenKind::LineComment | TokenKind::BlockComment => Word {
                start: token.offset as u32,
                len: token.len,
                status: 0,
            },
            _ => Word::refused(3),
        },
        Ok(None) => Word::refused(3),
        Err(fault) => Word::refused(fault_code(fault.error)),
    }
}

/// Returns the range of the comment at `pos`, or of the comment after the whitespace at `pos`.
fn comment_at(text: &str, pos: usize, settings: Settings) -> Word
    requires short { length text.now < 2 ^ 32 }
    requires boundary { IsCharBoundary text.now pos }
    ensures known { TellsComment (record { text = text.now; flags = settings }) pos result }
    ensures parsers { IsParsersComment (record { text = text.now; flags = settings }) pos result }
{
    comments_are_parsers();
    comment_word(past_space(text, pos, settings))
}

/// Returns the range of the comment at `pos`, or of the comment after the whitespace at `pos`,
/// including the delimiters of the comment. Fails with status 3 if another token or the end of the
/// text is there, and with the code of the error if a lexical error is there. A parser at this
/// offset finds the same comment.
#[unsafe(no_mangle)]
pub extern "C" fn wat_comment(text: &[u8], pos: usize, allow: bool, strict: bool) -> Word
    requires utf8 { IsUtf8 text.now }
    requires short { length text.now < 2 ^ 32 }
    requires boundary { IsCharBoundary text.now pos }
    ensures known { TellsComment (setting text.now allow strict) pos result }
    ensures one { CommentsAreOne }
    ensures parsers { IsParsersComment (setting text.now allow strict) pos result }
{
    comments_are_parsers();
    let text = unsafe { str::from_utf8_unchecked(text) };
    comment_at(text, pos, Settings { allow, strict })
}
