//! Scanning of runs, which consist of idchars and strings, and the kinds of lexemes.
ghost use Rattle.std.specs.Prelude.{◌≡◌, ◌<◌, ◌≤◌, ◌+◌, ◌^◌, true, length, take, slice_index};
ghost use Rattle.std.specs.Prelude.{IfOk, IfErr, IsTrue};
ghost use Rattle.wat_lex.specs.inside.ScannedLexemes.{Refused};
ghost use Rattle.wat_lex.specs.inside.Outlines.{Outlined, IsShapeOfRun};
ghost use Rattle.wat_lex.specs.inside.ScannedRuns.{RunFound};
ghost use Rattle.wat_lex.specs.grammar.Numbers.{sign_of};
ghost use Rattle.wat_lex.specs.grammar.Runs.{WordKind, kind_by_first, named_kind};
ghost use Rattle.wat_lex.specs.grammar.Classes.{is_run_char};

use crate::lexer::faults::LexFault;
use crate::lexer::kinds::{FloatKind, Outline, Shape, Sign, Stride, TokenKind};
use crate::lexer::scan::blocks::{block_at, equal_to};
use crate::lexer::scan::byte_at;
use crate::lexer::scan::classes::idchar_len;
use crate::lexer::scan::numbers::{classify, plain_decimal, plain_float, plain_hexadecimal};
use crate::lexer::scan::short::{short_decimal, short_hexadecimal, short_payload};
use crate::lexer::scan::strings::string_len;
use crate::lexer::settings::Settings;

/// The size of a run.
#[derive(Clone, Copy)]
pub struct Pieces {
    /// Length in bytes.
    pub len: usize,
    /// Number of idchars.
    pub idchars: usize,
    /// Number of strings.
    pub strings: usize,
}

/// Returns a lexical error with its offset increased by `by`.
fn fault_moved(fault: LexFault, by: usize) -> LexFault
    requires { by + fault.offset < 2 ^ 64 }
    ensures { result ≡ record { offset = by + fault.offset; error = fault.error } }
{
    LexFault {
        offset: by + fault.offset,
        error: fault.error,
    }
}

/// Returns the size of the longest run at the start, or the lexical error in one of its strings.
pub fn run(text: &str, flags: Settings) -> Result<Pieces, LexFault>
    ensures ok { IfOk result (RunFound flags text.now) }
    ensures err { IfErr result (Refused flags text.now) }
{
    let bytes = text.as_bytes();
    let mut idchars = idchar_len(bytes);
    let mut len = idchars;
    let mut strings = 0usize;
    while len < bytes.len() && bytes[len] == b'"' {
        let taken = match string_len(&text[len + 1..], flags) {
            Ok(taken) => taken,
            Err(fault) => return Err(fault_moved(fault, len + 1)),
        };
        strings += 1;
        len += 1 + taken;
        let more = idchar_len(&bytes[len..]);
        idchars += more;
        len += more;
    }
    Ok(Pieces {
        len,
        idchars,
        strings,
    })
}

/// Returns the shape of a run, by its first byte and its numbers of idchars and strings.
fn run_shape(word: &[u8], idchars: usize, strings: usize) -> Shape
    ensures { IsShapeOfRun word.now idchars strings result }
{
    if strings == 0 {
        return Shape::Word;
    }
    if strings > 1 || idchars > 1 {
        return Shape::Reserved;
    }
    if idchars == 0 {
        return Shape::String;
    }
    match word {
        [b'$', ..] => Shape::Id,
        [b'@', ..] => Shape::Annotation,
        _ => Shape::Reserved,
    }
}

/// Returns the shape and the length of the run at the start.
#[inline(never)]
pub fn run_outline(text: &str, flags: Settings) -> Outline
    requires some { 0 < length text.now }
    requires run { is_run_char (slice_index text.now 0) ≡ true }
    ensures { Outlined flags text.now result }
{
    match run(text, flags) {
        Ok(found) => {
            let word = &text.as_bytes()[..found.len];
            Outline {
                shape: run_shape(word, found.idchars, found.strings),
                len: found.len,
            }
        }
        Err(_) => Outline {
            shape: Shape::Fault,
            len: 0,
        },
    }
}

/// Returns the kind of a lexeme by its first byte: an identifier after `$`, an annotation after
/// `@`, and otherwise reserved.
fn named_kind(word: &[u8]) -> TokenKind
    ensures { result ≡ named_kind word.now }
{
    match word {
        [b'$', ..] => TokenKind::Id,
        [b'@', ..] => TokenKind::Annotation,
        _ => TokenKind::Reserved,
    }
}

/// Returns the kind of a lexeme that is not a number, by its first byte.
fn kind_by_first(word: &[u8]) -> TokenKind
    ensures { result ≡ kind_by_first word.now }
{
    match word {
        [b'a'..=b'z', ..] => TokenKind::Keyword,
        _ => named_kind(word),
    }
}

/// Returns the kind of a lexeme of idchars. It is the first call for numbers with underscores, and
/// the last one for all others.
#[inline(never)]
fn any_kind(word: &[u8]) -> TokenKind
    ensures { WordKind word.now result }
{
    match classify(word) {
        Some(kind) => kind,
        None => kind_by_first(word),
    }
}

/// Returns the kind of the lexeme of idchars in the first `len` bytes. Decimal integers are tried
/// before it. It is not inlined, since its caller would then carry the facts of a float for each
/// token.
#[inline(never)]
pub fn classify_word(text: &[u8], len: usize, stride: Stride) -> TokenKind
    requires { len ≤ length text.now }
    ensures { WordKind (take len text.now) result }
{
    if let Some(kind) = plain_hexadecimal(text, len, stride) {
        return kind;
    }
    if let Some(kind) = plain_float(text, len, stride) {
        return kind;
    }
    any_kind(&text[..len])
}

/// Returns the kind of the lexeme in the first `len` bytes, which is neither a decimal integer nor
/// a short number without underscores. Those without an underscore in their first 16 bytes are
/// tried as numbers without any.
#[inline(never)]
fn other_kind(text: &[u8], len: usize) -> TokenKind
    requires { len ≤ length text.now }
    ensures { WordKind (take len text.now) result }
{
    if text.len() >= 16 {
        let underscores = equal_to(block_at(text, 0), b'_');
        if (underscores.trailing_zeros() as usize) < len {
            return any_kind(&text[..len]);
        }
    }
    classify_word(text, len, Stride::Block)
}

/// Returns the kind of the lexeme in the first `len` bytes. Tries a short number after `0x` first.
#[inline(always)]
fn hexadecimal_kind(text: &[u8], len: usize) -> TokenKind
    requires { len ≤ length text.now }
    ensures { WordKind (take len text.now) result }
{
    match short_hexadecimal(text, len).kind() {
        Some(kind) => kind,
        None => other_kind(text, len),
    }
}

/// Returns the kind of the lexeme in the first `len` bytes. Tries a short NaN with a payload first.
#[inline(always)]
fn payload_kind(text: &[u8], len: usize, stride: Stride) -> TokenKind
    requires { len ≤ length text.now }
    ensures { WordKind (take len text.now) result }
{
    if stride == Stride::Byte {
        return classify_word(text, len, stride);
    }
    match short_payload(text, len).kind() {
        Some(kind) => kind,
        None => classify_word(text, len, stride),
    }
}

/// Returns the kind of the lexeme in the first `len` bytes. Tries a decimal integer first.
#[inline(always)]
pub fn decimal_kind(text: &[u8], len: usize, stride: Stride) -> TokenKind
    requires { len ≤ length text.now }
    ensures { WordKind (take len text.now) result }
{
    match plain_decimal(text, len, stride) {
        Some(kind) => kind,
        None => classify_word(text, len, stride),
    }
}

/// Returns the kind of a lexeme that may be a number and fills at least one block.
#[inline(always)]
pub fn long_number_kind(text: &[u8], len: usize) -> TokenKind
    requires { len ≤ length text.now }
    ensures { WordKind (take len text.now) result }
{
    match text {
        [first, b'x', ..] if *first == b'0' => hexadecimal_kind(text, len),
        _ => match plain_decimal(text, len, Stride::Block) {
            Some(kind) => kind,
            None => other_kind(text, len),
        },
    }
}

/// Returns the kind of a lexeme that may be a number with the given sign and fits into one block.
#[inline(always)]
pub fn short_number_kind(text: &[u8], len: usize, sign: Sign) -> TokenKind
    requires sign { sign ≡ sign_of (take len text.now) }
    requires some { 0 < len }
    requires short { len ≤ 16 }
    requires long { 16 ≤ length text.now }
    ensures { WordKind (take len text.now) result }
{
    match short_decimal(text, len, sign) {
        Some(kind) => kind,
        None => hexadecimal_kind(text, len),
    }
}

/// Returns the kind of a lexeme that begins with a lowercase letter. The only numbers among these
/// begin with `inf` or `nan`, whose third letter is `f` or `n`.
#[inline(always)]
pub fn letters_kind(text: &[u8], len: usize, stride: Stride) -> TokenKind
    requires some { 0 < len }
    requires within { len ≤ length text.now }
    requires letter { (97 ≤ slice_index text.now 0) × (slice_index text.now 0 ≤ 122) }
    ensures { WordKind (take len text.now) result }
{
    let third = byte_at(text, 2);
    if third != b'f' && third != b'n' {
        return TokenKind::Keyword;
    }
    match &text[..len] {
        b"inf" => return TokenKind::Float(FloatKind::Inf { negative: false }),
        b"nan" => return TokenKind::Float(FloatKind::Nan { negative: false }),
        _ => {}
    }
    payload_kind(text, len, stride)
}
