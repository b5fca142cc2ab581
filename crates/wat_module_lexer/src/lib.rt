//! Packs the significant tokens of a source text into 6 bytes each. These are the terminal symbols
//! of the module grammar.
#![tactic(auto)]

ghost use Rattle.std.specs.Prelude.{◌≡◌, ◌≤◌, ◌<◌, ◌^◌, ◌++◌, ◌∷◌, [], suc, IfErr, IfOk, IfSome};
ghost use Rattle.std.specs.Option.{option_map};
ghost use Rattle.std.specs.Prelude.{None, OnOk, List, false, length, ℕ};
ghost use Rattle.wat_module_tokens.specs.Terminals.{Close, Id, Integer, Open, Terminal, Text, Word};
ghost use Rattle.wat_module_tokens.specs.Terminals.{float_of};
ghost use Rattle.wat_module_tokens.specs.Tokens.{AreLinked, AreReadable};
ghost use Rattle.wat_lex.specs.tokens.ReadableTokens.{IsTokenOf, token_text};
ghost use Rattle.wat_lexer_parser.specs.parser.State.{Answers, IsSound, at_place, peek_at};
ghost use Rattle.wat_module_lexer.specs.Drafts.{AreKeywords, IsPacking, IsReadAs, draft_pieces};
ghost use Rattle.wat_module_lexer.specs.Drafts.{draft_terminals};
ghost use Rattle.wat_module_lexer.specs.TokenTerminals.{sign_of, terminal_of};
ghost use Rattle.wat_module_lexer.specs.Shown.{TerminalsFrom, TerminalsShown, ShownFrom, TextShown};

use std::alloc::{AllocError, Global};
use std::borrow::{CowSlice, CowStr};
use wat_lexer_parser::lexer::{Lexer, Settings, SignToken, Token, TokenKind};
use wat_lexer_parser::parser::{Cursor, LazyBuffer, Parser};
use wat_lexer_parser::{Error, laws};
use wat_module_tokens::stream::{PackedToken, PackedU32, SideValue};
use wat_module_tokens::token::Sign;

/// The visible tokens of a text.
#[derive(Drop)]
pub struct Shown {
    /// The visible tokens.
    pub tokens: Vec<Token>,
    /// The lexical error after the tokens, if there is one.
    pub error: Option<Error>,
}

/// The packed tokens of a text, with their side table.
#[derive(Drop)]
pub struct PackedTokens<'t> {
    /// The packed tokens.
    pub tokens: Vec<PackedToken>,
    /// The side table: values that do not fit into a packed token.
    pub kept: Vec<SideValue<'t>>,
}

/// The visible tokens of a text, packed.
#[derive(Drop)]
pub struct PackedText<'t> {
    /// The packed tokens, with their side table.
    pub packed: PackedTokens<'t>,
    /// The lexical error after the tokens, if there is one.
    pub error: Option<Error>,
}

/// A token to append to a draft.
#[derive(Drop)]
enum Read<'t> {
    /// `(`, whose group's end is not known yet.
    Open,
    /// `)`, which may end a group.
    Close,
    /// Any other token that has no entry in the side table.
    Short(PackedToken),
    /// An entry for the side table.
    SideValue(SideValue<'t>),
}

/// Lexer settings: confusing Unicode characters are allowed in comments and strings, and an
/// underscore right after another inside `\u{..}` is an error.
const SETTINGS: Settings = Settings {
    allow: true,
    strict: true,
};

/// Returns the tokens of a text that are visible if no annotation name is registered. A lexical
/// error is part of the result. Fails only if an allocation fails. The text must be shorter than
/// 2^32 bytes.
pub fn shown_tokens(alloc: Global, text: &str) -> Result<Shown, Error>
    requires { length text.now < 2 ^ 32 }
    ensures shown { IfOk result (λ r. TextShown text.now r.tokens.items r.error) }
    ensures refused { IfErr result (λ e. e ≡ None) }
{
    let buffer = LazyBuffer::new_with_lexer(alloc, Lexer::with_settings(text, SETTINGS));
    let mut parser = buffer.parser();
    parser.step(|cursor| tokens_from(alloc, cursor))
}

/// Returns the visible tokens from a cursor on, and the cursor after them. A lexical error is part
/// of the result. Fails only if an allocation fails.
fn tokens_from<'p, 'a>(
    alloc: Global,
    from: Cursor<'p, 'a>,
) -> Result<(Shown, Cursor<'p, 'a>), Error>
    ensures shown { IfOk result (λ r.
        ShownFrom from.entry.parser.now.source from.entry.parser.now.names from.entry.at
        r.0.tokens.items r.0.error) }
    ensures parser { IfOk result (λ r. r.1.parser ≡ from.entry.parser) }
    ensures on { IfOk result (λ r. from.entry.at ≤ r.1.at) }
    ensures refused { IfErr result (λ e. e ≡ None) }
{
    laws::all_shown();
    from.lemma_sound();
    let mut tokens = Vec::new(alloc);
    let mut cursor = from;
    'tokens: loop {
        match cursor.any() {
            Ok(Some((token, next))) => {
                tokens.push(token)?;
                cursor = next;
            }
            Ok(None) => return Ok((
                Shown {
                    tokens,
                    error: None,
                },
                cursor,
            )),
            Err(error) if error.is_out_of_memory() => return Err(error),
            Err(error) => {
                let error = Some(error);
                return Ok((Shown { tokens, error }, cursor));
            }
        }
    }
}

/// Returns the sign of an integer from its sign token.
fn sign(sign: Option<SignToken>) -> Sign
    ensures { result ≡ sign_of sign }
{
    match sign {
        None => Sign::Absent,
        Some(SignToken::Plus) => Sign::Plus,
        Some(SignToken::Minus) => Sign::Minus,
    }
}

/// Encodes a token as it is appended to a draft.
fn read_token<'t>(alloc: Global, text: &'t str, token: &Token) -> Result<Read<'t>, AllocError>
    requires token { IsTokenOf text.now token.now }
    requires small { length text.now < 2 ^ 32 }
    ensures { IfOk result (λ r. IsReadAs text.now r (terminal_of text.now token.now)) }
{
    match token.kind {
        TokenKind::LParen => Ok(Read::Open),
        TokenKind::RParen => Ok(Read::Close),
        TokenKind::Keyword => Ok(read_word(text, token)),
        TokenKind::Id => match token.name(alloc, text)? {
            Ok(CowStr::Borrowed(name)) => Ok(read_name(text, token, name)),
            Ok(CowStr::Owned(name)) => Ok(Read::SideValue(SideValue::Id(CowStr::Owned(name)))),
            Err(_) => Ok(Read::Short(PackedToken::Other)),
        },
        TokenKind::Integer(kind) => match token.magnitude(text, kind) {
            Some(size) => Ok(read_integer(sign(kind.sign()), size)),
            None => Ok(read_float(text, token)),
        },
        TokenKind::Float(_) => Ok(read_float(text, token)),
        TokenKind::String => match token.string(alloc, text)? {
            CowSlice::Borrowed(value) => Ok(read_string(text, token, value)),
            CowSlice::Owned(value) => Ok(Read::SideValue(SideValue::Text(CowSlice::Owned(value)))),
        },
        TokenKind::LineComment
        | TokenKind::BlockComment
        | TokenKind::Whitespace
        | TokenKind::Annotation
        | TokenKind::Reserved => Ok(Read::Short(PackedToken::Other)),
    }
}

/// Encodes a keyword. One of more than 255 bytes gets an entry in the side table.
fn read_word<'t>(text: &'t str, token: &Token) -> Read<'t>
    requires token { IsTokenOf text.now token.now }
    requires small { length text.now < 2 ^ 32 }
    ensures { IsReadAs text.now result (Word (token_text text.now token.now)) }
{
    if token.len < 256 {
        let offset = PackedU32::new(token.offset as u32);
        Read::Short(PackedToken::Word(offset, token.len as u8))
    } else {
        Read::SideValue(SideValue::Word(token.src(text)))
    }
}

/// Encodes an integer. One whose magnitude is 2^32 or more gets an entry in the side table.
fn read_integer<'t>(sign: Sign, size: u64) -> Read<'t>
    ensures { (text : List ℕ) → IsReadAs text result (Integer sign size) }
{
    if size < 0x1_0000_0000 {
        Read::Short(PackedToken::Integer(sign, PackedU32::new(size as u32)))
    } else {
        Read::SideValue(SideValue::Integer(sign, size))
    }
}

/// Encodes any number that is not an integer below 2^64 in magnitude, by its source text. One of
/// more than 255 bytes gets an entry in the side table.
fn read_float<'t>(text: &'t str, token: &Token) -> Read<'t>
    requires token { IsTokenOf text.now token.now }
    requires small { length text.now < 2 ^ 32 }
    ensures { IsReadAs text.now result (float_of (token_text text.now token.now)) }
{
    if token.len < 256 {
        let offset = PackedU32::new(token.offset as u32);
        Read::Short(PackedToken::Float(offset, token.len as u8))
    } else {
        Read::SideValue(SideValue::Float(token.src(text)))
    }
}

/// Encodes an identifier with this name. The name gets an entry in the side table if it has more
/// than 255 bytes, or if it does not follow `$` in the text, as in a quoted identifier.
fn read_name<'t>(text: &'t str, token: &Token, name: &'t str) -> Read<'t>
    requires token { IsTokenOf text.now token.now }
    requires small { length text.now < 2 ^ 32 }
    ensures { IsReadAs text.now result (Id name.now) }
{
    let start = token.offset + 1;
    let end = start + name.len();
    let is_there = name.len() < 256
        && text.is_char_boundary(start)
        && text.is_char_boundary(end)
        && &text[start..end] == name;
    if is_there {
        return Read::Short(PackedToken::Id(PackedU32::new(start as u32), name.len() as u8));
    }
    Read::SideValue(SideValue::Id(CowStr::Borrowed(name)))
}

/// Encodes a string with this value. The value gets an entry in the side table if it has more than
/// 255 bytes, or if it does not follow the opening quote in the text.
fn read_string<'t>(text: &'t str, token: &Token, value: &'t [u8]) -> Read<'t>
    requires token { IsTokenOf text.now token.now }
    requires small { length text.now < 2 ^ 32 }
    ensures { IsReadAs text.now result (Text value.now) }
{
    let start = token.offset + 1;
    match text.as_bytes().get(start..start + value.len()) {
        Some(there) if value.len() < 256 && there == value => {
            Read::Short(PackedToken::Text(PackedU32::new(start as u32), value.len() as u8))
        }
        _ => Read::SideValue(SideValue::Text(CowSlice::Borrowed(value))),
    }
}

/// Appends `(`. The end of its group is `u32::MAX` until the matching `)` is appended.
fn push_open(
    text: &str,
    packed: &mut PackedTokens<'_>,
    groups: &mut Vec<u32>,
) -> Result<(), AllocError>
    requires few { length packed.old.tokens.items < 2 ^ 32 }
    requires sound { IsPacking text.now packed.old groups.old.items }
    ensures is { OnOk result (draft_terminals text.now packed.new ≡
        draft_terminals text.now packed.old ++ Open ∷ []) }
    ensures sound { OnOk result (IsPacking text.now packed.new groups.new.items) }
    ensures few { OnOk result (length packed.new.kept.items ≡ length packed.old.kept.items) }
    ensures count { OnOk result (length packed.new.tokens.items ≡
        suc (length packed.old.tokens.items)) }
{
    groups.push(packed.tokens.len() as u32)?;
    packed
        .tokens
        .push(PackedToken::Open(PackedU32::new(u32::MAX)))?;
    Ok(())
}

/// Appends `)`, and sets the end of the innermost open group, if there is one.
fn push_close(
    text: &str,
    packed: &mut PackedTokens<'_>,
    groups: &mut Vec<u32>,
) -> Result<(), AllocError>
    requires few { suc (length packed.old.tokens.items) < 2 ^ 32 }
    requires sound { IsPacking text.now packed.old groups.old.items }
    ensures is { OnOk result (draft_terminals text.now packed.new ≡
        draft_terminals text.now packed.old ++ Close ∷ []) }
    ensures sound { OnOk result (IsPacking text.now packed.new groups.new.items) }
    ensures few { OnOk result (length packed.new.kept.items ≡ length packed.old.kept.items) }
    ensures count { OnOk result (length packed.new.tokens.items ≤
        suc (length packed.old.tokens.items)) }
{
    let Some(begin) = groups.pop() else {
        packed.tokens.push(PackedToken::Close)?;
        return Ok(());
    };
    if let Some(group) = keyword_group(&packed.tokens, begin as usize) {
        packed.tokens[begin as usize] = group;
        packed.tokens.truncate(begin as usize + 1);
        return Ok(());
    }
    packed.tokens.push(PackedToken::Close)?;
    let end = PackedU32::new(packed.tokens.len() as u32);
    packed.tokens[begin as usize] = PackedToken::Open(end);
    Ok(())
}

/// Returns the packed token of a group of two keywords, if the tokens from an index on are its `(`
/// and its keywords. Returns `None` if they do not fit into one packed token.
fn keyword_group(tokens: &[PackedToken], begin: usize) -> Option<PackedToken>
    requires { begin < length tokens.now }
    ensures { IfSome result (AreKeywords tokens.now begin) }
{
    if tokens.len() - begin != 3 {
        return None;
    }
    match (tokens[begin + 1], tokens[begin + 2]) {
        (PackedToken::Word(first, len), PackedToken::Word(second, other_len))
            if len < 16
                && other_len < 16
                && u64::from(second.number()) == u64::from(first.number()) + u64::from(len) + 1 => {
            Some(PackedToken::KeywordGroup(first, len * 16 + other_len))
        }
        _ => None,
    }
}

/// Appends a token that has no entry in the side table.
#[tactic(auto, using(crate::proofs::Drafts::with_short))]
fn push_short(
    text: &str,
    packed: &mut PackedTokens<'_>,
    token: PackedToken,
) -> Result<(), AllocError>
    ensures is { OnOk result ((x : Terminal) → IsReadAs text.now (Read.Short token) x →
        draft_terminals text.now packed.new ≡ draft_terminals text.now packed.old ++ x ∷ []) }
    ensures sound { OnOk result ((x : Terminal) (is : List ℕ) →
        IsReadAs text.now (Read.Short token) x → IsPacking text.now packed.old is →
        IsPacking text.now packed.new is) }
    ensures few { OnOk result (length packed.new.kept.items ≡ length packed.old.kept.items) }
    ensures count { OnOk result (length packed.new.tokens.items ≡
        suc (length packed.old.tokens.items)) }
{
    packed.tokens.push(token)?;
    Ok(())
}

/// Appends a token and its entry in the side table.
fn push_side_value<'t>(
    text: &'t str,
    packed: &mut PackedTokens<'t>,
    value: SideValue<'t>,
) -> Result<(), AllocError>
    requires few { length packed.old.kept.items < 2 ^ 32 }
    ensures is { OnOk result ((x : Terminal) (is : List ℕ) →
        IsReadAs text.now (Read.SideValue value.entry) x → IsPacking text.now packed.old is →
        draft_terminals text.now packed.new ≡ draft_terminals text.now packed.old ++ x ∷ []) }
    ensures sound { OnOk result ((x : Terminal) (is : List ℕ) →
        IsReadAs text.now (Read.SideValue value.entry) x → IsPacking text.now packed.old is →
        IsPacking text.now packed.new is) }
    ensures few { OnOk result (length packed.new.kept.items ≤ suc (length packed.old.kept.items)) }
    ensures count { OnOk result (length packed.new.tokens.items ≡
        suc (length packed.old.tokens.items)) }
{
    let index = packed.kept.len() as u32;
    packed.kept.push(value)?;
    packed
        .tokens
        .push(PackedToken::SideValue(PackedU32::new(index)))?;
    Ok(())
}

/// Appends a token to a draft. `groups` has the indices of the open groups' parentheses, the
/// innermost last.
fn push<'t>(
    text: &'t str,
    packed: &mut PackedTokens<'t>,
    groups: &mut Vec<u32>,
    read: Read<'t>,
) -> Result<(), AllocError>
    requires room { suc (length packed.old.tokens.items) < 2 ^ 32 }
    requires kept { length packed.old.kept.items < 2 ^ 32 }
    requires sound { IsPacking text.now packed.old groups.old.items }
    ensures is { OnOk result ((x : Terminal) → IsReadAs text.now read.entry x →
        draft_terminals text.now packed.new ≡ draft_terminals text.now packed.old ++ x ∷ []) }
    ensures sound { OnOk result ((x : Terminal) → IsReadAs text.now read.entry x →
        IsPacking text.now packed.new groups.new.items) }
    ensures few { OnOk result (length packed.new.kept.items ≤ suc (length packed.old.kept.items)) }
    ensures count { OnOk result (length packed.new.tokens.items ≤
        suc (length packed.old.tokens.items)) }
{
    match read {
        Read::Open => push_open(text, packed, groups),
        Read::Close => push_close(text, packed, groups),
        Read::Short(token) => push_short(text, packed, token),
        Read::SideValue(value) => push_side_value(text, packed, value),
    }
}

/// Packs a token of the text and appends it to a draft. `groups` has the indices of the open
/// groups' parentheses, the innermost last.
fn push_token<'t>(
    alloc: Global,
    text: &'t str,
    token: &Token,
    packed: &mut PackedTokens<'t>,
    groups: &mut Vec<u32>,
) -> Result<(), AllocError>
    requires token { IsTokenOf text.now token.now }
    requires small { length text.now < 2 ^ 32 }
    requires room { suc (length packed.old.tokens.items) < 2 ^ 32 }
    requires kept { length packed.old.kept.items < 2 ^ 32 }
    requires sound { IsPacking text.now packed.old groups.old.items }
    ensures is { OnOk result (draft_terminals text.now packed.new ≡
        draft_terminals text.now packed.old ++ terminal_of text.now token.now ∷ []) }
    ensures sound { OnOk result (IsPacking text.now packed.new groups.new.items) }
    ensures few { OnOk result (length packed.new.kept.items ≤ suc (length packed.old.kept.items)) }
    ensures count { OnOk result (length packed.new.tokens.items ≤
        suc (length packed.old.tokens.items)) }
{
    let read = read_token(alloc, text, token)?;
    push(text, packed, groups, read)
}

/// Returns the tokens of a text that are visible if no annotation name is registered, packed into 6
/// bytes each. A lexical error is part of the result. Fails only if an allocation fails. The text
/// must be shorter than 2^32 bytes.
pub fn pack_tokens(alloc: Global, text: &str) -> Result<PackedText<'_>, Error>
    requires { length text.now < 2 ^ 32 }
    ensures shown { IfOk result (λ r. TerminalsShown text.now (draft_terminals text.now r.packed)
        r.error) }
    ensures readable { IfOk result (λ r. AreReadable text.now (length r.packed.kept.items)
        r.packed.tokens.items) }
    ensures linked { IfOk result (λ r. AreLinked (draft_pieces text.now r.packed)
        r.packed.tokens.items) }
    ensures refused { IfErr result (λ e. e ≡ None) }
{
    let buffer = LazyBuffer::new_with_lexer(alloc, Lexer::with_settings(text, SETTINGS));
    let mut parser = buffer.parser();
    pack_all(alloc, text, &mut parser)
}

/// Consumes the next visible token and returns it with the cursor after it, or returns `None` and
/// the same cursor at the end of the text. Fails at a lexical error, or if an allocation fails.
fn next_token<'p, 'a>(from: Cursor<'p, 'a>) -> Result<(Option<Token>, Cursor<'p, 'a>), Error>
    ensures value { Answers false (λ r. option_map (λ t. (t, r.1.at)) r.0)
        (peek_at (at_place from.entry.parser.now from.entry.at)) result }
    ensures parser { IfOk result (λ r. r.1.parser ≡ from.entry.parser) }
    ensures on { IfOk result (λ r. from.entry.at ≤ r.1.at) }
    ensures past { IfOk result (λ r. IfSome r.0 (λ _. from.entry.at < r.1.at)) }
    ensures reader { IfOk result (λ r. IfSome r.0
        (IsTokenOf from.entry.parser.now.source.setting.text)) }
{
    match from.any()? {
        Some((token, next)) => Ok((Some(token), next)),
        None => Ok((None, from)),
    }
}

/// Consumes the next visible token of a parser and returns it, or returns `None` at the end of the
/// text. Fails at a lexical error, or if an allocation fails; the parser then stays.
#[inline(always)]
fn next_visible(parser: &mut Parser<'_>) -> Result<Option<Token>, Error>
    ensures value { Answers false (λ found. option_map (λ t. (t, parser.new.place)) found)
        (peek_at parser.old) result }
    ensures parser { parser.new ≡ record parser.old { place = parser.new.place } }
    ensures on { IfOk result (λ found. IfSome found (λ _. parser.old.place < parser.new.place)) }
    ensures reader { IfOk result (λ found. IfSome found
        (IsTokenOf parser.old.source.setting.text)) }
    ensures sound { IsSound parser.new }
{
    let found = parser.step(|cursor| next_token(cursor));
    parser.lemma_sound();
    found
}

/// Returns the visible tokens from the position of a parser on, packed. A lexical error is part of
/// the result. Fails only if an allocation fails.
// The parser moves from token to token, which is faster than a cursor: it finds each token while it
// moves, and caches it.
fn pack_all<'t>(
    alloc: Global,
    text: &'t str,
    parser: &mut Parser<'_>,
) -> Result<PackedText<'t>, Error>
    requires { parser.old.source.setting.text ≡ text.now }
    ensures shown { IfOk result (λ r.
        TerminalsFrom parser.old.source parser.old.names parser.old.place
        (draft_terminals text.now r.packed) r.error) }
    ensures readable { IfOk result (λ r. AreReadable text.now (length r.packed.kept.items)
        r.packed.tokens.items) }
    ensures linked { IfOk result (λ r. AreLinked (draft_pieces text.now r.packed)
        r.packed.tokens.items) }
    ensures refused { IfErr result (λ e. e ≡ None) }
{
    laws::all_shown();
    parser.lemma_sound();
    let mut packed = PackedTokens {
        tokens: Vec::new(alloc),
        kept: Vec::new(alloc),
    };
    let mut groups = Vec::new(alloc);
    'tokens: loop {
        match next_visible(parser) {
            Ok(Some(token)) => push_token(alloc, text, &token, &mut packed, &mut groups)?,
            Ok(None) => return Ok(PackedText {
                packed,
                error: None,
            }),
            Err(error) if error.is_out_of_memory() => return Err(error),
            Err(error) => {
                let error = Some(error);
                return Ok(PackedText { packed, error });
            }
        }
    }
}
