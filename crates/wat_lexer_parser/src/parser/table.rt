//! The token table of a buffer: the raw tokens of its text, and data about annotations for peeks.
ghost use Rattle.std.specs.Prelude.{◌≡◌, ◌<◌, ◌≤◌, ◌+◌, ◌-◌, ◌*◌, ◌^◌, ◌++◌, ◌∷◌, [], length, map};
ghost use Rattle.std.specs.Prelude.{IfOk, IfSome, OnOk, None, false, slice_get, get_or};
ghost use Rattle.wat_lex.specs.tokens.ReadableTokens.{IsTokenOf, word_of};
ghost use Rattle.wat_lex.specs.tokens.Tiling.{MaximalTiling};
ghost use Rattle.wat_lex.specs.declared.lexer.kinds.TokenKind.TheVariants.{Annotation};
ghost use Rattle.wat_lexer_parser.specs.inside.Table.{
  annotation_at,
  is_annotation,
  is_head,
  is_quoted,
  Found,
};
ghost use Rattle.wat_lexer_parser.specs.inside.Table.{HasAnnotations, NotedName};
ghost use Rattle.wat_lexer_parser.specs.inside.Table.{
  closed_at,
  Counted,
  FirstFrom,
  OneMoreName,
  Opening,
  HasGroupEnds,
};
ghost use Rattle.wat_lexer_parser.specs.inside.Table.{Sorted, Started, StartedUpTo};
ghost use Rattle.wat_lexer_parser.specs.inside.TableNames.{name_view};

use std::alloc::{AllocError, Global};
use std::borrow::CowStr;
use wat_lex::lexer::{LexError, LexFault, Lexer, Token, TokenKind};

/// Number of tokens per entry of `starts`.
const BLOCK: usize = 64;

/// Estimated length of a token in bytes.
const BYTES_PER_TOKEN: usize = 2;

/// Maximum initial capacity, in tokens. The capacity doubles as tokens are added, so that a long
/// text of few tokens uses little memory. The value is slightly below 2^16: after 5 doublings, the
/// capacity of 2 million tokens occupies less than 32 MiB, and glibc keeps freed blocks below that
/// size for the next table.
const INITIAL_CAPACITY: usize = 65_472;

/// The raw tokens of a text up to its end or its first lexical error, and data about the
/// annotations that directly follow a `(`.
#[derive(Drop)]
pub struct Table {
    /// The raw tokens.
    pub tokens: Vec<Token>,
    /// The lexical error at which the tokens end, if there is one.
    pub fault: Option<LexFault>,
    /// Position of each `(` that is directly before an annotation, in ascending order.
    pub opens: Vec<usize>,
    /// For each entry of `opens`, the decoded name of the annotation, or its error; `None` if the
    /// name is a slice of the text.
    pub names: Vec<Option<Box<Result<String, LexError>>>>,
    /// For each block of `BLOCK` tokens, the number of entries of `opens` before the block.
    pub starts: Vec<usize>,
    /// For each entry of `opens`, the position of the `)` that closes its group, if there is one.
    pub closes: Vec<Option<usize>>,
}

/// Returns `true` if the kind is `TokenKind::Annotation`.
pub fn is_annotation(kind: TokenKind) -> bool
    ensures { result ≡ is_annotation kind }
{
    matches!(kind, TokenKind::Annotation)
}

/// Returns `true` if `token` is an annotation and the last token before it is `(`.
fn is_head(before: &[Token], token: Token) -> bool
    ensures { result ≡ is_head (slice_get before.now (length before.now - 1)) token }
{
    match before.last() {
        Some(last) => matches!(last.kind, TokenKind::LParen) && is_annotation(token.kind),
        None => false,
    }
}

/// Returns `true` if the byte after the token's first is `"`.
pub fn is_quoted(text: &str, token: Token) -> bool
    requires { token.offset < 2 ^ 32 }
    ensures { result ≡ is_quoted text.now token }
{
    match text.as_bytes().get(token.offset + 1) {
        Some(byte) => *byte == b'"',
        None => false,
    }
}

/// Returns the entry of `names` for an annotation. A name that is a slice of the text is not
/// stored, and reading it again does not allocate.
fn noted_name(
    alloc: Global,
    text: &str,
    token: &Token,
) -> Result<Option<Box<Result<String, LexError>>>, AllocError>
    requires token { IsTokenOf text.now token.now }
    requires kind { token.now.kind ≡ Annotation }
    requires short { token.now.offset < 2 ^ 32 }
    ensures { IfOk result (λ name. NotedName (word_of text.now token.now) (name_view name)) }
{
    wat_lex::laws::tokens();
    // The byte after `@` tells whether the name is quoted. Only a quoted name may have escapes.
    if !is_quoted(text, *token) {
        return Ok(None);
    }
    let name = match token.name(alloc, text)? {
        Ok(CowStr::Borrowed(_)) => return Ok(None),
        Ok(CowStr::Owned(name)) => Ok(name),
        Err(error) => Err(error),
    };
    Ok(Some(Box::new(alloc, name)?))
}

/// Returns the initial capacity for a text, in tokens.
fn initial_capacity(text: &str) -> usize
    ensures likely { 2 * result ≤ length text.now }
    ensures most { result ≤ 65472 }
{
    INITIAL_CAPACITY.min(text.len() / BYTES_PER_TOKEN)
}

impl Table {
    /// Creates a table without tokens, with the initial capacity for a text.
    fn new(alloc: Global, text: &str) -> Result<Table, AllocError>
        ensures tokens { IfOk result (λ t. t.tokens.items ≡ []) }
        ensures fault { IfOk result (λ t. t.fault ≡ None) }
        ensures opens { IfOk result (λ t. t.opens.items ≡ []) }
        ensures names { IfOk result (λ t. map name_view t.names.items ≡ []) }
    {
        Ok(Table {
            tokens: Vec::with_capacity(alloc, initial_capacity(text))?,
            fault: None,
            opens: Vec::new(alloc),
            names: Vec::new(alloc),
            starts: Vec::new(alloc),
            closes: Vec::new(alloc),
        })
    }

    /// Records that the last 2 tokens are a `(` and an annotation.
    fn note(&mut self, alloc: Global, text: &str, token: &Token) -> Result<(), AllocError>
        requires token { IsTokenOf text.now token.now }
        requires kind { token.now.kind ≡ Annotation }
        requires short { token.now.offset < 2 ^ 32 }
        requires two { 1 < length self.old.tokens.items }
        ensures opens { OnOk result
            (self.new.opens.items
            ≡ self.old.opens.items ++ (length self.old.tokens.items - 2) ∷ []) }
        ensures names { OnOk result
            (OneMoreName (word_of text.now token.now)
            (map name_view self.old.names.items) (map name_view self.new.names.items)) }
        ensures tokens { self.new.tokens ≡ self.old.tokens }
        ensures fault { self.new.fault ≡ self.old.fault }
    {
        let name = noted_name(alloc, text, token)?;
        self.opens.push(self.tokens.len() - 2)?;
        self.names.push(name)?;
        Ok(())
    }

    /// Adds a token, and records it if it is an annotation directly after `(`.
    fn add(&mut self, alloc: Global, text: &str, token: Token) -> Result<(), AllocError>
        requires token { IsTokenOf text.now token }
        requires short { token.offset + token.len < 2 ^ 32 }
        requires noted { HasAnnotations text.now self.old.tokens.items self.old.opens.items
            (map name_view self.old.names.items) }
        ensures tokens { OnOk result
            (self.new.tokens.items ≡ self.old.tokens.items ++ token ∷ []) }
        ensures noted { OnOk result (
            HasAnnotations text.now self.new.tokens.items self.new.opens.items
            (map name_view self.new.names.items)) }
        ensures fault { self.new.fault ≡ self.old.fault }
    {
        if is_annotation(token.kind) {
            self.add_annotation(alloc, text, token.offset, token.len)?;
        } else {
            self.tokens.push(token)?;
        }
        Ok(())
    }

    /// Adds an annotation, and records it if it directly follows a `(`.
    // `inline(never)` keeps the loop over all tokens small. Offset and length are separate
    // arguments, so that the loop need not store its token in memory.
    #[inline(never)]
    fn add_annotation(
        &mut self,
        alloc: Global,
        text: &str,
        offset: usize,
        len: u32,
    ) -> Result<(), AllocError>
        requires token { IsTokenOf text.now (annotation_at offset len) }
        requires short { offset + len < 2 ^ 32 }
        requires noted { HasAnnotations text.now self.old.tokens.items self.old.opens.items
            (map name_view self.old.names.items) }
        ensures tokens { OnOk result
            (self.new.tokens.items ≡ self.old.tokens.items ++ annotation_at offset len ∷ []) }
        ensures noted { OnOk result (
            HasAnnotations text.now self.new.tokens.items self.new.opens.items
            (map name_view self.new.names.items)) }
        ensures fault { self.new.fault ≡ self.old.fault }
    {
        let token = Token {
            offset,
            len,
            kind: TokenKind::Annotation,
        };
        let is_head = is_head(&self.tokens, token);
        self.tokens.push(token)?;
        if is_head {
            self.note(alloc, text, &token)?;
        }
        Ok(())
    }
}

/// Extends `starts` up to the block that contains `place`, with `before` for each new block.
fn start_blocks(starts: &mut Vec<usize>, before: usize, place: usize) -> Result<(), AllocError>
    ensures { OnOk result (StartedUpTo starts.old.items starts.new.items before place) }
{
    while starts.len() <= place / BLOCK {
        starts.push(before)?;
    }
    Ok(())
}

/// Returns the number of entries of `opens` before each block, up to the block of the last entry.
fn starts(alloc: Global, opens: &[usize]) -> Result<Vec<usize>, AllocError>
    ensures { IfOk result (λ starts. Started opens.now starts.items) }
{
    let mut starts = Vec::new(alloc);
    for (before, place) in opens.iter().enumerate() {
        start_blocks(&mut starts, before, *place)?;
    }
    Ok(starts)
}

/// Returns the number of entries of `opens` less than `place`.
fn count_before(opens: &[usize], starts: &[usize], place: usize) -> usize
    requires sorted { Sorted opens.now }
    requires started { Started opens.now starts.now }
    ensures { Counted opens.now result place }
{
    let mut i = match starts.get(place / BLOCK) {
        Some(start) => *start,
        None => return opens.len(),
    };
    while i < opens.len() && opens[i] < place {
        i += 1;
    }
    i
}

/// Returns the index of `place` in `opens`, or `None` if it does not occur.
pub fn find(opens: &[usize], starts: &[usize], place: usize) -> Option<usize>
    requires sorted { Sorted opens.now }
    requires started { Started opens.now starts.now }
    ensures { Found opens.now place result }
{
    let i = count_before(opens, starts, place);
    match opens.get(i) {
        Some(open) if *open == place => Some(i),
        _ => None,
    }
}

/// Returns the index of `paren` in `opens`, or `None` if it does not occur. `passed` must be the
/// number of entries less than `paren`, and becomes the number of those up to `paren`.
fn pass_open(opens: &[usize], passed: &mut usize, paren: usize) -> Option<usize>
    requires sorted { Sorted opens.now }
    requires passed { Counted opens.now passed.old paren }
    ensures found { Found opens.now paren result }
    ensures passed { Counted opens.now passed.new (paren + 1) }
{
    match opens.get(*passed) {
        Some(open) if *open == paren => {
            let i = *passed;
            *passed += 1;
            Some(i)
        }
        _ => None,
    }
}

/// Returns the first entry of `opens` at or after `place`, or `end` if there is none. `passed` must
/// be the number of entries less than `place`.
fn next_open(opens: &[usize], passed: usize, place: usize, end: usize) -> usize
    requires sorted { Sorted opens.now }
    requires passed { Counted opens.now passed place }
    requires within { place ≤ end }
    ensures on { place ≤ result }
    ensures first { FirstFrom opens.now place result }
    ensures passed { Counted opens.now passed result }
{
    match opens.get(passed) {
        Some(open) => *open,
        None => end,
    }
}

/// Returns the position at which `closes` continues after a group that ends before `place`. After
/// an outermost group this is the next entry of `opens`, or `end`. Otherwise it is `place`.
fn after_close(
    opens: &[usize],
    passed: usize,
    place: usize,
    end: usize,
    is_outermost: bool,
) -> usize
    requires sorted { Sorted opens.now }
    requires passed { Counted opens.now passed place }
    requires within { place ≤ end }
    ensures on { place ≤ result }
    ensures inside { is_outermost ≡ false → result ≡ place }
    ensures first { FirstFrom opens.now place result }
    ensures passed { Counted opens.now passed result }
{
    if is_outermost {
        next_open(opens, passed, place, end)
    } else {
        place
    }
}

/// Records the closing position of a group, given its index in `opens`. Does nothing if it has
/// none.
fn note_close(closes: &mut Vec<Option<usize>>, group: Option<usize>, close: usize)
    requires { IfSome group (λ g. g < length closes.old.items) }
    ensures { closes.new.items ≡ closed_at closes.old.items group close }
{
    match group {
        Some(i) => closes[i] = Some(close),
        None => {}
    }
}

/// Returns the closing position of each group that begins at an entry of `opens`. Scans the tokens
/// of these groups once, with a stack of open parentheses.
fn closes(
    alloc: Global,
    tokens: &[Token],
    opens: &[usize],
) -> Result<Vec<Option<usize>>, AllocError>
    requires opening { Opening tokens.now opens.now }
    requires sorted { Sorted opens.now }
    ensures { IfOk result (λ closes. HasGroupEnds tokens.now opens.now closes.items) }
{
    let mut closes: Vec<Option<usize>> = vec![in alloc; None; opens.len()]?;
    let mut opened: Vec<Option<usize>> = Vec::new(alloc);
    let mut passed = 0;
    let mut i = next_open(opens, passed, 0, tokens.len());
    while i < tokens.len() {
        match tokens[i].kind {
            TokenKind::LParen => {
                opened.push(pass_open(opens, &mut passed, i))?;
                i += 1;
            }
            TokenKind::RParen => match opened.pop() {
                Some(group) => {
                    note_close(&mut closes, group, i);
                    i = after_close(opens, passed, i + 1, tokens.len(), opened.is_empty());
                }
                None => i += 1,
            },
            _ => i += 1,
        }
    }
    Ok(closes)
}

/// Lexes a text into a table. `starts` and `closes` remain empty.
fn fill(alloc: Global, lexer: &Lexer<'_>) -> Result<Table, AllocError>
    ensures read { IfOk result (λ t. MaximalTiling lexer.now 0 t.tokens.items t.fault) }
    ensures noted { IfOk result (λ t. HasAnnotations lexer.now.text t.tokens.items t.opens.items
        (map name_view t.names.items)) }
{
    let text = lexer.input();
    let mut table = Table::new(alloc, text)?;
    let mut pos = 0;
    'tokens: loop {
        match lexer.scan(pos) {
            Ok(Some(token)) => {
                table.add(alloc, text, token)?;
                pos = token.offset + token.len as usize;
            }
            Ok(None) => return Ok(table),
            Err(fault) => {
                table.fault = Some(fault);
                return Ok(table);
            }
        }
    }
}

impl Table {
    /// Builds the table of a lexer's text. Fails only if an allocation fails.
    pub fn of(alloc: Global, lexer: &Lexer<'_>) -> Result<Table, AllocError>
        ensures read { IfOk result (λ t. MaximalTiling lexer.now 0 t.tokens.items t.fault) }
        ensures noted { IfOk result (λ t. HasAnnotations lexer.now.text t.tokens.items t.opens.items
            (map name_view t.names.items)) }
        ensures started { IfOk result (λ t. Started t.opens.items t.starts.items) }
        ensures paired { IfOk result (λ t.
            HasGroupEnds t.tokens.items t.opens.items t.closes.items) }
    {
        let mut table = fill(alloc, lexer)?;
        table.starts = starts(alloc, &table.opens)?;
        table.closes = closes(alloc, &table.tokens, &table.opens)?;
        Ok(table)
    }
}
