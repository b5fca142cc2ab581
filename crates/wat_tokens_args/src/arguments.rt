//! Splitting of the command line into options and file names.
ghost use Rattle.std.specs.Prelude.{◌≡◌, ◌≤◌, [], ◌∷◌, length, MatchOption};
ghost use Rattle.std.specs.Option.{option_map};
ghost use Rattle.wat_tokens_args.specs.Arguments.{alone_kind, named_kind, leads, is_kind, times};
ghost use Rattle.wat_tokens_args.specs.Arguments.{first_of, args_of};
ghost use Rattle.wat_tokens_args.specs.Arguments.{after_front, files_in, is_file, names_file};
ghost use Rattle.wat_tokens_args.specs.Arguments.{IsNextArgument};

/// The kind of an option or file name.
#[derive(Clone, Copy, PartialEq, Eq)]
pub(crate) enum Kind {
    /// The option `--allow-confusing`.
    Allow,
    /// The option `--strict-underscores`.
    Strict,
    /// The option `--json`.
    Json,
    /// The option `--no-names`.
    NoNames,
    /// The option `--no-validate`.
    NoValidate,
    /// The option `--check`.
    Check,
    /// The option `--write`.
    Write,
    /// The option `--diff`.
    Diff,
    /// The option `--file` and the name after it.
    Named,
    /// The option `-o` or `--output` and the name after it.
    Output,
    /// The name of a file.
    File,
    /// Any other word that begins with a dash, including `--file` and `-o` if no name follows.
    Wrong,
}

/// A parsed option or file name.
#[derive(Clone, Copy)]
pub(crate) struct Argument<'a> {
    /// The kind of the option, or `Kind::File`.
    pub(crate) kind: Kind,
    /// The name after the option, or the word itself if the option has no name.
    pub(crate) word: &'a String,
}

impl Kind {
    /// Returns `true` if the two kinds are equal.
    fn is(self, kind: Kind) -> bool
        ensures { result ≡ is_kind kind self }
    {
        self == kind
    }

    /// Returns `true` if an option of this kind may precede the command.
    pub(crate) fn leads(self) -> bool
        ensures { result ≡ leads self }
    {
        match self {
            Kind::Allow | Kind::Strict | Kind::Json => true,
            Kind::NoNames | Kind::NoValidate => true,
            Kind::Named | Kind::Output => true,
            Kind::Check | Kind::Write | Kind::Diff | Kind::File | Kind::Wrong => false,
        }
    }

    /// Returns `true` if an argument of this kind names an input file.
    fn names_file(self) -> bool
        ensures { result ≡ names_file self }
    {
        self == Kind::Named || self == Kind::File
    }
}

/// Returns `true` if a word before `--` names a file: it is `-`, or does not begin with a dash.
pub(crate) fn is_file(word: &String) -> bool
    ensures { result ≡ is_file word.now }
{
    word.as_str() == "-" || !word.as_bytes().starts_with(b"-")
}

/// Returns the kind of an option that requires a name after it, or `None` for any other word.
fn named_kind(word: &String) -> Option<Kind>
    ensures { result ≡ named_kind word.now }
{
    match word.as_str() {
        "--file" => Some(Kind::Named),
        "-o" | "--output" => Some(Kind::Output),
        _ => None,
    }
}

/// Returns the kind of an argument that consists of one word.
fn alone_kind(word: &String) -> Kind
    ensures { result ≡ alone_kind word.now }
{
    match word.as_str() {
        "--allow-confusing" => Kind::Allow,
        "--strict-underscores" => Kind::Strict,
        "--json" => Kind::Json,
        "--no-names" => Kind::NoNames,
        "--no-validate" => Kind::NoValidate,
        "--check" => Kind::Check,
        "--write" => Kind::Write,
        "--diff" => Kind::Diff,
        _ if is_file(word) => Kind::File,
        _ => Kind::Wrong,
    }
}

/// Returns the argument that consists of this word.
fn alone(word: &String) -> Argument<'_>
    ensures { (result.kind ≡ alone_kind word.now) × (result.word.now ≡ word.now) }
{
    let kind = alone_kind(word);
    Argument { kind, word }
}

/// Splits off the first argument: an option with its name, or a single word. Returns `None` if
/// `words` is empty.
pub(crate) fn next_argument(words: &[String]) -> Option<(Argument<'_>, &[String])>
    ensures { MatchOption result (words.now ≡ [])
        (λ r. IsNextArgument words.now r.0.kind r.0.word.now r.1.now) }
{
    let Some((word, rest)) = words.split_first() else {
        return None;
    };
    let Some(kind) = named_kind(word) else {
        return Some((alone(word), rest));
    };
    let Some((name, after)) = rest.split_first() else {
        return Some((alone(word), rest));
    };
    Some((Argument { kind, word: name }, after))
}

/// Returns the number of arguments of this kind.
pub(crate) fn times(kind: Kind, words: &[String]) -> usize
    ensures { result ≡ times kind (args_of words.now) }
{
    // `iter` gives the proof a bound on the number of words, so `count` does not overflow.
    let _ = words.iter();
    let mut count = 0;
    let mut rest = words;
    while let Some((argument, after)) = next_argument(rest) {
        if argument.kind.is(kind) {
            count += 1;
        }
        rest = after;
    }
    count
}

/// Returns the name in the first argument of this kind, or `None` if none is of this kind.
pub(crate) fn first(kind: Kind, words: &[String]) -> Option<&String>
    ensures { option_map (λ w. w.now) result ≡ first_of kind (args_of words.now) }
{
    let mut rest = words;
    while let Some((argument, after)) = next_argument(rest) {
        if argument.kind.is(kind) {
            return Some(argument.word);
        }
        rest = after;
    }
    None
}

/// Returns the first file name among the arguments, and the words after it.
pub(crate) fn next_file(words: &[String]) -> Option<(&String, &[String])>
    ensures { MatchOption result (files_in (args_of words.now) ≡ [])
        (λ r. files_in (args_of words.now) ≡ r.0.now ∷ files_in (args_of r.1.now)) }
{
    let mut rest = words;
    while let Some((argument, after)) = next_argument(rest) {
        if argument.kind.names_file() {
            return Some((argument.word, after));
        }
        rest = after;
    }
    None
}

/// Skips the options that precede the command, and returns the words after them.
pub(crate) fn after_front(words: &[String]) -> &[String]
    ensures rest { result.now ≡ after_front words.now }
    ensures shorter { length result.now ≤ length words.now }
{
    let mut rest = words;
    while let Some((argument, after)) = next_argument(rest) {
        if !argument.kind.leads() {
            break;
        }
        rest = after;
    }
    rest
}
