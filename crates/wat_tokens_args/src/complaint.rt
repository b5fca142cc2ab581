//! Error messages for invalid command lines.
ghost use Rattle.std.specs.Prelude.{◌≡◌, ◌↔◌, ◌||◌, ◌&&◌, not, nat_lt, length, false, is_some};
ghost use Rattle.std.specs.Option.{option_map};
ghost use Rattle.wat_tokens_args.specs.Arguments.{named_kind, times};
ghost use Rattle.wat_tokens_args.specs.Complaints.{asks_for_words, goes_beyond, is_mode};
ghost use Rattle.wat_tokens_args.specs.Complaints.{is_own_option, modes_in, plays, reason_beyond};
ghost use Rattle.wat_tokens_args.specs.Complaints.{reason_in, reason_of, rejects, repeated};
ghost use Rattle.wat_tokens_args.specs.Complaints.{rest_goes_beyond, wrong_command};
ghost use Rattle.wat_tokens_args.specs.Complaints.{wrong_number, wrong_option, wrong_start};
ghost use Rattle.wat_tokens_args.specs.Complaints.{wrong_word};
ghost use Rattle.wat_tokens_args.specs.Options.{all_args, files_of, formats, line_parts};

use crate::arguments::{Kind, after_front, first, is_file, times};
use crate::options::{Line, Verb, looks_like_file, verb_named};
use std::fmt;
use wat_tokens_output::named::Shown;

const USAGE: &str =
    "usage: wat_tokens [--allow-confusing] [--strict-underscores] [sig NAME.. | play CALL..]";

const MORE: &str = "\nwat_tokens --help lists the commands and their options";

/// The error in an invalid command line.
#[derive(Clone, Copy)]
pub enum Complaint<'a> {
    /// A command line that does not match the usage line, and uses no feature beyond that line.
    Usage,
    /// An option that is given twice.
    Twice(&'a str),
    /// An option without the name that must follow it.
    Nameless(&'a str),
    /// A request for help or the version at a position where it is not accepted.
    Late(&'a str),
    /// An unknown option.
    Unknown(&'a str),
    /// A word that is neither a command nor an existing file.
    Nothing(&'a str),
    /// `--json` with a command other than `list` and `sig`.
    NoJson,
    /// A lexer flag with `types` or `module`, which lex as the standard specifies.
    NoFlags,
    /// An argument of `play` that is not a parser call.
    NoCall,
    /// Files both before and after `--`.
    Mixed,
    /// Several files for a command that accepts one.
    TooMany,
    /// `-o` with a command other than `types` and `module`.
    NoOutput,
    /// `--no-names` with a command other than `module`.
    NoNames,
    /// `--no-validate` with a command other than `module`.
    NoValidate,
    /// `-o` with the name of the input file.
    Overwrites,
    /// `--check`, `--write` or `--diff` with a command other than `fmt`.
    NoMode,
    /// More than one of `--check`, `--write` and `--diff`, or one of them twice.
    Modes,
    /// The bytes of a module with a terminal as standard output.
    Terminal,
}

impl fmt::Display for Complaint<'_> {
    ghost use Rattle.std.specs.Prelude.{Some};
    ghost use Rattle.wat_tokens_args.specs.Complaints.{complaint};

    ghost output = { λ c. Some (complaint c) };

    fn fmt<W: fmt::Write>(&self, f: &mut fmt::Formatter<W>) -> fmt::Result {
        match self {
            Complaint::Usage => write!(f, "{USAGE}"),
            Complaint::Twice(word) => write!(f, "wat_tokens: {word} is given twice{MORE}"),
            Complaint::Nameless(word) => {
                write!(f, "wat_tokens: {word} has no name after it{MORE}")
            }
            Complaint::Late(word) => write!(f, "wat_tokens: {word} comes too late{MORE}"),
            Complaint::Unknown(word) => {
                write!(f, "wat_tokens: unknown option: {}{MORE}", Shown(word))
            }
            Complaint::Nothing(word) => {
                write!(
                    f,
                    "wat_tokens: no such command or file: {}{MORE}",
                    Shown(word)
                )
            }
            Complaint::NoJson => write!(f, "wat_tokens: --json goes with list and sig alone{MORE}"),
            Complaint::NoFlags => write!(f, "wat_tokens: types and module take no flags{MORE}"),
            Complaint::NoCall => write!(f, "wat_tokens: play takes calls of a parser alone{MORE}"),
            Complaint::Mixed => write!(
                f,
                "wat_tokens: files are before -- or after it, not both{MORE}"
            ),
            Complaint::TooMany => write!(f, "wat_tokens: this command takes one file{MORE}"),
            Complaint::NoOutput => {
                write!(f, "wat_tokens: -o goes with module and types alone{MORE}")
            }
            Complaint::NoNames => {
                write!(f, "wat_tokens: --no-names goes with module alone{MORE}")
            }
            Complaint::NoValidate => {
                write!(f, "wat_tokens: --no-validate goes with module alone{MORE}")
            }
            Complaint::Overwrites => write!(f, "wat_tokens: -o names the input file{MORE}"),
            Complaint::NoMode => write!(
                f,
                "wat_tokens: --check, --write and --diff go with fmt alone{MORE}"
            ),
            Complaint::Modes => write!(
                f,
                "wat_tokens: fmt takes one of --check, --write and --diff{MORE}"
            ),
            Complaint::Terminal => write!(
                f,
                "wat_tokens: standard output is a terminal; -o FILE writes to a file"
            ),
        }
    }
}

/// Returns `true` if a word is an option that requires a name after it.
fn is_name_option(word: &String) -> bool
    ensures { result ≡ is_some (named_kind word.now) }
{
    let text = word.as_str();
    text == "--file" || text == "-o" || text == "--output"
}

/// Returns `true` if a word requests help or the version.
fn asks_for_words(word: &String) -> bool
    ensures { result ≡ asks_for_words word.now }
{
    matches!(word.as_str(), "--help" | "-h" | "help" | "--version" | "-V")
}

/// Returns `true` if a word is an option that requires a name, or requests help or the version: the
/// usage line lists none of these.
fn is_own_option(word: &String) -> bool
    ensures { result ≡ is_own_option word.now }
{
    is_name_option(word) || asks_for_words(word)
}

/// Returns `true` if the first word after the leading options goes beyond the usage line. A word
/// that is neither a command nor an option counts as a file if it contains `.` or `/`, is `-`, or
/// names an existing file (`there`).
fn rest_goes_beyond(words: &[String], there: bool) -> bool
    ensures { result ≡ rest_goes_beyond there words.now }
{
    let Some((word, _)) = words.split_first() else {
        return false;
    };
    match verb_named(word) {
        Some(verb) => !verb.owns_operands(),
        None => is_own_option(word) || looks_like_file(word) || (there && is_file(word)),
    }
}

/// Returns `true` if the command line uses a feature beyond the usage line.
fn goes_beyond(words: &[String], there: bool) -> bool
    ensures { result ≡ goes_beyond there words.now }
{
    let line = Line::of(words);
    times(Kind::Json, line.front) > 0
        || times(Kind::NoNames, line.front) > 0
        || times(Kind::NoValidate, line.front) > 0
        || times(Kind::Named, line.front) > 0
        || times(Kind::Output, line.front) > 0
        || rest_goes_beyond(after_front(words), there)
}

/// Returns the first of six options that is given more than once: `--allow-confusing`,
/// `--strict-underscores`, `--json`, `--no-names`, `--no-validate` and `-o`.
fn repeated(line: Line<'_>) -> Option<&'static str>
    ensures { option_map (λ option. option.now) result
        ≡ repeated (all_args (line_parts line.entry)) }
{
    if line.times(Kind::Allow) > 1 {
        return Some("--allow-confusing");
    }
    if line.times(Kind::Strict) > 1 {
        return Some("--strict-underscores");
    }
    if line.times(Kind::Json) > 1 {
        return Some("--json");
    }
    if line.times(Kind::NoNames) > 1 {
        return Some("--no-names");
    }
    if line.times(Kind::NoValidate) > 1 {
        return Some("--no-validate");
    }
    if line.times(Kind::Output) > 1 {
        return Some("-o");
    }
    None
}

/// Returns `true` if a word is `--check`, `--write` or `--diff`.
fn is_mode(word: &String) -> bool
    ensures { result ≡ is_mode word.now }
{
    matches!(word.as_str(), "--check" | "--write" | "--diff")
}

/// Returns the complaint about a word that is neither an accepted option nor a file.
fn wrong_word(word: &String) -> Complaint<'_>
    ensures { reason_of result ≡ wrong_word word.now }
{
    if is_name_option(word) {
        Complaint::Nameless(word.as_str())
    } else if asks_for_words(word) {
        Complaint::Late(word.as_str())
    } else if is_mode(word) {
        Complaint::NoMode
    } else {
        Complaint::Unknown(word.as_str())
    }
}

/// Returns the complaint about the first word after the leading options, or `None` if it is a
/// command or a file. `there` must be as for `complaint_of`.
fn wrong_start(words: &[String], there: bool) -> Option<Complaint<'_>>
    ensures { option_map reason_of result ≡ wrong_start there words.now }
{
    let Some((word, _)) = words.split_first() else {
        return None;
    };
    if is_own_option(word) || !is_file(word) {
        return Some(wrong_word(word));
    }
    if verb_named(word).is_some() || looks_like_file(word) || there {
        return None;
    }
    Some(Complaint::Nothing(word.as_str()))
}

/// Returns `true` if an argument of this kind is given, and the command does not accept it.
fn rejects(line: Line<'_>, kind: Kind) -> bool
    ensures { result ≡ rejects (line_parts line.entry) kind }
{
    line.times(kind) > 0 && !line.verb.takes(kind)
}

/// Returns `true` if a lexer flag is given, and the command does not accept it.
fn rejects_flags(line: Line<'_>) -> bool
    ensures { result ≡ (rejects (line_parts line.entry) Kind.Allow
        || rejects (line_parts line.entry) Kind.Strict) }
{
    rejects(line, Kind::Allow) || rejects(line, Kind::Strict)
}

/// Returns `true` if `--check`, `--write` or `--diff` is given, and the command is not `fmt`.
fn rejects_mode(line: Line<'_>) -> bool
    ensures { result ≡ (rejects (line_parts line.entry) Kind.Check
        || (rejects (line_parts line.entry) Kind.Write
        || rejects (line_parts line.entry) Kind.Diff)) }
{
    rejects(line, Kind::Check) || rejects(line, Kind::Write) || rejects(line, Kind::Diff)
}

/// Returns the complaint about an option that the command does not accept, if there is one.
fn wrong_option(line: Line<'_>) -> Option<Complaint<'_>>
    ensures { option_map reason_of result ≡ wrong_option (line_parts line.entry) }
{
    if rejects(line, Kind::Json) {
        return Some(Complaint::NoJson);
    }
    if rejects_flags(line) {
        return Some(Complaint::NoFlags);
    }
    if rejects(line, Kind::Output) {
        return Some(Complaint::NoOutput);
    }
    if rejects(line, Kind::NoNames) {
        return Some(Complaint::NoNames);
    }
    if rejects(line, Kind::NoValidate) {
        return Some(Complaint::NoValidate);
    }
    if rejects_mode(line) {
        return Some(Complaint::NoMode);
    }
    None
}

/// Returns `true` if the command is `fmt`, and `--check`, `--write` and `--diff` are together given
/// more than once.
fn has_several_modes(line: Line<'_>) -> bool
    ensures { result ≡ (formats line.entry.verb
        && nat_lt 1 (modes_in (all_args (line_parts line.entry)))) }
{
    line.verb == Verb::Fmt && line.mode().is_none()
}

/// Returns `true` if the command is `play`, with at most one file.
fn plays_one(line: Line<'_>) -> bool
    ensures { result ≡ (plays line.entry.verb
        && not (nat_lt 1 (length (files_of (line_parts line.entry))))) }
{
    line.verb == Verb::Play && !line.files().are_several()
}

/// Returns `true` if there are files both before and after `--`.
fn has_mixed_files(line: Line<'_>) -> bool
    ensures { result ≡ (nat_lt 0 (times Kind.File (all_args (line_parts line.entry)))
        && nat_lt 0 (length line.entry.last.now)) }
{
    line.times(Kind::File) > 0 && !line.last.is_empty()
}

/// Returns the complaint about a command that accepts each of its arguments.
fn wrong_number(line: Line<'_>) -> Complaint<'_>
    ensures { reason_of result ≡ wrong_number (line_parts line.entry) }
{
    if has_several_modes(line) {
        Complaint::Modes
    } else if plays_one(line) {
        Complaint::NoCall
    } else if has_mixed_files(line) {
        Complaint::Mixed
    } else if line.overwrites() {
        Complaint::Overwrites
    } else {
        Complaint::TooMany
    }
}

/// Returns the complaint about a command and its arguments.
fn wrong_command(line: Line<'_>) -> Complaint<'_>
    ensures { reason_of result ≡ wrong_command (line_parts line.entry) }
{
    if let Some(complaint) = wrong_option(line) {
        return complaint;
    }
    match first(Kind::Wrong, line.args) {
        Some(word) => wrong_word(word),
        None => wrong_number(line),
    }
}

/// Returns the complaint about a command line that goes beyond the usage line. `there` must be as
/// for `complaint_of`.
fn wrong_beyond(words: &[String], there: bool) -> Complaint<'_>
    ensures { reason_of result ≡ reason_beyond there words.now }
{
    let line = Line::of(words);
    if let Some(option) = repeated(line) {
        return Complaint::Twice(option);
    }
    if let Some(complaint) = wrong_start(after_front(words), there) {
        return complaint;
    }
    wrong_command(line)
}

/// Returns the complaint about an invalid command line. `there` must be `false` if the word of
/// `file_in_question` is not an existing file; it is `true` otherwise. The complaint is `Usage` if
/// and only if the command line uses no feature beyond the usage line.
pub fn complaint_of(words: &[String], there: bool) -> Complaint<'_>
    ensures usage { (result ≡ Complaint.Usage) ↔ (goes_beyond there words.now ≡ false) }

    // The first rule that applies determines the complaint and its word.
    ensures reason { reason_of result ≡ reason_in there words.now }
{
    if !goes_beyond(words, there) {
        return Complaint::Usage;
    }
    wrong_beyond(words, there)
}
