//! Parsing of the command line.
ghost use Rattle.std.specs.Prelude.{◌≡◌, ◌≤◌, ◌<◌, true, false, IfOk, OnErr, IfSome, IfNone};
ghost use Rattle.std.specs.Prelude.{IsTrue, ◌↔◌, ℕ, Bool};
ghost use Rattle.std.specs.Prelude.{MatchOption, Option, List, [], length, nat_eq, nat_lt, codes};
ghost use Rattle.std.specs.Prelude.{string_bytes};
ghost use Rattle.std.specs.Option.{option_map};
ghost use Rattle.std.specs.declared.string.String.{String};
ghost use Rattle.std.specs.declared.alloc.Global.{Global};
ghost use Rattle.wat_lex.specs.declared.lexer.settings.Settings.{Settings};
ghost use Rattle.wat_lexer_parser.specs.declared.parser.calls.Call.{Call};
ghost use Rattle.wat_tokens_args.specs.declared.options.Mode.{Mode};
ghost use Rattle.wat_tokens_args.specs.declared.options.Task.{Task};
ghost use Rattle.wat_tokens_args.specs.declared.options.Verb.TheVariants as verbs;
ghost use Rattle.wat_tokens_args.specs.Arguments.{args_of, first_of, is_file, times};
ghost use Rattle.wat_tokens_args.specs.Options.{after_verb, all_args, asks_help, asks_version};
ghost use Rattle.wat_tokens_args.specs.Options.{begins_with, begins_with_files};
ghost use Rattle.wat_tokens_args.specs.Options.{calls_of, file_in_question, file_names, files_of};
ghost use Rattle.wat_tokens_args.specs.Options.{is_known, last_words, line_parts};
ghost use Rattle.wat_tokens_args.specs.Options.{looks_like_file, overwrites, own_len, own_words};
ghost use Rattle.wat_tokens_args.specs.Options.{owns_operands};
ghost use Rattle.wat_tokens_args.specs.Options.{parts_of, takes, takes_flags, accepts_many_files};
ghost use Rattle.wat_tokens_args.specs.Options.{take_all, verb_named, verb_of, wants_help};
ghost use Rattle.wat_tokens_args.specs.Options.{validates, wants_json, wants_names};
ghost use Rattle.wat_tokens_args.specs.Options.{Asks, AsksFormat, AsksMode, AsksNothing, AsksPlay};
ghost use Rattle.wat_tokens_args.specs.Options.{AsksRun, AsksTask};
ghost use Rattle.wat_tokens_args.specs.Options.{HasFiles, Selects, NamesCalls};
ghost use Rattle.wat_tokens_args.specs.OptionSteps.{IsNext};

use crate::arguments::{Kind, after_front, first, is_file, next_argument, next_file, times};
use std::alloc::{AllocError, Global};
use wat_lex::lexer::Settings;
use wat_lexer_parser::parser::Call;
use wat_tokens_output::calls::read_call;

/// The calls of a parser, either parsed from the command line or borrowed from the caller.
#[derive(Drop)]
pub enum Calls<'a> {
    Owned(Vec<Call>),
    Borrowed(&'a [Call]),
}

impl Calls<'_> {
    /// Returns the calls in order.
    pub fn as_slice(&self) -> &[Call]
        ensures { result.now ≡ calls_of self.now }
    {
        match self {
            Calls::Owned(calls) => calls,
            Calls::Borrowed(calls) => calls,
        }
    }
}

/// The options of `module`.
#[derive(Clone, Copy, Debug, PartialEq, Eq)]
pub struct ModuleOptions {
    /// The bytes have a name section and custom sections.
    pub has_names: bool,
    /// The module must be valid.
    pub is_checked: bool,
}

/// The output to produce for each text.
#[derive(Drop)]
pub enum Task<'a> {
    /// A line for each raw token.
    List,
    /// A line for each visible token, with these annotation names registered.
    Sig(&'a [String]),
    /// A line of JSON for each raw token.
    JsonList,
    /// A line of JSON for each visible token, with these annotation names registered.
    JsonSig(&'a [String]),
    /// The replies of a parser to these calls.
    Play(Calls<'a>),
    /// The text with its comments replaced by spaces.
    Blank,
    /// The bytes of a module whose fields are all function types.
    Types,
    /// The bytes of a module, with these options.
    Module(ModuleOptions),
}

/// The action of `fmt` for each text.
#[derive(Clone, Copy, Debug, PartialEq, Eq)]
pub enum Mode {
    /// The formatted text is printed.
    Print,
    /// The file is named if its text is not formatted.
    Check,
    /// The file is replaced by its formatted text if the two differ.
    Write,
    /// The lines in which the text and the formatted text differ are printed as a unified diff.
    Diff,
}

/// The input files of a command, in the order of the command line.
#[derive(Clone, Copy)]
pub struct FileNames<'a> {
    front: &'a [String],
    args: &'a [String],
    last: &'a [String],
}

/// A parsed command line.
#[derive(Drop)]
pub enum Command<'a> {
    /// A request for the help text.
    Help,
    /// A request for the version.
    Version,
    /// A task for the texts of these files, lexed with these settings; standard input if no file is
    /// named. The output goes to the named file, or to standard output.
    Run(Settings, Task<'a>, Option<&'a str>, FileNames<'a>),
    /// `fmt` in this mode for the texts of these files, lexed with these settings; standard input
    /// if no file is named.
    Format(Settings, Mode, FileNames<'a>),
}

/// A command.
#[derive(Clone, Copy, PartialEq, Eq)]
pub(crate) enum Verb {
    List,
    Sig,
    Play,
    Blank,
    Types,
    Module,
    Fmt,
}

/// The command line, split into its parts. The parts borrow the words.
#[derive(Clone, Copy)]
pub(crate) struct Line<'a> {
    /// The options before the command.
    pub(crate) front: &'a [String],
    pub(crate) verb: Verb,
    /// The names of `sig`, or the calls of `play`; empty for other commands.
    pub(crate) own: &'a [String],
    /// The words after any other command, up to `--`.
    pub(crate) args: &'a [String],
    /// The files after `--`.
    pub(crate) last: &'a [String],
}

impl<'a> Line<'a> {
    /// Splits the command line into its parts.
    pub(crate) fn of(words: &'a [String]) -> Line<'a>
        ensures { line_parts result ≡ parts_of words.now }
    {
        let rest = after_front(words);
        let (front, _) = words.split_at(words.len() - rest.len());
        let (verb, after) = split_verb(rest);
        if verb.owns_operands() {
            return Line {
                front,
                verb,
                own: after,
                args: &[],
                last: &[],
            };
        }
        let (args, last) = split_files(after);
        Line {
            front,
            verb,
            own: &[],
            args,
            last,
        }
    }

    /// Returns the number of arguments of this kind, before and after the command.
    pub(crate) fn times(&self, kind: Kind) -> usize
        ensures { result ≡ times kind (all_args (line_parts self.now)) }
    {
        // `iter` gives the proof a bound on the numbers of words, so the sum does not overflow.
        let _ = self.front.iter();
        let _ = self.args.iter();
        times(kind, self.front) + times(kind, self.args)
    }

    /// Returns the name in the first argument of this kind, or `None` if none is of this kind.
    fn first(&self, kind: Kind) -> Option<&'a str>
        ensures { option_map (λ w. w.now) result
            ≡ option_map string_bytes (first_of kind (all_args (line_parts self.now))) }
    {
        if let Some(name) = first(kind, self.front) {
            return Some(name.as_str());
        }
        let Some(name) = first(kind, self.args) else {
            return None;
        };
        Some(name.as_str())
    }

    /// Returns `true` if the output file is the first input file, by name. `-` is not a file.
    pub(crate) fn overwrites(&self) -> bool
        ensures { result ≡ overwrites (line_parts self.now) }
    {
        let Some(target) = self.first(Kind::Output) else {
            return false;
        };
        let mut files = self.files();
        let Some(file) = files.next() else {
            return false;
        };
        file == target && target != "-"
    }

    /// Returns `true` if `--json` is given.
    pub(crate) fn wants_json(&self) -> bool
        ensures { result ≡ wants_json (all_args (line_parts self.now)) }
    {
        self.times(Kind::Json) > 0
    }

    /// Returns `true` unless `--no-names` is given.
    fn wants_names(&self) -> bool
        ensures { result ≡ wants_names (all_args (line_parts self.now)) }
    {
        self.times(Kind::NoNames) == 0
    }

    /// Returns `true` unless `--no-validate` is given.
    fn validates(&self) -> bool
        ensures { result ≡ validates (all_args (line_parts self.now)) }
    {
        self.times(Kind::NoValidate) == 0
    }

    /// Returns the options of `module`.
    fn module_options(&self) -> ModuleOptions
        ensures names { result.has_names ≡ wants_names (all_args (line_parts self.now)) }
        ensures checked { result.is_checked ≡ validates (all_args (line_parts self.now)) }
    {
        ModuleOptions {
            has_names: self.wants_names(),
            is_checked: self.validates(),
        }
    }

    /// Returns `true` if the command accepts each of its arguments.
    fn accepts_all(&self) -> bool
        ensures { result ≡ take_all self.now.verb (all_args (line_parts self.now)) }
    {
        accepts_all(self.verb, self.front) && accepts_all(self.verb, self.args)
    }

    /// Returns the names of the input files.
    pub(crate) fn files(&self) -> FileNames<'a>
        ensures { file_names result ≡ files_of (line_parts self.now) }
    {
        FileNames {
            front: self.front,
            args: self.args,
            last: self.last,
        }
    }

    /// Returns `true` if the command accepts the number of its files, and they are not named both
    /// before and after `--`.
    fn has_files(&self) -> bool
        ensures { IsTrue result ↔ HasFiles (line_parts self.now) (files_of (line_parts self.now)) }
    {
        (self.times(Kind::File) == 0 || self.last.is_empty())
            && (self.verb.accepts_many_files() || !self.files().are_several())
    }

    /// Returns the lexer settings that the flags select, or `None` if `--allow-confusing`,
    /// `--strict-underscores`, `--json`, `--no-names` or `--no-validate` is given twice.
    fn settings(&self) -> Option<Settings>
        ensures selected { IfSome result
            (λ settings. Selects (all_args (line_parts self.now)) settings) }
        ensures refused { IfNone result
            ((settings : Settings) → ¬ Selects (all_args (line_parts self.now)) settings) }
    {
        let allow = self.times(Kind::Allow);
        let strict = self.times(Kind::Strict);
        if allow > 1 || strict > 1 || self.times(Kind::Json) > 1 {
            return None;
        }
        if self.times(Kind::NoNames) > 1 || self.times(Kind::NoValidate) > 1 {
            return None;
        }
        Some(Settings {
            allow: allow == 1,
            strict: strict == 1,
        })
    }

    /// Returns the mode of `fmt`, or `None` if `--check`, `--write` and `--diff` are together given
    /// more than once.
    pub(crate) fn mode(&self) -> Option<Mode>
        ensures asked { IfSome result (λ m. AsksMode (all_args (line_parts self.now)) m) }
        ensures refused { IfNone result
            ((m : Mode) → ¬ AsksMode (all_args (line_parts self.now)) m) }
    {
        let check = self.times(Kind::Check);
        let write = self.times(Kind::Write);
        match (check, write, self.times(Kind::Diff)) {
            (0, 0, 0) => Some(Mode::Print),
            (1, 0, 0) => Some(Mode::Check),
            (0, 1, 0) => Some(Mode::Write),
            (0, 0, 1) => Some(Mode::Diff),
            _ => None,
        }
    }
}

/// Returns `true` if a command accepts each of these arguments.
fn accepts_all(verb: Verb, words: &[String]) -> bool
    ensures { result ≡ take_all verb (args_of words.now) }
{
    let mut rest = words;
    while let Some((argument, after)) = next_argument(rest) {
        if !verb.takes(argument.kind) {
            return false;
        }
        rest = after;
    }
    true
}

impl<'a> FileNames<'a> {
    /// Returns the next name and advances past it. Returns `None` after the last name.
    pub fn next(&mut self) -> Option<&'a str>
        ensures { MatchOption result (file_names self.old ≡ [])
            (λ name. IsNext (file_names self.old) name.now (file_names self.new)) }
    {
        if let Some((name, rest)) = next_file(self.front) {
            self.front = rest;
            return Some(name.as_str());
        }
        if let Some((name, rest)) = next_file(self.args) {
            self.args = rest;
            return Some(name.as_str());
        }
        let Some((name, rest)) = self.last.split_first() else {
            return None;
        };
        self.last = rest;
        Some(name.as_str())
    }

    /// Returns `true` if at least two names remain.
    pub fn are_several(&self) -> bool
        ensures { result ≡ nat_lt 1 (length (file_names self.now)) }
    {
        let mut rest = *self;
        rest.next().is_some() && rest.next().is_some()
    }

    /// Returns `true` if no name remains.
    pub fn are_none(&self) -> bool
        ensures { result ≡ nat_eq (length (file_names self.now)) 0 }
    {
        let mut rest = *self;
        rest.next().is_none()
    }
}

/// Returns the command with this name, or `None` if no command has it.
pub(crate) fn verb_named(word: &String) -> Option<Verb>
    ensures { result ≡ verb_named word.now }
{
    match word.as_str() {
        "list" => Some(Verb::List),
        "sig" => Some(Verb::Sig),
        "play" => Some(Verb::Play),
        "blank" => Some(Verb::Blank),
        "types" => Some(Verb::Types),
        "module" => Some(Verb::Module),
        "fmt" => Some(Verb::Fmt),
        _ => None,
    }
}

/// Splits off the command. Returns `Verb::List` and all words if they do not begin with a command.
pub(crate) fn split_verb(words: &[String]) -> (Verb, &[String])
    ensures verb { result.0 ≡ verb_of words.now }
    ensures after { result.1.now ≡ after_verb words.now }
{
    let Some((word, rest)) = words.split_first() else {
        return (Verb::List, words);
    };
    match verb_named(word) {
        Some(verb) => (verb, rest),
        None => (Verb::List, words),
    }
}

/// Returns the number of words before `--`.
fn own_len(words: &[String]) -> usize
    ensures { result ≡ own_len words.now }
{
    words
        .iter()
        .take_while(|word| word.as_str() != "--")
        .count()
}

/// Returns the words before `--`, and the words after it.
fn split_files(words: &[String]) -> (&[String], &[String])
    ensures own { result.0.now ≡ own_words words.now }
    ensures last { result.1.now ≡ last_words words.now }
{
    let (own, rest) = words.split_at(own_len(words));
    match rest.split_first() {
        Some((_, files)) => (own, files),
        None => (own, rest),
    }
}

impl Verb {
    /// Returns `true` if all words after the command are names or calls, not files.
    pub(crate) fn owns_operands(self) -> bool
        ensures { result ≡ owns_operands self }
    {
        match self {
            Verb::List | Verb::Blank | Verb::Types | Verb::Module | Verb::Fmt => false,
            Verb::Sig | Verb::Play => true,
        }
    }

    /// Returns `true` if the command accepts several files.
    pub(crate) fn accepts_many_files(self) -> bool
        ensures { result ≡ accepts_many_files self }
    {
        match self {
            Verb::List | Verb::Sig | Verb::Fmt => true,
            Verb::Play | Verb::Blank | Verb::Types | Verb::Module => false,
        }
    }

    /// Returns `true` if the command accepts lexer flags.
    fn takes_flags(self) -> bool
        ensures { result ≡ takes_flags self }
    {
        match self {
            Verb::List | Verb::Sig | Verb::Play | Verb::Blank | Verb::Fmt => true,
            Verb::Types | Verb::Module => false,
        }
    }

    /// Returns `true` if the command accepts arguments of this kind.
    pub(crate) fn takes(self, kind: Kind) -> bool
        ensures { result ≡ takes self kind }
    {
        match kind {
            Kind::Allow | Kind::Strict => self.takes_flags(),
            Kind::Json => matches!(self, Verb::List | Verb::Sig),
            Kind::Check | Kind::Write | Kind::Diff => self == Verb::Fmt,
            Kind::NoNames | Kind::NoValidate => self == Verb::Module,
            Kind::Output => matches!(self, Verb::Types | Verb::Module),
            Kind::Named | Kind::File => true,
            Kind::Wrong => false,
        }
    }
}

/// Parses each word as a call of a parser. Returns `None` if a word is not a call.
fn read_calls(alloc: Global, words: &[String]) -> Result<Option<Vec<Call>>, AllocError>
    ensures { IfOk result (λ read. MatchOption read
        ((calls : List Call) → ¬ NamesCalls words.now calls)
        (λ calls. NamesCalls words.now calls.items)) }
{
    let mut calls = Vec::new(alloc);
    for word in words {
        let Some(call) = read_call(alloc, word)? else {
            return Ok(None);
        };
        calls.push(call)?;
    }
    Ok(Some(calls))
}

/// Returns the task of a command with `--json` and the given names. Returns `None` unless the
/// command is `list` or `sig`.
fn json_task_of(verb: Verb, words: &[String]) -> Option<Task<'_>>
    ensures { (names valid : Bool) → MatchOption result
        ((t : Task) → ¬ AsksTask verb true names valid words.now t)
        (AsksTask verb true names valid words.now) }
{
    match verb {
        Verb::List => Some(Task::JsonList),
        Verb::Sig => Some(Task::JsonSig(words)),
        Verb::Play | Verb::Blank | Verb::Types | Verb::Module | Verb::Fmt => None,
    }
}

/// Returns the task of a command with the given names or calls. Returns `None` for `fmt`, for a
/// word of `play` that is not a call, and for `json` with a command that writes no JSON.
fn task_of<'a>(
    alloc: Global,
    verb: Verb,
    json: bool,
    options: ModuleOptions,
    words: &'a [String],
) -> Result<Option<Task<'a>>, AllocError>
    ensures asked { IfOk result (λ task. MatchOption task
        ((t : Task) → ¬ AsksTask verb json options.has_names options.is_checked words.now t)
        (AsksTask verb json options.has_names options.is_checked words.now)) }
    ensures refused { OnErr result (verb ≡ verbs.Play) }
{
    if json {
        return Ok(json_task_of(verb, words));
    }
    Ok(match verb {
        Verb::List => Some(Task::List),
        Verb::Sig => Some(Task::Sig(words)),
        Verb::Play => read_calls(alloc, words)?.map(|calls| Task::Play(Calls::Owned(calls))),
        Verb::Blank => Some(Task::Blank),
        Verb::Types => Some(Task::Types),
        Verb::Module => Some(Task::Module(options)),
        Verb::Fmt => None,
    })
}

/// Returns the `fmt` command with its arguments. Returns `None` if the command is not `fmt`, or its
/// arguments are invalid.
fn format_of<'a>(words: &'a [String], line: Line<'a>) -> Option<Command<'a>>
    requires line { line_parts line ≡ parts_of words.now }
    requires other { wants_help words.now ≡ false }
    ensures { MatchOption result
        ((s : Settings) (m : Mode) (files : List (String Global)) →
        ¬ AsksFormat words.now s m files)
        (Asks words.now) }
{
    if line.verb != Verb::Fmt || !line.accepts_all() || !line.has_files() {
        return None;
    }
    let Some(settings) = line.settings() else {
        return None;
    };
    let Some(mode) = line.mode() else {
        return None;
    };
    Some(Command::Format(settings, mode, line.files()))
}

/// Returns the command that runs a task. Returns `None` if the arguments are invalid, or the
/// command is `fmt`.
fn run_of<'a>(
    alloc: Global,
    words: &'a [String],
    line: Line<'a>,
) -> Result<Option<Command<'a>>, AllocError>
    requires line { line_parts line ≡ parts_of words.now }
    requires other { wants_help words.now ≡ false }
    ensures asked { IfOk result (λ command. MatchOption command
        ((s : Settings) (t : Task) (o : Option (List ℕ)) (files : List (String Global)) →
        ¬ AsksRun words.now s t o files)
        (Asks words.now)) }
    ensures refused { OnErr result (AsksPlay words.now) }
{
    if begins_with("--", after_front(words)) {
        return Ok(None);
    }
    if !line.accepts_all() || !line.has_files() {
        return Ok(None);
    }
    if line.times(Kind::Output) > 1 || line.overwrites() {
        return Ok(None);
    }
    let Some(settings) = line.settings() else {
        return Ok(None);
    };
    let (json, options) = (line.wants_json(), line.module_options());
    let Some(task) = task_of(alloc, line.verb, json, options, line.own)? else {
        return Ok(None);
    };
    let target = line.first(Kind::Output);
    Ok(Some(Command::Run(settings, task, target, line.files())))
}

/// Returns `true` if the first word is `text`.
pub(crate) fn begins_with(text: &str, words: &[String]) -> bool
    ensures { result ≡ begins_with text.now words.now }
{
    match words.split_first() {
        Some((first, _)) => first.as_str() == text,
        None => false,
    }
}

/// Returns `true` if the first word requests help.
pub(crate) fn asks_help(words: &[String]) -> bool
    ensures { result ≡ asks_help words.now }
{
    begins_with("--help", words) || begins_with("-h", words) || begins_with("help", words)
}

/// Returns `true` if the first word requests the version.
fn asks_version(words: &[String]) -> bool
    ensures { result ≡ asks_version words.now }
{
    begins_with("--version", words) || begins_with("-V", words)
}

/// Returns `true` if the first word is a command other than `sig` and `play`.
pub(crate) fn begins_with_files(words: &[String]) -> bool
    ensures { result ≡ begins_with_files words.now }
{
    match words.split_first() {
        Some((word, _)) => verb_named(word).is_some_and(|verb| !verb.owns_operands()),
        None => false,
    }
}

/// Returns `true` if help is requested: by the first word after the leading options, or by the
/// first word after a command other than `sig` and `play`.
fn wants_help(words: &[String]) -> bool
    ensures { result ≡ wants_help words.now }
{
    let rest = after_front(words);
    asks_help(rest) || (begins_with_files(rest) && asks_help(split_verb(rest).1))
}

/// Parses the command line. Returns `None` if it is invalid.
///
/// # Errors
///
/// Returns `AllocError` if an allocation for the calls of `play` fails. No other command allocates.
pub fn read_words<'a>(alloc: Global, words: &'a [String]) -> Result<Option<Command<'a>>, AllocError>
    ensures asked { IfOk result (λ command.
        MatchOption command (AsksNothing words.now) (Asks words.now)) }

    // Only the calls of `play` allocate.
    ensures refused { OnErr result (AsksPlay words.now) }
{
    if wants_help(words) {
        return Ok(Some(Command::Help));
    }
    if asks_version(words) {
        return Ok(Some(Command::Version));
    }
    let line = Line::of(words);
    if let Some(command) = format_of(words, line) {
        return Ok(Some(command));
    }
    run_of(alloc, words, line)
}

/// Returns `true` if a word is recognizable as a file name: it is `-`, or it contains `.` or `/`
/// and does not begin with a dash.
pub(crate) fn looks_like_file(word: &String) -> bool
    ensures { result ≡ looks_like_file word.now }
{
    let bytes = word.as_bytes();
    word.as_str() == "-" || (is_file(word) && (bytes.contains(&b'.') || bytes.contains(&b'/')))
}

/// Returns `true` if a word is valid without a file of its name: it is `help`, a command, or
/// recognizable as a file name.
fn is_known(word: &String) -> bool
    ensures { result ≡ is_known word.now }
{
    word.as_str() == "help" || verb_named(word).is_some() || looks_like_file(word)
}

/// Returns the first word after the leading options if it is meaningful only as the name of an
/// existing file: it is neither an option nor a command, nor recognizable as a file name.
pub fn file_in_question(words: &[String]) -> Option<&str>
    ensures { option_map (λ w. w.now) result
        ≡ option_map string_bytes (file_in_question words.now) }
{
    let Some((word, _)) = after_front(words).split_first() else {
        return None;
    };
    if is_known(word) || !is_file(word) {
        return None;
    }
    Some(word.as_str())
}
