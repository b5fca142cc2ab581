//! Execution of the command line: files, output, reports and the exit status.
ghost use Rattle.std.specs.Prelude.{◌≡◌, ◌⊎◌, ℕ, List, Bool, Option, None, false, IfOk, IfSome};
ghost use Rattle.std.specs.Prelude.{MatchResult, IsTrue, is_some};
ghost use Rattle.std.specs.Prelude.{nat_lt, length};
ghost use Rattle.std.specs.Option.{option_map};
ghost use Rattle.wat_tokens_args.specs.Options.{file_names};
ghost use Rattle.wat_tokens_run.specs.Outcomes.{exit_code, status};
ghost use Rattle.wat_tokens_run.specs.Printed.{task_prints};
ghost use Rattle.wat_tokens_run.specs.Responses.{Found, Gives, Fails, FileInQuestionExists};
ghost use Rattle.wat_tokens_run.specs.Responses.{FileInQuestionMissing, name_of};
ghost use Rattle.wat_tokens_run.specs.Responses.{Acted, FormatsAll, FormatsEach, RanFile};
ghost use Rattle.wat_tokens_run.specs.Responses.{RanFileOf};
ghost use Rattle.wat_tokens_run.specs.Responses.{RanAll, RanFiles, RanInto, Responded};
ghost use Rattle.wat_tokens_run.specs.Responses.{AppendsProgramText, label};
ghost use Rattle.wat_tokens_run.specs.Responses.{head, first_file, is_binary, is_plain_list};
ghost use Rattle.wat_tokens_run.specs.Responses.{target_file};
ghost use Rattle.wat_tokens_run.specs.Responses.{Headed, OutputIsAllowed, OutputIsRejected, RanTo};
ghost use Rattle.wat_tokens_run.specs.Responses.{Unheaded, was_opened};
ghost use Rattle.wat_tokens_args.specs.declared.options.Mode.{Mode};
ghost use Rattle.wat_lex.specs.declared.lexer.settings.Settings.{Settings};

use crate::outcome::{Exit, Outcome, carry_out};
use crate::run::RunFailure;
use std::alloc::{AllocError, Global};
use std::io;
use wat_lex::lexer::Settings;
use wat_tokens_args::complaint::{Complaint, complaint_of};
use wat_tokens_args::help::{help, version};
use wat_tokens_args::options::{Command, FileNames, Mode, Task, file_in_question, read_words};
use wat_tokens_io::ends::{Failed, Sink, Source};
use wat_tokens_output::named::Shown;

/// The environment of a command: its files, the subcommand `fmt`, which formats files, and whether
/// standard output is a terminal.
pub trait Inputs {
    /// A file that [`Inputs::open`] opened.
    type Input: Source + Drop;

    /// A file being written, from `create`.
    type Output: Sink + Drop;

    // What opening a file of this name returns: its bytes or a failure, or `None` if the
    // implementation does not specify it. `Found` is an `Option`.
    ghost found: { Self → List ℕ → Found };

    // Whether a file of this name exists; `None` if the implementation does not specify it.
    ghost there: { Self → List ℕ → Option Bool };

    // Whether standard output is a terminal; `None` if the implementation does not specify it.
    ghost shown: { Self → Option Bool };

    // The sink writes to the file of this name.
    ghost writes: { Self → List ℕ → Self.Output → Type 0 };

    // Opening the file changes the first state to the second.
    ghost opened: { Self → List ℕ → Self → Type 0 };

    // Running `fmt` on the file, in this mode and with these settings, changes the first state to
    // the second and returns this exit status.
    ghost laid_out: { Self → Settings → Mode → List ℕ → Self → ℕ → Type 0 };

    /// Returns `true` if a file of this name exists.
    fn is_there(&self, file: &str) -> bool
        ensures { IfSome (there self.now file.now) (λ known. result ≡ known) };

    /// Returns `true` if standard output is a terminal.
    fn is_shown(&self) -> bool
        ensures { IfSome (shown self.now) (λ known. result ≡ known) };

    /// Returns a sink that writes to a file. The file is created, or emptied, before its first byte
    /// is written.
    fn create(&self, file: &str) -> Result<Self::Output, AllocError>
        ensures { IfOk result (λ output. writes self.now file.now output
            × (Self.Output.failure output ≡ None)) };

    /// Opens a file for reading. The name `-` is standard input.
    fn open(&mut self, file: &str) -> Result<Self::Input, Failed>
        ensures opened { opened self.old file.now self.new }
        ensures gives { MatchResult result
            (λ input. Gives (found self.old file.now) (Self.Input.left input)
            × (Self.Input.failure input ≡ None))
            (λ failed. Fails (found self.old file.now) failed) };

    /// Runs `fmt` on a file in one of its modes, and returns the exit status. The name `-` is
    /// standard input.
    fn lay_out(&mut self, settings: Settings, mode: Mode, file: &str) -> Exit
        ensures { laid_out self.old settings mode file.now self.new (exit_code result) };
}

/// Returns the name of a file in reports: `<stdin>` for `-`, and the file name otherwise.
pub fn name_of(file: &str) -> &str
    ensures { result.now ≡ name_of file.now }
{
    if file == "-" { "<stdin>" } else { file }
}

/// Reports an outcome and returns its exit status, which also depends on whether there is a `name`.
/// Ignores failures to write the report.
fn reported<E: io::Write>(outcome: &Outcome<'_>, name: Option<&str>, errors: &mut E) -> Exit
    ensures { exit_code result ≡ status (is_some name.entry) outcome.now }
{
    let _ = outcome.report(name, errors);
    outcome.exit(name.is_some())
}

/// Returns the name of a file in lines of JSON, or `None` if there is only one file.
fn label(several: bool, file: &str) -> Option<&str>
    ensures { option_map (λ n. n.now) result ≡ label several file.now }
{
    if several { Some(name_of(file)) } else { None }
}

/// What `write_head` needs to know about the other files of a command.
#[derive(Clone, Copy)]
struct Turn {
    /// `true` if the command has several files.
    several: bool,
    /// `true` if an earlier file was opened.
    begun: bool,
}

/// Returns `true` for the two tasks that print a line of text for each token.
fn is_plain_list(task: &Task<'_>) -> bool
    ensures { result ≡ is_plain_list task.now }
{
    matches!(task, Task::List | Task::Sig(_))
}

/// Writes a line with the name of a file if there are several files and the task prints a line of
/// text for each token. If an earlier file was opened, an empty line comes first, even if nothing
/// was written for that file because an allocation failed.
fn write_head<W: Sink>(
    alloc: Global,
    turn: Turn,
    task: &Task<'_>,
    file: &str,
    output: &mut W,
) -> Result<(), RunFailure>
    requires { W.failure output.old ≡ None }
    ensures { MatchResult result
        (λ _. Headed W.held W.failure (head turn.several turn.begun task.now file.now)
        output.old output.new)
        (λ failure. Unheaded W.held W.failure (head turn.several turn.begun task.now file.now)
        output.old output.new (Outcome.Refused failure)) }
{
    if !turn.several || !is_plain_list(task) {
        return Ok(());
    }
    let gap = if turn.begun { "\n" } else { "" };
    let head = format!(in alloc; "{gap}==> {} <==\n", Shown(name_of(file)))?;
    match output.write_all(head.as_bytes()) {
        Ok(()) => Ok(()),
        Err(failed) => Err(RunFailure::Write(failed)),
    }
}

/// Runs a task on a file and returns the outcome. If there are several files, each line of JSON
/// contains the file name, and a list that is not JSON follows a line with the name.
fn run_file<I: Inputs, W: Sink>(
    alloc: Global,
    settings: Settings,
    task: &Task<'_>,
    turn: Turn,
    inputs: &mut I,
    file: &str,
    output: &mut W,
) -> Outcome<'static>
    requires { W.failure output.old ≡ None }
    ensures opened { I.opened inputs.old file.now inputs.new }
    ensures ran { RanFile I.Input.left I.Input.failure I.Input.has_ended W.held W.failure
        (task_prints settings (label turn.several file.now) task.now)
        (head turn.several turn.begun task.now file.now) (I.found inputs.old file.now)
        output.old output.new result }
{
    let mut input = match inputs.open(file) {
        Ok(input) => input,
        Err(failed) => return Outcome::Unopened(failed),
    };
    if let Err(failure) = write_head(alloc, turn, task, file, output) {
        return Outcome::Refused(failure);
    }
    let label = label(turn.several, file);
    carry_out(alloc, settings, task, label, &mut input, output)
}

/// Returns `true` if the file of a run was opened.
fn was_opened(outcome: &Outcome<'_>) -> bool
    ensures { result ≡ was_opened outcome.now }
{
    !matches!(outcome, Outcome::Unopened(_))
}

/// Runs a task on each file, reports each outcome, and returns the greatest exit status. Stops
/// after the first failed write.
fn run_files<I: Inputs, W: Sink, E: io::Write>(
    alloc: Global,
    settings: Settings,
    task: &Task<'_>,
    inputs: &mut I,
    files: FileNames<'_>,
    output: &mut W,
    errors: &mut E,
) -> Exit
    requires { W.failure output.old ≡ None }
    ensures { RanFiles (λ begun file before after. RanFileOf I.opened I.found I.Input.left
        I.Input.failure I.Input.has_ended W.held W.failure
        (nat_lt 1 (length (file_names files.entry))) begun settings task.now file before after)
        W.failure (file_names files.entry)
        inputs.old inputs.new output.old output.new (exit_code result) }
{
    let several = files.are_several();
    let mut left = files;
    let mut begun = false;
    let mut worst = Exit::idle();
    while !output.failed() {
        let Some(file) = left.next() else {
            return worst;
        };
        let turn = Turn { several, begun };
        let outcome = run_file(alloc, settings, task, turn, inputs, file, output);
        begun |= was_opened(&outcome);
        worst = worst.or(reported(&outcome, Some(name_of(file)), errors));
    }
    worst
}

/// Runs a task on each file, or on standard input if no file is named. Reports each outcome and
/// returns the greatest exit status. Stops after the first failed write.
fn run_all<I: Inputs, W: Sink, E: io::Write>(
    alloc: Global,
    settings: Settings,
    task: &Task<'_>,
    inputs: &mut I,
    files: FileNames<'_>,
    output: &mut W,
    errors: &mut E,
) -> Exit
    requires { W.failure output.old ≡ None }
    ensures { RanAll (λ begun file before after. RanFileOf I.opened I.found I.Input.left
        I.Input.failure I.Input.has_ended W.held W.failure
        (nat_lt 1 (length (file_names files.entry))) begun settings task.now file before after)
        W.failure (file_names files.entry)
        inputs.old inputs.new output.old output.new (exit_code result) }
{
    if !files.are_none() {
        return run_files(alloc, settings, task, inputs, files, output, errors);
    }
    let turn = Turn {
        several: false,
        begun: false,
    };
    let outcome = run_file(alloc, settings, task, turn, inputs, "-", output);
    reported(&outcome, None, errors)
}

/// Returns the first of the files, or `-` if no file is named.
fn first_file(files: FileNames<'_>) -> &str
    ensures { result.now ≡ first_file (file_names files.entry) }
{
    let mut left = files;
    match left.next() {
        Some(file) => file,
        None => "-",
    }
}

/// Runs a task on a file with the file `target` as its output. Reports the outcome and returns its
/// exit status. A failure to create or write the target is reported with the name of the target,
/// any other failure with that of the input.
fn run_into<I: Inputs, E: io::Write>(
    alloc: Global,
    settings: Settings,
    task: &Task<'_>,
    inputs: &mut I,
    file: &str,
    target: &str,
    errors: &mut E,
) -> Exit
    ensures { RanInto I.writes I.Output.failure
        (λ file before after. RanFileOf I.opened I.found I.Input.left I.Input.failure
        I.Input.has_ended I.Output.held I.Output.failure false false settings task.now
        file before after)
        target.now file.now inputs.old inputs.new (exit_code result) }
{
    let mut output = match inputs.create(target) {
        Ok(output) => output,
        Err(refused) => {
            let failure = RunFailure::from(refused);
            return reported(&Outcome::Refused(failure), Some(target), errors);
        }
    };
    let turn = Turn {
        several: false,
        begun: false,
    };
    let outcome = run_file(alloc, settings, task, turn, inputs, file, &mut output);
    let name = match outcome {
        Outcome::Refused(RunFailure::Write(_)) => target,
        _ => name_of(file),
    };
    reported(&outcome, Some(name), errors)
}

/// Runs `fmt` on each file in one of its modes, and returns the greatest exit status.
fn run_fmt_each<I: Inputs>(
    settings: Settings,
    mode: Mode,
    inputs: &mut I,
    files: FileNames<'_>,
) -> Exit
    ensures { FormatsEach
        (λ file before after status. I.laid_out before settings mode file after status)
        (file_names files.entry) inputs.old inputs.new (exit_code result) }
{
    let mut left = files;
    let mut worst = Exit::idle();
    while let Some(file) = left.next() {
        worst = worst.or(inputs.lay_out(settings, mode, file));
    }
    worst
}

/// Runs `fmt` in one of its modes on each file, or on standard input if no file is named, and
/// returns the greatest exit status.
fn run_fmt_all<I: Inputs>(
    settings: Settings,
    mode: Mode,
    inputs: &mut I,
    files: FileNames<'_>,
) -> Exit
    ensures { FormatsAll
        (λ file before after status. I.laid_out before settings mode file after status)
        (file_names files.entry) inputs.old inputs.new (exit_code result) }
{
    if !files.are_none() {
        return run_fmt_each(settings, mode, inputs, files);
    }
    inputs.lay_out(settings, mode, "-")
}

/// Writes the help text or the version, and returns the outcome.
fn say<W: Sink>(text: &str, output: &mut W) -> Outcome<'static>
    requires { W.failure output.old ≡ None }
    ensures { AppendsProgramText W.held W.failure text.now output.old output.new result }
{
    match output.write_all(text.as_bytes()) {
        Ok(()) => Outcome::Listed,
        Err(failed) => Outcome::Refused(RunFailure::Write(failed)),
    }
}

/// Returns `false` if the first word after leading options must be a misspelled command: it is not
/// a command, not `-`, has neither `.` nor `/`, and no file has this name.
fn file_in_question_exists<I: Inputs>(words: &[String], inputs: &I) -> bool
    ensures meant { IsTrue result → FileInQuestionExists (I.there inputs.now) words.now }
    ensures not_meant { IsTrue result ⊎ FileInQuestionMissing (I.there inputs.now) words.now }
{
    match file_in_question(words) {
        Some(word) => inputs.is_there(word),
        None => true,
    }
}

/// Returns the file for the output, or `None` for standard output. The name `-` is standard output.
fn target_file(target: Option<&str>) -> Option<&str>
    ensures { option_map (λ n. n.now) result ≡ target_file (option_map (λ n. n.now) target.entry) }
{
    match target {
        Some("-") | None => None,
        Some(name) => Some(name),
    }
}

/// Runs a task on each file, and writes to standard output. With `-o` it runs on the only file, or
/// on standard input, and writes to the file that `-o` names, or to standard output if that is `-`.
/// Reports each outcome and returns the greatest exit status.
fn run_to<I: Inputs, W: Sink, E: io::Write>(
    alloc: Global,
    settings: Settings,
    task: &Task<'_>,
    target: Option<&str>,
    inputs: &mut I,
    files: FileNames<'_>,
    output: &mut W,
    errors: &mut E,
) -> Exit
    requires { W.failure output.old ≡ None }
    ensures { RanTo W.failure I.writes I.Output.failure
        (λ begun file before after. RanFileOf I.opened I.found I.Input.left I.Input.failure
        I.Input.has_ended W.held W.failure (nat_lt 1 (length (file_names files.entry))) begun
        settings task.now file before after)
        (λ file before after. RanFileOf I.opened I.found I.Input.left I.Input.failure
        I.Input.has_ended I.Output.held I.Output.failure false false settings task.now
        file before after)
        (target_file (option_map (λ t. t.now) target.entry)) (file_names files.entry)
        inputs.old inputs.new output.old output.new (exit_code result) }
{
    match target_file(target) {
        None => run_all(alloc, settings, task, inputs, files, output, errors),
        Some(name) => run_into(
            alloc,
            settings,
            task,
            inputs,
            first_file(files),
            name,
            errors,
        ),
    }
}

/// Returns `true` for the commands `types` and `module` without `-o`, which write a binary module
/// to standard output. `-o -` writes it there too, but on purpose: the result is `false`.
fn is_binary(command: &Command<'_>) -> bool
    ensures { result ≡ is_binary command.now }
{
    matches!(
        command,
        Command::Run(_, Task::Types | Task::Module(_), None, _)
    )
}

/// Returns `true` unless a command writes the bytes of a module to a terminal and no `-o` is given.
fn is_output_allowed<I: Inputs>(command: &Command<'_>, inputs: &I) -> bool
    ensures allowed { IsTrue result → OutputIsAllowed (I.shown inputs.now) command.now }
    ensures stopped { IsTrue result ⊎ OutputIsRejected (I.shown inputs.now) command.now }
{
    if !is_binary(command) {
        return true;
    }
    !inputs.is_shown()
}

/// Executes a command and returns the exit status.
fn act<I: Inputs, W: Sink, E: io::Write>(
    alloc: Global,
    command: &Command<'_>,
    inputs: &mut I,
    output: &mut W,
    errors: &mut E,
) -> Exit
    requires { W.failure output.old ≡ None }
    ensures { Acted W.held W.failure I.writes I.Output.failure
        (λ several begun settings task file before after. RanFileOf I.opened I.found I.Input.left
        I.Input.failure I.Input.has_ended W.held W.failure several begun settings task
        file before after)
        (λ settings task file before after. RanFileOf I.opened I.found I.Input.left I.Input.failure
        I.Input.has_ended I.Output.held I.Output.failure false false settings task
        file before after)
        (λ settings mode file before after status.
        I.laid_out before settings mode file after status)
        command.now inputs.old inputs.new output.old output.new (exit_code result) }
{
    match command {
        Command::Run(settings, task, target, files) => run_to(
            alloc, *settings, task, *target, inputs, *files, output, errors,
        ),
        Command::Format(settings, mode, files) => run_fmt_all(*settings, *mode, inputs, *files),
        Command::Help => reported(&say(help(), output), None, errors),
        Command::Version => reported(&say(version(), output), None, errors),
    }
}

/// Executes a command line: writes its output, reports errors, and returns the exit status.
pub fn respond<I: Inputs, W: Sink, E: io::Write>(
    alloc: Global,
    words: &[String],
    inputs: &mut I,
    output: &mut W,
    errors: &mut E,
) -> Exit
    requires { W.failure output.old ≡ None }
    ensures { Responded W.held W.failure (I.there inputs.old) (I.shown inputs.old)
        I.writes I.Output.failure
        (λ several begun settings task file before after. RanFileOf I.opened I.found I.Input.left
        I.Input.failure I.Input.has_ended W.held W.failure several begun settings task
        file before after)
        (λ settings task file before after. RanFileOf I.opened I.found I.Input.left I.Input.failure
        I.Input.has_ended I.Output.held I.Output.failure false false settings task
        file before after)
        (λ settings mode file before after status.
        I.laid_out before settings mode file after status)
        words.now inputs.old inputs.new output.old output.new (exit_code result) }
{
    if !file_in_question_exists(words, inputs) {
        let complaint = complaint_of(words, false);
        return reported(&Outcome::Wrong(complaint), None, errors);
    }
    match read_words(alloc, words) {
        Ok(Some(command)) => {
            if !is_output_allowed(&command, inputs) {
                return reported(&Outcome::Wrong(Complaint::Terminal), None, errors);
            }
            act(alloc, &command, inputs, output, errors)
        }
        Ok(None) => {
            let complaint = complaint_of(words, true);
            reported(&Outcome::Wrong(complaint), None, errors)
        }
        Err(refused) => {
            let failure = RunFailure::from(refused);
            reported(&Outcome::Refused(failure), None, errors)
        }
    }
}
