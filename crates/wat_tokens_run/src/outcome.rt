//! Outcomes of a run: exit statuses and reports.
ghost use Rattle.std.specs.Prelude.{◌≡◌, None, OnOk, true, false, max};
ghost use Rattle.std.specs.Io.KnownBytes.{Appends};
ghost use Rattle.std.specs.Option.{option_map};
ghost use Rattle.wat_lex.specs.declared.lexer.settings.Settings.{Settings};
ghost use Rattle.wat_tokens_run.specs.Outcomes.{exit_code, is_marked, is_closed_output, outcome_of};
ghost use Rattle.wat_tokens_run.specs.Outcomes.{fault_report, hint, refused, report, Ran, status};
ghost use Rattle.wat_tokens_run.specs.Printed.{task_prints};

use crate::run::{RunError, RunFailure, run};
use std::alloc::Global;
use std::{fmt, io};
use wat_lex::error::Error;
use wat_lex::lexer::{LexError, Settings};
use wat_tokens_args::complaint::Complaint;
use wat_tokens_args::options::Task;
use wat_tokens_io::ends::{Failed, Sink, Source};
use wat_tokens_output::named::{FileReport, Shown};
use wat_tokens_output::printer::print;

/// The outcome of a run on one file.
#[derive(Drop)]
pub enum Outcome<'a> {
    /// The whole output is written.
    Listed,
    /// The text has a lexical error or does not compile. A list contains the lines before the
    /// error, and in JSON also a line for the error; `blank`, `types` and `module` write nothing.
    Faulty(Error),
    /// A read, a write or an allocation failed, or the input is too long or not UTF-8. The task has
    /// written nothing, or a prefix of its output if a write failed. A line that names the file may
    /// precede this.
    Refused(RunFailure),
    /// The file can't be opened.
    Unopened(Failed),
    /// The command line is invalid.
    Wrong(Complaint<'a>),
    /// The text is not formatted.
    Differs,
    /// `fmt` can't read or replace the file, and has already reported the cause.
    Kept,
}

/// The exit status of the program. It is 0, or the status of an outcome.
#[derive(Clone, Copy, Debug, PartialEq, Eq)]
pub struct Exit {
    code: u8,
}

impl Exit {
    /// Returns the exit status of a program that did nothing: 0.
    pub fn idle() -> Exit
        ensures { exit_code result ≡ 0 }
    {
        Exit { code: 0 }
    }

    /// Returns the exit status as an integer.
    pub fn code(self) -> u8
        ensures { result ≡ exit_code self }
    {
        self.code
    }

    /// Returns the greater of two exit statuses.
    pub fn or(self, other: Exit) -> Exit
        ensures { exit_code result ≡ max (exit_code self) (exit_code other) }
    {
        Exit {
            code: self.code.max(other.code),
        }
    }
}

/// Returns `true` if writing the output of a named file failed because the pipe is closed.
fn is_closed_output(named: bool, failure: RunFailure) -> bool
    ensures { result ≡ is_closed_output named failure }
{
    match failure {
        RunFailure::Write(failed) => named && failed.is_closed_pipe(),
        _ => false,
    }
}

/// Returns `true` if the error is a byte order mark at the start of the text.
fn is_marked(error: &Error) -> bool
    ensures { result ≡ is_marked error.now }
{
    error.span().offset() == 0
        && matches!(error.lex_error(), Some(LexError::Unexpected('\u{feff}')))
}

/// Returns the hint that follows the message of an error: a line about the byte order mark, or an
/// empty string.
fn hint(error: &Error) -> &'static str
    ensures { result.now ≡ hint error.now }
{
    if is_marked(error) {
        "\nthe text begins with a byte order mark, which has to go"
    } else {
        ""
    }
}

/// The prefix of a message: the name of a file and a colon, or nothing.
#[derive(Clone, Copy)]
struct OfFile<'a>(Option<&'a str>);

impl fmt::Display for OfFile<'_> {
    ghost use Rattle.std.specs.Prelude.{Some};
    ghost use Rattle.std.specs.Option.{option_map};
    ghost use Rattle.wat_tokens_output.specs.Places.{of_file};

    ghost output = { λ n. Some (of_file (option_map (λ name. name.now) n.0)) };

    fn fmt<W: fmt::Write>(&self, f: &mut fmt::Formatter<W>) -> fmt::Result {
        match self.0 {
            Some(name) => write!(f, "{}: ", Shown(name)),
            None => Ok(()),
        }
    }
}

/// Runs a task on one text, writes its output, and returns the outcome. `file` is the file name in
/// lines of JSON, if they have one.
pub fn carry_out<R: Source, W: Sink>(
    alloc: Global,
    settings: Settings,
    task: &Task<'_>,
    file: Option<&str>,
    input: &mut R,
    output: &mut W,
) -> Outcome<'static>
    requires input { R.failure input.old ≡ None }
    requires output { W.failure output.old ≡ None }
    ensures { Ran R.left R.failure R.has_ended W.held W.failure
        (task_prints settings (option_map (λ f. f.now) file.entry) task.now)
        input.old input.new output.old output.new result }
{
    Outcome::of_run(run(alloc, input, output, settings, task, file))
}

impl<'a> Outcome<'a> {
    /// Returns the outcome of a run.
    pub fn of_run(run: Result<Option<Error>, RunFailure>) -> Outcome<'a>
        ensures { result ≡ outcome_of run }
    {
        match run {
            Ok(None) => Outcome::Listed,
            Ok(Some(error)) => Outcome::Faulty(error),
            Err(failure) => Outcome::Refused(failure),
        }
    }

    /// Returns the exit status of the outcome for a named file, or for standard input that is not
    /// named. A closed pipe is a success for a named file only.
    pub fn exit(&self, named: bool) -> Exit
        ensures { exit_code result ≡ status named self.now }
    {
        let code = match self {
            Outcome::Listed => 0,
            Outcome::Faulty(_) | Outcome::Differs => 1,
            Outcome::Refused(failure) if is_closed_output(named, *failure) => 0,
            Outcome::Refused(_) | Outcome::Unopened(_) | Outcome::Wrong(_) | Outcome::Kept => 2,
        };
        Exit { code }
    }

    /// Writes the report of the outcome for the input `name`, or for standard input that is not
    /// named. A report is a line, an error with its location in the text, or empty.
    ///
    /// Writes in blocks of up to 4,096 bytes. Does not allocate.
    pub fn report<W: io::Write>(&self, name: Option<&str>, errors: &mut W) -> io::Result<()>
        ensures { OnOk result (Appends (W.contents errors.old) (W.contents errors.new)
            (report (option_map (λ n. n.now) name.entry) self.now)) }
    {
        let file = OfFile(name);
        match self {
            Outcome::Listed | Outcome::Differs | Outcome::Kept => Ok(()),
            Outcome::Faulty(error) => report_fault(name, error, errors),
            Outcome::Refused(failure) => report_refusal(name, *failure, errors),
            Outcome::Unopened(failed) => print(
                errors,
                format_args!("wat_tokens: {file}open failed{failed}\n"),
            ),
            Outcome::Wrong(complaint) => print(errors, format_args!("{complaint}\n")),
        }
    }
}

/// Writes the reason that a run failed, with its cause if the input has a name. Writes nothing if
/// the pipe for the output of a named input is closed.
fn report_refusal<W: io::Write>(
    name: Option<&str>,
    failure: RunFailure,
    errors: &mut W,
) -> io::Result<()>
    ensures { OnOk result (Appends (W.contents errors.old) (W.contents errors.new)
        (refused (option_map (λ n. n.now) name.entry) failure)) }
{
    match name {
        None => {
            let error = RunError::from(failure);
            print(errors, format_args!("wat_tokens: {error}\n"))
        }
        Some(_) if is_closed_output(true, failure) => Ok(()),
        Some(_) => {
            let file = OfFile(name);
            print(errors, format_args!("wat_tokens: {file}{failure}\n"))
        }
    }
}

/// Writes an error with its location in the text, and its hint if the input has a name.
fn report_fault<W: io::Write>(name: Option<&str>, error: &Error, errors: &mut W) -> io::Result<()>
    ensures { OnOk result (Appends (W.contents errors.old) (W.contents errors.new)
        (fault_report (option_map (λ n. n.now) name.entry) error.now)) }
{
    let Some(name) = name else {
        return print(errors, format_args!("{error}\n"));
    };
    let report = FileReport { name, error };
    print(errors, format_args!("{report}{}\n", hint(error)))
}
