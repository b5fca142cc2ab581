//! Runs of a task, from a source of bytes to a sink.
ghost use Rattle.std.specs.Prelude.{◌≡◌, None};
ghost use Rattle.std.specs.Option.{option_map};
ghost use Rattle.wat_tokens_output.specs.Lists.{Lists};
ghost use Rattle.wat_tokens_output.specs.Replies.{Plays};
ghost use Rattle.wat_tokens_output.specs.Shows.{Shows};
ghost use Rattle.wat_tokens_run.specs.Printed.{task_prints};
ghost use Rattle.wat_tokens_run.specs.Runs.{Runs, RunsWithCause, without_cause, without_error};

use crate::print::print;
use std::alloc::Global;
use wat_lex::error::Error;
use wat_lex::lexer::Settings;
use wat_lexer_parser::parser::Call;
use wat_tokens_args::options::{Calls, Task};
use wat_tokens_io::ends::{Sink, Source};
use wat_tokens_output::input::read_whole;
pub use wat_tokens_output::input::{RunError, RunFailure};

/// Reads the rest of the source, writes the output of the task for it, and returns the error of the
/// text. `file` is the file name in lines of JSON, if they have one.
///
/// # Errors
///
/// Returns the failure and its cause if a read, a write or an allocation fails, or if the bytes are
/// too long for a text or not UTF-8.
pub fn run<R: Source, W: Sink>(
    alloc: Global,
    input: &mut R,
    output: &mut W,
    settings: Settings,
    task: &Task<'_>,
    file: Option<&str>,
) -> Result<Option<Error>, RunFailure>
    requires input { R.failure input.old ≡ None }
    requires output { W.failure output.old ≡ None }
    ensures { RunsWithCause R.left R.failure R.has_ended W.held W.failure
        (task_prints settings (option_map (λ f. f.now) file.entry) task.now)
        input.old input.new output.old output.new result }
{
    let bytes = read_whole(alloc, input)?;
    print(alloc, &bytes, settings, task, file, output)
}

/// Returns the result of a run without the cause of its failure.
fn without_cause<T>(run: Result<T, RunFailure>) -> Result<T, RunError>
    ensures { result ≡ without_cause run }
{
    match run {
        Ok(answer) => Ok(answer),
        Err(failure) => Err(RunError::from(failure)),
    }
}

/// Writes a line for each raw token of the rest of the source, up to the first lexical error, and
/// returns that error.
pub fn run_list<R: Source, W: Sink>(
    alloc: Global,
    input: &mut R,
    output: &mut W,
    settings: Settings,
) -> Result<Option<Error>, RunError>
    requires input { R.failure input.old ≡ None }
    requires output { W.failure output.old ≡ None }
    ensures { Runs R.left R.failure R.has_ended W.held W.failure (Lists settings)
        input.old input.new output.old output.new result }
{
    without_cause(run(alloc, input, output, settings, &Task::List, None))
}

/// Writes a line for each visible token of the rest of the source, with these annotation names
/// registered, up to the first error, and returns that error.
pub fn run_sig<R: Source, W: Sink>(
    alloc: Global,
    input: &mut R,
    output: &mut W,
    settings: Settings,
    names: &[String],
) -> Result<Option<Error>, RunError>
    requires input { R.failure input.old ≡ None }
    requires output { W.failure output.old ≡ None }
    ensures { Runs R.left R.failure R.has_ended W.held W.failure (Shows settings names.now)
        input.old input.new output.old output.new result }
{
    without_cause(run(alloc, input, output, settings, &Task::Sig(names), None))
}

/// Writes the replies of a parser to these calls. The parser begins at the start of the text.
pub fn run_play<R: Source, W: Sink>(
    alloc: Global,
    input: &mut R,
    output: &mut W,
    settings: Settings,
    calls: &[Call],
) -> Result<(), RunError>
    requires input { R.failure input.old ≡ None }
    requires output { W.failure output.old ≡ None }
    ensures { Runs R.left R.failure R.has_ended W.held W.failure (Plays settings calls.now)
        input.old input.new output.old output.new (without_error result) }
{
    let task = Task::Play(Calls::Borrowed(calls));
    match run(alloc, input, output, settings, &task, None) {
        Ok(_) => Ok(()),
        Err(failure) => Err(RunError::from(failure)),
    }
}
