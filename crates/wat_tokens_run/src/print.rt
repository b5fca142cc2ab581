//! Output of each task, for bytes that need not be UTF-8.
ghost use Rattle.std.specs.Prelude.{◌≡◌, ◌⊎◌, ◌↔◌, ◌<◌, ◌^◌, length, ℕ, None};
ghost use Rattle.std.specs.Prelude.{Ok, IfOk, IfErr, IsErrOf, OnOk, OnErr, alloc_error};
ghost use Rattle.std.specs.Option.{option_map};
ghost use Rattle.std.specs.Str.{IsValidUpTo};
ghost use Rattle.wat_tokens_io.specs.Blocks.{ReportsEnd};
ghost use Rattle.wat_tokens_output.specs.Blanks.{Blanks};
ghost use Rattle.wat_tokens_io.specs.Streams.{failure_after};
ghost use Rattle.wat_tokens_output.specs.JsonLists.{JsonLists, JsonShows, json_report};
ghost use Rattle.wat_tokens_output.specs.Lists.{Lists};
ghost use Rattle.wat_tokens_output.specs.Refusals.{IsNotUtf8, IsFailedWrite, answered};
ghost use Rattle.wat_tokens_output.specs.Shows.{Shows};
ghost use Rattle.wat_tokens_run.specs.Compiles.{CompilesComplete, CompilesModule, CompilesTypes};
ghost use Rattle.wat_tokens_run.specs.Compiles.{CompilesAs, CompilesUnnamed, CompilesValid};
ghost use Rattle.wat_tokens_run.specs.Compiles.{CompilesValidUnnamed};
ghost use Rattle.std.specs.Prelude.{false, true};
ghost use Rattle.wat_tokens_run.specs.Printed.{task_prints};
ghost use Rattle.wat_tokens_run.specs.JsonWrites.{AppendsRows, AppendsRowsCut};
ghost use Rattle.wat_tokens_run.specs.Writes.{Writes};

use crate::run::RunFailure;
use std::alloc::{AllocError, Global};
use wat_lex::error::Error;
use wat_lex::lexer::{Lexer, Settings};
use wat_lexer_parser::laws;
use wat_modules::{compile, compile_valid, compile_valid_without_names, compile_with_customs};
use wat_tokens_args::options::{ModuleOptions, Task};
use wat_tokens_io::ends::{Failed, Sink};
use wat_tokens_io::row::object_open;
use wat_tokens_output::blank::write_blanked;
use wat_tokens_output::input::text_of;
use wat_tokens_output::json::{push_report, write_json, write_json_shown};
use wat_tokens_output::list::{buffer_of, error_of, write_lines};
use wat_tokens_output::play::play;
use wat_tokens_output::show::{Ending, ending_of, parser_of, write_shown};
use wat_types::compile_types;

/// Returns the error of the text, or the failure of the write.
fn answer(written: Result<(), Failed>, error: Option<Error>) -> Result<Option<Error>, RunFailure>
    ensures { result ≡ answered written error }
{
    match written {
        Ok(()) => Ok(error),
        Err(failed) => Err(RunFailure::Write(failed)),
    }
}

/// Returns the first lexical error of a lexer's text, or `None` if it has none.
fn error_in(alloc: Global, lexer: &Lexer<'_>) -> Result<Option<Error>, RunFailure>
    ensures error { IfOk result (ReportsEnd lexer.now) }
    ensures refused { IfErr result (λ e. e ≡ RunFailure.Memory alloc_error) }
{
    let text = lexer.input();
    match lexer.first_fault(0) {
        Some(fault) => Ok(Some(error_of(alloc, text, fault)?)),
        None => Ok(None),
    }
}

/// Writes a line for each raw token of a text, and returns its lexical error. Lexes the text twice,
/// so that every allocation precedes the first write.
fn print_raw<W: Sink>(
    alloc: Global,
    text: &str,
    settings: Settings,
    output: &mut W,
) -> Result<Option<Error>, RunFailure>
    requires text { length text.now < 2 ^ 32 }
    requires output { W.failure output.old ≡ None }
    ensures printed { Writes W.held W.failure (Lists settings text.now)
        output.old output.new result }
    ensures refused { IfErr result (λ e. IsFailedWrite e ⊎ (e ≡ RunFailure.Memory alloc_error)) }
{
    wat_lex::laws::one_tiling();
    let lexer = Lexer::with_settings(text, settings);
    let error = error_in(alloc, &lexer)?;
    answer(write_lines(&lexer, output), error)
}

/// Returns the JSON line of an error, or no bytes for `None`.
fn json_end(
    alloc: Global,
    text: &str,
    begin: &[u8],
    error: &Option<Error>,
) -> Result<Vec<u8>, AllocError>
    requires { length text.now < 2 ^ 32 }
    ensures { IfOk result (λ line. line.items ≡ json_report begin.now text.now error.now) }
{
    let mut line = Vec::new(alloc);
    if let Some(error) = error {
        push_report(alloc, &mut line, text, begin, error)?;
    }
    Ok(line)
}

/// Writes a JSON line for each raw token of a text, and then the line `last`.
fn write_rows<W: Sink>(
    lexer: &Lexer<'_>,
    begin: &[u8],
    last: &[u8],
    output: &mut W,
) -> Result<(), Failed>
    ensures written { OnOk result (AppendsRows begin.now last.now lexer.now
        (W.held output.old) (W.held output.new)) }
    ensures cut { OnErr result (AppendsRowsCut begin.now last.now lexer.now
        (W.held output.old) (W.held output.new)) }
    ensures failed { W.failure output.new ≡ failure_after (W.failure output.old) result }
{
    write_json(lexer, begin, output)?;
    if last.is_empty() {
        return Ok(());
    }
    output.write_all(last)
}

/// Writes a JSON line for each raw token of a text and one for its lexical error, and returns that
/// error. Lexes the text twice, so that every allocation precedes the first write.
fn print_json<W: Sink>(
    alloc: Global,
    text: &str,
    settings: Settings,
    file: Option<&str>,
    output: &mut W,
) -> Result<Option<Error>, RunFailure>
    requires text { length text.now < 2 ^ 32 }
    requires output { W.failure output.old ≡ None }
    ensures printed { Writes W.held W.failure
        (JsonLists settings (option_map (λ f. f.now) file.entry) text.now)
        output.old output.new result }
    ensures refused { IfErr result (λ e. IsFailedWrite e ⊎ (e ≡ RunFailure.Memory alloc_error)) }
{
    wat_lex::laws::one_tiling();
    let lexer = Lexer::with_settings(text, settings);
    let begin = object_open(alloc, file)?;
    let error = error_in(alloc, &lexer)?;
    let last = json_end(alloc, text, &begin, &error)?;
    answer(write_rows(&lexer, &begin, &last, output), error)
}

/// Writes a text with its comments replaced by spaces. If the text has a lexical error, writes
/// nothing and returns the error.
fn print_blank<W: Sink>(
    alloc: Global,
    text: &str,
    settings: Settings,
    output: &mut W,
) -> Result<Option<Error>, RunFailure>
    requires text { length text.now < 2 ^ 32 }
    requires output { W.failure output.old ≡ None }
    ensures printed { Writes W.held W.failure (Blanks settings text.now)
        output.old output.new result }
    ensures refused { IfErr result (λ e. IsFailedWrite e ⊎ (e ≡ RunFailure.Memory alloc_error)) }
{
    wat_lex::laws::one_tiling();
    laws::blank_texts();
    let lexer = Lexer::with_settings(text, settings);
    if let Some(error) = error_in(alloc, &lexer)? {
        return Ok(Some(error));
    }
    answer(write_blanked(&lexer, output), None)
}

/// Writes a line for each visible token of a text, and returns the error after them. Lexes the text
/// twice, so that every allocation precedes the first write.
fn print_shown<W: Sink>(
    alloc: Global,
    text: &str,
    settings: Settings,
    names: &[String],
    output: &mut W,
) -> Result<Option<Error>, RunFailure>
    requires text { length text.now < 2 ^ 32 }
    requires output { W.failure output.old ≡ None }
    ensures printed { Writes W.held W.failure (Shows settings names.now text.now)
        output.old output.new result }
    ensures refused { IfErr result (λ e. IsFailedWrite e ⊎ (e ≡ RunFailure.Memory alloc_error)) }
{
    laws::all_shown();
    let buffer = buffer_of(alloc, text, settings);
    let mut parser = parser_of(&buffer, names)?;
    let Ending { count, error } = ending_of(&mut parser)?;
    answer(write_shown(&mut parser, count, output), error)
}

/// Writes a JSON line for each visible token of a text and one for the error after them, and
/// returns that error. Lexes the text twice, so that every allocation precedes the first write.
fn print_json_shown<W: Sink>(
    alloc: Global,
    text: &str,
    settings: Settings,
    file: Option<&str>,
    names: &[String],
    output: &mut W,
) -> Result<Option<Error>, RunFailure>
    requires text { length text.now < 2 ^ 32 }
    requires output { W.failure output.old ≡ None }
    ensures printed { Writes W.held W.failure (JsonShows settings
        (option_map (λ f. f.now) file.entry) names.now text.now) output.old output.new result }
    ensures refused { IfErr result (λ e. IsFailedWrite e ⊎ (e ≡ RunFailure.Memory alloc_error)) }
{
    laws::all_shown();
    let buffer = buffer_of(alloc, text, settings);
    let mut parser = parser_of(&buffer, names)?;
    let begin = object_open(alloc, file)?;
    let Ending { count, error } = ending_of(&mut parser)?;
    let last = json_end(alloc, text, &begin, &error)?;
    let written = write_json_shown(&mut parser, count, text, &begin, &last, output);
    answer(written, error)
}

/// Writes an output that is complete in memory, and returns `error`.
fn print_text<W: Sink>(
    text: &[u8],
    error: Option<Error>,
    output: &mut W,
) -> Result<Option<Error>, RunFailure>
    requires { W.failure output.old ≡ None }
    ensures printed { Writes W.held W.failure
        (λ bytes e. (bytes ≡ text.now) × (e ≡ error)) output.old output.new result }
    ensures refused { IfErr result IsFailedWrite }
{
    answer(output.write_all(text), error)
}

/// Writes the bytes of a module whose fields are all function types. If the text does not compile,
/// writes nothing and returns the error.
fn print_types<W: Sink>(
    alloc: Global,
    text: &str,
    output: &mut W,
) -> Result<Option<Error>, RunFailure>
    requires text { length text.now < 2 ^ 32 }
    requires output { W.failure output.old ≡ None }
    ensures printed { Writes W.held W.failure
        (CompilesTypes text.now) output.old output.new result }
    ensures refused { IfErr result (λ e. IsFailedWrite e ⊎ (e ≡ RunFailure.Memory alloc_error)) }
{
    wat_lex::laws::one_tiling();
    match compile_types(alloc, text) {
        Ok(module) => print_text(&module, None, output),
        Err(error) => match error.alloc_error() {
            Some(refused) => Err(RunFailure::from(refused)),
            None => print_text(b"", Some(error), output),
        },
    }
}

/// Writes the bytes of a module without a name section and custom sections. If the text does not
/// compile, writes nothing and returns the error.
fn print_unnamed<W: Sink>(
    alloc: Global,
    text: &str,
    output: &mut W,
) -> Result<Option<Error>, RunFailure>
    requires text { length text.now < 2 ^ 32 }
    requires output { W.failure output.old ≡ None }
    ensures printed { Writes W.held W.failure (CompilesUnnamed text.now)
        output.old output.new result }
    ensures refused { IfErr result (λ e. IsFailedWrite e ⊎ (e ≡ RunFailure.Memory alloc_error)) }
{
    match compile(alloc, text) {
        Ok(bytes) => print_text(&bytes, None, output),
        Err(refusal) => match refusal.alloc_error() {
            Some(refused) => Err(RunFailure::from(refused)),
            None => print_text(b"", Some(refusal), output),
        },
    }
}

/// Writes the bytes of a module with a name section and custom sections. If the text does not
/// compile, writes nothing and returns the error.
fn print_complete<W: Sink>(
    alloc: Global,
    text: &str,
    output: &mut W,
) -> Result<Option<Error>, RunFailure>
    requires text { length text.now < 2 ^ 32 }
    requires output { W.failure output.old ≡ None }
    ensures printed { Writes W.held W.failure (CompilesComplete text.now)
        output.old output.new result }
    ensures refused { IfErr result (λ e. IsFailedWrite e ⊎ (e ≡ RunFailure.Memory alloc_error)) }
{
    match compile_with_customs(alloc, text) {
        Ok(bytes) => print_text(&bytes, None, output),
        Err(failure) => match failure.alloc_error() {
            Some(refused) => Err(RunFailure::from(refused)),
            None => print_text(b"", Some(failure), output),
        },
    }
}

/// Writes the bytes of a valid module without a name section and custom sections. If the text does
/// not compile, or the module is not valid, writes nothing and returns the error.
fn print_valid_unnamed<W: Sink>(
    alloc: Global,
    text: &str,
    output: &mut W,
) -> Result<Option<Error>, RunFailure>
    requires text { length text.now < 2 ^ 32 }
    requires output { W.failure output.old ≡ None }
    ensures printed { Writes W.held W.failure (CompilesValidUnnamed text.now)
        output.old output.new result }
    ensures refused { IfErr result (λ e. IsFailedWrite e ⊎ (e ≡ RunFailure.Memory alloc_error)) }
{
    match compile_valid_without_names(alloc, text) {
        Ok(bytes) => print_text(&bytes, None, output),
        Err(report) => match report.alloc_error() {
            Some(refused) => Err(RunFailure::from(refused)),
            None => print_text(b"", Some(report), output),
        },
    }
}

/// Writes the bytes of a valid module with a name section and custom sections. If the text does not
/// compile, or the module is not valid, writes nothing and returns the error.
fn print_valid<W: Sink>(
    alloc: Global,
    text: &str,
    output: &mut W,
) -> Result<Option<Error>, RunFailure>
    requires text { length text.now < 2 ^ 32 }
    requires output { W.failure output.old ≡ None }
    ensures printed { Writes W.held W.failure (CompilesValid text.now)
        output.old output.new result }
    ensures refused { IfErr result (λ e. IsFailedWrite e ⊎ (e ≡ RunFailure.Memory alloc_error)) }
{
    match compile_valid(alloc, text) {
        Ok(bytes) => print_text(&bytes, None, output),
        Err(problem) => match problem.alloc_error() {
            Some(refused) => Err(RunFailure::from(refused)),
            None => print_text(b"", Some(problem), output),
        },
    }
}

/// Writes the bytes of a module, with a name section and custom sections if `has_names`. If the
/// text does not compile, writes nothing and returns the error.
fn print_any<W: Sink>(
    alloc: Global,
    text: &str,
    has_names: bool,
    output: &mut W,
) -> Result<Option<Error>, RunFailure>
    requires text { length text.now < 2 ^ 32 }
    requires output { W.failure output.old ≡ None }
    ensures printed { Writes W.held W.failure (CompilesAs has_names false text.now)
        output.old output.new result }
    ensures refused { IfErr result (λ e. IsFailedWrite e ⊎ (e ≡ RunFailure.Memory alloc_error)) }
{
    if has_names {
        print_complete(alloc, text, output)
    } else {
        print_unnamed(alloc, text, output)
    }
}

/// Writes the bytes of a valid module, with a name section and custom sections if `has_names`. If
/// the text does not compile, or the module is not valid, writes nothing and returns the error.
fn print_checked<W: Sink>(
    alloc: Global,
    text: &str,
    has_names: bool,
    output: &mut W,
) -> Result<Option<Error>, RunFailure>
    requires text { length text.now < 2 ^ 32 }
    requires output { W.failure output.old ≡ None }
    ensures printed { Writes W.held W.failure (CompilesAs has_names true text.now)
        output.old output.new result }
    ensures refused { IfErr result (λ e. IsFailedWrite e ⊎ (e ≡ RunFailure.Memory alloc_error)) }
{
    if has_names {
        print_valid(alloc, text, output)
    } else {
        print_valid_unnamed(alloc, text, output)
    }
}

/// Writes the bytes of a module, with these options. If the text does not compile, or the module
/// must be valid and is not, writes nothing and returns the error.
fn print_module<W: Sink>(
    alloc: Global,
    text: &str,
    options: ModuleOptions,
    output: &mut W,
) -> Result<Option<Error>, RunFailure>
    requires text { length text.now < 2 ^ 32 }
    requires output { W.failure output.old ≡ None }
    ensures printed { Writes W.held W.failure (CompilesModule options text.now)
        output.old output.new result }
    ensures refused { IfErr result (λ e. IsFailedWrite e ⊎ (e ≡ RunFailure.Memory alloc_error)) }
{
    if options.is_checked {
        print_checked(alloc, text, options.has_names, output)
    } else {
        print_any(alloc, text, options.has_names, output)
    }
}

/// Writes the output of a task for a text, and returns the error of the text. `file` is the file
/// name in lines of JSON, if they have one.
fn print_of<W: Sink>(
    alloc: Global,
    text: &str,
    settings: Settings,
    task: &Task<'_>,
    file: Option<&str>,
    output: &mut W,
) -> Result<Option<Error>, RunFailure>
    requires text { length text.now < 2 ^ 32 }
    requires output { W.failure output.old ≡ None }
    ensures printed { Writes W.held W.failure
        (task_prints settings (option_map (λ f. f.now) file.entry) task.now text.now)
        output.old output.new result }
    ensures refused { IfErr result (λ e. IsFailedWrite e ⊎ (e ≡ RunFailure.Memory alloc_error)) }
{
    match task {
        Task::List => print_raw(alloc, text, settings, output),
        Task::Sig(names) => print_shown(alloc, text, settings, names, output),
        Task::JsonList => print_json(alloc, text, settings, file, output),
        Task::JsonSig(names) => print_json_shown(alloc, text, settings, file, names, output),
        Task::Play(calls) => {
            let replies = play(alloc, text, settings, calls.as_slice())?;
            print_text(&replies, None, output)
        }
        Task::Blank => print_blank(alloc, text, settings, output),
        Task::Types => print_types(alloc, text, output),
        Task::Module(options) => print_module(alloc, text, *options, output),
    }
}

/// Writes the output of a task for bytes, and returns the error of their text. `file` is the file
/// name in lines of JSON, if they have one.
///
/// # Errors
///
/// Fails if the bytes are not UTF-8, or if a write or an allocation fails.
pub fn print<W: Sink>(
    alloc: Global,
    bytes: &[u8],
    settings: Settings,
    task: &Task<'_>,
    file: Option<&str>,
    output: &mut W,
) -> Result<Option<Error>, RunFailure>
    requires bytes { length bytes.now < 2 ^ 32 }
    requires output { W.failure output.old ≡ None }
    ensures printed { Writes W.held W.failure
        (task_prints settings (option_map (λ f. f.now) file.entry) task.now bytes.now)
        output.old output.new result }
    ensures not_utf8 { (offset : ℕ) →
        IsErrOf result (RunFailure.NotUtf8 offset) ↔ IsValidUpTo bytes.now offset }
    ensures refused { IfErr result (λ e. IsNotUtf8 e ⊎
        (IsFailedWrite e ⊎ (e ≡ RunFailure.Memory alloc_error))) }
{
    match text_of(bytes) {
        Ok(text) => print_of(alloc, text, settings, task, file, output),
        Err(error) => Err(error),
    }
}
