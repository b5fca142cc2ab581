//! The option `--write` of `fmt`.
use crate::original::{Original, link_target};
use crate::replace::replace;
use crate::report::{complain, not_opened, report};
use wat_tokens_run::Settings;
use wat_tokens_run::ends::Plain;
use wat_tokens_run::fmt::{Compared, run_compare};
use wat_tokens_run::outcome::{Exit, Outcome};

/// Replaces a file that was named on the command line by its formatted text if they differ, and
/// returns the exit status. If the file is a symbolic link, the file to which it resolves is
/// replaced. Rejects `-`, which is standard input.
pub fn rewrite_named(rt: &HostRuntime, settings: Settings, file: &str) -> Exit {
    if file == "-" {
        return complain(rt, file, &"no file to write");
    }
    match link_target(rt, file) {
        Ok(Some(target)) => rewrite(rt, settings, file, target.as_str()),
        Ok(None) => rewrite(rt, settings, file, file),
        Err(error) => not_opened(rt, file, &error),
    }
}

/// Replaces the file at the path `target` by its formatted text if they differ, and returns the
/// exit status. Does not follow a symbolic link at `target`. Reports name the file `file`.
pub fn rewrite(rt: &HostRuntime, settings: Settings, file: &str, target: &str) -> Exit {
    let (opened, original) = match Original::open(rt, target) {
        Ok(opened) => opened,
        Err(kept) => return complain(rt, file, &kept),
    };
    match run_compare(rt.alloc(), &mut Plain::new(opened), settings) {
        Ok(Compared::Same) => Exit::idle(),
        Ok(Compared::Other(text)) => match replace(rt, target, &original, text.as_str()) {
            Ok(()) => Exit::idle(),
            Err(kept) => complain(rt, file, &kept),
        },
        Ok(Compared::Longer) => complain(rt, file, &"its layout is too long"),
        Ok(Compared::Faulty(error)) => report(rt, file, &Outcome::Faulty(error)),
        Err(error) => report(rt, file, &Outcome::Refused(error)),
    }
}
