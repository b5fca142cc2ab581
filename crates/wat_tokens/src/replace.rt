//! Atomic replacement of a file.
use crate::kept::Kept;
use crate::original::Original;
use std::fs::{File, OpenOptions};
use std::io::Write;
use std::os::unix::fs::OpenOptionsExt;
use std::{fs, io};

/// Replaces the contents of a file by `text`. Writes a temporary file next to it, with its owner,
/// group and permissions, and renames that file to `target`.
///
/// # Errors
///
/// Returns the reason if a step fails, or if the file at `target` is no longer the unchanged
/// `original`. The file is then left as it is.
pub fn replace(
    rt: &HostRuntime,
    target: &str,
    original: &Original,
    text: &str,
) -> Result<(), Kept> {
    if original.is_read_only() {
        return Err(Kept::ReadOnly);
    }
    let temporary = format!(in rt.alloc(); "{target}.wat_tokens")?;
    let file = match create_private(rt, temporary.as_str()) {
        Ok(file) => file,
        Err(error) => return Err(not_created(temporary, error)),
    };
    let mut done = fill(file, original, text);
    if done.is_ok() {
        done = rename_over(rt, temporary.as_str(), target, original);
    }
    if done.is_err() {
        let _ = fs::remove_file(rt, temporary.as_str());
    }
    done
}

/// Creates a file that only its owner can open.
fn create_private(rt: &HostRuntime, path: &str) -> io::Result<File> {
    OpenOptions::new()
        .write(true)
        .create_new(true)
        .mode(0o600)
        .open(rt, path)
}

/// Returns the reason that a temporary file was not created.
fn not_created(temporary: String, error: io::Error) -> Kept {
    match error.kind() {
        io::ErrorKind::AlreadyExists => Kept::Busy(temporary),
        _ => Kept::NotCreated(temporary, error),
    }
}

/// Gives a temporary file the owner, the group and the permissions of the original, then writes its
/// contents, and syncs it to the disk.
fn fill(mut file: File, original: &Original, text: &str) -> Result<(), Kept> {
    original.give_access(&file)?;
    file.write_all(text.as_bytes())?;
    file.sync_all()?;
    Ok(())
}

/// Renames a temporary file to the path of the original, unless the original has changed.
fn rename_over(
    rt: &HostRuntime,
    temporary: &str,
    target: &str,
    original: &Original,
) -> Result<(), Kept> {
    if !original.is_unchanged(rt, target)? {
        return Err(Kept::Changed);
    }
    fs::rename(rt, temporary, target)?;
    Ok(())
}
