//! The file that `fmt --write` replaces, as it was when it was opened.
use crate::kept::Kept;
use std::fs::{File, Metadata};
use std::os::unix::fs::{MetadataExt, fchown};
use std::path::PathBuf;
use std::{fs, io};

/// Returns the path to which a symbolic link resolves, or `None` if the file is not a link.
pub fn link_target(rt: &HostRuntime, file: &str) -> io::Result<Option<PathBuf>> {
    if !fs::symlink_metadata(rt, file)?.is_symlink() {
        return Ok(None);
    }
    Ok(Some(fs::canonicalize(rt, file)?))
}

/// Returns the metadata if it is that of a regular file.
fn regular(found: io::Result<Metadata>) -> Result<Metadata, Kept> {
    match found {
        Ok(metadata) if metadata.is_file() => Ok(metadata),
        Ok(_) => Err(Kept::Special),
        Err(error) => Err(Kept::Unopened(error)),
    }
}

/// Returns `true` if both are metadata of one file, which did not change between them. Any change
/// of a file sets its `ctime`, also one of its permissions or its owner.
fn are_same(before: &Metadata, now: &Metadata) -> bool {
    let one_file = before.dev() == now.dev() && before.ino() == now.ino();
    let unwritten = before.len() == now.len() && before.modified().ok() == now.modified().ok();
    let unchanged = before.ctime() == now.ctime() && before.ctime_nsec() == now.ctime_nsec();
    one_file && unwritten && unchanged
}

/// The metadata of a regular file when it was opened.
#[derive(Drop)]
pub struct Original {
    metadata: Metadata,
}

impl Original {
    /// Opens a regular file for reading. Rejects a FIFO before it is opened, since opening waits
    /// for a writer. A symbolic link is not a regular file.
    pub fn open(rt: &HostRuntime, path: &str) -> Result<(File, Original), Kept> {
        regular(fs::symlink_metadata(rt, path))?;
        match File::open(rt, path) {
            Ok(file) => {
                let metadata = regular(file.metadata())?;
                Ok((file, Original { metadata }))
            }
            Err(error) => Err(Kept::Unopened(error)),
        }
    }

    /// Returns `true` if nobody has the permission to write the file.
    pub fn is_read_only(&self) -> bool {
        self.metadata.permissions().readonly()
    }

    /// Gives a new file the owner, the group and the permissions of this file, in this order, so
    /// that no one gets a permission that this file does not grant.
    pub fn give_access(&self, file: &File) -> Result<(), Kept> {
        let created = file.metadata()?;
        let (owner, group) = (self.metadata.uid(), self.metadata.gid());
        let is_given = created.uid() == owner && created.gid() == group;
        if !is_given && fchown(file, Some(owner), Some(group)).is_err() {
            return Err(Kept::Owner);
        }
        file.set_permissions(self.metadata.permissions())?;
        Ok(())
    }

    /// Returns `true` if the path is still that of this file, and the file did not change since it
    /// was opened.
    pub fn is_unchanged(&self, rt: &HostRuntime, path: &str) -> io::Result<bool> {
        match fs::symlink_metadata(rt, path) {
            Ok(now) => Ok(are_same(&self.metadata, &now)),
            Err(error) if error.kind() == io::ErrorKind::NotFound => Ok(false),
            Err(error) => Err(error),
        }
    }
}
