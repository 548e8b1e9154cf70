//! The operating system's files, of which one is written beside another.

use crate::file_saving::folder::{Folder, Unsaved};
use std::alloc::{AllocError, Global};
use std::fs;
use std::fs::{File, OpenOptions};
use std::io::{ErrorKind, Write};

/// How many names are tried for a draft.
const NAMES: u32 = 100;

/// A file that is written beside another one.
#[derive(Drop)]
struct Draft {
    file: File,
    name: String,
}

/// The operating system's files, and the draft that is written.
#[derive(Drop)]
pub(crate) struct Host<'a> {
    files: &'a HostRuntime,
    draft: Option<Draft>,
}

impl<'a> Host<'a> {
    /// These files, before a draft.
    pub(crate) fn of(files: &'a HostRuntime) -> Host<'a> {
        Host { files, draft: None }
    }

    /// A new file beside the one of a name, which nobody else has begun.
    fn draft_beside(&self, alloc: Global, name: &str) -> Result<Draft, Unsaved> {
        for number in 0..NAMES {
            let beside = name_beside(alloc, name, number)?;
            let mut how = OpenOptions::new();
            how.write(true).create_new(true);
            match how.open(self.files, beside.as_str()) {
                Ok(file) => return Ok(Draft { file, name: beside }),
                Err(error) if error.kind() == ErrorKind::AlreadyExists => {}
                Err(_) => return Err(Unsaved::Unwritten),
            }
        }
        Err(Unsaved::Unwritten)
    }

    /// Gives a draft the permissions of the file that it is to replace, if one is there; or why
    /// nothing can replace it.
    fn take_permissions(&self, draft: &Draft, name: &str) -> Result<(), Unsaved> {
        match fs::metadata(self.files, name) {
            Ok(metadata) if metadata.is_file() => {
                match draft.file.set_permissions(metadata.permissions()) {
                    Ok(()) => Ok(()),
                    Err(_) => Err(Unsaved::Unwritten),
                }
            }
            Err(error) if error.kind() == ErrorKind::NotFound => Ok(()),
            _ => Err(Unsaved::Unwritten),
        }
    }

    /// Synchronises the directory of a file, where the operating system does that: the file stands
    /// there either way.
    fn settle(&self, name: &str) {
        let folder = match name.rfind('/') {
            Some(0) => "/",
            Some(end) => name.get(..end).unwrap_or("."),
            None => ".",
        };
        if let Ok(folder) = File::open(self.files, folder) {
            let _ = folder.sync_all();
        }
    }
}

impl<'a> Folder for Host<'a> {
    fn begin(&mut self, alloc: Global, name: &str) -> Result<(), Unsaved> {
        let draft = self.draft_beside(alloc, name)?;
        let taken = self.take_permissions(&draft, name);
        self.draft = Some(draft);
        if taken.is_err() {
            self.discard();
        }
        taken
    }

    fn add(&mut self, bytes: &[u8]) -> Result<(), Unsaved> {
        match &mut self.draft {
            Some(draft) => match draft.file.write_all(bytes) {
                Ok(()) => Ok(()),
                Err(_) => Err(Unsaved::Unwritten),
            },
            None => Err(Unsaved::Unwritten),
        }
    }

    fn put(&mut self, name: &str) -> Result<(), Unsaved> {
        let Some(Draft { file, name: beside }) = self.draft.take() else {
            return Err(Unsaved::Unwritten);
        };
        if file.sync_all().is_err() || fs::rename(self.files, beside.as_str(), name).is_err() {
            let _ = fs::remove_file(self.files, beside.as_str());
            return Err(Unsaved::Unwritten);
        }
        self.settle(name);
        Ok(())
    }

    fn discard(&mut self) {
        if let Some(draft) = self.draft.take() {
            let _ = fs::remove_file(self.files, draft.name.as_str());
        }
    }
}

/// A name for a draft beside the file of this name.
fn name_beside(alloc: Global, name: &str, number: u32) -> Result<String, AllocError> {
    let mut beside = String::from_str(alloc, name)?;
    beside.push('.')?;
    beside.push_str(number.to_string(alloc)?.as_str())?;
    beside.push_str(".part")?;
    Ok(beside)
}
