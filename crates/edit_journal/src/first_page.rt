//! The first page of a new journal's file.

use crate::fault::JournalFault;
use std::alloc::{AllocError, Global};
use std::fs::{File, TryLockError};
use std::io::{self, ErrorKind, Read};
use std::os::unix::fs::FileExt;

/// How many bytes a page has.
const PAGE: usize = 4096;

/// What the page begins with: the header of a database without tables, with application_id and user_version.
const HEAD: [u8; 108] = [
    83, 81, 76, 105, 116, 101, 32, 102, 111, 114, 109, 97, 116, 32, 51, 0, 16, 0, 2, 2, 8, 64, 32,
    32, 0, 0, 0, 1, 0, 0, 0, 1, 0, 0, 0, 0, 0, 0, 0, 0, 0, 0, 0, 0, 0, 0, 0, 4, 0, 0, 0, 0, 0, 0,
    0, 0, 0, 0, 0, 1, 0, 0, 0, 2, 0, 0, 0, 0, 67, 80, 74, 76, 0, 0, 0, 0, 0, 0, 0, 0, 0, 0, 0, 0,
    0, 0, 0, 0, 0, 0, 0, 0, 0, 0, 0, 1, 0, 46, 153, 177, 13, 0, 0, 0, 0, 15, 248, 0,
];

/// What it ends with: the sum of its bytes.
const SUM: [u8; 8] = [93, 213, 199, 35, 30, 251, 67, 130];

/// The page.
fn first_page(alloc: Global) -> Result<Vec<u8>, AllocError> {
    let mut page = Vec::with_capacity(alloc, PAGE)?;
    page.extend_from_slice(&HEAD)?;
    page.resize(PAGE - SUM.len(), 0)?;
    page.extend_from_slice(&SUM)?;
    Ok(page)
}

/// Whether these bytes are those of the first page, at this place.
fn agrees(head: &[u8], from: usize, to: usize) -> bool {
    head.get(from..to).is_some() && head.get(from..to) == HEAD.get(from..to)
}

/// Whether a file that begins so is a journal: a database, by its user_version and application_id.
fn is_marked(head: &[u8]) -> bool {
    agrees(head, 0, 16) && agrees(head, 60, 64) && agrees(head, 68, 72)
}

fn fault_of(error: io::Error) -> JournalFault {
    match error.kind() {
        ErrorKind::OutOfMemory => JournalFault::Memory,
        ErrorKind::StorageFull => JournalFault::Full,
        _ => JournalFault::Failed,
    }
}

/// The file, of which nothing is read yet. It is made where it isn't there.
fn open_file(rt: &HostRuntime, path: &str) -> Result<File, JournalFault> {
    match File::options()
        .read(true)
        .write(true)
        .create(true)
        .open(rt, path)
    {
        Ok(file) => Ok(file),
        Err(error) => Err(fault_of(error)),
    }
}

/// Takes the file's lock, which holds until it is closed.
fn lock(file: &File) -> Result<(), JournalFault> {
    match file.try_lock() {
        Ok(()) => Ok(()),
        Err(TryLockError::WouldBlock) => Err(JournalFault::Locked),
        Err(TryLockError::Error(error)) => Err(fault_of(error)),
    }
}

/// The first bytes of the file, at most those of a page.
fn head_of(alloc: Global, file: &mut File) -> Result<Vec<u8>, JournalFault> {
    let mut head = Vec::new(alloc);
    match file.take(PAGE as u64).read_to_end(&mut head) {
        Ok(_) => Ok(head),
        Err(error) => Err(fault_of(error)),
    }
}

fn write_page(file: &File, page: &[u8]) -> io::Result<()> {
    file.write_all_at(page, 0)?;
    file.sync_all()
}

/// Writes the first page where the file ends within it, and refuses a file that is no journal, or whose first page another
/// process reads or writes just now. What is read and written is so under the file's lock.
pub(crate) fn prepare(rt: &HostRuntime, path: &str) -> Result<(), JournalFault> {
    let page = first_page(rt.alloc())?;
    let mut file = open_file(rt, path)?;
    lock(&file)?;
    let head = head_of(rt.alloc(), &mut file)?;
    if head.len() < PAGE && page.starts_with(&head) {
        match write_page(&file, &page) {
            Ok(()) => Ok(()),
            Err(error) => Err(fault_of(error)),
        }
    } else if is_marked(&head) {
        Ok(())
    } else {
        Err(JournalFault::NotAJournal)
    }
}
