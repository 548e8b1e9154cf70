//! Files of the operating system that are saved.

use crate::file_saving::{Saving, Unsaved};
use bytes::Bytes;
use std::fs::Permissions;
use std::os::unix::fs::PermissionsExt;
use std::test::Fail;
use std::{fs, io};

/// The bytes of both texts that are saved.
const BOTH: &[u8] = b"one two";

/// Saves two texts as a file.
fn saved(rt: &HostRuntime, name: &str) -> Result<(), Unsaved> {
    let texts = [Bytes::from_static(b"one "), Bytes::from_static(b"two")];
    rt.save(rt.alloc(), name, &texts)
}

/// Whether the file has both texts, and no draft stands beside it.
fn has_both(rt: &HostRuntime, name: &str, draft: &str) -> io::Result<bool> {
    let found = fs::read(rt, name)?;
    Ok(found.as_slice() == BOTH && !fs::exists(rt, draft)?)
}

#[test]
fn a_new_file_is_saved(rt: HostRuntime) -> Result<(), Fail> {
    assert!(rt; saved(&rt, "new.264") == Ok(()));
    assert!(rt; has_both(&rt, "new.264", "new.264.0.part")?);
    fs::remove_file(&rt, "new.264")?;
    Ok(())
}

#[test]
fn a_file_is_replaced_and_keeps_its_permissions(rt: HostRuntime) -> Result<(), Fail> {
    fs::write(&rt, "old.264", b"what stood there before")?;
    fs::set_permissions(&rt, "old.264", Permissions::from_mode(0o600))?;
    assert!(rt; saved(&rt, "./old.264") == Ok(()));
    assert!(rt; has_both(&rt, "old.264", "old.264.0.part")?);
    let mode = fs::metadata(&rt, "old.264")?.permissions().mode();
    assert!(rt; mode & 0o777 == 0o600);
    fs::remove_file(&rt, "old.264")?;
    Ok(())
}

#[test]
fn a_draft_of_another_is_left(rt: HostRuntime) -> Result<(), Fail> {
    fs::write(&rt, "kept.264.0.part", b"another's")?;
    assert!(rt; saved(&rt, "kept.264") == Ok(()));
    assert!(rt; has_both(&rt, "kept.264", "kept.264.1.part")?);
    let left = fs::read(&rt, "kept.264.0.part")?;
    assert!(rt; left.as_slice() == b"another's".as_slice());
    fs::remove_file(&rt, "kept.264.0.part")?;
    fs::remove_file(&rt, "kept.264")?;
    Ok(())
}

#[test]
fn what_stands_in_the_place_is_left(rt: HostRuntime) -> Result<(), Fail> {
    fs::create_dir(&rt, "folder.264")?;
    assert!(rt; saved(&rt, "folder.264") == Err(Unsaved::Unwritten));
    assert!(rt; !fs::exists(&rt, "folder.264.0.part")?);
    fs::remove_dir(&rt, "folder.264")?;
    assert!(rt; saved(&rt, "none/new.264") == Err(Unsaved::Unwritten));
    assert!(rt; saved(&rt, "") == Err(Unsaved::Unwritten));
    assert!(rt; !fs::exists(&rt, ".0.part")?);
    Ok(())
}

#[test]
fn refused_save(rt: HostRuntime) {
    let first = saved(&rt, "refused.264");
    if first == Err(Unsaved::Memory) {
        assert!(rt; saved(&rt, "refused.264") == Ok(()));
    } else {
        assert!(rt; first == Ok(()));
    }
    assert!(rt; fs::remove_file(&rt, "refused.264").is_ok());
}
