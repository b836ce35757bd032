//! A file that is written anew, under its name. After a sync that failed the system may show bytes that are not on the disk,
//! and a later sync of the same file may succeed all the same: so what is read is written into a new file. `log_file.rt` calls
//! it.

use crate::places::Place;
use std::fs::{File, OpenOptions};
use std::io::{ErrorKind, Write};
use std::os::fd::AsFd;
use std::os::unix::fs::{FileExt, MetadataExt, fchown};
use std::rt::Files;
use std::{fs, io};
use street_stream::READ_SIZE;

/// Writes the first bytes of a file into a new one, which is locked, has that stay, and gives it the name of the old one. None where the file
/// can not be replaced: its folder can not be written, it has several names, or its name is a mount point.
///
/// # Errors
///
/// That of either file, or of their folder. The name is that of the old file or of the new one.
pub(crate) fn write_anew<R: Files<File = File>>(
    rt: &R,
    place: &Place<'_>,
    file: &File,
    size: u64,
) -> io::Result<Option<File>> {
    if file.metadata()?.nlink() > 1 {
        return Ok(None);
    }
    // One that is there was left by a program that ended, since this one holds the lock of the file.
    let _ = fs::remove_file(rt, &place.fresh);
    let fresh = OpenOptions::new()
        .read(true)
        .append(true)
        .create_new(true)
        .open(rt, &place.fresh);
    let replaced = match fresh {
        Ok(mut fresh) => match replace(rt, place, file, &mut fresh, size) {
            Ok(()) => Ok(fresh),
            Err(error) => {
                let _ = fs::remove_file(rt, &place.fresh);
                Err(error)
            }
        },
        Err(error) => Err(error),
    };
    match replaced {
        Ok(fresh) => {
            place.sync_folder(rt)?;
            Ok(Some(fresh))
        }
        Err(error) if stays(&error) => Ok(None),
        Err(error) => Err(error),
    }
}

/// Whether a file that could not be replaced for this error can be none the less cut off.
fn stays(error: &io::Error) -> bool {
    matches!(
        error.kind(),
        ErrorKind::PermissionDenied
            | ErrorKind::ReadOnlyFilesystem
            | ErrorKind::InvalidFilename
            | ErrorKind::ResourceBusy
            | ErrorKind::CrossesDevices
    )
}

/// Gives a new file the rights, the owner, the first bytes and then the name of another. It is locked before it has the name.
///
/// # Errors
///
/// That of either file. The name is still that of the other.
fn replace<R: Files<File = File>>(
    rt: &R,
    place: &Place<'_>,
    file: &File,
    fresh: &mut File,
    size: u64,
) -> io::Result<()> {
    let (old, new) = (file.metadata()?, fresh.metadata()?);
    if old.uid() != new.uid() || old.gid() != new.gid() {
        fchown(fresh.as_fd(), Some(old.uid()), Some(old.gid()))?;
    }
    fresh.set_permissions(old.permissions())?;
    fresh.try_lock()?;
    copy_part(file, fresh, 0, size)?;
    fresh.sync_all()?;
    fs::rename(rt, &place.fresh, &place.file)
}

/// Appends the bytes of a file from one place to another to a second file.
///
/// # Errors
///
/// That of either file, also where the first ends before.
pub(crate) fn copy_part(file: &File, to: &mut File, from: u64, end: u64) -> io::Result<()> {
    let mut buffer = [0u8; READ_SIZE];
    let mut at = from;
    for _ in 0..u64::MAX {
        let rest = usize::try_from(end.saturating_sub(at)).unwrap_or(READ_SIZE);
        if rest == 0 {
            break;
        }
        let count = file.read_at(&mut buffer[..rest.min(READ_SIZE)], at)?;
        if count == 0 {
            return Err(io::Error::from(ErrorKind::UnexpectedEof));
        }
        to.write_all(&buffer[..count])?;
        at = at.saturating_add(count as u64);
    }
    Ok(())
}
