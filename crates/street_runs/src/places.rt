//! Where the file of a kept session stands. `kept_open.rt` and `log_file.rt` call it.

use crate::ProgramFault;
use crate::one_file::is_named;
use crate::outputs::of_file;
use std::alloc::{AllocError, Global};
use std::fs::{File, Metadata};
use std::rt::Files;
use std::{fs, io};

/// The names of a file that a session is kept in, and of those beside it, where no name is a symbolic link's.
#[derive(Drop)]
pub(crate) struct Place<'a> {
    /// The file, as it was named.
    pub(crate) told: &'a str,
    /// The file.
    pub(crate) file: String,
    /// The file as it is written anew.
    pub(crate) fresh: String,
    /// What was cut off it.
    pub(crate) lost: String,
}

impl<'a> Place<'a> {
    /// Where the file of this name stands, which is there.
    ///
    /// # Errors
    ///
    /// `Write` with its name, or `OutOfMemory`.
    pub(crate) fn of<R: AllocGlobal + Files<File = File>>(
        rt: &R,
        name: &'a str,
    ) -> Result<Place<'a>, ProgramFault<'a>> {
        let file = match fs::canonicalize(rt, name) {
            Ok(path) => path.into_string(),
            Err(error) => return Err(of_file(&error, ProgramFault::Write(name))),
        };
        match Place::beside(rt.alloc(), name, file) {
            Ok(place) => Ok(place),
            Err(_) => Err(ProgramFault::OutOfMemory),
        }
    }

    /// The names beside this one.
    ///
    /// # Errors
    ///
    /// `AllocError` where there was no memory for them.
    fn beside(alloc: Global, told: &'a str, file: String) -> Result<Place<'a>, AllocError> {
        let fresh = format!(in alloc; "{file}.new")?;
        let lost = format!(in alloc; "{file}.lost")?;
        Ok(Place {
            told,
            file,
            fresh,
            lost,
        })
    }

    /// Has the names in the folder outlive the machine.
    ///
    /// # Errors
    ///
    /// That of the folder.
    pub(crate) fn sync_folder<R: Files<File = File>>(&self, rt: &R) -> io::Result<()> {
        File::open(rt, folder_of(self.file.as_str()))?.sync_all()
    }

    /// Its names, and those of the files beside it.
    pub(crate) fn names(&self) -> [&str; 3] {
        [self.file.as_str(), self.fresh.as_str(), self.lost.as_str()]
    }

    /// Whether its name is that of this open file.
    pub(crate) fn is_of<R: Files<File = File>>(&self, rt: &R, found: &Metadata) -> bool {
        is_named(rt, self.file.as_str(), found)
    }
}

/// The folder that a file of this name is in: all before the last `/`, and `.` where there is none.
fn folder_of(name: &str) -> &str {
    match name.rsplit_once('/') {
        Some(("", _name)) => "/",
        Some((folder, _name)) => folder,
        None => ".",
    }
}
