//! A file as one that a session is kept in. `kept_open.rt` makes it of the file that it has opened.
ghost use Rattle.std.specs.Prelude.{◌≡◌, false};

use crate::places::Place;
use crate::renewal::{copy_part, write_anew};
use std::fs::{File, OpenOptions};
use std::io;
use std::io::Write;
use std::os::unix::fs::FileExt;
use std::rt::Files;
use street_line::KeptFile;
use street_stream::WriteAheadLog;

/// A file that is read from its begin and written behind its end. What it holds is not known.
#[derive(Drop)]
pub(crate) struct LogFile<'r, 'a, R> {
    rt: &'r R,
    place: &'r Place<'a>,
    file: File,
    syncs: bool,
    length: u64,
    synced: u64,
    has_failed: bool,
}

impl<'r, 'a, R> LogFile<'r, 'a, R> {
    /// A file of which nothing has failed yet, and where it stands; `syncs` tells whether it is to outlive the machine.
    pub(crate) fn new(
        rt: &'r R,
        place: &'r Place<'a>,
        file: File,
        syncs: bool,
    ) -> LogFile<'r, 'a, R>
        ensures { result.has_failed ≡ false }
    {
        LogFile {
            rt,
            place,
            file,
            syncs,
            length: 0,
            synced: 0,
            has_failed: false,
        }
    }
}

impl<'r, 'a, R: Eprint + Files<File = File>> LogFile<'r, 'a, R> {
    /// Has the file hold its first bytes alone. What stands behind them is saved first.
    ///
    /// # Errors
    ///
    /// That of the file, of the one beside it or of their folder.
    fn begin_anew(&mut self, size: u64) -> io::Result<()>
        ensures { self.new.has_failed ≡ self.old.has_failed }
    {
        let length = self.file.metadata()?.len();
        if length > size {
            self.save_behind(size, length)?;
        }
        if self.syncs {
            match write_anew(self.rt, self.place, &self.file, size)? {
                Some(file) => self.file = file,
                None => self.cut_behind(size)?,
            }
        } else if length > size {
            self.file.set_len(size)?;
        }
        self.length = size;
        self.synced = size;
        Ok(())
    }

    /// Appends the bytes of this file from `size` to `length` to the file of its lost bytes (`.lost`), syncs that file and its folder where
    /// syncs are asked for, and tells it on standard error.
    ///
    /// # Errors
    ///
    /// That of either file, or of their folder.
    fn save_behind(&self, size: u64, length: u64) -> io::Result<()> {
        let mut lost = OpenOptions::new()
            .append(true)
            .create(true)
            .open(self.rt, &self.place.lost)?;
        copy_part(&self.file, &mut lost, size, length)?;
        if self.syncs {
            lost.sync_all()?;
            self.place.sync_folder(self.rt)?;
        }
        let bytes = length.saturating_sub(size);
        let name = self.place.told;
        let lost = &self.place.lost;
        let _ = eprintln!(self.rt;
            "streetsim: {bytes} bytes behind the lines of {name} are now in {lost}"
        );
        Ok(())
    }

    /// Cuts the file off behind its first bytes, and syncs it.
    ///
    /// # Errors
    ///
    /// That of the file.
    fn cut_behind(&self, size: u64) -> io::Result<()> {
        self.file.set_len(size)?;
        self.file.sync_all()
    }
}

impl<'r, 'a, R> WriteAheadLog for LogFile<'r, 'a, R> {
    ghost use Rattle.std.specs.Prelude.{◌≡◌, None, true};

    ghost held = { λ log. None };

    ghost synced = { λ log. None };

    ghost has_failed = { λ log. log.has_failed ≡ true };

    /// Writes these bytes behind the end of the file, or the first of them, and answers how many. Notes a failure.
    fn append(&mut self, bytes: &[u8]) -> io::Result<usize> {
        let result = self.file.write(bytes);
        match result {
            Ok(0) | Err(_) => self.has_failed = true,
            Ok(count) => self.length = self.length.saturating_add(count as u64),
        }
        result
    }

    /// Has what was written outlive the machine, where that is asked for; else does nothing. Notes a failure.
    fn sync(&mut self) -> io::Result<()> {
        if !self.syncs {
            return Ok(());
        }
        let result = self.file.sync_data();
        match result {
            Ok(()) => self.synced = self.length,
            Err(_) => self.has_failed = true,
        }
        result
    }
}

impl<'r, 'a, R: Eprint + Files<File = File>> KeptFile for LogFile<'r, 'a, R> {
    ghost use Rattle.std.specs.Prelude.{⊤};

    ghost withdrawn = { λ log. ⊤ };

    /// Reads the bytes from a place on.
    fn read_at(&self, at: u64, buffer: &mut [u8]) -> io::Result<usize> {
        FileExt::read_at(&self.file, buffer, at)
    }

    /// Writes the first bytes of the file into a new one, which then has its name; where it is not to outlive the machine, or can not
    /// be replaced, it is cut off. Notes a failure.
    fn renew(&mut self, size: u64) -> io::Result<()> {
        let result = self.begin_anew(size);
        if result.is_err() {
            self.has_failed = true;
        }
        result
    }

    /// Cuts off what is not synced.
    fn withdraw(&mut self) {
        if self.syncs {
            let _ = self.cut_behind(self.synced);
        }
    }
}
