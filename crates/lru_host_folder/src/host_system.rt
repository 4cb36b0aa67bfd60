//! The operating system that the program runs on.
ghost use Rattle.std.specs.Prelude.{OnOk};
ghost use Rattle.std.specs.Io.{ReadsAtMost};
ghost use Rattle.std.specs.Io.KnownBytes.{Appends, Keeps, ReadConsumes};

use crate::claim::Claim;
use crate::system::System;
use log::{Log, warn};
use std::alloc::{AllocGlobal, Allocator, Global};
use std::fs::{DirEntry, Metadata, OpenFile, OpenOptions};
use std::io::{ErrorKind, Read, Write};
use std::os::unix::fs::MetadataExt;
use std::rt::Files;
use std::{fs, io};

/// The files that a runtime reaches, and its log. Nothing is known of them, so no note is kept.
#[derive(Drop)]
pub struct HostSystem<R> {
    rt: R,
}

impl<R> HostSystem<R> {
    /// The system of this runtime.
    pub(crate) fn new(rt: R) -> Self {
        HostSystem { rt }
    }
}

/// Whether both tell of one file.
fn is_same(one: &Metadata, other: &Metadata) -> bool {
    one.dev() == other.dev() && one.ino() == other.ino()
}

/// Whether an entry of a folder is a file; one that has vanished meanwhile is none.
fn is_file<R: Files, A: Allocator>(entry: &DirEntry<R, A>) -> io::Result<bool> {
    match entry.file_type() {
        Ok(kind) => Ok(kind.is_file()),
        Err(error) if error.kind() == ErrorKind::NotFound => Ok(false),
        Err(error) => Err(error),
    }
}

impl<R: Files + Log + AllocGlobal + Clone + Drop> System for HostSystem<R>
where
    R::File: Claim,
{
    ghost use Rattle.lru_host_folder.specs.Calls.{without_notes};

    type File = R::File;

    ghost book = { without_notes };

    fn alloc(&self) -> Global {
        self.rt.alloc()
    }

    fn warn(&self, call: &str, path: &str, error: &io::Error) {
        warn!(self.rt; "failed to {call} {path}: {error}");
    }

    fn is_file(&mut self, path: &str) -> io::Result<bool> {
        Ok(fs::symlink_metadata(&self.rt, path)?.is_file())
    }

    fn is_folder(&mut self, dir: &str) -> io::Result<bool> {
        Ok(fs::metadata(&self.rt, dir)?.is_dir())
    }

    // No link and no other folder's file is written through.
    fn create(&mut self, path: &str) -> io::Result<R::File> {
        OpenOptions::new()
            .write(true)
            .create_new(true)
            .open(&self.rt, path)
    }

    fn open(&mut self, path: &str) -> io::Result<R::File> {
        fs::open(&self.rt, path)
    }

    fn len(&mut self, file: &R::File) -> io::Result<u64> {
        Ok(file.metadata()?.len())
    }

    fn lock(&mut self, file: &R::File) -> bool {
        file.claim()
    }

    fn is_at(&mut self, file: &R::File, path: &str) -> io::Result<bool> {
        Ok(is_same(&file.metadata()?, &fs::symlink_metadata(&self.rt, path)?))
    }

    // Of a file whose bytes are known, all of the piece is put behind them.
    fn write(&mut self, file: &mut R::File, piece: &[u8]) -> io::Result<()>
        ensures bytes { OnOk result (Appends (R.File.contents file.old) (R.File.contents file.new) piece.now) }
    {
        file.write_all(piece)
    }

    fn flush(&mut self, file: &mut R::File) -> io::Result<()>
        ensures bytes { Keeps (R.File.contents file.old) (R.File.contents file.new) }
    {
        file.flush()
    }

    fn sync(&mut self, file: &mut R::File) -> io::Result<()> {
        file.sync_all()
    }

    // Of a file whose bytes are known, the next of them are read.
    fn read(&mut self, file: &mut R::File, piece: &mut [u8]) -> io::Result<usize>
        ensures bound { ReadsAtMost result piece.new }
        ensures bytes { ReadConsumes (R.File.remaining file.old) (R.File.remaining file.new) result piece.new }
    {
        file.read(piece)
    }

    // A file is closed where it is dropped.
    fn close(&mut self, _file: R::File) {}

    fn rename(&mut self, from: &str, to: &str) -> io::Result<()> {
        fs::rename(&self.rt, from, to)
    }

    fn remove(&mut self, path: &str) -> io::Result<()> {
        fs::remove_file(&self.rt, path)
    }

    fn make_folder(&mut self, dir: &str) -> io::Result<()> {
        fs::create_dir(&self.rt, dir)
    }

    fn sync_folder(&mut self, dir: &str) -> io::Result<()> {
        fs::open(&self.rt, dir)?.sync_all()
    }

    fn list(&mut self, dir: &str) -> io::Result<(Vec<String>, usize)> {
        let alloc = self.rt.alloc();
        let mut names = Vec::new(alloc);
        let mut unreadable = 0usize;
        for entry in fs::read_dir(&self.rt, dir)? {
            match entry {
                Ok(entry) => {
                    if is_file(&entry)? {
                        names.push(String::from_str(alloc, entry.file_name())?)?;
                    }
                }
                Err(error) if error.kind() == ErrorKind::InvalidFilename => {
                    unreadable = unreadable.saturating_add(1);
                }
                Err(error) => return Err(error),
            }
        }
        Ok((names, unreadable))
    }
}
