//! A system for tests, which keeps no file: it tells which calls it was asked for, and one of them fails.
use lru_host_folder::system::System;
use std::alloc::{AllocError, Global};
use std::io;
use std::io::ErrorKind;

/// An open file of no system.
#[derive(Drop)]
pub struct Opened;

/// What it is asked for, a call a line, and which of its calls fails with which kind of error.
#[derive(Drop)]
pub struct Script {
    alloc: Global,
    told: String,
    calls: usize,
    failing: usize,
    kind: ErrorKind,
    leftover: bool,
}

impl Script {
    /// A system whose calls fail at that place, counted from 0. The first file that is created is there already, if so said.
    pub fn new(alloc: Global, failing: usize, kind: ErrorKind, leftover: bool) -> Self {
        Script {
            alloc,
            told: String::new(alloc),
            calls: 0,
            failing,
            kind,
            leftover,
        }
    }

    /// What it was asked for.
    pub fn told(&self) -> &str {
        self.told.as_str()
    }

    /// Whether the call that fails was made.
    pub fn has_failed(&self) -> bool {
        self.calls > self.failing
    }

    fn note(&mut self, call: &str, path: &str) -> Result<(), AllocError> {
        self.told.push_str(call)?;
        self.told.push_str(path)?;
        self.told.push('\n')?;
        Ok(())
    }

    fn next(&mut self, call: &str, path: &str) -> io::Result<()> {
        self.note(call, path)?;
        let place = self.calls;
        self.calls = place.saturating_add(1);
        if place == self.failing {
            return Err(io::Error::from(self.kind));
        }
        Ok(())
    }
}

impl System for Script {
    ghost use Rattle.lru_host_folder.specs.Calls.{without_notes};

    type File = Opened;

    ghost book = { without_notes };

    fn alloc(&self) -> Global {
        self.alloc
    }

    fn warn(&self, _call: &str, _path: &str, _error: &io::Error) {}

    fn is_file(&mut self, path: &str) -> io::Result<bool> {
        self.next("is file ", path)?;
        Ok(true)
    }

    fn is_folder(&mut self, dir: &str) -> io::Result<bool> {
        self.next("is folder ", dir)?;
        Ok(true)
    }

    fn create(&mut self, path: &str) -> io::Result<Opened> {
        self.next("create ", path)?;
        if self.leftover {
            self.leftover = false;
            return Err(io::Error::from(ErrorKind::AlreadyExists));
        }
        Ok(Opened)
    }

    fn open(&mut self, path: &str) -> io::Result<Opened> {
        self.next("open ", path)?;
        Ok(Opened)
    }

    fn len(&mut self, _file: &Opened) -> io::Result<u64> {
        self.next("len", "")?;
        Ok(3)
    }

    fn lock(&mut self, _file: &Opened) -> bool {
        self.next("lock", "").is_ok()
    }

    fn is_at(&mut self, _file: &Opened, path: &str) -> io::Result<bool> {
        self.next("is at ", path)?;
        Ok(true)
    }

    fn write(&mut self, _file: &mut Opened, _piece: &[u8]) -> io::Result<()> {
        self.next("write", "")
    }

    fn flush(&mut self, _file: &mut Opened) -> io::Result<()> {
        self.next("flush", "")
    }

    fn sync(&mut self, _file: &mut Opened) -> io::Result<()> {
        self.next("sync", "")
    }

    fn read(&mut self, _file: &mut Opened, piece: &mut [u8]) -> io::Result<usize> {
        self.next("read", "")?;
        for byte in piece.iter_mut() {
            *byte = b'x';
        }
        Ok(piece.len())
    }

    fn close(&mut self, _file: Opened) {
        let _told = self.note("close", "");
    }

    fn rename(&mut self, from: &str, _to: &str) -> io::Result<()> {
        self.next("rename ", from)
    }

    fn remove(&mut self, path: &str) -> io::Result<()> {
        self.next("remove ", path)
    }

    fn make_folder(&mut self, dir: &str) -> io::Result<()> {
        self.next("make ", dir)
    }

    fn sync_folder(&mut self, dir: &str) -> io::Result<()> {
        self.next("sync folder ", dir)
    }

    fn list(&mut self, dir: &str) -> io::Result<(Vec<String>, usize)> {
        self.next("list ", dir)?;
        let mut names = Vec::new(self.alloc);
        for name in ["b", "c", "a"] {
            names.push(String::from_str(self.alloc, name)?)?;
        }
        Ok((names, 1))
    }
}
