//! A runtime for tests, whose folders list one name more, which no file has.
use std::alloc::{Alloc, Allocator, Global};
use std::fs::{Metadata, OpenOptions};
use std::io;
use std::io::Read;
use std::rt::Files;

/// The names of a folder, each ended by a NUL, behind a first one that has no file, or is no UTF-8.
#[derive(Drop)]
pub struct Names<D> {
    rest: D,
    has_vanished: bool,
    is_begun: bool,
}

impl<D: Read> Read for Names<D> {
    fn read(&mut self, buf: &mut [u8]) -> io::Result<usize> {
        if self.is_begun {
            return self.rest.read(buf);
        }
        let first = if self.has_vanished {
            b"c.0.0000002b.tmp\0".as_slice()
        } else {
            b"c.\xff.tmp\0".as_slice()
        };
        if buf.len() < first.len() {
            return Err(io::Error::from(io::ErrorKind::InvalidInput));
        }
        buf[..first.len()].copy_from_slice(first);
        self.is_begun = true;
        Ok(first.len())
    }
}

/// The runtime, which is the inner one in all else.
#[derive(Clone, Copy)]
pub struct OddNames<R> {
    rt: R,
    has_vanished: bool,
}

impl<R> OddNames<R> {
    /// With a name that is no UTF-8.
    pub fn new(rt: R) -> Self {
        OddNames {
            rt,
            has_vanished: false,
        }
    }

    /// With a name whose file has vanished.
    pub fn vanished(rt: R) -> Self {
        OddNames {
            rt,
            has_vanished: true,
        }
    }
}

impl<R: AllocGlobal> Alloc for OddNames<R> {
    type A = Global;

    fn alloc(&self) -> Global {
        self.rt.alloc()
    }
}

impl<R: Files> Files for OddNames<R> {
    type File = R::File;

    type Dir = Names<R::Dir>;

    fn open_file(&self, how: &OpenOptions, path: &str) -> io::Result<R::File> {
        self.rt.open_file(how, path)
    }

    fn open_dir(&self, path: &str) -> io::Result<Names<R::Dir>> {
        let rest = self.rt.open_dir(path)?;
        Ok(Names {
            rest,
            has_vanished: self.has_vanished,
            is_begun: false,
        })
    }

    fn metadata(&self, path: &str) -> io::Result<Metadata> {
        self.rt.metadata(path)
    }

    fn symlink_metadata(&self, path: &str) -> io::Result<Metadata> {
        self.rt.symlink_metadata(path)
    }

    fn copy(&self, from: &str, to: &str) -> io::Result<u64> {
        self.rt.copy(from, to)
    }

    fn rename(&self, from: &str, to: &str) -> io::Result<()> {
        self.rt.rename(from, to)
    }

    fn remove_file(&self, path: &str) -> io::Result<()> {
        self.rt.remove_file(path)
    }

    fn create_dir(&self, path: &str) -> io::Result<()> {
        self.rt.create_dir(path)
    }

    fn remove_dir(&self, path: &str) -> io::Result<()> {
        self.rt.remove_dir(path)
    }

    fn remove_dir_all<B: Allocator>(&self, alloc: B, path: &str) -> io::Result<()> {
        self.rt.remove_dir_all(alloc, path)
    }
}
