//! A runtime for tests, which counts the syncs of its files and folders.
use lru_host_folder::claim::Claim;
use std::alloc::{Alloc, Allocator, Global};
use std::fs::{Metadata, OpenFile, OpenOptions};
use std::io;
use std::io::{Read, Seek, SeekFrom, Write};
use std::rt::Files;
use std::sync::atomic::{AtomicUsize, Ordering};

/// A file whose syncs are counted.
#[derive(Drop)]
pub struct CountedFile<'a, T> {
    file: T,
    syncs: &'a AtomicUsize,
}

impl<T: Read> Read for CountedFile<'_, T> {
    fn read(&mut self, buf: &mut [u8]) -> io::Result<usize> {
        self.file.read(buf)
    }
}

impl<T: Write> Write for CountedFile<'_, T> {
    fn write(&mut self, buf: &[u8]) -> io::Result<usize> {
        self.file.write(buf)
    }

    fn flush(&mut self) -> io::Result<()> {
        self.file.flush()
    }
}

impl<T: Seek> Seek for CountedFile<'_, T> {
    fn seek(&mut self, to: SeekFrom) -> io::Result<u64> {
        self.file.seek(to)
    }
}

impl<T: OpenFile> OpenFile for CountedFile<'_, T> {
    fn metadata(&self) -> io::Result<Metadata> {
        self.file.metadata()
    }

    fn set_len(&self, size: u64) -> io::Result<()> {
        self.file.set_len(size)
    }

    fn sync_all(&self) -> io::Result<()> {
        self.syncs.fetch_add(1, Ordering::SeqCst);
        self.file.sync_all()
    }

    fn sync_data(&self) -> io::Result<()> {
        self.file.sync_data()
    }
}

impl<T: Claim> Claim for CountedFile<'_, T> {
    fn claim(&self) -> bool {
        self.file.claim()
    }
}

/// The runtime, which is the inner one in all else.
#[derive(Clone, Copy)]
pub struct Counted<'a, R> {
    rt: R,
    syncs: &'a AtomicUsize,
}

impl<'a, R> Counted<'a, R> {
    /// With this counter.
    pub fn new(rt: R, syncs: &'a AtomicUsize) -> Self {
        Counted { rt, syncs }
    }
}

impl<R: AllocGlobal> Alloc for Counted<'_, R> {
    type A = Global;

    fn alloc(&self) -> Global {
        self.rt.alloc()
    }
}

impl<'a, R: Files> Files for Counted<'a, R> {
    type File = CountedFile<'a, R::File>;

    type Dir = R::Dir;

    fn open_file(&self, how: &OpenOptions, path: &str) -> io::Result<CountedFile<'a, R::File>> {
        let file = self.rt.open_file(how, path)?;
        Ok(CountedFile {
            file,
            syncs: self.syncs,
        })
    }

    fn open_dir(&self, path: &str) -> io::Result<R::Dir> {
        self.rt.open_dir(path)
    }

    fn metadata(&self, path: &str) -> io::Result<Metadata> {
        self.rt.metadata(path)
    }

    fn symlink_metadata(&self, path: &str) -> io::Result<Metadata> {
        self.rt.symlink_metadata(path)
    }

    fn copy(&self, from: &str, to: &str) -> io::Result<u64> {
        self.rt.copy(from, to)
    }

    fn rename(&self, from: &str, to: &str) -> io::Result<()> {
        self.rt.rename(from, to)
    }

    fn remove_file(&self, path: &str) -> io::Result<()> {
        self.rt.remove_file(path)
    }

    fn create_dir(&self, path: &str) -> io::Result<()> {
        self.rt.create_dir(path)
    }

    fn remove_dir(&self, path: &str) -> io::Result<()> {
        self.rt.remove_dir(path)
    }

    fn remove_dir_all<B: Allocator>(&self, alloc: B, path: &str) -> io::Result<()> {
        self.rt.remove_dir_all(alloc, path)
    }
}
