//! A folder for tests, which answers as it is told to.
ghost use Rattle.std.specs.Prelude.{◌≡◌, [], false, if◌then◌else◌};
ghost use Rattle.lru_folder.specs.Meaning.{without_meaning};
ghost use Rattle.pingora_lru_files.specs.Folder.{Opened, Closed, Lost, Writing};

use pingora_lru_files::persistence::{Folder, FolderFault, Listed};
use std::alloc::Global;

/// What a file does.
#[derive(Clone, Copy, Debug)]
pub enum File<'a> {
    Bytes(&'a [u8]),
    FailsToOpen(FolderFault),
    FailsToRead(FolderFault),
}

/// A folder whose files are given. A path that is in no pair is not there. Files can be created, and no write
/// gets through.
#[derive(Debug, Drop)]
pub struct Shelf<'a> {
    alloc: Global,
    files: &'a [(&'a str, File<'a>)],
    listing: Result<&'a [&'a str], FolderFault>,
    stuck: &'a str,
    open: File<'a>,
    is_open: bool,
    is_written: bool,
}

impl<'a> Shelf<'a> {
    /// A folder with these files, whose listing is given too. The path `stuck` can be neither removed nor created.
    pub fn new(
        alloc: Global,
        files: &'a [(&'a str, File<'a>)],
        listing: Result<&'a [&'a str], FolderFault>,
        stuck: &'a str,
    ) -> Self {
        Shelf {
            alloc,
            files,
            listing,
            stuck,
            open: File::FailsToOpen(FolderFault::NotFound),
            is_open: false,
            is_written: false,
        }
    }

    fn close(&mut self)
        ensures { self.new ≡ record self.old { is_open = false; is_written = false } }
    {
        self.is_open = false;
        self.is_written = false;
    }

    fn file_at(&self, path: &str) -> File<'a> {
        for (name, file) in self.files {
            if *name == path {
                return *file;
            }
        }
        File::FailsToOpen(FolderFault::NotFound)
    }
}

impl Folder for Shelf<'_> {
    ghost meaning = { without_meaning };

    ghost opened = { λ shelf. if shelf.is_open then Lost else (if shelf.is_written then Writing [] else Closed) };

    fn make(&mut self, _dir: &str) -> Result<(), FolderFault> {
        self.close();
        Err(FolderFault::Io)
    }

    fn create(&mut self, path: &str) -> Result<(), FolderFault> {
        self.close();
        if path == self.stuck {
            return Err(FolderFault::Io);
        }
        self.is_written = true;
        Ok(())
    }

    fn write(&mut self, _piece: &[u8]) -> Result<(), FolderFault> {
        Err(FolderFault::Io)
    }

    fn flush(&mut self) -> Result<(), FolderFault> {
        Err(FolderFault::Io)
    }

    fn sync(&mut self) -> Result<(), FolderFault> {
        Err(FolderFault::Io)
    }

    fn rename(&mut self, _from: &str, _to: &str) -> Result<(), FolderFault> {
        self.close();
        Err(FolderFault::Io)
    }

    fn open(&mut self, path: &str) -> Result<u64, FolderFault> {
        self.close();
        self.open = self.file_at(path);
        match self.open {
            File::FailsToOpen(fault) => Err(fault),
            File::FailsToRead(_) => {
                self.is_open = true;
                Ok(1)
            }
            File::Bytes(bytes) => {
                self.is_open = true;
                Ok(bytes.len() as u64)
            }
        }
    }

    fn read(&mut self, _max: usize) -> Result<Vec<u8>, FolderFault> {
        match self.open {
            File::Bytes(bytes) => Ok(Vec::from_slice(self.alloc, bytes)?),
            File::FailsToRead(fault) => Err(fault),
            File::FailsToOpen(fault) => Err(fault),
        }
    }

    fn list(&mut self, _dir: &str) -> Result<Vec<Listed>, FolderFault> {
        self.close();
        let names = self.listing?;
        let mut listed = Vec::new(self.alloc);
        for name in names {
            if name.is_empty() {
                listed.push(Listed::Unreadable)?;
            } else {
                listed.push(Listed::Name(String::from_str(self.alloc, name)?))?;
            }
        }
        Ok(listed)
    }

    fn remove(&mut self, path: &str) -> Result<(), FolderFault> {
        self.close();
        if path == self.stuck {
            return Err(FolderFault::Io);
        }
        Ok(())
    }
}
