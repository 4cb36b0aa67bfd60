//! A folder for tests, which cannot be listed.
ghost use Rattle.std.specs.Prelude.{◌≡◌, [], false, if◌then◌else◌};
ghost use Rattle.lru_folder.specs.Meaning.{without_meaning};
ghost use Rattle.pingora_lru_files.specs.Folder.{Closed, Lost, Writing};

use pingora_lru_files::persistence::{Folder, FolderFault, Listed};

/// No file is there, none can be written, and memory is refused to a list.
#[derive(Debug, Drop)]
pub struct Unlisted {
    is_read: bool,
    is_written: bool,
}

impl Unlisted {
    /// No file of it is open.
    pub fn new() -> Self {
        Unlisted {
            is_read: false,
            is_written: false,
        }
    }

    fn close(&mut self)
        ensures { self.new ≡ record self.old { is_read = false; is_written = false } }
    {
        self.is_read = false;
        self.is_written = false;
    }
}

impl Folder for Unlisted {
    ghost meaning = { without_meaning };

    ghost opened = { λ folder. if folder.is_read then Lost else (if folder.is_written then Writing [] else Closed) };

    fn make(&mut self, _dir: &str) -> Result<(), FolderFault> {
        self.close();
        Ok(())
    }

    fn create(&mut self, _path: &str) -> Result<(), FolderFault> {
        self.close();
        Err(FolderFault::Memory)
    }

    fn write(&mut self, _piece: &[u8]) -> Result<(), FolderFault> {
        Err(FolderFault::Io)
    }

    fn flush(&mut self) -> Result<(), FolderFault> {
        Err(FolderFault::Io)
    }

    fn sync(&mut self) -> Result<(), FolderFault> {
        Err(FolderFault::Io)
    }

    fn rename(&mut self, _from: &str, _to: &str) -> Result<(), FolderFault> {
        self.close();
        Err(FolderFault::Io)
    }

    fn open(&mut self, _path: &str) -> Result<u64, FolderFault> {
        self.close();
        Err(FolderFault::NotFound)
    }

    fn read(&mut self, _max: usize) -> Result<Vec<u8>, FolderFault> {
        Err(FolderFault::Io)
    }

    fn list(&mut self, _dir: &str) -> Result<Vec<Listed>, FolderFault> {
        self.close();
        Err(FolderFault::Memory)
    }

    fn remove(&mut self, _path: &str) -> Result<(), FolderFault> {
        self.close();
        Err(FolderFault::Io)
    }
}
