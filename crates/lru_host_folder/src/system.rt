//! The calls of an operating system that a folder makes.
ghost use Rattle.std.specs.Prelude.{◌≡◌, IfOk, map, string_bytes, take};
ghost use Rattle.lru_host_folder.specs.Calls.{Book, Closes, Creates, Done, Flushes, IsNoted, Lists, Locks, MakesFolder, Matches, Measures, Opens, Reads, Removes, Renames, SeesFile, SeesFolder, Syncs, SyncsFolder, Writes};

use std::alloc::Global;
use std::io;

/// The files of an operating system, one call at a time.
pub trait System {
    /// An open file, or an open folder.
    type File: Drop;

    /// What the system notes of its calls: each of them, with what it answered.
    ghost book: { Book Self Self.File };

    /// Where memory comes from.
    fn alloc(&self) -> Global;

    /// Logs what the system said, before a folder answers `Io`.
    fn warn(&self, call: &str, path: &str, error: &io::Error);

    /// Whether a file is there. A link is none, whatever it leads to.
    fn is_file(&mut self, path: &str) -> io::Result<bool>
        ensures { IsNoted book self.old self.new (SeesFile path.now) result };

    /// Whether a folder is there, or a link to one.
    fn is_folder(&mut self, dir: &str) -> io::Result<bool>
        ensures { IsNoted book self.old self.new (SeesFolder dir.now) result };

    /// Opens a file for writing that was not there before.
    fn create(&mut self, path: &str) -> io::Result<Self::File>
        ensures noted { IsNoted book self.old self.new (λ _. Creates path.now) result }
        ensures place { IfOk result (λ file. book.file_of file ≡ book.at_path path.now) };

    /// Opens a file for reading, or a folder.
    fn open(&mut self, path: &str) -> io::Result<Self::File>
        ensures noted { IsNoted book self.old self.new (λ _. Opens path.now) result }
        ensures place { IfOk result (λ file. book.file_of file ≡ book.at_path path.now) };

    /// The length of an open file.
    fn len(&mut self, file: &Self::File) -> io::Result<u64>
        ensures { IsNoted book self.old self.new (Measures (book.file_of file.now)) result };

    /// Has the open file for this open alone, until it is closed; false where another open has it. On a system that can't
    /// tell, no other has it.
    fn lock(&mut self, file: &Self::File) -> bool
        ensures { book.notes self.new ≡ book.note (book.notes self.old) (Done (Locks (book.file_of file.now) result)) };

    /// Whether this open file is what stands at the path.
    fn is_at(&mut self, file: &Self::File, path: &str) -> io::Result<bool>
        ensures { IsNoted book self.old self.new (Matches (book.file_of file.now) path.now) result };

    /// Puts the whole piece at the end of the open file.
    fn write(&mut self, file: &mut Self::File, piece: &[u8]) -> io::Result<()>
        ensures noted { IsNoted book self.old self.new (λ _. Writes (book.file_of file.old) piece.now) result }
        ensures place { book.file_of file.new ≡ book.file_of file.old };

    /// Passes on what was written.
    fn flush(&mut self, file: &mut Self::File) -> io::Result<()>
        ensures noted { IsNoted book self.old self.new (λ _. Flushes (book.file_of file.old)) result }
        ensures place { book.file_of file.new ≡ book.file_of file.old };

    /// Makes what was written safe from a loss of power.
    fn sync(&mut self, file: &mut Self::File) -> io::Result<()>
        ensures noted { IsNoted book self.old self.new (λ _. Syncs (book.file_of file.old)) result }
        ensures place { book.file_of file.new ≡ book.file_of file.old };

    /// Reads the next bytes into the front of the piece, and answers how many; none is the end.
    fn read(&mut self, file: &mut Self::File, piece: &mut [u8]) -> io::Result<usize>
        ensures noted { IsNoted book self.old self.new (λ count. Reads (book.file_of file.old) (take count piece.new)) result }
        ensures place { book.file_of file.new ≡ book.file_of file.old };

    /// Closes the file, which also lets go of its lock.
    fn close(&mut self, file: Self::File)
        ensures { book.notes self.new ≡ book.note (book.notes self.old) (Done (Closes (book.file_of file))) };

    /// Gives a file another path.
    fn rename(&mut self, from: &str, to: &str) -> io::Result<()>
        ensures { IsNoted book self.old self.new (λ _. Renames from.now to.now) result };

    /// Takes a path away that is no folder.
    fn remove(&mut self, path: &str) -> io::Result<()>
        ensures { IsNoted book self.old self.new (λ _. Removes path.now) result };

    /// Makes a folder, in one that is there.
    fn make_folder(&mut self, dir: &str) -> io::Result<()>
        ensures { IsNoted book self.old self.new (λ _. MakesFolder dir.now) result };

    /// Makes the names in a folder safe from a loss of power.
    fn sync_folder(&mut self, dir: &str) -> io::Result<()>
        ensures { IsNoted book self.old self.new (λ _. SyncsFolder dir.now) result };

    /// The names of the files in a folder, in any order, and how many names are no UTF-8.
    fn list(&mut self, dir: &str) -> io::Result<(Vec<String>, usize)>
        ensures { IsNoted book self.old self.new (λ found. Lists dir.now (map string_bytes found.0.items) found.1) result };
}
