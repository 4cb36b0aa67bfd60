//! What a folder in memory keeps of its calls.
ghost use Rattle.std.specs.Prelude.{◌≡◌};
ghost use Rattle.lru_memory_folder.specs.History.{end_of};

/// A call, with what it was given to do to the files.
#[derive(Drop)]
pub(crate) enum FileCall {
    Create(String),
    Write(String, Vec<u8>),
    Rename(String, String),
    Remove(String),
    /// Of the open file's path: a call that makes its bytes safe from a loss of power, and each name given before.
    Sync(String),
    /// Of a folder: a call that makes the names in it safe from a loss of power.
    SyncDir(String),
    /// A call that changes no file.
    Look,
}

/// How a call ended.
#[derive(Clone, Copy)]
pub enum End {
    Done,
    NotFound,
    /// Of a `write` that failed at most so many bytes were put, of any other call nothing was done.
    Failed(usize),
}

/// A call with how it ended.
#[derive(Drop)]
pub(crate) struct EndedCall {
    pub(crate) call: FileCall,
    pub(crate) end: End,
}

/// Which calls are made to fail, counted from the next one, and how many bytes of a piece are put before.
#[derive(Clone, Copy)]
pub enum Plan {
    Works,
    FailsAt(u64, usize),
    StopsAt(u64, usize),
}

/// How a call ends, by its fate and by whether what it asks for is there.
pub(crate) fn end_of(fate: Option<usize>, found: bool) -> End
    ensures { result ≡ end_of fate found }
{
    match fate {
        Some(part) => End::Failed(part),
        None => { if found { End::Done } else { End::NotFound } }
    }
}
