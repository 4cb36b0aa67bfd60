//! The program over a folder in memory.
use checkpoint_tool_inside::engine::run;
use lru_folder::folder::Folder;
use lru_memory_folder::memory_folder::MemoryFolder;
use std::alloc::{AllocError, Global};

pub(crate) fn words(alloc: Global, line: &str) -> Result<Vec<String>, AllocError> {
    let mut words = Vec::new(alloc);
    for word in line.split(' ') {
        words.push(String::from_str(alloc, word)?)?;
    }
    Ok(words)
}

// A folder without a checkpoint.
pub(crate) fn empty(alloc: Global) -> Result<MemoryFolder, AllocError> {
    let mut folder = MemoryFolder::new(alloc);
    match folder.make("d") {
        Ok(()) => Ok(folder),
        Err(_) => Err(AllocError),
    }
}

// Whether these words and this input are answered by this status and text.
pub(crate) fn answers(
    alloc: Global,
    folder: &mut MemoryFolder,
    line: &str,
    input: &str,
    status: u8,
    text: &str,
) -> Result<bool, AllocError> {
    let words = words(alloc, line)?;
    let mut reader = input.as_bytes();
    let mut writer = Vec::new(alloc);
    let answer = run(alloc, folder, &words, &mut reader, &mut writer).unwrap_or(9);
    Ok((answer, writer.as_slice()) == (status, text.as_bytes()))
}

// What these words write.
pub(crate) fn written(
    alloc: Global,
    folder: &mut MemoryFolder,
    line: &str,
) -> Result<Vec<u8>, AllocError> {
    let words = words(alloc, line)?;
    let mut reader = b"".as_slice();
    let mut writer = Vec::new(alloc);
    let _ = run(alloc, folder, &words, &mut reader, &mut writer);
    Ok(writer)
}

/// A run of the program: its words, its input, the status that it ends with, and what it writes.
pub(crate) type Run = (&'static str, &'static str, u8, &'static str);

// Runs the program on a folder again and again. The number of the first run, if there is one, that answers otherwise.
pub(crate) fn other_run(
    alloc: Global,
    folder: &mut MemoryFolder,
    runs: &[Run],
) -> Result<Option<usize>, AllocError> {
    for (number, (line, input, status, text)) in runs.iter().enumerate() {
        if !answers(alloc, folder, line, input, *status, text)? {
            return Ok(Some(number));
        }
    }
    Ok(None)
}

// The same on a folder without a checkpoint; and whether it has a file then.
pub(crate) fn other_run_on_empty(
    alloc: Global,
    runs: &[Run],
) -> Result<(Option<usize>, bool), AllocError> {
    let mut folder = empty(alloc)?;
    let other = other_run(alloc, &mut folder, runs)?;
    Ok((other, !folder.paths()?.is_empty()))
}

// Whether the rows are saved as this generation.
pub(crate) fn saves(
    alloc: Global,
    folder: &mut MemoryFolder,
    input: &str,
    text: &str,
) -> Result<bool, AllocError> {
    answers(alloc, folder, "save d c", input, 0, text)
}
